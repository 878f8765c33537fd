ghost use Rattle.std.specs.Prelude.{◌≡◌};
ghost use Rattle.runtime_server.specs.declared.connections.TheConstants.{MAX_CONNECTIONS};
ghost use Rattle.runtime_server.specs.declared.server.TheConstants.{REST};
ghost use Rattle.runtime_server.specs.declared.path_lock.TheConstants.{LOCKS};
ghost use Rattle.runtime_server.specs.declared.sockets.TheConstants.{FOLDERS};
ghost use Rattle.runtime_stops.specs.declared.socket_fault.TheConstants.{MAX_NAME};
ghost use Rattle.runtime_server.specs.declared.line_queue.TheConstants.{MAX_WAITING};
ghost use Rattle.runtime_server.specs.declared.line_writer.TheConstants.{READER_PATIENCE};
ghost use Rattle.runtime_server.specs.declared.templates.TheConstants.{MAX_SEEN};

/// The values of this crate's constants.
pub fn constants_are_as_stated()
    ensures max_connections { MAX_CONNECTIONS ≡ 128 }
    // milliseconds
    ensures rest { REST ≡ 10 }
    ensures folders { FOLDERS ≡ 100 }
    ensures locks { LOCKS ≡ 100 }
    // unix(7)
    ensures max_name { MAX_NAME ≡ 107 }
    // lines, and seconds
    ensures max_waiting { MAX_WAITING ≡ 16384 }
    ensures reader_patience { READER_PATIENCE ≡ 10 }
    ensures max_seen { MAX_SEEN ≡ 16 }
{}
