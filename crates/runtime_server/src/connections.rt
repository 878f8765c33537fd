//! The connections that are open at once.
ghost use Rattle.std.specs.Prelude.{◌≡◌, ◌⊎◌, IfErr, IfOk, None, Some, false, length, slice_set, true};
ghost use Rattle.runtime_server.specs.Places.{first_free};
ghost use Rattle.runtime_server.specs.declared.connections.NoPlace.{NoPlace};
ghost use Rattle.runtime_server.specs.declared.connections.TheConstants.{MAX_CONNECTIONS};

use crate::places::Places;
use node_io::Cause;
use std::alloc::{AllocError, Global};
use std::net::Shutdown;
use std::os::unix::net::UnixStream;
use std::sync::{Mutex, Wait};

/// How many connections are served at the same time. One more is closed immediately.
pub const MAX_CONNECTIONS: usize = 128;

// A place for each connection that may be open.
#[derive(Drop)]
struct Open {
    places: Places<UnixStream>,
    closed: bool,
    ghost count: { length places ≡ MAX_CONNECTIONS },
}

impl Open {
    fn new(alloc: Global) -> Result<Open, AllocError>
        ensures { IfOk result (λ made. made.closed ≡ false) }
    {
        Ok(Open {
            places: Places::new(alloc, MAX_CONNECTIONS)?,
            closed: false,
        })
    }

    // Puts a connection into the first free place, or returns it with the reason why it gets none.
    fn enter(&mut self, stream: UnixStream) -> Result<usize, (NoPlace, UnixStream)>
        ensures entered { IfOk result (λ place. (self.old.closed ≡ false)
            × (first_free self.old.places ≡ Some place)
            × (self.new.places ≡ slice_set self.old.places place (Some stream))) }
        ensures none { IfErr result (λ back. (back.1 ≡ stream) × (self.new.places ≡ self.old.places)
            × (((back.0 ≡ NoPlace.Closed) × (self.old.closed ≡ true))
            ⊎ ((back.0 ≡ NoPlace.Full) × (first_free self.old.places ≡ None)))) }
        ensures closed { self.new.closed ≡ self.old.closed }
    {
        if self.closed {
            return Err((NoPlace::Closed, stream));
        }
        match self.places.put(stream) {
            Ok(place) => Ok(place),
            Err(stream) => Err((NoPlace::Full, stream)),
        }
    }
}

/// Why a connection gets no place.
#[derive(Clone, Copy, Debug, PartialEq, Eq)]
pub enum NoPlace {
    /// The maximum number of connections is open.
    Full,
    /// No more connections are served.
    Closed,
    /// The system refused a copy of the connection, which is needed to cut it off.
    System(Cause),
}

/// The open connections, kept so that they can be cut off.
#[derive(Drop)]
pub struct Connections {
    open: Mutex<Open>,
}

impl Connections {
    /// No connection is open yet.
    pub fn new(alloc: Global) -> Result<Connections, AllocError> {
        Ok(Connections {
            open: Mutex::new(Open::new(alloc)?),
        })
    }

    /// Takes a place for a connection.
    pub fn enter<R: Wait>(&self, rt: &R, stream: &UnixStream) -> Result<usize, NoPlace> {
        if self.is_closed(rt) {
            return Err(NoPlace::Closed);
        }
        let copy = match stream.try_clone() {
            Ok(copy) => copy,
            Err(error) => return Err(NoPlace::System(Cause::of(&error))),
        };
        let mut open = self.open.lock(rt);
        let entered = open.enter(copy);
        drop(open);
        // A copy that found no place is dropped here, after the lock was released.
        match entered {
            Ok(place) => Ok(place),
            Err((why, _copy)) => Err(why),
        }
    }

    /// Frees a place.
    pub fn leave<R: Wait>(&self, rt: &R, place: usize) {
        let mut open = self.open.lock(rt);
        let left = open.places.take(place);
        drop(open);
        drop(left);
    }

    /// Whether no connection is open.
    pub fn is_empty<R: Wait>(&self, rt: &R) -> bool {
        self.open.lock(rt).places.is_empty()
    }

    /// Whether no more connections are served.
    pub fn is_closed<R: Wait>(&self, rt: &R) -> bool {
        self.open.lock(rt).closed
    }

    /// Cuts all connections off, and serves no more.
    pub fn close<R: Wait>(&self, rt: &R) {
        let mut open = self.open.lock(rt);
        open.closed = true;
        drop(open);
        for place in 0..MAX_CONNECTIONS {
            let mut open = self.open.lock(rt);
            let stream = open.places.take(place);
            drop(open);
            if let Some(stream) = stream {
                let _ = stream.shutdown(Shutdown::Both);
            }
        }
    }
}
