use std::fmt;

/// The state of a container.
#[derive(Clone, Copy, Debug, PartialEq, Eq)]
pub enum ContainerState {
    /// Neither of the others: not started yet, or ended and to be started again.
    Waiting,
    /// Its start was answered, and its exit was not recorded.
    Running,
    /// It is finished, with this code.
    Terminated(u8),
}

/// The state's name.
impl fmt::Display for ContainerState {
    ghost use Rattle.std.specs.Prelude.{Some};
    ghost use Rattle.lifecycle.specs.Names.{state_name};

    ghost output = { λ state. Some (state_name state) };

    fn fmt<W: fmt::Write>(&self, f: &mut fmt::Formatter<W>) -> fmt::Result {
        match self {
            ContainerState::Waiting => f.write_str("Waiting"),
            ContainerState::Running => f.write_str("Running"),
            ContainerState::Terminated(_) => f.write_str("Terminated"),
        }
    }
}
