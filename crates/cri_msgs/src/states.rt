ghost use Rattle.std.specs.Prelude.{◌≡◌, ◌↔◌, IsTrue};
ghost use Rattle.cri_msgs.specs.Names.{kind_of};

/// The state of a container, as `ContainerState` of CRI v1 names it. `CONTAINER_UNKNOWN` is never sent.
#[derive(Clone, Copy, Debug, PartialEq, Eq)]
pub enum ContainerState {
    Created,
    Running,
    Exited,
}

/// The state of a container, with its exit code if it has exited.
#[derive(Clone, Copy, Debug, PartialEq, Eq)]
pub enum State {
    Created,
    Running,
    Exited(u8),
}

impl State {
    /// The state without its code.
    pub fn kind(self) -> ContainerState
        ensures { result ≡ kind_of self }
    {
        match self {
            State::Created => ContainerState::Created,
            State::Running => ContainerState::Running,
            State::Exited(_) => ContainerState::Exited,
        }
    }
}

/// The status of a container: its state, how many of its calls were performed, and how many were judged and
/// not performed.
#[derive(Clone, Copy, Debug, PartialEq, Eq)]
pub struct Status {
    pub state: State,
    pub performed: u64,
    pub denied: u64,
}

impl Status {
    /// Whether both are the same status.
    pub fn same(&self, other: &Status) -> bool
        ensures { IsTrue result ↔ (self.now ≡ other.now) }
    {
        *self == *other
    }
}
