/// The stage of a sandbox. A uid that was removed stays removed.
#[derive(Clone, Copy, Debug, PartialEq, Eq)]
pub enum Stage {
    /// The uid was never named.
    Unknown,
    /// Its sandbox exists, and takes new containers while it is ready.
    Live { ready: bool },
    Removed,
}
