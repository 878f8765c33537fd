use std::fmt;

/// The phase of a pod's life.
#[derive(Clone, Copy, Debug, PartialEq, Eq)]
pub enum Phase {
    /// An init container is not finished, or a container was never started.
    Pending,
    /// Each container was started, and not all are finished.
    Running,
    /// All containers are finished, each with code 0.
    Succeeded,
    /// All containers are finished, one with another code; or an init container is.
    Failed,
    /// The last call for the pod was lost, so the phase is not known.
    Unknown,
}

/// The phase's name.
impl fmt::Display for Phase {
    ghost use Rattle.std.specs.Prelude.{Some};
    ghost use Rattle.lifecycle.specs.Names.{phase_name};

    ghost output = { λ phase. Some (phase_name phase) };

    fn fmt<W: fmt::Write>(&self, f: &mut fmt::Formatter<W>) -> fmt::Result {
        match self {
            Phase::Pending => f.write_str("Pending"),
            Phase::Running => f.write_str("Running"),
            Phase::Succeeded => f.write_str("Succeeded"),
            Phase::Failed => f.write_str("Failed"),
            Phase::Unknown => f.write_str("Unknown"),
        }
    }
}
