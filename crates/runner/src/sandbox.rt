//! The cells of one sandbox, under a lock of the sandbox's own.
ghost use Rattle.std.specs.Prelude.{◌≡◌};

use manifest::Uid;
use runtime_history::{KeyedLock, Listed, Node};

/// The cells of a sandbox under their lock, which is the lock of the sandbox's uid. A thread may still have a
/// reference when the sandbox is removed: it finds no cell then.
#[derive(Drop)]
pub(crate) struct SandboxCells<B: Node> {
    pub(crate) uid: Uid,
    pub(crate) lock: KeyedLock<Listed<B>>,
    ghost own: { lock.0 ≡ uid },
}
