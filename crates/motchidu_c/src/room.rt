ghost use Rattle.std.specs.Prelude.{◌≡◌, ◌≤◌, ◌<◌, ◌⊎◌, ◌++◌, drop, length};
ghost use Rattle.motchidu_c.specs.declared.status.Status.TheVariants.{Accepted, NoRoom};

use crate::status::Status;

/// Writes the bytes to the front of the room if they fit. `len` becomes their number in both cases, so that a
/// caller without enough room learns how much it needs.
pub(crate) fn give(bytes: &[u8], room: &mut [u8], len: &mut usize) -> Status
    ensures tells { len.new ≡ length bytes.now }
    ensures fits { length bytes.now ≤ length room.old → (result ≡ Accepted)
        × (room.new ≡ bytes.now ++ drop (length bytes.now) room.old) }
    ensures no_room { length room.old < length bytes.now → (result ≡ NoRoom) × (room.new ≡ room.old) }
    ensures either { (result ≡ Accepted) ⊎ (result ≡ NoRoom) }
{
    *len = bytes.len();
    if bytes.len() > room.len() {
        return Status::NoRoom;
    }
    put(room, bytes);
    Status::Accepted
}

/// Writes the bytes to the front of the room.
fn put(room: &mut [u8], bytes: &[u8])
    requires { length bytes.now ≤ length room.old }
    ensures { room.new ≡ bytes.now ++ drop (length bytes.now) room.old }
{
    room[..bytes.len()].copy_from_slice(bytes);
}
