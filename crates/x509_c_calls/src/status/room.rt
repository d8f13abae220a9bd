//! Handing over bytes.

ghost use Rattle.std.specs.Prelude.{◌≡◌, ◌⊎◌, Ok};
ghost use Rattle.x509_c_calls.specs.Status.{Fills, IsPut};
ghost use Rattle.x509_c_calls.specs.declared.status.status.Status.TheVariants as statuses;

use crate::status::status::Status;

/// Puts the bytes at the front of the buffer `room`, and says how many they are.
///
/// # Errors
///
/// [`Status::NoRoom`] exactly where the buffer is too small; then it is unchanged, and `written` is the needed length.
#[tactic(auto, unfolding(crate::specs::Status::Fills))]
pub fn fill(bytes: &[u8], room: &mut [u8], written: &mut usize) -> Status
    ensures left { Fills (λ answer. answer ≡ Ok bytes.now) room.old room.new written.old written.new result }
    ensures unchanged { result ≡ statuses.NoRoom → room.new ≡ room.old }
    ensures accepted { (result ≡ statuses.Done) ⊎ (result ≡ statuses.NoRoom) }
{
    *written = bytes.len();
    if bytes.len() > room.len() {
        return Status::NoRoom;
    }
    room[..bytes.len()].copy_from_slice(bytes);
    Status::Done
}

/// Puts the bytes at the front of the buffer `room`, where they fit; else it is unchanged.
pub(crate) fn put(bytes: &[u8], room: &mut [u8])
    ensures { IsPut bytes.now room.old room.new }
{
    if bytes.len() <= room.len() {
        room[..bytes.len()].copy_from_slice(bytes);
    }
}
