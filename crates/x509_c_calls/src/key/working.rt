//! Keys as they are used under others.

ghost use Rattle.x509_c_calls.specs.Status.{Fills};
ghost use Rattle.x509_path_steps.specs.WorkingKeys.{AnswersKey};

use crate::{Status, fill};
use std::alloc::Global;

/// Puts the encoding of a public key as it is used under the key above it (RFC 5280 6.1.4 (d) to (f)) at the front of the buffer
/// `room`, as [`working_key`](x509_validation::working_key) says.
///
/// # Errors
///
/// [`Status::NoRoom`] where the buffer is too small; then `written` is the needed length. `Overlength` or `Malformed` where one of
/// the keys is too long or is none; `Overlength` where the encoding would be too long. `Memory` when out of memory.
#[tactic(auto, unfolding(crate::specs::Status::Fills))]
pub fn working_key(
    alloc: Global,
    above: &[u8],
    key: &[u8],
    room: &mut [u8],
    written: &mut usize,
) -> Status
    ensures { Fills (AnswersKey above.now key.now) room.old room.new written.old written.new result }
{
    match x509_validation::working_key(alloc, above, key) {
        Ok(octets) => fill(octets.as_slice(), room, written),
        Err(e) => e.into(),
    }
}
