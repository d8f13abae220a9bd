//! Lists that are encoded of their members.

ghost use Rattle.x509_c_calls.specs.DescribedParts.{EncodesList};
ghost use Rattle.x509_c_calls.specs.Status.{Fills};

use crate::build::read_each;
use crate::{Status, write};
use std::alloc::Global;
use x509_der::{Decode, Encode, ErrorKind, SequenceOf};

/// Puts the encoding of the list of these members at the front of the buffer `room`: their encodings are given one after
/// the other.
///
/// # Errors
///
/// [`Status::NoRoom`] where the buffer is too small; then `written` is the needed length. The error of decoding the
/// members; `Value` where there are none. `Overlength` where the list is too long. `Memory` when out of memory.
#[tactic(auto, unfolding(crate::specs::Status::Fills, crate::specs::Calls::Encodes))]
pub fn list_encode<T: Decode + Encode + Drop>(
    alloc: Global,
    members: &[u8],
    room: &mut [u8],
    written: &mut usize,
) -> Status
    ensures { Fills (EncodesList T.form T.writing T.refuses members.now) room.old room.new written.old written.new result }
{
    if members.is_empty() {
        return Status::Refused(ErrorKind::Value);
    }
    match read_each::<T>(alloc, members) {
        Ok(values) => write(&SequenceOf::from(values), room, written),
        Err(e) => Status::Refused(e),
    }
}
