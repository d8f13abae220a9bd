//! Decoding a value and encoding it again.

ghost use Rattle.std.specs.Prelude.{◌≡◌};
ghost use Rattle.x509_c_calls.specs.Calls.{Encodes};
ghost use Rattle.x509_c_calls.specs.Status.{Fills};
ghost use Rattle.x509_c_calls.specs.declared.status.status.Status.TheVariants as statuses;
ghost use Rattle.x509_der.specs.Element.{limit};
ghost use Rattle.x509_der.specs.declared.error.ErrorKind.{ErrorKind};
ghost use Rattle.x509_der.specs.Writing.{IsUnwritable, writes};
ghost use Rattle.x509_types.specs.Reencoding.{Reencodes};

use crate::status::status::Status;
use std::alloc::Global;
use x509_der::{Decode, Encode};

/// Encodes the value at the front of the buffer `room`, and says how many bytes it has. It takes no memory.
///
/// # Errors
///
/// [`Status::NoRoom`] where the buffer is too small; then `written` is the needed length. Else as [`Encode::to_der`]
/// where the value can't be encoded. The buffer may hold a part of the encoding then.
#[tactic(auto, unfolding(crate::specs::Calls::Encodes, crate::specs::Status::Fills))]
pub fn write<T: Encode>(value: &T, room: &mut [u8], written: &mut usize) -> Status
    ensures filled { Fills (Encodes T.form (writes T.writing value.now)) room.old room.new written.old written.new result }
    ensures refused { (e : ErrorKind) → result ≡ statuses.Refused e → IsUnwritable T.form (writes T.writing value.now) limit e }
{
    match value.encode_into(&mut *room) {
        Ok(before) => {
            *written = room.len() - before;
            room.copy_within(before.., 0);
            Status::Done
        }
        Err(_) => match value.encoded_len() {
            Ok(len) => {
                *written = len.as_u32() as usize;
                Status::NoRoom
            }
            Err(e) => e.into(),
        },
    }
}

/// Decodes a value, and encodes it at the front of the buffer `room`.
///
/// # Errors
///
/// [`Status::NoRoom`] where the buffer is too small; then `written` is the needed length. Else as [`Decode::from_der`]
/// and [`Encode::to_der`]; `Memory` when out of memory.
#[tactic(auto, unfolding(crate::specs::Calls::Encodes, crate::specs::Status::Fills, x509_types::specs::Reencoding::Reencodes))]
pub fn reencode<T: Decode + Encode + Drop>(
    alloc: Global,
    input: &[u8],
    room: &mut [u8],
    written: &mut usize,
) -> Status
    ensures { Fills (Reencodes T.form T.writing T.refuses input.now) room.old room.new written.old written.new result }
{
    match T::from_der(alloc, input) {
        Ok(value) => write(&value, room, written),
        Err(e) => e.into(),
    }
}
