//! Names as texts.

ghost use Rattle.std.specs.Prelude.{◌≡◌, false};
ghost use Rattle.std.specs.Str.{is_utf8};
ghost use Rattle.x509_c_calls.specs.Named.{IsTextAnswer};
ghost use Rattle.x509_c_calls.specs.Status.{Fills};
ghost use Rattle.x509_c_calls.specs.declared.status.status.Status.TheVariants.{Refused};
ghost use Rattle.x509_der.specs.declared.error.ErrorKind.TheVariants.{Failed};

use crate::named::text::text_of;
use crate::{Status, fill};
use std::alloc::Global;
use x509_codec::NameCodec;
use x509_der::ErrorKind;

/// Decodes a name, and puts its text in UTF-8 at the front of the buffer `room`.
///
/// # Errors
///
/// [`Status::NoRoom`] where the buffer is too small; then `written` is the needed length. Else the codec's errors on
/// the bytes; `Memory` when out of memory.
#[tactic(auto, unfolding(crate::specs::Status::Fills))]
pub fn name_text<C: NameCodec>(
    alloc: Global,
    input: &[u8],
    room: &mut [u8],
    written: &mut usize,
) -> Status
    ensures { Fills (C.prints_name input.now) room.old room.new written.old written.new result }
{
    match C::print_name(alloc, input) {
        Ok(text) => fill(text.as_str().as_bytes(), room, written),
        Err(e) => e.into(),
    }
}

/// Reads the text of a name, and puts the name's encoding at the front of the buffer `room`.
///
/// # Errors
///
/// [`Status::NoRoom`] where the buffer is too small; then `written` is the needed length. `Failed` where the text isn't
/// UTF-8. Else the codec's errors on the text; `Memory` when out of memory.
#[tactic(auto, unfolding(crate::specs::Status::Fills))]
pub fn name_from_text<C: NameCodec>(
    alloc: Global,
    text: &[u8],
    room: &mut [u8],
    written: &mut usize,
) -> Status
    ensures filled { Fills (IsTextAnswer C.encodes_name (is_utf8 text.now) text.now) room.old room.new written.old written.new result }
    ensures text { is_utf8 text.now ≡ false → result ≡ Refused Failed }
{
    let Some(text) = text_of(text) else {
        return Status::Refused(ErrorKind::Failed);
    };
    match C::encode_name(alloc, text) {
        Ok(bytes) => fill(bytes.as_slice(), room, written),
        Err(e) => e.into(),
    }
}
