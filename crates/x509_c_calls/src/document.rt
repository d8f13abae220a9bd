//! Objects as documents: lines that a person reads, or JSON.

ghost use Rattle.x509_c_calls.specs.Documents.{Shows};

use crate::{Status, fill};
use std::alloc::Global;
use x509_der::{ErrorKind, Length};
use x509_text::{Kind, Style, show_kind};

/// Decodes an object of that kind under no rules beyond the grammar (`Raw`), and puts its document, which says all that it has, in UTF-8 at the front
/// of the buffer `room`.
///
/// # Errors
///
/// [`Status::NoRoom`] where the buffer is too small; then `written` is the needed length. `Overlength` exactly where the bytes are more than
/// [`Length::MAX`]. Within that length `Malformed` exactly where they are the encoding of no such object; `Memory` when out of memory. The buffer is
/// unchanged then.
#[tactic(auto, unfolding(crate::specs::Documents::Shows, crate::specs::Status::Fills))]
pub fn show_object(
    alloc: Global,
    style: Style,
    kind: Kind,
    input: &[u8],
    room: &mut [u8],
    written: &mut usize,
) -> Status
    ensures { Shows kind style input.now room.old room.new written.old written.new result }
{
    if input.len() > Length::MAX.as_u32() as usize {
        return Status::Refused(ErrorKind::Overlength);
    }
    match show_kind(alloc, style, kind, input) {
        Ok(Some(text)) => fill(text.as_str().as_bytes(), room, written),
        Ok(None) => Status::Refused(ErrorKind::Malformed),
        Err(_) => Status::Refused(ErrorKind::Memory),
    }
}
