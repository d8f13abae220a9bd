//! Which rules an object breaks, as lines of JSON.

ghost use Rattle.x509_c_lint.specs.Findings.{Lints};

use std::alloc::Global;
use x509_c_calls::{Status, fill};
use x509_der::{ErrorKind, Length};
use x509_lint::{Kind, Style, lint_kind};

/// Decodes an object of that kind under no rules beyond the grammar (`Raw`), and puts a line for each rule that it breaks, an object of JSON as
/// [`lint_kind`] has it, in UTF-8 at the front of the buffer `room`: nothing where it breaks none.
///
/// # Errors
///
/// [`Status::NoRoom`] where the buffer is too small; then `written` is the needed length. `Overlength` exactly where the bytes are more than
/// [`Length::MAX`]. Within that length `Malformed` exactly where they are the encoding of no such object; `Memory` when out of memory. The buffer is
/// unchanged then.
#[tactic(auto, unfolding(crate::specs::Findings::Lints, x509_c_calls::specs::Status::Fills))]
pub fn lint_object(
    alloc: Global,
    kind: Kind,
    input: &[u8],
    room: &mut [u8],
    written: &mut usize,
) -> Status
    ensures { Lints kind input.now room.old room.new written.old written.new result }
{
    if input.len() > Length::MAX.as_u32() as usize {
        return Status::Refused(ErrorKind::Overlength);
    }
    match lint_kind(alloc, Style::Json("{"), kind, input) {
        Ok(Some(report)) => fill(report.text.as_str().as_bytes(), room, written),
        Ok(None) => Status::Refused(ErrorKind::Malformed),
        Err(_) => Status::Refused(ErrorKind::Memory),
    }
}
