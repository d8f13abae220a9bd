//! Writing a document piece by piece.

ghost use Rattle.std.specs.Prelude.{◌≡◌, None, Some};
ghost use Rattle.x509_object_run.specs.Object.{IsPrinted, heading_text};
ghost use Rattle.x509_show.specs.Show.{IsDocument};
ghost use Rattle.x509_text.specs.Pieces.{left};

use std::alloc::{AllocError, Global};
use x509_object_run::{Heading, PrintError, write_headed};
use x509_text::CrlPieces;
use x509_tool_run::{Sink, WriteError, write_text};

/// Writes all that is still to come of a document, under a heading.
pub(crate) fn write_pieces<W: Sink>(
    alloc: Global,
    heading: Heading<'_>,
    mut pieces: CrlPieces<'_>,
    writer: &mut W,
) -> Result<u8, PrintError>
    ensures { IsPrinted (IsDocument (heading_text heading.entry) (Some (left pieces.entry))) (Some (left pieces.entry) ≡ None)
        W.takes writer.old writer.new result }
{
    if let Err(WriteError) = write_headed(writer, heading, b"") {
        return Err(PrintError::Unwritten);
    }
    loop {
        match pieces.next_piece(alloc) {
            Ok(Some(piece)) => {
                if let Err(WriteError) = write_text(writer, piece.as_str().as_bytes()) {
                    return Err(PrintError::Unwritten);
                }
            }
            Ok(None) => return Ok(0),
            Err(AllocError) => return Err(PrintError::Memory),
        }
    }
}
