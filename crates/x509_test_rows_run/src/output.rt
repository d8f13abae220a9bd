//! Writing many lines in few writes.

ghost use Rattle.std.specs.Prelude.{◌≡◌, ◌++◌, ℕ, List, [], OnOk, OnErr};
ghost use Rattle.x509_tool_run.specs.Program.{IsCutOff};
ghost use Rattle.x509_test_rows_run.specs.Lines.{Said};

use x509_tool_run::{Sink, WriteError, write_text};

/// How many bytes are held back before they are written.
const PAGE: usize = 8192;

/// Writes what is held back, and holds nothing back from then on.
pub(crate) fn flush<W: Sink>(held: &mut Vec<u8>, writer: &mut W) -> Result<(), WriteError>
    ensures empty { held.new.items ≡ [] }
    ensures ok { OnOk result ((start : W) (output : List ℕ)
        → Said W.takes start output held.old.items writer.old → Said W.takes start output [] writer.new) }
    ensures err { OnErr result ((start : W) (output : List ℕ)
        → Said W.takes start output held.old.items writer.old → IsCutOff W.takes start output writer.new) }
{
    let written = write_text(writer, held.as_slice());
    held.clear();
    written
}

/// Writes what is held back and a text.
fn say_at_once<W: Sink>(held: &mut Vec<u8>, writer: &mut W, text: &[u8]) -> Result<(), WriteError>
    ensures ok { OnOk result ((start : W) (output : List ℕ)
        → Said W.takes start output held.old.items writer.old
        → Said W.takes start (output ++ text.now) held.new.items writer.new) }
    ensures err { OnErr result ((start : W) (output : List ℕ)
        → Said W.takes start output held.old.items writer.old
        → IsCutOff W.takes start (output ++ text.now) writer.new) }
{
    match flush(held, writer) {
        Ok(()) => write_text(writer, text),
        Err(WriteError) => Err(WriteError),
    }
}

/// Writes a text, or holds it back.
pub(crate) fn say<W: Sink>(
    held: &mut Vec<u8>,
    writer: &mut W,
    text: &[u8],
) -> Result<(), WriteError>
    ensures ok { OnOk result ((start : W) (output : List ℕ)
        → Said W.takes start output held.old.items writer.old
        → Said W.takes start (output ++ text.now) held.new.items writer.new) }
    ensures err { OnErr result ((start : W) (output : List ℕ)
        → Said W.takes start output held.old.items writer.old
        → IsCutOff W.takes start (output ++ text.now) writer.new) }
{
    match held.extend_from_slice(text) {
        Ok(()) if held.len() < PAGE => Ok(()),
        Ok(()) => flush(held, writer),
        Err(_) => say_at_once(held, writer, text),
    }
}
