//! Writing the line out.

ghost use Rattle.std.specs.List.{flat_map};
ghost use Rattle.std.specs.Prelude.{◌≡◌, ◌<◌, ◌≤◌, ℕ, List, length, Option, IfOk, OnOk, OnErr};
ghost use Rattle.x509_tool_run.specs.Transfer.{moved, WriteTakes};
ghost use Rattle.x509_tool_run.specs.Program.{IsWritten, IsCutOff};

use std::io;

/// A write failed, or took no bytes.
#[derive(Clone, Copy)]
pub struct WriteError;

/// What a line is written to.
pub trait Sink {
    /// That a write leads from one state to another and takes these bytes, or fails.
    ghost takes: { Self → Option (List ℕ) → Self → Type 0 };

    /// Writes some of the first bytes, and answers how many.
    ///
    /// # Errors
    ///
    /// [`WriteError`] where the write fails.
    fn put_some(&mut self, bytes: &[u8]) -> Result<usize, WriteError>
        ensures fits { IfOk result (λ count. count ≤ length bytes.now) }
        ensures takes { takes self.old (moved result bytes.now) self.new };
}

impl<W: io::Write> Sink for W {
    ghost takes = { λ old bytes new. WriteTakes (W.contents old) bytes (W.contents new) };

    fn put_some(&mut self, bytes: &[u8]) -> Result<usize, WriteError> {
        match self.write(bytes) {
            Ok(count) => Ok(count),
            Err(_) => Err(WriteError),
        }
    }
}

/// Writes all of a text, up to the first write that fails or takes no bytes.
///
/// # Errors
///
/// [`WriteError`] where a write fails or takes no bytes; then a part of the text may be written.
pub fn write_text<W: Sink>(writer: &mut W, text: &[u8]) -> Result<(), WriteError>
    ensures ok { OnOk result (IsWritten W.takes writer.old text.now writer.new) }
    ensures err { OnErr result (IsCutOff W.takes writer.old text.now writer.new) }
{
    let mut rest = text;
    while !rest.is_empty() {
        match writer.put_some(rest) {
            Ok(0) => return Err(WriteError),
            Ok(count) => rest = &rest[count..],
            Err(WriteError) => return Err(WriteError),
        }
    }
    Ok(())
}

/// Writes texts one behind the other, up to the first write that fails or takes no bytes.
///
/// # Errors
///
/// [`WriteError`] where a write fails or takes no bytes; then a part of the texts may be written.
pub fn write_texts<W: Sink>(writer: &mut W, texts: &[&[u8]]) -> Result<(), WriteError>
    ensures ok { OnOk result (IsWritten W.takes writer.old (flat_map (λ text. text.now) texts.now) writer.new) }
    ensures err { OnErr result (IsCutOff W.takes writer.old (flat_map (λ text. text.now) texts.now) writer.new) }
{
    for text in texts {
        if let Err(WriteError) = write_text(writer, text) {
            return Err(WriteError);
        }
    }
    Ok(())
}
