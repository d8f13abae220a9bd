//! A run over all lines.

ghost use Rattle.std.specs.Prelude.{◌≡◌, ◌⊎◌, ℕ, List, [], IfOk, OnErr};
ghost use Rattle.x509_tool_run.specs.Program.{IsCutOff};
ghost use Rattle.x509_test_rows_run.specs.Lines.{Said};
ghost use Rattle.x509_test_rows_run.specs.Run.{Runs, Answers, AnswersFront};

use crate::line::Line;
use crate::lines::{end_input, refuse, take_piece};
use crate::output::flush;
use std::alloc::Global;
use x509_codec::Codec;
use x509_der::ErrorKind;
use x509_tool_run::{ReadError, Refusal, Sink, Source, WriteError};

/// The most bytes of one read.
const PIECE: usize = 8192;

/// Answers each line of the reader to the writer, by the decoders and encoders of `C`, and answers the status: 0 where the
/// input was read to its end and all answers were written.
pub fn run<C: Codec, R: Source, W: Sink>(alloc: Global, reader: &mut R, writer: &mut W) -> u8
    ensures { Runs C.reencodes R.gives reader.old reader.new W.takes writer.old writer.new result }
{
    let mut held = Vec::new(alloc);
    match read_and_answer::<C, R, W>(alloc, reader, &mut held, writer) {
        Ok(status) => match flush(&mut held, writer) {
            Ok(()) => status,
            Err(WriteError) => 1,
        },
        Err(WriteError) => 1,
    }
}

/// Reads and answers each line; the last answers are still held back.
fn read_and_answer<C: Codec, R: Source, W: Sink>(
    alloc: Global,
    reader: &mut R,
    held: &mut Vec<u8>,
    writer: &mut W,
) -> Result<u8, WriteError>
    ensures ok { IfOk result (λ status. held.old.items ≡ [] → (output : List ℕ)
        × Answers C.reencodes R.gives reader.old reader.new output status
        × Said W.takes writer.old output held.new.items writer.new) }
    ensures err { OnErr result (held.old.items ≡ [] → (output : List ℕ) × (status : ℕ)
        × (Answers C.reencodes R.gives reader.old reader.new output status ⊎ AnswersFront C.reencodes R.gives reader.old reader.new output)
        × IsCutOff W.takes writer.old output writer.new) }
{
    let mut line = Line::new(alloc);
    let mut room = [0u8; PIECE];
    for _reads in 0..u64::MAX {
        match reader.take_some(&mut room) {
            Ok(0) => return end_input::<C, W>(alloc, &line, held, writer),
            Ok(count) => match take_piece::<C, W>(alloc, &room[..count], &mut line, held, writer) {
                Ok(()) => {}
                Err(WriteError) => return Err(WriteError),
            },
            Err(ReadError) => return refuse(Refusal::Read, held, writer),
        }
    }
    refuse(Refusal::Because(ErrorKind::Overlength), held, writer)
}
