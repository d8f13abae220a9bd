//! Answering the lines of a piece of the input.

ghost use Rattle.std.specs.Prelude.{◌≡◌, ◌++◌, ℕ, List, Ok, Err, IfOk, OnOk, OnErr, MatchResult, string_bytes};
ghost use Rattle.x509_tool_run.specs.Answer.{Answer, text_of, as_line};
ghost use Rattle.x509_tool_run.specs.Program.{IsCutOff};
ghost use Rattle.x509_test_rows_run.specs.Row.{Lacks, AnswersLine};
ghost use Rattle.x509_test_rows_run.specs.Lines.{Keeps, Stands, Stopped, AnswersAll, Said};

use crate::line::Line;
use crate::output::say;
use crate::row::{answer_row, place_of};
use std::alloc::Global;
use x509_codec::Codec;
use x509_tool_run::{Refusal, Sink, WriteError};

/// The answer to the line at hand, and a line feed.
fn answer_of<C: Codec>(alloc: Global, line: &Line) -> Result<String, Refusal>
    ensures { (rest : List ℕ) → Keeps line.now.kept.items line.now.fault rest → MatchResult result
        (λ text. (answer : List ℕ) × AnswersLine C.reencodes rest (Ok answer) × (string_bytes text ≡ as_line answer))
        (λ refusal. AnswersLine C.reencodes rest (Err refusal)) }
{
    match line.fault {
        Some(kind) => Err(Refusal::Because(kind)),
        None => answer_row::<C>(alloc, line.kept.as_slice()),
    }
}

/// Answers the line at hand.
pub(crate) fn answer_line<C: Codec, W: Sink>(
    alloc: Global,
    line: &Line,
    held: &mut Vec<u8>,
    writer: &mut W,
) -> Result<(), WriteError>
    ensures ok { OnOk result ((start : W) (said rest : List ℕ)
        → Keeps line.now.kept.items line.now.fault rest
        → Said W.takes start said held.old.items writer.old
        → (answer : Answer) × AnswersLine C.reencodes rest answer
        × Said W.takes start (said ++ as_line (text_of answer)) held.new.items writer.new) }
    ensures err { OnErr result ((start : W) (said rest : List ℕ)
        → Keeps line.now.kept.items line.now.fault rest
        → Said W.takes start said held.old.items writer.old
        → (answer : Answer) × AnswersLine C.reencodes rest answer
        × IsCutOff W.takes start (said ++ as_line (text_of answer)) writer.new) }
{
    match answer_of::<C>(alloc, line) {
        Ok(text) => say(held, writer, text.as_str().as_bytes()),
        Err(refusal) => say(held, writer, refusal.line()),
    }
}

/// Takes the last bytes of a line, and answers it.
fn take_line<C: Codec, W: Sink>(
    alloc: Global,
    last: &[u8],
    line: &mut Line,
    held: &mut Vec<u8>,
    writer: &mut W,
) -> Result<(), WriteError>
    ensures ok { OnOk result ((start : W) (input : List ℕ)
        → Stands C.reencodes W.takes start input line.old.kept.items line.old.fault held.old.items writer.old → Lacks 10 last.now
        → Stands C.reencodes W.takes start (input ++ as_line last.now) line.new.kept.items line.new.fault held.new.items writer.new) }
    ensures err { OnErr result ((start : W) (input : List ℕ)
        → Stands C.reencodes W.takes start input line.old.kept.items line.old.fault held.old.items writer.old → Lacks 10 last.now
        → Stopped C.reencodes W.takes start (input ++ as_line last.now) writer.new) }
{
    line.add(last);
    let answered = answer_line::<C, W>(alloc, line, held, writer);
    line.clear();
    answered
}

/// Takes the next bytes of the input, and answers each line that ends in them.
pub(crate) fn take_piece<C: Codec, W: Sink>(
    alloc: Global,
    piece: &[u8],
    line: &mut Line,
    held: &mut Vec<u8>,
    writer: &mut W,
) -> Result<(), WriteError>
    ensures ok { OnOk result ((start : W) (input : List ℕ)
        → Stands C.reencodes W.takes start input line.old.kept.items line.old.fault held.old.items writer.old
        → Stands C.reencodes W.takes start (input ++ piece.now) line.new.kept.items line.new.fault held.new.items writer.new) }
    ensures err { OnErr result ((start : W) (input : List ℕ)
        → Stands C.reencodes W.takes start input line.old.kept.items line.old.fault held.old.items writer.old
        → Stopped C.reencodes W.takes start (input ++ piece.now) writer.new) }
{
    let mut rest = piece;
    while let Some(at) = place_of(rest, b'\n') {
        match take_line::<C, W>(alloc, &rest[..at], line, held, writer) {
            Ok(()) => rest = &rest[at + 1..],
            Err(WriteError) => return Err(WriteError),
        }
    }
    line.add(rest);
    Ok(())
}

/// Ends the input: what came after the last line feed is a line, unless it is empty. Answers the status.
pub(crate) fn end_input<C: Codec, W: Sink>(
    alloc: Global,
    line: &Line,
    held: &mut Vec<u8>,
    writer: &mut W,
) -> Result<u8, WriteError>
    ensures status { IfOk result (λ status. status ≡ 0) }
    ensures ok { OnOk result ((start : W) (input : List ℕ)
        → Stands C.reencodes W.takes start input line.now.kept.items line.now.fault held.old.items writer.old
        → (output : List ℕ) × AnswersAll C.reencodes input output × Said W.takes start output held.new.items writer.new) }
    ensures err { OnErr result ((start : W) (input : List ℕ)
        → Stands C.reencodes W.takes start input line.now.kept.items line.now.fault held.old.items writer.old
        → (output : List ℕ) × AnswersAll C.reencodes input output × IsCutOff W.takes start output writer.new) }
{
    if line.is_empty() {
        return Ok(0);
    }
    match answer_line::<C, W>(alloc, line, held, writer) {
        Ok(()) => Ok(0),
        Err(WriteError) => Err(WriteError),
    }
}

/// Says why reading stopped. Answers the status.
pub(crate) fn refuse<W: Sink>(
    refusal: Refusal,
    held: &mut Vec<u8>,
    writer: &mut W,
) -> Result<u8, WriteError>
    ensures status { IfOk result (λ status. status ≡ 1) }
    ensures ok { OnOk result ((start : W) (said : List ℕ)
        → Said W.takes start said held.old.items writer.old
        → Said W.takes start (said ++ as_line (text_of (Err refusal))) held.new.items writer.new) }
    ensures err { OnErr result ((start : W) (said : List ℕ)
        → Said W.takes start said held.old.items writer.old
        → IsCutOff W.takes start (said ++ as_line (text_of (Err refusal))) writer.new) }
{
    match say(held, writer, refusal.line()) {
        Ok(()) => Ok(1),
        Err(WriteError) => Err(WriteError),
    }
}
