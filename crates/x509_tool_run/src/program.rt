//! A run of the program: a line in, a line out, and a status.

ghost use Rattle.std.specs.Prelude.{◌≡◌, ◌⊎◌, ℕ, List, map, string_bytes, Ok, Err, None, MatchResult, IfSome, IsErr};
ghost use Rattle.std.specs.Str.{is_utf8};
ghost use Rattle.hex.specs.Hex.{decode_of, encode_upper};
ghost use Rattle.x509_der.specs.declared.error.ErrorKind.TheVariants.{Memory, Failed};
ghost use Rattle.x509_tool_run.specs.declared.refusal.Refusal.TheVariants.{Because};
ghost use Rattle.x509_tool_run.specs.Command.{command_of, path_of, type_name};
ghost use Rattle.x509_tool_run.specs.Information.{information_of, information_text};
ghost use Rattle.x509_tool_run.specs.Answer.{IsFromHex, IsFromText, IsLine, IsLineAnswer, IsReencoded, IsShown, as_line, codecs_of, line_of, text_of, usage};
ghost use Rattle.x509_tool_run.specs.Program.{Says, Answers, ChecksPath, Obeys};

use crate::command::{Command, Kind, path_asked};
use crate::information::{Information, tell};
use crate::input::{Source, read_input};
use crate::output::{Sink, WriteError, write_text};
use crate::path::read_and_check;
use crate::refusal::Refusal;
use hex::FromHexError;
use std::alloc::Global;
use x509_codec::{Codec, NameCodec, PathCodec, ProfileName, Signatures};
use x509_der::ErrorKind;

const USAGE: &[u8] =
    b"usage: x509_tool reencode TYPE [rfc5280|raw] | name | encode-name\n       x509_tool path [--any-signature] MOMENT\n";

/// The line of an input: all of it but one final line feed.
pub(crate) fn line_of(input: &[u8]) -> &[u8]
    ensures { result.now ≡ line_of input.now }
{
    match input {
        [line @ .., b'\n'] => line,
        _ => input,
    }
}

/// The bytes that a line of hex text stands for.
///
/// # Errors
///
/// `Because` of `Failed` exactly where the text is a bad one: not hex; `Because` of `Memory` when out of memory.
pub fn bytes_of(alloc: Global, line: &[u8]) -> Result<Vec<u8>, Refusal>
    ensures { MatchResult result
        (λ bytes. decode_of line.now ≡ Ok bytes.items)
        (λ refusal. (refusal ≡ Because Memory)
        ⊎ ((refusal ≡ Because Failed) × IsErr (decode_of line.now))) }
{
    match hex::decode(alloc, line) {
        Ok(bytes) => Ok(bytes),
        Err(FromHexError::OutOfMemory) => Err(Refusal::Because(ErrorKind::Memory)),
        Err(_) => Err(Refusal::Because(ErrorKind::Failed)),
    }
}

/// Bytes as upper-case hex text, and a line feed.
fn hex_line(alloc: Global, bytes: &[u8]) -> Result<String, Refusal>
    ensures { MatchResult result
        (λ line. string_bytes line ≡ as_line (encode_upper bytes.now))
        (λ refusal. refusal ≡ Because Memory) }
{
    let mut line = hex::encode_upper(alloc, bytes)?;
    line.push('\n')?;
    Ok(line)
}

/// The re-encoding of the bytes that a line stands for, as a line.
fn reencode_line<C: Codec>(
    alloc: Global,
    kind: Kind,
    profile: ProfileName,
    line: &[u8],
) -> Result<String, Refusal>
    ensures { IsLine string_bytes (IsReencoded (C.reencodes (type_name kind) profile) (decode_of line.now)) result }
{
    let bytes = bytes_of(alloc, line)?;
    let encoding = C::reencode(alloc, kind.type_name(), profile, bytes.as_slice())?;
    hex_line(alloc, encoding.as_slice())
}

/// The text of the name whose bytes a line stands for, as a line.
fn print_name_line<C: NameCodec>(alloc: Global, line: &[u8]) -> Result<String, Refusal>
    ensures { IsLine string_bytes (IsFromHex (IsShown (λ text. text) C.prints_name) (decode_of line.now)) result }
{
    let bytes = bytes_of(alloc, line)?;
    let mut text = C::print_name(alloc, bytes.as_slice())?;
    text.push('\n')?;
    Ok(text)
}

/// The encoding of the name that a text says, as a line.
fn encode_text<C: NameCodec>(alloc: Global, text: &str) -> Result<String, Refusal>
    ensures { IsLine string_bytes (IsShown encode_upper C.encodes_name text.now) result }
{
    let encoding = C::encode_name(alloc, text)?;
    hex_line(alloc, encoding.as_slice())
}

/// The encoding of the name that a line says, as a line.
fn encode_name_line<C: NameCodec>(alloc: Global, line: &[u8]) -> Result<String, Refusal>
    ensures { IsLine string_bytes (IsFromText (IsShown encode_upper C.encodes_name) (is_utf8 line.now) line.now) result }
{
    let Ok(text) = str::from_utf8(line) else {
        return Err(Refusal::Because(ErrorKind::Failed));
    };
    encode_text::<C>(alloc, text)
}

/// The answer to a command with a line, and a line feed.
fn answer<C: Codec + NameCodec>(
    alloc: Global,
    command: Command,
    line: &[u8],
) -> Result<String, Refusal>
    ensures { IsLine string_bytes (IsLineAnswer (codecs_of C.reencodes C.prints_name C.encodes_name) command line.now) result }
{
    match command {
        Command::Reencode(kind, profile) => reencode_line::<C>(alloc, kind, profile, line),
        Command::Name => print_name_line::<C>(alloc, line),
        Command::EncodeName => encode_name_line::<C>(alloc, line),
    }
}

/// Writes a line, and answers the status: 1 where it can't be written.
pub(crate) fn say<W: Sink>(writer: &mut W, line: &[u8], status: u8) -> u8
    ensures { (text : List ℕ) → line.now ≡ as_line text
        → Says W.takes writer.old text status writer.new result }
{
    match write_text(writer, line) {
        Ok(()) => status,
        Err(WriteError) => 1,
    }
}

/// Reads the input and answers the command with it.
fn read_and_answer<C: Codec + NameCodec, R: Source>(
    alloc: Global,
    command: Command,
    reader: &mut R,
) -> Result<String, Refusal>
    ensures { MatchResult result
        (λ line. (text : List ℕ)
        × Answers (IsLineAnswer (codecs_of C.reencodes C.prints_name C.encodes_name) command) R.gives reader.old reader.new (Ok text)
        × (string_bytes line ≡ as_line text))
        (λ refusal. Answers (IsLineAnswer (codecs_of C.reencodes C.prints_name C.encodes_name) command) R.gives reader.old reader.new (Err refusal)) }
{
    let input = read_input(alloc, reader)?;
    answer::<C>(alloc, command, line_of(input.as_slice()))
}

/// Checks the path that the input is, at the moment of the text, where these signatures are accepted: says whether it holds or its first
/// fault, and answers the status.
fn check_and_say<C: PathCodec, R: Source, W: Sink>(
    alloc: Global,
    accepted: Signatures,
    moment: &str,
    reader: &mut R,
    writer: &mut W,
) -> u8
    ensures { ChecksPath (C.checks_path accepted) moment.now R.gives reader.old reader.new W.takes writer.old writer.new result }
{
    match read_and_check::<C, R>(alloc, accepted, moment, reader) {
        Ok(None) => say(writer, b"ok\n", 0),
        Ok(Some(line)) => say(writer, line.as_str().as_bytes(), 1),
        Err(refusal) => say(writer, refusal.line(), 1),
    }
}

/// The answer when out of memory for the words.
pub fn refuse_memory<W: Sink>(writer: &mut W) -> u8
    ensures { Says W.takes writer.old (text_of (Err (Because Memory))) 1 writer.new result }
{
    say(writer, Refusal::Because(ErrorKind::Memory).line(), 1)
}

/// Writes what the words ask about the program, or how it is called, and answers the status.
fn tell_of_itself<W: Sink>(writer: &mut W, words: &[String]) -> u8
    ensures informs { IfSome (information_of (map string_bytes words.now)) (λ asked.
        Says W.takes writer.old (information_text asked) 0 writer.new result) }
    ensures usage { information_of (map string_bytes words.now) ≡ None → Says W.takes writer.old usage 2 writer.new result }
{
    match Information::from_words(words) {
        Some(asked) => tell(writer, asked),
        None => say(writer, USAGE, 2),
    }
}

/// Does what [`run`] does where no path is asked for: `path` is no command here.
pub fn run_without_paths<C: Codec + NameCodec, R: Source, W: Sink>(
    alloc: Global,
    words: &[String],
    reader: &mut R,
    writer: &mut W,
) -> u8
    // With other words nothing is read.
    ensures untouched { command_of (map string_bytes words.now) ≡ None → reader.new ≡ reader.old }
    ensures informs { IfSome (information_of (map string_bytes words.now)) (λ asked.
        Says W.takes writer.old (information_text asked) 0 writer.new result) }
    ensures usage { command_of (map string_bytes words.now) ≡ None → information_of (map string_bytes words.now) ≡ None
        → Says W.takes writer.old usage 2 writer.new result }
    ensures obeys { IfSome (command_of (map string_bytes words.now)) (λ command.
        Obeys (codecs_of C.reencodes C.prints_name C.encodes_name) command
        R.gives reader.old reader.new W.takes writer.old writer.new result) }
{
    let Some(command) = Command::from_words(words) else {
        return tell_of_itself(writer, words);
    };
    match read_and_answer::<C, R>(alloc, command, reader) {
        Ok(line) => say(writer, line.as_str().as_bytes(), 0),
        Err(refusal) => say(writer, refusal.line(), 1),
    }
}

/// Does what the words ask for with the input of the reader, by the decoders, encoders and checker of `C`: writes one line to
/// the writer, and answers the status.
pub fn run<C: Codec + NameCodec + PathCodec, R: Source, W: Sink>(
    alloc: Global,
    words: &[String],
    reader: &mut R,
    writer: &mut W,
) -> u8
    // With other words nothing is read.
    ensures untouched { command_of (map string_bytes words.now) ≡ None → path_of (map string_bytes words.now) ≡ None
        → reader.new ≡ reader.old }
    ensures informs { IfSome (information_of (map string_bytes words.now)) (λ asked.
        Says W.takes writer.old (information_text asked) 0 writer.new result) }
    ensures usage { command_of (map string_bytes words.now) ≡ None → path_of (map string_bytes words.now) ≡ None
        → information_of (map string_bytes words.now) ≡ None → Says W.takes writer.old usage 2 writer.new result }
    ensures obeys { IfSome (command_of (map string_bytes words.now)) (λ command.
        Obeys (codecs_of C.reencodes C.prints_name C.encodes_name) command
        R.gives reader.old reader.new W.takes writer.old writer.new result) }
    ensures path { IfSome (path_of (map string_bytes words.now)) (λ asked.
        ChecksPath (C.checks_path asked.0) asked.1 R.gives reader.old reader.new W.takes writer.old writer.new result) }
{
    if let Some((accepted, moment)) = path_asked(words) {
        return check_and_say::<C, R, W>(alloc, accepted, moment, reader, writer);
    }
    run_without_paths::<C, R, W>(alloc, words, reader, writer)
}
