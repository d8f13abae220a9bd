//! The answer to a path of certificates: whether it holds, or its first fault.

ghost use Rattle.std.specs.Prelude.{◌≡◌, ◌==◌, ◌⊎◌, ℕ, List, map, string_bytes, Option, Some, None, Ok, Err, MatchResult, IfOk, IfErr};
ghost use Rattle.std.specs.Option.{option_map};
ghost use Rattle.x509_der.specs.declared.error.ErrorKind.TheVariants.{Memory, Failed};
ghost use Rattle.x509_tool_run.specs.declared.refusal.Refusal.TheVariants.{Because};
ghost use Rattle.x509_tool_run.specs.Answer.{as_line};
ghost use Rattle.x509_tool_run.specs.Path.{IsPathLine, IsVerdict, certificates_of, decode_all, fault_line, fault_text, texts_of};
ghost use Rattle.x509_tool_run.specs.Program.{Answers};

use crate::input::{Source, read_input};
use crate::pem::pem_objects;
use crate::program::{bytes_of, line_of};
use crate::refusal::Refusal;
use std::alloc::{AllocError, Global};
use x509_codec::{PathCodec, Signatures};
use x509_der::ErrorKind;

fn is_space(byte: &u8) -> bool
    ensures { result ≡ (byte.now == 32) }
{
    *byte == b' '
}

/// The texts between single spaces.
fn texts_of(alloc: Global, line: &[u8]) -> Result<Vec<&[u8]>, AllocError>
    ensures { IfOk result (λ texts. map (λ text. text.now) texts.items ≡ texts_of line.now) }
{
    line.split(is_space).collect(alloc)
}

/// The bytes that the texts stand for, each of which is hex text.
fn decode_all(alloc: Global, texts: &[&[u8]]) -> Result<Vec<Vec<u8>>, Refusal>
    ensures { MatchResult result
        (λ decoded. decode_all (map (λ text. text.now) texts.now) ≡ Some (map (λ bytes. bytes.items) decoded.items))
        (λ refusal. (refusal ≡ Because Memory) ⊎ ((refusal ≡ Because Failed) × (decode_all (map (λ text. text.now) texts.now) ≡ None))) }
{
    let mut decoded = Vec::new(alloc);
    for text in texts {
        if decoded.push(bytes_of(alloc, text)?).is_err() {
            return Err(Refusal::Because(ErrorKind::Memory));
        }
    }
    Ok(decoded)
}

/// The bytes that a line of hex texts stands for.
fn decode_line(alloc: Global, line: &[u8]) -> Result<Vec<Vec<u8>>, Refusal>
    ensures { MatchResult result
        (λ decoded. decode_all (texts_of line.now) ≡ Some (map (λ bytes. bytes.items) decoded.items))
        (λ refusal. (refusal ≡ Because Memory) ⊎ ((refusal ≡ Because Failed) × (decode_all (texts_of line.now) ≡ None))) }
{
    let texts = texts_of(alloc, line)?;
    decode_all(alloc, texts.as_slice())
}

/// The certificates that a line has: those of its PEM, or of its hex texts where it has no PEM.
fn certificates_of(alloc: Global, line: &[u8]) -> Result<Vec<Vec<u8>>, Refusal>
    ensures { MatchResult result
        (λ found. certificates_of line.now ≡ Some (map (λ bytes. bytes.items) found.items))
        (λ refusal. (refusal ≡ Because Memory) ⊎ ((refusal ≡ Because Failed) × (certificates_of line.now ≡ None))) }
{
    match pem_objects(alloc, line)? {
        None => Err(Refusal::Because(ErrorKind::Failed)),
        Some(objects) if objects.is_empty() => decode_line(alloc, line),
        Some(objects) => Ok(objects),
    }
}

/// The first fault of a path, if it has one: the anchor's certificate stands in front of one or more others.
fn check_certificates<C: PathCodec>(
    alloc: Global,
    accepted: Signatures,
    moment: &str,
    certificates: &[Vec<u8>],
) -> Result<Option<String>, Refusal>
    ensures { MatchResult result
        (λ fault. IsVerdict (C.checks_path accepted) moment.now (Some (map (λ bytes. bytes.items) certificates.now)) (Ok (option_map string_bytes fault)))
        (λ refusal. (refusal ≡ Because Memory)
        ⊎ IsVerdict (C.checks_path accepted) moment.now (Some (map (λ bytes. bytes.items) certificates.now)) (Err refusal)) }
{
    match certificates {
        [anchor, path @ ..] if !path.is_empty() => {
            Ok(C::check_path(alloc, accepted, moment, anchor.as_slice(), path)?)
        }
        _ => Err(Refusal::Because(ErrorKind::Failed)),
    }
}

/// The first fault of the path whose certificates a line has, if it has one.
fn check_line<C: PathCodec>(
    alloc: Global,
    accepted: Signatures,
    moment: &str,
    line: &[u8],
) -> Result<Option<String>, Refusal>
    ensures { MatchResult result
        (λ fault. IsPathLine (C.checks_path accepted) moment.now line.now (Ok (option_map string_bytes fault)))
        (λ refusal. (refusal ≡ Because Memory) ⊎ IsPathLine (C.checks_path accepted) moment.now line.now (Err refusal)) }
{
    let certificates = certificates_of(alloc, line)?;
    check_certificates::<C>(alloc, accepted, moment, certificates.as_slice())
}

/// The line that tells of a fault.
fn fault_line(alloc: Global, fault: &str) -> Result<String, AllocError>
    ensures { IfOk result (λ line. string_bytes line ≡ as_line (fault_text fault.now)) }
{
    format!(in alloc; "fault {fault}\n")
}

/// The line that tells of the first fault of the path whose certificates a line has, if it has one.
fn tell_fault<C: PathCodec>(
    alloc: Global,
    accepted: Signatures,
    moment: &str,
    line: &[u8],
) -> Result<Option<String>, Refusal>
    ensures { MatchResult result
        (λ told. (fault : Option (List ℕ))
        × IsPathLine (C.checks_path accepted) moment.now line.now (Ok fault)
        × (option_map string_bytes told ≡ fault_line fault))
        (λ refusal. (refusal ≡ Because Memory) ⊎ IsPathLine (C.checks_path accepted) moment.now line.now (Err refusal)) }
{
    match check_line::<C>(alloc, accepted, moment, line)? {
        None => Ok(None),
        Some(fault) => Ok(Some(fault_line(alloc, fault.as_str())?)),
    }
}

/// Reads the input, and checks the path that its line is: the line that tells of its first fault, if it has one.
pub(crate) fn read_and_check<C: PathCodec, R: Source>(
    alloc: Global,
    accepted: Signatures,
    moment: &str,
    reader: &mut R,
) -> Result<Option<String>, Refusal>
    ensures { MatchResult result
        (λ told. (fault : Option (List ℕ))
        × Answers (IsPathLine (C.checks_path accepted) moment.now) R.gives reader.old reader.new (Ok fault)
        × (option_map string_bytes told ≡ fault_line fault))
        (λ refusal. Answers (IsPathLine (C.checks_path accepted) moment.now) R.gives reader.old reader.new (Err refusal)) }
{
    let input = read_input(alloc, reader)?;
    tell_fault::<C>(alloc, accepted, moment, line_of(input.as_slice()))
}
