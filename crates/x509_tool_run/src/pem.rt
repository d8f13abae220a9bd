//! PEM (RFC 7468): base64 of objects, each between two lines with its label.

ghost use Rattle.std.specs.List.{list_any};
ghost use Rattle.std.specs.Option.{option_map};
ghost use Rattle.std.specs.Prelude.{◌≡◌, ◌⊎◌, IfOk, MatchResult, Ok, map};
ghost use Rattle.base64.specs.Engines.{standard};
ghost use Rattle.base64.specs.GeneralPurpose.{decode_of};
ghost use Rattle.std.specs.Prelude.{IsErr, None, []};
ghost use Rattle.x509_tool_run.specs.Pem as pem;
ghost use Rattle.x509_tool_run.specs.Pem.{ends_line, is_binary, is_end, label_of, lines_of, pem_objects, trimmed};
ghost use Rattle.x509_tool_run.specs.declared.pem.Unread.TheVariants as unread;

use base64::DecodeAllocError;
use base64::engine::general_purpose::STANDARD;
use std::alloc::{AllocError, Global};

/// Why a text stands for no bytes.
#[derive(Clone, Copy)]
pub(crate) enum Unread {
    /// It is no base64.
    Malformed,

    /// Out of memory.
    Memory,
}

/// Whether an octet is one that no text has.
fn is_binary(byte: &u8) -> bool
    ensures { result ≡ is_binary byte.now }
{
    byte.is_ascii_control() && !byte.is_ascii_whitespace()
}

pub(crate) fn has_binary(input: &[u8]) -> bool
    ensures { result ≡ list_any is_binary input.now }
{
    input.iter().any(is_binary)
}

/// Whether an octet ends a line.
pub fn ends_line(byte: &u8) -> bool
    ensures { result ≡ ends_line byte.now }
{
    *byte == b'\r' || *byte == b'\n'
}

/// A line without the white space at its end.
pub(crate) fn trimmed(line: &[u8]) -> &[u8]
    ensures { result.now ≡ trimmed line.now }
{
    line.trim_ascii_end()
}

/// Of a line that begins a text the label, and the hyphens behind it.
pub(crate) fn label_of(line: &[u8]) -> Option<&[u8]>
    ensures { option_map (λ label. label.now) result ≡ label_of line.now }
{
    if line.starts_with(b"-----BEGIN ") && line.ends_with(b"-----") {
        Some(&line[11..])
    } else {
        None
    }
}

/// Whether a line ends a text with this label.
pub(crate) fn is_end(label: &[u8], line: &[u8]) -> bool
    ensures { result ≡ is_end label.now line.now }
{
    line.starts_with(b"-----END ") && &line[9..] == label
}

/// The bytes of which the digits are the base64.
pub(crate) fn decode(alloc: Global, digits: &[u8]) -> Result<Vec<u8>, Unread>
    ensures { MatchResult result
        (λ bytes. decode_of standard digits.now ≡ Ok bytes.items)
        (λ e. (e ≡ unread.Memory) ⊎ ((e ≡ unread.Malformed) × IsErr (decode_of standard digits.now))) }
{
    match STANDARD.decode(alloc, digits) {
        Ok(bytes) => Ok(bytes),
        Err(DecodeAllocError::OutOfMemory) => Err(Unread::Memory),
        Err(DecodeAllocError::DecodeError(_)) => Err(Unread::Malformed),
    }
}

/// The objects of the lines of a text.
fn objects_of(alloc: Global, text: &[u8]) -> Result<Option<Vec<Vec<u8>>>, AllocError>
    ensures { IfOk result (λ found. option_map (λ objects. map (λ object. object.items) objects.items) found
        ≡ pem.objects_of None [] (map trimmed (lines_of text.now))) }
{
    let mut objects = Vec::new(alloc);
    let mut label: Option<&[u8]> = None;
    let mut digits = Vec::new(alloc);
    for line in text.split(ends_line) {
        let line = trimmed(line);
        match label {
            None => label = label_of(line),
            Some(open) if is_end(open, line) => {
                match decode(alloc, digits.as_slice()) {
                    Ok(bytes) => objects.push(bytes)?,
                    Err(Unread::Malformed) => return Ok(None),
                    Err(Unread::Memory) => return Err(AllocError),
                }
                digits.clear();
                label = None;
            }
            Some(_) => digits.extend_from_slice(line)?,
        }
    }
    match label {
        None => Ok(Some(objects)),
        Some(_) => Ok(None),
    }
}

/// The objects of PEM in an input, in their order, whatever their labels are: none where it is no text, since it has a control character
/// other than white space, or has no line that begins a text. `None` where a text has no end, or isn't base64.
///
/// # Errors
///
/// `AllocError` when out of memory, and nothing else.
pub fn pem_objects(alloc: Global, input: &[u8]) -> Result<Option<Vec<Vec<u8>>>, AllocError>
    ensures { IfOk result (λ found. option_map (λ objects. map (λ object. object.items) objects.items) found ≡ pem_objects input.now) }
{
    if has_binary(input) {
        return Ok(Some(Vec::new(alloc)));
    }
    objects_of(alloc, input)
}
