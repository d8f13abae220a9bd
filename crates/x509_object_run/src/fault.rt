//! Why nothing whole is printed of an input.

ghost use Rattle.std.specs.Prelude.{◌≡◌, ◌++◌, IfOk, string_bytes};
ghost use Rattle.x509_object_run.specs.Faults.{begins_with, broken_text, fault_text, is_whole, looks_of, looks_of_none, looks_of_piece, looks_text, opening_text, whole_text};
ghost use Rattle.x509_object_run.specs.declared.fault.Looks.TheVariants as looks;

use std::alloc::{AllocError, Global};
use x509_der::{Piece, split_element};
use x509_tool_run::Broken;

/// Why a file isn't opened.
#[derive(Clone, Copy)]
pub enum OpenError {
    /// There is no file of this name.
    NotFound,

    /// The file may not be read.
    Denied,

    /// It is a directory.
    Directory,

    /// The system says something else.
    Other,
}

impl OpenError {
    fn text(self) -> &'static str
        ensures { result.now ≡ opening_text self }
    {
        match self {
            OpenError::NotFound => "no such file",
            OpenError::Denied => "permission denied",
            OpenError::Directory => "is a directory",
            OpenError::Other => "can't be opened",
        }
    }
}

/// What bytes look like that are no object.
#[derive(Clone, Copy)]
pub enum Looks {
    /// There are none.
    Empty,

    /// They begin as PEM (RFC 7468) does, but no whole line begins an object.
    Pem,

    /// No element of DER stands at the front.
    NoElement,

    /// None stands there, though the first octet is that of a SEQUENCE: its length isn't DER (X.690 10.1), or goes beyond the end.
    Unfinished,

    /// An element of DER stands at the front that is no SEQUENCE.
    NoSequence,

    /// A SEQUENCE stands at the front, and more behind it: the offset of that, and how many octets it has.
    Trailing(usize, usize),

    /// They are one SEQUENCE.
    Whole,
}

fn begins_with(bytes: &[u8], front: &[u8]) -> bool
    ensures { result ≡ begins_with bytes.now front.now }
{
    bytes.starts_with(front)
}

/// What bytes look like of which an element stands at the front, and how many they are.
fn looks_of_piece(count: usize, piece: Piece<'_>) -> Looks
    ensures { result ≡ looks_of_piece count (record { tag = piece.entry.tag; content = piece.entry.content.now; rest = piece.entry.rest.now }) }
{
    if piece.tag != 0x30 {
        return Looks::NoSequence;
    }
    if piece.rest.is_empty() {
        return Looks::Whole;
    }
    Looks::Trailing(count.saturating_sub(piece.rest.len()), piece.rest.len())
}

/// What bytes look like of which no element stands at the front, but this octet.
fn looks_of_none(first: u8) -> Looks
    ensures { result ≡ looks_of_none first }
{
    if first == 0x30 {
        Looks::Unfinished
    } else {
        Looks::NoElement
    }
}

/// What bytes look like. PEM is told by its first octets, the rest by the element at the front (X.690 8.1).
pub fn looks_of(bytes: &[u8]) -> Looks
    ensures { result ≡ looks_of bytes.now }
{
    let [first, ..] = bytes else {
        return Looks::Empty;
    };
    if begins_with(bytes, b"-----BEGIN ") {
        return Looks::Pem;
    }
    match split_element(bytes) {
        Ok(piece) => looks_of_piece(bytes.len(), piece),
        Err(_) => looks_of_none(*first),
    }
}

/// The words of a place and a count of octets.
fn trailing_text(alloc: Global, place: usize, count: usize) -> Result<String, AllocError>
    ensures { IfOk result (λ text. string_bytes text ≡ looks_text (looks.Trailing place count)) }
{
    format!(in alloc;
        "; behind its SEQUENCE, at offset {place}, stand octets that don't belong to it: {count}"
    )
}

/// What bytes look like, in words.
fn looks_text(alloc: Global, looks: Looks) -> Result<String, AllocError>
    ensures { IfOk result (λ text. string_bytes text ≡ looks_text looks) }
{
    let words = match looks {
        Looks::Empty => "; it is empty",
        Looks::Pem => "; it begins as PEM does, but no whole line of it begins an object",
        Looks::NoElement => "; it doesn't begin with an element of DER",
        Looks::Unfinished =>
            "; it begins as a SEQUENCE does, but its length isn't DER, or goes beyond the end",
        Looks::NoSequence => "; the element that it begins with is no SEQUENCE",
        Looks::Trailing(place, count) => return trailing_text(alloc, place, count),
        Looks::Whole => "; its SEQUENCE is whole, but something in it is wrong",
    };
    String::from_str(alloc, words)
}

/// Why bytes aren't printed whole.
#[derive(Clone, Copy)]
pub enum PrintError {
    /// They are no object of the kind that is asked for.
    NoObject,

    /// The output can't be written.
    Unwritten,

    /// Out of memory.
    Memory,
}

/// Why nothing whole is printed of an input.
#[derive(Clone, Copy)]
pub enum Fault {
    /// Its file isn't opened.
    Unopened(OpenError),

    /// A read failed.
    Unreadable,

    /// It is longer than [`INPUT_LIMIT`](x509_tool_run::INPUT_LIMIT).
    TooLong,

    /// It is a text of PEM that has no object.
    Unarmoured(Broken),

    /// It is no object of the kind that is asked for.
    NoObject(Looks),

    /// The output can't be written.
    Unwritten,

    /// Out of memory.
    Memory,
}

/// Why a text of PEM has no object, in words.
fn broken_text(why: Broken) -> &'static str
    ensures { result.now ≡ broken_text why }
{
    match why {
        Broken::NoEnd => "no line ends its PEM",
        Broken::OtherEnd => "the line that ends its PEM hasn't the label of the one that begins it",
        Broken::NoBase64 => "what stands in its PEM is no base64",
    }
}

/// Whether bytes are told to be no object though they are one SEQUENCE.
pub fn is_whole(fault: Fault) -> bool
    ensures { result ≡ is_whole fault }
{
    match fault {
        Fault::NoObject(looks) => matches!(looks, Looks::Whole),
        _ => false,
    }
}

/// How such bytes are told to be no object, by what in them is wrong.
///
/// # Errors
///
/// `AllocError` when out of memory.
pub fn whole_words(alloc: Global, no_object: &str, wrong: &str) -> Result<String, AllocError>
    ensures { IfOk result (λ text. string_bytes text ≡ whole_text no_object.now wrong.now) }
{
    let mut text = String::from_str(alloc, no_object)?;
    text.push_str("; its SEQUENCE is whole, but ")?;
    text.push_str(wrong)?;
    Ok(text)
}

/// How it is told that bytes are no object that look so.
fn no_object_text(alloc: Global, no_object: &str, looks: Looks) -> Result<String, AllocError>
    ensures { IfOk result (λ text. string_bytes text ≡ no_object.now ++ looks_text looks) }
{
    let looks = looks_text(alloc, looks)?;
    format!(in alloc; "{no_object}{looks}")
}

/// Why an input isn't shown, in words, where bytes that are no object are told so.
///
/// # Errors
///
/// `AllocError` when out of memory.
pub fn fault_words(alloc: Global, no_object: &str, fault: Fault) -> Result<String, AllocError>
    ensures { IfOk result (λ text. string_bytes text ≡ fault_text no_object.now fault) }
{
    let words = match fault {
        Fault::Unopened(e) => e.text(),
        Fault::Unreadable => "can't be read",
        Fault::TooLong => "longer than 16777216 bytes",
        Fault::Unarmoured(why) => broken_text(why),
        Fault::NoObject(looks) => return no_object_text(alloc, no_object, looks),
        Fault::Unwritten => "the output can't be written",
        Fault::Memory => "out of memory",
    };
    String::from_str(alloc, words)
}
