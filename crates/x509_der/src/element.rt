//! Elements at the front of bytes (X.690 8.1).

ghost use Rattle.std.specs.Prelude.{◌≡◌, ◌≤◌, ◌<◌, ◌++◌, length, List, ℕ, IfOk, IfErr, OnOk};
ghost use Rattle.x509_der.specs.declared.error.ErrorKind.TheVariants as errors;
ghost use Rattle.x509_der.specs.declared.tag.Tag.{Tag};
ghost use Rattle.x509_der.specs.Outcome.{GivesBy};
ghost use Rattle.x509_der.specs.Element.{element, is_identifier, limit};
ghost use Rattle.x509_der.specs.ElementReading.{length_at, piece_at};
ghost use Rattle.x509_der.specs.Tag.{octet_of};

use crate::error::{Error, ErrorKind};
use crate::tag::{Tag, check_identifier};

/// An element and what follows it.
#[derive(Clone, Copy)]
pub struct Piece<'a> {
    /// The identifier octet.
    pub tag: u8,

    /// The content octets.
    pub content: &'a [u8],

    /// What follows the element.
    pub rest: &'a [u8],
}

/// The length at the front, and what follows it; `Malformed` where it is not the shortest form (X.690 10.1).
#[tactic(auto, unfolding(crate::specs::ElementReading::length_at, crate::specs::ElementReading::one_digit, crate::specs::ElementReading::two_digits, crate::specs::ElementReading::three_digits, crate::specs::ElementReading::four_digits))]
#[inline(always)]
fn read_length(bytes: &[u8]) -> Result<(usize, &[u8]), Error>
    ensures exact { GivesBy (λ x. (x.0, x.1.now)) result (length_at bytes.now) }
    ensures err { IfErr result (λ e. e.kind ≡ errors.Malformed) }
{
    match bytes {
        [a, rest @ ..] if *a < 128 => Ok((*a as usize, rest)),
        [0x81, a, rest @ ..] if *a >= 128 => Ok((*a as usize, rest)),
        [0x82, a, b, rest @ ..] if *a > 0 => Ok((256 * *a as usize + *b as usize, rest)),
        [0x83, a, b, c, rest @ ..] if *a > 0 => {
            Ok((65_536 * *a as usize + 256 * *b as usize + *c as usize, rest))
        }
        [0x84, a, b, c, d, rest @ ..] if *a > 0 => Ok((
            16_777_216 * *a as usize + 65_536 * *b as usize + 256 * *c as usize + *d as usize,
            rest,
        )),
        _ => Err(ErrorKind::Malformed.into()),
    }
}

/// The element that the bytes begin with, of any length.
///
/// # Errors
///
/// `Malformed` exactly where they begin with none.
#[inline(always)]
pub fn split_element(bytes: &[u8]) -> Result<Piece<'_>, Error>
    ensures exact { GivesBy (λ x. record { tag = x.tag; content = x.content.now; rest = x.rest.now }) result (piece_at bytes.now) }
    ensures err { IfErr result (λ e. e.kind ≡ errors.Malformed) }
{
    split_usual(bytes, Tag::Sequence)
}

/// Whether an element may begin with the octet. The usual identifier is looked for first.
#[tactic(auto, using(crate::specs::TagLaws::tag_is_identifier))]
#[inline(always)]
fn may_begin(octet: u8, usual: Tag) -> bool
    ensures { result ≡ is_identifier octet }
{
    if octet == usual.octet() {
        return true;
    }
    check_identifier(octet)
}

/// As [`split_element`], for an element that mostly has this identifier.
///
/// # Errors
///
/// `Malformed` exactly where the bytes begin with no element.
#[tactic(auto, unfolding(crate::specs::ElementReading::piece_at, crate::specs::ElementReading::content_at))]
#[inline(always)]
pub fn split_usual(bytes: &[u8], usual: Tag) -> Result<Piece<'_>, Error>
    ensures exact { GivesBy (λ x. record { tag = x.tag; content = x.content.now; rest = x.rest.now }) result (piece_at bytes.now) }
    ensures err { IfErr result (λ e. e.kind ≡ errors.Malformed) }
{
    let [tag, after @ ..] = bytes else {
        return Err(ErrorKind::Malformed.into());
    };
    if !may_begin(*tag, usual) {
        return Err(ErrorKind::Malformed.into());
    }
    let (len, after) = read_length(after)?;
    if after.len() < len {
        return Err(ErrorKind::Malformed.into());
    }
    let (content, rest) = after.split_at(len);
    Ok(Piece {
        tag: *tag,
        content,
        rest,
    })
}

/// The longest content whose element is no longer than [`Length::MAX`](crate::Length::MAX).
const LONGEST_CONTENT: usize = 268_435_449;

/// Checks that an element with this content isn't too long.
///
/// # Errors
///
/// `Overlength` exactly where it is longer than [`Length::MAX`](crate::Length::MAX).
pub fn check_content(content: &[u8]) -> Result<(), Error>
    ensures ok { OnOk result ((tag : ℕ) → length (element tag content.now) ≤ limit) }
    ensures err { IfErr result (λ e. (e.kind ≡ errors.Overlength) × ((tag : ℕ) → limit < length (element tag content.now))) }
{
    if content.len() > LONGEST_CONTENT {
        return Err(ErrorKind::Overlength.into());
    }
    Ok(())
}

/// A borrowed element: its identifier and its content, which isn't decoded further.
#[derive(Clone, Copy, Debug, PartialEq, Eq)]
pub struct AnyRef<'a> {
    tag: Tag,
    value: &'a [u8],
}

impl<'a> AnyRef<'a> {
    /// The element with the identifier and the content.
    ///
    /// # Errors
    ///
    /// `Overlength` exactly where it would be longer than [`Length::MAX`](crate::Length::MAX).
    pub fn new(tag: Tag, value: &'a [u8]) -> Result<AnyRef<'a>, Error>
        ensures ok { IfOk result (λ any. (any.tag ≡ tag) × (any.value.now ≡ value.now) × (length (element (octet_of tag) value.now) ≤ limit)) }
        ensures err { IfErr result (λ e. (e.kind ≡ errors.Overlength) × (limit < length (element (octet_of tag) value.now))) }
    {
        check_content(value)?;
        Ok(AnyRef { tag, value })
    }

    /// The identifier.
    pub fn tag(self) -> Tag
        ensures { result ≡ self.entry.tag }
    {
        self.tag
    }

    /// The content octets.
    pub fn value(self) -> &'a [u8]
        ensures { result.now ≡ self.entry.value.now }
    {
        self.value
    }
}

/// The element that the bytes begin with, and what follows it (X.690 8.1, 10.1).
///
/// # Errors
///
/// `Malformed` exactly where the bytes begin with no element of at most [`Length::MAX`](crate::Length::MAX) octets.
pub fn take_element(bytes: &[u8]) -> Result<(AnyRef<'_>, &[u8]), Error>
    ensures ok { IfOk result (λ found. bytes.now ≡ element (octet_of found.0.tag) found.0.value.now ++ found.1.now) }
    ensures within { IfOk result (λ found. length (element (octet_of found.0.tag) found.0.value.now) ≤ limit) }
    ensures err { IfErr result (λ e. (e.kind ≡ errors.Malformed)
        × ((tag : Tag) (content rest : List ℕ) → bytes.now ≡ element (octet_of tag) content ++ rest → limit < length (element (octet_of tag) content))) }
{
    let piece = split_element(bytes)?;
    if piece.content.len() > LONGEST_CONTENT {
        return Err(ErrorKind::Malformed.into());
    }
    let tag = Tag::from_octet(piece.tag)?;
    let element = AnyRef {
        tag,
        value: piece.content,
    };
    Ok((element, piece.rest))
}
