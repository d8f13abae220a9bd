//! The texts of character strings, in UTF-8.

ghost use Rattle.std.specs.Prelude.{◌≡◌, None, Some, MatchOption};
ghost use Rattle.x509_c_calls.specs.Status.{Fills};
ghost use Rattle.x509_c_calls.specs.StringTexts.{IsStringText, IsText, bmp_text, plain_text, text_in};
ghost use Rattle.x509_c_calls.specs.Universal as grammar;

use crate::payloads::universal::universal_text;
use crate::{Status, fill};
use std::alloc::Global;
use x509_der::{Any, Content, Decode, ErrorKind, Tag};
use x509_prim::{Alphabet, BmpString, Ia5, Printable, Teletex, Visible, text_of, utf8_text};

/// The characters of NumericString.
struct Numeric;

#[tactic(auto, unfolding(crate::specs::StringTexts::is_numeric))]
impl Alphabet for Numeric {
    ghost use Rattle.x509_der.specs.declared.tag.Tag.TheVariants as tags;
    ghost use Rattle.x509_c_calls.specs.StringTexts.{is_numeric, numeric_ascii};

    ghost TAG = { tags.NumericString };

    const TAG: Tag = Tag::NumericString;

    ghost has_char = { is_numeric };

    fn has_char(octet: u8) -> bool {
        matches!(octet, b'0'..=b'9' | b' ')
    }

    ghost ascii = { numeric_ascii };
}

/// The text of a string type whose content octets are its text in UTF-8.
#[tactic(auto, unfolding(crate::specs::StringTexts::allowed))]
fn plain_text(tag: Tag, content: &[u8]) -> Option<&str>
    ensures { MatchOption result (plain_text tag content.now ≡ None) (λ text. plain_text tag content.now ≡ Some text.now) }
{
    match tag {
        Tag::Utf8String => utf8_text(content),
        Tag::NumericString => text_of::<Numeric>(content),
        Tag::PrintableString => text_of::<Printable>(content),
        Tag::TeletexString => text_of::<Teletex>(content),
        Tag::Ia5String => text_of::<Ia5>(content),
        Tag::VisibleString => text_of::<Visible>(content),
        _ => None,
    }
}

/// Puts the text of a BMPString with these content octets at the front of the buffer.
fn fill_bmp(alloc: Global, content: &[u8], room: &mut [u8], written: &mut usize) -> Status
    ensures { Fills (IsText (bmp_text content.now)) room.old room.new written.old written.new result }
{
    let string = match BmpString::read_content(alloc, content) {
        Ok(string) => string,
        Err(e) => return e.into(),
    };
    match string.to_text(alloc) {
        Ok(text) => fill(text.as_str().as_bytes(), room, written),
        Err(e) => e.into(),
    }
}

/// Puts the text of a UniversalString with these content octets at the front of the buffer.
fn fill_universal(alloc: Global, content: &[u8], room: &mut [u8], written: &mut usize) -> Status
    ensures { Fills (IsText (grammar.universal_text content.now)) room.old room.new written.old written.new result }
{
    match universal_text(alloc, content) {
        Ok(Some(text)) => fill(text.as_str().as_bytes(), room, written),
        Ok(None) => Status::Refused(ErrorKind::Malformed),
        Err(e) => e.into(),
    }
}

/// Puts the text of a string with this tag and these content octets at the front of the buffer.
fn fill_text(
    alloc: Global,
    tag: Tag,
    content: &[u8],
    room: &mut [u8],
    written: &mut usize,
) -> Status
    ensures { Fills (IsText (text_in tag content.now)) room.old room.new written.old written.new result }
{
    match tag {
        Tag::BmpString => fill_bmp(alloc, content, room, written),
        Tag::UniversalString => fill_universal(alloc, content, room, written),
        _ => match plain_text(tag, content) {
            Some(text) => fill(text.as_bytes(), room, written),
            None => Status::Refused(ErrorKind::Malformed),
        },
    }
}

/// Reads a character string, and puts its text in UTF-8 at the front of the buffer `room`: that of a UTF8String,
/// NumericString, PrintableString, TeletexString, IA5String, VisibleString, UniversalString or BMPString (X.680 41), of a
/// TeletexString in the characters up to 7F alone.
///
/// # Errors
///
/// [`Status::NoRoom`] where the buffer is too small; then `written` is the needed length. `Overlength` where the bytes
/// are more than 268,435,455. Within that length `Malformed` where they are no such string. `Memory` when out of memory.
pub fn string_text(alloc: Global, input: &[u8], room: &mut [u8], written: &mut usize) -> Status
    ensures { Fills (IsStringText input.now) room.old room.new written.old written.new result }
{
    match Any::from_der(alloc, input) {
        Ok(string) => fill_text(alloc, string.tag(), string.value(), room, written),
        Err(e) => e.into(),
    }
}
