//! Whether attributes match, over their octets.

ghost use Rattle.std.specs.List.{list_all};
ghost use Rattle.std.specs.Prelude.{◌≡◌, ◌↔◌, ◌<◌, if◌then◌else◌, IfOk, IsOk, IsTrue, length, None, Some, chars, true};
ghost use Rattle.x509_match.specs.Keys as keys;
ghost use Rattle.x509_match.specs.Plain as plain;
ghost use Rattle.x509_prim.specs.Alphabet.{is_ia5};

use crate::plain::prepared_alike;
use crate::value::{is_caseless, octets_key};
use std::alloc::{AllocError, Global};
use x509_der::Tag;
use x509_prim::{Alphabet, Ia5};

/// Whether it is no text, or one in ASCII of which each octet is a character.
fn is_plain(tag: Tag, content: &[u8]) -> bool
    ensures { result ≡ plain.is_plain tag content.now }
{
    match tag {
        Tag::Utf8String => Ia5::has_chars(content),
        Tag::BmpString => false,
        Tag::UniversalString => false,
        _ => true,
    }
}

/// Whether a plain element is a text.
fn is_text(tag: Tag, content: &[u8]) -> bool
    ensures { plain.is_plain tag content.now ≡ true → plain.IsPlainText result tag content.now }
{
    match tag {
        Tag::PrintableString => Ia5::has_chars(content),
        Tag::Ia5String => Ia5::has_chars(content),
        Tag::TeletexString => Ia5::has_chars(content),
        Tag::Utf8String => true,
        _ => false,
    }
}

/// Whether two ASCII texts of attributes of the type match.
fn texts_match(oid: &[u8], a: &[u8], b: &[u8]) -> bool
    ensures { list_all is_ia5 a.now ≡ true → list_all is_ia5 b.now ≡ true → (IsTrue result ↔ (keys.compared oid.now a.now ≡ keys.compared oid.now b.now)) }
{
    if is_caseless(oid) {
        return a.eq_ignore_ascii_case(b);
    }
    prepared_alike(a, b)
}

/// Whether it is one element.
fn is_same_element(a_tag: Tag, a: &[u8], b_tag: Tag, b: &[u8]) -> bool
    ensures { IsTrue result ↔ ((a_tag ≡ b_tag) × (a.now ≡ b.now)) }
{
    if a_tag.octet() != b_tag.octet() {
        return false;
    }
    a == b
}

/// Whether attributes of one type match whose values are plain, and not one element.
fn plain_values_match(oid: &[u8], a_tag: Tag, a: &[u8], b_tag: Tag, b: &[u8]) -> bool
    ensures { plain.is_plain a_tag a.now ≡ true → plain.is_plain b_tag b.now ≡ true → (a_tag ≡ b_tag → a.now ≡ b.now → ⊥)
        → (IsTrue result ↔ (keys.octets_key oid.now a_tag a.now ≡ keys.octets_key oid.now b_tag b.now)) }
{
    if !is_text(a_tag, a) {
        return false;
    }
    if !is_text(b_tag, b) {
        return false;
    }
    texts_match(oid, a, b)
}

/// Whether attributes of one type match.
///
/// # Errors
///
/// When out of memory, only where one is a BMPString, a UniversalString or a UTF8String beyond ASCII.
pub(crate) fn values_match(
    alloc: Global,
    oid: &[u8],
    a_tag: Tag,
    a: &[u8],
    b_tag: Tag,
    b: &[u8],
) -> Result<bool, AllocError>
    requires { length oid.now < 256 }
    ensures same { IfOk result (λ same. IsTrue same ↔ (keys.octets_key oid.now a_tag a.now ≡ keys.octets_key oid.now b_tag b.now)) }
    ensures plain { plain.is_plain a_tag a.now ≡ true → plain.is_plain b_tag b.now ≡ true → IsOk result }
    ensures equal { a_tag ≡ b_tag → a.now ≡ b.now → IsOk result }
{
    if is_same_element(a_tag, a, b_tag, b) {
        return Ok(true);
    }
    if is_plain(a_tag, a) && is_plain(b_tag, b) {
        return Ok(plain_values_match(oid, a_tag, a, b_tag, b));
    }
    let left = octets_key(alloc, oid, a_tag, a)?;
    let right = octets_key(alloc, oid, b_tag, b)?;
    Ok(left == right)
}
