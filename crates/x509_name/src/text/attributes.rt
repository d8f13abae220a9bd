//! The text of an attribute, read and written (RFC 4514 sections 2.3, 2.4 and 3).

ghost use Rattle.std.specs.List.{list_any};
ghost use Rattle.std.specs.Prelude.{◌≡◌, ◌<◌, ◌≤◌, ◌⊎◌, ◌∷◌, false, nat_eq, ℕ, List, length, Ok, Contains, true, IfOk, IfErr, IfSome, IfNone, MatchOption};
ghost use Rattle.std.specs.Fmt.{WritesOnOk};
ghost use Rattle.hex.specs.Hex.{decode_of};
ghost use Rattle.x509_der.specs.Element.{limit};
ghost use Rattle.x509_der.specs.declared.error.ErrorKind.TheVariants as errors;
ghost use Rattle.x509_der.specs.declared.any.Any.{Any};
ghost use Rattle.x509_name.specs.Attributes as attributes;
ghost use Rattle.x509_name.specs.Keys.{KeySays};

use crate::text::escapes::unescape;
use crate::text::hex_text::write_element;
use crate::text::keys::{key_named, key_of, tag_for};
use crate::text::printing::write_escaped;
use hex::FromHexError;
use std::alloc::Global;
use std::{fmt, str};
use x509_der::{Any, Error, ErrorKind, ObjectIdentifier, Tag};
use x509_prim::{Ia5, Printable, Teletex, text_of, utf8_text};

// The key, and what stands behind the first equals sign.
fn cut_key(text: &[u8]) -> Option<(&[u8], &[u8])>
    ensures { MatchOption result (Contains text.now 61 → ⊥) (λ cut. attributes.IsCut text.now cut.0.now cut.1.now) }
{
    for at in 0..text.len() {
        if text[at] == b'=' {
            return Some((&text[..at], &text[at + 1..]));
        }
    }
    None
}

// The type that a key names.
fn read_key(key: &[u8]) -> Result<ObjectIdentifier, Error>
    ensures ok { IfOk result (λ oid. KeySays key.now oid) }
    ensures err { IfErr result (λ e. (e.kind ≡ errors.Failed) × ((octets : List ℕ) → KeySays key.now octets → ⊥)) }
{
    if let Some(row) = key_named(key) {
        return Ok(row.oid);
    }
    match str::from_utf8(key) {
        Ok(dotted) => ObjectIdentifier::new(dotted),
        Err(_) => Err(ErrorKind::Failed.into()),
    }
}

// The value whose element the hex digits say.
fn read_element(alloc: Global, digits: &[u8]) -> Result<Any, Error>
    ensures ok { IfOk result (λ value. (decode_of digits.now ≡ Ok (attributes.value_octets value))
        × (length (attributes.value_octets value) ≤ limit)) }
    ensures err { IfErr result (λ e. (e.kind ≡ errors.Memory) ⊎ attributes.HexRefused digits.now e.kind) }
{
    let octets = match hex::decode(alloc, digits) {
        Ok(octets) => octets,
        Err(FromHexError::OutOfMemory) => return Err(ErrorKind::Memory.into()),
        Err(_) => return Err(ErrorKind::Failed.into()),
    };
    match Any::from_octets(octets) {
        Err(e) if e.kind() == ErrorKind::Malformed => Err(ErrorKind::Failed.into()),
        read => read,
    }
}

// The digits behind a number sign at the front.
fn behind_hash(text: &[u8]) -> Option<&[u8]>
    ensures { MatchOption result (attributes.begins_with_hash text.now ≡ false) (λ digits. text.now ≡ 35 ∷ digits.now) }
{
    match text {
        [b'#', digits @ ..] => Some(digits),
        _ => None,
    }
}

// Whether a backslash stands in the text.
fn has_escape(text: &[u8]) -> bool
    ensures { result ≡ list_any (λ byte. nat_eq byte 92) text.now }
{
    text.contains(&b'\\')
}

// The value whose content stands with escapes behind the equals sign of an attribute of the type.
fn read_escaped(alloc: Global, oid: &ObjectIdentifier, text: &[u8]) -> Result<Any, Error>
    requires { attributes.begins_with_hash text.now ≡ false }
    ensures ok { IfOk result (λ value. attributes.ValueReads oid.now text.now value) }
    ensures err { IfErr result (λ e. (e.kind ≡ errors.Memory) ⊎ attributes.ValueRefused oid.now text.now e.kind) }
{
    let content = unescape(alloc, text)?;
    Any::from_vec(tag_for(oid), content)
}

// The value that stands behind the equals sign of an attribute of the type.
fn read_value(alloc: Global, oid: &ObjectIdentifier, text: &[u8]) -> Result<Any, Error>
    ensures ok { IfOk result (λ value. attributes.ValueReads oid.now text.now value) }
    ensures err { IfErr result (λ e. (e.kind ≡ errors.Memory) ⊎ attributes.ValueRefused oid.now text.now e.kind) }
{
    if let Some(digits) = behind_hash(text) {
        return read_element(alloc, digits);
    }
    if has_escape(text) {
        return read_escaped(alloc, oid, text);
    }
    Any::new(alloc, tag_for(oid), text)
}

/// The attribute that a text says: a key, the first equals sign and the value. The key is a name of the table, without
/// regard to ASCII case, or a dotted OID. The value is the hex of an element behind a number sign, or the content with
/// escapes, whose tag is that of the type; the content isn't checked against the tag.
///
/// # Errors
///
/// `Overlength` exactly where the key names a type and the value's element, or the octets that its hex says, are longer
/// than [`Length::MAX`]; else `Failed` exactly where the text is a bad one: it says no attribute. `Memory` when out of
/// memory.
pub fn read_attribute(alloc: Global, text: &[u8]) -> Result<(ObjectIdentifier, Any), Error>
    ensures ok { IfOk result (λ read. attributes.AttributeReads text.now read.0 read.1) }
    ensures err { IfErr result (λ e. (e.kind ≡ errors.Memory) ⊎ attributes.AttributeRefused text.now e.kind) }
{
    let Some((key, rest)) = cut_key(text) else {
        return Err(ErrorKind::Failed.into());
    };
    let oid = read_key(key)?;
    let value = read_value(alloc, &oid, rest)?;
    Ok((oid, value))
}

// The content as a text, where it is one of the type with its tag.
#[tactic(auto, unfolding(crate::specs::Attributes::is_text))]
fn printed_content(value: &Any) -> Option<&str>
    ensures some { IfSome result (λ text. (text.now ≡ value.now.value) × (attributes.is_text value.now.tag value.now.value ≡ true)) }
    ensures none { IfNone result (attributes.is_text value.now.tag value.now.value ≡ false) }
{
    let content = value.value();
    match value.tag() {
        Tag::PrintableString => text_of::<Printable>(content),
        Tag::Utf8String => utf8_text(content),
        Tag::Ia5String => text_of::<Ia5>(content),
        Tag::TeletexString => text_of::<Teletex>(content),
        _ => None,
    }
}

/// Writes the text of an attribute: the name of its type and the content with escapes, where the type has a name and
/// the content is a text; else the dotted OID, and the hex of the value's element behind a number sign.
///
/// # Errors
///
/// The error of the writer, which may have taken a part of the text then.
pub fn write_attribute<W: fmt::Write>(
    f: &mut fmt::Formatter<W>,
    oid: &ObjectIdentifier,
    value: &Any,
) -> fmt::Result
    ensures { WritesOnOk W.write_str_gives f.old result (attributes.attribute_text oid.now value.now) f.new }
{
    if let Some(text) = printed_content(value) {
        if let Some(key) = key_of(oid) {
            f.write_str(key.name)?;
            f.write_str("=")?;
            return write_escaped(f, text);
        }
    }
    write!(f, "{oid}=#")?;
    write_element(f, value)
}
