//! The octets that an attribute is compared by (RFC 5280 7.1, 7.5).

ghost use Rattle.std.specs.Prelude.{◌≡◌, ◌<◌, ◌++◌, OnOk, bytes_eq, chars, encode_utf8_all, false, true, IfOk, length, MatchOption, option_map, string_bytes};
ghost use Rattle.x509_match.specs.Keys as keys;
ghost use Rattle.x509_match.specs.Keys.{code_of, is_character};
ghost use Rattle.x509_match.specs.Matching.{is_compared};
ghost use Rattle.x509_name.specs.AttributeTypes as types;

use crate::text::{lowercase, prepared};
use std::alloc::{AllocError, Global};
use x509_der::{Content, ErrorKind, Tag};
use x509_name::attr::AttributeTypeAndValue;
use x509_name::attr::attribute_types::{DOMAIN_COMPONENT, EMAIL_ADDRESS};
use x509_prim::{BmpString, Ia5, text_of, utf8_text};

/// The text of octets below 80.
#[tactic(auto, unfolding(crate::specs::Keys::ascii_characters))]
fn ascii_text(alloc: Global, content: &[u8]) -> Result<Option<String>, AllocError>
    ensures { IfOk result (λ found. option_map string_bytes found ≡ option_map encode_utf8_all (keys.ascii_characters content.now)) }
{
    let Some(text) = text_of::<Ia5>(content) else {
        return Ok(None);
    };
    let owned = String::from_str(alloc, text)?;
    Ok(Some(owned))
}

/// The text of octets in UTF-8.
#[tactic(auto, unfolding(crate::specs::Keys::utf8_characters))]
fn utf8_owned(alloc: Global, content: &[u8]) -> Result<Option<String>, AllocError>
    ensures { IfOk result (λ found. option_map string_bytes found ≡ option_map encode_utf8_all (keys.utf8_characters content.now)) }
{
    let Some(text) = utf8_text(content) else {
        return Ok(None);
    };
    let owned = String::from_str(alloc, text)?;
    Ok(Some(owned))
}

/// The text of octets of which two are a character.
#[tactic(auto, unfolding(crate::specs::Keys::bmp_characters))]
fn bmp_text(alloc: Global, content: &[u8]) -> Result<Option<String>, AllocError>
    ensures { IfOk result (λ found. option_map string_bytes found ≡ option_map encode_utf8_all (keys.bmp_characters content.now)) }
{
    match BmpString::read_content(alloc, content) {
        Ok(string) => match string.to_text(alloc) {
            Ok(text) => Ok(Some(text)),
            Err(_) => Err(AllocError),
        },
        Err(error) => match error.kind() {
            ErrorKind::Malformed => Ok(None),
            _ => Err(AllocError),
        },
    }
}

/// The character of a code, the highest octet first.
fn character_of(a: u8, b: u8, c: u8, d: u8) -> Option<char>
    ensures { MatchOption result (is_character (code_of a b c d) ≡ false) (λ found. (is_character (code_of a b c d) ≡ true) × (found ≡ code_of a b c d)) }
{
    char::from_u32(256 * (256 * (256 * a as u32 + b as u32) + c as u32) + d as u32)
}

/// The text of octets of which four are a character.
fn universal_text(alloc: Global, content: &[u8]) -> Result<Option<String>, AllocError>
    ensures { IfOk result (λ found. option_map string_bytes found ≡ option_map encode_utf8_all (keys.universal_characters content.now)) }
{
    let mut text = String::new(alloc);
    let mut rest = content;
    while let [a, b, c, d, behind @ ..] = rest {
        let Some(found) = character_of(*a, *b, *c, *d) else {
            return Ok(None);
        };
        text.push(found)?;
        rest = behind;
    }
    if rest.is_empty() {
        Ok(Some(text))
    } else {
        Ok(None)
    }
}

/// The text of an element, where it is compared as one.
fn text_in(alloc: Global, tag: Tag, content: &[u8]) -> Result<Option<String>, AllocError>
    ensures { IfOk result (λ found. option_map string_bytes found ≡ option_map encode_utf8_all (keys.characters tag content.now)) }
{
    match tag {
        Tag::PrintableString | Tag::Ia5String | Tag::TeletexString => ascii_text(alloc, content),
        Tag::Utf8String => utf8_owned(alloc, content),
        Tag::BmpString => bmp_text(alloc, content),
        Tag::UniversalString => universal_text(alloc, content),
        _ => Ok(None),
    }
}

/// Whether it is the type of mailboxes.
fn is_email_address(oid: &[u8]) -> bool
    ensures { result ≡ bytes_eq oid.now types.email_address }
{
    oid == EMAIL_ADDRESS.as_bytes()
}

/// Whether it is the type of the labels of hosts.
fn is_domain_component(oid: &[u8]) -> bool
    ensures { result ≡ bytes_eq oid.now types.domain_component }
{
    oid == DOMAIN_COMPONENT.as_bytes()
}

/// Whether texts of the type are the same without regard to ASCII case, and not prepared: of emailAddress (RFC 5280
/// 4.1.2.6) and domainComponent (7.3).
pub(crate) fn is_caseless(oid: &[u8]) -> bool
    ensures { result ≡ keys.is_caseless oid.now }
{
    is_email_address(oid) || is_domain_component(oid)
}

/// The text that an attribute of the type with the text is compared by.
fn compared(alloc: Global, oid: &[u8], text: &str) -> Result<Option<String>, AllocError>
    ensures { IfOk result (λ found. option_map string_bytes found ≡ option_map encode_utf8_all (keys.compared oid.now (chars text.now))) }
{
    if is_caseless(oid) {
        let found = lowercase(alloc, text)?;
        return Ok(Some(found));
    }
    let found = prepared(alloc, text)?;
    Ok(found)
}

/// The text that an attribute with the value is compared by.
fn compared_value(
    alloc: Global,
    oid: &[u8],
    tag: Tag,
    content: &[u8],
) -> Result<Option<String>, AllocError>
    ensures { IfOk result (λ found. option_map string_bytes found
        ≡ option_map encode_utf8_all (keys.compared_value oid.now (keys.characters tag content.now))) }
{
    let given = text_in(alloc, tag, content)?;
    let Some(text) = given else {
        return Ok(None);
    };
    let found = compared(alloc, oid, text.as_str())?;
    Ok(found)
}

/// Whether the value of the attribute is compared as a text (RFC 5280 7.1). One that isn't matches its own element alone.
///
/// # Errors
///
/// When out of memory.
pub fn is_compared(alloc: Global, attribute: &AttributeTypeAndValue) -> Result<bool, AllocError>
    ensures { IfOk result (λ b. b ≡ is_compared attribute.now) }
{
    let text = compared_value(
        alloc,
        attribute.oid.as_bytes(),
        attribute.value.tag(),
        attribute.value.value(),
    )?;
    Ok(text.is_some())
}

/// Adds what the value is compared by.
fn push_value(
    key: &mut Vec<u8>,
    text: &Option<String>,
    tag: Tag,
    content: &[u8],
) -> Result<(), AllocError>
    ensures { OnOk result (key.new.items ≡ key.old.items ++ keys.value_key (option_map string_bytes text.now) tag content.now) }
{
    match text {
        Some(text) => {
            key.push(0)?;
            key.extend_from_slice(text.as_bytes())?;
            Ok(())
        }
        None => {
            key.push(1)?;
            key.push(tag.octet())?;
            key.extend_from_slice(content)?;
            Ok(())
        }
    }
}

/// The octets that an attribute is compared by.
#[tactic(auto, unfolding(crate::specs::Keys::octets_key))]
pub(crate) fn octets_key(
    alloc: Global,
    oid: &[u8],
    tag: Tag,
    content: &[u8],
) -> Result<Vec<u8>, AllocError>
    requires { length oid.now < 256 }
    ensures { IfOk result (λ key. key.items ≡ keys.octets_key oid.now tag content.now) }
{
    let text = compared_value(alloc, oid, tag, content)?;
    let mut key = Vec::new(alloc);
    key.push(oid.len() as u8)?;
    key.extend_from_slice(oid)?;
    push_value(&mut key, &text, tag, content)?;
    Ok(key)
}
