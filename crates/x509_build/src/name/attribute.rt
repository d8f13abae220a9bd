//! Attributes that are made of texts.

ghost use Rattle.std.specs.List.{list_all};
ghost use Rattle.std.specs.Prelude.{◌≡◌, ◌⊎◌, None, Some, IfOk, IfErr, length, nat_lt, true, false};
ghost use Rattle.std.specs.Str.{chars};
ghost use Rattle.x509_build.specs.NameValues as values;
ghost use Rattle.x509_der.specs.Element.{element, limit};
ghost use Rattle.x509_der.specs.Tag.{octet_of};
ghost use Rattle.x509_der.specs.declared.error.ErrorKind.TheVariants.{Memory, Overlength, Value};
ghost use Rattle.x509_der.specs.declared.tag.Tag.TheVariants as tags;
ghost use Rattle.x509_prim.specs.Bmp.{bmp_octets, is_bmp_char};

use crate::name::string_type::StringType;
use std::alloc::Global;
use x509_der::{Any, Error, ErrorKind, ObjectIdentifier, Tag};
use x509_name::attr::AttributeTypeAndValue;
use x509_name::attr::attribute_types::{
    COMMON_NAME, COUNTRY_NAME, EMAIL_ADDRESS, GENERATION_QUALIFIER, GIVEN_NAME, INITIALS,
    LOCALITY_NAME, NAME, ORGANIZATION_NAME, ORGANIZATIONAL_UNIT_NAME, PSEUDONYM, SERIAL_NUMBER,
    STATE_OR_PROVINCE_NAME, SURNAME, TITLE,
};
use x509_prim::{Alphabet, BmpString, Ia5, Printable};

/// The types of which an attribute has 1 to 64 characters.
const TYPES_TO_64: [ObjectIdentifier; 5] = [
    COMMON_NAME,
    ORGANIZATION_NAME,
    ORGANIZATIONAL_UNIT_NAME,
    TITLE,
    SERIAL_NUMBER,
];

/// The types of which an attribute has 1 to 128 characters.
const TYPES_TO_128: [ObjectIdentifier; 3] = [LOCALITY_NAME, STATE_OR_PROVINCE_NAME, PSEUDONYM];

/// The types of which an attribute has 1 to 255 characters.
const TYPES_TO_255: [ObjectIdentifier; 1] = [EMAIL_ADDRESS];

/// The types of which an attribute has 1 to 32,768 characters.
const TYPES_TO_32768: [ObjectIdentifier; 5] = [
    NAME,
    SURNAME,
    GIVEN_NAME,
    INITIALS,
    GENERATION_QUALIFIER,
];

/// The types of which an attribute has just 2 characters.
const TYPES_OF_2: [ObjectIdentifier; 1] = [COUNTRY_NAME];

#[tactic(auto, unfolding(crate::specs::NameValues::types_to_64, x509_der::specs::Arcs::subidentifier))]
fn is_to_64(oid: ObjectIdentifier) -> bool
    ensures { result ≡ values.is_among values.types_to_64 oid }
{
    TYPES_TO_64.contains(&oid)
}

#[tactic(auto, unfolding(crate::specs::NameValues::types_to_128, x509_der::specs::Arcs::subidentifier))]
fn is_to_128(oid: ObjectIdentifier) -> bool
    ensures { result ≡ values.is_among values.types_to_128 oid }
{
    TYPES_TO_128.contains(&oid)
}

#[tactic(auto, unfolding(crate::specs::NameValues::types_to_255, x509_der::specs::Arcs::subidentifier))]
fn is_to_255(oid: ObjectIdentifier) -> bool
    ensures { result ≡ values.is_among values.types_to_255 oid }
{
    TYPES_TO_255.contains(&oid)
}

#[tactic(auto, unfolding(crate::specs::NameValues::types_to_32768, x509_der::specs::Arcs::subidentifier))]
fn is_to_32768(oid: ObjectIdentifier) -> bool
    ensures { result ≡ values.is_among values.types_to_32768 oid }
{
    TYPES_TO_32768.contains(&oid)
}

#[tactic(auto, unfolding(crate::specs::NameValues::types_of_2, x509_der::specs::Arcs::subidentifier))]
fn is_of_2(oid: ObjectIdentifier) -> bool
    ensures { result ≡ values.is_among values.types_of_2 oid }
{
    TYPES_OF_2.contains(&oid)
}

/// The fewest and the most characters of an attribute of this type, where RFC 5280 appendix A.1 says them.
fn size_of(oid: ObjectIdentifier) -> Option<(usize, usize)>
    ensures { result ≡ values.size_of oid }
{
    if is_to_64(oid) {
        Some((1, 64))
    } else if is_to_128(oid) {
        Some((1, 128))
    } else if is_to_255(oid) {
        Some((1, 255))
    } else if is_to_32768(oid) {
        Some((1, 32768))
    } else if is_of_2(oid) {
        Some((2, 2))
    } else {
        None
    }
}

/// How many characters the text has.
fn char_count(text: &str) -> usize
    ensures { result ≡ length (chars text.now) }
{
    text.chars().count()
}

/// Whether the text has as many characters as an attribute of this type may have.
fn is_within(oid: ObjectIdentifier, text: &str) -> bool
    ensures { result ≡ values.is_within (values.size_of oid) (length (chars text.now)) }
{
    match size_of(oid) {
        Some((fewest, most)) => {
            let count = char_count(text);
            fewest <= count && count <= most
        }
        None => true,
    }
}

/// The element with these content octets.
fn element_of(alloc: Global, tag: Tag, content: &[u8]) -> Result<Any, Error>
    ensures ok { IfOk result (λ any. (any ≡ record { tag = tag; value = content.now }) × (nat_lt limit (length (element (octet_of tag) content.now)) ≡ false)) }
    ensures err { IfErr result (λ e. (e.kind ≡ Memory) ⊎ ((e.kind ≡ Overlength) × (nat_lt limit (length (element (octet_of tag) content.now)) ≡ true))) }
{
    Any::new(alloc, tag, content)
}

/// The text in a string type whose characters are one octet each.
fn restricted<A: Alphabet>(alloc: Global, text: &str) -> Result<Any, Error>
    ensures ok { IfOk result (λ any. (any ≡ record { tag = A.TAG; value = text.now }) × (list_all A.has_char text.now ≡ true)
        × (nat_lt limit (length (element (octet_of A.TAG) text.now)) ≡ false)) }
    ensures err { IfErr result (λ e. (e.kind ≡ Memory) ⊎ (((e.kind ≡ Value) × (list_all A.has_char text.now ≡ false))
        ⊎ ((e.kind ≡ Overlength) × (list_all A.has_char text.now ≡ true) × (nat_lt limit (length (element (octet_of A.TAG) text.now)) ≡ true)))) }
{
    if !A::has_chars(text.as_bytes()) {
        return Err(ErrorKind::Value.into());
    }
    element_of(alloc, A::TAG, text.as_bytes())
}

/// The text as a BMPString.
fn two_octets_each(alloc: Global, text: &str) -> Result<Any, Error>
    ensures ok { IfOk result (λ any. (any ≡ record { tag = tags.BmpString; value = bmp_octets (chars text.now) }) × (list_all is_bmp_char (chars text.now) ≡ true)
        × (nat_lt limit (length (element (octet_of tags.BmpString) (bmp_octets (chars text.now)))) ≡ false)) }
    ensures err { IfErr result (λ e. (e.kind ≡ Memory) ⊎ (((e.kind ≡ Value) × (list_all is_bmp_char (chars text.now) ≡ false))
        ⊎ ((e.kind ≡ Overlength) × (list_all is_bmp_char (chars text.now) ≡ true) × (nat_lt limit (length (element (octet_of tags.BmpString) (bmp_octets (chars text.now)))) ≡ true)))) }
{
    let string = BmpString::from_str(alloc, text)?;
    element_of(alloc, Tag::BmpString, string.as_bytes())
}

/// The value that holds the text in the string type.
fn value_of(alloc: Global, string_type: StringType, text: &str) -> Result<Any, Error>
    ensures ok { IfOk result (λ any. (any ≡ record { tag = values.tag_of string_type; value = values.content_of string_type text.now })
        × (values.value_refusal string_type text.now ≡ None)) }
    ensures err { IfErr result (λ e. (e.kind ≡ Memory) ⊎ (values.value_refusal string_type text.now ≡ Some e.kind)) }
{
    match string_type {
        StringType::Printable => restricted::<Printable>(alloc, text),
        StringType::Ia5 => restricted::<Ia5>(alloc, text),
        StringType::Utf8 => element_of(alloc, Tag::Utf8String, text.as_bytes()),
        StringType::Bmp => two_octets_each(alloc, text),
    }
}

/// The attribute of a type that holds a text in a string type, for which [`StringType::wanted`] chooses where the caller
/// doesn't. Where `is_bounded` it has as many characters as RFC 5280 appendix A.1 says of the type: up to
/// ub-common-name of a common name, just 2 of a country; of types of which it says no SIZE, any number.
///
/// # Errors
///
/// `Failed` exactly where the attribute doesn't allow the string type. Else `Value` exactly where `is_bounded` and the
/// text has too few or too many characters, or where a character isn't one of the string type's; else `Overlength`
/// exactly where the value is longer than `Length::MAX`; else `Memory` when out of memory.
pub fn attribute_of(
    alloc: Global,
    oid: ObjectIdentifier,
    string_type: StringType,
    text: &str,
    is_bounded: bool,
) -> Result<AttributeTypeAndValue, Error>
    ensures ok { IfOk result (λ attribute. (attribute ≡ values.attribute_of oid string_type text.now)
        × (values.refusal_of oid string_type is_bounded text.now ≡ None)) }
    ensures err { IfErr result (λ e. (e.kind ≡ Memory) ⊎ (values.refusal_of oid string_type is_bounded text.now ≡ Some e.kind)) }
{
    if !string_type.is_allowed_in(oid) {
        return Err(ErrorKind::Failed.into());
    }
    if is_bounded && !is_within(oid, text) {
        return Err(ErrorKind::Value.into());
    }
    let value = value_of(alloc, string_type, text)?;
    Ok(AttributeTypeAndValue { oid, value })
}
