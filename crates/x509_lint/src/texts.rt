//! What is asked of the texts of names.

ghost use Rattle.std.specs.List.{list_all};
ghost use Rattle.std.specs.Prelude.{◌≡◌, IfNone, IfSome, bytes_eq, false, nat_lt, true};
ghost use Rattle.std.specs.Str.{is_utf8};
ghost use Rattle.x509_lint.specs.Text as text;

use crate::lists::{Test, all_of, any_attribute};
use crate::notices::count_chars;
use crate::passes;
use x509_der::Tag;
use x509_host::are_ldh_labels;
use x509_name::attr::AttributeTypeAndValue;
use x509_name::attr::attribute_types::{DOMAIN_COMPONENT, EMAIL_ADDRESS};
use x509_name::name::Name;

/// What may be wrong with the text of an attribute (RFC 5280 4.1.2.4, A.1).
#[derive(Clone, Copy)]
pub(crate) enum TextFault {
    /// It is of a string type that the attribute doesn't have.
    OtherType,

    /// It is a DirectoryString of a type that new names don't have.
    OldType,

    /// It has characters that its string type doesn't have.
    OtherCharacter,

    /// It is empty, or longer than the upper bound of the attribute.
    Size,

    /// It is that of a domainComponent, and isn't one label.
    Label,
}

const DIRECTORY_NUMBERS: [u8; 12] = [3, 4, 7, 8, 10, 11, 12, 41, 42, 43, 44, 65];

const PRINTABLE_NUMBERS: [u8; 2] = [5, 46];

const NUMBERS_TO_64: [u8; 5] = [3, 5, 10, 11, 12];

const NUMBERS_TO_128: [u8; 3] = [7, 8, 65];

const NUMBERS_TO_32768: [u8; 5] = [4, 41, 42, 43, 44];

/// The marks that a PrintableString may have.
const MARKS: [u8; 12] = [32, 39, 40, 41, 43, 44, 45, 46, 47, 58, 61, 63];

fn is_id_at(oid: &[u8], number: u8) -> bool
    ensures { result ≡ bytes_eq oid.now (text.id_at number) }
{
    oid == [0x55, 0x04, number].as_slice()
}

/// Whether the type is 2.5.4.N, with one of the numbers as N.
fn is_among(mut numbers: &[u8], oid: &[u8]) -> bool
    ensures { result ≡ text.is_among numbers.entry.now oid.now }
{
    while let [first, rest @ ..] = numbers {
        if is_id_at(oid, *first) {
            return true;
        }
        numbers = rest;
    }
    false
}

fn is_ia5_type(attribute: &AttributeTypeAndValue) -> bool
    ensures { result ≡ text.is_ia5_type attribute.now.oid }
{
    attribute.oid == DOMAIN_COMPONENT || attribute.oid == EMAIL_ADDRESS
}

fn is_printable_string(tag: Tag) -> bool
    ensures { result ≡ text.is_printable_string tag }
{
    match tag {
        Tag::PrintableString => true,
        _ => false,
    }
}

pub(crate) fn is_ia5_string(tag: Tag) -> bool
    ensures { result ≡ text.is_ia5_string tag }
{
    match tag {
        Tag::Ia5String => true,
        _ => false,
    }
}

pub(crate) fn is_utf8_string(tag: Tag) -> bool
    ensures { result ≡ text.is_utf8_string tag }
{
    match tag {
        Tag::Utf8String => true,
        _ => false,
    }
}

pub(crate) fn is_new_string(tag: Tag) -> bool
    ensures { result ≡ text.is_new_string tag }
{
    match tag {
        Tag::PrintableString | Tag::Utf8String => true,
        _ => false,
    }
}

pub(crate) fn is_old_string(tag: Tag) -> bool
    ensures { result ≡ text.is_old_string tag }
{
    match tag {
        Tag::TeletexString | Tag::BmpString | Tag::UniversalString => true,
        _ => false,
    }
}

fn has_other_type(attribute: &AttributeTypeAndValue) -> bool
    ensures { result ≡ text.has_other_type attribute.now }
{
    let oid = attribute.oid.as_bytes();
    let tag = attribute.value.tag();
    (is_among(&DIRECTORY_NUMBERS, oid) && (!is_new_string(tag) && !is_old_string(tag)))
        || ((is_among(&PRINTABLE_NUMBERS, oid) && !is_printable_string(tag))
            || (is_ia5_type(attribute) && !is_ia5_string(tag)))
}

fn has_old_type(attribute: &AttributeTypeAndValue) -> bool
    ensures { result ≡ text.has_old_type attribute.now }
{
    is_among(&DIRECTORY_NUMBERS, attribute.oid.as_bytes()) && is_old_string(attribute.value.tag())
}

pub(crate) fn is_digit(octet: u8) -> bool
    ensures { result ≡ text.is_digit octet }
{
    octet >= b'0' && octet <= b'9'
}

/// That an octet is a character of a PrintableString.
struct PrintableOctet;

impl Test<u8> for PrintableOctet {
    ghost use Rattle.x509_lint.specs.Text.{is_printable_octet};

    ghost holds_of = { λ test. is_printable_octet };

    fn holds_of(&self, octet: &u8) -> bool {
        (*octet >= b'A' && *octet <= b'Z')
            || ((*octet >= b'a' && *octet <= b'z') || (is_digit(*octet) || MARKS.contains(octet)))
    }
}

/// Whether each octet is a character of a PrintableString.
pub(crate) fn is_printable(octets: &[u8]) -> bool
    ensures { result ≡ list_all text.is_printable_octet octets.now }
{
    all_of(&PrintableOctet, octets)
}

/// That an octet is a character of an IA5String.
struct Ia5Octet;

impl Test<u8> for Ia5Octet {
    ghost use Rattle.std.specs.Prelude.{nat_lt};

    ghost holds_of = { λ test octet. nat_lt octet 128 };

    fn holds_of(&self, octet: &u8) -> bool {
        *octet < 128
    }
}

pub(crate) fn is_ia5(octets: &[u8]) -> bool
    ensures { result ≡ list_all (λ octet. nat_lt octet 128) octets.now }
{
    all_of(&Ia5Octet, octets)
}

/// That an octet is a character of a VisibleString.
struct VisibleOctet;

impl Test<u8> for VisibleOctet {
    ghost use Rattle.std.specs.Prelude.{◌&&◌, nat_le, nat_lt};

    ghost holds_of = { λ test octet. nat_le 32 octet && nat_lt octet 127 };

    fn holds_of(&self, octet: &u8) -> bool {
        *octet >= 32 && *octet < 127
    }
}

/// That an octet is a character of a NumericString.
struct NumericOctet;

impl Test<u8> for NumericOctet {
    ghost use Rattle.std.specs.Prelude.{◌||◌, ◌==◌};
    ghost use Rattle.x509_lint.specs.Text.{is_digit};

    ghost holds_of = { λ test octet. (octet == 32) || is_digit octet };

    fn holds_of(&self, octet: &u8) -> bool {
        *octet == b' ' || is_digit(*octet)
    }
}

/// The octets as a text, where they are UTF-8.
fn utf8_text(octets: &[u8]) -> Option<&str>
    ensures some { IfSome result (λ text. (text.now ≡ octets.now) × (is_utf8 octets.now ≡ true)) }
    ensures none { IfNone result (is_utf8 octets.now ≡ false) }
{
    match std::str::from_utf8(octets) {
        Ok(text) => Some(text),
        Err(_) => None,
    }
}

pub(crate) fn is_utf8(octets: &[u8]) -> bool
    ensures { result ≡ is_utf8 octets.now }
{
    passes!(utf8_text(octets), _ => true)
}

/// Whether the octets are a text of the string type.
fn is_text(tag: Tag, octets: &[u8]) -> bool
    ensures { result ≡ text.is_text tag octets.now }
{
    match tag {
        Tag::Utf8String => is_utf8(octets),
        Tag::PrintableString => is_printable(octets),
        Tag::Ia5String => is_ia5(octets),
        Tag::VisibleString => all_of(&VisibleOctet, octets),
        Tag::NumericString => all_of(&NumericOctet, octets),
        Tag::BmpString => octets.len() % 2 == 0,
        Tag::UniversalString => octets.len() % 4 == 0,
        _ => true,
    }
}

fn count_utf8(octets: &[u8]) -> usize
    ensures { result ≡ text.utf8_count octets.now }
{
    match utf8_text(octets) {
        Some(text) => count_chars(text),
        None => octets.len(),
    }
}

/// How many characters the octets have as a text of the string type.
pub(crate) fn char_count(tag: Tag, octets: &[u8]) -> usize
    ensures { result ≡ text.char_count tag octets.now }
{
    match tag {
        Tag::Utf8String => count_utf8(octets),
        Tag::BmpString => octets.len() / 2,
        Tag::UniversalString => octets.len() / 4,
        _ => octets.len(),
    }
}

pub(crate) fn is_outside(bound: usize, count: usize) -> bool
    ensures { result ≡ text.is_outside bound count }
{
    count == 0 || count > bound
}

/// Whether the text is empty, or longer than the upper bound of the attribute.
fn has_odd_size(attribute: &AttributeTypeAndValue) -> bool
    ensures { result ≡ text.has_odd_size attribute.now }
{
    let oid = attribute.oid.as_bytes();
    let count = char_count(attribute.value.tag(), attribute.value.value());
    (is_among(&NUMBERS_TO_64, oid) && is_outside(64, count))
        || ((is_among(&NUMBERS_TO_128, oid) && is_outside(128, count))
            || ((is_among(&NUMBERS_TO_32768, oid) && is_outside(32768, count))
                || (Email.holds_of(attribute) && is_outside(255, count))))
}

/// That an attribute is an emailAddress.
struct Email;

impl Test<AttributeTypeAndValue> for Email {
    ghost use Rattle.std.specs.Prelude.{bytes_eq};
    ghost use Rattle.x509_lint.specs.Text.{email_address};

    ghost holds_of = { λ test attribute. bytes_eq attribute.oid email_address };

    fn holds_of(&self, attribute: &AttributeTypeAndValue) -> bool {
        attribute.oid == EMAIL_ADDRESS
    }
}

/// Whether the octets are one label of a domain name.
fn is_label(octets: &[u8]) -> bool
    ensures { result ≡ text.is_label octets.now }
{
    are_ldh_labels(octets) && !octets.contains(&b'.')
}

/// Whether the attribute is a domainComponent that isn't one label.
fn has_no_label(attribute: &AttributeTypeAndValue) -> bool
    ensures { result ≡ text.has_no_label attribute.now }
{
    attribute.oid == DOMAIN_COMPONENT && !is_label(attribute.value.value())
}

impl Test<AttributeTypeAndValue> for TextFault {
    ghost use Rattle.x509_lint.specs.Text.{is_faulty_text};

    ghost holds_of = { is_faulty_text };

    fn holds_of(&self, attribute: &AttributeTypeAndValue) -> bool {
        match self {
            TextFault::OtherType => has_other_type(attribute),
            TextFault::OldType => has_old_type(attribute),
            TextFault::OtherCharacter => !is_text(attribute.value.tag(), attribute.value.value()),
            TextFault::Size => has_odd_size(attribute),
            TextFault::Label => has_no_label(attribute),
        }
    }
}

/// Whether the text of an attribute of the name has the fault.
pub(crate) fn has_faulty_text(fault: TextFault, name: &Name) -> bool
    ensures { result ≡ text.has_faulty_text fault name.now }
{
    any_attribute(&fault, name)
}

/// Whether an attribute of the name is an emailAddress.
pub(crate) fn has_email(name: &Name) -> bool
    ensures { result ≡ text.has_email name.now }
{
    any_attribute(&Email, name)
}
