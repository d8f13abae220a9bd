//! Encodings of names, of what they are made of, and the escapes of a text.

ghost use Rattle.std.specs.Prelude.{◌≡◌, ◌⊎◌, MatchResult, MatchOption, None, Some};
ghost use Rattle.x509_build.specs.declared.name.string_type.StringType.{StringType};
ghost use Rattle.x509_c_calls.specs.NameMembers.{BuildsName, EncodesAttribute, EncodesRelativeName, Escapes, IsAttributeOf, IsNameOf, IsRelativeNameOf, RefusesAttribute, RefusesNameOf, RefusesRelativeName, string_type_of};
ghost use Rattle.x509_c_calls.specs.Status.{Fills};
ghost use Rattle.x509_der.specs.declared.error.ErrorKind.TheVariants.{Memory};

use crate::build::input::read_each;
use crate::named::text_of;
use crate::{Status, fill, write};
use std::alloc::Global;
use x509_build::name::{Escaped, StringType, attribute_of, name_of, relative_name_of};
use x509_der::{Error, ErrorKind, ObjectIdentifier};
use x509_name::attr::AttributeTypeAndValue;
use x509_name::name::{Name, RelativeDistinguishedName};

/// The string type with that identifier octet; of 0 the one that the attribute wants.
fn string_type_of(oid: ObjectIdentifier, number: u32) -> Option<StringType>
    ensures { result ≡ string_type_of oid number }
{
    match number {
        0 => Some(StringType::wanted(oid)),
        0x0C => Some(StringType::Utf8),
        0x13 => Some(StringType::Printable),
        0x16 => Some(StringType::Ia5),
        0x1E => Some(StringType::Bmp),
        _ => None,
    }
}

/// The attribute of the type with an OID of these content octets that holds the text.
fn read_attribute(
    alloc: Global,
    oid: &[u8],
    string_type: u32,
    text: &[u8],
    is_bounded: bool,
) -> Result<AttributeTypeAndValue, Error>
    ensures { MatchResult result (λ made. IsAttributeOf oid.now string_type text.now is_bounded made) (λ e. (e.kind ≡ Memory)
        ⊎ RefusesAttribute oid.now string_type text.now is_bounded e.kind) }
{
    let oid = ObjectIdentifier::from_bytes(oid)?;
    let Some(text) = text_of(text) else {
        return Err(ErrorKind::Failed.into());
    };
    let Some(string_type) = string_type_of(oid, string_type) else {
        return Err(ErrorKind::Failed.into());
    };
    attribute_of(alloc, oid, string_type, text, is_bounded)
}

/// Puts the encoding of an attribute of a name at the front of the buffer `room` (RFC 5280 4.1.2.4): of the type with an OID of these content octets, and of
/// the text, which is UTF-8, in the string type with that identifier octet: 0C for UTF8String, 13 for PrintableString, 16 for IA5String, 1E for BMPString, and
/// 0 for the one that the attribute wants. Where `is_bounded` it has as many characters as RFC 5280 appendix A.1 says of its type.
///
/// # Errors
///
/// [`Status::NoRoom`] where the buffer is too small; then `written` is the needed length. `Malformed` exactly where no OID has the content octets. `Failed`
/// where the text isn't UTF-8, or the string type is unknown or one that the attribute doesn't allow. `Value` where a character isn't one of the string type's,
/// or, where `is_bounded`, there are too few or too many. `Overlength` where the attribute is too long. `Memory` when out of memory.
#[tactic(auto, unfolding(crate::specs::Status::Fills, crate::specs::Calls::Encodes))]
pub fn attribute_encode(
    alloc: Global,
    oid: &[u8],
    string_type: u32,
    text: &[u8],
    is_bounded: bool,
    room: &mut [u8],
    written: &mut usize,
) -> Status
    ensures { Fills (EncodesAttribute oid.now string_type text.now is_bounded) room.old room.new written.old written.new result }
{
    match read_attribute(alloc, oid, string_type, text, is_bounded) {
        Ok(attribute) => write(&attribute, room, written),
        Err(e) => e.into(),
    }
}

/// The RDN of the attributes whose encodings the bytes are, one after the other.
fn read_relative_name(
    alloc: Global,
    attributes: &[u8],
) -> Result<RelativeDistinguishedName, ErrorKind>
    ensures { MatchResult result (λ rdn. IsRelativeNameOf attributes.now rdn) (λ e. (e ≡ Memory) ⊎ RefusesRelativeName attributes.now e) }
{
    let attributes = read_each::<AttributeTypeAndValue>(alloc, attributes)?;
    match relative_name_of(attributes) {
        Ok(rdn) => Ok(rdn),
        Err(e) => Err(e.kind()),
    }
}

/// Puts the encoding of an RDN at the front of the buffer `room`: the set of the attributes, in their order (RFC 5280 4.1.2.4), whose encodings are given one
/// after the other, in any order.
///
/// # Errors
///
/// [`Status::NoRoom`] where the buffer is too small; then `written` is the needed length. The error of decoding the attributes; `Value` where there are none;
/// `SetDuplicate` where two of them are equal. `Overlength` where the RDN is too long. `Memory` when out of memory.
#[tactic(auto, unfolding(crate::specs::Status::Fills, crate::specs::Calls::Encodes))]
pub fn relative_name_encode(
    alloc: Global,
    attributes: &[u8],
    room: &mut [u8],
    written: &mut usize,
) -> Status
    ensures { Fills (EncodesRelativeName attributes.now) room.old room.new written.old written.new result }
{
    match read_relative_name(alloc, attributes) {
        Ok(rdn) => write(&rdn, room, written),
        Err(e) => Status::Refused(e),
    }
}

/// The name of the RDNs whose encodings the bytes are, one after the other.
fn read_name(alloc: Global, relative_names: &[u8]) -> Result<Name, ErrorKind>
    ensures { MatchResult result (λ rdns. IsNameOf relative_names.now rdns) (λ e. (e ≡ Memory) ⊎ RefusesNameOf relative_names.now e) }
{
    let rdns = read_each::<RelativeDistinguishedName>(alloc, relative_names)?;
    match name_of(rdns) {
        Ok(name) => Ok(name),
        Err(e) => Err(e.kind()),
    }
}

/// Puts the encoding of a Name at the front of the buffer `room`: of the RDNs, the most general first (RFC 5280 4.1.2.4), whose encodings are given one after
/// the other; of none, the empty name.
///
/// # Errors
///
/// [`Status::NoRoom`] where the buffer is too small; then `written` is the needed length. The error of decoding the RDNs; `Value` where one of them has no
/// attribute. `Overlength` where the name is too long. `Memory` when out of memory.
#[tactic(auto, unfolding(crate::specs::Status::Fills, crate::specs::Calls::Encodes))]
pub fn build_name(
    alloc: Global,
    relative_names: &[u8],
    room: &mut [u8],
    written: &mut usize,
) -> Status
    ensures { Fills (BuildsName relative_names.now) room.old room.new written.old written.new result }
{
    match read_name(alloc, relative_names) {
        Ok(name) => write(&name, room, written),
        Err(e) => Status::Refused(e),
    }
}

/// Puts a text, which is UTF-8, with escapes at the front of the buffer `room`, as it stands for one value in the text of a name (RFC 4514 section 2.4).
///
/// # Errors
///
/// [`Status::NoRoom`] where the buffer is too small; then `written` is the needed length. `Failed` exactly where the text isn't UTF-8; else `Memory` when out
/// of memory.
#[tactic(auto, unfolding(crate::specs::Status::Fills))]
pub fn escape(alloc: Global, text: &[u8], room: &mut [u8], written: &mut usize) -> Status
    ensures { Fills (Escapes text.now) room.old room.new written.old written.new result }
{
    let Some(text) = text_of(text) else {
        return Status::Refused(ErrorKind::Failed);
    };
    match Escaped(text).to_string(alloc) {
        Ok(escaped) => fill(escaped.as_str().as_bytes(), room, written),
        Err(_) => Status::Refused(ErrorKind::Memory),
    }
}
