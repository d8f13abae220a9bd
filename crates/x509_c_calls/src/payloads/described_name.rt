//! General names, encoded of what a caller says of them.

ghost use Rattle.std.specs.Prelude.{◌≡◌, ◌⊎◌, IfOk, IfSome, MatchResult};
ghost use Rattle.x509_c_calls.specs.BuildMembers.{IsOid};
ghost use Rattle.x509_c_calls.specs.Described.{EncodesDescribed};
ghost use Rattle.x509_c_calls.specs.DescribedParts.{IsNameOf, IsOtherNameOf, RefusesName, RefusesOid, RefusesOtherName, name_tag, tag_kind};
ghost use Rattle.x509_c_calls.specs.Status.{Fills};
ghost use Rattle.x509_der.specs.declared.error.ErrorKind.TheVariants.{Memory};
ghost use Rattle.x509_ext.specs.GeneralName.{general_name};

use crate::{Status, read, write};
use std::alloc::Global;
use x509_der::{Any, Decode, ErrorKind, ObjectIdentifier, Spelled};
use x509_ext::pkix::name::{GeneralName, OtherName};

/// The identifier octet of the names of that kind.
fn name_tag(kind: u32) -> Option<u8>
    ensures tag { result ≡ name_tag kind }
    ensures kind { IfSome result (λ tag. tag_kind tag ≡ kind) }
{
    match kind {
        0 => Some(0xA0),
        1 => Some(0x81),
        2 => Some(0x82),
        4 => Some(0xA4),
        5 => Some(0xA5),
        6 => Some(0x86),
        7 => Some(0x87),
        8 => Some(0x88),
        _ => None,
    }
}

/// The name of that kind that holds these octets.
fn name_of(alloc: Global, kind: u32, content: &[u8]) -> Result<GeneralName, ErrorKind>
    ensures found { MatchResult result (IsNameOf kind content.now) (λ e. (e ≡ Memory) ⊎ RefusesName kind content.now e) }
    ensures good { IfOk result general_name.good }
{
    let Some(tag) = name_tag(kind) else {
        return Err(ErrorKind::Value);
    };
    match GeneralName::read(alloc, tag, content) {
        Ok(name) => Ok(name),
        Err(e) => Err(e.kind()),
    }
}

/// Puts the encoding of the GeneralName (RFC 5280 4.2.1.6) of that kind that holds these octets at the front of the buffer
/// `room`: the kind is the tag number, and the octets are those of a text or an address, a whole Name, the content octets
/// of an OID, or the fields of another sequence, as [`GeneralNameView`](crate::GeneralNameView) says both.
///
/// # Errors
///
/// [`Status::NoRoom`] where the buffer is too small; then `written` is the needed length. `Value` where there is no such
/// kind; `Malformed` where no name of it holds these octets. `Overlength` where the encoding is too long. `Memory` when out
/// of memory.
#[tactic(auto, unfolding(crate::specs::Calls::Encodes, crate::specs::Status::Fills))]
pub fn general_name_encode(
    alloc: Global,
    kind: u32,
    content: &[u8],
    room: &mut [u8],
    written: &mut usize,
) -> Status
    ensures { Fills (EncodesDescribed general_name (IsNameOf kind content.now) (RefusesName kind content.now)) room.old room.new written.old written.new result }
{
    match name_of(alloc, kind, content) {
        Ok(name) => write(&name, room, written),
        Err(e) => Status::Refused(e),
    }
}

/// The OID with these content octets.
pub(crate) fn oid_of(content: &[u8]) -> Result<ObjectIdentifier, ErrorKind>
    ensures { MatchResult result (λ oid. IsOid content.now × (oid ≡ content.now)) (λ e. RefusesOid content.now e) }
{
    match ObjectIdentifier::from_bytes(content) {
        Ok(oid) => Ok(oid),
        Err(_) => Err(ErrorKind::Malformed),
    }
}

/// The otherName of that type with that value.
fn other_name_of(alloc: Global, type_id: &[u8], value: &[u8]) -> Result<GeneralName, ErrorKind>
    ensures found { MatchResult result (IsOtherNameOf type_id.now value.now) (λ e. (e ≡ Memory) ⊎ RefusesOtherName type_id.now value.now e) }
    ensures good { IfOk result general_name.good }
{
    let type_id = match oid_of(type_id) {
        Ok(oid) => oid,
        Err(e) => return Err(e),
    };
    let value = match read::<Any>(alloc, value) {
        Ok(value) => value,
        Err(e) => return Err(e),
    };
    let name = GeneralName::OtherName(OtherName { type_id, value });
    name.has_spelling();
    Ok(name)
}

/// Puts the encoding of a GeneralName that is an otherName (RFC 5280 4.2.1.6) at the front of the buffer `room`: of the
/// type with an OID of these content octets, and with that value, a whole element.
///
/// # Errors
///
/// [`Status::NoRoom`] where the buffer is too small; then `written` is the needed length. `Malformed` where no OID has the
/// content octets; the error of decoding the value. `Overlength` where the encoding is too long. `Memory` when out of
/// memory.
#[tactic(auto, unfolding(crate::specs::Calls::Encodes, crate::specs::Status::Fills))]
pub fn other_name_encode(
    alloc: Global,
    type_id: &[u8],
    value: &[u8],
    room: &mut [u8],
    written: &mut usize,
) -> Status
    ensures { Fills (EncodesDescribed general_name (IsOtherNameOf type_id.now value.now) (RefusesOtherName type_id.now value.now)) room.old room.new written.old written.new result }
{
    match other_name_of(alloc, type_id, value) {
        Ok(name) => write(&name, room, written),
        Err(e) => Status::Refused(e),
    }
}
