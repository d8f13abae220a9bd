//! Attributes with sets of values, encoded of these.

ghost use Rattle.std.specs.Prelude.{◌≡◌, ◌⊎◌, IfOk, MatchResult};
ghost use Rattle.x509_c_calls.specs.Described.{EncodesDescribed};
ghost use Rattle.x509_c_calls.specs.DescribedAttributes.{IsRequestAttributeOf, RefusesRequestAttribute};
ghost use Rattle.x509_c_calls.specs.Status.{Fills};
ghost use Rattle.x509_der.specs.declared.error.ErrorKind.TheVariants.{Memory};
ghost use Rattle.x509_name.specs.Attribute.{attribute};

use crate::build::read_each;
use crate::payloads::described_name::oid_of;
use crate::{Status, write};
use std::alloc::Global;
use x509_der::{Any, ErrorKind, SetOfVec, Spelled};
use x509_name::attr::Attribute;

/// The attribute of that type with these values.
fn attribute_of(alloc: Global, oid: &[u8], values: &[u8]) -> Result<Attribute, ErrorKind>
    ensures found { MatchResult result (IsRequestAttributeOf oid.now values.now) (λ e. (e ≡ Memory) ⊎ RefusesRequestAttribute oid.now values.now e) }
    ensures good { IfOk result attribute.good }
{
    if values.is_empty() {
        return Err(ErrorKind::Value);
    }
    let oid = match oid_of(oid) {
        Ok(oid) => oid,
        Err(e) => return Err(e),
    };
    let members = match read_each::<Any>(alloc, values) {
        Ok(members) => members,
        Err(e) => return Err(e),
    };
    let values = match SetOfVec::try_from_vec(members) {
        Ok(values) => values,
        Err(e) => return Err(e.kind()),
    };
    let made = Attribute { oid, values };
    made.has_spelling();
    Ok(made)
}

/// Puts the encoding of an Attribute (RFC 5280 4.2.1.8, RFC 2986 4.1) at the front of the buffer `room`: of the type with an
/// OID of these content octets, and with the set of the values whose encodings are given one after the other, in any order.
///
/// # Errors
///
/// [`Status::NoRoom`] where the buffer is too small; then `written` is the needed length. `Value` where there is no value;
/// `Malformed` where no OID has the content octets; the error of decoding the values; `SetDuplicate` where two of them are
/// equal. `Overlength` where the encoding is too long. `Memory` when out of memory.
#[tactic(auto, unfolding(crate::specs::Calls::Encodes, crate::specs::Status::Fills))]
pub fn request_attribute_encode(
    alloc: Global,
    oid: &[u8],
    values: &[u8],
    room: &mut [u8],
    written: &mut usize,
) -> Status
    ensures { Fills (EncodesDescribed attribute (IsRequestAttributeOf oid.now values.now) (RefusesRequestAttribute oid.now values.now)) room.old room.new written.old written.new result }
{
    match attribute_of(alloc, oid, values) {
        Ok(made) => write(&made, room, written),
        Err(e) => Status::Refused(e),
    }
}
