//! Values that are encoded of octets: identifiers of keys, and numbers of CRLs.

ghost use Rattle.std.specs.Prelude.{◌≡◌, ◌⊎◌, ◌<◌, length, IfOk, MatchResult};
ghost use Rattle.x509_c_calls.specs.Described.{DescribesNone, EncodesDescribed, IsCrlNumber, IsSubjectKeyIdentifier};
ghost use Rattle.x509_c_calls.specs.Status.{Fills};
ghost use Rattle.x509_der.specs.Element.{limit};
ghost use Rattle.x509_der.specs.Form.{spelling};
ghost use Rattle.x509_der.specs.declared.error.ErrorKind.TheVariants.{Memory, Overlength};
ghost use Rattle.x509_ext.specs.CrlNumber.{crl_number};
ghost use Rattle.x509_ext.specs.SubjectKeyIdentifier.{subject_key_identifier};

use crate::{Status, write};
use std::alloc::Global;
use x509_der::{Encode, ErrorKind, Spelled};
use x509_ext::pkix::{CrlNumber, SubjectKeyIdentifier};
use x509_prim::{OctetString, Uint};

/// How many content octets the number of a CRL has at most (RFC 5280 5.2.3).
const MAX_NUMBER: u32 = 20;

/// The SKI with these octets.
fn identifier_of(alloc: Global, octets: &[u8]) -> Result<SubjectKeyIdentifier, ErrorKind>
    ensures found { MatchResult result (IsSubjectKeyIdentifier octets.now) (λ e. (e ≡ Memory)
        ⊎ ((e ≡ Overlength) × (limit < length (spelling subject_key_identifier (record { 0 = octets.now }))))) }
    ensures good { IfOk result subject_key_identifier.good }
{
    match OctetString::new(alloc, octets) {
        Ok(octets) => {
            let identifier = SubjectKeyIdentifier(octets);
            identifier.has_spelling();
            Ok(identifier)
        }
        Err(e) => Err(e.kind()),
    }
}

/// Puts the encoding of the SubjectKeyIdentifier (RFC 5280 4.2.1.2) with these octets at the front of the buffer `room`.
///
/// # Errors
///
/// [`Status::NoRoom`] where the buffer is too small; then `written` is the needed length. `Overlength` where the encoding
/// is too long. `Memory` when out of memory.
#[tactic(auto, unfolding(crate::specs::Calls::Encodes, crate::specs::Status::Fills))]
pub fn subject_key_identifier_encode(
    alloc: Global,
    octets: &[u8],
    room: &mut [u8],
    written: &mut usize,
) -> Status
    ensures { Fills (EncodesDescribed subject_key_identifier (IsSubjectKeyIdentifier octets.now) (λ e. ⊥)) room.old room.new written.old written.new result }
{
    match identifier_of(alloc, octets) {
        Ok(identifier) => write(&identifier, room, written),
        Err(e) => Status::Refused(e),
    }
}

/// The CRL number of these octets, the most significant first.
#[tactic(auto, unfolding(x509_der::specs::Element::element, x509_der::specs::Element::length_octets))]
fn number_of(alloc: Global, octets: &[u8]) -> Result<CrlNumber, ErrorKind>
    ensures found { MatchResult result (IsCrlNumber octets.now) (λ e. (e ≡ Memory)
        ⊎ DescribesNone crl_number (IsCrlNumber octets.now) e) }
    ensures good { IfOk result crl_number.good }
{
    if octets.is_empty() {
        return Err(ErrorKind::Value);
    }
    let number = match Uint::new(alloc, octets) {
        Ok(number) => CrlNumber(number),
        Err(e) => return Err(e.kind()),
    };
    match number.value_len() {
        Ok(len) if len.as_u32() <= MAX_NUMBER => {
            number.has_spelling();
            Ok(number)
        }
        _ => Err(ErrorKind::Value),
    }
}

/// Puts the encoding of the CRLNumber (RFC 5280 5.2.3) of these octets, the most significant first, at the front of the
/// buffer `room`. A BaseCRLNumber (5.2.4) is encoded as it is.
///
/// # Errors
///
/// [`Status::NoRoom`] where the buffer is too small; then `written` is the needed length. `Value` exactly where there are
/// no octets, or the number's content has more than 20. `Memory` when out of memory.
#[tactic(auto, unfolding(crate::specs::Calls::Encodes, crate::specs::Status::Fills))]
pub fn crl_number_encode(
    alloc: Global,
    octets: &[u8],
    room: &mut [u8],
    written: &mut usize,
) -> Status
    ensures { Fills (EncodesDescribed crl_number (IsCrlNumber octets.now) (DescribesNone crl_number (IsCrlNumber octets.now))) room.old room.new written.old written.new result }
{
    match number_of(alloc, octets) {
        Ok(number) => write(&number, room, written),
        Err(e) => Status::Refused(e),
    }
}
