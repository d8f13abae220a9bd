//! The AKI, encoded of what a caller says of the issuer's key.

ghost use Rattle.std.specs.Prelude.{◌≡◌, ◌⊎◌, ◌↔◌, ◌<◌, [], length, IfOk, IsTrue, MatchResult, None, Some, true, if◌then◌else◌};
ghost use Rattle.x509_c_calls.specs.Described.{EncodesDescribed, IsAuthorityKeyIdentifierOf, RefusesAuthorityKeyIdentifier, RefusesPerhaps, SpellsPerhaps};
ghost use Rattle.x509_c_calls.specs.Status.{Fills};
ghost use Rattle.x509_der.specs.Element.{limit};
ghost use Rattle.x509_der.specs.Form.{spelling};
ghost use Rattle.x509_der.specs.declared.error.ErrorKind.TheVariants.{Memory, Overlength};
ghost use Rattle.x509_ext.specs.AuthorityKeyIdentifier.{authority_key_identifier};
ghost use Rattle.x509_prim.specs.OctetString.{octet_string};

use crate::{Status, read, write};
use std::alloc::Global;
use x509_base::{Rfc5280, SerialNumber};
use x509_der::{Decode, ErrorKind, Spelled};
use x509_ext::pkix::AuthorityKeyIdentifier;
use x509_ext::pkix::name::GeneralNames;
use x509_prim::OctetString;

/// The value that the bytes encode; `None` of no bytes.
pub(crate) fn read_perhaps<T: Decode>(alloc: Global, bytes: &[u8]) -> Result<Option<T>, ErrorKind>
    ensures { MatchResult result (SpellsPerhaps T.form bytes.now) (λ e. (e ≡ Memory) ⊎ RefusesPerhaps T.form T.refuses bytes.now e) }
{
    if bytes.is_empty() {
        return Ok(None);
    }
    match read::<T>(alloc, bytes) {
        Ok(value) => Ok(Some(value)),
        Err(e) => Err(e),
    }
}

/// The octets, where they are said to be there.
fn key_of(alloc: Global, has_key: bool, key: &[u8]) -> Result<Option<OctetString>, ErrorKind>
    ensures { MatchResult result (λ found. found ≡ (if has_key then Some key.now else None))
        (λ e. (e ≡ Memory) ⊎ ((has_key ≡ true) × (e ≡ Overlength) × (limit < length (spelling octet_string key.now)))) }
{
    if !has_key {
        return Ok(None);
    }
    match OctetString::new(alloc, key) {
        Ok(octets) => Ok(Some(octets)),
        Err(e) => Err(e.kind()),
    }
}

/// Whether the names are there and none.
fn is_no_list(names: &Option<GeneralNames>) -> bool
    ensures { IsTrue result ↔ (names.now ≡ Some []) }
{
    match names {
        Some(names) => names.is_empty(),
        None => false,
    }
}

/// The AKI with that identifier of the key, and of a certificate of it the issuer and the serial number.
fn identifier_of(
    alloc: Global,
    has_key: bool,
    key: &[u8],
    issuer: &[u8],
    serial_number: &[u8],
) -> Result<AuthorityKeyIdentifier, ErrorKind>
    ensures found { MatchResult result (IsAuthorityKeyIdentifierOf has_key key.now issuer.now serial_number.now) (λ e. (e ≡ Memory)
        ⊎ RefusesAuthorityKeyIdentifier has_key key.now issuer.now serial_number.now e) }
    ensures good { IfOk result authority_key_identifier.good }
{
    if issuer.is_empty() != serial_number.is_empty() {
        return Err(ErrorKind::Value);
    }
    let key_identifier = match key_of(alloc, has_key, key) {
        Ok(found) => found,
        Err(e) => return Err(e),
    };
    let authority_cert_issuer = match read_perhaps::<GeneralNames>(alloc, issuer) {
        Ok(found) => found,
        Err(e) => return Err(e),
    };
    if is_no_list(&authority_cert_issuer) {
        return Err(ErrorKind::Value);
    }
    let authority_cert_serial_number = match read_perhaps::<SerialNumber<Rfc5280>>(
        alloc,
        serial_number,
    ) {
        Ok(found) => found,
        Err(e) => return Err(e),
    };
    let identifier = AuthorityKeyIdentifier {
        key_identifier,
        authority_cert_issuer,
        authority_cert_serial_number,
    };
    identifier.has_spelling();
    Ok(identifier)
}

/// Puts the encoding of the AuthorityKeyIdentifier (RFC 5280 4.2.1.1) at the front of the buffer `room`: with these octets
/// of the identifier of the issuer's key, where `has_key` says that they are there, and with the names of the issuer, a
/// whole GeneralNames, and the serial number, a whole INTEGER, of a certificate of that key; where these have no bytes,
/// they are left out.
///
/// # Errors
///
/// [`Status::NoRoom`] where the buffer is too small; then `written` is the needed length. The error of decoding the names
/// or the serial number; `Value` where one of both alone is there, or the list of names is empty. `Overlength` where the
/// encoding is too long. `Memory` when out of memory.
#[tactic(auto, unfolding(crate::specs::Calls::Encodes, crate::specs::Status::Fills))]
pub fn authority_key_identifier_encode(
    alloc: Global,
    has_key: bool,
    key: &[u8],
    issuer: &[u8],
    serial_number: &[u8],
    room: &mut [u8],
    written: &mut usize,
) -> Status
    ensures { Fills (EncodesDescribed authority_key_identifier (IsAuthorityKeyIdentifierOf has_key key.now issuer.now serial_number.now)
        (RefusesAuthorityKeyIdentifier has_key key.now issuer.now serial_number.now)) room.old room.new written.old written.new result }
{
    match identifier_of(alloc, has_key, key, issuer, serial_number) {
        Ok(identifier) => write(&identifier, room, written),
        Err(e) => Status::Refused(e),
    }
}
