//! Encodings of extensions and of entries of CRLs.

ghost use Rattle.std.specs.Prelude.{◌≡◌, ◌⊎◌, MatchResult};
ghost use Rattle.x509_c_calls.specs.Built.{FillsUnrepeated};
ghost use Rattle.x509_c_calls.specs.BuildMembers.{EncodesEntry, EncodesExtension, IsEntryOf, IsExtensionOf, RefusesEntry, RefusesExtension};
ghost use Rattle.x509_c_calls.specs.Status.{Fills};
ghost use Rattle.x509_der.specs.declared.error.ErrorKind.TheVariants.{Memory};

use crate::build::input::{check_repeated, read_each, time_at, unless_empty};
use crate::{Status, read, write};
use std::alloc::Global;
use x509_base::{Rfc5280, SerialNumber};
use x509_cert::crl::RevokedCert;
use x509_der::{Error, ErrorKind, ObjectIdentifier};
use x509_ext::{Extension, members};
use x509_prim::OctetString;

/// The extension with an OID of these content octets, which holds those octets.
fn extension_of(alloc: Global, oid: &[u8], critical: bool, value: &[u8]) -> Result<Extension, Error>
    ensures { MatchResult result (λ extension. IsExtensionOf oid.now critical value.now extension) (λ e. (e.kind ≡ Memory)
        ⊎ RefusesExtension oid.now value.now e.kind) }
{
    Ok(Extension {
        extn_id: ObjectIdentifier::from_bytes(oid)?,
        critical,
        extn_value: OctetString::new(alloc, value)?,
    })
}

/// Puts the encoding of an extension at the front of the buffer `room`: with an OID of these content octets, critical or not, and holding these
/// octets, the encoding of its value, which isn't decoded (RFC 5280 4.2).
///
/// # Errors
///
/// [`Status::NoRoom`] where the buffer is too small; then `written` is the needed length. `Malformed` exactly where no OID has the content octets.
/// `Overlength` where the extension is too long. `Memory` when out of memory.
#[tactic(auto, unfolding(crate::specs::Status::Fills, crate::specs::Calls::Encodes))]
pub fn extension_encode(
    alloc: Global,
    oid: &[u8],
    critical: bool,
    value: &[u8],
    room: &mut [u8],
    written: &mut usize,
) -> Status
    ensures { Fills (EncodesExtension oid.now critical value.now) room.old room.new written.old written.new result }
{
    match extension_of(alloc, oid, critical, value) {
        Ok(extension) => write(&extension, room, written),
        Err(e) => e.into(),
    }
}

/// The entry of a certificate with that serial number that was revoked then; its extensions are left out where there are
/// none.
fn entry_of(
    alloc: Global,
    serial_number: &[u8],
    date: u64,
    extensions: &[u8],
) -> Result<RevokedCert<Rfc5280>, ErrorKind>
    ensures { MatchResult result (λ entry. IsEntryOf serial_number.now date extensions.now entry) (λ e. (e ≡ Memory)
        ⊎ RefusesEntry serial_number.now date extensions.now e) }
{
    let serial_number = read::<SerialNumber<Rfc5280>>(alloc, serial_number)?;
    let revocation_date = time_at(date)?;
    let extensions = read_each::<Extension>(alloc, extensions)?;
    Ok(RevokedCert {
        serial_number,
        revocation_date,
        crl_entry_extensions: unless_empty(extensions),
    })
}

/// Puts the encoding of an entry of a CRL at the front of the buffer `room` (RFC 5280 5.1.2.6): of the certificate with that serial number, the encoding
/// of an INTEGER, that was revoked at that time, in seconds since 1970-01-01T00:00:00Z. Its extensions (RFC 5280 5.3) are encodings of them one after
/// the other, or none.
///
/// # Errors
///
/// [`Status::NoRoom`] where the buffer is too small; then `written` is the needed length. The error of decoding an input; `Value` where the time is after
/// the year 9999; where several are bad, any of theirs. Else [`Status::Repeated`] exactly where two extensions have one OID; then nothing is written.
/// `Overlength` where the entry is too long. `Memory` when out of memory.
pub fn entry_encode(
    alloc: Global,
    serial_number: &[u8],
    date: u64,
    extensions: &[u8],
    room: &mut [u8],
    written: &mut usize,
) -> Status
    ensures { FillsUnrepeated (EncodesEntry serial_number.now date extensions.now) room.old room.new written.old written.new result }
{
    let entry = match entry_of(alloc, serial_number, date, extensions) {
        Ok(entry) => entry,
        Err(e) => return Status::Refused(e),
    };
    match check_repeated(alloc, members(entry.crl_entry_extensions.as_ref())) {
        Ok(()) => write(&entry, room, written),
        Err(status) => status,
    }
}
