//! The bytes to be signed of a certificate.

ghost use Rattle.std.specs.Prelude.{◌≡◌, ◌⊎◌, MatchResult};
ghost use Rattle.x509_c_calls.specs.Built.{FillsUnrepeated};
ghost use Rattle.x509_c_calls.specs.Certificates.{BuildsCertificate, IsPartOf, RefusesPart, version_with};
ghost use Rattle.x509_der.specs.declared.error.ErrorKind.TheVariants.{Memory};

use crate::build::input::{check_order, check_repeated, read_each, time_at, unless_empty};
use crate::{Status, read, write};
use std::alloc::Global;
use x509_base::{AlgorithmIdentifier, Rfc5280, SerialNumber, SubjectPublicKeyInfo, Validity};
use x509_cert::certificate::{TbsCertificate, Version};
use x509_der::{Encode, ErrorKind};
use x509_ext::{Extension, members};
use x509_name::name::Name;

/// The version of a certificate with these extensions.
fn version_with(extensions: &[Extension]) -> Version
    ensures { result ≡ version_with extensions.now }
{
    if extensions.is_empty() {
        Version::V1
    } else {
        Version::V3
    }
}

/// The signed part with these fields.
fn part_of(
    alloc: Global,
    serial_number: &[u8],
    algorithm: &[u8],
    issuer: &[u8],
    not_before: u64,
    not_after: u64,
    subject: &[u8],
    key: &[u8],
    extensions: &[u8],
) -> Result<TbsCertificate, ErrorKind>
    ensures { MatchResult result
        (λ part. IsPartOf serial_number.now algorithm.now issuer.now not_before not_after subject.now key.now extensions.now part)
        (λ e. (e ≡ Memory) ⊎ RefusesPart serial_number.now algorithm.now issuer.now not_before not_after subject.now key.now extensions.now e) }
{
    let serial_number = read::<SerialNumber<Rfc5280>>(alloc, serial_number)?;
    let algorithm = read::<AlgorithmIdentifier>(alloc, algorithm)?;
    let issuer = read::<Name>(alloc, issuer)?;
    check_order(not_before, not_after)?;
    let not_before = time_at(not_before)?;
    let not_after = time_at(not_after)?;
    let subject = read::<Name>(alloc, subject)?;
    let key = read::<SubjectPublicKeyInfo>(alloc, key)?;
    let extensions = read_each::<Extension>(alloc, extensions)?;
    Ok(TbsCertificate::from_parts(
        version_with(extensions.as_slice()),
        serial_number,
        algorithm,
        issuer,
        Validity::new(not_before, not_after),
        subject,
        key,
        None,
        None,
        unless_empty(extensions),
    ))
}

/// Puts the bytes to be signed of a certificate, TBSCertificate (RFC 5280 4.1), at the front of the buffer `room`: of v3 where there are extensions, else of
/// v1, and without unique identifiers. The serial number is the encoding of an INTEGER, the algorithm an AlgorithmIdentifier, the issuer and the subject Names,
/// the key a SubjectPublicKeyInfo; the dates are seconds since 1970-01-01T00:00:00Z, and are encoded as RFC 5280 4.1.2.5 wants them; extensions are encodings
/// of them one after the other, or none.
///
/// # Errors
///
/// [`Status::NoRoom`] where the buffer is too small; then `written` is the needed length. The error of decoding an input; `Value` where a date is after the
/// year 9999, or the second before the first; where several are bad, any of theirs. Else [`Status::Repeated`] exactly where two extensions have one OID; then
/// nothing is written. `Overlength` where the part is too long. `Memory` when out of memory.
pub fn build_certificate(
    alloc: Global,
    serial_number: &[u8],
    algorithm: &[u8],
    issuer: &[u8],
    not_before: u64,
    not_after: u64,
    subject: &[u8],
    key: &[u8],
    extensions: &[u8],
    room: &mut [u8],
    written: &mut usize,
) -> Status
    ensures { FillsUnrepeated
        (BuildsCertificate ⟦<TbsCertificate as Encode>⟧.writing serial_number.now algorithm.now issuer.now not_before not_after subject.now
        key.now extensions.now) room.old room.new written.old written.new result }
{
    let part = match part_of(
        alloc,
        serial_number,
        algorithm,
        issuer,
        not_before,
        not_after,
        subject,
        key,
        extensions,
    ) {
        Ok(part) => part,
        Err(e) => return Status::Refused(e),
    };
    match check_repeated(alloc, members(part.extensions())) {
        Ok(()) => write(&part, room, written),
        Err(status) => status,
    }
}
