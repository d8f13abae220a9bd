//! What a timestamp is a signature of.

ghost use Rattle.std.specs.Prelude.{◌≡◌, ◌⊎◌, List, ℕ, Ok, Err, IfErr, IfOk};
ghost use Rattle.x509_c_calls.specs.Logs.{FillsFound, IsDataOf, IsNoDataOf, SignsCertificate, SignsEmbedded, unsigned_of};
ghost use Rattle.x509_c_calls.specs.Status.{Fills};
ghost use Rattle.x509_c_calls.specs.declared.status.status.Status.TheVariants.{Refused};
ghost use Rattle.x509_der.specs.declared.error.ErrorKind.TheVariants.{Memory};
ghost use Rattle.x509_sct.specs.SignedInput.{certificate_of, entry_of};

use crate::log::part::without_timestamps;
use crate::sct::refusal_of;
use crate::{Status, fill};
use std::alloc::Global;
use x509_base::Rfc5280;
use x509_cert::certificate::CertificateInner;
use x509_check::CertificateRef;
use x509_der::{ErrorKind, Grammar};
use x509_log::issuer_key_hash;
use x509_sct::tls::{TlsError, read_whole};
use x509_sct::{PreCert, SignedCertificateTimestamp, SignedEntry};

/// Why the octets that are signed aren't made: the entry is too long, or out of memory.
fn unsigned_of(e: TlsError) -> ErrorKind
    ensures { result ≡ unsigned_of e }
{
    match e {
        TlsError::InvalidVectorLength => ErrorKind::Overlength,
        e => refusal_of(e),
    }
}

/// The octets that the signature of the timestamp is over, of that entry.
fn data_of(alloc: Global, timestamp: &[u8], entry: &SignedEntry<'_>) -> Result<Vec<u8>, ErrorKind>
    ensures found { IfOk result (λ octets. IsDataOf (entry_of entry.now) timestamp.now octets.items) }
    ensures refused { IfErr result (λ e. (e ≡ Memory) ⊎ IsNoDataOf (certificate_of entry.now) timestamp.now e) }
{
    let timestamp = match read_whole::<SignedCertificateTimestamp>(alloc, timestamp) {
        Ok(timestamp) => timestamp,
        Err(e) => return Err(refusal_of(e)),
    };
    match timestamp.signed_input(alloc, entry) {
        Ok(octets) => Ok(octets),
        Err(e) => Err(unsigned_of(e)),
    }
}

/// The octets that the signature of a timestamp within the certificate is over.
fn embedded_data(
    alloc: Global,
    timestamp: &[u8],
    certificate: &[u8],
    issuer: &[u8],
) -> Result<Vec<u8>, Status>
    ensures found { IfOk result (λ octets. SignsEmbedded ⟦<CertificateInner<Rfc5280> as Grammar>⟧.refuses timestamp.now certificate.now issuer.now
        (Ok octets.items)) }
    ensures refused { IfErr result (λ status. (status ≡ Refused Memory)
        ⊎ SignsEmbedded ⟦<CertificateInner<Rfc5280> as Grammar>⟧.refuses timestamp.now certificate.now issuer.now (Err status)) }
{
    let part = without_timestamps(alloc, certificate)?;
    let issuer = CertificateRef::<Rfc5280>::from_der(issuer)?;
    let entry = SignedEntry::Precert(PreCert {
        issuer_key_hash: issuer_key_hash(&issuer),
        tbs_certificate: part.as_slice(),
    });
    match data_of(alloc, timestamp, &entry) {
        Ok(octets) => Ok(octets),
        Err(e) => Err(Status::Refused(e)),
    }
}

/// Puts the octets that the signature of a timestamp within a certificate is over at the front of the buffer `room` (RFC 6962 3.2), and says how many they
/// are. The timestamp is a serialized one, as [`timestamp_next`](crate::timestamp_next) finds it. Whether the issuer issued the certificate, and whether the
/// certificate has that timestamp, isn't looked at.
///
/// # Errors
///
/// [`Status::NoRoom`] exactly where the buffer is too small; then `written` is the needed length. [`Status::Absent`] where the certificate has no list of
/// timestamps, [`Status::Repeated`] where it has two or more. `Malformed` where the timestamp is none of version 1 with known algorithms; `Overlength` where the
/// TBSCertificate without the list has more than 16,777,215 octets; the errors of checking either certificate. Where several are bad, any of these. `Memory`
/// when out of memory.
#[tactic(auto, unfolding(crate::specs::Logs::FillsFound, crate::specs::Built::FillsUnrepeated, crate::specs::Status::Fills))]
pub fn timestamp_signed_data(
    alloc: Global,
    timestamp: &[u8],
    certificate: &[u8],
    issuer: &[u8],
    room: &mut [u8],
    written: &mut usize,
) -> Status
    ensures { FillsFound (SignsEmbedded ⟦<CertificateInner<Rfc5280> as Grammar>⟧.refuses timestamp.now certificate.now issuer.now) room.old room.new
        written.old written.new result }
{
    match embedded_data(alloc, timestamp, certificate, issuer) {
        Ok(octets) => fill(octets.as_slice(), room, written),
        Err(status) => status,
    }
}

/// As [`timestamp_signed_data`], of a timestamp that came beside the certificate, in the TLS handshake or in an OCSP response (RFC 6962 3.3): its entry is the
/// certificate as it stands, any bytes, which aren't looked at.
///
/// # Errors
///
/// [`Status::NoRoom`] exactly where the buffer is too small; then `written` is the needed length. `Malformed` where the timestamp is none of version 1 with
/// known algorithms; `Overlength` where the certificate has no octets, or more than 16,777,215. `Memory` when out of memory.
#[tactic(auto, unfolding(crate::specs::Status::Fills))]
pub fn certificate_signed_data(
    alloc: Global,
    timestamp: &[u8],
    certificate: &[u8],
    room: &mut [u8],
    written: &mut usize,
) -> Status
    ensures { Fills (SignsCertificate timestamp.now certificate.now) room.old room.new written.old written.new result }
{
    match data_of(alloc, timestamp, &SignedEntry::X509(certificate)) {
        Ok(octets) => fill(octets.as_slice(), room, written),
        Err(e) => Status::Refused(e),
    }
}
