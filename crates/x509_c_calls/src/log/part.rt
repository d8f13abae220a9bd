//! The signed part of a precertificate, as a log has it.

ghost use Rattle.std.specs.Prelude.{◌≡◌, ◌⊎◌, Ok, Err, IfErr, IfOk};
ghost use Rattle.x509_c_calls.specs.Logs.{Cuts, CutsReissued, FillsFound, status_of};
ghost use Rattle.x509_c_calls.specs.declared.status.status.Status.TheVariants.{Refused};
ghost use Rattle.x509_der.specs.declared.error.ErrorKind.TheVariants.{Memory};
ghost use Rattle.x509_sct.specs.Identifier.{embedded_timestamps, precertificate_poison};

use crate::sct::refusal_of;
use crate::{Status, fill};
use std::alloc::Global;
use x509_base::Rfc5280;
use x509_cert::certificate::CertificateInner;
use x509_check::CertificateRef;
use x509_der::Grammar;
use x509_log::{LogError, LoggedPart};

/// The error as a status.
fn status_of(e: LogError) -> Status
    ensures { result ≡ status_of e }
{
    match e {
        LogError::Absent => Status::Absent,
        LogError::Repeated => Status::Repeated,
        LogError::Der(e) => e.into(),
        LogError::Tls(e) => Status::Refused(refusal_of(e)),
    }
}

/// The signed part of the certificate without its timestamps.
pub(crate) fn without_timestamps(alloc: Global, input: &[u8]) -> Result<Vec<u8>, Status>
    ensures found { IfOk result (λ octets. Cuts ⟦<CertificateInner<Rfc5280> as Grammar>⟧.refuses embedded_timestamps input.now (Ok octets.items)) }
    ensures refused { IfErr result (λ status. (status ≡ Refused Memory)
        ⊎ Cuts ⟦<CertificateInner<Rfc5280> as Grammar>⟧.refuses embedded_timestamps input.now (Err status)) }
{
    let certificate = CertificateRef::<Rfc5280>::from_der(input)?;
    match LoggedPart::from_certificate(&certificate) {
        Ok(part) => Ok(part.to_der(alloc)?),
        Err(e) => Err(status_of(e)),
    }
}

/// The signed part of the precertificate without its poison.
fn without_poison(alloc: Global, input: &[u8]) -> Result<Vec<u8>, Status>
    ensures found { IfOk result (λ octets. Cuts ⟦<CertificateInner<Rfc5280> as Grammar>⟧.refuses precertificate_poison input.now (Ok octets.items)) }
    ensures refused { IfErr result (λ status. (status ≡ Refused Memory)
        ⊎ Cuts ⟦<CertificateInner<Rfc5280> as Grammar>⟧.refuses precertificate_poison input.now (Err status)) }
{
    let certificate = CertificateRef::<Rfc5280>::from_der(input)?;
    match LoggedPart::from_precertificate(&certificate) {
        Ok(part) => Ok(part.to_der(alloc)?),
        Err(e) => Err(status_of(e)),
    }
}

/// Puts the TBSCertificate that a log has of a certificate at the front of the buffer `room` (RFC 6962 3.2), and says how many octets it has: that of the
/// certificate without its list of timestamps, each field and each other extension as it stands there.
///
/// # Errors
///
/// [`Status::NoRoom`] exactly where the buffer is too small; then `written` is the needed length. [`Status::Absent`] exactly where the certificate has no list
/// of timestamps, [`Status::Repeated`] exactly where it has two or more. The errors of checking the certificate. `Memory` when out of memory.
#[tactic(auto, unfolding(crate::specs::Logs::FillsFound, crate::specs::Built::FillsUnrepeated, crate::specs::Status::Fills))]
pub fn logged_part(alloc: Global, input: &[u8], room: &mut [u8], written: &mut usize) -> Status
    ensures { FillsFound (Cuts ⟦<CertificateInner<Rfc5280> as Grammar>⟧.refuses embedded_timestamps input.now) room.old room.new written.old written.new result }
{
    match without_timestamps(alloc, input) {
        Ok(octets) => fill(octets.as_slice(), room, written),
        Err(status) => status,
    }
}

/// As [`logged_part`], of a precertificate, without its poison, where the authority itself signed the precertificate.
///
/// # Errors
///
/// Those of [`logged_part`], where the poison stands in the list's place.
#[tactic(auto, unfolding(crate::specs::Logs::FillsFound, crate::specs::Built::FillsUnrepeated, crate::specs::Status::Fills))]
pub fn logged_precertificate(
    alloc: Global,
    input: &[u8],
    room: &mut [u8],
    written: &mut usize,
) -> Status
    ensures { FillsFound (Cuts ⟦<CertificateInner<Rfc5280> as Grammar>⟧.refuses precertificate_poison input.now) room.old room.new written.old written.new result }
{
    match without_poison(alloc, input) {
        Ok(octets) => fill(octets.as_slice(), room, written),
        Err(status) => status,
    }
}

/// The signed part of the precertificate without its poison, under the final issuer.
fn reissued(alloc: Global, precertificate: &[u8], signing: &[u8]) -> Result<Vec<u8>, Status>
    ensures found { IfOk result (λ octets. CutsReissued ⟦<CertificateInner<Rfc5280> as Grammar>⟧.refuses precertificate.now signing.now (Ok octets.items)) }
    ensures refused { IfErr result (λ status. (status ≡ Refused Memory)
        ⊎ CutsReissued ⟦<CertificateInner<Rfc5280> as Grammar>⟧.refuses precertificate.now signing.now (Err status)) }
{
    let precertificate = CertificateRef::<Rfc5280>::from_der(precertificate)?;
    let signing = CertificateRef::<Rfc5280>::from_der(signing)?;
    match LoggedPart::from_precertificate_signed_by(&precertificate, &signing) {
        Ok(part) => Ok(part.to_der(alloc)?),
        Err(e) => Err(status_of(e)),
    }
}

/// As [`logged_precertificate`], of a precertificate that a precertificate signing certificate signed (RFC 6962 3.1): its issuer is that of the signing
/// certificate, and where the precertificate has an authority key identifier, that has the value which it has in the signing certificate (3.2). Whether that is
/// a precertificate signing certificate, and signed the precertificate, isn't looked at.
///
/// # Errors
///
/// [`Status::NoRoom`] exactly where the buffer is too small; then `written` is the needed length. [`Status::Absent`] exactly where the precertificate has no
/// poison, or one poison and one authority key identifier, which the signing certificate has not. [`Status::Repeated`] exactly where the precertificate has two
/// poisons or more; or one, and two authority key identifiers or more; or one of both, and the signing certificate two authority key identifiers or more.
/// `Overlength` where the octets are too many for an element, which only a longer value can make them. The errors of checking either certificate. Where both
/// are bad, that of the precertificate. `Memory` when out of memory.
#[tactic(auto, unfolding(crate::specs::Logs::FillsFound, crate::specs::Built::FillsUnrepeated, crate::specs::Status::Fills))]
pub fn logged_precertificate_signed_by(
    alloc: Global,
    precertificate: &[u8],
    signing: &[u8],
    room: &mut [u8],
    written: &mut usize,
) -> Status
    ensures { FillsFound (CutsReissued ⟦<CertificateInner<Rfc5280> as Grammar>⟧.refuses precertificate.now signing.now) room.old room.new written.old written.new result }
{
    match reissued(alloc, precertificate, signing) {
        Ok(octets) => fill(octets.as_slice(), room, written),
        Err(status) => status,
    }
}
