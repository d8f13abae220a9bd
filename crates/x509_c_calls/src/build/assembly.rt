//! Putting a signed part, an algorithm and a signature together.

ghost use Rattle.std.specs.Prelude.{◌≡◌, ◌⊎◌, IfErr, OnOk, MatchResult, MatchOption};
ghost use Rattle.x509_c_calls.specs.Assembly.{AreSigned, Assembles, IsNone, IsOtherThan, IsPartFor, RefusesPart, RefusesSigned};
ghost use Rattle.x509_c_calls.specs.Status.{Fills};
ghost use Rattle.x509_der.specs.declared.error.ErrorKind.TheVariants.{Failed, Memory};
ghost use Rattle.x509_der.specs.Form.{Spells};

use crate::build::signed::Signed;
use crate::{Status, read, write};
use std::alloc::Global;
use x509_base::AlgorithmIdentifier;
use x509_base::laws::equality_of_keys_is_exact;
use x509_cert::certificate::TbsCertificate;
use x509_cert::crl::TbsCertList;
use x509_cert::request::CertReqInfo;
use x509_der::{Any, Decode, ErrorKind};
use x509_prim::BitString;

/// The value that the bytes encode; `None` exactly where they encode none.
///
/// # Errors
///
/// `Memory` when out of memory, and nothing else.
fn read_if_any<T: Decode>(alloc: Global, bytes: &[u8]) -> Result<Option<T>, ErrorKind>
    ensures { MatchResult result (λ found. MatchOption found (IsNone T.form bytes.now) (λ value. Spells T.form value bytes.now)) (λ e. e ≡ Memory) }
{
    match read::<T>(alloc, bytes) {
        Ok(value) => Ok(Some(value)),
        Err(ErrorKind::Memory) => Err(ErrorKind::Memory),
        Err(_) => Ok(None),
    }
}

/// That both algorithms are one: that in the signed part, and that outside it.
fn agree(inside: &AlgorithmIdentifier, outside: &AlgorithmIdentifier) -> Result<(), ErrorKind>
    ensures ok { OnOk result (inside.now ≡ outside.now) }
    ensures err { IfErr result (λ e. (e ≡ Failed) × (inside.now ≡ outside.now → ⊥)) }
{
    equality_of_keys_is_exact();
    if inside == outside {
        Ok(())
    } else {
        Err(ErrorKind::Failed)
    }
}

/// That the bytes are a signed part that may stand with this algorithm: TBSCertificate or TBSCertList that has it (RFC
/// 5280 4.1.1.2, 5.1.1.2), or CertificationRequestInfo, which has none.
fn check_part(alloc: Global, part: &[u8], algorithm: &AlgorithmIdentifier) -> Result<(), ErrorKind>
    ensures ok { OnOk result (IsPartFor part.now algorithm.now) }
    ensures err { IfErr result (λ e. (e ≡ Memory) ⊎ (RefusesPart part.now e ⊎ ((e ≡ Failed) × IsOtherThan part.now algorithm.now))) }
{
    if let Some(certificate) = read_if_any::<TbsCertificate>(alloc, part)? {
        agree(certificate.signature(), algorithm)?;
        return Ok(());
    }
    if let Some(list) = read_if_any::<TbsCertList>(alloc, part)? {
        agree(&list.signature, algorithm)?;
        return Ok(());
    }
    read::<CertReqInfo>(alloc, part)?;
    Ok(())
}

/// What is to be put together, where the part may stand with the algorithm.
fn signed_of(
    alloc: Global,
    part: &[u8],
    algorithm: &[u8],
    signature: &[u8],
) -> Result<Signed, ErrorKind>
    ensures { MatchResult result (λ signed. AreSigned part.now algorithm.now signature.now signed) (λ e. (e ≡ Memory)
        ⊎ RefusesSigned part.now algorithm.now e) }
{
    let algorithm = read::<AlgorithmIdentifier>(alloc, algorithm)?;
    check_part(alloc, part, &algorithm)?;
    let part = read::<Any>(alloc, part)?;
    match BitString::from_bytes(alloc, signature) {
        Ok(signature) => Ok(Signed {
            part,
            algorithm,
            signature,
        }),
        Err(_) => Err(ErrorKind::Memory),
    }
}

/// Puts the certificate, the CRL or the CSR with this signed part, this algorithm and the octets of this signature, all
/// bits of which are used, at the front of the buffer `room`. The bytes of the part and of the algorithm stand in it as
/// they are. That the signature is one of the part isn't checked.
///
/// # Errors
///
/// [`Status::NoRoom`] where the buffer is too small; then `written` is the needed length. `Failed` exactly where the
/// part is that of a certificate or of a CRL that has another algorithm inside (RFC 5280 4.1.1.2, 5.1.1.2). `Malformed`
/// where the algorithm is no AlgorithmIdentifier, or the part neither TBSCertificate nor TBSCertList under the rules of
/// RFC 5280 nor CertificationRequestInfo. `Overlength` where an input or the whole is too long. `Memory` when out of
/// memory.
#[tactic(auto, unfolding(crate::specs::Status::Fills))]
pub fn assemble(
    alloc: Global,
    part: &[u8],
    algorithm: &[u8],
    signature: &[u8],
    room: &mut [u8],
    written: &mut usize,
) -> Status
    ensures { Fills (Assembles part.now algorithm.now signature.now) room.old room.new written.old written.new result }
{
    match signed_of(alloc, part, algorithm, signature) {
        Ok(signed) => write(&signed, room, written),
        Err(e) => Status::Refused(e),
    }
}
