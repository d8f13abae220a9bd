//! The bytes to be signed of a root's certificate.

ghost use Rattle.std.specs.Prelude.{◌≡◌, ◌⊎◌, MatchResult};
ghost use Rattle.x509_base.specs.declared.subject_public_key_info.SubjectPublicKeyInfo.{SubjectPublicKeyInfo};
ghost use Rattle.x509_c_calls.specs.Built.{FillsUnrepeated};
ghost use Rattle.x509_c_calls.specs.ProfileInputs.{Inputs, IsRoot, RefusesRoot};
ghost use Rattle.x509_c_calls.specs.ProfileParts.{ArePartInputs, BuildsProfile, RefusesPartInputs};
ghost use Rattle.x509_der.specs.declared.error.ErrorKind.TheVariants.{Memory};

use crate::build::profile::{ProfileInputs, fill_part, no_key, read_part};
use crate::build::teller::kind_of;
use crate::{Status, read};
use std::alloc::Global;
use x509_build::BuilderProfile;
use x509_build::profile::cabf::Root;
use x509_cert::certificate::TbsCertificate;
use x509_der::{Encode, ErrorKind};
use x509_name::name::Name;

/// The profile of a root with that name.
fn root_of(alloc: Global, subject: &[u8], emits_ocsp_response: bool) -> Result<Root, ErrorKind>
    ensures { MatchResult result (λ root. IsRoot subject.now emits_ocsp_response root) (λ e. (e ≡ Memory) ⊎ RefusesRoot subject.now e) }
{
    let subject = read::<Name>(alloc, subject)?;
    match Root::new(emits_ocsp_response, subject) {
        Ok(root) => Ok(root),
        Err(e) => Err(kind_of(&e)),
    }
}

/// What the bytes encode and the numbers tell.
fn read_inputs(
    alloc: Global,
    serial_number: &[u8],
    algorithm: &[u8],
    not_before: u64,
    not_after: u64,
    subject: &[u8],
    key: &[u8],
    emits_ocsp_response: bool,
    extensions: &[u8],
) -> Result<ProfileInputs<Root>, ErrorKind>
    ensures { MatchResult result
        (Inputs (IsRoot subject.now emits_ocsp_response) (λ key. Unit {0})
        (ArePartInputs serial_number.now algorithm.now not_before not_after key.now extensions.now))
        (λ e. (e ≡ Memory) ⊎ (RefusesRoot subject.now e ⊎ RefusesPartInputs serial_number.now algorithm.now not_before not_after key.now extensions.now e)) }
{
    let profile = root_of(alloc, subject, emits_ocsp_response)?;
    let part = read_part(
        alloc,
        serial_number,
        algorithm,
        not_before,
        not_after,
        key,
        extensions,
    )?;
    Ok(ProfileInputs {
        profile,
        // A root signs with the key that is certified, which its profile looks at.
        issuer_key: no_key(alloc)?,
        part,
    })
}

/// Puts the bytes to be signed of a root's certificate, TBSCertificate (RFC 5280 4.1), at the front of the buffer `room`: those that a builder with
/// the profile [`Root`] finalizes to for a signer with that algorithm, where the extensions were added, in front of those of the profile. The serial
/// number is the encoding of an INTEGER, the algorithm an AlgorithmIdentifier, the subject, which is the issuer too, a Name, and the key a
/// SubjectPublicKeyInfo; the dates are seconds since 1970-01-01T00:00:00Z; extensions are encodings of them one after the other, or none.
///
/// # Errors
///
/// [`Status::NoRoom`] where the buffer is too small; then `written` is the needed length. The error of decoding an input; `Failed` where the subject
/// isn't a name that an authority may have; `Value` where a date is after the year 9999, or the second before the first; where several are bad, any of
/// theirs. Else [`Status::Repeated`] exactly where two extensions have one OID; then nothing is written. `Overlength` where the part is too long.
/// `Memory` when out of memory.
pub fn build_root(
    alloc: Global,
    serial_number: &[u8],
    algorithm: &[u8],
    not_before: u64,
    not_after: u64,
    subject: &[u8],
    key: &[u8],
    emits_ocsp_response: bool,
    extensions: &[u8],
    room: &mut [u8],
    written: &mut usize,
) -> Status
    ensures { FillsUnrepeated (BuildsProfile (record {
      subject_of = ⟦<Root as BuilderProfile>⟧.subject_of;
      issuer_of = ⟦<Root as BuilderProfile>⟧.issuer_of;
      extensions_of = ⟦<Root as BuilderProfile>⟧.extensions_of;
    }) ⟦<TbsCertificate as Encode>⟧.writing
        (Inputs (IsRoot subject.now emits_ocsp_response) (λ key. Unit {0})
        (ArePartInputs serial_number.now algorithm.now not_before not_after key.now extensions.now))
        (λ e. RefusesRoot subject.now e
        ⊎ RefusesPartInputs serial_number.now algorithm.now not_before not_after key.now extensions.now e)) room.old room.new written.old written.new result }
{
    let inputs = read_inputs(
        alloc,
        serial_number,
        algorithm,
        not_before,
        not_after,
        subject,
        key,
        emits_ocsp_response,
        extensions,
    );
    fill_part(alloc, inputs, room, written)
}
