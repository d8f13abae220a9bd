//! The bytes to be signed of a device's certificate.

ghost use Rattle.std.specs.Prelude.{◌≡◌, ◌⊎◌, MatchResult};
ghost use Rattle.x509_base.specs.SubjectPublicKeyInfo.{subject_public_key_info};
ghost use Rattle.x509_c_calls.specs.Built.{FillsUnrepeated};
ghost use Rattle.x509_c_calls.specs.ProfileInputs.{Inputs, IsDevice, RefusesDevice, RefusesNames, SpellsNames};
ghost use Rattle.x509_c_calls.specs.ProfileParts.{ArePartInputs, BuildsProfile, RefusesPartInputs};
ghost use Rattle.x509_der.specs.declared.error.ErrorKind.TheVariants.{Memory};
ghost use Rattle.x509_der.specs.Form.{Spells};
ghost use Rattle.x509_types.specs.Reencoding.{IsRefused};

use crate::build::profile::{ProfileInputs, fill_part, read_part};
use crate::build::teller::kind_of;
use crate::{Status, read};
use std::alloc::Global;
use x509_base::SubjectPublicKeyInfo;
use x509_build::BuilderProfile;
use x509_build::profile::devid::DevId;
use x509_cert::certificate::TbsCertificate;
use x509_der::{Encode, ErrorKind};
use x509_ext::pkix::name::GeneralNames;
use x509_name::name::Name;

/// The alternative names, unless there are no bytes.
fn names_of(alloc: Global, bytes: &[u8]) -> Result<Option<GeneralNames>, ErrorKind>
    ensures { MatchResult result (λ names. SpellsNames bytes.now names) (λ e. (e ≡ Memory) ⊎ RefusesNames bytes.now e) }
{
    if bytes.is_empty() {
        return Ok(None);
    }
    Ok(Some(read::<GeneralNames>(alloc, bytes)?))
}

/// The profile of that device.
fn device_of(alloc: Global, issuer: &[u8], subject: &[u8], names: &[u8]) -> Result<DevId, ErrorKind>
    ensures { MatchResult result
        (λ profile. IsDevice issuer.now subject.now names.now profile)
        (λ e. (e ≡ Memory) ⊎ RefusesDevice issuer.now subject.now names.now e) }
{
    let issuer = read::<Name>(alloc, issuer)?;
    let subject = read::<Name>(alloc, subject)?;
    let names = names_of(alloc, names)?;
    match DevId::new(alloc, issuer, subject, names) {
        Ok(device) => Ok(device),
        Err(e) => Err(kind_of(&e)),
    }
}

/// What the bytes encode and the numbers tell.
fn read_device(
    alloc: Global,
    serial_number: &[u8],
    algorithm: &[u8],
    issuer: &[u8],
    issuer_key: &[u8],
    not_before: u64,
    not_after: u64,
    subject: &[u8],
    key: &[u8],
    names: &[u8],
    extensions: &[u8],
) -> Result<ProfileInputs<DevId>, ErrorKind>
    ensures { MatchResult result
        (Inputs (IsDevice issuer.now subject.now names.now) (λ key. Spells subject_public_key_info key issuer_key.now)
        (ArePartInputs serial_number.now algorithm.now not_before not_after key.now extensions.now))
        (λ e. (e ≡ Memory) ⊎ (RefusesDevice issuer.now subject.now names.now e ⊎ (IsRefused subject_public_key_info (λ e. ⊥) issuer_key.now e
        ⊎ RefusesPartInputs serial_number.now algorithm.now not_before not_after key.now extensions.now e))) }
{
    let profile = device_of(alloc, issuer, subject, names)?;
    let issuer_key = read::<SubjectPublicKeyInfo>(alloc, issuer_key)?;
    let part = read_part(
        alloc,
        serial_number,
        algorithm,
        not_before,
        not_after,
        key,
        extensions,
    )?;
    Ok(ProfileInputs {
        profile,
        issuer_key,
        part,
    })
}

/// Puts the bytes to be signed of a device's certificate, TBSCertificate (RFC 5280 4.1), at the front of the buffer `room`: those that a builder with
/// the profile [`DevId`] finalizes to for a signer with that algorithm and the issuer's key, where the extensions were added, in front of those of
/// the profile. The serial number is the encoding of an INTEGER, the algorithm an AlgorithmIdentifier, the issuer and the subject Names, the keys
/// SubjectPublicKeyInfo; the dates are seconds since 1970-01-01T00:00:00Z; the alternative names are GeneralNames, or no bytes, where there are none;
/// extensions are encodings of them one after the other, or none.
///
/// # Errors
///
/// [`Status::NoRoom`] where the buffer is too small; then `written` is the needed length. The error of decoding an input; `Failed` where none of the
/// alternative names says that it is that of a hardware module, and `Malformed` where the first that says it is none; `Value` where a date is after
/// the year 9999, or the second before the first; where several are bad, any of theirs. Else [`Status::Repeated`] exactly where two extensions have
/// one OID; then nothing is written. `Overlength` where the part is too long. `Memory` when out of memory.
pub fn build_device(
    alloc: Global,
    serial_number: &[u8],
    algorithm: &[u8],
    issuer: &[u8],
    issuer_key: &[u8],
    not_before: u64,
    not_after: u64,
    subject: &[u8],
    key: &[u8],
    names: &[u8],
    extensions: &[u8],
    room: &mut [u8],
    written: &mut usize,
) -> Status
    ensures { FillsUnrepeated (BuildsProfile (record {
      subject_of = ⟦<DevId as BuilderProfile>⟧.subject_of;
      issuer_of = ⟦<DevId as BuilderProfile>⟧.issuer_of;
      extensions_of = ⟦<DevId as BuilderProfile>⟧.extensions_of;
    }) ⟦<TbsCertificate as Encode>⟧.writing
        (Inputs (IsDevice issuer.now subject.now names.now) (λ key. Spells subject_public_key_info key issuer_key.now)
        (ArePartInputs serial_number.now algorithm.now not_before not_after key.now extensions.now))
        (λ e. RefusesDevice issuer.now subject.now names.now e ⊎ (IsRefused subject_public_key_info (λ e. ⊥) issuer_key.now e
        ⊎ RefusesPartInputs serial_number.now algorithm.now not_before not_after key.now extensions.now e))) room.old room.new written.old written.new result }
{
    let inputs = read_device(
        alloc,
        serial_number,
        algorithm,
        issuer,
        issuer_key,
        not_before,
        not_after,
        subject,
        key,
        names,
        extensions,
    );
    fill_part(alloc, inputs, room, written)
}
