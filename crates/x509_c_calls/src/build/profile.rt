//! The bytes to be signed of a certificate that is built with a profile, whichever it is.

ghost use Rattle.std.specs.Prelude.{◌≡◌, ◌⊎◌, IfErr, MatchOption, MatchResult};
ghost use Rattle.x509_c_calls.specs.Built.{FillsUnrepeated};
ghost use Rattle.x509_c_calls.specs.ProfileParts.{ArePartInputs, Makes, ProfileParts, RefusesPartInputs, RefusesProfilePart, RepeatsExtension};
ghost use Rattle.x509_c_calls.specs.Refusals.{kind_of};
ghost use Rattle.x509_der.specs.declared.error.ErrorKind.TheVariants.{Memory};

use crate::build::input::{check_order, read_each, time_at};
use crate::build::teller::{Teller, finalized_with, kind_of};
use crate::{Status, fill, read};
use std::alloc::Global;
use x509_base::{AlgorithmIdentifier, Rfc5280, SerialNumber, SubjectPublicKeyInfo, Validity};
use x509_build::profile::no_algorithm;
use x509_build::{BuilderProfile, CertificateBuilder, Error};
use x509_cert::certificate::TbsCertificate;
use x509_der::{Encode, ErrorKind};
use x509_ext::{Extension, Extensions, has_repeated_extension, members};
use x509_prim::BitString;

/// What a certificate is built of, whatever its profile: of its extensions those that are added to the profile's.
#[derive(Drop)]
pub(crate) struct PartInputs {
    pub(crate) serial_number: SerialNumber<Rfc5280>,
    pub(crate) algorithm: AlgorithmIdentifier,
    pub(crate) validity: Validity<Rfc5280>,
    pub(crate) key: SubjectPublicKeyInfo,
    pub(crate) extensions: Vec<Extension>,
}

/// What a certificate is built of under a profile: also the profile, and the key of the issuer.
#[derive(Drop)]
pub(crate) struct ProfileInputs<P> {
    pub(crate) profile: P,
    pub(crate) issuer_key: SubjectPublicKeyInfo,
    pub(crate) part: PartInputs,
}

/// No key: one without an algorithm and without bits.
pub(crate) fn no_key(alloc: Global) -> Result<SubjectPublicKeyInfo, ErrorKind>
    ensures { IfErr result (λ e. e ≡ Memory) }
{
    match BitString::from_bytes(alloc, &[]) {
        Ok(bits) => Ok(SubjectPublicKeyInfo {
            algorithm: no_algorithm(),
            subject_public_key: bits,
        }),
        Err(e) => Err(e.kind()),
    }
}

/// What the bytes encode and the numbers tell.
pub(crate) fn read_part(
    alloc: Global,
    serial_number: &[u8],
    algorithm: &[u8],
    not_before: u64,
    not_after: u64,
    key: &[u8],
    extensions: &[u8],
) -> Result<PartInputs, ErrorKind>
    ensures { MatchResult result
        (λ inputs. ArePartInputs serial_number.now algorithm.now not_before not_after key.now extensions.now inputs)
        (λ e. (e ≡ Memory) ⊎ RefusesPartInputs serial_number.now algorithm.now not_before not_after key.now extensions.now e) }
{
    let serial_number = read::<SerialNumber<Rfc5280>>(alloc, serial_number)?;
    let algorithm = read::<AlgorithmIdentifier>(alloc, algorithm)?;
    check_order(not_before, not_after)?;
    let not_before = time_at(not_before)?;
    let not_after = time_at(not_after)?;
    let key = read::<SubjectPublicKeyInfo>(alloc, key)?;
    let extensions = read_each::<Extension>(alloc, extensions)?;
    Ok(PartInputs {
        serial_number,
        algorithm,
        validity: Validity::new(not_before, not_after),
        key,
        extensions,
    })
}

/// The bytes that the builder finalizes to; `None` exactly where two of the extensions have one OID.
#[tactic(auto, unfolding(crate::specs::ProfileParts::RefusesProfilePart))]
fn profile_part<P: BuilderProfile>(
    alloc: Global,
    inputs: ProfileInputs<P>,
) -> Result<Option<Vec<u8>>, Error>
    ensures { MatchResult result
        (λ made. MatchOption made (RepeatsExtension (record { subject_of = P.subject_of; issuer_of = P.issuer_of; extensions_of = P.extensions_of }) inputs)
        (λ bytes. ProfileParts (record { subject_of = P.subject_of; issuer_of = P.issuer_of; extensions_of = P.extensions_of })
        ⟦<TbsCertificate as Encode>⟧.writing inputs bytes.items
        × (¬ RepeatsExtension (record { subject_of = P.subject_of; issuer_of = P.issuer_of; extensions_of = P.extensions_of }) inputs)))
        (λ e. (kind_of e ≡ Memory) ⊎ RefusesProfilePart (record { subject_of = P.subject_of; issuer_of = P.issuer_of; extensions_of = P.extensions_of })
        ⟦<TbsCertificate as Encode>⟧.writing inputs e) }
{
    let ProfileInputs {
        profile,
        issuer_key,
        part,
    } = inputs;
    let PartInputs {
        serial_number,
        algorithm,
        validity,
        key,
        extensions,
    } = part;
    let start = CertificateBuilder::new(alloc, profile, serial_number, validity, key)?;
    let builder = start.with_extensions(Extensions::from(extensions))?;
    let teller = Teller {
        algorithm,
        key: issuer_key,
    };
    let (finalized, bytes) = finalized_with(alloc, builder, &teller)?;
    if has_repeated_extension(alloc, members(finalized.current_part().extensions()))? {
        return Ok(None);
    }
    Ok(Some(bytes))
}

/// Puts the bytes to be signed of the certificate at the front of the buffer `room`; or tells why the inputs were refused.
///
/// # Errors
///
/// [`Status::NoRoom`] where the buffer is too small; then `written` is the needed length. The refusal of the inputs; that of the builder;
/// [`Status::Repeated`] where two of the extensions have one OID, and then nothing is written. `Memory` when out of memory.
#[tactic(auto, unfolding(crate::specs::ProfileParts::Makes))]
pub(crate) fn fill_part<P: BuilderProfile>(
    alloc: Global,
    inputs: Result<ProfileInputs<P>, ErrorKind>,
    room: &mut [u8],
    written: &mut usize,
) -> Status
    ensures { FillsUnrepeated (Makes (record { subject_of = P.subject_of; issuer_of = P.issuer_of; extensions_of = P.extensions_of })
        ⟦<TbsCertificate as Encode>⟧.writing inputs) room.old room.new written.old written.new result }
{
    let inputs = match inputs {
        Ok(inputs) => inputs,
        Err(e) => return Status::Refused(e),
    };
    match profile_part(alloc, inputs) {
        Ok(Some(bytes)) => fill(bytes.as_slice(), room, written),
        Ok(None) => Status::Repeated,
        Err(e) => Status::Refused(kind_of(&e)),
    }
}
