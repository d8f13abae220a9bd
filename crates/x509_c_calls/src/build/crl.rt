//! The bytes to be signed of a CRL.

ghost use Rattle.std.specs.Prelude.{◌≡◌, ◌⊎◌, [], None, IfOk, IfErr, MatchOption, MatchResult};
ghost use Rattle.x509_base.specs.Serial.{number_content};
ghost use Rattle.x509_build.specs.Refusals.{LacksMemory};
ghost use Rattle.x509_c_calls.specs.Built.{FillsUnrepeated};
ghost use Rattle.x509_c_calls.specs.Input.{unless_empty};
ghost use Rattle.x509_c_calls.specs.Crls.{AreCrlInputs, BuildsCrl, CrlParts, InOrder, IsTimeOrNone, RefusesCrlInputs, RefusesCrlPart, RefusesTimeOrNone, RefusesUpdates, RepeatsCrlExtension};
ghost use Rattle.x509_c_calls.specs.Refusals.{kind_of};
ghost use Rattle.x509_der.specs.declared.error.ErrorKind.TheVariants.{Memory, Value};
ghost use Rattle.x509_ext.specs.Identifiers.{id_ce};
ghost use Rattle.x509_ext.specs.LookUp.{Finds, members, with_oid};

use crate::build::input::{check_order, read_each, time_at};
use crate::build::teller::{Teller, finalized, kind_of};
use crate::{Status, fill, read};
use std::alloc::Global;
use x509_base::{AlgorithmIdentifier, Rfc5280, SubjectPublicKeyInfo, Time};
use x509_build::profile::no_algorithm;
use x509_build::{CrlBuilder, Error};
use x509_cert::certificate::Certificate;
use x509_cert::crl::RevokedCert;
use x509_der::{Decode, ErrorKind, Grammar};
use x509_ext::pkix::{CrlNumber, SubjectKeyIdentifier};
use x509_ext::{Extension, Extensions, has_repeated_extension};
use x509_prim::{BitString, Uint};

/// What a CRL is built of.
#[derive(Drop)]
struct CrlInputs {
    issuer: Certificate,
    algorithm: AlgorithmIdentifier,
    number: CrlNumber,
    this_update: Time,
    next_update: Option<Time>,
    entries: Vec<RevokedCert<Rfc5280>>,
    extensions: Vec<Extension>,
}

/// The time, where there is one.
fn time_or_none(seconds: Option<u64>) -> Result<Option<Time>, ErrorKind>
    ensures { MatchResult result (λ time. IsTimeOrNone seconds time) (λ e. RefusesTimeOrNone seconds e) }
{
    match seconds {
        Some(seconds) => Ok(Some(time_at(seconds)?)),
        None => Ok(None),
    }
}

/// That the next update, where there is one, isn't before this one.
fn check_updates(this_update: u64, next_update: Option<u64>) -> Result<(), ErrorKind>
    ensures { MatchResult result (λ unit. InOrder this_update next_update) (λ e. RefusesUpdates this_update next_update e) }
{
    match next_update {
        Some(next_update) => check_order(this_update, next_update),
        None => Ok(()),
    }
}

/// The CRL number with these octets.
fn crl_number(alloc: Global, octets: &[u8]) -> Result<CrlNumber, ErrorKind>
    ensures { MatchResult result (λ crl. crl.0 ≡ number_content octets.now) (λ e. (e ≡ Memory) ⊎ ((e ≡ Value) × (octets.now ≡ []))) }
{
    match Uint::new(alloc, octets) {
        Ok(number) => Ok(CrlNumber(number)),
        Err(e) => Err(e.kind()),
    }
}

/// What the bytes encode and the numbers tell.
fn read_inputs(
    alloc: Global,
    issuer: &[u8],
    algorithm: &[u8],
    number: &[u8],
    this_update: u64,
    next_update: Option<u64>,
    entries: &[u8],
    extensions: &[u8],
) -> Result<CrlInputs, ErrorKind>
    ensures { MatchResult result
        (λ inputs. AreCrlInputs issuer.now algorithm.now number.now this_update next_update entries.now extensions.now inputs)
        (λ e. (e ≡ Memory) ⊎ RefusesCrlInputs issuer.now algorithm.now number.now this_update next_update entries.now extensions.now e) }
{
    let issuer = read::<Certificate>(alloc, issuer)?;
    let algorithm = read::<AlgorithmIdentifier>(alloc, algorithm)?;
    let number = crl_number(alloc, number)?;
    check_updates(this_update, next_update)?;
    let this_update = time_at(this_update)?;
    let next_update = time_or_none(next_update)?;
    let entries = read_each::<RevokedCert<Rfc5280>>(alloc, entries)?;
    let extensions = read_each::<Extension>(alloc, extensions)?;
    Ok(CrlInputs {
        issuer,
        algorithm,
        number,
        this_update,
        next_update,
        entries,
        extensions,
    })
}

/// The builder with these entries; the list of entries is left out where there are none (RFC 5280 5.1.2.6).
fn with_entries(
    alloc: Global,
    builder: CrlBuilder<Rfc5280>,
    entries: Vec<RevokedCert<Rfc5280>>,
) -> Result<CrlBuilder<Rfc5280>, Error>
    requires { builder.tbs.revoked_certificates ≡ None }
    ensures ok { IfOk result (λ given. given ≡ record builder { tbs = record builder.tbs { revoked_certificates = unless_empty entries.items } }) }
    ensures err { IfErr result LacksMemory }
{
    if entries.is_empty() {
        return Ok(builder);
    }
    builder.with_certificates(alloc, entries.into_iter())
}

/// A signer with that algorithm, of whose key nothing is said.
fn signer_by(alloc: Global, algorithm: AlgorithmIdentifier) -> Result<Teller, Error>
    ensures ok { IfOk result (λ teller. teller.algorithm ≡ algorithm) }
    ensures err { IfErr result LacksMemory }
{
    Ok(Teller {
        algorithm,
        key: SubjectPublicKeyInfo {
            algorithm: no_algorithm(),
            subject_public_key: BitString::from_bytes(alloc, &[])?,
        },
    })
}

/// The bytes that the builder finalizes to; `None` exactly where two of the extensions have one OID.
fn crl_part(alloc: Global, inputs: CrlInputs) -> Result<Option<Vec<u8>>, Error>
    ensures { MatchResult result
        (λ made. MatchOption made
        (RepeatsCrlExtension (Finds ⟦<SubjectKeyIdentifier as Grammar>⟧.form ⟦<SubjectKeyIdentifier as Decode>⟧.refuses
        ⟦<SubjectKeyIdentifier as Decode>⟧.wants_memory (with_oid (id_ce 14) (members inputs.issuer.tbs_certificate.extensions))) inputs)
        (λ bytes. CrlParts (Finds ⟦<SubjectKeyIdentifier as Grammar>⟧.form ⟦<SubjectKeyIdentifier as Decode>⟧.refuses
        ⟦<SubjectKeyIdentifier as Decode>⟧.wants_memory (with_oid (id_ce 14) (members inputs.issuer.tbs_certificate.extensions))) inputs bytes.items))
        (λ e. (kind_of e ≡ Memory) ⊎ RefusesCrlPart (Finds ⟦<SubjectKeyIdentifier as Grammar>⟧.form ⟦<SubjectKeyIdentifier as Decode>⟧.refuses
        ⟦<SubjectKeyIdentifier as Decode>⟧.wants_memory (with_oid (id_ce 14) (members inputs.issuer.tbs_certificate.extensions))) inputs e) }
{
    let CrlInputs {
        issuer,
        algorithm,
        number,
        this_update,
        next_update,
        entries,
        extensions,
    } = inputs;
    let start = CrlBuilder::<Rfc5280>::new_with_this_update(alloc, &issuer, number, this_update)?;
    let builder = with_entries(alloc, start.with_next_update(next_update), entries)?;
    let whole = builder.with_extensions(Extensions::from(extensions))?;
    if has_repeated_extension(alloc, whole.extensions())? {
        return Ok(None);
    }
    let teller = signer_by(alloc, algorithm)?;
    let bytes = finalized(alloc, whole, &teller)?;
    Ok(Some(bytes))
}

/// Puts the bytes to be signed of a CRL, TBSCertList (RFC 5280 5.1.2), at the front of the buffer `room`: those that [`CrlBuilder`] finalizes to for a signer
/// with that algorithm. The issuer is its certificate and the algorithm an AlgorithmIdentifier; the number's octets stand most significant first; times are
/// seconds since 1970-01-01T00:00:00Z; entries and further extensions are encodings of them one after the other, or none.
///
/// # Errors
///
/// [`Status::NoRoom`] where the buffer is too small; then `written` is the needed length. The error of decoding an input, among them that of the SKI of the
/// issuer's certificate (`Failed` where it is repeated); `Value` where the number has no octets, a time is after the year 9999, or the next update before this
/// one; where several are bad, any of theirs. Else [`Status::Repeated`] exactly where two extensions have one OID, the CRL number and the AKI among them; then
/// nothing is written. `Overlength` where an extension or the part is too long. `Memory` when out of memory.
pub fn build_crl(
    alloc: Global,
    issuer: &[u8],
    algorithm: &[u8],
    number: &[u8],
    this_update: u64,
    next_update: Option<u64>,
    entries: &[u8],
    extensions: &[u8],
    room: &mut [u8],
    written: &mut usize,
) -> Status
    ensures { FillsUnrepeated (BuildsCrl (λ part. Finds ⟦<SubjectKeyIdentifier as Grammar>⟧.form ⟦<SubjectKeyIdentifier as Decode>⟧.refuses
        ⟦<SubjectKeyIdentifier as Decode>⟧.wants_memory (with_oid (id_ce 14) (members part.extensions))) issuer.now algorithm.now number.now this_update
        next_update entries.now extensions.now) room.old room.new written.old written.new result }
{
    let inputs = match read_inputs(
        alloc,
        issuer,
        algorithm,
        number,
        this_update,
        next_update,
        entries,
        extensions,
    ) {
        Ok(inputs) => inputs,
        Err(e) => return Status::Refused(e),
    };
    match crl_part(alloc, inputs) {
        Ok(Some(bytes)) => fill(bytes.as_slice(), room, written),
        Ok(None) => Status::Repeated,
        Err(e) => Status::Refused(kind_of(&e)),
    }
}
