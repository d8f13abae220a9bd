//! The bytes to be signed of certificates for TLS: of a subordinate authority and of a subscriber.

ghost use Rattle.std.specs.Prelude.{◌≡◌, ◌⊎◌, MatchResult};
ghost use Rattle.x509_base.specs.SubjectPublicKeyInfo.{subject_public_key_info};
ghost use Rattle.x509_c_calls.specs.Built.{FillsUnrepeated};
ghost use Rattle.x509_c_calls.specs.ProfileInputs.{Inputs, IsPathLen, IsSubordinate, IsSubscriber, RefusesPathLen, RefusesSubordinate, RefusesSubscriber};
ghost use Rattle.x509_c_calls.specs.ProfileParts.{ArePartInputs, BuildsProfile, RefusesPartInputs};
ghost use Rattle.x509_der.specs.declared.error.ErrorKind.TheVariants.{Memory};
ghost use Rattle.x509_der.specs.Form.{Spells};
ghost use Rattle.x509_types.specs.Reencoding.{IsRefused};

use crate::build::profile::{ProfileInputs, fill_part, read_part};
use crate::build::teller::kind_of;
use crate::{Status, read};
use std::alloc::Global;
use x509_base::SubjectPublicKeyInfo;
use x509_build::BuilderProfile;
use x509_build::profile::cabf::tls::{CertificateType, Subordinate, Subscriber, Tls12Options};
use x509_cert::certificate::TbsCertificate;
use x509_der::{Encode, ErrorKind, SequenceOf};
use x509_name::name::Name;

/// The path length constraint, where one is told.
fn path_len_of(told: Option<u32>) -> Result<Option<u8>, ErrorKind>
    ensures { MatchResult result (λ constraint. IsPathLen told constraint) (λ e. RefusesPathLen told e) }
{
    match told {
        None => Ok(None),
        Some(told) if told <= 255 => Ok(Some(told as u8)),
        Some(_) => Err(ErrorKind::Value),
    }
}

/// The profile of that authority.
fn subordinate_of(
    alloc: Global,
    issuer: &[u8],
    subject: &[u8],
    path_len: Option<u32>,
    emits_ocsp_response: bool,
    client_auth: bool,
) -> Result<Subordinate, ErrorKind>
    ensures { MatchResult result
        (λ profile. IsSubordinate issuer.now subject.now path_len emits_ocsp_response client_auth profile)
        (λ e. (e ≡ Memory) ⊎ RefusesSubordinate issuer.now subject.now path_len e) }
{
    let issuer = read::<Name>(alloc, issuer)?;
    let subject = read::<Name>(alloc, subject)?;
    let path_len_constraint = path_len_of(path_len)?;
    Ok(Subordinate {
        issuer,
        subject,
        path_len_constraint,
        emits_ocsp_response,
        client_auth,
    })
}

/// What a subscriber's key may be used for, beside signatures of a TLS server.
#[derive(Clone, Copy)]
pub struct SubscriberUses {
    /// Whether it may be that of a TLS client too.
    pub client_auth: bool,

    /// Whether an RSA key may encipher keys.
    pub key_encipherment: bool,

    /// Whether an elliptic curve key may agree on keys.
    pub key_agreement: bool,

    /// Whether an RSA key may encipher data.
    pub data_encipherment: bool,
}

/// The profile of that subscriber, of whom control of the domains was validated.
fn subscriber_of(
    alloc: Global,
    issuer: &[u8],
    subject: &[u8],
    uses: SubscriberUses,
) -> Result<Subscriber, ErrorKind>
    ensures { MatchResult result
        (λ profile. IsSubscriber issuer.now subject.now uses profile)
        (λ e. (e ≡ Memory) ⊎ RefusesSubscriber issuer.now subject.now e) }
{
    let issuer = read::<Name>(alloc, issuer)?;
    let subject = read::<Name>(alloc, subject)?;
    // The alternative names aren't made an extension of, which the caller adds.
    let names = SequenceOf::new(alloc);
    let certificate_type = match CertificateType::domain_validated(alloc, subject, names) {
        Ok(certificate_type) => certificate_type,
        Err(e) => return Err(kind_of(&e)),
    };
    Ok(Subscriber {
        certificate_type,
        issuer,
        client_auth: uses.client_auth,
        tls12_options: Tls12Options {
            enable_key_encipherment: uses.key_encipherment,
            enable_key_agreement: uses.key_agreement,
        },
        enable_data_encipherment: uses.data_encipherment,
    })
}

/// What the bytes encode and the numbers tell.
fn read_subordinate(
    alloc: Global,
    serial_number: &[u8],
    algorithm: &[u8],
    issuer: &[u8],
    issuer_key: &[u8],
    not_before: u64,
    not_after: u64,
    subject: &[u8],
    key: &[u8],
    path_len: Option<u32>,
    emits_ocsp_response: bool,
    client_auth: bool,
    extensions: &[u8],
) -> Result<ProfileInputs<Subordinate>, ErrorKind>
    ensures { MatchResult result
        (Inputs (IsSubordinate issuer.now subject.now path_len emits_ocsp_response client_auth)
        (λ key. Spells subject_public_key_info key issuer_key.now) (ArePartInputs serial_number.now algorithm.now not_before not_after key.now extensions.now))
        (λ e. (e ≡ Memory) ⊎ (RefusesSubordinate issuer.now subject.now path_len e ⊎ (IsRefused subject_public_key_info (λ e. ⊥) issuer_key.now e
        ⊎ RefusesPartInputs serial_number.now algorithm.now not_before not_after key.now extensions.now e))) }
{
    let profile = subordinate_of(
        alloc,
        issuer,
        subject,
        path_len,
        emits_ocsp_response,
        client_auth,
    )?;
    let issuer_key = read::<SubjectPublicKeyInfo>(alloc, issuer_key)?;
    let part = read_part(
        alloc,
        serial_number,
        algorithm,
        not_before,
        not_after,
        key,
        extensions,
    )?;
    Ok(ProfileInputs {
        profile,
        issuer_key,
        part,
    })
}

/// Puts the bytes to be signed of the certificate of a subordinate authority, TBSCertificate (RFC 5280 4.1), at the front of the buffer `room`: those
/// that a builder with the profile [`Subordinate`] finalizes to for a signer with that algorithm and the issuer's key, where the extensions were
/// added, in front of those of the profile. The serial number is the encoding of an INTEGER, the algorithm an AlgorithmIdentifier, the issuer and the
/// subject Names, the keys SubjectPublicKeyInfo; the dates are seconds since 1970-01-01T00:00:00Z; extensions are encodings of them one after the
/// other, or none.
///
/// # Errors
///
/// [`Status::NoRoom`] where the buffer is too small; then `written` is the needed length. The error of decoding an input; `Value` where the path
/// length constraint is above 255, a date is after the year 9999, or the second before the first; where several are bad, any of theirs. Else
/// [`Status::Repeated`] exactly where two extensions have one OID; then nothing is written. `Overlength` where the part is too long. `Memory` when out
/// of memory.
pub fn build_subordinate(
    alloc: Global,
    serial_number: &[u8],
    algorithm: &[u8],
    issuer: &[u8],
    issuer_key: &[u8],
    not_before: u64,
    not_after: u64,
    subject: &[u8],
    key: &[u8],
    path_len: Option<u32>,
    emits_ocsp_response: bool,
    client_auth: bool,
    extensions: &[u8],
    room: &mut [u8],
    written: &mut usize,
) -> Status
    ensures { FillsUnrepeated (BuildsProfile (record {
      subject_of = ⟦<Subordinate as BuilderProfile>⟧.subject_of;
      issuer_of =
          ⟦<Subordinate as BuilderProfile>⟧.issuer_of;
      extensions_of = ⟦<Subordinate as BuilderProfile>⟧.extensions_of;
    }) ⟦<TbsCertificate as Encode>⟧.writing
        (Inputs (IsSubordinate issuer.now subject.now path_len emits_ocsp_response client_auth)
        (λ key. Spells subject_public_key_info key issuer_key.now) (ArePartInputs serial_number.now algorithm.now not_before not_after key.now extensions.now))
        (λ e. RefusesSubordinate issuer.now subject.now path_len e ⊎ (IsRefused subject_public_key_info (λ e. ⊥) issuer_key.now e
        ⊎ RefusesPartInputs serial_number.now algorithm.now not_before not_after key.now extensions.now e))) room.old room.new written.old written.new result }
{
    let inputs = read_subordinate(
        alloc,
        serial_number,
        algorithm,
        issuer,
        issuer_key,
        not_before,
        not_after,
        subject,
        key,
        path_len,
        emits_ocsp_response,
        client_auth,
        extensions,
    );
    fill_part(alloc, inputs, room, written)
}

/// What the bytes encode and the numbers tell.
fn read_subscriber(
    alloc: Global,
    serial_number: &[u8],
    algorithm: &[u8],
    issuer: &[u8],
    issuer_key: &[u8],
    not_before: u64,
    not_after: u64,
    subject: &[u8],
    key: &[u8],
    uses: SubscriberUses,
    extensions: &[u8],
) -> Result<ProfileInputs<Subscriber>, ErrorKind>
    ensures { MatchResult result
        (Inputs (IsSubscriber issuer.now subject.now uses) (λ key. Spells subject_public_key_info key issuer_key.now)
        (ArePartInputs serial_number.now algorithm.now not_before not_after key.now extensions.now))
        (λ e. (e ≡ Memory) ⊎ (RefusesSubscriber issuer.now subject.now e ⊎ (IsRefused subject_public_key_info (λ e. ⊥) issuer_key.now e
        ⊎ RefusesPartInputs serial_number.now algorithm.now not_before not_after key.now extensions.now e))) }
{
    let profile = subscriber_of(alloc, issuer, subject, uses)?;
    let issuer_key = read::<SubjectPublicKeyInfo>(alloc, issuer_key)?;
    let part = read_part(
        alloc,
        serial_number,
        algorithm,
        not_before,
        not_after,
        key,
        extensions,
    )?;
    Ok(ProfileInputs {
        profile,
        issuer_key,
        part,
    })
}

/// Puts the bytes to be signed of the certificate of a TLS server, TBSCertificate (RFC 5280 4.1), at the front of the buffer `room`: those that a
/// builder with the profile [`Subscriber`] finalizes to for a signer with that algorithm and the issuer's key, where the extensions were added, in
/// front of those of the profile. The serial number is the encoding of an INTEGER, the algorithm an AlgorithmIdentifier, the issuer and the subject
/// Names, the keys SubjectPublicKeyInfo; the dates are seconds since 1970-01-01T00:00:00Z; of the subject the country and the common names are kept
/// alone; extensions are encodings of them one after the other, or none.
///
/// # Errors
///
/// [`Status::NoRoom`] where the buffer is too small; then `written` is the needed length. The error of decoding an input; `Value` where a date is
/// after the year 9999, or the second before the first; where several are bad, any of theirs. Else [`Status::Repeated`] exactly where two extensions
/// have one OID; then nothing is written. `Overlength` where the part is too long. `Memory` when out of memory.
pub fn build_subscriber(
    alloc: Global,
    serial_number: &[u8],
    algorithm: &[u8],
    issuer: &[u8],
    issuer_key: &[u8],
    not_before: u64,
    not_after: u64,
    subject: &[u8],
    key: &[u8],
    uses: SubscriberUses,
    extensions: &[u8],
    room: &mut [u8],
    written: &mut usize,
) -> Status
    ensures { FillsUnrepeated (BuildsProfile (record {
      subject_of = ⟦<Subscriber as BuilderProfile>⟧.subject_of;
      issuer_of =
          ⟦<Subscriber as BuilderProfile>⟧.issuer_of;
      extensions_of = ⟦<Subscriber as BuilderProfile>⟧.extensions_of;
    }) ⟦<TbsCertificate as Encode>⟧.writing
        (Inputs (IsSubscriber issuer.now subject.now uses) (λ key. Spells subject_public_key_info key issuer_key.now)
        (ArePartInputs serial_number.now algorithm.now not_before not_after key.now extensions.now))
        (λ e. RefusesSubscriber issuer.now subject.now e ⊎ (IsRefused subject_public_key_info (λ e. ⊥) issuer_key.now e
        ⊎ RefusesPartInputs serial_number.now algorithm.now not_before not_after key.now extensions.now e))) room.old room.new written.old written.new result }
{
    let inputs = read_subscriber(
        alloc,
        serial_number,
        algorithm,
        issuer,
        issuer_key,
        not_before,
        not_after,
        subject,
        key,
        uses,
        extensions,
    );
    fill_part(alloc, inputs, room, written)
}
