//! Whether CRLs say that a certificate is revoked, apart from their signatures.

ghost use Rattle.std.specs.Prelude.{◌≡◌, ◌⊎◌, List, get_or, map, IfOk, MatchOption, MatchResult};
ghost use Rattle.x509_c_calls.specs.Calls.{Reads};
ghost use Rattle.x509_c_calls.specs.CrlFaults.{TellsFault, fault_number};
ghost use Rattle.x509_c_calls.specs.OpenedCrls.{IsOpened};
ghost use Rattle.x509_c_calls.specs.RevocationStatus.{AllPairs, AreGiven, AreNotGiven, AreOfNoRevocation, AreOfRevocation, AreParts, IsNotGiven, IsOutside, IsWithin, TellsSigner, TellsStatus, part_of, told, verified};
ghost use Rattle.x509_c_calls.specs.declared.revocation.SignedCrlSpans as spans;
ghost use Rattle.x509_c_calls.specs.declared.status.status.Status.TheVariants.{Refused};
ghost use Rattle.x509_der.specs.declared.error.ErrorKind.TheVariants.{Memory};
ghost use Rattle.x509_revocation.specs.Lent.{LendsAll};
ghost use Rattle.x509_revocation.specs.Says.{GivenCrl};

use crate::certificate::seconds;
use crate::path::numbers_of;
use crate::payloads::flag;
use crate::{Span, Status};
use bitflags::Flags;
use std::alloc::{AllocError, Global};
use std::time::Duration;
use x509_base::{DateTime, Rfc5280, SubjectPublicKeyInfo};
use x509_cert::certificate::CertificateInner;
use x509_cert::crl::CertificateList;
use x509_check::{CertificateRef, Check, CrlRef};
use x509_der::{ErrorKind, Grammar};
use x509_name::name::Name;
use x509_path::{AnchorRef, AnySignature, SliceVerifier};
use x509_revocation::{CrlFault, RevocationSettings, RevocationStatus, SignedCrl};

/// A CRL, and the name and the key under which it is verified: where each stands in the bytes.
#[derive(Clone, Copy)]
#[repr(C)]
pub struct SignedCrlSpans {
    /// The CRL.
    pub crl: Span,

    /// The name of its signer.
    pub name: Span,

    /// The public key of its signer, with its algorithm.
    pub key: Span,

    /// 1 where the caller has verified the signature of the CRL with this key; with any other number the CRL isn't looked at.
    pub verified: u32,
}

/// What is answered. What doesn't belong to the status is 0.
#[derive(Clone, Copy)]
#[repr(C)]
pub struct RevocationAnswer {
    /// 0 where the status is undetermined, 1 where the certificate isn't revoked, 2 where it is.
    pub status: u32,

    /// Why it was revoked: the number of the reason (RFC 5280 5.3.1), 0 where the entry gives none.
    pub reason: u32,

    /// Which CRL says that it is revoked: its place, from 0.
    pub crl: usize,

    /// When it was revoked, in seconds since 1970-01-01T00:00:00Z.
    pub date: u64,

    /// The reasons that no CRL covered, as a number whose bit n stands for the named bit n (RFC 5280 4.2.1.13).
    pub reasons: u32,
}

/// The first number that is no sum of flags: 1, that a CRL without a next update is in date, and 2, that delta CRLs are used.
const PAST_FLAGS: u64 = 4;

/// The settings, if they are any, have no other flag, and are of a time through the year 9999.
fn settings_of(settings: &[u8]) -> Option<RevocationSettings>
    ensures { MatchOption result (AreOfNoRevocation settings.now) (λ found. AreOfRevocation settings.now found) }
{
    let (seconds, flags) = numbers_of(settings)?;
    if flags >= PAST_FLAGS {
        return None;
    }
    match DateTime::from_unix_duration(Duration::from_secs(seconds)) {
        Ok(moment) => Some(RevocationSettings {
            moment,
            without_next_update: flags % 2 == 1,
            use_deltas: flags / 2 == 1,
        }),
        Err(_) => None,
    }
}

/// A part of the bytes, if it lies within them.
pub(crate) fn part_of(bytes: &[u8], span: Span) -> Option<&[u8]>
    ensures { MatchOption result (IsOutside bytes.now span) (λ found. IsWithin bytes.now span × (found.now ≡ part_of bytes.now span)) }
{
    if bytes.len() < span.place || bytes.len() - span.place < span.len {
        return None;
    }
    Some(&bytes[span.place..span.place + span.len])
}

/// A CRL and its signer.
#[derive(Drop)]
struct Opened<'a> {
    /// The CRL.
    crl: CrlRef<'a>,

    /// Its signer.
    signer: AnchorRef<'a>,
}

/// The CRL and the signer that stand there in the bytes.
///
/// # Errors
///
/// `Failed` where one of the three parts isn't within the bytes; the errors of checking the CRL, the name and the key. Where
/// several are bad, any of these.
fn open_one<'a>(bytes: &'a [u8], spans: &SignedCrlSpans) -> Result<Opened<'a>, ErrorKind>
    ensures { MatchResult result (λ opened. (given : GivenCrl) × AreParts bytes.now spans.now given × IsOpened opened given)
        (λ e. IsNotGiven (record {
          certificate = ⟦<CertificateInner<Rfc5280> as Grammar>⟧.refuses;
          crl = ⟦<CertificateList<Rfc5280> as Grammar>⟧.refuses;
          name = ⟦<Name as Grammar>⟧.refuses;
          key = ⟦<SubjectPublicKeyInfo as Grammar>⟧.refuses;
        }) bytes.now spans.now e) }
{
    let Some(list) = part_of(bytes, spans.crl) else {
        return Err(ErrorKind::Failed);
    };
    let Some(name) = part_of(bytes, spans.name) else {
        return Err(ErrorKind::Failed);
    };
    let Some(key) = part_of(bytes, spans.key) else {
        return Err(ErrorKind::Failed);
    };
    let crl = match CrlRef::<Rfc5280>::from_der(list) {
        Ok(crl) => crl,
        Err(e) => return Err(e.kind()),
    };
    if let Err(e) = Name::check(name) {
        return Err(e.kind());
    }
    if let Err(e) = SubjectPublicKeyInfo::check(key) {
        return Err(e.kind());
    }
    Ok(Opened {
        crl,
        signer: AnchorRef { name, key },
    })
}

/// The CRLs that the caller has verified, with their places.
fn verified_of(
    alloc: Global,
    crls: &[SignedCrlSpans],
) -> Result<Vec<(usize, SignedCrlSpans)>, AllocError>
    ensures { IfOk result (λ found. found.items ≡ verified crls.now) }
{
    let mut found = Vec::new(alloc);
    for (place, spans) in crls.iter().enumerate() {
        if spans.verified == 1 {
            found.push((place, *spans))?;
        }
    }
    Ok(found)
}

/// These CRLs and their signers in the bytes.
///
/// # Errors
///
/// Those of [`open_one`], of the first that has one. `Memory` when out of memory.
fn open_all<'a>(
    alloc: Global,
    bytes: &'a [u8],
    found: &[(usize, SignedCrlSpans)],
) -> Result<Vec<Opened<'a>>, ErrorKind>
    ensures { MatchResult result (λ opened. (given : List GivenCrl) × AreGiven bytes.now found.now given × AllPairs IsOpened opened.items given)
        (λ e. (e ≡ Memory) ⊎ AreNotGiven (record {
          certificate = ⟦<CertificateInner<Rfc5280> as Grammar>⟧.refuses;
          crl = ⟦<CertificateList<Rfc5280> as Grammar>⟧.refuses;
          name = ⟦<Name as Grammar>⟧.refuses;
          key = ⟦<SubjectPublicKeyInfo as Grammar>⟧.refuses;
        }) bytes.now found.now e) }
{
    let mut opened = Vec::new(alloc);
    for it in found {
        let one = match open_one(bytes, &it.1) {
            Ok(one) => one,
            Err(e) => return Err(e),
        };
        match opened.push(one) {
            Ok(()) => {}
            Err(_) => return Err(ErrorKind::Memory),
        }
    }
    Ok(opened)
}

/// The CRLs with their signers, as the status is asked by them.
fn lent_crls<'c, 'a>(
    alloc: Global,
    opened: &'c [Opened<'a>],
) -> Result<Vec<SignedCrl<'c, 'a>>, AllocError>
    ensures { IfOk result (λ lent. (given : List GivenCrl) → AllPairs IsOpened opened.now given → LendsAll lent.items given) }
{
    let mut lent = Vec::new(alloc);
    for one in opened {
        lent.push(SignedCrl {
            crl: &one.crl,
            signer: one.signer,
        })?;
    }
    Ok(lent)
}

/// The place of a CRL among all, by its place among those that are verified.
fn place_of(found: &[(usize, SignedCrlSpans)], place: usize) -> usize
    ensures { result ≡ get_or (map (λ it. it.0) found.now) place 0 }
{
    match found.get(place) {
        Some(it) => it.0,
        None => 0,
    }
}

/// What is answered to a status.
fn answer_of(found: &[(usize, SignedCrlSpans)], status: RevocationStatus) -> RevocationAnswer
    ensures { (crls : List spans.SignedCrlSpans) → found.now ≡ verified crls → result ≡ told crls status }
{
    match status {
        RevocationStatus::Undetermined { reasons } => RevocationAnswer {
            status: 0,
            reason: 0,
            crl: 0,
            date: 0,
            reasons: u32::from(reasons.bits()),
        },
        RevocationStatus::Unrevoked => RevocationAnswer {
            status: 1,
            reason: 0,
            crl: 0,
            date: 0,
            reasons: 0,
        },
        RevocationStatus::Revoked { crl, date, reason } => RevocationAnswer {
            status: 2,
            reason: reason as u32,
            crl: place_of(found, crl),
            date: seconds(&date),
            reasons: 0,
        },
    }
}

/// Whether CRLs say that a certificate is revoked at a time (RFC 5280 6.3.3), as [`x509_revocation::revocation_status`] says,
/// apart from their signatures: those that the caller has verified are taken for signed by their signers, and the others
/// aren't looked at. The CRLs, the names and the keys of their signers are parts of `bytes`. The settings are the time, in
/// seconds since 1970-01-01T00:00:00Z, and flags: 1 where a CRL without a next update is in date, 2 where delta CRLs are
/// used. Each number stands in eight octets, the lowest first; behind both is any number of zeros.
///
/// # Errors
///
/// `Value` where the settings are none, or the time is after the year 9999; the errors of decoding the certificate; of the CRLs
/// that are verified `Failed` where a part isn't within the bytes, and the errors of decoding the CRL, the name and the key. Where
/// several of these are bad, any of them. `Memory` when out of memory. `answer` is unchanged then.
#[tactic(auto, unfolding(crate::specs::RevocationStatus::TellsStatus))]
pub fn revocation_status(
    alloc: Global,
    certificate: &[u8],
    bytes: &[u8],
    crls: &[SignedCrlSpans],
    settings: &[u8],
    answer: &mut RevocationAnswer,
) -> Status
    ensures { TellsStatus (record {
      certificate = ⟦<CertificateInner<Rfc5280> as Grammar>⟧.refuses;
      crl = ⟦<CertificateList<Rfc5280> as Grammar>⟧.refuses;
      name = ⟦<Name as Grammar>⟧.refuses;
      key = ⟦<SubjectPublicKeyInfo as Grammar>⟧.refuses;
    }) certificate.now bytes.now crls.now settings.now
        answer.old answer.new result }
{
    let Some(settings) = settings_of(settings) else {
        return Status::Refused(ErrorKind::Value);
    };
    let certificate = match CertificateRef::<Rfc5280>::from_der(certificate) {
        Ok(certificate) => certificate,
        Err(e) => return e.into(),
    };
    let Ok(found) = verified_of(alloc, crls) else {
        return Status::Refused(ErrorKind::Memory);
    };
    let opened = match open_all(alloc, bytes, found.as_slice()) {
        Ok(opened) => opened,
        Err(e) => return Status::Refused(e),
    };
    let Ok(lent) = lent_crls(alloc, opened.as_slice()) else {
        return Status::Refused(ErrorKind::Memory);
    };
    match x509_revocation::revocation_status(
        alloc,
        &certificate,
        lent.as_slice(),
        &settings,
        &AnySignature,
    ) {
        Ok(status) => {
            *answer = answer_of(found.as_slice(), status);
            Status::Done
        }
        Err(e) => e.into(),
    }
}

/// The number of a fault, and 0 for none.
fn fault_number(fault: Option<CrlFault>) -> u32
    ensures { result ≡ fault_number fault }
{
    match fault {
        None => 0,
        Some(CrlFault::NotYetValid) => 1,
        Some(CrlFault::Expired) => 2,
        Some(CrlFault::Critical) => 3,
        Some(CrlFault::Algorithm) => 4,
        Some(CrlFault::Delta) => 5,
        Some(CrlFault::IssuingPoint) => 6,
        Some(CrlFault::Issuer) => 7,
        Some(CrlFault::Scope) => 8,
        Some(CrlFault::Point) => 9,
        Some(CrlFault::Signer) => 10,
        Some(CrlFault::Signature) => 11,
        Some(CrlFault::Entry) => 12,
        Some(CrlFault::Replaced) => 13,
    }
}

/// Takes any bits for a signature, or none.
#[derive(Clone, Copy)]
struct Marked {
    /// Whether it takes any.
    is_verified: bool,
}

impl SliceVerifier for Marked {
    ghost accepts = { λ verifier algorithm key message bits. verifier.is_verified };

    fn verify(&self, _algorithm: &[u8], _key: &[u8], _message: &[u8], _signature: &[u8]) -> bool {
        self.is_verified
    }
}

/// Says why the CRL at a place says nothing of a certificate, as [`x509_revocation::crl_fault`] says, beside those that the caller
/// has verified; one that isn't verified has no signature. What is given is as [`revocation_status`] takes it.
///
/// # Errors
///
/// Those of [`revocation_status`]; `Value` also where no CRL is at the place; of that CRL, verified or not, `Failed` where a part
/// isn't within the bytes, and the errors of decoding the CRL, the name and the key. Where several are bad, any of them. `fault` is
/// unchanged then.
#[tactic(auto, unfolding(crate::specs::CrlFaults::TellsFault))]
pub fn crl_fault(
    alloc: Global,
    certificate: &[u8],
    bytes: &[u8],
    crls: &[SignedCrlSpans],
    settings: &[u8],
    place: usize,
    fault: &mut u32,
) -> Status
    ensures { TellsFault (record {
      certificate = ⟦<CertificateInner<Rfc5280> as Grammar>⟧.refuses;
      crl = ⟦<CertificateList<Rfc5280> as Grammar>⟧.refuses;
      name = ⟦<Name as Grammar>⟧.refuses;
      key = ⟦<SubjectPublicKeyInfo as Grammar>⟧.refuses;
    }) certificate.now bytes.now crls.now settings.now place
        fault.old fault.new result }
{
    let Some(settings) = settings_of(settings) else {
        return Status::Refused(ErrorKind::Value);
    };
    let Some(spans) = crls.get(place) else {
        return Status::Refused(ErrorKind::Value);
    };
    let certificate = match CertificateRef::<Rfc5280>::from_der(certificate) {
        Ok(certificate) => certificate,
        Err(e) => return e.into(),
    };
    let own = match open_one(bytes, spans) {
        Ok(own) => own,
        Err(e) => return Status::Refused(e),
    };
    let Ok(found) = verified_of(alloc, crls) else {
        return Status::Refused(ErrorKind::Memory);
    };
    let opened = match open_all(alloc, bytes, found.as_slice()) {
        Ok(opened) => opened,
        Err(e) => return Status::Refused(e),
    };
    let Ok(lent) = lent_crls(alloc, opened.as_slice()) else {
        return Status::Refused(ErrorKind::Memory);
    };
    let asked = SignedCrl {
        crl: &own.crl,
        signer: own.signer,
    };
    let verifier = Marked {
        is_verified: spans.verified == 1,
    };
    match x509_revocation::crl_fault(
        alloc,
        &certificate,
        &asked,
        lent.as_slice(),
        &settings,
        &verifier,
    ) {
        Ok(told) => {
            *fault = fault_number(told);
            Status::Done
        }
        Err(e) => e.into(),
    }
}

/// Tells whether the key of a certificate may sign CRLs (RFC 5280 4.2.1.3, 6.3.3 (f)), as [`x509_revocation::may_sign_crls`] says: 1 in
/// `may_sign` where it may, else 0. It takes no memory.
///
/// # Errors
///
/// Those of checking the certificate. `may_sign` is unchanged then.
#[tactic(auto, unfolding(crate::specs::Calls::Reads))]
pub fn may_sign_crls(alloc: Global, certificate: &[u8], may_sign: &mut u32) -> Status
    ensures read { Reads ⟦<CertificateInner<Rfc5280> as Grammar>⟧.form ⟦<CertificateInner<Rfc5280> as Grammar>⟧.refuses certificate.now
        (λ c. TellsSigner c may_sign.new) (may_sign.new ≡ may_sign.old) result }
    ensures memory { result ≡ Refused Memory → ⊥ }
{
    match CertificateRef::<Rfc5280>::from_der(certificate) {
        Ok(certificate) => {
            *may_sign = flag(x509_revocation::may_sign_crls(alloc, &certificate));
            Status::Done
        }
        Err(e) => e.into(),
    }
}
