//! Validating a path apart from its signatures.

ghost use Rattle.std.specs.Prelude.{◌≡◌, ◌≢◌, ◌≤◌, ◌++◌, [], drop, length, map, take, IfOk, MatchResult, Option};
ghost use Rattle.x509_c_calls.specs.PathValidation.{AreConstraints, TellsValidation, Validates, ValidatesUnderAnchor, ValidatesUnderCertificate, ValidatesUnderKey, known_purposes, named_purposes, own_purposes, set_of};
ghost use Rattle.x509_ext.specs.NameConstraints.{name_constraints};
ghost use Rattle.x509_ext.specs.declared.pkix.name_constraints.NameConstraints as values;
ghost use Rattle.x509_path_steps.specs.Inputs.{Inputs, LendsConstraints, LendsInputs, LendsTrust, Trust};
ghost use Rattle.x509_policy.specs.Views.{octets_of};
ghost use Rattle.x509_types.specs.Reencoding.{IsRefused};

use crate::Status;
use crate::path::answer::{PathAnswer, fault_at, subject_of};
use crate::path::pieces::cut;
use crate::path::policies::{accepted_set, encoded_policies, policies_of};
use crate::path::question::PathQuestion;
use crate::path::settings::{own_purpose_of, purposes_of, settings_of, unless_empty};
use crate::path::views::{PathCertificate, put_certificates};
use crate::status::put;
use std::alloc::{AllocError, Global};
use x509_base::{Rfc5280, SubjectPublicKeyInfo};
use x509_cert::Certificate;
use x509_check::{CertificateRef, Check};
use x509_der::{ErrorKind, Grammar};
use x509_ext::pkix::{CertificatePolicies, NameConstraints};
use x509_name::name::Name;
use x509_path::{AnchorRef, AnySignature};
use x509_validation::{PathSettings, Trusted, TrustedBuf, ValidationFault, validate_path_lent};

/// The constraints, if there are any.
pub(crate) fn constraints_of(octets: &[u8]) -> Result<Option<&[u8]>, ErrorKind>
    ensures { MatchResult result (λ lent. (constraints : Option values.NameConstraints)
        × AreConstraints octets.now constraints × LendsConstraints lent constraints)
        (λ e. (octets.now ≢ []) × IsRefused name_constraints ⟦<NameConstraints as Grammar>⟧.refuses octets.now e) }
{
    if octets.is_empty() {
        return Ok(None);
    }
    match NameConstraints::check(octets) {
        Ok(()) => Ok(Some(octets)),
        Err(e) => Err(e.kind()),
    }
}

/// Validates the path of these inputs apart from their signatures, and fills in its first fault, or what it gives.
#[tactic(auto, unfolding(crate::specs::PathValidation::TellsValidation))]
fn tell(
    alloc: Global,
    trusted: &Trusted<'_>,
    path: &[&[u8]],
    settings: &PathSettings<'_>,
    room: &mut [u8],
    answer: &mut PathAnswer,
    certificates: &mut [PathCertificate],
) -> Status
    ensures { (inputs : Inputs) → LendsInputs trusted.now settings.now inputs
        → TellsValidation inputs (map (λ input. input.now) path.now) (record { room = room.old; answer = answer.old; certificates = certificates.old })
        (record { room = room.new; answer = answer.new; certificates = certificates.new }) result }
{
    match validate_path_lent(alloc, trusted, path, settings, &AnySignature) {
        Ok(validated) => match encoded_policies(alloc, validated.policies.as_slice()) {
            Ok(policies) => {
                let lent = validated.certificates.as_slice();
                put_certificates(lent, certificates);
                put(policies.as_slice(), room);
                *answer = subject_of(lent, policies.len());
                Status::Done
            }
            Err(e) => e.into(),
        },
        Err(ValidationFault::Empty) => Status::Absent,
        Err(ValidationFault::Memory) => Status::Refused(ErrorKind::Memory),
        Err(ValidationFault::Initial) => Status::Refused(ErrorKind::Value),
        Err(ValidationFault::At { place, reason }) => {
            *answer = fault_at(place, reason);
            Status::Faulty
        }
    }
}

/// The policies that are named, and the content octets of another purpose.
pub(crate) struct Named {
    pub policies: Option<CertificatePolicies>,
    pub own: Vec<u8>,
}

impl Drop for Named {
    fn drop(self) {
        let Named {
            policies: _,
            own: _,
        } = self;
    }
}

/// The content octets of the OIDs of the policies that are accepted, behind them those of the purposes of which one is asked for,
/// and how many policies these are.
pub(crate) fn lists_of<'n>(
    alloc: Global,
    named: &'n Named,
    number: u64,
) -> Result<(Vec<&'n [u8]>, usize), AllocError>
    ensures fits { IfOk result (λ found. found.1 ≤ length found.0.items) }
    ensures policies { IfOk result (λ found. octets_of (take found.1 found.0.items) ≡ set_of named.now.policies) }
    ensures purposes { IfOk result (λ found. octets_of (drop found.1 found.0.items) ≡ named_purposes number known_purposes ++ own_purposes named.now.own.items) }
{
    let mut lists = accepted_set(alloc, &named.policies)?;
    let count = lists.len();
    let mut purposes = purposes_of(alloc, number, named.own.as_slice())?;
    lists.append(&mut purposes)?;
    Ok((lists, count))
}

/// Validates a path under what is trusted.
#[tactic(auto, unfolding(crate::specs::PathValidation::Validates))]
fn validate_under(
    alloc: Global,
    trusted: &Trusted<'_>,
    question: &PathQuestion<'_>,
    room: &mut [u8],
    answer: &mut PathAnswer,
    certificates: &mut [PathCertificate],
) -> Status
    ensures { (trust : Trust) → LendsTrust trusted.now trust
        → Validates ⟦<NameConstraints as Grammar>⟧.refuses ⟦<CertificatePolicies as Grammar>⟧.refuses question.now trust
        (record { room = room.old; answer = answer.old; certificates = certificates.old }) (record { room = room.new; answer = answer.new; certificates = certificates.new }) result }
{
    let Some(asked) = settings_of(question.settings) else {
        return Status::Refused(ErrorKind::Value);
    };
    let Some(own) = own_purpose_of(question.settings) else {
        return Status::Refused(ErrorKind::Value);
    };
    let path = match cut(alloc, question.path, question.lens) {
        Ok(Some(path)) => path,
        Ok(None) => return Status::Refused(ErrorKind::Failed),
        Err(_) => return Status::Refused(ErrorKind::Memory),
    };
    let name_constraints = match constraints_of(question.name_constraints) {
        Ok(name_constraints) => name_constraints,
        Err(e) => return Status::Refused(e),
    };
    let policies = match policies_of(alloc, question.policies) {
        Ok(policies) => policies,
        Err(e) => return Status::Refused(e),
    };
    let Ok(own) = Vec::from_slice(alloc, own) else {
        return Status::Refused(ErrorKind::Memory);
    };
    let named = Named { policies, own };
    let Ok((lists, count)) = lists_of(alloc, &named, asked.purposes) else {
        return Status::Refused(ErrorKind::Memory);
    };
    let (set, purposes) = lists.as_slice().split_at(count);
    let settings = PathSettings {
        moment: asked.moment,
        name_constraints,
        user_initial_policy_set: Some(set),
        initial_policy_mapping_inhibit: asked.inhibit_policy_mapping,
        initial_explicit_policy: asked.explicit_policy,
        initial_any_policy_inhibit: asked.inhibit_any_policy,
        purposes: unless_empty(purposes),
        is_chained: !asked.is_unchained,
        key_usage: asked.key_usage,
        allows_version_1: asked.allows_version_1,
        constrain_common_names: asked.constrain_common_names,
    };
    tell(
        alloc,
        trusted,
        path.as_slice(),
        &settings,
        room,
        answer,
        certificates,
    )
}

/// Validates a path of certificates apart from the signatures, of which any bits are accepted as one (RFC 5280 6.1), under
/// what an anchor's certificate gives that is trusted (RFC 5937 2), as [`Trusted::from_certificate`] says. Of a valid path what each
/// certificate says is filled into `certificates`, where all fit.
///
/// # Errors
///
/// `Value` where the settings are none, or have another flag, bit or purpose, where the time is after the year 9999, or where name constraints of the question or of
/// the anchor can't be used; `Failed` where the lengths don't add up, the subject of the anchor is empty, or an extension of it is
/// repeated; the errors of decoding the anchor's certificate, its extensions that are followed, the name constraints and the
/// policies; where several of these are bad, any of them, but those of [`Trusted::from_certificate`] in their order. Else [`Status::Absent`] where there is no certificate, and [`Status::Faulty`] where one has a
/// fault, the first of which is filled in; `Overlength` where the path is valid, and the encoding of its policies would be too
/// long. `Memory` when out of memory. `answer` is unchanged except on [`Status::Faulty`], `room` and `certificates` on each.
#[tactic(auto, unfolding(crate::specs::PathValidation::ValidatesUnderCertificate))]
pub fn path_validate(
    alloc: Global,
    anchor: &[u8],
    question: &PathQuestion<'_>,
    room: &mut [u8],
    answer: &mut PathAnswer,
    certificates: &mut [PathCertificate],
) -> Status
    ensures { ValidatesUnderCertificate ⟦<Certificate as Grammar>⟧.refuses ⟦<NameConstraints as Grammar>⟧.refuses ⟦<CertificatePolicies as Grammar>⟧.refuses
        anchor.now question.now (record { room = room.old; answer = answer.old; certificates = certificates.old }) (record { room = room.new; answer = answer.new; certificates = certificates.new }) result }
{
    let certificate = match CertificateRef::<Rfc5280>::from_der(anchor) {
        Ok(certificate) => certificate,
        Err(e) => return e.into(),
    };
    match Trusted::from_certificate(alloc, &certificate) {
        Ok(trusted) => validate_under(alloc, &trusted, question, room, answer, certificates),
        Err(e) => e.into(),
    }
}

/// Validates a path as [`path_validate`] does, under a name and a public key that are trusted, each as its encoding.
///
/// # Errors
///
/// Those of [`path_validate`], and in place of those of the anchor's certificate `Overlength` or `Malformed` where the bytes of
/// the name or of the key are too long or are none.
#[tactic(auto, unfolding(crate::specs::PathValidation::ValidatesUnderKey))]
pub fn path_validate_under_key(
    alloc: Global,
    name: &[u8],
    key: &[u8],
    question: &PathQuestion<'_>,
    room: &mut [u8],
    answer: &mut PathAnswer,
    certificates: &mut [PathCertificate],
) -> Status
    ensures { ValidatesUnderKey ⟦<Name as Grammar>⟧.refuses ⟦<SubjectPublicKeyInfo as Grammar>⟧.refuses ⟦<NameConstraints as Grammar>⟧.refuses
        ⟦<CertificatePolicies as Grammar>⟧.refuses name.now key.now question.now (record { room = room.old; answer = answer.old; certificates = certificates.old })
        (record { room = room.new; answer = answer.new; certificates = certificates.new }) result }
{
    if let Err(e) = Name::check(name) {
        return e.into();
    }
    if let Err(e) = SubjectPublicKeyInfo::check(key) {
        return e.into();
    }
    let trusted = Trusted::new(AnchorRef { name, key });
    validate_under(alloc, &trusted, question, room, answer, certificates)
}

/// Validates a path as [`path_validate`] does, under what a trust anchor gives that is trusted (RFC 5914, RFC 5937 2), as [`TrustedBuf::from_trust_anchor`] says, of the
/// encoding of a `TrustAnchorChoice`.
///
/// # Errors
///
/// Those of [`path_validate`], and in place of those of the anchor's certificate those of [`TrustedBuf::from_der`].
#[tactic(auto, unfolding(crate::specs::PathValidation::ValidatesUnderAnchor))]
pub fn path_validate_under_anchor(
    alloc: Global,
    anchor: &[u8],
    question: &PathQuestion<'_>,
    room: &mut [u8],
    answer: &mut PathAnswer,
    certificates: &mut [PathCertificate],
) -> Status
    ensures { ValidatesUnderAnchor ⟦<NameConstraints as Grammar>⟧.refuses ⟦<CertificatePolicies as Grammar>⟧.refuses anchor.now question.now
        (record { room = room.old; answer = answer.old; certificates = certificates.old }) (record { room = room.new; answer = answer.new; certificates = certificates.new }) result }
{
    match TrustedBuf::from_der(alloc, anchor) {
        Ok(trusted) => validate_under(
            alloc,
            &trusted.as_trusted(),
            question,
            room,
            answer,
            certificates,
        ),
        Err(e) => e.into(),
    }
}
