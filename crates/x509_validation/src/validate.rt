//! Validating a path.

ghost use Rattle.std.specs.Prelude.{◌≡◌, ◌++◌, ◌∷◌, ◌+◌, ◌<◌, [], ℕ, List, MatchOption, MatchResult, Ok, Err, false, length, map, suc, true};
ghost use Rattle.x509_der.specs.Any.{any};
ghost use Rattle.x509_path.specs.Certificates.{Certificate};
ghost use Rattle.x509_path.specs.Lent.{Lends, LendsAnchor};
ghost use Rattle.x509_path.specs.Path.{subject_of};
ghost use Rattle.x509_path.specs.declared.anchor.Anchor.{Anchor};
ghost use Rattle.x509_path_steps.specs.Inputs.{AreUnreadable, Inputs, LendsInputs, SpellsOption};
ghost use Rattle.x509_path_steps.specs.Keys.{key_behind, parameters_of};
ghost use Rattle.x509_path_steps.specs.Validation.{Answers, AnswersUnreadable};
ghost use Rattle.x509_policy.specs.Views.{octets_of};
ghost use Rattle.x509_validation.specs.Judging.{Carries, EndsUnder, IsBehind, Judges, Stands, standing};

use crate::validator::{Limits, Stand, Validator};
use std::alloc::Global;
use x509_check::CertificateRef;
use x509_path::extensions::path_len;
use x509_path::lengths::narrow;
use x509_path::trust::{Slices, Trust, Values};
use x509_path::{SliceVerifier, Verifier};
use x509_path_steps::above::Above;
use x509_path_steps::asked::{Asked, purposes_at_start};
use x509_path_steps::initial::{add_own, initial_sets};
use x509_path_steps::policies::{
    add_said, any_policy_alone, end_said, merged_with, settings_at_start, user_policies,
};
use x509_path_steps::readable::are_readable;
use x509_path_steps::{PathSettings, Trusted, Validated, ValidationFault};
use x509_policy::PolicyState;

/// Those above the last, and the last.
fn split_path<'s, 'a>(path: &'s [&'a [u8]]) -> Option<(&'s [&'a [u8]], &'a [u8])>
    ensures { MatchOption result (map (λ input. input.now) path.now ≡ []) (λ parts. map (λ input. input.now) path.now
        ≡ map (λ input. input.now) parts.0.now ++ parts.1.now ∷ []) }
{
    match path {
        [front @ .., last] => Some((front, last)),
        [] => None,
    }
}

/// The certificate of these bytes, which isn't the last, where nothing is wrong with it, and what it says of those below it;
/// `index` is its place.
fn go_on<'a, S: Trust>(
    validator: &Validator<'_, S>,
    stand: &Stand<'_, 'a>,
    state: &mut PolicyState<'_, 'a>,
    bytes: &'a [u8],
    index: usize,
) -> Result<(CertificateRef<'a>, Limits<'a>), ValidationFault>
    ensures { (inputs : Inputs) (above : Anchor) (before : List Certificate) (n : ℕ)
        → Stands inputs above before validator.now.moment stand.now.above stand.now.max_path_length stand.now.sets.now → Carries inputs n before state.old
        → stand.now.is_last ≡ false → length before + 1 < n → MatchResult result
        (λ judged. (c : Certificate) × Lends judged.0.bytes.now c × IsBehind inputs before c judged.1
        × Carries inputs n (before ++ c ∷ []) state.new
        × Judges (S.accepts validator.now.signatures.now) inputs (standing above before false n) bytes.now index (Ok c))
        (λ e. Judges (S.accepts validator.now.signatures.now) inputs (standing above before false n) bytes.now index (Err e)) }
{
    let (certificate, limits) = match validator.judge(stand, bytes, index) {
        Ok(judged) => judged,
        Err(e) => return Err(e),
    };
    match add_said(validator.alloc, state, &limits.policies, index) {
        Ok(()) => Ok((certificate, limits)),
        Err(e) => Err(e),
    }
}

/// What the last certificate gives, of these bytes, where nothing is wrong with it; `index` is its place, `certificates` are those above it.
fn end<'a, S: Trust>(
    validator: &Validator<'_, S>,
    stand: &Stand<'_, 'a>,
    state: &PolicyState<'_, 'a>,
    bytes: &'a [u8],
    index: usize,
    certificates: Vec<CertificateRef<'a>>,
) -> Result<Validated<'a>, ValidationFault>
    ensures { (inputs : Inputs) (above : Anchor) (before : List Certificate)
        → Stands inputs above before validator.now.moment stand.now.above stand.now.max_path_length stand.now.sets.now
        → Carries inputs (suc (length before)) before state.now → stand.now.is_last ≡ true → MatchResult result
        (λ validated. (c : Certificate) × LendsAnchor validated.subject (subject_of c)
        × SpellsOption (λ lent. lent.now) any validated.parameters (parameters_of (key_behind inputs.trust.anchor.key (before ++ c ∷ [])))
        × EndsUnder inputs (before ++ c ∷ []) (octets_of validated.policies.items)
        × (map (λ lent. lent.bytes.now) validated.certificates.items ≡ map (λ lent. lent.bytes.now) certificates.entry.items ++ bytes.now ∷ [])
        × Judges (S.accepts validator.now.signatures.now) inputs (standing above before true (suc (length before))) bytes.now index (Ok c))
        (λ e. Judges (S.accepts validator.now.signatures.now) inputs (standing above before true (suc (length before))) bytes.now index (Err e)) }
{
    let (certificate, limits) = match validator.judge(stand, bytes, index) {
        Ok(judged) => judged,
        Err(e) => return Err(e),
    };
    let below = stand.above.below(&certificate);
    let mut path = certificates;
    match path.push(certificate) {
        Ok(()) => {}
        Err(_) => return Err(ValidationFault::Memory),
    }
    match end_said(validator.alloc, state, &limits.policies, index) {
        Ok(policies) => Ok(Validated {
            subject: below.anchor,
            parameters: below.parameters(),
            policies,
            certificates: path,
        }),
        Err(e) => Err(e),
    }
}

/// Validates the certificates of a path: those above the last, and the last; `policies` is the state before the first.
fn walk_down<'a, S: Trust>(
    validator: &Validator<'_, S>,
    trusted: &Trusted<'a>,
    front: &[&'a [u8]],
    last: &'a [u8],
    settings: &PathSettings<'a>,
    policies: PolicyState<'_, 'a>,
) -> Result<Validated<'a>, ValidationFault>
    requires { validator.now.moment ≡ settings.now.moment }
    ensures { (inputs : Inputs) → LendsInputs trusted.now settings.now inputs → Carries inputs (length front.now + 1) [] policies.entry
        → Answers (S.accepts validator.now.signatures.now) inputs (map (λ input. input.now) front.now ++ last.now ∷ []) result }
{
    let alloc = validator.alloc;
    let names = initial_sets(alloc, trusted, settings)?;
    let purposes = purposes_at_start(alloc, settings)?;
    let mut sets = Asked {
        names,
        purposes,
        uses: settings.uses(),
    };
    let mut state = policies;
    let mut above = Above::new(trusted.anchor);
    let mut max_path_length = trusted.max_path_length;
    let mut certificates = Vec::with_capacity(alloc, front.len() + 1)?;
    for (index, bytes) in front.iter().enumerate() {
        let stand = Stand {
            above,
            max_path_length,
            sets: &sets,
            is_last: false,
        };
        let (certificate, limits) = match go_on(validator, &stand, &mut state, bytes, index) {
            Ok(judged) => judged,
            Err(e) => return Err(e),
        };
        above = above.below(&certificate);
        max_path_length = narrow(
            max_path_length,
            limits.policies.is_self_issued,
            path_len(limits.basic_constraints),
        );
        add_own(alloc, &mut sets.names, &limits.name_constraints)?;
        sets.purposes = limits.purposes;
        match certificates.push(certificate) {
            Ok(()) => {}
            Err(_) => return Err(ValidationFault::Memory),
        }
    }
    let stand = Stand {
        above,
        max_path_length,
        sets: &sets,
        is_last: true,
    };
    match end(validator, &stand, &state, last, front.len(), certificates) {
        Ok(validated) => Ok(validated),
        Err(e) => Err(e),
    }
}

/// Validates the certificates of a path under the policies at the start: those above the last, and the last.
fn walk_under<'a, S: Trust>(
    alloc: Global,
    trusted: &Trusted<'a>,
    front: &[&'a [u8]],
    last: &'a [u8],
    settings: &PathSettings<'a>,
    signatures: &S,
) -> Result<Validated<'a>, ValidationFault>
    ensures { (inputs : Inputs) → LendsInputs trusted.now settings.now inputs
        → Answers (S.accepts signatures.now) inputs (map (λ input. input.now) front.now ++ last.now ∷ []) result }
{
    let any = any_policy_alone();
    let user = user_policies(settings, any.as_slice());
    let merged = merged_with(alloc, trusted, user)?;
    let asked = settings_at_start(trusted, settings, user, &merged);
    let policies = PolicyState::new(alloc, &asked, front.len() + 1);
    let validator = Validator {
        alloc,
        signatures,
        moment: settings.moment,
    };
    walk_down(&validator, trusted, front, last, settings, policies)
}

/// Validates the certificates of a path.
fn walk<'a, S: Trust>(
    alloc: Global,
    trusted: &Trusted<'a>,
    path: &[&'a [u8]],
    settings: &PathSettings<'a>,
    signatures: &S,
) -> Result<Validated<'a>, ValidationFault>
    ensures lent { (inputs : Inputs) → LendsInputs trusted.now settings.now inputs
        → Answers (S.accepts signatures.now) inputs (map (λ input. input.now) path.now) result }
    ensures unreadable { AreUnreadable trusted.now settings.now → AnswersUnreadable (map (λ input. input.now) path.now) result }
{
    let Some((front, last)) = split_path(path) else {
        return Err(ValidationFault::Empty);
    };
    if !are_readable(trusted, settings) {
        return Err(ValidationFault::Initial);
    }
    walk_under(alloc, trusted, front, last, settings, signatures)
}

/// Validates a path of certificates, the topmost first, under what is trusted (RFC 5280 6.1, RFC 5937): the first under its
/// name and key, each other one under the subject and the key of the one before it. It is [`check_path`](x509_path::check_path) with
/// these differences: names are compared as they match (RFC 5280 7.1), name constraints hold, policies are followed, and each
/// extension of a type that is looked at has to be one that can be decoded. It is all of 6.1 but revocation, which isn't
/// checked, and the qualifiers of policies, on which no answer depends. Nor is a certificate looked for that stands in the path
/// twice: that it may not is for who makes a path; here each has to be valid where it stands.
///
/// Each signature is verified over the bytes of the input; nothing is encoded again. Certificates aren't decoded: values are
/// made of what the verifier is handed, of name constraints and of the names that are under them. Memory is taken else only
/// for the policies of what is trusted and of certificates, with an entry for each certificate above the last; for names that
/// differ and have a BMPString, a UTF8String beyond ASCII, or an RDN of more than 16 attributes; and for a certificate of more
/// than 16 extensions. For p policies and mappings of a certificate the time is that of sorting them, O(p log p), in addition
/// to those expected from above.
///
/// # Errors
///
/// [`ValidationFault::Empty`] exactly where there is no certificate; else [`ValidationFault::Initial`] exactly where a part of
/// what is trusted, or of the settings, isn't the encoding that it is said to be, or name constraints of these can't be used;
/// else [`ValidationFault::At`] with the lowest place at which something is wrong, and the first thing that is wrong there, in
/// the order of [`ValidationReason`](crate::ValidationReason). [`ValidationFault::Memory`] may come instead, when out of memory,
/// wherever there is a certificate and all can be read: no clause says which of them take memory.
pub fn validate_path<'a, V: Verifier>(
    alloc: Global,
    trusted: &Trusted<'a>,
    path: &[&'a [u8]],
    settings: &PathSettings<'a>,
    verifier: &V,
) -> Result<Validated<'a>, ValidationFault>
    ensures lent { (inputs : Inputs) → LendsInputs trusted.now settings.now inputs
        → Answers (V.accepts verifier.now) inputs (map (λ input. input.now) path.now) result }
    ensures unreadable { AreUnreadable trusted.now settings.now → AnswersUnreadable (map (λ input. input.now) path.now) result }
{
    let signatures = Values {
        anchor: None,
        verifier,
    };
    walk(alloc, trusted, path, settings, &signatures)
}

/// [`validate_path`] with a verifier that is handed encodings.
///
/// # Errors
///
/// Those of [`validate_path`].
pub fn validate_path_lent<'a, V: SliceVerifier>(
    alloc: Global,
    trusted: &Trusted<'a>,
    path: &[&'a [u8]],
    settings: &PathSettings<'a>,
    verifier: &V,
) -> Result<Validated<'a>, ValidationFault>
    ensures lent { (inputs : Inputs) → LendsInputs trusted.now settings.now inputs
        → Answers (V.accepts verifier.now) inputs (map (λ input. input.now) path.now) result }
    ensures unreadable { AreUnreadable trusted.now settings.now → AnswersUnreadable (map (λ input. input.now) path.now) result }
{
    let signatures = Slices {
        anchor: &trusted.anchor,
        verifier,
    };
    walk(alloc, trusted, path, settings, &signatures)
}
