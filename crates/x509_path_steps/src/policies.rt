//! What certificates say of policies, lent from their bytes, and the policies along a path.

ghost use Rattle.std.specs.Option.{option_map};
ghost use Rattle.std.specs.Prelude.{◌≡◌, ◌+◌, ◌↔◌, ◌<◌, ◌∷◌, ◌++◌, [], ℕ, IfOk, IsTrue, List, MatchResult, Option, Some, false, suc, length, map};
ghost use Rattle.x509_der.specs.Form.{Spells};
ghost use Rattle.x509_ext.specs.CertificatePolicies.{certificate_policies};
ghost use Rattle.x509_ext.specs.Identifiers.{id_ce};
ghost use Rattle.x509_ext.specs.PolicyMapping.{policy_mappings};
ghost use Rattle.x509_ext.specs.declared.pkix.certificate_policies.CertificatePolicies as found_policies;
ghost use Rattle.x509_ext.specs.declared.pkix.policy_mapping.PolicyMappings as found_mappings;
ghost use Rattle.x509_match.specs.Matching.{NamesMatch};
ghost use Rattle.x509_path.specs.Certificates as certificates;
ghost use Rattle.x509_path.specs.Lent.{lent_extensions};
ghost use Rattle.x509_path_steps.specs.Inputs.{LendsPolicies, asked_of, user_set};
ghost use Rattle.x509_path_steps.specs.Says.{IsFound, Says, any_policy_inhibit_of, explicit_policy_of, identifiers, mapping_inhibit_of, mappings_of};
ghost use Rattle.x509_path_steps.specs.Steps as reasons_for;
ghost use Rattle.x509_path_steps.specs.Steps.{NoneUnreadable, StopsAt, chosen, said_by};
ghost use Rattle.x509_path_steps.specs.declared.validation_fault.ValidationFault.TheVariants as faults;
ghost use Rattle.x509_policy.specs.Anchors.{IsMerged, with_flags};
ghost use Rattle.x509_policy.specs.Follows.{Follows, IsOutcome, reason_of};
ghost use Rattle.x509_policy.specs.Levels.{In};
ghost use Rattle.x509_policy.specs.Path.{Valid};
ghost use Rattle.x509_policy.specs.Values as policies;
ghost use Rattle.x509_policy.specs.Values.{any_policy};
ghost use Rattle.x509_policy.specs.Views.{certificate_of, mapping_of, octets_of, settings_of};

use crate::oids::{content_of, first_oids, oid_pairs};
use crate::settings::PathSettings;
use crate::trusted::Trusted;
use crate::validation_fault::{ValidationFault, ValidationReason};
use std::alloc::{AllocError, Global};
use x509_check::ExtensionRef;
use x509_der::AssociatedOid;
use x509_ext::pkix::{CertificatePolicies, InhibitAnyPolicy, PolicyConstraints, PolicyMappings};
use x509_path::extensions::{find_one, payload};
use x509_policy::{
    ANY_POLICY, MappingView, PolicyOutcome, PolicyReason, PolicySettings, PolicyState, PolicyView,
    merged_policies,
};

/// What a certificate says of policies, lent from its bytes.
pub struct Said<'a> {
    /// The policies of its CertificatePolicies.
    policies: Option<Vec<&'a [u8]>>,

    /// The pairs of its PolicyMappings.
    mappings: Vec<MappingView<'a>>,

    /// Its PolicyConstraints.
    constraints: Option<PolicyConstraints>,

    /// Its InhibitAnyPolicy.
    inhibit: Option<InhibitAnyPolicy>,

    /// Whether its subject matches its issuer.
    pub is_self_issued: bool,
}

impl Drop for Said<'_> {
    fn drop(self) {
        let Said {
            policies: _,
            mappings: _,
            constraints: _,
            inhibit: _,
            is_self_issued: _,
        } = self;
    }
}

/// The OIDs of the policies of which these are the octets, without qualifiers.
pub(crate) fn lent_policies<'a>(
    alloc: Global,
    octets: &'a [u8],
) -> Result<Vec<&'a [u8]>, AllocError>
    ensures { IfOk result (λ found. (value : found_policies.CertificatePolicies) → Spells certificate_policies value octets.now
        → octets_of found.items ≡ identifiers value) }
{
    first_oids(alloc, content_of(octets))
}

/// The pairs of which these are the octets.
fn lent_mappings<'a>(alloc: Global, octets: &'a [u8]) -> Result<Vec<MappingView<'a>>, AllocError>
    ensures { IfOk result (λ found. (value : found_mappings.PolicyMappings) → Spells policy_mappings value octets.now
        → map mapping_of found.items ≡ mappings_of (Some value)) }
{
    oid_pairs(alloc, content_of(octets))
}

/// The policies of the one CertificatePolicies, where there is one. No extension is one that can't be decoded.
fn policies_in<'a>(
    alloc: Global,
    extensions: &[ExtensionRef<'a>],
) -> Result<Option<Vec<&'a [u8]>>, AllocError>
    ensures { IfOk result (λ found. NoneUnreadable (lent_extensions extensions.now) → (value : Option found_policies.CertificatePolicies)
        × IsFound certificate_policies (id_ce 32) (lent_extensions extensions.now) value
        × (option_map (λ v. octets_of v.items) found ≡ option_map identifiers value)) }
{
    let Some(octets) = find_one(extensions, CertificatePolicies::OID) else {
        return Ok(None);
    };
    let found = lent_policies(alloc, octets)?;
    Ok(Some(found))
}

/// The pairs of the one PolicyMappings, none where there isn't one. No extension is one that can't be decoded.
fn mappings_in<'a>(
    alloc: Global,
    extensions: &[ExtensionRef<'a>],
) -> Result<Vec<MappingView<'a>>, AllocError>
    ensures { IfOk result (λ found. NoneUnreadable (lent_extensions extensions.now) → (value : Option found_mappings.PolicyMappings)
        × IsFound policy_mappings (id_ce 33) (lent_extensions extensions.now) value × (map mapping_of found.items ≡ mappings_of value)) }
{
    match find_one(extensions, PolicyMappings::OID) {
        Some(octets) => lent_mappings(alloc, octets),
        None => Ok(Vec::new(alloc)),
    }
}

/// What the certificate says of policies. None of its extensions is one that can't be decoded.
///
/// # Errors
///
/// Out of memory.
pub fn said_of<'a>(
    alloc: Global,
    is_self_issued: bool,
    extensions: &[ExtensionRef<'a>],
) -> Result<Said<'a>, AllocError>
    ensures { IfOk result (λ said. (c : certificates.Certificate) → IsTrue is_self_issued ↔ certificates.IsSelfIssued NamesMatch c
        → lent_extensions extensions.now ≡ certificates.extensions_of c → NoneUnreadable (certificates.extensions_of c) → Says c (said_by said)) }
{
    let policies = policies_in(alloc, extensions)?;
    let mappings = mappings_in(alloc, extensions)?;
    let constraints = payload::<PolicyConstraints>(alloc, extensions);
    let inhibit = payload::<InhibitAnyPolicy>(alloc, extensions);
    Ok(Said {
        policies,
        mappings,
        constraints,
        inhibit,
        is_self_issued,
    })
}

/// The requireExplicitPolicy.
pub(crate) fn explicit_policy(constraints: Option<PolicyConstraints>) -> Option<u32>
    ensures { result ≡ explicit_policy_of constraints }
{
    match constraints {
        Some(constraints) => constraints.require_explicit_policy,
        None => None,
    }
}

/// The inhibitPolicyMapping.
pub(crate) fn mapping_inhibit(constraints: Option<PolicyConstraints>) -> Option<u32>
    ensures { result ≡ mapping_inhibit_of constraints }
{
    match constraints {
        Some(constraints) => constraints.inhibit_policy_mapping,
        None => None,
    }
}

/// The number of the InhibitAnyPolicy.
fn any_policy_inhibit(inhibit: Option<InhibitAnyPolicy>) -> Option<u32>
    ensures { result ≡ any_policy_inhibit_of inhibit }
{
    match inhibit {
        Some(inhibit) => Some(inhibit.0),
        None => None,
    }
}

impl<'a> Said<'a> {
    ghost use Rattle.std.specs.Prelude.{◌≡◌};
    ghost use Rattle.x509_path_steps.specs.Steps.{said_by};
    ghost use Rattle.x509_policy.specs.Views.{certificate_of};

    /// What the certificate says of policies, borrowed, as `x509_policy` takes it.
    fn view(&self) -> PolicyView<'_, 'a>
        ensures { certificate_of result ≡ said_by self.now }
    {
        PolicyView {
            policies: self.policies.as_deref(),
            mappings: self.mappings.as_slice(),
            require_explicit_policy: explicit_policy(self.constraints),
            inhibit_policy_mapping: mapping_inhibit(self.constraints),
            inhibit_any_policy: any_policy_inhibit(self.inhibit),
            is_self_issued: self.is_self_issued,
        }
    }
}

/// Any-policy, as the only one of a set.
pub fn any_policy_alone<'a>() -> [&'a [u8]; 1]
    ensures { octets_of result ≡ any_policy ∷ [] }
{
    [ANY_POLICY.as_slice()]
}

/// The policies that the caller accepts; `any` has any-policy.
pub fn user_policies<'s, 'a>(settings: &PathSettings<'a>, any: &'s [&'a [u8]]) -> &'s [&'a [u8]]
where
    'a: 's,
    ensures { octets_of any.now ≡ any_policy ∷ [] → octets_of result.now ≡ user_set settings.now.user_initial_policy_set }
{
    match settings.user_initial_policy_set {
        Some(policies) => policies,
        None => any,
    }
}

/// The policies that the caller and what is trusted accept; `None` where the latter says nothing of them.
///
/// # Errors
///
/// Out of memory.
pub fn merged_with<'a>(
    alloc: Global,
    trusted: &Trusted<'a>,
    user: &[&'a [u8]],
) -> Result<Option<Vec<&'a [u8]>>, AllocError>
    ensures { IfOk result (λ found. (own : Option found_policies.CertificatePolicies) → LendsPolicies trusted.now.policies own → (p : policies.Policy)
        → In p (chosen (octets_of user.now) (option_map (λ v. octets_of v.items) found)) ↔ IsMerged (octets_of user.now) (option_map identifiers own) p) }
{
    let Some(octets) = trusted.policies else {
        return Ok(None);
    };
    let own = lent_policies(alloc, octets)?;
    let found = merged_policies(alloc, user, Some(own.as_slice()))?;
    Ok(Some(found))
}

/// The policies that are accepted from the start.
fn chosen_policies<'s, 'a>(
    user: &'s [&'a [u8]],
    merged: &'s Option<Vec<&'a [u8]>>,
) -> &'s [&'a [u8]]
    ensures { octets_of result.now ≡ chosen (octets_of user.now) (option_map (λ v. octets_of v.items) merged.now) }
{
    match merged {
        Some(merged) => merged.as_slice(),
        None => user,
    }
}

/// The settings at the start, with those policies and the flags of what is trusted (RFC 5937 3.2).
pub fn settings_at_start<'s, 'a>(
    trusted: &Trusted<'a>,
    settings: &PathSettings<'a>,
    user: &'s [&'a [u8]],
    merged: &'s Option<Vec<&'a [u8]>>,
) -> PolicySettings<'s, 'a>
    ensures { settings_of result ≡ with_flags (asked_of settings.now) (chosen (octets_of user.now) (option_map (λ v. octets_of v.items) merged.now))
        trusted.now.policy_flags }
{
    let policies = chosen_policies(user, merged);
    let own = PolicySettings {
        user_initial_policy_set: policies,
        initial_policy_mapping_inhibit: settings.initial_policy_mapping_inhibit,
        initial_explicit_policy: settings.initial_explicit_policy,
        initial_any_policy_inhibit: settings.initial_any_policy_inhibit,
    };
    own.with_anchor(policies, &trusted.policy_flags)
}

/// Under which reason that of policies is told.
fn reason_for(reason: PolicyReason) -> ValidationReason
    ensures { result ≡ reasons_for.reason_for (reason_of reason) }
{
    match reason {
        PolicyReason::Repeated => ValidationReason::RepeatedPolicy,
        PolicyReason::NoPolicy => ValidationReason::Policy,
        PolicyReason::MapsAnyPolicy => ValidationReason::PolicyMapping,
    }
}

/// The fault of a certificate that is refused for its policies.
fn refused(place: usize, reason: PolicyReason) -> ValidationFault
    ensures { result ≡ faults.At place (reasons_for.reason_for (reason_of reason)) }
{
    ValidationFault::At {
        place,
        reason: reason_for(reason),
    }
}

/// Goes on behind a certificate that isn't the last (RFC 5280 6.1.3 (d) to (f), 6.1.4 (a), (b), (h) to (j)); `place` is its place.
///
/// # Errors
///
/// [`ValidationFault::At`] with that place, and `RepeatedPolicy`, `Policy` or `PolicyMapping`, where the path is refused there for its
/// policies. [`ValidationFault::Memory`] when out of memory.
pub fn add_said<'a>(
    alloc: Global,
    state: &mut PolicyState<'_, 'a>,
    said: &Said<'a>,
    place: usize,
) -> Result<(), ValidationFault>
    ensures { (settings : policies.Settings) (n : ℕ) (before : List policies.Certificate) → Follows settings n before state.old → length before + 1 < n
        → MatchResult result (λ _. Follows settings n (before ++ said_by said.now ∷ []) state.new) (λ e. StopsAt settings n before (said_by said.now) place e) }
{
    match state.add(alloc, &said.view()) {
        Ok(None) => Ok(()),
        Ok(Some(reason)) => Err(refused(place, reason)),
        Err(_) => Err(ValidationFault::Memory),
    }
}

/// Ends with the last certificate (RFC 5280 6.1.3 (d) to (f), 6.1.5 (a), (b), (g)); `place` is its place.
///
/// # Errors
///
/// [`ValidationFault::At`] with that place, and `RepeatedPolicy` or `Policy`, where the path is refused there for its policies.
/// [`ValidationFault::Memory`] when out of memory.
pub fn end_said<'a>(
    alloc: Global,
    state: &PolicyState<'_, 'a>,
    said: &Said<'a>,
    place: usize,
) -> Result<Vec<&'a [u8]>, ValidationFault>
    ensures { (settings : policies.Settings) (before : List policies.Certificate) → Follows settings (suc (length before)) before state.now
        → MatchResult result
        (λ found. IsOutcome settings (before ++ said_by said.now ∷ []) (Valid (octets_of found.items)) × (policies.is_repeated (octets_of found.items) ≡ false))
        (λ e. StopsAt settings (suc (length before)) before (said_by said.now) place e) }
{
    match state.finish(alloc, &said.view()) {
        Ok(PolicyOutcome::Valid(policies)) => Ok(policies),
        Ok(PolicyOutcome::Refused { place: _, reason }) => Err(refused(place, reason)),
        Err(_) => Err(ValidationFault::Memory),
    }
}
