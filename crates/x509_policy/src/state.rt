//! The policies of a path, certificate by certificate (RFC 5280 6.1).

ghost use Rattle.std.specs.Prelude.{◌≡◌, ◌≢◌, ◌↔◌, ◌<◌, ◌++◌, ◌∷◌, [], ◌^◌, ℕ, suc, IfOk, IsTrue, List, OnErr, length, map};
ghost use Rattle.std.specs.Option.{option_map};
ghost use Rattle.x509_policy.specs.Edges.{IsLevelOf, certificate_leads};
ghost use Rattle.x509_policy.specs.Follows.{EachOnce, Follows, IsAnswered, IsOutcome, expectations_of, outcome_of, reason_of};
ghost use Rattle.x509_policy.specs.Path.{has_repeated, takes_others};
ghost use Rattle.x509_policy.specs.Values.{Certificate, Settings};
ghost use Rattle.x509_policy.specs.Views.{certificate_of, settings_of};

use crate::checks::{ANY_POLICY, maps_any_policy};
use crate::counters::PolicyCounters;
use crate::level::{Expectation, Level, NextLevel};
use crate::set::PolicySet;
use crate::values::{PolicySettings, PolicyView};
use crate::way_back::constrained;
use std::alloc::{AllocError, Global};

/// What is wrong with the policies of a certificate.
#[derive(Clone, Copy, Debug, PartialEq, Eq)]
pub enum PolicyReason {
    /// A policy is twice in the certificate (RFC 5280 4.2.1.4).
    Repeated,
    /// Any-policy is mapped, or something is mapped to it (RFC 5280 6.1.4 (a)).
    MapsAnyPolicy,
    /// No policy is left, and one is asked for (RFC 5280 6.1.3 (f), 6.1.5 (g)).
    NoPolicy,
}

/// What is answered to a path.
#[derive(Debug, Drop)]
pub enum PolicyOutcome<'a> {
    /// The certificate at that place, from 0 on, is refused.
    Refused {
        /// The number of certificates before it.
        place: usize,
        /// What is wrong.
        reason: PolicyReason,
    },
    /// The path is valid under these policies, the user-constrained policy set (RFC 5280 6.1.5 (g)), each of them once. Any-policy
    /// is one of them.
    Valid(Vec<&'a [u8]>),
}

/// The policies of a path behind some of its certificates.
pub struct PolicyState<'s, 'a> {
    settings: PolicySettings<'s, 'a>,
    counters: PolicyCounters,
    levels: Vec<Level<'a>>,
}

impl Drop for PolicyState<'_, '_> {
    fn drop(self) {
        let PolicyState {
            settings: _,
            counters: _,
            levels: _,
        } = self;
    }
}

/// Whether a policy is twice in the certificate.
fn is_repeated(alloc: Global, certificate: &PolicyView<'_, '_>) -> Result<bool, AllocError>
    ensures { IfOk result (λ again. again ≡ has_repeated (certificate_of certificate.now).policies) }
{
    match certificate.policies {
        Some(policies) => {
            let set = PolicySet::new(Vec::from_slice(alloc, policies)?);
            Ok(set.len() < policies.len())
        }
        None => Ok(false),
    }
}

/// Whether something is asked for, and there is nothing.
fn is_missing<T>(counter: u64, found: &[T]) -> bool
    ensures { IsTrue result ↔ ((counter ≡ 0) × (found.now ≡ [])) }
{
    counter == 0 && found.is_empty()
}

impl<'s, 'a> PolicyState<'s, 'a> {
    /// The state before the first of so many certificates. It takes no memory.
    pub fn new(
        alloc: Global,
        settings: &PolicySettings<'s, 'a>,
        certificates: usize,
    ) -> PolicyState<'s, 'a>
        requires { certificates < 2 ^ 63 }
        ensures { Follows (settings_of settings.now) certificates [] result }
    {
        PolicyState {
            settings: *settings,
            counters: PolicyCounters::initial(settings, certificates as u64),
            levels: Vec::new(alloc),
        }
    }

    /// The level of the next certificate (RFC 5280 6.1.3 (d), (e)).
    fn next(
        &self,
        alloc: Global,
        certificate: &PolicyView<'_, 'a>,
        is_last: bool,
    ) -> Result<NextLevel<'a>, AllocError>
        ensures { IfOk result (IsLevelOf (certificate_leads (certificate_of certificate.now).policies
            (takes_others (certificate_of certificate.now) is_last self.now.counters.inhibit_any_policy) (expectations_of self.now.levels.items))) }
    {
        let takes_any = self.counters.takes_any_policy(certificate, is_last);
        match self.levels.last() {
            Some(level) => {
                NextLevel::of_certificate(alloc, certificate, takes_any, &level.expectations)
            }
            None => {
                let any = ANY_POLICY.as_slice();
                let root = [Expectation {
                    expected: any,
                    valid: any,
                }];
                NextLevel::of_certificate(alloc, certificate, takes_any, &root)
            }
        }
    }

    /// Goes on behind a certificate that isn't the last, unless something is wrong there, which is the answer; then the state is as
    /// before.
    ///
    /// # Errors
    ///
    /// When out of memory; then, too, the state is as before.
    pub fn add(
        &mut self,
        alloc: Global,
        certificate: &PolicyView<'_, 'a>,
    ) -> Result<Option<PolicyReason>, AllocError>
        ensures answer { (settings : Settings) (n : ℕ) (before : List Certificate) → Follows settings n before self.old
            → IfOk result (λ refusal. IsAnswered settings n before (certificate_of certificate.now) (option_map reason_of refusal) self.new) }
        ensures refused { IfOk result (λ refusal. (refusal ≢ None) → self.new ≡ self.old) }
        ensures kept { (settings : Settings) (n : ℕ) (before : List Certificate)
            → Follows settings n before self.old → OnErr result (Follows settings n before self.new) }
    {
        let again = is_repeated(alloc, certificate)?;
        if again {
            return Ok(Some(PolicyReason::Repeated));
        }
        let next = self.next(alloc, certificate, false)?;
        if is_missing(self.counters.explicit_policy, next.leads.as_slice()) {
            return Ok(Some(PolicyReason::NoPolicy));
        }
        if maps_any_policy(certificate.mappings) {
            return Ok(Some(PolicyReason::MapsAnyPolicy));
        }
        let is_inhibited = self.counters.policy_mapping == 0;
        let level = Level::prepared(alloc, next, certificate.mappings, is_inhibited)?;
        self.levels.push(level)?;
        self.counters = self.counters.next(certificate);
        Ok(None)
    }

    /// Ends with the last certificate of a path (RFC 5280 6.1.5).
    ///
    /// # Errors
    ///
    /// When out of memory.
    pub fn finish(
        &self,
        alloc: Global,
        certificate: &PolicyView<'_, 'a>,
    ) -> Result<PolicyOutcome<'a>, AllocError>
        ensures answer { (settings : Settings) (before : List Certificate) → Follows settings (suc (length before)) before self.now
            → IfOk result (λ out. IsOutcome settings (before ++ certificate_of certificate.now ∷ []) (outcome_of out)) }
        ensures once { IfOk result EachOnce }
    {
        let place = self.levels.len();
        let again = is_repeated(alloc, certificate)?;
        if again {
            let reason = PolicyReason::Repeated;
            return Ok(PolicyOutcome::Refused { place, reason });
        }
        let reason = PolicyReason::NoPolicy;
        let next = self.next(alloc, certificate, true)?;
        if is_missing(self.counters.explicit_policy, next.leads.as_slice()) {
            return Ok(PolicyOutcome::Refused { place, reason });
        }
        let user = self.settings.user_initial_policy_set;
        let policies = constrained(alloc, user, &self.levels, &next)?;
        let counter = self.counters.last_explicit_policy(certificate);
        if is_missing(counter, policies.as_slice()) {
            return Ok(PolicyOutcome::Refused { place, reason });
        }
        Ok(PolicyOutcome::Valid(policies.into_vec()))
    }
}

/// What is answered to the path of a first certificate and these behind it.
///
/// # Errors
///
/// When out of memory.
pub fn check_policies<'a>(
    alloc: Global,
    settings: &PolicySettings<'_, 'a>,
    path: &[PolicyView<'_, 'a>],
    last: &PolicyView<'_, 'a>,
) -> Result<PolicyOutcome<'a>, AllocError>
    ensures answer { IfOk result (λ out. IsOutcome (settings_of settings.now) (map certificate_of path.now ++ certificate_of last.now ∷ []) (outcome_of out)) }
    ensures once { IfOk result EachOnce }
{
    let mut state = PolicyState::new(alloc, settings, path.len() + 1);
    for (place, certificate) in path.iter().enumerate() {
        if let Some(reason) = state.add(alloc, certificate)? {
            return Ok(PolicyOutcome::Refused { place, reason });
        }
    }
    state.finish(alloc, last)
}
