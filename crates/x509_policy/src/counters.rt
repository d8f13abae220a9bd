//! The counters of RFC 5280 6.1: how many certificates may still stand before policies are asked for, may not be mapped,
//! and any-policy counts for nothing.

ghost use Rattle.std.specs.Prelude.{◌≡◌, ◌<◌, ◌^◌, ℕ};
ghost use Rattle.x509_policy.specs.Path as path;
ghost use Rattle.x509_policy.specs.Views.{certificate_of, counters_of, settings_of};

use crate::values::{PolicySettings, PolicyView};

/// The counters as they stand before a certificate.
#[derive(Clone, Copy)]
pub struct PolicyCounters {
    /// explicit_policy: 0 where the path has to be valid for some policy.
    pub explicit_policy: u64,

    /// policy_mapping: 0 where policies may not be mapped.
    pub policy_mapping: u64,

    /// inhibit_anyPolicy: 0 where any-policy counts for nothing.
    pub inhibit_any_policy: u64,
}

/// What is left of a counter behind a certificate (RFC 5280 6.1.4 (h)).
fn counted(is_self_issued: bool, counter: u64) -> u64
    ensures { result ≡ path.counted is_self_issued counter }
{
    if is_self_issued || counter == 0 {
        counter
    } else {
        counter - 1
    }
}

/// The counter, or what the certificate says, where that is less (RFC 5280 6.1.4 (i), (j)).
fn limited(said: Option<u32>, counter: u64) -> u64
    ensures { result ≡ path.limited said counter }
{
    match said {
        Some(said) if u64::from(said) < counter => u64::from(said),
        _ => counter,
    }
}

impl PolicyCounters {
    /// Those before a path of that many certificates (RFC 5280 6.1.2 (d), (e), (f)).
    pub fn initial(settings: &PolicySettings, certificates: u64) -> PolicyCounters
        requires { certificates < 2 ^ 63 }
        ensures { counters_of result ≡ path.initial_counters (settings_of settings.now) certificates }
    {
        let all = certificates + 1;
        PolicyCounters {
            explicit_policy: if settings.initial_explicit_policy {
                0
            } else {
                all
            },
            policy_mapping: if settings.initial_policy_mapping_inhibit {
                0
            } else {
                all
            },
            inhibit_any_policy: if settings.initial_any_policy_inhibit {
                0
            } else {
                all
            },
        }
    }

    /// Those behind a certificate that isn't the last (RFC 5280 6.1.4 (h), (i), (j)).
    pub fn next(&self, certificate: &PolicyView) -> PolicyCounters
        ensures { counters_of result ≡ path.next_counters (certificate_of certificate.now) (counters_of self.now) }
    {
        let own = certificate.is_self_issued;
        PolicyCounters {
            explicit_policy: limited(
                certificate.require_explicit_policy,
                counted(own, self.explicit_policy),
            ),
            policy_mapping: limited(
                certificate.inhibit_policy_mapping,
                counted(own, self.policy_mapping),
            ),
            inhibit_any_policy: limited(
                certificate.inhibit_any_policy,
                counted(own, self.inhibit_any_policy),
            ),
        }
    }

    /// The explicit_policy behind the last certificate (RFC 5280 6.1.5 (a), (b)).
    pub fn last_explicit_policy(&self, certificate: &PolicyView) -> u64
        ensures { result ≡ path.last_explicit_policy (certificate_of certificate.now) self.now.explicit_policy }
    {
        match certificate.require_explicit_policy {
            Some(0) => 0,
            _ => counted(false, self.explicit_policy),
        }
    }

    /// Whether a certificate's any-policy stands for what is expected of it (RFC 5280 6.1.3 (d) (2)).
    pub fn takes_any_policy(&self, certificate: &PolicyView, is_last: bool) -> bool
        ensures { result ≡ path.takes_others (certificate_of certificate.now) is_last self.now.inhibit_any_policy }
    {
        self.inhibit_any_policy > 0 || (!is_last && certificate.is_self_issued)
    }
}
