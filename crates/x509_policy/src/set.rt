//! Sets of policies, or of other OIDs, asked whether they have one.

ghost use Rattle.std.specs.Prelude.{◌≡◌, List, false, length, nat_lt};
ghost use Rattle.std.specs.Cmp.Lexicographic.{slice_cmp};
ghost use Rattle.std.specs.List.Sorted.{IsStrictlySortedBy};
ghost use Rattle.std.specs.Ordering.{nat_cmp};
ghost use Rattle.x509_policy.specs.Values.{Policy, has, is_repeated};
ghost use Rattle.x509_policy.specs.Views.{octets_of};

use std::marker::Model;

/// Policies, or other OIDs, each once, in the order of their octets. Contracts see their list.
#[derive(Drop)]
pub struct PolicySet<'a> {
    policies: Vec<&'a [u8]>,
}

impl<'a> Model for PolicySet<'a> {
    ghost Value = { List Policy };

    ghost view = { λ set. octets_of set.policies.items };

    ghost invariant = { λ set. IsStrictlySortedBy (λ p q. slice_cmp nat_cmp p.now q.now) set.policies.items };
}

impl<'a> PolicySet<'a> {
    /// The set of these. It takes no memory.
    pub fn new(policies: Vec<&'a [u8]>) -> PolicySet<'a>
        ensures same { has result ≡ has (octets_of policies.entry.items) }
        ensures once { is_repeated (octets_of policies.entry.items) ≡ nat_lt (length result) (length policies.entry.items) }
    {
        let mut policies = policies;
        policies.sort_unstable();
        policies.dedup();
        PolicySet { policies }
    }

    /// How many policies are in the set.
    pub(crate) fn len(&self) -> usize
        ensures { result ≡ length self.now }
    {
        self.policies.len()
    }

    /// Whether the policy is in the set, in time that grows with the logarithm of how many there are.
    pub fn contains(&self, policy: &[u8]) -> bool
        ensures { result ≡ has self.now policy.now }
    {
        self.policies
            .binary_search_by(|other| (*other).cmp(policy))
            .is_ok()
    }

    /// The policies of the set.
    pub(crate) fn as_slice(&self) -> &[&'a [u8]]
        ensures { octets_of result.now ≡ self.now }
    {
        &self.policies
    }

    /// The policies of the set, each once.
    pub(crate) fn into_vec(self) -> Vec<&'a [u8]>
        ensures same { octets_of result.items ≡ self.entry }
        ensures once { is_repeated (octets_of result.items) ≡ false }
    {
        self.policies
    }
}
