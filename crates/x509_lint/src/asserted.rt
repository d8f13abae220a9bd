//! Whether policies that are mapped are asserted (RFC 5280 4.2.1.5).

ghost use Rattle.std.specs.Cmp.Lexicographic.{slice_cmp};
ghost use Rattle.std.specs.List.{list_any};
ghost use Rattle.std.specs.List.Sorted.{IsSorted};
ghost use Rattle.std.specs.Ordering.{nat_cmp};
ghost use Rattle.std.specs.Prelude.{◌≡◌, IfOk, bytes_eq, not};
ghost use Rattle.x509_lint.specs.Values.{has_unasserted, is_unasserted};

use std::alloc::{AllocError, Global};
use x509_ext::pkix::certpolicy::PolicyInformation;
use x509_ext::pkix::{PolicyMapping, PolicyMappings};

/// Whether the OID is among those, which are sorted by their octets. O(log n) comparisons.
fn is_among(identifiers: &[&[u8]], oid: &[u8]) -> bool
    requires { IsSorted (λ o p. slice_cmp nat_cmp o.now p.now) identifiers.now }
    ensures { result ≡ list_any (λ o. bytes_eq o.now oid.now) identifiers.now }
{
    identifiers
        .binary_search_by(|other| (*other).cmp(oid))
        .is_ok()
}

/// Whether the issuerDomainPolicy of a mapping is none of the OIDs, which are sorted by their octets.
fn lack_one(identifiers: &[&[u8]], mut mappings: &[PolicyMapping]) -> bool
    requires { IsSorted (λ o p. slice_cmp nat_cmp o.now p.now) identifiers.now }
    ensures { result ≡ list_any (λ m. not (list_any (λ o. bytes_eq o.now m.issuer_domain_policy) identifiers.now)) mappings.entry.now }
{
    while let [first, rest @ ..] = mappings {
        if !is_among(identifiers, first.issuer_domain_policy.as_bytes()) {
            return true;
        }
        mappings = rest;
    }
    false
}

/// Whether the issuerDomainPolicy of a mapping is none of the policies. O((m + n) log n) comparisons.
fn is_one_unasserted(
    alloc: Global,
    policies: &[PolicyInformation],
    mappings: &[PolicyMapping],
) -> Result<bool, AllocError>
    ensures { IfOk result (λ is_one. is_one ≡ list_any (is_unasserted policies.now) mappings.now) }
{
    let mut identifiers = Vec::with_capacity(alloc, policies.len())?;
    for policy in policies {
        identifiers.push(policy.policy_identifier.as_bytes())?;
    }
    identifiers.sort_unstable();
    Ok(lack_one(identifiers.as_slice(), mappings))
}

/// Whether the mappings are read, and the issuerDomainPolicy of one is none of the policies. O((m + n) log n) comparisons.
pub(crate) fn has_unasserted(
    alloc: Global,
    policies: &[PolicyInformation],
    mappings: &Option<PolicyMappings>,
) -> Result<bool, AllocError>
    ensures { IfOk result (λ is_one. is_one ≡ has_unasserted policies.now mappings.now) }
{
    match mappings {
        Some(mappings) => is_one_unasserted(alloc, policies, mappings.0.as_slice()),
        None => Ok(false),
    }
}
