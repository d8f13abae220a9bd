//! The levels of a path, one a certificate: which policies of the level above lead to each of its policies, and what each
//! expects (RFC 9618).

ghost use Rattle.std.specs.Prelude.{◌≡◌, ◌++◌, ◌&&◌, IfOk, OnOk, Some, map};
ghost use Rattle.x509_policy.specs.Edges as edges;
ghost use Rattle.x509_policy.specs.Edges.{expectation_of, lead_of, leads_of};
ghost use Rattle.x509_policy.specs.Values.{any_policy, has};
ghost use Rattle.x509_policy.specs.Views.{certificate_of, mapping_of, octets_of};

use crate::checks::{ANY_POLICY, is_any_policy};
use crate::set::PolicySet;
use crate::values::{MappingView, PolicyView};
use std::alloc::{AllocError, Global};

/// A policy of a level, and one of the level above that leads to it.
#[derive(Clone, Copy)]
pub(crate) struct Lead<'a> {
    pub(crate) parent: &'a [u8],
    pub(crate) valid: &'a [u8],
}

/// A policy of a level, and one that it expects on the level below.
#[derive(Clone, Copy)]
pub(crate) struct Expectation<'a> {
    pub(crate) expected: &'a [u8],
    pub(crate) valid: &'a [u8],
}

/// A level as RFC 5280 6.1.3 (d) makes it, where each policy expects itself.
#[derive(Drop)]
pub(crate) struct NextLevel<'a> {
    pub(crate) leads: Vec<Lead<'a>>,
    pub(crate) policies: PolicySet<'a>,
}

/// A level as RFC 5280 6.1.4 (b) leaves it.
#[derive(Drop)]
pub(crate) struct Level<'a> {
    pub(crate) leads: Vec<Lead<'a>>,
    pub(crate) expectations: Vec<Expectation<'a>>,
}

/// What is expected.
fn all_expected<'a>(
    alloc: Global,
    expectations: &[Expectation<'a>],
) -> Result<Vec<&'a [u8]>, AllocError>
    ensures { IfOk result (λ found. octets_of found.items ≡ map (λ e. e.0) (map expectation_of expectations.now)) }
{
    let mut found = Vec::new(alloc);
    for expectation in expectations {
        found.push(expectation.expected)?;
    }
    Ok(found)
}

/// The policies that are led to.
fn all_valid<'a>(alloc: Global, leads: &[Lead<'a>]) -> Result<Vec<&'a [u8]>, AllocError>
    ensures { IfOk result (λ found. octets_of found.items ≡ edges.ends (leads_of leads.now)) }
{
    let mut found = Vec::new(alloc);
    for lead in leads {
        found.push(lead.valid)?;
    }
    Ok(found)
}

/// The policies of the issuer's domain.
fn all_issuers<'a>(alloc: Global, mappings: &[MappingView<'a>]) -> Result<Vec<&'a [u8]>, AllocError>
    ensures { IfOk result (λ found. octets_of found.items ≡ map (λ m. m.issuer_domain_policy) (map mapping_of mappings.now)) }
{
    let mut found = Vec::new(alloc);
    for mapping in mappings {
        found.push(mapping.issuer_domain_policy)?;
    }
    Ok(found)
}

/// Whether any-policy is among these and is taken.
fn takes_all(policies: &PolicySet<'_>, takes_any: bool) -> bool
    ensures { result ≡ (takes_any && has policies.now any_policy) }
{
    takes_any && policies.contains(ANY_POLICY.as_slice())
}

/// Pushes a lead from each policy that expects one of these, or anything where `all` is set (RFC 5280 6.1.3 (d) (1) (i),
/// (d) (2)).
fn push_followers<'a>(
    leads: &mut Vec<Lead<'a>>,
    policies: &PolicySet<'_>,
    all: bool,
    above: &[Expectation<'a>],
) -> Result<(), AllocError>
    ensures { OnOk result (leads_of leads.new.items ≡ leads_of leads.old.items ++ edges.followers (has policies.now) all (map expectation_of above.now)) }
{
    for expectation in above {
        let expected = expectation.expected;
        if all || (!is_any_policy(expected) && policies.contains(expected)) {
            leads.push(Lead {
                parent: expectation.valid,
                valid: expected,
            })?;
        }
    }
    Ok(())
}

/// Pushes a lead from any-policy, where it is among those that are there, to each of these that isn't among them
/// (RFC 5280 6.1.3 (d) (1) (ii), 6.1.4 (b) (1)).
fn push_below_any<'a>(
    leads: &mut Vec<Lead<'a>>,
    policies: &[&'a [u8]],
    there: &PolicySet<'_>,
) -> Result<(), AllocError>
    ensures { OnOk result (leads_of leads.new.items ≡ leads_of leads.old.items ++ edges.below_any (octets_of policies.now) (has there.now)) }
{
    if !there.contains(ANY_POLICY.as_slice()) {
        return Ok(());
    }
    for policy in policies {
        if !is_any_policy(policy) && !there.contains(policy) {
            leads.push(Lead {
                parent: ANY_POLICY.as_slice(),
                valid: policy,
            })?;
        }
    }
    Ok(())
}

/// The leads of a certificate with these policies, which are those of `named` too, below what is expected (RFC 5280 6.1.3 (d)).
fn next_leads<'a>(
    alloc: Global,
    policies: &[&'a [u8]],
    named: &PolicySet<'_>,
    takes_any: bool,
    above: &[Expectation<'a>],
) -> Result<Vec<Lead<'a>>, AllocError>
    ensures { IfOk result (λ leads. leads_of leads.items ≡ edges.next_leads (octets_of policies.now) (has named.now) takes_any (map expectation_of above.now)) }
{
    let expected = PolicySet::new(all_expected(alloc, above)?);
    let mut leads = Vec::new(alloc);
    push_followers(&mut leads, named, takes_all(named, takes_any), above)?;
    push_below_any(&mut leads, policies, &expected)?;
    Ok(leads)
}

impl<'a> NextLevel<'a> {
    /// The level with these leads.
    fn new(alloc: Global, leads: Vec<Lead<'a>>) -> Result<NextLevel<'a>, AllocError>
        ensures { IfOk result (edges.IsLevelOf (leads_of leads.entry.items)) }
    {
        let policies = PolicySet::new(all_valid(alloc, &leads)?);
        Ok(NextLevel { leads, policies })
    }

    /// The level of a certificate with these policies, below what is expected.
    fn of(
        alloc: Global,
        policies: &[&'a [u8]],
        takes_any: bool,
        above: &[Expectation<'a>],
    ) -> Result<NextLevel<'a>, AllocError>
        ensures { IfOk result (edges.IsLevelOf (edges.certificate_leads (Some (octets_of policies.now)) takes_any (map expectation_of above.now))) }
    {
        let named = PolicySet::new(Vec::from_slice(alloc, policies)?);
        let leads = next_leads(alloc, policies, &named, takes_any, above)?;
        NextLevel::new(alloc, leads)
    }

    /// The level of a certificate, below what is expected (RFC 5280 6.1.3 (d), (e)).
    pub(crate) fn of_certificate(
        alloc: Global,
        certificate: &PolicyView<'_, 'a>,
        takes_any: bool,
        above: &[Expectation<'a>],
    ) -> Result<NextLevel<'a>, AllocError>
        ensures { IfOk result (edges.IsLevelOf (edges.certificate_leads (certificate_of certificate.now).policies takes_any (map expectation_of above.now))) }
    {
        match certificate.policies {
            Some(policies) => NextLevel::of(alloc, policies, takes_any, above),
            None => NextLevel::new(alloc, Vec::new(alloc)),
        }
    }
}

/// The leads to policies that aren't mapped (RFC 5280 6.1.4 (b) (2)).
fn unmapped_leads<'a>(
    alloc: Global,
    leads: &[Lead<'a>],
    issuers: &PolicySet<'_>,
) -> Result<Vec<Lead<'a>>, AllocError>
    ensures { IfOk result (λ left. leads_of left.items ≡ edges.unmapped_leads (has issuers.now) (leads_of leads.now)) }
{
    let mut left = Vec::new(alloc);
    for lead in leads {
        if !issuers.contains(lead.valid) {
            left.push(*lead)?;
        }
    }
    Ok(left)
}

/// Pushes that each of these that isn't mapped expects itself.
fn push_selves<'a>(
    expectations: &mut Vec<Expectation<'a>>,
    policies: &[&'a [u8]],
    issuers: &PolicySet<'_>,
) -> Result<(), AllocError>
    ensures { OnOk result (map expectation_of expectations.new.items
        ≡ map expectation_of expectations.old.items ++ edges.selves (has issuers.now) (octets_of policies.now)) }
{
    for policy in policies {
        if !issuers.contains(policy) {
            expectations.push(Expectation {
                expected: policy,
                valid: policy,
            })?;
        }
    }
    Ok(())
}

/// Pushes what the mapped policies expect: of those that are there, and of all where any-policy is (RFC 5280 6.1.4 (b) (1)).
fn push_mapped<'a>(
    expectations: &mut Vec<Expectation<'a>>,
    mappings: &[MappingView<'a>],
    there: &PolicySet<'_>,
) -> Result<(), AllocError>
    ensures { OnOk result (map expectation_of expectations.new.items
        ≡ map expectation_of expectations.old.items ++ edges.mapped (has there.now) (map mapping_of mappings.now)) }
{
    let all = there.contains(ANY_POLICY.as_slice());
    for mapping in mappings {
        if all || there.contains(mapping.issuer_domain_policy) {
            expectations.push(Expectation {
                expected: mapping.subject_domain_policy,
                valid: mapping.issuer_domain_policy,
            })?;
        }
    }
    Ok(())
}

impl<'a> Level<'a> {
    /// What is left of a level behind a certificate that isn't the last (RFC 5280 6.1.4 (b)).
    pub(crate) fn prepared(
        alloc: Global,
        next: NextLevel<'a>,
        mappings: &[MappingView<'a>],
        is_inhibited: bool,
    ) -> Result<Level<'a>, AllocError>
        ensures { IfOk result (edges.IsPreparedOf (leads_of next.entry.leads.items) next.entry.policies (map mapping_of mappings.now) is_inhibited) }
    {
        let issuers = PolicySet::new(all_issuers(alloc, mappings)?);
        let mut expectations = Vec::new(alloc);
        push_selves(&mut expectations, next.policies.as_slice(), &issuers)?;
        if is_inhibited {
            let leads = unmapped_leads(alloc, &next.leads, &issuers)?;
            return Ok(Level {
                leads,
                expectations,
            });
        }
        let mut leads = next.leads;
        push_below_any(&mut leads, issuers.as_slice(), &next.policies)?;
        push_mapped(&mut expectations, mappings, &next.policies)?;
        Ok(Level {
            leads,
            expectations,
        })
    }
}
