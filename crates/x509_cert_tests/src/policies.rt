//! A path whose valid policy tree has some 2^30 nodes.

use std::alloc::{AllocError, Global};
use std::test::*;
use x509_policy::{MappingView, PolicyOutcome, PolicySettings, PolicyView, check_policies};

/// A hundred policies.
fn octets(alloc: Global) -> Result<Vec<[u8; 2]>, AllocError> {
    let mut policies = Vec::new(alloc);
    for arc in 0..100u8 {
        policies.push([0x2A, arc])?;
    }
    Ok(policies)
}

/// Each policy is mapped to itself and to the one before it.
fn mappings<'a>(alloc: Global, policies: &[&'a [u8]]) -> Result<Vec<MappingView<'a>>, AllocError> {
    let mut mappings = Vec::new(alloc);
    let mut before: &'a [u8] = b"\x2A\x63";
    for policy in policies {
        let issuer_domain_policy = *policy;
        for subject_domain_policy in [*policy, before] {
            mappings.push(MappingView {
                issuer_domain_policy,
                subject_domain_policy,
            })?;
        }
        before = *policy;
    }
    Ok(mappings)
}

/// How many policies a path of thirty certificates is valid under, each with a hundred policies and two hundred mappings.
fn count(alloc: Global) -> Result<usize, AllocError> {
    let octets = octets(alloc)?;
    let mut policies: Vec<&[u8]> = Vec::new(alloc);
    for policy in &octets {
        policies.push(policy.as_slice())?;
    }
    let mappings = mappings(alloc, &policies)?;
    let certificate = PolicyView {
        policies: Some(policies.as_slice()),
        mappings: mappings.as_slice(),
        require_explicit_policy: None,
        inhibit_policy_mapping: None,
        inhibit_any_policy: None,
        is_self_issued: false,
    };
    let settings = PolicySettings {
        user_initial_policy_set: policies.as_slice(),
        initial_policy_mapping_inhibit: false,
        initial_explicit_policy: true,
        initial_any_policy_inhibit: false,
    };
    let mut path = Vec::new(alloc);
    for _ in 0..29 {
        path.push(certificate)?;
    }
    match check_policies(alloc, &settings, &path, &certificate)? {
        PolicyOutcome::Valid(found) => Ok(found.len()),
        PolicyOutcome::Refused { .. } => Ok(0),
    }
}

#[test]
fn thirty_levels(rt: HostRuntime) {
    let counted = matches!(&count(rt.alloc()), Ok(100));
    assert!(rt; counted);
}
