//! Policies, as C hands them over and as it takes them.

ghost use Rattle.std.specs.Prelude.{◌≡◌, ◌<◌, ◌⊎◌, IfOk, MatchResult, length, map};
ghost use Rattle.x509_c_calls.specs.PathValidation.{AreNamed, IsRefusedUnlessEmpty, policies_octets, policy_octets, set_of};
ghost use Rattle.x509_der.specs.Element.{element, limit};
ghost use Rattle.x509_der.specs.Tag.{octet_of};
ghost use Rattle.x509_der.specs.declared.error.ErrorKind.TheVariants.{Memory, Overlength};
ghost use Rattle.x509_ext.specs.CertificatePolicies.{certificate_policies};
ghost use Rattle.x509_policy.specs.Views.{octets_of};

use crate::read;
use std::alloc::{AllocError, Global};
use x509_der::{Any, Error, ErrorKind, Grammar, Tag, to_counted_der};
use x509_ext::pkix::CertificatePolicies;
use x509_ext::pkix::certpolicy::PolicyInformation;

/// The content octets of any-policy (RFC 5280 4.2.1.4).
const ANY_POLICY: [u8; 4] = [0x55, 0x1D, 0x20, 0x00];

/// The policies, if there are any.
pub(crate) fn policies_of(
    alloc: Global,
    octets: &[u8],
) -> Result<Option<CertificatePolicies>, ErrorKind>
    ensures { MatchResult result (λ found. AreNamed octets.now found)
        (λ e. (e ≡ Memory) ⊎ IsRefusedUnlessEmpty certificate_policies ⟦<CertificatePolicies as Grammar>⟧.refuses octets.now e) }
{
    if octets.is_empty() {
        return Ok(None);
    }
    match read(alloc, octets) {
        Ok(policies) => Ok(Some(policies)),
        Err(e) => Err(e),
    }
}

/// The content octets of the OIDs of policies.
fn identifiers_of<'a>(
    alloc: Global,
    policies: &'a [PolicyInformation],
) -> Result<Vec<&'a [u8]>, AllocError>
    ensures { IfOk result (λ found. octets_of found.items ≡ map (λ information. information.policy_identifier) policies.now) }
{
    let mut found = Vec::with_capacity(alloc, policies.len())?;
    for information in policies {
        found.push(information.policy_identifier.as_bytes())?;
    }
    Ok(found)
}

/// The content octets of the OIDs of the policies that are accepted: any-policy where none are named.
pub(crate) fn accepted_set(
    alloc: Global,
    named: &Option<CertificatePolicies>,
) -> Result<Vec<&[u8]>, AllocError>
    ensures { IfOk result (λ found. octets_of found.items ≡ set_of named.now) }
{
    match named {
        Some(policies) => identifiers_of(alloc, policies.0.as_slice()),
        None => {
            let mut any = Vec::new(alloc);
            any.push(ANY_POLICY.as_slice())?;
            Ok(any)
        }
    }
}

/// The element with the content.
fn wrapped(alloc: Global, tag: Tag, content: Vec<u8>) -> Result<Vec<u8>, Error>
    ensures { MatchResult result (λ octets. octets.items ≡ element (octet_of tag) content.items)
        (λ e. (e.kind ≡ Memory) ⊎ ((e.kind ≡ Overlength) × (limit < length (element (octet_of tag) content.items)))) }
{
    to_counted_der(&Any::from_vec(tag, content)?, alloc)
}

/// The encoding of the PolicyInformation of a policy, without qualifiers.
fn encoded_policy(alloc: Global, policy: &[u8]) -> Result<Vec<u8>, Error>
    ensures { MatchResult result (λ octets. octets.items ≡ policy_octets policy.now)
        (λ e. (e.kind ≡ Memory) ⊎ ((e.kind ≡ Overlength) × (limit < length (policy_octets policy.now)))) }
{
    let content = Vec::from_slice(alloc, policy)?;
    match wrapped(alloc, Tag::ObjectIdentifier, content) {
        Ok(oid) => wrapped(alloc, Tag::Sequence, oid),
        Err(e) => Err(e),
    }
}

/// The encoding of the CertificatePolicies of these policies, without qualifiers.
///
/// # Errors
///
/// `Overlength` where it would be too long; `Memory` when out of memory.
pub(crate) fn encoded_policies(alloc: Global, policies: &[&[u8]]) -> Result<Vec<u8>, Error>
    ensures { MatchResult result (λ octets. octets.items ≡ policies_octets (octets_of policies.now))
        (λ e. (e.kind ≡ Memory) ⊎ ((e.kind ≡ Overlength) × (limit < length (policies_octets (octets_of policies.now))))) }
{
    let mut content = Vec::new(alloc);
    for policy in policies {
        let mut information = match encoded_policy(alloc, policy) {
            Ok(information) => information,
            Err(e) => return Err(e),
        };
        content.append(&mut information)?;
    }
    wrapped(alloc, Tag::Sequence, content)
}
