//! What stands twice: serial numbers of a CRL's entries, policies, and types of an RDN's attributes.

ghost use Rattle.std.specs.List.{All};
ghost use Rattle.std.specs.Prelude.{◌≡◌, ◌↔◌, IfErr, IfOk, IsTrue};
ghost use Rattle.x509_crl_index.specs.Split.{serials};
ghost use Rattle.x509_der.specs.declared.error.ErrorKind.TheVariants.{Memory};
ghost use Rattle.x509_der.specs.Set.{AreDistinct};
ghost use Rattle.x509_lint.specs.Values.{HasDistinctTypes, policies_of, policy_identifiers, rdn_types};

use std::alloc::Global;
use x509_base::{Raw, SerialNumber};
use x509_cert::crl::RevokedCert;
use x509_der::{Error, ObjectIdentifier, SetOfVec, TryClone};
use x509_ext::pkix::CertificatePolicies;
use x509_ext::pkix::certpolicy::PolicyInformation;
use x509_name::attr::AttributeTypeAndValue;
use x509_name::name::{Name, RdnSequence, RelativeDistinguishedName};

fn are_numbers_distinct(numbers: Vec<SerialNumber<Raw>>) -> bool
    ensures { IsTrue result ↔ AreDistinct numbers.items }
{
    match SetOfVec::try_from_vec(numbers) {
        Ok(_) => true,
        Err(_) => false,
    }
}

pub(crate) fn are_oids_distinct(oids: Vec<ObjectIdentifier>) -> bool
    ensures { IsTrue result ↔ AreDistinct oids.items }
{
    match SetOfVec::try_from_vec(oids) {
        Ok(_) => true,
        Err(_) => false,
    }
}

/// Whether no two entries have one serial number. O(n log n) comparisons.
///
/// # Errors
///
/// `Memory` when out of memory, and nothing else: it copies the serial numbers.
pub(crate) fn are_serials_distinct(
    alloc: Global,
    entries: &[RevokedCert<Raw>],
) -> Result<bool, Error>
    ensures ok { IfOk result (λ b. IsTrue b ↔ AreDistinct (serials entries.now)) }
    ensures err { IfErr result (λ e. e.kind ≡ Memory) }
{
    let mut numbers = Vec::with_capacity(alloc, entries.len())?;
    for entry in entries {
        numbers.push(entry.serial_number.try_clone(alloc)?)?;
    }
    Ok(are_numbers_distinct(numbers))
}

/// Whether no policy is there twice. O(n log n) comparisons.
///
/// # Errors
///
/// `Memory` when out of memory, and nothing else: it copies the OIDs.
pub(crate) fn are_identifiers_distinct(
    alloc: Global,
    policies: &[PolicyInformation],
) -> Result<bool, Error>
    ensures ok { IfOk result (λ b. IsTrue b ↔ AreDistinct (policy_identifiers policies.now)) }
    ensures err { IfErr result (λ e. e.kind ≡ Memory) }
{
    let mut identifiers = Vec::with_capacity(alloc, policies.len())?;
    for policy in policies {
        identifiers.push(policy.policy_identifier)?;
    }
    Ok(are_oids_distinct(identifiers))
}

/// The policies; none where they are absent.
pub(crate) fn policies_of(policies: &Option<CertificatePolicies>) -> &[PolicyInformation]
    ensures { result.now ≡ policies_of policies.now }
{
    match policies {
        Some(policies) => policies.0.as_slice(),
        None => &[],
    }
}

/// Whether no policy is there twice. O(n log n) comparisons.
///
/// # Errors
///
/// `Memory` when out of memory, and nothing else: it copies the OIDs.
pub(crate) fn are_policies_distinct(
    alloc: Global,
    policies: &Option<CertificatePolicies>,
) -> Result<bool, Error>
    ensures ok { IfOk result (λ b. IsTrue b ↔ AreDistinct (policy_identifiers (policies_of policies.now))) }
    ensures err { IfErr result (λ e. e.kind ≡ Memory) }
{
    are_identifiers_distinct(alloc, policies_of(policies))
}

/// Whether no two attributes are of one type; of one alone that holds. O(n log n) comparisons.
fn are_rdn_types_distinct(
    alloc: Global,
    attributes: &[AttributeTypeAndValue],
) -> Result<bool, Error>
    ensures ok { IfOk result (λ b. IsTrue b ↔ AreDistinct (rdn_types attributes.now)) }
    ensures err { IfErr result (λ e. e.kind ≡ Memory) }
{
    if attributes.len() < 2 {
        return Ok(true);
    }
    let mut types = Vec::with_capacity(alloc, attributes.len())?;
    for attribute in attributes {
        types.push(attribute.oid)?;
    }
    Ok(are_oids_distinct(types))
}

/// Whether that holds of the RDN.
#[tactic(auto, unfolding(crate::specs::Values::HasDistinctTypes))]
fn has_distinct_types(alloc: Global, rdn: &RelativeDistinguishedName) -> Result<bool, Error>
    ensures ok { IfOk result (λ b. IsTrue b ↔ HasDistinctTypes rdn.now) }
    ensures err { IfErr result (λ e. e.kind ≡ Memory) }
{
    are_rdn_types_distinct(alloc, rdn.as_slice())
}

/// Whether that holds of each RDN.
pub(crate) fn are_rdns_distinct(
    alloc: Global,
    rdns: &[RelativeDistinguishedName],
) -> Result<bool, Error>
    ensures ok { IfOk result (λ b. IsTrue b ↔ All HasDistinctTypes rdns.now) }
    ensures err { IfErr result (λ e. e.kind ≡ Memory) }
{
    for rdn in rdns {
        if !has_distinct_types(alloc, rdn)? {
            return Ok(false);
        }
    }
    Ok(true)
}

/// Whether no RDN of the name has two attributes of one type. O(n log n) comparisons.
///
/// # Errors
///
/// `Memory` when out of memory, and nothing else: it copies the OIDs.
pub(crate) fn is_distinct_name(alloc: Global, name: &Name) -> Result<bool, Error>
    ensures ok { IfOk result (λ b. IsTrue b ↔ All HasDistinctTypes name.now) }
    ensures err { IfErr result (λ e. e.kind ≡ Memory) }
{
    let rdns: &RdnSequence = name.as_ref();
    are_rdns_distinct(alloc, rdns.as_slice())
}
