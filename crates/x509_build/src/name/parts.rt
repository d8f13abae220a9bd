//! RDNs of attributes, and names of RDNs.

ghost use Rattle.std.specs.List.Sorted.{IsPermutation, IsStrictlySortedBy};
ghost use Rattle.std.specs.Prelude.{◌≡◌, ◌↔◌, ◌⊎◌, [], Contains, IsTrue, IfOk, IfErr};
ghost use Rattle.x509_der.specs.Set.{AreDistinct};
ghost use Rattle.x509_der.specs.declared.error.ErrorKind.TheVariants as errors;
ghost use Rattle.x509_name.specs.TypeAndValue.{type_and_value_cmp};

use x509_der::{Error, ErrorKind};
use x509_name::attr::AttributeTypeAndValue;
use x509_name::name::{Name, RdnSequence, RelativeDistinguishedName};

/// The RDN of these attributes, in whatever order they come: the set of them, in the byte order of their encodings
/// (RFC 5280 4.1.2.4). It takes no memory.
///
/// # Errors
///
/// `Value` exactly where there are none; else `SetDuplicate` exactly where two of them are equal.
pub fn relative_name_of(
    attributes: Vec<AttributeTypeAndValue>,
) -> Result<RelativeDistinguishedName, Error>
    ensures ok { IfOk result (λ rdn. IsPermutation attributes.items rdn × IsStrictlySortedBy type_and_value_cmp rdn × (attributes.items ≡ [] → ⊥)
        × AreDistinct attributes.items) }
    ensures err { IfErr result (λ e. ((e.kind ≡ errors.Value) × (attributes.items ≡ []))
        ⊎ ((e.kind ≡ errors.SetDuplicate) × (¬ AreDistinct attributes.items))) }
{
    if attributes.is_empty() {
        return Err(ErrorKind::Value.into());
    }
    RelativeDistinguishedName::try_from_vec(attributes)
}

/// Whether one of the RDNs has no attribute.
fn is_any_empty(rdns: &[RelativeDistinguishedName]) -> bool
    ensures { IsTrue result ↔ Contains rdns.now [] }
{
    rdns.iter().any(|rdn| rdn.is_empty())
}

/// The name of these RDNs, the most general first; of none, the empty name. It takes no memory.
///
/// # Errors
///
/// `Value` exactly where one of them has no attribute.
pub fn name_of(rdns: Vec<RelativeDistinguishedName>) -> Result<Name, Error>
    ensures ok { IfOk result (λ name. (name ≡ rdns.items) × (¬ Contains rdns.items [])) }
    ensures err { IfErr result (λ e. (e.kind ≡ errors.Value) × Contains rdns.items []) }
{
    if is_any_empty(rdns.as_slice()) {
        return Err(ErrorKind::Value.into());
    }
    Ok(Name::hazmat_from_rdn_sequence(RdnSequence::from(rdns)))
}
