//! What RDNs and names are compared by: their keys.

ghost use Rattle.std.specs.Prelude.{◌≡◌, IfOk, map};
ghost use Rattle.x509_match.specs.Keys.{attribute_key};
ghost use Rattle.x509_match.specs.NameKeys.{IsRdnKey};

use crate::value::octets_key;
use std::alloc::{AllocError, Global};
use x509_der::{Decode, Error, ErrorKind};
use x509_name::attr::AttributeTypeAndValue;
use x509_name::name::{Name, RelativeDistinguishedName};

/// The octets that the attribute is compared by: two attributes match exactly where these are the same
/// (RFC 5280 7.1). They take memory.
///
/// # Errors
///
/// When out of memory.
pub fn attribute_key(
    alloc: Global,
    attribute: &AttributeTypeAndValue,
) -> Result<Vec<u8>, AllocError>
    ensures { IfOk result (λ key. key.items ≡ attribute_key attribute.now) }
{
    octets_key(
        alloc,
        attribute.oid.as_bytes(),
        attribute.value.tag(),
        attribute.value.value(),
    )
}

/// An RDN as a key: keys are equal exactly where the RDNs match (RFC 5280 7.1), and so are the hashes of equal keys. Keys
/// are ordered by what they hold, the octets of the attributes in ascending order.
#[derive(Debug, Drop, PartialEq, Eq, PartialOrd, Ord, Hash)]
pub struct RdnKey {
    attributes: Vec<Vec<u8>>,
}

impl RdnKey {
    /// The key of the RDN.
    ///
    /// # Errors
    ///
    /// When out of memory.
    pub fn new(alloc: Global, rdn: &RelativeDistinguishedName) -> Result<RdnKey, AllocError>
        ensures { IfOk result (λ key. IsRdnKey key rdn.now) }
    {
        let mut attributes = keys_of(alloc, rdn.as_slice())?;
        attributes.sort()?;
        Ok(RdnKey { attributes })
    }
}

/// The octets that each attribute is compared by.
fn keys_of(alloc: Global, attributes: &[AttributeTypeAndValue]) -> Result<Vec<Vec<u8>>, AllocError>
    ensures { IfOk result (λ keys. map (λ key. key.items) keys.items ≡ map attribute_key attributes.now) }
{
    let mut keys = Vec::new(alloc);
    for attribute in attributes {
        let key = attribute_key(alloc, attribute)?;
        keys.push(key)?;
    }
    Ok(keys)
}

/// A name as a key: keys are equal exactly where the names match (RFC 5280 7.1), and so are the hashes of equal keys.
/// Keys are ordered by those of the RDNs, from the first on.
#[derive(Debug, Drop, PartialEq, Eq, PartialOrd, Ord, Hash)]
pub struct MatchedName {
    rdns: Vec<RdnKey>,
}

impl MatchedName {
    ghost use Rattle.std.specs.Prelude.{◌≡◌, ◌↔◌, IfErr, IfOk, IsTrue, List};
    ghost use Rattle.x509_der.specs.Form.{Spells};
    ghost use Rattle.x509_der.specs.declared.error.ErrorKind.TheVariants as errors;
    ghost use Rattle.x509_match.specs.Matching.{BeginsWith};
    ghost use Rattle.x509_match.specs.NameKeys.{IsNameKey};
    ghost use Rattle.x509_name.specs.Names.{name};
    ghost use Rattle.x509_name.specs.declared.attr.type_and_value.AttributeTypeAndValue.{AttributeTypeAndValue};

    /// The key of the name.
    ///
    /// # Errors
    ///
    /// When out of memory.
    pub fn new(alloc: Global, given: &Name) -> Result<MatchedName, AllocError>
        ensures { IfOk result (λ key. IsNameKey key given.now) }
    {
        let rdns: &[RelativeDistinguishedName] = given.as_ref().as_slice();
        let mut keys = Vec::new(alloc);
        for rdn in rdns {
            let key = RdnKey::new(alloc, rdn)?;
            keys.push(key)?;
        }
        Ok(MatchedName { rdns: keys })
    }

    /// The key of the name whose encoding this is.
    ///
    /// # Errors
    ///
    /// Where it is the encoding of a name, `Memory` alone, when out of memory. Else an error of `Name::from_der`.
    pub fn from_der(alloc: Global, bytes: &[u8]) -> Result<MatchedName, Error>
        ensures found { (x : List (List AttributeTypeAndValue)) → Spells name x bytes.now → IfOk result (λ key. IsNameKey key x) }
        ensures named { IfOk result (λ key. (x : List (List AttributeTypeAndValue)) × Spells name x bytes.now × IsNameKey key x) }
        ensures err { (x : List (List AttributeTypeAndValue)) → Spells name x bytes.now → IfErr result (λ e. e.kind ≡ errors.Memory) }
    {
        let decoded = Name::from_der(alloc, bytes)?;
        match MatchedName::new(alloc, &decoded) {
            Ok(key) => Ok(key),
            Err(_) => Err(ErrorKind::Memory.into()),
        }
    }

    /// Whether the name begins with RDNs that match those of the other, in order, as a name within a subtree does
    /// (RFC 5280 4.2.1.10).
    pub fn begins_with(&self, front: &MatchedName) -> bool
        ensures { (x y : List (List AttributeTypeAndValue)) → IsNameKey self.now x → IsNameKey front.now y → (IsTrue result ↔ BeginsWith x y) }
    {
        let keys = self.rdns.as_slice();
        let first = front.rdns.as_slice();
        if keys.len() < first.len() {
            return false;
        }
        let (same, _) = keys.split_at(first.len());
        same == first
    }

    /// The keys of the RDNs, in their order.
    pub fn rdns(&self) -> &[RdnKey]
        ensures { result.now ≡ self.now.rdns.items }
    {
        self.rdns.as_slice()
    }
}
