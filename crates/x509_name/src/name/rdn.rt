//! Relative distinguished names (RDNs).

ghost use Rattle.std.specs.Prelude.{◌≡◌, ◌↔◌, ◌⊎◌, [], ◌∷◌, length, IsTrue, Contains, IfOk, IfErr, OnOk, OnErr, IsErrAnd, slice_get};
ghost use Rattle.std.specs.Option.{option_copied};
ghost use Rattle.std.specs.List.Sorted.{IsStrictlySortedBy, IsPermutation};
ghost use Rattle.x509_der.specs.declared.error.ErrorKind.TheVariants as errors;
ghost use Rattle.x509_der.specs.Set.{AreDistinct};
ghost use Rattle.x509_name.specs.TypeAndValue.{type_and_value_cmp};
ghost use Rattle.x509_name.specs.Iterators.{rdn_left};

use crate::attr::AttributeTypeAndValue;
use crate::name::iterators::RdnIter;
use crate::name::short::read_short;
use std::alloc::Global;
use std::cmp::Ordering;
use std::hash::{Hash, Hasher};
use std::marker::Model;
use x509_der::{
    Content, DerOrd, EncodingOrd, Error, Room, SetMember, SetOfVec, SetOrd, Spelled, Tag, TryClone,
    ValueOrd,
};

/// A relative distinguished name (RDN): a set of attributes (RFC 5280 4.1.2.4). Contracts see their list, in the byte
/// order of their encodings. An empty set is decoded and encoded too.
///
/// ```text
/// RelativeDistinguishedName ::= SET OF AttributeTypeAndValue
/// ```
#[derive(Debug, Drop)]
pub struct RelativeDistinguishedName(SetOfVec<AttributeTypeAndValue>);

impl Model for RelativeDistinguishedName {
    ghost use Rattle.std.specs.Prelude.{List};
    ghost use Rattle.x509_name.specs.declared.attr.type_and_value.AttributeTypeAndValue.{AttributeTypeAndValue};

    ghost Value = { List AttributeTypeAndValue };

    ghost view = { λ rdn. rdn.0 };
}

impl RelativeDistinguishedName {
    /// No attributes. It takes no memory.
    pub fn new(alloc: Global) -> RelativeDistinguishedName
        ensures { result ≡ [] }
    {
        RelativeDistinguishedName(SetOfVec::new(alloc))
    }

    /// The RDN of one attribute. It takes no memory.
    pub fn from_one(alloc: Global, attribute: AttributeTypeAndValue) -> RelativeDistinguishedName
        ensures { result ≡ attribute ∷ [] }
    {
        RelativeDistinguishedName(SetOfVec::from_one(alloc, attribute))
    }

    /// The set of the attributes, in O(n log n) comparisons and without memory.
    ///
    /// # Errors
    ///
    /// `SetDuplicate` exactly where two of the attributes are equal.
    pub fn try_from_vec(
        attributes: Vec<AttributeTypeAndValue>,
    ) -> Result<RelativeDistinguishedName, Error>
        ensures ok { IfOk result (λ rdn. IsPermutation attributes.items rdn × IsStrictlySortedBy type_and_value_cmp rdn) }
        ensures distinct { OnOk result (AreDistinct attributes.items) }
        ensures err { IfErr result (λ e. (e.kind ≡ errors.SetDuplicate) × (¬ AreDistinct attributes.items)) }
    {
        let set = SetOfVec::try_from_vec(attributes)?;
        Ok(RelativeDistinguishedName(set))
    }

    /// Inserts the attribute in its place.
    ///
    /// # Errors
    ///
    /// `SetDuplicate` exactly where an equal attribute is there; else `Memory` when out of memory. On an error the RDN is
    /// unchanged, and the attribute is dropped.
    pub fn insert(&mut self, attribute: AttributeTypeAndValue) -> Result<(), Error>
        ensures put { OnOk result (IsPermutation (attribute ∷ self.old) self.new) }
        ensures sorted { IsStrictlySortedBy type_and_value_cmp self.new }
        ensures duplicate { Contains self.old attribute → IsErrAnd result (λ e. e.kind ≡ errors.SetDuplicate) }
        ensures err { IfErr result (λ e. (e.kind ≡ errors.Memory) ⊎ ((e.kind ≡ errors.SetDuplicate) × Contains self.old attribute)) }
        ensures unchanged { OnErr result (self.new ≡ self.old) }
    {
        self.0.insert(attribute)
    }

    /// The attributes, in their order.
    pub fn as_slice(&self) -> &[AttributeTypeAndValue]
        ensures members { result.now ≡ self.now }
        ensures sorted { IsStrictlySortedBy type_and_value_cmp self.now }
    {
        self.0.as_slice()
    }

    /// The attributes, in their order.
    pub fn iter(&self) -> RdnIter<'_>
        ensures { rdn_left result ≡ self.now }
    {
        RdnIter::new(self.as_slice())
    }

    /// The attribute at that index, from 0 on.
    pub fn get(&self, index: usize) -> Option<&AttributeTypeAndValue>
        ensures { option_copied result ≡ slice_get self.now index }
    {
        self.0.get(index)
    }

    /// How many attributes there are.
    pub fn len(&self) -> usize
        ensures { result ≡ length self.now }
    {
        self.0.len()
    }

    /// Whether there are none.
    pub fn is_empty(&self) -> bool
        ensures { IsTrue result ↔ (self.now ≡ []) }
    {
        self.0.is_empty()
    }
}

impl From<SetOfVec<AttributeTypeAndValue>> for RelativeDistinguishedName {
    ghost from_gives = { λ attributes rdn. rdn ≡ attributes };

    fn from(attributes: SetOfVec<AttributeTypeAndValue>) -> RelativeDistinguishedName {
        RelativeDistinguishedName(attributes)
    }
}

impl AsRef<SetOfVec<AttributeTypeAndValue>> for RelativeDistinguishedName {
    fn as_ref(&self) -> &SetOfVec<AttributeTypeAndValue>
        ensures { result.now ≡ self.now }
    {
        &self.0
    }
}

impl AsMut<SetOfVec<AttributeTypeAndValue>> for RelativeDistinguishedName {
    ghost use Rattle.std.specs.Borrow.{Lends, sem};
    ghost use Rattle.x509_name.specs.contracts.name.rdn.RelativeDistinguishedName.{the_row};
    ghost use Rattle.x509_name.specs.Rows.{attribute_set_row};

    fn as_mut(&mut self) -> &mut SetOfVec<AttributeTypeAndValue>
        ensures* writes_back { sem 𝓛 (Lends the_row attribute_set_row self.entry result (λ w. w)) }
        ensures value { result.now ≡ self.old }
    {
        &mut self.0
    }
}

impl From<RelativeDistinguishedName> for SetOfVec<AttributeTypeAndValue> {
    ghost from_gives = { λ rdn attributes. attributes ≡ rdn };

    fn from(rdn: RelativeDistinguishedName) -> SetOfVec<AttributeTypeAndValue> {
        let RelativeDistinguishedName(attributes) = rdn;
        attributes
    }
}

impl TryClone for RelativeDistinguishedName {
    fn try_clone(&self, alloc: Global) -> Result<RelativeDistinguishedName, Error> {
        Ok(RelativeDistinguishedName(self.0.try_clone(alloc)?))
    }
}

impl Content for RelativeDistinguishedName {
    ghost use Rattle.x509_der.specs.declared.tag.Tag.TheVariants.{Set};
    ghost use Rattle.x509_name.specs.Names as grammar;

    ghost contents = { grammar.attribute_set };

    ghost IDENTIFIER = { Set };

    const IDENTIFIER: Tag = Tag::Set;

    #[inline(always)]
    fn read_content(alloc: Global, octets: &[u8]) -> Result<RelativeDistinguishedName, Error> {
        if let Some(rdn) = read_short(alloc, octets) {
            return Ok(rdn);
        }
        Ok(RelativeDistinguishedName(SetOfVec::read_content(alloc, octets)?))
    }

    fn write_content<R: Room>(&self, room: &mut R) -> Result<(), Error> {
        self.0.write_content(room)
    }

    ghost contents_lawful = { grammar.attribute_set_lawful };
}

impl Spelled for RelativeDistinguishedName {
    fn has_spelling(&self) {
        self.0.has_spelling();
    }
}

impl ValueOrd for RelativeDistinguishedName {
    ghost use Rattle.x509_name.specs.Names as grammar;

    ghost order = { grammar.rdn_order };

    fn value_cmp(&self, other: &RelativeDistinguishedName) -> Ordering {
        self.0.value_cmp(&other.0)
    }

    ghost ordered = { grammar.rdn_ordered };
}

impl SetOrd for RelativeDistinguishedName {
    ghost set_order = { ⟦<RelativeDistinguishedName as EncodingOrd>⟧.encoding_order };
}

impl SetMember for RelativeDistinguishedName {
    ghost use Rattle.std.specs.Prelude.{refl};

    ghost in_der_order = { refl };
}

impl PartialEq for RelativeDistinguishedName {
    ghost use Rattle.std.specs.Cmp.{partial_equiv_from_equiv};
    ghost use Rattle.x509_name.specs.Names as grammar;

    ghost eq = { grammar.rdn_eq };

    ghost laws = { partial_equiv_from_equiv grammar.rdn_equivalence };

    fn eq(&self, other: &RelativeDistinguishedName) -> bool {
        self.0 == other.0
    }
}

impl Eq for RelativeDistinguishedName {
    ghost use Rattle.x509_name.specs.Names as grammar;

    ghost laws = { grammar.rdn_equivalence };
}

/// RDNs are ordered by their encodings, as [`DerOrd`] compares them.
impl PartialOrd for RelativeDistinguishedName {
    ghost use Rattle.std.specs.Cmp.{po};
    ghost use Rattle.std.specs.Ordering.{as_partial_cmp};
    ghost use Rattle.x509_name.specs.Names as grammar;

    ghost partial_cmp = { as_partial_cmp grammar.rdn_cmp };

    ghost laws = { po grammar.rdn_total grammar.rdn_ties };

    fn partial_cmp(&self, other: &RelativeDistinguishedName) -> Option<Ordering> {
        Some(self.cmp(other))
    }
}

/// RDNs are ordered by their encodings, as [`DerOrd`] compares them.
impl Ord for RelativeDistinguishedName {
    ghost use Rattle.std.specs.Prelude.{refl};
    ghost use Rattle.x509_name.specs.Names as grammar;

    ghost cmp = { grammar.rdn_cmp };

    ghost total = { grammar.rdn_total };

    ghost matches_partial_cmp = { λ x y. refl };

    ghost matches_eq = { grammar.rdn_ties };

    fn cmp(&self, other: &RelativeDistinguishedName) -> Ordering {
        self.der_cmp(other)
    }
}

impl Hash for RelativeDistinguishedName {
    ghost use Rattle.std.specs.Hash as fed;
    ghost use Rattle.x509_name.specs.Names as grammar;

    ghost hash_input = { fed.slice ⟦<AttributeTypeAndValue as Hash>⟧.hash_input };

    ghost respects_eq = { (fed.same_Alike (fed.slice ⟦<AttributeTypeAndValue as Hash>⟧.hash_input) grammar.rdn_decides).fed };

    fn hash<H: Hasher>(&self, state: &mut H) {
        self.0.hash(state);
    }
}
