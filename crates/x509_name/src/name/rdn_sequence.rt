//! Sequences of RDNs.

ghost use Rattle.std.specs.Prelude.{◌≡◌, ◌↔◌, ◌++◌, [], ◌∷◌, length, IsTrue, IfErr, OnOk, OnErr};
ghost use Rattle.x509_der.specs.declared.error.ErrorKind.TheVariants.{Memory};
ghost use Rattle.x509_name.specs.Iterators.{rdns_left};

use crate::name::iterators::RdnSequenceIter;
use crate::name::rdn::RelativeDistinguishedName;
use crate::name::short::put_rdns;
use std::alloc::Global;
use std::cmp::Ordering;
use std::hash::{Hash, Hasher};
use std::marker::Model;
use x509_der::{
    Content, DerOrd, EncodingOrd, Error, Room, SequenceOf, SetMember, SetOrd, Spelled, Tag,
    TryClone, ValueOrd, members_have_spellings,
};

/// A sequence of relative distinguished names (RDNs), the most general first (RFC 5280 4.1.2.4). Contracts see their
/// list. An empty sequence is decoded and encoded too.
///
/// ```text
/// RDNSequence ::= SEQUENCE OF RelativeDistinguishedName
/// ```
#[derive(Debug, Drop)]
pub struct RdnSequence(SequenceOf<RelativeDistinguishedName>);

/// [`RdnSequence`] by another name (RFC 5280 appendix A.1).
pub type DistinguishedName = RdnSequence;

impl Model for RdnSequence {
    ghost use Rattle.std.specs.Prelude.{List};
    ghost use Rattle.x509_name.specs.declared.attr.type_and_value.AttributeTypeAndValue.{AttributeTypeAndValue};

    ghost Value = { List (List AttributeTypeAndValue) };

    ghost view = { λ sequence. sequence.0 };
}

impl RdnSequence {
    /// The empty sequence. It takes no memory.
    pub fn new(alloc: Global) -> RdnSequence
        ensures { result ≡ [] }
    {
        RdnSequence(SequenceOf::new(alloc))
    }

    /// Adds the RDN behind the others.
    ///
    /// # Errors
    ///
    /// `Memory` when out of memory, and nothing else; then the sequence is unchanged, and the RDN is dropped.
    pub fn push(&mut self, rdn: RelativeDistinguishedName) -> Result<(), Error>
        ensures ok { OnOk result (self.new ≡ self.old ++ rdn ∷ []) }
        ensures err { IfErr result (λ e. e.kind ≡ Memory) }
        ensures unchanged { OnErr result (self.new ≡ self.old) }
    {
        self.0.push(rdn)
    }

    /// The RDNs.
    pub fn as_slice(&self) -> &[RelativeDistinguishedName]
        ensures { result.now ≡ self.now }
    {
        self.0.as_slice()
    }

    /// The RDNs.
    pub fn iter(&self) -> RdnSequenceIter<'_>
        ensures { rdns_left result ≡ self.now }
    {
        RdnSequenceIter::new(self.as_slice())
    }

    /// How many RDNs there are.
    pub fn len(&self) -> usize
        ensures { result ≡ length self.now }
    {
        self.0.len()
    }

    /// Whether there are none.
    pub fn is_empty(&self) -> bool
        ensures { IsTrue result ↔ (self.now ≡ []) }
    {
        self.0.is_empty()
    }

    /// The vector of the RDNs, without a copy.
    pub fn into_vec(self) -> Vec<RelativeDistinguishedName>
        ensures { result.items ≡ self }
    {
        let RdnSequence(rdns) = self;
        rdns.into_vec()
    }
}

impl From<Vec<RelativeDistinguishedName>> for RdnSequence {
    ghost from_gives = { λ rdns sequence. sequence ≡ rdns.items };

    fn from(rdns: Vec<RelativeDistinguishedName>) -> RdnSequence {
        RdnSequence(SequenceOf::from(rdns))
    }
}

impl From<RdnSequence> for Vec<RelativeDistinguishedName> {
    ghost from_gives = { λ sequence rdns. rdns.items ≡ sequence };

    fn from(sequence: RdnSequence) -> Vec<RelativeDistinguishedName> {
        sequence.into_vec()
    }
}

impl From<SequenceOf<RelativeDistinguishedName>> for RdnSequence {
    ghost from_gives = { λ rdns sequence. sequence ≡ rdns };

    fn from(rdns: SequenceOf<RelativeDistinguishedName>) -> RdnSequence {
        RdnSequence(rdns)
    }
}

impl From<RdnSequence> for SequenceOf<RelativeDistinguishedName> {
    ghost from_gives = { λ sequence rdns. rdns ≡ sequence };

    fn from(sequence: RdnSequence) -> SequenceOf<RelativeDistinguishedName> {
        let RdnSequence(rdns) = sequence;
        rdns
    }
}

impl AsRef<SequenceOf<RelativeDistinguishedName>> for RdnSequence {
    fn as_ref(&self) -> &SequenceOf<RelativeDistinguishedName>
        ensures { result.now ≡ self.now }
    {
        &self.0
    }
}

impl AsMut<SequenceOf<RelativeDistinguishedName>> for RdnSequence {
    ghost use Rattle.std.specs.Borrow.{Lends, sem};
    ghost use Rattle.x509_name.specs.contracts.name.rdn_sequence.RdnSequence.{the_row};
    ghost use Rattle.x509_name.specs.Rows.{rdn_list_row};

    fn as_mut(&mut self) -> &mut SequenceOf<RelativeDistinguishedName>
        ensures* writes_back { sem 𝓛 (Lends the_row rdn_list_row self.entry result (λ w. w)) }
        ensures value { result.now ≡ self.old }
    {
        &mut self.0
    }
}

impl TryClone for RdnSequence {
    fn try_clone(&self, alloc: Global) -> Result<RdnSequence, Error> {
        Ok(RdnSequence(self.0.try_clone(alloc)?))
    }
}

impl Content for RdnSequence {
    ghost use Rattle.x509_der.specs.declared.tag.Tag.TheVariants.{Sequence};
    ghost use Rattle.x509_name.specs.Names as grammar;

    ghost contents = { grammar.rdn_list };

    ghost IDENTIFIER = { Sequence };

    const IDENTIFIER: Tag = Tag::Sequence;

    #[inline(always)]
    fn read_content(alloc: Global, octets: &[u8]) -> Result<RdnSequence, Error> {
        Ok(RdnSequence(SequenceOf::read_content(alloc, octets)?))
    }

    fn write_content<R: Room>(&self, room: &mut R) -> Result<(), Error> {
        put_rdns(self.0.as_slice(), room)
    }

    ghost contents_lawful = { grammar.rdn_list_lawful };
}

impl Spelled for RdnSequence {
    fn has_spelling(&self) {
        members_have_spellings(self.0.as_slice());
    }
}

impl ValueOrd for RdnSequence {
    ghost use Rattle.x509_name.specs.Names as grammar;

    ghost order = { grammar.rdn_sequence_order };

    fn value_cmp(&self, other: &RdnSequence) -> Ordering {
        self.0.value_cmp(&other.0)
    }

    ghost ordered = { grammar.rdn_sequence_ordered };
}

impl SetOrd for RdnSequence {
    ghost set_order = { ⟦<RdnSequence as EncodingOrd>⟧.encoding_order };
}

impl SetMember for RdnSequence {
    ghost use Rattle.std.specs.Prelude.{refl};

    ghost in_der_order = { refl };
}

impl PartialEq for RdnSequence {
    ghost use Rattle.std.specs.Cmp.{partial_equiv_from_equiv};
    ghost use Rattle.x509_name.specs.Names as grammar;

    ghost eq = { grammar.rdn_sequence_eq };

    ghost laws = { partial_equiv_from_equiv grammar.rdn_sequence_equivalence };

    fn eq(&self, other: &RdnSequence) -> bool {
        self.0 == other.0
    }
}

impl Eq for RdnSequence {
    ghost use Rattle.x509_name.specs.Names as grammar;

    ghost laws = { grammar.rdn_sequence_equivalence };
}

/// Sequences are ordered by their encodings, as [`DerOrd`] compares them.
impl PartialOrd for RdnSequence {
    ghost use Rattle.std.specs.Cmp.{po};
    ghost use Rattle.std.specs.Ordering.{as_partial_cmp};
    ghost use Rattle.x509_name.specs.Names as grammar;

    ghost partial_cmp = { as_partial_cmp grammar.rdn_sequence_cmp };

    ghost laws = { po grammar.rdn_sequence_total grammar.rdn_sequence_ties };

    fn partial_cmp(&self, other: &RdnSequence) -> Option<Ordering> {
        Some(self.cmp(other))
    }
}

/// Sequences are ordered by their encodings, as [`DerOrd`] compares them.
impl Ord for RdnSequence {
    ghost use Rattle.std.specs.Prelude.{refl};
    ghost use Rattle.x509_name.specs.Names as grammar;

    ghost cmp = { grammar.rdn_sequence_cmp };

    ghost total = { grammar.rdn_sequence_total };

    ghost matches_partial_cmp = { λ x y. refl };

    ghost matches_eq = { grammar.rdn_sequence_ties };

    fn cmp(&self, other: &RdnSequence) -> Ordering {
        self.der_cmp(other)
    }
}

impl Hash for RdnSequence {
    ghost use Rattle.std.specs.Hash as fed;
    ghost use Rattle.x509_name.specs.Names as grammar;

    ghost hash_input = { fed.slice ⟦<RelativeDistinguishedName as Hash>⟧.hash_input };

    ghost respects_eq = { (fed.same_Alike (fed.slice ⟦<RelativeDistinguishedName as Hash>⟧.hash_input) grammar.rdn_sequence_decides).fed };

    fn hash<H: Hasher>(&self, state: &mut H) {
        self.0.hash(state);
    }
}
