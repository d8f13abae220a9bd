//! Names of issuers and subjects.

ghost use Rattle.std.specs.Prelude.{◌≡◌, ◌↔◌, [], length, IsTrue};
ghost use Rattle.x509_name.specs.Iterators.{attributes_left, members_of, rdns_left};

use crate::name::iterators::{NameIter, RdnSequenceIter};
use crate::name::rdn::RelativeDistinguishedName;
use crate::name::rdn_sequence::RdnSequence;
use std::alloc::Global;
use std::cmp::Ordering;
use std::hash::{Hash, Hasher};
use std::marker::Model;
use x509_der::{
    Content, DerOrd, EncodingOrd, Error, Room, SetMember, SetOrd, Spelled, Tag, TryClone, ValueOrd,
    members_have_spellings,
};

/// The name of an issuer or a subject: a sequence of relative distinguished names, RDNs (RFC 5280 4.1.2.4). Contracts
/// see the list of its RDNs.
///
/// ```text
/// Name ::= CHOICE { rdnSequence  RDNSequence }
/// ```
///
/// A text is read by [`from_str`](Name::from_str), and `Display` writes it:
///
/// ```rust
/// let name = Name::from_str(alloc, "CN=Good CA,C=US")?;
/// assert_eq!(rt; format!(in alloc; "{}", &name)?.as_str(), "CN=Good CA,C=US");
/// ```
#[derive(Debug, Drop)]
pub struct Name(RdnSequence);

impl Model for Name {
    ghost use Rattle.std.specs.Prelude.{List};
    ghost use Rattle.x509_name.specs.declared.attr.type_and_value.AttributeTypeAndValue.{AttributeTypeAndValue};

    ghost Value = { List (List AttributeTypeAndValue) };

    ghost view = { λ name. name.0 };
}

impl Name {
    /// The empty name. It takes no memory.
    pub fn new(alloc: Global) -> Name
        ensures { result ≡ [] }
    {
        Name(RdnSequence::new(alloc))
    }

    /// The name of these RDNs. The caller sees to the rules of RFC 5280 4.1.2.4 for the types and the texts of
    /// attributes: they aren't checked.
    pub fn hazmat_from_rdn_sequence(rdns: RdnSequence) -> Name
        ensures { result ≡ rdns }
    {
        Name(rdns)
    }

    /// How many RDNs there are.
    pub fn len(&self) -> usize
        ensures { result ≡ length self.now }
    {
        self.0.len()
    }

    /// Whether there are none.
    pub fn is_empty(&self) -> bool
        ensures { IsTrue result ↔ (self.now ≡ []) }
    {
        self.0.is_empty()
    }

    /// The attributes of all RDNs, one after the other; `iter_rdn` tells which belong to one RDN.
    pub fn iter(&self) -> NameIter<'_>
        ensures { attributes_left result ≡ members_of self.now }
    {
        NameIter::new(self.0.as_slice())
    }

    /// The RDNs.
    pub fn iter_rdn(&self) -> RdnSequenceIter<'_>
        ensures { rdns_left result ≡ self.now }
    {
        self.0.iter()
    }
}

impl AsRef<RdnSequence> for Name {
    fn as_ref(&self) -> &RdnSequence
        ensures { result.now ≡ self.now }
    {
        &self.0
    }
}

impl AsMut<RdnSequence> for Name {
    ghost use Rattle.std.specs.Borrow.{Lends, sem};
    ghost use Rattle.x509_name.specs.contracts.name.name.Name.{the_row};
    ghost use Rattle.x509_name.specs.contracts.name.rdn_sequence.RdnSequence as sequence;

    fn as_mut(&mut self) -> &mut RdnSequence
        ensures* writes_back { sem 𝓛 (Lends the_row sequence.the_row self.entry result (λ w. w)) }
        ensures value { result.now ≡ self.old }
    {
        &mut self.0
    }
}

impl From<Name> for RdnSequence {
    ghost from_gives = { λ name rdns. rdns ≡ name };

    fn from(name: Name) -> RdnSequence {
        let Name(rdns) = name;
        rdns
    }
}

impl TryClone for Name {
    fn try_clone(&self, alloc: Global) -> Result<Name, Error> {
        Ok(Name(self.0.try_clone(alloc)?))
    }
}

impl Content for Name {
    ghost use Rattle.x509_der.specs.declared.tag.Tag.TheVariants.{Sequence};
    ghost use Rattle.x509_name.specs.Names as grammar;

    ghost contents = { grammar.rdn_list };

    ghost IDENTIFIER = { Sequence };

    const IDENTIFIER: Tag = Tag::Sequence;

    fn read_content(alloc: Global, octets: &[u8]) -> Result<Name, Error> {
        Ok(Name(RdnSequence::read_content(alloc, octets)?))
    }

    fn write_content<R: Room>(&self, room: &mut R) -> Result<(), Error> {
        self.0.write_content(room)
    }

    ghost contents_lawful = { grammar.rdn_list_lawful };
}

impl Spelled for Name {
    fn has_spelling(&self) {
        members_have_spellings(self.0.as_slice());
    }
}

impl ValueOrd for Name {
    ghost use Rattle.x509_name.specs.Names as grammar;

    ghost order = { grammar.rdn_sequence_order };

    fn value_cmp(&self, other: &Name) -> Ordering {
        self.0.value_cmp(&other.0)
    }

    ghost ordered = { grammar.rdn_sequence_ordered };
}

impl SetOrd for Name {
    ghost set_order = { ⟦<Name as EncodingOrd>⟧.encoding_order };
}

impl SetMember for Name {
    ghost use Rattle.std.specs.Prelude.{refl};

    ghost in_der_order = { refl };
}

impl PartialEq for Name {
    ghost use Rattle.std.specs.Cmp.{partial_equiv_from_equiv};
    ghost use Rattle.x509_name.specs.Names as grammar;

    ghost eq = { grammar.rdn_sequence_eq };

    ghost laws = { partial_equiv_from_equiv grammar.rdn_sequence_equivalence };

    fn eq(&self, other: &Name) -> bool {
        self.0 == other.0
    }
}

impl Eq for Name {
    ghost use Rattle.x509_name.specs.Names as grammar;

    ghost laws = { grammar.rdn_sequence_equivalence };
}

/// Names are ordered by their encodings, as [`DerOrd`] compares them.
impl PartialOrd for Name {
    ghost use Rattle.std.specs.Cmp.{po};
    ghost use Rattle.std.specs.Ordering.{as_partial_cmp};
    ghost use Rattle.x509_name.specs.Names as grammar;

    ghost partial_cmp = { as_partial_cmp grammar.rdn_sequence_cmp };

    ghost laws = { po grammar.rdn_sequence_total grammar.rdn_sequence_ties };

    fn partial_cmp(&self, other: &Name) -> Option<Ordering> {
        Some(self.cmp(other))
    }
}

/// Names are ordered by their encodings, as [`DerOrd`] compares them.
impl Ord for Name {
    ghost use Rattle.std.specs.Prelude.{refl};
    ghost use Rattle.x509_name.specs.Names as grammar;

    ghost cmp = { grammar.rdn_sequence_cmp };

    ghost total = { grammar.rdn_sequence_total };

    ghost matches_partial_cmp = { λ x y. refl };

    ghost matches_eq = { grammar.rdn_sequence_ties };

    fn cmp(&self, other: &Name) -> Ordering {
        self.der_cmp(other)
    }
}

impl Hash for Name {
    ghost use Rattle.std.specs.Hash as fed;
    ghost use Rattle.x509_name.specs.Names as grammar;

    ghost hash_input = { ⟦<RdnSequence as Hash>⟧.hash_input };

    ghost respects_eq = { (fed.same_Alike ⟦<RdnSequence as Hash>⟧.hash_input grammar.rdn_sequence_decides).fed };

    fn hash<H: Hasher>(&self, state: &mut H) {
        self.0.hash(state);
    }
}
