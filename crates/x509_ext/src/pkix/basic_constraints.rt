//! Basic constraints.

use crate::{Always, FixedCriticality};
use std::alloc::Global;
use std::cmp::Ordering;
use x509_der::{
    AssociatedOid, CmpPart, Content, EncodingOrd, Error, ObjectIdentifier, PutPart, Room,
    SetMember, SetOrd, Spelled, Tag, TryClone, ValueOrd, both_defaulted, both_optional, defaulted,
    end, oid, option_has_spelling, optional, read_defaulted, read_optional,
};

/// Basic constraints: whether the subject is a certification authority, and how many more may stand below it (RFC 5280
/// 4.2.1.9). Its OID is 2.5.29.19, and it is critical.
///
/// ```text
/// BasicConstraints ::= SEQUENCE {
///     cA                 BOOLEAN DEFAULT FALSE,
///     pathLenConstraint  INTEGER (0..255) OPTIONAL }
/// ```
#[derive(Clone, Copy, Debug, PartialEq, Eq)]
pub struct BasicConstraints {
    /// Whether the key may verify signatures of certificates.
    pub ca: bool,

    /// How many intermediate certificates that aren't self-issued may follow, at most; any number where absent.
    pub path_len_constraint: Option<u8>,
}

impl AssociatedOid for BasicConstraints {
    ghost use Rattle.x509_ext.specs.Identifiers.{id_ce};

    ghost OID = { id_ce 19 };

    const OID: ObjectIdentifier = oid!(0x55, 0x1D, 19);
}

impl FixedCriticality for BasicConstraints {
    type Critical = Always;
}

impl TryClone for BasicConstraints {
    ghost use Rattle.std.specs.Prelude.{◌≡◌, Ok};

    fn try_clone(&self, _alloc: Global) -> Result<BasicConstraints, Error>
        ensures { result ≡ Ok self.now }
    {
        Ok(*self)
    }
}

#[tactic(auto, unfolding(crate::specs::BasicConstraints::basic_constraints_fields, x509_der::specs::Frames::fields_reading, x509_der::specs::Frames::fields_octets))]
impl Content for BasicConstraints {
    ghost use Rattle.x509_der.specs.declared.tag.Tag.TheVariants.{Sequence};
    ghost use Rattle.x509_ext.specs.BasicConstraints as grammar;

    ghost contents = { grammar.basic_constraints_contents };

    ghost takes_memory = { ⊥ };

    ghost IDENTIFIER = { Sequence };

    const IDENTIFIER: Tag = Tag::Sequence;

    fn read_content(alloc: Global, octets: &[u8]) -> Result<BasicConstraints, Error> {
        let mut rest = octets;
        let ca = read_defaulted::<bool>(alloc, &mut rest)?;
        let path_len_constraint = read_optional::<u8>(alloc, &mut rest)?;
        end(rest)?;
        Ok(BasicConstraints {
            ca,
            path_len_constraint,
        })
    }

    fn write_content<R: Room>(&self, room: &mut R) -> Result<(), Error> {
        let parts = (defaulted(&self.ca), optional(&self.path_len_constraint));
        parts.put_part(room)
    }

    ghost contents_lawful = { grammar.basic_constraints_contents_lawful };
}

impl ValueOrd for BasicConstraints {
    ghost use Rattle.x509_ext.specs.BasicConstraints as grammar;

    ghost order = { grammar.basic_constraints_order };

    fn value_cmp(&self, other: &BasicConstraints) -> Ordering {
        let parts = (
            both_defaulted(&self.ca, &other.ca),
            both_optional(&self.path_len_constraint, &other.path_len_constraint),
        );
        parts.cmp_part(None, None)
    }

    ghost ordered = { grammar.basic_constraints_ordered };
}

impl SetOrd for BasicConstraints {
    ghost set_order = { ⟦<BasicConstraints as EncodingOrd>⟧.encoding_order };
}

impl SetMember for BasicConstraints {
    ghost use Rattle.std.specs.Prelude.{refl};

    ghost in_der_order = { refl };
}

#[tactic(auto, unfolding(crate::specs::BasicConstraints::basic_constraints_fields, x509_der::specs::Frames::fields_good))]
impl Spelled for BasicConstraints {
    fn has_spelling(&self) {
        self.ca.has_spelling();
        option_has_spelling(&self.path_len_constraint);
    }
}
