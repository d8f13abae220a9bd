//! Name constraints.

use crate::pkix::general_subtree::GeneralSubtrees;
use crate::{Always, FixedCriticality};
use std::alloc::Global;
use x509_der::{
    AssociatedOid, Content, Error, ObjectIdentifier, PutPart, Room, Spelled, Tag, TryClone, end,
    oid, option_has_spelling, optional_implicit, read_optional_implicit,
};

/// Name constraints: which names the subjects of the certificates below an authority may have (RFC 5280 4.2.1.10). Its
/// OID is 2.5.29.30, and it is critical.
///
/// ```text
/// NameConstraints ::= SEQUENCE {
///     permittedSubtrees  [0] IMPLICIT GeneralSubtrees OPTIONAL,
///     excludedSubtrees   [1] IMPLICIT GeneralSubtrees OPTIONAL }
/// ```
#[derive(Debug, PartialEq, Eq)]
pub struct NameConstraints {
    /// The subtrees in one of which a name has to be.
    pub permitted_subtrees: Option<GeneralSubtrees>,

    /// The subtrees in none of which a name may be.
    pub excluded_subtrees: Option<GeneralSubtrees>,
}

impl Drop for NameConstraints {
    fn drop(self) {
        let NameConstraints {
            permitted_subtrees: _,
            excluded_subtrees: _,
        } = self;
    }
}

impl AssociatedOid for NameConstraints {
    ghost use Rattle.x509_ext.specs.Identifiers.{id_ce};

    ghost OID = { id_ce 30 };

    const OID: ObjectIdentifier = oid!(0x55, 0x1D, 30);
}

impl FixedCriticality for NameConstraints {
    type Critical = Always;
}

impl TryClone for NameConstraints {
    fn try_clone(&self, alloc: Global) -> Result<NameConstraints, Error> {
        Ok(NameConstraints {
            permitted_subtrees: self.permitted_subtrees.try_clone(alloc)?,
            excluded_subtrees: self.excluded_subtrees.try_clone(alloc)?,
        })
    }
}

#[tactic(auto, unfolding(crate::specs::NameConstraints::name_constraints_fields, x509_der::specs::Frames::fields_reading, x509_der::specs::Frames::fields_octets))]
impl Content for NameConstraints {
    ghost use Rattle.x509_der.specs.declared.tag.Tag.TheVariants.{Sequence};
    ghost use Rattle.x509_ext.specs.NameConstraints as grammar;

    ghost contents = { grammar.name_constraints_contents };

    ghost IDENTIFIER = { Sequence };

    const IDENTIFIER: Tag = Tag::Sequence;

    fn read_content(alloc: Global, octets: &[u8]) -> Result<NameConstraints, Error> {
        let mut rest = octets;
        let permitted_subtrees = read_optional_implicit::<GeneralSubtrees>(alloc, 0, &mut rest)?;
        let excluded_subtrees = read_optional_implicit::<GeneralSubtrees>(alloc, 1, &mut rest)?;
        end(rest)?;
        Ok(NameConstraints {
            permitted_subtrees,
            excluded_subtrees,
        })
    }

    fn write_content<R: Room>(&self, room: &mut R) -> Result<(), Error> {
        let parts = (
            optional_implicit(0, &self.permitted_subtrees),
            optional_implicit(1, &self.excluded_subtrees),
        );
        parts.put_part(room)
    }

    ghost contents_lawful = { grammar.name_constraints_contents_lawful };
}

#[tactic(auto, unfolding(crate::specs::NameConstraints::name_constraints_fields, x509_der::specs::Frames::fields_good))]
impl Spelled for NameConstraints {
    fn has_spelling(&self) {
        option_has_spelling(&self.permitted_subtrees);
        option_has_spelling(&self.excluded_subtrees);
    }
}
