//! Basic constraints with a path length of any size.

use std::alloc::Global;
use x509_der::{
    AssociatedOid, Content, Error, ObjectIdentifier, PutPart, Room, Spelled, Tag, defaulted, end,
    oid, option_has_spelling, optional, read_defaulted, read_optional,
};
use x509_prim::Uint;

/// Basic constraints as RFC 5280 4.2.1.9 allows them: [`x509_cert`]'s have a path length of 255 at most.
///
/// ```text
/// BasicConstraints ::= SEQUENCE {
///     cA                 BOOLEAN DEFAULT FALSE,
///     pathLenConstraint  INTEGER (0..MAX) OPTIONAL }
/// ```
#[derive(Debug)]
pub struct AnyBasicConstraints {
    /// Whether the key may verify signatures of certificates.
    pub ca: bool,

    /// How many intermediate certificates that aren't self-issued may follow, at most; any number where absent.
    pub path_len_constraint: Option<Uint>,
}

impl Drop for AnyBasicConstraints {
    fn drop(self) {
        let AnyBasicConstraints {
            ca: _,
            path_len_constraint: _,
        } = self;
    }
}

impl AssociatedOid for AnyBasicConstraints {
    ghost use Rattle.x509_ext.specs.Identifiers.{id_ce};

    ghost OID = { id_ce 19 };

    const OID: ObjectIdentifier = oid!(0x55, 0x1D, 19);
}

#[tactic(auto, unfolding(crate::specs::BasicConstraints::any_basic_constraints_fields, x509_der::specs::Frames::fields_reading, x509_der::specs::Frames::fields_octets))]
impl Content for AnyBasicConstraints {
    ghost use Rattle.x509_der.specs.declared.tag.Tag.TheVariants.{Sequence};
    ghost use Rattle.x509_lint.specs.BasicConstraints as grammar;

    ghost contents = { grammar.any_basic_constraints_contents };

    ghost IDENTIFIER = { Sequence };

    const IDENTIFIER: Tag = Tag::Sequence;

    fn read_content(alloc: Global, octets: &[u8]) -> Result<AnyBasicConstraints, Error> {
        let mut rest = octets;
        let ca = read_defaulted::<bool>(alloc, &mut rest)?;
        let path_len_constraint = read_optional::<Uint>(alloc, &mut rest)?;
        end(rest)?;
        Ok(AnyBasicConstraints {
            ca,
            path_len_constraint,
        })
    }

    fn write_content<R: Room>(&self, room: &mut R) -> Result<(), Error> {
        let parts = (defaulted(&self.ca), optional(&self.path_len_constraint));
        parts.put_part(room)
    }

    ghost contents_lawful = { grammar.any_basic_constraints_contents_lawful };
}

#[tactic(auto, unfolding(crate::specs::BasicConstraints::any_basic_constraints_fields, x509_der::specs::Frames::fields_good))]
impl Spelled for AnyBasicConstraints {
    fn has_spelling(&self) {
        self.ca.has_spelling();
        option_has_spelling(&self.path_len_constraint);
    }
}
