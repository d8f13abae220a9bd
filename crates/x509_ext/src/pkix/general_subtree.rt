//! Subtrees of names.

use crate::pkix::name::GeneralName;
use std::alloc::Global;
use x509_der::{
    Content, Error, PutPart, Room, SequenceOf, Spelled, Tag, TryClone, defaulted_implicit, end,
    option_has_spelling, optional_implicit, read_defaulted_implicit, read_field,
    read_optional_implicit,
};

/// A name, with those below it (RFC 5280 4.2.1.10). That `minimum` is 0 and `maximum` absent, as RFC 5280 wants them,
/// isn't checked.
///
/// ```text
/// GeneralSubtree ::= SEQUENCE {
///     base     GeneralName,
///     minimum  [0] IMPLICIT INTEGER (0..4294967295) DEFAULT 0,
///     maximum  [1] IMPLICIT INTEGER (0..4294967295) OPTIONAL }
/// ```
#[derive(Debug, PartialEq, Eq)]
pub struct GeneralSubtree {
    /// The base name.
    pub base: GeneralName,

    /// How far below the base the subtree begins.
    pub minimum: u32,

    /// How far below the base the subtree ends; it has no end where absent.
    pub maximum: Option<u32>,
}

impl Drop for GeneralSubtree {
    fn drop(self) {
        let GeneralSubtree {
            base: _,
            minimum: _,
            maximum: _,
        } = self;
    }
}

/// A list of subtrees, in their order (RFC 5280 4.2.1.10). An empty sequence is decoded and encoded too.
///
/// ```text
/// GeneralSubtrees ::= SEQUENCE OF GeneralSubtree
/// ```
pub type GeneralSubtrees = SequenceOf<GeneralSubtree>;

impl TryClone for GeneralSubtree {
    fn try_clone(&self, alloc: Global) -> Result<GeneralSubtree, Error> {
        Ok(GeneralSubtree {
            base: self.base.try_clone(alloc)?,
            minimum: self.minimum,
            maximum: self.maximum,
        })
    }
}

#[tactic(auto, unfolding(crate::specs::GeneralSubtree::general_subtree_fields, x509_der::specs::Frames::fields_reading, x509_der::specs::Frames::fields_octets))]
impl Content for GeneralSubtree {
    ghost use Rattle.x509_der.specs.declared.tag.Tag.TheVariants.{Sequence};
    ghost use Rattle.x509_ext.specs.GeneralSubtree as grammar;

    ghost contents = { grammar.general_subtree_contents };

    ghost IDENTIFIER = { Sequence };

    const IDENTIFIER: Tag = Tag::Sequence;

    fn read_content(alloc: Global, octets: &[u8]) -> Result<GeneralSubtree, Error> {
        let mut rest = octets;
        let base = read_field::<GeneralName>(alloc, &mut rest)?;
        let minimum = read_defaulted_implicit::<u32>(alloc, 0, &mut rest)?;
        let maximum = read_optional_implicit::<u32>(alloc, 1, &mut rest)?;
        end(rest)?;
        Ok(GeneralSubtree {
            base,
            minimum,
            maximum,
        })
    }

    fn write_content<R: Room>(&self, room: &mut R) -> Result<(), Error> {
        let parts = (
            &self.base,
            (
                defaulted_implicit(0, &self.minimum),
                optional_implicit(1, &self.maximum),
            ),
        );
        parts.put_part(room)
    }

    ghost contents_lawful = { grammar.general_subtree_contents_lawful };
}

#[tactic(auto, unfolding(crate::specs::GeneralSubtree::general_subtree_fields, x509_der::specs::Frames::fields_good))]
impl Spelled for GeneralSubtree {
    fn has_spelling(&self) {
        self.base.has_spelling();
        self.minimum.has_spelling();
        option_has_spelling(&self.maximum);
    }
}
