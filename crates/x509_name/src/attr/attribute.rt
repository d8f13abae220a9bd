//! Attributes with a set of values, as CSRs have them.

use crate::attr::type_and_value::{AttributeType, AttributeValue};
use std::alloc::Global;
use std::cmp::Ordering;
use x509_der::{
    Content, DerOrd, Error, PutPart, Room, SetMember, SetOfVec, SetOrd, Spelled, Tag, TryClone,
    ValueOrd, end, read_field,
};

/// An attribute: its type, and a set of values (RFC 2986 4.1). An empty set is decoded and encoded too.
///
/// ```text
/// Attribute ::= SEQUENCE {
///     type    OBJECT IDENTIFIER,
///     values  SET OF ANY }
/// ```
#[derive(Debug, Drop)]
pub struct Attribute {
    /// The type.
    pub oid: AttributeType,

    /// The values.
    pub values: SetOfVec<AttributeValue>,
}

/// A set of attributes: no two of them equal, in the byte order of their encodings (RFC 2986 4.1).
pub type Attributes = SetOfVec<Attribute>;

impl TryClone for Attribute {
    fn try_clone(&self, alloc: Global) -> Result<Attribute, Error> {
        Ok(Attribute {
            oid: self.oid,
            values: self.values.try_clone(alloc)?,
        })
    }
}

#[tactic(auto, unfolding(crate::specs::Attribute::attribute_fields, x509_der::specs::Frames::fields_reading, x509_der::specs::Frames::fields_octets))]
impl Content for Attribute {
    ghost use Rattle.x509_der.specs.declared.tag.Tag.TheVariants.{Sequence};
    ghost use Rattle.x509_name.specs.Attribute as grammar;

    ghost contents = { grammar.attribute_contents };

    ghost IDENTIFIER = { Sequence };

    const IDENTIFIER: Tag = Tag::Sequence;

    fn read_content(alloc: Global, octets: &[u8]) -> Result<Attribute, Error> {
        let mut rest = octets;
        let oid = read_field::<AttributeType>(alloc, &mut rest)?;
        let values = read_field::<SetOfVec<AttributeValue>>(alloc, &mut rest)?;
        end(rest)?;
        Ok(Attribute { oid, values })
    }

    fn write_content<R: Room>(&self, room: &mut R) -> Result<(), Error> {
        let parts = (&self.oid, &self.values);
        parts.put_part(room)
    }

    ghost contents_lawful = { grammar.attribute_contents_lawful };
}

#[tactic(auto, unfolding(crate::specs::Attribute::attribute_fields, x509_der::specs::Frames::fields_good))]
impl Spelled for Attribute {
    fn has_spelling(&self) {
        self.oid.has_spelling();
        self.values.has_spelling();
    }
}

impl ValueOrd for Attribute {
    ghost use Rattle.x509_name.specs.Attribute as grammar;

    ghost order = { grammar.attribute_order };

    fn value_cmp(&self, other: &Attribute) -> Ordering {
        self.oid
            .der_cmp(&other.oid)
            .then(self.values.der_cmp(&other.values))
    }

    ghost ordered = { grammar.attribute_ordered };
}

impl SetOrd for Attribute {
    ghost use Rattle.x509_name.specs.Attribute as grammar;

    ghost set_order = { grammar.attribute_cmp };
}

impl SetMember for Attribute {
    ghost use Rattle.std.specs.Prelude.{refl};

    ghost in_der_order = { refl };
}

/// Attributes are compared by their encodings, as [`DerOrd`] compares them.
impl PartialEq for Attribute {
    ghost use Rattle.std.specs.Cmp.{partial_equiv_from_equiv};
    ghost use Rattle.x509_name.specs.Attribute as grammar;

    ghost eq = { grammar.attribute_eq };

    ghost laws = { partial_equiv_from_equiv grammar.attribute_equivalence };

    fn eq(&self, other: &Attribute) -> bool {
        self.oid == other.oid && self.values == other.values
    }
}

impl Eq for Attribute {
    ghost use Rattle.x509_name.specs.Attribute as grammar;

    ghost laws = { grammar.attribute_equivalence };
}
