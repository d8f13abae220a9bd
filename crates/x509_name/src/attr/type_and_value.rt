//! One attribute of a name: its type, and its value.

ghost use Rattle.std.specs.Prelude.{◌≡◌, ◌⊎◌, IfOk, IfErr};
ghost use Rattle.x509_der.specs.declared.error.ErrorKind.TheVariants.{Memory};
ghost use Rattle.x509_name.specs.Text as text_form;
ghost use Rattle.x509_name.specs.Attributes.{AttributeRefused};

use crate::text::{read_attribute, write_attribute};
use std::alloc::Global;
use std::cmp::Ordering;
use std::fmt;
use std::hash::{Hash, Hasher};
use x509_der::{
    Any, Content, DerOrd, Encode, Error, ObjectIdentifier, PutPart, Room, SetMember, SetOrd,
    Spelled, Tag, TryClone, ValueOrd, end, read_field,
};

/// The type of an attribute (RFC 5280 4.1.2.4).
pub type AttributeType = ObjectIdentifier;

/// The value of an attribute: an element that isn't decoded further (RFC 5280 4.1.2.4).
pub type AttributeValue = Any;

/// An attribute of a name: its type, and one value (RFC 5280 4.1.2.4). Attributes are ordered as `der_cmp` compares
/// them.
///
/// ```text
/// AttributeTypeAndValue ::= SEQUENCE {
///     type   OBJECT IDENTIFIER,
///     value  ANY }
/// ```
#[derive(Debug, Drop)]
pub struct AttributeTypeAndValue {
    /// The type.
    pub oid: AttributeType,

    /// The value.
    pub value: AttributeValue,
}

impl AttributeTypeAndValue {
    /// The attribute that a text says, such as `CN=Good CA` (RFC 4514 sections 2.3, 2.4 and 3).
    ///
    /// # Errors
    ///
    /// Those of [`read_attribute`].
    pub fn from_str(alloc: Global, text: &str) -> Result<AttributeTypeAndValue, Error>
        ensures ok { IfOk result (λ attribute. text_form.Reads text.now attribute) }
        ensures err { IfErr result (λ e. (e.kind ≡ Memory) ⊎ AttributeRefused text.now e.kind) }
    {
        let (oid, value) = read_attribute(alloc, text.as_bytes())?;
        Ok(AttributeTypeAndValue { oid, value })
    }

    /// The encoding of the attribute that a text says.
    ///
    /// # Errors
    ///
    /// Those of [`from_str`](AttributeTypeAndValue::from_str) and of `to_der`.
    pub fn encode_from_string(alloc: Global, text: &str) -> Result<Vec<u8>, Error>
        ensures ok { IfOk result (λ bytes. text_form.Encodes text.now bytes.items) }
        ensures err { IfErr result (λ e. (e.kind ≡ Memory) ⊎ text_form.NotEncoded text.now e.kind) }
    {
        AttributeTypeAndValue::from_str(alloc, text)?.to_der(alloc)
    }
}

/// The text of RFC 4514 sections 2.3 and 2.4, as [`write_attribute`] writes it.
impl fmt::Display for AttributeTypeAndValue {
    ghost use Rattle.std.specs.Prelude.{Some};
    ghost use Rattle.x509_name.specs.Text.{text_of};

    ghost output = { λ attribute. Some (text_of attribute) };

    fn fmt<W: fmt::Write>(&self, f: &mut fmt::Formatter<W>) -> fmt::Result {
        write_attribute(f, &self.oid, &self.value)
    }
}

impl TryClone for AttributeTypeAndValue {
    fn try_clone(&self, alloc: Global) -> Result<AttributeTypeAndValue, Error> {
        Ok(AttributeTypeAndValue {
            oid: self.oid,
            value: self.value.try_clone(alloc)?,
        })
    }
}

#[tactic(auto, unfolding(crate::specs::TypeAndValue::type_and_value_fields, x509_der::specs::Frames::fields_reading, x509_der::specs::Frames::fields_octets))]
impl Content for AttributeTypeAndValue {
    ghost use Rattle.x509_der.specs.declared.tag.Tag.TheVariants.{Sequence};
    ghost use Rattle.x509_name.specs.TypeAndValue as grammar;

    ghost contents = { grammar.type_and_value_contents };

    ghost IDENTIFIER = { Sequence };

    const IDENTIFIER: Tag = Tag::Sequence;

    #[inline(always)]
    fn read_content(alloc: Global, octets: &[u8]) -> Result<AttributeTypeAndValue, Error> {
        let mut rest = octets;
        let oid = read_field::<AttributeType>(alloc, &mut rest)?;
        let value = read_field::<AttributeValue>(alloc, &mut rest)?;
        end(rest)?;
        Ok(AttributeTypeAndValue { oid, value })
    }

    fn write_content<R: Room>(&self, room: &mut R) -> Result<(), Error> {
        let parts = (&self.oid, &self.value);
        parts.put_part(room)
    }

    ghost contents_lawful = { grammar.type_and_value_contents_lawful };
}

#[tactic(auto, unfolding(crate::specs::TypeAndValue::type_and_value_fields, x509_der::specs::Frames::fields_good))]
impl Spelled for AttributeTypeAndValue {
    fn has_spelling(&self) {
        self.oid.has_spelling();
        self.value.has_spelling();
    }
}

impl ValueOrd for AttributeTypeAndValue {
    ghost use Rattle.x509_name.specs.TypeAndValue as grammar;

    ghost order = { grammar.type_and_value_order };

    fn value_cmp(&self, other: &AttributeTypeAndValue) -> Ordering {
        self.oid
            .der_cmp(&other.oid)
            .then(self.value.der_cmp(&other.value))
    }

    ghost ordered = { grammar.type_and_value_ordered };
}

impl SetOrd for AttributeTypeAndValue {
    ghost use Rattle.x509_name.specs.TypeAndValue as grammar;

    ghost set_order = { grammar.type_and_value_cmp };
}

impl SetMember for AttributeTypeAndValue {
    ghost use Rattle.std.specs.Prelude.{refl};

    ghost in_der_order = { refl };
}

impl PartialEq for AttributeTypeAndValue {
    ghost use Rattle.std.specs.Cmp.{partial_equiv_from_equiv};
    ghost use Rattle.x509_name.specs.TypeAndValue as grammar;

    ghost eq = { grammar.type_and_value_eq };

    ghost laws = { partial_equiv_from_equiv grammar.type_and_value_equivalence };

    fn eq(&self, other: &AttributeTypeAndValue) -> bool {
        self.oid == other.oid && self.value == other.value
    }
}

impl Eq for AttributeTypeAndValue {
    ghost use Rattle.x509_name.specs.TypeAndValue as grammar;

    ghost laws = { grammar.type_and_value_equivalence };
}

impl PartialOrd for AttributeTypeAndValue {
    ghost use Rattle.std.specs.Prelude.{refl};
    ghost use Rattle.std.specs.Cmp.{po};
    ghost use Rattle.std.specs.Ordering.{as_partial_cmp};
    ghost use Rattle.x509_name.specs.TypeAndValue as grammar;

    ghost partial_cmp = { as_partial_cmp grammar.type_and_value_cmp };

    ghost laws = { po grammar.type_and_value_total (λ x y. refl) };

    fn partial_cmp(&self, other: &AttributeTypeAndValue) -> Option<Ordering> {
        Some(self.cmp(other))
    }
}

impl Ord for AttributeTypeAndValue {
    ghost use Rattle.std.specs.Prelude.{refl};
    ghost use Rattle.x509_name.specs.TypeAndValue as grammar;

    ghost cmp = { grammar.type_and_value_cmp };

    ghost total = { grammar.type_and_value_total };

    ghost matches_partial_cmp = { λ x y. refl };

    ghost matches_eq = { λ x y. refl };

    fn cmp(&self, other: &AttributeTypeAndValue) -> Ordering {
        self.der_cmp(other)
    }
}

impl Hash for AttributeTypeAndValue {
    ghost use Rattle.std.specs.Prelude.{◌++◌};
    ghost use Rattle.std.specs.Hash.{same_Alike};
    ghost use Rattle.x509_name.specs.TypeAndValue as grammar;

    ghost hash_input = { λ a. ⟦<AttributeType as Hash>⟧.hash_input a.oid ++ ⟦<AttributeValue as Hash>⟧.hash_input a.value };

    ghost respects_eq = { (same_Alike (λ a. ⟦<AttributeType as Hash>⟧.hash_input a.oid ++ ⟦<AttributeValue as Hash>⟧.hash_input a.value)
        grammar.type_and_value_decides).fed };

    fn hash<H: Hasher>(&self, state: &mut H) {
        self.oid.hash(state);
        self.value.hash(state);
    }
}
