//! Extensions, whose values aren't decoded further.

use std::alloc::Global;
use std::cmp::Ordering;
use x509_der::{
    CmpPart, Content, EncodingOrd, Error, ObjectIdentifier, PutPart, Room, SequenceOf, SetMember,
    SetOrd, Spelled, Tag, TryClone, ValueOrd, both, both_defaulted, defaulted, end, read_defaulted,
    read_field,
};
use x509_prim::OctetString;

/// An extension (RFC 5280 4.1 and 4.2).
///
/// ```text
/// Extension ::= SEQUENCE {
///     extnID     OBJECT IDENTIFIER,
///     critical   BOOLEAN DEFAULT FALSE,
///     extnValue  OCTET STRING }
/// ```
#[derive(Debug, Drop, PartialEq, Eq)]
pub struct Extension {
    /// The OID of the extension.
    pub extn_id: ObjectIdentifier,

    /// Whether an implementation that doesn't know the extension, or can't process its value, has to refuse the
    /// certificate or CRL (RFC 5280 4.2).
    pub critical: bool,

    /// The encoding of the extension's value. It isn't decoded here.
    pub extn_value: OctetString,
}

/// A list of extensions, in their order (RFC 5280 4.1.2.9). An empty sequence is decoded and encoded too.
///
/// ```text
/// Extensions ::= SEQUENCE OF Extension
/// ```
pub type Extensions = SequenceOf<Extension>;

impl TryClone for Extension {
    fn try_clone(&self, alloc: Global) -> Result<Extension, Error> {
        Ok(Extension {
            extn_id: self.extn_id,
            critical: self.critical,
            extn_value: self.extn_value.try_clone(alloc)?,
        })
    }
}

#[tactic(auto, unfolding(crate::specs::Extension::extension_fields, x509_der::specs::Frames::fields_reading, x509_der::specs::Frames::fields_octets))]
impl Content for Extension {
    ghost use Rattle.x509_der.specs.declared.tag.Tag.TheVariants.{Sequence};
    ghost use Rattle.x509_ext.specs.Extension as grammar;

    ghost contents = { grammar.extension_contents };

    ghost IDENTIFIER = { Sequence };

    const IDENTIFIER: Tag = Tag::Sequence;

    #[inline(always)]
    fn read_content(alloc: Global, octets: &[u8]) -> Result<Extension, Error> {
        let mut rest = octets;
        let extn_id = read_field::<ObjectIdentifier>(alloc, &mut rest)?;
        let critical = read_defaulted::<bool>(alloc, &mut rest)?;
        let extn_value = read_field::<OctetString>(alloc, &mut rest)?;
        end(rest)?;
        Ok(Extension {
            extn_id,
            critical,
            extn_value,
        })
    }

    fn write_content<R: Room>(&self, room: &mut R) -> Result<(), Error> {
        let parts = (&self.extn_id, (defaulted(&self.critical), &self.extn_value));
        parts.put_part(room)
    }

    ghost contents_lawful = { grammar.extension_contents_lawful };
}

impl ValueOrd for Extension {
    ghost use Rattle.x509_ext.specs.Extension as grammar;

    ghost order = { grammar.extension_order };

    fn value_cmp(&self, other: &Extension) -> Ordering {
        let parts = (
            both(&self.extn_id, &other.extn_id),
            (
                both_defaulted(&self.critical, &other.critical),
                both(&self.extn_value, &other.extn_value),
            ),
        );
        parts.cmp_part(None, None)
    }

    ghost ordered = { grammar.extension_ordered };
}

impl SetOrd for Extension {
    ghost set_order = { ⟦<Extension as EncodingOrd>⟧.encoding_order };
}

impl SetMember for Extension {
    ghost use Rattle.std.specs.Prelude.{refl};

    ghost in_der_order = { refl };
}

#[tactic(auto, unfolding(crate::specs::Extension::extension_fields, x509_der::specs::Frames::fields_good))]
impl Spelled for Extension {
    fn has_spelling(&self) {
        self.extn_id.has_spelling();
        self.critical.has_spelling();
        self.extn_value.has_spelling();
    }
}
