//! Names whose type is given by an OID.

ghost use Rattle.std.specs.Prelude.{◌≡◌, ◌<◌, ◌⊎◌, length, IfOk, IfErr};
ghost use Rattle.x509_der.specs.Element.{limit};
ghost use Rattle.x509_der.specs.declared.error.ErrorKind.TheVariants.{Memory, Overlength};
ghost use Rattle.x509_der.specs.Form.{spelling};
ghost use Rattle.x509_ext.specs.HardwareModuleName.{IsModuleIn, hardware_module_name, id_on_hardware_module_name};

use crate::pkix::name::hardware_module_name::{HardwareModuleName, ID_ON_HARDWARE_MODULE_NAME};
use std::alloc::Global;
use std::cmp::Ordering;
use x509_der::{
    Any, CmpPart, Content, EncodingOrd, Error, ObjectIdentifier, PutPart, Room, SetMember, SetOrd,
    Spelled, Tag, TryClone, ValueOrd, both, both_explicit, end, explicit, read_explicit,
    read_field,
};

/// A name whose type is given by an OID (RFC 5280 4.2.1.6).
///
/// ```text
/// OtherName ::= SEQUENCE {
///     type-id  OBJECT IDENTIFIER,
///     value    [0] EXPLICIT ANY DEFINED BY type-id }
/// ```
#[derive(Debug, Drop, PartialEq, Eq)]
pub struct OtherName {
    /// The OID of the name's type.
    pub type_id: ObjectIdentifier,

    /// The name, of the type that the OID says.
    pub value: Any,
}

impl OtherName {
    /// The name of a hardware module (RFC 4108 5).
    ///
    /// # Errors
    ///
    /// `Overlength` exactly where the element of the module's name would be longer than
    /// [`Length::MAX`](x509_der::Length::MAX). `Memory` when out of memory.
    pub fn from_hardware_module(
        alloc: Global,
        hardware: &HardwareModuleName,
    ) -> Result<OtherName, Error>
        ensures ok { IfOk result (λ other. (other.type_id ≡ id_on_hardware_module_name) × IsModuleIn hardware.now other.value) }
        ensures err { IfErr result (λ e. (e.kind ≡ Memory) ⊎ ((e.kind ≡ Overlength) × (limit < length (spelling hardware_module_name hardware.now)))) }
    {
        Ok(OtherName {
            type_id: ID_ON_HARDWARE_MODULE_NAME,
            value: Any::encode_from(alloc, hardware)?,
        })
    }
}

impl TryClone for OtherName {
    fn try_clone(&self, alloc: Global) -> Result<OtherName, Error> {
        Ok(OtherName {
            type_id: self.type_id,
            value: self.value.try_clone(alloc)?,
        })
    }
}

#[tactic(auto, unfolding(crate::specs::OtherName::other_name_fields, x509_der::specs::Frames::fields_reading, x509_der::specs::Frames::fields_octets))]
impl Content for OtherName {
    ghost use Rattle.x509_der.specs.declared.tag.Tag.TheVariants.{Sequence};
    ghost use Rattle.x509_ext.specs.OtherName as grammar;

    ghost contents = { grammar.other_name_contents };

    ghost IDENTIFIER = { Sequence };

    const IDENTIFIER: Tag = Tag::Sequence;

    fn read_content(alloc: Global, octets: &[u8]) -> Result<OtherName, Error> {
        let mut rest = octets;
        let type_id = read_field::<ObjectIdentifier>(alloc, &mut rest)?;
        let value = read_explicit::<Any>(alloc, 0, &mut rest)?;
        end(rest)?;
        Ok(OtherName { type_id, value })
    }

    fn write_content<R: Room>(&self, room: &mut R) -> Result<(), Error> {
        let parts = (&self.type_id, explicit(0, &self.value));
        parts.put_part(room)
    }

    ghost contents_lawful = { grammar.other_name_contents_lawful };
}

impl ValueOrd for OtherName {
    ghost use Rattle.x509_ext.specs.OtherName as grammar;

    ghost order = { grammar.other_name_order };

    fn value_cmp(&self, other: &OtherName) -> Ordering {
        let parts = (
            both(&self.type_id, &other.type_id),
            both_explicit(0, &self.value, &other.value),
        );
        parts.cmp_part(None, None)
    }

    ghost ordered = { grammar.other_name_ordered };
}

impl SetOrd for OtherName {
    ghost set_order = { ⟦<OtherName as EncodingOrd>⟧.encoding_order };
}

impl SetMember for OtherName {
    ghost use Rattle.std.specs.Prelude.{refl};

    ghost in_der_order = { refl };
}

#[tactic(auto, unfolding(crate::specs::OtherName::other_name_fields, x509_der::specs::Frames::fields_good))]
impl Spelled for OtherName {
    fn has_spelling(&self) {
        self.type_id.has_spelling();
        self.value.has_spelling();
    }
}
