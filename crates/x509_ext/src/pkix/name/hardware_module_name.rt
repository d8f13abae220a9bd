//! Names of hardware modules.

ghost use Rattle.x509_ext.specs.HardwareModuleName.{ReadsHardwareModule};

use crate::pkix::name::other_name::OtherName;
use std::alloc::Global;
use std::cmp::Ordering;
use x509_der::{
    CmpPart, Content, EncodingOrd, Error, ObjectIdentifier, PutPart, Room, SetMember, SetOrd,
    Spelled, Tag, TryClone, ValueOrd, both, end, oid, read_field,
};
use x509_prim::OctetString;

/// The `type_id` of an [`OtherName`] that is a [`HardwareModuleName`], 1.3.6.1.5.5.7.8.4 (RFC 4108 5).
pub const ID_ON_HARDWARE_MODULE_NAME: ObjectIdentifier = oid!(
    0x2B, 0x06, 0x01, 0x05, 0x05, 0x07, 8, 4
);

/// The name of a hardware module (RFC 4108 5).
///
/// ```text
/// HardwareModuleName ::= SEQUENCE {
///     hwType       OBJECT IDENTIFIER,
///     hwSerialNum  OCTET STRING }
/// ```
#[derive(Debug, Drop, PartialEq, Eq)]
pub struct HardwareModuleName {
    /// The type of module.
    pub hw_type: ObjectIdentifier,

    /// The serial number of the module, among those of its type.
    pub hw_serial_num: OctetString,
}

impl HardwareModuleName {
    /// The name of a hardware module that stands in an `otherName`; `None` exactly where the OID is another one.
    ///
    /// # Errors
    ///
    /// Where the OID is [`ID_ON_HARDWARE_MODULE_NAME`]: `Malformed` exactly where the value is no
    /// [`HardwareModuleName`], and `Memory` when out of memory.
    pub fn from_other_name(
        alloc: Global,
        other_name: &OtherName,
    ) -> Result<Option<HardwareModuleName>, Error>
        ensures { ReadsHardwareModule other_name.now result }
    {
        if other_name.type_id == ID_ON_HARDWARE_MODULE_NAME {
            Ok(Some(other_name.value.decode_as::<HardwareModuleName>(alloc)?))
        } else {
            Ok(None)
        }
    }
}

impl TryClone for HardwareModuleName {
    fn try_clone(&self, alloc: Global) -> Result<HardwareModuleName, Error> {
        Ok(HardwareModuleName {
            hw_type: self.hw_type,
            hw_serial_num: self.hw_serial_num.try_clone(alloc)?,
        })
    }
}

#[tactic(auto, unfolding(crate::specs::HardwareModuleName::hardware_module_name_fields, x509_der::specs::Frames::fields_reading, x509_der::specs::Frames::fields_octets))]
impl Content for HardwareModuleName {
    ghost use Rattle.x509_der.specs.declared.tag.Tag.TheVariants.{Sequence};
    ghost use Rattle.x509_ext.specs.HardwareModuleName as grammar;

    ghost contents = { grammar.hardware_module_name_contents };

    ghost IDENTIFIER = { Sequence };

    const IDENTIFIER: Tag = Tag::Sequence;

    fn read_content(alloc: Global, octets: &[u8]) -> Result<HardwareModuleName, Error> {
        let mut rest = octets;
        let hw_type = read_field::<ObjectIdentifier>(alloc, &mut rest)?;
        let hw_serial_num = read_field::<OctetString>(alloc, &mut rest)?;
        end(rest)?;
        Ok(HardwareModuleName {
            hw_type,
            hw_serial_num,
        })
    }

    fn write_content<R: Room>(&self, room: &mut R) -> Result<(), Error> {
        let parts = (&self.hw_type, &self.hw_serial_num);
        parts.put_part(room)
    }

    ghost contents_lawful = { grammar.hardware_module_name_contents_lawful };
}

impl ValueOrd for HardwareModuleName {
    ghost use Rattle.x509_ext.specs.HardwareModuleName as grammar;

    ghost order = { grammar.hardware_module_name_order };

    fn value_cmp(&self, other: &HardwareModuleName) -> Ordering {
        let parts = (
            both(&self.hw_type, &other.hw_type),
            both(&self.hw_serial_num, &other.hw_serial_num),
        );
        parts.cmp_part(None, None)
    }

    ghost ordered = { grammar.hardware_module_name_ordered };
}

impl SetOrd for HardwareModuleName {
    ghost set_order = { ⟦<HardwareModuleName as EncodingOrd>⟧.encoding_order };
}

impl SetMember for HardwareModuleName {
    ghost use Rattle.std.specs.Prelude.{refl};

    ghost in_der_order = { refl };
}

#[tactic(auto, unfolding(crate::specs::HardwareModuleName::hardware_module_name_fields, x509_der::specs::Frames::fields_good))]
impl Spelled for HardwareModuleName {
    fn has_spelling(&self) {
        self.hw_type.has_spelling();
        self.hw_serial_num.has_spelling();
    }
}
