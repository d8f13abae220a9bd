//! The poison extension of precertificates.

use std::alloc::Global;
use x509_der::{
    AssociatedOid, Content, Error, ErrorKind, ObjectIdentifier, Room, Spelled, Tag, TryClone, oid,
};
use x509_ext::{Always, FixedCriticality};

// 1.3.6.1.4.1.11129.2.4.3 (RFC 6962 section 3.1)
const POISON: ObjectIdentifier = oid!(0x2B, 0x06, 0x01, 0x04, 0x01, 0xD6, 0x79, 0x02, 0x04, 0x03);

/// The poison extension: it makes a certificate a precertificate, which is submitted to a log and which no one may
/// accept as a certificate (RFC 6962 section 3.1). Its OID is 1.3.6.1.4.1.11129.2.4.3, and it is critical.
///
/// ```text
/// CtPrecertificatePoison ::= NULL
/// ```
#[derive(Clone, Copy, Debug, PartialEq, Eq)]
pub struct CtPrecertificatePoison;

impl AssociatedOid for CtPrecertificatePoison {
    ghost use Rattle.x509_sct.specs.Identifier.{precertificate_poison};

    ghost OID = { precertificate_poison };

    const OID: ObjectIdentifier = POISON;
}

impl FixedCriticality for CtPrecertificatePoison {
    type Critical = Always;
}

impl Content for CtPrecertificatePoison {
    ghost use Rattle.x509_der.specs.declared.tag.Tag.TheVariants.{Null};
    ghost use Rattle.x509_sct.specs.Poison as grammar;

    ghost contents = { grammar.poison_contents };

    ghost takes_memory = { ⊥ };

    ghost IDENTIFIER = { Null };

    const IDENTIFIER: Tag = Tag::Null;

    fn read_content(_alloc: Global, octets: &[u8]) -> Result<CtPrecertificatePoison, Error> {
        if octets.is_empty() {
            Ok(CtPrecertificatePoison)
        } else {
            Err(ErrorKind::Malformed.into())
        }
    }

    fn write_content<R: Room>(&self, room: &mut R) -> Result<(), Error> {
        room.put(&[])
    }

    ghost contents_lawful = { grammar.poison_contents_lawful };
}

impl Spelled for CtPrecertificatePoison {
    fn has_spelling(&self) {}
}

impl TryClone for CtPrecertificatePoison {
    ghost use Rattle.std.specs.Prelude.{◌≡◌, Ok};

    fn try_clone(&self, _alloc: Global) -> Result<CtPrecertificatePoison, Error>
        ensures { result ≡ Ok self.now }
    {
        Ok(*self)
    }
}
