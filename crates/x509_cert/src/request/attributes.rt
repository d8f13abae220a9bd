//! The attributes of CSRs, and how they are made of their values.

ghost use Rattle.x509_cert.specs.Attributes.{MakesAttribute};
ghost use Rattle.x509_der.specs.Writing.{writes};

use std::alloc::Global;
use x509_der::{
    Any, AssociatedOid, Decode, Encode, Error, Grammar, ObjectIdentifier, Room, SetOfVec, Spelled,
    Tag, Tagged, TryClone, oid,
};
use x509_name::attr::Attribute;
use x509_name::name::DirectoryString;

/// A value that an attribute of a CSR may have. The type of the attribute is the OID of the value's type.
pub trait AsAttribute: AssociatedOid + Tagged + Encode {
    ghost use Rattle.x509_cert.specs.Attributes.{MakesAttribute};
    ghost use Rattle.x509_der.specs.Writing.{writes};

    /// The attribute whose one value is the encoding of this value.
    ///
    /// # Errors
    ///
    /// Those of [`Encode::to_der`] on this value; `Memory` when out of memory.
    fn to_attribute(&self, alloc: Global) -> Result<Attribute, Error>
        ensures { MakesAttribute Self.OID Self.form (writes Self.writing self.now) result }
    {
        attribute_of(alloc, Self::OID, self)
    }
}

/// The attribute of that type whose one value is the encoding of the value.
pub(crate) fn attribute_of<T: Encode>(
    alloc: Global,
    oid: ObjectIdentifier,
    value: &T,
) -> Result<Attribute, Error>
    ensures { MakesAttribute oid T.form (writes T.writing value.now) result }
{
    let element = Any::encode_from(alloc, value)?;
    let mut values = SetOfVec::new(alloc);
    values.insert(element)?;
    Ok(Attribute { oid, values })
}

/// A password by which the subject may later ask that the certificate be revoked (RFC 2985 5.4.1). It is decoded and
/// encoded as its text is. Its OID is 1.2.840.113549.1.9.7.
///
/// ```text
/// ChallengePassword ::= DirectoryString
/// ```
#[derive(Debug, Drop, PartialEq, Eq)]
pub struct ChallengePassword(pub DirectoryString);

impl AssociatedOid for ChallengePassword {
    ghost use Rattle.x509_cert.specs.Identifiers.{pkcs_9};

    ghost OID = { pkcs_9 7 };

    const OID: ObjectIdentifier = oid!(0x2A, 0x86, 0x48, 0x86, 0xF7, 0x0D, 0x01, 0x09, 7);
}

impl Grammar for ChallengePassword {
    ghost use Rattle.x509_cert.specs.ChallengePassword as grammar;

    ghost form = { grammar.challenge_password };

    fn identifier(&self) -> Tag {
        self.0.identifier()
    }

    fn is_start(octet: u8) -> bool {
        DirectoryString::is_start(octet)
    }

    fn usual() -> Tag {
        DirectoryString::usual()
    }

    ghost lawful = { grammar.challenge_password_lawful };
}

impl Decode for ChallengePassword {
    fn read(alloc: Global, tag: u8, content: &[u8]) -> Result<ChallengePassword, Error> {
        Ok(ChallengePassword(DirectoryString::read(alloc, tag, content)?))
    }
}

impl TryClone for ChallengePassword {
    fn try_clone(&self, alloc: Global) -> Result<ChallengePassword, Error> {
        Ok(ChallengePassword(self.0.try_clone(alloc)?))
    }
}

impl Encode for ChallengePassword {
    ghost use Rattle.std.specs.Prelude.{refl};

    fn put_content<R: Room>(&self, room: &mut R) -> Result<(), Error> {
        self.0.put_content(room)
    }

    ghost same_tag = { λ value. refl };
}

impl Spelled for ChallengePassword {
    fn has_spelling(&self) {
        self.0.has_spelling();
    }
}

impl AsAttribute for ChallengePassword {}
