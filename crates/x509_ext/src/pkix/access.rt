//! Authority information access and subject information access.

ghost use Rattle.std.specs.Prelude.{◌≡◌, []};

use crate::pkix::name::GeneralName;
use crate::{FixedCriticality, Never};
use std::alloc::Global;
use x509_der::{
    AssociatedOid, Content, Error, Newtype, ObjectIdentifier, PutPart, Room, SequenceOf, Spelled,
    Tag, TryClone, end, oid, read_field,
};

/// Information that can be accessed about the issuer or the subject: by which method, and where (RFC 5280 4.2.2.1).
///
/// ```text
/// AccessDescription ::= SEQUENCE {
///     accessMethod    OBJECT IDENTIFIER,
///     accessLocation  GeneralName }
/// ```
#[derive(Debug, Drop, PartialEq, Eq)]
pub struct AccessDescription {
    /// The OID of the access method.
    pub access_method: ObjectIdentifier,

    /// Where it is accessed.
    pub access_location: GeneralName,
}

impl TryClone for AccessDescription {
    fn try_clone(&self, alloc: Global) -> Result<AccessDescription, Error> {
        Ok(AccessDescription {
            access_method: self.access_method,
            access_location: self.access_location.try_clone(alloc)?,
        })
    }
}

#[tactic(auto, unfolding(crate::specs::Access::access_description_fields, x509_der::specs::Frames::fields_reading, x509_der::specs::Frames::fields_octets))]
impl Content for AccessDescription {
    ghost use Rattle.x509_der.specs.declared.tag.Tag.TheVariants.{Sequence};
    ghost use Rattle.x509_ext.specs.Access as grammar;

    ghost contents = { grammar.access_description_contents };

    ghost IDENTIFIER = { Sequence };

    const IDENTIFIER: Tag = Tag::Sequence;

    fn read_content(alloc: Global, octets: &[u8]) -> Result<AccessDescription, Error> {
        let mut rest = octets;
        let access_method = read_field::<ObjectIdentifier>(alloc, &mut rest)?;
        let access_location = read_field::<GeneralName>(alloc, &mut rest)?;
        end(rest)?;
        Ok(AccessDescription {
            access_method,
            access_location,
        })
    }

    fn write_content<R: Room>(&self, room: &mut R) -> Result<(), Error> {
        let parts = (&self.access_method, &self.access_location);
        parts.put_part(room)
    }

    ghost contents_lawful = { grammar.access_description_contents_lawful };
}

#[tactic(auto, unfolding(crate::specs::Access::access_description_fields, x509_der::specs::Frames::fields_good))]
impl Spelled for AccessDescription {
    fn has_spelling(&self) {
        self.access_method.has_spelling();
        self.access_location.has_spelling();
    }
}

/// Authority information access: where more is found about the issuer, such as its certificates or its OCSP responder
/// (RFC 5280 4.2.2.1). Its OID is 1.3.6.1.5.5.7.1.1, and it isn't critical. An empty sequence is decoded and encoded
/// too.
///
/// ```text
/// AuthorityInfoAccessSyntax ::= SEQUENCE OF AccessDescription
/// ```
#[derive(Debug, Drop, PartialEq, Eq)]
pub struct AuthorityInfoAccessSyntax(pub SequenceOf<AccessDescription>);

impl AuthorityInfoAccessSyntax {
    /// No access descriptions. It takes no memory.
    pub fn new(alloc: Global) -> AuthorityInfoAccessSyntax
        ensures { result.0 ≡ [] }
    {
        AuthorityInfoAccessSyntax(SequenceOf::new(alloc))
    }
}

impl AssociatedOid for AuthorityInfoAccessSyntax {
    ghost use Rattle.x509_ext.specs.Identifiers.{id_pkix};

    ghost OID = { id_pkix 1 1 };

    const OID: ObjectIdentifier = oid!(0x2B, 0x06, 0x01, 0x05, 0x05, 0x07, 1, 1);
}

impl FixedCriticality for AuthorityInfoAccessSyntax {
    type Critical = Never;
}

impl Newtype for AuthorityInfoAccessSyntax {
    ghost use Rattle.x509_ext.specs.Access.{authority_info_access_syntax_round};

    type Inner = SequenceOf<AccessDescription>;

    ghost round = { authority_info_access_syntax_round };

    fn inner(&self) -> &SequenceOf<AccessDescription> {
        &self.0
    }

    fn from_inner(inner: SequenceOf<AccessDescription>) -> AuthorityInfoAccessSyntax {
        AuthorityInfoAccessSyntax(inner)
    }
}

impl From<SequenceOf<AccessDescription>> for AuthorityInfoAccessSyntax {
    ghost from_gives = { λ descriptions access. access.0 ≡ descriptions };

    fn from(descriptions: SequenceOf<AccessDescription>) -> AuthorityInfoAccessSyntax {
        AuthorityInfoAccessSyntax(descriptions)
    }
}

impl From<AuthorityInfoAccessSyntax> for SequenceOf<AccessDescription> {
    ghost from_gives = { λ access descriptions. descriptions ≡ access.0 };

    fn from(access: AuthorityInfoAccessSyntax) -> SequenceOf<AccessDescription> {
        let AuthorityInfoAccessSyntax(descriptions) = access;
        descriptions
    }
}

impl AsRef<SequenceOf<AccessDescription>> for AuthorityInfoAccessSyntax {
    fn as_ref(&self) -> &SequenceOf<AccessDescription>
        ensures { result.now ≡ self.now.0 }
    {
        &self.0
    }
}

impl AsMut<SequenceOf<AccessDescription>> for AuthorityInfoAccessSyntax {
    ghost use Rattle.std.specs.Borrow.{Lends, sem};
    ghost use Rattle.x509_ext.specs.PartyRows.{access_list_row};
    ghost use Rattle.x509_ext.specs.contracts.pkix.access.AuthorityInfoAccessSyntax.{the_row};

    fn as_mut(&mut self) -> &mut SequenceOf<AccessDescription>
        ensures* writes_back { sem 𝓛 (Lends the_row access_list_row self.entry result (λ w. record { 0 = w })) }
        ensures value { result.now ≡ self.old.0 }
    {
        &mut self.0
    }
}

/// Subject information access: where more is found about the subject (RFC 5280 4.2.2.2). Its OID is 1.3.6.1.5.5.7.1.11,
/// and it isn't critical. An empty sequence is decoded and encoded too.
///
/// ```text
/// SubjectInfoAccessSyntax ::= SEQUENCE OF AccessDescription
/// ```
#[derive(Debug, Drop, PartialEq, Eq)]
pub struct SubjectInfoAccessSyntax(pub SequenceOf<AccessDescription>);

impl SubjectInfoAccessSyntax {
    /// No access descriptions. It takes no memory.
    pub fn new(alloc: Global) -> SubjectInfoAccessSyntax
        ensures { result.0 ≡ [] }
    {
        SubjectInfoAccessSyntax(SequenceOf::new(alloc))
    }
}

impl AssociatedOid for SubjectInfoAccessSyntax {
    ghost use Rattle.x509_ext.specs.Identifiers.{id_pkix};

    ghost OID = { id_pkix 1 11 };

    const OID: ObjectIdentifier = oid!(0x2B, 0x06, 0x01, 0x05, 0x05, 0x07, 1, 11);
}

impl FixedCriticality for SubjectInfoAccessSyntax {
    type Critical = Never;
}

impl Newtype for SubjectInfoAccessSyntax {
    ghost use Rattle.x509_ext.specs.Access.{subject_info_access_syntax_round};

    type Inner = SequenceOf<AccessDescription>;

    ghost round = { subject_info_access_syntax_round };

    fn inner(&self) -> &SequenceOf<AccessDescription> {
        &self.0
    }

    fn from_inner(inner: SequenceOf<AccessDescription>) -> SubjectInfoAccessSyntax {
        SubjectInfoAccessSyntax(inner)
    }
}

impl From<SequenceOf<AccessDescription>> for SubjectInfoAccessSyntax {
    ghost from_gives = { λ descriptions access. access.0 ≡ descriptions };

    fn from(descriptions: SequenceOf<AccessDescription>) -> SubjectInfoAccessSyntax {
        SubjectInfoAccessSyntax(descriptions)
    }
}

impl From<SubjectInfoAccessSyntax> for SequenceOf<AccessDescription> {
    ghost from_gives = { λ access descriptions. descriptions ≡ access.0 };

    fn from(access: SubjectInfoAccessSyntax) -> SequenceOf<AccessDescription> {
        let SubjectInfoAccessSyntax(descriptions) = access;
        descriptions
    }
}

impl AsRef<SequenceOf<AccessDescription>> for SubjectInfoAccessSyntax {
    fn as_ref(&self) -> &SequenceOf<AccessDescription>
        ensures { result.now ≡ self.now.0 }
    {
        &self.0
    }
}

impl AsMut<SequenceOf<AccessDescription>> for SubjectInfoAccessSyntax {
    ghost use Rattle.std.specs.Borrow.{Lends, sem};
    ghost use Rattle.x509_ext.specs.PartyRows.{access_list_row};
    ghost use Rattle.x509_ext.specs.contracts.pkix.access.SubjectInfoAccessSyntax.{the_row};

    fn as_mut(&mut self) -> &mut SequenceOf<AccessDescription>
        ensures* writes_back { sem 𝓛 (Lends the_row access_list_row self.entry result (λ w. record { 0 = w })) }
        ensures value { result.now ≡ self.old.0 }
    {
        &mut self.0
    }
}
