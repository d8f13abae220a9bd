//! Attributes of the subject.

ghost use Rattle.std.specs.Prelude.{◌≡◌, []};

use crate::{FixedCriticality, Never};
use std::alloc::Global;
use x509_der::{AssociatedOid, Newtype, ObjectIdentifier, SequenceOf, oid};
use x509_name::attr::Attribute;

/// The OID of [`SubjectDirectoryAttributes`], 2.5.29.9.
pub const ID_CE_SUBJECT_DIRECTORY_ATTRIBUTES: ObjectIdentifier = oid!(0x55, 0x1D, 9);

/// Attributes of the subject, such as its nationality (RFC 5280 4.2.1.8). Its OID is 2.5.29.9, and it isn't critical.
/// An empty sequence is decoded and encoded too.
///
/// ```text
/// SubjectDirectoryAttributes ::= SEQUENCE OF Attribute
/// ```
#[derive(Debug, Drop, PartialEq, Eq)]
pub struct SubjectDirectoryAttributes(pub SequenceOf<Attribute>);

impl SubjectDirectoryAttributes {
    /// No attributes. It takes no memory.
    pub fn new(alloc: Global) -> SubjectDirectoryAttributes
        ensures { result.0 ≡ [] }
    {
        SubjectDirectoryAttributes(SequenceOf::new(alloc))
    }
}

impl AssociatedOid for SubjectDirectoryAttributes {
    ghost use Rattle.x509_ext.specs.Identifiers.{id_ce};

    ghost OID = { id_ce 9 };

    const OID: ObjectIdentifier = ID_CE_SUBJECT_DIRECTORY_ATTRIBUTES;
}

impl FixedCriticality for SubjectDirectoryAttributes {
    type Critical = Never;
}

impl Newtype for SubjectDirectoryAttributes {
    ghost use Rattle.x509_ext.specs.SubjectDirectoryAttributes.{subject_directory_attributes_round};

    type Inner = SequenceOf<Attribute>;

    ghost round = { subject_directory_attributes_round };

    fn inner(&self) -> &SequenceOf<Attribute> {
        &self.0
    }

    fn from_inner(inner: SequenceOf<Attribute>) -> SubjectDirectoryAttributes {
        SubjectDirectoryAttributes(inner)
    }
}

impl From<SequenceOf<Attribute>> for SubjectDirectoryAttributes {
    ghost from_gives = { λ attributes subject_attributes. subject_attributes.0 ≡ attributes };

    fn from(attributes: SequenceOf<Attribute>) -> SubjectDirectoryAttributes {
        SubjectDirectoryAttributes(attributes)
    }
}

impl From<SubjectDirectoryAttributes> for SequenceOf<Attribute> {
    ghost from_gives = { λ subject_attributes attributes. attributes ≡ subject_attributes.0 };

    fn from(subject_attributes: SubjectDirectoryAttributes) -> SequenceOf<Attribute> {
        let SubjectDirectoryAttributes(attributes) = subject_attributes;
        attributes
    }
}

impl AsRef<SequenceOf<Attribute>> for SubjectDirectoryAttributes {
    fn as_ref(&self) -> &SequenceOf<Attribute>
        ensures { result.now ≡ self.now.0 }
    {
        &self.0
    }
}

impl AsMut<SequenceOf<Attribute>> for SubjectDirectoryAttributes {
    ghost use Rattle.std.specs.Borrow.{Lends, sem};
    ghost use Rattle.x509_ext.specs.PartyRows.{attribute_list_row};
    ghost use Rattle.x509_ext.specs.contracts.pkix.subject_directory_attributes.SubjectDirectoryAttributes.{the_row};

    fn as_mut(&mut self) -> &mut SequenceOf<Attribute>
        ensures* writes_back { sem 𝓛 (Lends the_row attribute_list_row self.entry result (λ w. record { 0 = w })) }
        ensures value { result.now ≡ self.old.0 }
    {
        &mut self.0
    }
}
