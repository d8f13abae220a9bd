//! Policies with their qualifiers.

use std::alloc::Global;
use x509_der::{
    Any, Content, Error, ObjectIdentifier, PutPart, Room, SequenceOf, Spelled, Tag, TryClone, end,
    option_has_spelling, optional, read_field, read_optional,
};

/// A policy, perhaps with qualifiers (RFC 5280 4.2.1.4).
///
/// ```text
/// PolicyInformation ::= SEQUENCE {
///     policyIdentifier  CertPolicyId,
///     policyQualifiers  SEQUENCE OF PolicyQualifierInfo OPTIONAL }
/// CertPolicyId ::= OBJECT IDENTIFIER
/// ```
#[derive(Debug, PartialEq, Eq)]
pub struct PolicyInformation {
    /// The OID of the policy.
    pub policy_identifier: ObjectIdentifier,

    /// The qualifiers. An empty sequence is decoded and encoded too.
    pub policy_qualifiers: Option<SequenceOf<PolicyQualifierInfo>>,
}

impl Drop for PolicyInformation {
    fn drop(self) {
        let PolicyInformation {
            policy_identifier: _,
            policy_qualifiers: _,
        } = self;
    }
}

impl TryClone for PolicyInformation {
    fn try_clone(&self, alloc: Global) -> Result<PolicyInformation, Error> {
        Ok(PolicyInformation {
            policy_identifier: self.policy_identifier,
            policy_qualifiers: self.policy_qualifiers.try_clone(alloc)?,
        })
    }
}

#[tactic(auto, unfolding(crate::specs::PolicyInformation::policy_information_fields, x509_der::specs::Frames::fields_reading, x509_der::specs::Frames::fields_octets))]
impl Content for PolicyInformation {
    ghost use Rattle.x509_der.specs.declared.tag.Tag.TheVariants.{Sequence};
    ghost use Rattle.x509_ext.specs.PolicyInformation as grammar;

    ghost contents = { grammar.policy_information_contents };

    ghost IDENTIFIER = { Sequence };

    const IDENTIFIER: Tag = Tag::Sequence;

    fn read_content(alloc: Global, octets: &[u8]) -> Result<PolicyInformation, Error> {
        let mut rest = octets;
        let policy_identifier = read_field::<ObjectIdentifier>(alloc, &mut rest)?;
        let policy_qualifiers = read_optional::<SequenceOf<PolicyQualifierInfo>>(alloc, &mut rest)?;
        end(rest)?;
        Ok(PolicyInformation {
            policy_identifier,
            policy_qualifiers,
        })
    }

    fn write_content<R: Room>(&self, room: &mut R) -> Result<(), Error> {
        let parts = (&self.policy_identifier, optional(&self.policy_qualifiers));
        parts.put_part(room)
    }

    ghost contents_lawful = { grammar.policy_information_contents_lawful };
}

#[tactic(auto, unfolding(crate::specs::PolicyInformation::policy_information_fields, x509_der::specs::Frames::fields_good))]
impl Spelled for PolicyInformation {
    fn has_spelling(&self) {
        self.policy_identifier.has_spelling();
        option_has_spelling(&self.policy_qualifiers);
    }
}

/// A policy qualifier (RFC 5280 4.2.1.4), such as a [`CpsUri`](crate::pkix::certpolicy::CpsUri) or a [`UserNotice`](crate::pkix::certpolicy::UserNotice).
///
/// ```text
/// PolicyQualifierInfo ::= SEQUENCE {
///     policyQualifierId  OBJECT IDENTIFIER,
///     qualifier          ANY DEFINED BY policyQualifierId OPTIONAL }
/// ```
#[derive(Debug, PartialEq, Eq)]
pub struct PolicyQualifierInfo {
    /// The OID of the qualifier's type.
    pub policy_qualifier_id: ObjectIdentifier,

    /// The qualifier: one element of any type, which may be absent. It isn't decoded here.
    pub qualifier: Option<Any>,
}

impl Drop for PolicyQualifierInfo {
    fn drop(self) {
        let PolicyQualifierInfo {
            policy_qualifier_id: _,
            qualifier: _,
        } = self;
    }
}

impl TryClone for PolicyQualifierInfo {
    fn try_clone(&self, alloc: Global) -> Result<PolicyQualifierInfo, Error> {
        Ok(PolicyQualifierInfo {
            policy_qualifier_id: self.policy_qualifier_id,
            qualifier: self.qualifier.try_clone(alloc)?,
        })
    }
}

#[tactic(auto, unfolding(crate::specs::PolicyQualifierInfo::policy_qualifier_info_fields, x509_der::specs::Frames::fields_reading, x509_der::specs::Frames::fields_octets))]
impl Content for PolicyQualifierInfo {
    ghost use Rattle.x509_der.specs.declared.tag.Tag.TheVariants.{Sequence};
    ghost use Rattle.x509_ext.specs.PolicyQualifierInfo as grammar;

    ghost contents = { grammar.policy_qualifier_info_contents };

    ghost IDENTIFIER = { Sequence };

    const IDENTIFIER: Tag = Tag::Sequence;

    fn read_content(alloc: Global, octets: &[u8]) -> Result<PolicyQualifierInfo, Error> {
        let mut rest = octets;
        let policy_qualifier_id = read_field::<ObjectIdentifier>(alloc, &mut rest)?;
        let qualifier = read_optional::<Any>(alloc, &mut rest)?;
        end(rest)?;
        Ok(PolicyQualifierInfo {
            policy_qualifier_id,
            qualifier,
        })
    }

    fn write_content<R: Room>(&self, room: &mut R) -> Result<(), Error> {
        let parts = (&self.policy_qualifier_id, optional(&self.qualifier));
        parts.put_part(room)
    }

    ghost contents_lawful = { grammar.policy_qualifier_info_contents_lawful };
}

#[tactic(auto, unfolding(crate::specs::PolicyQualifierInfo::policy_qualifier_info_fields, x509_der::specs::Frames::fields_good))]
impl Spelled for PolicyQualifierInfo {
    fn has_spelling(&self) {
        self.policy_qualifier_id.has_spelling();
        option_has_spelling(&self.qualifier);
    }
}
