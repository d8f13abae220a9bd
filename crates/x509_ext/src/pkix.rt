//! The extensions of RFC 5280 (4.2, 5.2, 5.3): the types of their values.

mod access;
mod alternative_names;
mod authority_key_identifier;
mod basic_constraints;
pub(crate) mod certificate_issuer;
pub(crate) mod certificate_policies;
pub(crate) mod crl_number;
pub(crate) mod crl_reason;
pub(crate) mod display_text;
pub(crate) mod distribution_point;
pub(crate) mod distribution_points;
mod extended_key_usage;
pub(crate) mod general_subtree;
pub(crate) mod inhibit_any_policy;
pub(crate) mod issuing_distribution_point;
mod key_usage;
pub mod name;
pub(crate) mod name_constraints;
pub(crate) mod policy_constraints;
pub(crate) mod policy_information;
pub(crate) mod policy_mapping;
mod private_key_usage_period;
pub(crate) mod reasons;
mod subject_directory_attributes;
mod subject_key_identifier;
pub(crate) mod user_notice;

pub use access::{AccessDescription, AuthorityInfoAccessSyntax, SubjectInfoAccessSyntax};
pub use alternative_names::{
    ID_CE_ISSUER_ALT_NAME, ID_CE_SUBJECT_ALT_NAME, IssuerAltName, SubjectAltName,
};
pub use authority_key_identifier::AuthorityKeyIdentifier;
pub use basic_constraints::BasicConstraints;
pub use certificate_issuer::CertificateIssuer;
pub use certificate_policies::CertificatePolicies;
pub use crl_number::{BaseCrlNumber, CrlNumber};
pub use crl_reason::CrlReason;
pub use distribution_points::{CrlDistributionPoints, FreshestCrl};
pub use extended_key_usage::ExtendedKeyUsage;
pub use inhibit_any_policy::{ID_CE_INHIBIT_ANY_POLICY, InhibitAnyPolicy};
pub use issuing_distribution_point::IssuingDistributionPoint;
pub use key_usage::{KeyUsage, KeyUsages};
pub use name_constraints::NameConstraints;
pub use policy_constraints::PolicyConstraints;
pub use policy_mapping::{PolicyMapping, PolicyMappings};
pub use private_key_usage_period::PrivateKeyUsagePeriod;
pub use subject_directory_attributes::{
    ID_CE_SUBJECT_DIRECTORY_ATTRIBUTES, SubjectDirectoryAttributes,
};
pub use subject_key_identifier::{
    ID_CE_SUBJECT_KEY_IDENTIFIER, SubjectKeyIdentifier, key_identifier,
};

/// Certificate policies.
pub mod certpolicy {
    pub use super::certificate_policies::CertificatePolicies;
    pub use super::display_text::{CpsUri, DisplayText};
    pub use super::policy_information::{PolicyInformation, PolicyQualifierInfo};
    pub use super::user_notice::{NoticeReference, UserNotice};
}

/// Basic, name and policy constraints: what limits the certificates that may follow in a path.
pub mod constraints {
    pub use super::basic_constraints::BasicConstraints;
    pub use super::name_constraints::NameConstraints;
    pub use super::policy_constraints::PolicyConstraints;

    /// Name constraints.
    pub mod name {
        pub use super::super::general_subtree::{GeneralSubtree, GeneralSubtrees};
        pub use super::super::name_constraints::NameConstraints;
    }
}

/// Extensions about CRLs.
pub mod crl {
    pub use super::certificate_issuer::CertificateIssuer;
    pub use super::crl_number::{BaseCrlNumber, CrlNumber};
    pub use super::crl_reason::CrlReason;
    pub use super::distribution_points::{CrlDistributionPoints, FreshestCrl};
    pub use super::issuing_distribution_point::IssuingDistributionPoint;

    /// CRL distribution points: where CRLs are found.
    pub mod dp {
        pub use super::super::distribution_point::DistributionPoint;
        pub use super::super::issuing_distribution_point::IssuingDistributionPoint;
        pub use super::super::reasons::{ReasonFlags, Reasons};
    }
}
