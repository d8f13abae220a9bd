//! Rules on which extensions of a certificate are critical (RFC 5280 4.2.1, 4.2.2).

ghost use Rattle.x509_lint.specs.Critical as grammar;
ghost use Rattle.x509_lint.specs.Wording.{Says};

use crate::entry::{Entry, rules};
use crate::extensions::{has_critical, has_uncritical};
use crate::facts::CertificateFacts;
use crate::group::{Group, Told};
use crate::names::is_empty_name;
use crate::other_types::{OcspNoCheck, PrecertificatePoison};
use crate::rule::Rule;
use x509_base::Raw;
use x509_cert::certificate::CertificateInner;
use x509_ext::members;
use x509_ext::pkix::{
    AuthorityInfoAccessSyntax, AuthorityKeyIdentifier, CrlDistributionPoints, FreshestCrl,
    InhibitAnyPolicy, IssuerAltName, KeyUsage, NameConstraints, PolicyConstraints, PolicyMappings,
    SubjectAltName, SubjectDirectoryAttributes, SubjectInfoAccessSyntax, SubjectKeyIdentifier,
};

/// Rules on which extensions of a certificate are critical (RFC 5280 4.2.1, 4.2.2).
#[derive(Clone, Copy, PartialEq, Eq)]
pub enum CriticalRule {
    /// An AKI is critical (RFC 5280 4.2.1.1, error).
    AuthorityKeyIdentifierCritical,

    /// A SKI is critical (RFC 5280 4.2.1.2, error).
    SubjectKeyIdentifierCritical,

    /// A KeyUsage isn't critical (RFC 5280 4.2.1.3, warning).
    KeyUsageNotCritical,

    /// A PolicyMappings isn't critical (RFC 5280 4.2.1.5, warning).
    PolicyMappingsNotCritical,

    /// A SAN is critical, and the subject isn't the empty name (RFC 5280 4.2.1.6, warning).
    SubjectAltNameCritical,

    /// An IAN is critical (RFC 5280 4.2.1.7, warning).
    IssuerAltNameCritical,

    /// A SubjectDirectoryAttributes is critical (RFC 5280 4.2.1.8, error).
    SubjectDirectoryAttributesCritical,

    /// A NameConstraints isn't critical (RFC 5280 4.2.1.10, error).
    NameConstraintsNotCritical,

    /// A PolicyConstraints isn't critical (RFC 5280 4.2.1.11, error).
    PolicyConstraintsNotCritical,

    /// A CRLDistributionPoints is critical (RFC 5280 4.2.1.13, warning).
    CrlDistributionPointsCritical,

    /// An InhibitAnyPolicy isn't critical (RFC 5280 4.2.1.14, error).
    InhibitAnyPolicyNotCritical,

    /// A FreshestCRL is critical (RFC 5280 4.2.1.15, error).
    FreshestCrlCritical,

    /// An AuthorityInfoAccess is critical (RFC 5280 4.2.2.1, error).
    AuthorityInfoAccessCritical,

    /// A SubjectInfoAccess is critical (RFC 5280 4.2.2.2, error).
    SubjectInfoAccessCritical,

    /// An id-pkix-ocsp-nocheck is critical (RFC 6960 4.2.2.2.1, warning).
    OcspNoCheckCritical,

    /// The poison extension of a precertificate isn't critical (RFC 6962 3.1, error).
    PrecertificatePoisonNotCritical,
}

/// The rules in their order, with how each is told.
pub(crate) static CRITICAL_RULES: [Told<CriticalRule>; 16] = rules! { CriticalRule;
    AuthorityKeyIdentifierCritical => must("authority_key_identifier_critical", "4.2.1.1", "tbsCertificate.extensions.authorityKeyIdentifier"),
    SubjectKeyIdentifierCritical => must("subject_key_identifier_critical", "4.2.1.2", "tbsCertificate.extensions.subjectKeyIdentifier"),
    KeyUsageNotCritical => should("key_usage_not_critical", "4.2.1.3", "tbsCertificate.extensions.keyUsage"),
    PolicyMappingsNotCritical => should("policy_mappings_not_critical", "4.2.1.5", "tbsCertificate.extensions.policyMappings"),
    SubjectAltNameCritical => should("subject_alt_name_critical", "4.2.1.6", "tbsCertificate.extensions.subjectAltName"),
    IssuerAltNameCritical => should("issuer_alt_name_critical", "4.2.1.7", "tbsCertificate.extensions.issuerAltName"),
    SubjectDirectoryAttributesCritical => must("subject_directory_attributes_critical", "4.2.1.8", "tbsCertificate.extensions.subjectDirectoryAttributes"),
    NameConstraintsNotCritical => must("name_constraints_not_critical", "4.2.1.10", "tbsCertificate.extensions.nameConstraints"),
    PolicyConstraintsNotCritical => must("policy_constraints_not_critical", "4.2.1.11", "tbsCertificate.extensions.policyConstraints"),
    CrlDistributionPointsCritical => should("crl_distribution_points_critical", "4.2.1.13", "tbsCertificate.extensions.cRLDistributionPoints"),
    InhibitAnyPolicyNotCritical => must("inhibit_any_policy_not_critical", "4.2.1.14", "tbsCertificate.extensions.inhibitAnyPolicy"),
    FreshestCrlCritical => must("freshest_crl_critical", "4.2.1.15", "tbsCertificate.extensions.freshestCRL"),
    AuthorityInfoAccessCritical => must("authority_info_access_critical", "4.2.2.1", "tbsCertificate.extensions.authorityInfoAccess"),
    SubjectInfoAccessCritical => must("subject_info_access_critical", "4.2.2.2", "tbsCertificate.extensions.subjectInfoAccess"),
    OcspNoCheckCritical => should_of("RFC 6960", "ocsp_no_check_critical", "4.2.2.2.1", "tbsCertificate.extensions.ocspNoCheck"),
    PrecertificatePoisonNotCritical => must_of("RFC 6962", "precertificate_poison_not_critical", "3.1", "tbsCertificate.extensions.precertificatePoison"),
};

impl CriticalRule {
    /// How bad it is to break the rule, its name, its section, and its place.
    pub fn entry(self) -> Entry
        ensures { Says result (grammar.critical_sentence self).wording }
    {
        CRITICAL_RULES[self as usize].entry
    }
}

impl Group<CertificateInner<Raw>, CertificateFacts> for CriticalRule {
    ghost use Rattle.x509_lint.specs.Critical.{critical_sentence};
    ghost use Rattle.x509_lint.specs.declared.rule.Rule.TheVariants.{Critical};

    ghost sentence = { critical_sentence };

    ghost as_rule = { λ rule. Critical rule };

    fn is_broken(&self, certificate: &CertificateInner<Raw>, _facts: &CertificateFacts) -> bool {
        let part = certificate.tbs_certificate();
        let extensions = members(part.extensions());
        match self {
            CriticalRule::AuthorityKeyIdentifierCritical => has_critical::<AuthorityKeyIdentifier>(
                extensions,
            ),
            CriticalRule::SubjectKeyIdentifierCritical => has_critical::<SubjectKeyIdentifier>(
                extensions,
            ),
            CriticalRule::KeyUsageNotCritical => has_uncritical::<KeyUsage>(extensions),
            CriticalRule::PolicyMappingsNotCritical => has_uncritical::<PolicyMappings>(extensions),
            CriticalRule::SubjectAltNameCritical => has_critical::<SubjectAltName>(extensions)
                && !is_empty_name(part.subject()),
            CriticalRule::IssuerAltNameCritical => has_critical::<IssuerAltName>(extensions),
            CriticalRule::SubjectDirectoryAttributesCritical => has_critical::<
                SubjectDirectoryAttributes,
            >(extensions),
            CriticalRule::NameConstraintsNotCritical => has_uncritical::<NameConstraints>(
                extensions,
            ),
            CriticalRule::PolicyConstraintsNotCritical => has_uncritical::<PolicyConstraints>(
                extensions,
            ),
            CriticalRule::CrlDistributionPointsCritical => has_critical::<CrlDistributionPoints>(
                extensions,
            ),
            CriticalRule::InhibitAnyPolicyNotCritical => has_uncritical::<InhibitAnyPolicy>(
                extensions,
            ),
            CriticalRule::FreshestCrlCritical => has_critical::<FreshestCrl>(extensions),
            CriticalRule::AuthorityInfoAccessCritical => has_critical::<AuthorityInfoAccessSyntax>(
                extensions,
            ),
            CriticalRule::SubjectInfoAccessCritical => has_critical::<SubjectInfoAccessSyntax>(
                extensions,
            ),
            CriticalRule::OcspNoCheckCritical => has_critical::<OcspNoCheck>(extensions),
            CriticalRule::PrecertificatePoisonNotCritical => has_uncritical::<PrecertificatePoison>(
                extensions,
            ),
        }
    }

    fn to_rule(&self) -> Rule {
        Rule::Critical(*self)
    }
}
