//! Rules on certificates of authorities that may stand above TLS servers and have another issuer (TLS BR 7.1.2.6.1, 7.1.2.10).

ghost use Rattle.std.specs.Prelude.{◌≡◌};
ghost use Rattle.x509_lint_web.specs.Subordinate as grammar;
ghost use Rattle.x509_lint_web.specs.Seen as seen;
ghost use Rattle.x509_lint_web.specs.Sentence.{IsTold};

use crate::entry::{WebEntry, entries};
use crate::names::has_attribute;
use crate::places::{OtherMethod, have_other_location};
use crate::policies::{ANY_POLICY, OtherQualified, QualifiedPolicy, ReservedPolicy, has_policy};
use crate::seen::Part;
use crate::usages::OtherPurpose;
use crate::values::WebValues;
use x509_base::Raw;
use x509_cert::certificate::CertificateInner;
use x509_der::AssociatedOid;
use x509_ext::pkix::{AuthorityInfoAccessSyntax, CertificatePolicies, ExtendedKeyUsage};
use x509_lint::extensions::{extensions_of, has, has_critical};
use x509_lint::lists::any_of;
use x509_lint::passes;
use x509_name::attr::attribute_types::ORGANIZATIONAL_UNIT_NAME;

/// Rules on certificates of authorities that may stand above TLS servers and have another issuer (TLS BR 7.1.2.6.1, 7.1.2.10).
#[derive(Clone, Copy, PartialEq, Eq)]
pub enum WebSubordinateRule {
    /// There is no EKU (TLS BR 7.1.2.10.6, warning, from 2023-09-15).
    SubordinateWithoutExtendedKeyUsage,

    /// The EKU is critical (TLS BR 7.1.2.6.1, error, from 2023-09-15).
    SubordinateExtendedKeyUsageCritical,

    /// The EKU has a purpose that is neither serverAuth nor clientAuth nor forbidden (TLS BR 7.1.2.10.6, warning,
    /// from 2023-09-15).
    SubordinateExtendedKeyUsageOther,

    /// The certificate policies are critical (TLS BR 7.1.2.6.1, error, from 2023-09-15).
    SubordinatePoliciesCritical,

    /// No policy is anyPolicy or a reserved one of the CA/Browser Forum (TLS BR 7.1.2.10.5, error, from 2023-09-15).
    SubordinateWithoutReservedPolicy,

    /// A policy is anyPolicy, and isn't the only one (TLS BR 7.1.2.10.5, error, from 2023-09-15).
    SubordinateAnyPolicyAmongOthers,

    /// A policy has qualifiers (TLS BR 7.1.2.10.5, warning, from 2023-09-15).
    SubordinatePolicyQualifiersPresent,

    /// A policy has a qualifier that isn't a CPS pointer (TLS BR 7.1.2.10.5, error, from 2023-09-15).
    SubordinatePolicyQualifierOther,

    /// There is no authority information access (TLS BR 7.1.2.10.3, warning, from 2023-09-15).
    SubordinateWithoutAuthorityInfoAccess,

    /// An access method is neither OCSP nor caIssuers (TLS BR 7.1.2.10.3, error, from 2023-09-15).
    SubordinateAccessMethodOther,

    /// An access location isn't an HTTP URI (TLS BR 7.1.2.10.3, error, from 2023-09-15).
    SubordinateAccessLocationNotHttp,

    /// The subject has an organizationalUnitName (TLS BR 7.1.2.10.2, warning, from 2023-09-15).
    SubordinateOrganizationalUnitPresent,
}

/// How the rules are told, in the order of their variants.
static ENTRIES: [WebEntry; 12] = entries! {
    SubordinateWithoutExtendedKeyUsage =>
        should("subordinate_without_extended_key_usage", "7.1.2.10.6", from_day(2023, 9, 15), "tbsCertificate.extensions.extKeyUsage"),
    SubordinateExtendedKeyUsageCritical =>
        must("subordinate_extended_key_usage_critical", "7.1.2.6.1", from_day(2023, 9, 15), "tbsCertificate.extensions.extKeyUsage"),
    SubordinateExtendedKeyUsageOther =>
        should("subordinate_extended_key_usage_other", "7.1.2.10.6", from_day(2023, 9, 15), "tbsCertificate.extensions.extKeyUsage"),
    SubordinatePoliciesCritical => must("subordinate_policies_critical", "7.1.2.6.1", from_day(2023, 9, 15), "tbsCertificate.extensions.certificatePolicies"),
    SubordinateWithoutReservedPolicy =>
        must("subordinate_without_reserved_policy", "7.1.2.10.5", from_day(2023, 9, 15), "tbsCertificate.extensions.certificatePolicies"),
    SubordinateAnyPolicyAmongOthers =>
        must("subordinate_any_policy_among_others", "7.1.2.10.5", from_day(2023, 9, 15), "tbsCertificate.extensions.certificatePolicies"),
    SubordinatePolicyQualifiersPresent =>
        should("subordinate_policy_qualifiers_present", "7.1.2.10.5", from_day(2023, 9, 15), "tbsCertificate.extensions.certificatePolicies"),
    SubordinatePolicyQualifierOther =>
        must("subordinate_policy_qualifier_other", "7.1.2.10.5", from_day(2023, 9, 15), "tbsCertificate.extensions.certificatePolicies"),
    SubordinateWithoutAuthorityInfoAccess =>
        should("subordinate_without_authority_info_access", "7.1.2.10.3", from_day(2023, 9, 15), "tbsCertificate.extensions.authorityInfoAccess"),
    SubordinateAccessMethodOther =>
        must("subordinate_access_method_other", "7.1.2.10.3", from_day(2023, 9, 15), "tbsCertificate.extensions.authorityInfoAccess"),
    SubordinateAccessLocationNotHttp =>
        must("subordinate_access_location_not_http", "7.1.2.10.3", from_day(2023, 9, 15), "tbsCertificate.extensions.authorityInfoAccess"),
    SubordinateOrganizationalUnitPresent => should("subordinate_organizational_unit_present", "7.1.2.10.2", from_day(2023, 9, 15), "tbsCertificate.subject"),
};

impl WebSubordinateRule {
    /// How the rule is told, and since when it is in force.
    pub fn entry(self) -> WebEntry
        ensures { IsTold result (grammar.subordinate_sentence self) }
    {
        ENTRIES[self as usize]
    }

    /// Of which part of a certificate the rule speaks.
    pub(crate) fn part(self) -> Part
        ensures { result ≡ seen.subordinate_part self }
    {
        match self {
            WebSubordinateRule::SubordinateWithoutExtendedKeyUsage
            | WebSubordinateRule::SubordinateExtendedKeyUsageCritical
            | WebSubordinateRule::SubordinateExtendedKeyUsageOther => Part::Extension(
                ExtendedKeyUsage::OID,
            ),
            WebSubordinateRule::SubordinateWithoutAuthorityInfoAccess
            | WebSubordinateRule::SubordinateAccessMethodOther
            | WebSubordinateRule::SubordinateAccessLocationNotHttp => Part::Extension(
                AuthorityInfoAccessSyntax::OID,
            ),
            WebSubordinateRule::SubordinateOrganizationalUnitPresent => Part::Subject,
            _ => Part::Extension(CertificatePolicies::OID),
        }
    }

    /// Whether the certificate, of which these are the values, breaks the rule.
    pub(crate) fn is_broken(self, certificate: &CertificateInner<Raw>, values: &WebValues) -> bool
        ensures { result ≡ (grammar.subordinate_sentence self).breaks certificate.now values.now }
    {
        let extensions = extensions_of(certificate);
        let policies = &values.certificate_policies;
        match self {
            WebSubordinateRule::SubordinateWithoutExtendedKeyUsage => !has::<ExtendedKeyUsage>(
                extensions,
            ),
            WebSubordinateRule::SubordinateExtendedKeyUsageCritical => has_critical::<
                ExtendedKeyUsage,
            >(extensions),
            WebSubordinateRule::SubordinateExtendedKeyUsageOther =>
                passes!(&values.extended_key_usage, usage => any_of(&OtherPurpose, usage.0.as_slice())),
            WebSubordinateRule::SubordinatePoliciesCritical => has_critical::<CertificatePolicies>(
                extensions,
            ),
            WebSubordinateRule::SubordinateWithoutReservedPolicy =>
                passes!(policies, policies => !any_of(&ReservedPolicy, policies.0.as_slice()))
                    && !has_policy(ANY_POLICY, policies),
            WebSubordinateRule::SubordinateAnyPolicyAmongOthers => has_policy(ANY_POLICY, policies)
                && passes!(policies, policies => policies.0.as_slice().len() > 1),
            WebSubordinateRule::SubordinatePolicyQualifiersPresent =>
                passes!(policies, policies => any_of(&QualifiedPolicy, policies.0.as_slice())),
            WebSubordinateRule::SubordinatePolicyQualifierOther =>
                passes!(policies, policies => any_of(&OtherQualified, policies.0.as_slice())),
            WebSubordinateRule::SubordinateWithoutAuthorityInfoAccess => !has::<
                AuthorityInfoAccessSyntax,
            >(extensions),
            WebSubordinateRule::SubordinateAccessMethodOther =>
                passes!(&values.authority_info_access, descriptions => any_of(&OtherMethod, descriptions.0.as_slice())),
            WebSubordinateRule::SubordinateAccessLocationNotHttp => have_other_location(
                &values.authority_info_access,
            ),
            WebSubordinateRule::SubordinateOrganizationalUnitPresent => has_attribute(
                ORGANIZATIONAL_UNIT_NAME,
                certificate.tbs_certificate().subject(),
            ),
        }
    }
}
