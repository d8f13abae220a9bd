//! Rules on certificate policies and authority information access of certificates of TLS servers (TLS BR 7.1.2.7, 7.1.2.11.2).

ghost use Rattle.std.specs.Prelude.{◌≡◌};
ghost use Rattle.x509_lint_web.specs.Policy as grammar;
ghost use Rattle.x509_lint_web.specs.Seen as seen;
ghost use Rattle.x509_lint_web.specs.Sentence.{IsTold};

use crate::entry::{WebEntry, entries};
use crate::names::{has_attribute, has_other_attribute};
use crate::places::{OtherMethod, are_without_ocsp, have_other_location, is_without_revocation};
use crate::policies::{
    ANY_POLICY, DOMAIN_VALIDATED, ORGANIZATION_VALIDATED, OtherQualified, QualifiedPolicy,
    ReservedPolicy, has_policy,
};
use crate::seen::Part;
use crate::times::is_longer;
use crate::values::WebValues;
use x509_base::Raw;
use x509_cert::certificate::CertificateInner;
use x509_der::AssociatedOid;
use x509_ext::pkix::{AuthorityInfoAccessSyntax, CertificatePolicies};
use x509_lint::extensions::{extensions_of, has, has_critical};
use x509_lint::lists::any_of;
use x509_lint::passes;
use x509_name::attr::attribute_types::{COUNTRY_NAME, ORGANIZATION_NAME};

/// Rules on certificate policies and authority information access of certificates of TLS servers (TLS BR 7.1.2.7, 7.1.2.11.2).
#[derive(Clone, Copy, PartialEq, Eq)]
pub enum WebPolicyRule {
    /// There are no certificate policies (TLS BR 7.1.2.7.9, error).
    CertificatePoliciesAbsent,

    /// The certificate policies are critical (TLS BR 7.1.2.7.6, error, from 2023-09-15).
    CertificatePoliciesCritical,

    /// No policy is a reserved one of the CA/Browser Forum (TLS BR 7.1.2.7.9, error, from 2020-09-30).
    ReservedPolicyAbsent,

    /// A policy is anyPolicy (TLS BR 7.1.2.7.9, error, from 2023-09-15).
    AnyPolicyPresent,

    /// A policy has qualifiers (TLS BR 7.1.2.7.9, warning, from 2023-09-15).
    PolicyQualifiersPresent,

    /// A policy has a qualifier that isn't a CPS pointer (TLS BR 7.1.2.7.9, error, from 2023-09-15).
    PolicyQualifierOther,

    /// The domain alone is validated, by the policy, and the subject has an attribute other than countryName and
    /// commonName (TLS BR 7.1.2.7.2, error, from 2023-09-15).
    DomainValidatedAttribute,

    /// The organization is validated, by the policy, and the subject has no organizationName (TLS BR 7.1.2.7.4, error).
    OrganizationValidatedWithoutOrganization,

    /// The organization is validated, by the policy, and the subject has no countryName (TLS BR 7.1.2.7.4, error).
    OrganizationValidatedWithoutCountry,

    /// There is no authority information access (TLS BR 7.1.2.7.7, error, from 2012-07-01).
    AuthorityInfoAccessAbsent,

    /// The authority information access has no access description for OCSP (TLS BR 7.1.2.7.7, error, from 2012-07-01, until
    /// 2024-03-15).
    OcspAccessAbsent,

    /// An access method is neither OCSP nor caIssuers (TLS BR 7.1.2.7.7, error, from 2023-09-15).
    AccessMethodOther,

    /// An access location isn't an HTTP URI (TLS BR 7.1.2.7.7, error, from 2023-09-15).
    AccessLocationNotHttp,

    /// There is neither a CRLDistributionPoints nor an access description for OCSP, and the validity is longer than 10 days
    /// (TLS BR 7.1.2.11.2, error, from 2024-03-15).
    RevocationAbsentOver10Days,

    /// There is neither a CRLDistributionPoints nor an access description for OCSP, and the validity is longer than 7 days
    /// (TLS BR 7.1.2.11.2, error, from 2026-03-15).
    RevocationAbsentOver7Days,
}

/// How the rules are told, in the order of their variants.
static ENTRIES: [WebEntry; 15] = entries! {
    CertificatePoliciesAbsent => must("certificate_policies_absent", "7.1.2.7.9", None, "tbsCertificate.extensions.certificatePolicies"),
    CertificatePoliciesCritical =>
        must("certificate_policies_critical", "7.1.2.7.6", from_day(2023, 9, 15), "tbsCertificate.extensions.certificatePolicies"),
    ReservedPolicyAbsent => must("reserved_policy_absent", "7.1.2.7.9", from_day(2020, 9, 30), "tbsCertificate.extensions.certificatePolicies"),
    AnyPolicyPresent => must("any_policy_present", "7.1.2.7.9", from_day(2023, 9, 15), "tbsCertificate.extensions.certificatePolicies"),
    PolicyQualifiersPresent => should("policy_qualifiers_present", "7.1.2.7.9", from_day(2023, 9, 15), "tbsCertificate.extensions.certificatePolicies"),
    PolicyQualifierOther => must("policy_qualifier_other", "7.1.2.7.9", from_day(2023, 9, 15), "tbsCertificate.extensions.certificatePolicies"),
    DomainValidatedAttribute => must("domain_validated_attribute", "7.1.2.7.2", from_day(2023, 9, 15), "tbsCertificate.subject"),
    OrganizationValidatedWithoutOrganization => must("organization_validated_without_organization", "7.1.2.7.4", None, "tbsCertificate.subject"),
    OrganizationValidatedWithoutCountry => must("organization_validated_without_country", "7.1.2.7.4", None, "tbsCertificate.subject"),
    AuthorityInfoAccessAbsent =>
        must("authority_info_access_absent", "7.1.2.7.7", from_day(2012, 7, 1), "tbsCertificate.extensions.authorityInfoAccess"),
    OcspAccessAbsent =>
        must("ocsp_access_absent", "7.1.2.7.7", from_day(2012, 7, 1), before_day(2024, 3, 15), "tbsCertificate.extensions.authorityInfoAccess"),
    AccessMethodOther => must("access_method_other", "7.1.2.7.7", from_day(2023, 9, 15), "tbsCertificate.extensions.authorityInfoAccess"),
    AccessLocationNotHttp => must("access_location_not_http", "7.1.2.7.7", from_day(2023, 9, 15), "tbsCertificate.extensions.authorityInfoAccess"),
    RevocationAbsentOver10Days => must("revocation_absent_over_10_days", "7.1.2.11.2", from_day(2024, 3, 15), "tbsCertificate.extensions"),
    RevocationAbsentOver7Days => must("revocation_absent_over_7_days", "7.1.2.11.2", from_day(2026, 3, 15), "tbsCertificate.extensions"),
};

impl WebPolicyRule {
    /// How the rule is told, and since when it is in force.
    pub fn entry(self) -> WebEntry
        ensures { IsTold result (grammar.policy_sentence self) }
    {
        ENTRIES[self as usize]
    }

    /// Of which part of a certificate the rule speaks.
    pub(crate) fn part(self) -> Part
        ensures { result ≡ seen.policy_part self }
    {
        match self {
            WebPolicyRule::DomainValidatedAttribute
            | WebPolicyRule::OrganizationValidatedWithoutOrganization
            | WebPolicyRule::OrganizationValidatedWithoutCountry => Part::Subject,
            WebPolicyRule::AuthorityInfoAccessAbsent
            | WebPolicyRule::OcspAccessAbsent
            | WebPolicyRule::AccessMethodOther
            | WebPolicyRule::AccessLocationNotHttp => Part::Extension(
                AuthorityInfoAccessSyntax::OID,
            ),
            WebPolicyRule::RevocationAbsentOver10Days | WebPolicyRule::RevocationAbsentOver7Days =>
                Part::Extensions,
            _ => Part::Extension(CertificatePolicies::OID),
        }
    }

    /// Whether the certificate, of which these are the values, breaks the rule.
    pub(crate) fn is_broken(self, certificate: &CertificateInner<Raw>, values: &WebValues) -> bool
        ensures { result ≡ (grammar.policy_sentence self).breaks certificate.now values.now }
    {
        let subject = certificate.tbs_certificate().subject();
        let extensions = extensions_of(certificate);
        let policies = &values.certificate_policies;
        match self {
            WebPolicyRule::CertificatePoliciesAbsent => !has::<CertificatePolicies>(extensions),
            WebPolicyRule::CertificatePoliciesCritical => has_critical::<CertificatePolicies>(
                extensions,
            ),
            WebPolicyRule::ReservedPolicyAbsent =>
                passes!(policies, policies => !any_of(&ReservedPolicy, policies.0.as_slice())),
            WebPolicyRule::AnyPolicyPresent => has_policy(ANY_POLICY, policies),
            WebPolicyRule::PolicyQualifiersPresent =>
                passes!(policies, policies => any_of(&QualifiedPolicy, policies.0.as_slice())),
            WebPolicyRule::PolicyQualifierOther =>
                passes!(policies, policies => any_of(&OtherQualified, policies.0.as_slice())),
            WebPolicyRule::DomainValidatedAttribute => has_policy(DOMAIN_VALIDATED, policies)
                && has_other_attribute(subject),
            WebPolicyRule::OrganizationValidatedWithoutOrganization => has_policy(
                ORGANIZATION_VALIDATED,
                policies,
            ) && !has_attribute(ORGANIZATION_NAME, subject),
            WebPolicyRule::OrganizationValidatedWithoutCountry => has_policy(
                ORGANIZATION_VALIDATED,
                policies,
            ) && !has_attribute(COUNTRY_NAME, subject),
            WebPolicyRule::AuthorityInfoAccessAbsent => !has::<AuthorityInfoAccessSyntax>(
                extensions,
            ),
            WebPolicyRule::OcspAccessAbsent => are_without_ocsp(&values.authority_info_access),
            WebPolicyRule::AccessMethodOther =>
                passes!(&values.authority_info_access, descriptions => any_of(&OtherMethod, descriptions.0.as_slice())),
            WebPolicyRule::AccessLocationNotHttp => have_other_location(
                &values.authority_info_access,
            ),
            WebPolicyRule::RevocationAbsentOver10Days => is_longer(10, certificate)
                && is_without_revocation(certificate, values),
            WebPolicyRule::RevocationAbsentOver7Days => is_longer(7, certificate)
                && is_without_revocation(certificate, values),
        }
    }
}
