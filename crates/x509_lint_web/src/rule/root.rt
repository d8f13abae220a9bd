//! Rules on certificates of roots (TLS BR 7.1.2.1, 7.1.2.10.2, 7.1.2.11.2).

ghost use Rattle.std.specs.Prelude.{◌≡◌};
ghost use Rattle.x509_lint_web.specs.Root as grammar;
ghost use Rattle.x509_lint_web.specs.Seen as seen;
ghost use Rattle.x509_lint_web.specs.Sentence.{IsTold};

use crate::entry::{WebEntry, entries};
use crate::names::has_attribute;
use crate::roots::OtherExtension;
use crate::seen::Part;
use crate::times::{is_longer, is_shorter};
use crate::values::WebValues;
use x509_base::Raw;
use x509_cert::certificate::CertificateInner;
use x509_der::AssociatedOid;
use x509_ext::pkix::{
    AuthorityKeyIdentifier, BasicConstraints, CertificatePolicies, CrlDistributionPoints,
    ExtendedKeyUsage,
};
use x509_lint::extensions::{extensions_of, has};
use x509_lint::lists::any_of;
use x509_lint::passes;
use x509_name::attr::attribute_types::ORGANIZATIONAL_UNIT_NAME;

/// Rules on certificates of roots (TLS BR 7.1.2.1, 7.1.2.10.2, 7.1.2.11.2).
#[derive(Clone, Copy, PartialEq, Eq)]
pub enum WebRootRule {
    /// The validity is shorter than 2922 days (TLS BR 7.1.2.1.1, error, from 2023-09-15).
    RootValidityUnder2922Days,

    /// The validity is longer than 9132 days (TLS BR 7.1.2.1.1, error, from 2023-09-15).
    RootValidityOver9132Days,

    /// There is an EKU (TLS BR 7.1.2.1.2, error).
    RootExtendedKeyUsagePresent,

    /// There are certificate policies (TLS BR 7.1.2.1.2, warning).
    RootPoliciesPresent,

    /// There is a CRLDistributionPoints (TLS BR 7.1.2.11.2, warning, from 2024-03-15).
    RootCrlPointsPresent,

    /// There is no AKI (TLS BR 7.1.2.1.2, warning, from 2023-09-15).
    RootWithoutAuthorityKeyIdentifier,

    /// The basic constraints have a path length (TLS BR 7.1.2.1.4, warning).
    RootPathLenPresent,

    /// There is an extension other than AKI, SKI, KeyUsage, basic constraints and the list of SCTs, and than those
    /// that have a rule of their own here: EKU, certificate policies and CRLDistributionPoints (TLS BR 7.1.2.1.2,
    /// warning, from 2023-09-15).
    RootExtensionOther,

    /// The subject has an organizationalUnitName (TLS BR 7.1.2.10.2, error, from 2023-09-15).
    RootOrganizationalUnitPresent,
}

/// How the rules are told, in the order of their variants.
static ENTRIES: [WebEntry; 9] = entries! {
    RootValidityUnder2922Days => must("root_validity_under_2922_days", "7.1.2.1.1", from_day(2023, 9, 15), "tbsCertificate.validity"),
    RootValidityOver9132Days => must("root_validity_over_9132_days", "7.1.2.1.1", from_day(2023, 9, 15), "tbsCertificate.validity"),
    RootExtendedKeyUsagePresent => must("root_extended_key_usage_present", "7.1.2.1.2", None, "tbsCertificate.extensions.extKeyUsage"),
    RootPoliciesPresent => should("root_policies_present", "7.1.2.1.2", None, "tbsCertificate.extensions.certificatePolicies"),
    RootCrlPointsPresent => should("root_crl_points_present", "7.1.2.11.2", from_day(2024, 3, 15), "tbsCertificate.extensions.cRLDistributionPoints"),
    RootWithoutAuthorityKeyIdentifier =>
        should("root_without_authority_key_identifier", "7.1.2.1.2", from_day(2023, 9, 15), "tbsCertificate.extensions.authorityKeyIdentifier"),
    RootPathLenPresent => should("root_path_len_present", "7.1.2.1.4", None, "tbsCertificate.extensions.basicConstraints"),
    RootExtensionOther => should("root_extension_other", "7.1.2.1.2", from_day(2023, 9, 15), "tbsCertificate.extensions"),
    RootOrganizationalUnitPresent => must("root_organizational_unit_present", "7.1.2.10.2", from_day(2023, 9, 15), "tbsCertificate.subject"),
};

impl WebRootRule {
    /// How the rule is told, and since when it is in force.
    pub fn entry(self) -> WebEntry
        ensures { IsTold result (grammar.root_sentence self) }
    {
        ENTRIES[self as usize]
    }

    /// Of which part of a certificate the rule speaks.
    pub(crate) fn part(self) -> Part
        ensures { result ≡ seen.root_part self }
    {
        match self {
            WebRootRule::RootExtendedKeyUsagePresent => Part::Extension(ExtendedKeyUsage::OID),
            WebRootRule::RootPoliciesPresent => Part::Extension(CertificatePolicies::OID),
            WebRootRule::RootCrlPointsPresent => Part::Extension(CrlDistributionPoints::OID),
            WebRootRule::RootWithoutAuthorityKeyIdentifier => Part::Extension(
                AuthorityKeyIdentifier::OID,
            ),
            WebRootRule::RootPathLenPresent => Part::Extension(BasicConstraints::OID),
            WebRootRule::RootExtensionOther => Part::Extensions,
            WebRootRule::RootOrganizationalUnitPresent => Part::Subject,
            _ => Part::Validity,
        }
    }

    /// Whether the certificate, of which these are the values, breaks the rule.
    pub(crate) fn is_broken(self, certificate: &CertificateInner<Raw>, values: &WebValues) -> bool
        ensures { result ≡ (grammar.root_sentence self).breaks certificate.now values.now }
    {
        let extensions = extensions_of(certificate);
        match self {
            WebRootRule::RootValidityUnder2922Days => is_shorter(2922, certificate),
            WebRootRule::RootValidityOver9132Days => is_longer(9132, certificate),
            WebRootRule::RootExtendedKeyUsagePresent => has::<ExtendedKeyUsage>(extensions),
            WebRootRule::RootPoliciesPresent => has::<CertificatePolicies>(extensions),
            WebRootRule::RootCrlPointsPresent => has::<CrlDistributionPoints>(extensions),
            WebRootRule::RootWithoutAuthorityKeyIdentifier => !has::<AuthorityKeyIdentifier>(
                extensions,
            ),
            WebRootRule::RootPathLenPresent =>
                passes!(&values.basic_constraints, constraints => constraints.path_len_constraint.is_some()),
            WebRootRule::RootExtensionOther => any_of(&OtherExtension, extensions),
            WebRootRule::RootOrganizationalUnitPresent => has_attribute(
                ORGANIZATIONAL_UNIT_NAME,
                certificate.tbs_certificate().subject(),
            ),
        }
    }
}
