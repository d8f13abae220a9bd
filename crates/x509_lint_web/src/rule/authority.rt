//! Rules on certificates of authorities that may stand above TLS servers (TLS BR 7.1.2.10, 7.1.2.11.2).

ghost use Rattle.std.specs.Prelude.{◌≡◌};
ghost use Rattle.x509_lint_web.specs.Authority as grammar;
ghost use Rattle.x509_lint_web.specs.Seen as seen;
ghost use Rattle.x509_lint_web.specs.Sentence.{IsTold};

use crate::entry::{WebEntry, entries};
use crate::names::has_attribute;
use crate::scope::is_self_issued;
use crate::seen::Part;
use crate::subjects::{has_country_unknown, has_not_of_authorities};
use crate::usages::{has_bit_not_of_ec, has_forbidden_purpose};
use crate::values::WebValues;
use x509_base::Raw;
use x509_cert::certificate::CertificateInner;
use x509_der::AssociatedOid;
use x509_ext::pkix::{CertificatePolicies, CrlDistributionPoints, ExtendedKeyUsage, KeyUsage};
use x509_lint::extensions::{extensions_of, has, has_uncritical};
use x509_lint::passes;
use x509_name::attr::attribute_types::{COMMON_NAME, COUNTRY_NAME, ORGANIZATION_NAME};

/// Rules on certificates of authorities that may stand above TLS servers (TLS BR 7.1.2.10, 7.1.2.11.2).
#[derive(Clone, Copy, PartialEq, Eq)]
pub enum WebAuthorityRule {
    /// The KeyUsage isn't critical (TLS BR 7.1.2.10.7, error).
    CaKeyUsageNotCritical,

    /// The KeyUsage lacks cRLSign (TLS BR 7.1.2.10.7, error).
    CaWithoutCrlSign,

    /// The KeyUsage has a bit other than digitalSignature, keyCertSign and cRLSign (TLS BR 7.1.2.10.7, error, from
    /// 2023-09-15).
    CaKeyUsageOther,

    /// The subject has no commonName (TLS BR 7.1.2.10.2, error, from 2023-09-15).
    CaWithoutCommonName,

    /// The subject has no organizationName (TLS BR 7.1.2.10.2, error).
    CaWithoutOrganization,

    /// The subject has no countryName (TLS BR 7.1.2.10.2, error).
    CaWithoutCountry,

    /// The EKU has codeSigning, emailProtection, timeStamping, OCSPSigning or anyExtendedKeyUsage, or that of
    /// certificates that sign precertificates (TLS BR 7.1.2.10.6, error, from 2023-09-15).
    CaExtendedKeyUsageForbidden,

    /// There are no certificate policies, and the issuer isn't the subject (TLS BR 7.1.2.10.5, error).
    SubordinateWithoutPolicies,

    /// There is no CRLDistributionPoints, and the issuer isn't the subject (TLS BR 7.1.2.11.2, error).
    SubordinateWithoutCrlPoints,

    /// The subject has a countryName or a jurisdictionCountryName that is neither an alpha-2 code of ISO 3166-1 nor XX, in any
    /// case (TLS BR 7.1.2.10.2, error, from 2012-07-01).
    CaCountryUnknown,

    /// The subject has an attribute other than commonName, countryName, localityName, stateOrProvinceName, streetAddress,
    /// organizationName and postalCode, and than organizationalUnitName, which has rules of its own (TLS BR 7.1.2.10.2,
    /// warning, from 2023-09-15).
    CaAttributeOther,
}

/// How the rules are told, in the order of their variants.
static ENTRIES: [WebEntry; 11] = entries! {
    CaKeyUsageNotCritical => must("ca_key_usage_not_critical", "7.1.2.10.7", None, "tbsCertificate.extensions.keyUsage"),
    CaWithoutCrlSign => must("ca_without_crl_sign", "7.1.2.10.7", None, "tbsCertificate.extensions.keyUsage"),
    CaKeyUsageOther => must("ca_key_usage_other", "7.1.2.10.7", from_day(2023, 9, 15), "tbsCertificate.extensions.keyUsage"),
    CaWithoutCommonName => must("ca_without_common_name", "7.1.2.10.2", from_day(2023, 9, 15), "tbsCertificate.subject"),
    CaWithoutOrganization => must("ca_without_organization", "7.1.2.10.2", None, "tbsCertificate.subject"),
    CaWithoutCountry => must("ca_without_country", "7.1.2.10.2", None, "tbsCertificate.subject"),
    CaExtendedKeyUsageForbidden =>
        must("ca_extended_key_usage_forbidden", "7.1.2.10.6", from_day(2023, 9, 15), "tbsCertificate.extensions.extKeyUsage"),
    SubordinateWithoutPolicies => must("subordinate_without_policies", "7.1.2.10.5", None, "tbsCertificate.extensions.certificatePolicies"),
    SubordinateWithoutCrlPoints => must("subordinate_without_crl_points", "7.1.2.11.2", None, "tbsCertificate.extensions.cRLDistributionPoints"),
    CaCountryUnknown => must("ca_country_unknown", "7.1.2.10.2", from_day(2012, 7, 1), "tbsCertificate.subject"),
    CaAttributeOther => should("ca_attribute_other", "7.1.2.10.2", from_day(2023, 9, 15), "tbsCertificate.subject"),
};

impl WebAuthorityRule {
    /// How the rule is told, and since when it is in force.
    pub fn entry(self) -> WebEntry
        ensures { IsTold result (grammar.authority_sentence self) }
    {
        ENTRIES[self as usize]
    }

    /// Of which part of a certificate the rule speaks.
    pub(crate) fn part(self) -> Part
        ensures { result ≡ seen.authority_part self }
    {
        match self {
            WebAuthorityRule::CaWithoutCommonName
            | WebAuthorityRule::CaWithoutOrganization
            | WebAuthorityRule::CaWithoutCountry
            | WebAuthorityRule::CaCountryUnknown
            | WebAuthorityRule::CaAttributeOther => Part::Subject,
            WebAuthorityRule::CaExtendedKeyUsageForbidden => Part::Extension(ExtendedKeyUsage::OID),
            WebAuthorityRule::SubordinateWithoutPolicies => Part::Extension(
                CertificatePolicies::OID,
            ),
            WebAuthorityRule::SubordinateWithoutCrlPoints => Part::Extension(
                CrlDistributionPoints::OID,
            ),
            _ => Part::Extension(KeyUsage::OID),
        }
    }

    /// Whether the certificate, of which these are the values, breaks the rule.
    pub(crate) fn is_broken(self, certificate: &CertificateInner<Raw>, values: &WebValues) -> bool
        ensures { result ≡ (grammar.authority_sentence self).breaks certificate.now values.now }
    {
        let subject = certificate.tbs_certificate().subject();
        let extensions = extensions_of(certificate);
        match self {
            WebAuthorityRule::CaKeyUsageNotCritical => has_uncritical::<KeyUsage>(extensions),
            WebAuthorityRule::CaWithoutCrlSign =>
                passes!(&values.key_usage, usage => !usage.crl_sign()),
            WebAuthorityRule::CaKeyUsageOther =>
                passes!(&values.key_usage, usage => has_bit_not_of_ec(usage) || usage.key_agreement()),
            WebAuthorityRule::CaWithoutCommonName => !has_attribute(COMMON_NAME, subject),
            WebAuthorityRule::CaWithoutOrganization => !has_attribute(ORGANIZATION_NAME, subject),
            WebAuthorityRule::CaWithoutCountry => !has_attribute(COUNTRY_NAME, subject),
            WebAuthorityRule::CaExtendedKeyUsageForbidden => has_forbidden_purpose(
                &values.extended_key_usage,
            ),
            WebAuthorityRule::SubordinateWithoutPolicies => !is_self_issued(certificate)
                && !has::<CertificatePolicies>(extensions),
            WebAuthorityRule::SubordinateWithoutCrlPoints => !is_self_issued(certificate)
                && !has::<CrlDistributionPoints>(extensions),
            WebAuthorityRule::CaCountryUnknown => has_country_unknown(subject),
            WebAuthorityRule::CaAttributeOther => has_not_of_authorities(subject),
        }
    }
}
