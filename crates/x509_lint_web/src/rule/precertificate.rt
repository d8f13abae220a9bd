//! Rules on precertificates, and on certificates of authorities that sign them (TLS BR 7.1.2.4, 7.1.2.9).

ghost use Rattle.std.specs.Prelude.{◌≡◌};
ghost use Rattle.x509_lint_web.specs.Precertificate as grammar;
ghost use Rattle.x509_lint_web.specs.Seen as seen;
ghost use Rattle.x509_lint_web.specs.Sentence.{IsTold};

use crate::entry::{WebEntry, entries};
use crate::precertificates::{PrecertificatePoison, TimestampList, is_signer};
use crate::scope::has_other_purpose;
use crate::seen::Part;
use crate::usages::PRECERTIFICATE_SIGNING;
use crate::values::WebValues;
use x509_base::Raw;
use x509_cert::certificate::CertificateInner;
use x509_der::AssociatedOid;
use x509_ext::pkix::{CertificatePolicies, CrlDistributionPoints, ExtendedKeyUsage, KeyUsage};
use x509_lint::extensions::{extensions_of, has, has_critical, has_uncritical};

/// Rules on precertificates, and on certificates of authorities that sign them (TLS BR 7.1.2.4, 7.1.2.9).
#[derive(Clone, Copy, PartialEq, Eq)]
pub enum WebPrecertificateRule {
    /// A precertificate has a list of SCTs (TLS BR 7.1.2.9, error, from 2023-09-15).
    PrecertificateWithTimestamps,

    /// An authority that signs precertificates has another purpose (TLS BR 7.1.2.4.2, error, from 2023-09-15).
    PrecertificateSignerPurposeOther,

    /// The EKU of an authority that signs precertificates is critical (TLS BR 7.1.2.4.1, error, from 2023-09-15).
    PrecertificateSignerPurposesCritical,

    /// The KeyUsage of an authority that signs precertificates isn't critical (TLS BR 7.1.2.4.1, error, from 2023-09-15).
    PrecertificateSignerKeyUsageNotCritical,

    /// An authority that signs precertificates has no certificate policies (TLS BR 7.1.2.4.1, error, from 2023-09-15).
    PrecertificateSignerWithoutPolicies,

    /// An authority that signs precertificates has no CRLDistributionPoints (TLS BR 7.1.2.4.1, error, from 2023-09-15).
    PrecertificateSignerWithoutCrlPoints,
}

/// How the rules are told, in the order of their variants.
static ENTRIES: [WebEntry; 6] = entries! {
    PrecertificateWithTimestamps =>
        must("precertificate_with_timestamps", "7.1.2.9", from_day(2023, 9, 15), "tbsCertificate.extensions.signedCertificateTimestampList"),
    PrecertificateSignerPurposeOther =>
        must("precertificate_signer_purpose_other", "7.1.2.4.2", from_day(2023, 9, 15), "tbsCertificate.extensions.extKeyUsage"),
    PrecertificateSignerPurposesCritical =>
        must("precertificate_signer_purposes_critical", "7.1.2.4.1", from_day(2023, 9, 15), "tbsCertificate.extensions.extKeyUsage"),
    PrecertificateSignerKeyUsageNotCritical =>
        must("precertificate_signer_key_usage_not_critical", "7.1.2.4.1", from_day(2023, 9, 15), "tbsCertificate.extensions.keyUsage"),
    PrecertificateSignerWithoutPolicies =>
        must("precertificate_signer_without_policies", "7.1.2.4.1", from_day(2023, 9, 15), "tbsCertificate.extensions.certificatePolicies"),
    PrecertificateSignerWithoutCrlPoints =>
        must("precertificate_signer_without_crl_points", "7.1.2.4.1", from_day(2023, 9, 15), "tbsCertificate.extensions.cRLDistributionPoints"),
};

impl WebPrecertificateRule {
    /// How the rule is told, and since when it is in force.
    pub fn entry(self) -> WebEntry
        ensures { IsTold result (grammar.precertificate_sentence self) }
    {
        ENTRIES[self as usize]
    }

    /// Of which part of a certificate the rule speaks.
    pub(crate) fn part(self) -> Part
        ensures { result ≡ seen.precertificate_part self }
    {
        match self {
            WebPrecertificateRule::PrecertificateWithTimestamps => Part::Extension(
                TimestampList::OID,
            ),
            WebPrecertificateRule::PrecertificateSignerKeyUsageNotCritical => Part::Extension(
                KeyUsage::OID,
            ),
            WebPrecertificateRule::PrecertificateSignerWithoutPolicies => Part::Extension(
                CertificatePolicies::OID,
            ),
            WebPrecertificateRule::PrecertificateSignerWithoutCrlPoints => Part::Extension(
                CrlDistributionPoints::OID,
            ),
            _ => Part::Extension(ExtendedKeyUsage::OID),
        }
    }

    /// Whether the certificate, of which these are the values, breaks the rule.
    pub(crate) fn is_broken(self, certificate: &CertificateInner<Raw>, values: &WebValues) -> bool
        ensures { result ≡ (grammar.precertificate_sentence self).breaks certificate.now values.now }
    {
        let extensions = extensions_of(certificate);
        match self {
            WebPrecertificateRule::PrecertificateWithTimestamps => has::<PrecertificatePoison>(
                extensions,
            ) && has::<TimestampList>(extensions),
            WebPrecertificateRule::PrecertificateSignerPurposeOther => is_signer(values)
                && has_other_purpose(PRECERTIFICATE_SIGNING, &values.extended_key_usage),
            WebPrecertificateRule::PrecertificateSignerPurposesCritical => is_signer(values)
                && has_critical::<ExtendedKeyUsage>(extensions),
            WebPrecertificateRule::PrecertificateSignerKeyUsageNotCritical => is_signer(values)
                && has_uncritical::<KeyUsage>(extensions),
            WebPrecertificateRule::PrecertificateSignerWithoutPolicies => is_signer(values)
                && !has::<CertificatePolicies>(extensions),
            WebPrecertificateRule::PrecertificateSignerWithoutCrlPoints => is_signer(values)
                && !has::<CrlDistributionPoints>(extensions),
        }
    }
}
