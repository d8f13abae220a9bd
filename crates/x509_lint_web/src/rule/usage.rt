//! Rules on what certificates of TLS servers are used for (TLS BR 7.1.2.7.6, 7.1.2.7.10, 7.1.2.7.11).

ghost use Rattle.std.specs.Prelude.{◌≡◌};
ghost use Rattle.x509_lint_web.specs.Usage as grammar;
ghost use Rattle.x509_lint_web.specs.Seen as seen;
ghost use Rattle.x509_lint_web.specs.Sentence.{IsTold};

use crate::algorithms::{is_ec, is_rsa};
use crate::entry::{WebEntry, entries};
use crate::seen::Part;
use crate::usages::{
    OtherPurpose, has_bit_not_of_ec, has_forbidden_purpose, is_not_of_servers, signs_as_authority,
};
use crate::values::WebValues;
use x509_base::Raw;
use x509_cert::certificate::CertificateInner;
use x509_der::AssociatedOid;
use x509_ext::pkix::{BasicConstraints, ExtendedKeyUsage, KeyUsage, SubjectKeyIdentifier};
use x509_lint::extensions::{extensions_of, has, has_critical, has_uncritical};
use x509_lint::lists::any_of;
use x509_lint::passes;

/// Rules on what certificates of TLS servers are used for (TLS BR 7.1.2.7.6, 7.1.2.7.10, 7.1.2.7.11).
#[derive(Clone, Copy, PartialEq, Eq)]
pub enum WebUsageRule {
    /// There is no EKU (TLS BR 7.1.2.7.10, error).
    ExtendedKeyUsageAbsent,

    /// The EKU has codeSigning, emailProtection, timeStamping, OCSPSigning or anyExtendedKeyUsage, or that of
    /// certificates that sign precertificates (TLS BR 7.1.2.7.10, error, from 2023-09-15).
    ExtendedKeyUsageForbidden,

    /// The EKU has a purpose that is neither serverAuth nor clientAuth nor forbidden (TLS BR 7.1.2.7.10, warning, from
    /// 2023-09-15).
    ExtendedKeyUsageOther,

    /// The EKU is critical (TLS BR 7.1.2.7.6, error, from 2023-09-15).
    ExtendedKeyUsageCritical,

    /// There is no KeyUsage (TLS BR 7.1.2.7.6, warning, from 2023-09-15).
    KeyUsageAbsent,

    /// The KeyUsage isn't critical (TLS BR 7.1.2.7.6, error, from 2023-09-15).
    KeyUsageNotCritical,

    /// The KeyUsage has keyCertSign or cRLSign (TLS BR 7.1.2.7.11, error).
    KeyUsageOfAuthority,

    /// The key is one of RSA, and the KeyUsage has nonRepudiation, keyAgreement, encipherOnly or decipherOnly (TLS BR
    /// 7.1.2.7.11, error, from 2023-09-15).
    KeyUsageNotOfRsa,

    /// The key is one of an elliptic curve, and the KeyUsage has nonRepudiation, keyEncipherment, dataEncipherment,
    /// encipherOnly or decipherOnly (TLS BR 7.1.2.7.11, error, from 2023-09-15).
    KeyUsageNotOfEc,

    /// The key is one of an elliptic curve, and the KeyUsage lacks digitalSignature (TLS BR 7.1.2.7.11, error, from
    /// 2023-09-15).
    EcWithoutDigitalSignature,

    /// There are basic constraints that aren't critical (TLS BR 7.1.2.7.6, error, from 2023-09-15).
    BasicConstraintsNotCritical,

    /// There is an SKI (TLS BR 7.1.2.7.6, warning, from 2023-09-15).
    SubjectKeyIdentifierPresent,
}

/// How the rules are told, in the order of their variants.
static ENTRIES: [WebEntry; 12] = entries! {
    ExtendedKeyUsageAbsent => must("extended_key_usage_absent", "7.1.2.7.10", None, "tbsCertificate.extensions.extKeyUsage"),
    ExtendedKeyUsageForbidden => must("extended_key_usage_forbidden", "7.1.2.7.10", from_day(2023, 9, 15), "tbsCertificate.extensions.extKeyUsage"),
    ExtendedKeyUsageOther => should("extended_key_usage_other", "7.1.2.7.10", from_day(2023, 9, 15), "tbsCertificate.extensions.extKeyUsage"),
    ExtendedKeyUsageCritical => must("extended_key_usage_critical", "7.1.2.7.6", from_day(2023, 9, 15), "tbsCertificate.extensions.extKeyUsage"),
    KeyUsageAbsent => should("key_usage_absent", "7.1.2.7.6", from_day(2023, 9, 15), "tbsCertificate.extensions.keyUsage"),
    KeyUsageNotCritical => must("key_usage_not_critical", "7.1.2.7.6", from_day(2023, 9, 15), "tbsCertificate.extensions.keyUsage"),
    KeyUsageOfAuthority => must("key_usage_of_authority", "7.1.2.7.11", None, "tbsCertificate.extensions.keyUsage"),
    KeyUsageNotOfRsa => must("key_usage_not_of_rsa", "7.1.2.7.11", from_day(2023, 9, 15), "tbsCertificate.extensions.keyUsage"),
    KeyUsageNotOfEc => must("key_usage_not_of_ec", "7.1.2.7.11", from_day(2023, 9, 15), "tbsCertificate.extensions.keyUsage"),
    EcWithoutDigitalSignature => must("ec_without_digital_signature", "7.1.2.7.11", from_day(2023, 9, 15), "tbsCertificate.extensions.keyUsage"),
    BasicConstraintsNotCritical =>
        must("basic_constraints_not_critical", "7.1.2.7.6", from_day(2023, 9, 15), "tbsCertificate.extensions.basicConstraints"),
    SubjectKeyIdentifierPresent =>
        should("subject_key_identifier_present", "7.1.2.7.6", from_day(2023, 9, 15), "tbsCertificate.extensions.subjectKeyIdentifier"),
};

impl WebUsageRule {
    /// How the rule is told, and since when it is in force.
    pub fn entry(self) -> WebEntry
        ensures { IsTold result (grammar.usage_sentence self) }
    {
        ENTRIES[self as usize]
    }

    /// Of which part of a certificate the rule speaks.
    pub(crate) fn part(self) -> Part
        ensures { result ≡ seen.usage_part self }
    {
        match self {
            WebUsageRule::ExtendedKeyUsageAbsent
            | WebUsageRule::ExtendedKeyUsageForbidden
            | WebUsageRule::ExtendedKeyUsageOther
            | WebUsageRule::ExtendedKeyUsageCritical => Part::Extension(ExtendedKeyUsage::OID),
            WebUsageRule::BasicConstraintsNotCritical => Part::Extension(BasicConstraints::OID),
            WebUsageRule::SubjectKeyIdentifierPresent => Part::Extension(SubjectKeyIdentifier::OID),
            _ => Part::Extension(KeyUsage::OID),
        }
    }

    /// Whether the certificate, of which these are the values, breaks the rule.
    pub(crate) fn is_broken(self, certificate: &CertificateInner<Raw>, values: &WebValues) -> bool
        ensures { result ≡ (grammar.usage_sentence self).breaks certificate.now values.now }
    {
        let key = certificate.tbs_certificate().subject_public_key_info();
        let extensions = extensions_of(certificate);
        match self {
            WebUsageRule::ExtendedKeyUsageAbsent => !has::<ExtendedKeyUsage>(extensions),
            WebUsageRule::ExtendedKeyUsageForbidden => has_forbidden_purpose(
                &values.extended_key_usage,
            ),
            WebUsageRule::ExtendedKeyUsageOther =>
                passes!(&values.extended_key_usage, usage => any_of(&OtherPurpose, usage.0.as_slice())),
            WebUsageRule::ExtendedKeyUsageCritical => has_critical::<ExtendedKeyUsage>(extensions),
            WebUsageRule::KeyUsageAbsent => !has::<KeyUsage>(extensions),
            WebUsageRule::KeyUsageNotCritical => has_uncritical::<KeyUsage>(extensions),
            WebUsageRule::KeyUsageOfAuthority =>
                passes!(&values.key_usage, usage => signs_as_authority(usage)),
            WebUsageRule::KeyUsageNotOfRsa => is_rsa(key)
                && passes!(&values.key_usage, usage => is_not_of_servers(usage) || usage.key_agreement()),
            WebUsageRule::KeyUsageNotOfEc => is_ec(key)
                && passes!(&values.key_usage, usage => has_bit_not_of_ec(usage)),
            WebUsageRule::EcWithoutDigitalSignature => is_ec(key)
                && passes!(&values.key_usage, usage => !usage.digital_signature()),
            WebUsageRule::BasicConstraintsNotCritical => has_uncritical::<BasicConstraints>(
                extensions,
            ),
            WebUsageRule::SubjectKeyIdentifierPresent => has::<SubjectKeyIdentifier>(extensions),
        }
    }
}
