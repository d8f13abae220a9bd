//! Rules on version, signature, key identifier and CRL distribution points of any certificate (TLS BR 7.1.1, 7.1.3.2, 7.1.2.11).

ghost use Rattle.std.specs.Prelude.{◌≡◌};
ghost use Rattle.x509_lint.specs.Field.{is_v3};
ghost use Rattle.x509_lint_web.specs.Field as grammar;
ghost use Rattle.x509_lint_web.specs.Seen as seen;
ghost use Rattle.x509_lint_web.specs.Sentence.{IsTold};

use crate::algorithms::{are_null, are_pss, is_ecdsa, is_of_sha1, is_rsa_pkcs1, is_rsa_pss};
use crate::entry::{WebEntry, entries};
use crate::places::{Partial, WithoutHttp, has_issuer};
use crate::scope::{is_authority, is_self_issued};
use crate::seen::Part;
use crate::values::WebValues;
use x509_base::Raw;
use x509_cert::Version;
use x509_cert::certificate::CertificateInner;
use x509_der::{AssociatedOid, ObjectIdentifier};
use x509_ext::pkix::{AuthorityKeyIdentifier, CrlDistributionPoints};
use x509_lint::extensions::{extensions_of, has_critical};
use x509_lint::lists::any_of;
use x509_lint::passes;

/// Rules on version, signature, key identifier and CRL distribution points of any certificate (TLS BR 7.1.1, 7.1.3.2, 7.1.2.11).
#[derive(Clone, Copy, PartialEq, Eq)]
pub enum WebFieldRule {
    /// The version isn't 3 (TLS BR 7.1.1, error).
    VersionNotV3,

    /// The signature is of SHA-1; a self-issued certificate of an authority aside (TLS BR 7.1.3.2, error, from
    /// 2016-01-01).
    SignatureOfSha1,

    /// The signature is neither of RSA nor of ECDSA with SHA-256, SHA-384 or SHA-512, and none of SHA-1, which has a rule of
    /// its own (TLS BR 7.1.3.2, error, from 2020-08-20).
    SignatureAlgorithmOther,

    /// The signature is one of RSASSA-PKCS1-v1_5, and its parameters aren't NULL (TLS BR 7.1.3.2.1, error, from
    /// 2020-08-20).
    RsaSignatureParametersNotNull,

    /// The signature is one of ECDSA, and has parameters (TLS BR 7.1.3.2.2, error, from 2020-08-20).
    EcdsaSignatureParametersPresent,

    /// The signature is one of RSASSA-PSS, and its parameters aren't, octet for octet, those of SHA-256, SHA-384 or SHA-512 for
    /// the digest and for MGF1, and of a salt as long as the digest (TLS BR 7.1.3.2.1, error, from 2020-08-20).
    RsaPssParametersOther,

    /// The AKI has an authorityCertIssuer or an authorityCertSerialNumber (TLS BR 7.1.2.11.1, error, from 2023-09-15).
    AuthorityCertIssuerPresent,

    /// The CRLDistributionPoints is critical (TLS BR 7.1.2.11.2, error).
    CrlDistributionPointsCritical,

    /// A distribution point has no full name of HTTP URIs alone (TLS BR 7.1.2.11.2, error, from 2023-09-15).
    CrlDistributionPointNotHttp,

    /// A distribution point has reasons or a cRLIssuer (TLS BR 7.1.2.11.2, error, from 2023-09-15).
    CrlDistributionPointPartial,
}

/// How the rules are told, in the order of their variants.
static ENTRIES: [WebEntry; 10] = entries! {
    VersionNotV3 => must("version_not_v3", "7.1.1", None, "tbsCertificate.version"),
    SignatureOfSha1 => must("signature_of_sha1", "7.1.3.2", from_day(2016, 1, 1), "signatureAlgorithm"),
    SignatureAlgorithmOther => must("signature_algorithm_other", "7.1.3.2", from_day(2020, 8, 20), "signatureAlgorithm"),
    RsaSignatureParametersNotNull => must("rsa_signature_parameters_not_null", "7.1.3.2.1", from_day(2020, 8, 20), "signatureAlgorithm"),
    EcdsaSignatureParametersPresent => must("ecdsa_signature_parameters_present", "7.1.3.2.2", from_day(2020, 8, 20), "signatureAlgorithm"),
    RsaPssParametersOther => must("rsa_pss_parameters_other", "7.1.3.2.1", from_day(2020, 8, 20), "signatureAlgorithm"),
    AuthorityCertIssuerPresent =>
        must("authority_cert_issuer_present", "7.1.2.11.1", from_day(2023, 9, 15), "tbsCertificate.extensions.authorityKeyIdentifier"),
    CrlDistributionPointsCritical => must("crl_distribution_points_critical", "7.1.2.11.2", None, "tbsCertificate.extensions.cRLDistributionPoints"),
    CrlDistributionPointNotHttp =>
        must("crl_distribution_point_not_http", "7.1.2.11.2", from_day(2023, 9, 15), "tbsCertificate.extensions.cRLDistributionPoints"),
    CrlDistributionPointPartial =>
        must("crl_distribution_point_partial", "7.1.2.11.2", from_day(2023, 9, 15), "tbsCertificate.extensions.cRLDistributionPoints"),
};

impl WebFieldRule {
    /// How the rule is told, and since when it is in force.
    pub fn entry(self) -> WebEntry
        ensures { IsTold result (grammar.field_sentence self) }
    {
        ENTRIES[self as usize]
    }

    /// Of which part of a certificate the rule speaks.
    pub(crate) fn part(self) -> Part
        ensures { result ≡ seen.field_part self }
    {
        match self {
            WebFieldRule::VersionNotV3 => Part::Version,
            WebFieldRule::AuthorityCertIssuerPresent => Part::Extension(
                AuthorityKeyIdentifier::OID,
            ),
            WebFieldRule::CrlDistributionPointsCritical
            | WebFieldRule::CrlDistributionPointNotHttp
            | WebFieldRule::CrlDistributionPointPartial => Part::Extension(
                CrlDistributionPoints::OID,
            ),
            _ => Part::Signature,
        }
    }

    /// Whether the certificate, of which these are the values, breaks the rule.
    pub(crate) fn is_broken(self, certificate: &CertificateInner<Raw>, values: &WebValues) -> bool
        ensures { result ≡ (grammar.field_sentence self).breaks certificate.now values.now }
    {
        let algorithm = certificate.signature_algorithm();
        match self {
            WebFieldRule::VersionNotV3 => !is_v3(certificate.tbs_certificate().version()),
            WebFieldRule::SignatureOfSha1 => is_of_sha1(algorithm.oid)
                && !(is_authority(values) && is_self_issued(certificate)),
            WebFieldRule::SignatureAlgorithmOther => !is_allowed(algorithm.oid)
                && !is_of_sha1(algorithm.oid),
            WebFieldRule::RsaSignatureParametersNotNull => is_rsa_pkcs1(algorithm.oid)
                && !are_null(&algorithm.parameters),
            WebFieldRule::EcdsaSignatureParametersPresent => is_ecdsa(algorithm.oid)
                && algorithm.parameters.is_some(),
            WebFieldRule::RsaPssParametersOther => is_rsa_pss(algorithm.oid)
                && !are_pss(&algorithm.parameters),
            WebFieldRule::AuthorityCertIssuerPresent => has_issuer(
                &values.authority_key_identifier,
            ),
            WebFieldRule::CrlDistributionPointsCritical => has_critical::<CrlDistributionPoints>(
                extensions_of(certificate),
            ),
            WebFieldRule::CrlDistributionPointNotHttp =>
                passes!(&values.crl_distribution_points, points => any_of(&WithoutHttp, points.0.as_slice())),
            WebFieldRule::CrlDistributionPointPartial =>
                passes!(&values.crl_distribution_points, points => any_of(&Partial, points.0.as_slice())),
        }
    }
}

fn is_allowed(oid: ObjectIdentifier) -> bool
    ensures { result ≡ grammar.is_allowed oid }
{
    is_rsa_pkcs1(oid) || (is_rsa_pss(oid) || is_ecdsa(oid))
}

fn is_v3(version: Version) -> bool
    ensures { result ≡ is_v3 version }
{
    match version {
        Version::V3 => true,
        Version::V1 | Version::V2 => false,
    }
}
