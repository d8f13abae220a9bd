//! Rules on the fields of a certificate (RFC 5280 4.1).

ghost use Rattle.std.specs.Prelude.{◌≡◌, is_some, not};
ghost use Rattle.x509_lint.specs.Field as grammar;
ghost use Rattle.x509_lint.specs.Wording.{Says};
ghost use Rattle.x509_prim.specs.Integer.{integer_value};

use crate::entry::{Entry, rules};
use crate::facts::CertificateFacts;
use crate::group::{Group, Told};
use crate::names::is_empty_name;
use crate::rule::Rule;
use crate::times::{is_before, is_early_general};
use x509_base::{Raw, SerialNumber};
use x509_cert::Version;
use x509_cert::certificate::CertificateInner;

/// Rules on the fields of a certificate (RFC 5280 4.1).
#[derive(Clone, Copy, PartialEq, Eq)]
pub enum FieldRule {
    /// The algorithm in the signed part isn't the one outside it (RFC 5280 4.1.1.2, error).
    SignatureAlgorithmsDiffer,

    /// There are extensions, and the version isn't 3 (RFC 5280 4.1.2.1, error).
    ExtensionsWithoutV3,

    /// There is a unique identifier and no extensions, and the version is 3 (RFC 5280 4.1.2.1, warning).
    VersionAboveV2,

    /// There are neither unique identifiers nor extensions, and the version isn't 1 (RFC 5280 4.1.2.1, warning).
    VersionAboveV1,

    /// The serial number is 0 or negative (RFC 5280 4.1.2.2, error).
    SerialNumberNotPositive,

    /// The serial number has more than 20 octets (RFC 5280 4.1.2.2, error).
    SerialNumberTooLong,

    /// The issuer is the empty name (RFC 5280 4.1.2.4, error).
    IssuerEmpty,

    /// `notBefore` is a date through 2049, and a GeneralizedTime (RFC 5280 4.1.2.5, error).
    NotBeforeNotUtcTime,

    /// `notAfter` is a date through 2049, and a GeneralizedTime (RFC 5280 4.1.2.5, error).
    NotAfterNotUtcTime,

    /// `notAfter` is before `notBefore` (RFC 5280 4.1.2.5, error).
    NotAfterBeforeNotBefore,

    /// There is a unique identifier, and the version is 1 (RFC 5280 4.1.2.8, error).
    UniqueIdentifierInV1,

    /// There is a unique identifier (RFC 5280 4.1.2.8, error).
    UniqueIdentifierPresent,
}

/// The rules in their order, with how each is told.
pub(crate) static FIELD_RULES: [Told<FieldRule>; 12] = rules! { FieldRule;
    SignatureAlgorithmsDiffer => must("signature_algorithms_differ", "4.1.1.2", "signatureAlgorithm"),
    ExtensionsWithoutV3 => must("extensions_without_v3", "4.1.2.1", "tbsCertificate.version"),
    VersionAboveV2 => should("version_above_v2", "4.1.2.1", "tbsCertificate.version"),
    VersionAboveV1 => should("version_above_v1", "4.1.2.1", "tbsCertificate.version"),
    SerialNumberNotPositive => must("serial_number_not_positive", "4.1.2.2", "tbsCertificate.serialNumber"),
    SerialNumberTooLong => must("serial_number_too_long", "4.1.2.2", "tbsCertificate.serialNumber"),
    IssuerEmpty => must("issuer_empty", "4.1.2.4", "tbsCertificate.issuer"),
    NotBeforeNotUtcTime => must("not_before_not_utc_time", "4.1.2.5", "tbsCertificate.validity.notBefore"),
    NotAfterNotUtcTime => must("not_after_not_utc_time", "4.1.2.5", "tbsCertificate.validity.notAfter"),
    NotAfterBeforeNotBefore => must("not_after_before_not_before", "4.1.2.5", "tbsCertificate.validity.notAfter"),
    UniqueIdentifierInV1 => must("unique_identifier_in_v1", "4.1.2.8", "tbsCertificate"),
    UniqueIdentifierPresent => must("unique_identifier_present", "4.1.2.8", "tbsCertificate"),
};

impl FieldRule {
    /// How bad it is to break the rule, its name, its section, and its place.
    pub fn entry(self) -> Entry
        ensures { Says result (grammar.field_sentence self).wording }
    {
        FIELD_RULES[self as usize].entry
    }
}

fn is_v1(version: Version) -> bool
    ensures { result ≡ grammar.is_v1 version }
{
    match version {
        Version::V1 => true,
        Version::V2 | Version::V3 => false,
    }
}

pub(crate) fn is_v3(version: Version) -> bool
    ensures { result ≡ grammar.is_v3 version }
{
    match version {
        Version::V3 => true,
        Version::V1 | Version::V2 => false,
    }
}

/// Whether the number is 0 or negative.
fn is_not_positive(serial: &SerialNumber<Raw>) -> bool
    ensures { result ≡ not (grammar.is_positive (integer_value serial.now)) }
{
    match serial.as_bytes() {
        [first, ..] if *first >= 0x80 => true,
        _ => matches!(serial.to_u64(), Some(0)),
    }
}

fn has_unique_identifier(certificate: &CertificateInner<Raw>) -> bool
    ensures { result ≡ grammar.has_unique_identifier certificate.now }
{
    let part = certificate.tbs_certificate();
    part.issuer_unique_id().is_some() || part.subject_unique_id().is_some()
}

fn has_extensions(certificate: &CertificateInner<Raw>) -> bool
    ensures { result ≡ is_some certificate.now.tbs_certificate.extensions }
{
    certificate.tbs_certificate().extensions().is_some()
}

impl Group<CertificateInner<Raw>, CertificateFacts> for FieldRule {
    ghost use Rattle.x509_lint.specs.Field.{field_sentence};
    ghost use Rattle.x509_lint.specs.declared.rule.Rule.TheVariants.{Field};

    ghost sentence = { field_sentence };

    ghost as_rule = { λ rule. Field rule };

    fn is_broken(&self, certificate: &CertificateInner<Raw>, facts: &CertificateFacts) -> bool {
        let part = certificate.tbs_certificate();
        match self {
            FieldRule::SignatureAlgorithmsDiffer => facts.algorithms_differ,
            FieldRule::ExtensionsWithoutV3 => has_extensions(certificate) && !is_v3(part.version()),
            FieldRule::VersionAboveV2 => has_unique_identifier(certificate)
                && !has_extensions(certificate)
                && is_v3(part.version()),
            FieldRule::VersionAboveV1 => !has_unique_identifier(certificate)
                && !has_extensions(certificate)
                && !is_v1(part.version()),
            FieldRule::SerialNumberNotPositive => is_not_positive(part.serial_number()),
            FieldRule::SerialNumberTooLong => part.serial_number().as_bytes().len() > 20,
            FieldRule::IssuerEmpty => is_empty_name(part.issuer()),
            FieldRule::NotBeforeNotUtcTime => is_early_general(part.validity().not_before),
            FieldRule::NotAfterNotUtcTime => is_early_general(part.validity().not_after),
            FieldRule::NotAfterBeforeNotBefore => is_before(
                part.validity().not_after,
                part.validity().not_before,
            ),
            FieldRule::UniqueIdentifierInV1 => has_unique_identifier(certificate)
                && is_v1(part.version()),
            FieldRule::UniqueIdentifierPresent => has_unique_identifier(certificate),
        }
    }

    fn to_rule(&self) -> Rule {
        Rule::Field(*self)
    }
}
