//! Rules on key identifiers, extended key usage and the private key usage period (RFC 5280 4.2.1.1, 4.2.1.12, A.2).

ghost use Rattle.std.specs.List.{list_any};
ghost use Rattle.std.specs.Prelude.{◌≡◌, ◌&&◌, bytes_eq, is_some, not};
ghost use Rattle.x509_lint.specs.Key as grammar;
ghost use Rattle.x509_lint.specs.Wording.{Says};
ghost use Rattle.x509_lint.specs.Words.{is_empty, passes};

use crate::beyond::{Beyond, is_unjudged};
use crate::entry::{Entry, rules};
use crate::extensions::{has, has_critical, is_empty_sequence};
use crate::group::{Group, Told};
use crate::passes;
use crate::rule::Rule;
use crate::rule::field::is_v3;
use crate::values::KeyValues;
use x509_base::Raw;
use x509_cert::certificate::CertificateInner;
use x509_der::{ObjectIdentifier, oid};
use x509_ext::members;
use x509_ext::pkix::{AuthorityKeyIdentifier, ExtendedKeyUsage, PrivateKeyUsagePeriod};

/// Rules on key identifiers, extended key usage and the private key usage period (RFC 5280 4.2.1.1, 4.2.1.12, A.2).
#[derive(Clone, Copy, PartialEq, Eq)]
pub enum KeyRule {
    /// The version is 3, there is no AKI, and the issuer isn't the subject (RFC 5280 4.2.1.1, error).
    AuthorityKeyIdentifierAbsent,

    /// The AKI has no keyIdentifier (RFC 5280 4.2.1.1, error).
    AuthorityKeyIdentifierWithoutKey,

    /// The authorityCertIssuer of the AKI has no name (RFC 5280 4.2.1.1, error).
    AuthorityCertIssuerEmpty,

    /// The AKI has one of authorityCertIssuer and authorityCertSerialNumber without the other (RFC 5280 4.2.1.1, error).
    AuthorityCertIssuerAndSerialApart,

    /// The AKI isn't read, and has an x400Address or an OID of more than 39 octets or with a number of 2^32 or more, which this library's decoder doesn't hold; the rules on what it says aren't judged (RFC 5280 4.2.1.1, not judged).
    AuthorityKeyIdentifierNotJudged,

    /// The ExtendedKeyUsage has no purpose (RFC 5280 4.2.1.12, error).
    ExtendedKeyUsageEmpty,

    /// The ExtendedKeyUsage has anyExtendedKeyUsage, and is critical (RFC 5280 4.2.1.12, warning).
    AnyExtendedKeyUsageCritical,

    /// The ExtendedKeyUsage isn't read, and has an OID of more than 39 octets or with a number of 2^32 or more, which this library's decoder doesn't hold; the rules on what it says aren't judged (RFC 5280 4.2.1.12, not judged).
    ExtendedKeyUsageNotJudged,

    /// The PrivateKeyUsagePeriod has neither date (RFC 5280 A.2, error).
    PrivateKeyUsagePeriodEmpty,
}

/// The rules in their order, with how each is told.
pub(crate) static KEY_RULES: [Told<KeyRule>; 9] = rules! { KeyRule;
    AuthorityKeyIdentifierAbsent => must("authority_key_identifier_absent", "4.2.1.1", "tbsCertificate.extensions.authorityKeyIdentifier"),
    AuthorityKeyIdentifierWithoutKey => must("authority_key_identifier_without_key", "4.2.1.1", "tbsCertificate.extensions.authorityKeyIdentifier"),
    AuthorityCertIssuerEmpty => must("authority_cert_issuer_empty", "4.2.1.1", "tbsCertificate.extensions.authorityKeyIdentifier"),
    AuthorityCertIssuerAndSerialApart => must("authority_cert_issuer_and_serial_apart", "4.2.1.1", "tbsCertificate.extensions.authorityKeyIdentifier"),
    AuthorityKeyIdentifierNotJudged => not_judged("authority_key_identifier_not_read", "4.2.1.1", "tbsCertificate.extensions.authorityKeyIdentifier"),
    ExtendedKeyUsageEmpty => must("extended_key_usage_empty", "4.2.1.12", "tbsCertificate.extensions.extKeyUsage"),
    AnyExtendedKeyUsageCritical => should("any_extended_key_usage_critical", "4.2.1.12", "tbsCertificate.extensions.extKeyUsage"),
    ExtendedKeyUsageNotJudged => not_judged("extended_key_usage_not_read", "4.2.1.12", "tbsCertificate.extensions.extKeyUsage"),
    PrivateKeyUsagePeriodEmpty => must("private_key_usage_period_empty", "A.2", "tbsCertificate.extensions.privateKeyUsagePeriod"),
};

impl KeyRule {
    /// How bad it is to break the rule, its name, its section, and its place.
    pub fn entry(self) -> Entry
        ensures { Says result (grammar.key_sentence self).wording }
    {
        KEY_RULES[self as usize].entry
    }
}

/// anyExtendedKeyUsage, 2.5.29.37.0 (RFC 5280 4.2.1.12).
const ANY_EXTENDED_KEY_USAGE: ObjectIdentifier = oid!(0x55, 0x1D, 37, 0);

/// Whether the issuer is the subject.
fn is_self_issued(certificate: &CertificateInner<Raw>) -> bool
    ensures { result ≡ grammar.is_self_issued certificate.now }
{
    let part = certificate.tbs_certificate();
    part.subject() == part.issuer()
}

fn has_empty_issuer(identifier: &Option<AuthorityKeyIdentifier>) -> bool
    ensures { result ≡ passes (λ a. passes is_empty a.authority_cert_issuer) identifier.now }
{
    passes!(identifier, identifier => is_empty_sequence(&identifier.authority_cert_issuer))
}

fn has_half_issuer(identifier: &Option<AuthorityKeyIdentifier>) -> bool
    ensures { result ≡ passes grammar.has_half_issuer identifier.now }
{
    let Some(identifier) = identifier else {
        return false;
    };
    let has_issuer = identifier.authority_cert_issuer.is_some();
    let has_serial = identifier.authority_cert_serial_number.is_some();
    (has_issuer && !has_serial) || (has_serial && !has_issuer)
}

fn is_any_among(purposes: &[ObjectIdentifier]) -> bool
    ensures { result ≡ list_any (λ purpose. bytes_eq purpose grammar.any_extended_key_usage) purposes.now }
{
    purposes.contains(&ANY_EXTENDED_KEY_USAGE)
}

fn has_no_date(period: &Option<PrivateKeyUsagePeriod>) -> bool
    ensures { result ≡ passes (λ p. not (is_some p.not_before) && not (is_some p.not_after)) period.now }
{
    passes!(period, period => !period.not_before.is_some() && !period.not_after.is_some())
}

impl Group<CertificateInner<Raw>, KeyValues> for KeyRule {
    ghost use Rattle.x509_lint.specs.Key.{key_sentence};
    ghost use Rattle.x509_lint.specs.declared.rule.Rule.TheVariants.{Key};

    ghost sentence = { key_sentence };

    ghost as_rule = { λ rule. Key rule };

    fn is_broken(&self, certificate: &CertificateInner<Raw>, values: &KeyValues) -> bool {
        let extensions = members(certificate.tbs_certificate().extensions());
        match self {
            KeyRule::AuthorityKeyIdentifierAbsent => is_v3(certificate.tbs_certificate().version())
                && !has::<AuthorityKeyIdentifier>(extensions)
                && !is_self_issued(certificate),
            KeyRule::AuthorityKeyIdentifierWithoutKey =>
                passes!(&values.authority_key_identifier, identifier => !identifier.key_identifier.is_some()),
            KeyRule::AuthorityCertIssuerEmpty => has_empty_issuer(&values.authority_key_identifier),
            KeyRule::AuthorityCertIssuerAndSerialApart => has_half_issuer(
                &values.authority_key_identifier,
            ),
            KeyRule::AuthorityKeyIdentifierNotJudged => is_unjudged::<AuthorityKeyIdentifier>(
                Beyond::Names,
                extensions,
                values.authority_key_identifier.is_some(),
            ),
            KeyRule::ExtendedKeyUsageEmpty =>
                passes!(&values.extended_key_usage, usage => usage.0.as_slice().is_empty()),
            KeyRule::AnyExtendedKeyUsageCritical =>
                passes!(&values.extended_key_usage, usage => is_any_among(usage.0.as_slice()))
                    && has_critical::<ExtendedKeyUsage>(extensions),
            KeyRule::ExtendedKeyUsageNotJudged => is_unjudged::<ExtendedKeyUsage>(
                Beyond::Identifiers,
                extensions,
                values.extended_key_usage.is_some(),
            ),
            KeyRule::PrivateKeyUsagePeriodEmpty => has_no_date(&values.private_key_usage_period),
        }
    }

    fn to_rule(&self) -> Rule {
        Rule::Key(*self)
    }
}
