//! Rules on the fields of a CRL (RFC 5280 5.1).

ghost use Rattle.std.specs.Prelude.{◌≡◌, is_some, not};
ghost use Rattle.x509_lint.specs.CrlField as grammar;
ghost use Rattle.x509_lint.specs.Seen.{crl_extension_oid};
ghost use Rattle.x509_lint.specs.Wording.{Says};
ghost use Rattle.x509_lint.specs.Words.{is_before, is_early_general, passes};

use crate::entries::{EntryFault, EntryTest};
use crate::entry::{Entry, rules};
use crate::extensions::is_empty_sequence;
use crate::facts::CrlFacts;
use crate::group::{Group, Told};
use crate::names::{has_empty_rdn, has_no_country, is_empty_name};
use crate::passes;
use crate::rule::Rule;
use crate::texts::{TextFault, has_faulty_text};
use crate::times::{is_before, is_early_general};
use x509_base::{Raw, Time};
use x509_cert::Version;
use x509_cert::crl::CertificateList;
use x509_der::{AssociatedOid, ObjectIdentifier};
use x509_ext::pkix::{
    AuthorityInfoAccessSyntax, AuthorityKeyIdentifier, BaseCrlNumber, CrlNumber, FreshestCrl,
    IssuerAltName, IssuingDistributionPoint,
};

/// A type of extension that CRLs have (RFC 5280 5.2).
#[derive(Clone, Copy, PartialEq, Eq)]
pub enum CrlExtensionKind {
    /// `authorityKeyIdentifier`.
    AuthorityKeyIdentifier,

    /// `issuerAltName`.
    IssuerAltName,

    /// `cRLNumber`.
    CrlNumber,

    /// `deltaCRLIndicator`.
    DeltaCrlIndicator,

    /// `issuingDistributionPoint`.
    IssuingDistributionPoint,

    /// `freshestCRL`.
    FreshestCrl,

    /// `authorityInfoAccess`.
    AuthorityInfoAccess,
}

/// Of each type of extension, that the octets of one of it aren't an encoding of the type.
pub(crate) static CRL_MALFORMED: [Told<CrlExtensionKind>; 7] = rules! { CrlExtensionKind;
    AuthorityKeyIdentifier => must("extension_malformed", "5.2", "tbsCertList.crlExtensions.authorityKeyIdentifier"),
    IssuerAltName => must("extension_malformed", "5.2", "tbsCertList.crlExtensions.issuerAltName"),
    CrlNumber => must("extension_malformed", "5.2", "tbsCertList.crlExtensions.cRLNumber"),
    DeltaCrlIndicator => must("extension_malformed", "5.2", "tbsCertList.crlExtensions.deltaCRLIndicator"),
    IssuingDistributionPoint => must("extension_malformed", "5.2", "tbsCertList.crlExtensions.issuingDistributionPoint"),
    FreshestCrl => must("extension_malformed", "5.2", "tbsCertList.crlExtensions.freshestCRL"),
    AuthorityInfoAccess => must("extension_malformed", "5.2", "tbsCertList.crlExtensions.authorityInfoAccess"),
};

impl CrlExtensionKind {
    /// The OID of the type.
    pub(crate) fn oid(self) -> ObjectIdentifier
        ensures { result ≡ crl_extension_oid self }
    {
        match self {
            CrlExtensionKind::AuthorityKeyIdentifier => AuthorityKeyIdentifier::OID,
            CrlExtensionKind::IssuerAltName => IssuerAltName::OID,
            CrlExtensionKind::CrlNumber => CrlNumber::OID,
            CrlExtensionKind::DeltaCrlIndicator => BaseCrlNumber::OID,
            CrlExtensionKind::IssuingDistributionPoint => IssuingDistributionPoint::OID,
            CrlExtensionKind::FreshestCrl => FreshestCrl::OID,
            CrlExtensionKind::AuthorityInfoAccess => AuthorityInfoAccessSyntax::OID,
        }
    }

    /// How the rule is told that an extension of the type is malformed.
    pub(crate) fn malformed(self) -> Entry
        ensures { Says result (grammar.crl_malformed_sentence self).wording }
    {
        CRL_MALFORMED[self as usize].entry
    }
}

impl Group<CertificateList<Raw>, CrlFacts> for CrlExtensionKind {
    ghost use Rattle.x509_lint.specs.CrlField.{crl_malformed_sentence};
    ghost use Rattle.x509_lint.specs.declared.rule.Rule.TheVariants.{CrlExtensionMalformed};

    ghost sentence = { crl_malformed_sentence };

    ghost as_rule = { λ kind. CrlExtensionMalformed kind };

    fn is_broken(&self, _crl: &CertificateList<Raw>, facts: &CrlFacts) -> bool {
        !facts.read.is_read(*self)
    }

    fn to_rule(&self) -> Rule {
        Rule::CrlExtensionMalformed(*self)
    }
}

/// Rules on the fields of a CRL (RFC 5280 5.1).
#[derive(Clone, Copy, PartialEq, Eq)]
pub enum CrlFieldRule {
    /// The algorithm in the signed part isn't the one outside it (RFC 5280 5.1.1.2, error).
    SignatureAlgorithmsDiffer,

    /// There are extensions, of the CRL or of an entry, and the version isn't 2 (RFC 5280 5.1.2.1, error).
    ExtensionsWithoutV2,

    /// The version is there, and isn't 2 (RFC 5280 5.1.2.1, error).
    VersionNotV2,

    /// The issuer is the empty name (RFC 5280 5.1.2.3, error).
    IssuerEmpty,

    /// An RDN of the issuer has no attribute (RFC 5280 5.1.2.3, error).
    IssuerRdnEmpty,

    /// An RDN of the issuer has two attributes of one type (X.501 9.3, error).
    IssuerRdnTypeRepeated,

    /// A countryName of the issuer isn't a PrintableString of two letters (RFC 5280 A.1, error).
    IssuerCountryNameInvalid,

    /// The text of an attribute of the issuer is of a string type that the attribute doesn't have (RFC 5280 A.1, error).
    IssuerTextType,

    /// A DirectoryString of the issuer is a TeletexString, a BMPString or a UniversalString (RFC 5280 5.1.2.3, warning).
    IssuerTextOldType,

    /// A text of the issuer has characters that its string type doesn't have (RFC 5280 5.1.2.3, error).
    IssuerTextCharacters,

    /// The text of an attribute of the issuer is empty, or longer than its upper bound (RFC 5280 A.1, error).
    IssuerTextSize,

    /// A domainComponent of the issuer isn't one label of 1 to 63 letters, digits and hyphens, of which neither the first nor the last is a hyphen (RFC 4519 2.4, error).
    IssuerDomainComponentInvalid,

    /// `thisUpdate` is a date through 2049, and a GeneralizedTime (RFC 5280 5.1.2.4, error).
    ThisUpdateNotUtcTime,

    /// There is no `nextUpdate` (RFC 5280 5.1.2.5, error).
    NextUpdateAbsent,

    /// `nextUpdate` is a date through 2049, and a GeneralizedTime (RFC 5280 5.1.2.5, error).
    NextUpdateNotUtcTime,

    /// `nextUpdate` is before `thisUpdate` (RFC 5280 5.1.2.5, error).
    NextUpdateBeforeThisUpdate,

    /// The list of entries is there, and has none (RFC 5280 5.1.2.6, error).
    RevokedCertificatesEmpty,

    /// Two entries have one serial number, and no entry has a certificateIssuer (RFC 5280 5.1.2.6, error).
    SerialNumberRepeated,

    /// The date of an entry is one through 2049, and a GeneralizedTime (RFC 5280 5.1.2.6, error).
    RevocationDateNotUtcTime,

    /// The list of extensions is there, and has none (RFC 5280 5.1.2.7, error).
    ExtensionsEmpty,

    /// Two extensions have one OID (RFC 5280 5.2, error).
    ExtensionRepeated,
}

/// The rules in their order, with how each is told.
pub(crate) static CRL_FIELD_RULES: [Told<CrlFieldRule>; 21] = rules! { CrlFieldRule;
    SignatureAlgorithmsDiffer => must("signature_algorithms_differ", "5.1.1.2", "signatureAlgorithm"),
    ExtensionsWithoutV2 => must("extensions_without_v2", "5.1.2.1", "tbsCertList.version"),
    VersionNotV2 => must("version_not_v2", "5.1.2.1", "tbsCertList.version"),
    IssuerEmpty => must("issuer_empty", "5.1.2.3", "tbsCertList.issuer"),
    IssuerRdnEmpty => must("issuer_rdn_empty", "5.1.2.3", "tbsCertList.issuer"),
    IssuerRdnTypeRepeated => must_of("X.501", "issuer_rdn_type_repeated", "9.3", "tbsCertList.issuer"),
    IssuerCountryNameInvalid => must("issuer_country_name_invalid", "A.1", "tbsCertList.issuer"),
    IssuerTextType => must("issuer_text_type", "A.1", "tbsCertList.issuer"),
    IssuerTextOldType => should("issuer_text_old_type", "5.1.2.3", "tbsCertList.issuer"),
    IssuerTextCharacters => must("issuer_text_characters", "5.1.2.3", "tbsCertList.issuer"),
    IssuerTextSize => must("issuer_text_size", "A.1", "tbsCertList.issuer"),
    IssuerDomainComponentInvalid => must_of("RFC 4519", "issuer_domain_component_invalid", "2.4", "tbsCertList.issuer"),
    ThisUpdateNotUtcTime => must("this_update_not_utc_time", "5.1.2.4", "tbsCertList.thisUpdate"),
    NextUpdateAbsent => must("next_update_absent", "5.1.2.5", "tbsCertList.nextUpdate"),
    NextUpdateNotUtcTime => must("next_update_not_utc_time", "5.1.2.5", "tbsCertList.nextUpdate"),
    NextUpdateBeforeThisUpdate => must("next_update_before_this_update", "5.1.2.5", "tbsCertList.nextUpdate"),
    RevokedCertificatesEmpty => must("revoked_certificates_empty", "5.1.2.6", "tbsCertList.revokedCertificates"),
    SerialNumberRepeated => must("serial_number_repeated", "5.1.2.6", "tbsCertList.revokedCertificates.userCertificate"),
    RevocationDateNotUtcTime => must("revocation_date_not_utc_time", "5.1.2.6", "tbsCertList.revokedCertificates.revocationDate"),
    ExtensionsEmpty => must("extensions_empty", "5.1.2.7", "tbsCertList.crlExtensions"),
    ExtensionRepeated => must("extension_repeated", "5.2", "tbsCertList.crlExtensions"),
};

impl CrlFieldRule {
    /// How bad it is to break the rule, its name, its section, and its place.
    pub fn entry(self) -> Entry
        ensures { Says result (grammar.crl_field_sentence self).wording }
    {
        CRL_FIELD_RULES[self as usize].entry
    }
}

fn is_v2(version: &Option<Version>) -> bool
    ensures { result ≡ passes grammar.is_v2 version.now }
{
    match version {
        Some(Version::V2) => true,
        Some(Version::V1 | Version::V3) => false,
        None => false,
    }
}

fn is_not_v2(version: &Option<Version>) -> bool
    ensures { result ≡ passes (λ version. not (grammar.is_v2 version)) version.now }
{
    match version {
        Some(Version::V2) => false,
        Some(Version::V1 | Version::V3) => true,
        None => false,
    }
}

fn is_next_early_general(next: Option<Time>) -> bool
    ensures { result ≡ passes is_early_general next }
{
    passes!(next, next => is_early_general(next))
}

fn is_next_before(next: Option<Time>, this: Time) -> bool
    ensures { result ≡ passes (λ next. is_before next this) next }
{
    passes!(next, next => is_before(next, this))
}

impl Group<CertificateList<Raw>, CrlFacts> for CrlFieldRule {
    ghost use Rattle.x509_lint.specs.CrlField.{crl_field_sentence};
    ghost use Rattle.x509_lint.specs.declared.rule.Rule.TheVariants.{CrlField};

    ghost sentence = { crl_field_sentence };

    ghost as_rule = { λ rule. CrlField rule };

    fn is_broken(&self, crl: &CertificateList<Raw>, facts: &CrlFacts) -> bool {
        let part = &crl.tbs_cert_list;
        match self {
            CrlFieldRule::SignatureAlgorithmsDiffer => facts.algorithms_differ,
            CrlFieldRule::ExtensionsWithoutV2 => (part.crl_extensions.is_some()
                || facts.entries.found.is_noted(EntryTest::Extended))
                && !is_v2(&part.version),
            CrlFieldRule::VersionNotV2 => is_not_v2(&part.version),
            CrlFieldRule::IssuerEmpty => is_empty_name(&part.issuer),
            CrlFieldRule::IssuerRdnEmpty => has_empty_rdn(&part.issuer),
            CrlFieldRule::IssuerRdnTypeRepeated => !facts.is_issuer_distinct,
            CrlFieldRule::IssuerCountryNameInvalid => has_no_country(&part.issuer),
            CrlFieldRule::IssuerTextType => has_faulty_text(TextFault::OtherType, &part.issuer),
            CrlFieldRule::IssuerTextOldType => has_faulty_text(TextFault::OldType, &part.issuer),
            CrlFieldRule::IssuerTextCharacters => has_faulty_text(
                TextFault::OtherCharacter,
                &part.issuer,
            ),
            CrlFieldRule::IssuerTextSize => has_faulty_text(TextFault::Size, &part.issuer),
            CrlFieldRule::IssuerDomainComponentInvalid => has_faulty_text(
                TextFault::Label,
                &part.issuer,
            ),
            CrlFieldRule::ThisUpdateNotUtcTime => is_early_general(part.this_update),
            CrlFieldRule::NextUpdateAbsent => !part.next_update.is_some(),
            CrlFieldRule::NextUpdateNotUtcTime => is_next_early_general(part.next_update),
            CrlFieldRule::NextUpdateBeforeThisUpdate => is_next_before(
                part.next_update,
                part.this_update,
            ),
            CrlFieldRule::RevokedCertificatesEmpty => part.revoked_certificates.is_some()
                && !facts.entries.found.is_noted(EntryTest::There),
            CrlFieldRule::SerialNumberRepeated => !facts.entries.are_serials_distinct
                && !facts
                    .entries
                    .found
                    .is_noted(EntryTest::Faulty(EntryFault::Issuer)),
            CrlFieldRule::RevocationDateNotUtcTime => {
                facts.entries.found.is_noted(EntryTest::EarlyGeneral)
            }
            CrlFieldRule::ExtensionsEmpty => is_empty_sequence(&part.crl_extensions),
            CrlFieldRule::ExtensionRepeated => facts.is_repeated,
        }
    }

    fn to_rule(&self) -> Rule {
        Rule::CrlField(*self)
    }
}

/// Rules on the lists of extensions that a CRL's entries have (RFC 5280 5.3).
#[derive(Clone, Copy, PartialEq, Eq)]
pub enum CrlEntryListRule {
    /// The list of an entry's extensions is there, and has none (RFC 5280 5.3, error).
    EntryExtensionsEmpty,

    /// Two extensions of an entry have one OID (RFC 5280 5.3, error).
    EntryExtensionRepeated,
}

/// The rules in their order, with how each is told.
pub(crate) static CRL_ENTRY_LIST_RULES: [Told<CrlEntryListRule>; 2] = rules! { CrlEntryListRule;
    EntryExtensionsEmpty => must("entry_extensions_empty", "5.3", "tbsCertList.revokedCertificates.crlEntryExtensions"),
    EntryExtensionRepeated => must("entry_extension_repeated", "5.3", "tbsCertList.revokedCertificates.crlEntryExtensions"),
};

impl CrlEntryListRule {
    /// How bad it is to break the rule, its name, its section, and its place.
    pub fn entry(self) -> Entry
        ensures { Says result (grammar.crl_entry_list_sentence self).wording }
    {
        CRL_ENTRY_LIST_RULES[self as usize].entry
    }
}

impl Group<CertificateList<Raw>, CrlFacts> for CrlEntryListRule {
    ghost use Rattle.x509_lint.specs.CrlField.{crl_entry_list_sentence};
    ghost use Rattle.x509_lint.specs.declared.rule.Rule.TheVariants.{CrlEntryList};

    ghost sentence = { crl_entry_list_sentence };

    ghost as_rule = { λ rule. CrlEntryList rule };

    fn is_broken(&self, _crl: &CertificateList<Raw>, facts: &CrlFacts) -> bool {
        match self {
            CrlEntryListRule::EntryExtensionsEmpty => {
                facts.entries.found.is_noted(EntryTest::WithoutExtensions)
            }
            CrlEntryListRule::EntryExtensionRepeated => !facts.entries.are_distinct,
        }
    }

    fn to_rule(&self) -> Rule {
        Rule::CrlEntryList(*self)
    }
}
