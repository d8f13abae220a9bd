//! Rules on the issuer and the subject of a certificate (RFC 5280 4.1.2.4, 4.1.2.6).

ghost use Rattle.x509_lint.specs.Name as grammar;
ghost use Rattle.x509_lint.specs.Wording.{Says};

use crate::entry::{Entry, rules};
use crate::extensions::has_critical;
use crate::facts::CertificateFacts;
use crate::group::{Group, Told};
use crate::names::{has_empty_rdn, has_no_country, is_empty_name};
use crate::rule::Rule;
use crate::texts::{TextFault, has_faulty_text};
use x509_base::Raw;
use x509_cert::certificate::CertificateInner;
use x509_ext::members;
use x509_ext::pkix::SubjectAltName;

/// Rules on the issuer and the subject of a certificate (RFC 5280 4.1.2.4, 4.1.2.6).
#[derive(Clone, Copy, PartialEq, Eq)]
pub enum NameRule {
    /// An RDN of the issuer has no attribute (RFC 5280 4.1.2.4, error).
    IssuerRdnEmpty,

    /// An RDN of the issuer has two attributes of one type (X.501 9.3, error).
    IssuerRdnTypeRepeated,

    /// A countryName of the issuer isn't a PrintableString of two letters (RFC 5280 A.1, error).
    IssuerCountryNameInvalid,

    /// The text of an attribute of the issuer is of a string type that the attribute doesn't have (RFC 5280 A.1, error).
    IssuerTextType,

    /// A DirectoryString of the issuer is a TeletexString, a BMPString or a UniversalString (RFC 5280 4.1.2.4, warning).
    IssuerTextOldType,

    /// A text of the issuer has characters that its string type doesn't have (RFC 5280 4.1.2.4, error).
    IssuerTextCharacters,

    /// The text of an attribute of the issuer is empty, or longer than its upper bound (RFC 5280 A.1, error).
    IssuerTextSize,

    /// A domainComponent of the issuer isn't one label of 1 to 63 letters, digits and hyphens, of which neither the first nor the last is a hyphen (RFC 4519 2.4, error).
    IssuerDomainComponentInvalid,

    /// An RDN of the subject has no attribute (RFC 5280 4.1.2.6, error).
    SubjectRdnEmpty,

    /// An RDN of the subject has two attributes of one type (X.501 9.3, error).
    SubjectRdnTypeRepeated,

    /// A countryName of the subject isn't a PrintableString of two letters (RFC 5280 A.1, error).
    SubjectCountryNameInvalid,

    /// The text of an attribute of the subject is of a string type that the attribute doesn't have (RFC 5280 A.1, error).
    SubjectTextType,

    /// A DirectoryString of the subject is a TeletexString, a BMPString or a UniversalString (RFC 5280 4.1.2.6, warning).
    SubjectTextOldType,

    /// A text of the subject has characters that its string type doesn't have (RFC 5280 4.1.2.6, error).
    SubjectTextCharacters,

    /// The text of an attribute of the subject is empty, or longer than its upper bound (RFC 5280 A.1, error).
    SubjectTextSize,

    /// A domainComponent of the subject isn't one label of 1 to 63 letters, digits and hyphens, of which neither the first nor the last is a hyphen (RFC 4519 2.4, error).
    SubjectDomainComponentInvalid,

    /// The subject is the empty name, and there is no SAN that is critical (RFC 5280 4.1.2.6, error).
    SubjectEmptyWithoutCriticalAltName,
}

/// The rules in their order, with how each is told.
pub(crate) static NAME_RULES: [Told<NameRule>; 17] = rules! { NameRule;
    IssuerRdnEmpty => must("issuer_rdn_empty", "4.1.2.4", "tbsCertificate.issuer"),
    IssuerRdnTypeRepeated => must_of("X.501", "issuer_rdn_type_repeated", "9.3", "tbsCertificate.issuer"),
    IssuerCountryNameInvalid => must("issuer_country_name_invalid", "A.1", "tbsCertificate.issuer"),
    IssuerTextType => must("issuer_text_type", "A.1", "tbsCertificate.issuer"),
    IssuerTextOldType => should("issuer_text_old_type", "4.1.2.4", "tbsCertificate.issuer"),
    IssuerTextCharacters => must("issuer_text_characters", "4.1.2.4", "tbsCertificate.issuer"),
    IssuerTextSize => must("issuer_text_size", "A.1", "tbsCertificate.issuer"),
    IssuerDomainComponentInvalid => must_of("RFC 4519", "issuer_domain_component_invalid", "2.4", "tbsCertificate.issuer"),
    SubjectRdnEmpty => must("subject_rdn_empty", "4.1.2.6", "tbsCertificate.subject"),
    SubjectRdnTypeRepeated => must_of("X.501", "subject_rdn_type_repeated", "9.3", "tbsCertificate.subject"),
    SubjectCountryNameInvalid => must("subject_country_name_invalid", "A.1", "tbsCertificate.subject"),
    SubjectTextType => must("subject_text_type", "A.1", "tbsCertificate.subject"),
    SubjectTextOldType => should("subject_text_old_type", "4.1.2.6", "tbsCertificate.subject"),
    SubjectTextCharacters => must("subject_text_characters", "4.1.2.6", "tbsCertificate.subject"),
    SubjectTextSize => must("subject_text_size", "A.1", "tbsCertificate.subject"),
    SubjectDomainComponentInvalid => must_of("RFC 4519", "subject_domain_component_invalid", "2.4", "tbsCertificate.subject"),
    SubjectEmptyWithoutCriticalAltName => must("subject_empty_without_critical_alt_name", "4.1.2.6", "tbsCertificate.subject"),
};

impl NameRule {
    /// How bad it is to break the rule, its name, its section, and its place.
    pub fn entry(self) -> Entry
        ensures { Says result (grammar.name_sentence self).wording }
    {
        NAME_RULES[self as usize].entry
    }
}

impl Group<CertificateInner<Raw>, CertificateFacts> for NameRule {
    ghost use Rattle.x509_lint.specs.Name.{name_sentence};
    ghost use Rattle.x509_lint.specs.declared.rule.Rule.TheVariants.{Name};

    ghost sentence = { name_sentence };

    ghost as_rule = { λ rule. Name rule };

    fn is_broken(&self, certificate: &CertificateInner<Raw>, facts: &CertificateFacts) -> bool {
        let part = certificate.tbs_certificate();
        match self {
            NameRule::IssuerRdnEmpty => has_empty_rdn(part.issuer()),
            NameRule::IssuerRdnTypeRepeated => !facts.is_issuer_distinct,
            NameRule::IssuerCountryNameInvalid => has_no_country(part.issuer()),
            NameRule::IssuerTextType => has_faulty_text(TextFault::OtherType, part.issuer()),
            NameRule::IssuerTextOldType => has_faulty_text(TextFault::OldType, part.issuer()),
            NameRule::IssuerTextCharacters => has_faulty_text(
                TextFault::OtherCharacter,
                part.issuer(),
            ),
            NameRule::IssuerTextSize => has_faulty_text(TextFault::Size, part.issuer()),
            NameRule::IssuerDomainComponentInvalid => has_faulty_text(
                TextFault::Label,
                part.issuer(),
            ),
            NameRule::SubjectRdnEmpty => has_empty_rdn(part.subject()),
            NameRule::SubjectRdnTypeRepeated => !facts.is_subject_distinct,
            NameRule::SubjectCountryNameInvalid => has_no_country(part.subject()),
            NameRule::SubjectTextType => has_faulty_text(TextFault::OtherType, part.subject()),
            NameRule::SubjectTextOldType => has_faulty_text(TextFault::OldType, part.subject()),
            NameRule::SubjectTextCharacters => has_faulty_text(
                TextFault::OtherCharacter,
                part.subject(),
            ),
            NameRule::SubjectTextSize => has_faulty_text(TextFault::Size, part.subject()),
            NameRule::SubjectDomainComponentInvalid => has_faulty_text(
                TextFault::Label,
                part.subject(),
            ),
            NameRule::SubjectEmptyWithoutCriticalAltName => is_empty_name(part.subject())
                && !has_critical::<SubjectAltName>(members(part.extensions())),
        }
    }

    fn to_rule(&self) -> Rule {
        Rule::Name(*self)
    }
}
