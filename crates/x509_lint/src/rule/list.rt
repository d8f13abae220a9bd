//! Rules on the extensions of a certificate as a list (RFC 5280 4.1.2.9, 4.2).

ghost use Rattle.std.specs.Prelude.{◌≡◌};
ghost use Rattle.x509_lint.specs.List as grammar;
ghost use Rattle.x509_lint.specs.Seen.{extension_oid};
ghost use Rattle.x509_lint.specs.Wording.{Says};

use crate::entry::{Entry, rules};
use crate::extensions::is_empty_list;
use crate::facts::CertificateFacts;
use crate::group::{Group, Told};
use crate::other_types::{OcspNoCheck, PrecertificatePoison, QcStatements, TlsFeatures};
use crate::rule::Rule;
use x509_base::Raw;
use x509_cert::certificate::CertificateInner;
use x509_der::{AssociatedOid, ObjectIdentifier};
use x509_ext::pkix::{
    AuthorityInfoAccessSyntax, AuthorityKeyIdentifier, BasicConstraints, CertificatePolicies,
    CrlDistributionPoints, ExtendedKeyUsage, FreshestCrl, InhibitAnyPolicy, IssuerAltName,
    KeyUsage, NameConstraints, PolicyConstraints, PolicyMappings, PrivateKeyUsagePeriod,
    SubjectAltName, SubjectDirectoryAttributes, SubjectInfoAccessSyntax, SubjectKeyIdentifier,
};

/// A type of extension that certificates have (RFC 5280 4.2; the last four are those of other standards).
#[derive(Clone, Copy, PartialEq, Eq)]
pub enum ExtensionKind {
    /// `authorityKeyIdentifier`.
    AuthorityKeyIdentifier,

    /// `subjectKeyIdentifier`.
    SubjectKeyIdentifier,

    /// `keyUsage`.
    KeyUsage,

    /// `extKeyUsage`.
    ExtendedKeyUsage,

    /// `privateKeyUsagePeriod`.
    PrivateKeyUsagePeriod,

    /// `basicConstraints`.
    BasicConstraints,

    /// `subjectAltName`.
    SubjectAltName,

    /// `issuerAltName`.
    IssuerAltName,

    /// `subjectDirectoryAttributes`.
    SubjectDirectoryAttributes,

    /// `nameConstraints`.
    NameConstraints,

    /// `authorityInfoAccess`.
    AuthorityInfoAccess,

    /// `subjectInfoAccess`.
    SubjectInfoAccess,

    /// `certificatePolicies`.
    CertificatePolicies,

    /// `policyMappings`.
    PolicyMappings,

    /// `policyConstraints`.
    PolicyConstraints,

    /// `inhibitAnyPolicy`.
    InhibitAnyPolicy,

    /// `cRLDistributionPoints`.
    CrlDistributionPoints,

    /// `freshestCRL`.
    FreshestCrl,

    /// `ocspNoCheck`, id-pkix-ocsp-nocheck (RFC 6960 4.2.2.2.1).
    OcspNoCheck,

    /// `precertificatePoison` (RFC 6962 3.1).
    PrecertificatePoison,

    /// `tlsFeature` (RFC 7633 4).
    TlsFeatures,

    /// `qcStatements` (RFC 3739 3.2.6).
    QcStatements,
}

/// The table of rules that an extension of a type is malformed, of each type: the place of their list is given.
macro_rules! malformed {
    ($list:literal) => {
        $crate::entry::rules! { ExtensionKind;
            AuthorityKeyIdentifier => must("extension_malformed", "4.2", concat!($list, "authorityKeyIdentifier")),
            SubjectKeyIdentifier => must("extension_malformed", "4.2", concat!($list, "subjectKeyIdentifier")),
            KeyUsage => must("extension_malformed", "4.2", concat!($list, "keyUsage")),
            ExtendedKeyUsage => must("extension_malformed", "4.2", concat!($list, "extKeyUsage")),
            PrivateKeyUsagePeriod => must("extension_malformed", "4.2", concat!($list, "privateKeyUsagePeriod")),
            BasicConstraints => must("extension_malformed", "4.2", concat!($list, "basicConstraints")),
            SubjectAltName => must("extension_malformed", "4.2", concat!($list, "subjectAltName")),
            IssuerAltName => must("extension_malformed", "4.2", concat!($list, "issuerAltName")),
            SubjectDirectoryAttributes => must("extension_malformed", "4.2", concat!($list, "subjectDirectoryAttributes")),
            NameConstraints => must("extension_malformed", "4.2", concat!($list, "nameConstraints")),
            AuthorityInfoAccess => must("extension_malformed", "4.2", concat!($list, "authorityInfoAccess")),
            SubjectInfoAccess => must("extension_malformed", "4.2", concat!($list, "subjectInfoAccess")),
            CertificatePolicies => must("extension_malformed", "4.2", concat!($list, "certificatePolicies")),
            PolicyMappings => must("extension_malformed", "4.2", concat!($list, "policyMappings")),
            PolicyConstraints => must("extension_malformed", "4.2", concat!($list, "policyConstraints")),
            InhibitAnyPolicy => must("extension_malformed", "4.2", concat!($list, "inhibitAnyPolicy")),
            CrlDistributionPoints => must("extension_malformed", "4.2", concat!($list, "cRLDistributionPoints")),
            FreshestCrl => must("extension_malformed", "4.2", concat!($list, "freshestCRL")),
            OcspNoCheck => must("extension_malformed", "4.2", concat!($list, "ocspNoCheck")),
            PrecertificatePoison => must("extension_malformed", "4.2", concat!($list, "precertificatePoison")),
            TlsFeatures => must("extension_malformed", "4.2", concat!($list, "tlsFeature")),
            QcStatements => must("extension_malformed", "4.2", concat!($list, "qcStatements")),
        }
    };
}

pub(crate) use malformed;

/// Of each type of extension, that the octets of one of it aren't an encoding of the type.
pub(crate) static MALFORMED: [Told<ExtensionKind>; 22] = malformed!("tbsCertificate.extensions.");

impl ExtensionKind {
    /// The OID of the type.
    pub(crate) fn oid(self) -> ObjectIdentifier
        ensures { result ≡ extension_oid self }
    {
        match self {
            ExtensionKind::AuthorityKeyIdentifier => AuthorityKeyIdentifier::OID,
            ExtensionKind::SubjectKeyIdentifier => SubjectKeyIdentifier::OID,
            ExtensionKind::KeyUsage => KeyUsage::OID,
            ExtensionKind::ExtendedKeyUsage => ExtendedKeyUsage::OID,
            ExtensionKind::PrivateKeyUsagePeriod => PrivateKeyUsagePeriod::OID,
            ExtensionKind::BasicConstraints => BasicConstraints::OID,
            ExtensionKind::SubjectAltName => SubjectAltName::OID,
            ExtensionKind::IssuerAltName => IssuerAltName::OID,
            ExtensionKind::SubjectDirectoryAttributes => SubjectDirectoryAttributes::OID,
            ExtensionKind::NameConstraints => NameConstraints::OID,
            ExtensionKind::AuthorityInfoAccess => AuthorityInfoAccessSyntax::OID,
            ExtensionKind::SubjectInfoAccess => SubjectInfoAccessSyntax::OID,
            ExtensionKind::CertificatePolicies => CertificatePolicies::OID,
            ExtensionKind::PolicyMappings => PolicyMappings::OID,
            ExtensionKind::PolicyConstraints => PolicyConstraints::OID,
            ExtensionKind::InhibitAnyPolicy => InhibitAnyPolicy::OID,
            ExtensionKind::CrlDistributionPoints => CrlDistributionPoints::OID,
            ExtensionKind::FreshestCrl => FreshestCrl::OID,
            ExtensionKind::OcspNoCheck => OcspNoCheck::OID,
            ExtensionKind::PrecertificatePoison => PrecertificatePoison::OID,
            ExtensionKind::TlsFeatures => TlsFeatures::OID,
            ExtensionKind::QcStatements => QcStatements::OID,
        }
    }

    /// How the rule is told that an extension of the type is malformed.
    pub(crate) fn malformed(self) -> Entry
        ensures { Says result (grammar.malformed_sentence self).wording }
    {
        MALFORMED[self as usize].entry
    }
}

impl Group<CertificateInner<Raw>, CertificateFacts> for ExtensionKind {
    ghost use Rattle.x509_lint.specs.List.{malformed_sentence};
    ghost use Rattle.x509_lint.specs.declared.rule.Rule.TheVariants.{ExtensionMalformed};

    ghost sentence = { malformed_sentence };

    ghost as_rule = { λ kind. ExtensionMalformed kind };

    fn is_broken(&self, _certificate: &CertificateInner<Raw>, facts: &CertificateFacts) -> bool {
        !facts.read.is_read(*self)
    }

    fn to_rule(&self) -> Rule {
        Rule::ExtensionMalformed(*self)
    }
}

/// Rules on the extensions of a certificate as a list (RFC 5280 4.1.2.9, 4.2).
#[derive(Clone, Copy, PartialEq, Eq)]
pub enum ListRule {
    /// The list of extensions is there, and has none (RFC 5280 4.1.2.9, error).
    ExtensionsEmpty,

    /// Two extensions have one OID (RFC 5280 4.2, error).
    ExtensionRepeated,
}

/// The rules in their order, with how each is told.
pub(crate) static LIST_RULES: [Told<ListRule>; 2] = rules! { ListRule;
    ExtensionsEmpty => must("extensions_empty", "4.1.2.9", "tbsCertificate.extensions"),
    ExtensionRepeated => must("extension_repeated", "4.2", "tbsCertificate.extensions"),
};

impl ListRule {
    /// How bad it is to break the rule, its name, its section, and its place.
    pub fn entry(self) -> Entry
        ensures { Says result (grammar.list_sentence self).wording }
    {
        LIST_RULES[self as usize].entry
    }
}

impl Group<CertificateInner<Raw>, CertificateFacts> for ListRule {
    ghost use Rattle.x509_lint.specs.List.{list_sentence};
    ghost use Rattle.x509_lint.specs.declared.rule.Rule.TheVariants.{ExtensionList};

    ghost sentence = { list_sentence };

    ghost as_rule = { λ rule. ExtensionList rule };

    fn is_broken(&self, certificate: &CertificateInner<Raw>, facts: &CertificateFacts) -> bool {
        match self {
            ListRule::ExtensionsEmpty => is_empty_list(certificate.tbs_certificate().extensions()),
            ListRule::ExtensionRepeated => facts.is_repeated,
        }
    }

    fn to_rule(&self) -> Rule {
        Rule::ExtensionList(*self)
    }
}
