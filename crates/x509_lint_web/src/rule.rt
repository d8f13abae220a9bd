//! The rules of the Baseline Requirements that a certificate alone shows.

ghost use Rattle.std.specs.Prelude.{◌≡◌, Some};
ghost use Rattle.x509_lint.specs.Wording.{wording_text};
ghost use Rattle.x509_lint_web.specs.Rules.{web_sentence};
ghost use Rattle.x509_lint_web.specs.Seen.{part_of};
ghost use Rattle.x509_lint_web.specs.Sentence.{IsTold, is_in_force};

use crate::day::{Day, is_begun, is_over};
use crate::entry::WebEntry;
use crate::scope::{is_above_servers, is_responder, is_root, is_server, is_subordinate};
use crate::seen::Part;
use crate::values::WebValues;
use std::fmt;
use x509_base::{DateTime, Raw};
use x509_cert::certificate::CertificateInner;
use x509_lint::{Entry, Severity};

mod authority;
mod constrained;
mod field;
mod key;
mod name;
mod policy;
mod precertificate;
mod responder;
mod root;
mod subject;
mod subordinate;
mod usage;
mod validity;

pub use authority::WebAuthorityRule;
pub use constrained::WebConstrainedRule;
pub use field::WebFieldRule;
pub use key::WebKeyRule;
pub use name::WebNameRule;
pub use policy::WebPolicyRule;
pub use precertificate::WebPrecertificateRule;
pub use responder::WebResponderRule;
pub use root::WebRootRule;
pub use subject::WebSubjectRule;
pub use subordinate::WebSubordinateRule;
pub use usage::WebUsageRule;
pub use validity::WebValidityRule;

/// A rule of the Baseline Requirements for TLS server certificates (TLS BR) of the CA/Browser Forum. It is printed as
/// `error subject_alt_name_absent (TLS BR 7.1.2.7.12)`.
#[derive(Clone, Copy, PartialEq, Eq)]
pub enum WebRule {
    /// On any certificate: its version, signature, key identifier and CRL distribution points.
    Field(WebFieldRule),

    /// On the public key of any certificate.
    Key(WebKeyRule),

    /// On the validity of a certificate of a TLS server.
    Validity(WebValidityRule),

    /// On the SAN and the subject of a certificate of a TLS server.
    Name(WebNameRule),

    /// On the attributes of the subject of a certificate of a TLS server.
    Subject(WebSubjectRule),

    /// On what a certificate of a TLS server is used for.
    Usage(WebUsageRule),

    /// On certificate policies and authority information access of a certificate of a TLS server.
    Policy(WebPolicyRule),

    /// On a certificate of an authority that may stand above TLS servers.
    Authority(WebAuthorityRule),

    /// On a certificate of a root.
    Root(WebRootRule),

    /// On a certificate of an authority that may stand above TLS servers and has another issuer.
    Subordinate(WebSubordinateRule),

    /// On a certificate of an OCSP responder.
    Responder(WebResponderRule),

    /// On a precertificate, and on a certificate of an authority that signs precertificates.
    Precertificate(WebPrecertificateRule),

    /// On a certificate of an authority that is constrained by its EKU or by name constraints.
    Constrained(WebConstrainedRule),
}

/// All rules, in their order.
pub(crate) const WEB_RULES: [WebRule; 144] = [
    WebRule::Field(WebFieldRule::VersionNotV3),
    WebRule::Field(WebFieldRule::SignatureOfSha1),
    WebRule::Field(WebFieldRule::SignatureAlgorithmOther),
    WebRule::Field(WebFieldRule::RsaSignatureParametersNotNull),
    WebRule::Field(WebFieldRule::EcdsaSignatureParametersPresent),
    WebRule::Field(WebFieldRule::RsaPssParametersOther),
    WebRule::Field(WebFieldRule::AuthorityCertIssuerPresent),
    WebRule::Field(WebFieldRule::CrlDistributionPointsCritical),
    WebRule::Field(WebFieldRule::CrlDistributionPointNotHttp),
    WebRule::Field(WebFieldRule::CrlDistributionPointPartial),
    WebRule::Key(WebKeyRule::KeyAlgorithmOther),
    WebRule::Key(WebKeyRule::RsaKeyParametersNotNull),
    WebRule::Key(WebKeyRule::EcCurveOther),
    WebRule::Key(WebKeyRule::RsaModulusShort),
    WebRule::Key(WebKeyRule::RsaModulusUneven),
    WebRule::Key(WebKeyRule::RsaModulusEven),
    WebRule::Key(WebKeyRule::RsaModulusSmallFactor),
    WebRule::Key(WebKeyRule::RsaFactorsClose),
    WebRule::Key(WebKeyRule::RsaExponentInvalid),
    WebRule::Key(WebKeyRule::RsaExponentOutside),
    WebRule::Key(WebKeyRule::EcPointOffCurve),
    WebRule::Validity(WebValidityRule::ValidityOver825Days),
    WebRule::Validity(WebValidityRule::ValidityOver398Days),
    WebRule::Validity(WebValidityRule::ValidityOver397Days),
    WebRule::Validity(WebValidityRule::ValidityOver200Days),
    WebRule::Validity(WebValidityRule::ValidityOver100Days),
    WebRule::Validity(WebValidityRule::ValidityOver47Days),
    WebRule::Validity(WebValidityRule::ValidityOver199Days),
    WebRule::Validity(WebValidityRule::ValidityOver99Days),
    WebRule::Validity(WebValidityRule::ValidityOver46Days),
    WebRule::Name(WebNameRule::SubjectAltNameAbsent),
    WebRule::Name(WebNameRule::SubjectAltNameWithoutHost),
    WebRule::Name(WebNameRule::SubjectAltNameOther),
    WebRule::Name(WebNameRule::SubjectAltNameCritical),
    WebRule::Name(WebNameRule::DnsNameUnderscore),
    WebRule::Name(WebNameRule::DnsNameReservedLabel),
    WebRule::Name(WebNameRule::DnsNameXnLabelOther),
    WebRule::Name(WebNameRule::DnsNameWildcard),
    WebRule::Name(WebNameRule::DnsNameOneLabel),
    WebRule::Name(WebNameRule::DnsNameInternal),
    WebRule::Name(WebNameRule::DnsNameNumeric),
    WebRule::Name(WebNameRule::DnsNameReverse),
    WebRule::Name(WebNameRule::DnsNameOnionOther),
    WebRule::Name(WebNameRule::AddressReserved),
    WebRule::Name(WebNameRule::CommonNamePresent),
    WebRule::Name(WebNameRule::CommonNameNotInAltName),
    WebRule::Name(WebNameRule::CommonNameNotAsInAltName),
    WebRule::Name(WebNameRule::OrganizationalUnitPresent),
    WebRule::Name(WebNameRule::CommonNameRepeated),
    WebRule::Subject(WebSubjectRule::OrganizationValidatedWithoutPlace),
    WebRule::Subject(WebSubjectRule::OrganizationValidatedPersonalName),
    WebRule::Subject(WebSubjectRule::IndividualValidatedWithoutName),
    WebRule::Subject(WebSubjectRule::IndividualValidatedWithoutCountry),
    WebRule::Subject(WebSubjectRule::IndividualValidatedWithoutPlace),
    WebRule::Subject(WebSubjectRule::ExtendedValidationWithoutOrganization),
    WebRule::Subject(WebSubjectRule::ExtendedValidationWithoutCountry),
    WebRule::Subject(WebSubjectRule::ExtendedValidationWithoutPlace),
    WebRule::Subject(WebSubjectRule::ExtendedValidationWithoutCategory),
    WebRule::Subject(WebSubjectRule::ExtendedValidationWithoutNumber),
    WebRule::Subject(WebSubjectRule::ExtendedValidationWithoutJurisdiction),
    WebRule::Subject(WebSubjectRule::CountryUnknown),
    WebRule::Subject(WebSubjectRule::AttributeWithoutText),
    WebRule::Subject(WebSubjectRule::AttributeRepeated),
    WebRule::Subject(WebSubjectRule::RdnOfSeveralAttributes),
    WebRule::Subject(WebSubjectRule::AttributeOrder),
    WebRule::Usage(WebUsageRule::ExtendedKeyUsageAbsent),
    WebRule::Usage(WebUsageRule::ExtendedKeyUsageForbidden),
    WebRule::Usage(WebUsageRule::ExtendedKeyUsageOther),
    WebRule::Usage(WebUsageRule::ExtendedKeyUsageCritical),
    WebRule::Usage(WebUsageRule::KeyUsageAbsent),
    WebRule::Usage(WebUsageRule::KeyUsageNotCritical),
    WebRule::Usage(WebUsageRule::KeyUsageOfAuthority),
    WebRule::Usage(WebUsageRule::KeyUsageNotOfRsa),
    WebRule::Usage(WebUsageRule::KeyUsageNotOfEc),
    WebRule::Usage(WebUsageRule::EcWithoutDigitalSignature),
    WebRule::Usage(WebUsageRule::BasicConstraintsNotCritical),
    WebRule::Usage(WebUsageRule::SubjectKeyIdentifierPresent),
    WebRule::Policy(WebPolicyRule::CertificatePoliciesAbsent),
    WebRule::Policy(WebPolicyRule::CertificatePoliciesCritical),
    WebRule::Policy(WebPolicyRule::ReservedPolicyAbsent),
    WebRule::Policy(WebPolicyRule::AnyPolicyPresent),
    WebRule::Policy(WebPolicyRule::PolicyQualifiersPresent),
    WebRule::Policy(WebPolicyRule::PolicyQualifierOther),
    WebRule::Policy(WebPolicyRule::DomainValidatedAttribute),
    WebRule::Policy(WebPolicyRule::OrganizationValidatedWithoutOrganization),
    WebRule::Policy(WebPolicyRule::OrganizationValidatedWithoutCountry),
    WebRule::Policy(WebPolicyRule::AuthorityInfoAccessAbsent),
    WebRule::Policy(WebPolicyRule::OcspAccessAbsent),
    WebRule::Policy(WebPolicyRule::AccessMethodOther),
    WebRule::Policy(WebPolicyRule::AccessLocationNotHttp),
    WebRule::Policy(WebPolicyRule::RevocationAbsentOver10Days),
    WebRule::Policy(WebPolicyRule::RevocationAbsentOver7Days),
    WebRule::Authority(WebAuthorityRule::CaKeyUsageNotCritical),
    WebRule::Authority(WebAuthorityRule::CaWithoutCrlSign),
    WebRule::Authority(WebAuthorityRule::CaKeyUsageOther),
    WebRule::Authority(WebAuthorityRule::CaWithoutCommonName),
    WebRule::Authority(WebAuthorityRule::CaWithoutOrganization),
    WebRule::Authority(WebAuthorityRule::CaWithoutCountry),
    WebRule::Authority(WebAuthorityRule::CaExtendedKeyUsageForbidden),
    WebRule::Authority(WebAuthorityRule::SubordinateWithoutPolicies),
    WebRule::Authority(WebAuthorityRule::SubordinateWithoutCrlPoints),
    WebRule::Authority(WebAuthorityRule::CaCountryUnknown),
    WebRule::Authority(WebAuthorityRule::CaAttributeOther),
    WebRule::Root(WebRootRule::RootValidityUnder2922Days),
    WebRule::Root(WebRootRule::RootValidityOver9132Days),
    WebRule::Root(WebRootRule::RootExtendedKeyUsagePresent),
    WebRule::Root(WebRootRule::RootPoliciesPresent),
    WebRule::Root(WebRootRule::RootCrlPointsPresent),
    WebRule::Root(WebRootRule::RootWithoutAuthorityKeyIdentifier),
    WebRule::Root(WebRootRule::RootPathLenPresent),
    WebRule::Root(WebRootRule::RootExtensionOther),
    WebRule::Root(WebRootRule::RootOrganizationalUnitPresent),
    WebRule::Subordinate(WebSubordinateRule::SubordinateWithoutExtendedKeyUsage),
    WebRule::Subordinate(WebSubordinateRule::SubordinateExtendedKeyUsageCritical),
    WebRule::Subordinate(WebSubordinateRule::SubordinateExtendedKeyUsageOther),
    WebRule::Subordinate(WebSubordinateRule::SubordinatePoliciesCritical),
    WebRule::Subordinate(WebSubordinateRule::SubordinateWithoutReservedPolicy),
    WebRule::Subordinate(WebSubordinateRule::SubordinateAnyPolicyAmongOthers),
    WebRule::Subordinate(WebSubordinateRule::SubordinatePolicyQualifiersPresent),
    WebRule::Subordinate(WebSubordinateRule::SubordinatePolicyQualifierOther),
    WebRule::Subordinate(WebSubordinateRule::SubordinateWithoutAuthorityInfoAccess),
    WebRule::Subordinate(WebSubordinateRule::SubordinateAccessMethodOther),
    WebRule::Subordinate(WebSubordinateRule::SubordinateAccessLocationNotHttp),
    WebRule::Subordinate(WebSubordinateRule::SubordinateOrganizationalUnitPresent),
    WebRule::Responder(WebResponderRule::OcspNoCheckAbsent),
    WebRule::Responder(WebResponderRule::OcspNoCheckCritical),
    WebRule::Responder(WebResponderRule::ResponderPurposeOther),
    WebRule::Responder(WebResponderRule::ResponderKeyUsageAbsent),
    WebRule::Responder(WebResponderRule::ResponderKeyUsageNotCritical),
    WebRule::Responder(WebResponderRule::ResponderKeyUsageOther),
    WebRule::Responder(WebResponderRule::ResponderConstraintsNotCritical),
    WebRule::Responder(WebResponderRule::ResponderAltNamePresent),
    WebRule::Responder(WebResponderRule::ResponderCrlPointsPresent),
    WebRule::Responder(WebResponderRule::ResponderPoliciesPresent),
    WebRule::Responder(WebResponderRule::ResponderAccessPresent),
    WebRule::Precertificate(WebPrecertificateRule::PrecertificateWithTimestamps),
    WebRule::Precertificate(WebPrecertificateRule::PrecertificateSignerPurposeOther),
    WebRule::Precertificate(WebPrecertificateRule::PrecertificateSignerPurposesCritical),
    WebRule::Precertificate(WebPrecertificateRule::PrecertificateSignerKeyUsageNotCritical),
    WebRule::Precertificate(WebPrecertificateRule::PrecertificateSignerWithoutPolicies),
    WebRule::Precertificate(WebPrecertificateRule::PrecertificateSignerWithoutCrlPoints),
    WebRule::Constrained(WebConstrainedRule::ConstrainedPurposeForbidden),
    WebRule::Constrained(WebConstrainedRule::ConstrainedWithoutAddresses),
    WebRule::Constrained(WebConstrainedRule::ConstrainedWithoutDirectoryNames),
];

impl WebRule {
    /// How bad it is to break the rule, its name, its section, its place, and since when and until when it is in force.
    pub fn entry(self) -> WebEntry
        ensures { IsTold result (web_sentence self) }
    {
        match self {
            WebRule::Field(rule) => rule.entry(),
            WebRule::Key(rule) => rule.entry(),
            WebRule::Validity(rule) => rule.entry(),
            WebRule::Name(rule) => rule.entry(),
            WebRule::Subject(rule) => rule.entry(),
            WebRule::Usage(rule) => rule.entry(),
            WebRule::Policy(rule) => rule.entry(),
            WebRule::Authority(rule) => rule.entry(),
            WebRule::Root(rule) => rule.entry(),
            WebRule::Subordinate(rule) => rule.entry(),
            WebRule::Responder(rule) => rule.entry(),
            WebRule::Precertificate(rule) => rule.entry(),
            WebRule::Constrained(rule) => rule.entry(),
        }
    }

    /// How bad it is to break the rule.
    pub fn severity(self) -> Severity
        ensures { result ≡ (web_sentence self).wording.severity }
    {
        self.entry().entry.severity
    }

    /// The name of the rule, as `subject_alt_name_absent`.
    pub fn name(self) -> &'static str
        ensures { result.now ≡ (web_sentence self).wording.name }
    {
        self.entry().entry.name
    }

    /// The section of the Baseline Requirements, as `7.1.2.7.12`.
    pub fn section(self) -> &'static str
        ensures { result.now ≡ (web_sentence self).wording.section }
    {
        self.entry().entry.section
    }

    /// Where in the certificate the rule is broken, in the field names of RFC 5280, as `tbsCertificate.extensions.subjectAltName`.
    pub fn place(self) -> &'static str
        ensures { result.now ≡ (web_sentence self).wording.place }
    {
        self.entry().entry.place
    }

    /// The day from which on the rule is in force; `None` where it was from the beginning.
    pub fn since(self) -> Option<Day>
        ensures { result ≡ (web_sentence self).since }
    {
        self.entry().since
    }

    /// The day from which on the rule is no longer in force; `None` where it is in force today.
    pub fn until(self) -> Option<Day>
        ensures { result ≡ (web_sentence self).until }
    {
        self.entry().until
    }

    /// Whether the rule is in force at the moment.
    pub fn is_in_force(self, moment: DateTime) -> bool
        ensures { result ≡ is_in_force (web_sentence self) moment }
    {
        is_begun(self.since(), moment) && !is_over(self.until(), moment)
    }

    /// Of which part of a certificate the rule speaks.
    pub(crate) fn part(self) -> Part
        ensures { result ≡ part_of self }
    {
        match self {
            WebRule::Field(rule) => rule.part(),
            WebRule::Key(rule) => rule.part(),
            WebRule::Validity(_) => Part::Validity,
            WebRule::Name(rule) => rule.part(),
            WebRule::Subject(_) => Part::Subject,
            WebRule::Usage(rule) => rule.part(),
            WebRule::Policy(rule) => rule.part(),
            WebRule::Authority(rule) => rule.part(),
            WebRule::Root(rule) => rule.part(),
            WebRule::Subordinate(rule) => rule.part(),
            WebRule::Responder(rule) => rule.part(),
            WebRule::Precertificate(rule) => rule.part(),
            WebRule::Constrained(rule) => rule.part(),
        }
    }

    /// Whether the certificate, of which these are the values, breaks the rule.
    pub(crate) fn is_broken(self, certificate: &CertificateInner<Raw>, values: &WebValues) -> bool
        ensures { result ≡ (web_sentence self).breaks certificate.now values.now }
    {
        match self {
            WebRule::Field(rule) => rule.is_broken(certificate, values),
            WebRule::Key(rule) => rule.is_broken(certificate, values),
            WebRule::Validity(rule) => is_server(certificate, values)
                && rule.is_broken(certificate, values),
            WebRule::Name(rule) => is_server(certificate, values)
                && rule.is_broken(certificate, values),
            WebRule::Subject(rule) => is_server(certificate, values)
                && rule.is_broken(certificate, values),
            WebRule::Usage(rule) => is_server(certificate, values)
                && rule.is_broken(certificate, values),
            WebRule::Policy(rule) => is_server(certificate, values)
                && rule.is_broken(certificate, values),
            WebRule::Authority(rule) => is_above_servers(certificate, values)
                && rule.is_broken(certificate, values),
            WebRule::Root(rule) => is_root(certificate, values)
                && rule.is_broken(certificate, values),
            WebRule::Subordinate(rule) => is_subordinate(certificate, values)
                && rule.is_broken(certificate, values),
            WebRule::Responder(rule) => is_responder(certificate, values)
                && rule.is_broken(certificate, values),
            WebRule::Precertificate(rule) => rule.is_broken(certificate, values),
            WebRule::Constrained(rule) => rule.is_broken(certificate, values),
        }
    }
}

impl fmt::Debug for WebRule {
    ghost debug_output = { λ rule. Some (web_sentence rule).wording.name };

    /// Its name.
    fn fmt<W: fmt::Write>(&self, f: &mut fmt::Formatter<W>) -> fmt::Result {
        f.write_str(self.name())
    }
}

impl fmt::Display for WebRule {
    ghost output = { λ rule. Some (wording_text (web_sentence rule).wording) };

    fn fmt<W: fmt::Write>(&self, f: &mut fmt::Formatter<W>) -> fmt::Result {
        let Entry {
            severity,
            name,
            standard,
            section,
            place: _,
        } = self.entry().entry;
        write!(f, "{severity} {name} ({standard} {section})")
    }
}
