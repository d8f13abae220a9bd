//! The rules of RFC 5280 that no grammar has.

ghost use Rattle.std.specs.Prelude.{◌≡◌, Some};
ghost use Rattle.x509_lint.specs.Rules.{rule_wording};
ghost use Rattle.x509_lint.specs.Wording.{Says, wording_text};

use crate::entry::{Entry, Severity};
use crate::rule::anchor::{anchor_malformed, in_controls};
use crate::rule::request::request_malformed;
use std::fmt;

pub(crate) mod alternative;
pub(crate) mod anchor;
pub(crate) mod authority;
pub(crate) mod constraint;
pub(crate) mod critical;
pub(crate) mod crl_entry;
pub(crate) mod crl_extension;
pub(crate) mod crl_field;
pub(crate) mod field;
pub(crate) mod key;
pub(crate) mod list;
pub(crate) mod name;
pub(crate) mod point;
pub(crate) mod policy;
pub(crate) mod public_key;
pub(crate) mod request;

pub use alternative::AlternativeRule;
pub use anchor::{AnchorExtensionRule, AnchorRule};
pub use authority::AuthorityRule;
pub use constraint::ConstraintRule;
pub use critical::CriticalRule;
pub use crl_entry::CrlEntryRule;
pub use crl_extension::CrlExtensionRule;
pub use crl_field::{CrlEntryListRule, CrlExtensionKind, CrlFieldRule};
pub use field::FieldRule;
pub use key::KeyRule;
pub use list::{ExtensionKind, ListRule};
pub use name::NameRule;
pub use point::PointRule;
pub use policy::PolicyRule;
pub use public_key::PublicKeyRule;
pub use request::{RequestNameRule, RequestRule};

/// A rule on certificates, CRLs, CSRs or trust anchors. It is printed as `error serial_number_not_positive (RFC 5280 4.1.2.2)`.
#[derive(Clone, Copy, PartialEq, Eq)]
pub enum Rule {
    /// On the fields of a certificate.
    Field(FieldRule),

    /// On the issuer and the subject of a certificate.
    Name(NameRule),

    /// On the extensions of a certificate as a list.
    ExtensionList(ListRule),

    /// The octets of an extension of the type aren't an encoding of the type that RFC 5280 or another standard has for its OID (RFC 5280 4.2, error). That
    /// isn't told of octets that have what RFC 5280 allows and this library's decoder doesn't hold: an x400Address, and an OID of more than 39 octets or
    /// with a number of 2^32 or more; other rules tell that such an extension isn't judged.
    ExtensionMalformed(ExtensionKind),

    /// On which extensions of a certificate are critical.
    Critical(CriticalRule),

    /// On what makes a certificate one of a certification authority.
    Authority(AuthorityRule),

    /// On key identifiers, extended key usage and the private key usage period of a certificate.
    Key(KeyRule),

    /// On the alternative names of the subject and the issuer of a certificate.
    Alternative(AlternativeRule),

    /// On certificate policies, policy mappings and policy constraints of a certificate.
    Policy(PolicyRule),

    /// On name constraints of a certificate.
    Constraint(ConstraintRule),

    /// On lists of attributes, of CRL distribution points and of access descriptions of a certificate.
    Point(PointRule),

    /// On the public key of a certificate, and on the algorithm of its signature.
    PublicKey(PublicKeyRule),

    /// On the fields of a CRL.
    CrlField(CrlFieldRule),

    /// The octets of an extension of a CRL aren't an encoding of the type that RFC 5280 has for its OID, nor have what this library's decoder
    /// doesn't hold (RFC 5280 5.2, error).
    CrlExtensionMalformed(CrlExtensionKind),

    /// On the lists of extensions of a CRL's entries.
    CrlEntryList(CrlEntryListRule),

    /// On the extensions of a CRL.
    CrlExtension(CrlExtensionRule),

    /// On the extensions of a CRL's entries.
    CrlEntry(CrlEntryRule),

    /// On the subject and the attributes of a CSR.
    Request(RequestRule),

    /// The octets of an extension of the type that a CSR asks for aren't an encoding of the type that RFC 5280 has for its OID, nor have
    /// what this library's decoder doesn't hold (RFC 5280 4.2, error).
    RequestExtensionMalformed(ExtensionKind),

    /// On the SAN that a CSR asks for.
    RequestName(RequestNameRule),

    /// On the title and the controls of a trust anchor's description.
    Anchor(AnchorRule),

    /// On the name constraints in the controls of a trust anchor's description: those of a certificate.
    AnchorConstraint(ConstraintRule),

    /// On the extensions of a trust anchor's description as a list.
    AnchorExtension(AnchorExtensionRule),

    /// The octets of an extension of a trust anchor's description aren't an encoding of the type that RFC 5280 has for its OID, nor have
    /// what this library's decoder doesn't hold (RFC 5280 4.2, error).
    AnchorExtensionMalformed(ExtensionKind),
}

impl Rule {
    /// How bad it is to break the rule, its name, its section, and its place.
    pub fn entry(self) -> Entry
        ensures { Says result (rule_wording self) }
    {
        match self {
            Rule::Field(rule) => rule.entry(),
            Rule::Name(rule) => rule.entry(),
            Rule::ExtensionList(rule) => rule.entry(),
            Rule::ExtensionMalformed(kind) => kind.malformed(),
            Rule::Critical(rule) => rule.entry(),
            Rule::Authority(rule) => rule.entry(),
            Rule::Key(rule) => rule.entry(),
            Rule::Alternative(rule) => rule.entry(),
            Rule::Policy(rule) => rule.entry(),
            Rule::Constraint(rule) => rule.entry(),
            Rule::Point(rule) => rule.entry(),
            Rule::PublicKey(rule) => rule.entry(),
            Rule::CrlField(rule) => rule.entry(),
            Rule::CrlExtensionMalformed(kind) => kind.malformed(),
            Rule::CrlEntryList(rule) => rule.entry(),
            Rule::CrlExtension(rule) => rule.entry(),
            Rule::CrlEntry(rule) => rule.entry(),
            Rule::Request(rule) => rule.entry(),
            Rule::RequestExtensionMalformed(kind) => request_malformed(kind),
            Rule::RequestName(rule) => rule.entry(),
            Rule::Anchor(rule) => rule.entry(),
            Rule::AnchorConstraint(rule) => in_controls(rule),
            Rule::AnchorExtension(rule) => rule.entry(),
            Rule::AnchorExtensionMalformed(kind) => anchor_malformed(kind),
        }
    }

    /// How bad it is to break the rule.
    pub fn severity(self) -> Severity
        ensures { result ≡ (rule_wording self).severity }
    {
        self.entry().severity
    }

    /// The name of the rule, as `serial_number_not_positive`.
    pub fn name(self) -> &'static str
        ensures { result.now ≡ (rule_wording self).name }
    {
        self.entry().name
    }

    /// The standard that has the rule, as `RFC 5280`.
    pub fn standard(self) -> &'static str
        ensures { result.now ≡ (rule_wording self).standard }
    {
        self.entry().standard
    }

    /// The section of the standard, as `4.1.2.2`.
    pub fn section(self) -> &'static str
        ensures { result.now ≡ (rule_wording self).section }
    {
        self.entry().section
    }

    /// Where in the object the rule is broken, in the field names of the standard, as `tbsCertificate.serialNumber`.
    pub fn place(self) -> &'static str
        ensures { result.now ≡ (rule_wording self).place }
    {
        self.entry().place
    }
}

impl fmt::Debug for Rule {
    ghost debug_output = { λ rule. Some (rule_wording rule).name };

    /// Its name.
    fn fmt<W: fmt::Write>(&self, f: &mut fmt::Formatter<W>) -> fmt::Result {
        f.write_str(self.name())
    }
}

impl fmt::Display for Rule {
    ghost output = { λ rule. Some (wording_text (rule_wording rule)) };

    fn fmt<W: fmt::Write>(&self, f: &mut fmt::Formatter<W>) -> fmt::Result {
        let Entry {
            severity,
            name,
            standard,
            section,
            place: _,
        } = self.entry();
        write!(f, "{severity} {name} ({standard} {section})")
    }
}
