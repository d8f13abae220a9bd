//! Rules on what makes a certificate one of a certification authority (RFC 5280 4.2.1.3, 4.2.1.9).

ghost use Rattle.std.specs.Prelude.{◌≡◌, ◌&&◌, length, nat_lt};
ghost use Rattle.x509_lint.specs.Authority as grammar;
ghost use Rattle.x509_lint.specs.Wording.{Says};
ghost use Rattle.x509_lint.specs.Words.{passes};
ghost use Rattle.x509_prim.specs.Integer.{without_zeros};

use crate::basic_constraints::AnyBasicConstraints;
use crate::beyond::{Beyond, is_unjudged};
use crate::entry::{Entry, rules};
use crate::extensions::{has, has_uncritical};
use crate::group::{Group, Told};
use crate::names::is_empty_name;
use crate::passes;
use crate::rule::Rule;
use crate::rule::field::is_v3;
use crate::values::AuthorityValues;
use bitflags::Flags;
use x509_base::Raw;
use x509_cert::certificate::CertificateInner;
use x509_ext::pkix::{KeyUsage, NameConstraints, SubjectKeyIdentifier};
use x509_ext::{Extension, members};
use x509_prim::Uint;

/// Rules on what makes a certificate one of a certification authority (RFC 5280 4.2.1.3, 4.2.1.9).
#[derive(Clone, Copy, PartialEq, Eq)]
pub enum AuthorityRule {
    /// cA is set, and the subject is the empty name (RFC 5280 4.1.2.6, error).
    CaSubjectEmpty,

    /// The KeyUsage has cRLSign, and the subject is the empty name (RFC 5280 4.1.2.6, error).
    CrlIssuerSubjectEmpty,

    /// cA is set, and there is no SKI (RFC 5280 4.2.1.2, error).
    CaWithoutSubjectKeyIdentifier,

    /// The version is 3, cA isn't set, and there is no SKI (RFC 5280 4.2.1.2, warning).
    SubjectKeyIdentifierAbsent,

    /// cA is set, and there is no KeyUsage (RFC 5280 4.2.1.3, error).
    CaWithoutKeyUsage,

    /// The KeyUsage has no bit set (RFC 5280 4.2.1.3, error).
    KeyUsageEmpty,

    /// cA is set, and the KeyUsage has some bit, but not keyCertSign (RFC 5280 4.2.1.3, error).
    CaWithoutKeyCertSign,

    /// The KeyUsage has keyCertSign, and cA isn't set (RFC 5280 4.2.1.9, error).
    KeyCertSignWithoutCa,

    /// cA is set in a BasicConstraints that isn't critical (RFC 5280 4.2.1.9, error).
    CaBasicConstraintsNotCritical,

    /// There is a path length constraint, and cA isn't set (RFC 5280 4.2.1.9, error).
    PathLenWithoutCa,

    /// The path length is above 255, which this library's decoder doesn't read; the rules here are judged all the same (RFC 5280 4.2.1.9, not judged).
    PathLenNotJudged,

    /// There is a NameConstraints, and cA isn't set (RFC 5280 4.2.1.10, error).
    NameConstraintsInLeaf,

    /// The NameConstraints isn't read, and has an x400Address or an OID of more than 39 octets or with a number of 2^32 or more, which this library's decoder doesn't hold; the rules on what it says aren't judged (RFC 5280 4.2.1.10, not judged).
    NameConstraintsNotJudged,
}

/// The rules in their order, with how each is told.
pub(crate) static AUTHORITY_RULES: [Told<AuthorityRule>; 13] = rules! { AuthorityRule;
    CaSubjectEmpty => must("ca_subject_empty", "4.1.2.6", "tbsCertificate.subject"),
    CrlIssuerSubjectEmpty => must("crl_issuer_subject_empty", "4.1.2.6", "tbsCertificate.subject"),
    CaWithoutSubjectKeyIdentifier => must("ca_without_subject_key_identifier", "4.2.1.2", "tbsCertificate.extensions.subjectKeyIdentifier"),
    SubjectKeyIdentifierAbsent => should("subject_key_identifier_absent", "4.2.1.2", "tbsCertificate.extensions.subjectKeyIdentifier"),
    CaWithoutKeyUsage => must("ca_without_key_usage", "4.2.1.3", "tbsCertificate.extensions.keyUsage"),
    KeyUsageEmpty => must("key_usage_empty", "4.2.1.3", "tbsCertificate.extensions.keyUsage"),
    CaWithoutKeyCertSign => must("ca_without_key_cert_sign", "4.2.1.3", "tbsCertificate.extensions.keyUsage"),
    KeyCertSignWithoutCa => must("key_cert_sign_without_ca", "4.2.1.9", "tbsCertificate.extensions.keyUsage"),
    CaBasicConstraintsNotCritical => must("ca_basic_constraints_not_critical", "4.2.1.9", "tbsCertificate.extensions.basicConstraints"),
    PathLenWithoutCa => must("path_len_without_ca", "4.2.1.9", "tbsCertificate.extensions.basicConstraints"),
    PathLenNotJudged => not_judged("path_len_above_255", "4.2.1.9", "tbsCertificate.extensions.basicConstraints"),
    NameConstraintsInLeaf => must("name_constraints_in_leaf", "4.2.1.10", "tbsCertificate.extensions.nameConstraints"),
    NameConstraintsNotJudged => not_judged("name_constraints_not_read", "4.2.1.10", "tbsCertificate.extensions.nameConstraints"),
};

impl AuthorityRule {
    /// How bad it is to break the rule, its name, its section, and its place.
    pub fn entry(self) -> Entry
        ensures { Says result (grammar.authority_sentence self).wording }
    {
        AUTHORITY_RULES[self as usize].entry
    }
}

/// Whether there are no basic constraints, or those that there are are read and don't set cA.
fn is_no_ca(extensions: &[Extension], constraints: &Option<AnyBasicConstraints>) -> bool
    ensures { result ≡ grammar.is_no_ca extensions.now constraints.now }
{
    !has::<AnyBasicConstraints>(extensions) || passes!(constraints, constraints => !constraints.ca)
}

fn is_long_path(path_len: &Option<Uint>) -> bool
    ensures { result ≡ passes (λ number. nat_lt 1 (length (without_zeros number))) path_len.now }
{
    passes!(path_len, number => number.as_bytes().len() > 1)
}

impl Group<CertificateInner<Raw>, AuthorityValues> for AuthorityRule {
    ghost use Rattle.x509_lint.specs.Authority.{authority_sentence};
    ghost use Rattle.x509_lint.specs.declared.rule.Rule.TheVariants.{Authority};

    ghost sentence = { authority_sentence };

    ghost as_rule = { λ rule. Authority rule };

    fn is_broken(&self, certificate: &CertificateInner<Raw>, values: &AuthorityValues) -> bool {
        let extensions = members(certificate.tbs_certificate().extensions());
        let is_ca = passes!(&values.basic_constraints, constraints => constraints.ca);
        let is_no_ca = is_no_ca(extensions, &values.basic_constraints);
        match self {
            AuthorityRule::CaSubjectEmpty => is_ca
                && is_empty_name(certificate.tbs_certificate().subject()),
            AuthorityRule::CrlIssuerSubjectEmpty =>
                passes!(&values.key_usage, usage => usage.crl_sign())
                    && is_empty_name(certificate.tbs_certificate().subject()),
            AuthorityRule::CaWithoutSubjectKeyIdentifier => is_ca
                && !has::<SubjectKeyIdentifier>(extensions),
            AuthorityRule::SubjectKeyIdentifierAbsent => is_v3(
                certificate.tbs_certificate().version(),
            ) && is_no_ca
                && !has::<SubjectKeyIdentifier>(extensions),
            AuthorityRule::CaWithoutKeyUsage => is_ca && !has::<KeyUsage>(extensions),
            AuthorityRule::KeyUsageEmpty =>
                passes!(&values.key_usage, usage => usage.0.bits() == 0),
            AuthorityRule::CaWithoutKeyCertSign => is_ca
                && passes!(&values.key_usage, usage => usage.0.bits() != 0 && !usage.key_cert_sign()),
            AuthorityRule::KeyCertSignWithoutCa => is_no_ca
                && passes!(&values.key_usage, usage => usage.key_cert_sign()),
            AuthorityRule::CaBasicConstraintsNotCritical => is_ca
                && has_uncritical::<AnyBasicConstraints>(extensions),
            AuthorityRule::PathLenWithoutCa => !is_ca
                && passes!(&values.basic_constraints, constraints => constraints.path_len_constraint.is_some()),
            AuthorityRule::PathLenNotJudged =>
                passes!(&values.basic_constraints, constraints => is_long_path(&constraints.path_len_constraint)),
            AuthorityRule::NameConstraintsInLeaf => is_no_ca && has::<NameConstraints>(extensions),
            AuthorityRule::NameConstraintsNotJudged => is_unjudged::<NameConstraints>(
                Beyond::Names,
                extensions,
                values.name_constraints.is_some(),
            ),
        }
    }

    fn to_rule(&self) -> Rule {
        Rule::Authority(*self)
    }
}
