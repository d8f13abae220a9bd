//! Rules on the alternative names of the subject and the issuer (RFC 5280 4.2.1.6, 4.2.1.7).

ghost use Rattle.std.specs.List.{list_any};
ghost use Rattle.std.specs.Prelude.{◌≡◌};
ghost use Rattle.x509_lint.specs.Alternative as grammar;
ghost use Rattle.x509_lint.specs.Wording.{Says};
ghost use Rattle.x509_lint.specs.Words.{passes};

use crate::beyond::{Beyond, is_unjudged};
use crate::entry::{Entry, rules};
use crate::extensions::{extensions_of, has};
use crate::group::{Group, Told};
use crate::lists::{Test, any_of};
use crate::names::{
    AtOtherHost, EmptyName, NoAddress, NoDnsName, NoMailbox, NoSmtpMailbox, NoSrvName, NoUri,
    OddDirectoryName, Relative, Rfc822Name,
};
use crate::passes;
use crate::rule::Rule;
use crate::texts::has_email;
use crate::values::AlternativeValues;
use x509_base::Raw;
use x509_cert::certificate::CertificateInner;
use x509_ext::Extension;
use x509_ext::pkix::name::GeneralName;
use x509_ext::pkix::{IssuerAltName, SubjectAltName};

/// Rules on the alternative names of the subject and the issuer (RFC 5280 4.2.1.6, 4.2.1.7).
#[derive(Clone, Copy, PartialEq, Eq)]
pub enum AlternativeRule {
    /// The subject has an emailAddress, and there is no SAN with an rfc822Name (RFC 5280 4.1.2.6, error).
    SubjectEmailNotInAltName,

    /// The SAN has no name (RFC 5280 4.2.1.6, error).
    SubjectAltNameEmpty,

    /// A name of the SAN is empty (RFC 5280 4.2.1.6, error).
    SubjectAltNameEmptyName,

    /// A dNSName of the SAN isn't empty, and isn't a DNS name (RFC 5280 4.2.1.6, error).
    SubjectAltNameDnsNameInvalid,

    /// A dNSName of the SAN has a label of IDNA (`xn--`) that Punycode decodes to a text that isn't in Unicode's Normalization Form C (RFC 5891 5.4, error).
    SubjectAltNameDnsNameUnnormalized,

    /// An iPAddress of the SAN has neither 4 nor 16 octets (RFC 5280 4.2.1.6, error).
    SubjectAltNameAddressLength,

    /// An rfc822Name of the SAN isn't empty, and isn't a mailbox (RFC 5280 4.2.1.6, error).
    SubjectAltNameMailboxInvalid,

    /// A URI of the SAN isn't empty, and has no scheme or nothing behind it (RFC 5280 4.2.1.6, error).
    SubjectAltNameUriRelative,

    /// An absolute URI of the SAN doesn't follow the syntax of RFC 3986 (RFC 5280 4.2.1.6, error).
    SubjectAltNameUriInvalid,

    /// An absolute URI of the SAN has an authority whose host is neither a fully qualified domain name nor an address (RFC 5280 4.2.1.6, error).
    SubjectAltNameUriHostInvalid,

    /// A directoryName of the SAN has an RDN of no attribute, a countryName that isn't one, or a text that isn't as the issuer's have to be: of another string type, other characters, another size, or a domainComponent of another form (RFC 5280 4.2.1.6, error).
    SubjectAltNameDirectoryNameInvalid,

    /// A SRVName of the SAN isn't an IA5String of an underscore, a service, a dot and a domain name (RFC 4985 2, error).
    SubjectAltNameSrvNameInvalid,

    /// A SmtpUTF8Mailbox of the SAN isn't a UTF8String of a local part with a character above U+007F, the sign @ and a domain of A-labels (RFC 9598 3, error).
    SubjectAltNameSmtpUtf8MailboxInvalid,

    /// The SAN isn't read, and has an x400Address or an OID of more than 39 octets or with a number of 2^32 or more, which this library's decoder doesn't hold; the rules on what it says aren't judged (RFC 5280 4.2.1.6, not judged).
    SubjectAltNameNotJudged,

    /// The IAN has no name (RFC 5280 4.2.1.7, error).
    IssuerAltNameEmpty,

    /// A name of the IAN is empty (RFC 5280 4.2.1.7, error).
    IssuerAltNameEmptyName,

    /// A dNSName of the IAN isn't empty, and isn't a DNS name (RFC 5280 4.2.1.7, error).
    IssuerAltNameDnsNameInvalid,

    /// A dNSName of the IAN has a label of IDNA (`xn--`) that Punycode decodes to a text that isn't in Unicode's Normalization Form C (RFC 5891 5.4, error).
    IssuerAltNameDnsNameUnnormalized,

    /// An iPAddress of the IAN has neither 4 nor 16 octets (RFC 5280 4.2.1.7, error).
    IssuerAltNameAddressLength,

    /// An rfc822Name of the IAN isn't empty, and isn't a mailbox (RFC 5280 4.2.1.7, error).
    IssuerAltNameMailboxInvalid,

    /// A URI of the IAN isn't empty, and has no scheme or nothing behind it (RFC 5280 4.2.1.7, error).
    IssuerAltNameUriRelative,

    /// An absolute URI of the IAN doesn't follow the syntax of RFC 3986 (RFC 5280 4.2.1.7, error).
    IssuerAltNameUriInvalid,

    /// An absolute URI of the IAN has an authority whose host is neither a fully qualified domain name nor an address (RFC 5280 4.2.1.7, error).
    IssuerAltNameUriHostInvalid,

    /// A directoryName of the IAN has an RDN of no attribute, a countryName that isn't one, or a text that isn't as the issuer's have to be: of another string type, other characters, another size, or a domainComponent of another form (RFC 5280 4.2.1.7, error).
    IssuerAltNameDirectoryNameInvalid,

    /// A SRVName of the IAN isn't an IA5String of an underscore, a service, a dot and a domain name (RFC 4985 2, error).
    IssuerAltNameSrvNameInvalid,

    /// A SmtpUTF8Mailbox of the IAN isn't a UTF8String of a local part with a character above U+007F, the sign @ and a domain of A-labels (RFC 9598 3, error).
    IssuerAltNameSmtpUtf8MailboxInvalid,

    /// The IAN isn't read, and has an x400Address or an OID of more than 39 octets or with a number of 2^32 or more, which this library's decoder doesn't hold; the rules on what it says aren't judged (RFC 5280 4.2.1.7, not judged).
    IssuerAltNameNotJudged,
}

/// The rules in their order, with how each is told.
pub(crate) static ALTERNATIVE_RULES: [Told<AlternativeRule>; 27] = rules! { AlternativeRule;
    SubjectEmailNotInAltName => must("subject_email_not_in_alt_name", "4.1.2.6", "tbsCertificate.extensions.subjectAltName"),
    SubjectAltNameEmpty => must("subject_alt_name_empty", "4.2.1.6", "tbsCertificate.extensions.subjectAltName"),
    SubjectAltNameEmptyName => must("subject_alt_name_empty_name", "4.2.1.6", "tbsCertificate.extensions.subjectAltName"),
    SubjectAltNameDnsNameInvalid => must("subject_alt_name_dns_name_invalid", "4.2.1.6", "tbsCertificate.extensions.subjectAltName"),
    SubjectAltNameDnsNameUnnormalized => must_of("RFC 5891", "subject_alt_name_dns_name_not_normalized", "5.4", "tbsCertificate.extensions.subjectAltName"),
    SubjectAltNameAddressLength => must("subject_alt_name_address_length", "4.2.1.6", "tbsCertificate.extensions.subjectAltName"),
    SubjectAltNameMailboxInvalid => must("subject_alt_name_mailbox_invalid", "4.2.1.6", "tbsCertificate.extensions.subjectAltName"),
    SubjectAltNameUriRelative => must("subject_alt_name_uri_relative", "4.2.1.6", "tbsCertificate.extensions.subjectAltName"),
    SubjectAltNameUriInvalid => must("subject_alt_name_uri_invalid", "4.2.1.6", "tbsCertificate.extensions.subjectAltName"),
    SubjectAltNameUriHostInvalid => must("subject_alt_name_uri_host_invalid", "4.2.1.6", "tbsCertificate.extensions.subjectAltName"),
    SubjectAltNameDirectoryNameInvalid => must("subject_alt_name_directory_name_invalid", "4.2.1.6", "tbsCertificate.extensions.subjectAltName"),
    SubjectAltNameSrvNameInvalid => must_of("RFC 4985", "subject_alt_name_srv_name_invalid", "2", "tbsCertificate.extensions.subjectAltName"),
    SubjectAltNameSmtpUtf8MailboxInvalid => must_of("RFC 9598", "subject_alt_name_smtp_utf8_mailbox_invalid", "3", "tbsCertificate.extensions.subjectAltName"),
    SubjectAltNameNotJudged => not_judged("subject_alt_name_not_read", "4.2.1.6", "tbsCertificate.extensions.subjectAltName"),
    IssuerAltNameEmpty => must("issuer_alt_name_empty", "4.2.1.7", "tbsCertificate.extensions.issuerAltName"),
    IssuerAltNameEmptyName => must("issuer_alt_name_empty_name", "4.2.1.7", "tbsCertificate.extensions.issuerAltName"),
    IssuerAltNameDnsNameInvalid => must("issuer_alt_name_dns_name_invalid", "4.2.1.7", "tbsCertificate.extensions.issuerAltName"),
    IssuerAltNameDnsNameUnnormalized => must_of("RFC 5891", "issuer_alt_name_dns_name_not_normalized", "5.4", "tbsCertificate.extensions.issuerAltName"),
    IssuerAltNameAddressLength => must("issuer_alt_name_address_length", "4.2.1.7", "tbsCertificate.extensions.issuerAltName"),
    IssuerAltNameMailboxInvalid => must("issuer_alt_name_mailbox_invalid", "4.2.1.7", "tbsCertificate.extensions.issuerAltName"),
    IssuerAltNameUriRelative => must("issuer_alt_name_uri_relative", "4.2.1.7", "tbsCertificate.extensions.issuerAltName"),
    IssuerAltNameUriInvalid => must("issuer_alt_name_uri_invalid", "4.2.1.7", "tbsCertificate.extensions.issuerAltName"),
    IssuerAltNameUriHostInvalid => must("issuer_alt_name_uri_host_invalid", "4.2.1.7", "tbsCertificate.extensions.issuerAltName"),
    IssuerAltNameDirectoryNameInvalid => must("issuer_alt_name_directory_name_invalid", "4.2.1.7", "tbsCertificate.extensions.issuerAltName"),
    IssuerAltNameSrvNameInvalid => must_of("RFC 4985", "issuer_alt_name_srv_name_invalid", "2", "tbsCertificate.extensions.issuerAltName"),
    IssuerAltNameSmtpUtf8MailboxInvalid => must_of("RFC 9598", "issuer_alt_name_smtp_utf8_mailbox_invalid", "3", "tbsCertificate.extensions.issuerAltName"),
    IssuerAltNameNotJudged => not_judged("issuer_alt_name_not_read", "4.2.1.7", "tbsCertificate.extensions.issuerAltName"),
};

impl AlternativeRule {
    /// How bad it is to break the rule, its name, its section, and its place.
    pub fn entry(self) -> Entry
        ensures { Says result (grammar.alternative_sentence self).wording }
    {
        ALTERNATIVE_RULES[self as usize].entry
    }
}

/// Whether there is no SAN, or the one that there is is read and has no rfc822Name.
fn lacks_mailbox(extensions: &[Extension], names: &Option<SubjectAltName>) -> bool
    ensures { result ≡ grammar.lacks_mailbox extensions.now names.now }
{
    !has::<SubjectAltName>(extensions)
        || passes!(names, names => !any_of(&Rfc822Name, names.0.as_slice()))
}

/// Whether the SAN is read, and a name of it passes the test.
fn has_subject_name<P: Test<GeneralName>>(test: &P, values: &AlternativeValues) -> bool
    ensures { result ≡ passes (λ names. list_any (P.holds_of test.now) names.0) values.now.subject_alt_name }
{
    passes!(&values.subject_alt_name, names => any_of(test, names.0.as_slice()))
}

/// Whether the IAN is read, and a name of it passes the test.
fn has_issuer_name<P: Test<GeneralName>>(test: &P, values: &AlternativeValues) -> bool
    ensures { result ≡ passes (λ names. list_any (P.holds_of test.now) names.0) values.now.issuer_alt_name }
{
    passes!(&values.issuer_alt_name, names => any_of(test, names.0.as_slice()))
}

impl Group<CertificateInner<Raw>, AlternativeValues> for AlternativeRule {
    ghost use Rattle.x509_lint.specs.Alternative.{alternative_sentence};
    ghost use Rattle.x509_lint.specs.declared.rule.Rule.TheVariants.{Alternative};

    ghost sentence = { alternative_sentence };

    ghost as_rule = { λ rule. Alternative rule };

    fn is_broken(&self, certificate: &CertificateInner<Raw>, values: &AlternativeValues) -> bool {
        match self {
            AlternativeRule::SubjectEmailNotInAltName => has_email(
                certificate.tbs_certificate().subject(),
            ) && lacks_mailbox(extensions_of(certificate), &values.subject_alt_name),
            AlternativeRule::SubjectAltNameEmpty =>
                passes!(&values.subject_alt_name, names => names.0.as_slice().is_empty()),
            AlternativeRule::SubjectAltNameEmptyName => has_subject_name(&EmptyName, values),
            AlternativeRule::SubjectAltNameDnsNameInvalid => has_subject_name(&NoDnsName, values),
            AlternativeRule::SubjectAltNameDnsNameUnnormalized => values.has_unnormalized_subject,
            AlternativeRule::SubjectAltNameAddressLength => has_subject_name(&NoAddress, values),
            AlternativeRule::SubjectAltNameMailboxInvalid => has_subject_name(&NoMailbox, values),
            AlternativeRule::SubjectAltNameUriRelative => has_subject_name(&Relative, values),
            AlternativeRule::SubjectAltNameUriInvalid => has_subject_name(&NoUri, values),
            AlternativeRule::SubjectAltNameUriHostInvalid => has_subject_name(&AtOtherHost, values),
            AlternativeRule::SubjectAltNameDirectoryNameInvalid => has_subject_name(
                &OddDirectoryName,
                values,
            ),
            AlternativeRule::SubjectAltNameSrvNameInvalid => has_subject_name(&NoSrvName, values),
            AlternativeRule::SubjectAltNameSmtpUtf8MailboxInvalid => has_subject_name(
                &NoSmtpMailbox,
                values,
            ),
            AlternativeRule::SubjectAltNameNotJudged => is_unjudged::<SubjectAltName>(
                Beyond::Names,
                extensions_of(certificate),
                values.subject_alt_name.is_some(),
            ),
            AlternativeRule::IssuerAltNameEmpty =>
                passes!(&values.issuer_alt_name, names => names.0.as_slice().is_empty()),
            AlternativeRule::IssuerAltNameEmptyName => has_issuer_name(&EmptyName, values),
            AlternativeRule::IssuerAltNameDnsNameInvalid => has_issuer_name(&NoDnsName, values),
            AlternativeRule::IssuerAltNameDnsNameUnnormalized => values.has_unnormalized_issuer,
            AlternativeRule::IssuerAltNameAddressLength => has_issuer_name(&NoAddress, values),
            AlternativeRule::IssuerAltNameMailboxInvalid => has_issuer_name(&NoMailbox, values),
            AlternativeRule::IssuerAltNameUriRelative => has_issuer_name(&Relative, values),
            AlternativeRule::IssuerAltNameUriInvalid => has_issuer_name(&NoUri, values),
            AlternativeRule::IssuerAltNameUriHostInvalid => has_issuer_name(&AtOtherHost, values),
            AlternativeRule::IssuerAltNameDirectoryNameInvalid => has_issuer_name(
                &OddDirectoryName,
                values,
            ),
            AlternativeRule::IssuerAltNameSrvNameInvalid => has_issuer_name(&NoSrvName, values),
            AlternativeRule::IssuerAltNameSmtpUtf8MailboxInvalid => has_issuer_name(
                &NoSmtpMailbox,
                values,
            ),
            AlternativeRule::IssuerAltNameNotJudged => is_unjudged::<IssuerAltName>(
                Beyond::Names,
                extensions_of(certificate),
                values.issuer_alt_name.is_some(),
            ),
        }
    }

    fn to_rule(&self) -> Rule {
        Rule::Alternative(*self)
    }
}
