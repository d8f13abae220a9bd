//! Rules on CSRs (RFC 2986 4.1, RFC 2985 5.4, RFC 5280 4.1.2.6, 4.2).

ghost use Rattle.std.specs.List.{list_any};
ghost use Rattle.std.specs.Prelude.{◌≡◌, ◌&&◌, bytes_eq, length, nat_lt};
ghost use Rattle.x509_lint.specs.Request as grammar;
ghost use Rattle.x509_lint.specs.Wording.{Says};
ghost use Rattle.x509_lint.specs.Words.{is_empty, passes};

use crate::beyond::{Beyond, is_unjudged};
use crate::entry::{Entry, rules};
use crate::extensions::has;
use crate::group::{Group, Told};
use crate::lists::{Test, any_of};
use crate::names::{
    AtOtherHost, EmptyName, NoAddress, NoDnsName, NoMailbox, NoSmtpMailbox, NoSrvName, NoUri,
    OddDirectoryName, Relative, has_empty_rdn, has_no_country, is_empty_name,
};
use crate::passes;
use crate::request::passwords::{PasswordFault, has_faulty_password};
use crate::request::values::{RequestValues, requested_extensions};
use crate::rule::list::malformed;
use crate::rule::{ExtensionKind, Rule};
use crate::texts::{TextFault, has_faulty_text};
use x509_cert::request::attributes::ChallengePassword;
use x509_cert::request::{CertReq, ExtensionReq};
use x509_der::AssociatedOid;
use x509_ext::pkix::SubjectAltName;
use x509_name::attr::Attribute;

/// Rules on CSRs (RFC 2986 4.1, RFC 2985 5.4, RFC 5280 4.1.2.6, 4.2).
#[derive(Clone, Copy, PartialEq, Eq)]
pub enum RequestRule {
    /// An RDN of the subject has no attribute (RFC 5280 4.1.2.6, error).
    SubjectRdnEmpty,

    /// An RDN of the subject has two attributes of one type (X.501 9.3, error).
    SubjectRdnTypeRepeated,

    /// A countryName of the subject isn't a PrintableString of two letters (RFC 5280 A.1, error).
    SubjectCountryNameInvalid,

    /// A text of the subject is of a string type that its attribute doesn't have (RFC 5280 A.1, error).
    SubjectTextType,

    /// A DirectoryString of the subject is a TeletexString, a BMPString or a UniversalString (RFC 5280 4.1.2.6, warning).
    SubjectTextOldType,

    /// A text of the subject has characters that its string type doesn't have (RFC 5280 4.1.2.6, error).
    SubjectTextCharacters,

    /// A text of the subject is empty, or longer than the upper bound of its attribute (RFC 5280 A.1, error).
    SubjectTextSize,

    /// A domainComponent of the subject isn't one label of 1 to 63 letters, digits and hyphens, of which neither the first nor the last is a hyphen (RFC 4519 2.4, error).
    SubjectDomainComponentInvalid,

    /// The subject is the empty name, and no SAN is asked for (RFC 5280 4.1.2.6, error).
    SubjectEmptyWithoutAltName,

    /// Two attributes are of one type, as an extensionRequest that is there twice (RFC 2986 4.1, warning).
    AttributeRepeated,

    /// An attribute has no value (RFC 2986 4.1, error).
    AttributeValuesEmpty,

    /// A challengePassword has two values or more (RFC 2985 5.4.1, error).
    ChallengePasswordValues,

    /// A value of a challengePassword isn't a DirectoryString (RFC 2985 5.4.1, error).
    ChallengePasswordMalformed,

    /// A challengePassword has no characters, or more than 255 (RFC 2985 5.4.1, error).
    ChallengePasswordSize,

    /// A challengePassword is a TeletexString, a BMPString or a UniversalString, or a UTF8String that could be a PrintableString (RFC 2985 5.4.1, warning).
    ChallengePasswordType,

    /// An extensionRequest has two values or more (RFC 2985 5.4.2, error).
    ExtensionRequestValues,

    /// A value of an extensionRequest isn't a list of extensions (RFC 2985 5.4.2, error).
    ExtensionRequestMalformed,

    /// The list of the extensions that are asked for is there, and has none (RFC 5280 4.1.2.9, error).
    ExtensionsEmpty,

    /// Two extensions that are asked for have one OID (RFC 5280 4.2, error).
    ExtensionRepeated,
}

/// The rules in their order, with how each is told.
pub(crate) static REQUEST_RULES: [Told<RequestRule>; 19] = rules! { RequestRule;
    SubjectRdnEmpty => must("subject_rdn_empty", "4.1.2.6", "certificationRequestInfo.subject"),
    SubjectRdnTypeRepeated => must_of("X.501", "subject_rdn_type_repeated", "9.3", "certificationRequestInfo.subject"),
    SubjectCountryNameInvalid => must("subject_country_name_invalid", "A.1", "certificationRequestInfo.subject"),
    SubjectTextType => must("subject_text_type", "A.1", "certificationRequestInfo.subject"),
    SubjectTextOldType => should("subject_text_old_type", "4.1.2.6", "certificationRequestInfo.subject"),
    SubjectTextCharacters => must("subject_text_characters", "4.1.2.6", "certificationRequestInfo.subject"),
    SubjectTextSize => must("subject_text_size", "A.1", "certificationRequestInfo.subject"),
    SubjectDomainComponentInvalid => must_of("RFC 4519", "subject_domain_component_invalid", "2.4", "certificationRequestInfo.subject"),
    SubjectEmptyWithoutAltName => must("subject_empty_without_alt_name", "4.1.2.6", "certificationRequestInfo.subject"),
    AttributeRepeated => should_of("RFC 2986", "attribute_repeated", "4.1", "certificationRequestInfo.attributes"),
    AttributeValuesEmpty => must_of("RFC 2986", "attribute_values_empty", "4.1", "certificationRequestInfo.attributes"),
    ChallengePasswordValues => must_of("RFC 2985", "challenge_password_several_values", "5.4.1", "certificationRequestInfo.attributes.challengePassword"),
    ChallengePasswordMalformed => must_of("RFC 2985", "challenge_password_malformed", "5.4.1", "certificationRequestInfo.attributes.challengePassword"),
    ChallengePasswordSize => must_of("RFC 2985", "challenge_password_size", "5.4.1", "certificationRequestInfo.attributes.challengePassword"),
    ChallengePasswordType => should_of("RFC 2985", "challenge_password_type", "5.4.1", "certificationRequestInfo.attributes.challengePassword"),
    ExtensionRequestValues => must_of("RFC 2985", "extension_request_several_values", "5.4.2", "certificationRequestInfo.attributes.extensionRequest"),
    ExtensionRequestMalformed => must_of("RFC 2985", "extension_request_malformed", "5.4.2", "certificationRequestInfo.attributes.extensionRequest"),
    ExtensionsEmpty => must("extensions_empty", "4.1.2.9", "certificationRequestInfo.attributes.extensionRequest"),
    ExtensionRepeated => must("extension_repeated", "4.2", "certificationRequestInfo.attributes.extensionRequest"),
};

impl RequestRule {
    /// How bad it is to break the rule, its name, its section, and its place.
    pub fn entry(self) -> Entry
        ensures { Says result (grammar.request_sentence self).wording }
    {
        REQUEST_RULES[self as usize].entry
    }
}

/// That an attribute has no value.
pub(crate) struct NoValues;

impl Test<Attribute> for NoValues {
    ghost use Rattle.x509_lint.specs.Words.{is_empty};

    ghost holds_of = { λ test attribute. is_empty attribute.values };

    fn holds_of(&self, attribute: &Attribute) -> bool {
        attribute.values.as_slice().is_empty()
    }
}

fn is_of_several<T: AssociatedOid>(attribute: &Attribute) -> bool
    ensures { result ≡ (bytes_eq attribute.now.oid T.OID && nat_lt 1 (length attribute.now.values)) }
{
    attribute.oid == T::OID && attribute.values.as_slice().len() > 1
}

/// Whether an attribute of the type has two values or more.
fn has_several_values<T: AssociatedOid>(mut attributes: &[Attribute]) -> bool
    ensures { result ≡ grammar.has_several_values T.OID attributes.entry.now }
{
    while let [first, rest @ ..] = attributes {
        if is_of_several::<T>(first) {
            return true;
        }
        attributes = rest;
    }
    false
}

impl Group<CertReq, RequestValues> for RequestRule {
    ghost use Rattle.x509_lint.specs.Request.{request_sentence};
    ghost use Rattle.x509_lint.specs.declared.rule.Rule.TheVariants.{Request};

    ghost sentence = { request_sentence };

    ghost as_rule = { λ rule. Request rule };

    fn is_broken(&self, request: &CertReq, values: &RequestValues) -> bool {
        match self {
            RequestRule::SubjectRdnEmpty => has_empty_rdn(&request.info.subject),
            RequestRule::SubjectRdnTypeRepeated => !values.is_subject_distinct,
            RequestRule::SubjectCountryNameInvalid => has_no_country(&request.info.subject),
            RequestRule::SubjectTextType => has_faulty_text(
                TextFault::OtherType,
                &request.info.subject,
            ),
            RequestRule::SubjectTextOldType => has_faulty_text(
                TextFault::OldType,
                &request.info.subject,
            ),
            RequestRule::SubjectTextCharacters => has_faulty_text(
                TextFault::OtherCharacter,
                &request.info.subject,
            ),
            RequestRule::SubjectTextSize => has_faulty_text(TextFault::Size, &request.info.subject),
            RequestRule::SubjectDomainComponentInvalid => has_faulty_text(
                TextFault::Label,
                &request.info.subject,
            ),
            RequestRule::SubjectEmptyWithoutAltName => is_empty_name(&request.info.subject)
                && !has::<SubjectAltName>(requested_extensions(&values.requested)),
            RequestRule::AttributeRepeated => !values.are_types_distinct,
            RequestRule::AttributeValuesEmpty => any_of(
                &NoValues,
                request.info.attributes.as_slice(),
            ),
            RequestRule::ChallengePasswordValues => has_several_values::<ChallengePassword>(
                request.info.attributes.as_slice(),
            ),
            RequestRule::ChallengePasswordMalformed => values.is_password_malformed,
            RequestRule::ChallengePasswordSize => has_faulty_password(
                PasswordFault::Size,
                request.info.attributes.as_slice(),
            ),
            RequestRule::ChallengePasswordType => has_faulty_password(
                PasswordFault::OtherType,
                request.info.attributes.as_slice(),
            ),
            RequestRule::ExtensionRequestValues => has_several_values::<ExtensionReq>(
                request.info.attributes.as_slice(),
            ),
            RequestRule::ExtensionRequestMalformed => values.is_request_malformed,
            RequestRule::ExtensionsEmpty =>
                passes!(&values.requested, requested => requested.0.as_slice().is_empty()),
            RequestRule::ExtensionRepeated => values.is_repeated,
        }
    }

    fn to_rule(&self) -> Rule {
        Rule::Request(*self)
    }
}

/// Of each type of extension, that the octets of one of it aren't an encoding of the type.
static REQUEST_MALFORMED: [Told<ExtensionKind>; 22] = malformed!(
    "certificationRequestInfo.attributes.extensionRequest."
);

/// How the rule is told that an extension of the type is malformed.
pub(crate) fn request_malformed(kind: ExtensionKind) -> Entry
    ensures { Says result (grammar.request_malformed_sentence kind).wording }
{
    REQUEST_MALFORMED[kind as usize].entry
}

impl Group<CertReq, RequestValues> for ExtensionKind {
    ghost use Rattle.x509_lint.specs.Request.{request_malformed_sentence};
    ghost use Rattle.x509_lint.specs.declared.rule.Rule.TheVariants.{RequestExtensionMalformed};

    ghost sentence = { request_malformed_sentence };

    ghost as_rule = { λ kind. RequestExtensionMalformed kind };

    fn is_broken(&self, _request: &CertReq, values: &RequestValues) -> bool {
        !values.read.is_read(*self)
    }

    fn to_rule(&self) -> Rule {
        Rule::RequestExtensionMalformed(*self)
    }
}

/// Rules on the SAN that a CSR asks for (RFC 5280 4.2.1.6).
#[derive(Clone, Copy, PartialEq, Eq)]
pub enum RequestNameRule {
    /// The SAN that is asked for has no name (RFC 5280 4.2.1.6, error).
    SubjectAltNameEmpty,

    /// The SAN that is asked for has an empty name (RFC 5280 4.2.1.6, error).
    SubjectAltNameEmptyName,

    /// A dNSName of the SAN that is asked for isn't empty, and isn't a DNS name (RFC 5280 4.2.1.6, error).
    SubjectAltNameDnsNameInvalid,

    /// A dNSName of the SAN that is asked for has a label of IDNA (`xn--`) that Punycode decodes to a text that isn't in Unicode's Normalization Form C (RFC 5891 5.4, error).
    SubjectAltNameDnsNameUnnormalized,

    /// An iPAddress of the SAN that is asked for isn't empty, and has neither 4 nor 16 octets (RFC 5280 4.2.1.6, error).
    SubjectAltNameAddressLength,

    /// An rfc822Name of the SAN that is asked for isn't empty, and isn't a mailbox (RFC 5280 4.2.1.6, error).
    SubjectAltNameMailboxInvalid,

    /// A URI of the SAN that is asked for isn't empty, and isn't absolute (RFC 5280 4.2.1.6, error).
    SubjectAltNameUriRelative,

    /// An absolute URI of the SAN that is asked for doesn't follow the syntax of RFC 3986 (RFC 5280 4.2.1.6, error).
    SubjectAltNameUriInvalid,

    /// An absolute URI of the SAN that is asked for has an authority whose host is neither a fully qualified domain name nor an address (RFC 5280 4.2.1.6, error).
    SubjectAltNameUriHostInvalid,

    /// A directoryName of the SAN that is asked for has an RDN of no attribute, a countryName that isn't one, or a text that isn't as the issuer's have to be: of another string type, other characters, another size, or a domainComponent of another form (RFC 5280 4.2.1.6, error).
    SubjectAltNameDirectoryNameInvalid,

    /// A SRVName of the SAN that is asked for isn't an IA5String of an underscore, a service, a dot and a domain name (RFC 4985 2, error).
    SubjectAltNameSrvNameInvalid,

    /// A SmtpUTF8Mailbox of the SAN that is asked for isn't a UTF8String of a local part with a character above U+007F, the sign @ and a domain of A-labels (RFC 9598 3, error).
    SubjectAltNameSmtpUtf8MailboxInvalid,

    /// The SAN that is asked for isn't read, and has an x400Address or an OID of more than 39 octets or with a number of 2^32 or more, which this library's decoder doesn't hold; the rules on what it says aren't judged (RFC 5280 4.2.1.6, not judged).
    SubjectAltNameNotJudged,
}

/// The rules in their order, with how each is told.
pub(crate) static REQUEST_NAME_RULES: [Told<RequestNameRule>; 13] = rules! { RequestNameRule;
    SubjectAltNameEmpty => must("subject_alt_name_empty", "4.2.1.6", "certificationRequestInfo.attributes.extensionRequest.subjectAltName"),
    SubjectAltNameEmptyName => must("subject_alt_name_empty_name", "4.2.1.6", "certificationRequestInfo.attributes.extensionRequest.subjectAltName"),
    SubjectAltNameDnsNameInvalid => must("subject_alt_name_dns_name_invalid", "4.2.1.6", "certificationRequestInfo.attributes.extensionRequest.subjectAltName"),
    SubjectAltNameDnsNameUnnormalized => must_of("RFC 5891", "subject_alt_name_dns_name_not_normalized", "5.4", "certificationRequestInfo.attributes.extensionRequest.subjectAltName"),
    SubjectAltNameAddressLength => must("subject_alt_name_address_length", "4.2.1.6", "certificationRequestInfo.attributes.extensionRequest.subjectAltName"),
    SubjectAltNameMailboxInvalid => must("subject_alt_name_mailbox_invalid", "4.2.1.6", "certificationRequestInfo.attributes.extensionRequest.subjectAltName"),
    SubjectAltNameUriRelative => must("subject_alt_name_uri_relative", "4.2.1.6", "certificationRequestInfo.attributes.extensionRequest.subjectAltName"),
    SubjectAltNameUriInvalid => must("subject_alt_name_uri_invalid", "4.2.1.6", "certificationRequestInfo.attributes.extensionRequest.subjectAltName"),
    SubjectAltNameUriHostInvalid => must("subject_alt_name_uri_host_invalid", "4.2.1.6", "certificationRequestInfo.attributes.extensionRequest.subjectAltName"),
    SubjectAltNameDirectoryNameInvalid => must("subject_alt_name_directory_name_invalid", "4.2.1.6", "certificationRequestInfo.attributes.extensionRequest.subjectAltName"),
    SubjectAltNameSrvNameInvalid => must_of("RFC 4985", "subject_alt_name_srv_name_invalid", "2", "certificationRequestInfo.attributes.extensionRequest.subjectAltName"),
    SubjectAltNameSmtpUtf8MailboxInvalid => must_of("RFC 9598", "subject_alt_name_smtp_utf8_mailbox_invalid", "3", "certificationRequestInfo.attributes.extensionRequest.subjectAltName"),
    SubjectAltNameNotJudged => not_judged("subject_alt_name_not_read", "4.2.1.6", "certificationRequestInfo.attributes.extensionRequest.subjectAltName"),
};

impl RequestNameRule {
    /// How bad it is to break the rule, its name, its section, and its place.
    pub fn entry(self) -> Entry
        ensures { Says result (grammar.request_name_sentence self).wording }
    {
        REQUEST_NAME_RULES[self as usize].entry
    }
}

impl Group<CertReq, RequestValues> for RequestNameRule {
    ghost use Rattle.x509_lint.specs.Request.{request_name_sentence};
    ghost use Rattle.x509_lint.specs.declared.rule.Rule.TheVariants.{RequestName};

    ghost sentence = { request_name_sentence };

    ghost as_rule = { λ rule. RequestName rule };

    fn is_broken(&self, _request: &CertReq, values: &RequestValues) -> bool {
        match self {
            RequestNameRule::SubjectAltNameEmpty =>
                passes!(&values.subject_alt_name, names => names.0.as_slice().is_empty()),
            RequestNameRule::SubjectAltNameEmptyName =>
                passes!(&values.subject_alt_name, names => any_of(&EmptyName, names.0.as_slice())),
            RequestNameRule::SubjectAltNameDnsNameInvalid =>
                passes!(&values.subject_alt_name, names => any_of(&NoDnsName, names.0.as_slice())),
            RequestNameRule::SubjectAltNameDnsNameUnnormalized => values.has_unnormalized_name,
            RequestNameRule::SubjectAltNameAddressLength =>
                passes!(&values.subject_alt_name, names => any_of(&NoAddress, names.0.as_slice())),
            RequestNameRule::SubjectAltNameMailboxInvalid =>
                passes!(&values.subject_alt_name, names => any_of(&NoMailbox, names.0.as_slice())),
            RequestNameRule::SubjectAltNameUriRelative =>
                passes!(&values.subject_alt_name, names => any_of(&Relative, names.0.as_slice())),
            RequestNameRule::SubjectAltNameUriInvalid =>
                passes!(&values.subject_alt_name, names => any_of(&NoUri, names.0.as_slice())),
            RequestNameRule::SubjectAltNameUriHostInvalid =>
                passes!(&values.subject_alt_name, names => any_of(&AtOtherHost, names.0.as_slice())),
            RequestNameRule::SubjectAltNameDirectoryNameInvalid =>
                passes!(&values.subject_alt_name, names => any_of(&OddDirectoryName, names.0.as_slice())),
            RequestNameRule::SubjectAltNameSrvNameInvalid =>
                passes!(&values.subject_alt_name, names => any_of(&NoSrvName, names.0.as_slice())),
            RequestNameRule::SubjectAltNameSmtpUtf8MailboxInvalid =>
                passes!(&values.subject_alt_name, names => any_of(&NoSmtpMailbox, names.0.as_slice())),
            RequestNameRule::SubjectAltNameNotJudged => is_unjudged::<SubjectAltName>(
                Beyond::Names,
                requested_extensions(&values.requested),
                values.subject_alt_name.is_some(),
            ),
        }
    }

    fn to_rule(&self) -> Rule {
        Rule::RequestName(*self)
    }
}
