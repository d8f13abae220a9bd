//! Rules on certificate policies, policy mappings and policy constraints (RFC 5280 4.2.1.4, 4.2.1.5, 4.2.1.11).

ghost use Rattle.std.specs.List.{list_any};
ghost use Rattle.std.specs.Prelude.{◌≡◌, ◌&&◌, is_some, not};
ghost use Rattle.x509_lint.specs.Policy as grammar;
ghost use Rattle.x509_lint.specs.Uri.{is_any_uri};
ghost use Rattle.x509_lint.specs.Wording.{Says};
ghost use Rattle.x509_lint.specs.Words.{is_empty, passes};

use crate::beyond::{Beyond, is_unjudged};
use crate::entry::{Entry, rules};
use crate::extensions::{extensions_of, has, is_empty_sequence};
use crate::group::{Group, Told};
use crate::lists::{Test, any_of};
use crate::notices::USER_NOTICE;
use crate::passes;
use crate::rule::Rule;
use crate::skip_certs::AnyPolicyConstraints;
use crate::texts::{is_ia5, is_ia5_string};
use crate::uris::is_any_uri;
use crate::values::PolicyValues;
use x509_base::Raw;
use x509_cert::certificate::CertificateInner;
use x509_der::{Any, ObjectIdentifier, oid};
use x509_ext::pkix::certpolicy::{PolicyInformation, PolicyQualifierInfo};
use x509_ext::pkix::{CertificatePolicies, PolicyMapping, PolicyMappings};

/// Rules on certificate policies, policy mappings and policy constraints (RFC 5280 4.2.1.4, 4.2.1.5, 4.2.1.11).
#[derive(Clone, Copy, PartialEq, Eq)]
pub enum PolicyRule {
    /// The CertificatePolicies has no policy (RFC 5280 4.2.1.4, error).
    CertificatePoliciesEmpty,

    /// A policy is there twice (RFC 5280 4.2.1.4, error).
    CertificatePolicyRepeated,

    /// The list of a policy's qualifiers is there, and has none (RFC 5280 4.2.1.4, error).
    PolicyQualifiersEmpty,

    /// A qualifier of anyPolicy is neither a CPS pointer nor a user notice (RFC 5280 4.2.1.4, error).
    AnyPolicyQualifierInvalid,

    /// A qualifier of another policy than anyPolicy is neither a CPS pointer nor a user notice (RFC 5280 4.2.1.4, warning).
    PolicyQualifierOther,

    /// The qualifier of a CPS pointer isn't an IA5String (RFC 5280 4.2.1.4, error).
    CpsPointerMalformed,

    /// The qualifier of a CPS pointer is an IA5String, and not a URI (RFC 3986) (RFC 5280 4.2.1.4, error).
    CpsPointerNotUri,

    /// The qualifier of a user notice isn't a UserNotice (RFC 5280 4.2.1.4, error).
    UserNoticeMalformed,

    /// The explicit text of a user notice has more than 200 characters (RFC 5280 4.2.1.4, error).
    ExplicitTextTooLong,

    /// The explicit text of a user notice has no characters (RFC 5280 4.2.1.4, error).
    ExplicitTextEmpty,

    /// The explicit text of a user notice is an IA5String (RFC 6818 3, error).
    ExplicitTextType,

    /// The explicit text of a user notice is a VisibleString or a BMPString (RFC 6818 3, warning).
    ExplicitTextNotUtf8String,

    /// The explicit text of a user notice has a control character, U+0000 to U+001F or U+007F to U+009F (RFC 5280 4.2.1.4, warning).
    ExplicitTextControl,

    /// A user notice has a noticeRef (RFC 5280 4.2.1.4, warning).
    NoticeReferencePresent,

    /// The explicit text of a user notice is a UTF8String that isn't in Unicode Normalization Form C (RFC 5280 4.2.1.4, warning).
    ExplicitTextNotNormalized,

    /// The CertificatePolicies isn't read, and has an OID of more than 39 octets or with a number of 2^32 or more, which this library's decoder doesn't hold; the rules on what it says aren't judged (RFC 5280 4.2.1.4, not judged).
    CertificatePoliciesNotJudged,

    /// The PolicyMappings has no mapping (RFC 5280 4.2.1.5, error).
    PolicyMappingsEmpty,

    /// A mapping is from or to anyPolicy (RFC 5280 4.2.1.5, error).
    PolicyMappingAnyPolicy,

    /// The issuerDomainPolicy of a mapping is none of the certificate policies, which are absent or read (RFC 5280 4.2.1.5, warning).
    PolicyMappingNotAsserted,

    /// The PolicyMappings isn't read, and has an OID of more than 39 octets or with a number of 2^32 or more, which this library's decoder doesn't hold; the rules on what it says aren't judged (RFC 5280 4.2.1.5, not judged).
    PolicyMappingsNotJudged,

    /// The PolicyConstraints has neither number (RFC 5280 4.2.1.11, error).
    PolicyConstraintsEmpty,
}

/// The rules in their order, with how each is told.
pub(crate) static POLICY_RULES: [Told<PolicyRule>; 21] = rules! { PolicyRule;
    CertificatePoliciesEmpty => must("certificate_policies_empty", "4.2.1.4", "tbsCertificate.extensions.certificatePolicies"),
    CertificatePolicyRepeated => must("certificate_policy_repeated", "4.2.1.4", "tbsCertificate.extensions.certificatePolicies"),
    PolicyQualifiersEmpty => must("policy_qualifiers_empty", "4.2.1.4", "tbsCertificate.extensions.certificatePolicies"),
    AnyPolicyQualifierInvalid => must("any_policy_qualifier_invalid", "4.2.1.4", "tbsCertificate.extensions.certificatePolicies"),
    PolicyQualifierOther => should("policy_qualifier_other", "4.2.1.4", "tbsCertificate.extensions.certificatePolicies"),
    CpsPointerMalformed => must("cps_pointer_malformed", "4.2.1.4", "tbsCertificate.extensions.certificatePolicies"),
    CpsPointerNotUri => must("cps_pointer_not_uri", "4.2.1.4", "tbsCertificate.extensions.certificatePolicies"),
    UserNoticeMalformed => must("user_notice_malformed", "4.2.1.4", "tbsCertificate.extensions.certificatePolicies"),
    ExplicitTextTooLong => must("explicit_text_too_long", "4.2.1.4", "tbsCertificate.extensions.certificatePolicies"),
    ExplicitTextEmpty => must("explicit_text_empty", "4.2.1.4", "tbsCertificate.extensions.certificatePolicies"),
    ExplicitTextType => must_of("RFC 6818", "explicit_text_type", "3", "tbsCertificate.extensions.certificatePolicies"),
    ExplicitTextNotUtf8String => should_of("RFC 6818", "explicit_text_not_utf8_string", "3", "tbsCertificate.extensions.certificatePolicies"),
    ExplicitTextControl => should("explicit_text_control", "4.2.1.4", "tbsCertificate.extensions.certificatePolicies"),
    NoticeReferencePresent => should("notice_reference_present", "4.2.1.4", "tbsCertificate.extensions.certificatePolicies"),
    ExplicitTextNotNormalized => should("explicit_text_not_normalized", "4.2.1.4", "tbsCertificate.extensions.certificatePolicies"),
    CertificatePoliciesNotJudged => not_judged("certificate_policies_not_read", "4.2.1.4", "tbsCertificate.extensions.certificatePolicies"),
    PolicyMappingsEmpty => must("policy_mappings_empty", "4.2.1.5", "tbsCertificate.extensions.policyMappings"),
    PolicyMappingAnyPolicy => must("policy_mapping_any_policy", "4.2.1.5", "tbsCertificate.extensions.policyMappings"),
    PolicyMappingNotAsserted => should("policy_mapping_not_asserted", "4.2.1.5", "tbsCertificate.extensions.policyMappings"),
    PolicyMappingsNotJudged => not_judged("policy_mappings_not_read", "4.2.1.5", "tbsCertificate.extensions.policyMappings"),
    PolicyConstraintsEmpty => must("policy_constraints_empty", "4.2.1.11", "tbsCertificate.extensions.policyConstraints"),
};

impl PolicyRule {
    /// How bad it is to break the rule, its name, its section, and its place.
    pub fn entry(self) -> Entry
        ensures { Says result (grammar.policy_sentence self).wording }
    {
        POLICY_RULES[self as usize].entry
    }
}

/// anyPolicy, 2.5.29.32.0 (RFC 5280 4.2.1.4).
const ANY_POLICY: ObjectIdentifier = oid!(0x55, 0x1D, 32, 0);

/// id-qt-cps, 1.3.6.1.5.5.7.2.1 (RFC 5280 4.2.1.4).
const CPS: ObjectIdentifier = oid!(0x2B, 0x06, 0x01, 0x05, 0x05, 0x07, 2, 1);

/// That a mapping is from or to anyPolicy.
struct OfAnyPolicy;

impl Test<PolicyMapping> for OfAnyPolicy {
    ghost use Rattle.x509_lint.specs.Policy.{is_of_any_policy};

    ghost holds_of = { λ test. is_of_any_policy };

    fn holds_of(&self, mapping: &PolicyMapping) -> bool {
        mapping.issuer_domain_policy == ANY_POLICY || mapping.subject_domain_policy == ANY_POLICY
    }
}

/// That the list of a policy's qualifiers is there, and has none.
struct EmptyQualifiers;

impl Test<PolicyInformation> for EmptyQualifiers {
    ghost use Rattle.x509_lint.specs.Words.{is_empty, passes};

    ghost holds_of = { λ test policy. passes is_empty policy.policy_qualifiers };

    fn holds_of(&self, policy: &PolicyInformation) -> bool {
        is_empty_sequence(&policy.policy_qualifiers)
    }
}

fn has_no_number(constraints: &Option<AnyPolicyConstraints>) -> bool
    ensures { result ≡ passes (λ p. not (is_some p.require_explicit_policy) && not (is_some p.inhibit_policy_mapping)) constraints.now }
{
    match constraints {
        Some(constraints) => {
            !constraints.require_explicit_policy.is_some()
                && !constraints.inhibit_policy_mapping.is_some()
        }
        None => false,
    }
}

/// Whether the certificate policies are absent, or there is one extension of the type, and it is read.
fn are_policies_known(certificate: &CertificateInner<Raw>, values: &PolicyValues) -> bool
    ensures { result ≡ grammar.are_policies_known certificate.now values.now }
{
    !has::<CertificatePolicies>(extensions_of(certificate)) || values.certificate_policies.is_some()
}

/// That a qualifier is neither a CPS pointer nor a user notice.
struct OtherQualifier;

impl Test<PolicyQualifierInfo> for OtherQualifier {
    ghost use Rattle.x509_lint.specs.Policy.{is_other_qualifier};

    ghost holds_of = { λ test. is_other_qualifier };

    fn holds_of(&self, qualifier: &PolicyQualifierInfo) -> bool {
        qualifier.policy_qualifier_id != CPS && qualifier.policy_qualifier_id != USER_NOTICE
    }
}

/// That a policy is anyPolicy, and has such a qualifier.
struct OtherOfAnyPolicy;

impl Test<PolicyInformation> for OtherOfAnyPolicy {
    ghost use Rattle.x509_lint.specs.Policy.{has_other_qualifier};

    ghost holds_of = { λ test. has_other_qualifier };

    fn holds_of(&self, policy: &PolicyInformation) -> bool {
        if policy.policy_identifier != ANY_POLICY {
            return false;
        }
        passes!(&policy.policy_qualifiers, qualifiers => any_of(&OtherQualifier, qualifiers.as_slice()))
    }
}

/// That a policy is another, and has such a qualifier.
struct OtherOfPolicy;

impl Test<PolicyInformation> for OtherOfPolicy {
    ghost use Rattle.x509_lint.specs.Policy.{has_further_qualifier};

    ghost holds_of = { λ test. has_further_qualifier };

    fn holds_of(&self, policy: &PolicyInformation) -> bool {
        if policy.policy_identifier == ANY_POLICY {
            return false;
        }
        passes!(&policy.policy_qualifiers, qualifiers => any_of(&OtherQualifier, qualifiers.as_slice()))
    }
}

/// What may be wrong with a CPS pointer (RFC 5280 4.2.1.4).
#[derive(Clone, Copy)]
pub(crate) enum PointerFault {
    /// It isn't an IA5String.
    NoText,

    /// It is one, and isn't a URI.
    NoUri,
}

/// Whether the element is an IA5String.
fn is_pointer(element: &Any) -> bool
    ensures { result ≡ grammar.is_pointer element.now }
{
    is_ia5_string(element.tag()) && is_ia5(element.value())
}

fn is_other_pointer(element: &Any) -> bool
    ensures { result ≡ (grammar.is_pointer element.now && not (is_any_uri element.now.value)) }
{
    is_pointer(element) && !is_any_uri(element.value())
}

fn is_faulty_text(fault: PointerFault, qualifier: &Option<Any>) -> bool
    ensures { result ≡ grammar.is_faulty_text fault qualifier.now }
{
    match fault {
        PointerFault::NoText => !passes!(qualifier, element => is_pointer(element)),
        PointerFault::NoUri => passes!(qualifier, element => is_other_pointer(element)),
    }
}

impl Test<PolicyQualifierInfo> for PointerFault {
    ghost use Rattle.x509_lint.specs.Policy.{is_faulty_pointer};

    ghost holds_of = { is_faulty_pointer };

    fn holds_of(&self, qualifier: &PolicyQualifierInfo) -> bool {
        qualifier.policy_qualifier_id == CPS && is_faulty_text(*self, &qualifier.qualifier)
    }
}

impl Test<PolicyInformation> for PointerFault {
    ghost use Rattle.x509_lint.specs.Policy.{has_faulty_pointer};

    ghost holds_of = { has_faulty_pointer };

    fn holds_of(&self, policy: &PolicyInformation) -> bool {
        passes!(&policy.policy_qualifiers, qualifiers => any_of(self, qualifiers.as_slice()))
    }
}

/// Whether the certificate policies are read, and one of them passes the test.
fn has_policy<P: Test<PolicyInformation>>(test: &P, values: &PolicyValues) -> bool
    ensures { result ≡ passes (λ policies. list_any (P.holds_of test.now) policies.0) values.now.certificate_policies }
{
    passes!(&values.certificate_policies, policies => any_of(test, policies.0.as_slice()))
}

impl Group<CertificateInner<Raw>, PolicyValues> for PolicyRule {
    ghost use Rattle.x509_lint.specs.Policy.{policy_sentence};
    ghost use Rattle.x509_lint.specs.declared.rule.Rule.TheVariants.{Policy};

    ghost sentence = { policy_sentence };

    ghost as_rule = { λ rule. Policy rule };

    fn is_broken(&self, certificate: &CertificateInner<Raw>, values: &PolicyValues) -> bool {
        match self {
            PolicyRule::CertificatePoliciesEmpty =>
                passes!(&values.certificate_policies, policies => policies.0.as_slice().is_empty()),
            PolicyRule::CertificatePolicyRepeated => !values.are_policies_distinct,
            PolicyRule::PolicyQualifiersEmpty => has_policy(&EmptyQualifiers, values),
            PolicyRule::AnyPolicyQualifierInvalid => has_policy(&OtherOfAnyPolicy, values),
            PolicyRule::PolicyQualifierOther => has_policy(&OtherOfPolicy, values),
            PolicyRule::CpsPointerMalformed => has_policy(&PointerFault::NoText, values),
            PolicyRule::CpsPointerNotUri => has_policy(&PointerFault::NoUri, values),
            PolicyRule::UserNoticeMalformed => values.notices.has_unread_notice,
            PolicyRule::ExplicitTextTooLong => values.notices.has_long_text,
            PolicyRule::ExplicitTextEmpty => values.notices.has_empty_text,
            PolicyRule::ExplicitTextType => values.notices.has_ia5_text,
            PolicyRule::ExplicitTextNotUtf8String => values.notices.has_old_text,
            PolicyRule::ExplicitTextControl => values.notices.has_control,
            PolicyRule::NoticeReferencePresent => values.notices.has_reference,
            PolicyRule::ExplicitTextNotNormalized => values.notices.has_unnormalized,
            PolicyRule::CertificatePoliciesNotJudged => is_unjudged::<CertificatePolicies>(
                Beyond::Identifiers,
                extensions_of(certificate),
                values.certificate_policies.is_some(),
            ),
            PolicyRule::PolicyMappingsEmpty =>
                passes!(&values.policy_mappings, mappings => mappings.0.as_slice().is_empty()),
            PolicyRule::PolicyMappingAnyPolicy =>
                passes!(&values.policy_mappings, mappings => any_of(&OfAnyPolicy, mappings.0.as_slice())),
            PolicyRule::PolicyMappingNotAsserted => are_policies_known(certificate, values)
                && values.has_unasserted_mapping,
            PolicyRule::PolicyMappingsNotJudged => is_unjudged::<PolicyMappings>(
                Beyond::Identifiers,
                extensions_of(certificate),
                values.policy_mappings.is_some(),
            ),
            PolicyRule::PolicyConstraintsEmpty => has_no_number(&values.policy_constraints),
        }
    }

    fn to_rule(&self) -> Rule {
        Rule::Policy(*self)
    }
}
