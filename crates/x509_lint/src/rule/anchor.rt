//! Rules on trust anchors (RFC 5914 2, RFC 5280 4.1.2.4, 4.2).

ghost use Rattle.std.specs.Char.{is_ascii_alphanumeric};
ghost use Rattle.std.specs.List.{list_all};
ghost use Rattle.std.specs.Prelude.{◌≡◌, ◌==◌, bytes_eq, length, not};
ghost use Rattle.std.specs.Str.{chars};
ghost use Rattle.x509_lint.specs.Anchor as grammar;
ghost use Rattle.x509_lint.specs.Constraint.{breaks_name_constraints};
ghost use Rattle.x509_lint.specs.Text.{has_faulty_text, is_outside};
ghost use Rattle.x509_lint.specs.Wording.{Says};
ghost use Rattle.x509_lint.specs.Words.{is_empty, passes};

use crate::anchor::values::{AnchorValues, policy_set};
use crate::entry::{Entry, rules};
use crate::extensions::{has, is_empty_sequence};
use crate::group::{Group, Told};
use crate::lists::{Test, any_of};
use crate::names::{has_empty_rdn, has_no_country, is_empty_name};
use crate::notices::count_chars;
use crate::passes;
use crate::rule::constraint::breaks_name_constraints;
use crate::rule::list::malformed;
use crate::rule::{ConstraintRule, ExtensionKind, Rule};
use crate::texts::{TextFault, has_faulty_text, is_outside};
use x509_base::Raw;
use x509_cert::anchor::{CertPathControls, TrustAnchorInfo};
use x509_ext::members;
use x509_ext::pkix::certpolicy::PolicyInformation;
use x509_ext::pkix::{
    CertificatePolicies, InhibitAnyPolicy, NameConstraints, PolicyConstraints, SubjectKeyIdentifier,
};
use x509_prim::{OctetString, Utf8String};

/// The most characters that a title has (RFC 5914 2.4).
const MAX_TITLE: usize = 64;

/// The most octets that a subtag of a language tag has (RFC 5646 2.1).
const MAX_SUBTAG: usize = 8;

/// Rules on the title and the controls of trust anchors (RFC 5914 2, RFC 5280 4.1.2.4, 4.2.1.4).
#[derive(Clone, Copy, PartialEq, Eq)]
pub enum AnchorRule {
    /// The title is empty, or has more than 64 characters (RFC 5914 2.4, error).
    TaTitleSize,

    /// The language of the title isn't subtags of one to eight letters and digits with hyphens between them, as language tags are (RFC 5646 2.1)
    /// (RFC 5914 2.4, warning).
    TaTitleLangTagInvalid,

    /// The name is the empty name (RFC 5914 2.5, error).
    TaNameEmpty,

    /// An RDN of the name has no attribute (RFC 5280 4.1.2.4, error).
    TaNameRdnEmpty,

    /// An RDN of the name has two attributes of one type (X.501 9.3, error).
    TaNameRdnTypeRepeated,

    /// A countryName of the name isn't a PrintableString of two letters (RFC 5280 A.1, error).
    TaNameCountryNameInvalid,

    /// A text of the name is of a string type that its attribute doesn't have (RFC 5280 A.1, error).
    TaNameTextType,

    /// A DirectoryString of the name is a TeletexString, a BMPString or a UniversalString (RFC 5280 4.1.2.4, warning).
    TaNameTextOldType,

    /// A text of the name has characters that its string type doesn't have (RFC 5280 4.1.2.4, error).
    TaNameTextCharacters,

    /// A text of the name is empty, or longer than the upper bound of its attribute (RFC 5280 A.1, error).
    TaNameTextSize,

    /// A domainComponent of the name isn't one label of 1 to 63 letters, digits and hyphens, of which neither the first nor the last is a hyphen (RFC 4519 2.4, error).
    TaNameDomainComponentInvalid,

    /// The subject of the certificate isn't the name of the anchor (RFC 5914 2.5, error).
    CertificateSubjectDiffers,

    /// The key of the certificate isn't the key of the anchor (RFC 5914 2.5, error).
    CertificateKeyDiffers,

    /// The SKI of the certificate isn't the key identifier of the anchor (RFC 5914 2.5, error).
    CertificateKeyIdentifierDiffers,

    /// The set of policies is there, and has none (RFC 5280 4.2.1.4, error).
    PolicySetEmpty,

    /// The set of policies has a policy twice (RFC 5280 4.2.1.4, error).
    PolicySetRepeated,

    /// A policy of the set has qualifiers (RFC 5914 2.5, error).
    PolicySetQualifiers,
}

/// The rules in their order, with how each is told.
pub(crate) static ANCHOR_RULES: [Told<AnchorRule>; 17] = rules! { AnchorRule;
    TaTitleSize => must_of("RFC 5914", "ta_title_size", "2.4", "taInfo.taTitle"),
    TaTitleLangTagInvalid => should_of("RFC 5914", "ta_title_lang_tag_invalid", "2.4", "taInfo.taTitleLangTag"),
    TaNameEmpty => must_of("RFC 5914", "ta_name_empty", "2.5", "taInfo.certPath.taName"),
    TaNameRdnEmpty => must("ta_name_rdn_empty", "4.1.2.4", "taInfo.certPath.taName"),
    TaNameRdnTypeRepeated => must_of("X.501", "ta_name_rdn_type_repeated", "9.3", "taInfo.certPath.taName"),
    TaNameCountryNameInvalid => must("ta_name_country_name_invalid", "A.1", "taInfo.certPath.taName"),
    TaNameTextType => must("ta_name_text_type", "A.1", "taInfo.certPath.taName"),
    TaNameTextOldType => should("ta_name_text_old_type", "4.1.2.4", "taInfo.certPath.taName"),
    TaNameTextCharacters => must("ta_name_text_characters", "4.1.2.4", "taInfo.certPath.taName"),
    TaNameTextSize => must("ta_name_text_size", "A.1", "taInfo.certPath.taName"),
    TaNameDomainComponentInvalid => must_of("RFC 4519", "ta_name_domain_component_invalid", "2.4", "taInfo.certPath.taName"),
    CertificateSubjectDiffers => must_of("RFC 5914", "certificate_subject_differs", "2.5", "taInfo.certPath.certificate.tbsCertificate.subject"),
    CertificateKeyDiffers => must_of("RFC 5914", "certificate_key_differs", "2.5", "taInfo.certPath.certificate.tbsCertificate.subjectPublicKeyInfo"),
    CertificateKeyIdentifierDiffers => must_of("RFC 5914", "certificate_key_identifier_differs", "2.5", "taInfo.certPath.certificate.tbsCertificate.extensions.subjectKeyIdentifier"),
    PolicySetEmpty => must("policy_set_empty", "4.2.1.4", "taInfo.certPath.policySet"),
    PolicySetRepeated => must("policy_set_repeated", "4.2.1.4", "taInfo.certPath.policySet"),
    PolicySetQualifiers => must_of("RFC 5914", "policy_set_qualifiers", "2.5", "taInfo.certPath.policySet"),
};

impl AnchorRule {
    /// How bad it is to break the rule, its name, its section, and its place.
    pub fn entry(self) -> Entry
        ensures { Says result (grammar.anchor_sentence self).wording }
    {
        ANCHOR_RULES[self as usize].entry
    }
}

fn has_odd_size(title: &Option<Utf8String>) -> bool
    ensures { result ≡ passes (λ title. is_outside 64 (length (chars title))) title.now }
{
    passes!(title, title => is_outside(MAX_TITLE, count_chars(title.as_str())))
}

fn are_letters_and_digits(octets: &[u8]) -> bool
    ensures { result ≡ list_all is_ascii_alphanumeric octets.now }
{
    octets.iter().all(u8::is_ascii_alphanumeric)
}

fn is_subtag(octets: &[u8]) -> bool
    ensures { result ≡ grammar.is_subtag octets.now }
{
    are_letters_and_digits(octets) && !is_outside(MAX_SUBTAG, octets.len())
}

fn is_hyphen(octet: &u8) -> bool
    ensures { result ≡ (octet.now == 45) }
{
    *octet == b'-'
}

fn are_subtags(text: &[u8]) -> bool
    ensures { result ≡ grammar.are_subtags text.now }
{
    text.split(is_hyphen).all(is_subtag)
}

fn has_faulty_name(fault: TextFault, controls: &Option<CertPathControls<Raw>>) -> bool
    ensures { result ≡ passes (λ c. has_faulty_text fault c.ta_name) controls.now }
{
    passes!(controls, controls => has_faulty_text(fault, &controls.ta_name))
}

/// Whether the key identifier isn't this one.
fn is_other_identifier(found: &Option<SubjectKeyIdentifier>, key_id: &OctetString) -> bool
    ensures { result ≡ passes (λ k. not (bytes_eq k.0 key_id.now)) found.now }
{
    passes!(found, found => found.0 != *key_id)
}

/// That a policy has qualifiers.
struct Qualified;

impl Test<PolicyInformation> for Qualified {
    ghost use Rattle.std.specs.Prelude.{is_some};

    ghost holds_of = { λ test policy. is_some policy.policy_qualifiers };

    fn holds_of(&self, policy: &PolicyInformation) -> bool {
        policy.policy_qualifiers.is_some()
    }
}

impl Group<TrustAnchorInfo<Raw>, AnchorValues> for AnchorRule {
    ghost use Rattle.x509_lint.specs.Anchor.{anchor_sentence};
    ghost use Rattle.x509_lint.specs.declared.rule.Rule.TheVariants.{Anchor};

    ghost sentence = { anchor_sentence };

    ghost as_rule = { λ rule. Anchor rule };

    fn is_broken(&self, info: &TrustAnchorInfo<Raw>, values: &AnchorValues) -> bool {
        match self {
            AnchorRule::TaTitleSize => has_odd_size(&info.ta_title),
            AnchorRule::TaTitleLangTagInvalid =>
                passes!(&info.ta_title_lang_tag, tag => !are_subtags(tag.as_str().as_bytes())),
            AnchorRule::TaNameEmpty =>
                passes!(&info.cert_path, controls => is_empty_name(&controls.ta_name)),
            AnchorRule::TaNameRdnEmpty =>
                passes!(&info.cert_path, controls => has_empty_rdn(&controls.ta_name)),
            AnchorRule::TaNameRdnTypeRepeated => !values.is_name_distinct,
            AnchorRule::TaNameCountryNameInvalid =>
                passes!(&info.cert_path, controls => has_no_country(&controls.ta_name)),
            AnchorRule::TaNameTextType => has_faulty_name(TextFault::OtherType, &info.cert_path),
            AnchorRule::TaNameTextOldType => has_faulty_name(TextFault::OldType, &info.cert_path),
            AnchorRule::TaNameTextCharacters => has_faulty_name(
                TextFault::OtherCharacter,
                &info.cert_path,
            ),
            AnchorRule::TaNameTextSize => has_faulty_name(TextFault::Size, &info.cert_path),
            AnchorRule::TaNameDomainComponentInvalid => has_faulty_name(
                TextFault::Label,
                &info.cert_path,
            ),
            AnchorRule::CertificateSubjectDiffers => values.subject_differs,
            AnchorRule::CertificateKeyDiffers => values.key_differs,
            AnchorRule::CertificateKeyIdentifierDiffers => is_other_identifier(
                &values.key_identifier,
                &info.key_id,
            ),
            AnchorRule::PolicySetEmpty =>
                passes!(&info.cert_path, controls => passes!(&controls.policy_set, policies => policies.0.as_slice().is_empty())),
            AnchorRule::PolicySetRepeated => !values.are_policies_distinct,
            AnchorRule::PolicySetQualifiers => any_of(&Qualified, policy_set(&info.cert_path)),
        }
    }

    fn to_rule(&self) -> Rule {
        Rule::Anchor(*self)
    }
}

/// The entry of a rule on name constraints, at their place in the controls.
pub(crate) fn in_controls(rule: ConstraintRule) -> Entry
    ensures { Says result (grammar.anchor_constraint_sentence rule).wording }
{
    let Entry {
        severity,
        name,
        standard,
        section,
        place: _,
    } = rule.entry();
    Entry {
        severity,
        name,
        standard,
        section,
        place: "taInfo.certPath.nameConstr",
    }
}

fn breaks_constraints(rule: ConstraintRule, constraints: &Option<NameConstraints>) -> bool
    ensures { result ≡ passes (breaks_name_constraints rule) constraints.now }
{
    passes!(constraints, constraints => breaks_name_constraints(rule, constraints))
}

impl Group<TrustAnchorInfo<Raw>, AnchorValues> for ConstraintRule {
    ghost use Rattle.x509_lint.specs.Anchor.{anchor_constraint_sentence};
    ghost use Rattle.x509_lint.specs.declared.rule.Rule.TheVariants.{AnchorConstraint};

    ghost sentence = { anchor_constraint_sentence };

    ghost as_rule = { λ rule. AnchorConstraint rule };

    fn is_broken(&self, info: &TrustAnchorInfo<Raw>, _values: &AnchorValues) -> bool {
        passes!(&info.cert_path, controls => breaks_constraints(*self, &controls.name_constr))
    }

    fn to_rule(&self) -> Rule {
        Rule::AnchorConstraint(*self)
    }
}

/// Rules on the extensions of trust anchors as a list (RFC 5914 2.6, RFC 5280 4.1.2.9, 4.2).
#[derive(Clone, Copy, PartialEq, Eq)]
pub enum AnchorExtensionRule {
    /// The list of extensions is there, and has none (RFC 5280 4.1.2.9, error).
    ExtensionsEmpty,

    /// Two extensions have one OID (RFC 5280 4.2, error).
    ExtensionRepeated,

    /// Certificate policies are among the extensions (RFC 5914 2.6, error).
    CertificatePoliciesInExts,

    /// Policy constraints are among the extensions (RFC 5914 2.6, error).
    PolicyConstraintsInExts,

    /// An inhibitAnyPolicy is among the extensions (RFC 5914 2.6, error).
    InhibitAnyPolicyInExts,

    /// Name constraints are among the extensions (RFC 5914 2.6, error).
    NameConstraintsInExts,
}

/// The rules in their order, with how each is told.
pub(crate) static ANCHOR_EXTENSION_RULES: [Told<AnchorExtensionRule>; 6] =
    rules! { AnchorExtensionRule;
    ExtensionsEmpty => must("extensions_empty", "4.1.2.9", "taInfo.exts"),
    ExtensionRepeated => must("extension_repeated", "4.2", "taInfo.exts"),
    CertificatePoliciesInExts => must_of("RFC 5914", "certificate_policies_in_exts", "2.6", "taInfo.exts.certificatePolicies"),
    PolicyConstraintsInExts => must_of("RFC 5914", "policy_constraints_in_exts", "2.6", "taInfo.exts.policyConstraints"),
    InhibitAnyPolicyInExts => must_of("RFC 5914", "inhibit_any_policy_in_exts", "2.6", "taInfo.exts.inhibitAnyPolicy"),
    NameConstraintsInExts => must_of("RFC 5914", "name_constraints_in_exts", "2.6", "taInfo.exts.nameConstraints"),
};

impl AnchorExtensionRule {
    /// How bad it is to break the rule, its name, its section, and its place.
    pub fn entry(self) -> Entry
        ensures { Says result (grammar.anchor_extension_sentence self).wording }
    {
        ANCHOR_EXTENSION_RULES[self as usize].entry
    }
}

impl Group<TrustAnchorInfo<Raw>, AnchorValues> for AnchorExtensionRule {
    ghost use Rattle.x509_lint.specs.Anchor.{anchor_extension_sentence};
    ghost use Rattle.x509_lint.specs.declared.rule.Rule.TheVariants.{AnchorExtension};

    ghost sentence = { anchor_extension_sentence };

    ghost as_rule = { λ rule. AnchorExtension rule };

    fn is_broken(&self, info: &TrustAnchorInfo<Raw>, values: &AnchorValues) -> bool {
        match self {
            AnchorExtensionRule::ExtensionsEmpty => is_empty_sequence(&info.extensions),
            AnchorExtensionRule::ExtensionRepeated => values.is_repeated,
            AnchorExtensionRule::CertificatePoliciesInExts => {
                has::<CertificatePolicies>(members(info.extensions.as_ref()))
            }
            AnchorExtensionRule::PolicyConstraintsInExts => {
                has::<PolicyConstraints>(members(info.extensions.as_ref()))
            }
            AnchorExtensionRule::InhibitAnyPolicyInExts => {
                has::<InhibitAnyPolicy>(members(info.extensions.as_ref()))
            }
            AnchorExtensionRule::NameConstraintsInExts => {
                has::<NameConstraints>(members(info.extensions.as_ref()))
            }
        }
    }

    fn to_rule(&self) -> Rule {
        Rule::AnchorExtension(*self)
    }
}

/// Of each type of extension, that the octets of one of it aren't an encoding of the type.
static ANCHOR_MALFORMED: [Told<ExtensionKind>; 22] = malformed!("taInfo.exts.");

/// How the rule is told that an extension of the type is malformed.
pub(crate) fn anchor_malformed(kind: ExtensionKind) -> Entry
    ensures { Says result (grammar.anchor_malformed_sentence kind).wording }
{
    ANCHOR_MALFORMED[kind as usize].entry
}

impl Group<TrustAnchorInfo<Raw>, AnchorValues> for ExtensionKind {
    ghost use Rattle.x509_lint.specs.Anchor.{anchor_malformed_sentence};
    ghost use Rattle.x509_lint.specs.declared.rule.Rule.TheVariants.{AnchorExtensionMalformed};

    ghost sentence = { anchor_malformed_sentence };

    ghost as_rule = { λ kind. AnchorExtensionMalformed kind };

    fn is_broken(&self, _info: &TrustAnchorInfo<Raw>, values: &AnchorValues) -> bool {
        !values.read.is_read(*self)
    }

    fn to_rule(&self) -> Rule {
        Rule::AnchorExtensionMalformed(*self)
    }
}
