//! What is encoded of sets of reasons and of what holds one, and which values of the extensions about policies,
//! constraints and revocation are equal. Each law is a function with an empty body, whose contract is the law.

ghost use Rattle.std.specs.Prelude.{◌≡◌, ◌<◌, ◌↔◌, [], ◌∷◌, List, ℕ, true};
ghost use Rattle.x509_der.specs.Arcs.{content_of};
ghost use Rattle.x509_der.specs.Writing.{IsStable};
ghost use Rattle.x509_ext.specs.Identifiers.{id_ce, id_pkix};
ghost use Rattle.x509_ext.specs.KeyUsage.{has_bit};
ghost use Rattle.x509_ext.specs.declared.extension.Extension.{Extension};
ghost use Rattle.x509_ext.specs.declared.pkix.access.AccessDescription.{AccessDescription};
ghost use Rattle.x509_ext.specs.declared.pkix.access.AuthorityInfoAccessSyntax.{AuthorityInfoAccessSyntax};
ghost use Rattle.x509_ext.specs.declared.pkix.access.SubjectInfoAccessSyntax.{SubjectInfoAccessSyntax};
ghost use Rattle.x509_ext.specs.declared.pkix.alternative_names.IssuerAltName.{IssuerAltName};
ghost use Rattle.x509_ext.specs.declared.pkix.alternative_names.SubjectAltName.{SubjectAltName};
ghost use Rattle.x509_ext.specs.declared.pkix.authority_key_identifier.AuthorityKeyIdentifier.{AuthorityKeyIdentifier};
ghost use Rattle.x509_ext.specs.declared.pkix.basic_constraints.BasicConstraints.{BasicConstraints};
ghost use Rattle.x509_ext.specs.declared.pkix.certificate_issuer.CertificateIssuer.{CertificateIssuer};
ghost use Rattle.x509_ext.specs.declared.pkix.certificate_policies.CertificatePolicies.{CertificatePolicies};
ghost use Rattle.x509_ext.specs.declared.pkix.crl_number.BaseCrlNumber.{BaseCrlNumber};
ghost use Rattle.x509_ext.specs.declared.pkix.crl_number.CrlNumber.{CrlNumber};
ghost use Rattle.x509_ext.specs.declared.pkix.crl_reason.CrlReason.{CrlReason};
ghost use Rattle.x509_ext.specs.declared.pkix.display_text.DisplayText.{DisplayText};
ghost use Rattle.x509_ext.specs.declared.pkix.distribution_point.DistributionPoint.{DistributionPoint};
ghost use Rattle.x509_ext.specs.declared.pkix.distribution_points.CrlDistributionPoints.{CrlDistributionPoints};
ghost use Rattle.x509_ext.specs.declared.pkix.distribution_points.FreshestCrl.{FreshestCrl};
ghost use Rattle.x509_ext.specs.declared.pkix.extended_key_usage.ExtendedKeyUsage.{ExtendedKeyUsage};
ghost use Rattle.x509_ext.specs.declared.pkix.general_subtree.GeneralSubtree.{GeneralSubtree};
ghost use Rattle.x509_ext.specs.declared.pkix.inhibit_any_policy.InhibitAnyPolicy.{InhibitAnyPolicy};
ghost use Rattle.x509_ext.specs.declared.pkix.issuing_distribution_point.IssuingDistributionPoint.{IssuingDistributionPoint};
ghost use Rattle.x509_ext.specs.declared.pkix.key_usage.KeyUsage.{KeyUsage};
ghost use Rattle.x509_ext.specs.declared.pkix.key_usage.KeyUsages.{KeyUsages};
ghost use Rattle.x509_ext.specs.declared.pkix.name.distribution_point_name.DistributionPointName.{DistributionPointName};
ghost use Rattle.x509_ext.specs.declared.pkix.name.edi_party_name.EdiPartyName.{EdiPartyName};
ghost use Rattle.x509_ext.specs.declared.pkix.name.general_name.GeneralName.{GeneralName};
ghost use Rattle.x509_ext.specs.declared.pkix.name.general_name.IpAddress.{IpAddress};
ghost use Rattle.x509_ext.specs.declared.pkix.name.hardware_module_name.HardwareModuleName.{HardwareModuleName};
ghost use Rattle.x509_ext.specs.declared.pkix.name.other_name.OtherName.{OtherName};
ghost use Rattle.x509_ext.specs.declared.pkix.name_constraints.NameConstraints.{NameConstraints};
ghost use Rattle.x509_ext.specs.declared.pkix.policy_constraints.PolicyConstraints.{PolicyConstraints};
ghost use Rattle.x509_ext.specs.declared.pkix.policy_information.PolicyInformation.{PolicyInformation};
ghost use Rattle.x509_ext.specs.declared.pkix.policy_information.PolicyQualifierInfo.{PolicyQualifierInfo};
ghost use Rattle.x509_ext.specs.declared.pkix.policy_mapping.PolicyMapping.{PolicyMapping};
ghost use Rattle.x509_ext.specs.declared.pkix.policy_mapping.PolicyMappings.{PolicyMappings};
ghost use Rattle.x509_ext.specs.declared.pkix.private_key_usage_period.PrivateKeyUsagePeriod.{PrivateKeyUsagePeriod};
ghost use Rattle.x509_ext.specs.declared.pkix.reasons.Reasons.{Reasons};
ghost use Rattle.x509_ext.specs.declared.pkix.subject_directory_attributes.SubjectDirectoryAttributes.{SubjectDirectoryAttributes};
ghost use Rattle.x509_ext.specs.declared.pkix.subject_key_identifier.SubjectKeyIdentifier.{SubjectKeyIdentifier};
ghost use Rattle.x509_ext.specs.declared.pkix.user_notice.NoticeReference.{NoticeReference};
ghost use Rattle.x509_ext.specs.declared.pkix.user_notice.UserNotice.{UserNotice};
ghost use Rattle.x509_prim.specs.BitString.{is_one};

use crate::extension::{Extension, Extensions};
use crate::pkix::certificate_issuer::CertificateIssuer;
use crate::pkix::certificate_policies::CertificatePolicies;
use crate::pkix::crl_number::{BaseCrlNumber, CrlNumber};
use crate::pkix::crl_reason::CrlReason;
use crate::pkix::display_text::DisplayText;
use crate::pkix::distribution_point::DistributionPoint;
use crate::pkix::distribution_points::{CrlDistributionPoints, FreshestCrl};
use crate::pkix::general_subtree::GeneralSubtree;
use crate::pkix::inhibit_any_policy::InhibitAnyPolicy;
use crate::pkix::issuing_distribution_point::IssuingDistributionPoint;
use crate::pkix::name::distribution_point_name::DistributionPointName;
use crate::pkix::name::edi_party_name::EdiPartyName;
use crate::pkix::name::general_name::{GeneralName, IpAddress};
use crate::pkix::name::hardware_module_name::HardwareModuleName;
use crate::pkix::name::other_name::OtherName;
use crate::pkix::name_constraints::NameConstraints;
use crate::pkix::policy_constraints::PolicyConstraints;
use crate::pkix::policy_information::{PolicyInformation, PolicyQualifierInfo};
use crate::pkix::policy_mapping::{PolicyMapping, PolicyMappings};
use crate::pkix::reasons::Reasons;
use crate::pkix::user_notice::{NoticeReference, UserNotice};
use crate::pkix::{
    AccessDescription, AuthorityInfoAccessSyntax, AuthorityKeyIdentifier, BasicConstraints,
    ExtendedKeyUsage, IssuerAltName, KeyUsage, KeyUsages, PrivateKeyUsagePeriod, SubjectAltName,
    SubjectDirectoryAttributes, SubjectInfoAccessSyntax, SubjectKeyIdentifier,
};
use x509_der::{Encode, Grammar};

/// The octets that stand for 2.5.29.n are its content octets (X.690 8.19).
#[tactic(auto, using(crate::proofs::ArcsOfExtensions::id_ce_content))]
pub fn identifiers_of_extensions()
    ensures { (n : ℕ) → n < 128 → id_ce n ≡ content_of (2 ∷ 5 ∷ 29 ∷ n ∷ []) }
{}

/// The octets that stand for 1.3.6.1.5.5.7.a.n are its content octets (X.690 8.19).
#[tactic(auto, using(crate::proofs::ArcsOfExtensions::id_pkix_content))]
pub fn identifiers_of_pkix()
    ensures { (a n : ℕ) → a < 128 → n < 128 → id_pkix a n ≡ content_of (1 ∷ 3 ∷ 6 ∷ 1 ∷ 5 ∷ 5 ∷ 7 ∷ a ∷ n ∷ []) }
{}

/// `==` of extensions and of lists of them holds exactly of equal values.
#[tactic(auto, using(crate::specs::ExtensionEquality::exact_extension, x509_der::specs::Exact::exact_list))]
pub fn equality_of_extensions_is_exact()
    ensures extensions { (a b : Extension) → (⟦<Extension as PartialEq>⟧.eq a b ≡ true) ↔ (a ≡ b) }
    ensures lists { (a b : List Extension) → (⟦<Extensions as PartialEq>⟧.eq a b ≡ true) ↔ (a ≡ b) }
{}

/// `==` of general names and of what stands in them holds exactly of equal values: letters are compared with their
/// case, and the same text in another kind of name is another name.
#[tactic(auto, using(crate::specs::GeneralNameEquality::exact_other_name, crate::specs::GeneralNameEquality::exact_edi_party_name, crate::specs::GeneralNameEquality::exact_general_name, crate::specs::GeneralNameEquality::exact_ip_address, crate::specs::GeneralNameEquality::exact_hardware_module_name, crate::specs::GeneralNameEquality::exact_distribution_point_name))]
pub fn equality_of_general_names_is_exact()
    ensures other_names { (a b : OtherName) → (⟦<OtherName as PartialEq>⟧.eq a b ≡ true) ↔ (a ≡ b) }
    ensures parties { (a b : EdiPartyName) → (⟦<EdiPartyName as PartialEq>⟧.eq a b ≡ true) ↔ (a ≡ b) }
    ensures names { (a b : GeneralName) → (⟦<GeneralName as PartialEq>⟧.eq a b ≡ true) ↔ (a ≡ b) }
    ensures addresses { (a b : IpAddress) → (⟦<IpAddress as PartialEq>⟧.eq a b ≡ true) ↔ (a ≡ b) }
    ensures modules { (a b : HardwareModuleName) → (⟦<HardwareModuleName as PartialEq>⟧.eq a b ≡ true) ↔ (a ≡ b) }
    ensures places { (a b : DistributionPointName) → (⟦<DistributionPointName as PartialEq>⟧.eq a b ≡ true) ↔ (a ≡ b) }
{}

/// A named bit is set where it is a one in the bit string (X.680 22.7).
#[tactic(auto, using(crate::proofs::Bits::named_bit))]
pub fn named_bits_are_ones()
    ensures { (usage : KeyUsage) (n : ℕ) → has_bit usage n ≡ is_one usage.0.0 n }
{}

/// What is encoded of a set of key usages is encoded again as it is: decoding and encoding twice gives the bytes of
/// once. It is the premise of the laws of canonical form of
/// [`x509_der::laws`](x509_der::laws::writing_again_gives_the_same).
pub fn key_usages_are_written_once()
    ensures usages { IsStable ⟦<KeyUsages as Grammar>⟧.form.good ⟦<KeyUsages as Encode>⟧.writing }
    ensures extension { IsStable ⟦<KeyUsage as Grammar>⟧.form.good ⟦<KeyUsage as Encode>⟧.writing }
{}

/// `==` of the extensions about keys holds exactly of equal values: of sets of key usages, where they have the same
/// bits.
#[tactic(auto, using(crate::specs::KeyEquality::exact_key_usages, crate::specs::KeyEquality::exact_key_usage, crate::specs::KeyEquality::exact_extended_key_usage, crate::specs::KeyEquality::exact_private_key_usage_period, crate::specs::KeyEquality::exact_subject_key_identifier, crate::specs::KeyEquality::exact_authority_key_identifier))]
pub fn equality_of_key_extensions_is_exact()
    ensures uses { (a b : KeyUsages) → (⟦<KeyUsages as PartialEq>⟧.eq a b ≡ true) ↔ (a ≡ b) }
    ensures usages { (a b : KeyUsage) → (⟦<KeyUsage as PartialEq>⟧.eq a b ≡ true) ↔ (a ≡ b) }
    ensures extended_usages { (a b : ExtendedKeyUsage) → (⟦<ExtendedKeyUsage as PartialEq>⟧.eq a b ≡ true) ↔ (a ≡ b) }
    ensures periods { (a b : PrivateKeyUsagePeriod) → (⟦<PrivateKeyUsagePeriod as PartialEq>⟧.eq a b ≡ true) ↔ (a ≡ b) }
    ensures subject_keys { (a b : SubjectKeyIdentifier) → (⟦<SubjectKeyIdentifier as PartialEq>⟧.eq a b ≡ true) ↔ (a ≡ b) }
    ensures authority_keys { (a b : AuthorityKeyIdentifier) → (⟦<AuthorityKeyIdentifier as PartialEq>⟧.eq a b ≡ true) ↔ (a ≡ b) }
{}

/// `==` of the extensions about the subject and the issuer holds exactly of equal values: lists are equal where they
/// have the same members in the same order.
#[tactic(auto, using(crate::specs::KeyEquality::exact_basic_constraints, crate::specs::KeyEquality::exact_subject_alt_name, crate::specs::KeyEquality::exact_issuer_alt_name, crate::specs::KeyEquality::exact_subject_directory_attributes, crate::specs::KeyEquality::exact_access_description, crate::specs::KeyEquality::exact_authority_info_access_syntax, crate::specs::KeyEquality::exact_subject_info_access_syntax))]
pub fn equality_of_party_extensions_is_exact()
    ensures constraints { (a b : BasicConstraints) → (⟦<BasicConstraints as PartialEq>⟧.eq a b ≡ true) ↔ (a ≡ b) }
    ensures subject_names { (a b : SubjectAltName) → (⟦<SubjectAltName as PartialEq>⟧.eq a b ≡ true) ↔ (a ≡ b) }
    ensures issuer_names { (a b : IssuerAltName) → (⟦<IssuerAltName as PartialEq>⟧.eq a b ≡ true) ↔ (a ≡ b) }
    ensures attributes { (a b : SubjectDirectoryAttributes) → (⟦<SubjectDirectoryAttributes as PartialEq>⟧.eq a b ≡ true) ↔ (a ≡ b) }
    ensures access { (a b : AccessDescription) → (⟦<AccessDescription as PartialEq>⟧.eq a b ≡ true) ↔ (a ≡ b) }
    ensures authority_access { (a b : AuthorityInfoAccessSyntax) → (⟦<AuthorityInfoAccessSyntax as PartialEq>⟧.eq a b ≡ true) ↔ (a ≡ b) }
    ensures subject_access { (a b : SubjectInfoAccessSyntax) → (⟦<SubjectInfoAccessSyntax as PartialEq>⟧.eq a b ≡ true) ↔ (a ≡ b) }
{}

/// `==` of certificate policies, and of their qualifiers, holds exactly of equal values.
#[tactic(auto, using(crate::specs::PolicyEquality::exact_display_text, crate::specs::PolicyEquality::exact_notice_reference, crate::specs::PolicyEquality::exact_user_notice, crate::specs::PolicyEquality::exact_policy_qualifier_info, crate::specs::PolicyEquality::exact_policy_information, crate::specs::PolicyEquality::exact_certificate_policies))]
pub fn equality_of_policies_is_exact()
    ensures texts { (a b : DisplayText) → (⟦<DisplayText as PartialEq>⟧.eq a b ≡ true) ↔ (a ≡ b) }
    ensures references { (a b : NoticeReference) → (⟦<NoticeReference as PartialEq>⟧.eq a b ≡ true) ↔ (a ≡ b) }
    ensures notices { (a b : UserNotice) → (⟦<UserNotice as PartialEq>⟧.eq a b ≡ true) ↔ (a ≡ b) }
    ensures qualifiers { (a b : PolicyQualifierInfo) → (⟦<PolicyQualifierInfo as PartialEq>⟧.eq a b ≡ true) ↔ (a ≡ b) }
    ensures policies { (a b : PolicyInformation) → (⟦<PolicyInformation as PartialEq>⟧.eq a b ≡ true) ↔ (a ≡ b) }
    ensures lists { (a b : CertificatePolicies) → (⟦<CertificatePolicies as PartialEq>⟧.eq a b ≡ true) ↔ (a ≡ b) }
{}

/// `==` of policy mappings and of policy constraints holds exactly of equal values.
#[tactic(auto, using(crate::specs::PolicyEquality::exact_policy_mapping, crate::specs::PolicyEquality::exact_policy_mappings, crate::specs::PolicyEquality::exact_policy_constraints, crate::specs::PolicyEquality::exact_inhibit_any_policy))]
pub fn equality_of_policy_constraints_is_exact()
    ensures mappings { (a b : PolicyMapping) → (⟦<PolicyMapping as PartialEq>⟧.eq a b ≡ true) ↔ (a ≡ b) }
    ensures lists { (a b : PolicyMappings) → (⟦<PolicyMappings as PartialEq>⟧.eq a b ≡ true) ↔ (a ≡ b) }
    ensures constraints { (a b : PolicyConstraints) → (⟦<PolicyConstraints as PartialEq>⟧.eq a b ≡ true) ↔ (a ≡ b) }
    ensures inhibitions { (a b : InhibitAnyPolicy) → (⟦<InhibitAnyPolicy as PartialEq>⟧.eq a b ≡ true) ↔ (a ≡ b) }
{}

/// What is encoded of a set of reasons, or of what holds one, is encoded as it is: decoding and encoding twice gives
/// the bytes of once. It is the premise of the laws of canonical form of
/// [`x509_der::laws`](x509_der::laws::writing_again_gives_the_same).
pub fn reasons_are_written_once()
    ensures reasons { IsStable ⟦<Reasons as Grammar>⟧.form.good ⟦<Reasons as Encode>⟧.writing }
    ensures point { IsStable ⟦<DistributionPoint as Grammar>⟧.form.good ⟦<DistributionPoint as Encode>⟧.writing }
    ensures points { IsStable ⟦<CrlDistributionPoints as Grammar>⟧.form.good ⟦<CrlDistributionPoints as Encode>⟧.writing }
    ensures freshest { IsStable ⟦<FreshestCrl as Grammar>⟧.form.good ⟦<FreshestCrl as Encode>⟧.writing }
    ensures issuing { IsStable ⟦<IssuingDistributionPoint as Grammar>⟧.form.good ⟦<IssuingDistributionPoint as Encode>⟧.writing }
{}

/// `==` of name constraints and of the subtrees in them holds exactly of equal values.
#[tactic(auto, using(crate::specs::RevocationEquality::exact_general_subtree, crate::specs::RevocationEquality::exact_name_constraints))]
pub fn equality_of_name_constraints_is_exact()
    ensures subtrees { (a b : GeneralSubtree) → (⟦<GeneralSubtree as PartialEq>⟧.eq a b ≡ true) ↔ (a ≡ b) }
    ensures constraints { (a b : NameConstraints) → (⟦<NameConstraints as PartialEq>⟧.eq a b ≡ true) ↔ (a ≡ b) }
{}

/// `==` of distribution points, of the extensions of CRLs and of those of their entries holds exactly of equal values:
/// of sets of reasons, where they have the same bits.
#[tactic(auto, using(crate::specs::RevocationEquality::exact_reasons, crate::specs::RevocationEquality::exact_distribution_point, crate::specs::RevocationEquality::exact_crl_distribution_points, crate::specs::RevocationEquality::exact_freshest_crl, crate::specs::RevocationEquality::exact_issuing_distribution_point, crate::specs::RevocationEquality::exact_crl_number, crate::specs::RevocationEquality::exact_base_crl_number, crate::specs::RevocationEquality::exact_crl_reason, crate::specs::RevocationEquality::exact_certificate_issuer))]
pub fn equality_of_crl_extensions_is_exact()
    ensures reason_sets { (a b : Reasons) → (⟦<Reasons as PartialEq>⟧.eq a b ≡ true) ↔ (a ≡ b) }
    ensures points { (a b : DistributionPoint) → (⟦<DistributionPoint as PartialEq>⟧.eq a b ≡ true) ↔ (a ≡ b) }
    ensures lists { (a b : CrlDistributionPoints) → (⟦<CrlDistributionPoints as PartialEq>⟧.eq a b ≡ true) ↔ (a ≡ b) }
    ensures freshest { (a b : FreshestCrl) → (⟦<FreshestCrl as PartialEq>⟧.eq a b ≡ true) ↔ (a ≡ b) }
    ensures issuing { (a b : IssuingDistributionPoint) → (⟦<IssuingDistributionPoint as PartialEq>⟧.eq a b ≡ true) ↔ (a ≡ b) }
    ensures numbers { (a b : CrlNumber) → (⟦<CrlNumber as PartialEq>⟧.eq a b ≡ true) ↔ (a ≡ b) }
    ensures base_numbers { (a b : BaseCrlNumber) → (⟦<BaseCrlNumber as PartialEq>⟧.eq a b ≡ true) ↔ (a ≡ b) }
    ensures reasons { (a b : CrlReason) → (⟦<CrlReason as PartialEq>⟧.eq a b ≡ true) ↔ (a ≡ b) }
    ensures issuers { (a b : CertificateIssuer) → (⟦<CertificateIssuer as PartialEq>⟧.eq a b ≡ true) ↔ (a ≡ b) }
{}
