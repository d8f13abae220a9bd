//! The values of extensions that rules look at. Each is `None` where there isn't one extension of the type that can be
//! decoded.

ghost use Rattle.std.specs.Prelude.{◌≡◌, IfOk, IfErr};
ghost use Rattle.x509_der.specs.declared.error.ErrorKind.TheVariants.{Memory};
ghost use Rattle.x509_lint.specs.Values.{AreAlternativeValues, AreAuthorityValues, AreConstraintValues, AreCrlValues, AreKeyValues, AreNoticeFaults, ArePointValues, ArePolicyValues, ArePublicKeyValues};

use crate::asserted::has_unasserted;
use crate::basic_constraints::AnyBasicConstraints;
use crate::extensions::{extensions_of, payload, spelled};
use crate::group::Values;
use crate::labels::{has_unnormalized_issuer, has_unnormalized_subject};
use crate::notices::{NoticeFault, has_faulty_notice};
use crate::repeats::{are_policies_distinct, policies_of};
use crate::skip_certs::AnyPolicyConstraints;
use std::alloc::Global;
use x509_base::Raw;
use x509_cert::certificate::CertificateInner;
use x509_der::{Error, SequenceOf};
use x509_ext::Extension;
use x509_ext::pkix::{
    AuthorityInfoAccessSyntax, AuthorityKeyIdentifier, CertificatePolicies, CrlDistributionPoints,
    CrlNumber, ExtendedKeyUsage, FreshestCrl, IssuerAltName, IssuingDistributionPoint, KeyUsage,
    NameConstraints, PolicyMappings, PrivateKeyUsagePeriod, SubjectAltName,
    SubjectDirectoryAttributes, SubjectInfoAccessSyntax,
};
use x509_prim::Uint;

/// The basic constraints and the key usage of a certificate, by which it is or isn't one of a certification authority (CA), and the name constraints that such
/// a one may have.
pub(crate) struct AuthorityValues {
    pub(crate) basic_constraints: Option<AnyBasicConstraints>,
    pub(crate) key_usage: Option<KeyUsage>,
    pub(crate) name_constraints: Option<NameConstraints>,
}

impl Drop for AuthorityValues {
    fn drop(self) {
        let AuthorityValues {
            basic_constraints: _,
            key_usage: _,
            name_constraints: _,
        } = self;
    }
}

fn authority_values(alloc: Global, extensions: &[Extension]) -> Result<AuthorityValues, Error>
    ensures ok { IfOk result (AreAuthorityValues extensions.now) }
    ensures err { IfErr result (λ e. e.kind ≡ Memory) }
{
    Ok(AuthorityValues {
        basic_constraints: payload(alloc, extensions)?,
        key_usage: payload(alloc, extensions)?,
        name_constraints: payload(alloc, extensions)?,
    })
}

impl Values for AuthorityValues {
    ghost use Rattle.x509_lint.specs.Values.{AreAuthorityValues};
    ghost use Rattle.x509_lint.specs.Words.{extensions_of};

    ghost are_values = { λ certificate. AreAuthorityValues (extensions_of certificate) };

    fn values_of(
        alloc: Global,
        certificate: &CertificateInner<Raw>,
    ) -> Result<AuthorityValues, Error> {
        authority_values(alloc, extensions_of(certificate))
    }
}

/// Key identifiers, extended key usage and the private key usage period.
pub(crate) struct KeyValues {
    pub(crate) authority_key_identifier: Option<AuthorityKeyIdentifier>,
    pub(crate) extended_key_usage: Option<ExtendedKeyUsage>,
    pub(crate) private_key_usage_period: Option<PrivateKeyUsagePeriod>,
}

impl Drop for KeyValues {
    fn drop(self) {
        let KeyValues {
            authority_key_identifier: _,
            extended_key_usage: _,
            private_key_usage_period: _,
        } = self;
    }
}

fn key_values(alloc: Global, extensions: &[Extension]) -> Result<KeyValues, Error>
    ensures ok { IfOk result (AreKeyValues extensions.now) }
    ensures err { IfErr result (λ e. e.kind ≡ Memory) }
{
    Ok(KeyValues {
        authority_key_identifier: payload(alloc, extensions)?,
        extended_key_usage: payload(alloc, extensions)?,
        private_key_usage_period: payload(alloc, extensions)?,
    })
}

impl Values for KeyValues {
    ghost use Rattle.x509_lint.specs.Values.{AreKeyValues};
    ghost use Rattle.x509_lint.specs.Words.{extensions_of};

    ghost are_values = { λ certificate. AreKeyValues (extensions_of certificate) };

    fn values_of(alloc: Global, certificate: &CertificateInner<Raw>) -> Result<KeyValues, Error> {
        key_values(alloc, extensions_of(certificate))
    }
}

/// The alternative names of the subject and the issuer.
pub(crate) struct AlternativeValues {
    pub(crate) subject_alt_name: Option<SubjectAltName>,
    pub(crate) issuer_alt_name: Option<IssuerAltName>,

    /// A dNSName of the subject has a label of IDNA whose text isn't in Normalization Form C, and one of the issuer.
    pub(crate) has_unnormalized_subject: bool,
    pub(crate) has_unnormalized_issuer: bool,
}

impl Drop for AlternativeValues {
    fn drop(self) {
        let AlternativeValues {
            subject_alt_name: _,
            issuer_alt_name: _,
            has_unnormalized_subject: _,
            has_unnormalized_issuer: _,
        } = self;
    }
}

fn alternative_values(alloc: Global, extensions: &[Extension]) -> Result<AlternativeValues, Error>
    ensures ok { IfOk result (AreAlternativeValues extensions.now) }
    ensures err { IfErr result (λ e. e.kind ≡ Memory) }
{
    let subject_alt_name = payload(alloc, extensions)?;
    let issuer_alt_name = payload(alloc, extensions)?;
    Ok(AlternativeValues {
        has_unnormalized_subject: has_unnormalized_subject(alloc, &subject_alt_name)?,
        has_unnormalized_issuer: has_unnormalized_issuer(alloc, &issuer_alt_name)?,
        subject_alt_name,
        issuer_alt_name,
    })
}

impl Values for AlternativeValues {
    ghost use Rattle.x509_lint.specs.Values.{AreAlternativeValues};
    ghost use Rattle.x509_lint.specs.Words.{extensions_of};

    ghost are_values = { λ certificate. AreAlternativeValues (extensions_of certificate) };

    fn values_of(
        alloc: Global,
        certificate: &CertificateInner<Raw>,
    ) -> Result<AlternativeValues, Error> {
        alternative_values(alloc, extensions_of(certificate))
    }
}

/// Certificate policies, policy mappings and policy constraints.
pub(crate) struct PolicyValues {
    pub(crate) certificate_policies: Option<CertificatePolicies>,
    pub(crate) policy_mappings: Option<PolicyMappings>,
    pub(crate) policy_constraints: Option<AnyPolicyConstraints>,

    /// No policy is there twice.
    pub(crate) are_policies_distinct: bool,

    /// What is wrong with user notices among the qualifiers.
    pub(crate) notices: NoticeFaults,

    /// The issuerDomainPolicy of some mapping is none of the policies.
    pub(crate) has_unasserted_mapping: bool,
}

impl Drop for PolicyValues {
    fn drop(self) {
        let PolicyValues {
            certificate_policies: _,
            policy_mappings: _,
            policy_constraints: _,
            are_policies_distinct: _,
            notices: _,
            has_unasserted_mapping: _,
        } = self;
    }
}

/// Which faults some user notice among the qualifiers has.
#[derive(Clone, Copy)]
pub(crate) struct NoticeFaults {
    /// One has an explicit text over 200 characters.
    pub(crate) has_long_text: bool,

    /// One has an explicit text of no characters.
    pub(crate) has_empty_text: bool,

    /// One has an explicit text that is a VisibleString or a BMPString.
    pub(crate) has_old_text: bool,

    /// One has an explicit text that is an IA5String.
    pub(crate) has_ia5_text: bool,

    /// One has an explicit text with a control character.
    pub(crate) has_control: bool,

    /// One has a noticeRef.
    pub(crate) has_reference: bool,

    /// One has an explicit text that is a UTF8String and isn't in Unicode Normalization Form C.
    pub(crate) has_unnormalized: bool,

    /// The qualifier of one isn't a user notice.
    pub(crate) has_unread_notice: bool,
}

fn notice_faults(
    alloc: Global,
    policies: &Option<CertificatePolicies>,
) -> Result<NoticeFaults, Error>
    ensures ok { IfOk result (AreNoticeFaults policies.now) }
    ensures err { IfErr result (λ e. e.kind ≡ Memory) }
{
    Ok(NoticeFaults {
        has_long_text: has_faulty_notice(alloc, NoticeFault::Long, policies)?,
        has_empty_text: has_faulty_notice(alloc, NoticeFault::NoText, policies)?,
        has_old_text: has_faulty_notice(alloc, NoticeFault::OldType, policies)?,
        has_ia5_text: has_faulty_notice(alloc, NoticeFault::Ia5Type, policies)?,
        has_control: has_faulty_notice(alloc, NoticeFault::Control, policies)?,
        has_reference: has_faulty_notice(alloc, NoticeFault::Reference, policies)?,
        has_unnormalized: has_faulty_notice(alloc, NoticeFault::Unnormalized, policies)?,
        has_unread_notice: has_faulty_notice(alloc, NoticeFault::Unread, policies)?,
    })
}

fn policy_values(alloc: Global, extensions: &[Extension]) -> Result<PolicyValues, Error>
    ensures ok { IfOk result (ArePolicyValues extensions.now) }
    ensures err { IfErr result (λ e. e.kind ≡ Memory) }
{
    let certificate_policies = payload(alloc, extensions)?;
    let are_policies_distinct = are_policies_distinct(alloc, &certificate_policies)?;
    let notices = notice_faults(alloc, &certificate_policies)?;
    let policy_mappings = payload(alloc, extensions)?;
    let has_unasserted_mapping = has_unasserted(
        alloc,
        policies_of(&certificate_policies),
        &policy_mappings,
    )?;
    Ok(PolicyValues {
        certificate_policies,
        policy_mappings,
        policy_constraints: payload(alloc, extensions)?,
        are_policies_distinct,
        notices,
        has_unasserted_mapping,
    })
}

impl Values for PolicyValues {
    ghost use Rattle.x509_lint.specs.Values.{ArePolicyValues};
    ghost use Rattle.x509_lint.specs.Words.{extensions_of};

    ghost are_values = { λ certificate. ArePolicyValues (extensions_of certificate) };

    fn values_of(
        alloc: Global,
        certificate: &CertificateInner<Raw>,
    ) -> Result<PolicyValues, Error> {
        policy_values(alloc, extensions_of(certificate))
    }
}

/// Name constraints.
pub(crate) struct ConstraintValues {
    pub(crate) name_constraints: Option<NameConstraints>,
}

impl Drop for ConstraintValues {
    fn drop(self) {
        let ConstraintValues {
            name_constraints: _,
        } = self;
    }
}

fn constraint_values(alloc: Global, extensions: &[Extension]) -> Result<ConstraintValues, Error>
    ensures ok { IfOk result (AreConstraintValues extensions.now) }
    ensures err { IfErr result (λ e. e.kind ≡ Memory) }
{
    Ok(ConstraintValues {
        name_constraints: payload(alloc, extensions)?,
    })
}

impl Values for ConstraintValues {
    ghost use Rattle.x509_lint.specs.Values.{AreConstraintValues};
    ghost use Rattle.x509_lint.specs.Words.{extensions_of};

    ghost are_values = { λ certificate. AreConstraintValues (extensions_of certificate) };

    fn values_of(
        alloc: Global,
        certificate: &CertificateInner<Raw>,
    ) -> Result<ConstraintValues, Error> {
        constraint_values(alloc, extensions_of(certificate))
    }
}

/// Lists of attributes, of CRL distribution points and of access descriptions.
pub(crate) struct PointValues {
    pub(crate) subject_directory_attributes: Option<SubjectDirectoryAttributes>,
    pub(crate) crl_distribution_points: Option<CrlDistributionPoints>,
    pub(crate) freshest_crl: Option<FreshestCrl>,
    pub(crate) authority_info_access: Option<AuthorityInfoAccessSyntax>,
    pub(crate) subject_info_access: Option<SubjectInfoAccessSyntax>,
}

impl Drop for PointValues {
    fn drop(self) {
        let PointValues {
            subject_directory_attributes: _,
            crl_distribution_points: _,
            freshest_crl: _,
            authority_info_access: _,
            subject_info_access: _,
        } = self;
    }
}

fn point_values(alloc: Global, extensions: &[Extension]) -> Result<PointValues, Error>
    ensures ok { IfOk result (ArePointValues extensions.now) }
    ensures err { IfErr result (λ e. e.kind ≡ Memory) }
{
    Ok(PointValues {
        subject_directory_attributes: payload(alloc, extensions)?,
        crl_distribution_points: payload(alloc, extensions)?,
        freshest_crl: payload(alloc, extensions)?,
        authority_info_access: payload(alloc, extensions)?,
        subject_info_access: payload(alloc, extensions)?,
    })
}

impl Values for PointValues {
    ghost use Rattle.x509_lint.specs.Values.{ArePointValues};
    ghost use Rattle.x509_lint.specs.Words.{extensions_of};

    ghost are_values = { λ certificate. ArePointValues (extensions_of certificate) };

    fn values_of(alloc: Global, certificate: &CertificateInner<Raw>) -> Result<PointValues, Error> {
        point_values(alloc, extensions_of(certificate))
    }
}

/// The numbers of the public key, and what it may be used for.
pub(crate) struct PublicKeyValues {
    /// The numbers, where the octets of the key are a SEQUENCE OF INTEGER.
    pub(crate) key_numbers: Option<SequenceOf<Uint>>,
    pub(crate) key_usage: Option<KeyUsage>,
}

impl Drop for PublicKeyValues {
    fn drop(self) {
        let PublicKeyValues {
            key_numbers: _,
            key_usage: _,
        } = self;
    }
}

fn public_key_values(
    alloc: Global,
    certificate: &CertificateInner<Raw>,
) -> Result<PublicKeyValues, Error>
    ensures ok { IfOk result (ArePublicKeyValues certificate.now) }
    ensures err { IfErr result (λ e. e.kind ≡ Memory) }
{
    let key = certificate.tbs_certificate().subject_public_key_info();
    Ok(PublicKeyValues {
        key_numbers: spelled(alloc, key.subject_public_key.raw_bytes())?,
        key_usage: payload(alloc, extensions_of(certificate))?,
    })
}

impl Values for PublicKeyValues {
    ghost use Rattle.x509_lint.specs.Values.{ArePublicKeyValues};

    ghost are_values = { ArePublicKeyValues };

    fn values_of(
        alloc: Global,
        certificate: &CertificateInner<Raw>,
    ) -> Result<PublicKeyValues, Error> {
        public_key_values(alloc, certificate)
    }
}

/// The extensions of a CRL.
pub(crate) struct CrlValues {
    pub(crate) authority_key_identifier: Option<AuthorityKeyIdentifier>,
    pub(crate) crl_number: Option<CrlNumber>,
    pub(crate) issuing_distribution_point: Option<IssuingDistributionPoint>,
    pub(crate) freshest_crl: Option<FreshestCrl>,
    pub(crate) authority_info_access: Option<AuthorityInfoAccessSyntax>,
}

impl Drop for CrlValues {
    fn drop(self) {
        let CrlValues {
            authority_key_identifier: _,
            crl_number: _,
            issuing_distribution_point: _,
            freshest_crl: _,
            authority_info_access: _,
        } = self;
    }
}

pub(crate) fn crl_values(alloc: Global, extensions: &[Extension]) -> Result<CrlValues, Error>
    ensures ok { IfOk result (AreCrlValues extensions.now) }
    ensures err { IfErr result (λ e. e.kind ≡ Memory) }
{
    Ok(CrlValues {
        authority_key_identifier: payload(alloc, extensions)?,
        crl_number: payload(alloc, extensions)?,
        issuing_distribution_point: payload(alloc, extensions)?,
        freshest_crl: payload(alloc, extensions)?,
        authority_info_access: payload(alloc, extensions)?,
    })
}
