//! Which types of extensions are right: the octets of each extension of the type are an encoding of the type that RFC 5280 or another standard has for its OID, or they
//! have what this library can't hold.

ghost use Rattle.std.specs.List.{All};
ghost use Rattle.std.specs.Prelude.{◌≡◌, ◌↔◌, IfErr, IfOk, IsTrue};
ghost use Rattle.x509_der.specs.Form.{Spells};
ghost use Rattle.x509_der.specs.declared.error.ErrorKind.TheVariants.{Memory};
ghost use Rattle.x509_lint.specs.Read.{AreExtensionsRead, AreKeysRead, AreNamesRead, AreOthersRead, ArePoliciesRead, IsCrlRead, IsRight, IsWellFormedAs, is_crl_read, is_read};

use crate::basic_constraints::AnyBasicConstraints;
use crate::beyond::{Beyond, has_beyond};
use crate::other_types::{OcspNoCheck, PrecertificatePoison, QcStatements, TlsFeatures, are_null};
use crate::rule::{CrlExtensionKind, ExtensionKind};
use crate::skip_certs::{AnyInhibitAnyPolicy, AnyPolicyConstraints};
use std::alloc::Global;
use x509_der::{AssociatedOid, Decode, Error, ErrorKind};
use x509_ext::Extension;
use x509_ext::pkix::{
    AuthorityInfoAccessSyntax, AuthorityKeyIdentifier, BaseCrlNumber, CertificatePolicies,
    CrlDistributionPoints, CrlNumber, ExtendedKeyUsage, FreshestCrl, IssuerAltName,
    IssuingDistributionPoint, KeyUsage, NameConstraints, PolicyMappings, PrivateKeyUsagePeriod,
    SubjectAltName, SubjectDirectoryAttributes, SubjectInfoAccessSyntax, SubjectKeyIdentifier,
};

/// Which of the types of keys, of their use, and of basic constraints are read.
#[derive(Clone, Copy)]
pub(crate) struct KeysRead {
    pub(crate) authority_key_identifier: bool,
    pub(crate) subject_key_identifier: bool,
    pub(crate) key_usage: bool,
    pub(crate) extended_key_usage: bool,
    pub(crate) private_key_usage_period: bool,
    pub(crate) basic_constraints: bool,
}

/// Which of the types of names, attributes and access are read.
#[derive(Clone, Copy)]
pub(crate) struct NamesRead {
    pub(crate) subject_alt_name: bool,
    pub(crate) issuer_alt_name: bool,
    pub(crate) subject_directory_attributes: bool,
    pub(crate) name_constraints: bool,
    pub(crate) authority_info_access: bool,
    pub(crate) subject_info_access: bool,
}

/// Which of the types of policies and distribution points are read.
#[derive(Clone, Copy)]
pub(crate) struct PoliciesRead {
    pub(crate) certificate_policies: bool,
    pub(crate) policy_mappings: bool,
    pub(crate) policy_constraints: bool,
    pub(crate) inhibit_any_policy: bool,
    pub(crate) crl_distribution_points: bool,
    pub(crate) freshest_crl: bool,
}

/// Which of the types that other standards have are read.
#[derive(Clone, Copy)]
pub(crate) struct OthersRead {
    pub(crate) ocsp_no_check: bool,
    pub(crate) precertificate_poison: bool,
    pub(crate) tls_features: bool,
    pub(crate) qc_statements: bool,
}

/// Which of the types that certificates have are read.
#[derive(Clone, Copy)]
pub(crate) struct ExtensionsRead {
    pub(crate) keys: KeysRead,
    pub(crate) names: NamesRead,
    pub(crate) policies: PoliciesRead,
    pub(crate) others: OthersRead,
}

/// Which of the types that CRLs have are read.
#[derive(Clone, Copy)]
pub(crate) struct CrlRead {
    pub(crate) authority_key_identifier: bool,
    pub(crate) issuer_alt_name: bool,
    pub(crate) crl_number: bool,
    pub(crate) delta_crl_indicator: bool,
    pub(crate) issuing_distribution_point: bool,
    pub(crate) freshest_crl: bool,
    pub(crate) authority_info_access: bool,
}

/// Whether the octets are an encoding of the type.
fn is_decodable<T: Decode + Drop>(alloc: Global, octets: &[u8]) -> Result<bool, Error>
    ensures ok { IfOk result (λ b. IsTrue b ↔ ((value : T) × Spells T.form value octets.now)) }
    ensures err { IfErr result (λ e. e.kind ≡ Memory) }
{
    match T::from_der(alloc, octets) {
        Ok(_) => Ok(true),
        Err(e) => match e.kind() {
            ErrorKind::Memory => Err(ErrorKind::Memory.into()),
            _ => Ok(false),
        },
    }
}

/// Whether they are, or have what can't be held.
fn is_right<T: Decode + Drop>(alloc: Global, beyond: Beyond, octets: &[u8]) -> Result<bool, Error>
    ensures ok { IfOk result (λ b. IsTrue b ↔ IsRight T.form beyond octets.now) }
    ensures err { IfErr result (λ e. e.kind ≡ Memory) }
{
    let is_decodable = is_decodable::<T>(alloc, octets)?;
    if is_decodable {
        return Ok(true);
    }
    Ok(has_beyond(beyond, octets))
}

/// Whether that holds of the octets of the extension, where it has the OID of the type.
fn is_well_formed_as<T: AssociatedOid + Decode + Drop>(
    alloc: Global,
    beyond: Beyond,
    extension: &Extension,
) -> Result<bool, Error>
    ensures ok { IfOk result (λ b. IsTrue b ↔ IsWellFormedAs T.form beyond T.OID extension.now) }
    ensures err { IfErr result (λ e. e.kind ≡ Memory) }
{
    if extension.extn_id != T::OID {
        return Ok(true);
    }
    is_right::<T>(alloc, beyond, extension.extn_value.as_bytes())
}

/// Whether that holds of each extension.
fn are_read<T: AssociatedOid + Decode + Drop>(
    alloc: Global,
    beyond: Beyond,
    extensions: &[Extension],
) -> Result<bool, Error>
    ensures ok { IfOk result (λ b. IsTrue b ↔ All (IsWellFormedAs T.form beyond T.OID) extensions.now) }
    ensures err { IfErr result (λ e. e.kind ≡ Memory) }
{
    for extension in extensions {
        if !is_well_formed_as::<T>(alloc, beyond, extension)? {
            return Ok(false);
        }
    }
    Ok(true)
}

#[tactic(auto, unfolding(crate::specs::Read::AreKeysRead))]
fn keys_read(alloc: Global, extensions: &[Extension]) -> Result<KeysRead, Error>
    ensures ok { IfOk result (AreKeysRead extensions.now) }
    ensures err { IfErr result (λ e. e.kind ≡ Memory) }
{
    Ok(KeysRead {
        authority_key_identifier: are_read::<AuthorityKeyIdentifier>(
            alloc,
            Beyond::Names,
            extensions,
        )?,
        subject_key_identifier: are_read::<SubjectKeyIdentifier>(
            alloc,
            Beyond::Nothing,
            extensions,
        )?,
        key_usage: are_read::<KeyUsage>(alloc, Beyond::Nothing, extensions)?,
        extended_key_usage: are_read::<ExtendedKeyUsage>(alloc, Beyond::Identifiers, extensions)?,
        private_key_usage_period: are_read::<PrivateKeyUsagePeriod>(
            alloc,
            Beyond::Nothing,
            extensions,
        )?,
        basic_constraints: are_read::<AnyBasicConstraints>(alloc, Beyond::Nothing, extensions)?,
    })
}

#[tactic(auto, unfolding(crate::specs::Read::AreNamesRead))]
fn names_read(alloc: Global, extensions: &[Extension]) -> Result<NamesRead, Error>
    ensures ok { IfOk result (AreNamesRead extensions.now) }
    ensures err { IfErr result (λ e. e.kind ≡ Memory) }
{
    Ok(NamesRead {
        subject_alt_name: are_read::<SubjectAltName>(alloc, Beyond::Names, extensions)?,
        issuer_alt_name: are_read::<IssuerAltName>(alloc, Beyond::Names, extensions)?,
        subject_directory_attributes: are_read::<SubjectDirectoryAttributes>(
            alloc,
            Beyond::Identifiers,
            extensions,
        )?,
        name_constraints: are_read::<NameConstraints>(alloc, Beyond::Names, extensions)?,
        authority_info_access: are_read::<AuthorityInfoAccessSyntax>(
            alloc,
            Beyond::Names,
            extensions,
        )?,
        subject_info_access: are_read::<SubjectInfoAccessSyntax>(alloc, Beyond::Names, extensions)?,
    })
}

#[tactic(auto, unfolding(crate::specs::Read::ArePoliciesRead))]
fn policies_read(alloc: Global, extensions: &[Extension]) -> Result<PoliciesRead, Error>
    ensures ok { IfOk result (ArePoliciesRead extensions.now) }
    ensures err { IfErr result (λ e. e.kind ≡ Memory) }
{
    Ok(PoliciesRead {
        certificate_policies: are_read::<CertificatePolicies>(
            alloc,
            Beyond::Identifiers,
            extensions,
        )?,
        policy_mappings: are_read::<PolicyMappings>(alloc, Beyond::Identifiers, extensions)?,
        policy_constraints: are_read::<AnyPolicyConstraints>(alloc, Beyond::Nothing, extensions)?,
        inhibit_any_policy: are_read::<AnyInhibitAnyPolicy>(alloc, Beyond::Nothing, extensions)?,
        crl_distribution_points: are_read::<CrlDistributionPoints>(
            alloc,
            Beyond::Names,
            extensions,
        )?,
        freshest_crl: are_read::<FreshestCrl>(alloc, Beyond::Names, extensions)?,
    })
}

#[tactic(auto, unfolding(crate::specs::Read::AreOthersRead))]
fn others_read(alloc: Global, extensions: &[Extension]) -> Result<OthersRead, Error>
    ensures ok { IfOk result (AreOthersRead extensions.now) }
    ensures err { IfErr result (λ e. e.kind ≡ Memory) }
{
    Ok(OthersRead {
        ocsp_no_check: are_null::<OcspNoCheck>(extensions),
        precertificate_poison: are_null::<PrecertificatePoison>(extensions),
        tls_features: are_read::<TlsFeatures>(alloc, Beyond::Nothing, extensions)?,
        qc_statements: are_read::<QcStatements>(alloc, Beyond::Identifiers, extensions)?,
    })
}

/// Which of the types that certificates have are read.
pub(crate) fn extensions_read(
    alloc: Global,
    extensions: &[Extension],
) -> Result<ExtensionsRead, Error>
    ensures ok { IfOk result (AreExtensionsRead extensions.now) }
    ensures err { IfErr result (λ e. e.kind ≡ Memory) }
{
    Ok(ExtensionsRead {
        keys: keys_read(alloc, extensions)?,
        names: names_read(alloc, extensions)?,
        policies: policies_read(alloc, extensions)?,
        others: others_read(alloc, extensions)?,
    })
}

/// Which of the types that CRLs have are read.
#[tactic(auto, unfolding(crate::specs::Read::IsCrlRead))]
pub(crate) fn crl_read(alloc: Global, extensions: &[Extension]) -> Result<CrlRead, Error>
    ensures ok { IfOk result (IsCrlRead extensions.now) }
    ensures err { IfErr result (λ e. e.kind ≡ Memory) }
{
    Ok(CrlRead {
        authority_key_identifier: are_read::<AuthorityKeyIdentifier>(
            alloc,
            Beyond::Names,
            extensions,
        )?,
        issuer_alt_name: are_read::<IssuerAltName>(alloc, Beyond::Names, extensions)?,
        crl_number: are_read::<CrlNumber>(alloc, Beyond::Nothing, extensions)?,
        delta_crl_indicator: are_read::<BaseCrlNumber>(alloc, Beyond::Nothing, extensions)?,
        issuing_distribution_point: are_read::<IssuingDistributionPoint>(
            alloc,
            Beyond::Names,
            extensions,
        )?,
        freshest_crl: are_read::<FreshestCrl>(alloc, Beyond::Names, extensions)?,
        authority_info_access: are_read::<AuthorityInfoAccessSyntax>(
            alloc,
            Beyond::Names,
            extensions,
        )?,
    })
}

impl ExtensionsRead {
    /// Whether the type is read.
    pub(crate) fn is_read(&self, kind: ExtensionKind) -> bool
        ensures { result ≡ is_read self.now kind }
    {
        match kind {
            ExtensionKind::AuthorityKeyIdentifier => self.keys.authority_key_identifier,
            ExtensionKind::SubjectKeyIdentifier => self.keys.subject_key_identifier,
            ExtensionKind::KeyUsage => self.keys.key_usage,
            ExtensionKind::ExtendedKeyUsage => self.keys.extended_key_usage,
            ExtensionKind::PrivateKeyUsagePeriod => self.keys.private_key_usage_period,
            ExtensionKind::BasicConstraints => self.keys.basic_constraints,
            ExtensionKind::SubjectAltName => self.names.subject_alt_name,
            ExtensionKind::IssuerAltName => self.names.issuer_alt_name,
            ExtensionKind::SubjectDirectoryAttributes => self.names.subject_directory_attributes,
            ExtensionKind::NameConstraints => self.names.name_constraints,
            ExtensionKind::AuthorityInfoAccess => self.names.authority_info_access,
            ExtensionKind::SubjectInfoAccess => self.names.subject_info_access,
            ExtensionKind::CertificatePolicies => self.policies.certificate_policies,
            ExtensionKind::PolicyMappings => self.policies.policy_mappings,
            ExtensionKind::PolicyConstraints => self.policies.policy_constraints,
            ExtensionKind::InhibitAnyPolicy => self.policies.inhibit_any_policy,
            ExtensionKind::CrlDistributionPoints => self.policies.crl_distribution_points,
            ExtensionKind::FreshestCrl => self.policies.freshest_crl,
            ExtensionKind::OcspNoCheck => self.others.ocsp_no_check,
            ExtensionKind::PrecertificatePoison => self.others.precertificate_poison,
            ExtensionKind::TlsFeatures => self.others.tls_features,
            ExtensionKind::QcStatements => self.others.qc_statements,
        }
    }
}

impl CrlRead {
    /// Whether the type is read.
    pub(crate) fn is_read(&self, kind: CrlExtensionKind) -> bool
        ensures { result ≡ is_crl_read self.now kind }
    {
        match kind {
            CrlExtensionKind::AuthorityKeyIdentifier => self.authority_key_identifier,
            CrlExtensionKind::IssuerAltName => self.issuer_alt_name,
            CrlExtensionKind::CrlNumber => self.crl_number,
            CrlExtensionKind::DeltaCrlIndicator => self.delta_crl_indicator,
            CrlExtensionKind::IssuingDistributionPoint => self.issuing_distribution_point,
            CrlExtensionKind::FreshestCrl => self.freshest_crl,
            CrlExtensionKind::AuthorityInfoAccess => self.authority_info_access,
        }
    }
}
