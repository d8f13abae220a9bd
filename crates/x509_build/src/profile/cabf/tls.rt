//! Profiles for TLS servers and for the authorities above them (Baseline Requirements 7.1.2.6, 7.1.2.7).

ghost use Rattle.std.specs.Prelude.{◌≡◌, IfOk, IfErr};
ghost use Rattle.x509_build.specs.Domain.{domain_attributes, domain_name, is_domain_type};
ghost use Rattle.x509_build.specs.Profiles.{usages_for};
ghost use Rattle.x509_build.specs.declared.profile.cabf.tls.CertificateType.TheVariants as types;
ghost use Rattle.x509_build.specs.Refusals.{LacksMemory};
ghost use Rattle.x509_der.specs.declared.error.ErrorKind.TheVariants.{Memory};

use crate::profile::BuilderProfile;
use crate::profile::lists::{
    push_authority_key, push_constraints, push_key_usage, push_purposes, push_subject_key,
};
use crate::profile::usages::{ca_usages, subscriber_usages};
use crate::{Error, Result};
use std::alloc::Global;
use x509_base::SubjectPublicKeyInfoRef;
use x509_cert::certificate::TbsCertificate;
use x509_der::{Error as DerError, ObjectIdentifier, TryClone};
use x509_ext::Extension;
use x509_ext::pkix::KeyUsages;
use x509_ext::pkix::name::GeneralNames;
use x509_name::attr::attribute_types::{COMMON_NAME, COUNTRY_NAME};
use x509_name::laws::attributes_make_the_rdn;
use x509_name::name::{Name, RdnSequence, RelativeDistinguishedName};

/// The profile of a subordinate certification authority for TLS (Baseline Requirements 7.1.2.6).
///
/// Its certificates have these extensions, in this order: AKI of the issuer's key; BasicConstraints of an authority;
/// KeyUsage with keyCertSign and cRLSign, and with digitalSignature where the authority signs OCSP responses; SKI;
/// ExtendedKeyUsage with serverAuth, and with clientAuth where asked for.
#[derive(Drop)]
pub struct Subordinate {
    /// The issuer of the certificate.
    pub issuer: Name,

    /// The subject of the certificate.
    pub subject: Name,

    /// How many authorities may stand below, at most; any number where absent (RFC 5280 4.2.1.9).
    pub path_len_constraint: Option<u8>,

    /// Whether the authority signs OCSP responses with this key.
    pub emits_ocsp_response: bool,

    /// Whether it may issue client certificates.
    pub client_auth: bool,
}

impl TryClone for Subordinate {
    fn try_clone(&self, alloc: Global) -> std::result::Result<Subordinate, DerError> {
        Ok(Subordinate {
            issuer: self.issuer.try_clone(alloc)?,
            subject: self.subject.try_clone(alloc)?,
            path_len_constraint: self.path_len_constraint,
            emits_ocsp_response: self.emits_ocsp_response,
            client_auth: self.client_auth,
        })
    }
}

impl BuilderProfile for Subordinate {
    ghost use Rattle.x509_build.specs.Profiles.{given, subordinate_list};

    ghost issuer_of = { λ subordinate subject. given subordinate.issuer };

    ghost subject_of = { λ subordinate. given subordinate.subject };

    ghost extensions_of = { λ subordinate key issuer_key part. subordinate_list subordinate key issuer_key };

    fn get_issuer(&self, alloc: Global, _subject: &Name) -> Result<Name> {
        Ok(self.issuer.try_clone(alloc)?)
    }

    fn get_subject(&self, alloc: Global) -> Result<Name> {
        Ok(self.subject.try_clone(alloc)?)
    }

    fn build_extensions(
        &self,
        alloc: Global,
        spk: SubjectPublicKeyInfoRef<'_>,
        issuer_spk: SubjectPublicKeyInfoRef<'_>,
        tbs: &TbsCertificate,
    ) -> Result<Vec<Extension>> {
        let subject = tbs.subject();
        let mut extensions = Vec::new(alloc);
        push_authority_key(alloc, &mut extensions, subject, issuer_spk)?;
        push_constraints(
            alloc,
            &mut extensions,
            subject,
            true,
            self.path_len_constraint,
        )?;
        let usages = ca_usages(self.emits_ocsp_response);
        push_key_usage(alloc, &mut extensions, subject, usages)?;
        push_subject_key(alloc, &mut extensions, subject, spk)?;
        push_purposes(alloc, &mut extensions, subject, self.client_auth)?;
        Ok(extensions)
    }
}

/// What was validated of a subscriber (Baseline Requirements 7.1.2.7). Only for a domain validated one the subject is
/// known here.
#[derive(Debug, PartialEq, Eq)]
pub enum CertificateType {
    /// Control of the domains alone.
    DomainValidated(DomainValidated),

    /// A person.
    IndividualValidated,

    /// An organization.
    OrganizationValidated,

    /// An organization, under the extended validation guidelines.
    ExtendedValidation,
}

impl Drop for CertificateType {
    fn drop(self) {
        match self {
            CertificateType::DomainValidated(_) => {}
            CertificateType::IndividualValidated => {}
            CertificateType::OrganizationValidated => {}
            CertificateType::ExtendedValidation => {}
        }
    }
}

/// A subscriber of whom only control of the domains was validated (Baseline Requirements 7.1.2.7.2).
#[derive(Debug, Drop, PartialEq, Eq)]
pub struct DomainValidated {
    subject: Name,
    names: GeneralNames,
}

#[tactic(auto, unfolding(crate::specs::Domain::is_domain_type, x509_der::specs::Arcs::subidentifier))]
fn is_domain_type(oid: ObjectIdentifier) -> bool
    ensures { result ≡ is_domain_type oid }
{
    oid == COUNTRY_NAME || oid == COMMON_NAME
}

/// The attributes that such a subscriber may have.
fn domain_attributes(
    alloc: Global,
    rdn: &RelativeDistinguishedName,
) -> std::result::Result<RelativeDistinguishedName, DerError>
    ensures ok { IfOk result (λ kept. kept ≡ domain_attributes rdn.now) }
    ensures err { IfErr result (λ e. e.kind ≡ Memory) }
{
    attributes_make_the_rdn();
    let attributes = rdn.as_slice();
    let mut kept = Vec::new(alloc);
    for attribute in attributes {
        if is_domain_type(attribute.oid) {
            kept.push(attribute.try_clone(alloc)?)?;
        }
    }
    RelativeDistinguishedName::try_from_vec(kept)
}

/// The RDNs of such attributes.
fn domain_rdns(alloc: Global, subject: &Name) -> std::result::Result<RdnSequence, DerError>
    ensures ok { IfOk result (λ rdns. rdns ≡ domain_name subject.now) }
    ensures err { IfErr result (λ e. e.kind ≡ Memory) }
{
    let relative_names = subject.as_ref().as_slice();
    let mut rdns = RdnSequence::new(alloc);
    for rdn in relative_names {
        let kept = domain_attributes(alloc, rdn)?;
        if !kept.is_empty() {
            rdns.push(kept)?;
        }
    }
    Ok(rdns)
}

impl CertificateType {
    /// The type of a subscriber of whom control of the domains `names` was validated. Of the subject only the
    /// attributes countryName and commonName are kept, in their order, and each relative distinguished name (RDN) that
    /// has neither is dropped (Baseline Requirements 7.1.2.7.2). The names are kept; no extension is made of them here.
    ///
    /// # Errors
    ///
    /// `Asn1` of `Memory` when out of memory, and nothing else.
    pub fn domain_validated(
        alloc: Global,
        subject: Name,
        names: GeneralNames,
    ) -> Result<CertificateType>
        ensures ok { IfOk result (λ kind. kind ≡ types.DomainValidated (record { subject = domain_name subject; names = names })) }
        ensures err { IfErr result LacksMemory }
    {
        let rdns = domain_rdns(alloc, &subject)?;
        Ok(CertificateType::DomainValidated(DomainValidated {
            subject: Name::hazmat_from_rdn_sequence(rdns),
            names,
        }))
    }
}

impl TryClone for DomainValidated {
    fn try_clone(&self, alloc: Global) -> std::result::Result<DomainValidated, DerError> {
        Ok(DomainValidated {
            subject: self.subject.try_clone(alloc)?,
            names: self.names.try_clone(alloc)?,
        })
    }
}

impl TryClone for CertificateType {
    fn try_clone(&self, alloc: Global) -> std::result::Result<CertificateType, DerError> {
        Ok(match self {
            CertificateType::DomainValidated(validated) => {
                CertificateType::DomainValidated(validated.try_clone(alloc)?)
            }
            CertificateType::IndividualValidated => CertificateType::IndividualValidated,
            CertificateType::OrganizationValidated => CertificateType::OrganizationValidated,
            CertificateType::ExtendedValidation => CertificateType::ExtendedValidation,
        })
    }
}

/// What TLS 1.2 asks of keys beside signing (RFC 5246 7.4.2). Other versions of TLS want neither.
#[derive(Drop)]
pub struct Tls12Options {
    /// Whether an RSA key may encipher keys, as the key exchanges RSA and RSA_PSK want it.
    pub enable_key_encipherment: bool,

    /// Whether an elliptic curve key may agree on keys, as the key exchanges that aren't ephemeral want it.
    pub enable_key_agreement: bool,
}

impl TryClone for Tls12Options {
    fn try_clone(&self, _alloc: Global) -> std::result::Result<Tls12Options, DerError> {
        Ok(Tls12Options {
            enable_key_encipherment: self.enable_key_encipherment,
            enable_key_agreement: self.enable_key_agreement,
        })
    }
}

/// Neither is enabled.
impl Default for Tls12Options {
    ghost use Rattle.std.specs.Prelude.{false};

    ghost is_default = { λ options. options ≡ record { enable_key_encipherment = false; enable_key_agreement = false } };

    fn default() -> Tls12Options {
        Tls12Options {
            enable_key_encipherment: false,
            enable_key_agreement: false,
        }
    }
}

/// The profile of a TLS server (Baseline Requirements 7.1.2.7).
///
/// Its certificates have these extensions, in this order: AKI of the issuer's key; ExtendedKeyUsage with serverAuth,
/// and with clientAuth where asked for; BasicConstraints of an end entity; KeyUsage with digitalSignature, for an RSA
/// key also with dataEncipherment and keyEncipherment where these are enabled, for an elliptic curve key also with
/// keyAgreement where that is enabled. The SAN is left to the caller.
pub struct Subscriber {
    /// What was validated of the subscriber.
    pub certificate_type: CertificateType,

    /// The issuer of the certificate.
    pub issuer: Name,

    /// Whether the key may be that of a TLS client too.
    pub client_auth: bool,

    /// The key usages for TLS 1.2.
    pub tls12_options: Tls12Options,

    /// Whether an RSA key may encipher data.
    pub enable_data_encipherment: bool,
}

impl Drop for Subscriber {
    fn drop(self) {
        let Subscriber {
            certificate_type: _,
            issuer: _,
            client_auth: _,
            tls12_options: _,
            enable_data_encipherment: _,
        } = self;
    }
}

impl Subscriber {
    /// The key usages for that key.
    fn usages(&self, key: SubjectPublicKeyInfoRef<'_>) -> KeyUsages
        ensures { result.0 ≡ usages_for self.now key.entry.algorithm.now.oid }
    {
        let is_rsa = key.is_rsa();
        let is_ecc = key.is_ecc();
        subscriber_usages(
            is_rsa && self.enable_data_encipherment,
            is_rsa && self.tls12_options.enable_key_encipherment,
            is_ecc && self.tls12_options.enable_key_agreement,
        )
    }
}

impl TryClone for Subscriber {
    fn try_clone(&self, alloc: Global) -> std::result::Result<Subscriber, DerError> {
        Ok(Subscriber {
            certificate_type: self.certificate_type.try_clone(alloc)?,
            issuer: self.issuer.try_clone(alloc)?,
            client_auth: self.client_auth,
            tls12_options: self.tls12_options.try_clone(alloc)?,
            enable_data_encipherment: self.enable_data_encipherment,
        })
    }
}

impl BuilderProfile for Subscriber {
    ghost use Rattle.x509_build.specs.Profiles.{given, subject_of_type, subscriber_list};

    ghost issuer_of = { λ subscriber subject. given subscriber.issuer };

    ghost subject_of = { λ subscriber. subject_of_type subscriber.certificate_type };

    ghost extensions_of = { λ subscriber key issuer_key part. subscriber_list subscriber key issuer_key };

    fn get_issuer(&self, alloc: Global, _subject: &Name) -> Result<Name> {
        Ok(self.issuer.try_clone(alloc)?)
    }

    fn get_subject(&self, alloc: Global) -> Result<Name> {
        match &self.certificate_type {
            CertificateType::DomainValidated(validated) => Ok(validated.subject.try_clone(alloc)?),
            CertificateType::IndividualValidated => Err(Error::UnsupportedKind),
            CertificateType::OrganizationValidated => Err(Error::UnsupportedKind),
            CertificateType::ExtendedValidation => Err(Error::UnsupportedKind),
        }
    }

    fn build_extensions(
        &self,
        alloc: Global,
        spk: SubjectPublicKeyInfoRef<'_>,
        issuer_spk: SubjectPublicKeyInfoRef<'_>,
        tbs: &TbsCertificate,
    ) -> Result<Vec<Extension>> {
        let subject = tbs.subject();
        let mut extensions = Vec::new(alloc);
        push_authority_key(alloc, &mut extensions, subject, issuer_spk)?;
        push_purposes(alloc, &mut extensions, subject, self.client_auth)?;
        push_constraints(alloc, &mut extensions, subject, false, None)?;
        push_key_usage(alloc, &mut extensions, subject, self.usages(spk))?;
        Ok(extensions)
    }
}
