//! The values that rules look at. Each is `None` where there isn't one extension of the type that can be decoded.

ghost use Rattle.std.specs.List.{list_any};
ghost use Rattle.std.specs.Prelude.{◌≡◌, IfOk, IfErr};
ghost use Rattle.x509_der.specs.declared.error.ErrorKind.TheVariants.{Memory};
ghost use Rattle.x509_lint.specs.Words.{passes};
ghost use Rattle.x509_lint_web.specs.CommonName as common_name;
ghost use Rattle.x509_lint_web.specs.Label.{is_other_name};
ghost use Rattle.x509_lint_web.specs.Values.{AreKeyValues, AreNameValues, AreWebValues};
ghost use Rattle.x509_lint_web.specs.Words.{AreValuesOf, IsSpelled};
ghost use Rattle.x509_lint_web.specs.declared.common_names.CommonNameFault.TheVariants.{Stray, Rewritten};

use crate::common_names::{CommonNameFault, has_odd_name};
use crate::keys::key_facts;
use crate::labels::has_other_labels;
use std::alloc::{AllocError, Global};
use x509_base::{Raw, SubjectPublicKeyInfo};
use x509_cert::certificate::CertificateInner;
use x509_der::{Decode, Error, ErrorKind, SequenceOf};
use x509_ext::Extension;
use x509_ext::pkix::{
    AuthorityInfoAccessSyntax, AuthorityKeyIdentifier, CertificatePolicies, CrlDistributionPoints,
    ExtendedKeyUsage, KeyUsage, NameConstraints, SubjectAltName, SubjectKeyIdentifier,
};
use x509_lint::AnyBasicConstraints;
use x509_lint::extensions::{extensions_of, payload};
use x509_name::name::Name;
use x509_prim::Uint;

/// The values of extensions, and of the key.
pub(crate) struct WebValues {
    pub(crate) basic_constraints: Option<AnyBasicConstraints>,
    pub(crate) key_usage: Option<KeyUsage>,
    pub(crate) extended_key_usage: Option<ExtendedKeyUsage>,
    pub(crate) subject_alt_name: Option<SubjectAltName>,
    pub(crate) authority_key_identifier: Option<AuthorityKeyIdentifier>,
    pub(crate) certificate_policies: Option<CertificatePolicies>,
    pub(crate) crl_distribution_points: Option<CrlDistributionPoints>,
    pub(crate) authority_info_access: Option<AuthorityInfoAccessSyntax>,
    pub(crate) subject_key_identifier: Option<SubjectKeyIdentifier>,
    pub(crate) name_constraints: Option<NameConstraints>,

    /// The numbers of the key, where its bits are a SEQUENCE OF INTEGER.
    pub(crate) rsa_numbers: Option<SequenceOf<Uint>>,

    /// Fermat's factorization factors the modulus of an RSAPublicKey.
    pub(crate) has_close_factors: bool,

    /// The key is an uncompressed point, which isn't on the curve that its parameters name.
    pub(crate) has_point_off_curve: bool,

    /// The SAN is read, and a commonName of the subject is no name of it.
    pub(crate) has_stray_name: bool,

    /// The SAN is read, and a commonName of the subject is a name of it, and is written otherwise.
    pub(crate) has_rewritten_name: bool,

    /// The SAN is read, and a dNSName of it has a label that begins with `xn--` and isn't one of IDNA.
    pub(crate) has_other_labels: bool,
}

impl Drop for WebValues {
    fn drop(self) {
        let WebValues {
            basic_constraints: _,
            key_usage: _,
            extended_key_usage: _,
            subject_alt_name: _,
            authority_key_identifier: _,
            certificate_policies: _,
            crl_distribution_points: _,
            authority_info_access: _,
            subject_key_identifier: _,
            name_constraints: _,
            rsa_numbers: _,
            has_close_factors: _,
            has_point_off_curve: _,
            has_stray_name: _,
            has_rewritten_name: _,
            has_other_labels: _,
        } = self;
    }
}

/// The value whose encoding the octets are; `None` where they are that of none.
fn spelled<T: Decode + Drop>(alloc: Global, octets: &[u8]) -> Result<Option<T>, Error>
    ensures ok { IfOk result (IsSpelled T.form octets.now) }
    ensures err { IfErr result (λ e. e.kind ≡ Memory) }
{
    match T::from_der(alloc, octets) {
        Ok(value) => Ok(Some(value)),
        Err(e) => match e.kind() {
            ErrorKind::Memory => Err(e),
            _ => Ok(None),
        },
    }
}

/// What the SAN and a subject show.
#[derive(Clone, Copy)]
struct NameFacts {
    has_stray_name: bool,
    has_rewritten_name: bool,
    has_other_labels: bool,
}

fn name_facts(
    alloc: Global,
    names: &Option<SubjectAltName>,
    subject: &Name,
) -> Result<NameFacts, AllocError>
    ensures { IfOk result (λ f. (f.has_stray_name ≡ passes (λ s. common_name.has_odd_name Stray s.0 subject.now) names.now)
        × (f.has_rewritten_name ≡ passes (λ s. common_name.has_odd_name Rewritten s.0 subject.now) names.now)
        × (f.has_other_labels ≡ passes (λ s. list_any is_other_name s.0) names.now)) }
{
    Ok(NameFacts {
        has_stray_name: has_odd_name(alloc, CommonNameFault::Stray, names, subject)?,
        has_rewritten_name: has_odd_name(alloc, CommonNameFault::Rewritten, names, subject)?,
        has_other_labels: has_other_labels(alloc, names)?,
    })
}

/// The values of extensions, of a key and of a subject. Those that own no memory come first, as each failure lets go of those that do.
fn values_of(
    alloc: Global,
    extensions: &[Extension],
    key: &SubjectPublicKeyInfo,
    subject: &Name,
) -> Result<WebValues, Error>
    ensures ok { IfOk result (λ v. AreValuesOf extensions.now key.now v × AreKeyValues key.now v × AreNameValues subject.now v) }
    ensures err { IfErr result (λ e. e.kind ≡ Memory) }
{
    let key_usage = payload(alloc, extensions)?;
    let subject_alt_name = payload(alloc, extensions)?;
    let name_facts = name_facts(alloc, &subject_alt_name, subject)?;
    let rsa_numbers = spelled(alloc, key.subject_public_key.raw_bytes())?;
    let key_facts = key_facts(key, &rsa_numbers);
    Ok(WebValues {
        basic_constraints: payload(alloc, extensions)?,
        key_usage,
        extended_key_usage: payload(alloc, extensions)?,
        subject_alt_name,
        authority_key_identifier: payload(alloc, extensions)?,
        certificate_policies: payload(alloc, extensions)?,
        crl_distribution_points: payload(alloc, extensions)?,
        authority_info_access: payload(alloc, extensions)?,
        subject_key_identifier: payload(alloc, extensions)?,
        name_constraints: payload(alloc, extensions)?,
        rsa_numbers,
        has_close_factors: key_facts.has_close_factors,
        has_point_off_curve: key_facts.has_point_off_curve,
        has_stray_name: name_facts.has_stray_name,
        has_rewritten_name: name_facts.has_rewritten_name,
        has_other_labels: name_facts.has_other_labels,
    })
}

/// The values of a certificate.
pub(crate) fn web_values(
    alloc: Global,
    certificate: &CertificateInner<Raw>,
) -> Result<WebValues, Error>
    ensures ok { IfOk result (AreWebValues certificate.now) }
    ensures err { IfErr result (λ e. e.kind ≡ Memory) }
{
    let part = certificate.tbs_certificate();
    let key = part.subject_public_key_info();
    let subject = part.subject();
    values_of(alloc, extensions_of(certificate), key, subject)
}
