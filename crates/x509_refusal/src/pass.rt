//! Whether a field can be read.

ghost use Rattle.std.specs.Prelude.{◌≤◌, length};
ghost use Rattle.x509_der.specs.Element.{limit};
ghost use Rattle.x509_refusal.specs.Unread.{Leaves, behind};

use crate::field::Field;
use x509_base::{AlgorithmIdentifier, Raw, SerialNumber, SubjectPublicKeyInfo, Time, Validity};
use x509_cert::certificate::{CertificateInner, TbsCertificateInner, Version};
use x509_cert::crl::{CertificateList, RevokedCert, TbsCertList};
use x509_cert::request;
use x509_cert::request::{CertReq, CertReqInfo};
use x509_check::{
    check_defaulted_explicit, check_field, check_implicit, check_optional, check_optional_explicit,
    check_optional_implicit,
};
use x509_der::{Error, SequenceOf};
use x509_ext::{Extension, Extensions};
use x509_name::attr::Attributes;
use x509_name::name::Name;
use x509_prim::BitString;

/// Passes over a field at the front of `rest`, of which there are at most [`Length::MAX`](x509_der::Length::MAX) octets.
///
/// # Errors
///
/// That of the field, exactly where it can't be read there.
#[tactic(auto, using(crate::proofs::Passing::passes_over), unfolding(crate::specs::Unread::behind))]
pub(crate) fn pass(field: Field, rest: &mut &[u8]) -> Result<(), Error>
    requires { length rest.old.now ≤ limit }
    ensures exact { Leaves result rest.new.now (behind field rest.old.now) }
    ensures left { length rest.new.now ≤ length rest.old.now }
{
    match field {
        Field::Certificate => check_field::<CertificateInner<Raw>>(rest),
        Field::TbsCertificate => check_field::<TbsCertificateInner<Raw>>(rest),
        Field::Version => check_defaulted_explicit::<Version>(0, rest),
        Field::SerialNumber => check_field::<SerialNumber<Raw>>(rest),
        Field::Signature => check_field::<AlgorithmIdentifier>(rest),
        Field::Issuer => check_field::<Name>(rest),
        Field::Validity => check_field::<Validity<Raw>>(rest),
        Field::NotBefore => check_field::<Time>(rest),
        Field::NotAfter => check_field::<Time>(rest),
        Field::Subject => check_field::<Name>(rest),
        Field::SubjectPublicKeyInfo => check_field::<SubjectPublicKeyInfo>(rest),
        Field::IssuerUniqueId => check_optional_implicit::<BitString>(1, rest),
        Field::SubjectUniqueId => check_optional_implicit::<BitString>(2, rest),
        Field::Extensions => check_optional_explicit::<Extensions>(3, rest),
        Field::ExtensionList => check_field::<Extensions>(rest),
        Field::Extension => check_field::<Extension>(rest),
        Field::SignatureAlgorithm => check_field::<AlgorithmIdentifier>(rest),
        Field::SignatureValue => check_field::<BitString>(rest),
        Field::CertificateList => check_field::<CertificateList<Raw>>(rest),
        Field::TbsCertList => check_field::<TbsCertList<Raw>>(rest),
        Field::CrlVersion => check_optional::<Version>(rest),
        Field::CrlSignature => check_field::<AlgorithmIdentifier>(rest),
        Field::CrlIssuer => check_field::<Name>(rest),
        Field::ThisUpdate => check_field::<Time>(rest),
        Field::NextUpdate => check_optional::<Time>(rest),
        Field::RevokedCertificates => check_optional::<SequenceOf<RevokedCert<Raw>>>(rest),
        Field::RevokedCertificate => check_field::<RevokedCert<Raw>>(rest),
        Field::CrlExtensions => check_optional_explicit::<Extensions>(0, rest),
        Field::CrlExtensionList => check_field::<Extensions>(rest),
        Field::CrlExtension => check_field::<Extension>(rest),
        Field::CertificationRequest => check_field::<CertReq>(rest),
        Field::CertificationRequestInfo => check_field::<CertReqInfo>(rest),
        Field::RequestVersion => check_field::<request::Version>(rest),
        Field::RequestSubject => check_field::<Name>(rest),
        Field::SubjectPkInfo => check_field::<SubjectPublicKeyInfo>(rest),
        Field::Attributes => check_implicit::<Attributes>(0, rest),
        Field::RequestSignature => check_field::<BitString>(rest),
    }
}
