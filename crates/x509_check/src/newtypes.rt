//! Types with one field.

use crate::check::Check;
use crate::content::{CheckContent, check_inner};
use x509_cert::request::ExtensionReq;
use x509_der::{Error, FixedTag, Newtype};
use x509_ext::pkix::{
    AuthorityInfoAccessSyntax, BaseCrlNumber, CertificateIssuer, CertificatePolicies,
    CrlDistributionPoints, CrlNumber, ExtendedKeyUsage, FreshestCrl, InhibitAnyPolicy,
    IssuerAltName, KeyUsage, PolicyMappings, SubjectAltName, SubjectDirectoryAttributes,
    SubjectInfoAccessSyntax, SubjectKeyIdentifier,
};
use x509_sct::SignedCertificateTimestampList;

/// A type with one field that is checked as that field is. From it comes [`CheckContent`].
pub trait NewtypeCheck: Newtype {}

impl<T: NewtypeCheck> CheckContent for T
where
    T::Inner: FixedTag + Check,
{
    #[inline(always)]
    fn check_content(octets: &[u8]) -> Result<(), Error> {
        check_inner::<T>(octets)
    }
}

impl NewtypeCheck for AuthorityInfoAccessSyntax {}

impl NewtypeCheck for BaseCrlNumber {}

impl NewtypeCheck for CertificateIssuer {}

impl NewtypeCheck for CertificatePolicies {}

impl NewtypeCheck for CrlDistributionPoints {}

impl NewtypeCheck for CrlNumber {}

impl NewtypeCheck for ExtendedKeyUsage {}

impl NewtypeCheck for ExtensionReq {}

impl NewtypeCheck for FreshestCrl {}

impl NewtypeCheck for InhibitAnyPolicy {}

impl NewtypeCheck for IssuerAltName {}

impl NewtypeCheck for KeyUsage {}

impl NewtypeCheck for PolicyMappings {}

impl NewtypeCheck for SignedCertificateTimestampList {}

impl NewtypeCheck for SubjectAltName {}

impl NewtypeCheck for SubjectDirectoryAttributes {}

impl NewtypeCheck for SubjectInfoAccessSyntax {}

impl NewtypeCheck for SubjectKeyIdentifier {}
