//! The paths of the library. Each function but the tests compiles only where its paths name the types behind them, or the traits that
//! the function which it calls wants.

use bitflags::Flags;
use std::test::*;
use x509_base::{DateTime, GeneralizedTime, Raw, Rfc5280, Time, UtcTime, Validity};
use x509_cert::certificate::{CertificateInner, TbsCertificateInner};
use x509_cert::ext::pkix;
use x509_cert::{anchor, attr, certificate, crl, der, ext, name, request};
use x509_der::{Any, ObjectIdentifier, SequenceOf, SetOfVec};
use x509_prim::{
    BitString, BmpString, Ia5String, Int, OctetString, PrintableString, TeletexString, Uint,
    Utf8String, VisibleString,
};

/// Certificates, trust anchors and CRLs, attributes and names.
fn objects(
    it: &(
        (
            x509_cert::Certificate,
            x509_cert::PkiPath,
            x509_cert::TbsCertificate,
            x509_cert::Version,
            x509_cert::AlgorithmIdentifier,
            x509_cert::SubjectPublicKeyInfo,
        ),
        (
            certificate::Certificate,
            certificate::CertificateInner,
            certificate::PkiPath,
            certificate::TbsCertificate,
            certificate::TbsCertificateInner,
            certificate::Version,
            certificate::Rfc5280,
            certificate::Raw,
        ),
        (
            anchor::CertPathControls,
            anchor::CertPolicies,
            anchor::CertPolicyFlags,
            anchor::TrustAnchorChoice,
            anchor::TrustAnchorInfo,
            anchor::CertificateInner,
        ),
        (crl::CertificateList, crl::RevokedCert, crl::TbsCertList),
        (
            attr::Attribute,
            attr::AttributeType,
            attr::AttributeTypeAndValue,
            attr::AttributeValue,
            attr::Attributes,
        ),
        (
            name::DistinguishedName,
            name::Name,
            name::RdnSequence,
            name::RelativeDistinguishedName,
        ),
    ),
) -> &(
    (
        CertificateInner<Rfc5280>,
        SequenceOf<CertificateInner<Rfc5280>>,
        TbsCertificateInner<Rfc5280>,
        x509_cert::certificate::Version,
        x509_base::AlgorithmIdentifier,
        x509_base::SubjectPublicKeyInfo,
    ),
    (
        CertificateInner<Rfc5280>,
        CertificateInner<Rfc5280>,
        SequenceOf<CertificateInner<Rfc5280>>,
        TbsCertificateInner<Rfc5280>,
        TbsCertificateInner<Rfc5280>,
        x509_cert::certificate::Version,
        Rfc5280,
        Raw,
    ),
    (
        x509_cert::anchor::CertPathControls<Rfc5280>,
        x509_cert::anchor::CertPolicies,
        x509_cert::anchor::CertPolicies,
        x509_cert::anchor::TrustAnchorChoice<Rfc5280>,
        x509_cert::anchor::TrustAnchorInfo<Rfc5280>,
        CertificateInner<Rfc5280>,
    ),
    (
        crl::CertificateList<Rfc5280>,
        crl::RevokedCert<Rfc5280>,
        crl::TbsCertList<Rfc5280>,
    ),
    (
        x509_name::attr::Attribute,
        ObjectIdentifier,
        x509_name::attr::AttributeTypeAndValue,
        Any,
        SetOfVec<x509_name::attr::Attribute>,
    ),
    (
        x509_name::name::RdnSequence,
        x509_name::name::Name,
        x509_name::name::RdnSequence,
        x509_name::name::RelativeDistinguishedName,
    ),
) {
    it
}

/// What decoding and encoding answer and take, types of ASN.1, and what stands in certificates.
fn parts(
    it: &(
        (
            der::Error,
            der::ErrorKind,
            der::Header,
            der::Length,
            der::Tag,
            der::TagNumber,
        ),
        (
            der::asn1::Any,
            der::asn1::BitString,
            der::asn1::GeneralizedTime,
            der::asn1::Int,
            der::asn1::ObjectIdentifier,
            der::asn1::OctetString,
            der::asn1::SequenceOf<u8>,
            der::asn1::SetOfVec<u8>,
            der::asn1::Uint,
            der::asn1::UtcTime,
        ),
        (
            der::asn1::BmpString,
            der::asn1::Ia5String,
            der::asn1::PrintableString,
            der::asn1::TeletexString,
            der::asn1::Utf8String,
            der::asn1::VisibleString,
        ),
        (
            x509_cert::serial_number::SerialNumber,
            x509_cert::spki::AlgorithmIdentifier,
            x509_cert::spki::ObjectIdentifier,
            x509_cert::spki::SubjectPublicKeyInfo,
            x509_cert::time::DateTime,
            x509_cert::time::Time,
            x509_cert::time::Validity,
        ),
    ),
) -> &(
    (
        x509_der::Error,
        x509_der::ErrorKind,
        x509_der::Header,
        x509_der::Length,
        x509_der::Tag,
        x509_der::TagNumber,
    ),
    (
        Any,
        BitString,
        GeneralizedTime,
        Int,
        ObjectIdentifier,
        OctetString,
        SequenceOf<u8>,
        SetOfVec<u8>,
        Uint,
        UtcTime,
    ),
    (
        BmpString,
        Ia5String,
        PrintableString,
        TeletexString,
        Utf8String,
        VisibleString,
    ),
    (
        x509_base::SerialNumber<Rfc5280>,
        x509_base::AlgorithmIdentifier,
        ObjectIdentifier,
        x509_base::SubjectPublicKeyInfo,
        DateTime,
        Time,
        Validity<Rfc5280>,
    ),
) {
    it
}

/// How extensions stand in certificates; those about keys, subjects and issuers, and policies.
fn extensions(
    it: &(
        (ext::Extension, ext::Extensions),
        (
            pkix::AuthorityKeyIdentifier,
            pkix::BasicConstraints,
            pkix::constraints::BasicConstraints,
            pkix::ExtendedKeyUsage,
            pkix::KeyUsage,
            pkix::KeyUsages,
            pkix::PrivateKeyUsagePeriod,
            pkix::SubjectKeyIdentifier,
        ),
        (
            pkix::AccessDescription,
            pkix::AuthorityInfoAccessSyntax,
            pkix::IssuerAltName,
            pkix::SubjectAltName,
            pkix::SubjectDirectoryAttributes,
            pkix::SubjectInfoAccessSyntax,
        ),
        (
            pkix::CertificatePolicies,
            pkix::InhibitAnyPolicy,
            pkix::PolicyConstraints,
            pkix::constraints::PolicyConstraints,
            pkix::PolicyMapping,
            pkix::PolicyMappings,
        ),
        (
            pkix::certpolicy::CertificatePolicies,
            pkix::certpolicy::CpsUri,
            pkix::certpolicy::DisplayText,
            pkix::certpolicy::NoticeReference,
            pkix::certpolicy::PolicyInformation,
            pkix::certpolicy::PolicyQualifierInfo,
            pkix::certpolicy::UserNotice,
        ),
    ),
) -> &(
    (x509_ext::Extension, SequenceOf<x509_ext::Extension>),
    (
        x509_ext::pkix::AuthorityKeyIdentifier,
        x509_ext::pkix::BasicConstraints,
        x509_ext::pkix::BasicConstraints,
        x509_ext::pkix::ExtendedKeyUsage,
        x509_ext::pkix::KeyUsage,
        x509_ext::pkix::KeyUsages,
        x509_ext::pkix::PrivateKeyUsagePeriod,
        x509_ext::pkix::SubjectKeyIdentifier,
    ),
    (
        x509_ext::pkix::AccessDescription,
        x509_ext::pkix::AuthorityInfoAccessSyntax,
        x509_ext::pkix::IssuerAltName,
        x509_ext::pkix::SubjectAltName,
        x509_ext::pkix::SubjectDirectoryAttributes,
        x509_ext::pkix::SubjectInfoAccessSyntax,
    ),
    (
        x509_ext::pkix::CertificatePolicies,
        x509_ext::pkix::InhibitAnyPolicy,
        x509_ext::pkix::PolicyConstraints,
        x509_ext::pkix::PolicyConstraints,
        x509_ext::pkix::PolicyMapping,
        x509_ext::pkix::PolicyMappings,
    ),
    (
        x509_ext::pkix::CertificatePolicies,
        x509_ext::pkix::certpolicy::CpsUri,
        x509_ext::pkix::certpolicy::DisplayText,
        x509_ext::pkix::certpolicy::NoticeReference,
        x509_ext::pkix::certpolicy::PolicyInformation,
        x509_ext::pkix::certpolicy::PolicyQualifierInfo,
        x509_ext::pkix::certpolicy::UserNotice,
    ),
) {
    it
}

/// Name constraints and general names, extensions of CRLs, by their module too, and CRL distribution points.
fn names_and_lists(
    it: &(
        (
            pkix::NameConstraints,
            pkix::constraints::NameConstraints,
            pkix::constraints::name::NameConstraints,
            pkix::constraints::name::GeneralSubtree,
            pkix::constraints::name::GeneralSubtrees,
        ),
        (
            pkix::name::DirectoryString,
            pkix::name::DistributionPointName,
            pkix::name::EdiPartyName,
            pkix::name::GeneralName,
            pkix::name::GeneralNames,
            pkix::name::HardwareModuleName,
            pkix::name::IpAddress,
            pkix::name::OtherName,
        ),
        (
            pkix::BaseCrlNumber,
            pkix::CertificateIssuer,
            pkix::CrlDistributionPoints,
            pkix::CrlNumber,
            pkix::CrlReason,
            pkix::FreshestCrl,
            pkix::IssuingDistributionPoint,
        ),
        (
            pkix::crl::BaseCrlNumber,
            pkix::crl::CertificateIssuer,
            pkix::crl::CrlDistributionPoints,
            pkix::crl::CrlNumber,
            pkix::crl::CrlReason,
            pkix::crl::FreshestCrl,
            pkix::crl::IssuingDistributionPoint,
        ),
        (
            pkix::crl::dp::DistributionPoint,
            pkix::crl::dp::IssuingDistributionPoint,
            pkix::crl::dp::ReasonFlags,
            pkix::crl::dp::Reasons,
        ),
    ),
) -> &(
    (
        x509_ext::pkix::NameConstraints,
        x509_ext::pkix::NameConstraints,
        x509_ext::pkix::NameConstraints,
        x509_ext::pkix::constraints::name::GeneralSubtree,
        SequenceOf<x509_ext::pkix::constraints::name::GeneralSubtree>,
    ),
    (
        x509_name::name::DirectoryString,
        x509_ext::pkix::name::DistributionPointName,
        x509_ext::pkix::name::EdiPartyName,
        x509_ext::pkix::name::GeneralName,
        SequenceOf<x509_ext::pkix::name::GeneralName>,
        x509_ext::pkix::name::HardwareModuleName,
        x509_ext::pkix::name::IpAddress,
        x509_ext::pkix::name::OtherName,
    ),
    (
        x509_ext::pkix::BaseCrlNumber,
        x509_ext::pkix::CertificateIssuer,
        x509_ext::pkix::CrlDistributionPoints,
        x509_ext::pkix::CrlNumber,
        x509_ext::pkix::CrlReason,
        x509_ext::pkix::FreshestCrl,
        x509_ext::pkix::IssuingDistributionPoint,
    ),
    (
        pkix::BaseCrlNumber,
        pkix::CertificateIssuer,
        pkix::CrlDistributionPoints,
        pkix::CrlNumber,
        pkix::CrlReason,
        pkix::FreshestCrl,
        pkix::IssuingDistributionPoint,
    ),
    (
        x509_ext::pkix::crl::dp::DistributionPoint,
        x509_ext::pkix::IssuingDistributionPoint,
        x509_ext::pkix::crl::dp::ReasonFlags,
        x509_ext::pkix::crl::dp::Reasons,
    ),
) {
    it
}

/// Signed certificate timestamps, by their module too, and what they hold.
fn timestamps(
    it: &(
        (
            pkix::Error,
            pkix::HashAlgorithm,
            pkix::SerializedSct,
            pkix::SignatureAlgorithm,
            pkix::SignatureAndHashAlgorithm,
            pkix::SignedCertificateTimestamp,
            pkix::SignedCertificateTimestampList,
            pkix::Version,
        ),
        (
            pkix::sct::DigitallySigned,
            pkix::sct::Error,
            pkix::sct::HashAlgorithm,
            pkix::sct::LogId,
            pkix::sct::SerializedSct,
            pkix::sct::SignatureAlgorithm,
            pkix::sct::SignatureAndHashAlgorithm,
            pkix::sct::SignedCertificateTimestamp,
            pkix::sct::SignedCertificateTimestampList,
            pkix::sct::TlsByteVecU16,
            pkix::sct::TlsError,
            pkix::sct::Version,
        ),
    ),
) -> &(
    (
        x509_sct::Error,
        x509_sct::HashAlgorithm,
        x509_sct::SerializedSct,
        x509_sct::SignatureAlgorithm,
        x509_sct::SignatureAndHashAlgorithm,
        x509_sct::SignedCertificateTimestamp,
        x509_sct::SignedCertificateTimestampList,
        x509_sct::Version,
    ),
    (
        x509_sct::DigitallySigned,
        pkix::Error,
        pkix::HashAlgorithm,
        x509_sct::LogId,
        pkix::SerializedSct,
        pkix::SignatureAlgorithm,
        pkix::SignatureAndHashAlgorithm,
        pkix::SignedCertificateTimestamp,
        pkix::SignedCertificateTimestampList,
        x509_sct::TlsByteVecU16,
        x509_sct::TlsError,
        pkix::Version,
    ),
) {
    it
}

/// The version of an anchor's description, which is another type than that of certificates; the parts of a CSR, and what it asks for.
fn parts_of_others<'a>(
    info: &'a anchor::TrustAnchorInfo,
    request: &'a request::CertReq,
    extensions: &'a request::ExtensionReq,
) -> (
    &'a anchor::Version,
    &'a request::CertReqInfo,
    &'a request::Version,
    &'a ext::Extensions,
) {
    (
        &info.version,
        &request.info,
        &request.info.version,
        &extensions.0,
    )
}

/// Wants the traits of decoding and encoding, and those of extensions, of profiles and of digests.
fn wants_traits<'a, T, E, P, D>()
where
    T: x509_der::AssociatedOid
        + x509_der::FromAny<'a>
        + x509_der::Decode
        + x509_der::Encode
        + x509_der::FixedTag
        + x509_der::TryClone
        + x509_der::DerOrd
        + x509_der::ValueOrd,
    E: x509_ext::Criticality + x509_ext::ToExtension,
    P: x509_base::Profile,
    D: x509_cert::certificate::CertDigest,
{}

/// These traits.
fn traits<'a, T, E, P, D>()
where
    T: der::AssociatedOid
        + der::FromAny<'a>
        + der::Decode
        + der::Encode
        + der::FixedTag
        + der::TryClone
        + der::DerOrd
        + der::ValueOrd,
    E: ext::Criticality + ext::ToExtension,
    P: certificate::Profile,
    D: certificate::CertDigest,
{
    wants_traits::<'a, T, E, P, D>();
}

/// The identifiers that stand alone (RFC 5280 4.2.1, RFC 4108 5).
#[test]
fn identifiers(rt: HostRuntime) {
    let answers = [
        pkix::ID_CE_ISSUER_ALT_NAME.as_bytes() == b"\x55\x1D\x12".as_slice(),
        pkix::ID_CE_SUBJECT_ALT_NAME.as_bytes() == b"\x55\x1D\x11".as_slice(),
        pkix::ID_CE_SUBJECT_DIRECTORY_ATTRIBUTES.as_bytes() == b"\x55\x1D\x09".as_slice(),
        pkix::ID_CE_SUBJECT_KEY_IDENTIFIER.as_bytes() == b"\x55\x1D\x0E".as_slice(),
        pkix::ID_CE_INHIBIT_ANY_POLICY.as_bytes() == b"\x55\x1D\x36".as_slice(),
        pkix::name::ID_ON_HARDWARE_MODULE_NAME.as_bytes()
            == b"\x2B\x06\x01\x05\x05\x07\x08\x04".as_slice(),
    ];
    assert!(rt; answers == [true; 6]);
}

/// The numbers that stand for versions and reasons, where a caller asks for them, and the bits of flags (RFC 5914 2.5).
#[test]
fn numbers(rt: HostRuntime) {
    let versions = [
        x509_cert::Version::V1 as u8,
        x509_cert::Version::V3 as u8,
        request::Version::V1 as u8,
        anchor::Version::V1 as u8,
    ];
    assert!(rt; versions == [0, 2, 0, 0]);
    let reasons = [
        pkix::CrlReason::Unspecified as u8,
        pkix::CrlReason::AaCompromise as u8,
    ];
    assert!(rt; reasons == [0, 10]);
    let flags = [
        anchor::CertPolicies::INHIBIT_POLICY_MAPPING.bits(),
        anchor::CertPolicies::REQUIRE_EXPLICIT_POLICY.bits(),
        anchor::CertPolicies::INHIBIT_ANY_POLICY.bits(),
    ];
    assert!(rt; flags == [1, 2, 4]);
}
