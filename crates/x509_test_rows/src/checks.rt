//! The checks of types, by the names of the types.

use x509_base::{
    AlgorithmIdentifier, GeneralizedTime, Profile, SerialNumber, SubjectPublicKeyInfo, Time,
    UtcTime, Validity,
};
use x509_cert::anchor::{CertPathControls, CertPolicies, TrustAnchorChoice, TrustAnchorInfo};
use x509_cert::certificate::{CertificateInner, TbsCertificateInner, Version};
use x509_cert::crl::{CertificateList, RevokedCert, TbsCertList};
use x509_cert::request::{CertReq, CertReqInfo, ExtensionReq};
use x509_check::Check;
use x509_der::{Any, Error, ErrorKind, ObjectIdentifier, SequenceOf};
use x509_ext::pkix::certpolicy::{
    DisplayText, NoticeReference, PolicyInformation, PolicyQualifierInfo, UserNotice,
};
use x509_ext::pkix::constraints::name::GeneralSubtree;
use x509_ext::pkix::crl::dp::{DistributionPoint, Reasons};
use x509_ext::pkix::name::{
    DistributionPointName, EdiPartyName, GeneralName, GeneralNames, HardwareModuleName, OtherName,
};
use x509_ext::pkix::{
    AccessDescription, AuthorityInfoAccessSyntax, AuthorityKeyIdentifier, BaseCrlNumber,
    BasicConstraints, CertificateIssuer, CertificatePolicies, CrlDistributionPoints, CrlNumber,
    CrlReason, ExtendedKeyUsage, FreshestCrl, InhibitAnyPolicy, IssuerAltName,
    IssuingDistributionPoint, KeyUsage, NameConstraints, PolicyConstraints, PolicyMapping,
    PolicyMappings, PrivateKeyUsagePeriod, SubjectAltName, SubjectDirectoryAttributes,
    SubjectInfoAccessSyntax, SubjectKeyIdentifier,
};
use x509_ext::{Extension, Extensions};
use x509_name::attr::{Attribute, AttributeTypeAndValue};
use x509_name::name::{DirectoryString, Name, RdnSequence, RelativeDistinguishedName};
use x509_prim::{
    BitString, BmpString, Ia5String, Int, OctetString, PrintableString, TeletexString, Uint,
    Utf8String, VisibleString,
};
use x509_sct::SignedCertificateTimestampList;

/// What the check of the type with that name says of the bytes under the profile; `Failed` where no type has the name. First the primitive types.
pub(crate) fn check_named<P: Profile>(name: &str, bytes: &[u8]) -> Result<(), Error> {
    match name {
        "Any" => Any::check(bytes),
        "BitString" => BitString::check(bytes),
        "BmpString" => BmpString::check(bytes),
        "Ia5String" => Ia5String::check(bytes),
        "Int" => Int::check(bytes),
        "ObjectIdentifier" => ObjectIdentifier::check(bytes),
        "OctetString" => OctetString::check(bytes),
        "PrintableString" => PrintableString::check(bytes),
        "TeletexString" => TeletexString::check(bytes),
        "Uint" => Uint::check(bytes),
        "Utf8String" => Utf8String::check(bytes),
        "VisibleString" => VisibleString::check(bytes),
        _ => base::<P>(name, bytes),
    }
}

/// Times, serial numbers, algorithms and keys.
fn base<P: Profile>(name: &str, bytes: &[u8]) -> Result<(), Error> {
    match name {
        "AlgorithmIdentifier" => AlgorithmIdentifier::check(bytes),
        "GeneralizedTime" => GeneralizedTime::check(bytes),
        "SerialNumber" => SerialNumber::<P>::check(bytes),
        "SubjectPublicKeyInfo" => SubjectPublicKeyInfo::check(bytes),
        "Time" => Time::check(bytes),
        "UtcTime" => UtcTime::check(bytes),
        "Validity" => Validity::<P>::check(bytes),
        _ => names::<P>(name, bytes),
    }
}

/// Names.
fn names<P: Profile>(name: &str, bytes: &[u8]) -> Result<(), Error> {
    match name {
        "Attribute" => Attribute::check(bytes),
        "AttributeTypeAndValue" => AttributeTypeAndValue::check(bytes),
        "DirectoryString" => DirectoryString::check(bytes),
        "Name" => Name::check(bytes),
        "RdnSequence" => RdnSequence::check(bytes),
        "RelativeDistinguishedName" => RelativeDistinguishedName::check(bytes),
        _ => extensions::<P>(name, bytes),
    }
}

/// Extensions, and payloads about keys.
fn extensions<P: Profile>(name: &str, bytes: &[u8]) -> Result<(), Error> {
    match name {
        "BasicConstraints" => BasicConstraints::check(bytes),
        "ExtendedKeyUsage" => ExtendedKeyUsage::check(bytes),
        "Extension" => Extension::check(bytes),
        "Extensions" => Extensions::check(bytes),
        "KeyUsage" => KeyUsage::check(bytes),
        "PrivateKeyUsagePeriod" => PrivateKeyUsagePeriod::check(bytes),
        "SubjectKeyIdentifier" => SubjectKeyIdentifier::check(bytes),
        _ => general_names::<P>(name, bytes),
    }
}

/// General names.
fn general_names<P: Profile>(name: &str, bytes: &[u8]) -> Result<(), Error> {
    match name {
        "DistributionPointName" => DistributionPointName::check(bytes),
        "EdiPartyName" => EdiPartyName::check(bytes),
        "GeneralName" => GeneralName::check(bytes),
        "GeneralNames" => GeneralNames::check(bytes),
        "HardwareModuleName" => HardwareModuleName::check(bytes),
        "OtherName" => OtherName::check(bytes),
        _ => parties::<P>(name, bytes),
    }
}

/// Payloads about subjects and issuers.
fn parties<P: Profile>(name: &str, bytes: &[u8]) -> Result<(), Error> {
    match name {
        "AccessDescription" => AccessDescription::check(bytes),
        "AuthorityInfoAccessSyntax" => AuthorityInfoAccessSyntax::check(bytes),
        "AuthorityKeyIdentifier" => AuthorityKeyIdentifier::check(bytes),
        "IssuerAltName" => IssuerAltName::check(bytes),
        "SubjectAltName" => SubjectAltName::check(bytes),
        "SubjectDirectoryAttributes" => SubjectDirectoryAttributes::check(bytes),
        "SubjectInfoAccessSyntax" => SubjectInfoAccessSyntax::check(bytes),
        _ => policies::<P>(name, bytes),
    }
}

/// Policies.
fn policies<P: Profile>(name: &str, bytes: &[u8]) -> Result<(), Error> {
    match name {
        "CertificatePolicies" => CertificatePolicies::check(bytes),
        "DisplayText" => DisplayText::check(bytes),
        "InhibitAnyPolicy" => InhibitAnyPolicy::check(bytes),
        "NoticeReference" => NoticeReference::check(bytes),
        "PolicyConstraints" => PolicyConstraints::check(bytes),
        "PolicyInformation" => PolicyInformation::check(bytes),
        "PolicyMapping" => PolicyMapping::check(bytes),
        "PolicyMappings" => PolicyMappings::check(bytes),
        "PolicyQualifierInfo" => PolicyQualifierInfo::check(bytes),
        "UserNotice" => UserNotice::check(bytes),
        _ => constraints::<P>(name, bytes),
    }
}

/// Constraints and distribution points.
fn constraints<P: Profile>(name: &str, bytes: &[u8]) -> Result<(), Error> {
    match name {
        "CrlDistributionPoints" => CrlDistributionPoints::check(bytes),
        "DistributionPoint" => DistributionPoint::check(bytes),
        "FreshestCrl" => FreshestCrl::check(bytes),
        "GeneralSubtree" => GeneralSubtree::check(bytes),
        "IssuingDistributionPoint" => IssuingDistributionPoint::check(bytes),
        "NameConstraints" => NameConstraints::check(bytes),
        _ => revocation::<P>(name, bytes),
    }
}

/// Payloads of CRLs and of their entries.
fn revocation<P: Profile>(name: &str, bytes: &[u8]) -> Result<(), Error> {
    match name {
        "BaseCrlNumber" => BaseCrlNumber::check(bytes),
        "CertificateIssuer" => CertificateIssuer::check(bytes),
        "CrlNumber" => CrlNumber::check(bytes),
        "CrlReason" => CrlReason::check(bytes),
        "Reasons" => Reasons::check(bytes),
        _ => timestamps::<P>(name, bytes),
    }
}

/// Timestamps.
fn timestamps<P: Profile>(name: &str, bytes: &[u8]) -> Result<(), Error> {
    match name {
        "SignedCertificateTimestampList" => SignedCertificateTimestampList::check(bytes),
        _ => objects::<P>(name, bytes),
    }
}

/// Certificates, CRLs and CSRs.
fn objects<P: Profile>(name: &str, bytes: &[u8]) -> Result<(), Error> {
    match name {
        "CertReq" => CertReq::check(bytes),
        "CertReqInfo" => CertReqInfo::check(bytes),
        "Certificate" => CertificateInner::<P>::check(bytes),
        "CertificateList" => CertificateList::<P>::check(bytes),
        "ExtensionReq" => ExtensionReq::check(bytes),
        "PkiPath" => SequenceOf::<CertificateInner<P>>::check(bytes),
        "RevokedCert" => RevokedCert::<P>::check(bytes),
        "TbsCertList" => TbsCertList::<P>::check(bytes),
        "TbsCertificate" => TbsCertificateInner::<P>::check(bytes),
        "Version" => Version::check(bytes),
        _ => anchors::<P>(name, bytes),
    }
}

/// Trust anchors.
fn anchors<P: Profile>(name: &str, bytes: &[u8]) -> Result<(), Error> {
    match name {
        "CertPathControls" => CertPathControls::<P>::check(bytes),
        "CertPolicies" => CertPolicies::check(bytes),
        "TrustAnchorChoice" => TrustAnchorChoice::<P>::check(bytes),
        "TrustAnchorInfo" => TrustAnchorInfo::<P>::check(bytes),
        _ => numbers(name, bytes),
    }
}

/// Numbers.
fn numbers(name: &str, bytes: &[u8]) -> Result<(), Error> {
    match name {
        "bool" => bool::check(bytes),
        "u128" => u128::check(bytes),
        "u16" => u16::check(bytes),
        "u32" => u32::check(bytes),
        "u64" => u64::check(bytes),
        "u8" => u8::check(bytes),
        _ => Err(ErrorKind::Failed.into()),
    }
}
