//! The extensions of RFC 5280 and RFC 6962: the types of their values.

pub use x509_ext::pkix::{
    AccessDescription, AuthorityInfoAccessSyntax, AuthorityKeyIdentifier, BaseCrlNumber,
    BasicConstraints, CertificateIssuer, CertificatePolicies, CrlDistributionPoints, CrlNumber,
    CrlReason, ExtendedKeyUsage, FreshestCrl, ID_CE_INHIBIT_ANY_POLICY, ID_CE_ISSUER_ALT_NAME,
    ID_CE_SUBJECT_ALT_NAME, ID_CE_SUBJECT_DIRECTORY_ATTRIBUTES, ID_CE_SUBJECT_KEY_IDENTIFIER,
    InhibitAnyPolicy, IssuerAltName, IssuingDistributionPoint, KeyUsage, KeyUsages,
    NameConstraints, PolicyConstraints, PolicyMapping, PolicyMappings, PrivateKeyUsagePeriod,
    SubjectAltName, SubjectDirectoryAttributes, SubjectInfoAccessSyntax, SubjectKeyIdentifier,
};
pub use x509_sct::{
    CtPrecertificatePoison, Error, HashAlgorithm, SerializedSct, SignatureAlgorithm,
    SignatureAndHashAlgorithm, SignedCertificateTimestamp, SignedCertificateTimestampList,
    SignedEntry, Version,
};

/// Certificate policies.
pub mod certpolicy {
    pub use x509_ext::pkix::CertificatePolicies;
    pub use x509_ext::pkix::certpolicy::{
        CpsUri, DisplayText, NoticeReference, PolicyInformation, PolicyQualifierInfo, UserNotice,
    };
}

/// Basic, name and policy constraints: what limits the certificates that may follow in a path.
pub mod constraints {
    pub use x509_ext::pkix::{BasicConstraints, NameConstraints, PolicyConstraints};

    /// Name constraints.
    pub mod name {
        pub use x509_ext::pkix::NameConstraints;
        pub use x509_ext::pkix::constraints::name::{GeneralSubtree, GeneralSubtrees};
    }
}

/// Extensions about CRLs.
pub mod crl {
    pub use x509_ext::pkix::{
        BaseCrlNumber, CertificateIssuer, CrlDistributionPoints, CrlNumber, CrlReason, FreshestCrl,
        IssuingDistributionPoint,
    };

    /// CRL distribution points: where CRLs are found.
    pub mod dp {
        pub use x509_ext::pkix::IssuingDistributionPoint;
        pub use x509_ext::pkix::crl::dp::{DistributionPoint, ReasonFlags, Reasons};
    }
}

/// General names.
pub mod name {
    pub use x509_ext::pkix::name::{
        DistributionPointName, EdiPartyName, GeneralName, GeneralNames, HardwareModuleName,
        ID_ON_HARDWARE_MODULE_NAME, IpAddress, OtherName,
    };
    pub use x509_name::name::{DirectoryString, TextRef};
}

/// Signed certificate timestamps (RFC 6962).
pub mod sct {
    pub use x509_sct::{
        CtPrecertificatePoison, DigitallySigned, Error, HashAlgorithm, LogId, PreCert,
        SerializedSct, SignatureAlgorithm, SignatureAndHashAlgorithm, SignatureType,
        SignedCertificateTimestamp, SignedCertificateTimestampList, SignedEntry, Tls,
        TlsByteVecU16, TlsError, Version,
    };
}
