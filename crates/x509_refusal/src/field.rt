//! The fields of certificates (RFC 5280 4.1), CRLs (5.1) and CSRs (RFC 2986 4).

ghost use Rattle.std.specs.Prelude.{◌≡◌};
ghost use Rattle.x509_refusal.specs.Fields.{field_text, fields_of, member_of, octet_of};

/// A field, or a whole object.
#[derive(Clone, Copy, Debug, PartialEq, Eq)]
pub enum Field {
    /// A certificate (RFC 5280 4.1).
    Certificate,

    /// Its signed part (4.1.1.1).
    TbsCertificate,

    /// Which version a certificate has (4.1.2.1).
    Version,

    /// Its serial number (4.1.2.2).
    SerialNumber,

    /// The algorithm of its signature, as the signed part has it (4.1.2.3).
    Signature,

    /// Its issuer (4.1.2.4).
    Issuer,

    /// Its validity (4.1.2.5).
    Validity,

    /// The first date of that.
    NotBefore,

    /// The last date of that.
    NotAfter,

    /// Its subject (4.1.2.6).
    Subject,

    /// Its key (4.1.2.7).
    SubjectPublicKeyInfo,

    /// What tells its issuer from others of the same name (4.1.2.8).
    IssuerUniqueId,

    /// What tells its subject from others of the same name (4.1.2.8).
    SubjectUniqueId,

    /// Its extensions under their tag (4.1.2.9).
    Extensions,

    /// The list of these.
    ExtensionList,

    /// One of them (4.2).
    Extension,

    /// The algorithm of a signature (4.1.1.2, 5.1.1.2; RFC 2986 4.2).
    SignatureAlgorithm,

    /// The signature of a certificate or a CRL (4.1.1.3, 5.1.1.3).
    SignatureValue,

    /// A CRL (5.1).
    CertificateList,

    /// Its signed part (5.1.1.1).
    TbsCertList,

    /// Which version a CRL has (5.1.2.1).
    CrlVersion,

    /// The algorithm of its signature, as the signed part has it (5.1.2.2).
    CrlSignature,

    /// Its issuer (5.1.2.3).
    CrlIssuer,

    /// When it was issued (5.1.2.4).
    ThisUpdate,

    /// When the next one is issued at the latest (5.1.2.5).
    NextUpdate,

    /// Its list of entries (5.1.2.6).
    RevokedCertificates,

    /// One of them.
    RevokedCertificate,

    /// Its extensions under their tag (5.1.2.7).
    CrlExtensions,

    /// The list of these.
    CrlExtensionList,

    /// One of them (5.2).
    CrlExtension,

    /// A CSR (RFC 2986 4.2).
    CertificationRequest,

    /// Its signed part (RFC 2986 4.1).
    CertificationRequestInfo,

    /// Which version a CSR has.
    RequestVersion,

    /// The subject that it asks a certificate for.
    RequestSubject,

    /// The key of that.
    SubjectPkInfo,

    /// Its attributes.
    Attributes,

    /// The signature of a CSR (RFC 2986 4.2).
    RequestSignature,
}

impl Field {
    /// The path of fields that leads to it, in the words of the standard, as `tbsCertificate.validity`. A list and its members have that of the field.
    #[tactic(auto, unfolding(crate::specs::Fields::field_text))]
    pub fn path(self) -> &'static str
        ensures { result.now ≡ field_text self }
    {
        match self {
            Field::Certificate => "Certificate",
            Field::TbsCertificate => "tbsCertificate",
            Field::Version => "tbsCertificate.version",
            Field::SerialNumber => "tbsCertificate.serialNumber",
            Field::Signature => "tbsCertificate.signature",
            Field::Issuer => "tbsCertificate.issuer",
            Field::Validity => "tbsCertificate.validity",
            Field::NotBefore => "tbsCertificate.validity.notBefore",
            Field::NotAfter => "tbsCertificate.validity.notAfter",
            Field::Subject => "tbsCertificate.subject",
            Field::SubjectPublicKeyInfo => "tbsCertificate.subjectPublicKeyInfo",
            Field::IssuerUniqueId => "tbsCertificate.issuerUniqueID",
            Field::SubjectUniqueId => "tbsCertificate.subjectUniqueID",
            Field::Extensions | Field::ExtensionList | Field::Extension =>
                "tbsCertificate.extensions",
            Field::SignatureAlgorithm => "signatureAlgorithm",
            Field::SignatureValue => "signatureValue",
            Field::CertificateList => "CertificateList",
            Field::TbsCertList => "tbsCertList",
            Field::CrlVersion => "tbsCertList.version",
            Field::CrlSignature => "tbsCertList.signature",
            Field::CrlIssuer => "tbsCertList.issuer",
            Field::ThisUpdate => "tbsCertList.thisUpdate",
            Field::NextUpdate => "tbsCertList.nextUpdate",
            Field::RevokedCertificates | Field::RevokedCertificate =>
                "tbsCertList.revokedCertificates",
            Field::CrlExtensions | Field::CrlExtensionList | Field::CrlExtension =>
                "tbsCertList.crlExtensions",
            Field::CertificationRequest => "CertificationRequest",
            Field::CertificationRequestInfo => "certificationRequestInfo",
            Field::RequestVersion => "certificationRequestInfo.version",
            Field::RequestSubject => "certificationRequestInfo.subject",
            Field::SubjectPkInfo => "certificationRequestInfo.subjectPKInfo",
            Field::Attributes => "certificationRequestInfo.attributes",
            Field::RequestSignature => "signature",
        }
    }

    /// The identifier octet of a field that has fields of its own.
    #[tactic(auto, unfolding(crate::specs::Fields::octet_of))]
    pub(crate) fn octet(self) -> u8
        ensures { result ≡ octet_of self }
    {
        match self {
            Field::Extensions => 0xA3,
            Field::CrlExtensions => 0xA0,
            _ => 0x30,
        }
    }

    /// The fields that stand in it, one behind the other; none in a list and in what isn't looked into.
    #[tactic(auto, unfolding(crate::specs::Fields::fields_of))]
    pub(crate) fn fields(self) -> &'static [Field]
        ensures { result.now ≡ fields_of self }
    {
        match self {
            Field::Certificate => &[
                Field::TbsCertificate,
                Field::SignatureAlgorithm,
                Field::SignatureValue,
            ],
            Field::TbsCertificate => &[
                Field::Version,
                Field::SerialNumber,
                Field::Signature,
                Field::Issuer,
                Field::Validity,
                Field::Subject,
                Field::SubjectPublicKeyInfo,
                Field::IssuerUniqueId,
                Field::SubjectUniqueId,
                Field::Extensions,
            ],
            Field::Validity => &[Field::NotBefore, Field::NotAfter],
            Field::Extensions => &[Field::ExtensionList],
            Field::CertificateList => &[
                Field::TbsCertList,
                Field::SignatureAlgorithm,
                Field::SignatureValue,
            ],
            Field::TbsCertList => &[
                Field::CrlVersion,
                Field::CrlSignature,
                Field::CrlIssuer,
                Field::ThisUpdate,
                Field::NextUpdate,
                Field::RevokedCertificates,
                Field::CrlExtensions,
            ],
            Field::CrlExtensions => &[Field::CrlExtensionList],
            Field::CertificationRequest => &[
                Field::CertificationRequestInfo,
                Field::SignatureAlgorithm,
                Field::RequestSignature,
            ],
            Field::CertificationRequestInfo => &[
                Field::RequestVersion,
                Field::RequestSubject,
                Field::SubjectPkInfo,
                Field::Attributes,
            ],
            _ => &[],
        }
    }

    /// What each member of it is, where it is a list.
    #[tactic(auto, unfolding(crate::specs::Fields::member_of))]
    pub(crate) fn member(self) -> Option<Field>
        ensures { result ≡ member_of self }
    {
        match self {
            Field::ExtensionList => Some(Field::Extension),
            Field::CrlExtensionList => Some(Field::CrlExtension),
            Field::RevokedCertificates => Some(Field::RevokedCertificate),
            _ => None,
        }
    }
}
