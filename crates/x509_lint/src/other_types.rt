//! Types of extensions that other standards than RFC 5280 have.

ghost use Rattle.std.specs.Prelude.{◌≡◌, ◌||◌, bytes_eq, not};
ghost use Rattle.x509_lint.specs.OtherTypes as grammar;
ghost use Rattle.x509_lint.specs.Words.{is_of};

use x509_der::{AssociatedOid, Newtype, ObjectIdentifier, SequenceOf, oid};
use x509_ext::Extension;
use x509_ext::pkix::certpolicy::PolicyQualifierInfo;
use x509_prim::Int;

/// NULL (X.690 8.8).
const NULL: [u8; 2] = [0x05, 0x00];

/// The type of id-pkix-ocsp-nocheck, NULL (RFC 6960 4.2.2.2.1).
pub(crate) struct OcspNoCheck;

impl AssociatedOid for OcspNoCheck {
    ghost use Rattle.x509_lint.specs.OtherTypes.{ocsp_no_check};

    ghost OID = { ocsp_no_check };

    const OID: ObjectIdentifier = oid!(0x2B, 0x06, 0x01, 0x05, 0x05, 0x07, 0x30, 0x01, 0x05);
}

/// The type of the poison of a precertificate, NULL (RFC 6962 3.1).
pub(crate) struct PrecertificatePoison;

impl AssociatedOid for PrecertificatePoison {
    ghost use Rattle.x509_lint.specs.OtherTypes.{precertificate_poison};

    ghost OID = { precertificate_poison };

    const OID: ObjectIdentifier = oid!(0x2B, 0x06, 0x01, 0x04, 0x01, 0xD6, 0x79, 0x02, 0x04, 0x03);
}

/// Whether the extension has another OID than the type, or its octets are NULL.
fn is_null<T: AssociatedOid>(extension: &Extension) -> bool
    ensures { result ≡ (not (is_of T.OID extension.now) || bytes_eq extension.now.extn_value grammar.null) }
{
    extension.extn_id != T::OID || extension.extn_value.as_bytes() == NULL.as_slice()
}

/// Whether the octets of each extension of the type are NULL.
pub(crate) fn are_null<T: AssociatedOid>(mut extensions: &[Extension]) -> bool
    ensures { result ≡ grammar.are_null T.OID extensions.entry.now }
{
    while let [first, rest @ ..] = extensions {
        if !is_null::<T>(first) {
            return false;
        }
        extensions = rest;
    }
    true
}

/// The extensions of TLS that a server has to use (RFC 7633 4).
///
/// ```text
/// Features ::= SEQUENCE OF INTEGER
/// ```
pub(crate) struct TlsFeatures(pub(crate) SequenceOf<Int>);

impl Drop for TlsFeatures {
    fn drop(self) {
        let TlsFeatures(_) = self;
    }
}

impl AssociatedOid for TlsFeatures {
    ghost use Rattle.x509_ext.specs.Identifiers.{id_pkix};

    ghost OID = { id_pkix 1 24 };

    const OID: ObjectIdentifier = oid!(0x2B, 0x06, 0x01, 0x05, 0x05, 0x07, 1, 24);
}

impl Newtype for TlsFeatures {
    ghost use Rattle.x509_lint.specs.OtherTypes.{tls_features_round};

    type Inner = SequenceOf<Int>;

    ghost round = { tls_features_round };

    fn inner(&self) -> &SequenceOf<Int> {
        &self.0
    }

    fn from_inner(inner: SequenceOf<Int>) -> TlsFeatures {
        TlsFeatures(inner)
    }
}

/// The statements of a qualified certificate (RFC 3739 3.2.6). A QCStatement has the fields of a [`PolicyQualifierInfo`].
///
/// ```text
/// QCStatements ::= SEQUENCE OF QCStatement
/// QCStatement ::= SEQUENCE {
///     statementId    OBJECT IDENTIFIER,
///     statementInfo  ANY DEFINED BY statementId OPTIONAL }
/// ```
pub(crate) struct QcStatements(pub(crate) SequenceOf<PolicyQualifierInfo>);

impl Drop for QcStatements {
    fn drop(self) {
        let QcStatements(_) = self;
    }
}

impl AssociatedOid for QcStatements {
    ghost use Rattle.x509_ext.specs.Identifiers.{id_pkix};

    ghost OID = { id_pkix 1 3 };

    const OID: ObjectIdentifier = oid!(0x2B, 0x06, 0x01, 0x05, 0x05, 0x07, 1, 3);
}

impl Newtype for QcStatements {
    ghost use Rattle.x509_lint.specs.OtherTypes.{qc_statements_round};

    type Inner = SequenceOf<PolicyQualifierInfo>;

    ghost round = { qc_statements_round };

    fn inner(&self) -> &SequenceOf<PolicyQualifierInfo> {
        &self.0
    }

    fn from_inner(inner: SequenceOf<PolicyQualifierInfo>) -> QcStatements {
        QcStatements(inner)
    }
}
