//! What is asked of algorithms and of their parameters.

ghost use Rattle.std.specs.Prelude.{◌≡◌};
ghost use Rattle.x509_lint.specs.Words.{passes};
ghost use Rattle.x509_lint_web.specs.Algorithm as algorithm;

use x509_base::SubjectPublicKeyInfo;
use x509_der::{Any, ObjectIdentifier, Tag, oid};
use x509_lint::passes;

/// sha1WithRSAEncryption, 1.2.840.113549.1.1.5 (RFC 8017 C).
const SHA1_WITH_RSA: ObjectIdentifier = oid!(0x2A, 0x86, 0x48, 0x86, 0xF7, 0x0D, 0x01, 0x01, 5);

/// sha256WithRSAEncryption, 1.2.840.113549.1.1.11.
const SHA256_WITH_RSA: ObjectIdentifier = oid!(0x2A, 0x86, 0x48, 0x86, 0xF7, 0x0D, 0x01, 0x01, 11);

/// sha384WithRSAEncryption, 1.2.840.113549.1.1.12.
const SHA384_WITH_RSA: ObjectIdentifier = oid!(0x2A, 0x86, 0x48, 0x86, 0xF7, 0x0D, 0x01, 0x01, 12);

/// sha512WithRSAEncryption, 1.2.840.113549.1.1.13.
const SHA512_WITH_RSA: ObjectIdentifier = oid!(0x2A, 0x86, 0x48, 0x86, 0xF7, 0x0D, 0x01, 0x01, 13);

/// id-RSASSA-PSS, 1.2.840.113549.1.1.10.
const RSA_PSS: ObjectIdentifier = oid!(0x2A, 0x86, 0x48, 0x86, 0xF7, 0x0D, 0x01, 0x01, 10);

/// ecdsa-with-SHA1, 1.2.840.10045.4.1 (RFC 3279 2.2.3).
const ECDSA_WITH_SHA1: ObjectIdentifier = oid!(0x2A, 0x86, 0x48, 0xCE, 0x3D, 0x04, 0x01);

/// ecdsa-with-SHA256, 1.2.840.10045.4.3.2 (RFC 5758 3.2).
const ECDSA_WITH_SHA256: ObjectIdentifier = oid!(0x2A, 0x86, 0x48, 0xCE, 0x3D, 0x04, 0x03, 2);

/// ecdsa-with-SHA384, 1.2.840.10045.4.3.3.
const ECDSA_WITH_SHA384: ObjectIdentifier = oid!(0x2A, 0x86, 0x48, 0xCE, 0x3D, 0x04, 0x03, 3);

/// ecdsa-with-SHA512, 1.2.840.10045.4.3.4.
const ECDSA_WITH_SHA512: ObjectIdentifier = oid!(0x2A, 0x86, 0x48, 0xCE, 0x3D, 0x04, 0x03, 4);

/// rsaEncryption, 1.2.840.113549.1.1.1 (RFC 8017 A.1).
const RSA_ENCRYPTION: ObjectIdentifier = oid!(0x2A, 0x86, 0x48, 0x86, 0xF7, 0x0D, 0x01, 0x01, 1);

/// id-ecPublicKey, 1.2.840.10045.2.1 (RFC 5480 2.1.1).
const EC_PUBLIC_KEY: ObjectIdentifier = oid!(0x2A, 0x86, 0x48, 0xCE, 0x3D, 0x02, 0x01);

/// The content octets of secp256r1, 1.2.840.10045.3.1.7 (RFC 5480 2.1.1.1).
pub(crate) const P256: [u8; 8] = [0x2A, 0x86, 0x48, 0xCE, 0x3D, 0x03, 0x01, 0x07];

/// Those of secp384r1, 1.3.132.0.34.
pub(crate) const P384: [u8; 5] = [0x2B, 0x81, 0x04, 0x00, 34];

/// Those of secp521r1, 1.3.132.0.35.
pub(crate) const P521: [u8; 5] = [0x2B, 0x81, 0x04, 0x00, 35];

/// The content octets of RSASSA-PSS-params for SHA-256 (RFC 8017 A.2.3).
const PSS_SHA256: [u8; 52] = [
    0xA0, 0x0F, 0x30, 0x0D, 0x06, 0x09, 0x60, 0x86, 0x48, 0x01, 0x65, 0x03, 0x04, 0x02, 0x01, 0x05,
    0x00, 0xA1, 0x1C, 0x30, 0x1A, 0x06, 0x09, 0x2A, 0x86, 0x48, 0x86, 0xF7, 0x0D, 0x01, 0x01, 0x08,
    0x30, 0x0D, 0x06, 0x09, 0x60, 0x86, 0x48, 0x01, 0x65, 0x03, 0x04, 0x02, 0x01, 0x05, 0x00, 0xA2,
    0x03, 0x02, 0x01, 0x20,
];

/// Those for SHA-384.
const PSS_SHA384: [u8; 52] = [
    0xA0, 0x0F, 0x30, 0x0D, 0x06, 0x09, 0x60, 0x86, 0x48, 0x01, 0x65, 0x03, 0x04, 0x02, 0x02, 0x05,
    0x00, 0xA1, 0x1C, 0x30, 0x1A, 0x06, 0x09, 0x2A, 0x86, 0x48, 0x86, 0xF7, 0x0D, 0x01, 0x01, 0x08,
    0x30, 0x0D, 0x06, 0x09, 0x60, 0x86, 0x48, 0x01, 0x65, 0x03, 0x04, 0x02, 0x02, 0x05, 0x00, 0xA2,
    0x03, 0x02, 0x01, 0x30,
];

/// Those for SHA-512.
const PSS_SHA512: [u8; 52] = [
    0xA0, 0x0F, 0x30, 0x0D, 0x06, 0x09, 0x60, 0x86, 0x48, 0x01, 0x65, 0x03, 0x04, 0x02, 0x03, 0x05,
    0x00, 0xA1, 0x1C, 0x30, 0x1A, 0x06, 0x09, 0x2A, 0x86, 0x48, 0x86, 0xF7, 0x0D, 0x01, 0x01, 0x08,
    0x30, 0x0D, 0x06, 0x09, 0x60, 0x86, 0x48, 0x01, 0x65, 0x03, 0x04, 0x02, 0x03, 0x05, 0x00, 0xA2,
    0x03, 0x02, 0x01, 0x40,
];

/// Whether it is an algorithm of signatures over SHA-1.
pub(crate) fn is_of_sha1(oid: ObjectIdentifier) -> bool
    ensures { result ≡ algorithm.is_of_sha1 oid }
{
    oid == SHA1_WITH_RSA || oid == ECDSA_WITH_SHA1
}

/// Whether it is RSASSA-PKCS1-v1_5 over SHA-256, SHA-384 or SHA-512.
pub(crate) fn is_rsa_pkcs1(oid: ObjectIdentifier) -> bool
    ensures { result ≡ algorithm.is_rsa_pkcs1 oid }
{
    oid == SHA256_WITH_RSA || (oid == SHA384_WITH_RSA || oid == SHA512_WITH_RSA)
}

/// Whether it is RSASSA-PSS.
pub(crate) fn is_rsa_pss(oid: ObjectIdentifier) -> bool
    ensures { result ≡ algorithm.is_rsa_pss oid }
{
    oid == RSA_PSS
}

/// Whether it is ECDSA over SHA-256, SHA-384 or SHA-512.
pub(crate) fn is_ecdsa(oid: ObjectIdentifier) -> bool
    ensures { result ≡ algorithm.is_ecdsa oid }
{
    oid == ECDSA_WITH_SHA256 || (oid == ECDSA_WITH_SHA384 || oid == ECDSA_WITH_SHA512)
}

/// Whether the key is one of RSA.
pub(crate) fn is_rsa(key: &SubjectPublicKeyInfo) -> bool
    ensures { result ≡ algorithm.is_rsa key.now }
{
    key.algorithm.oid == RSA_ENCRYPTION
}

/// Whether the key is one of an elliptic curve.
pub(crate) fn is_ec(key: &SubjectPublicKeyInfo) -> bool
    ensures { result ≡ algorithm.is_ec key.now }
{
    key.algorithm.oid == EC_PUBLIC_KEY
}

fn is_null_tag(tag: Tag) -> bool
    ensures { result ≡ algorithm.is_null_tag tag }
{
    match tag {
        Tag::Null => true,
        _ => false,
    }
}

/// Whether it is the tag of an OBJECT IDENTIFIER.
pub(crate) fn is_oid_tag(tag: Tag) -> bool
    ensures { result ≡ algorithm.is_oid_tag tag }
{
    match tag {
        Tag::ObjectIdentifier => true,
        _ => false,
    }
}

/// Whether the parameters are there, and are NULL.
pub(crate) fn are_null(parameters: &Option<Any>) -> bool
    ensures { result ≡ passes algorithm.is_null parameters.now }
{
    passes!(parameters, parameters => is_null_tag(parameters.tag()) && parameters.value().is_empty())
}

fn is_sequence_tag(tag: Tag) -> bool
    ensures { result ≡ algorithm.is_sequence_tag tag }
{
    match tag {
        Tag::Sequence => true,
        _ => false,
    }
}

fn are_pss_octets(octets: &[u8]) -> bool
    ensures { result ≡ algorithm.are_pss_octets octets.now }
{
    octets == PSS_SHA256.as_slice()
        || (octets == PSS_SHA384.as_slice() || octets == PSS_SHA512.as_slice())
}

/// Whether the parameters are there, and are those of RSASSA-PSS for SHA-256, SHA-384 or SHA-512.
pub(crate) fn are_pss(parameters: &Option<Any>) -> bool
    ensures { result ≡ passes algorithm.are_pss parameters.now }
{
    passes!(parameters, parameters => is_sequence_tag(parameters.tag()) && are_pss_octets(parameters.value()))
}

fn is_curve(octets: &[u8]) -> bool
    ensures { result ≡ algorithm.is_curve octets.now }
{
    octets == P256.as_slice() || (octets == P384.as_slice() || octets == P521.as_slice())
}

/// Whether the parameters are there, and name P-256, P-384 or P-521.
pub(crate) fn are_curve(parameters: &Option<Any>) -> bool
    ensures { result ≡ passes algorithm.names_curve parameters.now }
{
    passes!(parameters, parameters => is_oid_tag(parameters.tag()) && is_curve(parameters.value()))
}
