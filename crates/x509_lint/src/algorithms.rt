//! What is asked of the algorithms of keys and signatures, of their parameters, and of the octets of keys.

ghost use Rattle.std.specs.Option.{option_copied};
ghost use Rattle.std.specs.Prelude.{◌≡◌, ◌==◌, ◌%◌, ◌||◌, ◌∷◌, [], bytes_eq};
ghost use Rattle.x509_lint.specs.PublicKey as grammar;
ghost use Rattle.x509_lint.specs.Words.{passes};

use crate::passes;
use x509_der::{Any, ObjectIdentifier, SequenceOf, Tag, oid};
use x509_ext::pkix::KeyUsage;
use x509_prim::Uint;

/// md2WithRSAEncryption, 1.2.840.113549.1.1.2 (RFC 3279 2.2.1).
const MD2_WITH_RSA: ObjectIdentifier = oid!(0x2A, 0x86, 0x48, 0x86, 0xF7, 0x0D, 0x01, 0x01, 2);

/// md5WithRSAEncryption, 1.2.840.113549.1.1.4.
const MD5_WITH_RSA: ObjectIdentifier = oid!(0x2A, 0x86, 0x48, 0x86, 0xF7, 0x0D, 0x01, 0x01, 4);

/// sha1WithRSAEncryption, 1.2.840.113549.1.1.5.
const SHA1_WITH_RSA: ObjectIdentifier = oid!(0x2A, 0x86, 0x48, 0x86, 0xF7, 0x0D, 0x01, 0x01, 5);

/// sha224WithRSAEncryption, 1.2.840.113549.1.1.14 (RFC 4055 5).
const SHA224_WITH_RSA: ObjectIdentifier = oid!(0x2A, 0x86, 0x48, 0x86, 0xF7, 0x0D, 0x01, 0x01, 14);

/// sha256WithRSAEncryption, 1.2.840.113549.1.1.11.
const SHA256_WITH_RSA: ObjectIdentifier = oid!(0x2A, 0x86, 0x48, 0x86, 0xF7, 0x0D, 0x01, 0x01, 11);

/// sha384WithRSAEncryption, 1.2.840.113549.1.1.12.
const SHA384_WITH_RSA: ObjectIdentifier = oid!(0x2A, 0x86, 0x48, 0x86, 0xF7, 0x0D, 0x01, 0x01, 12);

/// sha512WithRSAEncryption, 1.2.840.113549.1.1.13.
const SHA512_WITH_RSA: ObjectIdentifier = oid!(0x2A, 0x86, 0x48, 0x86, 0xF7, 0x0D, 0x01, 0x01, 13);

/// id-RSASSA-PSS, 1.2.840.113549.1.1.10 (RFC 4055 3.1).
const RSA_PSS: ObjectIdentifier = oid!(0x2A, 0x86, 0x48, 0x86, 0xF7, 0x0D, 0x01, 0x01, 10);

/// ecdsa-with-SHA224, 1.2.840.10045.4.3.1 (RFC 5758 3.2).
const ECDSA_WITH_SHA224: ObjectIdentifier = oid!(0x2A, 0x86, 0x48, 0xCE, 0x3D, 0x04, 0x03, 1);

/// ecdsa-with-SHA256, 1.2.840.10045.4.3.2.
const ECDSA_WITH_SHA256: ObjectIdentifier = oid!(0x2A, 0x86, 0x48, 0xCE, 0x3D, 0x04, 0x03, 2);

/// ecdsa-with-SHA384, 1.2.840.10045.4.3.3.
const ECDSA_WITH_SHA384: ObjectIdentifier = oid!(0x2A, 0x86, 0x48, 0xCE, 0x3D, 0x04, 0x03, 3);

/// ecdsa-with-SHA512, 1.2.840.10045.4.3.4.
const ECDSA_WITH_SHA512: ObjectIdentifier = oid!(0x2A, 0x86, 0x48, 0xCE, 0x3D, 0x04, 0x03, 4);

/// rsaEncryption, 1.2.840.113549.1.1.1 (RFC 3279 2.3.1).
const RSA_ENCRYPTION: ObjectIdentifier = oid!(0x2A, 0x86, 0x48, 0x86, 0xF7, 0x0D, 0x01, 0x01, 1);

/// id-ecPublicKey, 1.2.840.10045.2.1 (RFC 5480 2.1.1).
const EC_PUBLIC_KEY: ObjectIdentifier = oid!(0x2A, 0x86, 0x48, 0xCE, 0x3D, 0x02, 0x01);

/// id-X25519, 1.3.101.110 (RFC 8410 3).
const X25519: ObjectIdentifier = oid!(0x2B, 0x65, 110);

/// id-X448, 1.3.101.111.
const X448: ObjectIdentifier = oid!(0x2B, 0x65, 111);

/// id-Ed25519, 1.3.101.112.
const ED25519: ObjectIdentifier = oid!(0x2B, 0x65, 112);

/// id-Ed448, 1.3.101.113.
const ED448: ObjectIdentifier = oid!(0x2B, 0x65, 113);

/// The content octets of secp256r1, 1.2.840.10045.3.1.7 (RFC 5480 2.1.1.1).
const P256: [u8; 8] = [0x2A, 0x86, 0x48, 0xCE, 0x3D, 0x03, 0x01, 0x07];

/// Those of secp384r1, 1.3.132.0.34.
const P384: [u8; 5] = [0x2B, 0x81, 0x04, 0x00, 34];

/// Those of secp521r1, 1.3.132.0.35.
const P521: [u8; 5] = [0x2B, 0x81, 0x04, 0x00, 35];

/// Whether it is RSASSA-PKCS1-v1_5 over SHA-224, SHA-256, SHA-384 or SHA-512.
pub(crate) fn is_sha_2_rsa(oid: ObjectIdentifier) -> bool
    ensures { result ≡ grammar.is_sha_2_rsa oid }
{
    oid == SHA224_WITH_RSA
        || (oid == SHA256_WITH_RSA || (oid == SHA384_WITH_RSA || oid == SHA512_WITH_RSA))
}

/// Whether it is RSASSA-PKCS1-v1_5 over MD2, MD5 or SHA-1.
pub(crate) fn is_old_rsa(oid: ObjectIdentifier) -> bool
    ensures { result ≡ grammar.is_old_rsa oid }
{
    oid == MD2_WITH_RSA || (oid == MD5_WITH_RSA || oid == SHA1_WITH_RSA)
}

/// Whether it is RSASSA-PSS.
pub(crate) fn is_pss(oid: ObjectIdentifier) -> bool
    ensures { result ≡ grammar.is_pss oid }
{
    oid == RSA_PSS
}

/// Whether it is ECDSA over SHA-224, SHA-256, SHA-384 or SHA-512.
pub(crate) fn is_sha_2_ecdsa(oid: ObjectIdentifier) -> bool
    ensures { result ≡ grammar.is_sha_2_ecdsa oid }
{
    oid == ECDSA_WITH_SHA224
        || (oid == ECDSA_WITH_SHA256 || (oid == ECDSA_WITH_SHA384 || oid == ECDSA_WITH_SHA512))
}

/// Whether keys of it are ones of RSA.
pub(crate) fn is_rsa(oid: ObjectIdentifier) -> bool
    ensures { result ≡ grammar.is_rsa oid }
{
    oid == RSA_ENCRYPTION
}

/// Whether keys of it are points of an elliptic curve.
pub(crate) fn is_ec(oid: ObjectIdentifier) -> bool
    ensures { result ≡ grammar.is_ec oid }
{
    oid == EC_PUBLIC_KEY
}

/// Whether it is X25519 or X448.
pub(crate) fn is_montgomery(oid: ObjectIdentifier) -> bool
    ensures { result ≡ grammar.is_montgomery oid }
{
    oid == X25519 || oid == X448
}

/// Whether it is Ed25519 or Ed448.
pub(crate) fn is_edwards(oid: ObjectIdentifier) -> bool
    ensures { result ≡ grammar.is_edwards oid }
{
    oid == ED25519 || oid == ED448
}

fn is_null_tag(tag: Tag) -> bool
    ensures { result ≡ grammar.is_null_tag tag }
{
    match tag {
        Tag::Null => true,
        _ => false,
    }
}

fn is_oid_tag(tag: Tag) -> bool
    ensures { result ≡ grammar.is_oid_tag tag }
{
    match tag {
        Tag::ObjectIdentifier => true,
        _ => false,
    }
}

/// Whether the parameters are there, and are NULL.
pub(crate) fn are_null(parameters: &Option<Any>) -> bool
    ensures { result ≡ grammar.are_null parameters.now }
{
    passes!(parameters, parameters => is_null_tag(parameters.tag()) && parameters.value().is_empty())
}

/// Whether the parameters are there, and are the OID of a curve.
pub(crate) fn are_named(parameters: &Option<Any>) -> bool
    ensures { result ≡ grammar.are_named parameters.now }
{
    passes!(parameters, parameters => is_oid_tag(parameters.tag()))
}

/// Whether the octets are 4 and `both` octets, or 2 or 3 and `one`.
fn is_point(one: usize, both: usize, octets: &[u8]) -> bool
    ensures { result ≡ grammar.is_point one both octets.now }
{
    match octets {
        [first, rest @ ..] => {
            (*first == 4 && rest.len() == both)
                || ((*first == 2 || *first == 3) && rest.len() == one)
        }
        [] => false,
    }
}

fn is_no_point(curve: &[u8], octets: &[u8]) -> bool
    ensures { result ≡ grammar.is_no_point curve.now octets.now }
{
    (curve == P256.as_slice() && !is_point(32, 64, octets))
        || ((curve == P384.as_slice() && !is_point(48, 96, octets))
            || (curve == P521.as_slice() && !is_point(66, 132, octets)))
}

/// Whether the parameters name P-256, P-384 or P-521, and the octets are no point of its size.
pub(crate) fn has_no_point(parameters: &Option<Any>, octets: &[u8]) -> bool
    ensures { result ≡ grammar.has_no_point parameters.now octets.now }
{
    passes!(parameters, parameters => is_oid_tag(parameters.tag()) && is_no_point(parameters.value(), octets))
}

/// Whether the octets are no key of X25519, X448, Ed25519 or Ed448, by their number.
pub(crate) fn has_other_length(oid: ObjectIdentifier, octets: &[u8]) -> bool
    ensures { result ≡ grammar.has_other_length oid octets.now }
{
    ((oid == X25519 || oid == ED25519) && octets.len() != 32)
        || ((oid == X448 && octets.len() != 56) || (oid == ED448 && octets.len() != 57))
}

/// Whether there is an octet, and it is even.
fn is_even_octet(octet: Option<&u8>) -> bool
    ensures { result ≡ passes (λ octet. octet % 2 == 0) (option_copied octet.entry) }
{
    passes!(octet, octet => *octet % 2 == 0)
}

fn is_even(octets: &[u8]) -> bool
    ensures { result ≡ grammar.is_even octets.now }
{
    is_even_octet(octets.last())
}

fn is_no_exponent(octets: &[u8]) -> bool
    ensures { result ≡ (grammar.is_even octets.now || bytes_eq octets.now (1 ∷ [])) }
{
    is_even(octets) || octets == [1].as_slice()
}

/// Whether the numbers are two: a modulus and an exponent.
pub(crate) fn are_two(numbers: &Option<SequenceOf<Uint>>) -> bool
    ensures { result ≡ passes grammar.are_two numbers.now }
{
    let Some(numbers) = numbers else {
        return false;
    };
    match numbers.as_slice() {
        [_modulus, _exponent] => true,
        _ => false,
    }
}

/// Whether they are two, and the modulus is even.
pub(crate) fn has_even_modulus(numbers: &Option<SequenceOf<Uint>>) -> bool
    ensures { result ≡ passes grammar.has_even_modulus numbers.now }
{
    let Some(numbers) = numbers else {
        return false;
    };
    match numbers.as_slice() {
        [modulus, _exponent] => is_even(modulus.as_bytes()),
        _ => false,
    }
}

/// Whether they are two, and the exponent is even, or 1.
pub(crate) fn has_no_exponent(numbers: &Option<SequenceOf<Uint>>) -> bool
    ensures { result ≡ passes grammar.has_no_exponent numbers.now }
{
    let Some(numbers) = numbers else {
        return false;
    };
    match numbers.as_slice() {
        [_modulus, exponent] => is_no_exponent(exponent.as_bytes()),
        _ => false,
    }
}

/// Whether the key may encipher keys or data.
pub(crate) fn enciphers(usage: &KeyUsage) -> bool
    ensures { result ≡ grammar.enciphers usage.now }
{
    usage.key_encipherment() || usage.data_encipherment()
}

/// Whether it may, or may agree on keys.
pub(crate) fn agrees(usage: &KeyUsage) -> bool
    ensures { result ≡ grammar.agrees usage.now }
{
    enciphers(usage) || (usage.key_agreement() || (usage.encipher_only() || usage.decipher_only()))
}
