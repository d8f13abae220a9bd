//! Kinds of public keys and of signature algorithms, by their OIDs.

ghost use Rattle.std.specs.Prelude.{◌≡◌, bytes_eq, is_some, map};
ghost use Rattle.x509_base.specs.KeyAlgorithms.{ec_public_key};
ghost use Rattle.x509_c_calls.specs.Kinds as kinds;

use x509_base::AlgorithmIdentifier;
use x509_der::Any;

/// The kind of a public key. Its number is that of C.
#[derive(Clone, Copy)]
pub enum KeyKind {
    /// None of the others.
    Other = 0,

    /// RSA (RFC 3279 2.3.1).
    Rsa = 1,

    /// RSA for signatures by RSASSA-PSS alone (RFC 4055 1.2).
    RsaPss = 2,

    /// DSA (RFC 3279 2.3.2).
    Dsa = 3,

    /// Of the curve P-256, secp256r1 (RFC 5480 2.1.1.1).
    EcP256 = 4,

    /// Of the curve P-384, secp384r1.
    EcP384 = 5,

    /// Of the curve P-521, secp521r1.
    EcP521 = 6,

    /// Of another elliptic curve, or of one without a name (RFC 5480 2.1.1).
    EcOther = 7,

    /// Ed25519 (RFC 8410 3).
    Ed25519 = 8,

    /// Ed448 (RFC 8410 3).
    Ed448 = 9,

    /// X25519 (RFC 8410 3).
    X25519 = 10,

    /// X448 (RFC 8410 3).
    X448 = 11,
}

/// The kind of a signature algorithm. Its number is that of C.
#[derive(Clone, Copy)]
pub enum SignatureKind {
    /// None of the others.
    Other = 0,

    /// RSA with SHA-1 (RFC 3279 2.2.1).
    RsaSha1 = 1,

    /// RSA with SHA-224 (RFC 4055 5).
    RsaSha224 = 2,

    /// RSA with SHA-256.
    RsaSha256 = 3,

    /// RSA with SHA-384.
    RsaSha384 = 4,

    /// RSA with SHA-512.
    RsaSha512 = 5,

    /// RSASSA-PSS, of which the parameters name the hash (RFC 4055 3.1).
    RsaPss = 6,

    /// DSA with SHA-1 (RFC 3279 2.2.2).
    DsaSha1 = 7,

    /// DSA with SHA-224 (RFC 5758 3.1).
    DsaSha224 = 8,

    /// DSA with SHA-256 (RFC 5758 3.1).
    DsaSha256 = 9,

    /// ECDSA with SHA-1 (RFC 3279 2.2.3).
    EcdsaSha1 = 10,

    /// ECDSA with SHA-224 (RFC 5758 3.2).
    EcdsaSha224 = 11,

    /// ECDSA with SHA-256.
    EcdsaSha256 = 12,

    /// ECDSA with SHA-384.
    EcdsaSha384 = 13,

    /// ECDSA with SHA-512.
    EcdsaSha512 = 14,

    /// Ed25519 (RFC 8410 3).
    Ed25519 = 15,

    /// Ed448 (RFC 8410 3).
    Ed448 = 16,
}

/// The content octets of an OID, and the kind of key that it names.
type KeyRow = (&'static [u8], KeyKind);

/// The content octets of an OID, and the kind of signature algorithm that it names.
type SignatureRow = (&'static [u8], SignatureKind);

/// The algorithms of keys, apart from those of elliptic curves.
pub const KEYS: [KeyRow; 7] = [
    (
        &[0x2A, 0x86, 0x48, 0x86, 0xF7, 0x0D, 0x01, 0x01, 0x01], // 1.2.840.113549.1.1.1
        KeyKind::Rsa,
    ),
    (
        &[0x2A, 0x86, 0x48, 0x86, 0xF7, 0x0D, 0x01, 0x01, 0x0A], // 1.2.840.113549.1.1.10
        KeyKind::RsaPss,
    ),
    (
        &[0x2A, 0x86, 0x48, 0xCE, 0x38, 0x04, 0x01], // 1.2.840.10040.4.1
        KeyKind::Dsa,
    ),
    (&[0x2B, 0x65, 0x70], KeyKind::Ed25519), // 1.3.101.112
    (&[0x2B, 0x65, 0x71], KeyKind::Ed448), // 1.3.101.113
    (&[0x2B, 0x65, 0x6E], KeyKind::X25519), // 1.3.101.110
    (&[0x2B, 0x65, 0x6F], KeyKind::X448), // 1.3.101.111
];

/// The curves that have a name here.
pub const CURVES: [KeyRow; 3] = [
    (
        &[0x2A, 0x86, 0x48, 0xCE, 0x3D, 0x03, 0x01, 0x07], // 1.2.840.10045.3.1.7
        KeyKind::EcP256,
    ),
    (&[0x2B, 0x81, 0x04, 0x00, 0x22], KeyKind::EcP384), // 1.3.132.0.34
    (&[0x2B, 0x81, 0x04, 0x00, 0x23], KeyKind::EcP521), // 1.3.132.0.35
];

/// The signature algorithms.
pub const SIGNATURES: [SignatureRow; 16] = [
    (
        &[0x2A, 0x86, 0x48, 0x86, 0xF7, 0x0D, 0x01, 0x01, 0x05], // 1.2.840.113549.1.1.5
        SignatureKind::RsaSha1,
    ),
    (
        &[0x2A, 0x86, 0x48, 0x86, 0xF7, 0x0D, 0x01, 0x01, 0x0E], // 1.2.840.113549.1.1.14
        SignatureKind::RsaSha224,
    ),
    (
        &[0x2A, 0x86, 0x48, 0x86, 0xF7, 0x0D, 0x01, 0x01, 0x0B], // 1.2.840.113549.1.1.11
        SignatureKind::RsaSha256,
    ),
    (
        &[0x2A, 0x86, 0x48, 0x86, 0xF7, 0x0D, 0x01, 0x01, 0x0C], // 1.2.840.113549.1.1.12
        SignatureKind::RsaSha384,
    ),
    (
        &[0x2A, 0x86, 0x48, 0x86, 0xF7, 0x0D, 0x01, 0x01, 0x0D], // 1.2.840.113549.1.1.13
        SignatureKind::RsaSha512,
    ),
    (
        &[0x2A, 0x86, 0x48, 0x86, 0xF7, 0x0D, 0x01, 0x01, 0x0A], // 1.2.840.113549.1.1.10
        SignatureKind::RsaPss,
    ),
    (
        &[0x2A, 0x86, 0x48, 0xCE, 0x38, 0x04, 0x03], // 1.2.840.10040.4.3
        SignatureKind::DsaSha1,
    ),
    (
        &[0x60, 0x86, 0x48, 0x01, 0x65, 0x03, 0x04, 0x03, 0x01], // 2.16.840.1.101.3.4.3.1
        SignatureKind::DsaSha224,
    ),
    (
        &[0x60, 0x86, 0x48, 0x01, 0x65, 0x03, 0x04, 0x03, 0x02], // 2.16.840.1.101.3.4.3.2
        SignatureKind::DsaSha256,
    ),
    (
        &[0x2A, 0x86, 0x48, 0xCE, 0x3D, 0x04, 0x01], // 1.2.840.10045.4.1
        SignatureKind::EcdsaSha1,
    ),
    (
        &[0x2A, 0x86, 0x48, 0xCE, 0x3D, 0x04, 0x03, 0x01], // 1.2.840.10045.4.3.1
        SignatureKind::EcdsaSha224,
    ),
    (
        &[0x2A, 0x86, 0x48, 0xCE, 0x3D, 0x04, 0x03, 0x02], // 1.2.840.10045.4.3.2
        SignatureKind::EcdsaSha256,
    ),
    (
        &[0x2A, 0x86, 0x48, 0xCE, 0x3D, 0x04, 0x03, 0x03], // 1.2.840.10045.4.3.3
        SignatureKind::EcdsaSha384,
    ),
    (
        &[0x2A, 0x86, 0x48, 0xCE, 0x3D, 0x04, 0x03, 0x04], // 1.2.840.10045.4.3.4
        SignatureKind::EcdsaSha512,
    ),
    (&[0x2B, 0x65, 0x70], SignatureKind::Ed25519), // 1.3.101.112
    (&[0x2B, 0x65, 0x71], SignatureKind::Ed448), // 1.3.101.113
];

/// id-ecPublicKey, 1.2.840.10045.2.1 (RFC 5480 2.1.1).
const EC_PUBLIC_KEY: [u8; 7] = [0x2A, 0x86, 0x48, 0xCE, 0x3D, 0x02, 0x01];

/// What the first row with the octets names, else the other.
fn find<K: Copy>(mut rows: &[(&'static [u8], K)], octets: &[u8], other: K) -> K
    ensures { result ≡ kinds.named_in other (map (λ r. (r.0.now, r.1)) rows.entry.now) octets.now }
{
    while let [row, rest @ ..] = rows {
        if row.0 == octets {
            return row.1;
        }
        rows = rest;
    }
    other
}

/// The kind of elliptic curve keys with these parameters.
fn of_curve(parameters: &Option<Any>) -> KeyKind
    ensures { result ≡ kinds.curve_kind parameters.now }
{
    match parameters {
        None => KeyKind::EcOther,
        Some(curve) => {
            if curve.tag().octet() == 0x06 {
                find(&CURVES, curve.value(), KeyKind::EcOther)
            } else {
                KeyKind::EcOther
            }
        }
    }
}

/// Whether keys of the algorithm are of an elliptic curve (RFC 5480 2.1.1).
fn is_elliptic(algorithm: &AlgorithmIdentifier) -> bool
    ensures { result ≡ bytes_eq algorithm.now.oid ec_public_key }
{
    algorithm.oid.as_bytes() == EC_PUBLIC_KEY.as_slice()
}

/// Whether parameters are an OID, which names a curve.
fn are_named(parameters: &Option<Any>) -> bool
    ensures { result ≡ is_some (kinds.curve_oid parameters.now) }
{
    match parameters {
        None => false,
        Some(curve) => curve.tag().octet() == 0x06,
    }
}

/// Whether the algorithm names the curve of its keys.
#[tactic(auto, unfolding(crate::specs::Kinds::named_curve))]
pub(crate) fn names_curve(algorithm: &AlgorithmIdentifier) -> bool
    ensures { result ≡ is_some (kinds.named_curve algorithm.now) }
{
    is_elliptic(algorithm) && are_named(&algorithm.parameters)
}

impl KeyKind {
    /// The kind of the keys of an algorithm: told by its OID, and of elliptic curves by the name of the curve, which its parameters are
    /// (RFC 5480 2.1.1). Other parameters aren't looked at.
    pub fn of(algorithm: &AlgorithmIdentifier) -> KeyKind
        ensures { result ≡ kinds.key_kind algorithm.now }
    {
        if algorithm.oid.as_bytes() == EC_PUBLIC_KEY.as_slice() {
            return of_curve(&algorithm.parameters);
        }
        find(&KEYS, algorithm.oid.as_bytes(), KeyKind::Other)
    }

    /// Its number.
    pub fn number(self) -> u32
        ensures { result ≡ kinds.key_number self }
    {
        self as u32
    }
}

impl SignatureKind {
    /// The kind of the signature algorithm with an OID. Parameters aren't looked at.
    pub fn of(algorithm: &AlgorithmIdentifier) -> SignatureKind
        ensures { result ≡ kinds.signature_kind algorithm.now }
    {
        find(&SIGNATURES, algorithm.oid.as_bytes(), SignatureKind::Other)
    }

    /// Its number.
    pub fn number(self) -> u32
        ensures { result ≡ kinds.signature_number self }
    {
        self as u32
    }
}
