//! Signatures and their algorithms.

use crate::tls::{NamedByte, Tls, TlsByteVecU16, TlsError};
use std::alloc::{AllocError, Global};

/// A hash algorithm (RFC 5246 section 7.4.1.4.1).
#[derive(Clone, Copy, Debug, PartialEq, Eq)]
pub enum HashAlgorithm {
    /// No algorithm, 0.
    None,

    /// MD5, 1.
    Md5,

    /// SHA-1, 2.
    Sha1,

    /// SHA-224, 3.
    Sha224,

    /// SHA-256, 4.
    Sha256,

    /// SHA-384, 5.
    Sha384,

    /// SHA-512, 6.
    Sha512,

    /// That of the signature algorithm itself, 8 (RFC 8422 section 5.1.3).
    Intrinsic,
}

impl NamedByte for HashAlgorithm {
    ghost use Rattle.x509_sct.specs.DigitallySigned as grammar;

    ghost byte_of = { grammar.hash_byte };

    ghost values = { grammar.all_hashes };

    fn from_byte(byte: u8) -> Option<HashAlgorithm> {
        match byte {
            0 => Some(HashAlgorithm::None),
            1 => Some(HashAlgorithm::Md5),
            2 => Some(HashAlgorithm::Sha1),
            3 => Some(HashAlgorithm::Sha224),
            4 => Some(HashAlgorithm::Sha256),
            5 => Some(HashAlgorithm::Sha384),
            6 => Some(HashAlgorithm::Sha512),
            8 => Some(HashAlgorithm::Intrinsic),
            _ => None,
        }
    }

    fn byte(&self) -> u8 {
        match self {
            HashAlgorithm::None => 0,
            HashAlgorithm::Md5 => 1,
            HashAlgorithm::Sha1 => 2,
            HashAlgorithm::Sha224 => 3,
            HashAlgorithm::Sha256 => 4,
            HashAlgorithm::Sha384 => 5,
            HashAlgorithm::Sha512 => 6,
            HashAlgorithm::Intrinsic => 8,
        }
    }

    ghost are_named = { grammar.hashes_named };
}

/// A signature algorithm (RFC 5246 section 7.4.1.4.1).
#[derive(Clone, Copy, Debug, PartialEq, Eq)]
pub enum SignatureAlgorithm {
    /// No signature, 0.
    Anonymous,

    /// RSA, 1.
    Rsa,

    /// DSA, 2.
    Dsa,

    /// ECDSA, 3.
    Ecdsa,

    /// Ed25519, 7 (RFC 8422 section 5.1.3).
    Ed25519,

    /// Ed448, 8 (RFC 8422 section 5.1.3).
    Ed448,
}

impl NamedByte for SignatureAlgorithm {
    ghost use Rattle.x509_sct.specs.DigitallySigned as grammar;

    ghost byte_of = { grammar.signature_byte };

    ghost values = { grammar.all_signatures };

    fn from_byte(byte: u8) -> Option<SignatureAlgorithm> {
        match byte {
            0 => Some(SignatureAlgorithm::Anonymous),
            1 => Some(SignatureAlgorithm::Rsa),
            2 => Some(SignatureAlgorithm::Dsa),
            3 => Some(SignatureAlgorithm::Ecdsa),
            7 => Some(SignatureAlgorithm::Ed25519),
            8 => Some(SignatureAlgorithm::Ed448),
            _ => None,
        }
    }

    fn byte(&self) -> u8 {
        match self {
            SignatureAlgorithm::Anonymous => 0,
            SignatureAlgorithm::Rsa => 1,
            SignatureAlgorithm::Dsa => 2,
            SignatureAlgorithm::Ecdsa => 3,
            SignatureAlgorithm::Ed25519 => 7,
            SignatureAlgorithm::Ed448 => 8,
        }
    }

    ghost are_named = { grammar.signatures_named };
}

/// A pair of a hash and a signature algorithm (RFC 5246 section 7.4.1.4.1).
#[derive(Clone, Copy, Debug, PartialEq, Eq)]
pub struct SignatureAndHashAlgorithm {
    /// The hash algorithm.
    pub hash: HashAlgorithm,

    /// The signature algorithm.
    pub signature: SignatureAlgorithm,
}

#[tactic(auto, unfolding(crate::specs::FieldReading::struct_at))]
impl Tls for SignatureAndHashAlgorithm {
    ghost use Rattle.x509_sct.specs.DigitallySigned as grammar;

    ghost form = { grammar.signature_and_hash };

    ghost wants_memory = { ⊥ };

    fn take(alloc: Global, bytes: &[u8]) -> Result<(SignatureAndHashAlgorithm, &[u8]), TlsError> {
        let (hash, rest) = HashAlgorithm::take(alloc, bytes)?;
        let (signature, rest) = SignatureAlgorithm::take(alloc, rest)?;
        Ok((SignatureAndHashAlgorithm { hash, signature }, rest))
    }

    fn tls_len(&self) -> usize {
        2
    }

    fn put(&self, out: &mut Vec<u8>) -> Result<(), AllocError> {
        self.hash.put(out)?;
        self.signature.put(out)
    }

    ghost lawful = { grammar.signature_and_hash_lawful };
}

/// A signature and the algorithms with which it was made (RFC 5246 section 4.7).
#[derive(Debug, Drop, PartialEq, Eq)]
pub struct DigitallySigned {
    /// The algorithms.
    pub algorithm: SignatureAndHashAlgorithm,

    /// The signature.
    pub signature: TlsByteVecU16,
}

#[tactic(auto, unfolding(crate::specs::FieldReading::struct_at))]
impl Tls for DigitallySigned {
    ghost use Rattle.std.specs.Prelude.{◌≡◌, ◌≤◌, length};
    ghost use Rattle.x509_sct.specs.DigitallySigned as grammar;

    ghost form = { grammar.digitally_signed };

    fn take(alloc: Global, bytes: &[u8]) -> Result<(DigitallySigned, &[u8]), TlsError> {
        let (algorithm, rest) = SignatureAndHashAlgorithm::take(alloc, bytes)?;
        let (signature, rest) = TlsByteVecU16::take(alloc, rest)?;
        let signed = DigitallySigned {
            algorithm,
            signature,
        };
        Ok((signed, rest))
    }

    fn tls_len(&self) -> usize
        ensures exact { result ≡ length (grammar.digitally_signed.bytes self.now) }
        ensures short { result ≤ 65539 }
    {
        self.algorithm.tls_len() + self.signature.tls_len()
    }

    fn put(&self, out: &mut Vec<u8>) -> Result<(), AllocError> {
        self.algorithm.put(out)?;
        self.signature.put(out)
    }

    ghost lawful = { grammar.digitally_signed_lawful };
}
