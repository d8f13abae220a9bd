//! Public keys with their algorithms, borrowed.

ghost use Rattle.std.specs.Prelude.{◌≡◌, ◌↔◌, IsTrue};
ghost use Rattle.x509_base.specs.KeyAlgorithms.{ec_public_key, rsa_encryption};

use crate::algorithm_identifier::AlgorithmIdentifier;
use std::alloc::Global;
use x509_der::{Error, TryClone};
use x509_prim::BitString;

/// The content octets of rsaEncryption, 1.2.840.113549.1.1.1 (RFC 3279 2.3.1).
const RSA_ENCRYPTION: &[u8] = &[0x2A, 0x86, 0x48, 0x86, 0xF7, 0x0D, 0x01, 0x01, 0x01];

/// The content octets of id-ecPublicKey, 1.2.840.10045.2.1 (RFC 5480 2.1.1).
const EC_PUBLIC_KEY: &[u8] = &[0x2A, 0x86, 0x48, 0xCE, 0x3D, 0x02, 0x01];

/// A borrowed public key, and the algorithm with which it is used (RFC 5280 4.1.2.7).
#[derive(Clone, Copy, Debug, PartialEq, Eq)]
pub struct SubjectPublicKeyInfoRef<'a> {
    /// The algorithm of the key.
    pub algorithm: &'a AlgorithmIdentifier,

    /// The bits of the key, in the format of its algorithm.
    pub subject_public_key: &'a BitString,
}

#[tactic(auto, unfolding(x509_der::specs::Arcs::subidentifier))]
impl SubjectPublicKeyInfoRef<'_> {
    /// Whether the algorithm is RSA: rsaEncryption, 1.2.840.113549.1.1.1 (RFC 3279 2.3.1).
    pub fn is_rsa(&self) -> bool
        ensures { IsTrue result ↔ (self.now.algorithm.now.oid ≡ rsa_encryption) }
    {
        self.algorithm.oid.as_bytes() == RSA_ENCRYPTION
    }

    /// Whether the algorithm is elliptic curve: id-ecPublicKey, 1.2.840.10045.2.1 (RFC 5480 2.1.1).
    pub fn is_ecc(&self) -> bool
        ensures { IsTrue result ↔ (self.now.algorithm.now.oid ≡ ec_public_key) }
    {
        self.algorithm.oid.as_bytes() == EC_PUBLIC_KEY
    }
}

impl TryClone for SubjectPublicKeyInfoRef<'_> {
    ghost use Rattle.std.specs.Prelude.{◌≡◌, IfOk, IfErr, IsOk};
    ghost use Rattle.x509_der.specs.declared.error.ErrorKind.TheVariants.{Memory};

    fn try_clone(&self, _alloc: Global) -> Result<Self, Error>
        ensures ok { IfOk result (λ copy. copy ≡ self.now) }
        ensures err { IfErr result (λ e. e.kind ≡ Memory) }
        ensures always { IsOk result }
    {
        Ok(*self)
    }
}
