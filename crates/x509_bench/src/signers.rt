//! A signer that costs nothing.

use rand_core::CryptoRng;
use std::alloc::Global;
use x509_base::{AlgorithmIdentifier, SubjectPublicKeyInfo};
use x509_build::{KeyError, SignError, Signer};
use x509_der::{ObjectIdentifier, oid};
use x509_prim::BitString;

/// ecdsa-with-SHA256 (RFC 5758 3.2).
const ECDSA_WITH_SHA256: ObjectIdentifier = oid!(0x2A, 0x86, 0x48, 0xCE, 0x3D, 4, 3, 2);

/// Gives the same bits for each message, and has one key.
#[derive(Clone, Copy)]
pub(crate) struct Still<'a> {
    /// The octets of its signatures.
    pub(crate) bits: &'a [u8],

    /// The octets of its public key.
    pub(crate) key: &'a [u8],
}

impl Signer for Still<'_> {
    ghost use Rattle.std.specs.Prelude.{◌≡◌, [], ◌∷◌, None};
    ghost use Rattle.x509_prim.specs.BitString.{parts_of};

    ghost algorithm_of = { λ signer. record { oid = 0x2A ∷ 0x86 ∷ 0x48 ∷ 0xCE ∷ 0x3D ∷ 4 ∷ 3 ∷ 2 ∷ []; parameters = None } };

    ghost key_of = { λ signer. record {
      algorithm = record { oid = 0x2A ∷ 0x86 ∷ 0x48 ∷ 0xCE ∷ 0x3D ∷ 4 ∷ 3 ∷ 2 ∷ []; parameters = None };
      subject_public_key = parts_of 0 signer.key.now;
    } };

    ghost signs = { λ signer message bits. bits ≡ parts_of 0 signer.bits.now };

    ghost signs_with_rng = { λ signer message bits. bits ≡ parts_of 0 signer.bits.now };

    ghost may_refuse_algorithm = { λ signer. Unit {0} };

    ghost may_refuse_key = { λ signer. Unit {0} };

    ghost may_refuse_message = { λ signer message. Unit {0} };

    fn algorithm(&self, _alloc: Global) -> Result<AlgorithmIdentifier, KeyError> {
        Ok(AlgorithmIdentifier {
            oid: ECDSA_WITH_SHA256,
            parameters: None,
        })
    }

    fn public_key(&self, alloc: Global) -> Result<SubjectPublicKeyInfo, KeyError> {
        match BitString::from_bytes(alloc, self.key) {
            Ok(subject_public_key) => Ok(SubjectPublicKeyInfo {
                algorithm: AlgorithmIdentifier {
                    oid: ECDSA_WITH_SHA256,
                    parameters: None,
                },
                subject_public_key,
            }),
            Err(_) => Err(KeyError::Memory),
        }
    }

    fn try_sign(&self, alloc: Global, _message: &[u8]) -> Result<BitString, SignError> {
        match BitString::from_bytes(alloc, self.bits) {
            Ok(bits) => Ok(bits),
            Err(_) => Err(SignError::Memory),
        }
    }

    fn try_sign_with_rng<R: CryptoRng>(
        &self,
        alloc: Global,
        _rng: &mut R,
        message: &[u8],
    ) -> Result<BitString, SignError> {
        self.try_sign(alloc, message)
    }
}
