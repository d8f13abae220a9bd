//! A signer whose answers are known.

use rand_core::CryptoRng;
use std::alloc::Global;
use x509_base::{AlgorithmIdentifier, SubjectPublicKeyInfo};
use x509_build::{KeyError, SignError, Signer};
use x509_der::{ObjectIdentifier, oid};
use x509_prim::BitString;

/// 1.2.3.4.
pub(crate) const ECHO: ObjectIdentifier = oid!(0x2A, 3, 4);

/// Signs with the message as bits, under the algorithm 1.2.3.4 and the key `abc`, or refuses one of these calls.
#[derive(Clone, Copy)]
pub(crate) enum Echo {
    Signs,
    RefusesAlgorithm,
    RefusesKey,
    RefusesMessage,
}

impl Signer for Echo {
    ghost use Rattle.std.specs.Prelude.{◌≡◌, [], ◌∷◌, None};
    ghost use Rattle.x509_prim.specs.BitString.{parts_of};

    ghost algorithm_of = { λ signer. record { oid = 0x2A ∷ 3 ∷ 4 ∷ []; parameters = None } };

    ghost key_of = { λ signer. record {
      algorithm = record { oid = 0x2A ∷ 3 ∷ 4 ∷ []; parameters = None };
      subject_public_key = parts_of 0 (97 ∷ 98 ∷ 99 ∷ []);
    } };

    ghost signs = { λ signer message bits. bits ≡ parts_of 0 message };

    ghost signs_with_rng = { λ signer message bits. bits ≡ parts_of 0 message };

    ghost may_refuse_algorithm = { λ signer. Unit {0} };

    ghost may_refuse_key = { λ signer. Unit {0} };

    ghost may_refuse_message = { λ signer message. Unit {0} };

    fn algorithm(&self, _alloc: Global) -> Result<AlgorithmIdentifier, KeyError> {
        if let Echo::RefusesAlgorithm = self {
            return Err(KeyError::Refused);
        }
        Ok(AlgorithmIdentifier {
            oid: ECHO,
            parameters: None,
        })
    }

    fn public_key(&self, alloc: Global) -> Result<SubjectPublicKeyInfo, KeyError> {
        if let Echo::RefusesKey = self {
            return Err(KeyError::Refused);
        }
        match BitString::from_bytes(alloc, &[b'a', b'b', b'c']) {
            Ok(subject_public_key) => Ok(SubjectPublicKeyInfo {
                algorithm: AlgorithmIdentifier {
                    oid: ECHO,
                    parameters: None,
                },
                subject_public_key,
            }),
            Err(_) => Err(KeyError::Memory),
        }
    }

    fn try_sign(&self, alloc: Global, message: &[u8]) -> Result<BitString, SignError> {
        if let Echo::RefusesMessage = self {
            return Err(SignError::Refused);
        }
        match BitString::from_bytes(alloc, message) {
            Ok(bits) => Ok(bits),
            Err(_) => Err(SignError::Memory),
        }
    }

    fn try_sign_with_rng<R: CryptoRng>(
        &self,
        alloc: Global,
        _rng: &mut R,
        message: &[u8],
    ) -> Result<BitString, SignError> {
        self.try_sign(alloc, message)
    }
}
