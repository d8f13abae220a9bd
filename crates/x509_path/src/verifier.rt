//! Verifiers of signatures.

use x509_base::{AlgorithmIdentifier, SubjectPublicKeyInfo};
use x509_prim::BitString;

/// A verifier of signatures. Its answer is a function of the four arguments.
pub trait Verifier {
    ghost use Rattle.std.specs.Prelude.{◌≡◌};
    ghost use Rattle.x509_path.specs.Certificates.{Accepting};

    /// What it answers.
    ghost accepts: { Self → Accepting };

    /// Whether the bits are a signature of the message, by the algorithm, for the public key. The key's own algorithm
    /// stands in it.
    fn verify(
        &self,
        algorithm: &AlgorithmIdentifier,
        key: &SubjectPublicKeyInfo,
        message: &[u8],
        signature: &BitString,
    ) -> bool
        ensures { result ≡ accepts self.now algorithm.now key.now message.now signature.now };
}

/// A verifier of signatures that is handed encodings, so that no value need be made of them.
pub trait SliceVerifier {
    ghost use Rattle.std.specs.Prelude.{◌≡◌};
    ghost use Rattle.x509_base.specs.AlgorithmIdentifier.{algorithm_identifier};
    ghost use Rattle.x509_base.specs.SubjectPublicKeyInfo.{subject_public_key_info};
    ghost use Rattle.x509_base.specs.declared.algorithm_identifier.AlgorithmIdentifier as algorithms;
    ghost use Rattle.x509_base.specs.declared.subject_public_key_info.SubjectPublicKeyInfo as keys;
    ghost use Rattle.x509_der.specs.Form.{Spells};
    ghost use Rattle.x509_path.specs.Certificates.{Accepting};
    ghost use Rattle.x509_prim.specs.BitString.{BitParts, bit_string};

    /// What it answers.
    ghost accepts: { Self → Accepting };

    /// Whether the bits are a signature of the message, by the algorithm, for the public key. All but the message are
    /// encodings: of an AlgorithmIdentifier, a SubjectPublicKeyInfo and a BIT STRING.
    fn verify(&self, algorithm: &[u8], key: &[u8], message: &[u8], signature: &[u8]) -> bool
        ensures { (a : algorithms.AlgorithmIdentifier) (k : keys.SubjectPublicKeyInfo) (bits : BitParts) → Spells algorithm_identifier a algorithm.now
            → Spells subject_public_key_info k key.now → Spells bit_string bits signature.now → result ≡ accepts self.now a k message.now bits };
}

/// Accepts any bits as a signature. So a path is checked apart from its signatures, which are for the caller to verify:
/// without that, the answer gives no security.
#[derive(Clone, Copy, Debug, PartialEq, Eq)]
pub struct AnySignature;

impl Verifier for AnySignature {
    ghost use Rattle.x509_path.specs.Certificates.{accept_all};

    ghost accepts = { λ verifier. accept_all };

    fn verify(
        &self,
        _algorithm: &AlgorithmIdentifier,
        _key: &SubjectPublicKeyInfo,
        _message: &[u8],
        _signature: &BitString,
    ) -> bool {
        true
    }
}

impl SliceVerifier for AnySignature {
    ghost use Rattle.x509_path.specs.Certificates.{accept_all};

    ghost accepts = { λ verifier. accept_all };

    fn verify(&self, _algorithm: &[u8], _key: &[u8], _message: &[u8], _signature: &[u8]) -> bool {
        true
    }
}
