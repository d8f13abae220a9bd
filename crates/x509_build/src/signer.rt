//! What signs.

use crate::{KeyError, SignError};
use rand_core::CryptoRng;
use std::alloc::Global;
use x509_base::{AlgorithmIdentifier, SubjectPublicKeyInfo};
use x509_prim::BitString;

/// A signer: a private key, or what stands for one. It tells its algorithm and its public key, and signs messages.
///
/// A signer says by definitions what its calls answer, and where they may be refused. That a signature is valid isn't
/// checked.
pub trait Signer {
    ghost use Rattle.std.specs.Prelude.{◌≡◌, ℕ, List, IfOk, IfErr};
    ghost use Rattle.x509_base.specs.declared.algorithm_identifier.AlgorithmIdentifier.{AlgorithmIdentifier};
    ghost use Rattle.x509_base.specs.declared.subject_public_key_info.SubjectPublicKeyInfo.{SubjectPublicKeyInfo};
    ghost use Rattle.x509_prim.specs.BitString.{BitParts};
    ghost use Rattle.x509_build.specs.Refusals.{KeyRefuses, SigningRefuses};

    /// The algorithm of its signatures.
    ghost algorithm_of: { Self → AlgorithmIdentifier };

    /// The public key that belongs to it.
    ghost key_of: { Self → SubjectPublicKeyInfo };

    /// That these bits may be its signature of these octets.
    ghost signs: { Self → List ℕ → BitParts → Type 0 };

    /// That they may be, where random bytes are at hand.
    ghost signs_with_rng: { Self → List ℕ → BitParts → Type 0 };

    /// That it may refuse to tell its algorithm.
    ghost may_refuse_algorithm: { Self → Type 0 };

    /// That it may refuse to tell its public key.
    ghost may_refuse_key: { Self → Type 0 };

    /// That it may refuse to sign these octets.
    ghost may_refuse_message: { Self → List ℕ → Type 0 };

    /// The algorithm of its signatures (RFC 5280 4.1.1.2).
    ///
    /// # Errors
    ///
    /// `Refused`, only where the signer may refuse that. `Memory` when out of memory.
    fn algorithm(&self, alloc: Global) -> Result<AlgorithmIdentifier, KeyError>
        ensures ok { IfOk result (λ algorithm. algorithm ≡ algorithm_of self.now) }
        ensures err { IfErr result (λ e. KeyRefuses (may_refuse_algorithm self.now) e) };

    /// The public key that belongs to it (RFC 5280 4.1.2.7).
    ///
    /// # Errors
    ///
    /// `Refused`, only where the signer may refuse that. `Memory` when out of memory.
    fn public_key(&self, alloc: Global) -> Result<SubjectPublicKeyInfo, KeyError>
        ensures ok { IfOk result (λ key. key ≡ key_of self.now) }
        ensures err { IfErr result (λ e. KeyRefuses (may_refuse_key self.now) e) };

    /// A signature of the message (RFC 5280 4.1.1.3).
    ///
    /// # Errors
    ///
    /// `Refused`, only where the signer may refuse this message. `Memory` when out of memory.
    fn try_sign(&self, alloc: Global, message: &[u8]) -> Result<BitString, SignError>
        ensures ok { IfOk result (λ bits. signs self.now message.now bits) }
        ensures err { IfErr result (λ e. SigningRefuses (may_refuse_message self.now message.now) e) };

    /// A signature of the message, for which the signer may take random bytes.
    ///
    /// # Errors
    ///
    /// `Refused`, only where the signer may refuse this message. `Memory` when out of memory.
    fn try_sign_with_rng<R: CryptoRng>(
        &self,
        alloc: Global,
        rng: &mut R,
        message: &[u8],
    ) -> Result<BitString, SignError>
        ensures ok { IfOk result (λ bits. signs_with_rng self.now message.now bits) }
        ensures err { IfErr result (λ e. SigningRefuses (may_refuse_message self.now message.now) e) };
}
