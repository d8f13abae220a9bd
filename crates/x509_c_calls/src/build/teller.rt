//! Signers elsewhere, and why nothing is built for them.

ghost use Rattle.std.specs.Prelude.{◌≡◌, IfOk};
ghost use Rattle.x509_c_calls.specs.Refusals.{FinalizesTo, kind_of};

use rand_core::CryptoRng;
use std::alloc::Global;
use x509_base::{AlgorithmIdentifier, SubjectPublicKeyInfo};
use x509_build::{Builder, Error, KeyError, SignError, Signer};
use x509_der::{ErrorKind, TryClone};
use x509_prim::BitString;

/// A signer elsewhere: here are its algorithm and its public key, and it signs nothing.
pub(crate) struct Teller {
    pub(crate) algorithm: AlgorithmIdentifier,
    pub(crate) key: SubjectPublicKeyInfo,
}

impl Drop for Teller {
    fn drop(self) {
        let Teller {
            algorithm: _,
            key: _,
        } = self;
    }
}

impl Signer for Teller {
    ghost algorithm_of = { λ teller. teller.algorithm };

    ghost key_of = { λ teller. teller.key };

    ghost signs = { λ teller message bits. ⊥ };

    ghost signs_with_rng = { λ teller message bits. ⊥ };

    ghost may_refuse_algorithm = { λ teller. ⊥ };

    ghost may_refuse_key = { λ teller. ⊥ };

    ghost may_refuse_message = { λ teller message. Unit {0} };

    fn algorithm(&self, alloc: Global) -> Result<AlgorithmIdentifier, KeyError> {
        match self.algorithm.try_clone(alloc) {
            Ok(algorithm) => Ok(algorithm),
            Err(_) => Err(KeyError::Memory),
        }
    }

    fn public_key(&self, alloc: Global) -> Result<SubjectPublicKeyInfo, KeyError> {
        match self.key.try_clone(alloc) {
            Ok(key) => Ok(key),
            Err(_) => Err(KeyError::Memory),
        }
    }

    fn try_sign(&self, _alloc: Global, _message: &[u8]) -> Result<BitString, SignError> {
        Err(SignError::Refused)
    }

    fn try_sign_with_rng<R: CryptoRng>(
        &self,
        _alloc: Global,
        _rng: &mut R,
        _message: &[u8],
    ) -> Result<BitString, SignError> {
        Err(SignError::Refused)
    }
}

/// The builder with the part that it finalizes to for that signer, and the bytes to be signed of that.
///
/// # Errors
///
/// Those of [`Builder::finalize_once`].
pub(crate) fn finalized_with<B: Builder>(
    alloc: Global,
    builder: B,
    teller: &Teller,
) -> Result<(B, Vec<u8>), Error>
    ensures bytes { FinalizesTo (λ made. made.1.items) B.Signed.form B.Signed.writing (B.next builder teller.now.algorithm teller.now.key) result }
    ensures part { IfOk result (λ made. B.current made.0 ≡ (B.next builder teller.now.algorithm teller.now.key).value) }
{
    let made = builder.finalize_once(alloc, teller)?;
    Ok(made)
}

/// The bytes to be signed, as the builder finalizes them for that signer.
///
/// # Errors
///
/// Those of [`Builder::finalize_once`].
pub(crate) fn finalized<B: Builder>(
    alloc: Global,
    builder: B,
    teller: &Teller,
) -> Result<Vec<u8>, Error>
    ensures { FinalizesTo (λ bytes. bytes.items) B.Signed.form B.Signed.writing (B.next builder teller.now.algorithm teller.now.key) result }
{
    let (_, bytes) = finalized_with(alloc, builder, teller)?;
    Ok(bytes)
}

/// The kind of a builder's refusal: that of a value that can't be decoded or encoded, else `Failed`; `Memory` when out
/// of memory.
pub(crate) fn kind_of(refusal: &Error) -> ErrorKind
    ensures { result ≡ kind_of refusal.now }
{
    match refusal {
        Error::Asn1(e) => e.kind(),
        Error::PublicKey(KeyError::Memory) => ErrorKind::Memory,
        Error::Signature(SignError::Memory) => ErrorKind::Memory,
        _ => ErrorKind::Failed,
    }
}
