//! What public keys and algorithms are.

ghost use Rattle.std.specs.Prelude.{◌≡◌, []};
ghost use Rattle.x509_c_calls.specs.Algorithms.{IsAlgorithm};
ghost use Rattle.x509_c_calls.specs.Keys.{AnswersKey, IsKey};
ghost use Rattle.x509_c_calls.specs.RsaKeys.{IsRsaKey};
ghost use Rattle.x509_c_calls.specs.Calls.{Reads};
ghost use Rattle.x509_c_calls.specs.Status.{Fills, Tells};

use std::alloc::Global;
use x509_base::{AlgorithmIdentifier, SubjectPublicKeyInfo};
use x509_c_calls::{
    AlgorithmView, KeyView, RsaKeyView, RsaPublicKey, key_view, payload, rsa_key, working_key,
};
use x509_der::Grammar;

/// Decodes a SubjectPublicKeyInfo, and fills in of which kind and size the key is and where its parts stand.
#[unsafe(no_mangle)]
pub extern "C" fn x509_key_view(alloc: Global, input: &[u8], view: &mut KeyView) -> i32
    ensures { Tells (λ status. Reads ⟦<SubjectPublicKeyInfo as Grammar>⟧.form ⟦<SubjectPublicKeyInfo as Grammar>⟧.refuses input.now
        (λ key. IsKey input.now key [] view.new) (view.new ≡ view.old) status) result }
{
    key_view(alloc, input, view).code()
}

/// Decodes an AlgorithmIdentifier, and fills in of which kind a signature algorithm is and where its parts stand.
#[unsafe(no_mangle)]
pub extern "C" fn x509_algorithm_view(alloc: Global, input: &[u8], view: &mut AlgorithmView) -> i32
    ensures { Tells (λ status. Reads ⟦<AlgorithmIdentifier as Grammar>⟧.form ⟦<AlgorithmIdentifier as Grammar>⟧.refuses input.now
        (λ algorithm. IsAlgorithm input.now algorithm [] view.new) (view.new ≡ view.old) status) result }
{
    payload::<AlgorithmView>(alloc, input, view).code()
}

/// Decodes an RSA public key, and fills in where its parts stand and how long its modulus is.
#[unsafe(no_mangle)]
pub extern "C" fn x509_rsa_key_view(alloc: Global, input: &[u8], view: &mut RsaKeyView) -> i32
    ensures { Tells (λ status. Reads ⟦<RsaPublicKey as Grammar>⟧.form ⟦<RsaPublicKey as Grammar>⟧.refuses input.now
        (λ key. IsRsaKey input.now key view.new) (view.new ≡ view.old) status) result }
{
    rsa_key(alloc, input, view).code()
}

/// Puts the encoding of a key as it is used under the key above it into a buffer.
#[unsafe(no_mangle)]
pub extern "C" fn x509_working_key(
    alloc: Global,
    above: &[u8],
    key: &[u8],
    room: &mut [u8],
    written: &mut usize,
) -> i32
    ensures { Tells (λ status. Fills (AnswersKey above.now key.now) room.old room.new written.old written.new status) result }
{
    working_key(alloc, above, key, room, written).code()
}
