//! Keys as they are used under others.

ghost use Rattle.std.specs.Prelude.{MatchResult, Ok, Err};
ghost use Rattle.x509_path_steps.specs.WorkingKeys.{AnswersKey};

use crate::above::{Above, filled_in};
use std::alloc::Global;
use x509_base::SubjectPublicKeyInfo;
use x509_check::Check;
use x509_der::Error;
use x509_path::AnchorRef;

/// The public key of a certificate as it is used under the key above it (RFC 5280 6.1.4 (d) to (f)), each as the encoding of a
/// SubjectPublicKeyInfo: where the parameters of its algorithm are left out or NULL, and the key above is of the same algorithm
/// and has parameters, the key with these; else the key as it is. Down a path the key above is itself one as it is used.
/// `validate_path` of the crate `x509_validation` hands its verifier such keys; this is for who verifies signatures apart from it.
///
/// # Errors
///
/// `Overlength`, or `Malformed`, where one of the encodings is too long or is none; `Overlength` where that of the key as it is used
/// would be too long. `Memory` when out of memory.
pub fn working_key(alloc: Global, above: &[u8], key: &[u8]) -> Result<Vec<u8>, Error>
    ensures { MatchResult result (λ octets. AnswersKey above.now key.now (Ok octets.items)) (λ e. AnswersKey above.now key.now (Err e.kind)) }
{
    SubjectPublicKeyInfo::check(above)?;
    SubjectPublicKeyInfo::check(key)?;
    let trusted = Above::new(AnchorRef {
        name: &[],
        key: above,
    });
    match trusted.left_to(key) {
        Some(parameters) => filled_in(alloc, key, parameters),
        None => Ok(Vec::from_slice(alloc, key)?),
    }
}
