//! Checking the encoding of a value, and decoding it.

ghost use Rattle.std.specs.Prelude.{◌≡◌, ◌≤◌, ◌⊎◌, length, IfErr, MatchResult};
ghost use Rattle.x509_c_calls.specs.Calls.{Checks};
ghost use Rattle.x509_c_calls.specs.declared.status.status.Status.TheVariants.{Refused};
ghost use Rattle.x509_der.specs.Element.{limit};
ghost use Rattle.x509_der.specs.declared.error.ErrorKind.TheVariants.{Memory};
ghost use Rattle.x509_types.specs.Reencoding.{IsRefused};
ghost use Rattle.x509_der.specs.Form.{Spells};

use crate::status::status::Status;
use std::alloc::Global;
use x509_check::Check;
use x509_der::{Decode, ErrorKind};

/// Checks bytes: done exactly where they are the encoding of a value. It takes no memory.
///
/// # Errors
///
/// As [`Check::check`].
#[tactic(auto, unfolding(crate::specs::Calls::Reads))]
pub fn check<T: Check>(input: &[u8]) -> Status
    ensures read { Checks T.form T.refuses input.now result }
    ensures memory { result ≡ Refused Memory → T.refuses Memory }
{
    match T::check(input) {
        Ok(()) => Status::Done,
        Err(e) => e.into(),
    }
}

/// Decodes a value.
///
/// # Errors
///
/// As [`Decode::from_der`]; `Memory` when out of memory, only where decoding the type may take memory.
pub fn read<T: Decode>(alloc: Global, input: &[u8]) -> Result<T, ErrorKind>
    ensures found { MatchResult result (λ value. Spells T.form value input.now) (λ e. ((e ≡ Memory) × (length input.now ≤ limit))
        ⊎ IsRefused T.form T.refuses input.now e) }
    ensures memory { IfErr result (λ e. e ≡ Memory → T.wants_memory ⊎ T.refuses Memory) }
{
    match T::from_der(alloc, input) {
        Ok(value) => Ok(value),
        Err(e) => Err(e.kind()),
    }
}
