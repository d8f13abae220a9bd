//! Payloads that are one number, and numbers that may be left out.

ghost use Rattle.std.specs.Prelude.{◌≡◌, ◌⊎◌};
ghost use Rattle.x509_c_calls.specs.Optional.{IsNumber};
ghost use Rattle.x509_c_calls.specs.Calls.{Reads};
ghost use Rattle.x509_c_calls.specs.declared.status.status.Status.TheVariants.{Refused};
ghost use Rattle.x509_der.specs.declared.error.ErrorKind.TheVariants.{Memory};

use crate::Status;
use bitflags::Flags;
use std::alloc::Global;
use x509_der::Decode;
use x509_ext::pkix::{CrlReason, InhibitAnyPolicy, KeyUsage};

/// 1 and the number, or 0 and 0 where it is left out.
pub fn optional_number(number: Option<u32>) -> (u32, u32)
    ensures { IsNumber number result.0 result.1 }
{
    match number {
        None => (0, 0),
        Some(number) => (1, number),
    }
}

/// A type whose values are told by a number.
pub trait Numbered: Decode + Drop {
    ghost use Rattle.std.specs.Prelude.{◌≡◌, ℕ};

    /// The number of a value.
    ghost number_of: { Self → ℕ };

    /// The number.
    fn number(&self) -> u32
        ensures { result ≡ number_of self.now };
}

impl Numbered for KeyUsage {
    ghost number_of = { λ usage. usage.0.0 };

    fn number(&self) -> u32 {
        u32::from(self.0.bits())
    }
}

impl Numbered for InhibitAnyPolicy {
    ghost number_of = { λ inhibit. inhibit.0 };

    fn number(&self) -> u32 {
        self.0
    }
}

impl Numbered for CrlReason {
    ghost use Rattle.x509_ext.specs.CrlReason.{crl_reason_number};

    ghost number_of = { crl_reason_number };

    fn number(&self) -> u32 {
        *self as u32
    }
}

/// Reads a value, and fills in its number. Where it is refused, the number stays as it was.
#[tactic(auto, unfolding(crate::specs::Calls::Reads))]
pub fn read_number<T: Numbered>(alloc: Global, input: &[u8], number: &mut u32) -> Status
    ensures read { Reads T.form T.refuses input.now (λ value. number.new ≡ T.number_of value) (number.new ≡ number.old) result }
    ensures memory { result ≡ Refused Memory → T.wants_memory ⊎ T.refuses Memory }
{
    match T::from_der(alloc, input) {
        Ok(value) => {
            *number = value.number();
            Status::Done
        }
        Err(e) => e.into(),
    }
}
