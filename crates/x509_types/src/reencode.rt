//! Decoding bytes and encoding the value again.

use std::alloc::Global;
use x509_der::{Decode, Encode, Error};

/// A type whose bytes are decoded and encoded again.
pub trait Reencode {
    ghost use Rattle.std.specs.Prelude.{ℕ, List};
    ghost use Rattle.x509_types.specs.Table.{Answers, IsAmong};

    /// What bytes may give, apart from out of memory.
    ghost reencodes: { List ℕ → Answers };

    /// Decodes the bytes, and encodes the value again.
    ///
    /// # Errors
    ///
    /// Those that `reencodes` has for the bytes; `Memory` when out of memory.
    fn reencode_as(alloc: Global, bytes: &[u8]) -> Result<Vec<u8>, Error>
        ensures { IsAmong (λ encoding. encoding.items) (reencodes bytes.now) result };
}

#[tactic(auto, unfolding(crate::specs::Table::IsAmong, crate::specs::Reencoding::Reencodes))]
impl<T: Decode + Encode + Drop> Reencode for T {
    ghost use Rattle.x509_types.specs.Reencoding.{Reencodes};

    ghost reencodes = { Reencodes T.form T.writing T.refuses };

    fn reencode_as(alloc: Global, bytes: &[u8]) -> Result<Vec<u8>, Error> {
        let value = T::from_der(alloc, bytes)?;
        value.to_der(alloc)
    }
}
