//! A source of bytes.

ghost use Rattle.std.specs.Prelude.{replicate};
ghost use Rattle.rand_core.specs.Steps.{stream_of};

use rand_core::{CryptoRng, Rng};

/// Gives zeros. It is a source for signers that take no random bytes.
#[derive(Drop)]
pub(crate) struct Zeros;

impl Rng for Zeros {
    ghost stream = { stream_of (record { next_u32 = λ s. (0, s); next_u64 = λ s. (0, s); fill_bytes = λ n s. (replicate n 0, s) }) };

    fn next_u32(&mut self) -> u32 {
        0
    }

    fn next_u64(&mut self) -> u64 {
        0
    }

    fn fill_bytes(&mut self, dst: &mut [u8]) {
        dst.fill(0);
    }
}

impl CryptoRng for Zeros {}
