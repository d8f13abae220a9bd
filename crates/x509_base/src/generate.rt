//! Serial numbers from a source of random bytes.

ghost use Rattle.std.specs.Prelude.{◌≡◌, ◌<◌, ℕ, List, true, false, ◌++◌, length, IfOk, IfErr, IsErrAnd, OnOk};
ghost use Rattle.x509_der.specs.declared.error.ErrorKind.TheVariants as errors;
ghost use Rattle.x509_base.specs.Fills.{are_lengths, Draws, GivesZeros};
ghost use Rattle.x509_base.specs.Serial.{number_content};

use crate::Profile;
use crate::serial_number::SerialNumber;
use rand_core::{CryptoRng, Rng};
use std::alloc::Global;
use x509_der::{Error, ErrorKind};

/// How often a source is asked before it is taken to give only zeros.
const MOST_FILLS: u32 = 64;

/// The most octets of a number that is generated; its content may have one more, the sign.
const MOST_OCTETS: usize = 19;

/// The fewest random octets, 64 bits.
const FEWEST_RANDOM: usize = 8;

impl<P: Profile> SerialNumber<P> {
    /// A serial number of 17 random bytes. The source fills them until the first isn't zero, at most 64 times, so that
    /// the number has all 17.
    ///
    /// # Errors
    ///
    /// `Failed` where the random source is a bad one: each of the 64 fills begins with a zero. No memory is taken.
    pub fn generate<R: CryptoRng>(alloc: Global, rng: &mut R) -> Result<SerialNumber<P>, Error>
        ensures ok { IfOk result (λ serial. (fill : List ℕ) × Draws 17 (R.stream rng.old) fill (R.stream rng.new) × (serial ≡ number_content fill)) }
        ensures err { IfErr result (λ e. (e.kind ≡ errors.Failed) × GivesZeros 17 (R.stream rng.old) (R.stream rng.new)) }
    {
        SerialNumber::generate_with_prefix(alloc, &[], 17, rng)
    }

    /// A serial number of the octets of the prefix followed by random bytes. The source fills those until the first of
    /// them isn't zero, at most 64 times.
    ///
    /// # Errors
    ///
    /// `Failed` where fewer than 8 random bytes are asked for, or more than 19 octets in all; then no fill is made.
    /// `Failed` too where the random source is a bad one: each of the 64 fills begins with a zero. No memory is taken.
    pub fn generate_with_prefix<R: CryptoRng>(
        alloc: Global,
        prefix: &[u8],
        rand_len: usize,
        rng: &mut R,
    ) -> Result<SerialNumber<P>, Error>
        ensures lengths { are_lengths prefix.now rand_len ≡ false → IsErrAnd result (λ e. (e.kind ≡ errors.Failed) × (rng.new ≡ rng.old)) }
        ensures ok { IfOk result (λ serial. (fill : List ℕ) × Draws rand_len (R.stream rng.old) fill (R.stream rng.new)
            × (serial ≡ number_content (prefix.now ++ fill))) }
        ensures err { are_lengths prefix.now rand_len ≡ true → IfErr result (λ e. (e.kind ≡ errors.Failed)
            × GivesZeros rand_len (R.stream rng.old) (R.stream rng.new)) }
    {
        if rand_len < FEWEST_RANDOM
            || rand_len > MOST_OCTETS
            || prefix.len() > MOST_OCTETS - rand_len
        {
            return Err(ErrorKind::Failed.into());
        }
        let len = prefix.len() + rand_len;
        let mut octets = [0; MOST_OCTETS];
        octets[..prefix.len()].copy_from_slice(prefix);
        draw(&mut octets[prefix.len()..len], rng)?;
        SerialNumber::new(alloc, &octets[..len])
    }
}

/// Fills the octets until the first isn't zero, at most 64 times; `Failed` where each fill begins with a zero.
fn draw<R: Rng>(octets: &mut [u8], rng: &mut R) -> Result<(), Error>
    requires { 0 < length octets.old }
    ensures ok { OnOk result (Draws (length octets.old) (R.stream rng.old) octets.new (R.stream rng.new)) }
    ensures err { IfErr result (λ e. (e.kind ≡ errors.Failed) × GivesZeros (length octets.old) (R.stream rng.old) (R.stream rng.new)) }
{
    for _done in 0..MOST_FILLS {
        rng.fill_bytes(octets);
        if octets[0] != 0 {
            return Ok(());
        }
    }
    Err(ErrorKind::Failed.into())
}
