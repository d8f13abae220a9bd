//! Types with an encoding in the presentation language of TLS.

ghost use Rattle.std.specs.Prelude.{◌≡◌, IfErr};
ghost use Rattle.x509_sct.specs.declared.tls.error.TlsError.TheVariants.{Memory};
ghost use Rattle.x509_sct.specs.Answers.{Answers};
ghost use Rattle.x509_sct.specs.FieldReading.{whole_at};
ghost use Rattle.x509_sct.specs.Form.{Spells, IsWholeFault};
ghost use Rattle.x509_sct.specs.Outcome.{GivesBy};

use crate::tls::error::TlsError;
use std::alloc::{AllocError, Global};

/// A type with an encoding in the presentation language of TLS (RFC 5246 section 4).
pub trait Tls: Sized {
    ghost use Rattle.std.specs.Prelude.{◌≡◌, ◌++◌, length, List, ℕ, IfOk, IfErr, OnOk};
    ghost use Rattle.x509_sct.specs.declared.tls.error.TlsError.TheVariants.{Memory};
    ghost use Rattle.x509_sct.specs.Answers.{Answers};
    ghost use Rattle.x509_sct.specs.Form.{Form, IsForm, Begins, Spells};
    ghost use Rattle.x509_sct.specs.Outcome.{GivesBy};

    /// The bytes of each value, and which values have bytes.
    ghost form: { Form Self };

    /// Whether decoding may take memory.
    ghost wants_memory: { Type 0 } = { Unit };

    /// The value that the bytes begin with, and what follows it.
    ///
    /// # Errors
    ///
    /// The first error from the left, as the form says it; `Memory` when out of memory, only where decoding the type
    /// may take memory.
    fn take(alloc: Global, bytes: &[u8]) -> Result<(Self, &[u8]), TlsError>
        ensures exact { GivesBy (λ x. (x.0, x.1.now)) result (form.reading bytes.now) }
        ensures memory { IfErr result (λ e. e ≡ Memory → wants_memory) };

    /// How many bytes the value has.
    fn tls_len(&self) -> usize
        ensures { result ≡ length (form.bytes self.now) };

    /// Puts the encoding of the value behind the bytes that stand.
    ///
    /// # Errors
    ///
    /// `AllocError` when out of memory; then `out` may hold a part of the encoding.
    fn put(&self, out: &mut Vec<u8>) -> Result<(), AllocError>
        ensures good { OnOk result (form.good self.now) }
        ensures bytes { OnOk result (out.new.items ≡ out.old.items ++ form.bytes self.now) };

    /// The encoding of the value.
    ///
    /// # Errors
    ///
    /// `Memory` when out of memory, and nothing else.
    final fn tls_serialize(&self, alloc: Global) -> Result<Vec<u8>, TlsError>
        ensures ok { IfOk result (λ bytes. Spells form self.now bytes.items) }
        ensures err { IfErr result (λ e. e ≡ Memory) }
    {
        let mut out = Vec::with_capacity(alloc, self.tls_len())?;
        self.put(&mut out)?;
        Ok(out)
    }

    /// The value that the bytes begin with, and what follows it.
    ///
    /// # Errors
    ///
    /// Where the bytes begin with no value, the first error from the left: `EndOfStream` where bytes of a field are
    /// missing, `UnknownValue` for a byte without a name. `Memory` when out of memory, only where decoding the type may
    /// take memory.
    final fn tls_deserialize_bytes(alloc: Global, bytes: &[u8]) -> Result<(Self, &[u8]), TlsError>
        ensures { Answers {Y = Self × List ℕ} (λ x. (x.0, x.1.now)) (λ e. e) (λ x. Begins form x.0 x.1 bytes.now) (form.fault bytes.now) wants_memory result }
    {
        Self::take(alloc, bytes)
    }

    ghost lawful: { IsForm form };
}

/// The value of which the bytes, all of them, are the encoding.
///
/// # Errors
///
/// The first error from the left, or `TrailingData` where the bytes begin with a value and something follows it.
/// `Memory` when out of memory, only where decoding the type may take memory.
pub fn read_whole<T: Tls + Drop>(alloc: Global, bytes: &[u8]) -> Result<T, TlsError>
    ensures { Answers (λ x. x) (λ e. e) (λ x. Spells T.form x bytes.now) (IsWholeFault T.form bytes.now) T.wants_memory result }
{
    take_whole(alloc, bytes)
}

/// What [`read_whole`] answers, as the form says it.
#[tactic(auto, unfolding(crate::specs::FieldReading::whole_at))]
fn take_whole<T: Tls + Drop>(alloc: Global, bytes: &[u8]) -> Result<T, TlsError>
    ensures exact { GivesBy (λ x. x) result (whole_at T.form.reading bytes.now) }
    ensures memory { IfErr result (λ e. e ≡ Memory → T.wants_memory) }
{
    let (value, rest) = T::take(alloc, bytes)?;
    if !rest.is_empty() {
        return Err(TlsError::TrailingData);
    }
    Ok(value)
}
