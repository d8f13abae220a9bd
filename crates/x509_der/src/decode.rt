//! Decoding a value from its one encoding.

ghost use Rattle.std.specs.Prelude.{◌≡◌, IfErr};
ghost use Rattle.x509_der.specs.declared.error.ErrorKind.TheVariants.{Malformed, Memory};
ghost use Rattle.x509_der.specs.Outcome.{Gives};
ghost use Rattle.x509_der.specs.Form.{whole_reading, tag_at};
ghost use Rattle.x509_der.specs.Tag.{octet_of};

use crate::grammar::Grammar;
use crate::{Error, ErrorKind, Length, Tag, split_usual};
use std::alloc::Global;

/// A type that is decoded from its DER encoding.
pub trait Decode: Grammar {
    ghost use Rattle.std.specs.Prelude.{◌≡◌, length, ◌<◌, ◌≤◌, ◌⊎◌, IfOk, IfErr, IsErrAnd};
    ghost use Rattle.x509_der.specs.Outcome.{Gives};
    ghost use Rattle.x509_der.specs.Element.{limit};
    ghost use Rattle.x509_der.specs.Form.{Spells, whole_reading};
    ghost use Rattle.x509_der.specs.declared.error.ErrorKind.TheVariants as errors;

    /// Whether decoding may take memory.
    ghost wants_memory: { Type 0 } = { Unit };

    /// The value of an element with this identifier octet and this content.
    ///
    /// # Errors
    ///
    /// `Malformed`, or an error of the type's own, exactly where it is the element of no value. `Memory` when out of
    /// memory, only where decoding the type may take memory.
    fn read(alloc: Global, tag: u8, content: &[u8]) -> Result<Self, Error>
        ensures exact { Gives result (Self.form.reading tag content.now) }
        ensures memory { IfErr result (λ e. e.kind ≡ errors.Memory → Self.wants_memory) };

    /// The one value of which the bytes are the encoding.
    ///
    /// # Errors
    ///
    /// `Overlength` exactly where the bytes are more than [`Length::MAX`]. Within that length `Malformed`, or an error
    /// of the type's own, exactly where they are the encoding of no value. `Memory` when out of memory, only where
    /// decoding the type may take memory.
    #[tactic(auto, unfolding(crate::specs::Form::whole_reading), using(crate::specs::FormLaws::whole_sound, crate::specs::FormLaws::whole_complete, crate::specs::FormLaws::whole_refused))]
    final fn from_der(alloc: Global, bytes: &[u8]) -> Result<Self, Error>
        ensures found { IfOk result (λ value. Spells Self.form value bytes.now) }
        ensures overlength { limit < length bytes.now → IsErrAnd result (λ e. e.kind ≡ errors.Overlength) }
        ensures refused { length bytes.now ≤ limit → IfErr result (λ e. ((e.kind ≡ errors.Memory) × Self.wants_memory)
            ⊎ ((e.kind ≡ errors.Malformed) ⊎ Self.refuses e.kind)) }
        ensures only { length bytes.now ≤ limit → (value : Self) → Spells Self.form value bytes.now
            → IfErr result (λ e. (e.kind ≡ errors.Memory) × Self.wants_memory) }
        ensures value { (value : Self) → Spells Self.form value bytes.now → IfOk result (λ found. found ≡ value) }
        ensures which { length bytes.now ≤ limit → Gives result (whole_reading Self.form.reading bytes.now) }
    {
        if bytes.len() > Length::MAX.as_u32() as usize {
            return Err(ErrorKind::Overlength.into());
        }
        read_whole::<Self>(alloc, bytes)
    }
}

/// The value of one element with nothing after it.
///
/// # Errors
///
/// `Malformed`, or an error of the type's own, exactly where the bytes are the encoding of no value. `Memory` when out
/// of memory, only where decoding the type may take memory.
#[tactic(auto, unfolding(crate::specs::Form::whole_reading))]
#[inline(always)]
pub fn read_whole<T: Decode>(alloc: Global, bytes: &[u8]) -> Result<T, Error>
    ensures exact { Gives result (whole_reading T.form.reading bytes.now) }
    ensures memory { IfErr result (λ e. e.kind ≡ Memory → T.wants_memory) }
{
    let piece = split_usual(bytes, T::usual())?;
    if !piece.rest.is_empty() {
        return Err(ErrorKind::Malformed.into());
    }
    T::read(alloc, piece.tag, piece.content)
}

/// Checks that the identifier octet is that of the tag.
///
/// # Errors
///
/// `Malformed` exactly where it isn't.
#[inline(always)]
pub fn expect_tag(tag: u8, wanted: Tag) -> Result<(), Error>
    ensures exact { Gives result (tag_at tag (octet_of wanted)) }
    ensures err { IfErr result (λ e. e.kind ≡ Malformed) }
{
    if tag == wanted.octet() {
        Ok(())
    } else {
        Err(ErrorKind::Malformed.into())
    }
}
