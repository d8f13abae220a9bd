//! Checking an encoding.

ghost use Rattle.std.specs.Prelude.{◌≤◌, length};
ghost use Rattle.x509_check.specs.Checking.{checked, Finds};
ghost use Rattle.x509_der.specs.Element.{limit};
ghost use Rattle.x509_der.specs.Outcome.{Answers};
ghost use Rattle.x509_der.specs.Form.{whole_reading};

use crate::element::next_element;
use x509_der::{Error, ErrorKind, Grammar, Length};

/// A type of which an encoding is told from other bytes without a value and without memory.
pub trait Check: Grammar {
    ghost use Rattle.std.specs.Prelude.{◌≡◌, length, ◌<◌, ◌≤◌, ◌⊎◌, IfErr, IsErrAnd, IsOk, OnOk};
    ghost use Rattle.x509_check.specs.Checking.{checked, Finds};
    ghost use Rattle.x509_der.specs.Element.{limit};
    ghost use Rattle.x509_der.specs.Outcome.{Answers};
    ghost use Rattle.x509_der.specs.declared.error.ErrorKind.TheVariants as errors;
    ghost use Rattle.x509_der.specs.Form.{Spells, whole_reading};

    /// Checks an element with this identifier octet and this content, of at most [`Length::MAX`] octets.
    ///
    /// # Errors
    ///
    /// `Malformed`, or an error of the type's own, exactly where it is the element of no value.
    fn check_element(tag: u8, content: &[u8]) -> Result<(), Error>
        requires { length content.now ≤ limit }
        ensures { Answers result (checked (Self.form.reading tag content.now)) };

    /// As [`Check::check_element`], which a type writes. This one is for callers: where it passes, their proofs know a
    /// value.
    ///
    /// # Errors
    ///
    /// Those of [`Check::check_element`].
    #[inline(always)]
    final fn pass_element(tag: u8, content: &[u8]) -> Result<(), Error>
        requires { length content.now ≤ limit }
        ensures { Finds result (Self.form.reading tag content.now) }
    {
        Self::check_element(tag, content)
    }

    /// Checks that the bytes are the encoding of a value: it passes exactly where `from_der` answers a value, out of
    /// memory aside. It takes no memory.
    ///
    /// # Errors
    ///
    /// `Overlength` exactly where the bytes are more than [`Length::MAX`]. Within that length `Malformed`, or an error
    /// of the type's own, exactly where they are the encoding of no value: the error that `from_der` answers.
    final fn check(bytes: &[u8]) -> Result<(), Error>
        ensures found { OnOk result ((value : Self) × Spells Self.form value bytes.now) }
        ensures overlength { limit < length bytes.now → IsErrAnd result (λ e. e.kind ≡ errors.Overlength) }
        ensures refused { length bytes.now ≤ limit → IfErr result (λ e. (e.kind ≡ errors.Malformed) ⊎ Self.refuses e.kind) }
        ensures every { (value : Self) → Spells Self.form value bytes.now → IsOk result }
        ensures which { length bytes.now ≤ limit → Finds result (whole_reading Self.form.reading bytes.now) }
    {
        if bytes.len() > Length::MAX.as_u32() as usize {
            return Err(ErrorKind::Overlength.into());
        }
        pass_whole::<Self>(bytes)
    }
}

/// Checks one element with nothing after it, of at most [`Length::MAX`] octets.
///
/// # Errors
///
/// `Malformed`, or an error of the type's own, exactly where the bytes are the encoding of no value.
#[tactic(auto, unfolding(x509_der::specs::Form::whole_reading))]
#[inline(always)]
pub fn check_whole<T: Check>(bytes: &[u8]) -> Result<(), Error>
    requires { length bytes.now ≤ limit }
    ensures { Answers result (checked (whole_reading T.form.reading bytes.now)) }
{
    let piece = next_element(bytes, T::usual())?;
    if !piece.rest.is_empty() {
        return Err(ErrorKind::Malformed.into());
    }
    T::check_element(piece.tag, piece.content)
}

/// As [`check_whole`], with the value that there is, for proofs.
///
/// # Errors
///
/// Those of [`check_whole`].
#[inline(always)]
pub fn pass_whole<T: Check>(bytes: &[u8]) -> Result<(), Error>
    requires { length bytes.now ≤ limit }
    ensures { Finds result (whole_reading T.form.reading bytes.now) }
{
    check_whole::<T>(bytes)
}
