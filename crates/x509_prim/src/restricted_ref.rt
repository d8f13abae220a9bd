//! Borrowed restricted character strings.

ghost use Rattle.std.specs.Prelude.{◌≡◌, ◌≢◌, ◌⊎◌, true, false, bytes_eq, IfOk, IfErr, IfSome, IfNone, IsOk};
ghost use Rattle.std.specs.Cmp.{on_equiv, on_per, partial_equiv_from_equiv};
ghost use Rattle.std.specs.Cmp.Lexicographic.{nat_list_eq_equiv};
ghost use Rattle.std.specs.List.{list_all};
ghost use Rattle.x509_der.specs.declared.error.ErrorKind.TheVariants as errors;
ghost use Rattle.x509_der.specs.Tag.{octet_of};
ghost use Rattle.x509_prim.specs.Borrowed.{BorrowsText, BorrowsTextFrom};

use crate::alphabet::Alphabet;
use std::alloc::Global;
use std::marker::PhantomData;
use x509_der::{Any, AnyRef, Error, ErrorKind, FromAny, Tag, TryClone};

/// Whether each character is one of the type's.
pub(crate) fn check_text<A: Alphabet>(octets: &[u8]) -> bool
    ensures { result ≡ list_all A.has_char octets.now }
{
    A::has_chars(octets)
}

/// The octets as a text, where each is a character of the type.
pub fn text_of<A: Alphabet>(octets: &[u8]) -> Option<&str>
    ensures some { IfSome result (λ text. (text.now ≡ octets.now) × (list_all A.has_char octets.now ≡ true)) }
    ensures none { IfNone result (list_all A.has_char octets.now ≡ false) }
{
    if !check_text::<A>(octets) {
        return None;
    }
    // Each character is below 80, so the octets are a text.
    Some(unsafe { std::str::from_utf8_unchecked(octets) })
}

/// A borrowed text of a restricted character string type.
#[derive(Clone, Copy, Debug)]
pub struct RestrictedStringRef<'a, A: Alphabet> {
    text: &'a str,
    alphabet: PhantomData<A>,
}

impl<'a, A: Alphabet> RestrictedStringRef<'a, A> {
    /// The borrowed text.
    ///
    /// # Errors
    ///
    /// `Value` exactly where a character is not one of the type's.
    pub fn new(text: &'a str) -> Result<RestrictedStringRef<'a, A>, Error>
        ensures ok { IfOk result (λ string. (string.text.now ≡ text.now) × (list_all A.has_char text.now ≡ true)) }
        ensures err { IfErr result (λ e. (e.kind ≡ errors.Value) × (list_all A.has_char text.now ≡ false)) }
    {
        if !check_text::<A>(text.as_bytes()) {
            return Err(ErrorKind::Value.into());
        }
        Ok(RestrictedStringRef {
            text,
            alphabet: PhantomData,
        })
    }

    /// The text of an element, borrowed.
    ///
    /// # Errors
    ///
    /// `Malformed` exactly where the element has another identifier, or a character that is not one of the type's.
    pub fn from_any(any: AnyRef<'a>) -> Result<RestrictedStringRef<'a, A>, Error>
        ensures ok { IfOk result (λ string. (string.text.now ≡ any.entry.value.now) × (octet_of any.entry.tag ≡ octet_of A.TAG)
            × (list_all A.has_char any.entry.value.now ≡ true)) }
        ensures err { IfErr result (λ e. (e.kind ≡ errors.Malformed)
            × ((octet_of any.entry.tag ≢ octet_of A.TAG) ⊎ (list_all A.has_char any.entry.value.now ≡ false))) }
    {
        text_in(any.tag(), any.value())
    }

    /// The text.
    pub fn as_str(self) -> &'a str
        ensures { result.now ≡ self.entry.text.now }
    {
        self.text
    }
}

/// The text in an element with this identifier and this content.
pub(crate) fn text_in<'a, A: Alphabet>(
    tag: Tag,
    octets: &'a [u8],
) -> Result<RestrictedStringRef<'a, A>, Error>
    ensures { BorrowsText (λ string. string.text.now) A.TAG (list_all A.has_char) tag octets.now result }
{
    if tag.octet() != A::TAG.octet() {
        return Err(ErrorKind::Malformed.into());
    }
    let Some(text) = text_of::<A>(octets) else {
        return Err(ErrorKind::Malformed.into());
    };
    Ok(RestrictedStringRef {
        text,
        alphabet: PhantomData,
    })
}

/// The text of an element; `Malformed` exactly where it has another identifier, or a character that is not one of the
/// type's. It takes no memory.
impl<'a, A: Alphabet> FromAny<'a> for RestrictedStringRef<'a, A> {
    ghost from_any_gives = { BorrowsTextFrom (λ string. string.text.now) A.TAG (list_all A.has_char) };

    fn from_any(_alloc: Global, any: &'a Any) -> Result<RestrictedStringRef<'a, A>, Error> {
        text_in(any.tag(), any.value())
    }
}

impl<A: Alphabet> TryClone for RestrictedStringRef<'_, A> {
    fn try_clone(&self, _alloc: Global) -> Result<Self, Error>
        ensures ok { IfOk result (λ copy. copy ≡ self.now) }
        ensures err { IfErr result (λ e. e.kind ≡ errors.Memory) }
        ensures always { IsOk result }
    {
        Ok(RestrictedStringRef {
            text: self.text,
            alphabet: PhantomData,
        })
    }
}

impl<A: Alphabet> PartialEq for RestrictedStringRef<'_, A> {
    ghost eq = { λ a b. bytes_eq a.text.now b.text.now };

    ghost laws = { on_per (λ string. string.text.now) (partial_equiv_from_equiv nat_list_eq_equiv) };

    fn eq(&self, other: &Self) -> bool {
        self.text.as_bytes() == other.text.as_bytes()
    }
}

impl<A: Alphabet> Eq for RestrictedStringRef<'_, A> {
    ghost laws = { on_equiv (λ string. string.text.now) nat_list_eq_equiv };
}
