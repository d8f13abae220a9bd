//! Checking the fields of a sequence. Each check begins at the front of `rest`, and where it passes leaves there what
//! follows its field. x is a field, `{n}x` the same under an explicit tag of the number n, `[n]x` under an implicit one,
//! `x?` may be absent, `x=d` has the default d. n is 0 to 30, the numbers that one identifier octet has (X.690 8.1.2.2).
//! `rest` has at most [`Length::MAX`](x509_der::Length::MAX) octets.

ghost use Rattle.std.specs.Prelude.{◌≡◌, ◌<◌, ◌≤◌, length, Result};
ghost use Rattle.x509_check.specs.Checking.{checked, other_than, other_value, Passes};
ghost use Rattle.x509_der.specs.Element.{limit};
ghost use Rattle.x509_der.specs.Outcome.{Answers};
ghost use Rattle.x509_der.specs.declared.error.ErrorKind.{ErrorKind};
ghost use Rattle.x509_der.specs.Frames.{defaulted, explicit, implicit, optional, required};
ghost use Rattle.x509_der.specs.Form.{one_tag, whole_reading};

use crate::check::{Check, check_whole};
use crate::content::PlainContent;
use crate::element::next_element;
use x509_der::{
    DefaultValue, Error, ErrorKind, FixedTag, Grammar, Tag, expect_tag, implicit_octet,
};

/// The identifier octet of a type with one.
#[inline(always)]
fn own_octet<T: FixedTag>() -> u8
    ensures { result ≡ one_tag T.form }
{
    T::TAG.octet()
}

/// x: a field that is required.
///
/// # Errors
///
/// `Malformed`, or an error of the type's own, exactly where no such field stands at the front of `rest`.
#[inline(always)]
pub fn check_field<T: Check>(rest: &mut &[u8]) -> Result<(), Error>
    requires { length rest.old.now ≤ limit }
    ensures exact { Passes result rest.new.now ((required T.form).reading rest.old.now) }
    ensures left { length rest.new.now ≤ length rest.old.now }
{
    let piece = next_element(*rest, T::usual())?;
    *rest = piece.rest;
    T::check_element(piece.tag, piece.content)
}

/// {n}x: a field under an explicit tag, in an element of its own with the identifier octet A0 + n (X.690 8.14.2).
///
/// # Errors
///
/// As [`check_field`].
#[inline(always)]
pub fn check_explicit<T: Check>(n: u8, rest: &mut &[u8]) -> Result<(), Error>
    requires number { n < 31 }
    requires within { length rest.old.now ≤ limit }
    ensures exact { Passes result rest.new.now ((required (explicit n T.form)).reading rest.old.now) }
    ensures left { length rest.new.now ≤ length rest.old.now }
{
    let piece = next_element(*rest, Tag::Sequence)?;
    if piece.tag != 0xA0 + n {
        return Err(ErrorKind::Malformed.into());
    }
    *rest = piece.rest;
    check_whole::<T>(piece.content)
}

/// [n]x: a field under an implicit tag, the identifier octet 80 + n, or A0 + n where its content is elements (X.690
/// 8.14.3).
///
/// # Errors
///
/// As [`check_field`].
#[inline(always)]
pub fn check_implicit<T: Check + FixedTag>(n: u8, rest: &mut &[u8]) -> Result<(), Error>
    requires number { n < 31 }
    requires within { length rest.old.now ≤ limit }
    ensures exact { Passes result rest.new.now ((required (implicit n T.form)).reading rest.old.now) }
    ensures left { length rest.new.now ≤ length rest.old.now }
{
    let piece = next_element(*rest, Tag::Sequence)?;
    if piece.tag != implicit_octet::<T>(n) {
        return Err(ErrorKind::Malformed.into());
    }
    *rest = piece.rest;
    T::check_element(own_octet::<T>(), piece.content)
}

/// x?: a field that may be absent; it is there where the next identifier octet may begin one (X.690 8.9.3).
///
/// # Errors
///
/// As [`check_field`], where it is there.
#[inline(always)]
pub fn check_optional<T: Check>(rest: &mut &[u8]) -> Result<(), Error>
    requires { length rest.old.now ≤ limit }
    ensures exact { Passes result rest.new.now ((optional T.form).reading rest.old.now) }
    ensures left { length rest.new.now ≤ length rest.old.now }
{
    match *rest {
        [octet, ..] if T::is_start(*octet) => check_field::<T>(rest),
        _ => Ok(()),
    }
}

/// {n}x?: the same under an explicit tag.
///
/// # Errors
///
/// As [`check_field`], where it is there.
#[inline(always)]
pub fn check_optional_explicit<T: Check>(n: u8, rest: &mut &[u8]) -> Result<(), Error>
    requires number { n < 31 }
    requires within { length rest.old.now ≤ limit }
    ensures exact { Passes result rest.new.now ((optional (explicit n T.form)).reading rest.old.now) }
    ensures left { length rest.new.now ≤ length rest.old.now }
{
    match *rest {
        [octet, ..] if *octet == 0xA0 + n => check_explicit::<T>(n, rest),
        _ => Ok(()),
    }
}

/// [n]x?: the same under an implicit tag.
///
/// # Errors
///
/// As [`check_field`], where it is there.
#[inline(always)]
pub fn check_optional_implicit<T: Check + FixedTag>(n: u8, rest: &mut &[u8]) -> Result<(), Error>
    requires number { n < 31 }
    requires within { length rest.old.now ≤ limit }
    ensures exact { Passes result rest.new.now ((optional (implicit n T.form)).reading rest.old.now) }
    ensures left { length rest.new.now ≤ length rest.old.now }
{
    match *rest {
        [octet, ..] if *octet == implicit_octet::<T>(n) => check_implicit::<T>(n, rest),
        _ => Ok(()),
    }
}

/// The value of an element, which is plain data.
#[inline(always)]
pub(crate) fn plain_element<T: PlainContent>(tag: u8, content: &[u8]) -> Result<T, Error>
    ensures { Answers result (⟦<T as Grammar>⟧.form.reading tag content.now) }
{
    expect_tag(tag, T::IDENTIFIER)?;
    T::plain_value(content)
}

/// The value of one element with nothing after it, which is plain data.
#[tactic(auto, unfolding(x509_der::specs::Form::whole_reading))]
#[inline(always)]
pub(crate) fn plain_whole<T: PlainContent>(bytes: &[u8]) -> Result<T, Error>
    ensures { Answers result (whole_reading ⟦<T as Grammar>⟧.form.reading bytes.now) }
{
    let piece = next_element(bytes, T::IDENTIFIER)?;
    if !piece.rest.is_empty() {
        return Err(ErrorKind::Malformed.into());
    }
    plain_element::<T>(piece.tag, piece.content)
}

/// Checks a value that was read where it isn't the default; `Malformed` where it is.
#[inline(always)]
pub(crate) fn check_other<T: DefaultValue>(read: Result<T, Error>) -> Result<(), Error>
    ensures { (reading : Result T ErrorKind) → Answers read reading → Answers result (checked (other_value T.default reading)) }
{
    if read?.is_default() {
        return Err(ErrorKind::Malformed.into());
    }
    Ok(())
}

/// A field that isn't the default.
#[inline(always)]
fn check_other_field<T: PlainContent + DefaultValue>(rest: &mut &[u8]) -> Result<(), Error>
    ensures exact { Passes result rest.new.now (other_than T.default ((required ⟦<T as Grammar>⟧.form).reading rest.old.now)) }
    ensures left { length rest.new.now ≤ length rest.old.now }
{
    let piece = next_element(*rest, T::IDENTIFIER)?;
    *rest = piece.rest;
    check_other(plain_element::<T>(piece.tag, piece.content))
}

/// {n}x: a field under an explicit tag that isn't the default.
#[inline(always)]
fn check_other_explicit<T: PlainContent + DefaultValue>(
    n: u8,
    rest: &mut &[u8],
) -> Result<(), Error>
    requires { n < 31 }
    ensures exact { Passes result rest.new.now (other_than T.default ((required (explicit n ⟦<T as Grammar>⟧.form)).reading rest.old.now)) }
    ensures left { length rest.new.now ≤ length rest.old.now }
{
    let piece = next_element(*rest, Tag::Sequence)?;
    if piece.tag != 0xA0 + n {
        return Err(ErrorKind::Malformed.into());
    }
    *rest = piece.rest;
    check_other(plain_whole::<T>(piece.content))
}

/// [n]x: a field under an implicit tag that isn't the default.
#[inline(always)]
fn check_other_implicit<T: PlainContent + DefaultValue>(
    n: u8,
    rest: &mut &[u8],
) -> Result<(), Error>
    requires { n < 31 }
    ensures exact { Passes result rest.new.now (other_than T.default ((required (implicit n ⟦<T as Grammar>⟧.form)).reading rest.old.now)) }
    ensures left { length rest.new.now ≤ length rest.old.now }
{
    let piece = next_element(*rest, Tag::Sequence)?;
    if piece.tag != implicit_octet::<T>(n) {
        return Err(ErrorKind::Malformed.into());
    }
    *rest = piece.rest;
    check_other(plain_element::<T>(own_octet::<T>(), piece.content))
}

/// x=d: a field that is absent exactly where it has its default (X.690 11.5).
///
/// # Errors
///
/// As [`check_field`], where it is there; `Malformed` too where it is there with its default.
#[inline(always)]
pub fn check_defaulted<T: PlainContent + DefaultValue>(rest: &mut &[u8]) -> Result<(), Error>
    ensures exact { Passes result rest.new.now ((defaulted T.default ⟦<T as Grammar>⟧.form).reading rest.old.now) }
    ensures left { length rest.new.now ≤ length rest.old.now }
{
    match *rest {
        [octet, ..] if T::is_start(*octet) => check_other_field::<T>(rest),
        _ => Ok(()),
    }
}

/// {n}x=d: the same under an explicit tag.
///
/// # Errors
///
/// As [`check_defaulted`].
#[inline(always)]
pub fn check_defaulted_explicit<T: PlainContent + DefaultValue>(
    n: u8,
    rest: &mut &[u8],
) -> Result<(), Error>
    requires { n < 31 }
    ensures exact { Passes result rest.new.now ((defaulted T.default (explicit n ⟦<T as Grammar>⟧.form)).reading rest.old.now) }
    ensures left { length rest.new.now ≤ length rest.old.now }
{
    match *rest {
        [octet, ..] if *octet == 0xA0 + n => check_other_explicit::<T>(n, rest),
        _ => Ok(()),
    }
}

/// [n]x=d: the same under an implicit tag.
///
/// # Errors
///
/// As [`check_defaulted`].
#[inline(always)]
pub fn check_defaulted_implicit<T: PlainContent + DefaultValue>(
    n: u8,
    rest: &mut &[u8],
) -> Result<(), Error>
    requires { n < 31 }
    ensures exact { Passes result rest.new.now ((defaulted T.default (implicit n ⟦<T as Grammar>⟧.form)).reading rest.old.now) }
    ensures left { length rest.new.now ≤ length rest.old.now }
{
    match *rest {
        [octet, ..] if *octet == implicit_octet::<T>(n) => check_other_implicit::<T>(n, rest),
        _ => Ok(()),
    }
}
