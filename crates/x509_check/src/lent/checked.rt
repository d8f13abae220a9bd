//! Fields of a sequence, checked and lent as their elements. Each call takes its field from the front of `rest`, and where there
//! is one leaves what follows it. `rest` has at most [`Length::MAX`](x509_der::Length::MAX) octets.

ghost use Rattle.std.specs.Prelude.{◌≡◌, ◌<◌, ◌≤◌, false, length, Some, None, option_copied, option_map, if◌then◌else◌};
ghost use Rattle.x509_check.specs.Checking.{other_than};
ghost use Rattle.x509_check.specs.Lending.{LendsSoBefore};
ghost use Rattle.x509_der.specs.Element.{limit};
ghost use Rattle.x509_der.specs.Form.{spelling};
ghost use Rattle.x509_der.specs.Frames.{defaulted, explicit, implicit, optional, required};

use crate::check::{Check, pass_whole};
use crate::content::PlainContent;
use crate::element::next_element;
use crate::field::{check_field, check_implicit, check_other, plain_whole};
use crate::lent::fields::take_plain;
use x509_der::{DefaultValue, Error, ErrorKind, FixedTag, Grammar, Tag, implicit_octet};

/// x: a field.
///
/// # Errors
///
/// `Malformed`, or an error of the type's own, exactly where no such field stands at the front.
#[inline(always)]
pub(crate) fn take_field<'a, T: Check>(rest: &mut &'a [u8]) -> Result<&'a [u8], Error>
    requires { length rest.old.now ≤ limit }
    ensures exact { LendsSoBefore (λ value lent. lent.now ≡ spelling T.form value) result rest.new.now ((required T.form).reading rest.old.now) }
    ensures left { length rest.new.now ≤ length rest.old.now }
{
    let front = *rest;
    check_field::<T>(rest)?;
    Ok(&front[..front.len() - rest.len()])
}

/// x: a field of plain data, with its value.
///
/// # Errors
///
/// As [`take_field`].
#[inline(always)]
pub(crate) fn take_with_value<'a, T: PlainContent>(
    rest: &mut &'a [u8],
) -> Result<(&'a [u8], T), Error>
    ensures exact { LendsSoBefore (λ value lent. (lent.0.now ≡ spelling ⟦<T as Grammar>⟧.form value) × (lent.1 ≡ value)) result rest.new.now
        ((required ⟦<T as Grammar>⟧.form).reading rest.old.now) }
    ensures left { length rest.new.now ≤ length rest.old.now }
{
    let front = *rest;
    let value = take_plain::<T>(rest)?;
    Ok((&front[..front.len() - rest.len()], value))
}

/// [n]x?: a field under an implicit tag that may be absent.
///
/// # Errors
///
/// As [`take_field`], where it is there.
#[inline(always)]
pub(crate) fn take_optional_implicit<'a, T: Check + FixedTag>(
    n: u8,
    rest: &mut &'a [u8],
) -> Result<Option<&'a [u8]>, Error>
    requires number { n < 31 }
    requires within { length rest.old.now ≤ limit }
    ensures exact { LendsSoBefore (λ value lent. option_copied lent ≡ option_map (spelling (implicit n T.form)) value) result rest.new.now
        ((optional (implicit n T.form)).reading rest.old.now) }
    ensures left { length rest.new.now ≤ length rest.old.now }
{
    match *rest {
        [octet, ..] if *octet == implicit_octet::<T>(n) => {
            let front = *rest;
            check_implicit::<T>(n, rest)?;
            Ok(Some(&front[..front.len() - rest.len()]))
        }
        _ => Ok(None),
    }
}

/// {n}x: the element inside an explicit tag.
#[inline(always)]
fn take_explicit<'a, T: Check>(n: u8, rest: &mut &'a [u8]) -> Result<&'a [u8], Error>
    requires number { n < 31 }
    requires within { length rest.old.now ≤ limit }
    ensures exact { LendsSoBefore (λ value lent. lent.now ≡ spelling T.form value) result rest.new.now ((required (explicit n T.form)).reading rest.old.now) }
    ensures left { length rest.new.now ≤ length rest.old.now }
{
    let piece = next_element(*rest, Tag::Sequence)?;
    if piece.tag != 0xA0 + n {
        return Err(ErrorKind::Malformed.into());
    }
    *rest = piece.rest;
    pass_whole::<T>(piece.content)?;
    Ok(piece.content)
}

/// {n}x?: the element inside an explicit tag that may be absent.
///
/// # Errors
///
/// As [`take_field`], where it is there.
#[inline(always)]
pub(crate) fn take_optional_explicit<'a, T: Check>(
    n: u8,
    rest: &mut &'a [u8],
) -> Result<Option<&'a [u8]>, Error>
    requires number { n < 31 }
    requires within { length rest.old.now ≤ limit }
    ensures exact { LendsSoBefore (λ value lent. option_copied lent ≡ option_map (spelling T.form) value) result rest.new.now
        ((optional (explicit n T.form)).reading rest.old.now) }
    ensures left { length rest.new.now ≤ length rest.old.now }
{
    match *rest {
        [octet, ..] if *octet == 0xA0 + n => {
            let lent = take_explicit::<T>(n, rest)?;
            Ok(Some(lent))
        }
        _ => Ok(None),
    }
}

/// {n}x: the element inside an explicit tag, of a value that isn't the default.
#[inline(always)]
fn take_other_explicit<'a, T: PlainContent + DefaultValue>(
    n: u8,
    rest: &mut &'a [u8],
) -> Result<&'a [u8], Error>
    requires { n < 31 }
    ensures exact { LendsSoBefore (λ value lent. (lent.now ≡ spelling ⟦<T as Grammar>⟧.form value) × (T.default.is_default value ≡ false)) result rest.new.now
        (other_than T.default ((required (explicit n ⟦<T as Grammar>⟧.form)).reading rest.old.now)) }
    ensures left { length rest.new.now ≤ length rest.old.now }
{
    let piece = next_element(*rest, Tag::Sequence)?;
    if piece.tag != 0xA0 + n {
        return Err(ErrorKind::Malformed.into());
    }
    *rest = piece.rest;
    check_other(plain_whole::<T>(piece.content))?;
    Ok(piece.content)
}

/// {n}x=d: the element inside an explicit tag that is absent exactly where the value is the default (X.690 11.5).
///
/// # Errors
///
/// As [`take_field`], where it is there; `Malformed` too where it is there with its default.
#[inline(always)]
pub(crate) fn take_defaulted_explicit<'a, T: PlainContent + DefaultValue>(
    n: u8,
    rest: &mut &'a [u8],
) -> Result<Option<&'a [u8]>, Error>
    requires { n < 31 }
    ensures exact { LendsSoBefore (λ value lent. option_copied lent ≡
        (if T.default.is_default value then None else Some (spelling ⟦<T as Grammar>⟧.form value))) result rest.new.now
        ((defaulted T.default (explicit n ⟦<T as Grammar>⟧.form)).reading rest.old.now) }
    ensures left { length rest.new.now ≤ length rest.old.now }
{
    match *rest {
        [octet, ..] if *octet == 0xA0 + n => {
            let lent = take_other_explicit::<T>(n, rest)?;
            Ok(Some(lent))
        }
        _ => Ok(None),
    }
}
