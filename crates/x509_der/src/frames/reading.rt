//! Decoding the fields of a sequence. Each reader takes its field from the front of `rest`, and leaves there what
//! follows it. x is a field, `{n}x` the same under an explicit tag of the number n, `[n]x` under an implicit one, `x?`
//! may be absent, `x=d` has the default d. n is 0 to 30, the numbers that one identifier octet has (X.690 8.1.2.2).

ghost use Rattle.std.specs.Prelude.{◌≡◌, ◌<◌, IfErr, List, MatchResult, OnErr, ℕ};
ghost use Rattle.x509_der.specs.declared.error.ErrorKind.TheVariants.{Malformed, Memory};
ghost use Rattle.x509_der.specs.Outcome.{Gives, GivesBefore};
ghost use Rattle.x509_der.specs.Form.{one_tag};
ghost use Rattle.x509_der.specs.Frames.{optional, default_of, defaulted, explicit, implicit, implicit_tag, required, end_at};

use crate::frames::default_value::DefaultValue;
use crate::{Decode, Error, ErrorKind, FixedTag, read_whole, split_element, split_usual};
use std::alloc::Global;

/// The end of a sequence.
///
/// # Errors
///
/// `Malformed` exactly where bytes are left.
#[inline(always)]
pub fn end(rest: &[u8]) -> Result<(), Error>
    ensures exact { Gives result (end_at rest.now) }
    ensures err { IfErr result (λ e. e.kind ≡ Malformed) }
{
    if rest.is_empty() {
        Ok(())
    } else {
        Err(ErrorKind::Malformed.into())
    }
}

/// The identifier octet of a type with one.
#[inline(always)]
fn own_octet<T: FixedTag>() -> u8
    ensures { result ≡ one_tag T.form }
{
    T::TAG.octet()
}

/// The identifier octet under [n], which is an implicit tag, of a type with a tag of its own (X.690 8.14.3); n is 0 to
/// 30.
#[inline(always)]
pub fn implicit_octet<T: FixedTag>(n: u8) -> u8
    requires { n < 31 }
    ensures { result ≡ implicit_tag n (one_tag T.form) }
{
    if own_octet::<T>() % 64 < 32 {
        0x80 + n
    } else {
        0xA0 + n
    }
}

/// x: a field that is required.
///
/// # Errors
///
/// `Malformed`, or an error of the type's own, exactly where no such field stands at the front of `rest`. `Memory` when
/// out of memory, only where decoding the type may take memory. On an error `rest` is unchanged.
#[tactic(auto, unfolding(crate::specs::Frames::field_at))]
#[inline(always)]
pub fn read_field<T: Decode>(alloc: Global, rest: &mut &[u8]) -> Result<T, Error>
    ensures exact { GivesBefore result rest.new.now ((required T.form).reading rest.old.now) }
    ensures unchanged { OnErr result (rest.new.now ≡ rest.old.now) }
    ensures memory { IfErr result (λ e. e.kind ≡ Memory → T.wants_memory) }
{
    let piece = split_usual(*rest, T::usual())?;
    let result = T::read(alloc, piece.tag, piece.content);
    if result.is_ok() {
        *rest = piece.rest;
    }
    result
}

/// {n}x: a field under an explicit tag, in an element of its own with the identifier octet A0 + n (X.690 8.14.2); n is
/// 0 to 30.
///
/// # Errors
///
/// As [`read_field`].
#[tactic(auto, unfolding(crate::specs::Frames::field_at))]
#[inline(always)]
pub fn read_explicit<T: Decode>(alloc: Global, n: u8, rest: &mut &[u8]) -> Result<T, Error>
    requires { n < 31 }
    ensures exact { GivesBefore result rest.new.now ((required (explicit n T.form)).reading rest.old.now) }
    ensures unchanged { OnErr result (rest.new.now ≡ rest.old.now) }
    ensures memory { IfErr result (λ e. e.kind ≡ Memory → T.wants_memory) }
{
    let piece = split_element(*rest)?;
    if piece.tag != 0xA0 + n {
        return Err(ErrorKind::Malformed.into());
    }
    let result = read_whole::<T>(alloc, piece.content);
    if result.is_ok() {
        *rest = piece.rest;
    }
    result
}

/// [n]x: a field under an implicit tag, the identifier octet 80 + n, or A0 + n where its content is elements (X.690
/// 8.14.3); n is 0 to 30.
///
/// # Errors
///
/// As [`read_field`].
#[tactic(auto, unfolding(crate::specs::Frames::field_at))]
#[inline(always)]
pub fn read_implicit<T: Decode + FixedTag>(
    alloc: Global,
    n: u8,
    rest: &mut &[u8],
) -> Result<T, Error>
    requires { n < 31 }
    ensures exact { GivesBefore result rest.new.now ((required (implicit n T.form)).reading rest.old.now) }
    ensures unchanged { OnErr result (rest.new.now ≡ rest.old.now) }
    ensures memory { IfErr result (λ e. e.kind ≡ Memory → T.wants_memory) }
{
    let piece = split_element(*rest)?;
    if piece.tag != implicit_octet::<T>(n) {
        return Err(ErrorKind::Malformed.into());
    }
    let result = T::read(alloc, own_octet::<T>(), piece.content);
    if result.is_ok() {
        *rest = piece.rest;
    }
    result
}

/// x?: a field that may be absent; it is there where the next identifier octet may begin one (X.690 8.9.3).
///
/// # Errors
///
/// As [`read_field`], where it is there.
#[tactic(auto, unfolding(crate::specs::Frames::optional_at))]
#[inline(always)]
pub fn read_optional<T: Decode>(alloc: Global, rest: &mut &[u8]) -> Result<Option<T>, Error>
    ensures exact { GivesBefore result rest.new.now ((optional T.form).reading rest.old.now) }
    ensures unchanged { OnErr result (rest.new.now ≡ rest.old.now) }
    ensures memory { IfErr result (λ e. e.kind ≡ Memory → T.wants_memory) }
{
    match *rest {
        [octet, ..] if T::is_start(*octet) => Ok(Some(read_field::<T>(alloc, rest)?)),
        _ => Ok(None),
    }
}

/// {n}x?: the same under an explicit tag; n is 0 to 30.
///
/// # Errors
///
/// As [`read_field`], where it is there.
#[tactic(auto, unfolding(crate::specs::Frames::optional_at))]
#[inline(always)]
pub fn read_optional_explicit<T: Decode>(
    alloc: Global,
    n: u8,
    rest: &mut &[u8],
) -> Result<Option<T>, Error>
    requires { n < 31 }
    ensures exact { GivesBefore result rest.new.now ((optional (explicit n T.form)).reading rest.old.now) }
    ensures unchanged { OnErr result (rest.new.now ≡ rest.old.now) }
    ensures memory { IfErr result (λ e. e.kind ≡ Memory → T.wants_memory) }
{
    match *rest {
        [octet, ..] if *octet == 0xA0 + n => Ok(Some(read_explicit::<T>(alloc, n, rest)?)),
        _ => Ok(None),
    }
}

/// [n]x?: the same under an implicit tag; n is 0 to 30.
///
/// # Errors
///
/// As [`read_field`], where it is there.
#[tactic(auto, unfolding(crate::specs::Frames::optional_at))]
#[inline(always)]
pub fn read_optional_implicit<T: Decode + FixedTag>(
    alloc: Global,
    n: u8,
    rest: &mut &[u8],
) -> Result<Option<T>, Error>
    requires { n < 31 }
    ensures exact { GivesBefore result rest.new.now ((optional (implicit n T.form)).reading rest.old.now) }
    ensures unchanged { OnErr result (rest.new.now ≡ rest.old.now) }
    ensures memory { IfErr result (λ e. e.kind ≡ Memory → T.wants_memory) }
{
    match *rest {
        [octet, ..] if *octet == implicit_octet::<T>(n) => Ok(Some(read_implicit::<T>(
            alloc, n, rest,
        )?)),
        _ => Ok(None),
    }
}

/// The value of a field with a default: what was found, or the default where it is absent.
///
/// # Errors
///
/// `Malformed` exactly where the default was found (X.690 11.5).
#[inline(always)]
fn or_default<T: DefaultValue>(found: Option<T>) -> Result<T, Error>
    ensures exact { MatchResult result (λ value. (behind : List ℕ) → default_of T.default (found, behind) ≡ Ok (value, behind)) (λ e. (behind : List ℕ)
        → default_of T.default (found, behind) ≡ Err Malformed) }
    ensures err { IfErr result (λ e. e.kind ≡ Malformed) }
{
    match found {
        None => Ok(T::default_value()),
        Some(value) => {
            if value.is_default() {
                return Err(ErrorKind::Malformed.into());
            }
            Ok(value)
        }
    }
}

/// x=d: a field that is absent exactly where it has its default (X.690 11.5).
///
/// # Errors
///
/// As [`read_field`], where it is there; `Malformed` too where it is there with its default.
#[tactic(auto, unfolding(crate::specs::Frames::default_at))]
#[inline(always)]
pub fn read_defaulted<T: Decode + DefaultValue>(alloc: Global, rest: &mut &[u8]) -> Result<T, Error>
    ensures exact { GivesBefore result rest.new.now ((defaulted T.default T.form).reading rest.old.now) }
    ensures unchanged { OnErr result (rest.new.now ≡ rest.old.now) }
    ensures memory { IfErr result (λ e. e.kind ≡ Memory → T.wants_memory) }
{
    let mut ahead = *rest;
    let found = read_optional::<T>(alloc, &mut ahead)?;
    let value = or_default(found)?;
    *rest = ahead;
    Ok(value)
}

/// {n}x=d: the same under an explicit tag; n is 0 to 30.
///
/// # Errors
///
/// As [`read_defaulted`].
#[tactic(auto, unfolding(crate::specs::Frames::default_at))]
#[inline(always)]
pub fn read_defaulted_explicit<T: Decode + DefaultValue>(
    alloc: Global,
    n: u8,
    rest: &mut &[u8],
) -> Result<T, Error>
    requires { n < 31 }
    ensures exact { GivesBefore result rest.new.now ((defaulted T.default (explicit n T.form)).reading rest.old.now) }
    ensures unchanged { OnErr result (rest.new.now ≡ rest.old.now) }
    ensures memory { IfErr result (λ e. e.kind ≡ Memory → T.wants_memory) }
{
    let mut ahead = *rest;
    let found = read_optional_explicit::<T>(alloc, n, &mut ahead)?;
    let value = or_default(found)?;
    *rest = ahead;
    Ok(value)
}

/// [n]x=d: the same under an implicit tag; n is 0 to 30.
///
/// # Errors
///
/// As [`read_defaulted`].
#[tactic(auto, unfolding(crate::specs::Frames::default_at))]
#[inline(always)]
pub fn read_defaulted_implicit<T: Decode + FixedTag + DefaultValue>(
    alloc: Global,
    n: u8,
    rest: &mut &[u8],
) -> Result<T, Error>
    requires { n < 31 }
    ensures exact { GivesBefore result rest.new.now ((defaulted T.default (implicit n T.form)).reading rest.old.now) }
    ensures unchanged { OnErr result (rest.new.now ≡ rest.old.now) }
    ensures memory { IfErr result (λ e. e.kind ≡ Memory → T.wants_memory) }
{
    let mut ahead = *rest;
    let found = read_optional_implicit::<T>(alloc, n, &mut ahead)?;
    let value = or_default(found)?;
    *rest = ahead;
    Ok(value)
}
