//! The byte order of sequences, field by field. Each field is taken of both values; x is a field, `{n}x` the same under an explicit tag of the number n,
//! `[n]x` under an implicit one, `x?` may be absent, `x=d` has the default d. A pair of parts is the first and then the second.

ghost use Rattle.std.specs.Prelude.{◌≡◌, ◌+◌, ◌<◌, length, IfOk, IfErr};
ghost use Rattle.std.specs.Option.{option_cmp, option_map};
ghost use Rattle.std.specs.Ordering.{on};
ghost use Rattle.x509_der.specs.Element.{limit};
ghost use Rattle.x509_der.specs.Form.{one_tag, spelling};
ghost use Rattle.x509_der.specs.Writing.{writes, IsWritable, IsUnwritable};
ghost use Rattle.x509_der.specs.Frames.{implicit, implicit_tag, explicit};
ghost use Rattle.x509_der.specs.Order.{der_order};
ghost use Rattle.x509_der.specs.PartOrder.{Holds, counted_within, octet_or, other_than_default, retagged_order, wrapped_order};

use crate::encode::put_header;
use crate::frames::default_value::DefaultValue;
use crate::frames::reading::implicit_octet;
use crate::order::{DerOrd, ValueOrd, counted_len};
use crate::room::{Counting, Room};
use crate::{Encode, Error, FixedTag, Length};
use std::cmp::Ordering;

/// A field as an element that is compared.
pub trait CmpElement {
    ghost use Rattle.std.specs.Prelude.{◌≡◌, ℕ};
    ghost use Rattle.x509_der.specs.Order.{Order};

    ghost tag: { Self → ℕ };

    ghost order: { Order Self };

    /// The identifier octet.
    fn octet(&self) -> u8
        ensures { result ≡ tag self.now };

    /// The order of the two elements.
    fn cmp_element(&self, other: &Self) -> Ordering
        ensures { result ≡ order self.now other.now };
}

impl<T: ValueOrd> CmpElement for &T {
    ghost use Rattle.std.specs.Ordering.{on};
    ghost use Rattle.x509_der.specs.Writing.{writes};
    ghost use Rattle.x509_der.specs.Order.{der_order};

    ghost tag = { λ v. T.form.tag v.now };

    ghost order = { on (λ v. v.now) (der_order T.form (writes T.writing) T.order) };

    fn octet(&self) -> u8 {
        self.identifier().octet()
    }

    fn cmp_element(&self, other: &&T) -> Ordering {
        self.der_cmp(*other)
    }
}

/// x under another identifier octet.
#[derive(Clone, Copy)]
pub struct RetaggedValue<'a, T> {
    tag: u8,
    value: &'a T,
}

/// x in an element of its own.
#[derive(Clone, Copy)]
pub struct WrappedValue<'a, T> {
    tag: u8,
    value: &'a T,
}

impl<T: ValueOrd> CmpElement for RetaggedValue<'_, T> {
    ghost use Rattle.x509_der.specs.Writing.{writes};
    ghost use Rattle.x509_der.specs.PartOrder.{retagged_order};

    ghost tag = { λ p. p.tag };

    ghost order = { retagged_order (λ p. p.tag) (λ p. p.value.now) T.form (writes T.writing) T.order };

    fn octet(&self) -> u8 {
        self.tag
    }

    fn cmp_element(&self, other: &RetaggedValue<'_, T>) -> Ordering {
        let by_tag = self.tag.cmp(&other.tag);
        if by_tag.is_ne() {
            return by_tag;
        }
        let by_length = counted_len(self.value).cmp(&counted_len(other.value));
        if by_length.is_ne() {
            return by_length;
        }
        self.value.value_cmp(other.value)
    }
}

impl<T: ValueOrd> CmpElement for WrappedValue<'_, T> {
    ghost use Rattle.x509_der.specs.Writing.{writes};
    ghost use Rattle.x509_der.specs.PartOrder.{wrapped_order};

    ghost tag = { λ p. p.tag };

    ghost order = { wrapped_order (λ p. p.tag) (λ p. p.value.now) T.form (writes T.writing) T.order };

    fn octet(&self) -> u8 {
        self.tag
    }

    fn cmp_element(&self, other: &WrappedValue<'_, T>) -> Ordering {
        let by_tag = self.tag.cmp(&other.tag);
        if by_tag.is_ne() {
            return by_tag;
        }
        let by_length = counted_within_len(self.value).cmp(&counted_within_len(other.value));
        if by_length.is_ne() {
            return by_length;
        }
        self.value.der_cmp(other.value)
    }
}

/// How many octets the value's element has, as the content of another; one more than [`Length::MAX`] where that can't be
/// encoded.
#[tactic(auto, using(crate::specs::Ordered::counted_written, crate::specs::Ordered::counted_refused, crate::specs::Ordered::counted_too_long))]
fn counted_within_len<T: Encode>(value: &T) -> u32
    ensures { result ≡ counted_within T.form (writes T.writing) value.now }
{
    match wrapped_len(value) {
        Ok(len) => len.as_u32(),
        Err(_) => 268_435_456,
    }
}

/// The length of the value's element, as the content of another.
///
/// # Errors
///
/// `Overlength` exactly where the other is longer than [`Length::MAX`], or the error of a part that can't be encoded.
fn wrapped_len<T: Encode>(value: &T) -> Result<Length, Error>
    ensures ok { IfOk result (λ len. (len.octets ≡ length (spelling T.form (writes T.writing value.now).value))
        × IsWritable (explicit 0 T.form) (writes T.writing value.now) limit) }
    ensures err { IfErr result (λ e. IsUnwritable (explicit 0 T.form) (writes T.writing value.now) limit e.kind) }
{
    let mut room = Counting::new();
    value.put_element(&mut room)?;
    let content = room.count();
    put_header(0xA0, content.as_u32(), &mut room)?;
    Ok(content)
}

/// What two values have at one place of a sequence: one or more fields of the first, and the same of the second.
pub trait CmpPart {
    ghost use Rattle.std.specs.Prelude.{◌≡◌, ℕ, Option};
    ghost use Rattle.std.specs.declared.cmp.Ordering.{Ordering};

    ghost first: { Self → Option ℕ };

    ghost second: { Self → Option ℕ };

    ghost order: { Self → Option ℕ → Option ℕ → Ordering };

    /// The first octet of what the first value has there; `None` where that is nothing.
    fn first_octet(&self) -> Option<u8>
        ensures { result ≡ first self.now };

    /// The first octet of what the second value has there; `None` where that is nothing.
    fn second_octet(&self) -> Option<u8>
        ensures { result ≡ second self.now };

    /// The order of the two, before what follows them: `next` is the first octet of that in the first value, `other_next` in
    /// the second one.
    fn cmp_part(&self, next: Option<u8>, other_next: Option<u8>) -> Ordering
        ensures { result ≡ order self.now next other_next };
}

/// One part, followed by another.
impl<A: CmpPart, B: CmpPart> CmpPart for (A, B) {
    ghost use Rattle.std.specs.Ordering.{ordering_then};
    ghost use Rattle.x509_der.specs.PartOrder.{octet_or};

    ghost first = { λ p. octet_or (A.first p.0) (B.first p.1) };

    ghost second = { λ p. octet_or (A.second p.0) (B.second p.1) };

    ghost order = { λ p m n. ordering_then (A.order p.0 (octet_or (B.first p.1) m) (octet_or (B.second p.1) n)) (B.order p.1 m n) };

    fn first_octet(&self) -> Option<u8> {
        octet_or_next(self.0.first_octet(), self.1.first_octet())
    }

    fn second_octet(&self) -> Option<u8> {
        octet_or_next(self.0.second_octet(), self.1.second_octet())
    }

    fn cmp_part(&self, next: Option<u8>, other_next: Option<u8>) -> Ordering {
        let first_next = octet_or_next(self.1.first_octet(), next);
        let second_next = octet_or_next(self.1.second_octet(), other_next);
        let by_front = self.0.cmp_part(first_next, second_next);
        if by_front.is_ne() {
            return by_front;
        }
        self.1.cmp_part(next, other_next)
    }
}

/// The octet, or the next one where there is none.
fn octet_or_next(octet: Option<u8>, next: Option<u8>) -> Option<u8>
    ensures { result ≡ octet_or octet next }
{
    match octet {
        None => next,
        Some(octet) => Some(octet),
    }
}

/// A field that both have.
#[derive(Clone, Copy)]
pub struct RequiredFields<P> {
    a: P,
    b: P,
}

impl<P: CmpElement> CmpPart for RequiredFields<P> {
    ghost use Rattle.std.specs.Prelude.{Some};

    ghost first = { λ p. Some (P.tag p.a) };

    ghost second = { λ p. Some (P.tag p.b) };

    ghost order = { λ p m n. P.order p.a p.b };

    fn first_octet(&self) -> Option<u8> {
        Some(self.a.octet())
    }

    fn second_octet(&self) -> Option<u8> {
        Some(self.b.octet())
    }

    fn cmp_part(&self, _next: Option<u8>, _other_next: Option<u8>) -> Ordering {
        self.a.cmp_element(&self.b)
    }
}

/// A field that each of the two may have.
#[derive(Clone, Copy)]
pub struct OptionalFields<P> {
    a: Option<P>,
    b: Option<P>,
}

impl<P: CmpElement> CmpPart for OptionalFields<P> {
    ghost use Rattle.std.specs.Option.{option_cmp, option_map};
    ghost use Rattle.std.specs.Ordering.{ordering_then};
    ghost use Rattle.x509_der.specs.PartOrder.{octet_or, octets_cmp};

    ghost first = { λ p. option_map P.tag p.a };

    ghost second = { λ p. option_map P.tag p.b };

    ghost order = { λ p m n. ordering_then (octets_cmp (octet_or (option_map P.tag p.a) m) (octet_or (option_map P.tag p.b) n)) (option_cmp P.order p.a p.b) };

    fn first_octet(&self) -> Option<u8> {
        match &self.a {
            None => None,
            Some(a) => Some(a.octet()),
        }
    }

    fn second_octet(&self) -> Option<u8> {
        match &self.b {
            None => None,
            Some(b) => Some(b.octet()),
        }
    }

    fn cmp_part(&self, next: Option<u8>, other_next: Option<u8>) -> Ordering {
        let first = octet_or_next(self.first_octet(), next);
        let second = octet_or_next(self.second_octet(), other_next);
        let by_octet = first.cmp(&second);
        if by_octet.is_ne() {
            return by_octet;
        }
        match (&self.a, &self.b) {
            (None, None) => Ordering::Equal,
            (None, Some(_)) => Ordering::Less,
            (Some(_), None) => Ordering::Greater,
            (Some(a), Some(b)) => a.cmp_element(b),
        }
    }
}

/// x: a field that is required.
pub fn both<'a, T>(a: &'a T, b: &'a T) -> RequiredFields<&'a T>
    ensures first { result.a.now ≡ a.now }
    ensures second { result.b.now ≡ b.now }
{
    RequiredFields { a, b }
}

/// [n]x: a field under an implicit tag; n is 0 to 30.
pub fn both_implicit<'a, T: FixedTag>(
    n: u8,
    a: &'a T,
    b: &'a T,
) -> RequiredFields<RetaggedValue<'a, T>>
    requires { n < 31 }
    ensures first_tag { result.a.tag ≡ implicit_tag n (one_tag T.form) }
    ensures second_tag { result.b.tag ≡ implicit_tag n (one_tag T.form) }
    ensures first { result.a.value.now ≡ a.now }
    ensures second { result.b.value.now ≡ b.now }
{
    let tag = implicit_octet::<T>(n);
    RequiredFields {
        a: RetaggedValue { tag, value: a },
        b: RetaggedValue { tag, value: b },
    }
}

/// {n}x: a field under an explicit tag; n is 0 to 30.
pub fn both_explicit<'a, T>(n: u8, a: &'a T, b: &'a T) -> RequiredFields<WrappedValue<'a, T>>
    requires { n < 31 }
    ensures first_tag { result.a.tag ≡ 160 + n }
    ensures second_tag { result.b.tag ≡ 160 + n }
    ensures first { result.a.value.now ≡ a.now }
    ensures second { result.b.value.now ≡ b.now }
{
    let tag = 0xA0 + n;
    RequiredFields {
        a: WrappedValue { tag, value: a },
        b: WrappedValue { tag, value: b },
    }
}

/// The value under the identifier octet, where there is one.
fn retagged<T>(tag: u8, value: &Option<T>) -> Option<RetaggedValue<'_, T>>
    ensures { Holds (λ p. p.tag) (λ p. p.value.now) tag result value.now }
{
    match value {
        None => None,
        Some(value) => Some(RetaggedValue { tag, value }),
    }
}

/// The value in an element of its own, where there is one.
fn wrapped<T>(tag: u8, value: &Option<T>) -> Option<WrappedValue<'_, T>>
    ensures { Holds (λ p. p.tag) (λ p. p.value.now) tag result value.now }
{
    match value {
        None => None,
        Some(value) => Some(WrappedValue { tag, value }),
    }
}

/// x?: a field that may be absent.
pub fn both_optional<'a, T: ValueOrd>(a: &'a Option<T>, b: &'a Option<T>) -> OptionalFields<&'a T>
    ensures first { option_map (λ p. T.form.tag p.now) result.a ≡ option_map T.form.tag a.now }
    ensures second { option_map (λ p. T.form.tag p.now) result.b ≡ option_map T.form.tag b.now }
    ensures order { option_cmp (on (λ p. p.now) (der_order T.form (writes T.writing) T.order)) result.a result.b ≡ option_cmp
        (der_order T.form (writes T.writing) T.order) a.now b.now }
{
    OptionalFields {
        a: a.as_ref(),
        b: b.as_ref(),
    }
}

/// [n]x?: a field under an implicit tag that may be absent; n is 0 to 30.
#[tactic(auto, using(crate::specs::PartOrder::held_octet))]
pub fn both_optional_implicit<'a, T: FixedTag + ValueOrd>(
    n: u8,
    a: &'a Option<T>,
    b: &'a Option<T>,
) -> OptionalFields<RetaggedValue<'a, T>>
    requires { n < 31 }
    ensures first { option_map (λ p. p.tag) result.a ≡ option_map (λ v. implicit_tag n (one_tag T.form)) a.now }
    ensures second { option_map (λ p. p.tag) result.b ≡ option_map (λ v. implicit_tag n (one_tag T.form)) b.now }
    ensures order { option_cmp (retagged_order (λ p. p.tag) (λ p. p.value.now) T.form (writes T.writing) T.order) result.a result.b ≡ option_cmp
        (der_order (implicit n T.form) (writes T.writing) T.order) a.now b.now }
{
    let tag = implicit_octet::<T>(n);
    OptionalFields {
        a: retagged(tag, a),
        b: retagged(tag, b),
    }
}

/// {n}x?: a field under an explicit tag that may be absent; n is 0 to 30.
#[tactic(auto, using(crate::specs::PartOrder::held_octet))]
pub fn both_optional_explicit<'a, T: ValueOrd>(
    n: u8,
    a: &'a Option<T>,
    b: &'a Option<T>,
) -> OptionalFields<WrappedValue<'a, T>>
    requires { n < 31 }
    ensures first { option_map (λ p. p.tag) result.a ≡ option_map (λ v. 160 + n) a.now }
    ensures second { option_map (λ p. p.tag) result.b ≡ option_map (λ v. 160 + n) b.now }
    ensures order { option_cmp (wrapped_order (λ p. p.tag) (λ p. p.value.now) T.form (writes T.writing) T.order) result.a result.b ≡ option_cmp
        (der_order (explicit n T.form) (writes T.writing) (der_order T.form (writes T.writing) T.order)) a.now b.now }
{
    let tag = 0xA0 + n;
    OptionalFields {
        a: wrapped(tag, a),
        b: wrapped(tag, b),
    }
}

/// The value, where it isn't the default.
fn unless_default<T: DefaultValue>(value: &T) -> Option<&T>
    ensures { option_map (λ p. p.now) result ≡ other_than_default T.default value.now }
{
    if value.is_default() {
        None
    } else {
        Some(value)
    }
}

/// The value under the identifier octet, where it isn't the default.
fn retagged_unless_default<T: DefaultValue>(tag: u8, value: &T) -> Option<RetaggedValue<'_, T>>
    ensures { Holds (λ p. p.tag) (λ p. p.value.now) tag result (other_than_default T.default value.now) }
{
    if value.is_default() {
        None
    } else {
        Some(RetaggedValue { tag, value })
    }
}

/// The value in an element of its own, where it isn't the default.
fn wrapped_unless_default<T: DefaultValue>(tag: u8, value: &T) -> Option<WrappedValue<'_, T>>
    ensures { Holds (λ p. p.tag) (λ p. p.value.now) tag result (other_than_default T.default value.now) }
{
    if value.is_default() {
        None
    } else {
        Some(WrappedValue { tag, value })
    }
}

/// x=d: a field with a default.
#[tactic(auto, using(crate::specs::PartOrder::seen_octet, crate::specs::PartOrder::seen_order))]
pub fn both_defaulted<'a, T: ValueOrd + DefaultValue>(a: &'a T, b: &'a T) -> OptionalFields<&'a T>
    ensures first { option_map (λ p. T.form.tag p.now) result.a ≡ option_map T.form.tag (other_than_default T.default a.now) }
    ensures second { option_map (λ p. T.form.tag p.now) result.b ≡ option_map T.form.tag (other_than_default T.default b.now) }
    ensures order { option_cmp (on (λ p. p.now) (der_order T.form (writes T.writing) T.order)) result.a result.b ≡ option_cmp
        (der_order T.form (writes T.writing) T.order) (other_than_default T.default a.now) (other_than_default T.default b.now) }
{
    OptionalFields {
        a: unless_default(a),
        b: unless_default(b),
    }
}

/// [n]x=d: a field under an implicit tag with a default; n is 0 to 30.
#[tactic(auto, using(crate::specs::PartOrder::held_octet))]
pub fn both_defaulted_implicit<'a, T: FixedTag + ValueOrd + DefaultValue>(
    n: u8,
    a: &'a T,
    b: &'a T,
) -> OptionalFields<RetaggedValue<'a, T>>
    requires { n < 31 }
    ensures first { option_map (λ p. p.tag) result.a ≡ option_map (λ v. implicit_tag n (one_tag T.form)) (other_than_default T.default a.now) }
    ensures second { option_map (λ p. p.tag) result.b ≡ option_map (λ v. implicit_tag n (one_tag T.form)) (other_than_default T.default b.now) }
    ensures order { option_cmp (retagged_order (λ p. p.tag) (λ p. p.value.now) T.form (writes T.writing) T.order) result.a result.b ≡ option_cmp
        (der_order (implicit n T.form) (writes T.writing) T.order) (other_than_default T.default a.now) (other_than_default T.default b.now) }
{
    let tag = implicit_octet::<T>(n);
    OptionalFields {
        a: retagged_unless_default(tag, a),
        b: retagged_unless_default(tag, b),
    }
}

/// {n}x=d: a field under an explicit tag with a default; n is 0 to 30.
#[tactic(auto, using(crate::specs::PartOrder::held_octet))]
pub fn both_defaulted_explicit<'a, T: ValueOrd + DefaultValue>(
    n: u8,
    a: &'a T,
    b: &'a T,
) -> OptionalFields<WrappedValue<'a, T>>
    requires { n < 31 }
    ensures first { option_map (λ p. p.tag) result.a ≡ option_map (λ v. 160 + n) (other_than_default T.default a.now) }
    ensures second { option_map (λ p. p.tag) result.b ≡ option_map (λ v. 160 + n) (other_than_default T.default b.now) }
    ensures order { option_cmp (wrapped_order (λ p. p.tag) (λ p. p.value.now) T.form (writes T.writing) T.order) result.a result.b ≡ option_cmp
        (der_order (explicit n T.form) (writes T.writing) (der_order T.form (writes T.writing) T.order)) (other_than_default T.default a.now)
        (other_than_default T.default b.now) }
{
    let tag = 0xA0 + n;
    OptionalFields {
        a: wrapped_unless_default(tag, a),
        b: wrapped_unless_default(tag, b),
    }
}
