//! Encoding what stands in a sequence, in parts: a part is one or more fields. A pair of parts is the first and then
//! the second. x is a field, `{n}x` the same under an explicit tag of the number n, `[n]x` under an implicit one, `x?`
//! may be absent, `x=d` has the default d. n is 0 to 30, the numbers that one identifier octet has (X.690 8.1.2.2).

ghost use Rattle.std.specs.Prelude.{◌≡◌, ◌+◌, ◌<◌};
ghost use Rattle.x509_der.specs.Element.{element};
ghost use Rattle.x509_der.specs.Form.{one_tag, spelling};
ghost use Rattle.x509_der.specs.Writing.{Puts, writes};
ghost use Rattle.x509_der.specs.Frames.{implicit_tag, optional_octets, default_octets};
ghost use Rattle.x509_der.specs.FrameWriting.{optional_refusal, default_refusal};

use crate::frames::default_value::DefaultValue;
use crate::frames::reading::implicit_octet;
use crate::{Encode, Error, FixedTag, Room, put_header};

/// A part of a sequence, as it is encoded.
pub trait PutPart {
    ghost use Rattle.std.specs.Prelude.{List, ℕ, Option};
    ghost use Rattle.x509_der.specs.declared.error.ErrorKind.{ErrorKind};
    ghost use Rattle.x509_der.specs.Writing.{Puts};

    ghost text: { Self → List ℕ };

    ghost refusal: { Self → Option ErrorKind };

    /// Puts the encoding of the part in front of the bytes that stand in the room.
    ///
    /// # Errors
    ///
    /// The error of a value that can't be encoded; `Overlength` where there is no place in the room; `Memory` when out
    /// of memory, only for a room that takes memory.
    fn put_part<R: Room>(&self, room: &mut R) -> Result<(), Error>
        ensures { Puts R.kind (text self.now) (refusal self.now) result room.old room.new };
}

/// One part, followed by another.
impl<A: PutPart, B: PutPart> PutPart for (A, B) {
    ghost use Rattle.std.specs.Prelude.{◌++◌};
    ghost use Rattle.x509_der.specs.Writing.{first};

    ghost text = { λ p. A.text p.0 ++ B.text p.1 };

    ghost refusal = { λ p. first (B.refusal p.1) (A.refusal p.0) };

    #[inline(always)]
    fn put_part<R: Room>(&self, room: &mut R) -> Result<(), Error> {
        self.1.put_part(room)?;
        self.0.put_part(room)
    }
}

/// Puts the part as the content of an element. The content stands before its header is put.
#[inline(always)]
fn put_in_element<P: PutPart, R: Room>(part: &P, tag: u8, room: &mut R) -> Result<(), Error>
    ensures { Puts R.kind (element tag (P.text part.now)) (P.refusal part.now) result room.old room.new }
{
    let before = room.len();
    part.put_part(room)?;
    let len = room.len() - before;
    put_header(tag, len as u32, room)
}

/// The content of a value.
#[derive(Clone, Copy)]
struct Contents<'a, T>(&'a T);

impl<T: Encode> PutPart for Contents<'_, T> {
    ghost use Rattle.x509_der.specs.Writing.{writes};

    ghost text = { λ v. T.form.content (writes T.writing v.0.now).value };

    ghost refusal = { λ v. (writes T.writing v.0.now).refusal };

    #[inline(always)]
    fn put_part<R: Room>(&self, room: &mut R) -> Result<(), Error> {
        self.0.put_content(room)
    }
}

/// x: a field that is required.
impl<T: Encode> PutPart for &T {
    ghost use Rattle.x509_der.specs.Form.{spelling};
    ghost use Rattle.x509_der.specs.Writing.{writes};

    ghost text = { λ v. spelling T.form (writes T.writing v.now).value };

    ghost refusal = { λ v. (writes T.writing v.now).refusal };

    #[inline(always)]
    fn put_part<R: Room>(&self, room: &mut R) -> Result<(), Error> {
        self.put_element(room)
    }
}

/// x under another identifier octet.
#[derive(Clone, Copy)]
pub struct Retagged<'a, T> {
    tag: u8,
    value: &'a T,
}

/// [n]x: a field under an implicit tag; n is 0 to 30.
pub fn implicit<T: Encode + FixedTag>(n: u8, value: &T) -> Retagged<'_, T>
    requires { n < 31 }
    ensures tag { result.tag ≡ implicit_tag n (one_tag T.form) }
    ensures value { result.value.now ≡ value.now }
{
    Retagged {
        tag: implicit_octet::<T>(n),
        value,
    }
}

impl<T: Encode> PutPart for Retagged<'_, T> {
    ghost use Rattle.x509_der.specs.Element.{element};
    ghost use Rattle.x509_der.specs.Writing.{writes};

    ghost text = { λ p. element p.tag (T.form.content (writes T.writing p.value.now).value) };

    ghost refusal = { λ p. (writes T.writing p.value.now).refusal };

    #[inline(always)]
    fn put_part<R: Room>(&self, room: &mut R) -> Result<(), Error> {
        put_in_element(&Contents(self.value), self.tag, room)
    }
}

/// x in an element of its own.
#[derive(Clone, Copy)]
pub struct Wrapped<'a, T> {
    tag: u8,
    value: &'a T,
}

/// {n}x: a field under an explicit tag; n is 0 to 30.
pub fn explicit<T: Encode>(n: u8, value: &T) -> Wrapped<'_, T>
    requires { n < 31 }
    ensures tag { result.tag ≡ 160 + n }
    ensures value { result.value.now ≡ value.now }
{
    Wrapped {
        tag: 0xA0 + n,
        value,
    }
}

impl<T: Encode> PutPart for Wrapped<'_, T> {
    ghost use Rattle.x509_der.specs.Element.{element};
    ghost use Rattle.x509_der.specs.Form.{spelling};
    ghost use Rattle.x509_der.specs.Writing.{writes};

    ghost text = { λ p. element p.tag (spelling T.form (writes T.writing p.value.now).value) };

    ghost refusal = { λ p. (writes T.writing p.value.now).refusal };

    #[inline(always)]
    fn put_part<R: Room>(&self, room: &mut R) -> Result<(), Error> {
        put_in_element(&self.value, self.tag, room)
    }
}

/// A part that may be absent.
impl<P: PutPart> PutPart for Option<P> {
    ghost use Rattle.x509_der.specs.Frames.{optional_octets};
    ghost use Rattle.x509_der.specs.FrameWriting.{optional_refusal};

    ghost text = { optional_octets P.text };

    ghost refusal = { optional_refusal P.refusal };

    #[tactic(auto, using(crate::specs::FrameWriting::puts_left_out))]
    #[inline(always)]
    fn put_part<R: Room>(&self, room: &mut R) -> Result<(), Error> {
        match self {
            None => Ok(()),
            Some(part) => part.put_part(room),
        }
    }
}

/// x?: a field that may be absent.
pub fn optional<T: Encode>(value: &Option<T>) -> Option<&T>
    ensures text { optional_octets (λ p. spelling T.form (writes T.writing p.now).value) result ≡ optional_octets
        (λ v. spelling T.form (writes T.writing v).value) value.now }
    ensures refusal { optional_refusal (λ p. (writes T.writing p.now).refusal) result ≡ optional_refusal (λ v. (writes T.writing v).refusal) value.now }
{
    match value {
        None => None,
        Some(value) => Some(value),
    }
}

/// [n]x?: a field under an implicit tag that may be absent; n is 0 to 30.
pub fn optional_implicit<T: Encode + FixedTag>(n: u8, value: &Option<T>) -> Option<Retagged<'_, T>>
    requires { n < 31 }
    ensures text { optional_octets (λ p. element p.tag (T.form.content (writes T.writing p.value.now).value)) result ≡ optional_octets
        (λ v. element (implicit_tag n (one_tag T.form)) (T.form.content (writes T.writing v).value)) value.now }
    ensures refusal { optional_refusal (λ p. (writes T.writing p.value.now).refusal) result ≡ optional_refusal (λ v. (writes T.writing v).refusal) value.now }
{
    match value {
        None => None,
        Some(value) => Some(implicit(n, value)),
    }
}

/// {n}x?: a field under an explicit tag that may be absent; n is 0 to 30.
pub fn optional_explicit<T: Encode>(n: u8, value: &Option<T>) -> Option<Wrapped<'_, T>>
    requires { n < 31 }
    ensures text { optional_octets (λ p. element p.tag (spelling T.form (writes T.writing p.value.now).value)) result ≡ optional_octets
        (λ v. element (160 + n) (spelling T.form (writes T.writing v).value)) value.now }
    ensures refusal { optional_refusal (λ p. (writes T.writing p.value.now).refusal) result ≡ optional_refusal (λ v. (writes T.writing v).refusal) value.now }
{
    match value {
        None => None,
        Some(value) => Some(explicit(n, value)),
    }
}

/// x=d: a field with a default.
#[tactic(auto, unfolding(crate::specs::Frames::default_octets))]
pub fn defaulted<T: Encode + DefaultValue>(value: &T) -> Option<&T>
    ensures text { optional_octets (λ p. spelling T.form (writes T.writing p.now).value) result ≡ default_octets T.default
        (λ v. spelling T.form (writes T.writing v).value) value.now }
    ensures refusal { optional_refusal (λ p. (writes T.writing p.now).refusal) result ≡ default_refusal T.default
        (λ v. (writes T.writing v).refusal) value.now }
{
    if value.is_default() {
        None
    } else {
        Some(value)
    }
}

/// [n]x=d: a field under an implicit tag with a default; n is 0 to 30.
#[tactic(auto, unfolding(crate::specs::Frames::default_octets))]
pub fn defaulted_implicit<T: Encode + FixedTag + DefaultValue>(
    n: u8,
    value: &T,
) -> Option<Retagged<'_, T>>
    requires { n < 31 }
    ensures text { optional_octets (λ p. element p.tag (T.form.content (writes T.writing p.value.now).value)) result ≡ default_octets T.default
        (λ v. element (implicit_tag n (one_tag T.form)) (T.form.content (writes T.writing v).value)) value.now }
    ensures refusal { optional_refusal (λ p. (writes T.writing p.value.now).refusal) result ≡ default_refusal T.default
        (λ v. (writes T.writing v).refusal) value.now }
{
    if value.is_default() {
        None
    } else {
        Some(implicit(n, value))
    }
}

/// {n}x=d: a field under an explicit tag with a default; n is 0 to 30.
#[tactic(auto, unfolding(crate::specs::Frames::default_octets))]
pub fn defaulted_explicit<T: Encode + DefaultValue>(n: u8, value: &T) -> Option<Wrapped<'_, T>>
    requires { n < 31 }
    ensures text { optional_octets (λ p. element p.tag (spelling T.form (writes T.writing p.value.now).value)) result ≡ default_octets T.default
        (λ v. element (160 + n) (spelling T.form (writes T.writing v).value)) value.now }
    ensures refusal { optional_refusal (λ p. (writes T.writing p.value.now).refusal) result ≡ default_refusal T.default
        (λ v. (writes T.writing v).refusal) value.now }
{
    if value.is_default() {
        None
    } else {
        Some(explicit(n, value))
    }
}
