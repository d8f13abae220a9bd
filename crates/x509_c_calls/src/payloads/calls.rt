//! What is filled in of a value, and the calls that fill it in: of the next member of a list, and of a payload.

ghost use Rattle.std.specs.Prelude.{◌≡◌, ◌≤◌, ◌<◌, ◌+◌, ◌⊎◌, [], MatchOption};
ghost use Rattle.x509_c_calls.specs.Cursor.{Steps};
ghost use Rattle.x509_c_calls.specs.Place.{IsAt};
ghost use Rattle.x509_c_calls.specs.Calls.{Reads};
ghost use Rattle.x509_c_calls.specs.declared.status.status.Status.TheVariants.{Refused};
ghost use Rattle.x509_der.specs.Tag.{octet_of};
ghost use Rattle.x509_der.specs.declared.error.ErrorKind.TheVariants.{Malformed, Memory};

use crate::payloads::cursor::next;
use crate::payloads::walk::content_at;
use crate::{Span, Status};
use std::alloc::Global;
use x509_der::{Decode, ErrorKind, Tag, TagNumber};

/// What is filled in of a value, by its place in bytes.
pub trait View: Copy + Sized {
    ghost use Rattle.std.specs.Prelude.{◌≡◌, ◌≤◌, ◌++◌, drop, length, List, ℕ};
    ghost use Rattle.x509_der.specs.Form.{spelling};

    /// What it is of.
    type Value: Decode + Drop;

    /// What it says of a value in these bytes, behind which those others stand.
    ghost shows: { List ℕ → Self.Value → List ℕ → Self → Type 0 };

    /// What is said of the value whose bytes begin at the place.
    fn view(input: &[u8], place: usize, value: &Self::Value) -> Self
        requires { place ≤ length input.now }
        ensures { (behind : List ℕ) → drop place input.now ≡ spelling Self.Value.form value.now ++ behind → shows input.now value.now behind result };
}

/// Reads a value, and fills in what is said of it. Where it is refused, what was to be filled in stays as it was.
#[tactic(auto, unfolding(crate::specs::Calls::Reads))]
pub fn payload<V: View>(alloc: Global, input: &[u8], view: &mut V) -> Status
    ensures read { Reads V.Value.form V.Value.refuses input.now (λ value. V.shows input.now value [] view.new) (view.new ≡ view.old) result }
    ensures memory { result ≡ Refused Memory → V.Value.wants_memory ⊎ V.Value.refuses Memory }
{
    match V::Value::from_der(alloc, input) {
        Ok(value) => {
            *view = V::view(input, 0, &value);
            Status::Done
        }
        Err(e) => e.into(),
    }
}

/// Fills in what is said of the next member of a list under a tag, which the bytes are, and moves the place behind it.
#[tactic(auto, unfolding(crate::specs::Cursor::Steps))]
pub fn member_next<V: View>(
    alloc: Global,
    list: Tag,
    input: &[u8],
    at: &mut usize,
    found: &mut V,
) -> Status
    ensures { Steps V.Value.form V.Value.refuses V.Value.wants_memory (octet_of list) input.now at.old at.new
        (λ value behind span. V.shows input.now value behind found.new) (found.new ≡ found.old) result }
{
    match next::<V::Value>(alloc, list, input, at) {
        Ok(Some((value, span))) => {
            *found = V::view(input, span.place, &value);
            Status::Done
        }
        Ok(None) => Status::Absent,
        Err(e) => Status::Refused(e),
    }
}

/// The tag \[n\] of a list; there is none above 30.
fn implicit_list(number: u32) -> Option<Tag>
    ensures { MatchOption result (30 < number) (λ tag. (number ≤ 30) × (octet_of tag ≡ 160 + number)) }
{
    if number > 30 {
        return None;
    }
    match TagNumber::new(number as u8) {
        Ok(number) => Some(Tag::ContextSpecific {
            constructed: true,
            number,
        }),
        Err(_) => None,
    }
}

/// Goes over the members of a list under the implicit tag \[n\], as [`member_next`] does over those of a SEQUENCE OF. `Malformed` where n is above 30.
pub fn member_under_next<V: View>(
    alloc: Global,
    number: u32,
    input: &[u8],
    at: &mut usize,
    found: &mut V,
) -> Status
    ensures stepped { number ≤ 30 → Steps V.Value.form V.Value.refuses V.Value.wants_memory (160 + number) input.now at.old at.new
        (λ value behind span. V.shows input.now value behind found.new) (found.new ≡ found.old) result }
    ensures none { 30 < number → (result ≡ Refused Malformed) × (at.new ≡ at.old) × (found.new ≡ found.old) }
{
    let Some(list) = implicit_list(number) else {
        return Status::Refused(ErrorKind::Malformed);
    };
    member_next::<V>(alloc, list, input, at, found)
}

/// Fills in where the next member of a list under a tag stands, which the bytes are, and moves the place behind it.
#[tactic(auto, unfolding(crate::specs::Cursor::Steps))]
pub fn element_next<T: Decode + Drop>(
    alloc: Global,
    list: Tag,
    input: &[u8],
    at: &mut usize,
    found: &mut Span,
) -> Status
    ensures { Steps T.form T.refuses T.wants_memory (octet_of list) input.now at.old at.new
        (λ value behind span. found.new ≡ span) (found.new ≡ found.old) result }
{
    match next::<T>(alloc, list, input, at) {
        Ok(Some((_value, span))) => {
            *found = span;
            Status::Done
        }
        Ok(None) => Status::Absent,
        Err(e) => Status::Refused(e),
    }
}

/// Fills in where the content octets stand of the next member of a list under a tag, which the bytes are, and moves the
/// place behind it.
#[tactic(auto, unfolding(crate::specs::Cursor::Steps))]
pub fn content_next<T: Decode + Drop>(
    alloc: Global,
    list: Tag,
    input: &[u8],
    at: &mut usize,
    found: &mut Span,
) -> Status
    ensures { Steps T.form T.refuses T.wants_memory (octet_of list) input.now at.old at.new
        (λ value behind span. IsAt (T.form.content value) behind input.now found.new) (found.new ≡ found.old) result }
{
    match next::<T>(alloc, list, input, at) {
        Ok(Some((_value, span))) => {
            *found = content_at(input, span.place);
            Status::Done
        }
        Ok(None) => Status::Absent,
        Err(e) => Status::Refused(e),
    }
}

/// Reads a value, and fills in where its content octets stand. Where it is refused, the span stays as it was.
#[tactic(auto, unfolding(crate::specs::Calls::Reads))]
pub fn content<T: Decode + Drop>(alloc: Global, input: &[u8], found: &mut Span) -> Status
    ensures read { Reads T.form T.refuses input.now (λ value. IsAt (T.form.content value) [] input.now found.new) (found.new ≡ found.old) result }
    ensures memory { result ≡ Refused Memory → T.wants_memory ⊎ T.refuses Memory }
{
    match T::from_der(alloc, input) {
        Ok(_value) => {
            *found = content_at(input, 0);
            Status::Done
        }
        Err(e) => e.into(),
    }
}
