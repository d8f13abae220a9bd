//! A walk over the timestamps of an extension's value, one a call. It takes no memory.

ghost use Rattle.std.specs.Prelude.{◌≡◌, ◌≤◌, ◌++◌, [], length, List, ℕ, MatchOption};
ghost use Rattle.x509_c_calls.specs.SctWalk.{IsLeft, Steps};
ghost use Rattle.x509_sct.specs.Numbers.{vector16};

use crate::{Span, Status};
use std::alloc::Global;
use x509_der::{ErrorKind, Tag, split_element};
use x509_sct::tls::Tls;

/// The octets of the vector that the bytes begin with, `opaque<0..2^16-1>` (RFC 5246 4.3), and what follows it; `None` where they begin with
/// none.
fn take_vector(alloc: Global, bytes: &[u8]) -> Option<(&[u8], &[u8])>
    ensures { MatchOption result ((octets more : List ℕ) → vector16.good octets → bytes.now ≡ vector16.bytes octets ++ more → ⊥)
        (λ found. vector16.good found.0.now × (bytes.now ≡ vector16.bytes found.0.now ++ found.1.now)) }
{
    let Ok((len, rest)) = <u16 as Tls>::tls_deserialize_bytes(alloc, bytes) else {
        return None;
    };
    if rest.len() < len as usize {
        return None;
    }
    Some(rest.split_at(len as usize))
}

/// What is left of the list of timestamps from the place on; `None` where there is no such list, or the place isn't in it.
fn left(alloc: Global, input: &[u8], at: usize) -> Option<&[u8]>
    ensures { MatchOption result ((left : List ℕ) → IsLeft input.now at left → ⊥) (λ left. IsLeft input.now at left.now) }
{
    let Ok(whole) = split_element(input) else {
        return None;
    };
    if whole.tag != Tag::OctetString.octet() || !whole.rest.is_empty() {
        return None;
    }
    let Some((list, rest)) = take_vector(alloc, whole.content) else {
        return None;
    };
    if !rest.is_empty() {
        return None;
    }
    if at == 0 {
        return Some(list);
    }
    let begin = input.len() - list.len();
    if at < begin || at > input.len() {
        return None;
    }
    Some(list.split_at(at - begin).1)
}

/// Fills in where the next serialized timestamp of a SignedCertificateTimestampList stands (RFC 6962 3.3), which the bytes are, without its
/// length, and moves the place behind it. The place is 0 to begin. What the timestamp says isn't looked at. It takes no memory.
///
/// # Errors
///
/// [`Status::Absent`] at the end of the list. `Malformed` exactly where the bytes aren't such a list, the place isn't 0 and not in the list, or no
/// serialized timestamp stands there. `at` and `found` are unchanged then.
#[tactic(auto, unfolding(crate::specs::SctWalk::Steps))]
pub fn timestamp_next(alloc: Global, input: &[u8], at: &mut usize, found: &mut Span) -> Status
    ensures { Steps input.now at.old at.new found.old found.new result }
{
    let Some(rest) = left(alloc, input, *at) else {
        return Status::Refused(ErrorKind::Malformed);
    };
    if rest.is_empty() {
        return Status::Absent;
    }
    let Some((octets, more)) = take_vector(alloc, rest) else {
        return Status::Refused(ErrorKind::Malformed);
    };
    let end = input.len() - more.len();
    *found = Span {
        place: end - octets.len(),
        len: octets.len(),
    };
    *at = end;
    Status::Done
}
