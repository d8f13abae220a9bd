//! A walk over the certificates of a log's chain, one a call. It takes no memory.

ghost use Rattle.std.specs.Prelude.{◌≡◌, ◌++◌, List, ℕ, MatchOption};
ghost use Rattle.x509_c_calls.specs.ChainWalk.{IsChainLeft, StepsChain};
ghost use Rattle.x509_sct.specs.Form.{counted};
ghost use Rattle.x509_sct.specs.Numbers.{uint24};

use crate::{Span, Status};
use x509_der::ErrorKind;
use x509_log::take_counted;

/// The octets of the vector that the bytes begin with, which has a count of three bytes, and what follows it; `None` where they begin with none.
fn take_vector(bytes: &[u8]) -> Option<(&[u8], &[u8])>
    ensures { MatchOption result ((octets more : List ℕ) → (counted uint24).good octets → bytes.now ≡ (counted uint24).bytes octets ++ more → ⊥)
        (λ found. (counted uint24).good found.0.now × (bytes.now ≡ (counted uint24).bytes found.0.now ++ found.1.now)) }
{
    match take_counted(bytes) {
        Ok((octets, rest)) => Some((octets, rest)),
        Err(_) => None,
    }
}

/// What is left of the chain from the place on; `None` where there is no such chain, or the place isn't in it.
fn left(input: &[u8], at: usize) -> Option<&[u8]>
    ensures { MatchOption result ((left : List ℕ) → IsChainLeft input.now at left → ⊥) (λ left. IsChainLeft input.now at left.now) }
{
    let Some((list, rest)) = take_vector(input) else {
        return None;
    };
    if !rest.is_empty() {
        return None;
    }
    if at == 0 {
        return Some(list);
    }
    if at < 3 || at > input.len() {
        return None;
    }
    Some(list.split_at(at - 3).1)
}

/// Fills in where the next certificate of a chain stands (RFC 6962 3.1), which the bytes are, without its length, and moves the place behind it. The place is 0
/// to begin. What the certificate says isn't looked at. It takes no memory.
///
/// # Errors
///
/// [`Status::Absent`] at the end of the chain. `Malformed` exactly where the bytes aren't such a chain, the place isn't 0 and not in the chain, or no
/// certificate stands there. `at` and `found` are unchanged then.
#[tactic(auto, unfolding(crate::specs::ChainWalk::StepsChain))]
pub fn chain_next(input: &[u8], at: &mut usize, found: &mut Span) -> Status
    ensures { StepsChain input.now at.old at.new found.old found.new result }
{
    let Some(rest) = left(input, *at) else {
        return Status::Refused(ErrorKind::Malformed);
    };
    if rest.is_empty() {
        return Status::Absent;
    }
    let Some((octets, more)) = take_vector(rest) else {
        return Status::Refused(ErrorKind::Malformed);
    };
    if octets.is_empty() {
        return Status::Refused(ErrorKind::Malformed);
    }
    let end = input.len() - more.len();
    *found = Span {
        place: end - octets.len(),
        len: octets.len(),
    };
    *at = end;
    Status::Done
}
