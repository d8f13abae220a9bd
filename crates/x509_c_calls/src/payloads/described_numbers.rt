//! Lists of numbers, encoded of their octets.

ghost use Rattle.std.specs.Prelude.{◌≡◌, ◌⊎◌, [], Any, IfOk, MatchResult, map};
ghost use Rattle.x509_c_calls.specs.Described.{EncodesDescribed};
ghost use Rattle.x509_c_calls.specs.DescribedNumbers.{AreNumbersOf, RefusesNumbers, number_of};
ghost use Rattle.x509_c_calls.specs.Notices.{notice_numbers};
ghost use Rattle.x509_c_calls.specs.Status.{Fills};
ghost use Rattle.x509_der.specs.declared.error.ErrorKind.TheVariants.{Memory, Value};

use crate::path::cut;
use crate::{Status, write};
use std::alloc::Global;
use x509_der::{ErrorKind, SequenceOf, Spelled};
use x509_prim::Uint;

/// The numbers that have these octets, the most significant first.
fn integers_of(alloc: Global, pieces: &[&[u8]]) -> Result<SequenceOf<Uint>, ErrorKind>
    ensures { MatchResult result (λ numbers. numbers ≡ map number_of (map (λ piece. piece.now) pieces.now)) (λ e. (e ≡ Memory)
        ⊎ ((e ≡ Value) × Any (λ piece. piece ≡ []) (map (λ piece. piece.now) pieces.now))) }
{
    let mut numbers = SequenceOf::new(alloc);
    for piece in pieces {
        let number = match Uint::new(alloc, piece) {
            Ok(number) => number,
            Err(e) => return Err(e.kind()),
        };
        if numbers.push(number).is_err() {
            return Err(ErrorKind::Memory);
        }
    }
    Ok(numbers)
}

/// The numbers into whose octets the bytes are cut.
fn numbers_of(alloc: Global, octets: &[u8], lens: &[usize]) -> Result<SequenceOf<Uint>, ErrorKind>
    ensures found { MatchResult result (AreNumbersOf octets.now lens.now) (λ e. (e ≡ Memory) ⊎ RefusesNumbers octets.now lens.now e) }
    ensures good { IfOk result notice_numbers.good }
{
    if lens.contains(&0) {
        return Err(ErrorKind::Value);
    }
    let Ok(pieces) = cut(alloc, octets, lens) else {
        return Err(ErrorKind::Memory);
    };
    let Some(pieces) = pieces else {
        return Err(ErrorKind::Failed);
    };
    match integers_of(alloc, pieces.as_slice()) {
        Ok(numbers) => {
            numbers.has_spelling();
            Ok(numbers)
        }
        Err(e) => Err(e),
    }
}

/// Puts the encoding of a SEQUENCE OF INTEGER with these numbers at the front of the buffer `room`, as those of TLS features
/// (RFC 7633 4) or of a reference to notices (RFC 5280 4.2.1.4): their octets, the most significant first, stand one behind
/// the other, and `lens` are their lengths. There may be no number.
///
/// # Errors
///
/// [`Status::NoRoom`] where the buffer is too small; then `written` is the needed length. `Value` exactly where a number has
/// no octets; else `Failed` where the lengths don't add up. `Overlength` where the encoding is too long. `Memory` when out
/// of memory.
#[tactic(auto, unfolding(crate::specs::Calls::Encodes, crate::specs::Status::Fills))]
pub fn numbers_encode(
    alloc: Global,
    octets: &[u8],
    lens: &[usize],
    room: &mut [u8],
    written: &mut usize,
) -> Status
    ensures { Fills (EncodesDescribed notice_numbers (AreNumbersOf octets.now lens.now) (RefusesNumbers octets.now lens.now)) room.old room.new written.old written.new result }
{
    match numbers_of(alloc, octets, lens) {
        Ok(numbers) => write(&numbers, room, written),
        Err(e) => Status::Refused(e),
    }
}
