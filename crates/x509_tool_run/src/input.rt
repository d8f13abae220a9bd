//! Reading the input.

ghost use Rattle.std.specs.Prelude.{◌≡◌, ◌<◌, ◌≤◌, ℕ, List, length, Option, IfOk, Some, None, Ok, Err};
ghost use Rattle.x509_tool_run.specs.Transfer.{moved, ReadGives};
ghost use Rattle.x509_tool_run.specs.Input.{EndsReading};

use crate::refusal::Refusal;
use std::alloc::Global;
use std::io;
use x509_der::ErrorKind;

/// The most bytes that an input has, a final line feed among them.
pub const INPUT_LIMIT: usize = 16_777_216;

/// The most reads that are made: one for each byte of an input, and one that finds its end.
pub const READ_LIMIT: usize = 16_777_217;

/// A read failed.
#[derive(Clone, Copy)]
pub struct ReadError;

/// What an input is read from.
pub trait Source {
    /// That a read leads from one state to another and gives these bytes, none of them at the end, or fails.
    ghost gives: { Self → Option (List ℕ) → Self → Type 0 };

    /// Reads some bytes to the front of the buffer `room`, and answers how many; none is the end of the input.
    ///
    /// # Errors
    ///
    /// [`ReadError`] where the read fails.
    fn take_some(&mut self, room: &mut [u8]) -> Result<usize, ReadError>
        requires { 0 < length room.old }
        ensures fits { IfOk result (λ count. count ≤ length room.new) }
        ensures gives { gives self.old (moved result room.new) self.new };
}

impl<R: io::Read> Source for R {
    ghost gives = { λ old bytes new. ReadGives (R.remaining old) bytes (R.remaining new) };

    fn take_some(&mut self, room: &mut [u8]) -> Result<usize, ReadError> {
        match self.read(room) {
            Ok(count) => Ok(count),
            Err(_) => Err(ReadError),
        }
    }
}

/// Reads the whole input: to its end, to the first read that fails, or past the limit.
///
/// # Errors
///
/// `Read` where a read fails; `Because` of `Overlength` where the input is longer than [`INPUT_LIMIT`], and of `Memory`
/// when out of memory.
pub fn read_input<R: Source>(alloc: Global, reader: &mut R) -> Result<Vec<u8>, Refusal>
    ensures { EndsReading (λ v. v.items) R.gives reader.old result reader.new }
{
    let mut input = Vec::new(alloc);
    let mut room = [0u8; 8192];
    for _reads in 0..READ_LIMIT {
        match reader.take_some(&mut room) {
            Ok(0) => return Ok(input),
            Ok(count) => {
                input.extend_from_slice(&room[..count])?;
                if input.len() > INPUT_LIMIT {
                    return Err(Refusal::Because(ErrorKind::Overlength));
                }
            }
            Err(ReadError) => return Err(Refusal::Read),
        }
    }
    Err(Refusal::Because(ErrorKind::Overlength))
}
