//! The words after the program's name.

ghost use Rattle.std.specs.Prelude.{◌≡◌, ℕ, List, Option, Some, None, IfOk, map, string_bytes};
ghost use Rattle.std.specs.Option.{option_map};
ghost use Rattle.x509_tool_run.specs.Words.{AreWords, word_of};

use std::alloc::{AllocError, Global};
use std::env::{Env, FillError};

/// What gives the arguments of a program.
pub trait Arguments {
    /// What may be answered on the argument at a place: its bytes, or that there is none.
    ghost gives: { Self → ℕ → Option (List ℕ) → Type 0 };

    /// The bytes of the argument at a place, of which the first is the program's name.
    ///
    /// # Errors
    ///
    /// `AllocError` when out of memory.
    fn argument(&self, alloc: Global, place: usize) -> Result<Option<Vec<u8>>, AllocError>
        ensures { IfOk result (λ found. gives self.now place (option_map (λ bytes. bytes.items) found)) };
}

/// The bytes of the argument at a place, where they are as many as `size` or fewer.
fn argument_within<E: Env>(
    alloc: Global,
    env: &E,
    place: usize,
    size: usize,
) -> Result<Result<Vec<u8>, FillError>, AllocError> {
    let mut bytes = Vec::new(alloc);
    bytes.resize(size, 0u8)?;
    match env.arg(place, bytes.as_mut_slice()) {
        Ok(length) => {
            bytes.truncate(length);
            Ok(Ok(bytes))
        }
        Err(e) => Ok(Err(e)),
    }
}

/// What std says of an argument leaves open what it is.
impl<E: Env> Arguments for E {
    ghost gives = { λ env place found. Unit {0} };

    fn argument(&self, alloc: Global, place: usize) -> Result<Option<Vec<u8>>, AllocError> {
        let mut size = 64usize;
        for _ in 0..usize::BITS {
            match argument_within(alloc, self, place, size)? {
                Ok(argument) => return Ok(Some(argument)),
                Err(FillError::NotPresent) => return Ok(None),
                Err(FillError::TooLong) => size = size.saturating_mul(2),
            }
        }
        Err(AllocError)
    }
}

/// The word of an argument, which is empty where it isn't UTF-8.
fn word_of(alloc: Global, argument: Vec<u8>) -> String
    ensures { string_bytes result ≡ word_of argument.items }
{
    match String::from_utf8(argument) {
        Ok(word) => word,
        Err(_) => String::new(alloc),
    }
}

/// The arguments but the program's name, in their order. One that isn't UTF-8 counts as the empty word.
///
/// # Errors
///
/// `AllocError` when out of memory.
pub fn words<A: Arguments>(alloc: Global, arguments: &A) -> Result<Vec<String>, AllocError>
    ensures { IfOk result (λ words. AreWords (A.gives arguments.now) (map string_bytes words.items)) }
{
    let mut words = Vec::new(alloc);
    for place in 1..usize::MAX {
        match arguments.argument(alloc, place)? {
            Some(argument) => words.push(word_of(alloc, argument))?,
            None => return Ok(words),
        }
    }
    // No memory holds as many.
    Err(AllocError)
}
