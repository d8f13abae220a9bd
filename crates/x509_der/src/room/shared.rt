//! A buffer that was written, and is only read from then on.

ghost use Rattle.std.specs.Prelude.{◌≡◌, ◌≤◌, IfOk, MatchResult, IsErrAnd, IsOkAnd, drop, length};
ghost use Rattle.std.specs.Borrow.{sem, Array, u8};
ghost use Rattle.std.specs.Io.BufRead.{Rests};

use crate::Error;

/// The bytes, to be read only. Once they are no longer borrowed, the buffer is as it was.
pub(crate) fn share<'a>(room: &'a mut [u8]) -> &'a [u8]
    ensures* place { sem 𝓛 (Rests (Array u8 0) room.entry (λ last. last ≡ room.old)) }
    ensures value { result.now ≡ room.old }
{
    room
}

/// The bytes after as many as come before, or the refusal.
pub(crate) fn bytes_after<'a>(
    before: Result<usize, Error>,
    bytes: &'a [u8],
) -> Result<&'a [u8], Error>
    requires { IfOk before (λ n. n ≤ length bytes.now) }
    ensures { MatchResult before (λ n. IsOkAnd result (λ part. part.now ≡ drop n bytes.now)) (λ e. IsErrAnd result (λ same. same ≡ e)) }
{
    match before {
        Ok(n) => Ok(&bytes[n..]),
        Err(e) => Err(e),
    }
}
