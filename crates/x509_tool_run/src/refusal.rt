//! Why the program refuses an input.

ghost use Rattle.std.specs.Prelude.{◌≡◌, Err};
ghost use Rattle.x509_der.specs.declared.error.ErrorKind.TheVariants.{Memory};
ghost use Rattle.x509_tool_run.specs.declared.refusal.Refusal.TheVariants.{Because};

use std::alloc::AllocError;
use x509_der::{Error, ErrorKind};

/// Why an input is refused.
#[derive(Clone, Copy)]
pub enum Refusal {
    /// A read failed.
    Read,

    /// A step refused the input, or ran out of memory.
    Because(ErrorKind),
}

impl Refusal {
    ghost use Rattle.x509_tool_run.specs.Answer.{text_of, as_line};

    /// The line that names the refusal, with its line feed.
    pub fn line(self) -> &'static [u8]
        ensures { result.now ≡ as_line (text_of (Err self)) }
    {
        match self {
            Refusal::Read => b"refused: Read\n",
            Refusal::Because(ErrorKind::Memory) => b"refused: Memory\n",
            Refusal::Because(ErrorKind::Overlength) => b"refused: Overlength\n",
            Refusal::Because(ErrorKind::Malformed) => b"refused: Malformed\n",
            Refusal::Because(ErrorKind::Failed) => b"refused: Failed\n",
            Refusal::Because(ErrorKind::SetDuplicate) => b"refused: SetDuplicate\n",
            Refusal::Because(ErrorKind::Value) => b"refused: Value\n",
        }
    }
}

impl From<Error> for Refusal {
    ghost from_gives = { λ e refusal. refusal ≡ Because e.kind };

    fn from(e: Error) -> Refusal {
        Refusal::Because(e.kind())
    }
}

impl From<AllocError> for Refusal {
    ghost from_gives = { λ _ refusal. refusal ≡ Because Memory };

    fn from(_e: AllocError) -> Refusal {
        Refusal::Because(ErrorKind::Memory)
    }
}
