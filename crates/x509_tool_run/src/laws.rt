//! What the definitions come to where std knows the bytes of a reader and a writer.

ghost use Rattle.std.specs.Prelude.{◌≡◌, ◌<◌, ◌++◌, ℕ, List, Some, length};
ghost use Rattle.x509_tool_run.specs.Input.{IsRead, Whole, TooLong, input_limit};
ghost use Rattle.x509_tool_run.specs.Program.{IsWritten};

use crate::input::Source;
use crate::output::Sink;
use std::io;

/// An input that is read whole is all that the reader had, and one that is too long comes of more than the limit.
pub fn known_input<R: io::Read>()
    ensures whole { (from to : R) (known bytes : List ℕ) → R.remaining from ≡ Some known
        → IsRead ⟦<R as Source>⟧.gives from (Whole bytes) to → bytes ≡ known }
    ensures too_long { (from to : R) (known : List ℕ) → R.remaining from ≡ Some known
        → IsRead ⟦<R as Source>⟧.gives from TooLong to → input_limit < length known }
{}

/// A text that is written stands after what the writer held.
pub fn known_output<W: io::Write>()
    ensures { (from to : W) (known text : List ℕ) → W.contents from ≡ Some known
        → IsWritten ⟦<W as Sink>⟧.takes from text to → W.contents to ≡ Some (known ++ text) }
{}
