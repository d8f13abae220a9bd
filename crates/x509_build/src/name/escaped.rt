//! The escapes of a text.

use std::fmt;
use x509_name::text::write_escaped;

/// A text that prints as one value of an RFC 4514 text (section 2.4), whatever it holds.
#[derive(Clone, Copy, Debug)]
pub struct Escaped<'a>(pub &'a str);

impl fmt::Display for Escaped<'_> {
    ghost use Rattle.std.specs.Prelude.{Some};
    ghost use Rattle.x509_name.specs.Escapes.{escaped};

    ghost output = { λ text. Some (escaped text.0.now) };

    fn fmt<W: fmt::Write>(&self, f: &mut fmt::Formatter<W>) -> fmt::Result {
        write_escaped(f, self.0)
    }
}
