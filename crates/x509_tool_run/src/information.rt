//! What the program tells about itself.

ghost use Rattle.std.specs.Prelude.{◌≡◌, ◌∷◌, [], codes, map, string_bytes};
ghost use Rattle.x509_tool_run.specs.Information.{information_of, information_text};
ghost use Rattle.x509_tool_run.specs.Program.{Says};
ghost use Rattle.x509_tool_run.specs.Version.{version_text};

use crate::output::{Sink, WriteError, write_texts};
use crate::program::say;
use crate::version::VERSION;

const HELP: &[u8] = b"usage: x509_tool reencode TYPE [rfc5280|raw] | name | encode-name
       x509_tool path [--any-signature] MOMENT

Reads a line from standard input and answers it with a line.

  reencode TYPE  decodes hex text of a TYPE and encodes the value again
  name           prints the name that hex text encodes
  encode-name    encodes a name as hex text
  path MOMENT    checks a path at a moment, as 2026-01-02T03:04:05Z: PEM of the trust
                 anchor and of the certificates below it, topmost first, or their hex texts
                 on a line, a space between two. No signature is verified: one has to be
                 the message itself, or with --any-signature may be any. Names are compared
                 byte for byte, and there are no name constraints, policies and CRLs. A
                 path is validated by validate_path in Rattle, Rust and Python, and by
                 x509_path_validate in C
  --help         prints this text
  --version      prints the version

TYPE: anchor, any, certificate, crl, extensions, general-names, integer, name, oid,
rdn, request, serial, time, validity

Status: 0 for an answer, 1 where the line is refused, the path has a fault or the output
can't be written, 2 for other words.
";

/// What the program may be asked about itself.
#[derive(Clone, Copy)]
pub enum Information {
    /// How it is called, and what it does.
    Help,

    /// Its version.
    Version,
}

impl Information {
    /// What the words ask about the program, if they ask for that.
    pub fn from_words(words: &[String]) -> Option<Information>
        ensures { result ≡ information_of (map string_bytes words.now) }
    {
        match words {
            [word] => Information::from_word(word.as_str()),
            _ => None,
        }
    }

    fn from_word(word: &str) -> Option<Information>
        ensures { result ≡ information_of (word.now ∷ []) }
    {
        match word {
            "--help" => Some(Information::Help),
            "--version" => Some(Information::Version),
            _ => None,
        }
    }
}

/// Writes the line of the version, and answers the status: 1 where it can't be written.
fn tell_version<W: Sink>(writer: &mut W) -> u8
    ensures { Says W.takes writer.old (version_text (codes "x509_tool")) 0 writer.new result }
{
    match write_texts(writer, &[b"x509_tool ", VERSION.as_bytes(), b"\n"]) {
        Ok(()) => 0,
        Err(WriteError) => 1,
    }
}

/// Writes what the words ask for, and answers the status: 1 where it can't be written.
pub(crate) fn tell<W: Sink>(writer: &mut W, asked: Information) -> u8
    ensures { Says W.takes writer.old (information_text asked) 0 writer.new result }
{
    match asked {
        Information::Help => say(writer, HELP, 0),
        Information::Version => tell_version(writer),
    }
}
