//! What a program prints of an object, and what its words ask for.

ghost use Rattle.std.specs.Option.{option_map};
ghost use Rattle.std.specs.Prelude.{◌≡◌, ◌++◌, ℕ, IfOk, List, Option, map, string_bytes};
ghost use Rattle.x509_object_run.specs.Object.{IsPrinted, Subject, heading_text};
ghost use Rattle.x509_object_run.specs.Program.{Program};
ghost use Rattle.x509_tool_run.specs.Answer.{as_line};

use crate::fault::{Fault, PrintError};
use crate::heading::{Headed, Heading};
use std::alloc::{AllocError, Global};
use x509_tool_run::Sink;

/// What a program prints of an object, by the words that it was called with.
pub trait Printer: Sized + Drop {
    /// What the program says of itself.
    ghost program: { Program };

    /// What is printed of an object.
    ghost subject: { Self → Subject };

    /// The program's name.
    fn name() -> &'static [u8]
        ensures { result.now ≡ program.name };

    /// How it is told that bytes are no object of the kind that is asked for.
    fn no_object(&self) -> &'static str
        ensures { result.now ≡ (subject self.now).no_object };

    /// What in bytes is wrong that are no object of the kind that is asked for, though they are one SEQUENCE.
    ///
    /// # Errors
    ///
    /// `AllocError` when out of memory.
    fn wrong(&self, alloc: Global, bytes: &[u8]) -> Result<String, AllocError>
        ensures { IfOk result (λ text. string_bytes text ≡ (subject self.now).wrong bytes.now) };

    /// What stands above what is printed of an input, where there are several or there is one.
    fn headed(&self, is_several: bool) -> Headed
        ensures { result ≡ (subject self.now).headed is_several };

    /// What is printed of an input or an object of which nothing whole is printed, under a heading: beside the message, it may be nothing. There are no
    /// bytes where none are read.
    ///
    /// # Errors
    ///
    /// `AllocError` when out of memory.
    fn refused(
        &self,
        alloc: Global,
        heading: Heading<'_>,
        bytes: &[u8],
        fault: Fault,
    ) -> Result<Vec<u8>, AllocError>
        ensures { IfOk result (λ text. text.items ≡ (subject self.now).refused (heading_text heading.entry) bytes.now fault) };

    /// Writes what is printed of the bytes under a heading, and answers the status of the program.
    ///
    /// # Errors
    ///
    /// `NoObject` where the bytes are no object of the kind that is asked for; nothing is written then. `Unwritten` where the output
    /// can't be written, and `Memory` when out of memory; a part of the text may be written then.
    fn print<W: Sink>(
        &self,
        alloc: Global,
        heading: Heading<'_>,
        bytes: &[u8],
        writer: &mut W,
    ) -> Result<u8, PrintError>
        ensures { IsPrinted ((subject self.now).prints (heading_text heading.entry) bytes.now)
            ((subject self.now).is_none bytes.now) W.takes writer.old writer.new result };
}

/// A printer that words ask for.
pub trait Asked: Printer {
    /// The printer that options and names ask for, where they ask for one, and the names of inputs among them.
    ghost asked: { List (List ℕ) → List (List ℕ) → Option (Self × List (List ℕ)) };

    /// What is told above the usage where options and names ask for nothing: what is wrong with them, or nothing.
    ghost misuse: { List (List ℕ) → List (List ℕ) → List ℕ };

    /// The printer that the words ask for, where they ask for one, and those of the names that are of inputs.
    fn from_words<'a, 'b>(options: &[&str], names: &'a [&'b str]) -> Option<(Self, &'a [&'b str])>
        ensures { option_map (λ found. (found.0, map (λ name. name.now) found.1.now)) result
            ≡ asked (map (λ option. option.now) options.now) (map (λ name. name.now) names.now) };

    /// What is told above the usage of words that ask for nothing: three texts, one behind the other, of which the second may be one of the words.
    fn misuse<'b>(options: &[&'b str], names: &[&'b str]) -> (&'static [u8], &'b str, &'static [u8])
        ensures { result.0.now ++ (result.1.now ++ result.2.now) ≡ misuse (map (λ option. option.now) options.now) (map (λ name. name.now) names.now) };

    /// The line that tells how the program is called, with its line feed.
    fn usage() -> &'static [u8]
        ensures { result.now ≡ as_line Self.program.usage };

    /// What the program does, and how it is called.
    fn help() -> &'static [u8]
        ensures { result.now ≡ Self.program.help };
}
