//! Headings of what is printed of an input.

ghost use Rattle.std.specs.Prelude.{◌≡◌, ◌++◌, OnErr, OnOk};
ghost use Rattle.x509_object_run.specs.Object.{heading_for, heading_text};
ghost use Rattle.x509_tool_run.specs.Program.{IsCutOff, IsWritten};

use x509_tool_run::{Sink, WriteError, write_texts};

/// A heading, which is empty where none is wanted.
#[derive(Clone, Copy)]
pub struct Heading<'a> {
    /// What the input is called.
    pub name: &'a str,

    /// What stands behind it.
    pub end: &'a str,
}

/// What stands above what is printed of an input.
#[derive(Clone, Copy)]
pub enum Headed {
    /// Nothing.
    Not,

    /// A line with what the input is called, and a colon.
    Line,

    /// What the input is called alone, which the printer puts where it wants it.
    Name,
}

/// The heading of an input, where one is wanted.
pub(crate) fn heading_of(headed: Headed, label: &str) -> Heading<'_>
    ensures { heading_text result ≡ heading_for headed label.now }
{
    match headed {
        Headed::Not => Heading { name: "", end: "" },
        Headed::Line => Heading {
            name: label,
            end: ":\n",
        },
        Headed::Name => Heading {
            name: label,
            end: "",
        },
    }
}

/// Writes a text under a heading.
///
/// # Errors
///
/// [`WriteError`] where a write fails or takes no bytes; then a part may be written.
pub fn write_headed<'a, W: Sink>(
    writer: &mut W,
    heading: Heading<'a>,
    text: &'a [u8],
) -> Result<(), WriteError>
    ensures ok { OnOk result (IsWritten W.takes writer.old (heading_text heading.entry ++ text.now) writer.new) }
    ensures err { OnErr result (IsCutOff W.takes writer.old (heading_text heading.entry ++ text.now) writer.new) }
{
    write_texts(
        writer,
        &[heading.name.as_bytes(), heading.end.as_bytes(), text],
    )
}
