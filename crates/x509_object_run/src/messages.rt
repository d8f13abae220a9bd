//! Messages on standard error.

ghost use Rattle.std.specs.List.{flat_map};
ghost use Rattle.std.specs.Fmt.{decimal};
ghost use Rattle.std.specs.Prelude.{◌≡◌, ◌⊎◌, ◌++◌, IfOk, string_bytes};
ghost use Rattle.x509_object_run.specs.Faults.{complaint, short_complaint};
ghost use Rattle.x509_object_run.specs.Labels.{label_of};
ghost use Rattle.x509_object_run.specs.Program.{IsTold, Says, progress};
ghost use Rattle.x509_tool_run.specs.Answer.{as_line};
ghost use Rattle.x509_tool_run.specs.Version.{version_text};

use crate::label::label_of;
use crate::printer::Printer;
use std::alloc::{AllocError, Global};
use x509_tool_run::{Sink, VERSION, WriteError, write_texts};

/// Writes texts as one message, as far as they can be.
fn tell_texts<E: Sink>(errors: &mut E, texts: &[&[u8]])
    ensures { IsTold E.takes errors.old (flat_map (λ text. text.now) texts.now) errors.new }
{
    let _ = write_texts(errors, texts);
}

/// Tells what is wrong with the words, and how the program is called.
pub(crate) fn tell_misuse<'a, E: Sink>(
    errors: &mut E,
    what: &'a [u8],
    word: &'a str,
    end: &'a [u8],
    usage: &'a [u8],
)
    ensures { IsTold E.takes errors.old ((what.now ++ (word.now ++ end.now)) ++ usage.now) errors.new }
{
    tell_texts(errors, &[what, word.as_bytes(), end, usage]);
}

/// Tells of an input.
pub(crate) fn complain_of<'a, E: Sink>(
    errors: &mut E,
    program: &'a [u8],
    label: &'a [u8],
    what: &'a [u8],
)
    ensures { IsTold E.takes errors.old (complaint program.now label.now what.now) errors.new }
{
    tell_texts(errors, &[program, b": ", label, b": ", what, b"\n"]);
}

/// Tells of the input of a name, as far as it can be told.
pub fn tell_of_input<'a, E: Sink>(errors: &mut E, program: &'a [u8], name: &'a str, what: &'a [u8])
    ensures { IsTold E.takes errors.old (complaint program.now (label_of name.now) what.now) errors.new }
{
    complain_of(errors, program, label_of(name).as_bytes(), what);
}

/// Tells of how many objects there are so far, unless there is no memory for that.
pub(crate) fn tell_progress<P: Printer, E: Sink>(alloc: Global, count: u64, errors: &mut E)
    ensures { IsTold E.takes errors.old (progress P.program.name count) errors.new ⊎ (errors.new ≡ errors.old) }
{
    match count_text(alloc, count) {
        Ok(text) => tell_texts(
            errors,
            &[
                P::name(),
                b": ",
                text.as_str().as_bytes(),
                b" objects so far\n",
            ],
        ),
        Err(AllocError) => {}
    }
}

fn count_text(alloc: Global, count: u64) -> Result<String, AllocError>
    ensures { IfOk result (λ text. string_bytes text ≡ decimal count) }
{
    format!(in alloc; "{count}")
}

/// Tells what no input is at fault for.
pub(crate) fn complain_shortly<P: Printer, E: Sink>(errors: &mut E, what: &'static [u8])
    ensures { IsTold E.takes errors.old (short_complaint P.program.name what.now) errors.new }
{
    tell_texts(errors, &[P::name(), b": ", what, b"\n"]);
}

/// Writes texts, and answers status 0; where they can't be written tells so, with status 2.
pub fn say<P: Printer, W: Sink, E: Sink>(texts: &[&[u8]], writer: &mut W, errors: &mut E) -> u8
    ensures { Says P.program.name W.takes E.takes (flat_map (λ text. text.now) texts.now) writer.old writer.new errors.old errors.new result }
{
    match write_texts(writer, texts) {
        Ok(()) => 0,
        Err(WriteError) => {
            complain_shortly::<P, E>(errors, b"the output can't be written");
            2
        }
    }
}

/// Writes the line of the version, and answers status 0; where it can't be written tells so, with status 2.
pub(crate) fn say_version<P: Printer, W: Sink, E: Sink>(writer: &mut W, errors: &mut E) -> u8
    ensures { Says P.program.name W.takes E.takes (as_line (version_text P.program.name)) writer.old writer.new errors.old errors.new result }
{
    say::<P, W, E>(
        &[P::name(), b" ", VERSION.as_bytes(), b"\n"],
        writer,
        errors,
    )
}
