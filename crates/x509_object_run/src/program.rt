//! A run of a program over objects.

ghost use Rattle.std.specs.Cow.{cow_str_bytes};
ghost use Rattle.std.specs.Prelude.{◌≡◌, ◌⊎◌, [], map, string_bytes};
ghost use Rattle.x509_object_run.specs.Faults.{fault_text, short_complaint};
ghost use Rattle.x509_object_run.specs.Program.{AreDone, AreNamedDone, IsRun, IsTold, IsUnkept, are_headed, call_from, call_of, streams, world_of};
ghost use Rattle.x509_object_run.specs.Words.{inputs_of};
ghost use Rattle.x509_object_run.specs.declared.fault.Fault.TheVariants.{Memory};

use crate::below;
use crate::below::Inputs;
use crate::console::Console;
use crate::files::Opener;
use crate::messages::{complain_shortly, say, say_version, tell_misuse};
use crate::printer::{Asked, Printer};
use crate::shown::do_all;
use crate::words::{has_option, split};
use std::alloc::{AllocError, Global};
use x509_tool_run::{Sink, Source};

/// Tells that there is no memory for the words or for names of inputs, and answers the status.
pub fn refuse_memory<P: Printer, E: Sink>(errors: &mut E) -> u8
    ensures { IsTold E.takes errors.old (short_complaint P.program.name (fault_text [] Memory)) errors.new × (result ≡ 2) }
{
    complain_shortly::<P, E>(errors, b"out of memory");
    2
}

/// The inputs that are named, or standard input.
fn inputs_of<'a, 'b>(names: &'a [&'b str]) -> &'a [&'b str]
    ensures { map (λ name. name.now) result.now ≡ inputs_of (map (λ name. name.now) names.now) }
{
    if names.is_empty() { &["-"] } else { names }
}

/// Shows inputs, and answers the greatest of their statuses.
fn show_inputs<P: Printer, R: Source, F: Source + Drop, O: Opener<F>, W: Sink, E: Console>(
    alloc: Global,
    printer: &P,
    inputs: &Inputs<'_>,
    opener: &O,
    reader: &mut R,
    writer: &mut W,
    errors: &mut E,
) -> u8
    ensures { AreDone P.program.name (P.subject printer.now) (world_of R.gives (O.opens opener.now) (O.lists opener.now) (O.stands opener.now) F.gives W.takes E.takes E.counts)
        (are_headed (P.subject printer.now) inputs.now.has_directory (map cow_str_bytes inputs.now.names.items)) (map cow_str_bytes inputs.now.names.items)
        (streams reader.old writer.old errors.old) (streams reader.new writer.new errors.new) result }
{
    let names = inputs.names.as_slice();
    let headed = printer.headed(inputs.are_several());
    do_all(
        alloc, printer, headed, names, opener, reader, writer, errors,
    )
}

/// Shows the inputs that are named, or standard input where none is, and answers the greatest of their statuses. A directory stands for the files in it,
/// and a SignedData for the certificates and CRLs in it.
pub fn show_all<P: Printer, R: Source, F: Source + Drop, O: Opener<F>, W: Sink, E: Console>(
    alloc: Global,
    printer: &P,
    names: &[&str],
    opener: &O,
    reader: &mut R,
    writer: &mut W,
    errors: &mut E,
) -> u8
    ensures { AreNamedDone P.program (P.subject printer.now) (world_of R.gives (O.opens opener.now) (O.lists opener.now) (O.stands opener.now) F.gives W.takes E.takes E.counts)
        (inputs_of (map (λ name. name.now) names.now)) (streams reader.old writer.old errors.old) (streams reader.new writer.new errors.new) result }
{
    match below::inputs_of::<F, O>(alloc, opener, inputs_of(names)) {
        Ok(inputs) => show_inputs(alloc, printer, &inputs, opener, reader, writer, errors),
        Err(AllocError) => refuse_memory::<P, E>(errors),
    }
}

/// Does what options and names ask for, as [`run`] does.
pub fn obey<P: Asked, R: Source, F: Source + Drop, O: Opener<F>, W: Sink, E: Console>(
    alloc: Global,
    options: &[&str],
    names: &[&str],
    opener: &O,
    reader: &mut R,
    writer: &mut W,
    errors: &mut E,
) -> u8
    ensures { IsRun P.program P.subject (world_of R.gives (O.opens opener.now) (O.lists opener.now) (O.stands opener.now) F.gives W.takes E.takes E.counts)
        (call_from P.asked P.misuse (map (λ option. option.now) options.now) (map (λ name. name.now) names.now))
        (streams reader.old writer.old errors.old) (streams reader.new writer.new errors.new) result }
{
    if has_option(options, "--help") {
        return say::<P, W, E>(&[P::help()], writer, errors);
    }
    if has_option(options, "--version") {
        return say_version::<P, W, E>(writer, errors);
    }
    match P::from_words(options, names) {
        Some((printer, names)) => {
            show_all(alloc, &printer, names, opener, reader, writer, errors)
        }
        None => {
            let (what, word, end) = P::misuse(options, names);
            tell_misuse(errors, what, word, end, P::usage());
            2
        }
    }
}

/// Does what the words ask for: shows the inputs that they name, or standard input, and answers the greatest of their statuses; or says
/// how the program is called, what it does, or its version.
pub fn run<P: Asked, R: Source, F: Source + Drop, O: Opener<F>, W: Sink, E: Console>(
    alloc: Global,
    words: &[String],
    opener: &O,
    reader: &mut R,
    writer: &mut W,
    errors: &mut E,
) -> u8
    ensures { IsRun P.program P.subject (world_of R.gives (O.opens opener.now) (O.lists opener.now) (O.stands opener.now) F.gives W.takes E.takes E.counts)
        (call_of P.asked P.misuse (map string_bytes words.now)) (streams reader.old writer.old errors.old) (streams reader.new writer.new errors.new) result
        ⊎ IsUnkept P.program E.takes (streams reader.old writer.old errors.old) (streams reader.new writer.new errors.new) result }
{
    match split(alloc, words) {
        Ok(words) => obey::<P, R, F, O, W, E>(
            alloc,
            words.options.as_slice(),
            words.names.as_slice(),
            opener,
            reader,
            writer,
            errors,
        ),
        Err(AllocError) => refuse_memory::<P, E>(errors),
    }
}
