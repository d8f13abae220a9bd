//! What is printed of an input.

ghost use Rattle.std.specs.Cow.{cow_str_bytes};
ghost use Rattle.std.specs.Prelude.{◌≡◌, ℕ, [], IfOk, Option, map, string_bytes};
ghost use Rattle.std.specs.Result.{result_map_both};
ghost use Rattle.x509_object_run.specs.Faults.{complaint, fault_text, told_text};
ghost use Rattle.x509_object_run.specs.Object.{AreShown, heading_for};
ghost use Rattle.x509_object_run.specs.Program.{AreDone, IsCalledDone, IsCounted, IsDone, IsFileDone, IsItemDone, IsItemShown, IsObjectDone, IsRefused, IsTold, outputs, streams, world_of, writes};
ghost use Rattle.x509_object_run.specs.declared.fault.Fault.TheVariants.{Memory};

use crate::console::Console;
use crate::fault::{Fault, OpenError, PrintError, fault_words, is_whole, looks_of, whole_words};
use crate::files::Opener;
use crate::heading::{Headed, heading_of};
use crate::label::{is_standard, label_of, numbered};
use crate::lines::do_source;
use crate::messages::{complain_of, tell_progress};
use crate::printer::Printer;
use std::alloc::{AllocError, Global};
use std::borrow::CowStr;
use x509_tool_run::{Sink, Source, write_text};

/// Writes what is printed of bytes, under a heading where one is wanted; where they are no object it is told what they look like.
fn show_bytes<P: Printer, W: Sink>(
    alloc: Global,
    printer: &P,
    headed: Headed,
    label: &str,
    bytes: &[u8],
    writer: &mut W,
) -> Result<u8, Fault>
    ensures { AreShown (P.subject printer.now) (heading_for headed label.now) bytes.now W.takes writer.old writer.new result }
{
    match printer.print(alloc, heading_of(headed, label), bytes, writer) {
        Ok(status) => Ok(status),
        Err(PrintError::NoObject) => Err(Fault::NoObject(looks_of(bytes))),
        Err(PrintError::Unwritten) => Err(Fault::Unwritten),
        Err(PrintError::Memory) => Err(Fault::Memory),
    }
}

/// Writes a text, as far as it can be.
fn try_write<W: Sink>(text: &[u8], writer: &mut W)
    ensures { IsTold W.takes writer.old text.now writer.new }
{
    let _ = write_text(writer, text);
}

/// Why nothing whole is printed of bytes, in words.
fn told_of<P: Printer>(
    alloc: Global,
    printer: &P,
    bytes: &[u8],
    fault: Fault,
) -> Result<String, AllocError>
    ensures { IfOk result (λ text. string_bytes text
        ≡ told_text (P.subject printer.now).no_object ((P.subject printer.now).wrong bytes.now) fault) }
{
    if !is_whole(fault) {
        return fault_words(alloc, printer.no_object(), fault);
    }
    let wrong = printer.wrong(alloc, bytes)?;
    whole_words(alloc, printer.no_object(), wrong.as_str())
}

/// What is printed where nothing whole is printed of bytes, and what is told.
fn refusal_of<P: Printer>(
    alloc: Global,
    printer: &P,
    headed: Headed,
    label: &str,
    bytes: &[u8],
    fault: Fault,
) -> Result<(Vec<u8>, String), AllocError>
    ensures printed { IfOk result (λ refusal. refusal.0.items ≡ (P.subject printer.now).refused (heading_for headed label.now) bytes.now fault) }
    ensures told { IfOk result (λ refusal. string_bytes refusal.1
        ≡ told_text (P.subject printer.now).no_object ((P.subject printer.now).wrong bytes.now) fault) }
{
    let text = printer.refused(alloc, heading_of(headed, label), bytes, fault)?;
    let words = told_of(alloc, printer, bytes, fault)?;
    Ok((text, words))
}

/// Prints and tells why nothing whole is printed of bytes, of none where none are read.
pub(crate) fn refuse<P: Printer, W: Sink, E: Sink>(
    alloc: Global,
    printer: &P,
    headed: Headed,
    label: &str,
    bytes: &[u8],
    fault: Fault,
    writer: &mut W,
    errors: &mut E,
)
    ensures { IsRefused P.program.name (P.subject printer.now) W.takes E.takes headed label.now bytes.now fault
        (outputs writer.old errors.old) (outputs writer.new errors.new) }
{
    match refusal_of(alloc, printer, headed, label, bytes, fault) {
        Ok((text, words)) => {
            try_write(text.as_slice(), writer);
            complain_of(
                errors,
                P::name(),
                label.as_bytes(),
                words.as_str().as_bytes(),
            );
        }
        Err(AllocError) => forget::<P, E>(label, errors),
    }
}

/// Tells that there is no memory for what is told of an input.
fn forget<P: Printer, E: Sink>(label: &str, errors: &mut E)
    ensures { IsTold E.takes errors.old (complaint P.program.name label.now (fault_text [] Memory)) errors.new }
{
    complain_of(errors, P::name(), label.as_bytes(), b"out of memory");
}

/// Writes what is printed of the bytes of an object or tells why nothing is, and answers the status.
fn do_object<P: Printer, W: Sink, E: Console>(
    alloc: Global,
    printer: &P,
    headed: Headed,
    label: &str,
    bytes: &[u8],
    writer: &mut W,
    errors: &mut E,
) -> u8
    ensures { IsObjectDone P.program.name (P.subject printer.now) (writes W.takes E.takes E.counts) headed label.now bytes.now
        (outputs writer.old errors.old) (outputs writer.new errors.new) result }
{
    match show_bytes(alloc, printer, headed, label, bytes, writer) {
        Ok(status) => status,
        Err(fault) => {
            refuse(alloc, printer, headed, label, bytes, fault, writer, errors);
            2
        }
    }
}

/// Counts an object, and tells of how many there are where it is time.
fn note<P: Printer, E: Console>(alloc: Global, errors: &mut E)
    ensures { (middle : E) × (due : Option ℕ) × E.counts errors.old due middle × IsCounted P.program.name E.takes due middle errors.new }
{
    match errors.count() {
        Some(count) => tell_progress::<P, E>(alloc, count, errors),
        None => {}
    }
}

/// Writes what is printed of an object or tells why nothing is, and answers the status.
fn show_item<P: Printer, W: Sink, E: Console>(
    alloc: Global,
    printer: &P,
    headed: Headed,
    label: &str,
    item: Result<&[u8], Fault>,
    writer: &mut W,
    errors: &mut E,
) -> u8
    ensures { IsItemShown P.program.name (P.subject printer.now) (writes W.takes E.takes E.counts) headed label.now
        (result_map_both (λ bytes. bytes.now) (λ fault. fault) item.entry) (outputs writer.old errors.old) (outputs writer.new errors.new) result }
{
    match item {
        Ok(bytes) => do_object(alloc, printer, headed, label, bytes, writer, errors),
        Err(fault) => {
            refuse(alloc, printer, headed, label, &[], fault, writer, errors);
            2
        }
    }
}

/// Does so, and counts it.
pub(crate) fn do_item<P: Printer, W: Sink, E: Console>(
    alloc: Global,
    printer: &P,
    headed: Headed,
    label: &str,
    item: Result<&[u8], Fault>,
    writer: &mut W,
    errors: &mut E,
) -> u8
    ensures { IsItemDone P.program.name (P.subject printer.now) (writes W.takes E.takes E.counts) headed label.now
        (result_map_both (λ bytes. bytes.now) (λ fault. fault) item.entry) (outputs writer.old errors.old) (outputs writer.new errors.new) result }
{
    let status = show_item(alloc, printer, headed, label, item, writer, errors);
    note::<P, E>(alloc, errors);
    status
}

/// Does so for that with this number of an input of several.
pub(crate) fn do_numbered<P: Printer, W: Sink, E: Console>(
    alloc: Global,
    printer: &P,
    label: &str,
    number: usize,
    item: Result<&[u8], Fault>,
    writer: &mut W,
    errors: &mut E,
) -> u8
    ensures { IsCalledDone P.program.name (P.subject printer.now) (writes W.takes E.takes E.counts) label.now number
        (result_map_both (λ bytes. bytes.now) (λ fault. fault) item.entry) (outputs writer.old errors.old) (outputs writer.new errors.new) result }
{
    match numbered(alloc, label, number) {
        Ok(numbered) => {
            let headed = printer.headed(true);
            do_item(
                alloc,
                printer,
                headed,
                numbered.as_str(),
                item,
                writer,
                errors,
            )
        }
        Err(AllocError) => {
            forget::<P, E>(label, errors);
            2
        }
    }
}

/// Reads the file that was opened, writes what is printed of it or tells why nothing is, and answers the status.
fn do_file<P: Printer, F: Source + Drop, W: Sink, E: Console>(
    alloc: Global,
    printer: &P,
    headed: Headed,
    label: &str,
    opened: Result<F, OpenError>,
    writer: &mut W,
    errors: &mut E,
) -> u8
    ensures { IsFileDone P.program.name (P.subject printer.now) (writes W.takes E.takes E.counts) F.gives headed label.now opened
        (outputs writer.old errors.old) (outputs writer.new errors.new) result }
{
    match opened {
        Ok(mut file) => do_source(alloc, printer, headed, label, &mut file, writer, errors),
        Err(e) => do_item(
            alloc,
            printer,
            headed,
            label,
            Err(Fault::Unopened(e)),
            writer,
            errors,
        ),
    }
}

/// Reads the input of a name, writes what is printed of it or tells why nothing is, and answers the status.
fn do_one<P: Printer, R: Source, F: Source + Drop, O: Opener<F>, W: Sink, E: Console>(
    alloc: Global,
    printer: &P,
    headed: Headed,
    name: &str,
    opener: &O,
    reader: &mut R,
    writer: &mut W,
    errors: &mut E,
) -> u8
    ensures { IsDone P.program.name (P.subject printer.now) (world_of R.gives (O.opens opener.now) (O.lists opener.now) (O.stands opener.now) F.gives W.takes E.takes E.counts) headed name.now
        (streams reader.old writer.old errors.old) (streams reader.new writer.new errors.new) result }
{
    let label = label_of(name);
    if is_standard(name) {
        return do_source(alloc, printer, headed, label, reader, writer, errors);
    }
    do_file(
        alloc,
        printer,
        headed,
        label,
        opener.open(name),
        writer,
        errors,
    )
}

/// Does so for inputs one after the other, and answers the greatest status.
pub(crate) fn do_all<P: Printer, R: Source, F: Source + Drop, O: Opener<F>, W: Sink, E: Console>(
    alloc: Global,
    printer: &P,
    headed: Headed,
    names: &[CowStr<'_>],
    opener: &O,
    reader: &mut R,
    writer: &mut W,
    errors: &mut E,
) -> u8
    ensures { AreDone P.program.name (P.subject printer.now) (world_of R.gives (O.opens opener.now) (O.lists opener.now) (O.stands opener.now) F.gives W.takes E.takes E.counts) headed
        (map cow_str_bytes names.now) (streams reader.old writer.old errors.old) (streams reader.new writer.new errors.new) result }
{
    let mut worst = 0u8;
    for name in names {
        let name = name.as_str();
        let status = do_one(alloc, printer, headed, name, opener, reader, writer, errors);
        worst = worst.max(status);
    }
    worst
}
