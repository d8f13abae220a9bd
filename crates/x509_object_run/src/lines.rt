//! The lines of an input, which is read piece by piece, and what is printed of the objects in them.

ghost use Rattle.std.specs.List.{position};
ghost use Rattle.std.specs.Option.{option_map};
ghost use Rattle.std.specs.Prelude.{◌≡◌, ◌≢◌, ◌⊎◌, ◌<◌, ◌∷◌, ◌++◌, ℕ, List, [], IsTrue, MatchOption, MatchResult, Ok, OnErr, OnOk, Some, false, length, true};
ghost use Rattle.std.specs.Result.{result_map_both};
ghost use Rattle.x509_object_run.specs.Object.{Item, item_of, objects_of_item, text_bytes};
ghost use Rattle.x509_object_run.specs.Program.{AreCutShort, AreItemsDone, AreNumberedDone, IsSourceDone, Outputs, items_from, last_items, outputs, writes};
ghost use Rattle.x509_object_run.specs.Reading.{AreTallied, AreTold, IsFedUp, IsFinished, IsFrontTold, IsHeld, IsNothing, IsUnderway, pending_of};
ghost use Rattle.x509_tool_run.specs.Input.{input_limit};
ghost use Rattle.x509_tool_run.specs.Pem.{ends_line, lines_of};
ghost use Rattle.x509_tool_run.specs.Scan.{after, is_pem, mark_from, mark_of, start};

use crate::console::Console;
use crate::fault::Fault;
use crate::heading::Headed;
use crate::input::text_bytes;
use crate::objects::{Objects, only_of};
use crate::printer::Printer;
use crate::shown::{do_item, do_numbered, refuse};
use std::alloc::{AllocError, Global};
use x509_tool_run::{Broken, INPUT_LIMIT, ReadError, Scan, Sink, Source, Stage, ends_line};

/// The items of an input that were met: the last one, which isn't told of yet, how many objects there are in the others, and the greatest of their statuses.
#[derive(Drop)]
struct Shown {
    pending: Option<Result<Vec<u8>, Fault>>,
    count: usize,
    worst: u8,
}

/// Tells of the next object of an input of several.
fn tell_object<P: Printer, W: Sink, E: Console>(
    alloc: Global,
    printer: &P,
    label: &str,
    object: Result<&[u8], Fault>,
    shown: &mut Shown,
    writer: &mut W,
    errors: &mut E,
)
    ensures { (done : List Item) → (first : Outputs W E)
        → AreTallied P.program.name (P.subject printer.now) (writes W.takes E.takes E.counts) label.now done shown.old.count shown.old.worst
        first (outputs writer.old errors.old)
        → AreTallied P.program.name (P.subject printer.now) (writes W.takes E.takes E.counts) label.now
        (done ++ result_map_both (λ bytes. bytes.now) (λ fault. fault) object.entry ∷ []) shown.new.count shown.new.worst
        first (outputs writer.new errors.new) }
{
    let number = shown.count.saturating_add(1);
    let status = do_numbered(alloc, printer, label, number, object, writer, errors);
    shown.count = number;
    shown.worst = shown.worst.max(status);
}

/// Tells of the objects that bytes stand for, one after the other.
fn tell_objects<P: Printer, W: Sink, E: Console>(
    alloc: Global,
    printer: &P,
    label: &str,
    bytes: &[u8],
    shown: &mut Shown,
    writer: &mut W,
    errors: &mut E,
)
    ensures { (done : List Item) → (first : Outputs W E)
        → AreTallied P.program.name (P.subject printer.now) (writes W.takes E.takes E.counts) label.now done shown.old.count shown.old.worst
        first (outputs writer.old errors.old)
        → AreTallied P.program.name (P.subject printer.now) (writes W.takes E.takes E.counts) label.now
        (done ++ objects_of_item (Ok bytes.now)) shown.new.count shown.new.worst
        first (outputs writer.new errors.new) }
{
    let mut objects = Objects::of(bytes);
    while let Some(object) = objects.next() {
        tell_object(alloc, printer, label, Ok(object), shown, writer, errors);
    }
}

/// Tells of the objects that an item stands for.
fn tell_item<P: Printer, W: Sink, E: Console>(
    alloc: Global,
    printer: &P,
    label: &str,
    item: &Result<Vec<u8>, Fault>,
    shown: &mut Shown,
    writer: &mut W,
    errors: &mut E,
)
    ensures { (done : List Item) → (first : Outputs W E)
        → AreTallied P.program.name (P.subject printer.now) (writes W.takes E.takes E.counts) label.now done shown.old.count shown.old.worst
        first (outputs writer.old errors.old)
        → AreTallied P.program.name (P.subject printer.now) (writes W.takes E.takes E.counts) label.now
        (done ++ objects_of_item (result_map_both (λ bytes. bytes.items) (λ fault. fault) item.now)) shown.new.count shown.new.worst
        first (outputs writer.new errors.new) }
{
    match item {
        Ok(bytes) => tell_objects(
            alloc,
            printer,
            label,
            bytes.as_slice(),
            shown,
            writer,
            errors,
        ),
        Err(fault) => tell_object(alloc, printer, label, Err(*fault), shown, writer, errors),
    }
}

/// Tells of the item that is pending.
fn flush<P: Printer, W: Sink, E: Console>(
    alloc: Global,
    printer: &P,
    label: &str,
    shown: &mut Shown,
    writer: &mut W,
    errors: &mut E,
)
    ensures { (items : List Item) → (first : Outputs W E)
        → AreTold P.program.name (P.subject printer.now) (writes W.takes E.takes E.counts) label.now items
        (pending_of shown.old) shown.old.count shown.old.worst first (outputs writer.old errors.old)
        → AreTallied P.program.name (P.subject printer.now) (writes W.takes E.takes E.counts) label.now items
        shown.new.count shown.new.worst first (outputs writer.new errors.new) }
{
    match shown.pending.take() {
        Some(item) => tell_item(alloc, printer, label, &item, shown, writer, errors),
        None => {}
    }
}

/// Takes the next item, and tells of the one before it.
fn put_item<P: Printer, W: Sink, E: Console>(
    alloc: Global,
    printer: &P,
    label: &str,
    shown: &mut Shown,
    item: Result<Vec<u8>, Fault>,
    writer: &mut W,
    errors: &mut E,
)
    ensures { (items : List Item) → (first : Outputs W E)
        → AreTold P.program.name (P.subject printer.now) (writes W.takes E.takes E.counts) label.now items
        (pending_of shown.old) shown.old.count shown.old.worst
        first (outputs writer.old errors.old)
        → AreTold P.program.name (P.subject printer.now) (writes W.takes E.takes E.counts) label.now
        (items ++ objects_of_item (result_map_both (λ bytes. bytes.items) (λ fault. fault) item))
        (pending_of shown.new) shown.new.count shown.new.worst
        first (outputs writer.new errors.new) }
{
    flush(alloc, printer, label, shown, writer, errors);
    shown.pending = Some(item);
}

/// A text of PEM as an item.
fn item_of(text: Result<Vec<u8>, Broken>) -> Result<Vec<u8>, Fault>
    ensures { result_map_both (λ bytes. bytes.items) (λ fault. fault) result ≡ item_of (result_map_both (λ bytes. bytes.items) (λ why. why) text) }
{
    match text {
        Ok(bytes) => Ok(bytes),
        Err(why) => Err(Fault::Unarmoured(why)),
    }
}

/// Reads a line, and takes the item that ends with it.
///
/// # Errors
///
/// `AllocError` when out of memory; then there is no item, and nothing is known of what was read.
fn do_line<P: Printer, W: Sink, E: Console>(
    alloc: Global,
    printer: &P,
    label: &str,
    scan: &mut Scan,
    shown: &mut Shown,
    line: &[u8],
    writer: &mut W,
    errors: &mut E,
) -> Result<(), AllocError>
    ensures mark { OnOk result (mark_of scan.new ≡ after (mark_of scan.old) line.now) }
    ensures told { OnOk result ((lines : List (List ℕ)) → (first : Outputs W E) → mark_of scan.old ≡ mark_from start lines
        → AreTold P.program.name (P.subject printer.now) (writes W.takes E.takes E.counts) label.now (items_from lines)
        (pending_of shown.old) shown.old.count shown.old.worst
        first (outputs writer.old errors.old)
        → AreTold P.program.name (P.subject printer.now) (writes W.takes E.takes E.counts) label.now (items_from (lines ++ line.now ∷ []))
        (pending_of shown.new) shown.new.count shown.new.worst
        first (outputs writer.new errors.new)) }
    ensures shown { OnErr result (shown.new ≡ shown.old) }
    ensures unwritten { OnErr result (outputs writer.new errors.new ≡ outputs writer.old errors.old) }
{
    match scan.step(alloc, line)? {
        Some(text) => put_item(alloc, printer, label, shown, item_of(text), writer, errors),
        None => {}
    }
    Ok(())
}

/// Whether an octet ends a line.
fn is_line_end(octet: &u8) -> bool
    ensures { result ≡ ends_line octet.now }
{
    ends_line(octet)
}

/// Where the first line of some octets ends, if one does.
fn line_end(octets: &[u8]) -> Option<usize>
    ensures { result ≡ position ends_line octets.now }
{
    octets.iter().position(is_line_end)
}

/// Reads the next octets of an input: the lines that end in them, and what is behind these.
///
/// # Errors
///
/// `AllocError` when out of memory; then some of the lines are read.
fn do_chunk<P: Printer, W: Sink, E: Console>(
    alloc: Global,
    printer: &P,
    label: &str,
    scan: &mut Scan,
    shown: &mut Shown,
    line: &mut Vec<u8>,
    chunk: &[u8],
    writer: &mut W,
    errors: &mut E,
) -> Result<(), AllocError>
    ensures read { OnOk result ((bytes : List ℕ) → (first : Outputs W E)
        → IsUnderway P.program.name (P.subject printer.now) (writes W.takes E.takes E.counts) label.now first bytes line.old.items (mark_of scan.old)
        (pending_of shown.old) shown.old.count shown.old.worst (outputs writer.old errors.old)
        → IsUnderway P.program.name (P.subject printer.now) (writes W.takes E.takes E.counts) label.now first (bytes ++ chunk.now) line.new.items (mark_of scan.new)
        (pending_of shown.new) shown.new.count shown.new.worst (outputs writer.new errors.new)) }
    ensures unread { OnErr result ((bytes : List ℕ) → (first : Outputs W E)
        → IsUnderway P.program.name (P.subject printer.now) (writes W.takes E.takes E.counts) label.now first bytes line.old.items (mark_of scan.old)
        (pending_of shown.old) shown.old.count shown.old.worst (outputs writer.old errors.old)
        → IsFrontTold P.program.name (P.subject printer.now) (writes W.takes E.takes E.counts) label.now first (bytes ++ chunk.now)
        (pending_of shown.new) shown.new.count shown.new.worst (outputs writer.new errors.new)) }
    ensures stays { OnOk result (is_pem scan.old.stage ≡ true → is_pem scan.new.stage ≡ true) }
{
    let mut rest = chunk;
    while let Some(at) = line_end(rest) {
        line.extend_from_slice(&rest[..at])?;
        do_line(
            alloc,
            printer,
            label,
            scan,
            shown,
            line.as_slice(),
            writer,
            errors,
        )?;
        line.clear();
        rest = &rest[at + 1..];
    }
    line.extend_from_slice(rest)
}

/// Keeps the octets of what isn't PEM so far.
fn keep(scan: &Scan, chunk: &[u8], kept: &mut Vec<u8>) -> Result<(), AllocError>
    ensures { OnOk result (is_pem scan.now.stage ≡ false → kept.new.items ≡ kept.old.items ++ chunk.now) }
{
    if !scan.is_pem() {
        kept.extend_from_slice(chunk)?;
    }
    Ok(())
}

/// Whether more is held of an input than may be.
fn is_over(scan: &Scan, kept: &[u8], line: &[u8]) -> bool
    ensures { IsTrue result → (is_pem scan.now.stage ≡ false × (input_limit < length kept.now))
        ⊎ ((input_limit < length (mark_of scan.now).digits) ⊎ (input_limit < length line.now)) }
{
    (!scan.is_pem() && kept.len() > INPUT_LIMIT)
        || (scan.held() > INPUT_LIMIT || line.len() > INPUT_LIMIT)
}

/// What is read of an input, and isn't told of.
#[derive(Drop)]
struct Held {
    /// All of it, where it isn't PEM.
    kept: Vec<u8>,

    /// The line that isn't ended.
    line: Vec<u8>,

    /// Where the lines before lead to.
    scan: Scan,

    /// The items in them.
    shown: Shown,
}

/// Nothing.
fn nothing(alloc: Global) -> Held
    ensures { IsNothing result }
{
    Held {
        kept: Vec::new(alloc),
        line: Vec::new(alloc),
        scan: Scan::new(alloc),
        shown: Shown {
            pending: None,
            count: 0,
            worst: 0,
        },
    }
}

/// Reads the next octets of an input.
///
/// # Errors
///
/// `AllocError` when out of memory; then some of the lines in them are read.
fn read_chunk<P: Printer, W: Sink, E: Console>(
    alloc: Global,
    printer: &P,
    label: &str,
    held: &mut Held,
    chunk: &[u8],
    writer: &mut W,
    errors: &mut E,
) -> Result<(), AllocError>
    ensures read { OnOk result ((bytes : List ℕ) → (first : Outputs W E)
        → IsHeld P.program.name (P.subject printer.now) (writes W.takes E.takes E.counts) label.now first bytes held.old (outputs writer.old errors.old)
        → IsHeld P.program.name (P.subject printer.now) (writes W.takes E.takes E.counts) label.now first (bytes ++ chunk.now) held.new (outputs writer.new errors.new)) }
    ensures unread { OnErr result ((bytes : List ℕ) → (first : Outputs W E)
        → IsHeld P.program.name (P.subject printer.now) (writes W.takes E.takes E.counts) label.now first bytes held.old (outputs writer.old errors.old)
        → IsFrontTold P.program.name (P.subject printer.now) (writes W.takes E.takes E.counts) label.now first (bytes ++ chunk.now)
        (pending_of held.new.shown) held.new.shown.count held.new.shown.worst (outputs writer.new errors.new)) }
{
    keep(&held.scan, chunk, &mut held.kept)?;
    do_chunk(
        alloc,
        printer,
        label,
        &mut held.scan,
        &mut held.shown,
        &mut held.line,
        chunk,
        writer,
        errors,
    )
}

/// Reads the next octets of an input.
///
/// # Errors
///
/// The fault for which reading stops: `TooLong` or `Memory`.
fn feed<P: Printer, W: Sink, E: Console>(
    alloc: Global,
    printer: &P,
    label: &str,
    held: &mut Held,
    chunk: &[u8],
    writer: &mut W,
    errors: &mut E,
) -> Result<(), Fault>
    ensures read { OnOk result ((bytes : List ℕ) → (first : Outputs W E)
        → IsHeld P.program.name (P.subject printer.now) (writes W.takes E.takes E.counts) label.now first bytes held.old (outputs writer.old errors.old)
        → IsHeld P.program.name (P.subject printer.now) (writes W.takes E.takes E.counts) label.now first (bytes ++ chunk.now) held.new (outputs writer.new errors.new)) }
    ensures stopped { MatchResult result (λ u. Unit {0}) (λ fault. (bytes : List ℕ) → (first : Outputs W E)
        → IsHeld P.program.name (P.subject printer.now) (writes W.takes E.takes E.counts) label.now first bytes held.old (outputs writer.old errors.old)
        → IsFedUp P.program.name (P.subject printer.now) (writes W.takes E.takes E.counts) label.now first (bytes ++ chunk.now) fault held.new (outputs writer.new errors.new)) }
{
    match read_chunk(alloc, printer, label, held, chunk, writer, errors) {
        Ok(()) => {
            if is_over(&held.scan, held.kept.as_slice(), held.line.as_slice()) {
                Err(Fault::TooLong)
            } else {
                Ok(())
            }
        }
        Err(AllocError) => Err(Fault::Memory),
    }
}

/// Tells of the item that is pending, and then why there are no more.
fn stop<P: Printer, W: Sink, E: Console>(
    alloc: Global,
    printer: &P,
    headed: Headed,
    label: &str,
    fault: Fault,
    shown: &mut Shown,
    writer: &mut W,
    errors: &mut E,
) -> u8
    ensures { (items : List Item) → (first : Outputs W E)
        → AreTold P.program.name (P.subject printer.now) (writes W.takes E.takes E.counts) label.now items (pending_of shown.old) shown.old.count shown.old.worst
        first (outputs writer.old errors.old)
        → AreCutShort P.program.name (P.subject printer.now) (writes W.takes E.takes E.counts) headed label.now items fault first (outputs writer.new errors.new) result }
{
    flush(alloc, printer, label, shown, writer, errors);
    refuse(alloc, printer, headed, label, &[], fault, writer, errors);
    2
}

/// Takes the text of PEM that no line ends.
fn put_last<P: Printer, W: Sink, E: Console>(
    alloc: Global,
    printer: &P,
    label: &str,
    stage: Stage,
    shown: &mut Shown,
    writer: &mut W,
    errors: &mut E,
)
    ensures { (items : List Item) → (first : Outputs W E)
        → AreTold P.program.name (P.subject printer.now) (writes W.takes E.takes E.counts) label.now items (pending_of shown.old) shown.old.count shown.old.worst
        first (outputs writer.old errors.old)
        → AreTold P.program.name (P.subject printer.now) (writes W.takes E.takes E.counts) label.now (items ++ last_items stage)
        (pending_of shown.new) shown.new.count shown.new.worst first (outputs writer.new errors.new) }
{
    match stage {
        Stage::Within => put_item(
            alloc,
            printer,
            label,
            shown,
            Err(Fault::Unarmoured(Broken::NoEnd)),
            writer,
            errors,
        ),
        Stage::Before | Stage::Binary | Stage::Between => {}
    }
}

/// The object that an item stands for, where so many were told of before, and it is the only one.
fn only_object(count: usize, item: &Result<Vec<u8>, Fault>) -> Option<Result<&[u8], Fault>>
    ensures { MatchOption result
        ((count ≢ 0) ⊎ (length (objects_of_item (result_map_both (λ bytes. bytes.items) (λ fault. fault) item.now)) ≢ 1))
        (λ object. (count ≡ 0) × (objects_of_item (result_map_both (λ bytes. bytes.items) (λ fault. fault) item.now)
        ≡ result_map_both (λ bytes. bytes.now) (λ fault. fault) object ∷ [])) }
{
    if count > 0 {
        return None;
    }
    match item {
        Ok(bytes) => match only_of(bytes.as_slice()) {
            Some(object) => Some(Ok(object)),
            None => None,
        },
        Err(fault) => Some(Err(*fault)),
    }
}

/// Tells of the item that is pending: of the only object as of the input.
fn do_pending<P: Printer, W: Sink, E: Console>(
    alloc: Global,
    printer: &P,
    headed: Headed,
    label: &str,
    item: &Result<Vec<u8>, Fault>,
    shown: &mut Shown,
    writer: &mut W,
    errors: &mut E,
) -> u8
    ensures { (items : List Item) → (first : Outputs W E)
        → AreTold P.program.name (P.subject printer.now) (writes W.takes E.takes E.counts) label.now items
        (Some (result_map_both (λ bytes. bytes.items) (λ fault. fault) item.now)) shown.old.count shown.old.worst first (outputs writer.old errors.old)
        → AreItemsDone P.program.name (P.subject printer.now) (writes W.takes E.takes E.counts) headed label.now items first (outputs writer.new errors.new) result }
{
    match only_object(shown.count, item) {
        Some(object) => do_item(alloc, printer, headed, label, object, writer, errors),
        None => {
            tell_item(alloc, printer, label, item, shown, writer, errors);
            shown.worst
        }
    }
}

/// Tells of the last item of an input.
fn do_last<P: Printer, W: Sink, E: Console>(
    alloc: Global,
    printer: &P,
    headed: Headed,
    label: &str,
    shown: &mut Shown,
    writer: &mut W,
    errors: &mut E,
) -> u8
    ensures { (items : List Item) → (first : Outputs W E)
        → AreTold P.program.name (P.subject printer.now) (writes W.takes E.takes E.counts) label.now items
        (pending_of shown.old) shown.old.count shown.old.worst first (outputs writer.old errors.old)
        → AreItemsDone P.program.name (P.subject printer.now) (writes W.takes E.takes E.counts) headed label.now items first (outputs writer.new errors.new) result }
{
    match shown.pending.take() {
        Some(item) => do_pending(alloc, printer, headed, label, &item, shown, writer, errors),
        None => shown.worst,
    }
}

/// Tells of what PEM has that is read whole.
fn finish_pem<P: Printer, W: Sink, E: Console>(
    alloc: Global,
    printer: &P,
    headed: Headed,
    label: &str,
    stage: Stage,
    shown: &mut Shown,
    writer: &mut W,
    errors: &mut E,
) -> u8
    ensures { (items : List Item) → (first : Outputs W E)
        → AreTold P.program.name (P.subject printer.now) (writes W.takes E.takes E.counts) label.now items
        (pending_of shown.old) shown.old.count shown.old.worst first (outputs writer.old errors.old)
        → AreItemsDone P.program.name (P.subject printer.now) (writes W.takes E.takes E.counts) headed label.now (items ++ last_items stage)
        first (outputs writer.new errors.new) result }
{
    put_last(alloc, printer, label, stage, shown, writer, errors);
    do_last(alloc, printer, headed, label, shown, writer, errors)
}

/// Tells of what an input has of which all lines are read.
fn finish_read<P: Printer, W: Sink, E: Console>(
    alloc: Global,
    printer: &P,
    headed: Headed,
    label: &str,
    kept: Vec<u8>,
    scan: &Scan,
    shown: &mut Shown,
    writer: &mut W,
    errors: &mut E,
) -> u8
    ensures { (bytes : List ℕ) → (first : Outputs W E) → mark_of scan.now ≡ mark_from start (lines_of bytes)
        → AreTold P.program.name (P.subject printer.now) (writes W.takes E.takes E.counts) label.now (items_from (lines_of bytes))
        (pending_of shown.old) shown.old.count shown.old.worst first (outputs writer.old errors.old)
        → (is_pem scan.now.stage ≡ false → kept.items ≡ bytes)
        → IsFinished P.program.name (P.subject printer.now) (writes W.takes E.takes E.counts) headed label.now bytes first (outputs writer.new errors.new) result }
{
    if scan.is_pem() {
        return finish_pem(
            alloc,
            printer,
            headed,
            label,
            scan.stage(),
            shown,
            writer,
            errors,
        );
    }
    match text_bytes(alloc, kept) {
        Ok(bytes) => {
            put_item(alloc, printer, label, shown, Ok(bytes), writer, errors);
            do_last(alloc, printer, headed, label, shown, writer, errors)
        }
        Err(AllocError) => stop(
            alloc,
            printer,
            headed,
            label,
            Fault::Memory,
            shown,
            writer,
            errors,
        ),
    }
}

/// Tells of what an input has that is read whole.
fn finish<P: Printer, W: Sink, E: Console>(
    alloc: Global,
    printer: &P,
    headed: Headed,
    label: &str,
    held: Held,
    writer: &mut W,
    errors: &mut E,
) -> u8
    ensures { (bytes : List ℕ) → (first : Outputs W E)
        → IsHeld P.program.name (P.subject printer.now) (writes W.takes E.takes E.counts) label.now first bytes held (outputs writer.old errors.old)
        → IsFinished P.program.name (P.subject printer.now) (writes W.takes E.takes E.counts) headed label.now bytes first (outputs writer.new errors.new) result }
{
    let Held {
        kept,
        line,
        mut scan,
        mut shown,
    } = held;
    match do_line(
        alloc,
        printer,
        label,
        &mut scan,
        &mut shown,
        line.as_slice(),
        writer,
        errors,
    ) {
        Ok(()) => finish_read(
            alloc, printer, headed, label, kept, &scan, &mut shown, writer, errors,
        ),
        Err(AllocError) => stop(
            alloc,
            printer,
            headed,
            label,
            Fault::Memory,
            &mut shown,
            writer,
            errors,
        ),
    }
}

/// Reads an input, writes what is printed of its objects one after the other or tells why nothing is, and answers the greatest of their statuses. No
/// more of it is held than of what isn't PEM all, and of PEM an object.
pub(crate) fn do_source<P: Printer, R: Source, W: Sink, E: Console>(
    alloc: Global,
    printer: &P,
    headed: Headed,
    label: &str,
    reader: &mut R,
    writer: &mut W,
    errors: &mut E,
) -> u8
    ensures { IsSourceDone P.program.name (P.subject printer.now) (writes W.takes E.takes E.counts) R.gives headed label.now reader.old reader.new
        (outputs writer.old errors.old) (outputs writer.new errors.new) result }
{
    let mut held = nothing(alloc);
    let mut room = [0u8; 8192];
    for _reads in 0..u64::MAX {
        match reader.take_some(&mut room) {
            Ok(0) => return finish(alloc, printer, headed, label, held, writer, errors),
            Ok(count) => {
                let fed = feed(
                    alloc,
                    printer,
                    label,
                    &mut held,
                    &room[..count],
                    writer,
                    errors,
                );
                if let Err(fault) = fed {
                    return stop(
                        alloc,
                        printer,
                        headed,
                        label,
                        fault,
                        &mut held.shown,
                        writer,
                        errors,
                    );
                }
            }
            Err(ReadError) => {
                return stop(
                    alloc,
                    printer,
                    headed,
                    label,
                    Fault::Unreadable,
                    &mut held.shown,
                    writer,
                    errors,
                );
            }
        }
    }
    stop(
        alloc,
        printer,
        headed,
        label,
        Fault::TooLong,
        &mut held.shown,
        writer,
        errors,
    )
}
