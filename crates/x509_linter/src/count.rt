//! A run of which a summary is printed.

ghost use Rattle.std.specs.Prelude.{◌≡◌, map, max};
ghost use Rattle.x509_linter.specs.Chosen.{subject};
ghost use Rattle.x509_linter.specs.Count.{IsCounted, IsSummedUp};
ghost use Rattle.x509_object_run.specs.Program.{outputs, streams, world_of, writes};
ghost use Rattle.x509_object_run.specs.Words.{inputs_of};

use crate::chosen::Chosen;
use crate::linter::Linter;
use crate::summary::summary_of;
use std::alloc::{AllocError, Global};
use x509_object_run::{Console, Opener, refuse_memory, say, show_all};
use x509_tool_run::{Sink, Source, WriteError};

/// What is printed, kept.
#[derive(Drop)]
pub(crate) struct Kept {
    /// All of it.
    text: Vec<u8>,
}

/// Where there is no memory for octets, they can't be written.
impl Sink for Kept {
    ghost use Rattle.x509_linter.specs.Count.{Keeps};

    ghost takes = { Keeps };

    fn put_some(&mut self, bytes: &[u8]) -> Result<usize, WriteError> {
        match self.text.extend_from_slice(bytes) {
            Ok(()) => Ok(bytes.len()),
            Err(AllocError) => Err(WriteError),
        }
    }
}

fn greater_of(first: u8, second: u8) -> u8
    ensures { result ≡ max first second }
{
    if first < second { second } else { first }
}

/// Prints a summary of a text, and answers the greater of a status and its own.
fn sum_up<W: Sink, E: Console>(
    alloc: Global,
    text: &[u8],
    first: u8,
    writer: &mut W,
    errors: &mut E,
) -> u8
    ensures { IsSummedUp (writes W.takes E.takes E.counts) text.now first (outputs writer.old errors.old) (outputs writer.new errors.new) result }
{
    match summary_of(alloc, text) {
        Ok(summary) => {
            let said = say::<Linter, W, E>(&[summary.as_slice()], writer, errors);
            greater_of(first, said)
        }
        Err(AllocError) => refuse_memory::<Linter, E>(errors),
    }
}

/// Prints a summary of what a printer prints of inputs, and answers the greatest status.
pub(crate) fn count<R: Source, F: Source + Drop, O: Opener<F>, W: Sink, E: Console>(
    alloc: Global,
    printer: &Chosen<'_>,
    names: &[&str],
    opener: &O,
    reader: &mut R,
    writer: &mut W,
    errors: &mut E,
) -> u8
    ensures { IsCounted (world_of R.gives (O.opens opener.now) (O.lists opener.now) (O.stands opener.now) F.gives W.takes E.takes E.counts) (subject printer.now) (inputs_of (map (λ name. name.now) names.now))
        (streams reader.old writer.old errors.old) (streams reader.new writer.new errors.new) result }
{
    let mut kept = Kept {
        text: Vec::new(alloc),
    };
    let first = show_all(alloc, printer, names, opener, reader, &mut kept, errors);
    sum_up(alloc, kept.text.as_slice(), first, writer, errors)
}
