//! What the program prints of an object, where options choose among its findings.

ghost use Rattle.std.specs.Prelude.{◌≡◌, IfErr, IfOk, MatchOption, None, map};
ghost use Rattle.x509_der.specs.declared.error.ErrorKind.TheVariants as errors;
ghost use Rattle.x509_linter.specs.Chosen.{AreFindings, IsChosen, front_length};
ghost use Rattle.x509_linter.specs.Linter.{front_for};
ghost use Rattle.x509_linter.specs.Said.{is_said_by};
ghost use Rattle.x509_object_run.specs.Object.{heading_text};

use crate::choice::{asks, has_count};
use crate::lines::{has_counted, kept_text};
use crate::linter::{
    Linter, Telling, front_of, headed, no_object, refused, report_of, status_of, tell,
};
use crate::wrong::wrong_in;
use std::alloc::{AllocError, Global};
use x509_der::Error;
use x509_object_run::{Fault, Headed, Heading, PrintError, Printer};
use x509_tool_run::Sink;

/// What is printed of objects, and the options that choose among their findings.
#[derive(Clone, Copy)]
pub(crate) struct Chosen<'a> {
    /// What is printed where nothing chooses.
    pub(crate) linter: Linter,

    /// The options.
    pub(crate) options: &'a [&'a str],
}

/// The findings on an object that are reported.
#[derive(Drop)]
struct Findings {
    /// A line for each.
    text: Vec<u8>,

    /// Whether one of them counts.
    counts: bool,
}

/// How many octets stand in front of the members of a finding; `None` where it isn't told in JSON.
fn front_length(
    alloc: Global,
    telling: Telling,
    heading: Heading<'_>,
) -> Result<Option<usize>, AllocError>
    ensures { IfOk result (λ count. count ≡ front_length telling (heading_text heading.entry)) }
{
    match telling {
        Telling::Json | Telling::VerboseJson => {
            let front = front_of(alloc, heading)?;
            Ok(Some(front.as_str().len()))
        }
        Telling::Lines | Telling::Verbose => Ok(None),
    }
}

/// Those of the findings of a text that the options choose.
fn chosen_of(
    alloc: Global,
    telling: Telling,
    options: &[&str],
    heading: Heading<'_>,
    text: &[u8],
) -> Result<Findings, AllocError>
    ensures { IfOk result (IsChosen telling (map (λ option. option.now) options.now) (heading_text heading.entry) text.now) }
{
    let front = front_length(alloc, telling, heading)?;
    let kept = kept_text(alloc, options, front, text)?;
    Ok(Findings {
        text: kept,
        counts: has_counted(options, front, text),
    })
}

/// The findings on an object that are reported; `None` where the bytes are no object of the kind that is asked for.
fn findings_of(
    alloc: Global,
    linter: Linter,
    options: &[&str],
    heading: Heading<'_>,
    bytes: &[u8],
) -> Result<Option<Findings>, Error>
    ensures ok { IfOk result (λ found. MatchOption found
        (is_said_by linter.rules linter.kind (front_for linter.telling (heading_text heading.entry)) bytes.now None)
        (AreFindings linter (map (λ option. option.now) options.now) (heading_text heading.entry) bytes.now)) }
    ensures err { IfErr result (λ e. e.kind ≡ errors.Memory) }
{
    let telling = linter.telling;
    match report_of(alloc, linter, heading, bytes)? {
        Some(report) => {
            let text = report.text.as_str().as_bytes();
            let findings = chosen_of(alloc, telling, options, heading, text)?;
            Ok(Some(findings))
        }
        None => Ok(None),
    }
}

/// The findings that are reported, under a heading, as a [`Linter`] prints all.
impl Printer for Chosen<'_> {
    ghost use Rattle.x509_linter.specs.Chosen.{subject};
    ghost use Rattle.x509_linter.specs.Linter.{program};

    ghost program = { program };

    ghost subject = { subject };

    fn name() -> &'static [u8]
        ensures { result.now ≡ program.name }
    {
        b"x509_linter"
    }

    fn no_object(&self) -> &'static str {
        no_object(self.linter.kind)
    }

    fn wrong(&self, alloc: Global, bytes: &[u8]) -> Result<String, AllocError> {
        wrong_in(alloc, self.linter.kind, bytes)
    }

    fn headed(&self, is_several: bool) -> Headed {
        if has_count(self.options) {
            Headed::Not
        } else {
            headed(self.linter.telling, is_several)
        }
    }

    fn refused(
        &self,
        alloc: Global,
        heading: Heading<'_>,
        bytes: &[u8],
        fault: Fault,
    ) -> Result<Vec<u8>, AllocError> {
        let Linter { kind, telling, .. } = self.linter;
        refused(alloc, telling, kind, heading, bytes, fault)
    }

    fn print<W: Sink>(
        &self,
        alloc: Global,
        heading: Heading<'_>,
        bytes: &[u8],
        writer: &mut W,
    ) -> Result<u8, PrintError> {
        match findings_of(alloc, self.linter, self.options, heading, bytes) {
            Ok(Some(findings)) => {
                let Linter {
                    kind,
                    telling,
                    rules,
                } = self.linter;
                let is_asked = asks(self.options, rules, kind);
                let text = findings.text.as_slice();
                match tell(alloc, telling, is_asked, heading, text, writer) {
                    Ok(()) => Ok(status_of(findings.counts)),
                    Err(e) => Err(e),
                }
            }
            Ok(None) => Err(PrintError::NoObject),
            Err(_) => Err(PrintError::Memory),
        }
    }
}
