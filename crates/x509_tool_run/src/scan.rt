//! Texts of PEM (RFC 7468) in lines that come one after the other.

ghost use Rattle.std.specs.List.{list_any};
ghost use Rattle.std.specs.Option.{option_map};
ghost use Rattle.std.specs.Prelude.{◌≡◌, IfOk, OnOk, length};
ghost use Rattle.std.specs.Result.{result_map_both};
ghost use Rattle.x509_tool_run.specs.Pem as pem;
ghost use Rattle.x509_tool_run.specs.Scan as grammar;
ghost use Rattle.x509_tool_run.specs.declared.scan.Stage.TheVariants as stages;

use crate::pem::{Unread, decode, has_binary, is_end, label_of, trimmed};
use std::alloc::{AllocError, Global};

/// Why a text of PEM has no object.
#[derive(Clone, Copy)]
pub enum Broken {
    /// No line ends it.
    NoEnd,

    /// The line that ends it has another label, or is no such line.
    OtherEnd,

    /// What stands in it is no base64.
    NoBase64,
}

/// Where lines of an input lead to.
#[derive(Clone, Copy)]
pub enum Stage {
    /// No line begins a text, and none has an octet that no text has.
    Before,

    /// A line has such an octet, and none begins a text.
    Binary,

    /// Outside of texts, behind one.
    Between,

    /// Within a text.
    Within,
}

/// Reads the lines of an input one after the other.
#[derive(Drop)]
pub struct Scan {
    stage: Stage,
    label: Vec<u8>,
    digits: Vec<u8>,
}

/// Whether a line ends a text, in whatever way: no base64 has hyphens.
fn is_border(line: &[u8]) -> bool
    ensures { result ≡ grammar.is_border line.now }
{
    line.starts_with(b"-----")
}

/// Why a text isn't ended that this line ends.
fn unended(line: &[u8]) -> Broken
    ensures { result ≡ grammar.unended (pem.label_of line.now) }
{
    match label_of(line) {
        Some(_) => Broken::NoEnd,
        None => Broken::OtherEnd,
    }
}

/// The text with this label and base64, up to the line that ends it.
fn text_at(
    alloc: Global,
    label: &[u8],
    digits: &[u8],
    line: &[u8],
) -> Result<Result<Vec<u8>, Broken>, AllocError>
    ensures { IfOk result (λ text. result_map_both (λ bytes. bytes.items) (λ why. why) text ≡ grammar.text_at label.now digits.now line.now) }
{
    if !is_end(label, line) {
        return Ok(Err(unended(line)));
    }
    match decode(alloc, digits) {
        Ok(bytes) => Ok(Ok(bytes)),
        Err(Unread::Malformed) => Ok(Err(Broken::NoBase64)),
        Err(Unread::Memory) => Err(AllocError),
    }
}

impl Scan {
    /// Before the first line.
    pub fn new(alloc: Global) -> Scan
        ensures { grammar.mark_of result ≡ grammar.start }
    {
        Scan {
            stage: Stage::Before,
            label: Vec::new(alloc),
            digits: Vec::new(alloc),
        }
    }

    /// Where the lines so far lead to.
    pub fn stage(&self) -> Stage
        ensures { result ≡ self.now.stage }
    {
        self.stage
    }

    /// Whether a text of PEM has begun.
    pub fn is_pem(&self) -> bool
        ensures { result ≡ grammar.is_pem self.now.stage }
    {
        match self.stage {
            Stage::Before | Stage::Binary => false,
            Stage::Between | Stage::Within => true,
        }
    }

    /// How many octets of base64 are held.
    pub fn held(&self) -> usize
        ensures { result ≡ length (grammar.mark_of self.now).digits }
    {
        self.digits.len()
    }

    /// Begins a text, where the line does.
    fn begin(&mut self, line: &[u8]) -> Result<(), AllocError>
        ensures { OnOk result (grammar.mark_of self.new ≡ grammar.begun_or (grammar.mark_of self.old) (pem.label_of line.now)) }
    {
        if let Some(label) = label_of(line) {
            self.label.clear();
            self.label.extend_from_slice(label)?;
            self.digits.clear();
            self.stage = Stage::Within;
        }
        Ok(())
    }

    /// A line before the first text.
    fn begin_first(&mut self, line: &[u8]) -> Result<(), AllocError>
        ensures { OnOk result (grammar.mark_of self.new ≡ grammar.after_line stages.Before (grammar.mark_of self.old) line.now) }
    {
        if has_binary(line) {
            self.stage = Stage::Binary;
            return Ok(());
        }
        self.begin(line)
    }

    /// Ends a text by a line that may begin another.
    fn close(&mut self, line: &[u8]) -> Result<(), AllocError>
        ensures { OnOk result (grammar.mark_of self.new ≡ grammar.begun_or grammar.closed (pem.label_of line.now)) }
    {
        self.stage = Stage::Between;
        self.label.clear();
        self.digits.clear();
        self.begin(line)
    }

    /// A line within a text.
    fn go_on(
        &mut self,
        alloc: Global,
        line: &[u8],
    ) -> Result<Option<Result<Vec<u8>, Broken>>, AllocError>
        ensures mark { OnOk result (grammar.mark_of self.new ≡ grammar.after_line stages.Within (grammar.mark_of self.old) line.now) }
        ensures text { IfOk result (λ text. option_map (λ text. result_map_both (λ bytes. bytes.items) (λ why. why) text) text
            ≡ grammar.ended_by stages.Within (grammar.mark_of self.old) line.now) }
    {
        if is_border(line) {
            let text = text_at(alloc, self.label.as_slice(), self.digits.as_slice(), line)?;
            self.close(line)?;
            return Ok(Some(text));
        }
        self.stage = Stage::Within;
        self.digits.extend_from_slice(line)?;
        Ok(None)
    }

    /// Reads the next line, which may have white space at its end, and answers the text that ends with it: the bytes of its object, or why it
    /// has none.
    ///
    /// # Errors
    ///
    /// `AllocError` when out of memory; then nothing is known of what was read.
    pub fn step(
        &mut self,
        alloc: Global,
        line: &[u8],
    ) -> Result<Option<Result<Vec<u8>, Broken>>, AllocError>
        ensures mark { OnOk result (grammar.mark_of self.new ≡ grammar.after (grammar.mark_of self.old) line.now) }
        ensures text { IfOk result (λ text. option_map (λ text. result_map_both (λ bytes. bytes.items) (λ why. why) text) text
            ≡ grammar.ended (grammar.mark_of self.old) line.now) }
    {
        let line = trimmed(line);
        match self.stage {
            Stage::Before => self.begin_first(line)?,
            Stage::Binary => {}
            Stage::Between => self.begin(line)?,
            Stage::Within => return self.go_on(alloc, line),
        }
        Ok(None)
    }
}
