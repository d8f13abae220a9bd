//! What the program prints of an object.

ghost use Rattle.std.specs.Option.{option_map};
ghost use Rattle.std.specs.Prelude.{◌≡◌, IfOk, None, Some, map};
ghost use Rattle.x509_object_run.specs.Object.{IsPrinted, heading_text};
ghost use Rattle.x509_show.specs.Show.{IsDocument, asked_of, document_of, headed, kind_of, no_object, refusal_for, style_of};
ghost use Rattle.x509_text.specs.Pieces.{text_of};

use crate::pieces::write_pieces;
use std::alloc::{AllocError, Global};
use x509_object_run::{Asked, Fault, Headed, Heading, PrintError, Printer, write_headed};
use x509_refusal::{Refusal, farthest, refusal_as, wrong_words};
use x509_text::{Document, Kind, Style, document_of_bytes, document_of_kind};
use x509_tool_run::{Sink, WriteError};

const HELP: &[u8] = b"usage: x509_show [certificate|crl|csr|anchor] [--json] [FILE..]
       x509_show --sct-input ISSUER [FILE]

Prints certificates, CRLs, CSRs and trust anchors, in DER, PEM or hex: a line for
each thing in them. Of PEM, PKCS #7 or CMS each object is printed by itself. A FILE that
is a directory stands for the files in it. Without a FILE, and where FILE is -, it reads
standard input.

  certificate, crl, csr, anchor  what each input is; without such a word it is tried
                                 as each of them, in this order
  --json                         prints a JSON array for each object
  --sct-input                    prints of each SCT within a certificate the ID of its log,
                                 what its signature is over (RFC 6962 3.2), and the
                                 signature, in hex; ISSUER is the certificate of its issuer
  --                             ends the options
  --help                         prints this text
  --version                      prints the version

Status: 0 where each input is printed, 2 where one is refused or the words are wrong.
";

/// What is printed, which the words tell: objects of one kind, or of any, as a text for people or with `--json` as JSON.
#[derive(Clone, Copy)]
pub(crate) struct Show {
    kind: Option<Kind>,
    style: Style,
}

/// The kind of object that a word names.
fn kind_of(word: &str) -> Option<Kind>
    ensures { result ≡ kind_of word.now }
{
    match word {
        "certificate" => Some(Kind::Certificate),
        "crl" => Some(Kind::Crl),
        "csr" => Some(Kind::Csr),
        "anchor" => Some(Kind::Anchor),
        _ => None,
    }
}

/// The style that options ask for.
fn style_of(options: &[&str]) -> Option<Style>
    ensures { result ≡ style_of (map (λ option. option.now) options.now) }
{
    match options {
        [] => Some(Style::Text),
        [option] if *option == "--json" => Some(Style::Json),
        _ => None,
    }
}

/// What names ask for, the first of which may be a kind's, and the names of inputs among them.
fn asked_of<'a, 'b>(style: Style, names: &'a [&'b str]) -> (Show, &'a [&'b str])
    ensures { (result.0, map (λ name. name.now) result.1.now) ≡ asked_of style (map (λ name. name.now) names.now) }
{
    if let [name, others @ ..] = names {
        if let Some(kind) = kind_of(name) {
            return (
                Show {
                    kind: Some(kind),
                    style,
                },
                others,
            );
        }
    }
    (Show { kind: None, style }, names)
}

/// How it is told that bytes are the encoding of no object of this kind, or of none at all.
fn no_object(kind: Option<Kind>) -> &'static str
    ensures { result.now ≡ no_object kind }
{
    match kind {
        None => "not a certificate, CRL, CSR or trust anchor in DER, PEM or hex",
        Some(Kind::Certificate) => "not a certificate in DER, PEM or hex",
        Some(Kind::Crl) => "not a CRL in DER, PEM or hex",
        Some(Kind::Csr) => "not a CSR in DER, PEM or hex",
        Some(Kind::Anchor) => "not a trust anchor in DER, PEM or hex",
    }
}

/// Where bytes stop being an object of the kind that is asked for, or of the one that they are most like; `None` of a trust anchor.
fn refusal_for(kind: Option<Kind>, bytes: &[u8]) -> Option<Refusal>
    ensures { result ≡ refusal_for kind bytes.now }
{
    match kind {
        None => farthest(bytes),
        Some(Kind::Certificate) => refusal_as(x509_refusal::Kind::Certificate, bytes),
        Some(Kind::Crl) => refusal_as(x509_refusal::Kind::Crl, bytes),
        Some(Kind::Csr) => refusal_as(x509_refusal::Kind::Csr, bytes),
        Some(Kind::Anchor) => None,
    }
}

/// What stands above the document of an input.
fn headed(style: Style, is_several: bool) -> Headed
    ensures { result ≡ headed style is_several }
{
    match style {
        Style::Text if is_several => Headed::Line,
        _ => Headed::Not,
    }
}

/// The document of the object of this kind, or of the first kind that the bytes are of.
fn document_of(
    alloc: Global,
    kind: Option<Kind>,
    style: Style,
    bytes: &[u8],
) -> Result<Option<Document<'_>>, AllocError>
    ensures { IfOk result (λ found. option_map text_of found ≡ document_of kind style bytes.now) }
{
    match kind {
        Some(kind) => document_of_kind(alloc, style, kind, bytes),
        None => document_of_bytes(alloc, style, bytes),
    }
}

/// Writes a document under a heading.
fn write_whole<'a, W: Sink>(
    heading: Heading<'a>,
    document: &'a str,
    writer: &mut W,
) -> Result<u8, PrintError>
    ensures { IsPrinted (IsDocument (heading_text heading.entry) (Some document.now)) (Some document.now ≡ None) W.takes writer.old writer.new result }
{
    match write_headed(writer, heading, document.as_bytes()) {
        Ok(()) => Ok(0),
        Err(WriteError) => Err(PrintError::Unwritten),
    }
}

/// The document of an object under a heading. Nothing is written before the object is known to be one. The document of a CRL is
/// written piece by piece.
impl Printer for Show {
    ghost use Rattle.x509_show.specs.Show.{program, subject};

    ghost program = { program };

    ghost subject = { subject };

    fn name() -> &'static [u8] {
        b"x509_show"
    }

    fn no_object(&self) -> &'static str {
        no_object(self.kind)
    }

    fn wrong(&self, alloc: Global, bytes: &[u8]) -> Result<String, AllocError> {
        wrong_words(alloc, refusal_for(self.kind, bytes))
    }

    fn headed(&self, is_several: bool) -> Headed {
        headed(self.style, is_several)
    }

    fn refused(
        &self,
        alloc: Global,
        _heading: Heading<'_>,
        _bytes: &[u8],
        _fault: Fault,
    ) -> Result<Vec<u8>, AllocError> {
        Ok(Vec::new(alloc))
    }

    fn print<W: Sink>(
        &self,
        alloc: Global,
        heading: Heading<'_>,
        bytes: &[u8],
        writer: &mut W,
    ) -> Result<u8, PrintError> {
        match document_of(alloc, self.kind, self.style, bytes) {
            Ok(Some(Document::Whole(text))) => write_whole(heading, text.as_str(), writer),
            Ok(Some(Document::Crl(pieces))) => write_pieces(alloc, heading, pieces, writer),
            Ok(None) => Err(PrintError::NoObject),
            Err(AllocError) => Err(PrintError::Memory),
        }
    }
}

impl Asked for Show {
    ghost use Rattle.x509_show.specs.Show.{asked, misuse};

    ghost asked = { asked };

    ghost misuse = { misuse };

    fn from_words<'a, 'b>(options: &[&str], names: &'a [&'b str]) -> Option<(Show, &'a [&'b str])> {
        match style_of(options) {
            Some(style) => Some(asked_of(style, names)),
            None => None,
        }
    }

    fn misuse<'b>(
        _options: &[&'b str],
        _names: &[&'b str],
    ) -> (&'static [u8], &'b str, &'static [u8]) {
        (b"", "", b"")
    }

    fn usage() -> &'static [u8] {
        b"usage: x509_show [certificate|crl|csr|anchor] [--json] [FILE..]\n       x509_show --sct-input ISSUER [FILE]\n"
    }

    fn help() -> &'static [u8] {
        HELP
    }
}
