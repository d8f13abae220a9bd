//! What is said of an object, by the rules that are asked.

ghost use Rattle.std.specs.Prelude.{◌≡◌, IfErr, IfOk};
ghost use Rattle.x509_der.specs.declared.error.ErrorKind.TheVariants as errors;
ghost use Rattle.x509_lint.specs.Report.{front_of};
ghost use Rattle.x509_linter.specs.Said as grammar;
ghost use Rattle.x509_linter.specs.declared.said.Moment.TheVariants as moments;

use std::alloc::{AllocError, Global};
use x509_base::{DateTime, Raw};
use x509_cert::certificate::CertificateInner;
use x509_der::{Decode, Error, ErrorKind};
use x509_lint::{Kind, Report, Style, lint_bytes, lint_kind};
use x509_lint_web::lint_web_bytes;

/// The moment at which rules of the Baseline Requirements have to be in force.
#[derive(Clone, Copy)]
pub(crate) enum Moment {
    /// This one.
    At(DateTime),

    /// That of the notBefore of each certificate (RFC 5280 4.1.2.5).
    NotBefore,
}

/// The rules that are asked.
#[derive(Clone, Copy)]
pub(crate) enum Rules {
    /// Those of RFC 5280 and of the other standards on objects.
    Rfc,

    /// Those of the Baseline Requirements that are in force at the moment.
    Web(Moment),

    /// The former, and then the latter.
    Both(Moment),
}

/// What is said of the object of this kind, or of the first kind, whose encoding the bytes are.
fn said_of(
    alloc: Global,
    kind: Option<Kind>,
    style: Style<'_>,
    bytes: &[u8],
) -> Result<Option<Report>, Error>
    ensures ok { IfOk result (grammar.is_said kind (front_of style.entry) bytes.now) }
    ensures err { IfErr result (λ e. e.kind ≡ errors.Memory) }
{
    match kind {
        Some(kind) => lint_kind(alloc, style, kind, bytes),
        None => lint_bytes(alloc, style, bytes),
    }
}

/// The notBefore of the certificate whose encoding the bytes are; `None` exactly where they are that of none.
fn not_before_of(alloc: Global, bytes: &[u8]) -> Result<Option<DateTime>, Error>
    ensures ok { IfOk result (grammar.IsNotBefore bytes.now) }
    ensures err { IfErr result (λ e. e.kind ≡ errors.Memory) }
{
    match CertificateInner::<Raw>::from_der(alloc, bytes) {
        Ok(certificate) => {
            let validity = certificate.tbs_certificate().validity();
            Ok(Some(validity.not_before.to_date_time()))
        }
        Err(e) => match e.kind() {
            ErrorKind::Memory => Err(ErrorKind::Memory.into()),
            _ => Ok(None),
        },
    }
}

/// What is said of the certificate whose encoding the bytes are, by the rules that are in force at its notBefore.
fn not_before_said_of(
    alloc: Global,
    style: Style<'_>,
    bytes: &[u8],
) -> Result<Option<Report>, Error>
    ensures ok { IfOk result (grammar.IsWebSaidAt moments.NotBefore (front_of style.entry) bytes.now) }
    ensures err { IfErr result (λ e. e.kind ≡ errors.Memory) }
{
    match not_before_of(alloc, bytes)? {
        Some(moment) => lint_web_bytes(alloc, style, moment, bytes),
        None => Ok(None),
    }
}

/// What is said of it by the rules that are in force at the moment.
fn web_said_of(
    alloc: Global,
    moment: Moment,
    style: Style<'_>,
    bytes: &[u8],
) -> Result<Option<Report>, Error>
    ensures ok { IfOk result (grammar.IsWebSaidAt moment (front_of style.entry) bytes.now) }
    ensures err { IfErr result (λ e. e.kind ≡ errors.Memory) }
{
    match moment {
        Moment::At(moment) => lint_web_bytes(alloc, style, moment, bytes),
        Moment::NotBefore => not_before_said_of(alloc, style, bytes),
    }
}

/// What is said first, and what is said behind it.
fn joined(alloc: Global, first: &Report, second: &Report) -> Result<Report, AllocError>
    ensures { IfOk result (grammar.AreJoined first.now second.now) }
{
    let mut text = String::new(alloc);
    text.push_str(first.text.as_str())?;
    text.push_str(second.text.as_str())?;
    Ok(Report {
        text,
        has_error: first.has_error || second.has_error,
    })
}

/// What is said first, and behind it what is said of the certificate whose encoding the bytes are, by the rules of the Baseline Requirements that are
/// in force at the moment.
fn behind_said_of(
    alloc: Global,
    first: &Report,
    moment: Moment,
    style: Style<'_>,
    bytes: &[u8],
) -> Result<Option<Report>, Error>
    ensures ok { IfOk result (grammar.IsSaidBehind first.now moment (front_of style.entry) bytes.now) }
    ensures err { IfErr result (λ e. e.kind ≡ errors.Memory) }
{
    match web_said_of(alloc, moment, style, bytes)? {
        Some(second) => {
            let report = joined(alloc, first, &second)?;
            Ok(Some(report))
        }
        None => Ok(None),
    }
}

/// What is said of the certificate whose encoding the bytes are by the rules of RFC 5280 and the others, and then by those of the Baseline
/// Requirements that are in force at the moment.
fn both_said_of(
    alloc: Global,
    moment: Moment,
    style: Style<'_>,
    bytes: &[u8],
) -> Result<Option<Report>, Error>
    ensures ok { IfOk result (grammar.IsBothSaid moment (front_of style.entry) bytes.now) }
    ensures err { IfErr result (λ e. e.kind ≡ errors.Memory) }
{
    match lint_kind(alloc, style, Kind::Certificate, bytes)? {
        Some(first) => behind_said_of(alloc, &first, moment, style, bytes),
        None => Ok(None),
    }
}

/// What is said of the object that is asked for, by the rules that are asked: by those of the Baseline Requirements of a certificate.
pub(crate) fn said_by(
    alloc: Global,
    rules: Rules,
    kind: Option<Kind>,
    style: Style<'_>,
    bytes: &[u8],
) -> Result<Option<Report>, Error>
    ensures ok { IfOk result (grammar.is_said_by rules kind (front_of style.entry) bytes.now) }
    ensures err { IfErr result (λ e. e.kind ≡ errors.Memory) }
{
    match rules {
        Rules::Rfc => said_of(alloc, kind, style, bytes),
        Rules::Web(moment) => web_said_of(alloc, moment, style, bytes),
        Rules::Both(moment) => both_said_of(alloc, moment, style, bytes),
    }
}
