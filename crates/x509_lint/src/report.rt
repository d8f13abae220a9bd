//! What is said of an object: a line for each finding.

ghost use Rattle.std.specs.List.{list_any};
ghost use Rattle.std.specs.Prelude.{◌≡◌, ◌++◌, IfErr, IfOk, IsOk, OnOk, codes, string_bytes};
ghost use Rattle.x509_cert.specs.CertificateList.{certificate_list};
ghost use Rattle.x509_crl_index.specs.Split.{read_entries};
ghost use Rattle.x509_der.specs.declared.error.ErrorKind.TheVariants.{Memory};
ghost use Rattle.x509_lint.specs.Report as grammar;
ghost use Rattle.x509_lint.specs.Rules.{AreCrlFindings, rule_wording};
ghost use Rattle.x509_lint.specs.Seen.{crl_seen};
ghost use Rattle.x509_lint.specs.Wording.{Says, Wording, which_text};

use crate::anchor::lint_anchor;
use crate::certificate::lint_certificate;
use crate::crl::lint_split;
use crate::entry::{Entry, Severity};
use crate::lists::{Test, any_of};
use crate::request::lint_request;
use crate::rule::Rule;
use crate::seen::{anchor_seen, certificate_seen, crl_seen, request_seen};
use std::alloc::{AllocError, Global};
use x509_base::Raw;
use x509_cert::anchor::TrustAnchorChoice;
use x509_cert::certificate::CertificateInner;
use x509_cert::crl::CertificateList;
use x509_cert::request::CertReq;
use x509_crl_index::split_crl;
use x509_der::{Decode, Error, ErrorKind, Length};

/// A kind of object.
#[derive(Clone, Copy, Debug, PartialEq, Eq)]
pub enum Kind {
    /// A certificate (RFC 5280 4.1).
    Certificate,

    /// A CRL (RFC 5280 5.1).
    Crl,

    /// A PKCS #10 request, a CSR (RFC 2986 4).
    Csr,

    /// A trust anchor (RFC 5914 3).
    Anchor,
}

/// How a finding is told.
#[derive(Clone, Copy, Debug)]
pub enum Style<'a> {
    /// For people, as `certificate: error serial_number_not_positive (RFC 5280 4.1.2.2)`.
    Text,

    /// As an object of JSON (RFC 8259) in a line, of the members `object`, `rule`, `severity`, `section`, `place` and `seen`. What stands in
    /// front of these is given: a brace, and perhaps further members, each with a comma behind it.
    Json(&'a str),
}

/// What is said of an object.
#[derive(Debug, Drop)]
pub struct Report {
    /// A line for each rule that is broken.
    pub text: String,

    /// Whether one of the rules is one that has to be kept.
    pub has_error: bool,
}

/// An object whose rules are asked.
pub(crate) trait Linted {
    ghost use Rattle.std.specs.Prelude.{◌≡◌, ℕ, List, IfErr, IfOk, string_bytes};
    ghost use Rattle.x509_der.specs.declared.error.ErrorKind.TheVariants.{Memory};
    ghost use Rattle.x509_lint.specs.declared.rule.Rule.{Rule};

    /// What it is called.
    ghost word: { List ℕ };

    /// Which rules it breaks.
    ghost are_findings: { Self → List Rule → Type 0 };

    /// What is seen where it breaks a rule.
    ghost seen: { Self → Rule → List ℕ };

    /// What it is called.
    fn word() -> &'static str
        ensures { result.now ≡ word };

    /// The rules that it breaks.
    fn findings(&self, alloc: Global) -> Result<Vec<Rule>, Error>
        ensures ok { IfOk result (λ findings. are_findings self.now findings.items) }
        ensures err { IfErr result (λ e. e.kind ≡ Memory) };

    /// What is seen where it breaks a rule.
    fn seen(&self, alloc: Global, rule: Rule) -> Result<String, AllocError>
        ensures { IfOk result (λ text. string_bytes text ≡ seen self.now rule) };
}

impl Linted for CertificateInner<Raw> {
    ghost use Rattle.std.specs.Prelude.{codes};
    ghost use Rattle.x509_lint.specs.Rules.{AreFindings};
    ghost use Rattle.x509_lint.specs.Seen.{certificate_seen};

    ghost word = { codes "certificate" };

    ghost are_findings = { AreFindings };

    ghost seen = { certificate_seen };

    fn word() -> &'static str {
        "certificate"
    }

    fn findings(&self, alloc: Global) -> Result<Vec<Rule>, Error> {
        lint_certificate(alloc, self)
    }

    fn seen(&self, alloc: Global, rule: Rule) -> Result<String, AllocError> {
        certificate_seen(alloc, self, rule)
    }
}

/// A CRL without its entries, and the elements of these, one after the other.
struct SplitCrl<'a> {
    front: CertificateList<Raw>,
    octets: &'a [u8],
    ghost are_entries: { IsOk (read_entries octets.now) },
}

impl Drop for SplitCrl<'_> {
    fn drop(self) {
        let SplitCrl {
            front: _,
            octets: _,
        } = self;
    }
}

impl Linted for SplitCrl<'_> {
    ghost use Rattle.std.specs.Prelude.{◌≡◌, IfErr, IfOk, codes, string_bytes};
    ghost use Rattle.x509_base.specs.declared.profile.Raw.{Raw};
    ghost use Rattle.x509_cert.specs.declared.crl.certificate_list.CertificateList as lists;
    ghost use Rattle.x509_crl_index.specs.Split.{IsSplit};
    ghost use Rattle.x509_der.specs.declared.error.ErrorKind.TheVariants.{Memory};
    ghost use Rattle.x509_lint.specs.Rules.{AreCrlFindings};
    ghost use Rattle.x509_lint.specs.Seen.{crl_seen};

    ghost word = { codes "crl" };

    ghost are_findings = { λ split findings. (list : lists.CertificateList Raw) → IsSplit list split.front split.octets.now → AreCrlFindings list findings };

    ghost seen = { λ split. crl_seen split.front };

    fn word() -> &'static str
        ensures { result.now ≡ codes "crl" }
    {
        "crl"
    }

    fn findings(&self, alloc: Global) -> Result<Vec<Rule>, Error>
        ensures ok { IfOk result (λ findings. (list : lists.CertificateList Raw) → IsSplit list self.now.front self.now.octets.now → AreCrlFindings list findings.items) }
        ensures err { IfErr result (λ e. e.kind ≡ Memory) }
    {
        lint_split(alloc, &self.front, self.octets)
    }

    fn seen(&self, alloc: Global, rule: Rule) -> Result<String, AllocError>
        ensures { IfOk result (λ text. string_bytes text ≡ crl_seen self.now.front rule) }
    {
        crl_seen(alloc, &self.front, rule)
    }
}

impl Linted for CertReq {
    ghost use Rattle.std.specs.Prelude.{codes};
    ghost use Rattle.x509_lint.specs.Rules.{AreRequestFindings};
    ghost use Rattle.x509_lint.specs.Seen.{request_seen};

    ghost word = { codes "csr" };

    ghost are_findings = { AreRequestFindings };

    ghost seen = { request_seen };

    fn word() -> &'static str {
        "csr"
    }

    fn findings(&self, alloc: Global) -> Result<Vec<Rule>, Error> {
        lint_request(alloc, self)
    }

    fn seen(&self, alloc: Global, rule: Rule) -> Result<String, AllocError> {
        request_seen(alloc, self, rule)
    }
}

impl Linted for TrustAnchorChoice<Raw> {
    ghost use Rattle.std.specs.Prelude.{codes};
    ghost use Rattle.x509_lint.specs.Rules.{AreAnchorFindings};
    ghost use Rattle.x509_lint.specs.Seen.{anchor_seen};

    ghost word = { codes "anchor" };

    ghost are_findings = { AreAnchorFindings };

    ghost seen = { anchor_seen };

    fn word() -> &'static str {
        "anchor"
    }

    fn findings(&self, alloc: Global) -> Result<Vec<Rule>, Error> {
        lint_anchor(alloc, self)
    }

    fn seen(&self, alloc: Global, rule: Rule) -> Result<String, AllocError> {
        anchor_seen(alloc, self, rule)
    }
}

/// That a rule has to be kept.
struct IsError;

impl Test<Rule> for IsError {
    ghost use Rattle.x509_lint.specs.Report.{is_error};

    ghost holds_of = { λ test. is_error };

    fn holds_of(&self, rule: &Rule) -> bool {
        match rule.severity() {
            Severity::Error => true,
            Severity::Warning | Severity::NotJudged => false,
        }
    }
}

/// Adds which extension it is that can't be read: its place behind a colon.
fn push_which(rule: Rule, line: &mut String) -> Result<(), AllocError>
    ensures { OnOk result (string_bytes line.new ≡ string_bytes line.old ++ which_text (rule_wording rule)) }
{
    if rule.name() != "extension_malformed" {
        return Ok(());
    }
    line.push_str(": ")?;
    line.push_str(rule.place())
}

/// The line of a finding for people.
fn text_line(alloc: Global, word: &str, rule: Rule) -> Result<String, AllocError>
    ensures { IfOk result (λ line. string_bytes line ≡ grammar.text_line word.now rule) }
{
    let mut line = format!(in alloc; "{word}: {rule}")?;
    push_which(rule, &mut line)?;
    line.push_str("\n")?;
    Ok(line)
}

/// The line of a finding on an object that is called so, as an object of JSON in the style [`Style::Json`], with more members behind those, each with
/// a comma in front: what is seen has to be as it stands between quotation marks.
pub fn json_line(
    alloc: Global,
    front: &str,
    word: &str,
    entry: Entry,
    seen: &str,
    more: &str,
) -> Result<String, AllocError>
    ensures { (wording : Wording) → Says entry wording
        → IfOk result (λ line. string_bytes line ≡ grammar.json_line_with more.now front.now word.now wording seen.now) }
{
    let Entry {
        severity,
        name,
        standard,
        section,
        place,
    } = entry;
    let what = format!(in alloc;
        "\"object\": \"{word}\", \"rule\": \"{name}\", \"severity\": \"{severity}\""
    )?;
    let place = format!(in alloc;
        "\"section\": \"{standard} {section}\", \"place\": \"{place}\", \"seen\": \"{seen}\""
    )?;
    format!(in alloc; "{front}{what}, {place}{more}}}\n")
}

/// The line of a finding.
fn line<T: Linted>(
    alloc: Global,
    style: Style<'_>,
    object: &T,
    rule: Rule,
) -> Result<String, AllocError>
    ensures { IfOk result (λ line. string_bytes line ≡ grammar.line_of (grammar.front_of style.entry) T.word (T.seen object.now) rule) }
{
    match style {
        Style::Text => text_line(alloc, T::word(), rule),
        Style::Json(front) => {
            let seen = object.seen(alloc, rule)?;
            json_line(alloc, front, T::word(), rule.entry(), seen.as_str(), "")
        }
    }
}

/// A line for each finding.
fn lines<T: Linted>(
    alloc: Global,
    style: Style<'_>,
    object: &T,
    findings: &[Rule],
) -> Result<String, AllocError>
    ensures { IfOk result (λ text. string_bytes text ≡ grammar.report_text (grammar.front_of style.entry) T.word (T.seen object.now) findings.now) }
{
    let mut text = String::new(alloc);
    for rule in findings {
        let line = line(alloc, style, object, *rule)?;
        text.push_str(line.as_str())?;
    }
    Ok(text)
}

/// What is said of an object.
fn report_of<T: Linted>(alloc: Global, style: Style<'_>, object: &T) -> Result<Report, Error>
    ensures ok { IfOk result (λ report. grammar.IsReportOf T.word (T.are_findings object.now) (T.seen object.now) (grammar.front_of style.entry) report) }
    ensures err { IfErr result (λ e. e.kind ≡ Memory) }
{
    let findings = object.findings(alloc)?;
    Ok(Report {
        text: lines(alloc, style, object, findings.as_slice())?,
        has_error: any_of(&IsError, findings.as_slice()),
    })
}

/// What is said of the object of this type whose encoding the bytes are.
fn lint_as<T: Decode + Linted + Drop>(
    alloc: Global,
    style: Style<'_>,
    bytes: &[u8],
) -> Result<Option<Report>, Error>
    ensures ok { IfOk result (grammar.IsSaid T.form T.word T.are_findings T.seen (grammar.front_of style.entry) bytes.now) }
    ensures err { IfErr result (λ e. e.kind ≡ Memory) }
{
    match T::from_der(alloc, bytes) {
        Ok(object) => Ok(Some(report_of(alloc, style, &object)?)),
        Err(e) => match e.kind() {
            ErrorKind::Memory => Err(ErrorKind::Memory.into()),
            _ => Ok(None),
        },
    }
}

/// What is said of the CRL whose encoding the bytes are. Of its entries one is decoded at a time.
fn lint_list(alloc: Global, style: Style<'_>, bytes: &[u8]) -> Result<Option<Report>, Error>
    ensures ok { IfOk result (grammar.IsSaid (certificate_list grammar.any_serial_number) (codes "crl") AreCrlFindings crl_seen (grammar.front_of style.entry) bytes.now) }
    ensures err { IfErr result (λ e. e.kind ≡ Memory) }
{
    if bytes.len() > Length::MAX.as_u32() as usize {
        return Ok(None);
    }
    match split_crl(alloc, bytes) {
        Ok((front, octets)) => {
            let crl = SplitCrl { front, octets };
            Ok(Some(report_of(alloc, style, &crl)?))
        }
        Err(e) => match e.kind() {
            ErrorKind::Memory => Err(ErrorKind::Memory.into()),
            _ => Ok(None),
        },
    }
}

/// What is said of the object of this kind whose encoding the bytes are; `None` exactly where they are that of none.
///
/// # Errors
///
/// `Memory` when out of memory, and nothing else.
#[tactic(auto, unfolding(crate::specs::Report::IsSaidAs))]
pub fn lint_kind(
    alloc: Global,
    style: Style<'_>,
    kind: Kind,
    bytes: &[u8],
) -> Result<Option<Report>, Error>
    ensures ok { IfOk result (grammar.IsSaidAs kind (grammar.front_of style.entry) bytes.now) }
    ensures err { IfErr result (λ e. e.kind ≡ Memory) }
{
    match kind {
        Kind::Certificate => lint_as::<CertificateInner<Raw>>(alloc, style, bytes),
        Kind::Crl => lint_list(alloc, style, bytes),
        Kind::Csr => lint_as::<CertReq>(alloc, style, bytes),
        Kind::Anchor => lint_as::<TrustAnchorChoice<Raw>>(alloc, style, bytes),
    }
}

/// What is said of the object whose encoding the bytes are: of a certificate, else of a CRL, else of a CSR, or else of a trust anchor; `None`
/// exactly where they are that of none.
///
/// # Errors
///
/// `Memory` when out of memory, and nothing else.
pub fn lint_bytes(alloc: Global, style: Style<'_>, bytes: &[u8]) -> Result<Option<Report>, Error>
    ensures ok { IfOk result (grammar.IsReport (grammar.front_of style.entry) bytes.now) }
    ensures err { IfErr result (λ e. e.kind ≡ Memory) }
{
    if let Some(report) = lint_kind(alloc, style, Kind::Certificate, bytes)? {
        return Ok(Some(report));
    }
    if let Some(report) = lint_kind(alloc, style, Kind::Crl, bytes)? {
        return Ok(Some(report));
    }
    if let Some(report) = lint_kind(alloc, style, Kind::Csr, bytes)? {
        return Ok(Some(report));
    }
    lint_kind(alloc, style, Kind::Anchor, bytes)
}
