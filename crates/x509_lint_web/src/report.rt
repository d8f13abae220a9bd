//! What is said of a certificate: a line for each finding.

ghost use Rattle.std.specs.List.{flat_map};
ghost use Rattle.std.specs.Prelude.{◌≡◌, IfErr, IfOk, string_bytes};
ghost use Rattle.x509_der.specs.declared.error.ErrorKind.TheVariants.{Memory};
ghost use Rattle.x509_lint.specs.Report.{front_of};
ghost use Rattle.x509_lint.specs.Wording.{Says, Wording};
ghost use Rattle.x509_lint_web.specs.Report as grammar;
ghost use Rattle.x509_text.specs.Lines.{shown};
ghost use Rattle.x509_text.specs.declared.line.Style.TheVariants as styles;

use crate::lint::found;
use crate::names::{NameFault, is_faulty};
use crate::rule::{WEB_RULES, WebRule};
use crate::seen::{SeenKind, fault_of, kind_of_name, kind_of_part, name_seen, part_seen};
use crate::values::{WebValues, web_values};
use std::alloc::{AllocError, Global};
use x509_base::{DateTime, Raw};
use x509_cert::certificate::CertificateInner;
use x509_der::{Decode, Error, ErrorKind};
use x509_ext::pkix::SubjectAltName;
use x509_ext::pkix::name::GeneralName;
use x509_lint::lists::{Test, any_of};
use x509_lint::{Entry, Report, Severity, Style, json_line};
use x509_text::write_json_text;

/// That a rule is one whose breach is an error.
struct IsError;

impl Test<WebRule> for IsError {
    ghost use Rattle.x509_lint_web.specs.Report.{is_error};

    ghost holds_of = { λ test. is_error };

    fn holds_of(&self, rule: &WebRule) -> bool {
        match rule.severity() {
            Severity::Error => true,
            Severity::Warning | Severity::NotJudged => false,
        }
    }
}

/// What is seen, as it stands between quotation marks in JSON.
fn quoted(alloc: Global, seen: &str) -> Result<String, AllocError>
    ensures { IfOk result (λ text. string_bytes text ≡ shown styles.Json seen.now) }
{
    let mut text = String::new(alloc);
    write_json_text(alloc, seen, &mut text)?;
    Ok(text)
}

/// What is seen, for people, behind a tab.
fn seen_text(alloc: Global, kind: SeenKind, seen: &str) -> Result<String, AllocError>
    ensures { IfOk result (λ text. string_bytes text ≡ grammar.seen_text kind seen.now) }
{
    if seen.as_bytes().is_empty() {
        return Ok(String::new(alloc));
    }
    let quoted = quoted(alloc, seen)?;
    format!(in alloc; "\t{kind} \"{quoted}\"")
}

/// The line of a finding for people.
fn text_line(alloc: Global, rule: WebRule, kind: SeenKind, seen: &str) -> Result<String, AllocError>
    ensures { IfOk result (λ line. string_bytes line ≡ grammar.text_line rule kind seen.now) }
{
    let seen = seen_text(alloc, kind, seen)?;
    format!(in alloc; "certificate: {rule}{seen}\n")
}

/// The kind of what is seen, as an object of JSON has it: nothing where that is empty.
fn told_kind(kind: SeenKind, seen: &str) -> SeenKind
    ensures { result ≡ grammar.told_kind kind seen.now }
{
    if seen.as_bytes().is_empty() {
        SeenKind::Nothing
    } else {
        kind
    }
}

/// The line of a finding as an object of JSON, behind what stands in front of its members.
fn kind_line(
    alloc: Global,
    front: &str,
    entry: Entry,
    kind: SeenKind,
    seen: &str,
) -> Result<String, AllocError>
    ensures { (wording : Wording) → Says entry wording
        → IfOk result (λ line. string_bytes line ≡ grammar.json_line front.now wording kind seen.now) }
{
    let quoted = quoted(alloc, seen)?;
    let kind = told_kind(kind, seen);
    let kind = format!(in alloc; ", \"seen_as\": \"{kind}\"")?;
    json_line(
        alloc,
        front,
        "certificate",
        entry,
        quoted.as_str(),
        kind.as_str(),
    )
}

/// The line of a finding where that is seen.
fn seen_line(
    alloc: Global,
    style: Style<'_>,
    rule: WebRule,
    kind: SeenKind,
    seen: &str,
) -> Result<String, AllocError>
    ensures { IfOk result (λ line. string_bytes line ≡ grammar.seen_line (front_of style.entry) rule kind seen.now) }
{
    match style {
        Style::Text => text_line(alloc, rule, kind, seen),
        Style::Json(front) => kind_line(alloc, front, rule.entry().entry, kind, seen),
    }
}

/// The line on a name that has the fault; nothing of another.
fn name_line(
    alloc: Global,
    style: Style<'_>,
    rule: WebRule,
    fault: NameFault,
    name: &GeneralName,
) -> Result<String, AllocError>
    ensures { IfOk result (λ line. string_bytes line ≡ grammar.name_line (front_of style.entry) rule fault name.now) }
{
    if !is_faulty(fault, name) {
        return Ok(String::new(alloc));
    }
    let seen = name_seen(alloc, name)?;
    seen_line(alloc, style, rule, kind_of_name(name), seen.as_str())
}

/// A line for each name that has the fault.
fn lines_of_names(
    alloc: Global,
    style: Style<'_>,
    rule: WebRule,
    fault: NameFault,
    names: &[GeneralName],
) -> Result<String, AllocError>
    ensures { IfOk result (λ text. string_bytes text ≡ flat_map (grammar.name_line (front_of style.entry) rule fault) names.now) }
{
    let mut text = String::new(alloc);
    for name in names {
        let line = name_line(alloc, style, rule, fault, name)?;
        text.push_str(line.as_str())?;
    }
    Ok(text)
}

/// A line for each name of the SAN that has the fault.
fn names_lines(
    alloc: Global,
    style: Style<'_>,
    rule: WebRule,
    fault: NameFault,
    names: &Option<SubjectAltName>,
) -> Result<String, AllocError>
    ensures { IfOk result (λ text. string_bytes text ≡ grammar.names_lines (front_of style.entry) rule fault names.now) }
{
    match names {
        Some(names) => lines_of_names(alloc, style, rule, fault, names.0.as_slice()),
        None => Ok(String::new(alloc)),
    }
}

/// The line on a rule that speaks of another part than names of the SAN.
fn part_line(
    alloc: Global,
    style: Style<'_>,
    certificate: &CertificateInner<Raw>,
    rule: WebRule,
) -> Result<String, AllocError>
    ensures { IfOk result (λ line. string_bytes line ≡ grammar.part_line (front_of style.entry) certificate.now rule) }
{
    let seen = part_seen(alloc, certificate, rule.part())?;
    seen_line(alloc, style, rule, kind_of_part(rule.part()), seen.as_str())
}

/// The lines on a rule that is broken.
fn rule_lines(
    alloc: Global,
    style: Style<'_>,
    certificate: &CertificateInner<Raw>,
    values: &WebValues,
    rule: WebRule,
) -> Result<String, AllocError>
    ensures { IfOk result (λ text. string_bytes text ≡ grammar.rule_lines (front_of style.entry) certificate.now values.now rule) }
{
    match fault_of(rule.part()) {
        Some(fault) => names_lines(alloc, style, rule, fault, &values.subject_alt_name),
        None => part_line(alloc, style, certificate, rule),
    }
}

/// The lines on each of these rules.
fn lines(
    alloc: Global,
    style: Style<'_>,
    certificate: &CertificateInner<Raw>,
    values: &WebValues,
    findings: &[WebRule],
) -> Result<String, AllocError>
    ensures { IfOk result (λ text. string_bytes text ≡ flat_map (grammar.rule_lines (front_of style.entry) certificate.now values.now) findings.now) }
{
    let mut text = String::new(alloc);
    for rule in findings {
        let lines = rule_lines(alloc, style, certificate, values, *rule)?;
        text.push_str(lines.as_str())?;
    }
    Ok(text)
}

/// What is said of the findings on a certificate of these values.
fn report_of(
    alloc: Global,
    style: Style<'_>,
    certificate: &CertificateInner<Raw>,
    values: &WebValues,
    findings: &[WebRule],
) -> Result<Report, AllocError>
    ensures { IfOk result (grammar.IsReportOf (front_of style.entry) certificate.now values.now findings.now) }
{
    Ok(Report {
        text: lines(alloc, style, certificate, values, findings)?,
        has_error: any_of(&IsError, findings),
    })
}

/// What is said of the certificate whose encoding the bytes are: a line for each rule that is in force at the moment and that it breaks, and of a rule on
/// names of the SAN one for each name that breaks it; `None` exactly where the bytes are the encoding of none. What is seen there stands in the line: in
/// JSON `seen` is the text or the octets of what the rule speaks of, of octets in hex the first 32, and `seen_as` says which of both and of what; in a
/// text these stand behind a tab, as `dNSName "a_b.example.com"`.
///
/// # Errors
///
/// `Memory` when out of memory, and nothing else.
pub fn lint_web_bytes(
    alloc: Global,
    style: Style<'_>,
    moment: DateTime,
    bytes: &[u8],
) -> Result<Option<Report>, Error>
    ensures ok { IfOk result (grammar.IsWebSaid (front_of style.entry) moment bytes.now) }
    ensures err { IfErr result (λ e. e.kind ≡ Memory) }
{
    let certificate = match CertificateInner::<Raw>::from_der(alloc, bytes) {
        Ok(certificate) => certificate,
        Err(e) => {
            return match e.kind() {
                ErrorKind::Memory => Err(ErrorKind::Memory.into()),
                _ => Ok(None),
            };
        }
    };
    let values = web_values(alloc, &certificate)?;
    let findings = found(alloc, moment, &certificate, &values, &WEB_RULES)?;
    let report = report_of(alloc, style, &certificate, &values, findings.as_slice())?;
    Ok(Some(report))
}
