//! What the program prints of an object.

ghost use Rattle.std.specs.List.{list_all};
ghost use Rattle.std.specs.Option.{option_map};
ghost use Rattle.std.specs.Prelude.{◌≡◌, ◌++◌, ◌∷◌, [], IfErr, IfOk, List, Some, map, string_bytes};
ghost use Rattle.x509_linter.specs.Linter as grammar;
ghost use Rattle.x509_linter.specs.Said.{is_said_by};
ghost use Rattle.x509_linter.specs.Wrong.{wrong};
ghost use Rattle.x509_der.specs.declared.error.ErrorKind.TheVariants as errors;
ghost use Rattle.x509_object_run.specs.Faults.{told_text};
ghost use Rattle.x509_object_run.specs.Object.{heading_text};
ghost use Rattle.x509_tool_run.specs.Answer.{as_line};

use crate::choice::{are_mixed, is_among, is_choice, is_right, names_rules};
use crate::said::{Moment, Rules, said_by};
use crate::values::takes_value;
use crate::wrong::{fault_members, wrong_in};
use std::alloc::{AllocError, Global};
use std::str::FromStr;
use x509_base::DateTime;
use x509_der::Error;
use x509_lint::{Kind, Report, Style};
use x509_object_run::{
    Asked, Fault, Headed, Heading, PrintError, Printer, fault_words, is_whole, whole_words,
    word_label, write_headed,
};
use x509_text::write_json_text;
use x509_tool_run::{Sink, WriteError, write_text};

const HELP: &[u8] =
    b"usage: x509_linter [certificate|crl|csr|anchor] [-v] [--json] [CHOICE..] [FILE..]
       x509_linter --web [--rfc] [-v] [--json] [CHOICE..] MOMENT [FILE..]

Tells which rules certificates, CRLs (RFC 5280), CSRs (RFC 2986, 2985) and trust anchors
(RFC 5914) break, in DER, PEM or hex: a line for each, with its section. Of PEM, PKCS #7 or CMS
each object is told of by itself. A FILE that is a directory stands for the files in it. Without
a FILE, and where FILE is -, it reads standard input.

  certificate, crl, csr, anchor  what each input is; without such a word it is tried as each
                                 of them, in this order
  --web                          tells which rules of the Baseline Requirements of the
                                 CA/Browser Forum certificates break, of those in force at
                                 MOMENT, as 2026-03-15T00:00:00Z, or 2026-03-15 for that, or
                                 not-before for the notBefore of each certificate
  --rfc                          with --web, tells of each certificate first which rules of RFC
                                 5280 and the others it breaks
  -v                             says so where nothing is found, or where no rule applies
  --json                         prints an object of JSON for each finding; with -v also where
                                 nothing is found or an input is refused
  --only RULE, --without RULE    reports findings of these rules alone, or none of these; each
                                 may stand several times, and RULE is a name as it is printed
  --level error|warning|notice   from which severity on a finding makes status 1: an error, a
                                 warning too, or also what isn't judged
  --count                        prints each line once for all inputs, behind how often it
                                 stands there
  --                             ends the options
  --help                         prints this text
  --version                      prints the version

CHOICE is one of the options --only, --without, --level and --count. Status: 0 where no rule is
broken that has to be kept, warnings aside; 1 where one is; 2 where an input is refused or the
words are wrong. With a CHOICE, 0 and 1 are of the findings that are reported.
";

/// How findings are told.
#[derive(Clone, Copy)]
pub(crate) enum Telling {
    /// A line for each.
    Lines,

    /// A line for each, and one that says so where there is none.
    Verbose,

    /// An object of JSON for each.
    Json,

    /// An object of JSON for each, and one that says so where there is none.
    VerboseJson,
}

/// What the words ask for: how findings are told, of objects of one kind or of any, and by which rules.
#[derive(Clone, Copy)]
pub(crate) struct Linter {
    pub(crate) kind: Option<Kind>,
    pub(crate) telling: Telling,
    pub(crate) rules: Rules,
}

/// The kind of object that a word names.
fn kind_of(word: &str) -> Option<Kind>
    ensures { result ≡ grammar.kind_of word.now }
{
    match word {
        "certificate" => Some(Kind::Certificate),
        "crl" => Some(Kind::Crl),
        "csr" => Some(Kind::Csr),
        "anchor" => Some(Kind::Anchor),
        _ => None,
    }
}

/// Whether an option is one that asks for something.
fn asks_something(option: &str) -> bool
    ensures { result ≡ grammar.asks_something option.now }
{
    option == "--web" || (option == "--rfc" || (option == "-v" || option == "--json"))
}

/// Whether each of the options is.
fn all_ask(options: &[&str]) -> bool
    ensures { result ≡ list_all grammar.asks_something (map (λ option. option.now) options.now) }
{
    let mut rest = options;
    while let [option, others @ ..] = rest {
        if !asks_something(option) {
            return false;
        }
        rest = others;
    }
    true
}

/// Whether each of the options stands once.
fn are_single(options: &[&str]) -> bool
    ensures { result ≡ grammar.are_single (map (λ option. option.now) options.now) }
{
    let mut rest = options;
    while let [option, others @ ..] = rest {
        if is_among(option, others) {
            return false;
        }
        rest = others;
    }
    true
}

/// Whether options ask for the Baseline Requirements.
pub(crate) fn has_web(options: &[&str]) -> bool
    ensures { result ≡ grammar.has_web (map (λ option. option.now) options.now) }
{
    is_among("--web", options)
}

/// Whether options ask for the rules of RFC 5280 and the others beside these.
fn has_rfc(options: &[&str]) -> bool
    ensures { result ≡ grammar.has_rfc (map (λ option. option.now) options.now) }
{
    is_among("--rfc", options)
}

/// Whether they ask for these beside none.
fn is_rfc_alone(options: &[&str]) -> bool
    ensures { result ≡ grammar.is_rfc_alone (map (λ option. option.now) options.now) }
{
    has_rfc(options) && !has_web(options)
}

/// Whether options ask for something, in any order.
fn are_asking(options: &[&str]) -> bool
    ensures { result ≡ grammar.are_asking (map (λ option. option.now) options.now) }
{
    (all_ask(options) && are_single(options)) && !is_rfc_alone(options)
}

/// How findings are told, where it is said too that nothing was found or isn't, in objects of JSON or not.
fn telling_by(is_verbose: bool, is_json: bool) -> Telling
    ensures { result ≡ grammar.telling_by is_verbose is_json }
{
    match (is_verbose, is_json) {
        (false, false) => Telling::Lines,
        (true, false) => Telling::Verbose,
        (false, true) => Telling::Json,
        (true, true) => Telling::VerboseJson,
    }
}

/// How findings are told that options ask for.
fn telling_of(options: &[&str]) -> Telling
    ensures { result ≡ grammar.telling_of (map (λ option. option.now) options.now) }
{
    telling_by(is_among("-v", options), is_among("--json", options))
}

/// What names ask for, the first of which may be a kind's, and the names of inputs among them.
fn asked_of<'a, 'b>(telling: Telling, names: &'a [&'b str]) -> (Linter, &'a [&'b str])
    ensures { (result.0, map (λ name. name.now) result.1.now) ≡ grammar.asked_of telling (map (λ name. name.now) names.now) }
{
    if let [name, others @ ..] = names {
        if let Some(kind) = kind_of(name) {
            return (
                Linter {
                    kind: Some(kind),
                    telling,
                    rules: Rules::Rfc,
                },
                others,
            );
        }
    }
    (
        Linter {
            kind: None,
            telling,
            rules: Rules::Rfc,
        },
        names,
    )
}

/// The date-time that a text names, as `2026-03-15T00:00:00Z`.
fn date_time_named(text: &str) -> Option<DateTime>
    ensures { result ≡ grammar.date_time_named text.now }
{
    match DateTime::from_str(text) {
        Ok(moment) => Some(moment),
        Err(_) => None,
    }
}

/// Whether a word names the notBefore of each certificate.
pub(crate) fn is_not_before(word: &str) -> bool
    ensures { result ≡ grammar.is_not_before word.now }
{
    word == "not-before"
}

/// The moment that a word names: that of the notBefore of each certificate, or a date-time.
fn moment_of(word: &str) -> Option<Moment>
    ensures { result ≡ grammar.moment_of word.now }
{
    if is_not_before(word) {
        return Some(Moment::NotBefore);
    }
    match date_time_named(word) {
        Some(moment) => Some(Moment::At(moment)),
        None => None,
    }
}

/// The rules of the Baseline Requirements at a moment, and those of RFC 5280 and the others where they are asked beside.
fn rules_at(is_both: bool, moment: Moment) -> Rules
    ensures { result ≡ grammar.rules_at is_both moment }
{
    if is_both {
        Rules::Both(moment)
    } else {
        Rules::Web(moment)
    }
}

/// What names ask for behind `--web`: a moment, and the names of inputs; `None` where there is no such moment.
fn web_of<'a, 'b>(
    is_both: bool,
    telling: Telling,
    names: &'a [&'b str],
) -> Option<(Linter, &'a [&'b str])>
    ensures { option_map (λ asked. (asked.0, map (λ name. name.now) asked.1.now)) result ≡ grammar.web_of is_both telling (map (λ name. name.now) names.now) }
{
    let [moment, others @ ..] = names else {
        return None;
    };
    match moment_of(moment) {
        Some(moment) => Some((
            Linter {
                kind: Some(Kind::Certificate),
                telling,
                rules: rules_at(is_both, moment),
            },
            others,
        )),
        None => None,
    }
}

/// What options that ask for something and names ask for.
fn asked_by<'a, 'b>(options: &[&str], names: &'a [&'b str]) -> Option<(Linter, &'a [&'b str])>
    ensures { option_map (λ asked. (asked.0, map (λ name. name.now) asked.1.now)) result
        ≡ grammar.asked_by (map (λ option. option.now) options.now) (map (λ name. name.now) names.now) }
{
    let telling = telling_of(options);
    if has_web(options) {
        web_of(has_rfc(options), telling, names)
    } else {
        Some(asked_of(telling, names))
    }
}

/// What is told of a word that has to be a moment: nothing where it is one.
fn moment_misuse(word: &str) -> (&'static [u8], &str, &'static [u8])
    ensures { result.0.now ++ (result.1.now ++ result.2.now) ≡ grammar.moment_misuse word.now (grammar.moment_of word.now) }
{
    match moment_of(word) {
        Some(_) => (b"", "", b""),
        None => (
            b"x509_linter: not a moment, as 2026-03-15T00:00:00Z is one: ",
            word_label(word),
            b"\n",
        ),
    }
}

/// What is told of names behind `--web` that ask for nothing.
fn web_misuse<'b>(names: &[&'b str]) -> (&'static [u8], &'b str, &'static [u8])
    ensures { result.0.now ++ (result.1.now ++ result.2.now) ≡ grammar.web_misuse (map (λ name. name.now) names.now) }
{
    match names {
        [] => (b"x509_linter: --web stands without a moment\n", "", b""),
        [word, ..] => moment_misuse(word),
    }
}

/// Whether an option is one that may stand among others.
fn is_known(option: &str) -> bool
    ensures { result ≡ grammar.is_known option.now }
{
    asks_something(option) || is_right(option)
}

/// What is told of an option that may not stand among others.
fn wrong_told(option: &str) -> &'static [u8]
    ensures { result.now ≡ grammar.wrong_told option.now }
{
    if names_rules(option) {
        return b"x509_linter: no such rule: ";
    }
    if is_choice(option) {
        return b"x509_linter: no such level, as error, warning and notice are: ";
    }
    if takes_value(option) {
        return b"x509_linter: nothing stands behind ";
    }
    b"x509_linter: no such option: "
}

/// What is told of an option that stands twice: of the first that does, or nothing.
fn repeat_misuse<'b>(options: &[&'b str]) -> (&'static [u8], &'b str, &'static [u8])
    ensures { result.0.now ++ (result.1.now ++ result.2.now) ≡ grammar.repeat_misuse (map (λ option. option.now) options.now) }
{
    let mut rest = options;
    while let [option, others @ ..] = rest {
        if is_among(option, others) {
            return (b"x509_linter: stands twice: ", word_label(option), b"\n");
        }
        rest = others;
    }
    (b"", "", b"")
}

/// What is told of options each of which may stand among others: of a summary in JSON, of rules that are asked beside none, or of one that stands
/// twice, or nothing.
fn end_misuse<'b>(options: &[&'b str]) -> (&'static [u8], &'b str, &'static [u8])
    ensures { result.0.now ++ (result.1.now ++ result.2.now) ≡ grammar.end_misuse (map (λ option. option.now) options.now) }
{
    if are_mixed(options) {
        return (b"x509_linter: --count prints no JSON\n", "", b"");
    }
    if is_rfc_alone(options) {
        return (b"x509_linter: --rfc stands without --web\n", "", b"");
    }
    repeat_misuse(options)
}

/// What is told of options that ask for nothing: of the first that may not stand among others, or of all, or nothing.
fn option_misuse<'b>(options: &[&'b str]) -> (&'static [u8], &'b str, &'static [u8])
    ensures { result.0.now ++ (result.1.now ++ result.2.now) ≡ grammar.option_misuse (map (λ option. option.now) options.now) }
{
    let mut rest = options;
    while let [option, others @ ..] = rest {
        if !is_known(option) {
            return (wrong_told(option), word_label(option), b"\n");
        }
        rest = others;
    }
    end_misuse(options)
}

/// How it is told that bytes are the encoding of no object of this kind, or of none at all.
pub(crate) fn no_object(kind: Option<Kind>) -> &'static str
    ensures { result.now ≡ grammar.no_object kind }
{
    match kind {
        None => "not a certificate, CRL, CSR or trust anchor in DER, PEM or hex",
        Some(Kind::Certificate) => "not a certificate in DER, PEM or hex",
        Some(Kind::Crl) => "not a CRL in DER, PEM or hex",
        Some(Kind::Csr) => "not a CSR in DER, PEM or hex",
        Some(Kind::Anchor) => "not a trust anchor in DER, PEM or hex",
    }
}

/// What stands above the findings of an input.
pub(crate) fn headed(telling: Telling, is_several: bool) -> Headed
    ensures { result ≡ grammar.headed telling is_several }
{
    match telling {
        Telling::Json | Telling::VerboseJson => Headed::Name,
        _ if is_several => Headed::Line,
        _ => Headed::Not,
    }
}

fn text_of(alloc: Global, heading: Heading<'_>) -> Result<String, AllocError>
    ensures { IfOk result (λ text. string_bytes text ≡ heading_text heading.entry) }
{
    let mut text = String::new(alloc);
    text.push_str(heading.name)?;
    text.push_str(heading.end)?;
    Ok(text)
}

/// The brace and the member `file` in front of the members of a finding.
pub(crate) fn front_of(alloc: Global, heading: Heading<'_>) -> Result<String, AllocError>
    ensures { IfOk result (λ front. string_bytes front ≡ grammar.json_front (heading_text heading.entry)) }
{
    let name = text_of(alloc, heading)?;
    let mut front = String::new(alloc);
    front.push_str("{\"file\": \"")?;
    write_json_text(alloc, name.as_str(), &mut front)?;
    front.push_str("\", ")?;
    Ok(front)
}

/// What is said of it in objects of JSON.
fn json_report_of(
    alloc: Global,
    linter: Linter,
    heading: Heading<'_>,
    bytes: &[u8],
) -> Result<Option<Report>, Error>
    ensures ok { IfOk result (is_said_by linter.rules linter.kind (Some (grammar.json_front (heading_text heading.entry))) bytes.now) }
    ensures err { IfErr result (λ e. e.kind ≡ errors.Memory) }
{
    let front = front_of(alloc, heading)?;
    said_by(
        alloc,
        linter.rules,
        linter.kind,
        Style::Json(front.as_str()),
        bytes,
    )
}

/// What is said of it, as it is told.
pub(crate) fn report_of(
    alloc: Global,
    linter: Linter,
    heading: Heading<'_>,
    bytes: &[u8],
) -> Result<Option<Report>, Error>
    ensures ok { IfOk result (is_said_by linter.rules linter.kind (grammar.front_for linter.telling (heading_text heading.entry)) bytes.now) }
    ensures err { IfErr result (λ e. e.kind ≡ errors.Memory) }
{
    match linter.telling {
        Telling::Json | Telling::VerboseJson => json_report_of(alloc, linter, heading, bytes),
        Telling::Lines | Telling::Verbose => {
            said_by(alloc, linter.rules, linter.kind, Style::Text, bytes)
        }
    }
}

/// The status that a report ends with: 1 where a rule is broken that has to be kept.
pub(crate) fn status_of(has_error: bool) -> u8
    ensures { result ≡ grammar.status_of has_error }
{
    if has_error { 1 } else { 0 }
}

/// Writes a text.
fn put<W: Sink>(text: &[u8], writer: &mut W) -> Result<(), PrintError>
    ensures { grammar.IsPut W.takes writer.old text.now writer.new result }
{
    match write_text(writer, text) {
        Ok(()) => Ok(()),
        Err(WriteError) => Err(PrintError::Unwritten),
    }
}

/// Writes a text under a heading.
fn put_headed<'a, W: Sink>(
    heading: Heading<'a>,
    text: &'a [u8],
    writer: &mut W,
) -> Result<(), PrintError>
    ensures { grammar.IsPut W.takes writer.old (heading_text heading.entry ++ text.now) writer.new result }
{
    match write_headed(writer, heading, text) {
        Ok(()) => Ok(()),
        Err(WriteError) => Err(PrintError::Unwritten),
    }
}

/// What is said where nothing is found.
fn clean_words(is_asked: bool) -> &'static str
    ensures { result.now ≡ grammar.clean_words is_asked }
{
    if is_asked {
        "nothing found"
    } else {
        "no rule applies"
    }
}

/// That nothing was found, or no rule applies, as a line.
fn clean_line(is_asked: bool) -> &'static [u8]
    ensures { result.now ≡ as_line (grammar.clean_words is_asked) }
{
    if is_asked {
        b"nothing found\n"
    } else {
        b"no rule applies\n"
    }
}

/// That nothing was found, or no rule applies, as an object of JSON.
fn clean_json(alloc: Global, is_asked: bool, heading: Heading<'_>) -> Result<String, AllocError>
    ensures { IfOk result (λ line. string_bytes line ≡ grammar.clean_json is_asked (heading_text heading.entry)) }
{
    let mut line = front_of(alloc, heading)?;
    line.push_str("\"result\": \"")?;
    line.push_str(clean_words(is_asked))?;
    line.push_str("\"}\n")?;
    Ok(line)
}

fn put_clean_json<W: Sink>(
    alloc: Global,
    is_asked: bool,
    heading: Heading<'_>,
    writer: &mut W,
) -> Result<(), PrintError>
    ensures { grammar.IsPut W.takes writer.old (grammar.clean_json is_asked (heading_text heading.entry)) writer.new result }
{
    match clean_json(alloc, is_asked, heading) {
        Ok(line) => put(line.as_str().as_bytes(), writer),
        Err(AllocError) => Err(PrintError::Memory),
    }
}

/// Whether it is printed too that an input is refused.
fn tells_refusals(telling: Telling) -> bool
    ensures { result ≡ grammar.tells_refusals telling }
{
    match telling {
        Telling::VerboseJson => true,
        Telling::Lines | Telling::Verbose | Telling::Json => false,
    }
}

/// Whether it is the output that failed.
fn is_unwritten(fault: Fault) -> bool
    ensures { result ≡ grammar.is_unwritten fault }
{
    match fault {
        Fault::Unwritten => true,
        Fault::Unopened(_)
        | Fault::Unreadable
        | Fault::TooLong
        | Fault::Unarmoured(_)
        | Fault::NoObject(_)
        | Fault::Memory => false,
    }
}

/// An object of JSON that says why an input is refused, with further members.
fn refused_json(
    alloc: Global,
    heading: Heading<'_>,
    reason: &[u8],
    members: &[u8],
) -> Result<Vec<u8>, AllocError>
    ensures { IfOk result (λ text. text.items ≡ grammar.refused_json (heading_text heading.entry) reason.now members.now) }
{
    let front = front_of(alloc, heading)?;
    let mut text = Vec::from_slice(alloc, front.as_str().as_bytes())?;
    text.extend_from_slice(b"\"result\": \"refused\", \"reason\": \"")?;
    text.extend_from_slice(reason)?;
    text.extend_from_slice(b"\"")?;
    text.extend_from_slice(members)?;
    text.extend_from_slice(b"}\n")?;
    Ok(text)
}

/// Why an input is refused, in words.
fn told_words(
    alloc: Global,
    kind: Option<Kind>,
    bytes: &[u8],
    fault: Fault,
) -> Result<String, AllocError>
    ensures { IfOk result (λ text. string_bytes text ≡ told_text (grammar.no_object kind) (wrong kind bytes.now) fault) }
{
    if !is_whole(fault) {
        return fault_words(alloc, no_object(kind), fault);
    }
    let wrong = wrong_in(alloc, kind, bytes)?;
    whole_words(alloc, no_object(kind), wrong.as_str())
}

/// What is printed of an input that is refused.
pub(crate) fn refused(
    alloc: Global,
    telling: Telling,
    kind: Option<Kind>,
    heading: Heading<'_>,
    bytes: &[u8],
    fault: Fault,
) -> Result<Vec<u8>, AllocError>
    ensures { IfOk result (λ text. text.items ≡ grammar.refused telling kind (heading_text heading.entry) bytes.now fault) }
{
    if tells_refusals(telling) && !is_unwritten(fault) {
        let words = told_words(alloc, kind, bytes, fault)?;
        let members = fault_members(alloc, kind, bytes, fault)?;
        return refused_json(
            alloc,
            heading,
            words.as_str().as_bytes(),
            members.as_str().as_bytes(),
        );
    }
    Ok(Vec::new(alloc))
}

/// Writes what is said where nothing is found.
fn tell_clean<W: Sink>(
    alloc: Global,
    telling: Telling,
    is_asked: bool,
    heading: Heading<'_>,
    writer: &mut W,
) -> Result<(), PrintError>
    ensures { grammar.IsPut W.takes writer.old (grammar.clean telling is_asked (heading_text heading.entry)) writer.new result }
{
    match telling {
        Telling::Lines | Telling::Json => Ok(()),
        Telling::Verbose => put_headed(heading, clean_line(is_asked), writer),
        Telling::VerboseJson => put_clean_json(alloc, is_asked, heading, writer),
    }
}

/// Writes the text of the findings: under a heading, and objects of JSON as they are; where there are none, it says so or writes nothing.
pub(crate) fn tell<'a, W: Sink>(
    alloc: Global,
    telling: Telling,
    is_asked: bool,
    heading: Heading<'a>,
    findings: &'a [u8],
    writer: &mut W,
) -> Result<(), PrintError>
    ensures { grammar.IsPut W.takes writer.old (grammar.told telling is_asked (heading_text heading.entry) findings.now) writer.new result }
{
    if findings.is_empty() {
        return tell_clean(alloc, telling, is_asked, heading, writer);
    }
    match telling {
        Telling::Lines | Telling::Verbose => put_headed(heading, findings, writer),
        Telling::Json | Telling::VerboseJson => put(findings, writer),
    }
}

/// The text of what is said, under a heading; JSON has its name in each object. What is said where nothing is found is told by `-v` alone.
impl Printer for Linter {
    ghost use Rattle.x509_linter.specs.Linter.{program, subject};

    ghost program = { program };

    ghost subject = { subject };

    fn name() -> &'static [u8] {
        b"x509_linter"
    }

    fn no_object(&self) -> &'static str {
        no_object(self.kind)
    }

    fn wrong(&self, alloc: Global, bytes: &[u8]) -> Result<String, AllocError> {
        wrong_in(alloc, self.kind, bytes)
    }

    fn headed(&self, is_several: bool) -> Headed {
        headed(self.telling, is_several)
    }

    fn refused(
        &self,
        alloc: Global,
        heading: Heading<'_>,
        bytes: &[u8],
        fault: Fault,
    ) -> Result<Vec<u8>, AllocError> {
        refused(alloc, self.telling, self.kind, heading, bytes, fault)
    }

    fn print<W: Sink>(
        &self,
        alloc: Global,
        heading: Heading<'_>,
        bytes: &[u8],
        writer: &mut W,
    ) -> Result<u8, PrintError> {
        match report_of(alloc, *self, heading, bytes) {
            Ok(Some(report)) => {
                let text = report.text.as_str().as_bytes();
                match tell(alloc, self.telling, true, heading, text, writer) {
                    Ok(()) => Ok(status_of(report.has_error)),
                    Err(e) => Err(e),
                }
            }
            Ok(None) => Err(PrintError::NoObject),
            Err(_) => Err(PrintError::Memory),
        }
    }
}

impl Asked for Linter {
    ghost use Rattle.x509_linter.specs.Linter.{asked, misuse};

    ghost asked = { asked };

    ghost misuse = { misuse };

    fn from_words<'a, 'b>(
        options: &[&str],
        names: &'a [&'b str],
    ) -> Option<(Linter, &'a [&'b str])> {
        if are_asking(options) {
            asked_by(options, names)
        } else {
            None
        }
    }

    fn misuse<'b>(
        options: &[&'b str],
        names: &[&'b str],
    ) -> (&'static [u8], &'b str, &'static [u8]) {
        if are_asking(options) && has_web(options) {
            web_misuse(names)
        } else {
            option_misuse(options)
        }
    }

    fn usage() -> &'static [u8] {
        b"usage: x509_linter [certificate|crl|csr|anchor] [-v] [--json] [CHOICE..] [FILE..]\n       x509_linter --web [--rfc] [-v] [--json] [CHOICE..] MOMENT [FILE..]\n"
    }

    fn help() -> &'static [u8] {
        HELP
    }
}
