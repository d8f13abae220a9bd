//! Which findings are reported, and which of them count: what the options `--only`, `--without` and `--level` choose.

ghost use Rattle.std.specs.List.{list_all, list_any, starts_with};
ghost use Rattle.std.specs.Option.{option_map};
ghost use Rattle.std.specs.Prelude.{◌≡◌, ◌++◌, IfOk, OnOk, bytes_eq, map, nat_eq};
ghost use Rattle.x509_linter.specs.Choice as grammar;
ghost use Rattle.x509_linter.specs.Names.{is_rule};
ghost use Rattle.x509_object_run.specs.Words.{has_option};

use crate::names::{anchor_rules, certificate_rules, crl_rules, csr_rules, is_rule, web_rules};
use crate::said::Rules;
use std::alloc::{AllocError, Global};
use x509_lint::Kind;

/// What stands behind this front of an option.
fn behind_front<'a>(front: &[u8], option: &'a str) -> Option<&'a [u8]>
    ensures { option_map (λ value. value.now) result ≡ grammar.behind_front front.now option.now }
{
    let option = option.as_bytes();
    if option.starts_with(front) {
        Some(&option[front.len()..])
    } else {
        None
    }
}

fn only_of(option: &str) -> Option<&[u8]>
    ensures { option_map (λ value. value.now) result ≡ grammar.only_of option.now }
{
    behind_front(b"--only=", option)
}

fn without_of(option: &str) -> Option<&[u8]>
    ensures { option_map (λ value. value.now) result ≡ grammar.without_of option.now }
{
    behind_front(b"--without=", option)
}

fn level_of(option: &str) -> Option<&[u8]>
    ensures { option_map (λ value. value.now) result ≡ grammar.level_of option.now }
{
    behind_front(b"--level=", option)
}

fn is_word(word: &[u8], other: &[u8]) -> bool
    ensures { result ≡ grammar.is_word word.now other.now }
{
    word == other
}

fn is_level(name: &[u8]) -> bool
    ensures { result ≡ grammar.is_level name.now }
{
    is_word(name, b"error") || (is_word(name, b"warning") || is_word(name, b"notice"))
}

fn has(value: Option<&[u8]>) -> bool
    ensures { result ≡ grammar.has (option_map (λ value. value.now) value.entry) }
{
    match value {
        Some(_) => true,
        None => false,
    }
}

fn is_some_rule(value: Option<&[u8]>) -> bool
    ensures { result ≡ grammar.passes is_rule (option_map (λ value. value.now) value.entry) }
{
    match value {
        Some(value) => is_rule(value),
        None => false,
    }
}

fn is_some_level(value: Option<&[u8]>) -> bool
    ensures { result ≡ grammar.passes grammar.is_level (option_map (λ value. value.now) value.entry) }
{
    match value {
        Some(value) => is_level(value),
        None => false,
    }
}

fn is_named(name: &[u8], value: Option<&[u8]>) -> bool
    ensures { result ≡ grammar.passes (bytes_eq name.now) (option_map (λ value. value.now) value.entry) }
{
    match value {
        Some(value) => name == value,
        None => false,
    }
}

/// Whether an option names a rule.
pub(crate) fn names_rules(option: &str) -> bool
    ensures { result ≡ grammar.names_rules option.now }
{
    has(only_of(option)) || has(without_of(option))
}

/// Whether an option asks for a summary.
fn is_count(option: &str) -> bool
    ensures { result ≡ grammar.is_count option.now }
{
    option == "--count"
}

/// Whether an option says which rules are asked of, from which severity on findings count, or that they are summed up.
pub(crate) fn is_choice(option: &str) -> bool
    ensures { result ≡ grammar.is_choice option.now }
{
    names_rules(option) || (has(level_of(option)) || is_count(option))
}

/// Whether it is such an option, of a rule or of a level that there is.
pub(crate) fn is_right(option: &str) -> bool
    ensures { result ≡ grammar.is_right option.now }
{
    is_some_rule(only_of(option))
        || (is_some_rule(without_of(option))
            || (is_some_level(level_of(option)) || is_count(option)))
}

fn is_plain(option: &str) -> bool
    ensures { result ≡ grammar.is_plain option.now }
{
    !is_choice(option)
}

fn may_stand(option: &str) -> bool
    ensures { result ≡ grammar.may_stand option.now }
{
    is_plain(option) || is_right(option)
}

/// Whether one of the options chooses.
fn any_chooses(options: &[&str]) -> bool
    ensures { result ≡ list_any grammar.is_choice (map (λ option. option.now) options.now) }
{
    let mut rest = options;
    while let [option, others @ ..] = rest {
        if is_choice(option) {
            return true;
        }
        rest = others;
    }
    false
}

/// Whether each of the options may stand.
fn all_may_stand(options: &[&str]) -> bool
    ensures { result ≡ list_all grammar.may_stand (map (λ option. option.now) options.now) }
{
    let mut rest = options;
    while let [option, others @ ..] = rest {
        if !may_stand(option) {
            return false;
        }
        rest = others;
    }
    true
}

/// Whether an option is among others.
pub(crate) fn is_among(option: &str, options: &[&str]) -> bool
    ensures { result ≡ has_option option.now (map (λ option. option.now) options.now) }
{
    let mut rest = options;
    while let [other, others @ ..] = rest {
        if *other == option {
            return true;
        }
        rest = others;
    }
    false
}

/// Whether options ask for a summary.
pub(crate) fn has_count(options: &[&str]) -> bool
    ensures { result ≡ grammar.has_count (map (λ option. option.now) options.now) }
{
    is_among("--count", options)
}

/// Whether they ask for objects of JSON beside it, of which there is no summary.
pub(crate) fn are_mixed(options: &[&str]) -> bool
    ensures { result ≡ grammar.are_mixed (map (λ option. option.now) options.now) }
{
    has_count(options) && is_among("--json", options)
}

/// Whether options choose, and each that does is right.
pub(crate) fn choose(options: &[&str]) -> bool
    ensures { result ≡ grammar.choose (map (λ option. option.now) options.now) }
{
    (any_chooses(options) && all_may_stand(options)) && !are_mixed(options)
}

/// Adds an option, where it chooses nothing.
fn push_plain<'a>(option: &'a str, plain: &mut Vec<&'a str>) -> Result<(), AllocError>
    ensures { OnOk result (map (λ option. option.now) plain.new.items
        ≡ map (λ option. option.now) plain.old.items ++ grammar.plain_option option.now) }
{
    if is_plain(option) {
        plain.push(option)?;
    }
    Ok(())
}

/// The options that choose nothing.
pub(crate) fn plain_options<'a>(
    alloc: Global,
    options: &[&'a str],
) -> Result<Vec<&'a str>, AllocError>
    ensures { IfOk result (λ plain. map (λ option. option.now) plain.items ≡ grammar.plain_options (map (λ option. option.now) options.now)) }
{
    let mut plain = Vec::new(alloc);
    for option in options {
        push_plain(option, &mut plain)?;
    }
    Ok(plain)
}

/// Whether `--only` names a rule.
fn any_only(options: &[&str]) -> bool
    ensures { result ≡ list_any grammar.has_only (map (λ option. option.now) options.now) }
{
    let mut rest = options;
    while let [option, others @ ..] = rest {
        if has(only_of(option)) {
            return true;
        }
        rest = others;
    }
    false
}

/// Whether `--only` names this rule.
fn is_only(name: &[u8], options: &[&str]) -> bool
    ensures { result ≡ list_any (grammar.is_only name.now) (map (λ option. option.now) options.now) }
{
    let mut rest = options;
    while let [option, others @ ..] = rest {
        if is_named(name, only_of(option)) {
            return true;
        }
        rest = others;
    }
    false
}

/// Whether `--without` names this rule.
fn is_without(name: &[u8], options: &[&str]) -> bool
    ensures { result ≡ list_any (grammar.is_without name.now) (map (λ option. option.now) options.now) }
{
    let mut rest = options;
    while let [option, others @ ..] = rest {
        if is_named(name, without_of(option)) {
            return true;
        }
        rest = others;
    }
    false
}

/// Whether findings of the rule of this name are reported.
pub(crate) fn is_picked(options: &[&str], name: &[u8]) -> bool
    ensures { result ≡ grammar.is_picked (map (λ option. option.now) options.now) name.now }
{
    (is_only(name, options) || !any_only(options)) && !is_without(name, options)
}

/// Whether findings of one of these rules are, whose names stand each in a line.
fn any_picked(options: &[&str], names: &[u8]) -> bool
    ensures { result ≡ grammar.any_picked (map (λ option. option.now) options.now) names.now }
{
    names
        .split(|octet| *octet == b'\n')
        .any(|name| is_picked(options, name))
}

/// Whether a rule on objects of this kind is asked.
fn asks_of(options: &[&str], kind: Kind) -> bool
    ensures { result ≡ grammar.asks_of (map (λ option. option.now) options.now) kind }
{
    match kind {
        Kind::Certificate => any_picked(options, certificate_rules()),
        Kind::Crl => any_picked(options, crl_rules()),
        Kind::Csr => any_picked(options, csr_rules()),
        Kind::Anchor => {
            any_picked(options, certificate_rules()) || any_picked(options, anchor_rules())
        }
    }
}

/// Whether a rule is asked: one of the Baseline Requirements, or one on certificates beside these, or one on objects of this kind, or of some kind.
pub(crate) fn asks(options: &[&str], rules: Rules, kind: Option<Kind>) -> bool
    ensures { result ≡ grammar.asks (map (λ option. option.now) options.now) rules kind }
{
    match (rules, kind) {
        (Rules::Web(_), _) => any_picked(options, web_rules()),
        (Rules::Both(_), _) => {
            any_picked(options, certificate_rules()) || any_picked(options, web_rules())
        }
        (Rules::Rfc, Some(kind)) => asks_of(options, kind),
        (Rules::Rfc, None) => {
            asks_of(options, Kind::Anchor)
                || (asks_of(options, Kind::Crl) || asks_of(options, Kind::Csr))
        }
    }
}

/// Whether `--level` names this level.
fn has_level(name: &[u8], options: &[&str]) -> bool
    ensures { result ≡ grammar.has_level name.now (map (λ option. option.now) options.now) }
{
    let mut rest = options;
    while let [option, others @ ..] = rest {
        if is_named(name, level_of(option)) {
            return true;
        }
        rest = others;
    }
    false
}

/// Whether a text begins with this one.
fn begins_with(text: &[u8], front: &[u8]) -> bool
    ensures { result ≡ starts_with nat_eq text.now front.now }
{
    text.starts_with(front)
}

/// Whether a finding of this severity counts, with what stands behind it.
pub(crate) fn is_counted(options: &[&str], severity: &[u8]) -> bool
    ensures { result ≡ grammar.is_counted (map (λ option. option.now) options.now) severity.now }
{
    begins_with(severity, b"error")
        || ((begins_with(severity, b"warning")
            && (has_level(b"warning", options) || has_level(b"notice", options)))
            || (begins_with(severity, b"not judged") && has_level(b"notice", options)))
}
