//! What an input is called.

ghost use Rattle.std.specs.Char.{is_ascii_control};
ghost use Rattle.std.specs.List.{list_any};
ghost use Rattle.std.specs.Prelude.{◌≡◌, IfOk, string_bytes};
ghost use Rattle.x509_object_run.specs.Labels.{is_standard, label_of, word_label};
ghost use Rattle.x509_object_run.specs.Object.{numbered};

use std::alloc::{AllocError, Global};

/// Whether a name is that of standard input.
pub(crate) fn is_standard(name: &str) -> bool
    ensures { result ≡ is_standard name.now }
{
    name == "-"
}

fn has_control(name: &[u8]) -> bool
    ensures { result ≡ list_any is_ascii_control name.now }
{
    name.iter().any(u8::is_ascii_control)
}

/// What a word is called in messages: one that could end a line isn't written.
pub fn word_label(word: &str) -> &str
    ensures { result.now ≡ word_label word.now }
{
    if has_control(word.as_bytes()) {
        return "(a word with control characters)";
    }
    word
}

/// What an input of this name is called in messages: a name that could end a line isn't written.
pub(crate) fn label_of(name: &str) -> &str
    ensures { result.now ≡ label_of name.now }
{
    if is_standard(name) {
        return "standard input";
    }
    if name.is_empty() {
        return "(an empty name)";
    }
    if has_control(name.as_bytes()) {
        return "(a name with control characters)";
    }
    name
}

/// What the object with this number of an input of several is called.
pub(crate) fn numbered(alloc: Global, label: &str, number: usize) -> Result<String, AllocError>
    ensures { IfOk result (λ text. string_bytes text ≡ numbered label.now number) }
{
    format!(in alloc; "{label}, object {number}")
}
