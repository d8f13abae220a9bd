//! The words of a program over objects: options, and names of inputs.

ghost use Rattle.std.specs.Prelude.{◌≡◌, IfOk, map, string_bytes};
ghost use Rattle.x509_object_run.specs.Words.{has_option, is_option, names_of, options_of, part_of};

use std::alloc::{AllocError, Global};

/// Words, told apart.
#[derive(Drop)]
pub struct Words<'a> {
    /// The options, up to `--`.
    pub options: Vec<&'a str>,

    /// The other words.
    pub names: Vec<&'a str>,
}

/// What a word is.
#[derive(Clone, Copy)]
enum Part {
    /// An option.
    Option,

    /// `--`, behind which there are no options.
    End,

    /// Neither.
    Name,
}

/// Whether a word begins with `-`, and more stands behind it.
fn is_option(word: &str) -> bool
    ensures { result ≡ is_option word.now }
{
    match word.as_bytes() {
        [b'-', _, ..] => true,
        _ => false,
    }
}

/// What a word is, where `--` stood before or didn't.
fn part_of(is_over: bool, word: &str) -> Part
    ensures { result ≡ part_of is_over word.now }
{
    if is_over || !is_option(word) {
        return Part::Name;
    }
    if word == "--" {
        return Part::End;
    }
    Part::Option
}

/// Tells options from names.
///
/// # Errors
///
/// `AllocError` when out of memory.
pub fn split(alloc: Global, words: &[String]) -> Result<Words<'_>, AllocError>
    ensures options { IfOk result (λ split. map (λ word. word.now) split.options.items ≡ options_of (map string_bytes words.now)) }
    ensures names { IfOk result (λ split. map (λ word. word.now) split.names.items ≡ names_of (map string_bytes words.now)) }
{
    let mut options = Vec::new(alloc);
    let mut names = Vec::new(alloc);
    let mut is_over = false;
    for word in words {
        let word = word.as_str();
        match part_of(is_over, word) {
            Part::Name => names.push(word)?,
            Part::End => is_over = true,
            Part::Option => options.push(word)?,
        }
    }
    Ok(Words { options, names })
}

/// Whether an option stands among options.
pub fn has_option(options: &[&str], option: &str) -> bool
    ensures { result ≡ has_option option.now (map (λ other. other.now) options.now) }
{
    options.contains(&option)
}
