//! Options whose value stands as a word of its own.

ghost use Rattle.std.specs.Option.{option_map};
ghost use Rattle.std.specs.Prelude.{◌≡◌, ◌++◌, ◌∷◌, [], IfOk, OnOk, false, map, string_bytes};
ghost use Rattle.x509_linter.specs.Choice as grammar;

use std::alloc::{AllocError, Global};

/// Whether an option is one whose value may stand behind it.
pub(crate) fn takes_value(word: &str) -> bool
    ensures { result ≡ grammar.takes_value word.now }
{
    word == "--only" || (word == "--without" || word == "--level")
}

/// Whether there are no options behind a word.
fn is_end(word: &str) -> bool
    ensures { result ≡ grammar.is_end word.now }
{
    word == "--"
}

/// What a word is.
#[derive(Clone, Copy)]
enum Part {
    /// An option that awaits its value.
    Awaiting,

    /// `--`, behind which there are no options.
    End,

    /// Another word.
    Whole,
}

/// What a word is, where `--` stood before or didn't.
fn part_of(is_over: bool, word: &str) -> Part
    ensures { result ≡ grammar.part_of is_over word.now }
{
    if is_over {
        return Part::Whole;
    }
    if takes_value(word) {
        return Part::Awaiting;
    }
    if is_end(word) {
        return Part::End;
    }
    Part::Whole
}

/// An option, an equals sign and its value.
fn with_value(alloc: Global, option: &str, value: &str) -> Result<String, AllocError>
    ensures { IfOk result (λ word. string_bytes word ≡ grammar.with_value option.now value.now) }
{
    let mut word = String::new(alloc);
    word.push_str(option)?;
    word.push_str("=")?;
    word.push_str(value)?;
    Ok(word)
}

/// Adds a word.
fn push_word(alloc: Global, word: &str, joined: &mut Vec<String>) -> Result<(), AllocError>
    ensures { OnOk result (map string_bytes joined.new.items ≡ map string_bytes joined.old.items ++ word.now ∷ []) }
{
    let mut whole = String::new(alloc);
    whole.push_str(word)?;
    joined.push(whole)?;
    Ok(())
}

/// Adds an option with its value.
fn push_value(
    alloc: Global,
    option: &str,
    value: &str,
    joined: &mut Vec<String>,
) -> Result<(), AllocError>
    ensures { OnOk result (map string_bytes joined.new.items ≡ map string_bytes joined.old.items ++ grammar.with_value option.now value.now ∷ []) }
{
    let whole = with_value(alloc, option, value)?;
    joined.push(whole)?;
    Ok(())
}

/// Adds an option that stands without its value.
fn push_last(
    alloc: Global,
    awaiting: Option<&str>,
    joined: &mut Vec<String>,
) -> Result<(), AllocError>
    ensures { OnOk result (map string_bytes joined.new.items
        ≡ map string_bytes joined.old.items ++ grammar.joined_from (option_map (λ option. option.now) awaiting.entry) false []) }
{
    match awaiting {
        Some(option) => push_word(alloc, option, joined),
        None => Ok(()),
    }
}

/// The words, where each value stands with its option in one, as `--only=RULE`.
///
/// # Errors
///
/// `AllocError` when out of memory.
pub(crate) fn joined(alloc: Global, words: &[String]) -> Result<Vec<String>, AllocError>
    ensures { IfOk result (λ joined. map string_bytes joined.items ≡ grammar.joined (map string_bytes words.now)) }
{
    let mut joined = Vec::new(alloc);
    let mut awaiting: Option<&str> = None;
    let mut is_over = false;
    for word in words {
        let word = word.as_str();
        match awaiting {
            Some(option) => {
                push_value(alloc, option, word, &mut joined)?;
                awaiting = None;
            }
            None => match part_of(is_over, word) {
                Part::Awaiting => awaiting = Some(word),
                Part::End => {
                    push_word(alloc, word, &mut joined)?;
                    is_over = true;
                }
                Part::Whole => push_word(alloc, word, &mut joined)?,
            },
        }
    }
    push_last(alloc, awaiting, &mut joined)?;
    Ok(joined)
}
