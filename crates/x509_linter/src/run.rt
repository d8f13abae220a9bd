//! A run of the program.

ghost use Rattle.std.specs.Option.{option_map};
ghost use Rattle.std.specs.Prelude.{◌≡◌, ◌∷◌, IfOk, map, string_bytes};
ghost use Rattle.x509_linter.specs.Choice.{has_count, joined, plain_options};
ghost use Rattle.x509_linter.specs.Chosen.{subject};
ghost use Rattle.x509_linter.specs.Run.{AreReported, IsObeyed, IsRun, IsTried, chosen_of, dated, is_date, moment_text, others_of};
ghost use Rattle.x509_object_run.specs.Program.{streams, world_of};
ghost use Rattle.x509_object_run.specs.Words.{inputs_of};

use crate::choice::{choose, has_count, plain_options};
use crate::chosen::Chosen;
use crate::count::count;
use crate::linter::{Linter, has_web, is_not_before};
use crate::values::joined;
use std::alloc::{AllocError, Global};
use x509_object_run::{Asked, Console, Opener, obey, refuse_memory, show_all, split};
use x509_tool_run::{Sink, Source};

/// What words ask for that choose among findings, of whose options these choose nothing; `None` where they don't choose, or ask for nothing.
fn chosen_of<'a, 'b>(
    options: &[&str],
    plain: &[&str],
    names: &'a [&'b str],
) -> Option<(Linter, &'a [&'b str])>
    requires { map (λ option. option.now) plain.now ≡ plain_options (map (λ option. option.now) options.now) }
    ensures { option_map (λ found. (found.0, map (λ name. name.now) found.1.now)) result
        ≡ chosen_of (map (λ option. option.now) options.now) (map (λ name. name.now) names.now) }
{
    if choose(options) {
        Linter::from_words(plain, names)
    } else {
        None
    }
}

/// The options of which the run over objects makes what it can: those that choose nothing, where each of the others is right.
fn others_of<'a, 'b>(options: &'a [&'b str], plain: &'a [&'b str]) -> &'a [&'b str]
    requires { map (λ option. option.now) plain.now ≡ plain_options (map (λ option. option.now) options.now) }
    ensures { map (λ option. option.now) result.now ≡ others_of (map (λ option. option.now) options.now) }
{
    if choose(options) { plain } else { options }
}

/// Prints what is said of inputs, or sums it up.
fn report<R: Source, F: Source + Drop, O: Opener<F>, W: Sink, E: Console>(
    alloc: Global,
    printer: &Chosen<'_>,
    names: &[&str],
    opener: &O,
    reader: &mut R,
    writer: &mut W,
    errors: &mut E,
) -> u8
    ensures { AreReported (world_of R.gives (O.opens opener.now) (O.lists opener.now) (O.stands opener.now) F.gives W.takes E.takes E.counts) (subject printer.now)
        (has_count (map (λ option. option.now) printer.now.options.now)) (inputs_of (map (λ name. name.now) names.now))
        (streams reader.old writer.old errors.old) (streams reader.new writer.new errors.new) result }
{
    if has_count(printer.options) {
        count::<R, F, O, W, E>(alloc, printer, names, opener, reader, writer, errors)
    } else {
        show_all(alloc, printer, names, opener, reader, writer, errors)
    }
}

/// Does what options and names ask for, where these of the options choose nothing.
fn do_chosen<R: Source, F: Source + Drop, O: Opener<F>, W: Sink, E: Console>(
    alloc: Global,
    options: &[&str],
    plain: &[&str],
    names: &[&str],
    opener: &O,
    reader: &mut R,
    writer: &mut W,
    errors: &mut E,
) -> u8
    requires { map (λ option. option.now) plain.now ≡ plain_options (map (λ option. option.now) options.now) }
    ensures { IsObeyed (world_of R.gives (O.opens opener.now) (O.lists opener.now) (O.stands opener.now) F.gives W.takes E.takes E.counts)
        (map (λ option. option.now) options.now) (map (λ name. name.now) names.now)
        (streams reader.old writer.old errors.old) (streams reader.new writer.new errors.new) result }
{
    match chosen_of(options, plain, names) {
        Some((linter, names)) => {
            let chosen = Chosen { linter, options };
            report::<R, F, O, W, E>(alloc, &chosen, names, opener, reader, writer, errors)
        }
        None => obey::<Linter, R, F, O, W, E>(
            alloc,
            others_of(options, plain),
            names,
            opener,
            reader,
            writer,
            errors,
        ),
    }
}

/// Does what options and names ask for.
fn do_asked<R: Source, F: Source + Drop, O: Opener<F>, W: Sink, E: Console>(
    alloc: Global,
    options: &[&str],
    names: &[&str],
    opener: &O,
    reader: &mut R,
    writer: &mut W,
    errors: &mut E,
) -> u8
    ensures { IsTried (world_of R.gives (O.opens opener.now) (O.lists opener.now) (O.stands opener.now) F.gives W.takes E.takes E.counts)
        (map (λ option. option.now) options.now) (map (λ name. name.now) names.now)
        (streams reader.old writer.old errors.old) (streams reader.new writer.new errors.new) result }
{
    match plain_options(alloc, options) {
        Ok(plain) => do_chosen::<R, F, O, W, E>(
            alloc,
            options,
            plain.as_slice(),
            names,
            opener,
            reader,
            writer,
            errors,
        ),
        Err(AllocError) => refuse_memory::<Linter, E>(errors),
    }
}

/// Whether a word has as many characters as a date, and doesn't name notBefore.
fn is_date(word: &str) -> bool
    ensures { result ≡ is_date word.now }
{
    word.len() == 10 && !is_not_before(word)
}

/// The text of a moment: of a date alone that of midnight.
fn moment_text(alloc: Global, text: &str) -> Result<String, AllocError>
    ensures { IfOk result (λ whole. string_bytes whole ≡ moment_text text.now) }
{
    let mut whole = String::new(alloc);
    whole.push_str(text)?;
    if is_date(text) {
        whole.push_str("T00:00:00Z")?;
    }
    Ok(whole)
}

/// A name in front of others.
fn names_with<'a>(
    alloc: Global,
    first: &'a str,
    others: &[&'a str],
) -> Result<Vec<&'a str>, AllocError>
    ensures { IfOk result (λ names. map (λ name. name.now) names.items ≡ first.now ∷ map (λ name. name.now) others.now) }
{
    let mut names = Vec::new(alloc);
    names.push(first)?;
    names.extend_from_slice(others)?;
    Ok(names)
}

/// Does what options and names ask for, behind a first name.
fn do_behind<R: Source, F: Source + Drop, O: Opener<F>, W: Sink, E: Console>(
    alloc: Global,
    options: &[&str],
    first: &str,
    others: &[&str],
    opener: &O,
    reader: &mut R,
    writer: &mut W,
    errors: &mut E,
) -> u8
    ensures { IsTried (world_of R.gives (O.opens opener.now) (O.lists opener.now) (O.stands opener.now) F.gives W.takes E.takes E.counts)
        (map (λ option. option.now) options.now) (first.now ∷ map (λ name. name.now) others.now)
        (streams reader.old writer.old errors.old) (streams reader.new writer.new errors.new) result }
{
    match names_with(alloc, first, others) {
        Ok(names) => do_asked::<R, F, O, W, E>(
            alloc,
            options,
            names.as_slice(),
            opener,
            reader,
            writer,
            errors,
        ),
        Err(AllocError) => refuse_memory::<Linter, E>(errors),
    }
}

/// Does what options and names ask for, of which the first is the text of a moment.
fn do_at<R: Source, F: Source + Drop, O: Opener<F>, W: Sink, E: Console>(
    alloc: Global,
    options: &[&str],
    moment: &str,
    others: &[&str],
    opener: &O,
    reader: &mut R,
    writer: &mut W,
    errors: &mut E,
) -> u8
    ensures { IsTried (world_of R.gives (O.opens opener.now) (O.lists opener.now) (O.stands opener.now) F.gives W.takes E.takes E.counts)
        (map (λ option. option.now) options.now) (moment_text moment.now ∷ map (λ name. name.now) others.now)
        (streams reader.old writer.old errors.old) (streams reader.new writer.new errors.new) result }
{
    match moment_text(alloc, moment) {
        Ok(moment) => do_behind::<R, F, O, W, E>(
            alloc,
            options,
            moment.as_str(),
            others,
            opener,
            reader,
            writer,
            errors,
        ),
        Err(AllocError) => refuse_memory::<Linter, E>(errors),
    }
}

/// Does what options and names ask for, where a date may stand for a moment.
fn do_dated<R: Source, F: Source + Drop, O: Opener<F>, W: Sink, E: Console>(
    alloc: Global,
    options: &[&str],
    names: &[&str],
    opener: &O,
    reader: &mut R,
    writer: &mut W,
    errors: &mut E,
) -> u8
    ensures { IsTried (world_of R.gives (O.opens opener.now) (O.lists opener.now) (O.stands opener.now) F.gives W.takes E.takes E.counts)
        (map (λ option. option.now) options.now) (dated (map (λ option. option.now) options.now) (map (λ name. name.now) names.now))
        (streams reader.old writer.old errors.old) (streams reader.new writer.new errors.new) result }
{
    if has_web(options) {
        if let [moment, others @ ..] = names {
            return do_at::<R, F, O, W, E>(
                alloc, options, moment, others, opener, reader, writer, errors,
            );
        }
    }
    do_asked::<R, F, O, W, E>(alloc, options, names, opener, reader, writer, errors)
}

/// Does what words ask for in which each value stands with its option.
fn lint_joined<R: Source, F: Source + Drop, O: Opener<F>, W: Sink, E: Console>(
    alloc: Global,
    words: &[String],
    opener: &O,
    reader: &mut R,
    writer: &mut W,
    errors: &mut E,
) -> u8
    ensures { IsRun (world_of R.gives (O.opens opener.now) (O.lists opener.now) (O.stands opener.now) F.gives W.takes E.takes E.counts) (map string_bytes words.now)
        (streams reader.old writer.old errors.old) (streams reader.new writer.new errors.new) result }
{
    match split(alloc, words) {
        Ok(words) => do_dated::<R, F, O, W, E>(
            alloc,
            words.options.as_slice(),
            words.names.as_slice(),
            opener,
            reader,
            writer,
            errors,
        ),
        Err(AllocError) => refuse_memory::<Linter, E>(errors),
    }
}

/// Does what the words ask for: tells which rules the inputs break that they name, or standard input, and answers the greatest of their statuses; or
/// says how the program is called, what it does, or its version.
pub(crate) fn lint<R: Source, F: Source + Drop, O: Opener<F>, W: Sink, E: Console>(
    alloc: Global,
    words: &[String],
    opener: &O,
    reader: &mut R,
    writer: &mut W,
    errors: &mut E,
) -> u8
    ensures { IsRun (world_of R.gives (O.opens opener.now) (O.lists opener.now) (O.stands opener.now) F.gives W.takes E.takes E.counts) (joined (map string_bytes words.now))
        (streams reader.old writer.old errors.old) (streams reader.new writer.new errors.new) result }
{
    match joined(alloc, words) {
        Ok(words) => lint_joined::<R, F, O, W, E>(
            alloc,
            words.as_slice(),
            opener,
            reader,
            writer,
            errors,
        ),
        Err(AllocError) => refuse_memory::<Linter, E>(errors),
    }
}
