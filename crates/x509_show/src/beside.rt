//! A run over a certificate beside its issuer.

ghost use Rattle.std.specs.Option.{option_map};
ghost use Rattle.std.specs.Prelude.{◌≡◌, ◌⊎◌, map, string_bytes};
ghost use Rattle.x509_object_run.specs.Program.{IsUnkept, streams, world_of};
ghost use Rattle.x509_object_run.specs.Words.{names_of, options_of};
ghost use Rattle.x509_show.specs.Show.{program};
ghost use Rattle.x509_show.specs.Timestamps.{IsBelow, IsNamedWritten, IsObeyed, IsRefused, IsShownBeside, beside_of, is_beside, pair_of};

use crate::reason::{Reason, reason_words};
use crate::show::Show;
use crate::timestamps::write_certificate;
use std::alloc::{AllocError, Global};
use x509_base::Raw;
use x509_check::CertificateRef;
use x509_object_run::{
    Console, Fault, Opener, looks_of, obey, read_named, refuse_memory, split, tell_of_input,
};
use x509_tool_run::{Sink, Source};

/// The issuer, and the certificate, which is read from standard input where it isn't named.
fn pair_of<'b>(names: &[&'b str]) -> Option<(&'b str, &'b str)>
    ensures { option_map (λ found. (found.0.now, found.1.now)) result ≡ pair_of (map (λ name. name.now) names.now) }
{
    match names {
        [issuer] => Some((*issuer, "-")),
        [issuer, name] => Some((*issuer, *name)),
        _ => None,
    }
}

/// Whether options ask what the SCTs of a certificate are signatures of.
fn is_beside(options: &[&str]) -> bool
    ensures { result ≡ is_beside (map (λ option. option.now) options.now) }
{
    match options {
        [option] => *option == "--sct-input",
        _ => false,
    }
}

/// The issuer and the certificate, where the words ask for these.
fn beside_of<'b>(options: &[&str], names: &[&'b str]) -> Option<(&'b str, &'b str)>
    ensures { option_map (λ found. (found.0.now, found.1.now)) result
        ≡ beside_of (map (λ option. option.now) options.now) (map (λ name. name.now) names.now) }
{
    if is_beside(options) {
        pair_of(names)
    } else {
        None
    }
}

/// Tells why the input of a name is refused, and answers the status.
fn refuse<E: Sink>(alloc: Global, name: &str, reason: Reason, errors: &mut E) -> u8
    ensures { IsRefused name.now reason E.takes errors.old errors.new result }
{
    match reason_words(alloc, reason) {
        Ok(words) => tell_of_input(errors, b"x509_show", name, words.as_str().as_bytes()),
        Err(AllocError) => tell_of_input(errors, b"x509_show", name, b"out of memory"),
    }
    2
}

/// Reads the input of a name, and writes the lines of its SCTs.
fn write_named<R: Source, F: Source + Drop, O: Opener<F>, W: Sink>(
    alloc: Global,
    issuer: &CertificateRef<'_, Raw>,
    name: &str,
    opener: &O,
    reader: &mut R,
    writer: &mut W,
) -> Result<(), Reason>
    ensures { IsNamedWritten R.gives (O.opens opener.now) F.gives W.takes name.now issuer.now.bytes.now reader.old reader.new writer.old writer.new result }
{
    match read_named(alloc, name, opener, reader) {
        Ok(bytes) => write_certificate(alloc, bytes.as_slice(), issuer, writer),
        Err(fault) => Err(Reason::Fault(fault)),
    }
}

/// Reads the input of a name, writes the lines of its SCTs or tells why not, and answers the status.
fn show_below<R: Source, F: Source + Drop, O: Opener<F>, W: Sink, E: Console>(
    alloc: Global,
    issuer: &str,
    above: &[u8],
    name: &str,
    opener: &O,
    reader: &mut R,
    writer: &mut W,
    errors: &mut E,
) -> u8
    ensures { IsBelow (world_of R.gives (O.opens opener.now) (O.lists opener.now) (O.stands opener.now) F.gives W.takes E.takes E.counts) issuer.now name.now above.now
        (streams reader.old writer.old errors.old) (streams reader.new writer.new errors.new) result }
{
    let Ok(certificate) = CertificateRef::<Raw>::from_der(above) else {
        return refuse(
            alloc,
            issuer,
            Reason::Fault(Fault::NoObject(looks_of(above))),
            errors,
        );
    };
    match write_named(alloc, &certificate, name, opener, reader, writer) {
        Ok(()) => 0,
        Err(reason) => refuse(alloc, name, reason, errors),
    }
}

/// Reads an issuer, and then a certificate, whose SCTs it shows.
fn show_beside<R: Source, F: Source + Drop, O: Opener<F>, W: Sink, E: Console>(
    alloc: Global,
    issuer: &str,
    name: &str,
    opener: &O,
    reader: &mut R,
    writer: &mut W,
    errors: &mut E,
) -> u8
    ensures { IsShownBeside (world_of R.gives (O.opens opener.now) (O.lists opener.now) (O.stands opener.now) F.gives W.takes E.takes E.counts) issuer.now name.now
        (streams reader.old writer.old errors.old) (streams reader.new writer.new errors.new) result }
{
    match read_named(alloc, issuer, opener, reader) {
        Ok(above) => show_below(
            alloc,
            issuer,
            above.as_slice(),
            name,
            opener,
            reader,
            writer,
            errors,
        ),
        Err(fault) => refuse(alloc, issuer, Reason::Fault(fault), errors),
    }
}

/// Does what options and names ask for.
fn do_asked<R: Source, F: Source + Drop, O: Opener<F>, W: Sink, E: Console>(
    alloc: Global,
    options: &[&str],
    names: &[&str],
    opener: &O,
    reader: &mut R,
    writer: &mut W,
    errors: &mut E,
) -> u8
    ensures { IsObeyed (world_of R.gives (O.opens opener.now) (O.lists opener.now) (O.stands opener.now) F.gives W.takes E.takes E.counts)
        (map (λ option. option.now) options.now) (map (λ name. name.now) names.now)
        (streams reader.old writer.old errors.old) (streams reader.new writer.new errors.new) result }
{
    match beside_of(options, names) {
        Some((issuer, name)) => show_beside(alloc, issuer, name, opener, reader, writer, errors),
        None => obey::<Show, R, F, O, W, E>(alloc, options, names, opener, reader, writer, errors),
    }
}

/// Does what the words ask for: shows inputs, or what the SCTs of a certificate are signatures of; or says how the program is called, what it does, or
/// its version.
pub(crate) fn show<R: Source, F: Source + Drop, O: Opener<F>, W: Sink, E: Console>(
    alloc: Global,
    words: &[String],
    opener: &O,
    reader: &mut R,
    writer: &mut W,
    errors: &mut E,
) -> u8
    ensures { IsObeyed (world_of R.gives (O.opens opener.now) (O.lists opener.now) (O.stands opener.now) F.gives W.takes E.takes E.counts)
        (options_of (map string_bytes words.now)) (names_of (map string_bytes words.now))
        (streams reader.old writer.old errors.old) (streams reader.new writer.new errors.new) result
        ⊎ IsUnkept program E.takes (streams reader.old writer.old errors.old) (streams reader.new writer.new errors.new) result }
{
    match split(alloc, words) {
        Ok(words) => do_asked::<R, F, O, W, E>(
            alloc,
            words.options.as_slice(),
            words.names.as_slice(),
            opener,
            reader,
            writer,
            errors,
        ),
        Err(AllocError) => refuse_memory::<Show, E>(errors),
    }
}
