//! Reading the input of a name.

ghost use Rattle.std.specs.Prelude.{◌≡◌, Ok, Err, MatchResult};
ghost use Rattle.x509_object_run.specs.Labels.{is_standard};
ghost use Rattle.x509_object_run.specs.Object.{fault_of};
ghost use Rattle.x509_object_run.specs.Program.{IsFileRead, IsNamedRead, IsSourceRead};

use crate::fault::{Fault, OpenError};
use crate::files::Opener;
use crate::input::object_bytes;
use crate::label::is_standard;
use std::alloc::{AllocError, Global};
use x509_der::ErrorKind;
use x509_tool_run::{Refusal, Source, read_input};

/// Why an input isn't read.
fn fault_of(refusal: Refusal) -> Fault
    ensures { result ≡ fault_of refusal }
{
    match refusal {
        Refusal::Read => Fault::Unreadable,
        Refusal::Because(ErrorKind::Overlength) => Fault::TooLong,
        Refusal::Because(_) => Fault::Memory,
    }
}

/// Reads an input, and answers the bytes that it is of.
fn read_source<R: Source>(alloc: Global, reader: &mut R) -> Result<Vec<u8>, Fault>
    ensures { MatchResult result
        (λ bytes. IsSourceRead R.gives reader.old reader.new (Ok bytes.items))
        (λ fault. IsSourceRead R.gives reader.old reader.new (Err fault)) }
{
    match read_input(alloc, reader) {
        Ok(input) => match object_bytes(alloc, input) {
            Ok(bytes) => Ok(bytes),
            Err(AllocError) => Err(Fault::Memory),
        },
        Err(refusal) => Err(fault_of(refusal)),
    }
}

/// Reads the file that was opened, and answers the bytes that it is of.
fn read_file<F: Source + Drop>(
    alloc: Global,
    opened: Result<F, OpenError>,
) -> Result<Vec<u8>, Fault>
    ensures { MatchResult result (λ bytes. IsFileRead F.gives opened (Ok bytes.items)) (λ fault. IsFileRead F.gives opened (Err fault)) }
{
    match opened {
        Ok(mut file) => read_source(alloc, &mut file),
        Err(e) => Err(Fault::Unopened(e)),
    }
}

/// Reads the input of a name, which is standard input or a file, and answers the bytes that it is of.
///
/// # Errors
///
/// A [`Fault`] that says why it isn't read whole.
pub fn read_named<R: Source, F: Source + Drop, O: Opener<F>>(
    alloc: Global,
    name: &str,
    opener: &O,
    reader: &mut R,
) -> Result<Vec<u8>, Fault>
    ensures { MatchResult result
        (λ bytes. IsNamedRead R.gives (O.opens opener.now) F.gives (is_standard name.now) name.now reader.old reader.new (Ok bytes.items))
        (λ fault. IsNamedRead R.gives (O.opens opener.now) F.gives (is_standard name.now) name.now reader.old reader.new (Err fault)) }
{
    if is_standard(name) {
        return read_source(alloc, reader);
    }
    read_file(alloc, opener.open(name))
}
