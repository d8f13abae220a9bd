//! The types of the library, each with its check beside its decoder.

ghost use Rattle.std.specs.Prelude.{◌≡◌};

use crate::checks::check_named;
use std::alloc::Global;
use x509_all_types::Types;
use x509_base::{Raw, Rfc5280};
use x509_codec::{Codec, ProfileName};
use x509_der::{Error, ErrorKind};

/// The types of the library, of whose bytes the check is asked too. Where that says otherwise than the decoder, the answer is `Memory`, which no row has.
pub(crate) struct Checked;

/// What the check of the type with that name says of the bytes.
fn check(name: &str, profile: ProfileName, bytes: &[u8]) -> Result<(), Error> {
    match profile {
        ProfileName::Rfc5280 => check_named::<Rfc5280>(name, bytes),
        ProfileName::Raw => check_named::<Raw>(name, bytes),
    }
}

/// Whether the check accepts what was decoded, and refuses for the same reason.
fn is_same(checked: &Result<(), Error>, answer: &Result<Vec<u8>, Error>) -> bool {
    match (checked, answer) {
        (Ok(()), Ok(_)) => true,
        (Err(one), Err(other)) => one.kind() == other.kind(),
        _ => false,
    }
}

impl Codec for Checked {
    ghost reencodes = { ⟦<Types as Codec>⟧.reencodes };

    fn reencode(
        alloc: Global,
        name: &str,
        profile: ProfileName,
        bytes: &[u8],
    ) -> Result<Vec<u8>, Error> {
        let answer = Types::reencode(alloc, name, profile, bytes);
        let checked = check(name, profile, bytes);
        if is_same(&checked, &answer) {
            return answer;
        }
        Err(ErrorKind::Memory.into())
    }
}
