//! SEQUENCE OF (X.690 8.10).

ghost use Rattle.std.specs.Prelude.{◌≤◌, length};
ghost use Rattle.x509_check.specs.Checking.{checked};
ghost use Rattle.x509_der.specs.Element.{limit};
ghost use Rattle.x509_der.specs.Outcome.{Answers};
ghost use Rattle.x509_der.specs.List.{list_reading};

use crate::check::Check;
use crate::content::CheckContent;
use crate::field::check_field;
use x509_der::{Decode, Encode, Error, SequenceOf};

/// Checks that the bytes, of which there are at most [`Length::MAX`](x509_der::Length::MAX), are the elements of values,
/// one after the other.
///
/// # Errors
///
/// `Malformed`, or an error of the type's own, exactly where they are no such elements.
pub fn check_members<T: Check>(bytes: &[u8]) -> Result<(), Error>
    requires { length bytes.now ≤ limit }
    ensures { Answers result (checked (list_reading T.form.reading bytes.now)) }
{
    let mut rest = bytes;
    while !rest.is_empty() {
        check_field::<T>(&mut rest)?;
    }
    Ok(())
}

impl<T: Check + Decode + Encode + Drop> CheckContent for SequenceOf<T> {
    #[inline(always)]
    fn check_content(octets: &[u8]) -> Result<(), Error> {
        check_members::<T>(octets)
    }
}
