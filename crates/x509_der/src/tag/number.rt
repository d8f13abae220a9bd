//! Tag numbers outside the universal class.

ghost use Rattle.std.specs.Prelude.{◌≡◌, ◌≤◌, ◌<◌, ◌%◌, IfOk, IfErr};
ghost use Rattle.x509_der.specs.declared.error.ErrorKind.TheVariants as errors;

use crate::error::{Error, ErrorKind};

/// The tag number of an identifier outside the universal class, from 0 to 30 (X.690 8.1.2.2).
#[derive(Clone, Copy, Debug, PartialEq, Eq, PartialOrd, Ord, Hash)]
pub struct TagNumber {
    number: u8,
    ghost low: { number ≤ 30 },
}

impl TagNumber {
    /// The tag number.
    ///
    /// # Errors
    ///
    /// `Value` exactly above 30.
    pub fn new(number: u8) -> Result<TagNumber, Error>
        ensures ok { IfOk result (λ tag. (tag.number ≡ number) × (number ≤ 30)) }
        ensures err { IfErr result (λ e. (e.kind ≡ errors.Value) × (30 < number)) }
    {
        if number > 30 {
            return Err(ErrorKind::Value.into());
        }
        Ok(TagNumber { number })
    }

    /// The number itself.
    pub fn value(self) -> u8
        ensures number { result ≡ self.number }
        ensures low { result ≤ 30 }
    {
        self.number
    }

    /// The number in an identifier octet: its low five bits.
    pub(crate) fn of_octet(octet: u8) -> TagNumber
        requires { octet % 32 ≤ 30 }
        ensures { result.number ≡ octet % 32 }
    {
        TagNumber { number: octet % 32 }
    }
}
