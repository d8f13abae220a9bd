//! Lengths of elements and contents.

ghost use Rattle.std.specs.Prelude.{◌≡◌, ◌+◌, ◌≤◌, ◌<◌, IfOk, IfErr};
ghost use Rattle.x509_der.specs.declared.error.ErrorKind.TheVariants as errors;
ghost use Rattle.x509_der.specs.Element.{limit};

use crate::error::{Error, ErrorKind};

/// A length in octets of at most [`Length::MAX`] (X.690 8.1.3).
#[derive(Clone, Copy, Debug, PartialEq, Eq, PartialOrd, Ord, Hash)]
pub struct Length {
    octets: u32,
    ghost within: { octets ≤ 268435455 },
}

impl Length {
    /// No octets.
    pub const ZERO: Length = Length { octets: 0 };

    /// The longest element, 268,435,455 octets. A longer one is refused as `Overlength`.
    pub const MAX: Length = Length {
        octets: 268_435_455,
    };

    /// The length of that many octets.
    ///
    /// # Errors
    ///
    /// `Overlength` exactly where they are more than [`Length::MAX`].
    pub fn new(octets: u32) -> Result<Length, Error>
        ensures ok { IfOk result (λ length. (length.octets ≡ octets) × (octets ≤ limit)) }
        ensures err { IfErr result (λ e. (e.kind ≡ errors.Overlength) × (limit < octets)) }
    {
        if octets > Length::MAX.octets {
            return Err(ErrorKind::Overlength.into());
        }
        Ok(Length { octets })
    }

    /// The length of so many octets more; `Overlength` exactly where they are more than [`Length::MAX`].
    #[inline(always)]
    pub(crate) fn plus(self, more: usize) -> Result<Length, Error>
        ensures ok { IfOk result (λ length. (length.octets ≡ self.octets + more) × (self.octets + more ≤ limit)) }
        ensures err { IfErr result (λ e. (e.kind ≡ errors.Overlength) × (limit < self.octets + more)) }
    {
        if more > (Length::MAX.octets - self.octets) as usize {
            return Err(ErrorKind::Overlength.into());
        }
        Ok(Length {
            octets: self.octets + more as u32,
        })
    }

    /// How many octets they are.
    pub fn as_u32(self) -> u32
        ensures octets { result ≡ self.octets }
        ensures within { result ≤ limit }
    {
        self.octets
    }
}
