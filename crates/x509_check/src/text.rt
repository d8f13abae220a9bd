//! Texts.

ghost use Rattle.std.specs.Prelude.{◌≡◌};
ghost use Rattle.x509_prim.specs.Bmp.{is_bmp, is_bmp_char};

use crate::content::CheckContent;
use x509_der::{Error, ErrorKind};
use x509_prim::{Alphabet, BmpString, RestrictedString, Utf8String, text_of, utf8_text};

#[tactic(auto, unfolding(x509_der::specs::Tested::tested_reading))]
impl CheckContent for Utf8String {
    fn check_content(octets: &[u8]) -> Result<(), Error> {
        if utf8_text(octets).is_none() {
            return Err(ErrorKind::Malformed.into());
        }
        Ok(())
    }
}

#[tactic(auto, unfolding(x509_der::specs::Tested::tested_reading))]
impl<A: Alphabet> CheckContent for RestrictedString<A> {
    fn check_content(octets: &[u8]) -> Result<(), Error> {
        if text_of::<A>(octets).is_none() {
            return Err(ErrorKind::Malformed.into());
        }
        Ok(())
    }
}

/// Whether the code is a character of the basic multilingual plane.
#[tactic(auto, unfolding(x509_prim::specs::Bmp::is_bmp_char))]
fn check_char(code: u32) -> bool
    ensures { result ≡ is_bmp_char code }
{
    matches!(code, 0..=0xD7FF | 0xE000..=0xFFFF)
}

/// Whether the octets are those of characters of the plane, two for each (X.690 8.23.8).
fn check_octets(octets: &[u8]) -> bool
    ensures { result ≡ is_bmp octets.now }
{
    let mut rest = octets;
    while let [high, low, after @ ..] = rest {
        if !check_char(256 * *high as u32 + *low as u32) {
            return false;
        }
        rest = after;
    }
    rest.is_empty()
}

#[tactic(auto, unfolding(x509_der::specs::Tested::tested_reading))]
impl CheckContent for BmpString {
    fn check_content(octets: &[u8]) -> Result<(), Error> {
        if !check_octets(octets) {
            return Err(ErrorKind::Malformed.into());
        }
        Ok(())
    }
}
