//! BOOLEAN, INTEGER, BIT STRING, OCTET STRING, OBJECT IDENTIFIER and elements that aren't decoded further.

ghost use Rattle.std.specs.Prelude.{◌≡◌};
ghost use Rattle.x509_prim.specs.BitString.{is_padded, parts_of};
ghost use Rattle.x509_prim.specs.Integer.{is_integer, is_unsigned};

use crate::check::Check;
use crate::content::{CheckContent, PlainContent};
use x509_der::{Any, Error, ErrorKind, ObjectIdentifier, check_identifier};
use x509_prim::{BitString, Int, OctetString, Uint};

#[tactic(auto, unfolding(x509_der::specs::Boolean::boolean_reading))]
impl PlainContent for bool {
    fn plain_value(octets: &[u8]) -> Result<bool, Error> {
        match octets {
            [0x00] => Ok(false),
            [0xFF] => Ok(true),
            _ => Err(ErrorKind::Malformed.into()),
        }
    }
}

impl CheckContent for bool {
    fn check_content(octets: &[u8]) -> Result<(), Error> {
        bool::plain_value(octets)?;
        Ok(())
    }
}

/// Whether the octets are the content of an integer: as few as there can be (X.690 8.3.2).
#[tactic(auto, unfolding(x509_prim::specs::Integer::is_integer))]
pub(crate) fn check_integer(octets: &[u8]) -> bool
    ensures { result ≡ is_integer octets.now }
{
    match octets {
        [] => false,
        [_] => true,
        [first, second, ..] => {
            !(*first == 0x00 && *second < 0x80) && !(*first == 0xFF && *second >= 0x80)
        }
    }
}

#[tactic(auto, unfolding(x509_der::specs::Tested::tested_reading))]
impl CheckContent for Int {
    fn check_content(octets: &[u8]) -> Result<(), Error> {
        if !check_integer(octets) {
            return Err(ErrorKind::Malformed.into());
        }
        Ok(())
    }
}

/// Whether the octets are the content of an integer that is not negative: bit 8 of the first is 0 (X.690 8.3.3).
#[tactic(auto, unfolding(x509_prim::specs::Integer::is_unsigned))]
fn check_unsigned(octets: &[u8]) -> bool
    ensures { result ≡ is_unsigned octets.now }
{
    check_integer(octets) && !matches!(octets, [first, ..] if *first >= 0x80)
}

#[tactic(auto, unfolding(x509_der::specs::Tested::tested_reading))]
impl CheckContent for Uint {
    fn check_content(octets: &[u8]) -> Result<(), Error> {
        if !check_unsigned(octets) {
            return Err(ErrorKind::Malformed.into());
        }
        Ok(())
    }
}

/// Whether at most seven bits are unused, and all of them are zero bits of the last octet (X.690 8.6.2, 11.2).
#[tactic(auto, unfolding(x509_prim::specs::BitString::is_padded))]
fn check_padding(unused: u8, octets: &[u8]) -> bool
    ensures { result ≡ is_padded (parts_of unused octets.now) }
{
    match octets {
        _ if unused == 0 => true,
        [.., last] => unused < 8 && *last % (1 << unused) == 0,
        [] => false,
    }
}

#[tactic(auto, unfolding(x509_prim::specs::BitString::bit_string_reading))]
impl CheckContent for BitString {
    fn check_content(octets: &[u8]) -> Result<(), Error> {
        let [unused, octets @ ..] = octets else {
            return Err(ErrorKind::Malformed.into());
        };
        if !check_padding(*unused, octets) {
            return Err(ErrorKind::Malformed.into());
        }
        Ok(())
    }
}

/// Any octets are the content of an OCTET STRING (X.690 8.7).
impl CheckContent for OctetString {
    fn check_content(_octets: &[u8]) -> Result<(), Error> {
        Ok(())
    }
}

#[tactic(auto, unfolding(x509_der::specs::ObjectIdentifierForm::object_identifier_reading))]
impl PlainContent for ObjectIdentifier {
    #[inline(always)]
    fn plain_value(octets: &[u8]) -> Result<ObjectIdentifier, Error> {
        ObjectIdentifier::from_bytes(octets)
    }
}

impl CheckContent for ObjectIdentifier {
    fn check_content(octets: &[u8]) -> Result<(), Error> {
        ObjectIdentifier::plain_value(octets)?;
        Ok(())
    }
}

#[tactic(auto, unfolding(x509_der::specs::Any::any_reading))]
impl Check for Any {
    fn check_element(tag: u8, _content: &[u8]) -> Result<(), Error> {
        if !check_identifier(tag) {
            return Err(ErrorKind::Malformed.into());
        }
        Ok(())
    }
}
