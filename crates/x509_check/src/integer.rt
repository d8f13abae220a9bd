//! INTEGER fields of the number types (X.690 8.3): each takes the numbers of its own range.

use crate::content::{CheckContent, PlainContent};
use x509_der::{Error, ErrorKind, read_natural};

#[tactic(auto, unfolding(x509_der::specs::Natural::natural_reading))]
impl PlainContent for u8 {
    fn plain_value(octets: &[u8]) -> Result<u8, Error> {
        match u8::try_from(read_natural(octets)?) {
            Ok(number) => Ok(number),
            Err(_) => Err(ErrorKind::Malformed.into()),
        }
    }
}

impl CheckContent for u8 {
    fn check_content(octets: &[u8]) -> Result<(), Error> {
        u8::plain_value(octets)?;
        Ok(())
    }
}

#[tactic(auto, unfolding(x509_der::specs::Natural::natural_reading))]
impl PlainContent for u16 {
    fn plain_value(octets: &[u8]) -> Result<u16, Error> {
        match u16::try_from(read_natural(octets)?) {
            Ok(number) => Ok(number),
            Err(_) => Err(ErrorKind::Malformed.into()),
        }
    }
}

impl CheckContent for u16 {
    fn check_content(octets: &[u8]) -> Result<(), Error> {
        u16::plain_value(octets)?;
        Ok(())
    }
}

#[tactic(auto, unfolding(x509_der::specs::Natural::natural_reading))]
impl PlainContent for u32 {
    fn plain_value(octets: &[u8]) -> Result<u32, Error> {
        match u32::try_from(read_natural(octets)?) {
            Ok(number) => Ok(number),
            Err(_) => Err(ErrorKind::Malformed.into()),
        }
    }
}

impl CheckContent for u32 {
    fn check_content(octets: &[u8]) -> Result<(), Error> {
        u32::plain_value(octets)?;
        Ok(())
    }
}

#[tactic(auto, unfolding(x509_der::specs::Natural::natural_reading))]
impl PlainContent for u64 {
    fn plain_value(octets: &[u8]) -> Result<u64, Error> {
        match u64::try_from(read_natural(octets)?) {
            Ok(number) => Ok(number),
            Err(_) => Err(ErrorKind::Malformed.into()),
        }
    }
}

impl CheckContent for u64 {
    fn check_content(octets: &[u8]) -> Result<(), Error> {
        u64::plain_value(octets)?;
        Ok(())
    }
}

impl PlainContent for u128 {
    fn plain_value(octets: &[u8]) -> Result<u128, Error> {
        read_natural(octets)
    }
}

impl CheckContent for u128 {
    fn check_content(octets: &[u8]) -> Result<(), Error> {
        u128::plain_value(octets)?;
        Ok(())
    }
}
