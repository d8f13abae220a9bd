//! Times and validity.

use crate::check::Check;
use crate::content::{CheckContent, PlainContent};
use crate::field::check_field;
use crate::lent::fields::take_time;
use x509_base::{GeneralizedTime, Profile, Time, UtcTime, Validity};
use x509_der::{Error, Grammar, end};

impl PlainContent for UtcTime {
    #[inline(always)]
    fn plain_value(octets: &[u8]) -> Result<UtcTime, Error> {
        UtcTime::from_content(octets)
    }
}

impl CheckContent for UtcTime {
    fn check_content(octets: &[u8]) -> Result<(), Error> {
        UtcTime::plain_value(octets)?;
        Ok(())
    }
}

impl PlainContent for GeneralizedTime {
    #[inline(always)]
    fn plain_value(octets: &[u8]) -> Result<GeneralizedTime, Error> {
        GeneralizedTime::from_content(octets)
    }
}

impl CheckContent for GeneralizedTime {
    fn check_content(octets: &[u8]) -> Result<(), Error> {
        GeneralizedTime::plain_value(octets)?;
        Ok(())
    }
}

#[tactic(auto, unfolding(x509_der::specs::Choice::either_reading))]
impl Check for Time {
    fn check_element(tag: u8, content: &[u8]) -> Result<(), Error> {
        if UtcTime::is_start(tag) {
            UtcTime::pass_element(tag, content)
        } else {
            GeneralizedTime::pass_element(tag, content)
        }
    }
}

#[tactic(auto, unfolding(x509_base::specs::Validity::validity_fields, x509_der::specs::Frames::fields_reading))]
impl<P: Profile> CheckContent for Validity<P> {
    fn check_content(octets: &[u8]) -> Result<(), Error> {
        let mut rest = octets;
        check_field::<Time>(&mut rest)?;
        check_field::<Time>(&mut rest)?;
        end(rest)
    }
}

#[tactic(auto, unfolding(x509_base::specs::Validity::validity_fields, x509_der::specs::Frames::fields_reading))]
impl<P: Profile> PlainContent for Validity<P> {
    #[inline(always)]
    fn plain_value(octets: &[u8]) -> Result<Validity<P>, Error> {
        let mut rest = octets;
        let not_before = take_time(&mut rest)?;
        let not_after = take_time(&mut rest)?;
        end(rest)?;
        Ok(Validity::new(not_before, not_after))
    }
}
