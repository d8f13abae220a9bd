//! Fields of a sequence, as plain values or as what is lent of their octets. Each call takes its field from the front of
//! `rest`, and where there is one leaves what follows it.

ghost use Rattle.std.specs.Prelude.{◌≤◌, length};
ghost use Rattle.x509_base.specs.Serial.{serial_number};
ghost use Rattle.x509_base.specs.Time.{time};
ghost use Rattle.x509_check.specs.Lending.{LendsBefore};
ghost use Rattle.x509_der.specs.Frames.{defaulted, optional, required};
ghost use Rattle.x509_der.specs.Outcome.{Answers};
ghost use Rattle.x509_prim.specs.OctetString.{octet_string};

use crate::content::PlainContent;
use crate::element::next_element;
use crate::field::plain_element;
use crate::primitive::check_integer;
use x509_base::{GeneralizedTime, Profile, Time, UtcTime};
use x509_der::{DefaultValue, Error, ErrorKind, Grammar, Tag};

/// x: a field of plain data.
///
/// # Errors
///
/// `Malformed`, or an error of the type's own, exactly where no such field stands at the front.
#[tactic(auto, unfolding(x509_der::specs::Frames::field_at))]
#[inline(always)]
pub(crate) fn take_plain<T: PlainContent>(rest: &mut &[u8]) -> Result<T, Error>
    ensures exact { LendsBefore (λ x. x) result rest.new.now ((required ⟦<T as Grammar>⟧.form).reading rest.old.now) }
    ensures left { length rest.new.now ≤ length rest.old.now }
{
    let piece = next_element(*rest, T::IDENTIFIER)?;
    *rest = piece.rest;
    plain_element::<T>(piece.tag, piece.content)
}

/// x?: a field of plain data that may be absent; it is there where the next identifier octet may begin one (X.690 8.9.3).
///
/// # Errors
///
/// As [`take_plain`], where it is there.
#[tactic(auto, unfolding(x509_der::specs::Frames::optional_at))]
#[inline(always)]
pub(crate) fn take_optional_plain<T: PlainContent>(rest: &mut &[u8]) -> Result<Option<T>, Error>
    ensures exact { LendsBefore (λ x. x) result rest.new.now ((optional ⟦<T as Grammar>⟧.form).reading rest.old.now) }
    ensures left { length rest.new.now ≤ length rest.old.now }
{
    match *rest {
        [octet, ..] if T::is_start(*octet) => {
            let value = take_plain::<T>(rest)?;
            Ok(Some(value))
        }
        _ => Ok(None),
    }
}

/// x=d: a field of plain data that is absent exactly where it has its default (X.690 11.5).
///
/// # Errors
///
/// As [`take_plain`], where it is there; `Malformed` too where it is there with its default.
#[tactic(auto, unfolding(x509_der::specs::Frames::default_at, x509_der::specs::Frames::optional_at))]
#[inline(always)]
pub(crate) fn take_defaulted<T: PlainContent + DefaultValue>(rest: &mut &[u8]) -> Result<T, Error>
    ensures { LendsBefore (λ x. x) result rest.new.now ((defaulted T.default ⟦<T as Grammar>⟧.form).reading rest.old.now) }
{
    match *rest {
        [octet, ..] if T::is_start(*octet) => {
            let value = take_plain::<T>(rest)?;
            if value.is_default() {
                return Err(ErrorKind::Malformed.into());
            }
            Ok(value)
        }
        _ => Ok(T::default_value()),
    }
}

/// The octets that an OCTET STRING holds (X.690 8.7).
///
/// # Errors
///
/// `Malformed` exactly where none stands at the front.
#[tactic(auto, unfolding(x509_der::specs::Frames::field_at))]
#[inline(always)]
pub(crate) fn take_octets<'a>(rest: &mut &'a [u8]) -> Result<&'a [u8], Error>
    ensures { LendsBefore (λ x. x.now) result rest.new.now ((required octet_string).reading rest.old.now) }
{
    let piece = next_element(*rest, Tag::OctetString)?;
    if piece.tag != Tag::OctetString.octet() {
        return Err(ErrorKind::Malformed.into());
    }
    *rest = piece.rest;
    Ok(piece.content)
}

/// A serial number, as its content octets, which the profile allows.
///
/// # Errors
///
/// `Malformed`, or an error of the profile, exactly where none stands at the front.
#[tactic(auto, unfolding(x509_der::specs::Frames::field_at, x509_base::specs::Checked::checked_reading, x509_der::specs::Tested::tested_reading))]
#[inline(always)]
pub(crate) fn take_serial<'a, P: Profile>(rest: &mut &'a [u8]) -> Result<&'a [u8], Error>
    ensures exact { LendsBefore (λ x. x.now) result rest.new.now ((required (serial_number P.serial_check)).reading rest.old.now) }
    ensures left { length rest.new.now ≤ length rest.old.now }
{
    let piece = next_element(*rest, Tag::Integer)?;
    if piece.tag != Tag::Integer.octet() || !check_integer(piece.content) {
        return Err(ErrorKind::Malformed.into());
    }
    P::check_serial_number(piece.content)?;
    *rest = piece.rest;
    Ok(piece.content)
}

/// The time of an element with this identifier octet and this content.
#[tactic(auto, unfolding(x509_der::specs::Choice::either_reading))]
#[inline(always)]
pub(crate) fn plain_time(tag: u8, content: &[u8]) -> Result<Time, Error>
    ensures { Answers result (time.reading tag content.now) }
{
    if UtcTime::is_start(tag) {
        let time = plain_element::<UtcTime>(tag, content)?;
        Ok(Time::UtcTime(time))
    } else {
        let time = plain_element::<GeneralizedTime>(tag, content)?;
        Ok(Time::GeneralTime(time))
    }
}

/// A time (RFC 5280 4.1.2.5).
///
/// # Errors
///
/// `Malformed` exactly where none stands at the front.
#[tactic(auto, unfolding(x509_der::specs::Frames::field_at))]
#[inline(always)]
pub(crate) fn take_time(rest: &mut &[u8]) -> Result<Time, Error>
    ensures exact { LendsBefore (λ x. x) result rest.new.now ((required time).reading rest.old.now) }
    ensures left { length rest.new.now ≤ length rest.old.now }
{
    let piece = next_element(*rest, Tag::UtcTime)?;
    *rest = piece.rest;
    plain_time(piece.tag, piece.content)
}

/// A time that may be absent.
///
/// # Errors
///
/// `Malformed` exactly where one begins at the front and none stands there.
#[tactic(auto, unfolding(x509_der::specs::Frames::optional_at))]
#[inline(always)]
pub(crate) fn take_optional_time(rest: &mut &[u8]) -> Result<Option<Time>, Error>
    ensures exact { LendsBefore (λ x. x) result rest.new.now ((optional time).reading rest.old.now) }
    ensures left { length rest.new.now ≤ length rest.old.now }
{
    match *rest {
        [octet, ..] if Time::is_start(*octet) => {
            let time = take_time(rest)?;
            Ok(Some(time))
        }
        _ => Ok(None),
    }
}
