//! SET OF (X.690 8.12, 11.6).

ghost use Rattle.std.specs.Ordering.{is_lt};
ghost use Rattle.std.specs.Prelude.{◌≡◌, ◌≤◌, ◌&&◌, length, Ok, Err, MatchResult};
ghost use Rattle.x509_check.specs.Checking.{checked};
ghost use Rattle.x509_der.specs.Set.{set_reading};
ghost use Rattle.x509_der.specs.Element.{limit};
ghost use Rattle.x509_der.specs.Outcome.{Answers};
ghost use Rattle.x509_der.specs.Frames.{required};
ghost use Rattle.x509_der.specs.Form.{spelling};
ghost use Rattle.x509_der.specs.Writing.{writes};
ghost use Rattle.x509_der.specs.Order.{bytes_cmp, der_order};

use crate::check::Check;
use crate::content::CheckContent;
use crate::field::check_field;
use x509_der::{Decode, Error, ErrorKind, SetMember, SetOfVec};

/// A type whose values sets may have as members, and are encoded as they are: the order of their encodings is told from
/// the bytes.
pub trait CheckMember: Check + Decode + SetMember {
    ghost use Rattle.std.specs.Prelude.{◌≡◌};
    ghost use Rattle.x509_der.specs.Writing.{plain};

    ghost as_it_is: { Self.writing ≡ plain };
}

/// Checks the element at the front, and lends its octets.
fn take_member<'a, T: Check>(rest: &mut &'a [u8]) -> Result<&'a [u8], Error>
    requires { length rest.old.now ≤ limit }
    ensures taken { MatchResult result
        (λ member. (value : T) × ((required T.form).reading rest.old.now ≡ Ok (value, rest.new.now)) × (member.now ≡ spelling T.form value))
        (λ e. (required T.form).reading rest.old.now ≡ Err e.kind) }
    ensures left { length rest.new.now ≤ length rest.old.now }
{
    let before = *rest;
    check_field::<T>(rest)?;
    Ok(&before[..before.len() - rest.len()])
}

/// Whether it still rises with this member behind the last one.
fn rises_on(rises: bool, last: &[u8], member: &[u8]) -> bool
    ensures { result ≡ (rises && is_lt (bytes_cmp last.now member.now)) }
{
    rises && last.cmp(member).is_lt()
}

/// Checks that the bytes, of which there are at most [`Length::MAX`](x509_der::Length::MAX), are the elements of the
/// members of a set, each below the next in the order of bytes (X.690 11.6).
///
/// # Errors
///
/// `Malformed`, or an error of the type's own, exactly where they are no such elements.
pub fn check_rising_members<T: CheckMember>(bytes: &[u8]) -> Result<(), Error>
    requires { length bytes.now ≤ limit }
    ensures { Answers result (checked (set_reading (der_order T.form (writes T.writing) T.order) T.form.reading bytes.now)) }
{
    let mut rest = bytes;
    let mut last: &[u8] = &[];
    let mut rises = true;
    while !rest.is_empty() {
        let member = take_member::<T>(&mut rest)?;
        rises = rises_on(rises, last, member);
        last = member;
    }
    if !rises {
        return Err(ErrorKind::Malformed.into());
    }
    Ok(())
}

impl<T: CheckMember + Drop> CheckContent for SetOfVec<T> {
    #[inline(always)]
    fn check_content(octets: &[u8]) -> Result<(), Error> {
        check_rising_members::<T>(octets)
    }
}
