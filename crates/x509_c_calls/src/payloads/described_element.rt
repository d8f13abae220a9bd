//! Elements that are encoded of their identifier octet and their content.

ghost use Rattle.std.specs.Prelude.{◌≡◌, ◌+◌, ◌<◌, ◌≤◌, ◌++◌, IfErr, IfOk, MatchOption, None, false, length, min, take, true};
ghost use Rattle.x509_c_calls.specs.DescribedElements.{EncodesElement};
ghost use Rattle.x509_c_calls.specs.Status.{Fills};
ghost use Rattle.x509_c_calls.specs.declared.status.status.Status.TheVariants.{Refused};
ghost use Rattle.x509_der.specs.Element.{element, is_identifier, limit};
ghost use Rattle.x509_der.specs.Writing.{Puts};
ghost use Rattle.x509_der.specs.declared.error.ErrorKind.TheVariants.{Memory, Overlength};

use crate::Status;
use x509_der::{Counting, Error, ErrorKind, Fixed, Room, check_identifier, put_header};

/// The identifier octet that the number is; `None` where no element begins with it.
#[tactic(auto, using(crate::proofs::DescribedElements::begins_none))]
fn identifier_of(number: u32) -> Option<u8>
    ensures { MatchOption result (is_identifier number ≡ false) (λ octet. (octet ≡ number) × (is_identifier number ≡ true)) }
{
    if number > 255 || !check_identifier(number as u8) {
        return None;
    }
    Some(number as u8)
}

/// Puts the element in front of the bytes that stand in the room. Its content stands before its header is put.
#[inline(always)]
fn put_element<R: Room>(identifier: u8, content: &[u8], room: &mut R) -> Result<(), Error>
    ensures { Puts R.kind (element identifier content.now) None result room.old room.new }
{
    let before = room.len();
    room.put(content)?;
    let len = room.len() - before;
    put_header(identifier, len as u32, room)
}

/// How many octets the element has; `Overlength` where it is too long.
fn element_len(identifier: u8, content: &[u8]) -> Result<usize, Error>
    ensures ok { IfOk result (λ len. (len ≡ length (element identifier content.now)) × (len ≤ limit)) }
    ensures err { IfErr result (λ e. (e.kind ≡ Overlength) × (limit < length (element identifier content.now))) }
{
    let mut room = Counting::new();
    put_element(identifier, content, &mut room)?;
    Ok(room.count().as_u32() as usize)
}

/// Writes the element at the end of the buffer `room`, and answers how many bytes of the buffer come before it.
fn element_into(identifier: u8, content: &[u8], room: &mut [u8]) -> Result<usize, Error>
    ensures bytes { IfOk result (λ before. room.new ≡ take before room.old ++ element identifier content.now) }
    ensures before { IfOk result (λ before. before + length (element identifier content.now) ≡ length room.old) }
    ensures within { IfOk result (λ before. length (element identifier content.now) ≤ limit) }
    ensures err { IfErr result (λ e. min (length room.old) limit < length (element identifier content.now)) }
{
    let mut fixed = Fixed::new(room);
    put_element(identifier, content, &mut fixed)?;
    Ok(fixed.start())
}

/// Puts the element with this identifier octet and these content octets (X.690 8.1.2.2, 8.1.3) at the front of the buffer
/// `room`. Whether a value of the type has such content isn't looked at. It takes no memory.
///
/// # Errors
///
/// [`Status::NoRoom`] where the buffer is too small; then `written` is the needed length. `Value` exactly where no element
/// begins with the identifier octet, as [`check_identifier`] says. `Overlength` where the element is too long.
#[tactic(auto, unfolding(crate::specs::Status::Fills))]
pub fn element_encode(
    identifier: u32,
    content: &[u8],
    room: &mut [u8],
    written: &mut usize,
) -> Status
    ensures filled { Fills (EncodesElement identifier content.now) room.old room.new written.old written.new result }
    ensures memory { result ≡ Refused Memory → ⊥ }
{
    let Some(identifier) = identifier_of(identifier) else {
        return Status::Refused(ErrorKind::Value);
    };
    match element_into(identifier, content, &mut *room) {
        Ok(before) => {
            *written = room.len() - before;
            room.copy_within(before.., 0);
            Status::Done
        }
        Err(_) => match element_len(identifier, content) {
            Ok(len) => {
                *written = len;
                Status::NoRoom
            }
            Err(e) => e.into(),
        },
    }
}
