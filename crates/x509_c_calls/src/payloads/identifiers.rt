//! OIDs: the purposes of an ExtendedKeyUsage one after the other, and OIDs as texts.

ghost use Rattle.std.specs.Prelude.{◌≡◌, List, ℕ};
ghost use Rattle.x509_c_calls.specs.Cursor.{Steps};
ghost use Rattle.x509_c_calls.specs.Identifiers.{IsDotted, IsIdentified};
ghost use Rattle.x509_c_calls.specs.Place.{IsAt};
ghost use Rattle.x509_c_calls.specs.Status.{Fills};
ghost use Rattle.x509_c_calls.specs.declared.status.status.Status.TheVariants.{Refused};
ghost use Rattle.x509_der.specs.Arcs.{AreArcs, content_of};
ghost use Rattle.x509_der.specs.declared.error.ErrorKind.TheVariants.{Memory};

use crate::payloads::cursor::next;
use crate::payloads::walk::content_at;
use crate::{Span, Status, fill};
use std::alloc::Global;
use x509_der::{Decode, ErrorKind, Grammar, ObjectIdentifier, Tag};

/// Fills in where the content octets stand of the next OID of a list of OIDs, which the bytes are, such as an
/// ExtendedKeyUsage (RFC 5280 4.2.1.12), and moves the place behind it. It takes no memory.
///
/// # Errors
///
/// [`Status::Absent`] at the end of the list. Else those of [`next`]. `at` and `found` are unchanged then.
#[tactic(auto, unfolding(crate::specs::Cursor::Steps))]
pub fn identifiers_next(alloc: Global, input: &[u8], at: &mut usize, found: &mut Span) -> Status
    ensures { Steps ⟦<ObjectIdentifier as Grammar>⟧.form ⟦<ObjectIdentifier as Grammar>⟧.refuses ⟦<ObjectIdentifier as Decode>⟧.wants_memory 48 input.now
        at.old at.new (λ oid behind span. IsAt oid behind input.now found.new) (found.new ≡ found.old) result }
{
    match next::<ObjectIdentifier>(alloc, Tag::Sequence, input, at) {
        Ok(Some((_oid, span))) => {
            *found = content_at(input, span.place);
            Status::Done
        }
        Ok(None) => Status::Absent,
        Err(e) => Status::Refused(e),
    }
}

/// Puts the dotted text of the OID that has these content octets at the front of the buffer `room`, such as
/// `2.5.29.15`.
///
/// # Errors
///
/// [`Status::NoRoom`] where the buffer is too small; then `written` is the needed length. `Malformed` exactly where no
/// OID has the content octets; else `Memory` when out of memory.
#[tactic(auto, unfolding(crate::specs::Status::Fills))]
pub fn oid_text(alloc: Global, content: &[u8], room: &mut [u8], written: &mut usize) -> Status
    ensures filled { Fills (λ answer. IsDotted content.now answer) room.old room.new written.old written.new result }
    ensures memory { result ≡ Refused Memory → (arcs : List ℕ) × AreArcs arcs × (content.now ≡ content_of arcs) }
{
    let oid = match ObjectIdentifier::from_bytes(content) {
        Ok(oid) => oid,
        Err(e) => return e.into(),
    };
    match oid.to_string(alloc) {
        Ok(text) => fill(text.as_str().as_bytes(), room, written),
        Err(_) => Status::Refused(ErrorKind::Memory),
    }
}

/// Puts the content octets of the OID with this dotted text at the front of the buffer `room`. It takes no memory.
///
/// # Errors
///
/// [`Status::NoRoom`] where the buffer is too small; then `written` is the needed length. `Failed` exactly where the
/// text is a bad one: that of no OID.
#[tactic(auto, unfolding(crate::specs::Status::Fills))]
pub fn oid_from_text(text: &[u8], room: &mut [u8], written: &mut usize) -> Status
    ensures filled { Fills (λ answer. IsIdentified text.now answer) room.old room.new written.old written.new result }
    ensures memory { result ≡ Refused Memory → ⊥ }
{
    let Ok(text) = str::from_utf8(text) else {
        return Status::Refused(ErrorKind::Failed);
    };
    match ObjectIdentifier::new(text) {
        Ok(oid) => fill(oid.as_bytes(), room, written),
        Err(e) => e.into(),
    }
}
