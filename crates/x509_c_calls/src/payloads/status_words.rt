//! Texts of statuses.

ghost use Rattle.std.specs.Prelude.{◌≡◌, MatchOption};
ghost use Rattle.x509_c_calls.specs.StatusTexts.{IsStatusText};
ghost use Rattle.x509_c_calls.specs.StatusTexts as texts;
ghost use Rattle.x509_c_calls.specs.Status.{Fills, code_of};
ghost use Rattle.x509_c_calls.specs.declared.status.status.Status.{Status};
ghost use Rattle.x509_c_calls.specs.declared.status.status.Status.TheVariants.{Refused};
ghost use Rattle.x509_der.specs.declared.error.ErrorKind.TheVariants.{Memory};

use crate::{Status, fill};
use x509_der::ErrorKind;

/// The status with that number.
fn status_of(code: i32) -> Option<Status>
    ensures { MatchOption result ((status : Status) → code ≡ code_of status → ⊥) (λ status. code ≡ code_of status) }
{
    match code {
        0 => Some(Status::Done),
        1 => Some(Status::Refused(ErrorKind::Overlength)),
        2 => Some(Status::Refused(ErrorKind::Malformed)),
        3 => Some(Status::Refused(ErrorKind::Failed)),
        4 => Some(Status::Refused(ErrorKind::SetDuplicate)),
        5 => Some(Status::Refused(ErrorKind::Value)),
        6 => Some(Status::Absent),
        7 => Some(Status::Repeated),
        8 => Some(Status::Faulty),
        9 => Some(Status::Limit),
        -1 => Some(Status::Refused(ErrorKind::Memory)),
        -2 => Some(Status::NoRoom),
        _ => None,
    }
}

/// What a status means, in a few words.
fn words<'a>(status: Status) -> &'a str
    ensures { result.now ≡ texts.text_of status }
{
    match status {
        Status::Done => "done",
        Status::NoRoom => "the room is too small",
        Status::Absent => "absent",
        Status::Repeated => "there more than once",
        Status::Faulty => "the path has a fault",
        Status::Limit => "a limit is used up",
        Status::Refused(ErrorKind::Memory) => "out of memory",
        Status::Refused(ErrorKind::Overlength) => "too long",
        Status::Refused(ErrorKind::Malformed) => "malformed",
        Status::Refused(ErrorKind::Failed) => "not of the form",
        Status::Refused(ErrorKind::SetDuplicate) => "an attribute twice in a relative name",
        Status::Refused(ErrorKind::Value) => "can't be made or written",
    }
}

/// Puts what the status with that number means at the front of the room. `Failed` exactly where no status has the number. It takes no memory.
#[tactic(auto, unfolding(crate::specs::Status::Fills))]
pub fn status_text(code: i32, room: &mut [u8], written: &mut usize) -> Status
    ensures filled { Fills (λ answer. IsStatusText code answer) room.old room.new written.old written.new result }
    ensures memory { result ≡ Refused Memory → ⊥ }
{
    match status_of(code) {
        Some(status) => fill(words(status).as_bytes(), room, written),
        None => Status::Refused(ErrorKind::Failed),
    }
}
