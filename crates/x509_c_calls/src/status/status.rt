//! The status of a call.

ghost use Rattle.std.specs.Prelude.{◌≡◌};
ghost use Rattle.x509_c_calls.specs.Status.{code_of};
ghost use Rattle.x509_c_calls.specs.declared.status.status.Status.TheVariants as statuses;

use x509_der::{Error, ErrorKind};

/// The status of a call from C.
#[derive(Clone, Copy)]
pub enum Status {
    /// The call succeeded.
    Done,

    /// The buffer is too small for what is to be written.
    NoRoom,

    /// What was asked for isn't there.
    Absent,

    /// What was asked for is there more than once, where it may be there once.
    Repeated,

    /// A certificate of a path has a fault.
    Faulty,

    /// More would be tried than is allowed.
    Limit,

    /// The call was refused with an error.
    Refused(ErrorKind),
}

impl Status {
    /// The number that C sees: 0 for [`Status::Done`], below 0 where there was too little memory or too small a buffer,
    /// else above 0.
    pub fn code(self) -> i32
        ensures { result ≡ code_of self }
    {
        match self {
            Status::Done => 0,
            Status::Refused(ErrorKind::Overlength) => 1,
            Status::Refused(ErrorKind::Malformed) => 2,
            Status::Refused(ErrorKind::Failed) => 3,
            Status::Refused(ErrorKind::SetDuplicate) => 4,
            Status::Refused(ErrorKind::Value) => 5,
            Status::Absent => 6,
            Status::Repeated => 7,
            Status::Faulty => 8,
            Status::Limit => 9,
            Status::Refused(ErrorKind::Memory) => -1,
            Status::NoRoom => -2,
        }
    }
}

impl From<Error> for Status {
    ghost from_gives = { λ e status. status ≡ statuses.Refused e.kind };

    fn from(e: Error) -> Status {
        Status::Refused(e.kind())
    }
}
