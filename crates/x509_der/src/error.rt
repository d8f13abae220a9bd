//! Errors.

ghost use Rattle.std.specs.Prelude.{◌≡◌};
ghost use Rattle.x509_der.specs.declared.error.ErrorKind.TheVariants.{Memory};

use std::alloc::{AllocError, AllocFailed};

/// The kind of an error.
#[derive(Clone, Copy, Debug, PartialEq, Eq, thiserror::Error)]
pub enum ErrorKind {
    /// Out of memory.
    #[error("Memory")]
    Memory,

    /// The input, or the encoding of a value, is longer than [`Length::MAX`](crate::Length::MAX), or than the buffer
    /// for it.
    #[error("Overlength")]
    Overlength,

    /// The bytes are not the DER encoding of a value of the type.
    #[error("Malformed")]
    Malformed,

    /// The argument, or what was found, isn't what the call wants: a bad text (of an OID, a time, a name or hex), a
    /// repeated extension or attribute, an attribute that hasn't just one value, a bad random source, lengths that a
    /// serial number can't have or that don't add up, no name with the OID that a profile wants, or an unknown type or
    /// profile. The `# Errors` of each call say which.
    #[error("Failed")]
    Failed,

    /// An equal member is in the set already.
    #[error("SetDuplicate")]
    SetDuplicate,

    /// The value is out of range, or has no encoding.
    #[error("Value")]
    Value,
}

/// An error, of some kind.
#[derive(Clone, Copy, Debug, PartialEq, Eq, thiserror::Error)]
#[error("{kind}")]
pub struct Error {
    kind: ErrorKind,
}

impl Error {
    /// The kind of the error.
    pub fn kind(self) -> ErrorKind
        ensures { result ≡ self.kind }
    {
        self.kind
    }
}

impl From<ErrorKind> for Error {
    ghost from_gives = { λ kind e. e ≡ record { kind = kind } };

    fn from(kind: ErrorKind) -> Error {
        Error { kind }
    }
}

impl From<AllocError> for Error {
    ghost from_gives = { λ _ e. e ≡ record { kind = Memory } };

    fn from(_e: AllocError) -> Error {
        Error {
            kind: ErrorKind::Memory,
        }
    }
}

impl<T: Drop> From<AllocFailed<T>> for Error {
    ghost from_gives = { λ _ e. e ≡ record { kind = Memory } };

    fn from(_e: AllocFailed<T>) -> Error {
        Error {
            kind: ErrorKind::Memory,
        }
    }
}
