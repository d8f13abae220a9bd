//! Errors of the TLS encoding.

ghost use Rattle.std.specs.Prelude.{◌≡◌};
ghost use Rattle.x509_sct.specs.declared.tls.error.TlsError.TheVariants.{Memory};

use std::alloc::{AllocError, AllocFailed};

/// Why a call on a TLS encoding was refused.
#[derive(Clone, Copy, Debug, PartialEq, Eq, thiserror::Error)]
pub enum TlsError {
    /// Bytes of a field are missing.
    #[error("EndOfStream")]
    EndOfStream,

    /// A number that has no name, where one with a name is needed.
    #[error("UnknownValue({0})")]
    UnknownValue(u16),

    /// Bytes follow the value, which was to be all of them.
    #[error("TrailingData")]
    TrailingData,

    /// A vector would have more bytes than its length can say, as more than
    /// [`TlsByteVecU16::MAX_LEN`](crate::tls::TlsByteVecU16::MAX_LEN), or none where it is to have one.
    #[error("InvalidVectorLength")]
    InvalidVectorLength,

    /// Out of memory.
    #[error("Memory")]
    Memory,
}

impl From<AllocError> for TlsError {
    ghost from_gives = { λ _ e. e ≡ Memory };

    fn from(_e: AllocError) -> TlsError {
        TlsError::Memory
    }
}

impl<T: Drop> From<AllocFailed<T>> for TlsError {
    ghost from_gives = { λ _ e. e ≡ Memory };

    fn from(_e: AllocFailed<T>) -> TlsError {
        TlsError::Memory
    }
}
