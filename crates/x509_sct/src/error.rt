//! Errors of timestamps.

ghost use Rattle.std.specs.Prelude.{◌≡◌};
ghost use Rattle.x509_sct.specs.declared.error.Error.TheVariants.{Der, Tls};

use crate::tls::TlsError;
use x509_der::Error as DerError;

/// Why a call on timestamps was refused.
#[derive(Clone, Copy, Debug, PartialEq, Eq, thiserror::Error)]
pub enum Error {
    /// An error of DER.
    #[error("{0}")]
    Der(DerError),

    /// An error of the TLS encoding.
    #[error("{0}")]
    Tls(TlsError),
}

impl From<DerError> for Error {
    ghost from_gives = { λ refusal e. e ≡ Der refusal };

    fn from(refusal: DerError) -> Error {
        Error::Der(refusal)
    }
}

impl From<TlsError> for Error {
    ghost from_gives = { λ refusal e. e ≡ Tls refusal };

    fn from(refusal: TlsError) -> Error {
        Error::Tls(refusal)
    }
}
