//! Errors of calls on certificates that are logged.

ghost use Rattle.std.specs.Prelude.{◌≡◌};
ghost use Rattle.x509_log.specs.Errors.{of_sct};
ghost use Rattle.x509_log.specs.declared.error.LogError.TheVariants.{Der, Tls};

use x509_der::Error;
use x509_sct::{Error as SctError, TlsError};

/// Why a call on a certificate that is logged was refused.
#[derive(Clone, Copy, Debug, PartialEq, Eq, thiserror::Error)]
pub enum LogError {
    /// The certificate hasn't the extension that is to be left out: no SCTs, or no poison. Or the precertificate signing certificate hasn't the
    /// authority key identifier that the precertificate has (RFC 6962 3.2).
    #[error("Absent")]
    Absent,

    /// It has it twice or more.
    #[error("Repeated")]
    Repeated,

    /// An error of DER.
    #[error("{0}")]
    Der(Error),

    /// An error of the TLS encoding.
    #[error("{0}")]
    Tls(TlsError),
}

impl From<Error> for LogError {
    ghost from_gives = { λ refusal e. e ≡ Der refusal };

    fn from(refusal: Error) -> LogError {
        LogError::Der(refusal)
    }
}

impl From<TlsError> for LogError {
    ghost from_gives = { λ refusal e. e ≡ Tls refusal };

    fn from(refusal: TlsError) -> LogError {
        LogError::Tls(refusal)
    }
}

impl From<SctError> for LogError {
    ghost from_gives = { λ refusal e. e ≡ of_sct refusal };

    fn from(refusal: SctError) -> LogError {
        match refusal {
            SctError::Der(e) => LogError::Der(e),
            SctError::Tls(e) => LogError::Tls(e),
        }
    }
}
