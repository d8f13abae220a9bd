//! Why not all is written that the SCTs of a certificate are signatures of.

ghost use Rattle.std.specs.Prelude.{◌≡◌, IfOk, string_bytes};
ghost use Rattle.x509_object_run.specs.declared.fault.Fault.TheVariants.{Memory};
ghost use Rattle.x509_show.specs.Timestamps.{reason_of, reason_text};
ghost use Rattle.x509_show.specs.declared.reason.Reason.TheVariants as reasons;

use std::alloc::{AllocError, Global};
use x509_der::ErrorKind;
use x509_log::LogError;
use x509_object_run::{Fault, fault_words};
use x509_sct::TlsError;

/// Why not all is written that the SCTs of a certificate are signatures of.
#[derive(Clone, Copy)]
pub(crate) enum Reason {
    /// It isn't read, or is no certificate; or the output can't be written, or memory is refused.
    Fault(Fault),

    /// It has no list of SCTs.
    Absent,

    /// It has two or more.
    Repeated,

    /// Its list can't be decoded.
    Undecodable,

    /// Its TBSCertificate has more octets than an entry of a log may have.
    TooLong,
}

impl From<AllocError> for Reason {
    ghost from_gives = { λ _ reason. reason ≡ reasons.Fault Memory };

    fn from(_e: AllocError) -> Reason {
        Reason::Fault(Fault::Memory)
    }
}

/// Why a certificate gives no SCTs.
pub(crate) fn reason_of(e: LogError) -> Reason
    ensures { result ≡ reason_of e }
{
    match e {
        LogError::Absent => Reason::Absent,
        LogError::Repeated => Reason::Repeated,
        LogError::Der(e) => match e.kind() {
            ErrorKind::Memory => Reason::Fault(Fault::Memory),
            _ => Reason::Undecodable,
        },
        LogError::Tls(TlsError::Memory) => Reason::Fault(Fault::Memory),
        LogError::Tls(_) => Reason::Undecodable,
    }
}

/// A reason in words.
///
/// # Errors
///
/// `AllocError` when out of memory.
pub(crate) fn reason_words(alloc: Global, reason: Reason) -> Result<String, AllocError>
    ensures { IfOk result (λ words. string_bytes words ≡ reason_text reason) }
{
    let words = match reason {
        Reason::Fault(fault) => {
            return fault_words(alloc, "not a certificate in DER, PEM or hex", fault);
        }
        Reason::Absent => "it has no list of SCTs",
        Reason::Repeated => "it has two lists of SCTs or more",
        Reason::Undecodable => "its list of SCTs can't be decoded",
        Reason::TooLong => "its TBSCertificate has more than 16777215 bytes",
    };
    String::from_str(alloc, words)
}
