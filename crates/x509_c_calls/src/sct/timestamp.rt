//! What a timestamp says.

ghost use Rattle.std.specs.Prelude.{◌≡◌, List, ℕ};
ghost use Rattle.x509_c_calls.specs.Timestamps.{IsTimestamp, ReadsTimestamp, refusal_of};
ghost use Rattle.x509_sct.specs.Timestamp.{timestamp as form};
ghost use Rattle.x509_sct.specs.Form.{Spells};

use crate::{Span, Status};
use std::alloc::Global;
use x509_der::ErrorKind;
use x509_sct::SignedCertificateTimestamp;
use x509_sct::tls::{NamedByte, TlsError, read_whole};

/// A timestamp of version 1 (RFC 6962 3.2), by its place.
#[derive(Clone, Copy)]
#[repr(C)]
pub struct TimestampView {
    /// The version: 0, which is version 1.
    pub version: u32,

    /// Where the ID of the log stands, 32 octets.
    pub log_id: Span,

    /// The milliseconds since 1970-01-01T00:00:00Z.
    pub timestamp: u64,

    /// Where the extensions stand, of which version 1 has none.
    pub extensions: Span,

    /// The number of the hash algorithm (RFC 5246 7.4.1.4.1).
    pub hash: u32,

    /// The number of the signature algorithm (RFC 5246 7.4.1.4.1).
    pub signature_algorithm: u32,

    /// Where the octets of the signature stand.
    pub signature: Span,
}

/// What the timestamp says of which the bytes are the encoding.
fn view_of(timestamp: &SignedCertificateTimestamp) -> TimestampView
    ensures { (bytes : List ℕ) → Spells form timestamp.now bytes → IsTimestamp bytes timestamp.now result }
{
    let extensions = timestamp.extensions.as_slice().len();
    TimestampView {
        version: u32::from(timestamp.version.byte()),
        log_id: Span { place: 1, len: 32 },
        timestamp: timestamp.timestamp,
        extensions: Span {
            place: 43,
            len: extensions,
        },
        hash: u32::from(timestamp.signature.algorithm.hash.byte()),
        signature_algorithm: u32::from(timestamp.signature.algorithm.signature.byte()),
        signature: Span {
            place: 47 + extensions,
            len: timestamp.signature.signature.as_slice().len(),
        },
    }
}

/// An error of the TLS encoding as one of DER.
pub(crate) fn refusal_of(e: TlsError) -> ErrorKind
    ensures { result ≡ refusal_of e }
{
    match e {
        TlsError::EndOfStream => ErrorKind::Malformed,
        TlsError::UnknownValue(_) => ErrorKind::Malformed,
        TlsError::TrailingData => ErrorKind::Malformed,
        TlsError::InvalidVectorLength => ErrorKind::Malformed,
        TlsError::Memory => ErrorKind::Memory,
    }
}

/// Decodes a timestamp (RFC 6962 3.2), which the bytes are, as a list holds it, and fills in what it says.
///
/// # Errors
///
/// `Malformed` exactly where the bytes are no timestamp of version 1 with a known hash algorithm and a known signature algorithm. `Memory` when out
/// of memory. The view is unchanged then.
#[tactic(auto, unfolding(crate::specs::Timestamps::ReadsTimestamp))]
pub fn timestamp_view(alloc: Global, input: &[u8], view: &mut TimestampView) -> Status
    ensures { ReadsTimestamp input.now view.old view.new result }
{
    match read_whole::<SignedCertificateTimestamp>(alloc, input) {
        Ok(timestamp) => {
            *view = view_of(&timestamp);
            Status::Done
        }
        Err(e) => Status::Refused(refusal_of(e)),
    }
}
