//! Lists of timestamps, encoded of these.

ghost use Rattle.std.specs.Prelude.{◌≡◌, ◌<◌, ◌⊎◌, Any, IfOk, MatchResult, length, map};
ghost use Rattle.x509_c_calls.specs.Described.{EncodesDescribed};
ghost use Rattle.x509_c_calls.specs.DescribedTimestamps.{IsTimestampListOf, RefusesTimestampList};
ghost use Rattle.x509_c_calls.specs.Status.{Fills};
ghost use Rattle.x509_der.specs.Element.{limit};
ghost use Rattle.x509_der.specs.Form.{spelling};
ghost use Rattle.x509_der.specs.declared.error.ErrorKind.TheVariants.{Memory, Overlength};
ghost use Rattle.x509_prim.specs.OctetString.{octet_string};

use crate::path::cut;
use crate::{Status, write};
use std::alloc::Global;
use x509_der::{ErrorKind, Spelled};
use x509_prim::OctetString;
use x509_sct::tls::{TlsByteVecU16, TlsError, serialize_list};

/// The octets of each timestamp.
fn vectors_of(alloc: Global, pieces: &[&[u8]]) -> Result<Vec<TlsByteVecU16>, ErrorKind>
    ensures { MatchResult result (λ vectors. vectors.items ≡ map (λ piece. piece.now) pieces.now) (λ e. (e ≡ Memory)
        ⊎ ((e ≡ Overlength) × Any (λ piece. 65535 < length piece) (map (λ piece. piece.now) pieces.now))) }
{
    let mut vectors = Vec::new(alloc);
    for piece in pieces {
        let vector = match TlsByteVecU16::from_slice(alloc, piece) {
            Ok(vector) => vector,
            Err(TlsError::InvalidVectorLength) => return Err(ErrorKind::Overlength),
            Err(_) => return Err(ErrorKind::Memory),
        };
        if vectors.push(vector).is_err() {
            return Err(ErrorKind::Memory);
        }
    }
    Ok(vectors)
}

/// The list of the timestamps into whose octets the bytes are cut.
fn list_of(alloc: Global, timestamps: &[u8], lens: &[usize]) -> Result<Vec<u8>, ErrorKind>
    ensures { MatchResult result (λ octets. IsTimestampListOf timestamps.now lens.now octets.items) (λ e. (e ≡ Memory) ⊎ RefusesTimestampList timestamps.now lens.now e) }
{
    if lens.is_empty() {
        return Err(ErrorKind::Value);
    }
    if lens.contains(&0) {
        return Err(ErrorKind::Value);
    }
    let Ok(pieces) = cut(alloc, timestamps, lens) else {
        return Err(ErrorKind::Memory);
    };
    let Some(pieces) = pieces else {
        return Err(ErrorKind::Failed);
    };
    let vectors = match vectors_of(alloc, pieces.as_slice()) {
        Ok(vectors) => vectors,
        Err(e) => return Err(e),
    };
    match serialize_list(alloc, vectors.as_slice()) {
        Ok(octets) => Ok(octets),
        Err(TlsError::InvalidVectorLength) => Err(ErrorKind::Overlength),
        Err(_) => Err(ErrorKind::Memory),
    }
}

/// The OCTET STRING of these octets.
fn string_of(octets: Vec<u8>) -> Result<OctetString, ErrorKind>
    ensures found { MatchResult result (λ string. string ≡ octets.items) (λ e. (e ≡ Overlength) × (limit < length (spelling octet_string octets.items))) }
    ensures good { IfOk result octet_string.good }
{
    match OctetString::from_vec(octets) {
        Ok(string) => {
            string.has_spelling();
            Ok(string)
        }
        Err(e) => Err(e.kind()),
    }
}

/// Puts the encoding of a SignedCertificateTimestampList (RFC 6962 3.3) at the front of the buffer `room`: the octets of the
/// serialized timestamps stand one behind the other, and `lens` are their lengths. What a timestamp says isn't looked at.
///
/// # Errors
///
/// [`Status::NoRoom`] where the buffer is too small; then `written` is the needed length. `Value` where there is no
/// timestamp, or one has no octets; else `Failed` where the lengths don't add up; else `Overlength` where the timestamps,
/// each with two octets for its length, have more than 65,535 octets. `Memory` when out of memory.
#[tactic(auto, unfolding(crate::specs::Calls::Encodes, crate::specs::Status::Fills))]
pub fn timestamps_encode(
    alloc: Global,
    timestamps: &[u8],
    lens: &[usize],
    room: &mut [u8],
    written: &mut usize,
) -> Status
    ensures { Fills (EncodesDescribed octet_string (IsTimestampListOf timestamps.now lens.now) (RefusesTimestampList timestamps.now lens.now)) room.old room.new written.old written.new result }
{
    let octets = match list_of(alloc, timestamps, lens) {
        Ok(octets) => octets,
        Err(e) => return Status::Refused(e),
    };
    match string_of(octets) {
        Ok(string) => write(&string, room, written),
        Err(e) => Status::Refused(e),
    }
}
