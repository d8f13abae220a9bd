//! Values that are encoded of OIDs.

ghost use Rattle.std.specs.Prelude.{◌≡◌, ◌⊎◌, Any, IfOk, MatchResult, map};
ghost use Rattle.x509_c_calls.specs.BuildMembers.{IsOid};
ghost use Rattle.x509_c_calls.specs.Described.{EncodesDescribed, IsExtendedKeyUsage, RefusesPurposes};
ghost use Rattle.x509_c_calls.specs.Status.{Fills};
ghost use Rattle.x509_der.specs.declared.error.ErrorKind.TheVariants.{Malformed, Memory};
ghost use Rattle.x509_ext.specs.ExtendedKeyUsage.{extended_key_usage};

use crate::path::cut;
use crate::{Status, write};
use std::alloc::Global;
use x509_der::{ErrorKind, ObjectIdentifier, SequenceOf, Spelled};
use x509_ext::pkix::ExtendedKeyUsage;

/// The OIDs that have these content octets.
fn identifiers_of(
    alloc: Global,
    pieces: &[&[u8]],
) -> Result<SequenceOf<ObjectIdentifier>, ErrorKind>
    ensures { MatchResult result (λ oids. oids ≡ map (λ piece. piece.now) pieces.now) (λ e. (e ≡ Memory)
        ⊎ ((e ≡ Malformed) × Any (λ piece. IsOid piece → ⊥) (map (λ piece. piece.now) pieces.now))) }
{
    let mut oids = SequenceOf::new(alloc);
    for piece in pieces {
        let Ok(oid) = ObjectIdentifier::from_bytes(piece) else {
            return Err(ErrorKind::Malformed);
        };
        if oids.push(oid).is_err() {
            return Err(ErrorKind::Memory);
        }
    }
    Ok(oids)
}

/// The purposes into whose content octets the bytes are cut.
fn purposes_of(alloc: Global, oids: &[u8], lens: &[usize]) -> Result<ExtendedKeyUsage, ErrorKind>
    ensures found { MatchResult result (IsExtendedKeyUsage oids.now lens.now) (λ e. (e ≡ Memory) ⊎ RefusesPurposes oids.now lens.now e) }
    ensures good { IfOk result extended_key_usage.good }
{
    if lens.is_empty() {
        return Err(ErrorKind::Value);
    }
    let Ok(pieces) = cut(alloc, oids, lens) else {
        return Err(ErrorKind::Memory);
    };
    let Some(pieces) = pieces else {
        return Err(ErrorKind::Failed);
    };
    match identifiers_of(alloc, pieces.as_slice()) {
        Ok(oids) => {
            let usage = ExtendedKeyUsage(oids);
            usage.has_spelling();
            Ok(usage)
        }
        Err(e) => Err(e),
    }
}

/// Puts the encoding of the ExtendedKeyUsage (RFC 5280 4.2.1.12) with these purposes at the front of the buffer `room`:
/// the content octets of their OIDs stand one behind the other, and `lens` are their lengths.
///
/// # Errors
///
/// [`Status::NoRoom`] where the buffer is too small; then `written` is the needed length. `Failed` where the lengths don't
/// add up, `Value` where there is no purpose, `Malformed` where no OID has the content octets of one; where several of
/// these are so, any of their answers may come. `Overlength` where the encoding is too long. `Memory` when out of memory.
#[tactic(auto, unfolding(crate::specs::Calls::Encodes, crate::specs::Status::Fills))]
pub fn extended_key_usage_encode(
    alloc: Global,
    oids: &[u8],
    lens: &[usize],
    room: &mut [u8],
    written: &mut usize,
) -> Status
    ensures { Fills (EncodesDescribed extended_key_usage (IsExtendedKeyUsage oids.now lens.now) (RefusesPurposes oids.now lens.now)) room.old room.new written.old written.new result }
{
    match purposes_of(alloc, oids, lens) {
        Ok(usage) => write(&usage, room, written),
        Err(e) => Status::Refused(e),
    }
}
