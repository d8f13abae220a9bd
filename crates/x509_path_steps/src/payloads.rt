//! Payloads of extensions, decoded.

ghost use Rattle.std.specs.Prelude.{◌≡◌, ◌↔◌, IfOk, Some};
ghost use Rattle.x509_path.specs.Certificates as certificates;
ghost use Rattle.x509_path.specs.Lent.{lent_extensions};

use std::alloc::{AllocError, Global};
use x509_check::ExtensionRef;
use x509_der::{AssociatedOid, Decode, ErrorKind};
use x509_path::extensions::find_one;

/// The value of the one extension of the type; `None` where there isn't one that can be decoded.
///
/// # Errors
///
/// Out of memory.
pub fn owned_payload<T: AssociatedOid + Decode>(
    alloc: Global,
    extensions: &[ExtensionRef<'_>],
) -> Result<Option<T>, AllocError>
    ensures { IfOk result (λ found. (value : T) → certificates.HasPayload T.form T.OID (lent_extensions extensions.now) value ↔ (found ≡ Some value)) }
{
    let Some(octets) = find_one(extensions, T::OID) else {
        return Ok(None);
    };
    match T::from_der(alloc, octets) {
        Ok(value) => Ok(Some(value)),
        Err(e) => {
            if e.kind() == ErrorKind::Memory {
                return Err(AllocError);
            }
            Ok(None)
        }
    }
}
