//! Digests of encodings.

ghost use Rattle.std.specs.Prelude.{◌≡◌, ◌⊎◌, IfOk, IfErr};
ghost use Rattle.x509_der.specs.declared.error.ErrorKind.TheVariants.{Memory};
ghost use Rattle.x509_der.specs.Element.{limit};
ghost use Rattle.x509_der.specs.Writing.{writes, written_spelling, IsWritable, IsUnwritable};

use crate::digest::digest::CertDigest;
use std::alloc::Global;
use x509_der::{Encode, Error};

/// The digest of the value as [`Encode::to_der`] encodes it.
///
/// # Errors
///
/// Those of [`Encode::to_der`]; `Memory` when out of memory.
pub fn hash<D: CertDigest, T: Encode>(alloc: Global, value: &T) -> Result<Vec<u8>, Error>
    ensures ok { IfOk result (λ digest. (digest.items ≡ D.digest_of (written_spelling T.form (writes T.writing value.now)))
        × IsWritable T.form (writes T.writing value.now) limit) }
    ensures err { IfErr result (λ e. (e.kind ≡ Memory) ⊎ IsUnwritable T.form (writes T.writing value.now) limit e.kind) }
{
    let bytes = value.to_der(alloc)?;
    D::digest(alloc, bytes.as_slice())
}
