//! Hash functions.

use sha1::Sha1;
use sha2::{Digest, Sha224, Sha256, Sha384, Sha512, Sha512_224, Sha512_256};
use std::alloc::Global;
use x509_der::Error;

/// A hash function, by which certificates are identified.
pub trait CertDigest {
    ghost use Rattle.std.specs.Prelude.{◌≡◌, List, ℕ, IfOk, IfErr};
    ghost use Rattle.x509_der.specs.declared.error.ErrorKind.TheVariants.{Memory};

    /// The digest of a message.
    ghost digest_of: { List ℕ → List ℕ };

    /// The digest of the bytes.
    ///
    /// # Errors
    ///
    /// `Memory` when out of memory, and nothing else.
    fn digest(alloc: Global, bytes: &[u8]) -> Result<Vec<u8>, Error>
        ensures ok { IfOk result (λ digest. digest.items ≡ digest_of bytes.now) }
        ensures err { IfErr result (λ e. e.kind ≡ Memory) };
}

/// SHA-1 (FIPS 180-4 6.1), 20 bytes. It is no longer secure.
impl CertDigest for Sha1 {
    ghost use Rattle.sha1.specs.Sha1.{sha1};

    ghost digest_of = { sha1 };

    fn digest(alloc: Global, bytes: &[u8]) -> Result<Vec<u8>, Error> {
        Ok(Vec::from_slice(alloc, &Sha1::digest(bytes))?)
    }
}

/// SHA-224 (FIPS 180-4 6.3), 28 bytes.
impl CertDigest for Sha224 {
    ghost use Rattle.sha2.specs.Sha256.{sha224};

    ghost digest_of = { sha224 };

    fn digest(alloc: Global, bytes: &[u8]) -> Result<Vec<u8>, Error> {
        Ok(Vec::from_slice(alloc, &<Sha224 as Digest>::digest(bytes))?)
    }
}

/// SHA-256 (FIPS 180-4 6.2), 32 bytes.
impl CertDigest for Sha256 {
    ghost use Rattle.sha2.specs.Sha256.{sha256};

    ghost digest_of = { sha256 };

    fn digest(alloc: Global, bytes: &[u8]) -> Result<Vec<u8>, Error> {
        Ok(Vec::from_slice(alloc, &<Sha256 as Digest>::digest(bytes))?)
    }
}

/// SHA-384 (FIPS 180-4 6.5), 48 bytes.
impl CertDigest for Sha384 {
    ghost use Rattle.sha2.specs.Sha512.{sha384};

    ghost digest_of = { sha384 };

    fn digest(alloc: Global, bytes: &[u8]) -> Result<Vec<u8>, Error> {
        Ok(Vec::from_slice(alloc, &<Sha384 as Digest>::digest(bytes))?)
    }
}

/// SHA-512 (FIPS 180-4 6.4), 64 bytes.
impl CertDigest for Sha512 {
    ghost use Rattle.sha2.specs.Sha512.{sha512};

    ghost digest_of = { sha512 };

    fn digest(alloc: Global, bytes: &[u8]) -> Result<Vec<u8>, Error> {
        Ok(Vec::from_slice(alloc, &<Sha512 as Digest>::digest(bytes))?)
    }
}

/// SHA-512/224 (FIPS 180-4 6.6), 28 bytes.
impl CertDigest for Sha512_224 {
    ghost use Rattle.sha2.specs.Sha512.{sha512_224};

    ghost digest_of = { sha512_224 };

    fn digest(alloc: Global, bytes: &[u8]) -> Result<Vec<u8>, Error> {
        Ok(Vec::from_slice(alloc, &<Sha512_224 as Digest>::digest(bytes))?)
    }
}

/// SHA-512/256 (FIPS 180-4 6.7), 32 bytes.
impl CertDigest for Sha512_256 {
    ghost use Rattle.sha2.specs.Sha512.{sha512_256};

    ghost digest_of = { sha512_256 };

    fn digest(alloc: Global, bytes: &[u8]) -> Result<Vec<u8>, Error> {
        Ok(Vec::from_slice(alloc, &<Sha512_256 as Digest>::digest(bytes))?)
    }
}
