//! Trust anchors of paths.

use std::alloc::Global;
use x509_base::SubjectPublicKeyInfo;
use x509_cert::Certificate;
use x509_der::{Error, TryClone};
use x509_name::name::Name;

/// A trust anchor: a name and a public key that are trusted (RFC 5280 6.1.1 (d)).
#[derive(Debug, Drop, PartialEq, Eq)]
pub struct Anchor {
    /// The name under which the key signs.
    pub name: Name,

    /// The public key.
    pub key: SubjectPublicKeyInfo,
}

impl Anchor {
    ghost use Rattle.std.specs.Prelude.{◌≡◌, IfOk, IfErr};
    ghost use Rattle.x509_der.specs.declared.error.ErrorKind.TheVariants.{Memory};
    ghost use Rattle.x509_path.specs.Path.{subject_of};

    /// The subject and the public key of a certificate. The caller trusts it: nothing else of it is checked.
    ///
    /// # Errors
    ///
    /// `Memory` when out of memory, and nothing else.
    pub fn from_certificate(alloc: Global, certificate: &Certificate) -> Result<Anchor, Error>
        ensures ok { IfOk result (λ anchor. anchor ≡ subject_of certificate.now) }
        ensures err { IfErr result (λ e. e.kind ≡ Memory) }
    {
        let part = certificate.tbs_certificate();
        Ok(Anchor {
            name: part.subject().try_clone(alloc)?,
            key: part.subject_public_key_info().try_clone(alloc)?,
        })
    }
}
