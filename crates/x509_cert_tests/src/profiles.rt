//! A profile whose answers are known.

use std::alloc::Global;
use x509_base::SubjectPublicKeyInfoRef;
use x509_build::profile::BuilderProfile;
use x509_build::{Error, Result};
use x509_cert::certificate::TbsCertificate;
use x509_der::ErrorKind;
use x509_ext::Extension;
use x509_name::name::Name;

/// Issuer and subject are empty names, without extensions; where it refuses extensions, as failed.
#[derive(Drop)]
pub(crate) struct Bare {
    pub(crate) takes_extensions: bool,
}

impl BuilderProfile for Bare {
    ghost use Rattle.std.specs.Prelude.{◌≡◌, [], false};
    ghost use Rattle.x509_build.specs.declared.error.Error.TheVariants.{Asn1};
    ghost use Rattle.x509_der.specs.declared.error.ErrorKind.TheVariants.{Failed};

    ghost issuer_of = { λ profile subject. record { value = []; refuses = λ e. ⊥ } };

    ghost subject_of = { λ profile. record { value = []; refuses = λ e. ⊥ } };

    ghost extensions_of = { λ profile key issuer part. record {
      value = [];
      refuses = λ e. (profile.takes_extensions ≡ false) × (e ≡ Asn1 (record { kind = Failed }));
    } };

    fn get_issuer(&self, alloc: Global, _subject: &Name) -> Result<Name> {
        Ok(Name::new(alloc))
    }

    fn get_subject(&self, alloc: Global) -> Result<Name> {
        Ok(Name::new(alloc))
    }

    fn build_extensions(
        &self,
        alloc: Global,
        _spk: SubjectPublicKeyInfoRef<'_>,
        _issuer_spk: SubjectPublicKeyInfoRef<'_>,
        _tbs: &TbsCertificate,
    ) -> Result<Vec<Extension>> {
        if self.takes_extensions {
            Ok(Vec::new(alloc))
        } else {
            Err(Error::Asn1(ErrorKind::Failed.into()))
        }
    }
}
