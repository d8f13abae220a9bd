//! Profiles of the CA/Browser Forum (Baseline Requirements for TLS Server Certificates).

pub mod tls;

ghost use Rattle.std.specs.Prelude.{◌≡◌, IfOk};
ghost use Rattle.x509_build.specs.CaNaming.{IsCaName};

use crate::Result;
use crate::profile::BuilderProfile;
pub use crate::profile::ca_naming::ca_certificate_naming;
pub use crate::profile::encoding::check_names_encoding;
use crate::profile::lists::{
    push_authority_key, push_constraints, push_key_usage, push_subject_key,
};
use crate::profile::usages::ca_usages;
use std::alloc::Global;
use x509_base::SubjectPublicKeyInfoRef;
use x509_cert::certificate::TbsCertificate;
use x509_der::{Error as DerError, TryClone};
use x509_ext::Extension;
use x509_name::name::Name;

/// The profile of a root certification authority (Baseline Requirements 7.1.2.1). Its certificates have their subject
/// as issuer.
///
/// They have these extensions, in this order: AKI of the certified key; BasicConstraints of an authority without a path
/// length constraint; KeyUsage with keyCertSign and cRLSign, and with digitalSignature where the authority signs OCSP
/// responses; SKI.
#[derive(Drop)]
pub struct Root {
    /// Whether the authority signs OCSP responses with this key.
    pub emits_ocsp_response: bool,

    subject: Name,
}

impl Root {
    /// The profile of a root with that name. It takes no memory.
    ///
    /// # Errors
    ///
    /// Those of [`ca_certificate_naming`] on the name, and no others.
    pub fn new(emits_ocsp_response: bool, subject: Name) -> Result<Root>
        ensures naming { IsCaName subject result }
        ensures ok { IfOk result (λ root. root ≡ record { emits_ocsp_response = emits_ocsp_response; subject = subject }) }
    {
        ca_certificate_naming(&subject)?;
        Ok(Root {
            emits_ocsp_response,
            subject,
        })
    }
}

impl TryClone for Root {
    fn try_clone(&self, alloc: Global) -> std::result::Result<Root, DerError> {
        Ok(Root {
            emits_ocsp_response: self.emits_ocsp_response,
            subject: self.subject.try_clone(alloc)?,
        })
    }
}

impl BuilderProfile for Root {
    ghost use Rattle.x509_build.specs.Profiles.{given, root_list};

    ghost issuer_of = { λ root subject. given subject };

    ghost subject_of = { λ root. given root.subject };

    ghost extensions_of = { λ root key issuer_key part. root_list root key };

    fn get_issuer(&self, alloc: Global, subject: &Name) -> Result<Name> {
        Ok(subject.try_clone(alloc)?)
    }

    fn get_subject(&self, alloc: Global) -> Result<Name> {
        Ok(self.subject.try_clone(alloc)?)
    }

    fn build_extensions(
        &self,
        alloc: Global,
        spk: SubjectPublicKeyInfoRef<'_>,
        _issuer_spk: SubjectPublicKeyInfoRef<'_>,
        tbs: &TbsCertificate,
    ) -> Result<Vec<Extension>> {
        let subject = tbs.subject();
        let mut extensions = Vec::new(alloc);
        push_authority_key(alloc, &mut extensions, subject, spk)?;
        push_constraints(alloc, &mut extensions, subject, true, None)?;
        let usages = ca_usages(self.emits_ocsp_response);
        push_key_usage(alloc, &mut extensions, subject, usages)?;
        push_subject_key(alloc, &mut extensions, subject, spk)?;
        Ok(extensions)
    }
}
