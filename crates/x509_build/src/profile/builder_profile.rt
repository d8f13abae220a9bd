//! What a builder asks of a profile.

use crate::Result;
use std::alloc::Global;
use x509_base::SubjectPublicKeyInfoRef;
use x509_cert::certificate::TbsCertificate;
use x509_ext::Extension;
use x509_name::name::Name;

/// What the certificates of one kind have: their subject, their issuer, and their extensions.
///
/// A profile says by definitions what its calls answer. No law is asked of them, so a user's profile may add anything,
/// and refuse with any error. What is added to a builder beside it may have an OID that the profile's extensions have
/// too: see [`CertificateBuilder`](crate::CertificateBuilder).
pub trait BuilderProfile: Drop {
    ghost use Rattle.std.specs.Prelude.{List};
    ghost use Rattle.x509_base.specs.declared.subject_public_key_info.SubjectPublicKeyInfo.{SubjectPublicKeyInfo};
    ghost use Rattle.x509_base.specs.declared.profile.Rfc5280.{Rfc5280};
    ghost use Rattle.x509_build.specs.Answer.{Answer, Gives, key_lent};
    ghost use Rattle.x509_cert.specs.declared.certificate.tbs_certificate.TbsCertificateInner.{TbsCertificateInner};
    ghost use Rattle.x509_ext.specs.declared.extension.Extension.{Extension};
    ghost use Rattle.x509_name.specs.declared.attr.type_and_value.AttributeTypeAndValue.{AttributeTypeAndValue};

    /// The issuer of a certificate with that subject.
    ghost issuer_of: { Self → List (List AttributeTypeAndValue) → Answer (List (List AttributeTypeAndValue)) };

    /// The subject of the certificates.
    ghost subject_of: { Self → Answer (List (List AttributeTypeAndValue)) };

    /// The extensions of a certificate for the first key, signed by the second. The part has neither extensions nor a
    /// signature.
    ghost extensions_of: { Self → SubjectPublicKeyInfo → SubjectPublicKeyInfo → TbsCertificateInner Rfc5280 → Answer (List Extension) };

    /// The issuer of a certificate with that subject (RFC 5280 4.1.2.4).
    ///
    /// # Errors
    ///
    /// The profile's own. `Asn1` of `Memory` when out of memory.
    fn get_issuer(&self, alloc: Global, subject: &Name) -> Result<Name>
        ensures { Gives (λ name. name) (issuer_of self.now subject.now) result };

    /// The subject of the certificates (RFC 5280 4.1.2.6).
    ///
    /// # Errors
    ///
    /// The profile's own. `Asn1` of `Memory` when out of memory.
    fn get_subject(&self, alloc: Global) -> Result<Name>
        ensures { Gives (λ name. name) (subject_of self.now) result };

    /// The extensions of a certificate for the public key `spk`, signed by the key of `issuer_spk` (RFC 5280 4.2).
    /// `tbs` is the part that is to be signed, as far as it stands: without extensions.
    ///
    /// # Errors
    ///
    /// The profile's own. `Asn1` of `Memory` when out of memory.
    fn build_extensions(
        &self,
        alloc: Global,
        spk: SubjectPublicKeyInfoRef<'_>,
        issuer_spk: SubjectPublicKeyInfoRef<'_>,
        tbs: &TbsCertificate,
    ) -> Result<Vec<Extension>>
        ensures { Gives (λ extensions. extensions.items) (extensions_of self.now (key_lent spk.entry.algorithm.now spk.entry.subject_public_key.now)
            (key_lent issuer_spk.entry.algorithm.now issuer_spk.entry.subject_public_key.now) tbs.now) result };
}
