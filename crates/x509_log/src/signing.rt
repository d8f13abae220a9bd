//! Precertificate signing certificates.

ghost use Rattle.std.specs.List.{list_any};
ghost use Rattle.std.specs.Prelude.{◌≡◌, ◌↔◌, bytes_eq, Err, IfOk, IfErr, IsTrue};
ghost use Rattle.x509_cert.specs.declared.certificate.certificate.CertificateInner as whole;
ghost use Rattle.x509_der.specs.Form.{Spells};
ghost use Rattle.x509_ext.specs.ExtendedKeyUsage.{extended_key_usage};
ghost use Rattle.x509_ext.specs.Identifiers.{id_ce};
ghost use Rattle.x509_ext.specs.LookUp.{Finds, members, with_oid};
ghost use Rattle.x509_log.specs.Signing.{SignsPrecertificates, certificate_transparency};

use std::alloc::Global;
use x509_base::Profile;
use x509_cert::certificate::CertificateInner;
use x509_check::CertificateRef;
use x509_der::{Decode, Error, Grammar, ObjectIdentifier, oid};
use x509_ext::pkix::ExtendedKeyUsage;

/// The purpose of precertificate signing certificates, 1.3.6.1.4.1.11129.2.4.4 (RFC 6962 3.1).
const CERTIFICATE_TRANSPARENCY: ObjectIdentifier = oid!(
    0x2B, 0x06, 0x01, 0x04, 0x01, 0xD6, 0x79, 0x02, 0x04, 0x04
);

/// Whether the purpose is one of these.
fn is_named(purposes: &[ObjectIdentifier]) -> bool
    ensures { result ≡ list_any (λ purpose. bytes_eq purpose certificate_transparency) purposes.now }
{
    purposes
        .iter()
        .any(|purpose| *purpose == CERTIFICATE_TRANSPARENCY)
}

/// Whether the certificate is a precertificate signing certificate: its extended key usage has the purpose 1.3.6.1.4.1.11129.2.4.4 (RFC 6962 3.1). That it
/// is an authority's is asked where its path is validated.
///
/// # Errors
///
/// `Failed` exactly where it has two extensions for extended key usage or more. Where it has one, the errors of decoding that, exactly where that holds no list
/// of purposes. `Memory` when out of memory.
pub fn is_precertificate_signing<P: Profile>(
    alloc: Global,
    certificate: &CertificateRef<'_, P>,
) -> Result<bool, Error>
    ensures found { IfOk result (λ is. (value : whole.CertificateInner P) → Spells ⟦<CertificateInner<P> as Grammar>⟧.form value certificate.now.bytes.now
        → IsTrue is ↔ SignsPrecertificates value.tbs_certificate) }
    ensures refused { IfErr result (λ e. (value : whole.CertificateInner P) → Spells ⟦<CertificateInner<P> as Grammar>⟧.form value certificate.now.bytes.now
        → Finds extended_key_usage ⟦<ExtendedKeyUsage as Grammar>⟧.refuses ⟦<ExtendedKeyUsage as Decode>⟧.wants_memory
        (with_oid (id_ce 37) (members value.tbs_certificate.extensions)) (Err e)) }
{
    match certificate.get_extension::<ExtendedKeyUsage>(alloc) {
        Ok(Some((_, usage))) => Ok(is_named(usage.0.as_slice())),
        Ok(None) => Ok(false),
        Err(e) => Err(e),
    }
}
