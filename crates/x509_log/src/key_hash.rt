//! The hash by which a log names an issuer.

ghost use Rattle.std.specs.Prelude.{◌≡◌};
ghost use Rattle.sha2.specs.Sha256.{sha256};
ghost use Rattle.x509_base.specs.SubjectPublicKeyInfo.{subject_public_key_info};
ghost use Rattle.x509_cert.specs.declared.certificate.certificate.CertificateInner as whole;
ghost use Rattle.x509_der.specs.Form.{Spells, spelling};

use sha2::{Digest, Sha256};
use x509_base::Profile;
use x509_cert::certificate::CertificateInner;
use x509_check::CertificateRef;
use x509_der::Grammar;

/// The SHA-256 digest of the issuer's public key, a SubjectPublicKeyInfo, as it stands in the issuer's certificate (RFC 6962 3.2,
/// `issuer_key_hash`).
pub fn issuer_key_hash<P: Profile>(issuer: &CertificateRef<'_, P>) -> [u8; 32]
    ensures { (certificate : whole.CertificateInner P) → Spells ⟦<CertificateInner<P> as Grammar>⟧.form certificate issuer.now.bytes.now
        → result ≡ sha256 (spelling subject_public_key_info certificate.tbs_certificate.subject_public_key_info) }
{
    <Sha256 as Digest>::digest(issuer.subject_public_key_info())
}
