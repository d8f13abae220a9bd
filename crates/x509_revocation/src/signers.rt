//! Whose key may sign CRLs.

ghost use Rattle.std.specs.Prelude.{◌↔◌, IsTrue};
ghost use Rattle.x509_path.specs.Certificates.{Certificate, extensions_of};
ghost use Rattle.x509_path.specs.Lent.{Lends};
ghost use Rattle.x509_revocation.specs.Signers.{MaySignCrls};

use std::alloc::Global;
use x509_check::CertificateRef;
use x509_ext::pkix::KeyUsage;

/// Whether the key of the certificate may sign CRLs (RFC 5280 4.2.1.3, 6.3.3 (f)): exactly where the certificate has no
/// KeyUsage, or one that can be decoded, with cRLSign. No memory is taken.
pub fn may_sign_crls(alloc: Global, certificate: &CertificateRef<'_>) -> bool
    ensures { (c : Certificate) → Lends certificate.now.bytes.now c → IsTrue result ↔ MaySignCrls (extensions_of c) }
{
    match certificate.get_extension::<KeyUsage>(alloc) {
        Ok(Some((_, usage))) => usage.crl_sign(),
        Ok(None) => true,
        Err(_) => false,
    }
}
