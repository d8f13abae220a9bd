//! Trust anchors that are lent.

use x509_check::CertificateRef;

/// A trust anchor, lent: a name and a public key, each as its element. It is what [`Anchor`](crate::Anchor) is, without values.
#[derive(Clone, Copy, Debug)]
pub struct AnchorRef<'a> {
    /// The name under which the key signs.
    pub name: &'a [u8],

    /// The public key.
    pub key: &'a [u8],
}

impl<'a> AnchorRef<'a> {
    ghost use Rattle.x509_path.specs.Certificates as certificates;
    ghost use Rattle.x509_path.specs.Lent.{Lends, LendsAnchor};
    ghost use Rattle.x509_path.specs.Path.{subject_of};

    /// The subject and the public key of a certificate. The caller trusts it: nothing else of it is checked.
    pub fn from_certificate(certificate: &CertificateRef<'a>) -> AnchorRef<'a>
        ensures { (c : certificates.Certificate) → Lends certificate.now.bytes.now c → LendsAnchor result (subject_of c) }
    {
        AnchorRef {
            name: certificate.subject(),
            key: certificate.subject_public_key_info(),
        }
    }
}
