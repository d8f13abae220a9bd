//! Certificates.

ghost use Rattle.std.specs.Prelude.{◌≡◌, ◌⊎◌, IfOk, IfErr};
ghost use Rattle.x509_der.specs.declared.error.ErrorKind.TheVariants.{Memory};
ghost use Rattle.x509_der.specs.Element.{limit};
ghost use Rattle.x509_der.specs.Writing.{writes, written_spelling, IsWritable, IsUnwritable};

use crate::certificate::tbs_certificate::TbsCertificateInner;
use crate::digest::digest::CertDigest;
use crate::digest::encoding::hash;
use std::alloc::Global;
use std::cmp::Ordering;
use x509_base::{AlgorithmIdentifier, Profile, Rfc5280, Validity};
use x509_der::{
    CmpPart, Content, Encode, EncodingOrd, Error, Grammar, PutPart, Room, SequenceOf, SetMember,
    SetOrd, Spelled, Tag, TryClone, ValueOrd, both, end, read_field,
};
use x509_prim::BitString;

/// A certificate under the profile [`Rfc5280`]: decoding refuses serial numbers of more than 21 octets, and encoding
/// writes the dates of the validity through 2049 as UTCTime. From bytes to what a certificate says, and back:
///
/// ```rust
/// let certificate = Certificate::from_der(alloc, CERTIFICATE)?;
/// let part = certificate.tbs_certificate();
/// assert_eq!(rt; format!(in alloc; "{}", part.subject())?.as_str(), "CN=R");
/// assert!(rt; is_to_sign(&part.get_extension::<KeyUsage>(alloc)?));
///
/// let bytes = certificate.to_der(alloc)?;
/// assert_eq!(rt; bytes.as_slice(), CERTIFICATE);
/// ```
pub type Certificate = CertificateInner<Rfc5280>;

/// A path of certificates, the topmost first: each signed the next (RFC 6066 10.1). That they did isn't checked, and an
/// empty sequence is decoded and encoded too.
///
/// ```text
/// PkiPath ::= SEQUENCE OF Certificate
/// ```
pub type PkiPath = SequenceOf<Certificate>;

/// A certificate: the part that is signed, and the signature (RFC 5280 4.1.1). The signature isn't checked.
///
/// ```text
/// Certificate ::= SEQUENCE {
///     tbsCertificate      TBSCertificate,
///     signatureAlgorithm  AlgorithmIdentifier,
///     signatureValue      BIT STRING }
/// ```
#[derive(Debug, PartialEq, Eq)]
pub struct CertificateInner<P: Profile = Rfc5280> {
    tbs_certificate: TbsCertificateInner<P>,
    signature_algorithm: AlgorithmIdentifier,
    signature: BitString,
}

impl<P: Profile> CertificateInner<P> {
    /// The certificate with these fields. It takes no memory.
    pub fn from_parts(
        tbs_certificate: TbsCertificateInner<P>,
        signature_algorithm: AlgorithmIdentifier,
        signature: BitString,
    ) -> CertificateInner<P>
        ensures { result ≡ record { tbs_certificate = tbs_certificate; signature_algorithm = signature_algorithm; signature = signature } }
    {
        CertificateInner {
            tbs_certificate,
            signature_algorithm,
            signature,
        }
    }

    /// The part that is signed (RFC 5280 4.1.1.1).
    pub fn tbs_certificate(&self) -> &TbsCertificateInner<P>
        ensures { result.now ≡ self.now.tbs_certificate }
    {
        &self.tbs_certificate
    }

    /// The algorithm of the signature (RFC 5280 4.1.1.2).
    pub fn signature_algorithm(&self) -> &AlgorithmIdentifier
        ensures { result.now ≡ self.now.signature_algorithm }
    {
        &self.signature_algorithm
    }

    /// The signature of the encoding of the signed part (RFC 5280 4.1.1.3). It isn't checked here.
    pub fn signature(&self) -> &BitString
        ensures { result.now ≡ self.now.signature }
    {
        &self.signature
    }

    /// The digest of the certificate as [`Encode::to_der`] encodes it.
    ///
    /// # Errors
    ///
    /// Those of [`Encode::to_der`]; `Memory` when out of memory.
    pub fn hash<D: CertDigest>(&self, alloc: Global) -> Result<Vec<u8>, Error>
        ensures ok { IfOk result (λ digest. (digest.items ≡ D.digest_of
            (written_spelling ⟦<CertificateInner<P> as Grammar>⟧.form (writes ⟦<CertificateInner<P> as Encode>⟧.writing self.now)))
            × IsWritable ⟦<CertificateInner<P> as Grammar>⟧.form (writes ⟦<CertificateInner<P> as Encode>⟧.writing self.now) limit) }
        ensures err { IfErr result (λ e. (e.kind ≡ Memory) ⊎ IsUnwritable ⟦<CertificateInner<P> as Grammar>⟧.form
            (writes ⟦<CertificateInner<P> as Encode>⟧.writing self.now) limit e.kind) }
    {
        hash::<D, CertificateInner<P>>(alloc, self)
    }
}

impl<P: Profile> Drop for CertificateInner<P> {
    fn drop(self) {
        let CertificateInner {
            tbs_certificate: _,
            signature_algorithm: _,
            signature: _,
        } = self;
    }
}

impl<P: Profile> TryClone for CertificateInner<P> {
    fn try_clone(&self, alloc: Global) -> Result<CertificateInner<P>, Error> {
        Ok(CertificateInner {
            tbs_certificate: self.tbs_certificate.try_clone(alloc)?,
            signature_algorithm: self.signature_algorithm.try_clone(alloc)?,
            signature: self.signature.try_clone(alloc)?,
        })
    }
}

#[tactic(auto, unfolding(crate::specs::Certificate::certificate_fields, x509_der::specs::Frames::fields_reading, x509_der::specs::Frames::fields_octets))]
impl<P: Profile> Content for CertificateInner<P> {
    ghost use Rattle.x509_base.specs.Checked.{CheckRefuses};
    ghost use Rattle.x509_der.specs.declared.tag.Tag.TheVariants.{Sequence};
    ghost use Rattle.x509_cert.specs.Certificate as grammar;

    ghost contents = { grammar.certificate_contents P.serial_check };

    ghost refusals = { CheckRefuses P.serial_check };

    ghost written_as = { grammar.certificate_writing ⟦<TbsCertificateInner<P> as Encode>⟧.writing };

    ghost IDENTIFIER = { Sequence };

    const IDENTIFIER: Tag = Tag::Sequence;

    fn read_content(alloc: Global, octets: &[u8]) -> Result<CertificateInner<P>, Error> {
        let mut rest = octets;
        let tbs_certificate = read_field::<TbsCertificateInner<P>>(alloc, &mut rest)?;
        let signature_algorithm = read_field::<AlgorithmIdentifier>(alloc, &mut rest)?;
        let signature = read_field::<BitString>(alloc, &mut rest)?;
        end(rest)?;
        Ok(CertificateInner {
            tbs_certificate,
            signature_algorithm,
            signature,
        })
    }

    fn write_content<R: Room>(&self, room: &mut R) -> Result<(), Error> {
        let parts = (
            &self.tbs_certificate,
            (&self.signature_algorithm, &self.signature),
        );
        parts.put_part(room)
    }

    ghost contents_lawful = { grammar.certificate_contents_lawful P.serial_check };
}

impl<P: Profile> ValueOrd for CertificateInner<P> {
    ghost use Rattle.x509_cert.specs.Certificate as grammar;

    ghost order = { grammar.certificate_order P.serial_check ⟦<Validity<P> as Encode>⟧.writing };

    fn value_cmp(&self, other: &CertificateInner<P>) -> Ordering {
        let parts = (
            both(&self.tbs_certificate, &other.tbs_certificate),
            (
                both(&self.signature_algorithm, &other.signature_algorithm),
                both(&self.signature, &other.signature),
            ),
        );
        parts.cmp_part(None, None)
    }

    ghost ordered = { grammar.certificate_ordered P.serial_check ⟦<Validity<P> as Encode>⟧.writing };
}

impl<P: Profile> SetOrd for CertificateInner<P> {
    ghost set_order = { ⟦<CertificateInner<P> as EncodingOrd>⟧.encoding_order };
}

impl<P: Profile> SetMember for CertificateInner<P> {
    ghost use Rattle.std.specs.Prelude.{refl};

    ghost in_der_order = { refl };
}

#[tactic(auto, unfolding(crate::specs::Certificate::certificate_fields, x509_der::specs::Frames::fields_good))]
impl<P: Profile> Spelled for CertificateInner<P> {
    ghost use Rattle.std.specs.Prelude.{Ok};

    ghost premise = { λ certificate. P.serial_check certificate.tbs_certificate.serial_number ≡ Ok tt };

    fn has_spelling(&self) {
        self.tbs_certificate.has_spelling();
        self.signature_algorithm.has_spelling();
        self.signature.has_spelling();
    }
}
