//! A certificate, lent from its bytes.

ghost use Rattle.std.proofs.Props.{props};
ghost use Rattle.std.specs.Prelude.{◌≡◌, ◌≤◌, length, Some, None, Ok, IsOk, option_copied, if◌then◌else◌};
ghost use Rattle.x509_cert.specs.Certificate.{certificate};
ghost use Rattle.x509_cert.specs.ElementParts.{certificate_reading};
ghost use Rattle.x509_cert.specs.Elements.{certificate_elements};
ghost use Rattle.x509_cert.specs.Version.{is_first, version};
ghost use Rattle.x509_cert.specs.declared.certificate.version.Version as versions;
ghost use Rattle.x509_der.specs.Element.{limit};
ghost use Rattle.x509_der.specs.Form.{spelling, whole_reading};

use crate::content::PlainContent;
use crate::element::content_of;
use crate::lent::certificate_walk::walk_certificate;
use crate::lent::extensions::ExtensionRefs;
use std::alloc::{AllocError, Global};
use std::marker::PhantomData;
use x509_base::{Profile, Rfc5280, Validity};
use x509_cert::certificate::{CertificateInner, CertificateSlices, TbsCertificateInner, Version};
use x509_der::{AssociatedOid, Decode, Error, ErrorKind, Grammar, Length};

/// A certificate that is lent from its encoding (RFC 5280 4.1), which was checked: it is that of a
/// [`CertificateInner`] under the profile. Each field is lent or decoded when it is asked for; no memory is taken.
#[derive(Debug)]
pub struct CertificateRef<'a, P: Profile = Rfc5280> {
    bytes: &'a [u8],
    slices: CertificateSlices<'a>,
    profile: PhantomData<P>,
    ghost within: { length bytes.now ≤ limit },
    ghost checked: { IsOk (whole_reading (certificate {P = P} P.serial_check).reading bytes.now) },
    ghost elements: { certificate_reading bytes.now ≡ Ok (certificate_elements slices) } by { Prim.hlevel props },
}

impl<P: Profile> Clone for CertificateRef<'_, P> {
    ghost use Rattle.std.specs.Prelude.{◌≡◌};

    ghost is_clone = { λ lent copy. copy ≡ lent };

    ghost is_infallible = { λ _. Unit };

    fn clone(&self) -> Result<Self, AllocError> {
        Ok(*self)
    }
}

impl<P: Profile> Copy for CertificateRef<'_, P> {}

/// The version, by its element, which the first is without.
fn version_of(lent: Option<&[u8]>) -> Version
    ensures { (v : versions.Version) → option_copied lent.entry ≡ (if is_first v then None else Some (spelling version v)) → result ≡ v }
{
    let Some(lent) = lent else {
        return Version::V1;
    };
    if lent == [0x02, 0x01, 0x01].as_slice() {
        Version::V2
    } else {
        Version::V3
    }
}

impl<'a, P: Profile> CertificateRef<'a, P> {
    ghost use Rattle.std.specs.Prelude.{◌≡◌, ◌<◌, ◌≤◌, ◌⊎◌, length, Err, Ok, IfOk, IfErr, IsErrAnd, IsOk};
    ghost use Rattle.x509_base.specs.AlgorithmIdentifier.{algorithm_identifier};
    ghost use Rattle.x509_base.specs.SubjectPublicKeyInfo.{subject_public_key_info};
    ghost use Rattle.x509_cert.specs.Elements.{certificate_elements};
    ghost use Rattle.x509_cert.specs.Signed.{IsSignedPart};
    ghost use Rattle.x509_cert.specs.Spellings.{certificate_spellings};
    ghost use Rattle.x509_cert.specs.declared.certificate.certificate.CertificateInner as whole;
    ghost use Rattle.x509_check.specs.ExtensionRefs.{extensions_left};
    ghost use Rattle.x509_der.specs.Element.{limit};
    ghost use Rattle.x509_der.specs.Form.{Spells, spelling, whole_reading};
    ghost use Rattle.x509_der.specs.declared.error.ErrorKind.TheVariants as errors;
    ghost use Rattle.x509_ext.specs.LookUp.{Finds, members, with_oid};
    ghost use Rattle.x509_name.specs.Names.{name};
    ghost use Rattle.x509_prim.specs.BitString.{bit_string};

    /// The certificate that the bytes are the encoding of. It is checked in one pass, without memory.
    ///
    /// # Errors
    ///
    /// `Overlength` exactly where the bytes are more than [`Length::MAX`]. Within that length
    /// `Malformed`, or an error of the profile, exactly where they are the encoding of no certificate: the error that
    /// `CertificateInner::from_der` answers.
    pub fn from_der(bytes: &'a [u8]) -> Result<CertificateRef<'a, P>, Error>
        ensures found { IfOk result (λ lent. (lent.bytes.now ≡ bytes.now)
            × ((certificate : whole.CertificateInner P) × Spells ⟦<CertificateInner<P> as Grammar>⟧.form certificate bytes.now)) }
        ensures overlength { limit < length bytes.now → IsErrAnd result (λ e. e.kind ≡ errors.Overlength) }
        ensures refused { length bytes.now ≤ limit → IfErr result (λ e. (e.kind ≡ errors.Malformed) ⊎ ⟦<CertificateInner<P> as Grammar>⟧.refuses e.kind) }
        ensures every { (certificate : whole.CertificateInner P) → Spells ⟦<CertificateInner<P> as Grammar>⟧.form certificate bytes.now → IsOk result }
        ensures which { length bytes.now ≤ limit → IfErr result (λ e. whole_reading ⟦<CertificateInner<P> as Grammar>⟧.form.reading bytes.now ≡ Err e.kind) }
    {
        if bytes.len() > Length::MAX.as_u32() as usize {
            return Err(ErrorKind::Overlength.into());
        }
        match walk_certificate::<P>(bytes) {
            Ok(walked) => Ok(CertificateRef {
                bytes,
                slices: walked.slices,
                profile: PhantomData,
            }),
            Err(e) => Err(e),
        }
    }

    /// As [`CertificateRef::from_der`], with the validity of the certificate, which the same pass decodes.
    ///
    /// # Errors
    ///
    /// Those of [`CertificateRef::from_der`].
    pub fn from_der_with_validity(
        bytes: &'a [u8],
    ) -> Result<(CertificateRef<'a, P>, Validity<P>), Error>
        ensures found { IfOk result (λ lent. (lent.0.bytes.now ≡ bytes.now)
            × ((certificate : whole.CertificateInner P) × Spells ⟦<CertificateInner<P> as Grammar>⟧.form certificate bytes.now)) }
        ensures validity { IfOk result (λ lent. (certificate : whole.CertificateInner P) → Spells ⟦<CertificateInner<P> as Grammar>⟧.form certificate bytes.now
            → lent.1 ≡ certificate.tbs_certificate.validity) }
        ensures overlength { limit < length bytes.now → IsErrAnd result (λ e. e.kind ≡ errors.Overlength) }
        ensures refused { length bytes.now ≤ limit → IfErr result (λ e. (e.kind ≡ errors.Malformed) ⊎ ⟦<CertificateInner<P> as Grammar>⟧.refuses e.kind) }
        ensures every { (certificate : whole.CertificateInner P) → Spells ⟦<CertificateInner<P> as Grammar>⟧.form certificate bytes.now → IsOk result }
        ensures which { length bytes.now ≤ limit → IfErr result (λ e. whole_reading ⟦<CertificateInner<P> as Grammar>⟧.form.reading bytes.now ≡ Err e.kind) }
    {
        if bytes.len() > Length::MAX.as_u32() as usize {
            return Err(ErrorKind::Overlength.into());
        }
        match walk_certificate::<P>(bytes) {
            Ok(walked) => {
                let lent = CertificateRef {
                    bytes,
                    slices: walked.slices,
                    profile: PhantomData,
                };
                Ok((lent, Validity::new(walked.not_before, walked.not_after)))
            }
            Err(e) => Err(e),
        }
    }

    /// The encoding.
    pub fn as_bytes(&self) -> &'a [u8]
        ensures same { result.now ≡ self.now.bytes.now }
        ensures found { (certificate : whole.CertificateInner P) × Spells ⟦<CertificateInner<P> as Grammar>⟧.form certificate result.now }
    {
        self.bytes
    }

    /// The elements of the certificate's parts, and of the fields of its signed part.
    pub fn slices(&self) -> &CertificateSlices<'a>
        ensures { (certificate : whole.CertificateInner P) → Spells ⟦<CertificateInner<P> as Grammar>⟧.form certificate self.now.bytes.now
            → certificate_elements result.now ≡ certificate_spellings certificate }
    {
        &self.slices
    }

    /// The version.
    pub fn version(&self) -> Version
        ensures { (certificate : whole.CertificateInner P) → Spells ⟦<CertificateInner<P> as Grammar>⟧.form certificate self.now.bytes.now
            → result ≡ certificate.tbs_certificate.version }
    {
        version_of(self.slices.fields.version)
    }

    /// The content octets of the serial number.
    pub fn serial_number(&self) -> &'a [u8]
        ensures { (certificate : whole.CertificateInner P) → Spells ⟦<CertificateInner<P> as Grammar>⟧.form certificate self.now.bytes.now
            → result.now ≡ certificate.tbs_certificate.serial_number }
    {
        content_of(self.slices.fields.serial_number)
    }

    /// The name of the issuer, as its element.
    pub fn issuer(&self) -> &'a [u8]
        ensures { (certificate : whole.CertificateInner P) → Spells ⟦<CertificateInner<P> as Grammar>⟧.form certificate self.now.bytes.now
            → result.now ≡ spelling name certificate.tbs_certificate.issuer }
    {
        self.slices.fields.issuer
    }

    /// The validity.
    pub fn validity(&self) -> Validity<P>
        ensures { (certificate : whole.CertificateInner P) → Spells ⟦<CertificateInner<P> as Grammar>⟧.form certificate self.now.bytes.now
            → result ≡ certificate.tbs_certificate.validity }
    {
        let octets = content_of(self.slices.fields.validity);
        let Ok(validity) = Validity::<P>::plain_value(octets) else {
            unreachable!()
        };
        validity
    }

    /// The name of the subject, as its element.
    pub fn subject(&self) -> &'a [u8]
        ensures { (certificate : whole.CertificateInner P) → Spells ⟦<CertificateInner<P> as Grammar>⟧.form certificate self.now.bytes.now
            → result.now ≡ spelling name certificate.tbs_certificate.subject }
    {
        self.slices.fields.subject
    }

    /// The public key with its algorithm, as its element.
    pub fn subject_public_key_info(&self) -> &'a [u8]
        ensures { (certificate : whole.CertificateInner P) → Spells ⟦<CertificateInner<P> as Grammar>⟧.form certificate self.now.bytes.now
            → result.now ≡ spelling subject_public_key_info certificate.tbs_certificate.subject_public_key_info }
    {
        self.slices.fields.subject_public_key_info
    }

    /// The algorithm of the signature, as it stands outside the signed part, as its element.
    pub fn signature_algorithm(&self) -> &'a [u8]
        ensures { (certificate : whole.CertificateInner P) → Spells ⟦<CertificateInner<P> as Grammar>⟧.form certificate self.now.bytes.now
            → result.now ≡ spelling algorithm_identifier certificate.signature_algorithm }
    {
        self.slices.signature_algorithm
    }

    /// The signature, as its BIT STRING.
    pub fn signature(&self) -> &'a [u8]
        ensures { (certificate : whole.CertificateInner P) → Spells ⟦<CertificateInner<P> as Grammar>⟧.form certificate self.now.bytes.now
            → result.now ≡ spelling bit_string certificate.signature }
    {
        self.slices.signature
    }

    /// The signed part: the bytes that the signature is over, as they stand.
    pub fn signed_part(&self) -> &'a [u8]
        ensures signed { IsSignedPart self.now.bytes.now result.now }
        ensures part { (certificate : whole.CertificateInner P) → Spells ⟦<CertificateInner<P> as Grammar>⟧.form certificate self.now.bytes.now
            → Spells ⟦<TbsCertificateInner<P> as Grammar>⟧.form certificate.tbs_certificate result.now }
    {
        self.slices.tbs_certificate
    }

    /// The extensions, in their order; none where the list is absent.
    pub fn extensions(&self) -> ExtensionRefs<'a>
        ensures { (certificate : whole.CertificateInner P) → Spells ⟦<CertificateInner<P> as Grammar>⟧.form certificate self.now.bytes.now
            → extensions_left result ≡ members certificate.tbs_certificate.extensions }
    {
        let Some(list) = self.slices.fields.extensions else {
            return ExtensionRefs::empty();
        };
        ExtensionRefs::of_checked(list)
    }

    /// The extension of type `T`, found by the OID of the type: whether it is critical, and its value; `None` exactly
    /// where no extension has the OID.
    ///
    /// # Errors
    ///
    /// `Failed` where two or more extensions have the OID (a repeated extension), whatever they hold. Where one has it,
    /// the errors of [`Decode::from_der`] on the octets that it holds, `Memory` only where decoding the type may take
    /// memory.
    pub fn get_extension<T: AssociatedOid + Decode>(
        &self,
        alloc: Global,
    ) -> Result<Option<(bool, T)>, Error>
        ensures { (certificate : whole.CertificateInner P) → Spells ⟦<CertificateInner<P> as Grammar>⟧.form certificate self.now.bytes.now
            → Finds T.form T.refuses T.wants_memory (with_oid T.OID (members certificate.tbs_certificate.extensions)) result }
    {
        self.extensions().get_extension::<T>(alloc)
    }

    /// The certificate itself: what `CertificateInner::from_der` answers on the encoding.
    ///
    /// # Errors
    ///
    /// `Memory` when out of memory, and nothing else.
    pub fn to_owned(&self, alloc: Global) -> Result<CertificateInner<P>, Error>
        ensures found { IfOk result (λ certificate. Spells ⟦<CertificateInner<P> as Grammar>⟧.form certificate self.now.bytes.now) }
        ensures err { IfErr result (λ e. e.kind ≡ errors.Memory) }
    {
        CertificateInner::<P>::from_der(alloc, self.bytes)
    }
}
