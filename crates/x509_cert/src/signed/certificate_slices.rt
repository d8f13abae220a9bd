//! The fields of a certificate, lent from its bytes.

ghost use Rattle.std.specs.Prelude.{◌≡◌, ◌≤◌, ◌<◌, length, IfOk, IfErr, IsOkAnd, IsErrAnd};
ghost use Rattle.x509_cert.specs.ElementParts.{certificate_reading, outer_contents, tbs_contents, tbs_reading};
ghost use Rattle.x509_cert.specs.Elements.{CertificateElements, HasCertificateElements, HasTbsElements, TbsElements, certificate_elements, tbs_elements};
ghost use Rattle.x509_der.specs.Element.{limit};
ghost use Rattle.x509_der.specs.Outcome.{GivesBy};
ghost use Rattle.x509_der.specs.declared.error.ErrorKind.TheVariants.{Malformed, Overlength};

use crate::signed::lent::{content_of, take, take_explicit, take_optional};
use x509_der::{Error, ErrorKind, Length, end};

/// The identifier octets of INTEGER, BIT STRING and SEQUENCE.
const INTEGER: u8 = 0x02;

const BIT_STRING: u8 = 0x03;

const SEQUENCE: u8 = 0x30;

/// The identifier octets of the unique identifiers, [1] and [2] IMPLICIT BIT STRING.
const ISSUER_UNIQUE_ID: u8 = 0x81;

const SUBJECT_UNIQUE_ID: u8 = 0x82;

/// The fields of a certificate's signed part (RFC 5280 4.1.2), each as its whole element, as it stands in the bytes.
#[derive(Clone, Copy, Debug)]
pub struct TbsCertificateSlices<'a> {
    /// The INTEGER inside [0]; `None` where it is left out, which means version 1.
    pub version: Option<&'a [u8]>,

    /// The serial number.
    pub serial_number: &'a [u8],

    /// The algorithm of the signature, as the signed part has it.
    pub signature: &'a [u8],

    /// The name of the issuer.
    pub issuer: &'a [u8],

    /// The validity.
    pub validity: &'a [u8],

    /// The name of the subject.
    pub subject: &'a [u8],

    /// The key with its algorithm.
    pub subject_public_key_info: &'a [u8],

    /// The unique identifier of the issuer, under [1].
    pub issuer_unique_id: Option<&'a [u8]>,

    /// The unique identifier of the subject, under [2].
    pub subject_unique_id: Option<&'a [u8]>,

    /// The SEQUENCE OF Extension inside [3].
    pub extensions: Option<&'a [u8]>,
}

/// A certificate's signed part, its fields, and what stands behind it (RFC 5280 4.1), each as its whole element, as it
/// stands in the bytes.
///
/// ```text
/// let fields = CertificateSlices::from_der(bytes)?.fields;
/// let is_self_issued = fields.issuer == fields.subject;
/// let key: &[u8] = fields.subject_public_key_info;
/// ```
#[derive(Clone, Copy, Debug)]
pub struct CertificateSlices<'a> {
    /// The signed part.
    pub tbs_certificate: &'a [u8],

    /// The fields of the signed part.
    pub fields: TbsCertificateSlices<'a>,

    /// The algorithm of the signature, as it stands outside the signed part.
    pub signature_algorithm: &'a [u8],

    /// The BIT STRING of the signature.
    pub signature: &'a [u8],
}

impl<'a> TbsCertificateSlices<'a> {
    /// The fields of the signed part that the bytes are, as [`CertificateSlices::from_der`] lends it and as logs of certificates
    /// have it. It takes no memory.
    ///
    /// # Errors
    ///
    /// `Overlength` exactly where the bytes are more than [`Length::MAX`]; within that `Malformed` exactly where they aren't one
    /// SEQUENCE of the elements that RFC 5280 4.1.2 says. What stands in the elements is not looked into, so it may be
    /// anything.
    pub fn from_der(bytes: &'a [u8]) -> Result<TbsCertificateSlices<'a>, Error>
        ensures found { IfOk result (λ slices. HasTbsElements bytes.now (tbs_elements slices)) }
        ensures overlength { limit < length bytes.now → IsErrAnd result (λ e. e.kind ≡ Overlength) }
        ensures refused { length bytes.now ≤ limit → IfErr result (λ e. (e.kind ≡ Malformed)
            × ((elements : TbsElements) → ¬ (HasTbsElements bytes.now elements))) }
        ensures one { (elements : TbsElements) → HasTbsElements bytes.now elements → IsOkAnd result (λ slices. tbs_elements slices ≡ elements) }
    {
        if bytes.len() > Length::MAX.as_u32() as usize {
            return Err(ErrorKind::Overlength.into());
        }
        read_tbs_certificate(bytes)
    }
}

impl<'a> CertificateSlices<'a> {
    /// The parts of the certificate that the bytes are, and the fields of its signed part. It takes no memory.
    ///
    /// # Errors
    ///
    /// `Overlength` exactly where the bytes are more than [`Length::MAX`]; within that `Malformed` exactly where they aren't one
    /// SEQUENCE of the elements that RFC 5280 4.1 says. What stands in the elements is not looked into, so it may be
    /// anything. The bytes of a certificate within that length are never refused.
    pub fn from_der(bytes: &'a [u8]) -> Result<CertificateSlices<'a>, Error>
        ensures found { IfOk result (λ slices. HasCertificateElements bytes.now (certificate_elements slices)) }
        ensures overlength { limit < length bytes.now → IsErrAnd result (λ e. e.kind ≡ Overlength) }
        ensures refused { length bytes.now ≤ limit → IfErr result (λ e. (e.kind ≡ Malformed)
            × ((elements : CertificateElements) → ¬ (HasCertificateElements bytes.now elements))) }
        ensures one { (elements : CertificateElements) → HasCertificateElements bytes.now elements
            → IsOkAnd result (λ slices. certificate_elements slices ≡ elements) }
    {
        if bytes.len() > Length::MAX.as_u32() as usize {
            return Err(ErrorKind::Overlength.into());
        }
        read_certificate(bytes)
    }
}

fn read_certificate(bytes: &[u8]) -> Result<CertificateSlices<'_>, Error>
    ensures exact { GivesBy certificate_elements result (certificate_reading bytes.now) }
    ensures err { IfErr result (λ e. e.kind ≡ Malformed) }
{
    let (tbs_certificate, signature_algorithm, signature) = read_outer(content_of(
        SEQUENCE, bytes,
    )?)?;
    let fields = read_tbs_certificate(tbs_certificate)?;
    Ok(CertificateSlices {
        tbs_certificate,
        fields,
        signature_algorithm,
        signature,
    })
}

#[tactic(auto, unfolding(crate::specs::ElementParts::outer_parts, x509_der::specs::Frames::fields_reading))]
fn read_outer(content: &[u8]) -> Result<(&[u8], &[u8], &[u8]), Error>
    ensures exact { GivesBy (λ x. (x.0.now, (x.1.now, x.2.now))) result (outer_contents.reading content.now) }
    ensures err { IfErr result (λ e. e.kind ≡ Malformed) }
{
    let (tbs_certificate, rest) = take(SEQUENCE, content)?;
    let (signature_algorithm, rest) = take(SEQUENCE, rest)?;
    let (signature, rest) = take(BIT_STRING, rest)?;
    end(rest)?;
    Ok((tbs_certificate, signature_algorithm, signature))
}

fn read_tbs_certificate(bytes: &[u8]) -> Result<TbsCertificateSlices<'_>, Error>
    ensures exact { GivesBy tbs_elements result (tbs_reading bytes.now) }
    ensures err { IfErr result (λ e. e.kind ≡ Malformed) }
{
    read_fields(content_of(SEQUENCE, bytes)?)
}

#[tactic(auto, unfolding(crate::specs::ElementParts::tbs_parts, x509_der::specs::Frames::fields_reading))]
fn read_fields(content: &[u8]) -> Result<TbsCertificateSlices<'_>, Error>
    ensures exact { GivesBy tbs_elements result (tbs_contents.reading content.now) }
    ensures err { IfErr result (λ e. e.kind ≡ Malformed) }
{
    let (version, rest) = take_explicit(0, INTEGER, content)?;
    let (serial_number, rest) = take(INTEGER, rest)?;
    let (signature, rest) = take(SEQUENCE, rest)?;
    let (issuer, rest) = take(SEQUENCE, rest)?;
    let (validity, rest) = take(SEQUENCE, rest)?;
    let (subject, rest) = take(SEQUENCE, rest)?;
    let (subject_public_key_info, rest) = take(SEQUENCE, rest)?;
    let (issuer_unique_id, rest) = take_optional(ISSUER_UNIQUE_ID, rest)?;
    let (subject_unique_id, rest) = take_optional(SUBJECT_UNIQUE_ID, rest)?;
    let (extensions, rest) = take_explicit(3, SEQUENCE, rest)?;
    end(rest)?;
    Ok(TbsCertificateSlices {
        version,
        serial_number,
        signature,
        issuer,
        validity,
        subject,
        subject_public_key_info,
        issuer_unique_id,
        subject_unique_id,
        extensions,
    })
}
