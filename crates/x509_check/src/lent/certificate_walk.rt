//! A walk over an encoded certificate, which checks it, lends its fields, and decodes its validity on the way.

ghost use Rattle.std.specs.Prelude.{◌≤◌, length};
ghost use Rattle.x509_cert.specs.Certificate.{certificate, certificate_contents};
ghost use Rattle.x509_cert.specs.TbsCertificate.{tbs_certificate, tbs_certificate_contents};
ghost use Rattle.x509_check.specs.CertificateWalk.{LendsPart, LendsWhole};
ghost use Rattle.x509_check.specs.Lending.{LendsSo, LendsSoBefore};
ghost use Rattle.x509_der.specs.Element.{limit};
ghost use Rattle.x509_der.specs.Form.{whole_reading};
ghost use Rattle.x509_der.specs.Frames.{required};

use crate::element::next_element;
use crate::lent::checked::{
    take_defaulted_explicit, take_field, take_optional_explicit, take_optional_implicit,
    take_with_value,
};
use x509_base::{AlgorithmIdentifier, Profile, SerialNumber, SubjectPublicKeyInfo, Time, Validity};
use x509_cert::certificate::{CertificateSlices, TbsCertificateSlices, Version};
use x509_der::{Error, ErrorKind, Tag, end};
use x509_ext::Extensions;
use x509_name::name::Name;
use x509_prim::BitString;

/// The fields of a signed part, and its validity.
#[derive(Clone, Copy)]
pub(crate) struct WalkedFields<'a> {
    /// The fields.
    pub(crate) fields: TbsCertificateSlices<'a>,

    /// The first moment of the validity.
    pub(crate) not_before: Time,

    /// The last moment of the validity.
    pub(crate) not_after: Time,
}

/// The parts of a certificate, and its validity.
#[derive(Clone, Copy)]
pub(crate) struct WalkedCertificate<'a> {
    /// The parts.
    pub(crate) slices: CertificateSlices<'a>,

    /// The first moment of the validity.
    pub(crate) not_before: Time,

    /// The last moment of the validity.
    pub(crate) not_after: Time,
}

/// The fields of the signed part with these content octets (RFC 5280 4.1.2), and its validity.
#[tactic(auto, unfolding(x509_cert::specs::TbsCertificate::tbs_certificate_fields, x509_der::specs::Frames::fields_reading))]
#[inline(always)]
fn walk_fields<P: Profile>(octets: &[u8]) -> Result<WalkedFields<'_>, Error>
    requires { length octets.now ≤ limit }
    ensures { LendsSo (LendsPart {P = P}) result ((tbs_certificate_contents {P = P} P.serial_check).reading octets.now) }
{
    let mut rest = octets;
    let version = take_defaulted_explicit::<Version>(0, &mut rest)?;
    let serial_number = take_field::<SerialNumber<P>>(&mut rest)?;
    let signature = take_field::<AlgorithmIdentifier>(&mut rest)?;
    let issuer = take_field::<Name>(&mut rest)?;
    let (validity, dates) = match take_with_value::<Validity<P>>(&mut rest) {
        Ok(found) => found,
        Err(e) => return Err(e),
    };
    let subject = take_field::<Name>(&mut rest)?;
    let subject_public_key_info = take_field::<SubjectPublicKeyInfo>(&mut rest)?;
    let issuer_unique_id = take_optional_implicit::<BitString>(1, &mut rest)?;
    let subject_unique_id = take_optional_implicit::<BitString>(2, &mut rest)?;
    let extensions = take_optional_explicit::<Extensions>(3, &mut rest)?;
    end(rest)?;
    let fields = TbsCertificateSlices {
        version,
        serial_number,
        signature,
        issuer,
        validity,
        subject,
        subject_public_key_info,
        issuer_unique_id,
        subject_unique_id,
        extensions,
    };
    Ok(WalkedFields {
        fields,
        not_before: dates.not_before,
        not_after: dates.not_after,
    })
}

/// Walks the signed part at the front.
#[inline(always)]
fn walk_part<'a, P: Profile>(rest: &mut &'a [u8]) -> Result<WalkedFields<'a>, Error>
    requires { length rest.old.now ≤ limit }
    ensures exact { LendsSoBefore (LendsPart {P = P}) result rest.new.now ((required (tbs_certificate {P = P} P.serial_check)).reading rest.old.now) }
    ensures left { length rest.new.now ≤ length rest.old.now }
{
    let piece = next_element(*rest, Tag::Sequence)?;
    if piece.tag != Tag::Sequence.octet() {
        return Err(ErrorKind::Malformed.into());
    }
    *rest = piece.rest;
    walk_fields::<P>(piece.content)
}

/// The parts of the certificate with these content octets (RFC 5280 4.1.1), and its validity.
#[tactic(auto, unfolding(x509_cert::specs::Certificate::certificate_fields, x509_der::specs::Frames::fields_reading))]
#[inline(always)]
fn walk_content<P: Profile>(octets: &[u8]) -> Result<WalkedCertificate<'_>, Error>
    requires { length octets.now ≤ limit }
    ensures { LendsSo (LendsWhole {P = P}) result ((certificate_contents {P = P} P.serial_check).reading octets.now) }
{
    let mut rest = octets;
    match walk_part::<P>(&mut rest) {
        Ok(walked) => {
            let tbs_certificate = &octets[..octets.len() - rest.len()];
            let signature_algorithm = take_field::<AlgorithmIdentifier>(&mut rest)?;
            let signature = take_field::<BitString>(&mut rest)?;
            end(rest)?;
            let slices = CertificateSlices {
                tbs_certificate,
                fields: walked.fields,
                signature_algorithm,
                signature,
            };
            Ok(WalkedCertificate {
                slices,
                not_before: walked.not_before,
                not_after: walked.not_after,
            })
        }
        Err(e) => Err(e),
    }
}

/// The parts of the certificate that the bytes are the encoding of, which is checked on the way, and its validity.
#[tactic(auto, unfolding(x509_der::specs::Form::whole_reading))]
#[inline(always)]
pub(crate) fn walk_certificate<P: Profile>(bytes: &[u8]) -> Result<WalkedCertificate<'_>, Error>
    requires { length bytes.now ≤ limit }
    ensures { LendsSo (LendsWhole {P = P}) result (whole_reading (certificate {P = P} P.serial_check).reading bytes.now) }
{
    let piece = next_element(bytes, Tag::Sequence)?;
    if !piece.rest.is_empty() || piece.tag != Tag::Sequence.octet() {
        return Err(ErrorKind::Malformed.into());
    }
    walk_content::<P>(piece.content)
}
