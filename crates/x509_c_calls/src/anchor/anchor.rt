//! Where the parts of a trust anchor stand.

ghost use Rattle.std.specs.Prelude.{◌≡◌, ◌≤◌, ◌++◌, drop, length, List, ℕ};
ghost use Rattle.x509_base.specs.Profiles.{rfc5280_serial_number};
ghost use Rattle.x509_c_calls.specs.Anchors.{IsCertificateAnchor, IsInfoAnchor, IsPartAnchor};
ghost use Rattle.x509_cert.specs.TrustAnchorInfo.{trust_anchor_info};
ghost use Rattle.x509_cert.specs.Certificate.{certificate};
ghost use Rattle.x509_cert.specs.TbsCertificate.{tbs_certificate};
ghost use Rattle.x509_der.specs.Frames.{explicit};
ghost use Rattle.x509_der.specs.Form.{spelling};

use crate::anchor::info::InfoView;
use crate::anchor::part::PartView;
use crate::{NOWHERE, Span, View, content_at, enter, step};
use x509_base::Rfc5280;
use x509_cert::anchor::{TrustAnchorChoice, TrustAnchorInfo};
use x509_cert::certificate::{CertificateInner, TbsCertificateInner};

/// A trust anchor (RFC 5914 3), by its places. An absent part has offset 0 and length 0.
#[derive(Clone, Copy)]
#[repr(C)]
pub struct AnchorView {
    /// What it is: 0 for a Certificate, 1 for a TBSCertificate, 2 for a TrustAnchorInfo.
    pub kind: u32,

    /// Where that stands, a whole element, within its tag.
    pub element: Span,

    /// The name: that of the subject, or that in the constraints on paths.
    pub name: Span,

    /// The public key, with its algorithm.
    pub subject_public_key_info: Span,

    /// The extensions, a SEQUENCE.
    pub extensions: Span,

    /// Of a TrustAnchorInfo the octets of the key identifier.
    pub key_identifier: Span,

    /// Of a TrustAnchorInfo the octets of the title, in UTF-8.
    pub title: Span,

    /// Of a TrustAnchorInfo the octets of the language of the title.
    pub title_language: Span,

    /// Of a TrustAnchorInfo the constraints on paths, a whole CertPathControls.
    pub controls: Span,
}

/// An anchor of that kind that stands there and has these parts.
fn with_part(kind: u32, element: Span, part: PartView) -> AnchorView
    ensures { result ≡ record {
      kind = kind;
      element = element;
      name = part.subject;
      subject_public_key_info = part.subject_public_key_info;
      extensions =
          part.extensions;
      key_identifier = record { place = 0; len = 0 };
      title = record { place = 0; len = 0 };
      title_language =
          record { place = 0; len = 0 };
      controls = record { place = 0; len = 0 };
    } }
{
    AnchorView {
        kind,
        element,
        name: part.subject,
        subject_public_key_info: part.subject_public_key_info,
        extensions: part.extensions,
        key_identifier: NOWHERE,
        title: NOWHERE,
        title_language: NOWHERE,
        controls: NOWHERE,
    }
}

/// The anchor that is the certificate at the place.
fn of_certificate(input: &[u8], place: usize, value: &CertificateInner<Rfc5280>) -> AnchorView
    requires { place ≤ length input.now }
    ensures { (behind : List ℕ) → drop place input.now ≡ spelling (certificate rfc5280_serial_number) value.now ++ behind
        → IsCertificateAnchor input.now value.now behind result }
{
    let mut at = place;
    let element = step(input, &mut at, true);
    let mut inside = place;
    enter(input, &mut inside);
    let part = PartView::view(input, inside, value.tbs_certificate());
    with_part(0, element, part)
}

/// The anchor that is the TBSCertificate whose tag stands at the place.
fn of_part(input: &[u8], place: usize, value: &TbsCertificateInner<Rfc5280>) -> AnchorView
    requires { place ≤ length input.now }
    ensures { (behind : List ℕ) → drop place input.now ≡ spelling (explicit 1 (tbs_certificate rfc5280_serial_number)) value.now ++ behind
        → IsPartAnchor input.now value.now behind result }
{
    let element = content_at(input, place);
    let part = PartView::view(input, element.place, value);
    with_part(1, element, part)
}

/// The anchor that is the TrustAnchorInfo whose tag stands at the place.
fn of_info(input: &[u8], place: usize, value: &TrustAnchorInfo<Rfc5280>) -> AnchorView
    requires { place ≤ length input.now }
    ensures { (behind : List ℕ) → drop place input.now ≡ spelling (explicit 2 (trust_anchor_info rfc5280_serial_number)) value.now ++ behind
        → IsInfoAnchor input.now value.now behind result }
{
    let element = content_at(input, place);
    let info = InfoView::view(input, element.place, value);
    AnchorView {
        kind: 2,
        element,
        name: info.name,
        subject_public_key_info: info.subject_public_key_info,
        extensions: info.extensions,
        key_identifier: info.key_identifier,
        title: info.title,
        title_language: info.title_language,
        controls: info.controls,
    }
}

impl View for AnchorView {
    ghost use Rattle.x509_c_calls.specs.Anchors.{IsAnchor};

    type Value = TrustAnchorChoice<Rfc5280>;

    ghost shows = { IsAnchor };

    fn view(input: &[u8], place: usize, value: &TrustAnchorChoice<Rfc5280>) -> AnchorView {
        match value {
            TrustAnchorChoice::Certificate(value) => of_certificate(input, place, value),
            TrustAnchorChoice::TbsCertificate(value) => of_part(input, place, value),
            TrustAnchorChoice::TaInfo(value) => of_info(input, place, value),
        }
    }
}
