//! Where the parts of a certificate stand.

ghost use Rattle.std.specs.Prelude.{◌≡◌, ◌≤◌, ◌+◌, ◌∷◌, ◌++◌, not, true, false, Option, option_copied, option_map, drop, length, List, ℕ};
ghost use Rattle.x509_base.specs.CivilTime.{unix_seconds};
ghost use Rattle.x509_base.specs.Time.{date_time_of};
ghost use Rattle.x509_base.specs.declared.profile.Rfc5280 as rules;
ghost use Rattle.x509_c_calls.specs.View.{IsOptionAt, IsView, version_of};
ghost use Rattle.x509_c_calls.specs.Place.{EndsWith, IsAt};
ghost use Rattle.x509_cert.specs.Version.{is_first};
ghost use Rattle.x509_cert.specs.declared.certificate.certificate.CertificateInner as whole;
ghost use Rattle.x509_der.specs.Element.{element, header, is_identifier};
ghost use Rattle.x509_der.specs.Form.{Spells, spelling};
ghost use Rattle.x509_der.specs.Frames.{explicit, optional_octets};
ghost use Rattle.x509_ext.specs.Extension.{extensions};
ghost use Rattle.x509_ext.specs.declared.extension.Extension.{Extension};

use crate::{NOWHERE, Span, bits_at, unused_at};
use x509_base::{Rfc5280, Time, Validity};
use x509_cert::certificate::{CertificateInner, Version};
use x509_check::CertificateRef;
use x509_der::Grammar;

/// What a certificate says (RFC 5280 4.1.2), and where its parts stand in its bytes. Each part is a whole element, with its identifier and
/// its length.
#[derive(Clone, Copy)]
#[repr(C)]
pub struct CertificateView {
    /// The version: 1, 2 or 3.
    pub version: u32,

    /// The serial number, an INTEGER.
    pub serial_number: Span,

    /// The name of the issuer.
    pub issuer: Span,

    /// The name of the subject.
    pub subject: Span,

    /// The public key, with its algorithm.
    pub subject_public_key_info: Span,

    /// The extensions, a SEQUENCE; where they are absent, both numbers are 0.
    pub extensions: Span,

    /// From when on it is valid, in seconds since 1970-01-01T00:00:00Z.
    pub not_before: u64,

    /// Until when it is valid, in seconds since 1970-01-01T00:00:00Z.
    pub not_after: u64,

    /// The algorithm in the signed part, a whole AlgorithmIdentifier.
    pub inner_algorithm: Span,

    /// The octets of the bits of the issuer's unique identifier; where it is absent, both numbers are 0.
    pub issuer_unique_id: Span,

    /// How many bits of the last of these octets are unused, 0 to 7.
    pub issuer_unused_bits: u32,

    /// The octets of the bits of the subject's unique identifier; where it is absent, both numbers are 0.
    pub subject_unique_id: Span,

    /// How many bits of the last of these octets are unused, 0 to 7.
    pub subject_unused_bits: u32,
}

/// The number of a version, from 1.
fn version_number(version: Version) -> u32
    ensures { result ≡ version_of version }
{
    match version {
        Version::V1 => 1,
        Version::V2 => 2,
        Version::V3 => 3,
    }
}

/// Whether the version is encoded.
pub fn is_written(version: Version) -> bool
    ensures { result ≡ not (is_first version) }
{
    match version {
        Version::V1 => false,
        _ => true,
    }
}

/// The seconds since 1970-01-01T00:00:00Z.
pub fn seconds(time: &Time) -> u64
    ensures { result ≡ unix_seconds (date_time_of time.now) }
{
    time.to_unix_duration().as_secs()
}

/// How long a part is; 0 where it is left out.
fn len_of(lent: Option<&[u8]>) -> usize
    ensures { result ≡ length (optional_octets (λ octets. octets) (option_copied lent.entry)) }
{
    match lent {
        Some(octets) => octets.len(),
        None => 0,
    }
}

/// How many octets stand in front of a content of that many, in its element (X.690 8.1.2, 8.1.3).
#[tactic(auto, unfolding(x509_der::specs::Element::length_octets))]
#[inline(always)]
fn header_len(len: usize) -> usize
    ensures { (tag : ℕ) → result ≡ length (header tag len) }
{
    if len < 128 {
        2
    } else if len < 256 {
        3
    } else if len < 65_536 {
        4
    } else if len < 16_777_216 {
        5
    } else {
        6
    }
}

/// Where a part stands that is so long and ends at the place, which goes back to where the part begins.
#[inline(always)]
fn step_back(input: &[u8], end: &mut usize, len: usize) -> Span
    requires { end.old ≤ length input.now }
    ensures within { end.new ≤ length input.now }
    ensures stands { (text more : List ℕ) → EndsWith text more input.now → len ≡ length text → end.old + length more ≡ length input.now
        → IsAt text more input.now result × (drop end.new input.now ≡ text ++ more) × (end.new + length (text ++ more) ≡ length input.now) }
{
    let place = end.saturating_sub(len);
    *end = place;
    Span { place, len }
}

/// Where the list of extensions stands that ends at the place, inside its explicit tag, in front of which the place goes; both numbers are 0 where
/// it is absent.
#[inline(always)]
fn step_back_over_extensions(input: &[u8], end: &mut usize, lent: Option<&[u8]>) -> Span
    requires { end.old ≤ length input.now }
    ensures within { end.new ≤ length input.now }
    ensures stands { (value : Option (List Extension)) (more : List ℕ) → option_copied lent.entry ≡ option_map (spelling extensions) value
        → EndsWith (optional_octets (spelling (explicit 3 extensions)) value) more input.now → end.old + length more ≡ length input.now
        → IsOptionAt extensions value more input.now result
        × (end.new + length (optional_octets (spelling (explicit 3 extensions)) value ++ more) ≡ length input.now) }
{
    let Some(list) = lent else {
        return NOWHERE;
    };
    let found = step_back(input, end, list.len());
    step_back(input, end, header_len(list.len()));
    found
}

/// Where the octets of bits stand, of a BIT STRING under any tag that may be absent, and how many bits are unused.
fn optional_bits(input: &[u8], place: usize, is_there: bool) -> (Span, u32)
    requires { place ≤ length input.now }
    ensures there { is_there ≡ true → (tag unused : ℕ) (octets more : List ℕ) → is_identifier tag ≡ true
        → drop place input.now ≡ element tag (unused ∷ octets) ++ more → IsAt octets more input.now result.0 × (result.1 ≡ unused) }
    ensures absent { is_there ≡ false → (result.0 ≡ record { place = 0; len = 0 }) × (result.1 ≡ 0) }
{
    if !is_there {
        return (NOWHERE, 0);
    }
    (bits_at(input, place), unused_at(input, place))
}

/// What the certificate says, and where its parts stand in the bytes, which it is lent from with its validity.
pub(crate) fn view_of(
    input: &[u8],
    lent: &CertificateRef<'_>,
    validity: &Validity,
) -> CertificateView
    ensures { (certificate : whole.CertificateInner rules.Rfc5280) → Spells ⟦<CertificateInner<Rfc5280> as Grammar>⟧.form certificate input.now
        → lent.now.bytes.now ≡ input.now → validity.now ≡ certificate.tbs_certificate.validity → IsView input.now certificate result }
{
    let slices = lent.slices();
    let fields = &slices.fields;
    let behind = slices.signature_algorithm.len();
    let mut end = input
        .len()
        .saturating_sub(behind)
        .saturating_sub(slices.signature.len());
    let extensions = step_back_over_extensions(input, &mut end, fields.extensions);
    step_back(input, &mut end, len_of(fields.subject_unique_id));
    let (subject_unique_id, subject_unused_bits) = optional_bits(
        input,
        end,
        fields.subject_unique_id.is_some(),
    );
    step_back(input, &mut end, len_of(fields.issuer_unique_id));
    let (issuer_unique_id, issuer_unused_bits) = optional_bits(
        input,
        end,
        fields.issuer_unique_id.is_some(),
    );
    let subject_public_key_info = step_back(input, &mut end, fields.subject_public_key_info.len());
    let subject = step_back(input, &mut end, fields.subject.len());
    step_back(input, &mut end, fields.validity.len());
    let issuer = step_back(input, &mut end, fields.issuer.len());
    let inner_algorithm = step_back(input, &mut end, fields.signature.len());
    let serial_number = step_back(input, &mut end, fields.serial_number.len());
    CertificateView {
        version: version_number(lent.version()),
        serial_number,
        issuer,
        subject,
        subject_public_key_info,
        extensions,
        not_before: seconds(&validity.not_before),
        not_after: seconds(&validity.not_after),
        inner_algorithm,
        issuer_unique_id,
        issuer_unused_bits,
        subject_unique_id,
        subject_unused_bits,
    }
}
