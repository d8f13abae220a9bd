//! Entries of CRLs, lent from their bytes.

ghost use Rattle.std.specs.List.{list_any};
ghost use Rattle.std.specs.Prelude.{◌≡◌, ◌≤◌, length, option_map, List, ℕ, Option, Ok, IsOk, IsTrue};
ghost use Rattle.x509_check.specs.CrlRefs.{IsUndated, is_marked, lent_entry, marks, reason_alone};
ghost use Rattle.x509_check.specs.ExtensionRefs.{SpellsOptional, extensions_left};
ghost use Rattle.x509_check.specs.Lending.{LendsSo, LendsSoBefore};
ghost use Rattle.x509_cert.specs.RevokedCert.{revoked_cert, revoked_cert_contents};
ghost use Rattle.x509_cert.specs.declared.crl.revoked_cert.RevokedCert as revoked;
ghost use Rattle.x509_der.specs.Element.{limit};
ghost use Rattle.x509_der.specs.Form.{Spells};
ghost use Rattle.x509_der.specs.Frames.{optional, required};
ghost use Rattle.x509_ext.specs.Extension.{extensions};
ghost use Rattle.x509_ext.specs.LookUp.{members};
ghost use Rattle.x509_ext.specs.declared.extension.Extension.{Extension};

use crate::element::next_element;
use crate::field::check_field;
use crate::lent::checked::take_field;
use crate::lent::extensions::ExtensionRefs;
use crate::lent::fields::{take_serial, take_time};
use crate::lent::undated::UndatedCertRef;
use x509_base::{Profile, Time};
use x509_der::{AssociatedOid, Error, ErrorKind, Tag, end};
use x509_ext::Extensions;
use x509_ext::pkix::CertificateIssuer;

/// What stands before the reason's octet in the list of a reason alone: the list, the extension, its OID 2.5.29.21, its octets, and an ENUMERATED of one.
const REASON: &[u8] = &[
    0x30, 0x0C, 0x30, 0x0A, 0x06, 0x03, 0x55, 0x1D, 0x15, 0x04, 0x03, 0x0A, 0x01,
];

/// An entry of a CRL (RFC 5280 5.1.2.6), lent from its encoding: a certificate that was revoked. It is what
/// [`RevokedCert`](x509_cert::crl::RevokedCert) is, without copies.
#[derive(Clone, Copy, Debug)]
pub struct RevokedCertRef<'a> {
    /// The content octets of the serial number that the issuer gave the certificate.
    pub serial_number: &'a [u8],

    /// When it was revoked.
    pub revocation_date: Time,

    /// The extensions of the entry, such as the reason for which the certificate was revoked.
    pub crl_entry_extensions: Option<ExtensionRefs<'a>>,
}

/// The extensions of which the bytes are the list, as is known; none where there are no bytes.
#[inline(always)]
pub(crate) fn known_extensions(bytes: &[u8]) -> Option<ExtensionRefs<'_>>
    requires { (list : Option (List Extension)) × SpellsOptional list bytes.now }
    ensures { (list : Option (List Extension)) → SpellsOptional list bytes.now → option_map extensions_left result ≡ list }
{
    if bytes.is_empty() {
        return None;
    }
    Some(ExtensionRefs::of_checked(bytes))
}

/// The entry of which these are the content octets, as is known. No more is looked at than has to be to find its parts, and to read its date.
#[inline(always)]
pub(crate) fn known_content<P: Profile>(octets: &[u8]) -> RevokedCertRef<'_>
    requires within { length octets.now ≤ limit }
    requires known { IsOk ((revoked_cert_contents {P = P} P.serial_check).reading octets.now) }
    ensures { (entry : revoked.RevokedCert P) → (revoked_cert_contents {P = P} P.serial_check).reading octets.now ≡ Ok entry → lent_entry result ≡ entry }
{
    let Ok(number) = next_element(octets, Tag::Integer) else {
        unreachable!()
    };
    let mut rest = number.rest;
    let Ok(revocation_date) = take_time(&mut rest) else {
        unreachable!()
    };
    RevokedCertRef {
        serial_number: number.content,
        revocation_date,
        crl_entry_extensions: known_extensions(rest),
    }
}

/// Whether the bytes are the list of a reason alone, in an extension that isn't critical: what most entries have that have extensions (RFC 5280 5.3.1).
#[inline(always)]
fn is_reason_alone(bytes: &[u8]) -> bool
    ensures { IsTrue result → (reason : ℕ) × Spells extensions (reason_alone reason) bytes.now }
{
    match bytes {
        [front @ .., _] => front == REASON,
        [] => false,
    }
}

/// Whether the list of extensions at the front, which is checked, marks its entry.
#[inline(always)]
fn pass_list(rest: &mut &[u8]) -> Result<bool, Error>
    requires { length rest.old.now ≤ limit }
    ensures { LendsSoBefore (λ list is_marked. is_marked ≡ list_any marks list) result rest.new.now ((required extensions).reading rest.old.now) }
{
    if is_reason_alone(rest) {
        *rest = &[];
        return Ok(false);
    }
    let list = take_field::<Extensions>(rest)?;
    Ok(ExtensionRefs::of_checked(list).has_critical_or(&CertificateIssuer::OID))
}

/// Whether the extensions at the front, which may be absent and are checked, mark their entry.
#[inline(always)]
fn pass_extensions(rest: &mut &[u8]) -> Result<bool, Error>
    requires { length rest.old.now ≤ limit }
    ensures { LendsSoBefore (λ list is_marked. is_marked ≡ list_any marks (members list)) result rest.new.now ((optional extensions).reading rest.old.now) }
{
    match *rest {
        [octet, ..] if *octet == 0x30 => pass_list(rest),
        _ => Ok(false),
    }
}

/// The serial number of the entry with these content octets, which is checked, and whether the entry is marked.
#[tactic(auto, unfolding(x509_cert::specs::RevokedCert::revoked_cert_fields, x509_der::specs::Frames::fields_reading))]
#[inline(always)]
fn pass_content<P: Profile>(octets: &[u8]) -> Result<(&[u8], bool), Error>
    requires { length octets.now ≤ limit }
    ensures { LendsSo (λ entry found. (found.0.now ≡ entry.serial_number) × (found.1 ≡ is_marked entry)) result
        ((revoked_cert_contents {P = P} P.serial_check).reading octets.now) }
{
    let mut rest = octets;
    let serial_number = take_serial::<P>(&mut rest)?;
    check_field::<Time>(&mut rest)?;
    let is_marked = pass_extensions(&mut rest)?;
    end(rest)?;
    Ok((serial_number, is_marked))
}

/// The serial number of the entry at the front, what follows the entry, which is checked under the profile, and whether it is marked.
///
/// # Errors
///
/// `Malformed`, or an error of the profile, exactly where no entry stands there.
#[tactic(auto, unfolding(x509_der::specs::Frames::field_at))]
#[inline(always)]
pub(crate) fn pass_entry<P: Profile>(bytes: &[u8]) -> Result<(&[u8], &[u8], bool), Error>
    requires { length bytes.now ≤ limit }
    ensures { LendsSo (λ front found. (found.0.now ≡ front.0.serial_number) × (found.1.now ≡ front.1) × (found.2 ≡ is_marked front.0)) result
        ((required (revoked_cert {P = P} P.serial_check)).reading bytes.now) }
{
    let piece = next_element(bytes, Tag::Sequence)?;
    if piece.tag != Tag::Sequence.octet() {
        return Err(ErrorKind::Malformed.into());
    }
    match pass_content::<P>(piece.content) {
        Ok((serial_number, is_marked)) => Ok((serial_number, piece.rest, is_marked)),
        Err(e) => Err(e),
    }
}

/// The entry that is known to stand at the front, and what follows it.
pub(crate) fn known_entry<P: Profile>(bytes: &[u8]) -> (RevokedCertRef<'_>, &[u8])
    requires within { length bytes.now ≤ limit }
    requires known { IsOk ((required (revoked_cert {P = P} P.serial_check)).reading bytes.now) }
    ensures { (entry : revoked.RevokedCert P) (rest : List ℕ) → (required (revoked_cert {P = P} P.serial_check)).reading bytes.now ≡ Ok (entry, rest)
        → (lent_entry result.0 ≡ entry) × (result.1.now ≡ rest) }
{
    let Ok(piece) = next_element(bytes, Tag::Sequence) else {
        unreachable!()
    };
    (known_content::<P>(piece.content), piece.rest)
}

/// The entry that is known to stand at the front, without its date, and what follows it.
#[inline(always)]
pub(crate) fn known_undated<P: Profile>(bytes: &[u8]) -> (UndatedCertRef<'_, P>, &[u8])
    requires within { length bytes.now ≤ limit }
    requires known { IsOk ((required (revoked_cert {P = P} P.serial_check)).reading bytes.now) }
    ensures { (entry : revoked.RevokedCert P) (rest : List ℕ) → (required (revoked_cert {P = P} P.serial_check)).reading bytes.now ≡ Ok (entry, rest)
        → IsUndated P.serial_check result.0.octets.now result.0.serial_number.now result.0.crl_entry_extensions entry × (result.1.now ≡ rest) }
{
    let Ok(piece) = next_element(bytes, Tag::Sequence) else {
        unreachable!()
    };
    (UndatedCertRef::of_content(piece.content), piece.rest)
}
