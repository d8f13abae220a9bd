//! A walk over an encoded CRL, which checks it, lends its fields and looks for a serial number; and the look-up.

ghost use Rattle.std.specs.Prelude.{◌≡◌, ◌<◌, ◌≤◌, ◌⊎◌, false, length, None, Ok, IfOk, IfErr, IsErrAnd, IsOk};
ghost use Rattle.x509_cert.specs.CertificateList.{certificate_list, certificate_list_contents, tbs_cert_list, tbs_cert_list_contents};
ghost use Rattle.x509_cert.specs.RevokedCert.{revoked_cert};
ghost use Rattle.x509_cert.specs.declared.crl.certificate_list.CertificateList as lists;
ghost use Rattle.x509_check.specs.CrlRefs.{FindsEntry, FindsInList, entries_in, entry_list};
ghost use Rattle.x509_check.specs.CrlWalk.{PassesEntries, WalksAmong, WalksEntries, WalksList, WalksPart};
ghost use Rattle.x509_check.specs.Lending.{LendsSo, LendsSoBefore};
ghost use Rattle.x509_der.specs.Element.{limit};
ghost use Rattle.x509_der.specs.ElementReading.{Piece, piece_at};
ghost use Rattle.x509_der.specs.Form.{Spells, whole_reading};
ghost use Rattle.x509_der.specs.Frames.{optional, required};
ghost use Rattle.x509_der.specs.List.{list_reading};
ghost use Rattle.x509_der.specs.declared.error.ErrorKind.TheVariants as errors;

use crate::element::next_element;
use crate::lent::checked::{take_field, take_optional_explicit};
use crate::lent::entry::{RevokedCertRef, known_entry, pass_entry};
use crate::lent::extension::is_same;
use crate::lent::fields::{take_optional_plain, take_optional_time, take_time};
use x509_base::{AlgorithmIdentifier, Profile, Time};
use x509_cert::certificate::Version;
use x509_cert::crl::CertificateList;
use x509_der::{Error, ErrorKind, Grammar, Length, Tag, end};
use x509_ext::Extensions;
use x509_name::name::Name;
use x509_prim::BitString;

/// The fields of the signed part of a CRL (RFC 5280 5.1.2), each as its whole element or as what it says.
#[derive(Clone, Copy, Debug)]
pub(crate) struct ListFields<'a> {
    /// The version.
    pub(crate) version: Option<Version>,

    /// The algorithm of the signature, as the signed part has it.
    pub(crate) signature: &'a [u8],

    /// The name of the issuer.
    pub(crate) issuer: &'a [u8],

    /// When it was issued.
    pub(crate) this_update: Time,

    /// By when the next one will be issued.
    pub(crate) next_update: Option<Time>,

    /// The list of entries.
    pub(crate) revoked_certificates: Option<&'a [u8]>,

    /// How many entries it has; none where it is absent.
    pub(crate) entry_count: usize,

    /// Whether an entry has an extension that is critical or is a CertificateIssuer (RFC 5280 5.3).
    pub(crate) has_marked: bool,

    /// The SEQUENCE OF Extension inside [0].
    pub(crate) crl_extensions: Option<&'a [u8]>,
}

/// The signed part of a CRL, its fields, and what stands behind it (RFC 5280 5.1.1), each as its whole element.
#[derive(Clone, Copy, Debug)]
pub(crate) struct ListParts<'a> {
    /// The signed part.
    pub(crate) tbs_cert_list: &'a [u8],

    /// The fields of the signed part.
    pub(crate) fields: ListFields<'a>,

    /// The algorithm of the signature, as it stands outside the signed part.
    pub(crate) signature_algorithm: &'a [u8],

    /// The BIT STRING of the signature.
    pub(crate) signature: &'a [u8],
}

/// How many entries there are, the first of them that has a serial number, and whether one is marked.
#[derive(Clone, Copy)]
pub(crate) struct PassedEntries<'a> {
    /// How many there are.
    pub(crate) count: usize,

    /// Whether one is marked.
    pub(crate) has_marked: bool,

    /// The first entry with the serial number.
    pub(crate) found: Option<RevokedCertRef<'a>>,
}

/// A list of entries, which may be absent, how many they are, the first of them that has a serial number, and whether one is marked.
#[derive(Clone, Copy)]
pub(crate) struct WalkedEntries<'a> {
    /// The list.
    pub(crate) element: Option<&'a [u8]>,

    /// How many entries there are.
    pub(crate) count: usize,

    /// Whether one is marked.
    pub(crate) has_marked: bool,

    /// The first entry with the serial number.
    pub(crate) found: Option<RevokedCertRef<'a>>,
}

/// What walking the signed part of a CRL found: its fields, and the entry that was looked for.
#[derive(Clone, Copy)]
pub(crate) struct WalkedPart<'a> {
    /// The fields.
    pub(crate) fields: ListFields<'a>,

    /// The first entry with the serial number.
    pub(crate) found: Option<RevokedCertRef<'a>>,
}

/// What walking a CRL found: its parts, and the entry that was looked for.
#[derive(Clone, Copy)]
pub(crate) struct Walked<'a> {
    /// The parts of the CRL.
    pub(crate) parts: ListParts<'a>,

    /// The first entry with the serial number.
    pub(crate) found: Option<RevokedCertRef<'a>>,
}

/// How many entries there are, the first of them with the serial number, and whether one is marked. The bytes are the elements of the entries, one after
/// the other.
fn find_in_entries<'a, P: Profile>(
    octets: &'a [u8],
    serial_number: &[u8],
) -> Result<PassedEntries<'a>, Error>
    requires { length octets.now ≤ limit }
    ensures { LendsSo (PassesEntries serial_number.now) result (list_reading (revoked_cert {P = P} P.serial_check).reading octets.now) }
{
    let mut rest = octets;
    let mut count = 0;
    let mut has_marked = false;
    let mut found: Option<RevokedCertRef<'a>> = None;
    while !rest.is_empty() {
        match pass_entry::<P>(rest) {
            Ok((number, others, is_marked)) => {
                count += 1;
                has_marked = has_marked | is_marked;
                if found.is_none() && is_same(number, serial_number) {
                    found = Some(known_entry::<P>(rest).0);
                }
                rest = others;
            }
            Err(e) => return Err(e),
        }
    }
    Ok(PassedEntries {
        count,
        has_marked,
        found,
    })
}

/// The content of the element at the front; nothing where none stands there.
fn first_content(bytes: &[u8]) -> &[u8]
    ensures { (piece : Piece) → piece_at bytes.now ≡ Ok piece → result.now ≡ piece.content }
{
    match next_element(bytes, Tag::Integer) {
        Ok(piece) => piece.content,
        Err(_) => &[],
    }
}

/// The first of the entries with the serial number, which were checked. The bytes are the elements of the entries, one after the other; of an entry
/// with another number no more than that is looked at.
pub(crate) fn find_in_checked<'a, P: Profile>(
    octets: &'a [u8],
    serial_number: &[u8],
) -> Option<RevokedCertRef<'a>>
    requires within { length octets.now ≤ limit }
    requires are_entries { IsOk (list_reading (revoked_cert {P = P} P.serial_check).reading octets.now) }
    ensures { FindsEntry serial_number.now (entries_in {P = P} P.serial_check octets.now) result }
{
    let mut rest = octets;
    while !rest.is_empty() {
        let Ok(piece) = next_element(rest, Tag::Sequence) else {
            return None;
        };
        if is_same(first_content(piece.content), serial_number) {
            return Some(known_entry::<P>(rest).0);
        }
        rest = piece.rest;
    }
    None
}

/// The list of entries at the front.
fn walk_sequence<'a, P: Profile>(
    rest: &mut &'a [u8],
    serial_number: &[u8],
) -> Result<WalkedEntries<'a>, Error>
    requires { length rest.old.now ≤ limit }
    ensures exact { LendsSoBefore (WalksEntries P.serial_check serial_number.now) result rest.new.now
        ((required (entry_list {P = P} P.serial_check)).reading rest.old.now) }
    ensures left { length rest.new.now ≤ length rest.old.now }
{
    let front = *rest;
    let piece = next_element(front, Tag::Sequence)?;
    if piece.tag != Tag::Sequence.octet() {
        return Err(ErrorKind::Malformed.into());
    }
    *rest = piece.rest;
    match find_in_entries::<P>(piece.content, serial_number) {
        Ok(passed) => Ok(WalkedEntries {
            element: Some(&front[..front.len() - piece.rest.len()]),
            count: passed.count,
            has_marked: passed.has_marked,
            found: passed.found,
        }),
        Err(e) => Err(e),
    }
}

/// No list of entries.
fn walked_none<'a>() -> WalkedEntries<'a>
    ensures element { result.element ≡ None }
    ensures count { result.count ≡ 0 }
    ensures has_marked { result.has_marked ≡ false }
    ensures found { result.found ≡ None }
{
    WalkedEntries {
        element: None,
        count: 0,
        has_marked: false,
        found: None,
    }
}

/// Walks the list of entries at the front, which may be left out.
fn walk_field<'a, P: Profile>(
    rest: &mut &'a [u8],
    serial_number: &[u8],
) -> Result<WalkedEntries<'a>, Error>
    requires { length rest.old.now ≤ limit }
    ensures exact { LendsSoBefore (WalksAmong P.serial_check serial_number.now) result rest.new.now
        ((optional (entry_list {P = P} P.serial_check)).reading rest.old.now) }
    ensures left { length rest.new.now ≤ length rest.old.now }
{
    match *rest {
        [octet, ..] if *octet == 0x30 => walk_sequence::<P>(rest, serial_number),
        _ => Ok(walked_none()),
    }
}

/// Walks the signed part of a CRL with these content octets (RFC 5280 5.1.2).
#[tactic(auto, unfolding(x509_cert::specs::CertificateList::tbs_cert_list_fields, x509_der::specs::Frames::fields_reading))]
fn walk_content<'a, P: Profile>(
    octets: &'a [u8],
    serial_number: &[u8],
) -> Result<WalkedPart<'a>, Error>
    requires { length octets.now ≤ limit }
    ensures { LendsSo (WalksPart P.serial_check serial_number.now) result ((tbs_cert_list_contents {P = P} P.serial_check).reading octets.now) }
{
    let mut rest = octets;
    let version = take_optional_plain::<Version>(&mut rest)?;
    let signature = take_field::<AlgorithmIdentifier>(&mut rest)?;
    let issuer = take_field::<Name>(&mut rest)?;
    let this_update = take_time(&mut rest)?;
    let next_update = take_optional_time(&mut rest)?;
    match walk_field::<P>(&mut rest, serial_number) {
        Ok(walked) => {
            let crl_extensions = take_optional_explicit::<Extensions>(0, &mut rest)?;
            end(rest)?;
            Ok(WalkedPart {
                fields: ListFields {
                    version,
                    signature,
                    issuer,
                    this_update,
                    next_update,
                    revoked_certificates: walked.element,
                    entry_count: walked.count,
                    has_marked: walked.has_marked,
                    crl_extensions,
                },
                found: walked.found,
            })
        }
        Err(e) => Err(e),
    }
}

/// Walks the signed part at the front.
fn walk_part<'a, P: Profile>(
    rest: &mut &'a [u8],
    serial_number: &[u8],
) -> Result<WalkedPart<'a>, Error>
    requires { length rest.old.now ≤ limit }
    ensures exact { LendsSoBefore (WalksPart P.serial_check serial_number.now) result rest.new.now
        ((required (tbs_cert_list {P = P} P.serial_check)).reading rest.old.now) }
    ensures left { length rest.new.now ≤ length rest.old.now }
{
    let piece = next_element(*rest, Tag::Sequence)?;
    if piece.tag != Tag::Sequence.octet() {
        return Err(ErrorKind::Malformed.into());
    }
    *rest = piece.rest;
    walk_content::<P>(piece.content, serial_number)
}

/// Walks a CRL with these content octets (RFC 5280 5.1.1).
#[tactic(auto, unfolding(x509_cert::specs::CertificateList::certificate_list_fields, x509_der::specs::Frames::fields_reading))]
fn walk_list<'a, P: Profile>(octets: &'a [u8], serial_number: &[u8]) -> Result<Walked<'a>, Error>
    requires { length octets.now ≤ limit }
    ensures { LendsSo (WalksList P.serial_check serial_number.now) result ((certificate_list_contents {P = P} P.serial_check).reading octets.now) }
{
    let mut rest = octets;
    match walk_part::<P>(&mut rest, serial_number) {
        Ok(walked) => {
            let tbs_cert_list = &octets[..octets.len() - rest.len()];
            let signature_algorithm = take_field::<AlgorithmIdentifier>(&mut rest)?;
            let signature = take_field::<BitString>(&mut rest)?;
            end(rest)?;
            Ok(Walked {
                parts: ListParts {
                    tbs_cert_list,
                    fields: walked.fields,
                    signature_algorithm,
                    signature,
                },
                found: walked.found,
            })
        }
        Err(e) => Err(e),
    }
}

/// Walks the CRL that the bytes are the encoding of, and checks it on the way.
#[tactic(auto, unfolding(x509_der::specs::Form::whole_reading))]
pub(crate) fn walk_whole<'a, P: Profile>(
    bytes: &'a [u8],
    serial_number: &[u8],
) -> Result<Walked<'a>, Error>
    requires { length bytes.now ≤ limit }
    ensures { LendsSo (WalksList P.serial_check serial_number.now) result (whole_reading (certificate_list {P = P} P.serial_check).reading bytes.now) }
{
    let piece = next_element(bytes, Tag::Sequence)?;
    if !piece.rest.is_empty() || piece.tag != Tag::Sequence.octet() {
        return Err(ErrorKind::Malformed.into());
    }
    walk_list::<P>(piece.content, serial_number)
}

/// The first entry of an encoded CRL (RFC 5280 5.1) whose serial number has these content octets; `None` exactly where no
/// entry has it. It is the entry that [`CertificateList::find`] finds in what the bytes are decoded to. The CRL is checked
/// on the way, in one pass and without memory.
///
/// Whether the CRL covers the issuer of the certificate, and for which time, isn't checked (RFC 5280 6.3.3).
///
/// # Errors
///
/// `Overlength` exactly where the bytes are more than [`Length::MAX`]. Within that length `Malformed`, or an error of the
/// profile, exactly where they are the encoding of no CRL: the error that `from_der` answers.
pub fn find_revoked<'a, P: Profile>(
    bytes: &'a [u8],
    serial_number: &[u8],
) -> Result<Option<RevokedCertRef<'a>>, Error>
    ensures found { IfOk result (λ answer. (list : lists.CertificateList P) × Spells ⟦<CertificateList<P> as Grammar>⟧.form list bytes.now
        × FindsInList serial_number.now list answer) }
    ensures overlength { limit < length bytes.now → IsErrAnd result (λ e. e.kind ≡ errors.Overlength) }
    ensures refused { length bytes.now ≤ limit → IfErr result (λ e. (e.kind ≡ errors.Malformed) ⊎ ⟦<CertificateList<P> as Grammar>⟧.refuses e.kind) }
    ensures every { (list : lists.CertificateList P) → Spells ⟦<CertificateList<P> as Grammar>⟧.form list bytes.now → IsOk result }
    ensures which { length bytes.now ≤ limit → LendsSo (FindsInList serial_number.now) result
        (whole_reading ⟦<CertificateList<P> as Grammar>⟧.form.reading bytes.now) }
{
    if bytes.len() > Length::MAX.as_u32() as usize {
        return Err(ErrorKind::Overlength.into());
    }
    match walk_whole::<P>(bytes, serial_number) {
        Ok(walked) => Ok(walked.found),
        Err(e) => Err(e),
    }
}
