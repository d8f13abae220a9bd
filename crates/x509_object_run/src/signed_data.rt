//! SignedData (RFC 5652 5.1), as far as the certificates and CRLs in it go, which are lent.

ghost use Rattle.std.specs.Prelude.{◌≡◌, ◌≢◌, ◌&&◌, Err, ℕ, List, MatchOption, Ok, Option, [], false};
ghost use Rattle.std.specs.Result.{is_ok};
ghost use Rattle.x509_der.specs.Any.{any, any_reading};
ghost use Rattle.x509_der.specs.ElementReading.{Piece, piece_at};
ghost use Rattle.x509_der.specs.Form.{spelling, under, whole_reading};
ghost use Rattle.x509_der.specs.Frames.{optional, required};
ghost use Rattle.x509_der.specs.List.{joined, list_of, list_reading};
ghost use Rattle.x509_der.specs.declared.any.Any.{Any};
ghost use Rattle.x509_der.specs.declared.error.ErrorKind.TheVariants.{Malformed};
ghost use Rattle.x509_object_run.specs.Labels.{is_empty};
ghost use Rattle.x509_object_run.specs.SignedData.{HasElements, begins, content_info, elements_of, signed_data_contents, SignedData, unread};

use x509_der::split_element;

/// The content octets of id-signedData (RFC 5652 5.1), 1.2.840.113549.1.7.2.
const ID_SIGNED_DATA: [u8; 9] = [0x2A, 0x86, 0x48, 0x86, 0xF7, 0x0D, 0x01, 0x07, 0x02];

/// Identifier octets (X.690 8.1.2).
const INTEGER: u8 = 0x02;

const OBJECT_IDENTIFIER: u8 = 0x06;

const SEQUENCE: u8 = 0x30;

const SET: u8 = 0x31;

/// Those of the content of a ContentInfo, and of certificates: `[0]`.
const TAGGED_0: u8 = 0xA0;

/// That of crls: `[1]`.
const TAGGED_1: u8 = 0xA1;

/// The certificates and the CRLs in a SignedData: elements, one after the other.
#[derive(Clone, Copy)]
pub(crate) struct Elements<'a> {
    pub(crate) certificates: &'a [u8],
    pub(crate) crls: &'a [u8],
}

impl Elements<'_> {
    /// Whether there are none.
    pub(crate) fn are_none(self) -> bool
        ensures { result ≡ (is_empty self.entry.certificates.now && is_empty self.entry.crls.now) }
    {
        self.certificates.is_empty() && self.crls.is_empty()
    }
}

/// Takes the element at the front of `rest`, where it has this identifier octet, and answers its content.
fn take_content<'a>(rest: &mut &'a [u8], identifier: u8) -> Option<&'a [u8]>
    ensures { MatchOption result
        ((piece : Piece) → piece_at rest.old.now ≡ Ok piece → piece.tag ≢ identifier)
        (λ content. piece_at rest.old.now ≡ Ok (record { tag = identifier; content = content.now; rest = rest.new.now })) }
{
    let Ok(piece) = split_element(*rest) else {
        return None;
    };
    if piece.tag != identifier {
        return None;
    }
    *rest = piece.rest;
    Some(piece.content)
}

/// The content of the element that octets are, where it has this identifier octet.
fn content_of(octets: &[u8], identifier: u8) -> Option<&[u8]>
    ensures { MatchOption result
        ((content : List ℕ) → piece_at octets.now ≢ Ok (record { tag = identifier; content = content; rest = [] }))
        (λ content. piece_at octets.now ≡ Ok (record { tag = identifier; content = content.now; rest = [] })) }
{
    let mut rest = octets;
    let content = take_content(&mut rest, identifier)?;
    if rest.is_empty() { Some(content) } else { None }
}

/// Whether octets are elements, one after the other.
fn are_elements(octets: &[u8]) -> bool
    ensures { result ≡ is_ok (list_reading any_reading octets.now) }
{
    let mut rest = octets;
    while let Ok(piece) = split_element(rest) {
        rest = piece.rest;
    }
    rest.is_empty()
}

/// Takes the field at the front of `rest` that is elements under this identifier octet, and answers these.
fn take_present<'a>(rest: &mut &'a [u8], identifier: u8) -> Option<&'a [u8]>
    ensures { MatchOption result
        ((required (under identifier (list_of any))).reading rest.old.now ≡ Err Malformed)
        (λ octets. (found : List Any) × ((required (under identifier (list_of any))).reading rest.old.now ≡ Ok (found, rest.new.now))
        × (octets.now ≡ joined (spelling any) found)) }
{
    let octets = take_content(rest, identifier)?;
    if are_elements(octets) {
        Some(octets)
    } else {
        None
    }
}

/// Whether octets begin with this identifier octet.
fn begins(octets: &[u8], identifier: u8) -> bool
    ensures { result ≡ begins identifier octets.now }
{
    match octets {
        [octet, ..] => *octet == identifier,
        [] => false,
    }
}

/// The same, where the field may be absent; then there are none.
fn take_elements<'a>(rest: &mut &'a [u8], identifier: u8) -> Option<&'a [u8]>
    ensures { MatchOption result
        ((optional (under identifier (list_of any))).reading rest.old.now ≡ Err Malformed)
        (λ octets. (found : Option (List Any)) × ((optional (under identifier (list_of any))).reading rest.old.now ≡ Ok (found, rest.new.now))
        × (octets.now ≡ joined (spelling any) (elements_of found))) }
{
    if !begins(*rest, identifier) {
        return Some(&[]);
    }
    take_present(rest, identifier)
}

/// The certificates and CRLs in the content of a SignedData.
fn elements_in(content: &[u8]) -> Option<Elements<'_>>
    ensures { MatchOption result
        (is_ok (signed_data_contents.reading content.now) ≡ false)
        (λ found. (signed : SignedData) × (signed_data_contents.reading content.now ≡ Ok signed) × HasElements signed found.certificates.now found.crls.now) }
{
    let mut rest = content;
    take_content(&mut rest, INTEGER)?;
    take_content(&mut rest, SET)?;
    take_content(&mut rest, SEQUENCE)?;
    let certificates = take_elements(&mut rest, TAGGED_0)?;
    let crls = take_elements(&mut rest, TAGGED_1)?;
    take_content(&mut rest, SET)?;
    if rest.is_empty() {
        Some(Elements { certificates, crls })
    } else {
        None
    }
}

/// The content of the SignedData in a ContentInfo (RFC 5652 3). Of a certificate and of a CRL no more is looked at than how its first two elements begin.
fn content_in(octets: &[u8]) -> Option<&[u8]>
    ensures { MatchOption result
        (is_ok (whole_reading content_info.reading octets.now) ≡ false)
        (λ content. whole_reading content_info.reading octets.now ≡ signed_data_contents.reading content.now) }
{
    let mut rest = content_of(octets, SEQUENCE)?;
    if take_content(&mut rest, OBJECT_IDENTIFIER)? != ID_SIGNED_DATA.as_slice() {
        return None;
    }
    let tagged = take_content(&mut rest, TAGGED_0)?;
    if !rest.is_empty() {
        return None;
    }
    content_of(tagged, SEQUENCE)
}

/// The certificates and CRLs in octets that are a SignedData.
pub(crate) fn elements_of(octets: &[u8]) -> Option<Elements<'_>>
    ensures { MatchOption result
        (is_ok (whole_reading content_info.reading octets.now) ≡ false)
        (λ found. (signed : SignedData) × (whole_reading content_info.reading octets.now ≡ Ok signed) × HasElements signed found.certificates.now found.crls.now) }
{
    elements_in(content_in(octets)?)
}
