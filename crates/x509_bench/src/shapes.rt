//! The parts of certificates, CRLs and CSRs, as they are written from the end.

use crate::template::Kind;
use crate::writer::Writer;
use x509_der::Error;

/// The tags of UTF8String and PrintableString.
pub(crate) const UTF8: u8 = 0x0C;

pub(crate) const PRINTABLE: u8 = 0x13;

/// An attribute of a name: its type, the tag of its value, the value's fixed front, and how many letters follow.
#[derive(Clone, Copy)]
pub(crate) struct Attribute {
    pub(crate) oid: [u8; 3],
    pub(crate) tag: u8,
    pub(crate) front: &'static str,
    pub(crate) letters: usize,
}

/// An attribute with an OID below 2.5.4.
const fn usual_attribute(last: u8, tag: u8, front: &'static str, letters: usize) -> Attribute {
    Attribute {
        oid: [0x55, 0x04, last],
        tag,
        front,
        letters,
    }
}

/// A country, a state, a locality, an organization, a unit and a common name.
fn attributes() -> [Attribute; 6] {
    [
        usual_attribute(6, PRINTABLE, "US", 0),
        usual_attribute(8, UTF8, "New ", 8),
        usual_attribute(7, UTF8, "San ", 9),
        usual_attribute(10, UTF8, "Organization ", 12),
        usual_attribute(11, PRINTABLE, "Unit ", 7),
        usual_attribute(3, UTF8, "www.", 16),
    ]
}

/// Which of those a name of so many RDNs has.
fn has(count: usize, place: usize) -> bool {
    match place {
        0 => count > 1,
        1 => count > 4,
        2 => count > 4,
        3 => count > 2,
        4 => count == 4 || count > 5,
        _ => true,
    }
}

/// Puts an RDN of one attribute in front.
pub(crate) fn put_rdn(w: &mut Writer, attribute: Attribute, slot: u64) -> Result<(), Error> {
    let since = w.mark();
    put_attribute(w, attribute, slot)?;
    w.close(0x31, since)
}

/// Puts an attribute in front.
pub(crate) fn put_attribute(w: &mut Writer, attribute: Attribute, slot: u64) -> Result<(), Error> {
    let since = w.mark();
    if attribute.letters > 0 {
        w.shared_hole(Kind::Letters, attribute.letters, slot)?;
    }
    w.text(attribute.front)?;
    w.close(attribute.tag, since)?;
    w.element(0x06, attribute.oid.as_slice())?;
    w.close(0x30, since)
}

/// Puts a name of so many RDNs in front. Where the level isn't 0, it is the one of that level in a path, and the anchor's at 1.
pub(crate) fn put_name(w: &mut Writer, count: usize, level: u64) -> Result<(), Error> {
    let since = w.mark();
    for (place, attribute) in attributes().iter().enumerate().rev() {
        if has(count, place) {
            let slot = if level == 0 {
                0
            } else {
                ((level - 1) & 0xFF) * 8 + (place as u64 & 7) + 1
            };
            put_rdn(w, *attribute, slot)?;
        }
    }
    w.close(0x30, since)
}

/// The algorithms of keys and of signatures.
const RSA: &[u8] = b"\x30\x0D\x06\x09\x2A\x86\x48\x86\xF7\x0D\x01\x01\x01\x05\x00";

const P256: &[u8] =
    b"\x30\x13\x06\x07\x2A\x86\x48\xCE\x3D\x02\x01\x06\x08\x2A\x86\x48\xCE\x3D\x03\x01\x07";

const SHA256_WITH_RSA: &[u8] = b"\x30\x0D\x06\x09\x2A\x86\x48\x86\xF7\x0D\x01\x01\x0B\x05\x00";

const ECDSA_WITH_SHA256: &[u8] = b"\x30\x0A\x06\x08\x2A\x86\x48\xCE\x3D\x04\x03\x02";

/// The fixed octets of a modulus.
const FIXED: [u8; 192] = [0xA7; 192];

/// Puts 256 octets in front, of which 64 vary.
fn put_big_number(w: &mut Writer) -> Result<(), Error> {
    w.put(FIXED.as_slice())?;
    w.hole(Kind::Octets, 63)?;
    w.put(&[0xC3])
}

/// Puts the algorithm of a signature in front.
pub(crate) fn put_algorithm(w: &mut Writer, is_rsa: bool) -> Result<(), Error> {
    w.put(if is_rsa {
        SHA256_WITH_RSA
    } else {
        ECDSA_WITH_SHA256
    })
}

/// Puts a public key in front.
pub(crate) fn put_key(w: &mut Writer, is_rsa: bool) -> Result<(), Error> {
    let since = w.mark();
    if is_rsa {
        w.put(b"\x02\x03\x01\x00\x01")?;
        let modulus = w.mark();
        put_big_number(w)?;
        w.put(&[0])?;
        w.close(0x02, modulus)?;
        w.close(0x30, since)?;
    } else {
        w.hole(Kind::Octets, 64)?;
        w.put(&[4])?;
    }
    w.put(&[0])?;
    w.close(0x03, since)?;
    w.put(if is_rsa { RSA } else { P256 })?;
    w.close(0x30, since)
}

/// Puts the algorithm and the bits of a signature in front.
pub(crate) fn put_signature(w: &mut Writer, is_rsa: bool) -> Result<(), Error> {
    let since = w.mark();
    if is_rsa {
        put_big_number(w)?;
    } else {
        w.hole(Kind::Octets, 71)?;
    }
    w.put(&[0])?;
    w.close(0x03, since)?;
    put_algorithm(w, is_rsa)
}

/// Puts a UTCTime of that year and month in front.
pub(crate) fn put_time(w: &mut Writer, year_and_month: &str) -> Result<(), Error> {
    let since = w.mark();
    w.put(b"Z")?;
    w.hole(Kind::Moment, 8)?;
    w.text(year_and_month)?;
    w.close(0x17, since)
}

/// Makes what was put since the mark the octets of an extension.
pub(crate) fn close_extension(
    w: &mut Writer,
    oid: &[u8],
    critical: bool,
    since: usize,
) -> Result<(), Error> {
    w.close(0x04, since)?;
    if critical {
        w.put(&[1, 1, 0xFF])?;
    }
    w.element(0x06, oid)?;
    w.close(0x30, since)
}

/// The same, for an OID below 2.5.29.
fn close_usual(w: &mut Writer, last: u8, critical: bool, since: usize) -> Result<(), Error> {
    close_extension(w, &[0x55, 0x1D, last], critical, since)
}

/// Puts an extension of such an OID with fixed octets in front.
fn put_fixed(w: &mut Writer, last: u8, critical: bool, octets: &[u8]) -> Result<(), Error> {
    let since = w.mark();
    w.put(octets)?;
    close_usual(w, last, critical, since)
}

/// Puts a KeyUsage in front: of an authority, or of a server.
pub(crate) fn put_key_usage(w: &mut Writer, is_ca: bool) -> Result<(), Error> {
    put_fixed(
        w,
        15,
        true,
        if is_ca {
            b"\x03\x02\x01\x06"
        } else {
            b"\x03\x02\x05\xA0"
        },
    )
}

/// Puts a BasicConstraints in front.
pub(crate) fn put_constraints(
    w: &mut Writer,
    is_ca: bool,
    path_length: Option<u8>,
) -> Result<(), Error> {
    match path_length {
        Some(number) => put_fixed(w, 19, true, &[0x30, 6, 1, 1, 0xFF, 2, 1, number & 0x7F]),
        None => put_fixed(
            w,
            19,
            true,
            if is_ca {
                b"\x30\x03\x01\x01\xFF"
            } else {
                b"\x30\x00"
            },
        ),
    }
}

/// Puts an ExtendedKeyUsage of TLS servers and clients in front.
pub(crate) fn put_purposes(w: &mut Writer) -> Result<(), Error> {
    put_fixed(
        w,
        37,
        false,
        b"\x30\x14\x06\x08\x2B\x06\x01\x05\x05\x07\x03\x01\x06\x08\x2B\x06\x01\x05\x05\x07\x03\x02",
    )
}

/// Puts an SKI in front.
pub(crate) fn put_subject_key(w: &mut Writer) -> Result<(), Error> {
    let since = w.mark();
    w.hole(Kind::Octets, 20)?;
    w.close(0x04, since)?;
    close_usual(w, 14, false, since)
}

/// Puts an AKI in front.
pub(crate) fn put_authority_key(w: &mut Writer) -> Result<(), Error> {
    let since = w.mark();
    w.hole(Kind::Octets, 20)?;
    w.close(0x80, since)?;
    w.close(0x30, since)?;
    close_usual(w, 35, false, since)
}

/// Puts a SAN of so many DNS names in front.
pub(crate) fn put_alternative_names(w: &mut Writer, count: usize) -> Result<(), Error> {
    let since = w.mark();
    for place in 0..count {
        let name = w.mark();
        w.text(if place % 3 == 0 {
            ".example.org"
        } else {
            ".example.com"
        })?;
        w.hole(Kind::Letters, 6 + place % 11)?;
        w.close(0x82, name)?;
    }
    w.close(0x30, since)?;
    close_usual(w, 17, false, since)
}

/// Puts certificate policies in front, the second with a CPS URI.
pub(crate) fn put_policies(w: &mut Writer) -> Result<(), Error> {
    let since = w.mark();
    w.put(
        b"\x30\x36\x06\x0B\x2B\x06\x01\x04\x01\xB2\x31\x01\x02\x02\x07\x30\x27\
          \x30\x25\x06\x08\x2B\x06\x01\x05\x05\x07\x02\x01\x16\x19https://www.example.org/x",
    )?;
    w.put(b"\x30\x08\x06\x06\x67\x81\x0C\x01\x02\x01")?;
    w.close(0x30, since)?;
    close_usual(w, 32, false, since)
}

/// Puts a URI in front, of which letters vary.
fn put_uri(w: &mut Writer, end: &str) -> Result<(), Error> {
    let since = w.mark();
    w.text(end)?;
    w.hole(Kind::Letters, 8)?;
    w.text("http://")?;
    w.close(0x86, since)
}

/// Puts an access description in front.
fn put_access(w: &mut Writer, last: u8, end: &str) -> Result<(), Error> {
    let since = w.mark();
    put_uri(w, end)?;
    w.element(0x06, &[0x2B, 6, 1, 5, 5, 7, 48, last])?;
    w.close(0x30, since)
}

/// Puts an AIA in front: an OCSP responder, and the certificates of the issuer.
pub(crate) fn put_access_of_issuer(w: &mut Writer) -> Result<(), Error> {
    let since = w.mark();
    put_access(w, 1, ".ocsp.example.org")?;
    put_access(w, 2, ".crt.example.org/issuer.crt")?;
    w.close(0x30, since)?;
    close_extension(w, &[0x2B, 6, 1, 5, 5, 7, 1, 1], false, since)
}

/// Puts CRL distribution points in front, one point with one URI.
pub(crate) fn put_points(w: &mut Writer) -> Result<(), Error> {
    let since = w.mark();
    put_uri(w, ".crl.example.org/issuer.crl")?;
    w.close(0xA0, since)?;
    w.close(0xA0, since)?;
    w.close(0x30, since)?;
    w.close(0x30, since)?;
    close_usual(w, 31, false, since)
}

/// Puts the length of what was put since the mark in front, in two octets.
fn close_vector(w: &mut Writer, since: usize) -> Result<(), Error> {
    let len = w.mark().saturating_sub(since) as u64;
    let octets = len.to_le_bytes();
    w.put(&[octets[1], octets[0]])
}

/// Puts an SCT in front.
fn put_timestamp(w: &mut Writer) -> Result<(), Error> {
    let since = w.mark();
    w.hole(Kind::Octets, 71)?;
    w.put(&[4, 3, 0, 71])?;
    w.put(&[0, 0])?;
    w.hole(Kind::Octets, 4)?;
    w.put(&[0, 0, 0x01, 0x8E])?;
    finish_timestamp(w, since)
}

/// Puts the front of an SCT in front: its version and its log.
fn finish_timestamp(w: &mut Writer, since: usize) -> Result<(), Error> {
    w.hole(Kind::Octets, 32)?;
    w.put(&[0])?;
    close_vector(w, since)
}

/// Puts a list of so many SCTs in front.
pub(crate) fn put_timestamps(w: &mut Writer, count: usize) -> Result<(), Error> {
    let since = w.mark();
    for _ in 0..count {
        put_timestamp(w)?;
    }
    close_vector(w, since)?;
    w.close(0x04, since)?;
    close_extension(w, &[0x2B, 6, 1, 4, 1, 0xD6, 0x79, 2, 4, 2], false, since)
}

/// Puts a CRL number in front.
pub(crate) fn put_crl_number(w: &mut Writer) -> Result<(), Error> {
    let since = w.mark();
    w.hole(Kind::Serial, 3)?;
    w.close(0x02, since)?;
    close_usual(w, 20, false, since)
}

/// Puts the extension of an entry with its reason in front.
pub(crate) fn put_reason(w: &mut Writer, number: u8) -> Result<(), Error> {
    put_fixed(w, 21, false, &[0x0A, 1, number])
}

/// Puts the extension of an entry with its invalidity date in front.
pub(crate) fn put_invalidity(w: &mut Writer) -> Result<(), Error> {
    let since = w.mark();
    w.put(b"Z")?;
    w.hole(Kind::Moment, 8)?;
    w.text("202311")?;
    w.close(0x18, since)?;
    close_usual(w, 24, false, since)
}

/// Puts the extension of an entry with the issuer of the certificate in front.
pub(crate) fn put_issuer_of_entry(w: &mut Writer) -> Result<(), Error> {
    let since = w.mark();
    put_name(w, 3, 0)?;
    w.close(0xA4, since)?;
    w.close(0x30, since)?;
    close_usual(w, 29, true, since)
}
