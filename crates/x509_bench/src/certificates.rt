//! Certificates, decoded, looked into and encoded.

use crate::answers::look_ups;
use crate::digest::{Digest, Report};
use crate::objects::certificates;
use crate::template::Filler;
use std::alloc::Global;
use x509_cert::certificate::{Certificate, signed_slice};
use x509_der::{Decode, Encode, Error};
use x509_name::name::Name;

/// Takes the text of a name in.
pub(crate) fn take_text(alloc: Global, name: &Name, digest: &mut Digest) -> bool {
    match name.to_string(alloc) {
        Ok(text) => {
            digest.text(text.as_str());
            true
        }
        Err(_) => false,
    }
}

/// Whether the bytes are those that came.
fn take_encoded(encoded: &[u8], bytes: &[u8], digest: &mut Digest) -> bool {
    if encoded == bytes {
        digest.number(encoded.len() as u64);
        return true;
    }
    digest.octets(encoded);
    false
}

/// Whether the value is encoded as these bytes. The digest takes in the length of bytes that are, and all of others.
pub(crate) fn is_encoded_as<T: Encode>(
    alloc: Global,
    value: &T,
    bytes: &[u8],
    digest: &mut Digest,
) -> bool {
    match value.to_der(alloc) {
        Ok(encoded) => take_encoded(encoded.as_slice(), bytes, digest),
        Err(_) => false,
    }
}

/// Whether the signed part of the bytes is lent.
fn take_signed_part(bytes: &[u8], digest: &mut Digest) -> bool {
    match signed_slice(bytes) {
        Some(part) => {
            digest.number(part.len() as u64);
            true
        }
        None => false,
    }
}

/// Looks into a certificate.
fn look_into(alloc: Global, certificate: &Certificate, bytes: &[u8], digest: &mut Digest) -> bool {
    let part = certificate.tbs_certificate();
    look_ups(alloc, part, digest);
    take_text(alloc, part.issuer(), digest)
        && take_text(alloc, part.subject(), digest)
        && take_signed_part(bytes, digest)
        && is_encoded_as(alloc, certificate, bytes, digest)
}

/// Decodes a certificate, which comes out right where it is accepted and encoded as these bytes.
fn decode(alloc: Global, bytes: &[u8], digest: &mut Digest) -> bool {
    match Certificate::from_der(alloc, bytes) {
        Ok(certificate) => look_into(alloc, &certificate, bytes, digest),
        Err(e) => {
            digest.number(e.kind() as u64);
            false
        }
    }
}

/// Spoils the bytes: the version gets a wrong tag, or the last octet is cut off.
fn spoil(bytes: &mut Vec<u8>, is_cut: bool) {
    if is_cut {
        let _ = bytes.pop();
    } else if let Some(octet) = bytes.get_mut(8) {
        *octet ^= 0x20;
    }
}

/// So many certificates, of which one in fifty is spoilt.
pub(crate) fn run(alloc: Global, count: usize, seed: u64) -> Result<Report, Error> {
    let templates = certificates(alloc, 40)?;
    let mut filler = Filler::new(seed);
    let mut report = Report::new();
    let mut buffer = Vec::new(alloc);
    for number in 0..count {
        let place = filler.random.index(templates.len());
        if let Some(template) = templates.get(place) {
            template.fill(&mut filler, &mut buffer)?;
            let is_spoilt = number % 50 == 49;
            if is_spoilt {
                spoil(&mut buffer, number % 100 == 99);
            }
            let is_whole = decode(alloc, buffer.as_slice(), &mut report.digest);
            report.count(is_whole != is_spoilt);
        }
    }
    Ok(report)
}
