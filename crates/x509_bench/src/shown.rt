//! What people look at: documents of usual objects and of awkward ones, as text and as JSON.

use crate::awkward::{ALL, make_awkward};
use crate::certificates::{is_encoded_as, take_text};
use crate::digest::{Digest, Report};
use crate::objects::{certificates, list, requests};
use crate::template::{Filler, Template};
use crate::texts::fill_any;
use std::alloc::{AllocError, Global};
use x509_cert::Certificate;
use x509_cert::certificate::Rfc5280;
use x509_cert::crl::CertificateList;
use x509_cert::request::CertReq;
use x509_der::{Decode, Error};
use x509_text::{CrlPieces, Style, certificate_text, crl_text, request_text, show_bytes};

/// The objects.
#[derive(Drop)]
struct Pools {
    certificates: Vec<Template>,
    lists: Vec<Template>,
    requests: Vec<Template>,
    awkward: Vec<Template>,
}

/// CRLs of 10, and of 100 entries.
fn lists(alloc: Global) -> Result<Vec<Template>, Error> {
    let mut lists = Vec::new(alloc);
    for tens in [1, 1, 1, 10] {
        lists.push(list(alloc, tens, false)?)?;
    }
    Ok(lists)
}

/// The awkward certificates.
fn awkward_ones(alloc: Global) -> Result<Vec<Template>, Error> {
    let mut templates = Vec::new(alloc);
    for kind in ALL {
        templates.push(make_awkward(alloc, kind)?)?;
    }
    Ok(templates)
}

/// The objects.
fn make_pools(alloc: Global) -> Result<Pools, Error> {
    Ok(Pools {
        certificates: certificates(alloc, 40)?,
        lists: lists(alloc)?,
        requests: requests(alloc, 24)?,
        awkward: awkward_ones(alloc)?,
    })
}

/// Takes a document in.
fn take(document: Result<String, AllocError>, digest: &mut Digest) -> bool {
    match document {
        Ok(text) => {
            digest.text(text.as_str());
            true
        }
        Err(AllocError) => false,
    }
}

/// Shows a certificate.
fn show_certificate(alloc: Global, style: Style, bytes: &[u8], digest: &mut Digest) -> bool {
    match Certificate::from_der(alloc, bytes) {
        Ok(certificate) => take(certificate_text(alloc, style, &certificate), digest),
        Err(_) => false,
    }
}

/// Shows a CRL.
fn show_list(alloc: Global, style: Style, bytes: &[u8], digest: &mut Digest) -> bool {
    match CertificateList::<Rfc5280>::from_der(alloc, bytes) {
        Ok(list) => take(crl_text(alloc, style, &list), digest),
        Err(_) => false,
    }
}

/// Shows a CSR.
fn show_request(alloc: Global, style: Style, bytes: &[u8], digest: &mut Digest) -> bool {
    match CertReq::from_der(alloc, bytes) {
        Ok(request) => take(request_text(alloc, style, &request), digest),
        Err(_) => false,
    }
}

/// Shows a CRL piece by piece.
fn show_pieces(alloc: Global, style: Style, bytes: &[u8], digest: &mut Digest) -> bool {
    match CrlPieces::from_der(alloc, style, bytes) {
        Ok(Some(pieces)) => take(pieces.join(alloc), digest),
        _ => false,
    }
}

/// Shows an object of any kind.
fn show_any(alloc: Global, style: Style, bytes: &[u8], digest: &mut Digest) -> bool {
    match show_bytes(alloc, style, bytes) {
        Ok(Some(text)) => take(Ok(text), digest),
        _ => false,
    }
}

/// Which objects a number stands for.
fn pool(pools: &Pools, number: usize) -> &[Template] {
    match number % 16 / 2 {
        5 | 6 => pools.lists.as_slice(),
        7 => pools.requests.as_slice(),
        _ => pools.certificates.as_slice(),
    }
}

/// Shows the object of a number.
fn show(alloc: Global, number: usize, bytes: &[u8], digest: &mut Digest) -> bool {
    let style = if number % 2 == 0 {
        Style::Text
    } else {
        Style::Json
    };
    match number % 16 / 2 {
        4 => show_any(alloc, style, bytes, digest),
        5 => show_pieces(alloc, style, bytes, digest),
        6 => show_list(alloc, style, bytes, digest),
        7 => show_request(alloc, style, bytes, digest),
        _ => show_certificate(alloc, style, bytes, digest),
    }
}

/// Encodes an awkward certificate again, prints its names and shows it.
fn look_at(
    alloc: Global,
    style: Style,
    certificate: &Certificate,
    bytes: &[u8],
    digest: &mut Digest,
) -> bool {
    let part = certificate.tbs_certificate();
    is_encoded_as(alloc, certificate, bytes, digest)
        && take_text(alloc, part.issuer(), digest)
        && take_text(alloc, part.subject(), digest)
        && take(certificate_text(alloc, style, certificate), digest)
}

/// Decodes an awkward certificate and looks at it.
fn show_awkward(alloc: Global, style: Style, bytes: &[u8], digest: &mut Digest) -> bool {
    match Certificate::from_der(alloc, bytes) {
        Ok(certificate) => look_at(alloc, style, &certificate, bytes, digest),
        Err(e) => {
            digest.number(e.kind() as u64);
            false
        }
    }
}

/// One awkward certificate of each kind.
fn show_each(
    alloc: Global,
    style: Style,
    pools: &Pools,
    buffer: &mut Vec<u8>,
    filler: &mut Filler,
    report: &mut Report,
) -> Result<(), Error> {
    for template in pools.awkward.iter() {
        template.fill(filler, buffer)?;
        let is_right = show_awkward(alloc, style, buffer.as_slice(), &mut report.digest);
        report.count(is_right);
    }
    Ok(())
}

/// Shows so many usual objects, and after each 320 one awkward certificate of each kind.
pub(crate) fn run(alloc: Global, count: usize, seed: u64) -> Result<Report, Error> {
    let mut filler = Filler::new(seed);
    let pools = make_pools(alloc)?;
    let mut report = Report::new();
    let mut buffer = Vec::new(alloc);
    for number in 0..count {
        fill_any(pool(&pools, number), &mut filler, &mut buffer)?;
        let is_right = show(alloc, number, buffer.as_slice(), &mut report.digest);
        report.count(is_right);
        if number % 320 == 10 {
            let style = if number % 640 == 10 {
                Style::Text
            } else {
                Style::Json
            };
            show_each(alloc, style, &pools, &mut buffer, &mut filler, &mut report)?;
        }
    }
    Ok(report)
}
