//! Whole objects of usual shapes: certificates, CRLs and CSRs.

use crate::shapes::*;
use crate::template::{Kind, Template};
use crate::writer::Writer;
use std::alloc::Global;
use x509_der::Error;

/// What a certificate is like.
#[derive(Clone, Copy)]
pub(crate) struct Shape {
    pub(crate) is_ca: bool,
    pub(crate) is_rsa: bool,

    /// How many RDNs its subject has.
    pub(crate) rdns: usize,

    /// How many DNS names its SAN has.
    pub(crate) names: usize,

    /// How many SCTs it has.
    pub(crate) timestamps: usize,

    pub(crate) path_length: Option<u8>,

    /// The levels of its issuer's and its subject's names in a path, 0 for names of their own.
    pub(crate) issuer: u64,
    pub(crate) subject: u64,

    /// How many RDNs its issuer has.
    pub(crate) issuer_rdns: usize,

    /// The years and months of its dates.
    pub(crate) from: &'static str,
    pub(crate) to: &'static str,
}

/// A TLS leaf with names of its own.
pub(crate) const LEAF: Shape = Shape {
    is_ca: false,
    is_rsa: true,
    rdns: 1,
    names: 2,
    timestamps: 2,
    path_length: None,
    issuer: 0,
    subject: 0,
    issuer_rdns: 3,
    from: "2403",
    to: "2704",
};

/// The leaf shape of a number.
pub(crate) fn leaf_shape(number: usize) -> Shape {
    const NAMES: [usize; 16] = [2, 2, 3, 2, 4, 2, 6, 2, 3, 12, 2, 2, 5, 30, 2, 100];
    let mut shape = LEAF;
    shape.is_rsa = number % 3 != 0;
    shape.rdns = 1 + number % 6;
    shape.timestamps = 2 + number % 2;
    shape.names = match NAMES.get(number % 16) {
        Some(names) => *names,
        None => 2,
    };
    shape.from = if number % 5 == 0 { "2311" } else { "2402" };
    shape
}

/// The shape of an authority of a number.
pub(crate) fn authority_shape(number: usize) -> Shape {
    let mut shape = LEAF;
    shape.is_ca = true;
    shape.is_rsa = number % 4 != 0;
    shape.rdns = 2 + number % 3;
    shape.timestamps = 0;
    shape.names = 0;
    shape.path_length = if number % 2 == 0 { Some(0) } else { None };
    shape.from = "1809";
    shape.to = "3310";
    shape
}

/// Puts the extensions of an authority.
fn put_authority_extensions(w: &mut Writer, shape: Shape) -> Result<(), Error> {
    put_points(w)?;
    put_access_of_issuer(w)?;
    put_policies(w)?;
    put_authority_key(w)?;
    put_subject_key(w)?;
    put_constraints(w, true, shape.path_length)?;
    put_key_usage(w, true)
}

/// Puts the extensions of a leaf, of which shapes with an odd number of RDNs have no CRL distribution points.
fn put_leaf_extensions(w: &mut Writer, shape: Shape) -> Result<(), Error> {
    put_timestamps(w, shape.timestamps)?;
    if shape.rdns % 2 == 0 {
        put_points(w)?;
    }
    put_access_of_issuer(w)?;
    put_policies(w)?;
    put_alternative_names(w, shape.names)?;
    put_rest_of_leaf(w, shape)
}

/// Puts those in front that come before the SAN.
fn put_rest_of_leaf(w: &mut Writer, shape: Shape) -> Result<(), Error> {
    put_authority_key(w)?;
    put_subject_key(w)?;
    put_constraints(w, false, shape.path_length)?;
    put_purposes(w)?;
    put_key_usage(w, false)
}

/// Puts all that stands before the extensions in a certificate, and closes the signed part.
pub(crate) fn put_front(w: &mut Writer, shape: Shape, since: usize) -> Result<(), Error> {
    put_key(w, shape.is_rsa)?;
    put_name(w, shape.rdns, shape.subject)?;
    put_dates(w, shape.from, shape.to)?;
    put_name(w, shape.issuer_rdns, shape.issuer)?;
    put_start(w, shape.is_rsa, since)
}

/// Puts a validity in front.
fn put_dates(w: &mut Writer, from: &str, to: &str) -> Result<(), Error> {
    let since = w.mark();
    put_time(w, to)?;
    put_time(w, from)?;
    w.close(0x30, since)
}

/// Puts version, serial number and algorithm in front.
pub(crate) fn put_start(w: &mut Writer, is_rsa: bool, since: usize) -> Result<(), Error> {
    put_algorithm(w, is_rsa)?;
    let serial = w.mark();
    w.hole(Kind::Serial, 16)?;
    w.close(0x02, serial)?;
    w.put(&[0xA0, 3, 2, 1, 2])?;
    w.close(0x30, since)
}

/// A certificate of that shape.
pub(crate) fn certificate(alloc: Global, shape: Shape) -> Result<Template, Error> {
    let mut w = Writer::new(alloc);
    put_signature(&mut w, shape.is_rsa)?;
    let since = w.mark();
    if shape.is_ca {
        put_authority_extensions(&mut w, shape)?;
    } else {
        put_leaf_extensions(&mut w, shape)?;
    }
    w.close(0x30, since)?;
    w.close(0xA3, since)?;
    put_front(&mut w, shape, since)?;
    w.close(0x30, 0)?;
    Ok(w.finish())
}

/// Certificates of usual shapes, four leaves and then an authority.
pub(crate) fn certificates(alloc: Global, count: usize) -> Result<Vec<Template>, Error> {
    let mut templates = Vec::new(alloc);
    for number in 0..count {
        let shape = if number % 5 == 4 {
            authority_shape(number / 5)
        } else {
            leaf_shape(number)
        };
        templates.push(certificate(alloc, shape)?)?;
    }
    Ok(templates)
}

/// Puts an entry of a CRL with a serial number so long in front.
fn put_entry(w: &mut Writer, len: usize, has_reason: bool) -> Result<(), Error> {
    let since = w.mark();
    if has_reason {
        put_reason(w, 4)?;
        w.close(0x30, since)?;
    }
    put_entry_front(w, len, since)
}

/// Puts date and serial number in front, and closes the entry.
fn put_entry_front(w: &mut Writer, len: usize, since: usize) -> Result<(), Error> {
    put_time(w, "2305")?;
    let serial = w.mark();
    w.hole(Kind::Serial, len)?;
    w.close(0x02, serial)?;
    w.close(0x30, since)
}

/// Puts an entry with three extensions in front.
fn put_full_entry(w: &mut Writer) -> Result<(), Error> {
    let since = w.mark();
    put_issuer_of_entry(w)?;
    put_invalidity(w)?;
    put_reason(w, 1)?;
    w.close(0x30, since)?;
    put_entry_front(w, 16, since)
}

/// Ten entries, every third with a reason.
fn ten_entries(alloc: Global, is_full: bool) -> Result<Template, Error> {
    const LENGTHS: [usize; 10] = [16, 18, 16, 20, 16, 17, 16, 19, 16, 20];
    let mut w = Writer::new(alloc);
    for (place, len) in LENGTHS.iter().enumerate() {
        if is_full {
            put_full_entry(&mut w)?;
        } else {
            put_entry(&mut w, *len, place % 3 == 0)?;
        }
    }
    Ok(w.finish())
}

/// Puts the extensions of a CRL in front.
fn put_list_extensions(w: &mut Writer, since: usize) -> Result<(), Error> {
    put_crl_number(w)?;
    put_authority_key(w)?;
    w.close(0x30, since)?;
    w.close(0xA0, since)
}

/// Puts what stands before the entries of a CRL in front, and closes the signed part.
fn put_list_front(w: &mut Writer, is_rsa: bool, since: usize) -> Result<(), Error> {
    put_time(w, "2407")?;
    put_time(w, "2406")?;
    put_name(w, 3, 0)?;
    put_algorithm(w, is_rsa)?;
    w.put(&[2, 1, 1])?;
    w.close(0x30, since)
}

/// A CRL of ten times so many entries; each has three extensions where asked for.
pub(crate) fn list(alloc: Global, tens: usize, is_full: bool) -> Result<Template, Error> {
    let is_rsa = tens % 2 == 1;
    let mut w = Writer::new(alloc);
    put_signature(&mut w, is_rsa)?;
    let since = w.mark();
    put_list_extensions(&mut w, since)?;
    let entries = w.mark();
    w.copies(ten_entries(alloc, is_full)?, tens)?;
    w.close(0x30, entries)?;
    put_list_front(&mut w, is_rsa, since)?;
    w.close(0x30, 0)?;
    Ok(w.finish())
}

/// Puts the attribute of a CSR in front that asks for extensions.
fn put_asked_extensions(w: &mut Writer, names: usize, since: usize) -> Result<(), Error> {
    put_alternative_names(w, names)?;
    put_key_usage(w, false)?;
    w.close(0x30, since)?;
    w.close(0x31, since)?;
    w.element(0x06, b"\x2A\x86\x48\x86\xF7\x0D\x01\x09\x0E")?;
    w.close(0x30, since)?;
    w.close(0xA0, since)
}

/// A CSR for a server.
pub(crate) fn request(alloc: Global, number: usize) -> Result<Template, Error> {
    let shape = leaf_shape(number);
    let mut w = Writer::new(alloc);
    put_signature(&mut w, shape.is_rsa)?;
    let since = w.mark();
    put_asked_extensions(&mut w, shape.names, since)?;
    put_key(&mut w, shape.is_rsa)?;
    put_name(&mut w, shape.rdns, 0)?;
    w.put(&[2, 1, 0])?;
    w.close(0x30, since)?;
    w.close(0x30, 0)?;
    Ok(w.finish())
}

/// CSRs of usual shapes.
pub(crate) fn requests(alloc: Global, count: usize) -> Result<Vec<Template>, Error> {
    let mut templates = Vec::new(alloc);
    for number in 0..count {
        templates.push(request(alloc, number)?)?;
    }
    Ok(templates)
}
