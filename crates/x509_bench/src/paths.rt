//! Certification paths under trust anchors, over a verifier that accepts any bits.

use crate::digest::{Digest, Report};
use crate::objects::{LEAF, Shape, authority_shape, certificate, leaf_shape};
use crate::template::{Filler, Template};
use std::alloc::Global;
use x509_base::DateTime;
use x509_cert::Certificate;
use x509_der::{Decode, Error, ErrorKind};
use x509_path::{Anchor, AnySignature, PathFault, check_path};

/// A trust anchor, and the seed of its name.
#[derive(Drop)]
struct Trusted {
    seed: u64,
    anchor: Anchor,
}

/// The shape of the authority at a place in a path, with the names of its levels.
fn authority_at(place: usize, path_length: Option<u8>) -> Shape {
    let mut shape = authority_shape(place);
    let level = (place as u64 & 0xF) + 1;
    shape.rdns = 3;
    shape.path_length = path_length;
    shape.issuer = level;
    shape.subject = level + 1;
    shape
}

/// The shape of the leaf at a place.
fn leaf_at(place: usize, number: usize) -> Shape {
    let mut shape = leaf_shape(number);
    shape.issuer = (place as u64 & 0xF) + 1;
    shape.subject = 0;
    shape.to = LEAF.to;
    shape
}

/// The anchor whose name has that seed.
fn make_trusted(alloc: Global, seed: u64) -> Result<Trusted, Error> {
    let mut shape = authority_at(0, None);
    shape.subject = 1;
    let mut filler = Filler::new(seed);
    let bytes = certificate(alloc, shape)?.object(alloc, &mut filler)?;
    let certificate = Certificate::from_der(alloc, bytes.as_slice())?;
    Ok(Trusted {
        seed,
        anchor: Anchor::from_certificate(alloc, &certificate)?,
    })
}

/// Sixteen anchors.
fn anchors(alloc: Global, seed: u64) -> Result<Vec<Trusted>, Error> {
    let mut anchors = Vec::new(alloc);
    for number in 0..16 {
        anchors.push(make_trusted(alloc, seed ^ (number << 40) ^ 0x5EED)?)?;
    }
    Ok(anchors)
}

/// What is wrong with a path.
#[derive(Clone, Copy, PartialEq, Eq)]
enum Wrong {
    Nothing,

    /// The first authority allows no other below it.
    PathLength,

    /// The last certificate names another issuer.
    Issuer,

    /// The moment is after the leaf's validity.
    Moment,

    /// The certificate above the leaf is no authority's.
    Authority,
}

/// Paths of one shape.
#[derive(Drop)]
struct Chain {
    templates: Vec<Template>,
    buffers: Vec<Vec<u8>>,
    wrong: Wrong,
}

/// The path length that the authority at a place of a path of so many certificates allows.
fn allowed(place: usize, len: usize, wrong: Wrong) -> Option<u8> {
    if place == 0 && wrong == Wrong::PathLength {
        return Some(0);
    }
    let below = len.saturating_sub(place).saturating_sub(2);
    if place % 3 == 2 {
        return None;
    }
    u8::try_from(below & 0x0F).ok()
}

/// The shape of the certificate at a place.
fn shape_at(place: usize, len: usize, number: usize, wrong: Wrong) -> Shape {
    if place.saturating_add(1) == len {
        return leaf_at(place, number);
    }
    let mut shape = authority_at(place, allowed(place, len, wrong));
    if wrong == Wrong::Authority && place.saturating_add(2) == len {
        shape.is_ca = false;
        shape.path_length = None;
        shape.timestamps = 2;
        shape.names = 2;
    }
    shape
}

/// Paths of so many certificates.
fn make_chain(alloc: Global, len: usize, number: usize, wrong: Wrong) -> Result<Chain, Error> {
    let mut templates = Vec::new(alloc);
    let mut buffers = Vec::new(alloc);
    for place in 0..len {
        templates.push(certificate(alloc, shape_at(place, len, number, wrong))?)?;
        buffers.push(Vec::new(alloc))?;
    }
    Ok(Chain {
        templates,
        buffers,
        wrong,
    })
}

/// Paths of 2 to 4, and of 10, most of which hold.
fn chains(alloc: Global) -> Result<Vec<Chain>, Error> {
    const LENGTHS: [usize; 32] = [
        2, 3, 3, 2, 3, 4, 3, 2, 3, 3, 2, 4, 3, 10, 2, 3, 3, 2, 3, 4, 3, 2, 3, 3, 2, 4, 3, 3, 4, 3,
        3, 4,
    ];
    let mut chains = Vec::new(alloc);
    for (number, len) in LENGTHS.iter().enumerate() {
        let wrong = match number {
            28 => Wrong::PathLength,
            29 => Wrong::Issuer,
            30 => Wrong::Moment,
            31 => Wrong::Authority,
            _ => Wrong::Nothing,
        };
        chains.push(make_chain(alloc, *len, number, wrong)?)?;
    }
    Ok(chains)
}

/// Makes the buffers the next path.
fn fill(chain: &mut Chain, filler: &mut Filler) -> Result<(), Error> {
    let last = chain.templates.len().saturating_sub(1);
    for (place, (template, buffer)) in chain
        .templates
        .iter()
        .zip(chain.buffers.iter_mut())
        .enumerate()
    {
        if place == last && chain.wrong == Wrong::Issuer {
            filler.path = filler.path.wrapping_add(1);
        }
        template.fill(filler, buffer)?;
    }
    Ok(())
}

/// Takes a verdict in, and answers whether the path holds.
fn take_verdict(alloc: Global, verdict: Result<(), PathFault>, digest: &mut Digest) -> bool {
    match verdict {
        Ok(()) => {
            digest.number(1);
            true
        }
        Err(fault) => {
            if let Ok(text) = fault.to_string(alloc) {
                digest.text(text.as_str());
            }
            false
        }
    }
}

/// Checks the next path of a shape under an anchor.
fn check(
    alloc: Global,
    chain: &mut Chain,
    trusted: &Trusted,
    filler: &mut Filler,
    report: &mut Report,
) -> Result<(), Error> {
    filler.root = trusted.seed;
    filler.path = filler.random.next();
    fill(chain, filler)?;
    let year = if chain.wrong == Wrong::Moment {
        2029
    } else {
        2025
    };
    let moment = DateTime::new(year, 6, 1, 12, 0, 0)?;
    let verdict = check_path(
        alloc,
        &trusted.anchor,
        chain.buffers.as_slice(),
        moment,
        &AnySignature,
    );
    let holds = take_verdict(alloc, verdict, &mut report.digest);
    report.count(holds == (chain.wrong == Wrong::Nothing));
    Ok(())
}

/// Checks so many paths.
pub(crate) fn run(alloc: Global, count: usize, seed: u64) -> Result<Report, Error> {
    let mut filler = Filler::new(seed);
    let trusted = anchors(alloc, filler.random.next())?;
    let mut chains = chains(alloc)?;
    let mut report = Report::new();
    for _ in 0..count {
        let anchor = filler.random.index(trusted.len());
        let place = filler.random.index(chains.len());
        match (trusted.get(anchor), chains.get_mut(place)) {
            (Some(anchor), Some(chain)) => check(alloc, chain, anchor, &mut filler, &mut report)?,
            _ => return Err(ErrorKind::Failed.into()),
        }
    }
    Ok(report)
}
