//! What is asked of a search for a path, and what is answered.

use crate::Span;

/// A certificate, and a key under which its signature doesn't hold: where each stands in the bytes.
#[derive(Clone, Copy)]
#[repr(C)]
pub struct BadLink {
    /// The certificate.
    pub certificate: Span,

    /// The public key, with its algorithm.
    pub key: Span,
}

/// What is searched for: a path from one of the anchors over candidates to a certificate.
#[derive(Clone, Copy)]
pub struct PathSearch<'a> {
    /// The bytes in which all certificates stand, and the keys of the links.
    pub bytes: &'a [u8],

    /// Where the certificates stand that are trusted.
    pub anchors: &'a [Span],

    /// Where the candidates stand, in any number and order. Those that are no certificates are passed over.
    pub candidates: &'a [Span],

    /// Where the certificate stands to which the path leads.
    pub leaf: Span,

    /// The links that aren't used, since their signatures don't hold.
    pub bad: &'a [BadLink],

    /// As in [`PathQuestion`](crate::PathQuestion).
    pub name_constraints: &'a [u8],

    /// As in [`PathQuestion`](crate::PathQuestion).
    pub policies: &'a [u8],

    /// As in [`PathQuestion`](crate::PathQuestion).
    pub settings: &'a [u8],

    /// How many candidates may stand in the path, at most 255.
    pub max_depth: u32,
}

/// What is answered: the path that was found, or one that isn't valid where none is.
#[derive(Clone, Copy)]
#[repr(C)]
pub struct FoundPath {
    /// The number of the first anchor that gives what the path is under, from 0; how many there are where what is wrong with the
    /// certificate alone is told.
    pub anchor: usize,

    /// How many candidates stand in the path.
    pub count: usize,

    /// Where there is no path, the number of the certificate in this one that has a fault, from 0; else 0.
    pub place: usize,

    /// Where there is no path, the number of the fault, as in [`PathAnswer`](crate::PathAnswer), and 0 where the name constraints at
    /// the start can't be used; else 0.
    pub reason: u32,
}
