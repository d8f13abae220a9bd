//! Texts of names, of which parts vary.

use crate::template::{Filler, Kind, Template};
use crate::writer::Writer;
use std::alloc::Global;
use x509_der::Error;

/// Puts the parts in front that were counted.
fn put_parts(w: &mut Writer, letters: usize, digits: usize) -> Result<(), Error> {
    if letters > 0 {
        w.hole(Kind::Letters, letters)?;
    }
    if digits > 0 {
        w.hole(Kind::Digits, digits)?;
    }
    Ok(())
}

/// Puts a text in front in which letters vary where stars stand, and digits where percent signs do.
pub(crate) fn put_text(w: &mut Writer, text: &str) -> Result<(), Error> {
    let mut letters = 0usize;
    let mut digits = 0usize;
    for octet in text.as_bytes().iter().rev() {
        match *octet {
            b'*' => letters = letters.saturating_add(1),
            b'%' => digits = digits.saturating_add(1),
            other => {
                put_parts(w, letters, digits)?;
                letters = 0;
                digits = 0;
                w.put(&[other])?;
            }
        }
    }
    put_parts(w, letters, digits)
}

/// The text.
pub(crate) fn text(alloc: Global, text: &str) -> Result<Template, Error> {
    let mut w = Writer::new(alloc);
    put_text(&mut w, text)?;
    Ok(w.finish())
}

/// The texts.
pub(crate) fn texts(alloc: Global, all: &[&str]) -> Result<Vec<Template>, Error> {
    let mut templates = Vec::new(alloc);
    for one in all {
        templates.push(text(alloc, one)?)?;
    }
    Ok(templates)
}

/// Makes the buffer's bytes the next of some template.
pub(crate) fn fill_any(
    templates: &[Template],
    filler: &mut Filler,
    buffer: &mut Vec<u8>,
) -> Result<(), Error> {
    let place = filler.random.index(templates.len());
    match templates.get(place) {
        Some(template) => template.fill(filler, buffer),
        None => Ok(()),
    }
}
