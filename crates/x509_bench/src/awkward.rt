//! Certificates of awkward shapes that users have.

use crate::objects::{LEAF, put_start};
use crate::shapes::*;
use crate::template::{Kind, Template};
use crate::texts::put_text;
use crate::writer::Writer;
use std::alloc::Global;
use x509_der::Error;

/// What is awkward about a certificate.
#[derive(Clone, Copy, PartialEq, Eq)]
pub(crate) enum Awkward {
    /// A SAN of 5,000 names.
    ManyNames,

    /// Name constraints of 1,000 subtrees.
    ManySubtrees,

    /// A subject of 1,000 RDNs.
    ManyRdns,

    /// A subject with an RDN of 1,000 attributes.
    ManyAttributes,

    /// A subject of texts full of escapes and beyond ASCII.
    Escapes,

    /// A key whose parameters are nested 2,000 deep.
    Nested,
}

/// All of them.
pub(crate) const ALL: [Awkward; 6] = [
    Awkward::ManyNames,
    Awkward::ManySubtrees,
    Awkward::ManyRdns,
    Awkward::ManyAttributes,
    Awkward::Escapes,
    Awkward::Nested,
];

/// Puts name constraints of 1,000 subtrees in front.
fn put_subtrees(w: &mut Writer) -> Result<(), Error> {
    let since = w.mark();
    for _ in 0..1_000 {
        let subtree = w.mark();
        w.text(".example.org")?;
        w.hole(Kind::Letters, 12)?;
        w.close(0x82, subtree)?;
        w.close(0x30, subtree)?;
    }
    w.close(0xA0, since)?;
    w.close(0x30, since)?;
    close_extension(w, &[0x55, 0x1D, 30], true, since)
}

/// Puts the extensions in front.
fn put_extensions(w: &mut Writer, kind: Awkward) -> Result<(), Error> {
    let since = w.mark();
    match kind {
        Awkward::ManyNames => put_alternative_names(w, 5_000)?,
        Awkward::ManySubtrees => put_subtrees(w)?,
        _ => put_subject_key(w)?,
    }
    put_constraints(w, true, None)?;
    put_key_usage(w, true)?;
    w.close(0x30, since)?;
    w.close(0xA3, since)
}

/// The last digit of a number.
fn digit(number: usize) -> u8 {
    b'0' + (number % 10) as u8
}

/// The number in four digits.
fn digits(number: usize) -> [u8; 4] {
    [
        digit(number / 1000),
        digit(number / 100),
        digit(number / 10),
        digit(number),
    ]
}

/// Puts an attribute with a number in front, so that attributes with rising numbers are a set in order.
fn put_numbered(w: &mut Writer, number: usize) -> Result<(), Error> {
    let since = w.mark();
    w.hole(Kind::Letters, 10)?;
    w.put(digits(number).as_slice())?;
    w.close(UTF8, since)?;
    w.element(0x06, &[0x55, 0x04, 11])?;
    w.close(0x30, since)
}

/// Puts 1,000 attributes in front, in one RDN or in as many.
fn put_many(w: &mut Writer, is_one: bool) -> Result<(), Error> {
    let since = w.mark();
    for number in 0..1_000usize {
        let rdn = w.mark();
        put_numbered(w, 999usize.saturating_sub(number))?;
        if !is_one {
            w.close(0x31, rdn)?;
        }
    }
    if is_one {
        w.close(0x31, since)?;
    }
    w.close(0x30, since)
}

/// Values full of what is escaped in texts, or beyond ASCII. Stars stand for letters.
const VALUES: [&str; 6] = [
    " \"****\",+<****>;=\\****\\,,++\"\"<<>>;;\\\\****\"*,*+*\"*\\*<*>*;*=*#* ",
    "#****,****+****\"****\\****<****>****;****,,,,,,,,++++++++\"\"\"\"\"\"\"\"\\\\\\\\",
    "Ångström ****, Łódź ****; Příliš žluťoučký kůň **** — “úpěl” ďábelské ódy",
    "株式会社****データ・サービス、東京都千代田区****・大手町****ビル",
    "Общество с ограниченной ответственностью «****», г. Москва",
    "\u{7F}****\u{1}\u{2}\u{3}\u{4}****\u{1F}****\u{200B}****\u{202E}****\u{FEFF}",
];

/// Puts those values in front four times, each in an RDN.
fn put_escapes(w: &mut Writer) -> Result<(), Error> {
    let since = w.mark();
    for _ in 0..4 {
        for value in VALUES {
            let rdn = w.mark();
            put_text(w, value)?;
            w.close(UTF8, rdn)?;
            w.element(0x06, &[0x55, 0x04, 10])?;
            w.close(0x30, rdn)?;
            w.close(0x31, rdn)?;
        }
    }
    w.close(0x30, since)
}

/// Puts the subject in front.
fn put_subject(w: &mut Writer, kind: Awkward) -> Result<(), Error> {
    match kind {
        Awkward::ManyRdns => put_many(w, false),
        Awkward::ManyAttributes => put_many(w, true),
        Awkward::Escapes => put_escapes(w),
        _ => put_name(w, 3, 0),
    }
}

/// Puts a key whose parameters are nested deep in front.
fn put_nested_key(w: &mut Writer) -> Result<(), Error> {
    let since = w.mark();
    w.hole(Kind::Octets, 64)?;
    w.put(&[0])?;
    w.close(0x03, since)?;
    let algorithm = w.mark();
    w.hole(Kind::Octets, 16)?;
    w.close(0x04, algorithm)?;
    for _ in 0..2_000 {
        w.close(0x30, algorithm)?;
    }
    w.element(0x06, &[0x2A, 3, 4])?;
    w.close(0x30, algorithm)?;
    w.close(0x30, since)
}

/// Puts the dates of a validity in front.
fn put_dates(w: &mut Writer) -> Result<(), Error> {
    let since = w.mark();
    put_time(w, LEAF.to)?;
    put_time(w, LEAF.from)?;
    w.close(0x30, since)
}

/// An awkward certificate.
pub(crate) fn make_awkward(alloc: Global, kind: Awkward) -> Result<Template, Error> {
    let mut w = Writer::new(alloc);
    put_signature(&mut w, true)?;
    let since = w.mark();
    put_extensions(&mut w, kind)?;
    if kind == Awkward::Nested {
        put_nested_key(&mut w)?;
    } else {
        put_key(&mut w, true)?;
    }
    put_subject(&mut w, kind)?;
    put_dates(&mut w)?;
    put_name(&mut w, 3, 0)?;
    put_start(&mut w, true, since)?;
    w.close(0x30, 0)?;
    Ok(w.finish())
}
