//! Objects, decoded under no rules beyond the grammar, and their documents.

ghost use Rattle.std.specs.Option.{option_map};
ghost use Rattle.std.specs.Prelude.{◌≡◌, IfOk, string_bytes};
ghost use Rattle.x509_text.specs.Objects as objects;
ghost use Rattle.x509_text.specs.Pieces.{text_of};
ghost use Rattle.x509_text.specs.declared.objects.Kind.TheVariants as kinds;

use crate::documents::document;
use crate::line::Style;
use crate::pieces::{CrlPieces, Document};
use crate::show::{Show, value_of};
use std::alloc::{AllocError, Global};
use x509_base::Raw;
use x509_cert::anchor::TrustAnchorChoice;
use x509_cert::certificate::CertificateInner;
use x509_cert::request::CertReq;
use x509_der::Decode;

/// A kind of object.
#[derive(Clone, Copy, Debug, PartialEq, Eq)]
pub enum Kind {
    /// A certificate (RFC 5280 4.1).
    Certificate,

    /// A CRL (RFC 5280 5.1).
    Crl,

    /// A PKCS #10 request, a CSR (RFC 2986 4).
    Csr,

    /// A trust anchor (RFC 5914 3). A certificate is one too.
    Anchor,
}

/// The document of the value that the bytes are the encoding of, where they are that of one.
fn document_of_value<T: Decode + Show + Drop>(
    alloc: Global,
    style: Style,
    kind: &str,
    bytes: &[u8],
) -> Result<Option<Document<'static>>, AllocError>
    ensures { IfOk result (λ found. option_map text_of found ≡ objects.value_shown T.form T.lines kind.now style bytes.now) }
{
    match value_of::<T>(alloc, bytes)? {
        Some(value) => Ok(Some(Document::Whole(document(alloc, style, kind, &value)?))),
        None => Ok(None),
    }
}

/// The document of the CRL that the bytes are the encoding of, where they are that of one.
fn document_of_crl(
    alloc: Global,
    style: Style,
    bytes: &[u8],
) -> Result<Option<Document<'_>>, AllocError>
    ensures { IfOk result (λ found. option_map text_of found ≡ objects.shown_as kinds.Crl style bytes.now) }
{
    match CrlPieces::from_der(alloc, style, bytes)? {
        Some(pieces) => Ok(Some(Document::Crl(pieces))),
        None => Ok(None),
    }
}

/// The document of the object of this kind that the bytes are the encoding of, under no rules beyond the grammar (`Raw`); `None` exactly
/// where they are that of none. That of a CRL comes piece by piece.
///
/// # Errors
///
/// `AllocError` when out of memory, and nothing else.
#[tactic(auto, unfolding(crate::specs::Objects::shown_as))]
pub fn document_of_kind(
    alloc: Global,
    style: Style,
    kind: Kind,
    bytes: &[u8],
) -> Result<Option<Document<'_>>, AllocError>
    ensures { IfOk result (λ found. option_map text_of found ≡ objects.shown_as kind style bytes.now) }
{
    match kind {
        Kind::Certificate => {
            document_of_value::<CertificateInner<Raw>>(alloc, style, "certificate", bytes)
        }
        Kind::Crl => document_of_crl(alloc, style, bytes),
        Kind::Csr => document_of_value::<CertReq>(alloc, style, "CSR", bytes),
        Kind::Anchor => {
            document_of_value::<TrustAnchorChoice<Raw>>(alloc, style, "trust anchor", bytes)
        }
    }
}

/// The document of the first kind of object that the bytes are the encoding of, in this order: a certificate, a CRL, a CSR, a trust anchor,
/// under no rules beyond the grammar (`Raw`); `None` exactly where they are that of none. That of a CRL comes piece by piece.
///
/// # Errors
///
/// `AllocError` when out of memory, and nothing else.
#[tactic(auto, unfolding(crate::specs::Objects::shown))]
pub fn document_of_bytes(
    alloc: Global,
    style: Style,
    bytes: &[u8],
) -> Result<Option<Document<'_>>, AllocError>
    ensures { IfOk result (λ found. option_map text_of found ≡ objects.shown style bytes.now) }
{
    if let Some(found) = document_of_kind(alloc, style, Kind::Certificate, bytes)? {
        return Ok(Some(found));
    }
    if let Some(found) = document_of_kind(alloc, style, Kind::Crl, bytes)? {
        return Ok(Some(found));
    }
    if let Some(found) = document_of_kind(alloc, style, Kind::Csr, bytes)? {
        return Ok(Some(found));
    }
    document_of_kind(alloc, style, Kind::Anchor, bytes)
}

/// As [`document_of_kind`], in one text.
///
/// # Errors
///
/// `AllocError` when out of memory, and nothing else.
pub fn show_kind(
    alloc: Global,
    style: Style,
    kind: Kind,
    bytes: &[u8],
) -> Result<Option<String>, AllocError>
    ensures { IfOk result (λ text. option_map string_bytes text ≡ objects.shown_as kind style bytes.now) }
{
    match document_of_kind(alloc, style, kind, bytes)? {
        Some(found) => Ok(Some(found.into_text(alloc)?)),
        None => Ok(None),
    }
}

/// As [`document_of_bytes`], in one text.
///
/// # Errors
///
/// `AllocError` when out of memory, and nothing else.
pub fn show_bytes(alloc: Global, style: Style, bytes: &[u8]) -> Result<Option<String>, AllocError>
    ensures { IfOk result (λ text. option_map string_bytes text ≡ objects.shown style bytes.now) }
{
    match document_of_bytes(alloc, style, bytes)? {
        Some(found) => Ok(Some(found.into_text(alloc)?)),
        None => Ok(None),
    }
}
