//! Whole documents.

ghost use Rattle.std.specs.Prelude.{◌≡◌, IfOk, string_bytes, codes};
ghost use Rattle.x509_text.specs.Lines.{document};
ghost use Rattle.x509_text.specs.Anchors.{anchor_lines};
ghost use Rattle.x509_text.specs.Certificates.{certificate_lines};
ghost use Rattle.x509_text.specs.Crls.{crl_lines};
ghost use Rattle.x509_text.specs.Requests.{request_lines};

use crate::line::{Depth, Place, Style, closing, write_opening};
use crate::show::Show;
use std::alloc::{AllocError, Global};
use x509_base::Profile;
use x509_cert::anchor::TrustAnchorChoice;
use x509_cert::certificate::CertificateInner;
use x509_cert::crl::CertificateList;
use x509_cert::request::CertReq;

/// The document of a value, which says what kind of object it is.
pub(crate) fn document<T: Show>(
    alloc: Global,
    style: Style,
    kind: &str,
    value: &T,
) -> Result<String, AllocError>
    ensures { IfOk result (λ text. string_bytes text ≡ document kind.now (λ at. T.lines at value.now) style) }
{
    let mut text = String::new(alloc);
    write_opening(alloc, style, kind, &mut text)?;
    let top = Place {
        style,
        depth: Depth::First,
    };
    value.show(alloc, top, &mut text)?;
    text.push_str(closing(style))?;
    Ok(text)
}

/// A certificate in lines that a person reads, or in JSON.
///
/// # Errors
///
/// `AllocError` when out of memory, and nothing else.
pub fn certificate_text<P: Profile>(
    alloc: Global,
    style: Style,
    certificate: &CertificateInner<P>,
) -> Result<String, AllocError>
    ensures { IfOk result (λ text. string_bytes text ≡ document (codes "certificate") (λ at. certificate_lines at certificate.now) style) }
{
    document(alloc, style, "certificate", certificate)
}

/// A CRL in lines that a person reads, or in JSON.
///
/// # Errors
///
/// `AllocError` when out of memory, and nothing else.
pub fn crl_text<P: Profile>(
    alloc: Global,
    style: Style,
    crl: &CertificateList<P>,
) -> Result<String, AllocError>
    ensures { IfOk result (λ text. string_bytes text ≡ document (codes "CRL") (λ at. crl_lines at crl.now) style) }
{
    document(alloc, style, "CRL", crl)
}

/// A PKCS #10 request (CSR) in lines that a person reads, or in JSON.
///
/// # Errors
///
/// `AllocError` when out of memory, and nothing else.
pub fn request_text(alloc: Global, style: Style, request: &CertReq) -> Result<String, AllocError>
    ensures { IfOk result (λ text. string_bytes text ≡ document (codes "CSR") (λ at. request_lines at request.now) style) }
{
    document(alloc, style, "CSR", request)
}

/// A trust anchor in lines that a person reads, or in JSON.
///
/// # Errors
///
/// `AllocError` when out of memory, and nothing else.
pub fn anchor_text<P: Profile>(
    alloc: Global,
    style: Style,
    anchor: &TrustAnchorChoice<P>,
) -> Result<String, AllocError>
    ensures { IfOk result (λ text. string_bytes text ≡ document (codes "trust anchor") (λ at. anchor_lines at anchor.now) style) }
{
    document(alloc, style, "trust anchor", anchor)
}
