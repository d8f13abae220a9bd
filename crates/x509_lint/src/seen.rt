//! What is seen at the place of a finding.

ghost use Rattle.std.specs.Prelude.{◌≡◌, IfOk, string_bytes};
ghost use Rattle.x509_lint.specs.Request.{requested_extensions, requested_of};
ghost use Rattle.x509_lint.specs.Seen as grammar;

use crate::request::values::{requested, requested_extensions};
use crate::rule::{ExtensionKind, FieldRule, Rule};
use std::alloc::{AllocError, Global};
use x509_base::Raw;
use x509_cert::anchor::{TrustAnchorChoice, TrustAnchorInfo};
use x509_cert::certificate::{CertificateInner, TbsCertificateInner};
use x509_cert::crl::CertificateList;
use x509_cert::request::CertReq;
use x509_der::ObjectIdentifier;
use x509_ext::{Extension, members};

/// How many octets are told of what is seen.
const SEEN: usize = 32;

/// The octets in hex; where there are more than [`SEEN`], those alone, and two dots.
#[tactic(auto, unfolding(crate::specs::Seen::shortened))]
pub fn shortened(alloc: Global, octets: &[u8]) -> Result<String, AllocError>
    ensures { IfOk result (λ text. string_bytes text ≡ grammar.shortened octets.now) }
{
    if octets.len() > SEEN {
        let mut text = hex::encode(alloc, &octets[..SEEN])?;
        text.push_str("..")?;
        return Ok(text);
    }
    hex::encode(alloc, octets)
}

/// The octets of the first extension with the OID, in hex as by [`shortened`]; nothing where none has it.
pub fn value_of(
    alloc: Global,
    oid: ObjectIdentifier,
    mut extensions: &[Extension],
) -> Result<String, AllocError>
    ensures { IfOk result (λ text. string_bytes text ≡ grammar.value_seen oid extensions.entry.now) }
{
    while let [first, rest @ ..] = extensions {
        if first.extn_id == oid {
            return shortened(alloc, first.extn_value.as_bytes());
        }
        extensions = rest;
    }
    Ok(String::new(alloc))
}

/// What is seen where the signed part of a certificate breaks a rule: its serial number, or the octets of an extension that can't be read;
/// else nothing.
fn signed_seen(
    alloc: Global,
    signed: &TbsCertificateInner<Raw>,
    rule: Rule,
) -> Result<String, AllocError>
    ensures { IfOk result (λ text. string_bytes text ≡ grammar.signed_seen signed.now rule) }
{
    match rule {
        Rule::Field(FieldRule::SerialNumberNotPositive) => {
            shortened(alloc, signed.serial_number().as_bytes())
        }
        Rule::Field(FieldRule::SerialNumberTooLong) => {
            shortened(alloc, signed.serial_number().as_bytes())
        }
        Rule::ExtensionMalformed(kind) => {
            value_of(alloc, kind.oid(), members(signed.extensions()))
        }
        _ => Ok(String::new(alloc)),
    }
}

/// What is seen where a certificate breaks a rule.
pub(crate) fn certificate_seen(
    alloc: Global,
    certificate: &CertificateInner<Raw>,
    rule: Rule,
) -> Result<String, AllocError>
    ensures { IfOk result (λ text. string_bytes text ≡ grammar.certificate_seen certificate.now rule) }
{
    signed_seen(alloc, certificate.tbs_certificate(), rule)
}

/// What is seen where a CRL breaks a rule: the octets of an extension that can't be read; else nothing.
pub(crate) fn crl_seen(
    alloc: Global,
    crl: &CertificateList<Raw>,
    rule: Rule,
) -> Result<String, AllocError>
    ensures { IfOk result (λ text. string_bytes text ≡ grammar.crl_seen crl.now rule) }
{
    match rule {
        Rule::CrlExtensionMalformed(kind) => value_of(
            alloc,
            kind.oid(),
            members(crl.tbs_cert_list.crl_extensions.as_ref()),
        ),
        _ => Ok(String::new(alloc)),
    }
}

/// What is seen of an extension that a CSR asks for.
fn requested_seen(
    alloc: Global,
    request: &CertReq,
    kind: ExtensionKind,
) -> Result<String, AllocError>
    ensures { IfOk result (λ text. string_bytes text
        ≡ grammar.value_seen (grammar.extension_oid kind) (requested_extensions (requested_of request.now))) }
{
    match requested(alloc, &request.info.attributes) {
        Ok(requested) => value_of(alloc, kind.oid(), requested_extensions(&requested)),
        Err(_) => Err(AllocError),
    }
}

/// What is seen where a CSR breaks a rule: the octets of an extension that it asks for and that can't be read; else nothing.
pub(crate) fn request_seen(
    alloc: Global,
    request: &CertReq,
    rule: Rule,
) -> Result<String, AllocError>
    ensures { IfOk result (λ text. string_bytes text ≡ grammar.request_seen request.now rule) }
{
    match rule {
        Rule::RequestExtensionMalformed(kind) => { requested_seen(alloc, request, kind) }
        _ => Ok(String::new(alloc)),
    }
}

/// What is seen where the description of a trust anchor breaks a rule: the octets of an extension that can't be read; else nothing.
fn info_seen(alloc: Global, info: &TrustAnchorInfo<Raw>, rule: Rule) -> Result<String, AllocError>
    ensures { IfOk result (λ text. string_bytes text ≡ grammar.info_seen info.now rule) }
{
    match rule {
        Rule::AnchorExtensionMalformed(kind) => {
            value_of(alloc, kind.oid(), members(info.extensions.as_ref()))
        }
        _ => Ok(String::new(alloc)),
    }
}

/// What is seen where a trust anchor breaks a rule.
pub(crate) fn anchor_seen(
    alloc: Global,
    anchor: &TrustAnchorChoice<Raw>,
    rule: Rule,
) -> Result<String, AllocError>
    ensures { IfOk result (λ text. string_bytes text ≡ grammar.anchor_seen anchor.now rule) }
{
    match anchor {
        TrustAnchorChoice::Certificate(certificate) => certificate_seen(alloc, certificate, rule),
        TrustAnchorChoice::TbsCertificate(signed) => signed_seen(alloc, signed, rule),
        TrustAnchorChoice::TaInfo(info) => info_seen(alloc, info, rule),
    }
}
