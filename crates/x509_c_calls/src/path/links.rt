//! Signatures that don't hold, as the caller lists them.

ghost use Rattle.std.specs.List.{AllZip, list_any};
ghost use Rattle.std.specs.Prelude.{◌≡◌, ◌⊎◌, MatchResult};
ghost use Rattle.x509_c_calls.specs.PathFinding.{IsNoLink, IsOpenedLink, SomeIsNoLink, is_bad};
ghost use Rattle.x509_der.specs.declared.error.ErrorKind.TheVariants.{Memory};

use crate::path::search::BadLink;
use crate::revocation::part_of;
use std::alloc::Global;
use x509_base::{Rfc5280, SubjectPublicKeyInfo};
use x509_cert::certificate::CertificateInner;
use x509_check::{CertificateRef, Check};
use x509_der::{ErrorKind, Grammar};
use x509_path::SliceVerifier;

/// A signature that doesn't hold for a key: each part as its element.
#[derive(Clone, Copy)]
pub(crate) struct BadSignature<'a> {
    /// The algorithm.
    pub algorithm: &'a [u8],

    /// The key.
    pub key: &'a [u8],

    /// What is signed.
    pub message: &'a [u8],

    /// The signature.
    pub signature: &'a [u8],
}

/// The signature that doesn't hold, of a link.
///
/// # Errors
///
/// `Failed` where the certificate or the key isn't within the bytes; else the errors of checking them.
fn open_link<'a>(bytes: &'a [u8], link: &BadLink) -> Result<BadSignature<'a>, ErrorKind>
    ensures { MatchResult result (λ bad. IsOpenedLink bytes.now link.now bad)
        (λ e. IsNoLink ⟦<CertificateInner<Rfc5280> as Grammar>⟧.refuses ⟦<SubjectPublicKeyInfo as Grammar>⟧.refuses bytes.now link.now e) }
{
    let Some(certificate) = part_of(bytes, link.certificate) else {
        return Err(ErrorKind::Failed);
    };
    let Some(key) = part_of(bytes, link.key) else {
        return Err(ErrorKind::Failed);
    };
    let certificate = match CertificateRef::<Rfc5280>::from_der(certificate) {
        Ok(certificate) => certificate,
        Err(e) => return Err(e.kind()),
    };
    if let Err(e) = SubjectPublicKeyInfo::check(key) {
        return Err(e.kind());
    }
    Ok(BadSignature {
        algorithm: certificate.signature_algorithm(),
        key,
        message: certificate.signed_part(),
        signature: certificate.signature(),
    })
}

/// The signatures that don't hold, of the links.
///
/// # Errors
///
/// Those of [`open_link`], of the first link that has one. `Memory` when out of memory.
pub(crate) fn open_links<'a>(
    alloc: Global,
    bytes: &'a [u8],
    links: &[BadLink],
) -> Result<Vec<BadSignature<'a>>, ErrorKind>
    ensures { MatchResult result
        (λ found. AllZip (IsOpenedLink bytes.now) links.now found.items)
        (λ e. (e ≡ Memory) ⊎ SomeIsNoLink ⟦<CertificateInner<Rfc5280> as Grammar>⟧.refuses ⟦<SubjectPublicKeyInfo as Grammar>⟧.refuses bytes.now links.now e) }
{
    let mut found = Vec::new(alloc);
    for link in links {
        let one = match open_link(bytes, link) {
            Ok(one) => one,
            Err(e) => return Err(e),
        };
        match found.push(one) {
            Ok(()) => {}
            Err(_) => return Err(ErrorKind::Memory),
        }
    }
    Ok(found)
}

/// Whether the signature is one of these.
fn is_listed(
    bad: &[BadSignature<'_>],
    algorithm: &[u8],
    key: &[u8],
    message: &[u8],
    signature: &[u8],
) -> bool
    ensures { result ≡ list_any (is_bad algorithm.now key.now message.now signature.now) bad.now }
{
    bad.iter().any(|one| {
        one.algorithm == algorithm
            && one.key == key
            && one.message == message
            && one.signature == signature
    })
}

/// Takes any bits for a signature, but those that are listed.
#[derive(Clone, Copy)]
pub(crate) struct Unlisted<'s, 'a> {
    /// The signatures that don't hold.
    pub bad: &'s [BadSignature<'a>],
}

impl<'s, 'a> SliceVerifier for Unlisted<'s, 'a> {
    ghost use Rattle.x509_c_calls.specs.PathFinding.{unlisted};

    ghost accepts = { λ verifier. unlisted verifier.bad.now };

    fn verify(&self, algorithm: &[u8], key: &[u8], message: &[u8], signature: &[u8]) -> bool {
        !is_listed(self.bad, algorithm, key, message, signature)
    }
}
