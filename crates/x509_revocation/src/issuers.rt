//! The issuers that the entries of a CRL name.

ghost use Rattle.std.specs.Option.{option_copied};
ghost use Rattle.std.specs.Prelude.{◌<◌, ◌↔◌, ◌∷◌, List, length, IfOk, IsTrue, MatchOption};
ghost use Rattle.x509_der.specs.Form.{Spells};
ghost use Rattle.x509_ext.specs.CertificateIssuer.{certificate_issuer};
ghost use Rattle.x509_ext.specs.declared.pkix.certificate_issuer.CertificateIssuer as issuers;
ghost use Rattle.x509_ext.specs.declared.pkix.name.general_name.GeneralName as name_types;
ghost use Rattle.x509_ext.specs.declared.pkix.name.general_name.GeneralName.TheVariants as general;
ghost use Rattle.x509_name.specs.Names as grammar;
ghost use Rattle.x509_path.specs.Certificates.{Certificate};
ghost use Rattle.x509_path.specs.Lent.{Lends};
ghost use Rattle.x509_revocation.specs.Entries.{IsUsableIssuer, NamesIssuer};
ghost use Rattle.x509_revocation.specs.LentNames.{AreNames, LendsDirectory};
ghost use Rattle.x509_revocation.specs.Names.{GeneralNamesMatch, HasDirectoryName, HasMatch, Name};

use crate::names::encoded_match;
use std::alloc::{AllocError, Global};
use x509_check::{CertificateRef, Check};
use x509_der::split_element;
use x509_ext::pkix::CertificateIssuer;

/// The identifier octet of a directory name among general names.
const DIRECTORY: u8 = 0xA4;

/// The content of the list of general names.
fn members(names: &[u8]) -> &[u8]
    ensures { (issuer : issuers.CertificateIssuer) → Spells certificate_issuer issuer names.now → AreNames result.now issuer.0 }
{
    match split_element(names) {
        Ok(piece) => piece.content,
        Err(_) => &[],
    }
}

/// The encoding of the directory name at the front, `None` where another name stands there, and what follows it.
fn next_name(names: &[u8]) -> (Option<&[u8]>, &[u8])
    ensures front { (first : name_types.GeneralName) (others : List name_types.GeneralName) → AreNames names.now (first ∷ others)
        → LendsDirectory first (option_copied result.0) × AreNames result.1.now others }
    ensures shorter { 0 < length names.now → length result.1.now < length names.now }
{
    match split_element(names) {
        Ok(piece) => {
            if piece.tag == DIRECTORY {
                (Some(piece.content), piece.rest)
            } else {
                (None, piece.rest)
            }
        }
        Err(_) => (None, &[]),
    }
}

/// Whether there is a directory name among the names of the issuer.
fn has_directory_name(issuer: &[u8]) -> bool
    ensures { (value : issuers.CertificateIssuer) → Spells certificate_issuer value issuer.now → IsTrue result ↔ HasDirectoryName value.0 }
{
    let mut rest = members(issuer);
    while !rest.is_empty() {
        let (name, others) = next_name(rest);
        if name.is_some() {
            return true;
        }
        rest = others;
    }
    false
}

/// Whether the directory name matches the name, where there is one.
fn is_name(alloc: Global, directory: Option<&[u8]>, name: &[u8]) -> Result<bool, AllocError>
    ensures { IfOk result (λ found. (first : name_types.GeneralName) (x : Name)
        → LendsDirectory first (option_copied directory.entry) → Spells grammar.name x name.now
        → IsTrue found ↔ GeneralNamesMatch (general.DirectoryName x) first) }
{
    match directory {
        Some(directory) => encoded_match(alloc, name, directory),
        None => Ok(false),
    }
}

/// Whether one of the directory names of the issuer matches the name.
fn has_name(alloc: Global, issuer: &[u8], name: &[u8]) -> Result<bool, AllocError>
    ensures { IfOk result (λ found. (value : issuers.CertificateIssuer) (x : Name) → Spells certificate_issuer value issuer.now → Spells grammar.name x name.now
        → IsTrue found ↔ HasMatch (general.DirectoryName x) value.0) }
{
    let mut rest = members(issuer);
    while !rest.is_empty() {
        let (first, others) = next_name(rest);
        let is_first = is_name(alloc, first, name)?;
        if is_first {
            return Ok(true);
        }
        rest = others;
    }
    Ok(false)
}

/// Whether the octets name the issuer of the certificate; `None` where they aren't those of a CertificateIssuer with a directory
/// name.
pub(crate) fn names_issuer(
    alloc: Global,
    certificate: &CertificateRef<'_>,
    octets: &[u8],
) -> Result<Option<bool>, AllocError>
    ensures { IfOk result (λ named. (c : Certificate) → Lends certificate.now.bytes.now c
        → MatchOption named (IsUsableIssuer octets.now → ⊥)
        (λ is_named. IsUsableIssuer octets.now × (IsTrue is_named ↔ NamesIssuer c.tbs_certificate.issuer octets.now))) }
{
    let Ok(()) = CertificateIssuer::check(octets) else {
        return Ok(None);
    };
    if !has_directory_name(octets) {
        return Ok(None);
    }
    let is_named = has_name(alloc, octets, certificate.issuer())?;
    Ok(Some(is_named))
}
