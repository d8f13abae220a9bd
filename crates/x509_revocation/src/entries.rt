//! The entries of a CRL (RFC 5280 5.3, 6.3.3 (i) to (k)).

ghost use Rattle.std.specs.List.{All};
ghost use Rattle.std.specs.Prelude.{◌≡◌, ◌↔◌, List, option_map, IfOk, IsTrue, MatchOption};
ghost use Rattle.x509_cert.specs.Issuers.{or_else};
ghost use Rattle.x509_ext.specs.Identifiers.{id_ce};
ghost use Rattle.x509_check.specs.CrlRefs.{lent_entry};
ghost use Rattle.x509_check.specs.ExtensionRefs.{extensions_left};
ghost use Rattle.x509_ext.specs.LookUp.{members, with_oid};
ghost use Rattle.x509_ext.specs.declared.extension.Extension.{Extension};
ghost use Rattle.x509_path.specs.Certificates.{Certificate};
ghost use Rattle.x509_path.specs.Lent.{Lends};
ghost use Rattle.x509_revocation.specs.Crls.{Crl, entries_of};
ghost use Rattle.x509_revocation.specs.Entries.{AreUsableIssuers, FindsEntry, IsIssuer, IsUsable};
ghost use Rattle.x509_revocation.specs.LentEntries.{Settles};
ghost use Rattle.x509_revocation.specs.Lent.{LendsCrl};
ghost use Rattle.x509_revocation.specs.LentFound.{placed_entry};
ghost use Rattle.x509_revocation.specs.Names.{Name};
ghost use Rattle.x509_revocation.specs.Says.{HasReason, Tells};

use crate::extensions::are_processed;
use crate::issuers::names_issuer;
use crate::names::encoded_match;
use crate::status::Revocation;
use std::alloc::{AllocError, Global};
use x509_check::{CertificateRef, CrlRef, ExtensionRefs, RevokedCertRef, UndatedCertRef};
use x509_der::AssociatedOid;
use x509_ext::pkix::{CertificateIssuer, CrlReason};

/// The extensions of the entry; none where the list is absent.
fn extensions_of<'a>(entry: &RevokedCertRef<'a>) -> ExtensionRefs<'a>
    ensures { extensions_left result ≡ members (option_map extensions_left entry.now.crl_entry_extensions) }
{
    match entry.crl_entry_extensions {
        Some(extensions) => extensions,
        None => ExtensionRefs::empty(),
    }
}

/// Whether the certificate's issuer issued that of the entry with these extensions, by whether it issued that of the one before it
/// (RFC 5280 5.3.3); `None` where the entry has a CertificateIssuer that can't be used.
fn issuer_at(
    alloc: Global,
    certificate: &CertificateRef<'_>,
    is_indirect: bool,
    is_issuer: bool,
    extensions: &ExtensionRefs<'_>,
) -> Result<Option<bool>, AllocError>
    ensures { IfOk result (λ here. (c : Certificate) (own : Name) (before : List Extension) → Lends certificate.now.bytes.now c
        → (IsTrue is_issuer ↔ IsIssuer own c.tbs_certificate.issuer before)
        → MatchOption here (AreUsableIssuers is_indirect (with_oid (id_ce 29) (extensions_left extensions.now)) → ⊥)
        (λ is_here. AreUsableIssuers is_indirect (with_oid (id_ce 29) (extensions_left extensions.now))
        × (IsTrue is_here ↔ IsIssuer own c.tbs_certificate.issuer (or_else (with_oid (id_ce 29) (extensions_left extensions.now)) before)))) }
{
    match extensions.find_extension(CertificateIssuer::OID) {
        Ok(None) => Ok(Some(is_issuer)),
        Ok(Some(extension)) => {
            if !is_indirect {
                return Ok(None);
            }
            names_issuer(alloc, certificate, extension.extn_value)
        }
        Err(_) => Ok(None),
    }
}

/// Whether the entry is of the certificate's issuer, by these extensions; `None` also where a critical one isn't processed. Those that aren't
/// critical and don't name an issuer are passed over, since they change nothing.
fn issuer_of_extensions(
    alloc: Global,
    certificate: &CertificateRef<'_>,
    is_indirect: bool,
    is_issuer: bool,
    extensions: &ExtensionRefs<'_>,
) -> Result<Option<bool>, AllocError>
    ensures { IfOk result (λ here. (c : Certificate) (own : Name) (before : List Extension) → Lends certificate.now.bytes.now c
        → (IsTrue is_issuer ↔ IsIssuer own c.tbs_certificate.issuer before)
        → Settles is_indirect own c.tbs_certificate.issuer before (extensions_left extensions.now) here) }
{
    if !extensions.has_critical_or(&CertificateIssuer::OID) {
        return Ok(Some(is_issuer));
    }
    if !are_processed::<CrlReason, CertificateIssuer>(*extensions) {
        return Ok(None);
    }
    issuer_at(alloc, certificate, is_indirect, is_issuer, extensions)
}

/// Whether the entry is of the certificate's issuer, by its extensions.
#[inline(always)]
fn issuer_of_entry(
    alloc: Global,
    certificate: &CertificateRef<'_>,
    is_indirect: bool,
    is_issuer: bool,
    entry: &UndatedCertRef<'_>,
) -> Result<Option<bool>, AllocError>
    ensures { IfOk result (λ here. (c : Certificate) (own : Name) (before : List Extension) → Lends certificate.now.bytes.now c
        → (IsTrue is_issuer ↔ IsIssuer own c.tbs_certificate.issuer before)
        → Settles is_indirect own c.tbs_certificate.issuer before (members (option_map extensions_left entry.now.crl_entry_extensions)) here) }
{
    match &entry.crl_entry_extensions {
        Some(extensions) => issuer_of_extensions(
            alloc,
            certificate,
            is_indirect,
            is_issuer,
            extensions,
        ),
        None => Ok(Some(is_issuer)),
    }
}

/// Whether the entry is that of the certificate with the serial number, by whether its issuer issued that of the entry. The last octets are
/// compared first, since serial numbers of one issuer often begin alike.
#[inline(always)]
fn is_of(is_issuer: bool, entry: &UndatedCertRef<'_>, serial_number: &[u8]) -> bool
    ensures { IsTrue result ↔ (IsTrue is_issuer × (entry.now.serial_number.now ≡ serial_number.now)) }
{
    let number = entry.serial_number;
    is_issuer && number.last() == serial_number.last() && number == serial_number
}

/// (i) of a delta CRL, (j) of a complete one: the first entry of the certificate; `None` where an entry stands against the use of
/// the CRL (5.3), which is an indirect one or not. In one pass over the entries; over their serial numbers alone where no entry has an
/// extension that is critical or is a CertificateIssuer.
///
/// Each critical extension of the entries is a [`CrlReason`] or a [`CertificateIssuer`] that can be decoded. A CertificateIssuer
/// stands in entries of an indirect CRL alone, no entry has two, and each can be decoded and has a directory name.
pub(crate) fn find_entry<'a>(
    alloc: Global,
    certificate: &CertificateRef<'_>,
    crl: &CrlRef<'a>,
    is_indirect: bool,
) -> Result<Option<Option<RevokedCertRef<'a>>>, AllocError>
    ensures { IfOk result (λ looked. (c : Certificate) (of : Crl) → Lends certificate.now.bytes.now c → LendsCrl crl.now.bytes.now of
        → MatchOption looked (All (IsUsable is_indirect) (entries_of of) → ⊥)
        (λ found. All (IsUsable is_indirect) (entries_of of) × FindsEntry c of (option_map lent_entry found))) }
{
    let serial_number = certificate.serial_number();
    let mut is_issuer = encoded_match(alloc, crl.issuer(), certificate.issuer())?;
    if crl.has_plain_entries() {
        if !is_issuer {
            return Ok(Some(None));
        }
        return Ok(Some(crl.find(serial_number)));
    }
    let mut entries = crl.entries();
    let mut found: Option<RevokedCertRef<'a>> = None;
    while let Some(entry) = entries.next_undated() {
        let here = issuer_of_entry(alloc, certificate, is_indirect, is_issuer, &entry)?;
        let Some(is_here) = here else {
            return Ok(None);
        };
        is_issuer = is_here;
        if found.is_none() && is_of(is_here, &entry, serial_number) {
            found = Some(entry.dated());
        }
    }
    Ok(Some(found))
}

/// What was found in a CRL.
#[derive(Clone, Copy)]
pub(crate) struct Found<'a> {
    /// The place of the CRL, from 0.
    pub(crate) place: usize,

    /// The entry of the certificate.
    pub(crate) entry: Option<RevokedCertRef<'a>>,
}

/// The reason that the entry gives; `Unspecified` where it gives none that can be decoded.
fn reason_of(alloc: Global, entry: &RevokedCertRef<'_>) -> CrlReason
    ensures { HasReason (lent_entry entry.now) result }
{
    match extensions_of(entry).get_extension::<CrlReason>(alloc) {
        Ok(Some((_, reason))) => reason,
        Ok(None) | Err(_) => CrlReason::Unspecified,
    }
}

/// (k): by which CRL, since when and why a certificate is revoked, by what (i) and (j) found of it; `None` where it isn't revoked:
/// it has no entry, or its reason is removeFromCRL.
pub(crate) fn step_k(alloc: Global, found: &Found<'_>) -> Option<Revocation>
    ensures { Tells (placed_entry found.now) result }
{
    let Some(entry) = &found.entry else {
        return None;
    };
    let reason = reason_of(alloc, entry);
    if reason == CrlReason::RemoveFromCRL {
        return None;
    }
    Some(Revocation {
        crl: found.place,
        date: entry.revocation_date,
        reason,
    })
}
