//! Looking up a serial number in a CRL.

ghost use Rattle.std.specs.Prelude.{◌≡◌, true, List, ℕ};
ghost use Rattle.x509_base.specs.declared.profile.Rfc5280 as rules;
ghost use Rattle.x509_c_calls.specs.Revoked.{LooksUp, Revokes, Tells, reason_number};
ghost use Rattle.x509_c_calls.specs.declared.status.status.Status.TheVariants.{Refused};
ghost use Rattle.x509_cert.specs.declared.crl.revoked_cert.RevokedCert as revoked;
ghost use Rattle.x509_check.specs.CrlRefs.{FindsEntry, lent_entry};
ghost use Rattle.x509_der.specs.Element.{element, is_identifier};
ghost use Rattle.x509_der.specs.declared.error.ErrorKind.TheVariants.{Memory};
ghost use Rattle.x509_ext.specs.LookUp.{Finds, members, with_oid};

use crate::Status;
use std::alloc::Global;
use x509_base::{Rfc5280, SerialNumber};
use x509_cert::crl::CertificateList;
use x509_check::{Check, RevokedCertRef, find_revoked};
use x509_der::{AssociatedOid, Decode, Error, Grammar, split_element};
use x509_ext::pkix::CrlReason;

/// When a certificate was revoked, and why.
#[derive(Clone, Copy)]
#[repr(C)]
pub struct Revocation {
    /// When it was revoked, in seconds since 1970-01-01T00:00:00Z.
    pub date: u64,

    /// The number of the reason (RFC 5280 5.3.1); -1 where the entry gives none.
    pub reason: i32,
}

/// The number of a reason, -1 for none.
fn number_of(reason: Option<(bool, CrlReason)>) -> i32
    ensures { result ≡ reason_number reason }
{
    match reason {
        None => -1,
        Some((_, reason)) => reason as i32,
    }
}

/// What an entry says.
fn revocation_of(alloc: Global, entry: &RevokedCertRef<'_>) -> Result<Revocation, Error>
    ensures { Revokes (λ e found. Finds ⟦<CrlReason as Grammar>⟧.form ⟦<CrlReason as Grammar>⟧.refuses ⟦<CrlReason as Decode>⟧.wants_memory
        (with_oid ⟦<CrlReason as AssociatedOid>⟧.OID (members e.crl_entry_extensions)) found) (lent_entry {P = rules.Rfc5280} entry.now) result }
{
    let reason = match entry.crl_entry_extensions {
        Some(extensions) => extensions.get_extension::<CrlReason>(alloc)?,
        None => None,
    };
    Ok(Revocation {
        date: entry.revocation_date.to_unix_duration().as_secs(),
        reason: number_of(reason),
    })
}

/// The content octets of the element that the bytes are.
pub(crate) fn content_of(bytes: &[u8]) -> &[u8]
    ensures { (tag : ℕ) (content : List ℕ) → is_identifier tag ≡ true → bytes.now ≡ element tag content → result.now ≡ content }
{
    match split_element(bytes) {
        Ok(piece) => piece.content,
        Err(_) => &[],
    }
}

/// Fills in what the entry says that was found among others by its number.
#[tactic(auto, unfolding(crate::specs::Revoked::Tells))]
fn tell(alloc: Global, found: &Option<RevokedCertRef<'_>>, revocation: &mut Revocation) -> Status
    ensures tells { (list : List (revoked.RevokedCert rules.Rfc5280)) (number : List ℕ) → FindsEntry number list found.now
        → Tells (λ e answer. Finds ⟦<CrlReason as Grammar>⟧.form ⟦<CrlReason as Grammar>⟧.refuses ⟦<CrlReason as Decode>⟧.wants_memory
        (with_oid ⟦<CrlReason as AssociatedOid>⟧.OID (members e.crl_entry_extensions)) answer) list number revocation.old revocation.new result }
    ensures memory { result ≡ Refused Memory → ⊥ }
{
    let Some(entry) = found else {
        return Status::Absent;
    };
    match revocation_of(alloc, entry) {
        Ok(told) => {
            *revocation = told;
            Status::Done
        }
        Err(e) => e.into(),
    }
}

/// Checks a CRL and a serial number, both under the rules of RFC 5280, and fills in what the first entry with the
/// number says. It takes no memory.
///
/// # Errors
///
/// [`Status::Absent`] where no entry has the number. The error of checking the CRL, as [`crl_walk`](crate::crl_walk);
/// else that of checking the serial number; else that of the entry's reason code: `Malformed`, or `Failed` where that
/// extension is repeated. `revocation` is unchanged then.
#[tactic(auto, unfolding(crate::specs::Revoked::LooksUp))]
pub fn crl_lookup(
    alloc: Global,
    input: &[u8],
    serial_number: &[u8],
    revocation: &mut Revocation,
) -> Status
    ensures looks_up { LooksUp ⟦<CertificateList<Rfc5280> as Grammar>⟧.form ⟦<CertificateList<Rfc5280> as Grammar>⟧.refuses
        ⟦<SerialNumber<Rfc5280> as Grammar>⟧.form ⟦<SerialNumber<Rfc5280> as Grammar>⟧.refuses (λ e found. Finds ⟦<CrlReason as Grammar>⟧.form
        ⟦<CrlReason as Grammar>⟧.refuses ⟦<CrlReason as Decode>⟧.wants_memory (with_oid ⟦<CrlReason as AssociatedOid>⟧.OID (members e.crl_entry_extensions))
        found) input.now serial_number.now revocation.old revocation.new result }
    ensures memory { result ≡ Refused Memory → ⊥ }
{
    let found = match find_revoked::<Rfc5280>(input, content_of(serial_number)) {
        Ok(found) => found,
        Err(e) => return e.into(),
    };
    match SerialNumber::<Rfc5280>::check(serial_number) {
        Ok(()) => tell(alloc, &found, revocation),
        Err(e) => e.into(),
    }
}
