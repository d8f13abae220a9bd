//! What a CRL says.

ghost use Rattle.std.specs.Prelude.{◌≡◌, [], length};
ghost use Rattle.x509_base.specs.CivilTime.{unix_seconds};
ghost use Rattle.x509_c_calls.specs.CrlEntries.{IsEntry};
ghost use Rattle.x509_c_calls.specs.CrlIndexes.{Indexes, LooksUpByIndex};
ghost use Rattle.x509_c_calls.specs.FoundEntry.{LooksUpEntry};
ghost use Rattle.x509_c_calls.specs.Issued.{StepsIssued};
ghost use Rattle.x509_c_calls.specs.Revoked.{LooksUp};
ghost use Rattle.x509_c_calls.specs.CrlView.{IsCrl};
ghost use Rattle.x509_c_calls.specs.Cursor.{Steps};
ghost use Rattle.x509_c_calls.specs.Calls.{Reads};
ghost use Rattle.x509_c_calls.specs.Status.{Tells};
ghost use Rattle.x509_c_calls.specs.declared.status.status.Status.TheVariants.{Refused};
ghost use Rattle.x509_cert.specs.Revoked.{entries};
ghost use Rattle.x509_der.specs.declared.error.ErrorKind.TheVariants.{Memory};
ghost use Rattle.x509_ext.specs.LookUp.{Finds, members, with_oid};

use std::alloc::Global;
use x509_base::{GeneralizedTime, Rfc5280, SerialNumber};
use x509_c_calls::{
    CrlEntryView, CrlView, Revocation, Span, crl_entry_find, crl_index, crl_index_find,
    crl_issued_next, crl_lookup, crl_view, crl_walk, generalized_time, member_next,
};
use x509_cert::crl::{CertificateList, RevokedCert};
use x509_der::{AssociatedOid, Decode, Grammar, Tag};
use x509_ext::pkix::CrlReason;

/// Checks a CRL under the rules of RFC 5280, and says how many entries it has. It takes no memory.
#[unsafe(no_mangle)]
pub extern "C" fn x509_crl_walk(input: &[u8], count: &mut usize) -> i32
    ensures { Tells (λ status. Reads ⟦<CertificateList<Rfc5280> as Grammar>⟧.form ⟦<CertificateList<Rfc5280> as Grammar>⟧.refuses input.now
        (λ list. count.new ≡ length (entries list.tbs_cert_list.revoked_certificates)) (count.new ≡ count.old) status × (status ≡ Refused Memory → ⊥)) result }
{
    crl_walk(input, count).code()
}

/// Checks a CRL and a serial number, and fills in what the first entry with the number says. It takes no memory.
#[unsafe(no_mangle)]
pub extern "C" fn x509_crl_lookup(
    alloc: Global,
    input: &[u8],
    serial_number: &[u8],
    revocation: &mut Revocation,
) -> i32
    ensures { Tells (λ status. LooksUp ⟦<CertificateList<Rfc5280> as Grammar>⟧.form ⟦<CertificateList<Rfc5280> as Grammar>⟧.refuses
        ⟦<SerialNumber<Rfc5280> as Grammar>⟧.form ⟦<SerialNumber<Rfc5280> as Grammar>⟧.refuses
        (λ e found. Finds ⟦<CrlReason as Grammar>⟧.form ⟦<CrlReason as Grammar>⟧.refuses ⟦<CrlReason as Decode>⟧.wants_memory
        (with_oid ⟦<CrlReason as AssociatedOid>⟧.OID (members e.crl_entry_extensions)) found) input.now serial_number.now revocation.old revocation.new
        status × (status ≡ Refused Memory → ⊥)) result }
{
    crl_lookup(alloc, input, serial_number, revocation).code()
}

/// Checks a CRL under the rules of RFC 5280, and fills in what it says and where its parts stand. It takes no memory.
#[unsafe(no_mangle)]
pub extern "C" fn x509_crl_view(input: &[u8], view: &mut CrlView) -> i32
    ensures { Tells (λ status. Reads ⟦<CertificateList<Rfc5280> as Grammar>⟧.form ⟦<CertificateList<Rfc5280> as Grammar>⟧.refuses input.now
        (λ list. IsCrl input.now list [] view.new) (view.new ≡ view.old) status × (status ≡ Refused Memory → ⊥)) result }
{
    crl_view(input, view).code()
}

/// Fills in the next entry of a list of entries.
#[unsafe(no_mangle)]
pub extern "C" fn x509_crl_entry_next(
    alloc: Global,
    input: &[u8],
    at: &mut usize,
    found: &mut CrlEntryView,
) -> i32
    ensures { Tells (λ status. Steps ⟦<RevokedCert<Rfc5280> as Grammar>⟧.form ⟦<RevokedCert<Rfc5280> as Grammar>⟧.refuses
        ⟦<RevokedCert<Rfc5280> as Decode>⟧.wants_memory 48 input.now at.old at.new
        (λ entry behind span. IsEntry input.now entry behind found.new) (found.new ≡ found.old) status) result }
{
    member_next::<CrlEntryView>(alloc, Tag::Sequence, input, at, found).code()
}

/// Fills in the next entry of a list of entries, and where the names of its issuer stand.
#[unsafe(no_mangle)]
pub extern "C" fn x509_crl_issued_next(
    alloc: Global,
    input: &[u8],
    at: &mut usize,
    issuer: &mut Span,
    found: &mut CrlEntryView,
) -> i32
    ensures { Tells (λ status. StepsIssued ⟦<RevokedCert<Rfc5280> as Grammar>⟧.form ⟦<RevokedCert<Rfc5280> as Grammar>⟧.refuses
        ⟦<RevokedCert<Rfc5280> as Decode>⟧.wants_memory input.now at.old at.new issuer.old issuer.new found.old found.new status) result }
{
    crl_issued_next(alloc, input, at, issuer, found).code()
}

/// Fills in the first entry of a list of entries with a serial number. The list isn't checked.
#[unsafe(no_mangle)]
pub extern "C" fn x509_crl_entry_find(
    alloc: Global,
    input: &[u8],
    serial_number: &[u8],
    found: &mut CrlEntryView,
) -> i32
    ensures { Tells (λ status. LooksUpEntry ⟦<SerialNumber<Rfc5280> as Grammar>⟧.form ⟦<SerialNumber<Rfc5280> as Grammar>⟧.refuses
        ⟦<RevokedCert<Rfc5280> as Grammar>⟧.refuses input.now serial_number.now found.old found.new status) result }
{
    crl_entry_find(alloc, input, serial_number, found).code()
}

/// Checks a list of entries under the rules of RFC 5280, and puts its index at the front of the buffer. It takes no memory.
#[unsafe(no_mangle)]
pub extern "C" fn x509_crl_index(input: &[u8], index: &mut [u32], written: &mut usize) -> i32
    ensures { Tells (λ status. Indexes ⟦<RevokedCert<Rfc5280> as Grammar>⟧.refuses input.now index.old index.new written.old written.new status
        × (status ≡ Refused Memory → ⊥)) result }
{
    crl_index(input, index, written).code()
}

/// Fills in the first entry of a list of entries with a serial number, by the index of the list. Neither is checked.
#[unsafe(no_mangle)]
pub extern "C" fn x509_crl_index_find(
    alloc: Global,
    input: &[u8],
    index: &[u32],
    serial_number: &[u8],
    found: &mut CrlEntryView,
) -> i32
    ensures { Tells (λ status. LooksUpByIndex ⟦<SerialNumber<Rfc5280> as Grammar>⟧.form ⟦<SerialNumber<Rfc5280> as Grammar>⟧.refuses
        ⟦<RevokedCert<Rfc5280> as Grammar>⟧.refuses input.now index.now serial_number.now found.old found.new status) result }
{
    crl_index_find(alloc, input, index, serial_number, found).code()
}

/// Reads an invalidity date, and fills in its seconds since 1970-01-01T00:00:00Z.
#[unsafe(no_mangle)]
pub extern "C" fn x509_invalidity_date(alloc: Global, input: &[u8], moment: &mut u64) -> i32
    ensures { Tells (λ status. Reads ⟦<GeneralizedTime as Grammar>⟧.form ⟦<GeneralizedTime as Grammar>⟧.refuses input.now
        (λ time. moment.new ≡ unix_seconds time) (moment.new ≡ moment.old) status × (status ≡ Refused Memory → ⊥)) result }
{
    generalized_time(alloc, input, moment).code()
}
