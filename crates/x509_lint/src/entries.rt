//! What is asked of the entries of a CRL, each of which is looked at once.

ghost use Rattle.std.specs.List.{All, list_all, list_any};
ghost use Rattle.std.specs.Prelude.{◌≡◌, ◌↔◌, [], ◌∷◌, IfErr, IfOk, IsOk, IsTrue, List, Ok, bytes_eq};
ghost use Rattle.x509_base.specs.declared.profile.Raw.{Raw};
ghost use Rattle.x509_cert.specs.declared.crl.revoked_cert.RevokedCert as revoked;
ghost use Rattle.x509_crl_index.specs.Split.{read_entries};
ghost use Rattle.x509_der.specs.declared.error.ErrorKind.TheVariants.{Memory};
ghost use Rattle.x509_lint.specs.CrlEntry.{entry_passes, is_date, is_reason, reason_octets};
ghost use Rattle.x509_lint.specs.Text.{is_digit};
ghost use Rattle.x509_lint.specs.Values.{AreEntryFacts, IsDistinct};
ghost use Rattle.x509_lint.specs.declared.entries.EntryTest.TheVariants.{Faulty};

use crate::dates::names_moment;
use crate::extensions::{is_critical, is_empty_sequence, is_of, is_uncritical};
use crate::lists::{Test, all_of, any_of};
use crate::repeats;
use crate::texts::is_digit;
use crate::times::is_early_general;
use std::alloc::Global;
use x509_base::Raw;
use x509_cert::crl::RevokedCert;
use x509_crl_index::are_serials_distinct;
use x509_der::{AssociatedOid, Error, ErrorKind, ObjectIdentifier, oid, read_field};
use x509_ext::pkix::{CertificateIssuer, CrlReason};
use x509_ext::{Extension, has_repeated_extension, members};

/// What may be wrong with an extension of an entry (RFC 5280 5.3).
#[derive(Clone, Copy)]
pub(crate) enum EntryFault {
    /// It is a reasonCode, and critical.
    ReasonCritical,

    /// It is a reasonCode, and unspecified.
    ReasonUnspecified,

    /// It is a reasonCode, and removeFromCRL.
    ReasonRemoveFromCrl,

    /// It is a reasonCode, and none of the reasons.
    ReasonInvalid,

    /// It is an invalidityDate, and critical.
    InvalidityDateCritical,

    /// It is an invalidityDate, and doesn't name a moment as YYYYMMDDHHMMSSZ.
    InvalidityDateInvalid,

    /// It is a certificateIssuer, and not critical.
    IssuerNotCritical,

    /// It is a certificateIssuer.
    Issuer,
}

/// The invalidity date of an entry, 2.5.29.24 (RFC 5280 5.3.2).
#[derive(Clone, Copy)]
struct InvalidityDate;

impl AssociatedOid for InvalidityDate {
    ghost use Rattle.x509_ext.specs.Identifiers.{id_ce};

    ghost OID = { id_ce 24 };

    const OID: ObjectIdentifier = oid!(0x55, 0x1D, 24);
}

/// The numbers of the reasons.
const REASONS: [u8; 10] = [0, 1, 2, 3, 4, 5, 6, 8, 9, 10];

/// Whether the octets are the DER of the reason with the number.
fn is_number(octets: &[u8], number: u8) -> bool
    ensures { result ≡ bytes_eq octets.now (reason_octets number) }
{
    octets == [0x0A, 0x01, number].as_slice()
}

/// That the octets are the DER of the reason with a number.
#[derive(Clone, Copy)]
struct NumberIn<'a>(&'a [u8]);

impl Test<u8> for NumberIn<'_> {
    ghost use Rattle.std.specs.Prelude.{bytes_eq};
    ghost use Rattle.x509_lint.specs.CrlEntry.{reason_octets};

    ghost holds_of = { λ test number. bytes_eq test.0.now (reason_octets number) };

    fn holds_of(&self, number: &u8) -> bool {
        is_number(self.0, *number)
    }
}

fn is_reason(octets: &[u8]) -> bool
    ensures { result ≡ is_reason octets.now }
{
    any_of(&NumberIn(octets), &REASONS)
}

/// That an octet is a digit.
struct Digit;

impl Test<u8> for Digit {
    ghost use Rattle.x509_lint.specs.Text.{is_digit};

    ghost holds_of = { λ test. is_digit };

    fn holds_of(&self, octet: &u8) -> bool {
        is_digit(*octet)
    }
}

fn begins_date(octets: &[u8]) -> bool
    ensures { result ≡ bytes_eq octets.now (0x18 ∷ 15 ∷ []) }
{
    octets == [0x18, 15].as_slice()
}

fn ends_date(octets: &[u8]) -> bool
    ensures { result ≡ bytes_eq octets.now (90 ∷ []) }
{
    octets == b"Z".as_slice()
}

/// Whether the octets are the DER of a GeneralizedTime YYYYMMDDHHMMSSZ that names a moment.
fn is_date(octets: &[u8]) -> bool
    ensures { result ≡ is_date octets.now }
{
    if octets.len() != 17 {
        return false;
    }
    begins_date(&octets[..2])
        && (all_of(&Digit, &octets[2..16])
            && (ends_date(&octets[16..]) && names_moment(&octets[2..])))
}

impl Test<Extension> for EntryFault {
    ghost use Rattle.x509_lint.specs.CrlEntry.{is_faulty};

    ghost holds_of = { is_faulty };

    fn holds_of(&self, extension: &Extension) -> bool {
        match self {
            EntryFault::ReasonCritical => is_critical::<CrlReason>(extension),
            EntryFault::ReasonUnspecified => {
                is_of::<CrlReason>(extension) && is_number(extension.extn_value.as_bytes(), 0)
            }
            EntryFault::ReasonRemoveFromCrl => {
                is_of::<CrlReason>(extension) && is_number(extension.extn_value.as_bytes(), 8)
            }
            EntryFault::ReasonInvalid => {
                is_of::<CrlReason>(extension) && !is_reason(extension.extn_value.as_bytes())
            }
            EntryFault::InvalidityDateCritical => is_critical::<InvalidityDate>(extension),
            EntryFault::InvalidityDateInvalid => {
                is_of::<InvalidityDate>(extension) && !is_date(extension.extn_value.as_bytes())
            }
            EntryFault::IssuerNotCritical => is_uncritical::<CertificateIssuer>(extension),
            EntryFault::Issuer => is_of::<CertificateIssuer>(extension),
        }
    }
}

/// What is asked of an entry.
#[derive(Clone, Copy)]
pub(crate) enum EntryTest {
    /// That it is there.
    There,

    /// That it has a list of extensions.
    Extended,

    /// That it has a list of extensions with none.
    WithoutExtensions,

    /// That its date is one through 2049, and a GeneralizedTime.
    EarlyGeneral,

    /// That an extension of it has the fault.
    Faulty(EntryFault),
}

impl Test<RevokedCert<Raw>> for EntryTest {
    ghost use Rattle.x509_lint.specs.CrlEntry.{entry_passes};

    ghost holds_of = { entry_passes };

    fn holds_of(&self, entry: &RevokedCert<Raw>) -> bool {
        match self {
            EntryTest::There => true,
            EntryTest::Extended => entry.crl_entry_extensions.is_some(),
            EntryTest::WithoutExtensions => is_empty_sequence(&entry.crl_entry_extensions),
            EntryTest::EarlyGeneral => is_early_general(entry.revocation_date),
            EntryTest::Faulty(fault) => {
                any_of(fault, members(entry.crl_entry_extensions.as_ref()))
            }
        }
    }
}

/// Which tests an entry passes.
#[derive(Clone, Copy)]
pub(crate) struct EntryFindings {
    pub(crate) is_there: bool,
    pub(crate) is_extended: bool,
    pub(crate) is_without_extensions: bool,
    pub(crate) is_early_general: bool,
    pub(crate) is_reason_critical: bool,
    pub(crate) is_reason_unspecified: bool,
    pub(crate) is_reason_remove_from_crl: bool,
    pub(crate) is_reason_invalid: bool,
    pub(crate) is_invalidity_date_critical: bool,
    pub(crate) is_invalidity_date_invalid: bool,
    pub(crate) is_issuer_not_critical: bool,
    pub(crate) is_issuer: bool,
}

impl EntryFindings {
    ghost use Rattle.std.specs.Prelude.{◌≡◌, ◌||◌, false};
    ghost use Rattle.x509_lint.specs.CrlEntry.{entry_passes, is_noted};
    ghost use Rattle.x509_lint.specs.declared.entries.EntryTest as tests;

    /// Those of no entry.
    fn none() -> EntryFindings
        ensures { (test : tests.EntryTest) → is_noted result test ≡ false }
    {
        EntryFindings {
            is_there: false,
            is_extended: false,
            is_without_extensions: false,
            is_early_general: false,
            is_reason_critical: false,
            is_reason_unspecified: false,
            is_reason_remove_from_crl: false,
            is_reason_invalid: false,
            is_invalidity_date_critical: false,
            is_invalidity_date_invalid: false,
            is_issuer_not_critical: false,
            is_issuer: false,
        }
    }

    /// Those of an entry more.
    fn with(self, entry: &RevokedCert<Raw>) -> EntryFindings
        ensures { (test : tests.EntryTest) → is_noted result test ≡ (is_noted self test || entry_passes test entry.now) }
    {
        let is_extended = EntryTest::Extended.holds_of(entry);
        let is_without_extensions = EntryTest::WithoutExtensions.holds_of(entry);
        let is_early_general = EntryTest::EarlyGeneral.holds_of(entry);
        let is_reason_critical = has_fault(entry, EntryFault::ReasonCritical);
        let is_reason_unspecified = has_fault(entry, EntryFault::ReasonUnspecified);
        let is_reason_remove_from_crl = has_fault(entry, EntryFault::ReasonRemoveFromCrl);
        let is_reason_invalid = has_fault(entry, EntryFault::ReasonInvalid);
        let is_invalidity_date_critical = has_fault(entry, EntryFault::InvalidityDateCritical);
        let is_invalidity_date_invalid = has_fault(entry, EntryFault::InvalidityDateInvalid);
        let is_issuer_not_critical = has_fault(entry, EntryFault::IssuerNotCritical);
        let is_issuer = has_fault(entry, EntryFault::Issuer);
        EntryFindings {
            is_there: true,
            is_extended: self.is_extended | is_extended,
            is_without_extensions: self.is_without_extensions | is_without_extensions,
            is_early_general: self.is_early_general | is_early_general,
            is_reason_critical: self.is_reason_critical | is_reason_critical,
            is_reason_unspecified: self.is_reason_unspecified | is_reason_unspecified,
            is_reason_remove_from_crl: self.is_reason_remove_from_crl | is_reason_remove_from_crl,
            is_reason_invalid: self.is_reason_invalid | is_reason_invalid,
            is_invalidity_date_critical: self.is_invalidity_date_critical
                | is_invalidity_date_critical,
            is_invalidity_date_invalid: self.is_invalidity_date_invalid
                | is_invalidity_date_invalid,
            is_issuer_not_critical: self.is_issuer_not_critical | is_issuer_not_critical,
            is_issuer: self.is_issuer | is_issuer,
        }
    }

    /// Whether an entry passes the test.
    pub(crate) fn is_noted(&self, test: EntryTest) -> bool
        ensures { result ≡ is_noted self.now test }
    {
        match test {
            EntryTest::There => self.is_there,
            EntryTest::Extended => self.is_extended,
            EntryTest::WithoutExtensions => self.is_without_extensions,
            EntryTest::EarlyGeneral => self.is_early_general,
            EntryTest::Faulty(EntryFault::ReasonCritical) => self.is_reason_critical,
            EntryTest::Faulty(EntryFault::ReasonUnspecified) => self.is_reason_unspecified,
            EntryTest::Faulty(EntryFault::ReasonRemoveFromCrl) => self.is_reason_remove_from_crl,
            EntryTest::Faulty(EntryFault::ReasonInvalid) => self.is_reason_invalid,
            EntryTest::Faulty(EntryFault::InvalidityDateCritical) => {
                self.is_invalidity_date_critical
            }
            EntryTest::Faulty(EntryFault::InvalidityDateInvalid) => self.is_invalidity_date_invalid,
            EntryTest::Faulty(EntryFault::IssuerNotCritical) => self.is_issuer_not_critical,
            EntryTest::Faulty(EntryFault::Issuer) => self.is_issuer,
        }
    }
}

/// Whether an extension of the entry has the fault.
fn has_fault(entry: &RevokedCert<Raw>, fault: EntryFault) -> bool
    ensures { result ≡ entry_passes (Faulty fault) entry.now }
{
    EntryTest::Faulty(fault).holds_of(entry)
}

/// What is asked of the entries of a CRL once.
#[derive(Clone, Copy)]
pub(crate) struct EntryFacts {
    /// Which tests one of them passes.
    pub(crate) found: EntryFindings,

    /// No two extensions of one entry have one OID.
    pub(crate) are_distinct: bool,

    /// No two entries have one serial number.
    pub(crate) are_serials_distinct: bool,
}

#[tactic(auto, unfolding(crate::specs::Values::IsDistinct))]
fn is_distinct(alloc: Global, entry: &RevokedCert<Raw>) -> Result<bool, Error>
    ensures ok { IfOk result (λ b. IsTrue b ↔ IsDistinct entry.now) }
    ensures err { IfErr result (λ e. e.kind ≡ Memory) }
{
    let extensions = members(entry.crl_entry_extensions.as_ref());
    Ok(!has_repeated_extension(alloc, extensions)?)
}

/// Whether no two extensions of an entry more have one OID.
fn stay_distinct(alloc: Global, are_distinct: bool, entry: &RevokedCert<Raw>) -> Result<bool, Error>
    ensures ok { IfOk result (λ b. IsTrue b ↔ (IsTrue are_distinct × IsDistinct entry.now)) }
    ensures err { IfErr result (λ e. e.kind ≡ Memory) }
{
    if !are_distinct {
        return Ok(false);
    }
    is_distinct(alloc, entry)
}

/// The facts of the entries.
pub(crate) fn facts_of_entries(
    alloc: Global,
    entries: &[RevokedCert<Raw>],
) -> Result<EntryFacts, Error>
    ensures ok { IfOk result (AreEntryFacts entries.now) }
    ensures err { IfErr result (λ e. e.kind ≡ Memory) }
{
    let mut found = EntryFindings::none();
    let mut are_distinct = true;
    for entry in entries {
        found = found.with(entry);
        are_distinct = stay_distinct(alloc, are_distinct, entry)?;
    }
    Ok(EntryFacts {
        found,
        are_distinct,
        are_serials_distinct: repeats::are_serials_distinct(alloc, entries)?,
    })
}

/// The facts of the entries of which the octets are the elements, one after the other. One entry is decoded at a time, so that a long list of
/// them isn't in memory; a slice an entry is taken to put the serial numbers in order.
pub(crate) fn facts_of_elements(alloc: Global, octets: &[u8]) -> Result<EntryFacts, Error>
    requires { IsOk (read_entries octets.now) }
    ensures ok { IfOk result (λ facts. (entries : List (revoked.RevokedCert Raw)) → read_entries octets.now ≡ Ok entries → AreEntryFacts entries facts) }
    ensures err { IfErr result (λ e. e.kind ≡ Memory) }
{
    let mut found = EntryFindings::none();
    let mut are_distinct = true;
    let mut rest = octets;
    while !rest.is_empty() {
        match read_field::<RevokedCert<Raw>>(alloc, &mut rest) {
            Ok(entry) => {
                found = found.with(&entry);
                are_distinct = stay_distinct(alloc, are_distinct, &entry)?;
            }
            // The entries were read before, so there is no memory.
            Err(_) => return Err(ErrorKind::Memory.into()),
        }
    }
    Ok(EntryFacts {
        found,
        are_distinct,
        are_serials_distinct: are_serials_distinct(alloc, octets)?,
    })
}
