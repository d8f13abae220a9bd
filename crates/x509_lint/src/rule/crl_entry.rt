//! Rules on the extensions of a CRL's entries (RFC 5280 5.3).

ghost use Rattle.std.specs.Prelude.{◌≡◌};
ghost use Rattle.x509_lint.specs.CrlEntry as grammar;
ghost use Rattle.x509_lint.specs.Wording.{Says};
ghost use Rattle.x509_lint.specs.Words.{passes};

use crate::crl::CrlParts;
use crate::entries::{EntryFault, EntryTest};
use crate::entry::{Entry, rules};
use crate::extensions::has;
use crate::group::{Group, Told};
use crate::passes;
use crate::rule::Rule;
use x509_base::Raw;
use x509_cert::crl::CertificateList;
use x509_ext::pkix::{BaseCrlNumber, IssuingDistributionPoint};
use x509_ext::{Extension, members};

/// Rules on the extensions of a CRL's entries (RFC 5280 5.3).
#[derive(Clone, Copy, PartialEq, Eq)]
pub enum CrlEntryRule {
    /// The reasonCode of an entry is critical (RFC 5280 5.3.1, error).
    EntryReasonCritical,

    /// The reasonCode of an entry is unspecified (0) (RFC 5280 5.3.1, warning).
    EntryReasonUnspecified,

    /// The reasonCode of an entry is removeFromCRL (8), and there is no delta CRL indicator (RFC 5280 5.3.1, error).
    EntryReasonRemoveFromCrl,

    /// The octets of an entry's reasonCode aren't the DER of a CRLReason, as those of 7 are not (RFC 5280 5.3.1, error).
    EntryReasonInvalid,

    /// The invalidityDate of an entry is critical (RFC 5280 5.3.2, error).
    EntryInvalidityDateCritical,

    /// The octets of an entry's invalidityDate aren't those of a GeneralizedTime YYYYMMDDHHMMSSZ that names a moment of the calendar and the clock, without leap
    /// seconds (RFC 5280 5.3.2, error).
    EntryInvalidityDateInvalid,

    /// The certificateIssuer of an entry isn't critical (RFC 5280 5.3.3, error).
    EntryCertificateIssuerNotCritical,

    /// An entry has a certificateIssuer, and the CRL isn't indirect (RFC 5280 5.3.3, error).
    EntryCertificateIssuerNotIndirect,
}

/// The rules in their order, with how each is told.
pub(crate) static CRL_ENTRY_RULES: [Told<CrlEntryRule>; 8] = rules! { CrlEntryRule;
    EntryReasonCritical => must("entry_reason_critical", "5.3.1", "tbsCertList.revokedCertificates.crlEntryExtensions.reasonCode"),
    EntryReasonUnspecified => should("entry_reason_unspecified", "5.3.1", "tbsCertList.revokedCertificates.crlEntryExtensions.reasonCode"),
    EntryReasonRemoveFromCrl => must("entry_reason_remove_from_crl", "5.3.1", "tbsCertList.revokedCertificates.crlEntryExtensions.reasonCode"),
    EntryReasonInvalid => must("entry_reason_invalid", "5.3.1", "tbsCertList.revokedCertificates.crlEntryExtensions.reasonCode"),
    EntryInvalidityDateCritical => must("entry_invalidity_date_critical", "5.3.2", "tbsCertList.revokedCertificates.crlEntryExtensions.invalidityDate"),
    EntryInvalidityDateInvalid => must("entry_invalidity_date_invalid", "5.3.2", "tbsCertList.revokedCertificates.crlEntryExtensions.invalidityDate"),
    EntryCertificateIssuerNotCritical => must("entry_certificate_issuer_not_critical", "5.3.3", "tbsCertList.revokedCertificates.crlEntryExtensions.certificateIssuer"),
    EntryCertificateIssuerNotIndirect => must("entry_certificate_issuer_not_indirect", "5.3.3", "tbsCertList.revokedCertificates.crlEntryExtensions.certificateIssuer"),
};

impl CrlEntryRule {
    /// How bad it is to break the rule, its name, its section, and its place.
    pub fn entry(self) -> Entry
        ensures { Says result (grammar.crl_entry_sentence self).wording }
    {
        CRL_ENTRY_RULES[self as usize].entry
    }
}

/// Whether there is no issuing distribution point, or the one that there is is read and doesn't set indirectCRL.
fn is_direct(extensions: &[Extension], point: &Option<IssuingDistributionPoint>) -> bool
    ensures { result ≡ grammar.is_direct extensions.now point.now }
{
    !has::<IssuingDistributionPoint>(extensions) || passes!(point, point => !point.indirect_crl)
}

/// Whether an extension of an entry has the fault.
fn has_fault(parts: &CrlParts, fault: EntryFault) -> bool
    ensures { result ≡ grammar.has_fault parts.now fault }
{
    parts.facts.entries.found.is_noted(EntryTest::Faulty(fault))
}

impl Group<CertificateList<Raw>, CrlParts> for CrlEntryRule {
    ghost use Rattle.x509_lint.specs.CrlEntry.{crl_entry_sentence};
    ghost use Rattle.x509_lint.specs.declared.rule.Rule.TheVariants.{CrlEntry};

    ghost sentence = { crl_entry_sentence };

    ghost as_rule = { λ rule. CrlEntry rule };

    fn is_broken(&self, crl: &CertificateList<Raw>, parts: &CrlParts) -> bool {
        let extensions = members(crl.tbs_cert_list.crl_extensions.as_ref());
        match self {
            CrlEntryRule::EntryReasonCritical => has_fault(parts, EntryFault::ReasonCritical),
            CrlEntryRule::EntryReasonUnspecified => has_fault(parts, EntryFault::ReasonUnspecified),
            CrlEntryRule::EntryReasonRemoveFromCrl => {
                has_fault(parts, EntryFault::ReasonRemoveFromCrl)
                    && !has::<BaseCrlNumber>(extensions)
            }
            CrlEntryRule::EntryReasonInvalid => has_fault(parts, EntryFault::ReasonInvalid),
            CrlEntryRule::EntryInvalidityDateCritical => {
                has_fault(parts, EntryFault::InvalidityDateCritical)
            }
            CrlEntryRule::EntryInvalidityDateInvalid => {
                has_fault(parts, EntryFault::InvalidityDateInvalid)
            }
            CrlEntryRule::EntryCertificateIssuerNotCritical => {
                has_fault(parts, EntryFault::IssuerNotCritical)
            }
            CrlEntryRule::EntryCertificateIssuerNotIndirect => {
                has_fault(parts, EntryFault::Issuer)
                    && is_direct(extensions, &parts.values.issuing_distribution_point)
            }
        }
    }

    fn to_rule(&self) -> Rule {
        Rule::CrlEntry(*self)
    }
}
