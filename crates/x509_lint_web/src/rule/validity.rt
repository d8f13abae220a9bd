//! Rules on the validity of certificates of TLS servers (TLS BR 6.3.2).

ghost use Rattle.std.specs.Prelude.{◌≡◌};
ghost use Rattle.x509_lint_web.specs.Validity as grammar;
ghost use Rattle.x509_lint_web.specs.Sentence.{IsTold};

use crate::entry::{WebEntry, entries};
use crate::times::is_longer;
use crate::values::WebValues;
use x509_base::Raw;
use x509_cert::certificate::CertificateInner;

/// Rules on the validity of certificates of TLS servers (TLS BR 6.3.2).
#[derive(Clone, Copy, PartialEq, Eq)]
pub enum WebValidityRule {
    /// The validity is longer than 825 days (TLS BR 6.3.2, error, from 2018-03-02).
    ValidityOver825Days,

    /// The validity is longer than 398 days (TLS BR 6.3.2, error, from 2020-09-01).
    ValidityOver398Days,

    /// The validity is longer than 397 days (TLS BR 6.3.2, warning, from 2020-09-01).
    ValidityOver397Days,

    /// The validity is longer than 200 days (TLS BR 6.3.2, error, from 2026-03-15).
    ValidityOver200Days,

    /// The validity is longer than 100 days (TLS BR 6.3.2, error, from 2027-03-15).
    ValidityOver100Days,

    /// The validity is longer than 47 days (TLS BR 6.3.2, error, from 2029-03-15).
    ValidityOver47Days,

    /// The validity is longer than 199 days (TLS BR 6.3.2, warning, from 2026-03-15).
    ValidityOver199Days,

    /// The validity is longer than 99 days (TLS BR 6.3.2, warning, from 2027-03-15).
    ValidityOver99Days,

    /// The validity is longer than 46 days (TLS BR 6.3.2, warning, from 2029-03-15).
    ValidityOver46Days,
}

/// How the rules are told, in the order of their variants.
static ENTRIES: [WebEntry; 9] = entries! {
    ValidityOver825Days => must("validity_over_825_days", "6.3.2", from_day(2018, 3, 2), "tbsCertificate.validity"),
    ValidityOver398Days => must("validity_over_398_days", "6.3.2", from_day(2020, 9, 1), "tbsCertificate.validity"),
    ValidityOver397Days => should("validity_over_397_days", "6.3.2", from_day(2020, 9, 1), "tbsCertificate.validity"),
    ValidityOver200Days => must("validity_over_200_days", "6.3.2", from_day(2026, 3, 15), "tbsCertificate.validity"),
    ValidityOver100Days => must("validity_over_100_days", "6.3.2", from_day(2027, 3, 15), "tbsCertificate.validity"),
    ValidityOver47Days => must("validity_over_47_days", "6.3.2", from_day(2029, 3, 15), "tbsCertificate.validity"),
    ValidityOver199Days => should("validity_over_199_days", "6.3.2", from_day(2026, 3, 15), "tbsCertificate.validity"),
    ValidityOver99Days => should("validity_over_99_days", "6.3.2", from_day(2027, 3, 15), "tbsCertificate.validity"),
    ValidityOver46Days => should("validity_over_46_days", "6.3.2", from_day(2029, 3, 15), "tbsCertificate.validity"),
};

/// Than how many days the validity is longer, in the order of the variants.
static DAYS: [u16; 9] = [825, 398, 397, 200, 100, 47, 199, 99, 46];

impl WebValidityRule {
    /// How the rule is told, and since when it is in force.
    pub fn entry(self) -> WebEntry
        ensures { IsTold result (grammar.validity_sentence self) }
    {
        ENTRIES[self as usize]
    }

    /// Whether the certificate, of which these are the values, breaks the rule.
    pub(crate) fn is_broken(self, certificate: &CertificateInner<Raw>, _values: &WebValues) -> bool
        ensures { result ≡ (grammar.validity_sentence self).breaks certificate.now _values.now }
    {
        is_longer(DAYS[self as usize], certificate)
    }
}
