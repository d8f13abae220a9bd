//! Rules on certificates of authorities that are constrained by their EKU or by name constraints (TLS BR 7.1.2.3, 7.1.2.5).

ghost use Rattle.std.specs.Prelude.{◌≡◌};
ghost use Rattle.x509_lint_web.specs.Constrained as grammar;
ghost use Rattle.x509_lint_web.specs.Seen as seen;
ghost use Rattle.x509_lint_web.specs.Sentence.{IsTold};

use crate::constraints::{is_apart, lacks_addresses, lacks_directory_names};
use crate::entry::{WebEntry, entries};
use crate::scope::{OCSP_SIGNING, has_purpose, is_subordinate};
use crate::seen::Part;
use crate::usages::ANY_EXTENDED_KEY_USAGE;
use crate::values::WebValues;
use x509_base::Raw;
use x509_cert::certificate::CertificateInner;
use x509_der::AssociatedOid;
use x509_ext::pkix::{ExtendedKeyUsage, NameConstraints};
use x509_lint::passes;

/// Rules on certificates of authorities that are constrained by their EKU or by name constraints (TLS BR 7.1.2.3, 7.1.2.5).
#[derive(Clone, Copy, PartialEq, Eq)]
pub enum WebConstrainedRule {
    /// The EKU of an authority has neither serverAuth nor the signing of precertificates, and has anyExtendedKeyUsage or
    /// OCSPSigning (TLS BR 7.1.2.3.2, error, from 2023-09-15).
    ConstrainedPurposeForbidden,

    /// Name constraints of a subordinate authority permit a dNSName, and neither permit an iPAddress nor exclude all
    /// addresses of both versions (TLS BR 7.1.2.5.2, warning, from 2023-09-15).
    ConstrainedWithoutAddresses,

    /// Name constraints of a subordinate authority permit a dNSName, and no directoryName (TLS BR 7.1.2.5.2, warning, from
    /// 2023-09-15).
    ConstrainedWithoutDirectoryNames,
}

/// How the rules are told, in the order of their variants.
static ENTRIES: [WebEntry; 3] = entries! {
    ConstrainedPurposeForbidden => must("constrained_purpose_forbidden", "7.1.2.3.2", from_day(2023, 9, 15), "tbsCertificate.extensions.extKeyUsage"),
    ConstrainedWithoutAddresses =>
        should("constrained_without_addresses", "7.1.2.5.2", from_day(2023, 9, 15), "tbsCertificate.extensions.nameConstraints"),
    ConstrainedWithoutDirectoryNames =>
        should("constrained_without_directory_names", "7.1.2.5.2", from_day(2023, 9, 15), "tbsCertificate.extensions.nameConstraints"),
};

impl WebConstrainedRule {
    /// How the rule is told, and since when it is in force.
    pub fn entry(self) -> WebEntry
        ensures { IsTold result (grammar.constrained_sentence self) }
    {
        ENTRIES[self as usize]
    }

    /// Of which part of a certificate the rule speaks.
    pub(crate) fn part(self) -> Part
        ensures { result ≡ seen.constrained_part self }
    {
        match self {
            WebConstrainedRule::ConstrainedPurposeForbidden => Part::Extension(
                ExtendedKeyUsage::OID,
            ),
            _ => Part::Extension(NameConstraints::OID),
        }
    }

    /// Whether the certificate, of which these are the values, breaks the rule.
    pub(crate) fn is_broken(self, certificate: &CertificateInner<Raw>, values: &WebValues) -> bool
        ensures { result ≡ (grammar.constrained_sentence self).breaks certificate.now values.now }
    {
        let usage = &values.extended_key_usage;
        let constraints = &values.name_constraints;
        match self {
            WebConstrainedRule::ConstrainedPurposeForbidden => is_apart(values)
                && (has_purpose(ANY_EXTENDED_KEY_USAGE, usage) || has_purpose(OCSP_SIGNING, usage)),
            WebConstrainedRule::ConstrainedWithoutAddresses => is_subordinate(certificate, values)
                && passes!(constraints, constraints => lacks_addresses(constraints)),
            WebConstrainedRule::ConstrainedWithoutDirectoryNames => is_subordinate(
                certificate,
                values,
            ) && passes!(constraints, constraints => lacks_directory_names(constraints)),
        }
    }
}
