//! Rules on certificates of OCSP responders (TLS BR 7.1.2.8, 7.1.2.11.2).

ghost use Rattle.std.specs.Prelude.{◌≡◌};
ghost use Rattle.x509_lint_web.specs.Responder as grammar;
ghost use Rattle.x509_lint_web.specs.Seen as seen;
ghost use Rattle.x509_lint_web.specs.Sentence.{IsTold};

use crate::entry::{WebEntry, entries};
use crate::responders::{OcspNoCheck, has_bit_not_of_responder};
use crate::scope::{OCSP_SIGNING, has_other_purpose};
use crate::seen::Part;
use crate::values::WebValues;
use x509_base::Raw;
use x509_cert::certificate::CertificateInner;
use x509_der::AssociatedOid;
use x509_ext::pkix::{
    AuthorityInfoAccessSyntax, BasicConstraints, CertificatePolicies, CrlDistributionPoints,
    ExtendedKeyUsage, KeyUsage, SubjectAltName,
};
use x509_lint::extensions::{extensions_of, has, has_critical, has_uncritical};
use x509_lint::passes;

/// Rules on certificates of OCSP responders (TLS BR 7.1.2.8, 7.1.2.11.2).
#[derive(Clone, Copy, PartialEq, Eq)]
pub enum WebResponderRule {
    /// There is no id-pkix-ocsp-nocheck (TLS BR 7.1.2.8.6, error, from 2012-07-01).
    OcspNoCheckAbsent,

    /// The id-pkix-ocsp-nocheck is critical (TLS BR 7.1.2.8.2, error, from 2023-09-15).
    OcspNoCheckCritical,

    /// The EKU has another purpose than OCSPSigning (TLS BR 7.1.2.8.5, error, from 2023-09-15).
    ResponderPurposeOther,

    /// There is no KeyUsage (TLS BR 7.1.2.8.2, error, from 2023-09-15).
    ResponderKeyUsageAbsent,

    /// The KeyUsage isn't critical (TLS BR 7.1.2.8.2, error, from 2023-09-15).
    ResponderKeyUsageNotCritical,

    /// The KeyUsage isn't that of digitalSignature alone (TLS BR 7.1.2.8.7, error, from 2023-09-15).
    ResponderKeyUsageOther,

    /// There are basic constraints that aren't critical (TLS BR 7.1.2.8.2, error, from 2023-09-15).
    ResponderConstraintsNotCritical,

    /// There is a SAN (TLS BR 7.1.2.8.2, error, from 2023-09-15).
    ResponderAltNamePresent,

    /// There is a CRLDistributionPoints (TLS BR 7.1.2.11.2, error, from 2024-03-15).
    ResponderCrlPointsPresent,

    /// There are certificate policies (TLS BR 7.1.2.8.2, warning, from 2023-09-15).
    ResponderPoliciesPresent,

    /// There is an authority information access (TLS BR 7.1.2.8.3, warning, from 2023-09-15).
    ResponderAccessPresent,
}

/// How the rules are told, in the order of their variants.
static ENTRIES: [WebEntry; 11] = entries! {
    OcspNoCheckAbsent => must("ocsp_no_check_absent", "7.1.2.8.6", from_day(2012, 7, 1), "tbsCertificate.extensions.ocspNoCheck"),
    OcspNoCheckCritical => must("ocsp_no_check_critical", "7.1.2.8.2", from_day(2023, 9, 15), "tbsCertificate.extensions.ocspNoCheck"),
    ResponderPurposeOther => must("responder_purpose_other", "7.1.2.8.5", from_day(2023, 9, 15), "tbsCertificate.extensions.extKeyUsage"),
    ResponderKeyUsageAbsent => must("responder_key_usage_absent", "7.1.2.8.2", from_day(2023, 9, 15), "tbsCertificate.extensions.keyUsage"),
    ResponderKeyUsageNotCritical => must("responder_key_usage_not_critical", "7.1.2.8.2", from_day(2023, 9, 15), "tbsCertificate.extensions.keyUsage"),
    ResponderKeyUsageOther => must("responder_key_usage_other", "7.1.2.8.7", from_day(2023, 9, 15), "tbsCertificate.extensions.keyUsage"),
    ResponderConstraintsNotCritical =>
        must("responder_constraints_not_critical", "7.1.2.8.2", from_day(2023, 9, 15), "tbsCertificate.extensions.basicConstraints"),
    ResponderAltNamePresent => must("responder_alt_name_present", "7.1.2.8.2", from_day(2023, 9, 15), "tbsCertificate.extensions.subjectAltName"),
    ResponderCrlPointsPresent => must("responder_crl_points_present", "7.1.2.11.2", from_day(2024, 3, 15), "tbsCertificate.extensions.cRLDistributionPoints"),
    ResponderPoliciesPresent => should("responder_policies_present", "7.1.2.8.2", from_day(2023, 9, 15), "tbsCertificate.extensions.certificatePolicies"),
    ResponderAccessPresent => should("responder_access_present", "7.1.2.8.3", from_day(2023, 9, 15), "tbsCertificate.extensions.authorityInfoAccess"),
};

impl WebResponderRule {
    /// How the rule is told, and since when it is in force.
    pub fn entry(self) -> WebEntry
        ensures { IsTold result (grammar.responder_sentence self) }
    {
        ENTRIES[self as usize]
    }

    /// Of which part of a certificate the rule speaks.
    pub(crate) fn part(self) -> Part
        ensures { result ≡ seen.responder_part self }
    {
        match self {
            WebResponderRule::OcspNoCheckAbsent | WebResponderRule::OcspNoCheckCritical => {
                Part::Extension(OcspNoCheck::OID)
            }
            WebResponderRule::ResponderPurposeOther => Part::Extension(ExtendedKeyUsage::OID),
            WebResponderRule::ResponderConstraintsNotCritical => Part::Extension(
                BasicConstraints::OID,
            ),
            WebResponderRule::ResponderAltNamePresent => Part::Extension(SubjectAltName::OID),
            WebResponderRule::ResponderCrlPointsPresent => Part::Extension(
                CrlDistributionPoints::OID,
            ),
            WebResponderRule::ResponderPoliciesPresent => Part::Extension(CertificatePolicies::OID),
            WebResponderRule::ResponderAccessPresent => Part::Extension(
                AuthorityInfoAccessSyntax::OID,
            ),
            _ => Part::Extension(KeyUsage::OID),
        }
    }

    /// Whether the certificate, of which these are the values, breaks the rule.
    pub(crate) fn is_broken(self, certificate: &CertificateInner<Raw>, values: &WebValues) -> bool
        ensures { result ≡ (grammar.responder_sentence self).breaks certificate.now values.now }
    {
        let extensions = extensions_of(certificate);
        match self {
            WebResponderRule::OcspNoCheckAbsent => !has::<OcspNoCheck>(extensions),
            WebResponderRule::OcspNoCheckCritical => has_critical::<OcspNoCheck>(extensions),
            WebResponderRule::ResponderPurposeOther => has_other_purpose(
                OCSP_SIGNING,
                &values.extended_key_usage,
            ),
            WebResponderRule::ResponderKeyUsageAbsent => !has::<KeyUsage>(extensions),
            WebResponderRule::ResponderKeyUsageNotCritical => has_uncritical::<KeyUsage>(
                extensions,
            ),
            WebResponderRule::ResponderKeyUsageOther =>
                passes!(&values.key_usage, usage => has_bit_not_of_responder(usage)),
            WebResponderRule::ResponderConstraintsNotCritical => has_uncritical::<BasicConstraints>(
                extensions,
            ),
            WebResponderRule::ResponderAltNamePresent => has::<SubjectAltName>(extensions),
            WebResponderRule::ResponderCrlPointsPresent => has::<CrlDistributionPoints>(extensions),
            WebResponderRule::ResponderPoliciesPresent => has::<CertificatePolicies>(extensions),
            WebResponderRule::ResponderAccessPresent => has::<AuthorityInfoAccessSyntax>(
                extensions,
            ),
        }
    }
}
