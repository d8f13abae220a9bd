//! Rules on the SAN and the subject of certificates of TLS servers (TLS BR 7.1.2.7, 7.1.2.7.12, 7.1.4.3).

ghost use Rattle.std.specs.Prelude.{◌≡◌};
ghost use Rattle.x509_lint_web.specs.Name as grammar;
ghost use Rattle.x509_lint_web.specs.Seen as seen;
ghost use Rattle.x509_lint_web.specs.Sentence.{IsTold};

use crate::entry::{WebEntry, entries};
use crate::names::{HostName, NameFault, has_attribute, has_name, is_empty_name, is_repeated};
use crate::seen::Part;
use crate::values::WebValues;
use x509_base::Raw;
use x509_cert::certificate::CertificateInner;
use x509_der::AssociatedOid;
use x509_ext::pkix::SubjectAltName;
use x509_lint::extensions::{extensions_of, has, has_critical};
use x509_lint::lists::any_of;
use x509_lint::passes;
use x509_name::attr::attribute_types::{COMMON_NAME, ORGANIZATIONAL_UNIT_NAME};

/// Rules on the SAN and the subject of certificates of TLS servers (TLS BR 7.1.2.7, 7.1.2.7.12, 7.1.4.3).
#[derive(Clone, Copy, PartialEq, Eq)]
pub enum WebNameRule {
    /// There is no SAN (TLS BR 7.1.2.7.12, error).
    SubjectAltNameAbsent,

    /// The SAN has neither a dNSName nor an iPAddress (TLS BR 7.1.2.7.12, error).
    SubjectAltNameWithoutHost,

    /// The SAN has a name that is neither a dNSName nor an iPAddress (TLS BR 7.1.2.7.12, error).
    SubjectAltNameOther,

    /// The SAN is critical, and the subject isn't empty (TLS BR 7.1.2.7.12, error, from 2023-09-15).
    SubjectAltNameCritical,

    /// A dNSName has an underscore (TLS BR 7.1.2.7.12, error, from 2019-04-01).
    DnsNameUnderscore,

    /// A dNSName has a label with hyphens in its third and fourth places that doesn't begin with xn (TLS BR 7.1.2.7.12,
    /// error, from 2021-10-01).
    DnsNameReservedLabel,

    /// A dNSName has a label that begins with `xn--` and isn't Punycode behind that, or has more than 63 octets (TLS BR
    /// 7.1.2.7.12, error, from 2021-10-01).
    DnsNameXnLabelOther,

    /// A dNSName has a * that isn't the whole of its leftmost label (TLS BR 7.1.2.7.12, error).
    DnsNameWildcard,

    /// A dNSName has one label, perhaps behind a wildcard (TLS BR 7.1.2.7.12, error, from 2015-11-01).
    DnsNameOneLabel,

    /// A dNSName ends in alt, example, internal, invalid, local, localhost or test (TLS BR 7.1.2.7.12, error, from
    /// 2015-11-01).
    DnsNameInternal,

    /// A dNSName ends in a label of digits, as the text of an IPv4 address does (TLS BR 7.1.2.7.12, error, from
    /// 2015-11-01).
    DnsNameNumeric,

    /// A dNSName is one below in-addr.arpa or ip6.arpa (TLS BR 7.1.2.7.12, warning, from 2026-03-15).
    DnsNameReverse,

    /// A dNSName ends in onion, and what stands in front of that isn't the address of an onion service of version 3, 56
    /// characters of base 32 of which the last is d (TLS BR 7.1.2.7.12, error, from 2023-09-15).
    DnsNameOnionOther,

    /// An iPAddress is a reserved one: it lies in a block of IANA's registries of special-purpose addresses, or is of
    /// multicast (TLS BR 7.1.2.7.12, error, from 2015-11-01).
    AddressReserved,

    /// The subject has a commonName (TLS BR 7.1.2.7, warning, from 2023-09-15).
    CommonNamePresent,

    /// The subject has a commonName that is no name of the SAN, however that is written: a dNSName in any case or in
    /// Unicode, an IPv6 address in any text (TLS BR 7.1.4.3, error, from 2012-07-01).
    CommonNameNotInAltName,

    /// The subject has a commonName that is a name of the SAN, and is written otherwise than as the dNSName octet for
    /// octet, or as RFC 3986 3.2.2 or RFC 5952 4 write the iPAddress (TLS BR 7.1.4.3, error, from 2021-08-25).
    CommonNameNotAsInAltName,

    /// The subject has an organizationalUnitName (TLS BR 7.1.2.7, error, from 2022-09-01).
    OrganizationalUnitPresent,

    /// The subject has two commonNames or more (TLS BR 7.1.4.3, error, from 2021-08-25).
    CommonNameRepeated,
}

/// How the rules are told, in the order of their variants.
static ENTRIES: [WebEntry; 19] = entries! {
    SubjectAltNameAbsent => must("subject_alt_name_absent", "7.1.2.7.12", None, "tbsCertificate.extensions.subjectAltName"),
    SubjectAltNameWithoutHost => must("subject_alt_name_without_host", "7.1.2.7.12", None, "tbsCertificate.extensions.subjectAltName"),
    SubjectAltNameOther => must("subject_alt_name_other", "7.1.2.7.12", None, "tbsCertificate.extensions.subjectAltName"),
    SubjectAltNameCritical => must("subject_alt_name_critical", "7.1.2.7.12", from_day(2023, 9, 15), "tbsCertificate.extensions.subjectAltName"),
    DnsNameUnderscore => must("dns_name_underscore", "7.1.2.7.12", from_day(2019, 4, 1), "tbsCertificate.extensions.subjectAltName"),
    DnsNameReservedLabel => must("dns_name_reserved_label", "7.1.2.7.12", from_day(2021, 10, 1), "tbsCertificate.extensions.subjectAltName"),
    DnsNameXnLabelOther => must("dns_name_xn_label_other", "7.1.2.7.12", from_day(2021, 10, 1), "tbsCertificate.extensions.subjectAltName"),
    DnsNameWildcard => must("dns_name_wildcard", "7.1.2.7.12", None, "tbsCertificate.extensions.subjectAltName"),
    DnsNameOneLabel => must("dns_name_one_label", "7.1.2.7.12", from_day(2015, 11, 1), "tbsCertificate.extensions.subjectAltName"),
    DnsNameInternal => must("dns_name_internal", "7.1.2.7.12", from_day(2015, 11, 1), "tbsCertificate.extensions.subjectAltName"),
    DnsNameNumeric => must("dns_name_numeric", "7.1.2.7.12", from_day(2015, 11, 1), "tbsCertificate.extensions.subjectAltName"),
    DnsNameReverse => should("dns_name_reverse", "7.1.2.7.12", from_day(2026, 3, 15), "tbsCertificate.extensions.subjectAltName"),
    DnsNameOnionOther => must("dns_name_onion_other", "7.1.2.7.12", from_day(2023, 9, 15), "tbsCertificate.extensions.subjectAltName"),
    AddressReserved => must("address_reserved", "7.1.2.7.12", from_day(2015, 11, 1), "tbsCertificate.extensions.subjectAltName"),
    CommonNamePresent => should("common_name_present", "7.1.2.7", from_day(2023, 9, 15), "tbsCertificate.subject"),
    CommonNameNotInAltName => must("common_name_not_in_alt_name", "7.1.4.3", from_day(2012, 7, 1), "tbsCertificate.subject"),
    CommonNameNotAsInAltName => must("common_name_not_as_in_alt_name", "7.1.4.3", from_day(2021, 8, 25), "tbsCertificate.subject"),
    OrganizationalUnitPresent => must("organizational_unit_present", "7.1.2.7", from_day(2022, 9, 1), "tbsCertificate.subject"),
    CommonNameRepeated => must("common_name_repeated", "7.1.4.3", from_day(2021, 8, 25), "tbsCertificate.subject"),
};

impl WebNameRule {
    /// How the rule is told, and since when it is in force.
    pub fn entry(self) -> WebEntry
        ensures { IsTold result (grammar.name_sentence self) }
    {
        ENTRIES[self as usize]
    }

    /// Of which part of a certificate the rule speaks.
    pub(crate) fn part(self) -> Part
        ensures { result ≡ seen.name_part self }
    {
        match self {
            WebNameRule::SubjectAltNameOther => Part::Name(NameFault::OtherName),
            WebNameRule::DnsNameUnderscore => Part::Name(NameFault::Underscore),
            WebNameRule::DnsNameReservedLabel => Part::Name(NameFault::ReservedLabel),
            WebNameRule::DnsNameWildcard => Part::Name(NameFault::Wildcard),
            WebNameRule::DnsNameOneLabel => Part::Name(NameFault::OneLabel),
            WebNameRule::DnsNameInternal => Part::Name(NameFault::Internal),
            WebNameRule::DnsNameNumeric => Part::Name(NameFault::Numeric),
            WebNameRule::DnsNameReverse => Part::Name(NameFault::Reverse),
            WebNameRule::DnsNameOnionOther => Part::Name(NameFault::OtherOnion),
            WebNameRule::AddressReserved => Part::Name(NameFault::Reserved),
            WebNameRule::CommonNamePresent
            | WebNameRule::CommonNameNotInAltName
            | WebNameRule::CommonNameNotAsInAltName
            | WebNameRule::CommonNameRepeated
            | WebNameRule::OrganizationalUnitPresent => Part::Subject,
            _ => Part::Extension(SubjectAltName::OID),
        }
    }

    /// Whether the certificate, of which these are the values, breaks the rule.
    pub(crate) fn is_broken(self, certificate: &CertificateInner<Raw>, values: &WebValues) -> bool
        ensures { result ≡ (grammar.name_sentence self).breaks certificate.now values.now }
    {
        let subject = certificate.tbs_certificate().subject();
        match self {
            WebNameRule::SubjectAltNameAbsent => !has::<SubjectAltName>(extensions_of(certificate)),
            WebNameRule::SubjectAltNameWithoutHost =>
                passes!(&values.subject_alt_name, names => !any_of(&HostName, names.0.as_slice())),
            WebNameRule::SubjectAltNameOther => has_name(
                NameFault::OtherName,
                &values.subject_alt_name,
            ),
            WebNameRule::SubjectAltNameCritical => has_critical::<SubjectAltName>(extensions_of(
                certificate,
            )) && !is_empty_name(subject),
            WebNameRule::DnsNameUnderscore => has_name(
                NameFault::Underscore,
                &values.subject_alt_name,
            ),
            WebNameRule::DnsNameReservedLabel => has_name(
                NameFault::ReservedLabel,
                &values.subject_alt_name,
            ),
            WebNameRule::DnsNameXnLabelOther => values.has_other_labels,
            WebNameRule::DnsNameWildcard => has_name(NameFault::Wildcard, &values.subject_alt_name),
            WebNameRule::DnsNameOneLabel => has_name(NameFault::OneLabel, &values.subject_alt_name),
            WebNameRule::DnsNameInternal => has_name(NameFault::Internal, &values.subject_alt_name),
            WebNameRule::DnsNameNumeric => has_name(NameFault::Numeric, &values.subject_alt_name),
            WebNameRule::DnsNameReverse => has_name(NameFault::Reverse, &values.subject_alt_name),
            WebNameRule::DnsNameOnionOther => has_name(
                NameFault::OtherOnion,
                &values.subject_alt_name,
            ),
            WebNameRule::AddressReserved => has_name(NameFault::Reserved, &values.subject_alt_name),
            WebNameRule::CommonNamePresent => has_attribute(COMMON_NAME, subject),
            WebNameRule::CommonNameNotInAltName => values.has_stray_name,
            WebNameRule::CommonNameNotAsInAltName => values.has_rewritten_name,
            WebNameRule::OrganizationalUnitPresent => has_attribute(
                ORGANIZATIONAL_UNIT_NAME,
                subject,
            ),
            WebNameRule::CommonNameRepeated => is_repeated(COMMON_NAME, subject),
        }
    }
}
