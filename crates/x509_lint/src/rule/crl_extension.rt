//! Rules on the extensions of a CRL (RFC 5280 5.2).

ghost use Rattle.std.specs.Prelude.{◌≡◌, is_some, not};
ghost use Rattle.x509_lint.specs.CrlExtension as grammar;
ghost use Rattle.x509_lint.specs.Wording.{Says};
ghost use Rattle.x509_lint.specs.Words.{passes};

use crate::beyond::{Beyond, is_unjudged};
use crate::entry::{Entry, rules};
use crate::extensions::{has, has_critical, has_uncritical};
use crate::group::{Group, Told};
use crate::passes;
use crate::places::{CA_ISSUERS, PointFault, has_fault, has_other_method, lacks_uri};
use crate::rule::Rule;
use crate::values::CrlValues;
use x509_base::Raw;
use x509_cert::crl::CertificateList;
use x509_ext::members;
use x509_ext::pkix::{
    AuthorityInfoAccessSyntax, AuthorityKeyIdentifier, BaseCrlNumber, CrlNumber, FreshestCrl,
    IssuerAltName, IssuingDistributionPoint,
};

/// Rules on the extensions of a CRL (RFC 5280 5.2).
#[derive(Clone, Copy, PartialEq, Eq)]
pub enum CrlExtensionRule {
    /// There is no AKI (RFC 5280 5.2.1, error).
    AuthorityKeyIdentifierAbsent,

    /// The AKI has no keyIdentifier (RFC 5280 5.2.1, error).
    AuthorityKeyIdentifierWithoutKey,

    /// An AKI is critical (RFC 5280 4.2.1.1, error).
    AuthorityKeyIdentifierCritical,

    /// The AKI isn't read, and has an x400Address or an OID of more than 39 octets or with a number of 2^32 or more, which this library's decoder doesn't hold; the rules on what it says aren't judged (RFC 5280 5.2.1, not judged).
    AuthorityKeyIdentifierNotJudged,

    /// An IAN is critical (RFC 5280 5.2.2, warning).
    IssuerAltNameCritical,

    /// There is no CRL number (RFC 5280 5.2.3, error).
    CrlNumberAbsent,

    /// A CRL number is critical (RFC 5280 5.2.3, error).
    CrlNumberCritical,

    /// The CRL number has more than 20 octets (RFC 5280 5.2.3, error).
    CrlNumberTooLong,

    /// A delta CRL indicator isn't critical (RFC 5280 5.2.4, error).
    DeltaCrlIndicatorNotCritical,

    /// An IssuingDistributionPoint isn't critical (RFC 5280 5.2.5, error).
    IssuingDistributionPointNotCritical,

    /// The IssuingDistributionPoint has no field: each is absent or the default (RFC 5280 5.2.5, error).
    IssuingDistributionPointEmpty,

    /// The IssuingDistributionPoint asserts two or three of onlyContainsUserCerts, onlyContainsCACerts and onlyContainsAttributeCerts (RFC 5280 5.2.5, error).
    IssuingDistributionPointKinds,

    /// The IssuingDistributionPoint asserts onlyContainsAttributeCerts (RFC 5280 5.2.5, error).
    IssuingDistributionPointAttributeCerts,

    /// The IssuingDistributionPoint isn't read, and has an x400Address or an OID of more than 39 octets or with a number of 2^32 or more, which this library's decoder doesn't hold; the rules on what it says aren't judged (RFC 5280 5.2.5, not judged).
    IssuingDistributionPointNotJudged,

    /// A FreshestCRL is critical (RFC 5280 5.2.6, error).
    FreshestCrlCritical,

    /// There are a FreshestCRL and a delta CRL indicator (RFC 5280 5.2.6, error).
    FreshestCrlInDelta,

    /// A point of the FreshestCRL has reasons or a cRLIssuer (RFC 5280 5.2.6, error).
    FreshestCrlReasonsOrIssuer,

    /// The FreshestCRL isn't read, and has an x400Address or an OID of more than 39 octets or with a number of 2^32 or more, which this library's decoder doesn't hold; the rules on what it says aren't judged (RFC 5280 5.2.6, not judged).
    FreshestCrlNotJudged,

    /// An AuthorityInfoAccess is critical (RFC 5280 5.2.7, error).
    AuthorityInfoAccessCritical,

    /// The AuthorityInfoAccess has no access description, or one of another method than id-ad-caIssuers (RFC 5280 5.2.7, error).
    AuthorityInfoAccessOtherMethod,

    /// The AuthorityInfoAccess has id-ad-caIssuers, and no HTTP or LDAP URI for it (RFC 5280 5.2.7, warning).
    CaIssuersWithoutUri,

    /// The AuthorityInfoAccess isn't read, and has an x400Address or an OID of more than 39 octets or with a number of 2^32 or more, which this library's decoder doesn't hold; the rules on what it says aren't judged (RFC 5280 5.2.7, not judged).
    AuthorityInfoAccessNotJudged,
}

/// The rules in their order, with how each is told.
pub(crate) static CRL_EXTENSION_RULES: [Told<CrlExtensionRule>; 22] = rules! { CrlExtensionRule;
    AuthorityKeyIdentifierAbsent => must("authority_key_identifier_absent", "5.2.1", "tbsCertList.crlExtensions.authorityKeyIdentifier"),
    AuthorityKeyIdentifierWithoutKey => must("authority_key_identifier_without_key", "5.2.1", "tbsCertList.crlExtensions.authorityKeyIdentifier"),
    AuthorityKeyIdentifierCritical => must("authority_key_identifier_critical", "4.2.1.1", "tbsCertList.crlExtensions.authorityKeyIdentifier"),
    AuthorityKeyIdentifierNotJudged => not_judged("authority_key_identifier_not_read", "5.2.1", "tbsCertList.crlExtensions.authorityKeyIdentifier"),
    IssuerAltNameCritical => should("issuer_alt_name_critical", "5.2.2", "tbsCertList.crlExtensions.issuerAltName"),
    CrlNumberAbsent => must("crl_number_absent", "5.2.3", "tbsCertList.crlExtensions.cRLNumber"),
    CrlNumberCritical => must("crl_number_critical", "5.2.3", "tbsCertList.crlExtensions.cRLNumber"),
    CrlNumberTooLong => must("crl_number_too_long", "5.2.3", "tbsCertList.crlExtensions.cRLNumber"),
    DeltaCrlIndicatorNotCritical => must("delta_crl_indicator_not_critical", "5.2.4", "tbsCertList.crlExtensions.deltaCRLIndicator"),
    IssuingDistributionPointNotCritical => must("issuing_distribution_point_not_critical", "5.2.5", "tbsCertList.crlExtensions.issuingDistributionPoint"),
    IssuingDistributionPointEmpty => must("issuing_distribution_point_empty", "5.2.5", "tbsCertList.crlExtensions.issuingDistributionPoint"),
    IssuingDistributionPointKinds => must("issuing_distribution_point_kinds", "5.2.5", "tbsCertList.crlExtensions.issuingDistributionPoint"),
    IssuingDistributionPointAttributeCerts => must("issuing_distribution_point_attribute_certs", "5.2.5", "tbsCertList.crlExtensions.issuingDistributionPoint"),
    IssuingDistributionPointNotJudged => not_judged("issuing_distribution_point_not_read", "5.2.5", "tbsCertList.crlExtensions.issuingDistributionPoint"),
    FreshestCrlCritical => must("freshest_crl_critical", "5.2.6", "tbsCertList.crlExtensions.freshestCRL"),
    FreshestCrlInDelta => must("freshest_crl_in_delta", "5.2.6", "tbsCertList.crlExtensions.freshestCRL"),
    FreshestCrlReasonsOrIssuer => must("freshest_crl_reasons_or_issuer", "5.2.6", "tbsCertList.crlExtensions.freshestCRL"),
    FreshestCrlNotJudged => not_judged("freshest_crl_not_read", "5.2.6", "tbsCertList.crlExtensions.freshestCRL"),
    AuthorityInfoAccessCritical => must("authority_info_access_critical", "5.2.7", "tbsCertList.crlExtensions.authorityInfoAccess"),
    AuthorityInfoAccessOtherMethod => must("authority_info_access_other_method", "5.2.7", "tbsCertList.crlExtensions.authorityInfoAccess"),
    CaIssuersWithoutUri => should("ca_issuers_without_uri", "5.2.7", "tbsCertList.crlExtensions.authorityInfoAccess"),
    AuthorityInfoAccessNotJudged => not_judged("authority_info_access_not_read", "5.2.7", "tbsCertList.crlExtensions.authorityInfoAccess"),
};

impl CrlExtensionRule {
    /// How bad it is to break the rule, its name, its section, and its place.
    pub fn entry(self) -> Entry
        ensures { Says result (grammar.crl_extension_sentence self).wording }
    {
        CRL_EXTENSION_RULES[self as usize].entry
    }
}

fn lacks_key_identifier(identifier: &Option<AuthorityKeyIdentifier>) -> bool
    ensures { result ≡ passes (λ a. not (is_some a.key_identifier)) identifier.now }
{
    passes!(identifier, identifier => !identifier.key_identifier.is_some())
}

/// Whether each field is absent or has its default.
fn is_empty_point(point: &Option<IssuingDistributionPoint>) -> bool
    ensures { result ≡ passes grammar.is_empty_issuing_point point.now }
{
    let Some(point) = point else {
        return false;
    };
    !point.distribution_point.is_some()
        && !point.only_contains_user_certs
        && !point.only_contains_ca_certs
        && !point.only_some_reasons.is_some()
        && !point.indirect_crl
        && !point.only_contains_attribute_certs
}

fn has_several_kinds(point: &Option<IssuingDistributionPoint>) -> bool
    ensures { result ≡ passes grammar.has_several_kinds point.now }
{
    let Some(point) = point else {
        return false;
    };
    (point.only_contains_user_certs && point.only_contains_ca_certs)
        || (point.only_contains_user_certs && point.only_contains_attribute_certs)
        || (point.only_contains_ca_certs && point.only_contains_attribute_certs)
}

fn has_attribute_certs(point: &Option<IssuingDistributionPoint>) -> bool
    ensures { result ≡ passes (λ p. p.only_contains_attribute_certs) point.now }
{
    passes!(point, point => point.only_contains_attribute_certs)
}

impl Group<CertificateList<Raw>, CrlValues> for CrlExtensionRule {
    ghost use Rattle.x509_lint.specs.CrlExtension.{crl_extension_sentence};
    ghost use Rattle.x509_lint.specs.declared.rule.Rule.TheVariants.{CrlExtension};

    ghost sentence = { crl_extension_sentence };

    ghost as_rule = { λ rule. CrlExtension rule };

    fn is_broken(&self, crl: &CertificateList<Raw>, values: &CrlValues) -> bool {
        let extensions = members(crl.tbs_cert_list.crl_extensions.as_ref());
        match self {
            CrlExtensionRule::AuthorityKeyIdentifierAbsent => !has::<AuthorityKeyIdentifier>(
                extensions,
            ),
            CrlExtensionRule::AuthorityKeyIdentifierWithoutKey => lacks_key_identifier(
                &values.authority_key_identifier,
            ),
            CrlExtensionRule::AuthorityKeyIdentifierCritical => has_critical::<
                AuthorityKeyIdentifier,
            >(extensions),
            CrlExtensionRule::AuthorityKeyIdentifierNotJudged => is_unjudged::<
                AuthorityKeyIdentifier,
            >(
                Beyond::Names,
                extensions,
                values.authority_key_identifier.is_some(),
            ),
            CrlExtensionRule::IssuerAltNameCritical => has_critical::<IssuerAltName>(extensions),
            CrlExtensionRule::CrlNumberAbsent => !has::<CrlNumber>(extensions),
            CrlExtensionRule::CrlNumberCritical => has_critical::<CrlNumber>(extensions),
            CrlExtensionRule::CrlNumberTooLong =>
                passes!(&values.crl_number, number => number.0.as_bytes().len() > 20),
            CrlExtensionRule::DeltaCrlIndicatorNotCritical => has_uncritical::<BaseCrlNumber>(
                extensions,
            ),
            CrlExtensionRule::IssuingDistributionPointNotCritical => has_uncritical::<
                IssuingDistributionPoint,
            >(extensions),
            CrlExtensionRule::IssuingDistributionPointEmpty => is_empty_point(
                &values.issuing_distribution_point,
            ),
            CrlExtensionRule::IssuingDistributionPointKinds => has_several_kinds(
                &values.issuing_distribution_point,
            ),
            CrlExtensionRule::IssuingDistributionPointAttributeCerts => has_attribute_certs(
                &values.issuing_distribution_point,
            ),
            CrlExtensionRule::IssuingDistributionPointNotJudged => is_unjudged::<
                IssuingDistributionPoint,
            >(
                Beyond::Names,
                extensions,
                values.issuing_distribution_point.is_some(),
            ),
            CrlExtensionRule::FreshestCrlCritical => has_critical::<FreshestCrl>(extensions),
            CrlExtensionRule::FreshestCrlInDelta => has::<FreshestCrl>(extensions)
                && has::<BaseCrlNumber>(extensions),
            CrlExtensionRule::FreshestCrlReasonsOrIssuer =>
                passes!(&values.freshest_crl, list => has_fault(PointFault::ReasonsOrIssuer, list.0.as_slice())),
            CrlExtensionRule::FreshestCrlNotJudged => is_unjudged::<FreshestCrl>(
                Beyond::Names,
                extensions,
                values.freshest_crl.is_some(),
            ),
            CrlExtensionRule::AuthorityInfoAccessCritical => has_critical::<
                AuthorityInfoAccessSyntax,
            >(extensions),
            CrlExtensionRule::AuthorityInfoAccessOtherMethod =>
                passes!(&values.authority_info_access, list => has_other_method(CA_ISSUERS, list.0.as_slice())),
            CrlExtensionRule::CaIssuersWithoutUri =>
                passes!(&values.authority_info_access, list => lacks_uri(CA_ISSUERS, list.0.as_slice())),
            CrlExtensionRule::AuthorityInfoAccessNotJudged => is_unjudged::<
                AuthorityInfoAccessSyntax,
            >(
                Beyond::Names,
                extensions,
                values.authority_info_access.is_some(),
            ),
        }
    }

    fn to_rule(&self) -> Rule {
        Rule::CrlExtension(*self)
    }
}
