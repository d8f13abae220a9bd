//! Rules on lists of attributes, of CRL distribution points and of access descriptions (RFC 5280 4.2.1.8, 4.2.1.13, 4.2.1.15, 4.2.2, RFC 6960 3.1).

ghost use Rattle.std.specs.List.{list_any};
ghost use Rattle.std.specs.Prelude.{◌≡◌};
ghost use Rattle.x509_lint.specs.Place.{is_faulty_point};
ghost use Rattle.x509_lint.specs.Point as grammar;
ghost use Rattle.x509_lint.specs.Wording.{Says};
ghost use Rattle.x509_lint.specs.Words.{passes};

use crate::beyond::{Beyond, is_unjudged};
use crate::entry::{Entry, rules};
use crate::extensions::extensions_of;
use crate::group::{Group, Told};
use crate::lists::{Test, any_of};
use crate::passes;
use crate::places::{
    CA_ISSUERS, CA_REPOSITORY, OCSP, PointFault, are_partial, has_fault, has_incomplete_search,
    has_other_uri, has_place_without_host, has_point_of, lacks_any_uri, lacks_uri,
};
use crate::rule::Rule;
use crate::rule::request::NoValues;
use crate::values::PointValues;
use x509_base::Raw;
use x509_cert::certificate::CertificateInner;
use x509_ext::pkix::crl::dp::DistributionPoint;
use x509_ext::pkix::{
    AuthorityInfoAccessSyntax, CrlDistributionPoints, FreshestCrl, SubjectDirectoryAttributes,
    SubjectInfoAccessSyntax,
};

/// Rules on lists of attributes, of CRL distribution points and of access descriptions (RFC 5280 4.2.1.8, 4.2.1.13, 4.2.1.15, 4.2.2, RFC 6960 3.1).
#[derive(Clone, Copy, PartialEq, Eq)]
pub enum PointRule {
    /// The SubjectDirectoryAttributes has no attribute (RFC 5280 4.2.1.8, error).
    SubjectDirectoryAttributesEmpty,

    /// An attribute of the SubjectDirectoryAttributes has no value (RFC 5280 A.1, error).
    SubjectDirectoryAttributeValuesEmpty,

    /// The SubjectDirectoryAttributes isn't read, and has an OID of more than 39 octets or with a number of 2^32 or more, which this library's decoder doesn't hold; the rules on what it says aren't judged (RFC 5280 4.2.1.8, not judged).
    SubjectDirectoryAttributesNotJudged,

    /// The CRLDistributionPoints has no point (RFC 5280 4.2.1.13, error).
    CrlDistributionPointsEmpty,

    /// A point of the CRLDistributionPoints has neither a name nor a CRL issuer (RFC 5280 4.2.1.13, error).
    DistributionPointEmpty,

    /// A point of the CRLDistributionPoints has a list of names, its fullName, its nameRelativeToCRLIssuer or its cRLIssuer, that is empty (RFC 5280 4.2.1.13, error).
    DistributionPointNamesEmpty,

    /// The name of a point of the CRLDistributionPoints is relative to the issuer of the CRL (RFC 5280 4.2.1.13, warning).
    DistributionPointRelative,

    /// The name of a point of the CRLDistributionPoints is relative to a cRLIssuer of two names or more (RFC 5280 4.2.1.13, error).
    DistributionPointRelativeToSeveral,

    /// A point of the CRLDistributionPoints has general names, and no HTTP or LDAP URI among them (RFC 5280 4.2.1.13, warning).
    DistributionPointWithoutUri,

    /// The cRLIssuer of a point of the CRLDistributionPoints has a name that isn't a directoryName (RFC 5280 4.2.1.13, error).
    DistributionPointIssuerInvalid,

    /// The cRLIssuer of a point of the CRLDistributionPoints is the issuer of the certificate (RFC 5280 4.2.1.13, error).
    DistributionPointOwnIssuer,

    /// Each point of the CRLDistributionPoints has reasons, and not all, so that none covers all (RFC 5280 4.2.1.13, error).
    DistributionPointsPartial,

    /// A URI of a point of the CRLDistributionPoints has no scheme, or doesn't follow the syntax of URIs (RFC 3986 3, error).
    DistributionPointUriInvalid,

    /// An LDAP URI of a point of the CRLDistributionPoints has no dn, or not one attribute description (RFC 5280 4.2.1.13, error).
    DistributionPointLdapIncomplete,

    /// An LDAP URI of a point of the CRLDistributionPoints has no host (RFC 5280 4.2.1.13, warning).
    DistributionPointLdapWithoutHost,

    /// The CRLDistributionPoints isn't read, and has an x400Address or an OID of more than 39 octets or with a number of 2^32 or more, which this library's decoder doesn't hold; the rules on what it says aren't judged (RFC 5280 4.2.1.13, not judged).
    CrlDistributionPointsNotJudged,

    /// The FreshestCRL has no point (RFC 5280 4.2.1.15, error).
    FreshestCrlEmpty,

    /// A point of the FreshestCRL has neither a name nor a CRL issuer (RFC 5280 4.2.1.15, error).
    FreshestCrlPointEmpty,

    /// A point of the FreshestCRL has a list of names, its fullName, its nameRelativeToCRLIssuer or its cRLIssuer, that is empty (RFC 5280 4.2.1.15, error).
    FreshestCrlPointNamesEmpty,

    /// The name of a point of the FreshestCRL is relative to the issuer of the CRL (RFC 5280 4.2.1.15, warning).
    FreshestCrlPointRelative,

    /// The name of a point of the FreshestCRL is relative to a cRLIssuer of two names or more (RFC 5280 4.2.1.15, error).
    FreshestCrlPointRelativeToSeveral,

    /// A point of the FreshestCRL has general names, and no HTTP or LDAP URI among them (RFC 5280 4.2.1.15, warning).
    FreshestCrlPointWithoutUri,

    /// The cRLIssuer of a point of the FreshestCRL has a name that isn't a directoryName (RFC 5280 4.2.1.15, error).
    FreshestCrlPointIssuerInvalid,

    /// The cRLIssuer of a point of the FreshestCRL is the issuer of the certificate (RFC 5280 4.2.1.15, error).
    FreshestCrlPointOwnIssuer,

    /// Each point of the FreshestCRL has reasons, and not all, so that none covers all (RFC 5280 4.2.1.15, error).
    FreshestCrlPointsPartial,

    /// A URI of a point of the FreshestCRL has no scheme, or doesn't follow the syntax of URIs (RFC 3986 3, error).
    FreshestCrlPointUriInvalid,

    /// An LDAP URI of a point of the FreshestCRL has no dn, or not one attribute description (RFC 5280 4.2.1.15, error).
    FreshestCrlPointLdapIncomplete,

    /// An LDAP URI of a point of the FreshestCRL has no host (RFC 5280 4.2.1.15, warning).
    FreshestCrlPointLdapWithoutHost,

    /// The FreshestCRL isn't read, and has an x400Address or an OID of more than 39 octets or with a number of 2^32 or more, which this library's decoder doesn't hold; the rules on what it says aren't judged (RFC 5280 4.2.1.15, not judged).
    FreshestCrlNotJudged,

    /// The AuthorityInfoAccess has no access description (RFC 5280 4.2.2.1, error).
    AuthorityInfoAccessEmpty,

    /// The AuthorityInfoAccess has id-ad-caIssuers, and no HTTP or LDAP URI for it (RFC 5280 4.2.2.1, warning).
    CaIssuersWithoutUri,

    /// An LDAP URI of id-ad-caIssuers has no dn, or no attribute description (RFC 5280 4.2.2.1, error).
    CaIssuersLdapIncomplete,

    /// An LDAP URI of id-ad-caIssuers has no host (RFC 5280 4.2.2.1, warning).
    CaIssuersLdapWithoutHost,

    /// The AuthorityInfoAccess has id-ad-ocsp, and no URI for it (RFC 6960 3.1, error).
    OcspLocationNotUri,

    /// A URI of the AuthorityInfoAccess has no scheme, or doesn't follow the syntax of URIs (RFC 3986 3, error).
    AuthorityInfoAccessUriInvalid,

    /// The AuthorityInfoAccess isn't read, and has an x400Address or an OID of more than 39 octets or with a number of 2^32 or more, which this library's decoder doesn't hold; the rules on what it says aren't judged (RFC 5280 4.2.2.1, not judged).
    AuthorityInfoAccessNotJudged,

    /// The SubjectInfoAccess has no access description (RFC 5280 4.2.2.2, error).
    SubjectInfoAccessEmpty,

    /// The SubjectInfoAccess has id-ad-caRepository, and no HTTP or LDAP URI for it (RFC 5280 4.2.2.2, warning).
    CaRepositoryWithoutUri,

    /// A URI of the SubjectInfoAccess has no scheme, or doesn't follow the syntax of URIs (RFC 3986 3, error).
    SubjectInfoAccessUriInvalid,

    /// The SubjectInfoAccess isn't read, and has an x400Address or an OID of more than 39 octets or with a number of 2^32 or more, which this library's decoder doesn't hold; the rules on what it says aren't judged (RFC 5280 4.2.2.2, not judged).
    SubjectInfoAccessNotJudged,
}

/// The rules in their order, with how each is told.
pub(crate) static POINT_RULES: [Told<PointRule>; 40] = rules! { PointRule;
    SubjectDirectoryAttributesEmpty => must("subject_directory_attributes_empty", "4.2.1.8", "tbsCertificate.extensions.subjectDirectoryAttributes"),
    SubjectDirectoryAttributeValuesEmpty => must("subject_directory_attribute_values_empty", "A.1", "tbsCertificate.extensions.subjectDirectoryAttributes"),
    SubjectDirectoryAttributesNotJudged => not_judged("subject_directory_attributes_not_read", "4.2.1.8", "tbsCertificate.extensions.subjectDirectoryAttributes"),
    CrlDistributionPointsEmpty => must("crl_distribution_points_empty", "4.2.1.13", "tbsCertificate.extensions.cRLDistributionPoints"),
    DistributionPointEmpty => must("distribution_point_empty", "4.2.1.13", "tbsCertificate.extensions.cRLDistributionPoints"),
    DistributionPointNamesEmpty => must("distribution_point_names_empty", "4.2.1.13", "tbsCertificate.extensions.cRLDistributionPoints"),
    DistributionPointRelative => should("distribution_point_relative", "4.2.1.13", "tbsCertificate.extensions.cRLDistributionPoints"),
    DistributionPointRelativeToSeveral => must("distribution_point_relative_to_several", "4.2.1.13", "tbsCertificate.extensions.cRLDistributionPoints"),
    DistributionPointWithoutUri => should("distribution_point_without_uri", "4.2.1.13", "tbsCertificate.extensions.cRLDistributionPoints"),
    DistributionPointIssuerInvalid => must("distribution_point_issuer_invalid", "4.2.1.13", "tbsCertificate.extensions.cRLDistributionPoints"),
    DistributionPointOwnIssuer => must("distribution_point_own_issuer", "4.2.1.13", "tbsCertificate.extensions.cRLDistributionPoints"),
    DistributionPointsPartial => must("distribution_points_partial", "4.2.1.13", "tbsCertificate.extensions.cRLDistributionPoints"),
    DistributionPointUriInvalid => must_of("RFC 3986", "distribution_point_uri_invalid", "3", "tbsCertificate.extensions.cRLDistributionPoints"),
    DistributionPointLdapIncomplete => must("distribution_point_ldap_incomplete", "4.2.1.13", "tbsCertificate.extensions.cRLDistributionPoints"),
    DistributionPointLdapWithoutHost => should("distribution_point_ldap_without_host", "4.2.1.13", "tbsCertificate.extensions.cRLDistributionPoints"),
    CrlDistributionPointsNotJudged => not_judged("crl_distribution_points_not_read", "4.2.1.13", "tbsCertificate.extensions.cRLDistributionPoints"),
    FreshestCrlEmpty => must("freshest_crl_empty", "4.2.1.15", "tbsCertificate.extensions.freshestCRL"),
    FreshestCrlPointEmpty => must("freshest_crl_point_empty", "4.2.1.15", "tbsCertificate.extensions.freshestCRL"),
    FreshestCrlPointNamesEmpty => must("freshest_crl_point_names_empty", "4.2.1.15", "tbsCertificate.extensions.freshestCRL"),
    FreshestCrlPointRelative => should("freshest_crl_point_relative", "4.2.1.15", "tbsCertificate.extensions.freshestCRL"),
    FreshestCrlPointRelativeToSeveral => must("freshest_crl_point_relative_to_several", "4.2.1.15", "tbsCertificate.extensions.freshestCRL"),
    FreshestCrlPointWithoutUri => should("freshest_crl_point_without_uri", "4.2.1.15", "tbsCertificate.extensions.freshestCRL"),
    FreshestCrlPointIssuerInvalid => must("freshest_crl_point_issuer_invalid", "4.2.1.15", "tbsCertificate.extensions.freshestCRL"),
    FreshestCrlPointOwnIssuer => must("freshest_crl_point_own_issuer", "4.2.1.15", "tbsCertificate.extensions.freshestCRL"),
    FreshestCrlPointsPartial => must("freshest_crl_points_partial", "4.2.1.15", "tbsCertificate.extensions.freshestCRL"),
    FreshestCrlPointUriInvalid => must_of("RFC 3986", "freshest_crl_point_uri_invalid", "3", "tbsCertificate.extensions.freshestCRL"),
    FreshestCrlPointLdapIncomplete => must("freshest_crl_point_ldap_incomplete", "4.2.1.15", "tbsCertificate.extensions.freshestCRL"),
    FreshestCrlPointLdapWithoutHost => should("freshest_crl_point_ldap_without_host", "4.2.1.15", "tbsCertificate.extensions.freshestCRL"),
    FreshestCrlNotJudged => not_judged("freshest_crl_not_read", "4.2.1.15", "tbsCertificate.extensions.freshestCRL"),
    AuthorityInfoAccessEmpty => must("authority_info_access_empty", "4.2.2.1", "tbsCertificate.extensions.authorityInfoAccess"),
    CaIssuersWithoutUri => should("ca_issuers_without_uri", "4.2.2.1", "tbsCertificate.extensions.authorityInfoAccess"),
    CaIssuersLdapIncomplete => must("ca_issuers_ldap_incomplete", "4.2.2.1", "tbsCertificate.extensions.authorityInfoAccess"),
    CaIssuersLdapWithoutHost => should("ca_issuers_ldap_without_host", "4.2.2.1", "tbsCertificate.extensions.authorityInfoAccess"),
    OcspLocationNotUri => must_of("RFC 6960", "ocsp_location_not_uri", "3.1", "tbsCertificate.extensions.authorityInfoAccess"),
    AuthorityInfoAccessUriInvalid => must_of("RFC 3986", "authority_info_access_uri_invalid", "3", "tbsCertificate.extensions.authorityInfoAccess"),
    AuthorityInfoAccessNotJudged => not_judged("authority_info_access_not_read", "4.2.2.1", "tbsCertificate.extensions.authorityInfoAccess"),
    SubjectInfoAccessEmpty => must("subject_info_access_empty", "4.2.2.2", "tbsCertificate.extensions.subjectInfoAccess"),
    CaRepositoryWithoutUri => should("ca_repository_without_uri", "4.2.2.2", "tbsCertificate.extensions.subjectInfoAccess"),
    SubjectInfoAccessUriInvalid => must_of("RFC 3986", "subject_info_access_uri_invalid", "3", "tbsCertificate.extensions.subjectInfoAccess"),
    SubjectInfoAccessNotJudged => not_judged("subject_info_access_not_read", "4.2.2.2", "tbsCertificate.extensions.subjectInfoAccess"),
};

impl PointRule {
    /// How bad it is to break the rule, its name, its section, and its place.
    pub fn entry(self) -> Entry
        ensures { Says result (grammar.point_sentence self).wording }
    {
        POINT_RULES[self as usize].entry
    }
}

/// That a point has neither a name nor a CRL issuer.
struct EmptyPoint;

impl Test<DistributionPoint> for EmptyPoint {
    ghost use Rattle.x509_lint.specs.Point.{is_empty_point};

    ghost holds_of = { λ test. is_empty_point };

    fn holds_of(&self, point: &DistributionPoint) -> bool {
        !point.distribution_point.is_some() && !point.crl_issuer.is_some()
    }
}

/// Whether the CRLDistributionPoints are read, and a point of theirs has the fault.
fn has_faulty_point(fault: PointFault, values: &PointValues) -> bool
    ensures { result ≡ passes (λ p. list_any (is_faulty_point fault) p.0) values.now.crl_distribution_points }
{
    passes!(&values.crl_distribution_points, list => has_fault(fault, list.0.as_slice()))
}

/// Whether the FreshestCRL is read, and a point of it has the fault.
fn has_faulty_freshest(fault: PointFault, values: &PointValues) -> bool
    ensures { result ≡ passes (λ p. list_any (is_faulty_point fault) p.0) values.now.freshest_crl }
{
    passes!(&values.freshest_crl, list => has_fault(fault, list.0.as_slice()))
}

impl Group<CertificateInner<Raw>, PointValues> for PointRule {
    ghost use Rattle.x509_lint.specs.Point.{point_sentence};
    ghost use Rattle.x509_lint.specs.declared.rule.Rule.TheVariants.{Point};

    ghost sentence = { point_sentence };

    ghost as_rule = { λ rule. Point rule };

    fn is_broken(&self, certificate: &CertificateInner<Raw>, values: &PointValues) -> bool {
        match self {
            PointRule::SubjectDirectoryAttributesEmpty =>
                passes!(&values.subject_directory_attributes, list => list.0.as_slice().is_empty()),
            PointRule::SubjectDirectoryAttributeValuesEmpty =>
                passes!(&values.subject_directory_attributes, list => any_of(&NoValues, list.0.as_slice())),
            PointRule::SubjectDirectoryAttributesNotJudged => is_unjudged::<
                SubjectDirectoryAttributes,
            >(
                Beyond::Identifiers,
                extensions_of(certificate),
                values.subject_directory_attributes.is_some(),
            ),
            PointRule::CrlDistributionPointsEmpty =>
                passes!(&values.crl_distribution_points, list => list.0.as_slice().is_empty()),
            PointRule::DistributionPointEmpty =>
                passes!(&values.crl_distribution_points, list => any_of(&EmptyPoint, list.0.as_slice())),
            PointRule::DistributionPointNamesEmpty => has_faulty_point(PointFault::NoNames, values),
            PointRule::DistributionPointRelative => has_faulty_point(PointFault::Relative, values),
            PointRule::DistributionPointRelativeToSeveral => has_faulty_point(
                PointFault::RelativeToSeveral,
                values,
            ),
            PointRule::DistributionPointWithoutUri => has_faulty_point(PointFault::NoUri, values),
            PointRule::DistributionPointIssuerInvalid => has_faulty_point(
                PointFault::OtherIssuer,
                values,
            ),
            PointRule::DistributionPointOwnIssuer => match &values.crl_distribution_points {
                Some(list) => has_point_of(
                    certificate.tbs_certificate().issuer(),
                    list.0.as_slice(),
                ),
                None => false,
            },
            PointRule::DistributionPointsPartial =>
                passes!(&values.crl_distribution_points, list => are_partial(list.0.as_slice())),
            PointRule::DistributionPointUriInvalid => has_faulty_point(
                PointFault::UriInvalid,
                values,
            ),
            PointRule::DistributionPointLdapIncomplete => has_faulty_point(
                PointFault::LdapIncomplete,
                values,
            ),
            PointRule::DistributionPointLdapWithoutHost => has_faulty_point(
                PointFault::LdapWithoutHost,
                values,
            ),
            PointRule::CrlDistributionPointsNotJudged => is_unjudged::<CrlDistributionPoints>(
                Beyond::Names,
                extensions_of(certificate),
                values.crl_distribution_points.is_some(),
            ),
            PointRule::FreshestCrlEmpty =>
                passes!(&values.freshest_crl, list => list.0.as_slice().is_empty()),
            PointRule::FreshestCrlPointEmpty =>
                passes!(&values.freshest_crl, list => any_of(&EmptyPoint, list.0.as_slice())),
            PointRule::FreshestCrlPointNamesEmpty => has_faulty_freshest(
                PointFault::NoNames,
                values,
            ),
            PointRule::FreshestCrlPointRelative => has_faulty_freshest(
                PointFault::Relative,
                values,
            ),
            PointRule::FreshestCrlPointRelativeToSeveral => has_faulty_freshest(
                PointFault::RelativeToSeveral,
                values,
            ),
            PointRule::FreshestCrlPointWithoutUri => has_faulty_freshest(PointFault::NoUri, values),
            PointRule::FreshestCrlPointIssuerInvalid => has_faulty_freshest(
                PointFault::OtherIssuer,
                values,
            ),
            PointRule::FreshestCrlPointOwnIssuer => match &values.freshest_crl {
                Some(list) => has_point_of(
                    certificate.tbs_certificate().issuer(),
                    list.0.as_slice(),
                ),
                None => false,
            },
            PointRule::FreshestCrlPointsPartial =>
                passes!(&values.freshest_crl, list => are_partial(list.0.as_slice())),
            PointRule::FreshestCrlPointUriInvalid => has_faulty_freshest(
                PointFault::UriInvalid,
                values,
            ),
            PointRule::FreshestCrlPointLdapIncomplete => has_faulty_freshest(
                PointFault::LdapIncomplete,
                values,
            ),
            PointRule::FreshestCrlPointLdapWithoutHost => has_faulty_freshest(
                PointFault::LdapWithoutHost,
                values,
            ),
            PointRule::FreshestCrlNotJudged => is_unjudged::<FreshestCrl>(
                Beyond::Names,
                extensions_of(certificate),
                values.freshest_crl.is_some(),
            ),
            PointRule::AuthorityInfoAccessEmpty =>
                passes!(&values.authority_info_access, list => list.0.as_slice().is_empty()),
            PointRule::CaIssuersWithoutUri =>
                passes!(&values.authority_info_access, list => lacks_uri(CA_ISSUERS, list.0.as_slice())),
            PointRule::CaIssuersLdapIncomplete =>
                passes!(&values.authority_info_access, list => has_incomplete_search(CA_ISSUERS, list.0.as_slice())),
            PointRule::CaIssuersLdapWithoutHost =>
                passes!(&values.authority_info_access, list => has_place_without_host(CA_ISSUERS, list.0.as_slice())),
            PointRule::OcspLocationNotUri =>
                passes!(&values.authority_info_access, list => lacks_any_uri(OCSP, list.0.as_slice())),
            PointRule::AuthorityInfoAccessUriInvalid =>
                passes!(&values.authority_info_access, list => has_other_uri(list.0.as_slice())),
            PointRule::AuthorityInfoAccessNotJudged => is_unjudged::<AuthorityInfoAccessSyntax>(
                Beyond::Names,
                extensions_of(certificate),
                values.authority_info_access.is_some(),
            ),
            PointRule::SubjectInfoAccessEmpty =>
                passes!(&values.subject_info_access, list => list.0.as_slice().is_empty()),
            PointRule::CaRepositoryWithoutUri =>
                passes!(&values.subject_info_access, list => lacks_uri(CA_REPOSITORY, list.0.as_slice())),
            PointRule::SubjectInfoAccessUriInvalid =>
                passes!(&values.subject_info_access, list => has_other_uri(list.0.as_slice())),
            PointRule::SubjectInfoAccessNotJudged => is_unjudged::<SubjectInfoAccessSyntax>(
                Beyond::Names,
                extensions_of(certificate),
                values.subject_info_access.is_some(),
            ),
        }
    }

    fn to_rule(&self) -> Rule {
        Rule::Point(*self)
    }
}
