//! What is asked of places where CRLs and certificates are found.

ghost use Rattle.std.specs.List.{list_all, list_any};
ghost use Rattle.std.specs.Prelude.{◌≡◌, bytes_eq, not};
ghost use Rattle.x509_lint.specs.Place as place;
ghost use Rattle.x509_lint.specs.Words.{passes};

use crate::extensions::is_empty_sequence;
use crate::lists::{Test, all_of, any_of};
use crate::passes;
use crate::uris::{has_attributes, has_dn, has_ldap_host, has_one_attribute, is_any_uri};
use bitflags::Flags;
use x509_der::{ObjectIdentifier, oid};
use x509_ext::pkix::AccessDescription;
use x509_ext::pkix::crl::dp::DistributionPoint;
use x509_ext::pkix::name::{DistributionPointName, GeneralName};
use x509_name::name::Name;

/// id-ad-caIssuers, 1.3.6.1.5.5.7.48.2 (RFC 5280 4.2.2.1).
pub(crate) const CA_ISSUERS: ObjectIdentifier = oid!(0x2B, 0x06, 0x01, 0x05, 0x05, 0x07, 48, 2);

/// id-ad-caRepository, 1.3.6.1.5.5.7.48.5 (RFC 5280 4.2.2.2).
pub(crate) const CA_REPOSITORY: ObjectIdentifier = oid!(0x2B, 0x06, 0x01, 0x05, 0x05, 0x07, 48, 5);

/// id-ad-ocsp, 1.3.6.1.5.5.7.48.1 (RFC 6960 3.1).
pub(crate) const OCSP: ObjectIdentifier = oid!(0x2B, 0x06, 0x01, 0x05, 0x05, 0x07, 48, 1);

/// keyCompromise (1) to aACompromise (8), as a set of bits (RFC 5280 4.2.1.13).
const ALL_REASONS: u16 = 510;

/// What may be wrong with a distribution point (RFC 5280 4.2.1.13, 5.2.6).
#[derive(Clone, Copy)]
pub(crate) enum PointFault {
    /// Its name is relative to the issuer of the CRL.
    Relative,

    /// Its name is relative to a cRLIssuer of two names or more.
    RelativeToSeveral,

    /// Its name has no HTTP or LDAP URI.
    NoUri,

    /// Its cRLIssuer has a name that isn't a directoryName.
    OtherIssuer,

    /// It has reasons or a cRLIssuer.
    ReasonsOrIssuer,

    /// An LDAP URI of its name has no dn, or not one attribute description.
    LdapIncomplete,

    /// An LDAP URI of its name has no host.
    LdapWithoutHost,

    /// A list of names, its own or its cRLIssuer's, is there and has none.
    NoNames,

    /// A URI of its name isn't one.
    UriInvalid,
}

fn is_letter_at(text: &[u8], at: usize, upper: u8, lower: u8) -> bool
    ensures { result ≡ place.is_letter_at text.now at upper lower }
{
    passes!(text.get(at), octet => *octet == upper || *octet == lower)
}

fn is_colon_at(text: &[u8], at: usize) -> bool
    ensures { result ≡ place.is_colon_at text.now at }
{
    passes!(text.get(at), octet => *octet == b':')
}

fn is_http(text: &[u8]) -> bool
    ensures { result ≡ place.is_http text.now }
{
    is_letter_at(text, 0, b'H', b'h')
        && (is_letter_at(text, 1, b'T', b't')
            && (is_letter_at(text, 2, b'T', b't')
                && (is_letter_at(text, 3, b'P', b'p') && is_colon_at(text, 4))))
}

fn is_ldap(text: &[u8]) -> bool
    ensures { result ≡ place.is_ldap text.now }
{
    is_letter_at(text, 0, b'L', b'l')
        && (is_letter_at(text, 1, b'D', b'd')
            && (is_letter_at(text, 2, b'A', b'a')
                && (is_letter_at(text, 3, b'P', b'p') && is_colon_at(text, 4))))
}

/// That a name is an HTTP or an LDAP URI.
struct Web;

impl Test<GeneralName> for Web {
    ghost use Rattle.x509_lint.specs.Place.{is_web};

    ghost holds_of = { λ test. is_web };

    fn holds_of(&self, name: &GeneralName) -> bool {
        match name {
            GeneralName::UniformResourceIdentifier(text) => {
                let text = text.as_str().as_bytes();
                is_http(text) || is_ldap(text)
            }
            _ => false,
        }
    }
}

/// That a name is an LDAP URI without a dn, or without one attribute description.
struct IncompleteEntry;

impl Test<GeneralName> for IncompleteEntry {
    ghost use Rattle.x509_lint.specs.Place.{is_incomplete_entry};

    ghost holds_of = { λ test. is_incomplete_entry };

    fn holds_of(&self, name: &GeneralName) -> bool {
        match name {
            GeneralName::UniformResourceIdentifier(text) => {
                let text = text.as_str().as_bytes();
                is_ldap(text) && !(has_dn(text) && has_one_attribute(text))
            }
            _ => false,
        }
    }
}

/// That a name is an LDAP URI without a dn, or without attribute descriptions.
struct IncompleteSearch;

impl Test<GeneralName> for IncompleteSearch {
    ghost use Rattle.x509_lint.specs.Place.{is_incomplete_search};

    ghost holds_of = { λ test. is_incomplete_search };

    fn holds_of(&self, name: &GeneralName) -> bool {
        match name {
            GeneralName::UniformResourceIdentifier(text) => {
                let text = text.as_str().as_bytes();
                is_ldap(text) && !(has_dn(text) && has_attributes(text))
            }
            _ => false,
        }
    }
}

/// That a name is an LDAP URI without a host.
struct WithoutHost;

impl Test<GeneralName> for WithoutHost {
    ghost use Rattle.x509_lint.specs.Place.{is_without_host};

    ghost holds_of = { λ test. is_without_host };

    fn holds_of(&self, name: &GeneralName) -> bool {
        match name {
            GeneralName::UniformResourceIdentifier(text) => {
                let text = text.as_str().as_bytes();
                is_ldap(text) && !has_ldap_host(text)
            }
            _ => false,
        }
    }
}

/// That a name is in the place of a URI, and isn't one.
struct OtherUri;

impl Test<GeneralName> for OtherUri {
    ghost use Rattle.x509_lint.specs.Place.{is_other_uri};

    ghost holds_of = { λ test. is_other_uri };

    fn holds_of(&self, name: &GeneralName) -> bool {
        match name {
            GeneralName::UniformResourceIdentifier(text) => !is_any_uri(text.as_str().as_bytes()),
            _ => false,
        }
    }
}

/// That a name is in the form of a URI.
struct UriName;

impl Test<GeneralName> for UriName {
    ghost use Rattle.x509_lint.specs.Place.{is_uri_name};

    ghost holds_of = { λ test. is_uri_name };

    fn holds_of(&self, name: &GeneralName) -> bool {
        match name {
            GeneralName::UniformResourceIdentifier(_) => true,
            _ => false,
        }
    }
}

/// Whether the name is there, and one of its general names passes.
fn has_name<P: Test<GeneralName>>(test: &P, name: &Option<DistributionPointName>) -> bool
    ensures { result ≡ passes (λ n. place.has_name (P.holds_of test.now) n) name.now }
{
    match name {
        Some(DistributionPointName::FullName(names)) => any_of(test, names.as_slice()),
        Some(DistributionPointName::NameRelativeToCRLIssuer(_)) => false,
        None => false,
    }
}

/// Whether the name is there, and has no general name or no attribute.
fn has_no_names(name: &Option<DistributionPointName>) -> bool
    ensures { result ≡ passes place.has_no_names name.now }
{
    match name {
        Some(DistributionPointName::FullName(names)) => names.as_slice().is_empty(),
        Some(DistributionPointName::NameRelativeToCRLIssuer(rdn)) => rdn.len() == 0,
        None => false,
    }
}

fn is_relative(name: &Option<DistributionPointName>) -> bool
    ensures { result ≡ passes place.is_relative_name name.now }
{
    match name {
        Some(DistributionPointName::NameRelativeToCRLIssuer(_)) => true,
        Some(DistributionPointName::FullName(_)) => false,
        None => false,
    }
}

fn is_without_uri(name: &Option<DistributionPointName>) -> bool
    ensures { result ≡ passes place.is_name_without_uri name.now }
{
    match name {
        Some(DistributionPointName::FullName(names)) => !any_of(&Web, names.as_slice()),
        Some(DistributionPointName::NameRelativeToCRLIssuer(_)) => false,
        None => false,
    }
}

/// That a name isn't a directoryName.
struct NoDirectoryName;

impl Test<GeneralName> for NoDirectoryName {
    ghost use Rattle.x509_lint.specs.Place.{is_no_directory_name};

    ghost holds_of = { λ test. is_no_directory_name };

    fn holds_of(&self, name: &GeneralName) -> bool {
        match name {
            GeneralName::DirectoryName(_) => false,
            _ => true,
        }
    }
}

impl Test<DistributionPoint> for PointFault {
    ghost use Rattle.x509_lint.specs.Place.{is_faulty_point};

    ghost holds_of = { is_faulty_point };

    fn holds_of(&self, point: &DistributionPoint) -> bool {
        match self {
            PointFault::Relative => is_relative(&point.distribution_point),
            PointFault::RelativeToSeveral => {
                is_relative(&point.distribution_point)
                    && passes!(&point.crl_issuer, names => names.as_slice().len() > 1)
            }
            PointFault::NoUri => is_without_uri(&point.distribution_point),
            PointFault::OtherIssuer =>
                passes!(&point.crl_issuer, names => any_of(&NoDirectoryName, names.as_slice())),
            PointFault::ReasonsOrIssuer => point.reasons.is_some() || point.crl_issuer.is_some(),
            PointFault::LdapIncomplete => has_name(&IncompleteEntry, &point.distribution_point),
            PointFault::LdapWithoutHost => has_name(&WithoutHost, &point.distribution_point),
            PointFault::NoNames => {
                has_no_names(&point.distribution_point) || is_empty_sequence(&point.crl_issuer)
            }
            PointFault::UriInvalid => has_name(&OtherUri, &point.distribution_point),
        }
    }
}

/// Whether a point has the fault.
pub(crate) fn has_fault(fault: PointFault, points: &[DistributionPoint]) -> bool
    ensures { result ≡ list_any (place.is_faulty_point fault) points.now }
{
    any_of(&fault, points)
}

/// That a point has reasons, and some reason isn't among them.
struct Partial;

impl Test<DistributionPoint> for Partial {
    ghost use Rattle.x509_lint.specs.Place.{is_partial_point};

    ghost holds_of = { λ test. is_partial_point };

    fn holds_of(&self, point: &DistributionPoint) -> bool {
        passes!(&point.reasons, reasons => reasons.bits() & ALL_REASONS != ALL_REASONS)
    }
}

/// Whether there are points, and none is one of a CRL that covers all reasons.
pub(crate) fn are_partial(points: &[DistributionPoint]) -> bool
    ensures { result ≡ place.are_partial points.now }
{
    !points.is_empty() && all_of(&Partial, points)
}

/// That a general name is this name.
#[derive(Clone, Copy)]
struct ThisName<'a>(&'a Name);

impl Test<GeneralName> for ThisName<'_> {
    ghost use Rattle.x509_lint.specs.Place.{is_this_name};

    ghost holds_of = { λ test. is_this_name test.0.now };

    fn holds_of(&self, other: &GeneralName) -> bool {
        match other {
            GeneralName::DirectoryName(other) => other == self.0,
            _ => false,
        }
    }
}

/// That the cRLIssuer of a point has this name.
#[derive(Clone, Copy)]
struct PointOf<'a>(&'a Name);

impl Test<DistributionPoint> for PointOf<'_> {
    ghost use Rattle.x509_lint.specs.Place.{is_point_of};

    ghost holds_of = { λ test. is_point_of test.0.now };

    fn holds_of(&self, point: &DistributionPoint) -> bool {
        passes!(&point.crl_issuer, names => any_of(&ThisName(self.0), names.as_slice()))
    }
}

/// Whether the cRLIssuer of a point has the name.
pub(crate) fn has_point_of(name: &Name, points: &[DistributionPoint]) -> bool
    ensures { result ≡ list_any (place.is_point_of name.now) points.now }
{
    any_of(&PointOf(name), points)
}

fn has_method(method: ObjectIdentifier, mut descriptions: &[AccessDescription]) -> bool
    ensures { result ≡ place.has_method method descriptions.entry.now }
{
    while let [first, rest @ ..] = descriptions {
        if first.access_method == method {
            return true;
        }
        descriptions = rest;
    }
    false
}

/// Whether the place of a description of the method passes.
fn has_place<P: Test<GeneralName>>(
    test: &P,
    method: ObjectIdentifier,
    mut descriptions: &[AccessDescription],
) -> bool
    ensures { result ≡ place.has_place (P.holds_of test.now) method descriptions.entry.now }
{
    while let [first, rest @ ..] = descriptions {
        if first.access_method == method && test.holds_of(&first.access_location) {
            return true;
        }
        descriptions = rest;
    }
    false
}

/// Whether there are descriptions of the method, and none has an HTTP or LDAP URI.
pub(crate) fn lacks_uri(method: ObjectIdentifier, descriptions: &[AccessDescription]) -> bool
    ensures { result ≡ place.lacks_uri method descriptions.now }
{
    has_method(method, descriptions) && !has_place(&Web, method, descriptions)
}

/// Whether a description of the method has an LDAP URI without a dn, or without attribute descriptions.
pub(crate) fn has_incomplete_search(
    method: ObjectIdentifier,
    descriptions: &[AccessDescription],
) -> bool
    ensures { result ≡ place.has_place place.is_incomplete_search method descriptions.now }
{
    has_place(&IncompleteSearch, method, descriptions)
}

/// Whether a description of the method has an LDAP URI without a host.
pub(crate) fn has_place_without_host(
    method: ObjectIdentifier,
    descriptions: &[AccessDescription],
) -> bool
    ensures { result ≡ place.has_place place.is_without_host method descriptions.now }
{
    has_place(&WithoutHost, method, descriptions)
}

/// Whether there are descriptions of the method, and none has a URI.
pub(crate) fn lacks_any_uri(method: ObjectIdentifier, descriptions: &[AccessDescription]) -> bool
    ensures { result ≡ place.lacks_any_uri method descriptions.now }
{
    has_method(method, descriptions) && !has_place(&UriName, method, descriptions)
}

/// That a description has something in the place of a URI that isn't one.
struct OtherLocation;

impl Test<AccessDescription> for OtherLocation {
    ghost use Rattle.x509_lint.specs.Place.{is_other_uri};

    ghost holds_of = { λ test description. is_other_uri description.access_location };

    fn holds_of(&self, description: &AccessDescription) -> bool {
        OtherUri.holds_of(&description.access_location)
    }
}

/// Whether a description has something in the place of a URI that isn't one.
pub(crate) fn has_other_uri(descriptions: &[AccessDescription]) -> bool
    ensures { result ≡ list_any (λ d. place.is_other_uri d.access_location) descriptions.now }
{
    any_of(&OtherLocation, descriptions)
}

fn is_other_among(method: ObjectIdentifier, mut descriptions: &[AccessDescription]) -> bool
    ensures { result ≡ list_any (λ d. not (bytes_eq d.access_method method)) descriptions.entry.now }
{
    while let [first, rest @ ..] = descriptions {
        if first.access_method != method {
            return true;
        }
        descriptions = rest;
    }
    false
}

/// Whether there is no description, or one of another method.
pub(crate) fn has_other_method(method: ObjectIdentifier, descriptions: &[AccessDescription]) -> bool
    ensures { result ≡ place.has_other_method method descriptions.now }
{
    descriptions.is_empty() || is_other_among(method, descriptions)
}
