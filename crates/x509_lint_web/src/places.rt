//! What is asked of places where CRLs, certificates and responders are found, and of the AKI.

ghost use Rattle.std.specs.List.{list_any};
ghost use Rattle.std.specs.Prelude.{◌≡◌, not};
ghost use Rattle.x509_lint.specs.Words.{passes};
ghost use Rattle.x509_lint_web.specs.Field as field;
ghost use Rattle.x509_lint_web.specs.Policy as policy;

use crate::names::is_http_name;
use crate::values::WebValues;
use x509_base::Raw;
use x509_cert::certificate::CertificateInner;
use x509_der::{ObjectIdentifier, oid};
use x509_ext::pkix::crl::dp::DistributionPoint;
use x509_ext::pkix::name::{DistributionPointName, GeneralName};
use x509_ext::pkix::{
    AccessDescription, AuthorityInfoAccessSyntax, AuthorityKeyIdentifier, CrlDistributionPoints,
};
use x509_lint::extensions::{extensions_of, has};
use x509_lint::lists::{Test, all_of, any_of};
use x509_lint::passes;

/// id-ad-ocsp, 1.3.6.1.5.5.7.48.1 (RFC 5280 4.2.2.1).
const OCSP: ObjectIdentifier = oid!(0x2B, 0x06, 0x01, 0x05, 0x05, 0x07, 48, 1);

/// id-ad-caIssuers, 1.3.6.1.5.5.7.48.2.
const CA_ISSUERS: ObjectIdentifier = oid!(0x2B, 0x06, 0x01, 0x05, 0x05, 0x07, 48, 2);

/// Whether the AKI is read, and has an authorityCertIssuer or an authorityCertSerialNumber.
pub(crate) fn has_issuer(identifier: &Option<AuthorityKeyIdentifier>) -> bool
    ensures { result ≡ passes field.has_issuer identifier.now }
{
    match identifier {
        Some(identifier) => {
            identifier.authority_cert_issuer.is_some()
                || identifier.authority_cert_serial_number.is_some()
        }
        None => false,
    }
}

/// That a name is an HTTP URI.
struct HttpName;

impl Test<GeneralName> for HttpName {
    ghost use Rattle.x509_lint_web.specs.Words.{is_http_name};

    ghost holds_of = { λ test. is_http_name };

    fn holds_of(&self, name: &GeneralName) -> bool {
        is_http_name(name)
    }
}

fn is_http_full_name(name: &Option<DistributionPointName>) -> bool
    ensures { result ≡ passes field.is_http_full_name name.now }
{
    match name {
        Some(DistributionPointName::FullName(names)) => {
            !names.as_slice().is_empty() && all_of(&HttpName, names.as_slice())
        }
        Some(DistributionPointName::NameRelativeToCRLIssuer(_)) => false,
        None => false,
    }
}

/// That a point has no full name, or one with a name that isn't an HTTP URI.
pub(crate) struct WithoutHttp;

impl Test<DistributionPoint> for WithoutHttp {
    ghost use Rattle.x509_lint_web.specs.Field.{is_without_http};

    ghost holds_of = { λ test. is_without_http };

    fn holds_of(&self, point: &DistributionPoint) -> bool {
        !is_http_full_name(&point.distribution_point)
    }
}

/// That a point has reasons or a cRLIssuer.
pub(crate) struct Partial;

impl Test<DistributionPoint> for Partial {
    ghost use Rattle.x509_lint_web.specs.Field.{is_partial};

    ghost holds_of = { λ test. is_partial };

    fn holds_of(&self, point: &DistributionPoint) -> bool {
        point.reasons.is_some() || point.crl_issuer.is_some()
    }
}

/// That the method of a description is neither id-ad-ocsp nor id-ad-caIssuers.
pub(crate) struct OtherMethod;

impl Test<AccessDescription> for OtherMethod {
    ghost use Rattle.x509_lint_web.specs.Policy.{has_other_method};

    ghost holds_of = { λ test. has_other_method };

    fn holds_of(&self, description: &AccessDescription) -> bool {
        description.access_method != OCSP && description.access_method != CA_ISSUERS
    }
}

/// That the location of a description isn't an HTTP URI.
struct OtherLocation;

impl Test<AccessDescription> for OtherLocation {
    ghost use Rattle.x509_lint_web.specs.Policy.{has_other_location};

    ghost holds_of = { λ test. has_other_location };

    fn holds_of(&self, description: &AccessDescription) -> bool {
        !is_http_name(&description.access_location)
    }
}

/// Whether the descriptions are read, and the location of one isn't an HTTP URI.
pub(crate) fn have_other_location(descriptions: &Option<AuthorityInfoAccessSyntax>) -> bool
    ensures { result ≡ passes (λ a. list_any policy.has_other_location a.0) descriptions.now }
{
    passes!(descriptions, descriptions => any_of(&OtherLocation, descriptions.0.as_slice()))
}

/// That a description is one of an OCSP responder.
struct Ocsp;

impl Test<AccessDescription> for Ocsp {
    ghost use Rattle.x509_lint_web.specs.Policy.{is_ocsp};

    ghost holds_of = { λ test. is_ocsp };

    fn holds_of(&self, description: &AccessDescription) -> bool {
        description.access_method == OCSP
    }
}

/// Whether the descriptions are read, and none is for OCSP.
pub(crate) fn are_without_ocsp(descriptions: &Option<AuthorityInfoAccessSyntax>) -> bool
    ensures { result ≡ passes (λ a. not (list_any policy.is_ocsp a.0)) descriptions.now }
{
    passes!(descriptions, descriptions => !any_of(&Ocsp, descriptions.0.as_slice()))
}

/// Whether the certificate says no place where it is told whether it is revoked.
pub(crate) fn is_without_revocation(certificate: &CertificateInner<Raw>, values: &WebValues) -> bool
    ensures { result ≡ policy.is_without_revocation certificate.now values.now }
{
    let extensions = extensions_of(certificate);
    !has::<CrlDistributionPoints>(extensions)
        && (!has::<AuthorityInfoAccessSyntax>(extensions)
            || are_without_ocsp(&values.authority_info_access))
}
