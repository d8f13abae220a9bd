//! Of whom the rules speak.

ghost use Rattle.std.specs.List.{list_any};
ghost use Rattle.std.specs.Prelude.{◌≡◌, bytes_eq, not};
ghost use Rattle.x509_lint.specs.Key.{is_self_issued};
ghost use Rattle.x509_lint.specs.Words.{passes};
ghost use Rattle.x509_lint_web.specs.Words as words;

use crate::values::WebValues;
use x509_base::Raw;
use x509_cert::certificate::CertificateInner;
use x509_der::{ObjectIdentifier, oid};
use x509_ext::pkix::{AuthorityKeyIdentifier, ExtendedKeyUsage};
use x509_lint::extensions::{extensions_of, has};
use x509_lint::lists::{Test, any_of};
use x509_lint::{AnyBasicConstraints, passes};

/// id-kp-serverAuth, 1.3.6.1.5.5.7.3.1 (RFC 5280 4.2.1.12).
pub(crate) const SERVER_AUTH: ObjectIdentifier = oid!(0x2B, 0x06, 0x01, 0x05, 0x05, 0x07, 3, 1);

/// id-kp-OCSPSigning, 1.3.6.1.5.5.7.3.9 (RFC 6960 4.2.2.2).
pub(crate) const OCSP_SIGNING: ObjectIdentifier = oid!(0x2B, 0x06, 0x01, 0x05, 0x05, 0x07, 3, 9);

/// Whether the issuer is the subject.
pub(crate) fn is_self_issued(certificate: &CertificateInner<Raw>) -> bool
    ensures { result ≡ is_self_issued certificate.now }
{
    let part = certificate.tbs_certificate();
    part.subject() == part.issuer()
}

/// Whether cA is set.
pub(crate) fn is_authority(values: &WebValues) -> bool
    ensures { result ≡ words.is_authority values.now }
{
    passes!(&values.basic_constraints, constraints => constraints.ca)
}

fn is_leaf(certificate: &CertificateInner<Raw>, values: &WebValues) -> bool
    ensures { result ≡ words.is_leaf certificate.now values.now }
{
    !has::<AnyBasicConstraints>(extensions_of(certificate))
        || passes!(&values.basic_constraints, constraints => !constraints.ca)
}

/// Whether the EKU is read, and has the purpose.
pub(crate) fn has_purpose(oid: ObjectIdentifier, usage: &Option<ExtendedKeyUsage>) -> bool
    ensures { result ≡ passes (λ u. list_any (λ purpose. bytes_eq purpose oid) u.0) usage.now }
{
    passes!(usage, usage => usage.0.as_slice().contains(&oid))
}

/// That a purpose is another one than this.
#[derive(Clone, Copy)]
struct OtherThan(ObjectIdentifier);

impl Test<ObjectIdentifier> for OtherThan {
    ghost use Rattle.std.specs.Prelude.{bytes_eq, not};

    ghost holds_of = { λ test purpose. not (bytes_eq purpose test.0) };

    fn holds_of(&self, purpose: &ObjectIdentifier) -> bool {
        *purpose != self.0
    }
}

/// Whether the EKU is read, and has another purpose.
pub(crate) fn has_other_purpose(oid: ObjectIdentifier, usage: &Option<ExtendedKeyUsage>) -> bool
    ensures { result ≡ passes (λ u. list_any (λ purpose. not (bytes_eq purpose oid)) u.0) usage.now }
{
    passes!(usage, usage => any_of(&OtherThan(oid), usage.0.as_slice()))
}

fn may_serve(certificate: &CertificateInner<Raw>, values: &WebValues) -> bool
    ensures { result ≡ words.may_serve certificate.now values.now }
{
    !has::<ExtendedKeyUsage>(extensions_of(certificate))
        || has_purpose(SERVER_AUTH, &values.extended_key_usage)
}

/// Whether it is the certificate of a TLS server.
pub(crate) fn is_server(certificate: &CertificateInner<Raw>, values: &WebValues) -> bool
    ensures { result ≡ words.is_server certificate.now values.now }
{
    is_leaf(certificate, values) && may_serve(certificate, values)
}

/// Whether it is one of an authority that may stand above a TLS server's.
pub(crate) fn is_above_servers(certificate: &CertificateInner<Raw>, values: &WebValues) -> bool
    ensures { result ≡ words.is_above_servers certificate.now values.now }
{
    is_authority(values) && may_serve(certificate, values)
}

/// Whether the AKI tells another key than the one of these octets.
fn tells_another(key: &[u8], issuer: &AuthorityKeyIdentifier) -> bool
    ensures { result ≡ words.tells_another key.now issuer.now }
{
    passes!(&issuer.key_identifier, identifier => identifier.as_bytes() != key)
}

/// Whether the AKI is read, and tells another key than the one of these octets.
fn is_told_another(key: &[u8], issuer: &Option<AuthorityKeyIdentifier>) -> bool
    ensures { result ≡ passes (words.tells_another key.now) issuer.now }
{
    passes!(issuer, issuer => tells_another(key, issuer))
}

fn is_of_another_key(values: &WebValues) -> bool
    ensures { result ≡ words.is_of_another_key values.now }
{
    passes!(&values.subject_key_identifier, key => is_told_another(key.0.as_bytes(), &values.authority_key_identifier))
}

/// Whether it is one of a root above TLS servers.
pub(crate) fn is_root(certificate: &CertificateInner<Raw>, values: &WebValues) -> bool
    ensures { result ≡ words.is_root certificate.now values.now }
{
    is_above_servers(certificate, values)
        && (is_self_issued(certificate) && !is_of_another_key(values))
}

/// Whether it is one of an authority that may stand above a TLS server's and has another issuer.
pub(crate) fn is_subordinate(certificate: &CertificateInner<Raw>, values: &WebValues) -> bool
    ensures { result ≡ words.is_subordinate certificate.now values.now }
{
    is_above_servers(certificate, values) && !is_self_issued(certificate)
}

/// Whether it is the certificate of an OCSP responder.
pub(crate) fn is_responder(certificate: &CertificateInner<Raw>, values: &WebValues) -> bool
    ensures { result ≡ words.is_responder certificate.now values.now }
{
    is_leaf(certificate, values)
        && (has_purpose(OCSP_SIGNING, &values.extended_key_usage)
            && !has_purpose(SERVER_AUTH, &values.extended_key_usage))
}
