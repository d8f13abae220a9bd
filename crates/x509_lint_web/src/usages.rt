//! What is asked of purposes, and of the bits of key usage.

ghost use Rattle.std.specs.List.{list_any};
ghost use Rattle.std.specs.Prelude.{◌≡◌};
ghost use Rattle.x509_lint.specs.Words.{passes};
ghost use Rattle.x509_lint_web.specs.Usage as grammar;

use crate::scope::{OCSP_SIGNING, SERVER_AUTH};
use x509_der::{ObjectIdentifier, oid};
use x509_ext::pkix::{ExtendedKeyUsage, KeyUsage};
use x509_lint::lists::{Test, any_of};
use x509_lint::passes;

/// id-kp-clientAuth, 1.3.6.1.5.5.7.3.2 (RFC 5280 4.2.1.12).
const CLIENT_AUTH: ObjectIdentifier = oid!(0x2B, 0x06, 0x01, 0x05, 0x05, 0x07, 3, 2);

/// id-kp-codeSigning, 1.3.6.1.5.5.7.3.3.
const CODE_SIGNING: ObjectIdentifier = oid!(0x2B, 0x06, 0x01, 0x05, 0x05, 0x07, 3, 3);

/// id-kp-emailProtection, 1.3.6.1.5.5.7.3.4.
const EMAIL_PROTECTION: ObjectIdentifier = oid!(0x2B, 0x06, 0x01, 0x05, 0x05, 0x07, 3, 4);

/// id-kp-timeStamping, 1.3.6.1.5.5.7.3.8.
const TIME_STAMPING: ObjectIdentifier = oid!(0x2B, 0x06, 0x01, 0x05, 0x05, 0x07, 3, 8);

/// anyExtendedKeyUsage, 2.5.29.37.0.
pub(crate) const ANY_EXTENDED_KEY_USAGE: ObjectIdentifier = oid!(0x55, 0x1D, 37, 0);

/// That of certificates that sign precertificates, 1.3.6.1.4.1.11129.2.4.4 (RFC 6962 3.1).
pub(crate) const PRECERTIFICATE_SIGNING: ObjectIdentifier = oid!(
    0x2B, 0x06, 0x01, 0x04, 0x01, 0xD6, 0x79, 0x02, 0x04, 0x04
);

fn is_forbidden(purpose: ObjectIdentifier) -> bool
    ensures { result ≡ grammar.is_forbidden purpose }
{
    purpose == CODE_SIGNING
        || (purpose == EMAIL_PROTECTION
            || (purpose == TIME_STAMPING
                || (purpose == OCSP_SIGNING
                    || (purpose == ANY_EXTENDED_KEY_USAGE || purpose == PRECERTIFICATE_SIGNING))))
}

fn is_other_purpose(purpose: ObjectIdentifier) -> bool
    ensures { result ≡ grammar.is_other_purpose purpose }
{
    purpose != SERVER_AUTH && (purpose != CLIENT_AUTH && !is_forbidden(purpose))
}

/// That a purpose is one that TLS servers and authorities above them must not have.
pub(crate) struct ForbiddenPurpose;

impl Test<ObjectIdentifier> for ForbiddenPurpose {
    ghost use Rattle.x509_lint_web.specs.Usage.{is_forbidden};

    ghost holds_of = { λ test. is_forbidden };

    fn holds_of(&self, purpose: &ObjectIdentifier) -> bool {
        is_forbidden(*purpose)
    }
}

/// That a purpose is neither serverAuth nor clientAuth, nor one that is forbidden.
pub(crate) struct OtherPurpose;

impl Test<ObjectIdentifier> for OtherPurpose {
    ghost use Rattle.x509_lint_web.specs.Usage.{is_other_purpose};

    ghost holds_of = { λ test. is_other_purpose };

    fn holds_of(&self, purpose: &ObjectIdentifier) -> bool {
        is_other_purpose(*purpose)
    }
}

/// Whether the EKU is read, and has a purpose that TLS servers and authorities above them must not have.
pub(crate) fn has_forbidden_purpose(usage: &Option<ExtendedKeyUsage>) -> bool
    ensures { result ≡ passes (λ u. list_any grammar.is_forbidden u.0) usage.now }
{
    passes!(usage, usage => any_of(&ForbiddenPurpose, usage.0.as_slice()))
}

/// Whether nonRepudiation, encipherOnly or decipherOnly is set.
pub(crate) fn is_not_of_servers(usage: &KeyUsage) -> bool
    ensures { result ≡ grammar.is_not_of_servers usage.now }
{
    usage.non_repudiation() || (usage.encipher_only() || usage.decipher_only())
}

pub(crate) fn has_bit_not_of_ec(usage: &KeyUsage) -> bool
    ensures { result ≡ grammar.is_not_of_ec usage.now }
{
    is_not_of_servers(usage) || (usage.key_encipherment() || usage.data_encipherment())
}

/// Whether keyCertSign or cRLSign is set.
pub(crate) fn signs_as_authority(usage: &KeyUsage) -> bool
    ensures { result ≡ grammar.signs_as_authority usage.now }
{
    usage.key_cert_sign() || usage.crl_sign()
}
