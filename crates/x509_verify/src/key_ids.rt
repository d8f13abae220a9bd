//! The identifiers of keys that a certificate names. What can't be read names none.

use x509_check::CertificateRef;
use x509_der::{AssociatedOid, ObjectIdentifier, take_element};
use x509_ext::pkix::{AuthorityKeyIdentifier, SubjectKeyIdentifier};

/// The identifier octet of `keyIdentifier [0] IMPLICIT KeyIdentifier`.
const KEY_IDENTIFIER: u8 = 0x80;

/// The octets of the one extension with the OID, if there is one.
fn octets_of<'a>(certificate: &CertificateRef<'a>, oid: ObjectIdentifier) -> Option<&'a [u8]> {
    match certificate.extensions().find_extension(oid) {
        Ok(Some(extension)) => Some(extension.extn_value),
        _ => None,
    }
}

/// The identifier of the certificate's key: its SubjectKeyIdentifier (RFC 5280 4.2.1.2).
pub(crate) fn key_id_of<'a>(certificate: &CertificateRef<'a>) -> Option<&'a [u8]> {
    let octets = octets_of(certificate, SubjectKeyIdentifier::OID)?;
    match take_element(octets) {
        Ok((identifier, _)) => Some(identifier.value()),
        Err(_) => None,
    }
}

/// The identifier of its issuer's key: `keyIdentifier`, the first field of its AuthorityKeyIdentifier (4.2.1.1).
pub(crate) fn issuer_key_id_of<'a>(certificate: &CertificateRef<'a>) -> Option<&'a [u8]> {
    let octets = octets_of(certificate, AuthorityKeyIdentifier::OID)?;
    let Ok((fields, _)) = take_element(octets) else {
        return None;
    };
    let Ok((first, _)) = take_element(fields.value()) else {
        return None;
    };
    if first.tag().octet() == KEY_IDENTIFIER {
        Some(first.value())
    } else {
        None
    }
}
