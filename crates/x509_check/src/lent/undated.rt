//! Entries of CRLs whose dates aren't decoded, lent from their bytes.

ghost use Rattle.std.specs.Prelude.{◌≤◌, length, IsOk};
ghost use Rattle.x509_cert.specs.RevokedCert.{revoked_cert_contents};
ghost use Rattle.x509_der.specs.Element.{limit};

use crate::element::next_element;
use crate::lent::entry::{RevokedCertRef, known_content, known_extensions};
use crate::lent::extensions::ExtensionRefs;
use std::marker::PhantomData;
use x509_base::{Profile, Rfc5280};
use x509_der::Tag;

/// An entry of a checked CRL (RFC 5280 5.1.2.6), lent as [`RevokedCertRef`] is, whose date isn't decoded.
#[derive(Debug, Drop)]
pub struct UndatedCertRef<'a, P: Profile = Rfc5280> {
    /// The content octets of the serial number that the issuer gave the certificate.
    pub serial_number: &'a [u8],

    /// The extensions of the entry, such as the reason for which the certificate was revoked.
    pub crl_entry_extensions: Option<ExtensionRefs<'a>>,

    octets: &'a [u8],
    profile: PhantomData<P>,
    ghost within: { length octets.now ≤ limit },
    ghost known: { IsOk ((revoked_cert_contents {P = P} P.serial_check).reading octets.now) },
}

impl<'a, P: Profile> UndatedCertRef<'a, P> {
    ghost use Rattle.std.specs.Prelude.{◌≡◌, ◌≤◌, length, IsOk, Ok};
    ghost use Rattle.x509_cert.specs.RevokedCert.{revoked_cert_contents};
    ghost use Rattle.x509_cert.specs.declared.crl.revoked_cert.RevokedCert as revoked;
    ghost use Rattle.x509_check.specs.CrlRefs.{IsUndated, lent_entry};
    ghost use Rattle.x509_der.specs.Element.{limit};

    /// The entry of which these are the content octets, as is known. Its date is passed over.
    #[inline(always)]
    pub(crate) fn of_content(octets: &'a [u8]) -> UndatedCertRef<'a, P>
        requires within { length octets.now ≤ limit }
        requires known { IsOk ((revoked_cert_contents {P = P} P.serial_check).reading octets.now) }
        ensures { (entry : revoked.RevokedCert P) → (revoked_cert_contents {P = P} P.serial_check).reading octets.now ≡ Ok entry
            → IsUndated P.serial_check result.octets.now result.serial_number.now result.crl_entry_extensions entry }
    {
        let Ok(number) = next_element(octets, Tag::Integer) else {
            unreachable!()
        };
        let Ok(date) = next_element(number.rest, Tag::UtcTime) else {
            unreachable!()
        };
        UndatedCertRef {
            serial_number: number.content,
            crl_entry_extensions: known_extensions(date.rest),
            octets,
            profile: PhantomData,
        }
    }

    /// The entry with its date.
    pub fn dated(&self) -> RevokedCertRef<'a>
        ensures { (entry : revoked.RevokedCert P) → (revoked_cert_contents {P = P} P.serial_check).reading self.now.octets.now ≡ Ok entry
            → lent_entry result ≡ entry }
    {
        known_content::<P>(self.octets)
    }
}
