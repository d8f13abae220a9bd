//! An entry of a CRL.

ghost use Rattle.std.specs.Prelude.{◌≡◌};
ghost use Rattle.x509_ext.specs.Filter.{extensions_left};
ghost use Rattle.x509_ext.specs.LookUp.{Finds, members, with_oid};

use std::alloc::Global;
use std::cmp::Ordering;
use x509_base::{Profile, Rfc5280, SerialNumber, Time};
use x509_der::{
    AssociatedOid, CmpPart, Content, Decode, EncodingOrd, Error, PutPart, Room, SetMember, SetOrd,
    Spelled, Tag, TryClone, ValueOrd, both, both_optional, end, option_has_spelling, optional,
    read_field, read_optional,
};
use x509_ext::{Extensions, FilterExtensions, filter_extensions, get_extension, members};

/// An entry of a CRL: a certificate that was revoked (RFC 5280 5.1.2.6). Decoding asks the profile whether the serial
/// number is allowed. The date is encoded as it is.
///
/// ```text
/// RevokedCert ::= SEQUENCE {
///     userCertificate     CertificateSerialNumber,
///     revocationDate      Time,
///     crlEntryExtensions  Extensions OPTIONAL }
/// ```
#[derive(Debug, PartialEq, Eq)]
pub struct RevokedCert<P: Profile = Rfc5280> {
    /// The serial number that the issuer gave the certificate.
    pub serial_number: SerialNumber<P>,

    /// When it was revoked.
    pub revocation_date: Time,

    /// The extensions of the entry, such as the reason for which the certificate was revoked.
    pub crl_entry_extensions: Option<Extensions>,
}

impl<P: Profile> RevokedCert<P> {
    /// The entry's extension of type `T`, found by the OID of the type: whether it is critical, and its value; `None`
    /// exactly where no extension has the OID.
    ///
    /// # Errors
    ///
    /// `Failed` where two or more extensions have the OID (a repeated extension), whatever they hold; where one has it,
    /// the errors of [`Decode::from_der`] on the octets that it holds.
    pub fn get_extension<T: AssociatedOid + Decode>(
        &self,
        alloc: Global,
    ) -> Result<Option<(bool, T)>, Error>
        ensures { Finds T.form T.refuses T.wants_memory (with_oid T.OID (members self.now.crl_entry_extensions)) result }
    {
        get_extension(alloc, members(self.crl_entry_extensions.as_ref()))
    }

    /// The entry's extensions of type `T`, found by the OID of the type, in their order.
    pub fn filter_extensions<T: AssociatedOid + Decode>(
        &self,
        alloc: Global,
    ) -> FilterExtensions<'_, T>
        ensures { extensions_left T.OID result ≡ with_oid T.OID (members self.now.crl_entry_extensions) }
    {
        filter_extensions(alloc, members(self.crl_entry_extensions.as_ref()))
    }
}

impl<P: Profile> Drop for RevokedCert<P> {
    fn drop(self) {
        let RevokedCert {
            serial_number: _,
            revocation_date: _,
            crl_entry_extensions: _,
        } = self;
    }
}

impl<P: Profile> TryClone for RevokedCert<P> {
    fn try_clone(&self, alloc: Global) -> Result<RevokedCert<P>, Error> {
        Ok(RevokedCert {
            serial_number: self.serial_number.try_clone(alloc)?,
            revocation_date: self.revocation_date,
            crl_entry_extensions: self.crl_entry_extensions.try_clone(alloc)?,
        })
    }
}

#[tactic(auto, unfolding(crate::specs::RevokedCert::revoked_cert_fields, x509_der::specs::Frames::fields_reading, x509_der::specs::Frames::fields_octets))]
impl<P: Profile> Content for RevokedCert<P> {
    ghost use Rattle.x509_base.specs.Checked.{CheckRefuses};
    ghost use Rattle.x509_cert.specs.RevokedCert as grammar;
    ghost use Rattle.x509_der.specs.declared.tag.Tag.TheVariants.{Sequence};

    ghost contents = { grammar.revoked_cert_contents P.serial_check };

    ghost refusals = { CheckRefuses P.serial_check };

    ghost IDENTIFIER = { Sequence };

    const IDENTIFIER: Tag = Tag::Sequence;

    #[inline(always)]
    fn read_content(alloc: Global, octets: &[u8]) -> Result<RevokedCert<P>, Error> {
        let mut rest = octets;
        let serial_number = read_field::<SerialNumber<P>>(alloc, &mut rest)?;
        let revocation_date = read_field::<Time>(alloc, &mut rest)?;
        let crl_entry_extensions = read_optional::<Extensions>(alloc, &mut rest)?;
        end(rest)?;
        Ok(RevokedCert {
            serial_number,
            revocation_date,
            crl_entry_extensions,
        })
    }

    fn write_content<R: Room>(&self, room: &mut R) -> Result<(), Error> {
        let parts = (
            &self.serial_number,
            (&self.revocation_date, optional(&self.crl_entry_extensions)),
        );
        parts.put_part(room)
    }

    ghost contents_lawful = { grammar.revoked_cert_contents_lawful P.serial_check };
}

impl<P: Profile> ValueOrd for RevokedCert<P> {
    ghost use Rattle.x509_cert.specs.RevokedCert as grammar;

    ghost order = { grammar.revoked_cert_order P.serial_check };

    fn value_cmp(&self, other: &RevokedCert<P>) -> Ordering {
        let parts = (
            both(&self.serial_number, &other.serial_number),
            (
                both(&self.revocation_date, &other.revocation_date),
                both_optional(&self.crl_entry_extensions, &other.crl_entry_extensions),
            ),
        );
        parts.cmp_part(None, None)
    }

    ghost ordered = { grammar.revoked_cert_ordered P.serial_check };
}

impl<P: Profile> SetOrd for RevokedCert<P> {
    ghost set_order = { ⟦<RevokedCert<P> as EncodingOrd>⟧.encoding_order };
}

impl<P: Profile> SetMember for RevokedCert<P> {
    ghost use Rattle.std.specs.Prelude.{refl};

    ghost in_der_order = { refl };
}

#[tactic(auto, unfolding(crate::specs::RevokedCert::revoked_cert_fields, x509_der::specs::Frames::fields_good))]
impl<P: Profile> Spelled for RevokedCert<P> {
    ghost use Rattle.std.specs.Prelude.{Ok};
    ghost use Rattle.x509_cert.specs.Made.{MadeEntry};

    ghost premise = { MadeEntry (λ serial. P.serial_check serial ≡ Ok tt) };

    fn has_spelling(&self) {
        self.serial_number.has_spelling();
        self.revocation_date.has_spelling();
        option_has_spelling(&self.crl_entry_extensions);
    }
}
