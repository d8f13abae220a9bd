//! CRLs.

ghost use Rattle.std.specs.Prelude.{◌≡◌, [], MatchOption};
ghost use Rattle.x509_cert.specs.Revoked.{IsFirstWith, entries, with_serial};

use crate::crl::revoked_cert::RevokedCert;
use crate::crl::tbs_cert_list::TbsCertList;
use std::alloc::Global;
use std::cmp::Ordering;
use x509_base::{AlgorithmIdentifier, Profile, Rfc5280, SerialNumber};
use x509_der::{
    CmpPart, Content, EncodingOrd, Error, PutPart, Room, SetMember, SetOrd, Spelled, Tag, TryClone,
    ValueOrd, both, end, read_field,
};
use x509_prim::BitString;

/// A certificate revocation list (CRL) with its signature (RFC 5280 5.1). Neither the signature nor that both algorithm
/// fields are equal is checked.
///
/// ```text
/// CertificateList ::= SEQUENCE {
///     tbsCertList         TBSCertList,
///     signatureAlgorithm  AlgorithmIdentifier,
///     signatureValue      BIT STRING }
/// ```
///
/// [`find`](CertificateList::find) looks a serial number up:
///
/// ```rust
/// fn has_entry(list: &CertificateList, serial_number: &SerialNumber) -> bool {
///     match list.find(serial_number) {
///         Some(entry) => entry.serial_number == *serial_number,
///         None => false,
///     }
/// }
///
/// let list = CertificateList::from_der(rt.alloc(), LIST)?;
/// assert!(rt; list.tbs_cert_list.entries().len() == 1);
/// assert!(rt; has_entry(&list, &SerialNumber::from_u8(rt.alloc(), 5)?));
/// assert!(rt; !has_entry(&list, &SerialNumber::from_u8(rt.alloc(), 6)?));
/// ```
#[derive(Debug, PartialEq, Eq)]
pub struct CertificateList<P: Profile = Rfc5280> {
    /// The part that is signed.
    pub tbs_cert_list: TbsCertList<P>,

    /// The algorithm of the signature.
    pub signature_algorithm: AlgorithmIdentifier,

    /// The signature.
    pub signature: BitString,
}

impl<P: Profile> CertificateList<P> {
    /// The first entry with the serial number; `None` exactly where no entry has it. One pass over the entries, without
    /// memory.
    ///
    /// Whether the CRL covers the issuer of the certificate, and for which time, isn't checked (RFC 5280 6.3.3).
    pub fn find(&self, serial_number: &SerialNumber<P>) -> Option<&RevokedCert<P>>
        ensures { MatchOption result (with_serial serial_number.now (entries self.now.tbs_cert_list.revoked_certificates) ≡ [])
            (λ entry. IsFirstWith serial_number.now (entries self.now.tbs_cert_list.revoked_certificates) entry.now) }
    {
        first_with(self.tbs_cert_list.entries(), serial_number)
    }
}

/// The first entry with the serial number.
fn first_with<'a, P: Profile>(
    entries: &'a [RevokedCert<P>],
    serial_number: &SerialNumber<P>,
) -> Option<&'a RevokedCert<P>>
    ensures { MatchOption result (with_serial serial_number.now entries.now ≡ []) (λ entry. IsFirstWith serial_number.now entries.now entry.now) }
{
    let mut rest = entries;
    while let Some((first, others)) = rest.split_first() {
        if first.serial_number == *serial_number {
            return Some(first);
        }
        rest = others;
    }
    None
}

impl<P: Profile> Drop for CertificateList<P> {
    fn drop(self) {
        let CertificateList {
            tbs_cert_list: _,
            signature_algorithm: _,
            signature: _,
        } = self;
    }
}

impl<P: Profile> TryClone for CertificateList<P> {
    fn try_clone(&self, alloc: Global) -> Result<CertificateList<P>, Error> {
        Ok(CertificateList {
            tbs_cert_list: self.tbs_cert_list.try_clone(alloc)?,
            signature_algorithm: self.signature_algorithm.try_clone(alloc)?,
            signature: self.signature.try_clone(alloc)?,
        })
    }
}

#[tactic(auto, unfolding(crate::specs::CertificateList::certificate_list_fields, x509_der::specs::Frames::fields_reading, x509_der::specs::Frames::fields_octets))]
impl<P: Profile> Content for CertificateList<P> {
    ghost use Rattle.x509_base.specs.Checked.{CheckRefuses};
    ghost use Rattle.x509_cert.specs.CertificateList as grammar;
    ghost use Rattle.x509_der.specs.declared.tag.Tag.TheVariants.{Sequence};

    ghost contents = { grammar.certificate_list_contents P.serial_check };

    ghost refusals = { CheckRefuses P.serial_check };

    ghost IDENTIFIER = { Sequence };

    const IDENTIFIER: Tag = Tag::Sequence;

    fn read_content(alloc: Global, octets: &[u8]) -> Result<CertificateList<P>, Error> {
        let mut rest = octets;
        let tbs_cert_list = read_field::<TbsCertList<P>>(alloc, &mut rest)?;
        let signature_algorithm = read_field::<AlgorithmIdentifier>(alloc, &mut rest)?;
        let signature = read_field::<BitString>(alloc, &mut rest)?;
        end(rest)?;
        Ok(CertificateList {
            tbs_cert_list,
            signature_algorithm,
            signature,
        })
    }

    fn write_content<R: Room>(&self, room: &mut R) -> Result<(), Error> {
        let parts = (
            &self.tbs_cert_list,
            (&self.signature_algorithm, &self.signature),
        );
        parts.put_part(room)
    }

    fn has_long_content(&self) -> bool {
        self.tbs_cert_list.has_long_content()
    }

    ghost contents_lawful = { grammar.certificate_list_contents_lawful P.serial_check };
}

impl<P: Profile> ValueOrd for CertificateList<P> {
    ghost use Rattle.x509_cert.specs.CertificateList as grammar;

    ghost order = { grammar.certificate_list_order P.serial_check };

    fn value_cmp(&self, other: &CertificateList<P>) -> Ordering {
        let parts = (
            both(&self.tbs_cert_list, &other.tbs_cert_list),
            (
                both(&self.signature_algorithm, &other.signature_algorithm),
                both(&self.signature, &other.signature),
            ),
        );
        parts.cmp_part(None, None)
    }

    ghost ordered = { grammar.certificate_list_ordered P.serial_check };
}

impl<P: Profile> SetOrd for CertificateList<P> {
    ghost set_order = { ⟦<CertificateList<P> as EncodingOrd>⟧.encoding_order };
}

impl<P: Profile> SetMember for CertificateList<P> {
    ghost use Rattle.std.specs.Prelude.{refl};

    ghost in_der_order = { refl };
}

#[tactic(auto, unfolding(crate::specs::CertificateList::certificate_list_fields, x509_der::specs::Frames::fields_good))]
impl<P: Profile> Spelled for CertificateList<P> {
    ghost use Rattle.std.specs.Prelude.{Ok};
    ghost use Rattle.x509_cert.specs.Made.{MadeList};

    ghost premise = { λ list. MadeList (λ serial. P.serial_check serial ≡ Ok tt) list.tbs_cert_list };

    fn has_spelling(&self) {
        self.tbs_cert_list.has_spelling();
        self.signature_algorithm.has_spelling();
        self.signature.has_spelling();
    }
}
