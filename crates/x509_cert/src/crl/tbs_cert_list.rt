//! The part of a CRL that is signed.

ghost use Rattle.std.specs.Prelude.{◌≡◌};
ghost use Rattle.x509_cert.specs.Revoked.{entries};
ghost use Rattle.x509_ext.specs.Filter.{extensions_left};
ghost use Rattle.x509_ext.specs.LookUp.{Finds, members, with_oid};

use crate::certificate::Version;
use crate::crl::revoked_cert::RevokedCert;
use std::alloc::Global;
use std::cmp::Ordering;
use x509_base::{AlgorithmIdentifier, Profile, Rfc5280, Time};
use x509_der::{
    AssociatedOid, CmpPart, Content, Decode, EncodingOrd, Error, PutPart, Room, SequenceOf,
    SetMember, SetOrd, Spelled, Tag, TryClone, ValueOrd, both, both_optional,
    both_optional_explicit, end, option_has_spelling, optional, optional_explicit, read_field,
    read_optional, read_optional_explicit,
};
use x509_ext::{Extensions, FilterExtensions, filter_extensions, get_extension, members};
use x509_name::name::Name;

/// A CRL of more entries has more than 64 KB: the shortest entry has 20 octets.
const MANY: usize = 64 * 1024 / 20;

/// The part of a CRL that is signed (RFC 5280 5.1.2). Times are encoded as they are. These rules of RFC
/// 5280 aren't checked: that a version which is there is v2, that it is there where there are extensions, and that the list of
/// entries is absent where there are none.
///
/// ```text
/// TBSCertList ::= SEQUENCE {
///     version              Version OPTIONAL,
///     signature            AlgorithmIdentifier,
///     issuer               Name,
///     thisUpdate           Time,
///     nextUpdate           Time OPTIONAL,
///     revokedCertificates  SEQUENCE OF RevokedCert OPTIONAL,
///     crlExtensions        [0] EXPLICIT Extensions OPTIONAL }
/// ```
#[derive(Debug, PartialEq, Eq)]
pub struct TbsCertList<P: Profile = Rfc5280> {
    /// The version; absent in a v1 CRL.
    pub version: Option<Version>,

    /// The algorithm of the signature, of which [`CertificateList`](crate::crl::CertificateList) has a field too.
    pub signature: AlgorithmIdentifier,

    /// The issuer, who signed the CRL.
    pub issuer: Name,

    /// When the CRL was issued.
    pub this_update: Time,

    /// By when the next CRL will be issued.
    pub next_update: Option<Time>,

    /// The certificates that were revoked.
    pub revoked_certificates: Option<SequenceOf<RevokedCert<P>>>,

    /// The extensions of the CRL, such as the CRL number.
    pub crl_extensions: Option<Extensions>,
}

impl<P: Profile> TbsCertList<P> {
    /// The entries in their order; none where the list of entries is absent.
    pub fn entries(&self) -> &[RevokedCert<P>]
        ensures { result.now ≡ entries self.now.revoked_certificates }
    {
        match &self.revoked_certificates {
            Some(entries) => entries.as_slice(),
            None => &[],
        }
    }

    /// The CRL's extension of type `T`, found by the OID of the type: whether it is critical, and its value; `None`
    /// exactly where no extension has the OID.
    ///
    /// # Errors
    ///
    /// `Failed` where two or more extensions have the OID (a repeated extension), whatever they hold; where one has it,
    /// the errors of [`Decode::from_der`] on the octets that it holds.
    pub fn get_extension<T: AssociatedOid + Decode>(
        &self,
        alloc: Global,
    ) -> Result<Option<(bool, T)>, Error>
        ensures { Finds T.form T.refuses T.wants_memory (with_oid T.OID (members self.now.crl_extensions)) result }
    {
        get_extension(alloc, members(self.crl_extensions.as_ref()))
    }

    /// The CRL's extensions of type `T`, found by the OID of the type, in their order.
    pub fn filter_extensions<T: AssociatedOid + Decode>(
        &self,
        alloc: Global,
    ) -> FilterExtensions<'_, T>
        ensures { extensions_left T.OID result ≡ with_oid T.OID (members self.now.crl_extensions) }
    {
        filter_extensions(alloc, members(self.crl_extensions.as_ref()))
    }
}

impl<P: Profile> Drop for TbsCertList<P> {
    fn drop(self) {
        let TbsCertList {
            version: _,
            signature: _,
            issuer: _,
            this_update: _,
            next_update: _,
            revoked_certificates: _,
            crl_extensions: _,
        } = self;
    }
}

impl<P: Profile> TryClone for TbsCertList<P> {
    fn try_clone(&self, alloc: Global) -> Result<TbsCertList<P>, Error> {
        Ok(TbsCertList {
            version: self.version,
            signature: self.signature.try_clone(alloc)?,
            issuer: self.issuer.try_clone(alloc)?,
            this_update: self.this_update,
            next_update: self.next_update,
            revoked_certificates: self.revoked_certificates.try_clone(alloc)?,
            crl_extensions: self.crl_extensions.try_clone(alloc)?,
        })
    }
}

#[tactic(auto, unfolding(crate::specs::CertificateList::tbs_cert_list_fields, x509_der::specs::Frames::fields_reading, x509_der::specs::Frames::fields_octets))]
impl<P: Profile> Content for TbsCertList<P> {
    ghost use Rattle.x509_base.specs.Checked.{CheckRefuses};
    ghost use Rattle.x509_cert.specs.CertificateList as grammar;
    ghost use Rattle.x509_der.specs.declared.tag.Tag.TheVariants.{Sequence};

    ghost contents = { grammar.tbs_cert_list_contents P.serial_check };

    ghost refusals = { CheckRefuses P.serial_check };

    ghost IDENTIFIER = { Sequence };

    const IDENTIFIER: Tag = Tag::Sequence;

    fn read_content(alloc: Global, octets: &[u8]) -> Result<TbsCertList<P>, Error> {
        let mut rest = octets;
        let version = read_optional::<Version>(alloc, &mut rest)?;
        let signature = read_field::<AlgorithmIdentifier>(alloc, &mut rest)?;
        let issuer = read_field::<Name>(alloc, &mut rest)?;
        let this_update = read_field::<Time>(alloc, &mut rest)?;
        let next_update = read_optional::<Time>(alloc, &mut rest)?;
        let revoked_certificates = read_optional::<SequenceOf<RevokedCert<P>>>(alloc, &mut rest)?;
        let crl_extensions = read_optional_explicit::<Extensions>(alloc, 0, &mut rest)?;
        end(rest)?;
        Ok(TbsCertList {
            version,
            signature,
            issuer,
            this_update,
            next_update,
            revoked_certificates,
            crl_extensions,
        })
    }

    fn write_content<R: Room>(&self, room: &mut R) -> Result<(), Error> {
        let front = (
            optional(&self.version),
            (&self.signature, (&self.issuer, &self.this_update)),
        );
        let behind = (
            optional(&self.next_update),
            (
                optional(&self.revoked_certificates),
                optional_explicit(0, &self.crl_extensions),
            ),
        );
        (front, behind).put_part(room)
    }

    fn has_long_content(&self) -> bool {
        self.entries().len() > MANY
    }

    ghost contents_lawful = { grammar.tbs_cert_list_contents_lawful P.serial_check };
}

impl<P: Profile> ValueOrd for TbsCertList<P> {
    ghost use Rattle.x509_cert.specs.CertificateList as grammar;

    ghost order = { grammar.tbs_cert_list_order P.serial_check };

    fn value_cmp(&self, other: &TbsCertList<P>) -> Ordering {
        let front = (
            both_optional(&self.version, &other.version),
            (
                both(&self.signature, &other.signature),
                (
                    both(&self.issuer, &other.issuer),
                    both(&self.this_update, &other.this_update),
                ),
            ),
        );
        let behind = (
            both_optional(&self.next_update, &other.next_update),
            (
                both_optional(&self.revoked_certificates, &other.revoked_certificates),
                both_optional_explicit(0, &self.crl_extensions, &other.crl_extensions),
            ),
        );
        (front, behind).cmp_part(None, None)
    }

    ghost ordered = { grammar.tbs_cert_list_ordered P.serial_check };
}

impl<P: Profile> SetOrd for TbsCertList<P> {
    ghost set_order = { ⟦<TbsCertList<P> as EncodingOrd>⟧.encoding_order };
}

impl<P: Profile> SetMember for TbsCertList<P> {
    ghost use Rattle.std.specs.Prelude.{refl};

    ghost in_der_order = { refl };
}

#[tactic(auto, unfolding(crate::specs::CertificateList::tbs_cert_list_fields, x509_der::specs::Frames::fields_good))]
impl<P: Profile> Spelled for TbsCertList<P> {
    ghost use Rattle.std.specs.Prelude.{Ok};
    ghost use Rattle.x509_cert.specs.Made.{MadeList};

    ghost premise = { MadeList (λ serial. P.serial_check serial ≡ Ok tt) };

    fn has_spelling(&self) {
        option_has_spelling(&self.version);
        self.signature.has_spelling();
        self.issuer.has_spelling();
        self.this_update.has_spelling();
        option_has_spelling(&self.next_update);
        option_has_spelling(&self.revoked_certificates);
        option_has_spelling(&self.crl_extensions);
    }
}
