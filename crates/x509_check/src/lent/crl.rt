//! A CRL, lent from its bytes.

ghost use Rattle.std.proofs.Props.{props};
ghost use Rattle.std.specs.Prelude.{◌≡◌, ◌≤◌, length, Ok, IsOk};
ghost use Rattle.x509_cert.specs.CertificateList.{certificate_list};
ghost use Rattle.x509_check.specs.CrlRefs.{lent_parts, parts_reading};
ghost use Rattle.x509_der.specs.Element.{limit};
ghost use Rattle.x509_der.specs.Form.{whole_reading};

use crate::element::content_of;
use crate::lent::entries::CrlEntries;
use crate::lent::entry::RevokedCertRef;
use crate::lent::extensions::ExtensionRefs;
use crate::lent::revoked::{ListParts, find_in_checked, walk_whole};
use std::alloc::Global;
use std::marker::PhantomData;
use x509_base::{Profile, Rfc5280, Time};
use x509_cert::certificate::Version;
use x509_cert::crl::{CertificateList, TbsCertList};
use x509_der::{AssociatedOid, Decode, Error, ErrorKind, Grammar, Length};

/// A CRL that is lent from its encoding (RFC 5280 5.1), which was checked: it is that of a [`CertificateList`] under the
/// profile. Each field is lent, or is plain data; an entry and an extension are decoded when they are asked for. No memory is
/// taken.
#[derive(Debug, Drop)]
pub struct CrlRef<'a, P: Profile = Rfc5280> {
    bytes: &'a [u8],
    parts: ListParts<'a>,
    profile: PhantomData<P>,
    ghost within: { length bytes.now ≤ limit },
    ghost checked: { IsOk (whole_reading (certificate_list {P = P} P.serial_check).reading bytes.now) },
    ghost lent: { parts_reading P P.serial_check bytes.now ≡ Ok (lent_parts parts) } by { Prim.hlevel props },
}

impl<'a, P: Profile> CrlRef<'a, P> {
    ghost use Rattle.std.specs.List.{list_any};
    ghost use Rattle.std.specs.Prelude.{◌≡◌, ◌<◌, ◌≤◌, ◌⊎◌, not, length, option_copied, option_map, Err, IfOk, IfErr, IsErrAnd, IsOk};
    ghost use Rattle.x509_base.specs.AlgorithmIdentifier.{algorithm_identifier};
    ghost use Rattle.x509_cert.specs.Revoked.{entries};
    ghost use Rattle.x509_cert.specs.Signed.{IsSignedPart};
    ghost use Rattle.x509_cert.specs.declared.crl.certificate_list.CertificateList as lists;
    ghost use Rattle.x509_check.specs.CrlRefs.{FindsInList, entries_in, entry_list, is_marked};
    ghost use Rattle.x509_check.specs.ExtensionRefs.{extensions_left};
    ghost use Rattle.x509_der.specs.Element.{limit};
    ghost use Rattle.x509_der.specs.Form.{Spells, spelling, whole_reading};
    ghost use Rattle.x509_der.specs.declared.error.ErrorKind.TheVariants as errors;
    ghost use Rattle.x509_ext.specs.Extension as grammar;
    ghost use Rattle.x509_ext.specs.LookUp.{Finds, members, with_oid};
    ghost use Rattle.x509_name.specs.Names.{name};
    ghost use Rattle.x509_prim.specs.BitString.{bit_string};

    /// The CRL that the bytes are the encoding of. It is checked in one pass, without memory.
    ///
    /// # Errors
    ///
    /// `Overlength` exactly where the bytes are more than [`Length::MAX`]. Within that length `Malformed`, or an error of
    /// the profile, exactly where they are the encoding of no CRL: the error that `CertificateList::from_der` answers.
    pub fn from_der(bytes: &'a [u8]) -> Result<CrlRef<'a, P>, Error>
        ensures found { IfOk result (λ lent. (lent.bytes.now ≡ bytes.now)
            × ((list : lists.CertificateList P) × Spells ⟦<CertificateList<P> as Grammar>⟧.form list bytes.now)) }
        ensures overlength { limit < length bytes.now → IsErrAnd result (λ e. e.kind ≡ errors.Overlength) }
        ensures refused { length bytes.now ≤ limit → IfErr result (λ e. (e.kind ≡ errors.Malformed) ⊎ ⟦<CertificateList<P> as Grammar>⟧.refuses e.kind) }
        ensures every { (list : lists.CertificateList P) → Spells ⟦<CertificateList<P> as Grammar>⟧.form list bytes.now → IsOk result }
        ensures which { length bytes.now ≤ limit → IfErr result (λ e. whole_reading ⟦<CertificateList<P> as Grammar>⟧.form.reading bytes.now ≡ Err e.kind) }
    {
        if bytes.len() > Length::MAX.as_u32() as usize {
            return Err(ErrorKind::Overlength.into());
        }
        match walk_whole::<P>(bytes, &[]) {
            Ok(walked) => Ok(CrlRef {
                bytes,
                parts: walked.parts,
                profile: PhantomData,
            }),
            Err(e) => Err(e),
        }
    }

    /// The encoding.
    pub fn as_bytes(&self) -> &'a [u8]
        ensures same { result.now ≡ self.now.bytes.now }
        ensures found { (list : lists.CertificateList P) × Spells ⟦<CertificateList<P> as Grammar>⟧.form list result.now }
    {
        self.bytes
    }

    /// The version; `None` where it is absent, which means version 1.
    pub fn version(&self) -> Option<Version>
        ensures { (list : lists.CertificateList P) → Spells ⟦<CertificateList<P> as Grammar>⟧.form list self.now.bytes.now
            → result ≡ list.tbs_cert_list.version }
    {
        self.parts.fields.version
    }

    /// The algorithm of the signature, as the signed part has it, as its element.
    pub fn inner_algorithm(&self) -> &'a [u8]
        ensures { (list : lists.CertificateList P) → Spells ⟦<CertificateList<P> as Grammar>⟧.form list self.now.bytes.now
            → result.now ≡ spelling algorithm_identifier list.tbs_cert_list.signature }
    {
        self.parts.fields.signature
    }

    /// The name of the issuer, as its element.
    pub fn issuer(&self) -> &'a [u8]
        ensures { (list : lists.CertificateList P) → Spells ⟦<CertificateList<P> as Grammar>⟧.form list self.now.bytes.now
            → result.now ≡ spelling name list.tbs_cert_list.issuer }
    {
        self.parts.fields.issuer
    }

    /// When the CRL was issued.
    pub fn this_update(&self) -> Time
        ensures { (list : lists.CertificateList P) → Spells ⟦<CertificateList<P> as Grammar>⟧.form list self.now.bytes.now
            → result ≡ list.tbs_cert_list.this_update }
    {
        self.parts.fields.this_update
    }

    /// By when the next CRL will be issued; `None` where that isn't said.
    pub fn next_update(&self) -> Option<Time>
        ensures { (list : lists.CertificateList P) → Spells ⟦<CertificateList<P> as Grammar>⟧.form list self.now.bytes.now
            → result ≡ list.tbs_cert_list.next_update }
    {
        self.parts.fields.next_update
    }

    /// The list of entries, as its element; `None` where it is absent.
    pub fn revoked_certificates(&self) -> Option<&'a [u8]>
        ensures { (list : lists.CertificateList P) → Spells ⟦<CertificateList<P> as Grammar>⟧.form list self.now.bytes.now
            → option_copied result ≡ option_map (spelling (entry_list P.serial_check)) list.tbs_cert_list.revoked_certificates }
    {
        self.parts.fields.revoked_certificates
    }

    /// The entries, in their order; none where the list is absent.
    pub fn entries(&self) -> CrlEntries<'a, P>
        ensures { (list : lists.CertificateList P) → Spells ⟦<CertificateList<P> as Grammar>⟧.form list self.now.bytes.now
            → entries_in P.serial_check result.rest.now ≡ entries list.tbs_cert_list.revoked_certificates }
    {
        let Some(list) = self.parts.fields.revoked_certificates else {
            return CrlEntries::of_octets(&[]);
        };
        CrlEntries::of_octets(content_of(list))
    }

    /// How many entries there are; none where the list is absent.
    pub fn entry_count(&self) -> usize
        ensures { (list : lists.CertificateList P) → Spells ⟦<CertificateList<P> as Grammar>⟧.form list self.now.bytes.now
            → result ≡ length (entries list.tbs_cert_list.revoked_certificates) }
    {
        self.parts.fields.entry_count
    }

    /// Whether no entry has an extension that is critical, or is a [`CertificateIssuer`](x509_ext::pkix::CertificateIssuer) (RFC 5280
    /// 5.3). Then each entry is that of a certificate of the CRL's issuer, and no extension of it stands against the use of the CRL.
    pub fn has_plain_entries(&self) -> bool
        ensures { (list : lists.CertificateList P) → Spells ⟦<CertificateList<P> as Grammar>⟧.form list self.now.bytes.now
            → result ≡ not (list_any is_marked (entries list.tbs_cert_list.revoked_certificates)) }
    {
        !self.parts.fields.has_marked
    }

    /// The first entry whose serial number has these content octets; `None` exactly where no entry has it. It is the entry
    /// that [`CertificateList::find`] finds. Nothing is checked again: of an entry with another number no more than that is
    /// looked at.
    ///
    /// Whether the CRL covers the issuer of the certificate, and for which time, isn't checked (RFC 5280 6.3.3).
    pub fn find(&self, serial_number: &[u8]) -> Option<RevokedCertRef<'a>>
        ensures { (list : lists.CertificateList P) → Spells ⟦<CertificateList<P> as Grammar>⟧.form list self.now.bytes.now
            → FindsInList serial_number.now list result }
    {
        let Some(list) = self.parts.fields.revoked_certificates else {
            return None;
        };
        find_in_checked::<P>(content_of(list), serial_number)
    }

    /// The list of extensions, as its element, which stands inside the tag \[0\]; `None` where it is absent.
    pub fn crl_extensions(&self) -> Option<&'a [u8]>
        ensures { (list : lists.CertificateList P) → Spells ⟦<CertificateList<P> as Grammar>⟧.form list self.now.bytes.now
            → option_copied result ≡ option_map (spelling grammar.extensions) list.tbs_cert_list.crl_extensions }
    {
        self.parts.fields.crl_extensions
    }

    /// The extensions, in their order; none where the list is absent.
    pub fn extensions(&self) -> ExtensionRefs<'a>
        ensures { (list : lists.CertificateList P) → Spells ⟦<CertificateList<P> as Grammar>⟧.form list self.now.bytes.now
            → extensions_left result ≡ members list.tbs_cert_list.crl_extensions }
    {
        let Some(list) = self.parts.fields.crl_extensions else {
            return ExtensionRefs::empty();
        };
        ExtensionRefs::of_checked(list)
    }

    /// The extension of type `T`, found by the OID of the type: whether it is critical, and its value; `None` exactly
    /// where no extension has the OID.
    ///
    /// # Errors
    ///
    /// `Failed` where two or more extensions have the OID (a repeated extension), whatever they hold. Where one has it,
    /// the errors of [`Decode::from_der`] on the octets that it holds, `Memory` only where decoding the type may take
    /// memory.
    pub fn get_extension<T: AssociatedOid + Decode>(
        &self,
        alloc: Global,
    ) -> Result<Option<(bool, T)>, Error>
        ensures { (list : lists.CertificateList P) → Spells ⟦<CertificateList<P> as Grammar>⟧.form list self.now.bytes.now
            → Finds T.form T.refuses T.wants_memory (with_oid T.OID (members list.tbs_cert_list.crl_extensions)) result }
    {
        self.extensions().get_extension::<T>(alloc)
    }

    /// The algorithm of the signature, as it stands outside the signed part, as its element.
    pub fn signature_algorithm(&self) -> &'a [u8]
        ensures { (list : lists.CertificateList P) → Spells ⟦<CertificateList<P> as Grammar>⟧.form list self.now.bytes.now
            → result.now ≡ spelling algorithm_identifier list.signature_algorithm }
    {
        self.parts.signature_algorithm
    }

    /// The signature, as its BIT STRING.
    pub fn signature(&self) -> &'a [u8]
        ensures { (list : lists.CertificateList P) → Spells ⟦<CertificateList<P> as Grammar>⟧.form list self.now.bytes.now
            → result.now ≡ spelling bit_string list.signature }
    {
        self.parts.signature
    }

    /// The signed part: the bytes that the signature is over, as they stand.
    pub fn signed_part(&self) -> &'a [u8]
        ensures signed { IsSignedPart self.now.bytes.now result.now }
        ensures part { (list : lists.CertificateList P) → Spells ⟦<CertificateList<P> as Grammar>⟧.form list self.now.bytes.now
            → Spells ⟦<TbsCertList<P> as Grammar>⟧.form list.tbs_cert_list result.now }
    {
        self.parts.tbs_cert_list
    }

    /// The CRL itself: what `CertificateList::from_der` answers on the encoding.
    ///
    /// # Errors
    ///
    /// `Memory` when out of memory, and nothing else.
    pub fn to_owned(&self, alloc: Global) -> Result<CertificateList<P>, Error>
        ensures found { IfOk result (λ list. Spells ⟦<CertificateList<P> as Grammar>⟧.form list self.now.bytes.now) }
        ensures err { IfErr result (λ e. e.kind ≡ errors.Memory) }
    {
        CertificateList::<P>::from_der(alloc, self.bytes)
    }
}
