//! The entries of a CRL, lent from its bytes.

ghost use Rattle.std.specs.Prelude.{◌≡◌, ◌≤◌, length, IsOk};
ghost use Rattle.x509_cert.specs.RevokedCert.{revoked_cert};
ghost use Rattle.x509_der.specs.Element.{limit};
ghost use Rattle.x509_der.specs.List.{list_reading};

use crate::lent::crl::CrlRef;
use crate::lent::entry::{RevokedCertRef, known_entry, known_undated};
use crate::lent::undated::UndatedCertRef;
use std::marker::PhantomData;
use x509_base::{Profile, Rfc5280};
use x509_cert::crl::CertificateList;
use x509_der::{Error, Grammar};

/// An iterator over the entries of an encoded CRL (RFC 5280 5.1.2.6), which lends each from the bytes. The CRL was checked,
/// so each is there; it is decoded when it is asked for, without memory.
#[derive(Debug, Drop)]
pub struct CrlEntries<'a, P: Profile = Rfc5280> {
    rest: &'a [u8],
    profile: PhantomData<P>,
    ghost within: { length rest.now ≤ limit },
    ghost are_entries: { IsOk (list_reading (revoked_cert {P = P} P.serial_check).reading rest.now) },
}

impl<'a, P: Profile> CrlEntries<'a, P> {
    ghost use Rattle.std.specs.Prelude.{◌≡◌, ◌<◌, ◌≤◌, ◌⊎◌, [], ◌∷◌, length, Err, IfOk, IfErr, IsErrAnd, IsOk, MatchOption};
    ghost use Rattle.x509_cert.specs.Revoked.{entries};
    ghost use Rattle.x509_cert.specs.RevokedCert.{revoked_cert};
    ghost use Rattle.x509_cert.specs.declared.crl.revoked_cert.RevokedCert as revoked;
    ghost use Rattle.x509_cert.specs.declared.crl.certificate_list.CertificateList as lists;
    ghost use Rattle.x509_check.specs.CrlRefs.{IsUndated, entries_in};
    ghost use Rattle.x509_der.specs.Element.{limit};
    ghost use Rattle.x509_der.specs.Form.{Spells, whole_reading};
    ghost use Rattle.x509_der.specs.List.{list_reading};
    ghost use Rattle.x509_der.specs.declared.error.ErrorKind.TheVariants as errors;

    /// The entries of the CRL that the bytes are the encoding of, in their order; none where the list of entries is absent. The CRL is
    /// checked in one pass, without memory.
    ///
    /// # Errors
    ///
    /// `Overlength` exactly where the bytes are more than [`Length::MAX`](x509_der::Length::MAX). Within that length `Malformed`, or an error of
    /// the profile, exactly where they are the encoding of no CRL: the error that `CertificateList::from_der` answers.
    pub fn from_der(bytes: &'a [u8]) -> Result<CrlEntries<'a, P>, Error>
        ensures found { IfOk result (λ lent. (list : lists.CertificateList P) × Spells ⟦<CertificateList<P> as Grammar>⟧.form list bytes.now
            × (entries_in P.serial_check lent.rest.now ≡ entries list.tbs_cert_list.revoked_certificates)) }
        ensures overlength { limit < length bytes.now → IsErrAnd result (λ e. e.kind ≡ errors.Overlength) }
        ensures refused { length bytes.now ≤ limit → IfErr result (λ e. (e.kind ≡ errors.Malformed) ⊎ ⟦<CertificateList<P> as Grammar>⟧.refuses e.kind) }
        ensures every { (list : lists.CertificateList P) → Spells ⟦<CertificateList<P> as Grammar>⟧.form list bytes.now → IsOk result }
        ensures which { length bytes.now ≤ limit → IfErr result (λ e. whole_reading ⟦<CertificateList<P> as Grammar>⟧.form.reading bytes.now ≡ Err e.kind) }
    {
        match CrlRef::<P>::from_der(bytes) {
            Ok(lent) => Ok(lent.entries()),
            Err(e) => Err(e),
        }
    }

    /// The entries of which these are the elements, one after the other, as was checked.
    pub(crate) fn of_octets(octets: &'a [u8]) -> CrlEntries<'a, P>
        requires within { length octets.now ≤ limit }
        requires are_entries { IsOk (list_reading (revoked_cert {P = P} P.serial_check).reading octets.now) }
        ensures { result.rest.now ≡ octets.now }
    {
        CrlEntries {
            rest: octets,
            profile: PhantomData,
        }
    }

    /// The next entry, as `next` gives it but with its date undecoded; `None` exactly where none is left.
    #[inline(always)]
    pub fn next_undated(&mut self) -> Option<UndatedCertRef<'a, P>>
        ensures { MatchOption result (entries_in {P = P} P.serial_check self.old.rest.now ≡ [])
            (λ undated. (entry : revoked.RevokedCert P) × (entries_in P.serial_check self.old.rest.now ≡ entry ∷ entries_in P.serial_check self.new.rest.now)
            × IsUndated P.serial_check undated.octets.now undated.serial_number.now undated.crl_entry_extensions entry) }
    {
        if self.rest.is_empty() {
            return None;
        }
        let (entry, others) = known_undated::<P>(self.rest);
        self.rest = others;
        Some(entry)
    }
}

impl<'a, P: Profile> Iterator for CrlEntries<'a, P> {
    ghost use Rattle.std.specs.Iterator.{YieldsFirstBy, item_count};
    ghost use Rattle.x509_check.specs.CrlRefs.{entries_in, lent_entry};

    type Item = RevokedCertRef<'a>;

    ghost next_gives = { YieldsFirstBy lent_entry (λ s. entries_in {P = P} P.serial_check s.rest.now) };

    ghost remaining = { item_count (λ s. entries_in {P = P} P.serial_check s.rest.now) };

    fn next(&mut self) -> Option<RevokedCertRef<'a>> {
        if self.rest.is_empty() {
            return None;
        }
        let (entry, others) = known_entry::<P>(self.rest);
        self.rest = others;
        Some(entry)
    }
}
