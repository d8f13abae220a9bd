//! An index over the entries of a CRL.

ghost use Rattle.std.proofs.Props.{props};
ghost use Rattle.std.specs.Prelude.{◌≡◌, ◌≤◌, length, IsOk};
ghost use Rattle.x509_cert.specs.RevokedCert.{revoked_cert};
ghost use Rattle.x509_crl_index.specs.Places.{IsIndex};
ghost use Rattle.x509_der.specs.Element.{limit};
ghost use Rattle.x509_der.specs.List.{list_reading};

use crate::entry::known_entry;
use crate::number::octets_at;
use crate::octets::{entry_octets, share};
use crate::places::{index_places, place_of};
use std::marker::PhantomData;
use x509_base::{Profile, Rfc5280};
use x509_cert::crl::CertificateList;
use x509_check::{CrlRef, RevokedCertRef};
use x509_der::Grammar;

/// An index over the entries of an encoded CRL (RFC 5280 5.1.2.6), in memory of the caller: four octets an entry. It is made
/// once, and a look-up by it takes a number of steps that grows with the logarithm of how many entries there are, where
/// [`CrlRef::find`] looks at each entry up to the one that it finds. Both find the same entry.
#[derive(Debug, Drop)]
pub struct CrlIndex<'a, 'i, P: Profile = Rfc5280> {
    octets: &'a [u8],
    places: &'i [u32],
    profile: PhantomData<P>,
    ghost within: { length octets.now ≤ limit },
    ghost are_entries: { IsOk (list_reading (revoked_cert {P = P} P.serial_check).reading octets.now) },
    ghost indexed: { IsIndex octets.now places.now } by { Prim.hlevel props },
}

impl<'a, 'i, P: Profile> CrlIndex<'a, 'i, P> {
    ghost use Rattle.std.specs.Prelude.{◌≡◌, ◌<◌, ◌≤◌, length, MatchOption};
    ghost use Rattle.x509_cert.specs.Revoked.{entries};
    ghost use Rattle.x509_cert.specs.declared.crl.certificate_list.CertificateList as lists;
    ghost use Rattle.x509_check.specs.CrlRefs.{FindsEntry, entries_in};
    ghost use Rattle.x509_der.specs.Form.{Spells};

    /// The index over the entries of the CRL. It takes as many of the places as there are entries
    /// ([`CrlRef::entry_count`]), whatever stands in them; `None` exactly where there are fewer. The entries are put in
    /// order: the steps grow with n log n for n entries.
    pub fn new(crl: &CrlRef<'a, P>, places: &'i mut [u32]) -> Option<CrlIndex<'a, 'i, P>>
        ensures { (list : lists.CertificateList P) → Spells ⟦<CertificateList<P> as Grammar>⟧.form list crl.now.bytes.now
            → MatchOption result (length places.old < length (entries list.tbs_cert_list.revoked_certificates))
            (λ index. (length (entries list.tbs_cert_list.revoked_certificates) ≤ length places.old)
            × (entries_in P.serial_check index.octets.now ≡ entries list.tbs_cert_list.revoked_certificates)) }
    {
        let octets = entry_octets(crl);
        let count = crl.entry_count();
        if places.len() < count {
            return None;
        }
        let (places, _) = places.split_at_mut(count);
        index_places(octets, places);
        Some(CrlIndex {
            octets,
            places: share(places),
            profile: PhantomData,
        })
    }

    /// The first entry of the CRL whose serial number has these content octets; `None` exactly where no entry has it: what
    /// [`CrlRef::find`] answers.
    ///
    /// Whether the CRL covers the issuer of the certificate, and for which time, isn't checked (RFC 5280 6.3.3).
    pub fn find(&self, serial_number: &[u8]) -> Option<RevokedCertRef<'a>>
        ensures { FindsEntry serial_number.now (entries_in {P = P} P.serial_check self.now.octets.now) result }
    {
        match place_of(self.octets, self.places, serial_number) {
            Some(place) => Some(known_entry::<P>(octets_at(self.octets, place))),
            None => None,
        }
    }
}
