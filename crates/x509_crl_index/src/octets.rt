//! What an index is made from.

ghost use Rattle.std.specs.Prelude.{◌≡◌, ◌≤◌, length, IsOk};
ghost use Rattle.x509_cert.specs.Revoked.{entries};
ghost use Rattle.x509_cert.specs.RevokedCert.{revoked_cert};
ghost use Rattle.x509_cert.specs.declared.crl.certificate_list.CertificateList as lists;
ghost use Rattle.x509_check.specs.CrlRefs.{entries_in};
ghost use Rattle.x509_der.specs.Element.{limit};
ghost use Rattle.x509_der.specs.Form.{Spells};
ghost use Rattle.x509_der.specs.List.{list_reading};

use crate::number::front_content;
use x509_base::Profile;
use x509_cert::crl::CertificateList;
use x509_check::CrlRef;
use x509_der::{Grammar, Tag};

/// The numbers, to be read only.
pub(crate) fn share<'i>(places: &'i mut [u32]) -> &'i [u32]
    ensures { result.now ≡ places.old }
{
    places
}

/// The elements of the entries of the CRL, one after the other; none where the list of entries is absent.
pub(crate) fn entry_octets<'a, P: Profile>(crl: &CrlRef<'a, P>) -> &'a [u8]
    ensures within { length result.now ≤ limit }
    ensures are_entries { IsOk (list_reading (revoked_cert {P = P} P.serial_check).reading result.now) }
    ensures same { (list : lists.CertificateList P) → Spells ⟦<CertificateList<P> as Grammar>⟧.form list crl.now.bytes.now
        → entries_in P.serial_check result.now ≡ entries list.tbs_cert_list.revoked_certificates }
{
    match crl.revoked_certificates() {
        Some(list) => front_content(list, Tag::Sequence),
        None => &[],
    }
}
