//! Candidates for a path.

ghost use Rattle.std.specs.Prelude.{◌≡◌, ◌≤◌, ◌<◌, ◌+◌, ◌-◌, length};

use crate::keyed::Keyed;
use x509_base::DateTime;
use x509_check::CertificateRef;
use x509_match::MatchedName;

/// A candidate for a path.
#[derive(Debug)]
pub(crate) struct Candidate<'a> {
    /// The certificate.
    pub(crate) certificate: CertificateRef<'a>,

    /// The key of its issuer's name.
    pub(crate) issuer: MatchedName,

    /// The identifier of its key, if it has one.
    pub(crate) key_id: Option<&'a [u8]>,

    /// That of its issuer's key, if it names one.
    pub(crate) issuer_key_id: Option<&'a [u8]>,

    /// From when on it is valid.
    pub(crate) not_before: DateTime,
}

impl Drop for Candidate<'_> {
    fn drop(self) {
        let Candidate {
            certificate: _,
            issuer: _,
            key_id: _,
            issuer_key_id: _,
            not_before: _,
        } = self;
    }
}

/// Where to begin with candidates of one name that may stand above a certificate: at the first one whose key has the identifier that
/// the certificate names (RFC 5280 4.2.1.1), and at the first of all where there is none.
pub(crate) fn start_of(named: &[Keyed<MatchedName, Candidate<'_>>], key_id: Option<&[u8]>) -> usize
    ensures { result ≤ length named.now }
{
    if key_id.is_some() {
        for (index, entry) in named.iter().enumerate() {
            if entry.value.key_id == key_id {
                return index;
            }
        }
    }
    0
}

/// The index that comes at that place in turn, of so many from `start` on and then those before it.
pub(crate) fn in_turn(place: usize, start: usize, count: usize) -> usize
    requires place { place < count }
    requires start { start ≤ count }
    ensures within { result < count }
    ensures behind { place < count - start → result ≡ start + place }
    ensures before { count - start ≤ place → result ≡ place - (count - start) }
{
    let behind = count - start;
    if place < behind {
        start + place
    } else {
        place - behind
    }
}
