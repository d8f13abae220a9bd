//! Where bytes stop being an object.

ghost use Rattle.std.specs.Prelude.{◌≡◌, ◌≤◌, ◌↔◌, IfSome, IsNone, length};
ghost use Rattle.x509_refusal.specs.Objects.{IsObject, farther, farthest, refusal_as, unread, whole_of};
ghost use Rattle.x509_refusal.specs.Unread.{behind_place, unread_place};

use crate::field::Field;
use crate::walk::{closest, unread_from};
use x509_der::Length;

/// What bytes are wanted to be.
#[derive(Clone, Copy, Debug, PartialEq, Eq)]
pub enum Kind {
    /// A certificate.
    Certificate,

    /// A CRL.
    Crl,

    /// A CSR.
    Csr,
}

impl Kind {
    /// The field that an object of this kind is as a whole.
    fn whole(self) -> Field
        ensures { result ≡ whole_of self }
    {
        match self {
            Kind::Certificate => Field::Certificate,
            Kind::Crl => Field::CertificateList,
            Kind::Csr => Field::CertificationRequest,
        }
    }
}

/// Where bytes stop being an object.
#[derive(Clone, Copy, Debug, PartialEq, Eq)]
pub struct Place {
    /// The field that can't be read, or behind whose last field there are octets.
    pub field: Field,

    /// Its byte offset in the input, or that of these octets.
    pub offset: usize,

    /// Whether it is octets behind its last field.
    pub is_behind: bool,
}

impl Place {
    /// A field that can't be read at an offset.
    pub(crate) fn unread(field: Field, offset: usize) -> Place
        ensures { result ≡ unread_place field offset }
    {
        Place {
            field,
            offset,
            is_behind: false,
        }
    }

    /// Octets at an offset, behind the last field of one.
    pub(crate) fn behind(field: Field, offset: usize) -> Place
        ensures { result ≡ behind_place field offset }
    {
        Place {
            field,
            offset,
            is_behind: true,
        }
    }
}

/// Where bytes stop being an object of a kind.
#[derive(Clone, Copy, Debug, PartialEq, Eq)]
pub struct Refusal {
    /// What they are wanted to be.
    pub kind: Kind,

    /// Where they stop being it.
    pub place: Place,
}

/// Where bytes stop being an object of this kind: the first field that can't be read, where those before it are read one behind the other, and in a
/// field that has fields of its own the first of these. `None` exactly where they are one. Of more than [`Length::MAX`] octets it is the object
/// itself. It takes no memory.
pub fn first_unread(kind: Kind, bytes: &[u8]) -> Option<Place>
    ensures exact { result ≡ unread kind bytes.now }
    ensures none { IsNone result ↔ IsObject kind bytes.now }
    ensures within { IfSome result (λ place. place.offset ≤ length bytes.now) }
{
    let whole = kind.whole();
    if bytes.len() > Length::MAX.as_u32() as usize {
        return Some(Place::unread(whole, 0));
    }
    match unread_from(whole, &[whole], bytes.len(), bytes) {
        Some(place) => Some(closest(bytes, place)),
        None => None,
    }
}

/// As [`first_unread`], with the kind.
pub fn refusal_as(kind: Kind, bytes: &[u8]) -> Option<Refusal>
    ensures { result ≡ refusal_as kind bytes.now }
{
    match first_unread(kind, bytes) {
        Some(place) => Some(Refusal { kind, place }),
        None => None,
    }
}

/// Of two the one with the greater offset; of equals the first.
fn farther(first: Refusal, second: Refusal) -> Refusal
    ensures { result ≡ farther first second }
{
    if first.place.offset < second.place.offset {
        second
    } else {
        first
    }
}

/// Where bytes stop being what they are most like: of certificate, CRL and CSR the one of which the first field that can't be read has the greatest
/// offset, and of equals the first. `None` exactly where they are one of them. It takes no memory.
pub fn farthest(bytes: &[u8]) -> Option<Refusal>
    ensures exact { result ≡ farthest bytes.now }
{
    match (
        first_unread(Kind::Certificate, bytes),
        first_unread(Kind::Crl, bytes),
        first_unread(Kind::Csr, bytes),
    ) {
        (Some(certificate), Some(crl), Some(csr)) => {
            let certificate = Refusal {
                kind: Kind::Certificate,
                place: certificate,
            };
            let crl = Refusal {
                kind: Kind::Crl,
                place: crl,
            };
            let csr = Refusal {
                kind: Kind::Csr,
                place: csr,
            };
            Some(farther(farther(certificate, crl), csr))
        }
        _ => None,
    }
}
