//! CRL reason codes.

use crate::{FixedCriticality, Never};
use std::alloc::Global;
use std::cmp::Ordering;
use x509_der::{
    AssociatedOid, Content, EncodingOrd, Error, ObjectIdentifier, Room, SetMember, SetOrd, Spelled,
    Tag, TryClone, ValueOrd, oid,
};
use x509_prim::{NamedNumber, cmp_named_numbers, put_named_number, read_named_number};

/// The reason for which a certificate was revoked (RFC 5280 5.3.1). Its OID is 2.5.29.21, and it isn't critical.
/// Reasons are ordered by their numbers.
///
/// ```text
/// CRLReason ::= ENUMERATED {
///     unspecified           (0),
///     keyCompromise         (1),
///     cACompromise          (2),
///     affiliationChanged    (3),
///     superseded            (4),
///     cessationOfOperation  (5),
///     certificateHold       (6),
///     removeFromCRL         (8),
///     privilegeWithdrawn    (9),
///     aACompromise         (10) }
/// ```
#[derive(Clone, Copy, Debug, PartialEq, Eq, PartialOrd, Ord)]
pub enum CrlReason {
    /// No reason is given.
    Unspecified = 0,

    /// The key has been compromised, or may have been.
    KeyCompromise = 1,

    /// The key of the authority has been compromised, or may have been.
    CaCompromise = 2,

    /// The subject's name or other information about it has changed.
    AffiliationChanged = 3,

    /// Another certificate supersedes it.
    Superseded = 4,

    /// It is no longer needed.
    CessationOfOperation = 5,

    /// It is on hold.
    CertificateHold = 6,

    /// In a delta CRL: it is no longer on hold, or has expired.
    RemoveFromCRL = 8,

    /// A privilege that it grants has been withdrawn.
    PrivilegeWithdrawn = 9,

    /// The key of the attribute authority has been compromised, or may have been.
    AaCompromise = 10,
}

impl NamedNumber for CrlReason {
    ghost use Rattle.x509_ext.specs.CrlReason.{crl_reason_names};

    ghost names = { crl_reason_names };

    fn number(&self) -> u8 {
        *self as u8
    }

    fn from_number(number: u8) -> Option<CrlReason> {
        match number {
            0 => Some(CrlReason::Unspecified),
            1 => Some(CrlReason::KeyCompromise),
            2 => Some(CrlReason::CaCompromise),
            3 => Some(CrlReason::AffiliationChanged),
            4 => Some(CrlReason::Superseded),
            5 => Some(CrlReason::CessationOfOperation),
            6 => Some(CrlReason::CertificateHold),
            8 => Some(CrlReason::RemoveFromCRL),
            9 => Some(CrlReason::PrivilegeWithdrawn),
            10 => Some(CrlReason::AaCompromise),
            _ => None,
        }
    }
}

impl Content for CrlReason {
    ghost use Rattle.x509_der.specs.declared.tag.Tag.TheVariants.{Enumerated};
    ghost use Rattle.x509_ext.specs.CrlReason.{crl_reason_names};
    ghost use Rattle.x509_prim.specs.Names.{named_contents};
    ghost use Rattle.x509_prim.specs.NamesLaws.{named_contents_lawful};

    ghost contents = { named_contents crl_reason_names };

    ghost takes_memory = { ⊥ };

    ghost IDENTIFIER = { Enumerated };

    const IDENTIFIER: Tag = Tag::Enumerated;

    fn read_content(_alloc: Global, octets: &[u8]) -> Result<CrlReason, Error> {
        read_named_number(octets)
    }

    fn write_content<R: Room>(&self, room: &mut R) -> Result<(), Error> {
        put_named_number(self, room)
    }

    ghost contents_lawful = { named_contents_lawful crl_reason_names };
}

impl ValueOrd for CrlReason {
    ghost use Rattle.x509_der.specs.declared.tag.Tag.TheVariants.{Enumerated};
    ghost use Rattle.x509_der.specs.Writing.{plain, writes};
    ghost use Rattle.x509_ext.specs.CrlReason.{crl_reason_names};
    ghost use Rattle.x509_prim.specs.NamesLaws.{named_order, named_ordered};

    ghost order = { named_order Enumerated crl_reason_names };

    fn value_cmp(&self, other: &CrlReason) -> Ordering {
        cmp_named_numbers(self, other)
    }

    ghost ordered = { named_ordered Enumerated crl_reason_names (writes plain) };
}

impl SetOrd for CrlReason {
    ghost set_order = { ⟦<CrlReason as EncodingOrd>⟧.encoding_order };
}

impl SetMember for CrlReason {
    ghost use Rattle.std.specs.Prelude.{refl};

    ghost in_der_order = { refl };
}

impl Spelled for CrlReason {
    fn has_spelling(&self) {}
}

impl AssociatedOid for CrlReason {
    ghost use Rattle.x509_ext.specs.Identifiers.{id_ce};

    ghost OID = { id_ce 21 };

    const OID: ObjectIdentifier = oid!(0x55, 0x1D, 21);
}

impl FixedCriticality for CrlReason {
    type Critical = Never;
}

impl TryClone for CrlReason {
    ghost use Rattle.std.specs.Prelude.{◌≡◌, Ok};

    fn try_clone(&self, _alloc: Global) -> Result<CrlReason, Error>
        ensures { result ≡ Ok self.now }
    {
        Ok(*self)
    }
}
