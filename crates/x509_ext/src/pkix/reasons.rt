//! Sets of revocation reasons.

use bitflags::{Flag, Flags, bitflag_items};
use std::alloc::Global;
use std::cmp::Ordering;
use x509_der::{
    Content, EncodingOrd, Error, Room, SetMember, SetOrd, Spelled, Tag, TryClone, ValueOrd,
};
use x509_prim::{cmp_named_bits, put_named_bits, read_named_bits};

/// A set of revocation reasons, of which bit n stands for the named bit n (RFC 5280 4.2.1.13). A bit from 9 on has no
/// name: decoding refuses it as `Malformed`, and encoding as `Value`. [`Flags::iter_names`] gives the reasons that are
/// set, each with its name.
///
/// ```text
/// ReasonFlags ::= BIT STRING {
///     unused                (0),
///     keyCompromise         (1),
///     cACompromise          (2),
///     affiliationChanged    (3),
///     superseded            (4),
///     cessationOfOperation  (5),
///     certificateHold       (6),
///     privilegeWithdrawn    (7),
///     aACompromise          (8) }
/// ```
#[derive(Clone, Copy, Debug, PartialEq, Eq)]
pub struct Reasons(u16);

/// A set of revocation reasons.
pub type ReasonFlags = Reasons;

bitflag_items! {
    impl Reasons: u16 {
        /// A bit that stands for no reason.
        const UNUSED = 1;

        /// The key has been compromised, or may have been.
        const KEY_COMPROMISE = 2;

        /// The key of the authority has been compromised, or may have been.
        const CA_COMPROMISE = 4;

        /// The subject's name or other information about it has changed.
        const AFFILIATION_CHANGED = 8;

        /// Another certificate supersedes it.
        const SUPERSEDED = 16;

        /// The certificate is no longer needed.
        const CESSATION_OF_OPERATION = 32;

        /// The certificate is on hold.
        const CERTIFICATE_HOLD = 64;

        /// A privilege that the certificate grants has been withdrawn.
        const PRIVILEGE_WITHDRAWN = 128;

        /// The key of the attribute authority has been compromised, or may have been.
        const AA_COMPROMISE = 256;
    }
}

impl Flags for Reasons {
    ghost use Rattle.std.specs.Prelude.{⊤};
    ghost use Rattle.x509_ext.specs.Reasons.{reason_names};

    type Bits = u16;

    ghost exact = { ⊤ };

    ghost table = { reason_names };

    ghost set_of = { λ reasons. reasons.0 };

    fn flags<'a>() -> &'a [Flag<Reasons>] {
        Reasons::FLAGS
    }

    fn bits(&self) -> u16 {
        self.0
    }

    fn from_bits_retain(bits: u16) -> Reasons {
        Reasons(bits)
    }
}

#[tactic(auto, using(x509_prim::specs::NamedBitsLaws::flag_is_read))]
impl Content for Reasons {
    ghost use Rattle.x509_der.specs.declared.tag.Tag.TheVariants.{BitString};
    ghost use Rattle.x509_ext.specs.Reasons.{reason_names, reason_set};
    ghost use Rattle.x509_prim.specs.NamedBits.{flag_contents, flag_writing};
    ghost use Rattle.x509_prim.specs.NamedBitsLaws.{flag_contents_lawful};

    ghost contents = { flag_contents reason_set reason_names };

    ghost takes_memory = { ⊥ };

    ghost written_as = { flag_writing reason_set reason_names };

    ghost IDENTIFIER = { BitString };

    const IDENTIFIER: Tag = Tag::BitString;

    fn read_content(_alloc: Global, octets: &[u8]) -> Result<Reasons, Error> {
        read_named_bits(octets)
    }

    fn write_content<R: Room>(&self, room: &mut R) -> Result<(), Error> {
        put_named_bits(self, room)
    }

    ghost contents_lawful = { flag_contents_lawful reason_set reason_names };
}

impl Spelled for Reasons {
    ghost use Rattle.std.specs.Prelude.{◌≡◌, true};
    ghost use Rattle.x509_ext.specs.Reasons.{reason_names};
    ghost use Rattle.x509_prim.specs.NamedBits.{has_names};

    ghost premise = { λ reasons. has_names reason_names reasons.0 ≡ true };

    fn has_spelling(&self) {
        let _set = self.0;
    }
}

impl ValueOrd for Reasons {
    ghost use Rattle.x509_der.specs.Writing.{writes};
    ghost use Rattle.x509_ext.specs.Reasons.{reason_names, reason_set};
    ghost use Rattle.x509_prim.specs.NamedBits.{flag_writing};
    ghost use Rattle.x509_prim.specs.SetOrder.{flag_order, flag_ordered};

    ghost order = { flag_order reason_set reason_names };

    fn value_cmp(&self, other: &Reasons) -> Ordering {
        cmp_named_bits(self, other)
    }

    ghost ordered = { flag_ordered reason_set reason_names (writes (flag_writing reason_set reason_names)) };
}

impl SetOrd for Reasons {
    ghost set_order = { ⟦<Reasons as EncodingOrd>⟧.encoding_order };
}

impl SetMember for Reasons {
    ghost use Rattle.std.specs.Prelude.{refl};

    ghost in_der_order = { refl };
}

impl TryClone for Reasons {
    ghost use Rattle.std.specs.Prelude.{◌≡◌, Ok};

    fn try_clone(&self, _alloc: Global) -> Result<Reasons, Error>
        ensures { result ≡ Ok self.now }
    {
        Ok(*self)
    }
}
