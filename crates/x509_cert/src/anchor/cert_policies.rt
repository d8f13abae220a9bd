//! Flags about policies on the paths from a trust anchor.

use bitflags::{Flag, Flags, bitflag_items};
use std::alloc::Global;
use std::cmp::Ordering;
use x509_der::{
    Content, EncodingOrd, Error, Room, SetMember, SetOrd, Spelled, Tag, TryClone, ValueOrd,
};
use x509_prim::{cmp_named_bits, put_named_bits, read_named_bits};

/// Flags about policies on the paths from a trust anchor; bit n stands for the named bit n (RFC 5914 2.5). A bit from 3
/// on has no name: decoding refuses it as `Malformed`, and encoding as `Value`. [`Flags::iter_names`] gives the flags
/// that are set, with their names.
///
/// ```text
/// CertPolicyFlags ::= BIT STRING {
///     inhibitPolicyMapping   (0),
///     requireExplicitPolicy  (1),
///     inhibitAnyPolicy       (2) }
/// ```
#[derive(Clone, Copy, Debug, PartialEq, Eq)]
pub struct CertPolicies(u16);

/// Flags about policies on the paths from a trust anchor.
pub type CertPolicyFlags = CertPolicies;

bitflag_items! {
    impl CertPolicies: u16 {
        /// Policies aren't mapped.
        const INHIBIT_POLICY_MAPPING = 1;

        /// The path has to be valid for one of the anchor's policies.
        const REQUIRE_EXPLICIT_POLICY = 2;

        /// anyPolicy doesn't count as a match for other policies.
        const INHIBIT_ANY_POLICY = 4;
    }
}

impl Flags for CertPolicies {
    ghost use Rattle.std.specs.Prelude.{⊤};
    ghost use Rattle.x509_cert.specs.CertPolicies.{cert_policies_names};

    type Bits = u16;

    ghost exact = { ⊤ };

    ghost table = { cert_policies_names };

    ghost set_of = { λ policies. policies.0 };

    fn flags<'a>() -> &'a [Flag<CertPolicies>] {
        CertPolicies::FLAGS
    }

    fn bits(&self) -> u16 {
        self.0
    }

    fn from_bits_retain(bits: u16) -> CertPolicies {
        CertPolicies(bits)
    }
}

#[tactic(auto, using(x509_prim::specs::NamedBitsLaws::flag_is_read))]
impl Content for CertPolicies {
    ghost use Rattle.x509_cert.specs.CertPolicies.{cert_policies_names, cert_policies_set};
    ghost use Rattle.x509_der.specs.declared.tag.Tag.TheVariants.{BitString};
    ghost use Rattle.x509_prim.specs.NamedBits.{flag_contents, flag_writing};
    ghost use Rattle.x509_prim.specs.NamedBitsLaws.{flag_contents_lawful};

    ghost contents = { flag_contents cert_policies_set cert_policies_names };

    ghost takes_memory = { ⊥ };

    ghost written_as = { flag_writing cert_policies_set cert_policies_names };

    ghost IDENTIFIER = { BitString };

    const IDENTIFIER: Tag = Tag::BitString;

    fn read_content(_alloc: Global, octets: &[u8]) -> Result<CertPolicies, Error> {
        read_named_bits(octets)
    }

    fn write_content<R: Room>(&self, room: &mut R) -> Result<(), Error> {
        put_named_bits(self, room)
    }

    ghost contents_lawful = { flag_contents_lawful cert_policies_set cert_policies_names };
}

impl Spelled for CertPolicies {
    ghost use Rattle.x509_cert.specs.AnchorMade.{HasNamedFlags};

    ghost premise = { HasNamedFlags };

    fn has_spelling(&self) {
        let _set = self.0;
    }
}

impl ValueOrd for CertPolicies {
    ghost use Rattle.x509_cert.specs.CertPolicies.{cert_policies_names, cert_policies_set};
    ghost use Rattle.x509_der.specs.Writing.{writes};
    ghost use Rattle.x509_prim.specs.NamedBits.{flag_writing};
    ghost use Rattle.x509_prim.specs.SetOrder.{flag_order, flag_ordered};

    ghost order = { flag_order cert_policies_set cert_policies_names };

    fn value_cmp(&self, other: &CertPolicies) -> Ordering {
        cmp_named_bits(self, other)
    }

    ghost ordered = { flag_ordered cert_policies_set cert_policies_names (writes (flag_writing cert_policies_set cert_policies_names)) };
}

impl SetOrd for CertPolicies {
    ghost set_order = { ⟦<CertPolicies as EncodingOrd>⟧.encoding_order };
}

impl SetMember for CertPolicies {
    ghost use Rattle.std.specs.Prelude.{refl};

    ghost in_der_order = { refl };
}

impl TryClone for CertPolicies {
    ghost use Rattle.std.specs.Prelude.{◌≡◌, Ok};

    fn try_clone(&self, _alloc: Global) -> Result<CertPolicies, Error>
        ensures { result ≡ Ok self.now }
    {
        Ok(*self)
    }
}
