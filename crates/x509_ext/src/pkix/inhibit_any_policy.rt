//! Inhibit anyPolicy.

use crate::{Always, FixedCriticality};
use x509_der::{
    AssociatedOid, EncodingOrd, Newtype, NewtypeOrd, ObjectIdentifier, SetMember, SetOrd, oid,
};

/// The OID of [`InhibitAnyPolicy`], 2.5.29.54.
pub const ID_CE_INHIBIT_ANY_POLICY: ObjectIdentifier = oid!(0x55, 0x1D, 54);

/// After how many further certificates of a path anyPolicy doesn't count as a match for other policies any more (RFC
/// 5280 4.2.1.14). Its OID is 2.5.29.54, and it is critical.
///
/// ```text
/// InhibitAnyPolicy ::= SkipCerts
/// SkipCerts ::= INTEGER (0..4294967295)
/// ```
#[derive(Clone, Copy, Debug, Default, PartialEq, Eq)]
pub struct InhibitAnyPolicy(pub u32);

impl AssociatedOid for InhibitAnyPolicy {
    ghost use Rattle.x509_ext.specs.Identifiers.{id_ce};

    ghost OID = { id_ce 54 };

    const OID: ObjectIdentifier = ID_CE_INHIBIT_ANY_POLICY;
}

impl FixedCriticality for InhibitAnyPolicy {
    type Critical = Always;
}

impl Newtype for InhibitAnyPolicy {
    ghost use Rattle.x509_ext.specs.InhibitAnyPolicy.{inhibit_any_policy_round};

    type Inner = u32;

    ghost round = { inhibit_any_policy_round };

    fn inner(&self) -> &u32 {
        &self.0
    }

    fn from_inner(inner: u32) -> InhibitAnyPolicy {
        InhibitAnyPolicy(inner)
    }
}

impl NewtypeOrd for InhibitAnyPolicy {}

impl SetOrd for InhibitAnyPolicy {
    ghost set_order = { ⟦<InhibitAnyPolicy as EncodingOrd>⟧.encoding_order };
}

impl SetMember for InhibitAnyPolicy {
    ghost use Rattle.std.specs.Prelude.{refl};

    ghost in_der_order = { refl };
}

impl From<u32> for InhibitAnyPolicy {
    ghost use Rattle.std.specs.Prelude.{◌≡◌};

    ghost from_gives = { λ certificates inhibit. inhibit.0 ≡ certificates };

    fn from(certificates: u32) -> InhibitAnyPolicy {
        InhibitAnyPolicy(certificates)
    }
}

impl From<InhibitAnyPolicy> for u32 {
    ghost use Rattle.std.specs.Prelude.{◌≡◌};

    ghost from_gives = { λ inhibit certificates. certificates ≡ inhibit.0 };

    fn from(inhibit: InhibitAnyPolicy) -> u32 {
        let InhibitAnyPolicy(certificates) = inhibit;
        certificates
    }
}

impl AsRef<u32> for InhibitAnyPolicy {
    ghost use Rattle.std.specs.Prelude.{◌≡◌};

    fn as_ref(&self) -> &u32
        ensures { result.now ≡ self.now.0 }
    {
        &self.0
    }
}

impl AsMut<u32> for InhibitAnyPolicy {
    ghost use Rattle.std.specs.Borrow.{Lends, sem, u32};
    ghost use Rattle.std.specs.Prelude.{◌≡◌};
    ghost use Rattle.x509_ext.specs.contracts.pkix.inhibit_any_policy.InhibitAnyPolicy.{the_row};

    fn as_mut(&mut self) -> &mut u32
        ensures* writes_back { sem 𝓛 (Lends the_row u32 self.entry result (λ w. record { 0 = w })) }
        ensures value { result.now ≡ self.old.0 }
    {
        &mut self.0
    }
}
