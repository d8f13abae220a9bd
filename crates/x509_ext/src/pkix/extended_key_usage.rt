//! Extended key usage.

use crate::{FixedCriticality, Never};
use x509_der::{
    AssociatedOid, EncodingOrd, Newtype, NewtypeOrd, ObjectIdentifier, SequenceOf, SetMember,
    SetOrd, oid,
};

/// Extended key usage: the purposes for which the key may be used (RFC 5280 4.2.1.12). Its OID is 2.5.29.37, and it
/// isn't critical unless the caller says so. An empty sequence is decoded and encoded too.
///
/// ```text
/// ExtKeyUsageSyntax ::= SEQUENCE OF KeyPurposeId
/// KeyPurposeId ::= OBJECT IDENTIFIER
/// ```
#[derive(Debug, Drop, PartialEq, Eq)]
pub struct ExtendedKeyUsage(pub SequenceOf<ObjectIdentifier>);

impl AssociatedOid for ExtendedKeyUsage {
    ghost use Rattle.x509_ext.specs.Identifiers.{id_ce};

    ghost OID = { id_ce 37 };

    const OID: ObjectIdentifier = oid!(0x55, 0x1D, 37);
}

impl FixedCriticality for ExtendedKeyUsage {
    type Critical = Never;
}

impl Newtype for ExtendedKeyUsage {
    ghost use Rattle.x509_ext.specs.ExtendedKeyUsage.{extended_key_usage_round};

    type Inner = SequenceOf<ObjectIdentifier>;

    ghost round = { extended_key_usage_round };

    fn inner(&self) -> &SequenceOf<ObjectIdentifier> {
        &self.0
    }

    fn from_inner(inner: SequenceOf<ObjectIdentifier>) -> ExtendedKeyUsage {
        ExtendedKeyUsage(inner)
    }
}

impl NewtypeOrd for ExtendedKeyUsage {}

impl SetOrd for ExtendedKeyUsage {
    ghost set_order = { ⟦<ExtendedKeyUsage as EncodingOrd>⟧.encoding_order };
}

impl SetMember for ExtendedKeyUsage {
    ghost use Rattle.std.specs.Prelude.{refl};

    ghost in_der_order = { refl };
}

impl From<SequenceOf<ObjectIdentifier>> for ExtendedKeyUsage {
    ghost use Rattle.std.specs.Prelude.{◌≡◌};

    ghost from_gives = { λ purposes usage. usage.0 ≡ purposes };

    fn from(purposes: SequenceOf<ObjectIdentifier>) -> ExtendedKeyUsage {
        ExtendedKeyUsage(purposes)
    }
}

impl From<ExtendedKeyUsage> for SequenceOf<ObjectIdentifier> {
    ghost use Rattle.std.specs.Prelude.{◌≡◌};

    ghost from_gives = { λ usage purposes. purposes ≡ usage.0 };

    fn from(usage: ExtendedKeyUsage) -> SequenceOf<ObjectIdentifier> {
        let ExtendedKeyUsage(purposes) = usage;
        purposes
    }
}

impl AsRef<SequenceOf<ObjectIdentifier>> for ExtendedKeyUsage {
    ghost use Rattle.std.specs.Prelude.{◌≡◌};

    fn as_ref(&self) -> &SequenceOf<ObjectIdentifier>
        ensures { result.now ≡ self.now.0 }
    {
        &self.0
    }
}

impl AsMut<SequenceOf<ObjectIdentifier>> for ExtendedKeyUsage {
    ghost use Rattle.std.specs.Borrow.{Lends, sem};
    ghost use Rattle.std.specs.Prelude.{◌≡◌};
    ghost use Rattle.x509_ext.specs.KeyRows.{identifier_list_row};
    ghost use Rattle.x509_ext.specs.contracts.pkix.extended_key_usage.ExtendedKeyUsage.{the_row};

    fn as_mut(&mut self) -> &mut SequenceOf<ObjectIdentifier>
        ensures* writes_back { sem 𝓛 (Lends the_row identifier_list_row self.entry result (λ w. record { 0 = w })) }
        ensures value { result.now ≡ self.old.0 }
    {
        &mut self.0
    }
}
