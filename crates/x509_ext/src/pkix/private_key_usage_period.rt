//! The private key usage period.

use crate::{FixedCriticality, Never};
use std::alloc::Global;
use std::cmp::Ordering;
use x509_base::GeneralizedTime;
use x509_der::{
    AssociatedOid, CmpPart, Content, EncodingOrd, Error, ObjectIdentifier, PutPart, Room,
    SetMember, SetOrd, Spelled, Tag, TryClone, ValueOrd, both_optional_implicit, end, oid,
    option_has_spelling, optional_implicit, read_optional_implicit,
};

/// The period in which the private key may sign, where that isn't the validity of its certificate (X.509 9.2.2.5). Its
/// times are encoded as they are, under any profile. Its OID is 2.5.29.16 (RFC 5280 appendix A.2), and it isn't
/// critical.
///
/// ```text
/// PrivateKeyUsagePeriod ::= SEQUENCE {
///     notBefore  [0] IMPLICIT GeneralizedTime OPTIONAL,
///     notAfter   [1] IMPLICIT GeneralizedTime OPTIONAL }
/// ```
#[derive(Debug, Drop, PartialEq, Eq)]
pub struct PrivateKeyUsagePeriod {
    /// The first moment.
    pub not_before: Option<GeneralizedTime>,

    /// The last moment.
    pub not_after: Option<GeneralizedTime>,
}

impl AssociatedOid for PrivateKeyUsagePeriod {
    ghost use Rattle.x509_ext.specs.Identifiers.{id_ce};

    ghost OID = { id_ce 16 };

    const OID: ObjectIdentifier = oid!(0x55, 0x1D, 16);
}

impl FixedCriticality for PrivateKeyUsagePeriod {
    type Critical = Never;
}

impl TryClone for PrivateKeyUsagePeriod {
    ghost use Rattle.std.specs.Prelude.{◌≡◌, Ok};

    fn try_clone(&self, _alloc: Global) -> Result<PrivateKeyUsagePeriod, Error>
        ensures { result ≡ Ok self.now }
    {
        Ok(PrivateKeyUsagePeriod {
            not_before: self.not_before,
            not_after: self.not_after,
        })
    }
}

#[tactic(auto, unfolding(crate::specs::PrivateKeyUsagePeriod::private_key_usage_period_fields, x509_der::specs::Frames::fields_reading, x509_der::specs::Frames::fields_octets))]
impl Content for PrivateKeyUsagePeriod {
    ghost use Rattle.x509_der.specs.declared.tag.Tag.TheVariants.{Sequence};
    ghost use Rattle.x509_ext.specs.PrivateKeyUsagePeriod as grammar;

    ghost contents = { grammar.private_key_usage_period_contents };

    ghost takes_memory = { ⊥ };

    ghost IDENTIFIER = { Sequence };

    const IDENTIFIER: Tag = Tag::Sequence;

    fn read_content(alloc: Global, octets: &[u8]) -> Result<PrivateKeyUsagePeriod, Error> {
        let mut rest = octets;
        let not_before = read_optional_implicit::<GeneralizedTime>(alloc, 0, &mut rest)?;
        let not_after = read_optional_implicit::<GeneralizedTime>(alloc, 1, &mut rest)?;
        end(rest)?;
        Ok(PrivateKeyUsagePeriod {
            not_before,
            not_after,
        })
    }

    fn write_content<R: Room>(&self, room: &mut R) -> Result<(), Error> {
        let parts = (
            optional_implicit(0, &self.not_before),
            optional_implicit(1, &self.not_after),
        );
        parts.put_part(room)
    }

    ghost contents_lawful = { grammar.private_key_usage_period_contents_lawful };
}

impl ValueOrd for PrivateKeyUsagePeriod {
    ghost use Rattle.x509_ext.specs.PrivateKeyUsagePeriod as grammar;

    ghost order = { grammar.private_key_usage_period_order };

    fn value_cmp(&self, other: &PrivateKeyUsagePeriod) -> Ordering {
        let parts = (
            both_optional_implicit(0, &self.not_before, &other.not_before),
            both_optional_implicit(1, &self.not_after, &other.not_after),
        );
        parts.cmp_part(None, None)
    }

    ghost ordered = { grammar.private_key_usage_period_ordered };
}

impl SetOrd for PrivateKeyUsagePeriod {
    ghost set_order = { ⟦<PrivateKeyUsagePeriod as EncodingOrd>⟧.encoding_order };
}

impl SetMember for PrivateKeyUsagePeriod {
    ghost use Rattle.std.specs.Prelude.{refl};

    ghost in_der_order = { refl };
}

#[tactic(auto, unfolding(crate::specs::PrivateKeyUsagePeriod::private_key_usage_period_fields, x509_der::specs::Frames::fields_good))]
impl Spelled for PrivateKeyUsagePeriod {
    fn has_spelling(&self) {
        option_has_spelling(&self.not_before);
        option_has_spelling(&self.not_after);
    }
}
