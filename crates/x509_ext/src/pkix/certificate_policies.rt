//! Certificate policies.

use crate::pkix::policy_information::PolicyInformation;
use crate::{FixedCriticality, Never};
use x509_der::{AssociatedOid, Newtype, ObjectIdentifier, SequenceOf, oid};

/// The policies under which the certificate was issued and for which it may be used (RFC 5280 4.2.1.4). Its OID is
/// 2.5.29.32, and it isn't critical unless the caller says so. An empty sequence is decoded and encoded too.
///
/// ```text
/// CertificatePolicies ::= SEQUENCE OF PolicyInformation
/// ```
#[derive(Debug, Drop, PartialEq, Eq)]
pub struct CertificatePolicies(pub SequenceOf<PolicyInformation>);

impl AssociatedOid for CertificatePolicies {
    ghost use Rattle.x509_ext.specs.Identifiers.{id_ce};

    ghost OID = { id_ce 32 };

    const OID: ObjectIdentifier = oid!(0x55, 0x1D, 32);
}

impl FixedCriticality for CertificatePolicies {
    type Critical = Never;
}

impl Newtype for CertificatePolicies {
    ghost use Rattle.x509_ext.specs.CertificatePolicies.{policies_round};

    type Inner = SequenceOf<PolicyInformation>;

    ghost round = { policies_round };

    fn inner(&self) -> &SequenceOf<PolicyInformation> {
        &self.0
    }

    fn from_inner(inner: SequenceOf<PolicyInformation>) -> CertificatePolicies {
        CertificatePolicies(inner)
    }
}

impl From<SequenceOf<PolicyInformation>> for CertificatePolicies {
    ghost use Rattle.std.specs.Prelude.{◌≡◌};

    ghost from_gives = { λ information policies. policies.0 ≡ information };

    fn from(information: SequenceOf<PolicyInformation>) -> CertificatePolicies {
        CertificatePolicies(information)
    }
}

impl From<CertificatePolicies> for SequenceOf<PolicyInformation> {
    ghost use Rattle.std.specs.Prelude.{◌≡◌};

    ghost from_gives = { λ policies information. information ≡ policies.0 };

    fn from(policies: CertificatePolicies) -> SequenceOf<PolicyInformation> {
        let CertificatePolicies(information) = policies;
        information
    }
}

impl AsRef<SequenceOf<PolicyInformation>> for CertificatePolicies {
    ghost use Rattle.std.specs.Prelude.{◌≡◌};

    fn as_ref(&self) -> &SequenceOf<PolicyInformation>
        ensures { result.now ≡ self.now.0 }
    {
        &self.0
    }
}

impl AsMut<SequenceOf<PolicyInformation>> for CertificatePolicies {
    ghost use Rattle.std.specs.Borrow.{Lends, sem};
    ghost use Rattle.std.specs.Prelude.{◌≡◌};
    ghost use Rattle.x509_ext.specs.PolicyRows.{policy_list_row};
    ghost use Rattle.x509_ext.specs.contracts.pkix.certificate_policies.CertificatePolicies.{the_row};

    fn as_mut(&mut self) -> &mut SequenceOf<PolicyInformation>
        ensures* writes_back { sem 𝓛 (Lends the_row policy_list_row self.entry result (λ w. record { 0 = w })) }
        ensures value { result.now ≡ self.old.0 }
    {
        &mut self.0
    }
}
