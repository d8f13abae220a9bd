//! What is asked of certificate policies.

ghost use Rattle.std.specs.List.{list_any};
ghost use Rattle.std.specs.Prelude.{◌≡◌, bytes_eq};
ghost use Rattle.x509_lint.specs.Words.{passes};

use x509_der::{ObjectIdentifier, oid};
use x509_ext::pkix::CertificatePolicies;
use x509_ext::pkix::certpolicy::{PolicyInformation, PolicyQualifierInfo};
use x509_lint::lists::{Test, any_of};
use x509_lint::passes;

/// anyPolicy, 2.5.29.32.0 (RFC 5280 4.2.1.4).
pub(crate) const ANY_POLICY: ObjectIdentifier = oid!(0x55, 0x1D, 32, 0);

/// 2.23.140.1.2.1: the domain is validated (TLS BR 7.1.6.1).
pub(crate) const DOMAIN_VALIDATED: ObjectIdentifier = oid!(0x67, 0x81, 0x0C, 0x01, 0x02, 1);

/// 2.23.140.1.2.2: the organization is.
pub(crate) const ORGANIZATION_VALIDATED: ObjectIdentifier = oid!(0x67, 0x81, 0x0C, 0x01, 0x02, 2);

/// 2.23.140.1.2.3: the individual is.
pub(crate) const INDIVIDUAL_VALIDATED: ObjectIdentifier = oid!(0x67, 0x81, 0x0C, 0x01, 0x02, 3);

/// 2.23.140.1.1: extended validation.
pub(crate) const EXTENDED_VALIDATION: ObjectIdentifier = oid!(0x67, 0x81, 0x0C, 0x01, 0x01);

/// id-qt-cps, 1.3.6.1.5.5.7.2.1 (RFC 5280 4.2.1.4).
const CPS: ObjectIdentifier = oid!(0x2B, 0x06, 0x01, 0x05, 0x05, 0x07, 2, 1);

/// That a policy has the OID.
#[derive(Clone, Copy)]
struct OfPolicy(ObjectIdentifier);

impl Test<PolicyInformation> for OfPolicy {
    ghost use Rattle.std.specs.Prelude.{bytes_eq};

    ghost holds_of = { λ test policy. bytes_eq policy.policy_identifier test.0 };

    fn holds_of(&self, policy: &PolicyInformation) -> bool {
        policy.policy_identifier == self.0
    }
}

/// Whether the policies are read, and one has the OID.
pub(crate) fn has_policy(oid: ObjectIdentifier, policies: &Option<CertificatePolicies>) -> bool
    ensures { result ≡ passes (λ p. list_any (λ policy. bytes_eq policy.policy_identifier oid) p.0) policies.now }
{
    passes!(policies, policies => any_of(&OfPolicy(oid), policies.0.as_slice()))
}

/// That a policy is one of those that TLS BR 7.1.6.1 reserves.
pub(crate) struct ReservedPolicy;

impl Test<PolicyInformation> for ReservedPolicy {
    ghost use Rattle.x509_lint_web.specs.Policy.{is_reserved};

    ghost holds_of = { λ test. is_reserved };

    fn holds_of(&self, policy: &PolicyInformation) -> bool {
        let identifier = policy.policy_identifier;
        identifier == DOMAIN_VALIDATED
            || (identifier == ORGANIZATION_VALIDATED
                || (identifier == INDIVIDUAL_VALIDATED || identifier == EXTENDED_VALIDATION))
    }
}

/// That a policy has qualifiers.
pub(crate) struct QualifiedPolicy;

impl Test<PolicyInformation> for QualifiedPolicy {
    ghost use Rattle.std.specs.Prelude.{is_some};

    ghost holds_of = { λ test policy. is_some policy.policy_qualifiers };

    fn holds_of(&self, policy: &PolicyInformation) -> bool {
        policy.policy_qualifiers.is_some()
    }
}

/// That a qualifier isn't a CPS pointer.
struct OtherQualifier;

impl Test<PolicyQualifierInfo> for OtherQualifier {
    ghost use Rattle.std.specs.Prelude.{bytes_eq, not};
    ghost use Rattle.x509_ext.specs.Identifiers.{id_pkix};

    ghost holds_of = { λ test q. not (bytes_eq q.policy_qualifier_id (id_pkix 2 1)) };

    fn holds_of(&self, qualifier: &PolicyQualifierInfo) -> bool {
        qualifier.policy_qualifier_id != CPS
    }
}

/// That a policy has a qualifier that isn't a CPS pointer.
pub(crate) struct OtherQualified;

impl Test<PolicyInformation> for OtherQualified {
    ghost use Rattle.x509_lint_web.specs.Policy.{has_other_qualifier};

    ghost holds_of = { λ test. has_other_qualifier };

    fn holds_of(&self, policy: &PolicyInformation) -> bool {
        passes!(&policy.policy_qualifiers, qualifiers => any_of(&OtherQualifier, qualifiers.as_slice()))
    }
}
