//! Lists of policies, encoded of these.

ghost use Rattle.std.specs.Prelude.{◌≡◌, ◌⊎◌, IfOk, MatchResult};
ghost use Rattle.x509_c_calls.specs.Described.{EncodesDescribed};
ghost use Rattle.x509_c_calls.specs.DescribedPolicyLists.{ArePoliciesOf, RefusesPolicies, identifiers_in};
ghost use Rattle.x509_c_calls.specs.Status.{Fills};
ghost use Rattle.x509_der.specs.Form.{universal};
ghost use Rattle.x509_der.specs.List.{list_of};
ghost use Rattle.x509_der.specs.declared.error.ErrorKind.TheVariants.{Memory};
ghost use Rattle.x509_der.specs.declared.tag.Tag.TheVariants.{Sequence};
ghost use Rattle.x509_ext.specs.PolicyInformation.{policy_information};

use crate::build::read_each;
use crate::{Status, write};
use std::alloc::Global;
use x509_der::{ErrorKind, ObjectIdentifier, SequenceOf, SetOfVec, Spelled};
use x509_ext::pkix::certpolicy::PolicyInformation;

/// The OIDs of the policies.
fn identifiers_of(
    alloc: Global,
    policies: &[PolicyInformation],
) -> Result<Vec<ObjectIdentifier>, ErrorKind>
    ensures { MatchResult result (λ oids. oids.items ≡ identifiers_in policies.now) (λ e. e ≡ Memory) }
{
    let mut oids = Vec::new(alloc);
    for policy in policies {
        if oids.push(policy.policy_identifier).is_err() {
            return Err(ErrorKind::Memory);
        }
    }
    Ok(oids)
}

/// The list of the policies whose encodings the bytes are, one after the other.
fn policies_of(alloc: Global, bytes: &[u8]) -> Result<SequenceOf<PolicyInformation>, ErrorKind>
    ensures found { MatchResult result (ArePoliciesOf bytes.now) (λ e. (e ≡ Memory) ⊎ RefusesPolicies bytes.now e) }
    ensures good { IfOk result (universal Sequence (list_of policy_information)).good }
{
    if bytes.is_empty() {
        return Err(ErrorKind::Value);
    }
    let policies = match read_each::<PolicyInformation>(alloc, bytes) {
        Ok(policies) => policies,
        Err(e) => return Err(e),
    };
    let oids = match identifiers_of(alloc, policies.as_slice()) {
        Ok(oids) => oids,
        Err(e) => return Err(e),
    };
    match SetOfVec::try_from_vec(oids) {
        Ok(_) => {
            let list = SequenceOf::from(policies);
            list.has_spelling();
            Ok(list)
        }
        Err(_) => Err(ErrorKind::Value),
    }
}

/// Puts the encoding of a CertificatePolicies (RFC 5280 4.2.1.4) at the front of the buffer `room`: of the policies whose
/// encodings are given one after the other.
///
/// # Errors
///
/// [`Status::NoRoom`] where the buffer is too small; then `written` is the needed length. The error of decoding the
/// policies; `Value` where there are none, or one is there twice. `Overlength` where the encoding is too long. `Memory`
/// when out of memory.
#[tactic(auto, unfolding(crate::specs::Calls::Encodes, crate::specs::Status::Fills))]
pub fn policies_encode(
    alloc: Global,
    policies: &[u8],
    room: &mut [u8],
    written: &mut usize,
) -> Status
    ensures { Fills (EncodesDescribed (universal Sequence (list_of policy_information)) (ArePoliciesOf policies.now) (RefusesPolicies policies.now))
        room.old room.new written.old written.new result }
{
    match policies_of(alloc, policies) {
        Ok(list) => write(&list, room, written),
        Err(e) => Status::Refused(e),
    }
}
