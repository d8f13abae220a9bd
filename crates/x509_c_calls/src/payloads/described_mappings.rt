//! Lists of pairs of policies, encoded of these.

ghost use Rattle.std.specs.List.{list_any};
ghost use Rattle.std.specs.Prelude.{◌≡◌, ◌⊎◌, IfOk, MatchResult};
ghost use Rattle.x509_c_calls.specs.Described.{EncodesDescribed};
ghost use Rattle.x509_c_calls.specs.DescribedMappings.{AreMappingsOf, RefusesMappings, has_any_policy};
ghost use Rattle.x509_c_calls.specs.Status.{Fills};
ghost use Rattle.x509_der.specs.Form.{universal};
ghost use Rattle.x509_der.specs.List.{list_of};
ghost use Rattle.x509_der.specs.declared.error.ErrorKind.TheVariants.{Memory};
ghost use Rattle.x509_der.specs.declared.tag.Tag.TheVariants.{Sequence};
ghost use Rattle.x509_ext.specs.PolicyMapping.{policy_mapping};

use crate::build::read_each;
use crate::payloads::described_policy::ANY_POLICY;
use crate::{Status, write};
use std::alloc::Global;
use x509_der::{ErrorKind, SequenceOf, Spelled};
use x509_ext::pkix::PolicyMapping;

/// Whether one policy of the pair is anyPolicy.
fn has_any_policy(mapping: &PolicyMapping) -> bool
    ensures { result ≡ has_any_policy mapping.now }
{
    mapping.issuer_domain_policy.as_bytes() == ANY_POLICY.as_slice()
        || mapping.subject_domain_policy.as_bytes() == ANY_POLICY.as_slice()
}

/// Whether one of the pairs has anyPolicy.
fn have_any_policy(mappings: &[PolicyMapping]) -> bool
    ensures { result ≡ list_any has_any_policy mappings.now }
{
    mappings.iter().any(|mapping| has_any_policy(mapping))
}

/// The list of the pairs whose encodings the bytes are, one after the other.
fn mappings_of(alloc: Global, bytes: &[u8]) -> Result<SequenceOf<PolicyMapping>, ErrorKind>
    ensures found { MatchResult result (AreMappingsOf bytes.now) (λ e. (e ≡ Memory) ⊎ RefusesMappings bytes.now e) }
    ensures good { IfOk result (universal Sequence (list_of policy_mapping)).good }
{
    if bytes.is_empty() {
        return Err(ErrorKind::Value);
    }
    let mappings = match read_each::<PolicyMapping>(alloc, bytes) {
        Ok(mappings) => mappings,
        Err(e) => return Err(e),
    };
    if have_any_policy(mappings.as_slice()) {
        return Err(ErrorKind::Value);
    }
    let list = SequenceOf::from(mappings);
    list.has_spelling();
    Ok(list)
}

/// Puts the encoding of a PolicyMappings (RFC 5280 4.2.1.5) at the front of the buffer `room`: of the pairs whose encodings
/// are given one after the other.
///
/// # Errors
///
/// [`Status::NoRoom`] where the buffer is too small; then `written` is the needed length. The error of decoding the pairs;
/// `Value` where there are none, or one has anyPolicy. `Overlength` where the encoding is too long. `Memory` when out of
/// memory.
#[tactic(auto, unfolding(crate::specs::Calls::Encodes, crate::specs::Status::Fills))]
pub fn mappings_encode(
    alloc: Global,
    mappings: &[u8],
    room: &mut [u8],
    written: &mut usize,
) -> Status
    ensures { Fills (EncodesDescribed (universal Sequence (list_of policy_mapping)) (AreMappingsOf mappings.now) (RefusesMappings mappings.now))
        room.old room.new written.old written.new result }
{
    match mappings_of(alloc, mappings) {
        Ok(list) => write(&list, room, written),
        Err(e) => Status::Refused(e),
    }
}
