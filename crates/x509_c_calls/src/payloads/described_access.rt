//! Access descriptions and name constraints, encoded of general names.

ghost use Rattle.std.specs.Prelude.{◌≡◌, ◌⊎◌, IfOk, MatchResult};
ghost use Rattle.x509_c_calls.specs.Described.{EncodesDescribed};
ghost use Rattle.x509_c_calls.specs.DescribedParts.{AreNameConstraintsOf, AreSubtreesOf, IsAccessOf, IsSubtreeOf, RefusesAccess, RefusesNameConstraints};
ghost use Rattle.x509_c_calls.specs.Input.{RefusesEach};
ghost use Rattle.x509_c_calls.specs.Status.{Fills};
ghost use Rattle.x509_der.specs.declared.error.ErrorKind.TheVariants.{Memory};
ghost use Rattle.x509_ext.specs.Access.{access_description};
ghost use Rattle.x509_ext.specs.GeneralName.{general_name};
ghost use Rattle.x509_ext.specs.GeneralSubtree.{general_subtree};
ghost use Rattle.x509_ext.specs.NameConstraints.{name_constraints};
ghost use Rattle.x509_types.specs.Reencoding.{IsRefused};

use crate::build::read_each;
use crate::payloads::described_name::oid_of;
use crate::{Status, read, write};
use std::alloc::Global;
use x509_der::{ErrorKind, Spelled};
use x509_ext::pkix::constraints::name::{GeneralSubtree, GeneralSubtrees};
use x509_ext::pkix::name::GeneralName;
use x509_ext::pkix::{AccessDescription, NameConstraints};

/// The access by that method at that location.
fn access_of(alloc: Global, method: &[u8], location: &[u8]) -> Result<AccessDescription, ErrorKind>
    ensures found { MatchResult result (IsAccessOf method.now location.now) (λ e. (e ≡ Memory) ⊎ RefusesAccess method.now location.now e) }
    ensures good { IfOk result access_description.good }
{
    let access_method = match oid_of(method) {
        Ok(oid) => oid,
        Err(e) => return Err(e),
    };
    let access_location = match read::<GeneralName>(alloc, location) {
        Ok(name) => name,
        Err(e) => return Err(e),
    };
    let access = AccessDescription {
        access_method,
        access_location,
    };
    access.has_spelling();
    Ok(access)
}

/// Puts the encoding of an AccessDescription (RFC 5280 4.2.2.1) at the front of the buffer `room`: by the method with an
/// OID of these content octets, at that location, a whole GeneralName.
///
/// # Errors
///
/// [`Status::NoRoom`] where the buffer is too small; then `written` is the needed length. `Malformed` where no OID has the
/// content octets; the error of decoding the location. `Overlength` where the encoding is too long. `Memory` when out of
/// memory.
#[tactic(auto, unfolding(crate::specs::Calls::Encodes, crate::specs::Status::Fills))]
pub fn access_encode(
    alloc: Global,
    method: &[u8],
    location: &[u8],
    room: &mut [u8],
    written: &mut usize,
) -> Status
    ensures { Fills (EncodesDescribed access_description (IsAccessOf method.now location.now) (RefusesAccess method.now location.now)) room.old room.new written.old written.new result }
{
    match access_of(alloc, method, location) {
        Ok(access) => write(&access, room, written),
        Err(e) => Status::Refused(e),
    }
}

/// The subtree of all names at and below the base.
fn subtree_of(alloc: Global, base: &[u8]) -> Result<GeneralSubtree, ErrorKind>
    ensures found { MatchResult result (IsSubtreeOf base.now) (λ e. (e ≡ Memory) ⊎ IsRefused general_name (λ e. ⊥) base.now e) }
    ensures good { IfOk result general_subtree.good }
{
    let base = match read::<GeneralName>(alloc, base) {
        Ok(name) => name,
        Err(e) => return Err(e),
    };
    let subtree = GeneralSubtree {
        base,
        minimum: 0,
        maximum: None,
    };
    subtree.has_spelling();
    Ok(subtree)
}

/// Puts the encoding of the GeneralSubtree (RFC 5280 4.2.1.10) of all names at and below that base, a whole GeneralName, at
/// the front of the buffer `room`.
///
/// # Errors
///
/// [`Status::NoRoom`] where the buffer is too small; then `written` is the needed length. The error of decoding the base.
/// `Overlength` where the encoding is too long. `Memory` when out of memory.
#[tactic(auto, unfolding(crate::specs::Calls::Encodes, crate::specs::Status::Fills))]
pub fn subtree_encode(alloc: Global, base: &[u8], room: &mut [u8], written: &mut usize) -> Status
    ensures { Fills (EncodesDescribed general_subtree (IsSubtreeOf base.now) (IsRefused general_name (λ e. ⊥) base.now)) room.old room.new written.old written.new result }
{
    match subtree_of(alloc, base) {
        Ok(subtree) => write(&subtree, room, written),
        Err(e) => Status::Refused(e),
    }
}

/// The subtrees whose encodings the bytes are, one after the other, unless there are none.
fn subtrees_of(alloc: Global, bytes: &[u8]) -> Result<Option<GeneralSubtrees>, ErrorKind>
    ensures { MatchResult result (AreSubtreesOf bytes.now) (λ e. (e ≡ Memory) ⊎ RefusesEach general_subtree (λ e. ⊥) bytes.now e) }
{
    let subtrees = match read_each::<GeneralSubtree>(alloc, bytes) {
        Ok(subtrees) => subtrees,
        Err(e) => return Err(e),
    };
    if subtrees.is_empty() {
        return Ok(None);
    }
    Ok(Some(GeneralSubtrees::from(subtrees)))
}

/// The name constraints with these subtrees.
fn constraints_of(
    alloc: Global,
    permitted: &[u8],
    excluded: &[u8],
) -> Result<NameConstraints, ErrorKind>
    ensures found { MatchResult result (AreNameConstraintsOf permitted.now excluded.now) (λ e. (e ≡ Memory) ⊎ RefusesNameConstraints permitted.now excluded.now e) }
    ensures good { IfOk result name_constraints.good }
{
    if permitted.is_empty() && excluded.is_empty() {
        return Err(ErrorKind::Value);
    }
    let permitted_subtrees = match subtrees_of(alloc, permitted) {
        Ok(subtrees) => subtrees,
        Err(e) => return Err(e),
    };
    let excluded_subtrees = match subtrees_of(alloc, excluded) {
        Ok(subtrees) => subtrees,
        Err(e) => return Err(e),
    };
    let constraints = NameConstraints {
        permitted_subtrees,
        excluded_subtrees,
    };
    constraints.has_spelling();
    Ok(constraints)
}

/// Puts the encoding of a NameConstraints (RFC 5280 4.2.1.10) at the front of the buffer `room`: with the permitted and the
/// excluded subtrees whose encodings are given one after the other, or none.
///
/// # Errors
///
/// [`Status::NoRoom`] where the buffer is too small; then `written` is the needed length. The error of decoding the
/// subtrees; `Value` where there is none of either. `Overlength` where the encoding is too long. `Memory` when out of
/// memory.
#[tactic(auto, unfolding(crate::specs::Calls::Encodes, crate::specs::Status::Fills))]
pub fn name_constraints_encode(
    alloc: Global,
    permitted: &[u8],
    excluded: &[u8],
    room: &mut [u8],
    written: &mut usize,
) -> Status
    ensures { Fills (EncodesDescribed name_constraints (AreNameConstraintsOf permitted.now excluded.now) (RefusesNameConstraints permitted.now excluded.now)) room.old room.new written.old written.new result }
{
    match constraints_of(alloc, permitted, excluded) {
        Ok(constraints) => write(&constraints, room, written),
        Err(e) => Status::Refused(e),
    }
}
