//! Proofs of Merkle trees (RFC 6962 2.1) over SHA-256, whose hashes come as octets.

ghost use Rattle.std.specs.Prelude.{◌≡◌, ◌↔◌, IfOk, IsTrue, List, MatchOption, Ok};
ghost use Rattle.sha2.specs.Sha256.{sha256};
ghost use Rattle.x509_c_calls.specs.Status.{Fills};
ghost use Rattle.x509_c_calls.specs.Trees.{AreHashes, IsConsistent, IsHash, IsIncluded, Verifies};
ghost use Rattle.x509_c_calls.specs.declared.status.status.Status.TheVariants.{Refused};
ghost use Rattle.x509_der.specs.declared.error.ErrorKind.TheVariants.{Memory};
ghost use Rattle.x509_merkle.specs.Merkle.{Octets, leaf_hash};

use crate::{Status, fill};
use sha2::Sha256;
use std::alloc::{AllocError, Global};
use x509_der::ErrorKind;
use x509_merkle::{Hash, TreeHash, verify_consistency, verify_inclusion};

/// The hash that the octets are, if they are one.
fn hash_of(octets: &[u8]) -> Option<&Hash>
    ensures { MatchOption result (IsHash octets.now → ⊥) (λ hash. (hash.now ≡ octets.now) × IsHash octets.now) }
{
    match octets.split_first_chunk::<32>() {
        Some((hash, [])) => Some(hash),
        _ => None,
    }
}

/// The hashes that the octets are, one behind the other, if they are any.
fn hashes_of(alloc: Global, octets: &[u8]) -> Result<Option<Vec<Hash>>, AllocError>
    ensures { IfOk result (λ found. MatchOption found ((hashes : List Octets) → AreHashes octets.now hashes → ⊥)
        (λ hashes. AreHashes octets.now hashes.items)) }
{
    let mut hashes = Vec::new(alloc);
    let mut rest = octets;
    while let Some((hash, behind)) = rest.split_first_chunk::<32>() {
        hashes.push(*hash)?;
        rest = behind;
    }
    if !rest.is_empty() {
        return Ok(None);
    }
    Ok(Some(hashes))
}

fn is_included(
    alloc: Global,
    leaf: &[u8],
    index: u64,
    size: u64,
    path: &[u8],
    root: &[u8],
) -> Result<bool, AllocError>
    ensures { IfOk result (λ holds. IsTrue holds ↔ IsIncluded leaf.now index size path.now root.now) }
{
    let Some(hashes) = hashes_of(alloc, path)? else {
        return Ok(false);
    };
    match (hash_of(leaf), hash_of(root)) {
        (Some(leaf), Some(root)) => Ok(verify_inclusion::<Sha256>(
            leaf,
            index,
            size,
            hashes.as_slice(),
            root,
        )),
        _ => Ok(false),
    }
}

fn is_consistent(
    alloc: Global,
    old: u64,
    new: u64,
    old_root: &[u8],
    new_root: &[u8],
    proof: &[u8],
) -> Result<bool, AllocError>
    ensures { IfOk result (λ holds. IsTrue holds ↔ IsConsistent old new old_root.now new_root.now proof.now) }
{
    let Some(hashes) = hashes_of(alloc, proof)? else {
        return Ok(false);
    };
    match (hash_of(old_root), hash_of(new_root)) {
        (Some(old_root), Some(new_root)) => Ok(verify_consistency::<Sha256>(
            old,
            new,
            old_root,
            new_root,
            hashes.as_slice(),
        )),
        _ => Ok(false),
    }
}

/// Puts the hash of a leaf at the front of the buffer `room`: of an octet 0 and the entry, as a MerkleTreeLeaf (RFC 6962 2.1, 3.4). It takes no memory.
///
/// # Errors
///
/// [`Status::NoRoom`] exactly where the buffer is too small; then `written` is 32, which the hash has.
pub fn merkle_leaf_hash(entry: &[u8], room: &mut [u8], written: &mut usize) -> Status
    ensures filled { Fills (λ answer. answer ≡ Ok (leaf_hash sha256 entry.now)) room.old room.new written.old written.new result }
    ensures memory { result ≡ Refused Memory → ⊥ }
{
    let hash = <Sha256 as TreeHash>::leaf_hash(entry);
    fill(&hash, room, written)
}

/// Verifies that the leaf at `index` is in the tree of `size` leaves with that root, by its audit path (RFC 6962 2.1.1). A hash has 32 octets; those of the
/// path stand one behind the other.
///
/// # Errors
///
/// `Failed` exactly where the path doesn't lead from the hash of the leaf to the root, or one of them is no hash. `Memory` when out of memory.
#[tactic(auto, unfolding(crate::specs::Trees::Verifies))]
pub fn merkle_inclusion(
    alloc: Global,
    leaf: &[u8],
    index: u64,
    size: u64,
    path: &[u8],
    root: &[u8],
) -> Status
    ensures { Verifies (IsIncluded leaf.now index size path.now root.now) result }
{
    match is_included(alloc, leaf, index, size, path, root) {
        Ok(true) => Status::Done,
        Ok(false) => Status::Refused(ErrorKind::Failed),
        Err(_) => Status::Refused(ErrorKind::Memory),
    }
}

/// Verifies that the tree of the first `old` leaves, with that root, is the beginning of the tree of `new` leaves, with that root, by a consistency proof
/// (RFC 6962 2.1.2). Hashes are as said of [`merkle_inclusion`].
///
/// # Errors
///
/// `Failed` exactly where the proof doesn't lead to both roots, or one of them is no hash. `Memory` when out of memory.
#[tactic(auto, unfolding(crate::specs::Trees::Verifies))]
pub fn merkle_consistency(
    alloc: Global,
    old: u64,
    new: u64,
    old_root: &[u8],
    new_root: &[u8],
    proof: &[u8],
) -> Status
    ensures { Verifies (IsConsistent old new old_root.now new_root.now proof.now) result }
{
    match is_consistent(alloc, old, new, old_root, new_root, proof) {
        Ok(true) => Status::Done,
        Ok(false) => Status::Refused(ErrorKind::Failed),
        Err(_) => Status::Refused(ErrorKind::Memory),
    }
}
