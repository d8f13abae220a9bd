//! Consistency proofs (RFC 6962 section 2.1.2).

ghost use Rattle.std.specs.Prelude.{◌≡◌, ◌↔◌, IsTrue, Some};
ghost use Rattle.std.specs.Option.{option_map};
ghost use Rattle.x509_merkle.specs.Merkle.{recomputed_roots};
ghost use Rattle.x509_merkle.specs.Roots.{roots_of};

use crate::hash::{Hash, TreeHash};

/// The roots of the old tree and of the new one.
#[derive(Clone, Copy, Debug, PartialEq, Eq)]
pub struct Roots {
    /// The hash of the first `old` leaves.
    pub old: Hash,

    /// The hash of all leaves.
    pub new: Hash,
}

/// Both roots, from all of a proof and the old root. `None` where `old` is 0 or greater than `new`, or the proof has another number of hashes.
///
/// At most 128 hashes are computed.
pub fn roots_of_proof<H: TreeHash>(
    old: u64,
    new: u64,
    old_root: &Hash,
    proof: &[Hash],
) -> Option<Roots>
    ensures { option_map roots_of result ≡ recomputed_roots H.hash old_root.now old new proof.now }
{
    if old == 0 || old > new {
        return None;
    }
    if old == new {
        return if proof.is_empty() {
            Some(Roots {
                old: *old_root,
                new: *old_root,
            })
        } else {
            None
        };
    }
    let mut node = old - 1;
    let mut last = new - 1;
    while node % 2 == 1 {
        node /= 2;
        last /= 2;
    }
    let (mut roots, mut rest) = if node == 0 {
        (
            Roots {
                old: *old_root,
                new: *old_root,
            },
            proof,
        )
    } else {
        let (hash, above) = proof.split_first()?;
        (
            Roots {
                old: *hash,
                new: *hash,
            },
            above,
        )
    };
    while last > 0 {
        if node % 2 == 1 {
            let (left, above) = rest.split_first()?;
            roots = Roots {
                old: H::node_hash(left, &roots.old),
                new: H::node_hash(left, &roots.new),
            };
            rest = above;
        } else if node < last {
            let (right, above) = rest.split_first()?;
            roots.new = H::node_hash(&roots.new, right);
            rest = above;
        }
        node /= 2;
        last /= 2;
    }
    if rest.is_empty() { Some(roots) } else { None }
}

/// Whether the proof leads from the root of the tree of the first `old` leaves to both roots, its own and that of the tree of `new` leaves. Where both
/// sizes are one, the proof is empty. Of a tree with no leaves nothing is proved, and there is no proof where `old` is greater than `new`.
///
/// At most 128 hashes are computed.
pub fn verify_consistency<H: TreeHash>(
    old: u64,
    new: u64,
    old_root: &Hash,
    new_root: &Hash,
    proof: &[Hash],
) -> bool
    ensures { IsTrue result ↔ (recomputed_roots H.hash old_root.now old new proof.now ≡ Some (record { old = old_root.now; new = new_root.now })) }
{
    match roots_of_proof::<H>(old, new, old_root, proof) {
        Some(roots) => roots.old == *old_root && roots.new == *new_root,
        None => false,
    }
}
