//! Inclusion proofs (RFC 6962 section 2.1.1).

ghost use Rattle.std.specs.Prelude.{◌≡◌, ◌↔◌, IsTrue, Some};
ghost use Rattle.x509_merkle.specs.Merkle.{recomputed_root};

use crate::hash::{Hash, TreeHash};

/// The root of a tree of `size` leaves, from the hash of the leaf at `index` and all of its audit path. `None` where the tree has no such leaf, or its
/// path has another number of hashes.
///
/// At most 64 hashes are computed.
pub fn root_of_path<H: TreeHash>(
    leaf_hash: &Hash,
    index: u64,
    size: u64,
    path: &[Hash],
) -> Option<Hash>
    ensures { result ≡ recomputed_root H.hash leaf_hash.now index size path.now }
{
    if index >= size {
        return None;
    }
    let mut hash = *leaf_hash;
    let mut node = index;
    let mut last = size - 1;
    let mut rest = path;
    while last > 0 {
        if node % 2 == 1 {
            let (left, above) = rest.split_first()?;
            hash = H::node_hash(left, &hash);
            rest = above;
        } else if node < last {
            let (right, above) = rest.split_first()?;
            hash = H::node_hash(&hash, right);
            rest = above;
        }
        node /= 2;
        last /= 2;
    }
    if rest.is_empty() { Some(hash) } else { None }
}

/// Whether the audit path of the leaf at `index` leads from its hash to the root of the tree of `size` leaves.
pub fn verify_inclusion<H: TreeHash>(
    leaf_hash: &Hash,
    index: u64,
    size: u64,
    path: &[Hash],
    root: &Hash,
) -> bool
    ensures { IsTrue result ↔ (recomputed_root H.hash leaf_hash.now index size path.now ≡ Some root.now) }
{
    match root_of_path::<H>(leaf_hash, index, size, path) {
        Some(recomputed) => recomputed == *root,
        None => false,
    }
}
