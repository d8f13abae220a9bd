//! The hash of a tree whose leaves come one after the other.

ghost use Rattle.std.specs.Prelude.{◌≡◌, ◌<◌, ◌-◌, ◌^◌, ◌↔◌, IfErr, IfOk, IsOk, List, [], ◌∷◌, ◌++◌, length, slice_set};
ghost use Rattle.x509_merkle.specs.Holds.{Holds};
ghost use Rattle.x509_merkle.specs.Merkle as merkle;
ghost use Rattle.x509_merkle.specs.Merkle.{Octets, tree_hash};
ghost use Rattle.x509_merkle.specs.Trees.{joined_hash};

use crate::hash::{Hash, TreeHash};

/// A tree with as many leaves as a [`u64`] counts: it takes no more.
#[derive(Clone, Copy, Debug, PartialEq, Eq)]
pub struct TreeFull;

/// A tree whose leaves come one after the other. It keeps their number, and the hashes of its full subtrees, at most 64: that of a subtree of 2 ^ `level`
/// leaves at its level. The empty tree is one of zeros.
#[derive(Clone, Copy)]
pub struct MerkleTree {
    size: u64,
    hashes: [Hash; 64],
}

impl MerkleTree {
    /// A tree with no leaves.
    pub fn new() -> MerkleTree
        ensures { (hash : Octets → Octets) → Holds hash result [] }
    {
        MerkleTree {
            size: 0,
            hashes: [[0; 32]; 64],
        }
    }

    /// The number of leaves.
    pub fn size(&self) -> u64
        ensures { (hash : Octets → Octets) (leaves : List Octets) → Holds hash self.now leaves → result ≡ length leaves }
    {
        self.size
    }

    /// One more leaf, by its entry.
    ///
    /// # Errors
    /// [`TreeFull`] where the tree has 2 ^ 64 - 1 leaves; it stays as it is.
    pub fn push<H: TreeHash>(&mut self, entry: &[u8]) -> Result<(), TreeFull>
        ensures has_room { IsOk result ↔ (self.old.size < 2 ^ 64 - 1) }
        ensures pushed { (leaves : List Octets) → Holds H.hash self.old leaves → IfOk result (λ _. Holds H.hash self.new (leaves ++ entry.now ∷ [])) }
        ensures unchanged { IfErr result (λ _. self.new ≡ self.old) }
    {
        self.push_hash::<H>(&H::leaf_hash(entry))
    }

    /// One more leaf, by its hash.
    ///
    /// # Errors
    /// [`TreeFull`] where the tree has 2 ^ 64 - 1 leaves; it stays as it is.
    pub fn push_hash<H: TreeHash>(&mut self, leaf_hash: &Hash) -> Result<(), TreeFull>
        ensures has_room { IsOk result ↔ (self.old.size < 2 ^ 64 - 1) }
        ensures pushed { (leaves : List Octets) (entry : Octets) → Holds H.hash self.old leaves → leaf_hash.now ≡ merkle.leaf_hash H.hash entry
            → IfOk result (λ _. Holds H.hash self.new (leaves ++ entry ∷ [])) }
        ensures unchanged { IfErr result (λ _. self.new ≡ self.old) }
    {
        if self.size == u64::MAX {
            return Err(TreeFull);
        }
        let mut hash = *leaf_hash;
        let mut level = 0;
        let mut count = self.size;
        while count % 2 == 1 {
            hash = H::node_hash(&self.hashes[level], &hash);
            level += 1;
            count /= 2;
        }
        put(&mut self.hashes, level, hash);
        self.size += 1;
        Ok(())
    }

    /// The hash of the tree.
    pub fn root<H: TreeHash>(&self) -> Hash
        ensures { (leaves : List Octets) → Holds H.hash self.now leaves → result ≡ tree_hash H.hash leaves }
    {
        let mut root = None;
        let mut level = 0;
        let mut count = self.size;
        while count > 0 {
            if count % 2 == 1 {
                root = Some(joined::<H>(&self.hashes[level], &root));
            }
            level += 1;
            count /= 2;
        }
        match root {
            Some(hash) => hash,
            None => H::empty_hash(),
        }
    }
}

fn put(hashes: &mut [Hash; 64], level: usize, hash: Hash)
    requires { level < 64 }
    ensures written { hashes.new ≡ slice_set hashes.old level hash }
    ensures sized { length hashes.old ≡ 64 }
{
    hashes[level] = hash;
}

/// The hash of a subtree and what follows it, where something does.
fn joined<H: TreeHash>(left: &Hash, right: &Option<Hash>) -> Hash
    ensures { result ≡ joined_hash H.hash left.now right.now }
{
    match right {
        Some(hash) => H::node_hash(left, hash),
        None => *left,
    }
}
