//! Hashes of leaves and nodes.

ghost use Rattle.std.specs.Prelude.{◌≡◌, ℕ, List, []};
ghost use Rattle.sha2.specs.Sha256.{sha256};
ghost use Rattle.x509_merkle.specs.Merkle.{leaf_hash, node_hash};

use sha2::{Digest, Sha256};

/// A hash of 32 octets.
pub type Hash = [u8; 32];

/// The octet before a leaf (RFC 6962 section 2.1).
const LEAF: [u8; 1] = [0];

/// The octet before the hashes of a node's children (RFC 6962 section 2.1).
const NODE: [u8; 1] = [1];

/// A hash function for the nodes of a tree. That of RFC 6962 is [`Sha256`].
pub trait TreeHash {
    ghost hash: { List ℕ → List ℕ };

    /// The hash of a tree with no leaves: that of no octets.
    fn empty_hash() -> Hash
        ensures { result ≡ hash [] };

    /// The hash of a leaf: of an octet 0 and the entry.
    fn leaf_hash(entry: &[u8]) -> Hash
        ensures { result ≡ leaf_hash hash entry.now };

    /// The hash of a node: of an octet 1 and the hashes of its children.
    fn node_hash(left: &Hash, right: &Hash) -> Hash
        ensures { result ≡ node_hash hash left.now right.now };
}

impl TreeHash for Sha256 {
    ghost hash = { sha256 };

    fn empty_hash() -> Hash {
        let hasher = Sha256::new();
        hasher.finalize()
    }

    fn leaf_hash(entry: &[u8]) -> Hash {
        let mut hasher = Sha256::new();
        hasher.update(&LEAF);
        hasher.update(entry);
        hasher.finalize()
    }

    fn node_hash(left: &Hash, right: &Hash) -> Hash {
        let mut hasher = Sha256::new();
        hasher.update(&NODE);
        hasher.update(left);
        hasher.update(right);
        hasher.finalize()
    }
}
