//! Merkle hash trees (RFC 6962 section 2.1): the hash of a tree, inclusion proofs and consistency proofs, over SHA-256 or another hash of 32 octets.
//! No call allocates.
#![tactic(auto)]

mod consistency;
mod hash;
mod inclusion;
pub mod laws;
mod tree;

pub use consistency::{Roots, roots_of_proof, verify_consistency};
pub use hash::{Hash, TreeHash};
pub use inclusion::{root_of_path, verify_inclusion};
pub use tree::{MerkleTree, TreeFull};
