//! For clients of logs (RFC 6962): what a log has of a certificate, what a timestamp and a tree head are signatures of, what its
//! entries say, and proofs of Merkle trees.

mod chain;
mod leaf;
mod part;
mod signed;
mod tree;

pub use chain::chain_next;
pub use leaf::{
    LeafView, PrecertChainView, log_leaf_view, precert_chain_view, tree_head_signed_data,
};
pub use part::{logged_part, logged_precertificate, logged_precertificate_signed_by};
pub use signed::{certificate_signed_data, timestamp_signed_data};
pub use tree::{merkle_consistency, merkle_inclusion, merkle_leaf_hash};
