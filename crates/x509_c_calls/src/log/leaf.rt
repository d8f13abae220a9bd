//! What the entries of logs say, and what is signed of a tree head.

ghost use Rattle.std.specs.Prelude.{◌≡◌, ◌⊎◌, List, ℕ, IfErr, IfOk, Ok, Err};
ghost use Rattle.x509_c_calls.specs.Leaves.{IsLeaf, IsPrecertChain, ReadsLeaf, ReadsPrecertChain, SignsTreeHead};
ghost use Rattle.x509_c_calls.specs.Status.{Fills};
ghost use Rattle.x509_der.specs.declared.error.ErrorKind.TheVariants.{Memory};
ghost use Rattle.x509_log.specs.Entries.{merkle_tree_leaf, precert_chain_entry};
ghost use Rattle.x509_sct.specs.Form.{Spells};

use crate::sct::refusal_of;
use crate::{Span, Status, fill};
use std::alloc::Global;
use x509_der::ErrorKind;
use x509_log::{LogEntry, MerkleTreeLeaf, PrecertChainEntry, TreeHead};
use x509_sct::Version;
use x509_sct::tls::{NamedByte, Tls, read_whole};

/// A leaf of a log's tree (RFC 6962 3.4), by its place.
#[derive(Clone, Copy)]
#[repr(C)]
pub struct LeafView {
    /// The version: 0, which is version 1.
    pub version: u32,

    /// What the leaf is of: 0, an entry with its timestamp.
    pub leaf_type: u32,

    /// The milliseconds since 1970-01-01T00:00:00Z.
    pub timestamp: u64,

    /// What the entry is of: 0 of a certificate, 1 of a precertificate.
    pub entry_type: u32,

    /// Where the hash of the issuer's key stands, 32 octets; of a certificate nothing, at 0.
    pub issuer_key_hash: Span,

    /// Where the certificate stands; of a precertificate its TBSCertificate.
    pub certificate: Span,

    /// Where the extensions stand, of which version 1 has none.
    pub extensions: Span,
}

/// What a log gives beside the entry of a precertificate (RFC 6962 4.6), by its place.
#[derive(Clone, Copy)]
#[repr(C)]
pub struct PrecertChainView {
    /// Where the precertificate stands.
    pub precertificate: Span,

    /// Where its chain stands.
    pub chain: Span,
}

/// What the leaf says of which the bytes are the encoding.
fn leaf_of(leaf: &MerkleTreeLeaf) -> LeafView
    ensures { (bytes : List ℕ) → Spells merkle_tree_leaf leaf.now bytes → IsLeaf bytes leaf.now result }
{
    let timestamped = &leaf.timestamped_entry;
    let extensions = timestamped.extensions.as_slice().len();
    let version = u32::from(leaf.version.byte());
    let leaf_type = u32::from(leaf.leaf_type.byte());
    match &timestamped.entry {
        LogEntry::X509(certificate) => {
            let len = certificate.as_slice().len();
            LeafView {
                version,
                leaf_type,
                timestamp: timestamped.timestamp,
                entry_type: 0,
                issuer_key_hash: Span { place: 0, len: 0 },
                certificate: Span { place: 15, len },
                extensions: Span {
                    place: 17 + len,
                    len: extensions,
                },
            }
        }
        LogEntry::Precert(precertificate) => {
            let len = precertificate.tbs_certificate.as_slice().len();
            LeafView {
                version,
                leaf_type,
                timestamp: timestamped.timestamp,
                entry_type: 1,
                issuer_key_hash: Span { place: 12, len: 32 },
                certificate: Span { place: 47, len },
                extensions: Span {
                    place: 49 + len,
                    len: extensions,
                },
            }
        }
    }
}

/// Decodes a leaf of a log's tree, a MerkleTreeLeaf (RFC 6962 3.4), as `leaf_input` has it (4.6), and fills in what it says.
///
/// # Errors
///
/// `Malformed` exactly where the bytes are no leaf of version 1 of a certificate or a precertificate. `Memory` when out of memory. The view is unchanged then.
#[tactic(auto, unfolding(crate::specs::Leaves::ReadsLeaf))]
pub fn log_leaf_view(alloc: Global, input: &[u8], view: &mut LeafView) -> Status
    ensures { ReadsLeaf input.now view.old view.new result }
{
    match read_whole::<MerkleTreeLeaf>(alloc, input) {
        Ok(leaf) => {
            *view = leaf_of(&leaf);
            Status::Done
        }
        Err(e) => Status::Refused(refusal_of(e)),
    }
}

/// What is said beside the entry of which the bytes are the encoding.
fn precert_chain_of(entry: &PrecertChainEntry) -> PrecertChainView
    ensures { (bytes : List ℕ) → Spells precert_chain_entry entry.now bytes → IsPrecertChain bytes entry.now result }
{
    let len = entry.pre_certificate.as_slice().len();
    PrecertChainView {
        precertificate: Span { place: 3, len },
        chain: Span {
            place: 3 + len,
            len: entry.precertificate_chain.tls_len(),
        },
    }
}

/// Decodes what a log gives beside the entry of a precertificate, a PrecertChainEntry (RFC 6962 3.1), as `extra_data` has it (4.6), and fills in where its
/// parts stand.
///
/// # Errors
///
/// `Malformed` exactly where the bytes are no such thing. `Memory` when out of memory. The view is unchanged then.
#[tactic(auto, unfolding(crate::specs::Leaves::ReadsPrecertChain))]
pub fn precert_chain_view(alloc: Global, input: &[u8], view: &mut PrecertChainView) -> Status
    ensures { ReadsPrecertChain input.now view.old view.new result }
{
    match read_whole::<PrecertChainEntry>(alloc, input) {
        Ok(entry) => {
            *view = precert_chain_of(&entry);
            Status::Done
        }
        Err(e) => Status::Refused(refusal_of(e)),
    }
}

/// The octets that the signature of a tree head is over.
fn tree_head_data(
    alloc: Global,
    timestamp: u64,
    tree_size: u64,
    root_hash: &[u8],
) -> Result<Vec<u8>, ErrorKind>
    ensures found { IfOk result (λ octets. SignsTreeHead timestamp tree_size root_hash.now (Ok octets.items)) }
    ensures refused { IfErr result (λ e. (e ≡ Memory) ⊎ SignsTreeHead timestamp tree_size root_hash.now (Err e)) }
{
    let Some((hash, [])) = root_hash.split_first_chunk::<32>() else {
        return Err(ErrorKind::Malformed);
    };
    let head = TreeHead {
        version: Version::V1,
        timestamp,
        tree_size,
        root_hash: *hash,
    };
    match head.signed_input(alloc) {
        Ok(octets) => Ok(octets),
        Err(e) => Err(refusal_of(e)),
    }
}

/// Puts the octets that the signature of a log's tree head is over, a TreeHeadSignature (RFC 6962 3.5), at the front of the buffer `room`, and says how many
/// they are: those of version 1, of a timestamp in milliseconds, the size of the tree and its root hash, as `get-sth` has them (4.3).
///
/// # Errors
///
/// [`Status::NoRoom`] exactly where the buffer is too small; then `written` is the needed length. `Malformed` exactly where the root hash hasn't 32 octets.
/// `Memory` when out of memory.
#[tactic(auto, unfolding(crate::specs::Status::Fills))]
pub fn tree_head_signed_data(
    alloc: Global,
    timestamp: u64,
    tree_size: u64,
    root_hash: &[u8],
    room: &mut [u8],
    written: &mut usize,
) -> Status
    ensures { Fills (SignsTreeHead timestamp tree_size root_hash.now) room.old room.new written.old written.new result }
{
    match tree_head_data(alloc, timestamp, tree_size, root_hash) {
        Ok(octets) => fill(octets.as_slice(), room, written),
        Err(e) => Status::Refused(e),
    }
}
