//! What a log has of a certificate, what timestamps and tree heads are signatures of, what entries say, and proofs of Merkle trees.

ghost use Rattle.std.specs.Prelude.{◌≡◌, Ok};
ghost use Rattle.sha2.specs.Sha256.{sha256};
ghost use Rattle.x509_c_calls.specs.ChainWalk.{StepsChain};
ghost use Rattle.x509_c_calls.specs.Leaves.{ReadsLeaf, ReadsPrecertChain, SignsTreeHead};
ghost use Rattle.x509_c_calls.specs.Logs.{Cuts, CutsReissued, FillsFound, SignsCertificate, SignsEmbedded};
ghost use Rattle.x509_c_calls.specs.Status.{Fills, Tells};
ghost use Rattle.x509_c_calls.specs.Trees.{IsConsistent, IsIncluded, Verifies};
ghost use Rattle.x509_c_calls.specs.declared.status.status.Status.TheVariants.{Refused};
ghost use Rattle.x509_der.specs.declared.error.ErrorKind.TheVariants.{Memory};
ghost use Rattle.x509_merkle.specs.Merkle.{leaf_hash};
ghost use Rattle.x509_sct.specs.Identifier.{embedded_timestamps, precertificate_poison};

use std::alloc::Global;
use x509_base::Rfc5280;
use x509_c_calls::{
    LeafView, PrecertChainView, Span, certificate_signed_data, chain_next, log_leaf_view,
    logged_part, logged_precertificate, logged_precertificate_signed_by, merkle_consistency,
    merkle_inclusion, merkle_leaf_hash, precert_chain_view, timestamp_signed_data,
    tree_head_signed_data,
};
use x509_cert::certificate::CertificateInner;
use x509_der::Grammar;

/// Writes the TBSCertificate of a certificate without its timestamps.
#[unsafe(no_mangle)]
pub extern "C" fn x509_logged_part(
    alloc: Global,
    certificate: &[u8],
    room: &mut [u8],
    written: &mut usize,
) -> i32
    ensures { Tells (λ status. FillsFound (Cuts ⟦<CertificateInner<Rfc5280> as Grammar>⟧.refuses embedded_timestamps certificate.now)
        room.old room.new written.old written.new status) result }
{
    logged_part(alloc, certificate, room, written).code()
}

/// Writes the TBSCertificate of a precertificate without its poison.
#[unsafe(no_mangle)]
pub extern "C" fn x509_logged_precertificate(
    alloc: Global,
    precertificate: &[u8],
    room: &mut [u8],
    written: &mut usize,
) -> i32
    ensures { Tells (λ status. FillsFound (Cuts ⟦<CertificateInner<Rfc5280> as Grammar>⟧.refuses precertificate_poison precertificate.now)
        room.old room.new written.old written.new status) result }
{
    logged_precertificate(alloc, precertificate, room, written).code()
}

/// Writes the TBSCertificate of a precertificate that a precertificate signing certificate signed.
#[unsafe(no_mangle)]
pub extern "C" fn x509_logged_precertificate_signed_by(
    alloc: Global,
    precertificate: &[u8],
    signing: &[u8],
    room: &mut [u8],
    written: &mut usize,
) -> i32
    ensures { Tells (λ status. FillsFound (CutsReissued ⟦<CertificateInner<Rfc5280> as Grammar>⟧.refuses precertificate.now signing.now)
        room.old room.new written.old written.new status) result }
{
    logged_precertificate_signed_by(alloc, precertificate, signing, room, written).code()
}

/// Writes what the signature of a timestamp within a certificate is over.
#[unsafe(no_mangle)]
pub extern "C" fn x509_timestamp_signed_data(
    alloc: Global,
    timestamp: &[u8],
    certificate: &[u8],
    issuer: &[u8],
    room: &mut [u8],
    written: &mut usize,
) -> i32
    ensures { Tells (λ status. FillsFound (SignsEmbedded ⟦<CertificateInner<Rfc5280> as Grammar>⟧.refuses timestamp.now certificate.now issuer.now)
        room.old room.new written.old written.new status) result }
{
    timestamp_signed_data(alloc, timestamp, certificate, issuer, room, written).code()
}

/// Writes what the signature of a timestamp is over that came beside the certificate.
#[unsafe(no_mangle)]
pub extern "C" fn x509_timestamp_signed_data_beside(
    alloc: Global,
    timestamp: &[u8],
    certificate: &[u8],
    room: &mut [u8],
    written: &mut usize,
) -> i32
    ensures { Tells (λ status. Fills (SignsCertificate timestamp.now certificate.now) room.old room.new written.old written.new status) result }
{
    certificate_signed_data(alloc, timestamp, certificate, room, written).code()
}

/// Decodes a leaf of a log's tree, and fills in what it says.
#[unsafe(no_mangle)]
pub extern "C" fn x509_log_leaf_view(alloc: Global, input: &[u8], view: &mut LeafView) -> i32
    ensures { Tells (λ status. ReadsLeaf input.now view.old view.new status) result }
{
    log_leaf_view(alloc, input, view).code()
}

/// Decodes what a log gives beside the entry of a precertificate, and fills in where its parts stand.
#[unsafe(no_mangle)]
pub extern "C" fn x509_log_precertificate_view(
    alloc: Global,
    input: &[u8],
    view: &mut PrecertChainView,
) -> i32
    ensures { Tells (λ status. ReadsPrecertChain input.now view.old view.new status) result }
{
    precert_chain_view(alloc, input, view).code()
}

/// Fills in where the next certificate of a chain stands.
#[unsafe(no_mangle)]
pub extern "C" fn x509_log_chain_next(input: &[u8], at: &mut usize, found: &mut Span) -> i32
    ensures { Tells (λ status. StepsChain input.now at.old at.new found.old found.new status) result }
{
    chain_next(input, at, found).code()
}

/// Writes what the signature of a tree head is over.
#[unsafe(no_mangle)]
pub extern "C" fn x509_tree_head_signed_data(
    alloc: Global,
    timestamp: u64,
    tree_size: u64,
    root_hash: &[u8],
    room: &mut [u8],
    written: &mut usize,
) -> i32
    ensures { Tells (λ status. Fills (SignsTreeHead timestamp tree_size root_hash.now) room.old room.new written.old written.new status) result }
{
    tree_head_signed_data(alloc, timestamp, tree_size, root_hash, room, written).code()
}

/// Writes the hash of a leaf.
#[unsafe(no_mangle)]
pub extern "C" fn x509_merkle_leaf_hash(entry: &[u8], room: &mut [u8], written: &mut usize) -> i32
    ensures { Tells (λ status. Fills (λ answer. answer ≡ Ok (leaf_hash sha256 entry.now)) room.old room.new written.old written.new status
        × (status ≡ Refused Memory → ⊥)) result }
{
    merkle_leaf_hash(entry, room, written).code()
}

/// Verifies an audit path.
#[unsafe(no_mangle)]
pub extern "C" fn x509_merkle_inclusion(
    alloc: Global,
    leaf_hash: &[u8],
    index: u64,
    size: u64,
    path: &[u8],
    root: &[u8],
) -> i32
    ensures { Tells (λ status. Verifies (IsIncluded leaf_hash.now index size path.now root.now) status) result }
{
    merkle_inclusion(alloc, leaf_hash, index, size, path, root).code()
}

/// Verifies a consistency proof.
#[unsafe(no_mangle)]
pub extern "C" fn x509_merkle_consistency(
    alloc: Global,
    old_size: u64,
    new_size: u64,
    old_root: &[u8],
    new_root: &[u8],
    proof: &[u8],
) -> i32
    ensures { Tells (λ status. Verifies (IsConsistent old_size new_size old_root.now new_root.now proof.now) status) result }
{
    merkle_consistency(alloc, old_size, new_size, old_root, new_root, proof).code()
}
