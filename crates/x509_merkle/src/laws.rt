//! What holds of all trees, over any hash function. Each law is a function with an empty body, whose contract is the law.

ghost use Rattle.std.specs.Prelude.{◌≡◌, ℕ, ◌<◌, ◌≤◌, List, [], length, take, Some, slice_index_or};
ghost use Rattle.x509_merkle.specs.Merkle.{
  Octets,
  audit_path,
  consistency_proof,
  leaf_hash,
  recomputed_root,
  recomputed_roots,
  subproof,
  tree_hash,
};
ghost use Rattle.x509_merkle.specs.Standard.{IsAuditPath, IsSubproof, IsTreeHash};

/// The audit path of a leaf, as RFC 6962 section 2.1.1 makes it, leads from the hash of that leaf to the hash of the tree.
#[tactic(auto, using(crate::proofs::Made::audit_path_leads))]
pub fn audit_paths_lead_to_the_root()
    ensures { (hash : Octets → Octets) (leaves : List Octets) (m : ℕ) → m < length leaves
        → recomputed_root hash (leaf_hash hash (slice_index_or leaves m [])) m (length leaves) (audit_path hash m leaves) ≡ Some (tree_hash hash leaves) }
{}

/// A consistency proof, as RFC 6962 section 2.1.2 makes it, leads from the hash of the first leaves to that hash and to the hash of all leaves.
#[tactic(auto, using(crate::proofs::Made::consistency_proof_leads))]
pub fn consistency_proofs_lead_to_both_roots()
    ensures { (hash : Octets → Octets) (leaves : List Octets) (m : ℕ) → 0 < m → m ≤ length leaves
        → recomputed_roots hash (tree_hash hash (take m leaves)) m (length leaves) (consistency_proof hash m leaves)
        ≡ Some (record { old = tree_hash hash (take m leaves); new = tree_hash hash leaves }) }
{}

/// The definitions by level are those of RFC 6962 sections 2.1, 2.1.1 and 2.1.2: they have its equations.
#[tactic(auto, using(crate::proofs::Equations::tree_hash_is, crate::proofs::Equations::audit_path_is, crate::proofs::Equations::subproof_is))]
pub fn trees_are_those_of_the_standard()
    ensures mth { (hash : Octets → Octets) → IsTreeHash hash (tree_hash hash) }
    ensures path { (hash : Octets → Octets) → IsAuditPath (tree_hash hash) (audit_path hash) }
    ensures subproof { (hash : Octets → Octets) → IsSubproof (tree_hash hash) (subproof hash) }
{}
