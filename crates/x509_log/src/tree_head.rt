//! Signed tree heads.

ghost use Rattle.std.specs.Prelude.{◌≡◌, IfOk, IfErr};
ghost use Rattle.x509_log.specs.TreeHead.{tree_head_input, tree_head_signed};
ghost use Rattle.x509_sct.specs.Form.{Spells};
ghost use Rattle.x509_sct.specs.declared.tls.error.TlsError.TheVariants.{Memory};

use std::alloc::Global;
use x509_sct::tls::{Tls, TlsError};
use x509_sct::{SignatureType, Version};

/// The head of a log's tree (RFC 6962 3.5, 4.3), which the log signs.
#[derive(Clone, Copy, Debug, PartialEq, Eq)]
pub struct TreeHead {
    /// The version of the signature.
    pub version: Version,

    /// The milliseconds since 1970-01-01T00:00:00Z, without leap seconds.
    pub timestamp: u64,

    /// How many entries the tree has.
    pub tree_size: u64,

    /// The SHA-256 tree hash of the entries (section 2.1).
    pub root_hash: [u8; 32],
}

impl TreeHead {
    /// The octets that the log's signature of the tree head is over, a TreeHeadSignature (RFC 6962 3.5).
    ///
    /// # Errors
    ///
    /// `Memory` when out of memory, and nothing else.
    #[tactic(auto, unfolding(crate::specs::TreeHead::tree_head_input))]
    pub fn signed_input(&self, alloc: Global) -> Result<Vec<u8>, TlsError>
        ensures ok { IfOk result (λ bytes. Spells tree_head_input (tree_head_signed self.now) bytes.items) }
        ensures err { IfErr result (λ e. e ≡ Memory) }
    {
        let mut out = Vec::with_capacity(alloc, 50)?;
        self.version.put(&mut out)?;
        SignatureType::TreeHash.put(&mut out)?;
        self.timestamp.put(&mut out)?;
        self.tree_size.put(&mut out)?;
        self.root_hash.put(&mut out)?;
        Ok(out)
    }
}
