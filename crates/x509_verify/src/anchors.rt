//! What is trusted, looked up by name.

ghost use Rattle.std.specs.List.{All};
ghost use Rattle.x509_verify.specs.Named.{IsUnderName};
ghost use Rattle.x509_verify.specs.Keyed.{IsInOrder};

use crate::keyed::{Keyed, in_order};
use std::alloc::{AllocError, Global};
use x509_der::ErrorKind;
use x509_match::MatchedName;
use x509_validation::Trusted;

/// Names and keys that are trusted, each for the paths that it says ([`Trusted`]), in the order of the names: those of one name
/// are found in time that grows with the logarithm of how many there are. They are made once, and serve any number of searches.
#[derive(Drop)]
pub struct Anchors<'a> {
    pub(crate) entries: Vec<Keyed<MatchedName, Trusted<'a>>>,
    ghost order: { IsInOrder ⟦<MatchedName as Ord>⟧.cmp entries.items },
    ghost named: { ∥ All IsUnderName entries.items ∥₁ },
}

impl<'a> Anchors<'a> {
    ghost use Rattle.std.specs.Prelude.{◌↔◌, Contains, IfOk, map};
    ghost use Rattle.x509_path_steps.specs.declared.trusted.Trusted as trusts;
    ghost use Rattle.x509_verify.specs.Named.{IsNamed};

    /// Those of the trusted whose names can be decoded: under another one no path is valid. Names are compared as they match (RFC
    /// 5280 7.1).
    ///
    /// # Errors
    ///
    /// When out of memory.
    pub fn new(alloc: Global, trusted: &[Trusted<'a>]) -> Result<Anchors<'a>, AllocError>
        ensures { IfOk result (λ anchors. (one : trusts.Trusted) → Contains (map (λ entry. entry.value) anchors.entries.items) one ↔ (Contains trusted.now one × IsNamed one)) }
    {
        let mut entries = Vec::new(alloc);
        for one in trusted {
            match MatchedName::from_der(alloc, one.anchor.name) {
                Ok(key) => entries.push(Keyed { key, value: *one })?,
                Err(e) => {
                    if e.kind() == ErrorKind::Memory {
                        return Err(AllocError);
                    }
                }
            }
        }
        Ok(Anchors {
            entries: in_order(entries)?,
        })
    }
}
