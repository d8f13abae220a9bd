//! Octets that a value owns.

ghost use Rattle.std.specs.Prelude.{◌≡◌, ◌<◌, ◌≤◌, length, IfOk, IfErr, bytes_eq};
ghost use Rattle.std.proofs.Common.{rules};
ghost use Rattle.std.specs.Hash as fed;
ghost use Rattle.std.specs.Cmp.{partial_equiv_from_equiv};
ghost use Rattle.std.specs.Cmp.Lexicographic.{nat_list_eq_equiv};
ghost use Rattle.std.specs.Cmp.Rules.{hashing};
ghost use Rattle.x509_der.specs.declared.error.ErrorKind.TheVariants.{Memory};

use crate::error::Error;
use std::alloc::Global;
use std::fmt;
use std::hash::{Hash, Hasher};
use std::marker::Model;

/// How many octets lie inside a value.
const ROOM: usize = 24;

/// Octets, which contracts see as a list. Up to 24 lie inside the value and take no memory.
pub struct Bytes {
    place: Place,
}

// Written out, it is one call wherever a value is let go; derived, each such place would tell the cases apart.
impl Drop for Bytes {
    fn drop(self) {
        let Bytes { place: _ } = self;
    }
}

/// Where the octets lie.
#[derive(Drop)]
enum Place {
    /// Inside the value: the first `len` of these.
    Inside {
        alloc: Global,
        len: u8,
        octets: [u8; ROOM],
    },

    /// In memory of their own.
    Apart(Vec<u8>),
}

impl Model for Bytes {
    ghost use Rattle.std.specs.Prelude.{List, ℕ};
    ghost use Rattle.x509_der.specs.Place.{octets_at, IsSound};

    ghost Value = { List ℕ };

    ghost view = { λ bytes. octets_at bytes.place };

    ghost invariant = { λ bytes. IsSound bytes.place };
}

impl Bytes {
    /// A copy of the octets.
    ///
    /// # Errors
    ///
    /// `Memory` when out of memory, only for more than 24 octets.
    pub fn from_slice(alloc: Global, octets: &[u8]) -> Result<Bytes, Error>
        ensures ok { IfOk result (λ bytes. bytes ≡ octets.now) }
        ensures err { IfErr result (λ e. (e.kind ≡ Memory) × (24 < length octets.now)) }
    {
        let len = octets.len();
        if len > ROOM {
            return Ok(Bytes::from(Vec::from_slice(alloc, octets)?));
        }
        let mut inside = [0; ROOM];
        let (front, _) = inside.split_at_mut(len);
        front.copy_from_slice(octets);
        Ok(Bytes {
            place: Place::Inside {
                alloc,
                len: len as u8,
                octets: inside,
            },
        })
    }

    /// The octets.
    pub fn as_slice(&self) -> &[u8]
        ensures { result.now ≡ self.now }
    {
        match &self.place {
            Place::Inside { len, octets, .. } => &octets[..*len as usize],
            Place::Apart(octets) => octets.as_slice(),
        }
    }

    /// The vector of the octets. Up to 24 lie inside the value and are copied; more lie in memory of their own, and are
    /// not.
    ///
    /// # Errors
    ///
    /// `Memory` when out of memory, only for up to 24 octets.
    pub fn into_vec(self) -> Result<Vec<u8>, Error>
        ensures ok { IfOk result (λ octets. octets.items ≡ self) }
        ensures err { IfErr result (λ e. (e.kind ≡ Memory) × (length self ≤ 24)) }
    {
        let Bytes { place } = self;
        match place {
            Place::Inside { alloc, len, octets } => {
                Ok(Vec::from_slice(alloc, &octets[..len as usize])?)
            }
            Place::Apart(octets) => Ok(octets),
        }
    }
}

impl From<Vec<u8>> for Bytes {
    ghost from_gives = { λ items bytes. bytes ≡ items.items };

    fn from(items: Vec<u8>) -> Bytes {
        Bytes {
            place: Place::Apart(items),
        }
    }
}

impl PartialEq for Bytes {
    ghost eq = { bytes_eq };

    ghost laws = { partial_equiv_from_equiv nat_list_eq_equiv };

    fn eq(&self, other: &Bytes) -> bool {
        self.as_slice() == other.as_slice()
    }
}

impl Eq for Bytes {
    ghost laws = { nat_list_eq_equiv };
}

impl Hash for Bytes {
    ghost hash_input = { fed.slice fed.u8 };

    ghost respects_eq = { Prim.search (hashing, rules) };

    fn hash<H: Hasher>(&self, state: &mut H) {
        self.as_slice().hash(state);
    }
}

impl fmt::Debug for Bytes {
    fn fmt<W: fmt::Write>(&self, f: &mut fmt::Formatter<W>) -> fmt::Result {
        fmt::Debug::fmt(&self.as_slice(), f)
    }
}
