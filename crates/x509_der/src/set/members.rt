//! The members of a set.

ghost use Rattle.std.specs.Prelude.{◌≡◌, ◌≤◌, [], ◌∷◌, length, insert, IfOk, IfErr, OnOk, OnErr};
ghost use Rattle.x509_der.specs.Outcome.{Gives};
ghost use Rattle.x509_der.specs.declared.error.ErrorKind.TheVariants.{Memory};
ghost use Rattle.x509_der.specs.List.{list_reading};

use crate::{Decode, Error, ErrorKind, TryClone, clone_members, read_field, read_further};
use std::alloc::Global;
use std::marker::Model;
use std::mem;

#[derive(Drop)]
enum Kept<T> {
    /// One, and the allocator for more.
    One([T; 1], Global),

    /// None, or two and more.
    Several(Vec<T>),
}

/// Values one after the other, which contracts see as a list. One alone, as most sets have, lies inside and takes no
/// memory.
pub(crate) struct Members<T> {
    kept: Kept<T>,
}

impl<T: Drop> Drop for Members<T> {
    fn drop(self) {
        let Members { kept: _ } = self;
    }
}

impl<T> Model for Members<T> {
    ghost use Rattle.std.specs.Prelude.{List};
    ghost use Rattle.x509_der.specs.Members.{kept_members};

    ghost Value = { List T };

    ghost view = { λ members. kept_members members.kept };
}

impl<T> Members<T> {
    /// None.
    pub(crate) fn new(alloc: Global) -> Members<T>
        ensures { result ≡ [] }
    {
        Members {
            kept: Kept::Several(Vec::new(alloc)),
        }
    }

    /// The one value. It takes no memory.
    pub(crate) fn from_one(alloc: Global, member: T) -> Members<T>
        ensures { result ≡ member ∷ [] }
    {
        Members {
            kept: Kept::One([member], alloc),
        }
    }

    /// Those of the vector.
    pub(crate) fn from_vec(members: Vec<T>) -> Members<T>
        ensures { result ≡ members.items }
    {
        Members {
            kept: Kept::Several(members),
        }
    }

    /// The values.
    #[inline(always)]
    pub(crate) fn as_slice(&self) -> &[T]
        ensures { result.now ≡ self.now }
    {
        match &self.kept {
            Kept::One(one, _) => &one[..],
            Kept::Several(members) => members.as_slice(),
        }
    }

    /// The vector of the values. One alone is moved into a vector, which takes memory.
    pub(crate) fn into_vec(self) -> Result<Vec<T>, Error>
    where
        T: Drop,
        ensures ok { IfOk result (λ items. items.items ≡ self) }
        ensures err { IfErr result (λ e. (e.kind ≡ Memory) × (length self ≡ 1)) }
    {
        let Members { kept } = self;
        match kept {
            Kept::One(one, alloc) => Ok(Vec::from_array(alloc, one)?),
            Kept::Several(members) => Ok(members),
        }
    }

    /// The allocator.
    fn memory(&self) -> Global {
        match &self.kept {
            Kept::One(_, alloc) => *alloc,
            Kept::Several(members) => *members.allocator(),
        }
    }

    /// Inserts the item at the place. When out of memory the values are unchanged, and the item is dropped.
    pub(crate) fn insert(&mut self, at: usize, item: T) -> Result<(), Error>
    where
        T: Drop,
        requires { at ≤ length self.old }
        ensures ok { OnOk result (self.new ≡ insert self.old at item) }
        ensures err { IfErr result (λ e. e.kind ≡ Memory) }
        ensures unchanged { OnErr result (self.new ≡ self.old) }
    {
        let alloc = self.memory();
        let mut members = match mem::replace(&mut self.kept, Kept::Several(Vec::new(alloc))) {
            Kept::Several(members) => members,
            Kept::One(one, alloc) => match Vec::from_array(alloc, one) {
                Ok(members) => members,
                Err(failed) => {
                    self.kept = Kept::One(failed.value, alloc);
                    return Err(ErrorKind::Memory.into());
                }
            },
        };
        let inserted = members.insert(at, item);
        self.kept = Kept::Several(members);
        inserted?;
        Ok(())
    }

    /// Copies of the values; `Memory` when out of memory.
    pub(crate) fn copy(&self, alloc: Global) -> Result<Members<T>, Error>
    where
        T: TryClone + Drop,
        ensures ok { IfOk result (λ copies. copies ≡ self.now) }
        ensures err { IfErr result (λ e. e.kind ≡ Memory) }
    {
        match &self.kept {
            Kept::One([one], _) => Ok(Members {
                kept: Kept::One([one.try_clone(alloc)?], alloc),
            }),
            Kept::Several(members) => Ok(Members::from_vec(clone_members(
                alloc,
                members.as_slice(),
            )?)),
        }
    }
}

impl<T: Decode + Drop> Members<T> {
    /// The values of the elements that the bytes are, one after the other; `Malformed`, or an error of the type's own,
    /// where they are not. `Memory` when out of memory.
    #[inline(always)]
    pub(crate) fn read(alloc: Global, bytes: &[u8]) -> Result<Members<T>, Error>
        ensures exact { Gives result (list_reading T.form.reading bytes.now) }
    {
        if bytes.is_empty() {
            return Ok(Members::new(alloc));
        }
        let mut rest = bytes;
        let first = read_field::<T>(alloc, &mut rest)?;
        if rest.is_empty() {
            return Ok(Members {
                kept: Kept::One([first], alloc),
            });
        }
        Ok(Members::from_vec(read_further(alloc, first, rest)?))
    }
}
