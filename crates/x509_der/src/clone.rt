//! Copies that may take memory.

ghost use Rattle.std.specs.Prelude.{◌≡◌, Ok, None, IfOk, IfErr, IsOk};
ghost use Rattle.x509_der.specs.declared.error.ErrorKind.TheVariants.{Memory};

use crate::{AnyRef, Bytes, Error, ErrorKind, Header, Length, Tag, TagNumber};
use std::alloc::Global;

/// A value that can be copied where there is memory for it.
pub trait TryClone: Sized {
    ghost use Rattle.std.specs.Prelude.{◌≡◌, IfOk, IfErr};
    ghost use Rattle.x509_der.specs.declared.error.ErrorKind.TheVariants.{Memory};

    /// A copy, which equals the value.
    ///
    /// # Errors
    ///
    /// `Memory` when out of memory, and nothing else.
    fn try_clone(&self, alloc: Global) -> Result<Self, Error>
        ensures ok { IfOk result (λ copy. copy ≡ self.now) }
        ensures err { IfErr result (λ e. e.kind ≡ Memory) };
}

impl<T: TryClone> TryClone for Option<T> {
    fn try_clone(&self, alloc: Global) -> Result<Option<T>, Error>
        ensures ok { IfOk result (λ copy. copy ≡ self.now) }
        ensures err { IfErr result (λ e. e.kind ≡ Memory) }
        ensures none { self.now ≡ None → result ≡ Ok None }
    {
        match self {
            None => Ok(None),
            Some(value) => Ok(Some(value.try_clone(alloc)?)),
        }
    }
}

impl TryClone for bool {
    fn try_clone(&self, _alloc: Global) -> Result<bool, Error>
        ensures { result ≡ Ok self.now }
    {
        Ok(*self)
    }
}

impl TryClone for u8 {
    fn try_clone(&self, _alloc: Global) -> Result<u8, Error>
        ensures { result ≡ Ok self.now }
    {
        Ok(*self)
    }
}

impl TryClone for u16 {
    fn try_clone(&self, _alloc: Global) -> Result<u16, Error>
        ensures { result ≡ Ok self.now }
    {
        Ok(*self)
    }
}

impl TryClone for u32 {
    fn try_clone(&self, _alloc: Global) -> Result<u32, Error>
        ensures { result ≡ Ok self.now }
    {
        Ok(*self)
    }
}

impl TryClone for u64 {
    fn try_clone(&self, _alloc: Global) -> Result<u64, Error>
        ensures { result ≡ Ok self.now }
    {
        Ok(*self)
    }
}

impl TryClone for u128 {
    fn try_clone(&self, _alloc: Global) -> Result<u128, Error>
        ensures { result ≡ Ok self.now }
    {
        Ok(*self)
    }
}

impl TryClone for Error {
    fn try_clone(&self, _alloc: Global) -> Result<Error, Error>
        ensures { result ≡ Ok self.now }
    {
        Ok(*self)
    }
}

impl TryClone for ErrorKind {
    fn try_clone(&self, _alloc: Global) -> Result<ErrorKind, Error>
        ensures { result ≡ Ok self.now }
    {
        Ok(*self)
    }
}

impl TryClone for Length {
    fn try_clone(&self, _alloc: Global) -> Result<Length, Error>
        ensures { result ≡ Ok self.now }
    {
        Ok(*self)
    }
}

impl TryClone for Tag {
    fn try_clone(&self, _alloc: Global) -> Result<Tag, Error>
        ensures { result ≡ Ok self.now }
    {
        Ok(*self)
    }
}

impl TryClone for TagNumber {
    fn try_clone(&self, _alloc: Global) -> Result<TagNumber, Error>
        ensures { result ≡ Ok self.now }
    {
        Ok(*self)
    }
}

impl TryClone for Header {
    fn try_clone(&self, _alloc: Global) -> Result<Header, Error>
        ensures { result ≡ Ok self.now }
    {
        Ok(*self)
    }
}

impl TryClone for AnyRef<'_> {
    fn try_clone(&self, _alloc: Global) -> Result<Self, Error>
        ensures ok { IfOk result (λ copy. copy ≡ self.now) }
        ensures err { IfErr result (λ e. e.kind ≡ Memory) }
        ensures always { IsOk result }
    {
        Ok(*self)
    }
}

impl TryClone for Bytes {
    fn try_clone(&self, alloc: Global) -> Result<Bytes, Error> {
        Bytes::from_slice(alloc, self.as_slice())
    }
}
