//! Values that a program made: which of them have an encoding.

use crate::content::Content;
use crate::grammar::{FixedTag, Grammar};
use crate::newtype::Newtype;

/// A type of which each value that a program holds has an encoding, however it was made: what is encoded of it decodes
/// to what was meant.
pub trait Spelled: Grammar {
    /// The premise: what is to hold of a value for that. For most types it is nothing, as a value is checked where it
    /// is made.
    ghost premise: { Self → Type 0 } = { λ value. Unit };

    /// The value has an encoding. It is for proofs: it only looks at the parts of the value.
    fn has_spelling(&self)
        ensures { premise self.now → Self.form.good self.now };
}

impl Spelled for bool {
    fn has_spelling(&self) {}
}

impl Spelled for u8 {
    fn has_spelling(&self) {
        let _number = *self;
    }
}

impl Spelled for u16 {
    fn has_spelling(&self) {
        let _number = *self;
    }
}

impl Spelled for u32 {
    fn has_spelling(&self) {
        let _number = *self;
    }
}

impl Spelled for u64 {
    fn has_spelling(&self) {
        let _number = *self;
    }
}

impl Spelled for u128 {
    fn has_spelling(&self) {
        let _number = *self;
    }
}

impl<T: Newtype> Spelled for T
where
    T::Inner: FixedTag + Spelled,
{
    ghost premise = { λ value. T.Inner.premise (T.round.to value) };

    fn has_spelling(&self) {
        self.inner().has_spelling();
    }
}
