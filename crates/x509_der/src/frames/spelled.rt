//! Values that a program made: elements that aren't decoded further, lists, and fields that may be absent.

ghost use Rattle.std.specs.List.{All};
ghost use Rattle.std.specs.Prelude.{◌≡◌, Some, IfSome};
ghost use Rattle.x509_der.specs.List.{all_good};

use crate::any::Any;
use crate::list::SequenceOf;
use crate::{Decode, Encode, Spelled};

impl Spelled for Any {
    fn has_spelling(&self) {}
}

/// Each of the values has an encoding, where each meets the premise of its type.
pub fn members_have_spellings<T: Spelled>(items: &[T])
    ensures { All T.premise items.now → all_good T.form.good items.now }
{
    let mut i = items.len();
    while i > 0 {
        i -= 1;
        let item = &items[i];
        item.has_spelling();
    }
}

/// The value of a field that may be absent has an encoding, where it meets the premise of its type.
pub fn option_has_spelling<T: Spelled>(value: &Option<T>)
    ensures { ((v : T) → value.now ≡ Some v → T.premise v) → IfSome value.now T.form.good }
{
    if let Some(value) = value {
        value.has_spelling();
    }
}

impl<T: Decode + Encode + Spelled + Drop> Spelled for SequenceOf<T> {
    ghost premise = { All T.premise };

    fn has_spelling(&self) {
        members_have_spellings(self.as_slice());
    }
}
