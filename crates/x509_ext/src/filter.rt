//! All extensions of one type.

ghost use Rattle.std.specs.Prelude.{◌≡◌};
ghost use Rattle.std.specs.Iterator.{item_count};
ghost use Rattle.x509_ext.specs.Filter.{GivesDecoded, extensions_left};
ghost use Rattle.x509_ext.specs.LookUp.{with_oid};

use crate::Extension;
use crate::look_up::{decode, split_first_with};
use std::alloc::Global;
use std::marker::PhantomData;
use x509_der::{AssociatedOid, Decode, Error};

/// An iterator over the extensions of one type, in their order: of each whether it is critical, and its value, or the
/// error of [`Decode::from_der`] on its octets. After an error those that follow are still given.
#[derive(Drop)]
pub struct FilterExtensions<'a, T> {
    alloc: Global,
    rest: &'a [Extension],
    of_type: PhantomData<T>,
}

/// The extensions of type `T`, found by the OID of the type, in their order. [`get_extension`](crate::get_extension)
/// wants that there is one at most, as RFC 5280 4.2 does.
pub fn filter_extensions<T: AssociatedOid + Decode>(
    alloc: Global,
    extensions: &[Extension],
) -> FilterExtensions<'_, T>
    ensures { extensions_left T.OID result ≡ with_oid T.OID extensions.now }
{
    FilterExtensions {
        alloc,
        rest: extensions,
        of_type: PhantomData,
    }
}

impl<'a, T: AssociatedOid + Decode> Iterator for FilterExtensions<'a, T> {
    type Item = Result<(bool, T), Error>;

    ghost next_gives = { GivesDecoded T.form T.refuses T.wants_memory (extensions_left T.OID) };

    ghost remaining = { item_count (extensions_left T.OID) };

    fn next(&mut self) -> Option<Result<(bool, T), Error>> {
        let (extension, others) = split_first_with(self.rest, T::OID)?;
        self.rest = others;
        Some(decode(self.alloc, extension))
    }
}
