//! The order of types with one field.

use crate::order::ValueOrd;
use crate::{FixedTag, Newtype};
use std::cmp::Ordering;

/// A type with one field, which is compared as that field is: from it comes [`ValueOrd`].
pub trait NewtypeOrd: Newtype {}

impl<T: NewtypeOrd> ValueOrd for T
where
    T::Inner: FixedTag + ValueOrd,
{
    ghost use Rattle.x509_der.specs.RoundOrder.{round_order, round_ordered};

    ghost order = { round_order T.round T.Inner.order };

    fn value_cmp(&self, other: &T) -> Ordering {
        self.inner().value_cmp(other.inner())
    }

    ghost ordered = { round_ordered T.round T.Inner.TAG T.Inner.form T.Inner.fixed T.Inner.writing T.Inner.order T.Inner.ordered };
}
