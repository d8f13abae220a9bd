//! The byte orders of a type.

ghost use Rattle.std.specs.Prelude.{◌≡◌};
ghost use Rattle.x509_der.specs.Writing.{writes};
ghost use Rattle.x509_der.specs.Order.{counted};

use crate::Encode;
use std::cmp::Ordering;

pub(crate) mod fields;
pub(crate) mod member;
pub(crate) mod members;
pub(crate) mod newtype;
pub(crate) mod number;
mod number_members;

/// A type of which values are compared as their contents: the byte order of the content octets, by the first that
/// differ, a content that begins another before it (X.690 11.6).
///
/// It encodes nothing and takes no memory. Values that can't be encoded have their places in it too.
pub trait ValueOrd: Encode {
    ghost use Rattle.std.specs.Prelude.{◌≡◌};
    ghost use Rattle.x509_der.specs.Writing.{writes};
    ghost use Rattle.x509_der.specs.Order.{Order, IsOrder};

    ghost order: { Order Self };

    /// The order of the two contents.
    fn value_cmp(&self, other: &Self) -> Ordering
        ensures { result ≡ order self.now other.now };

    ghost ordered: { IsOrder Self.form (writes Self.writing) order };
}

/// A type of which values are compared as their encodings: the byte order of the octets of their elements. Each type
/// whose contents are compared has it.
pub trait DerOrd: ValueOrd {
    ghost use Rattle.std.specs.Prelude.{◌≡◌};
    ghost use Rattle.x509_der.specs.Writing.{writes};
    ghost use Rattle.x509_der.specs.Order.{der_order};

    /// The order of the two encodings.
    fn der_cmp(&self, other: &Self) -> Ordering
        ensures { result ≡ der_order Self.form (writes Self.writing) Self.order self.now other.now }
    {
        let by_tag = self.identifier().octet().cmp(&other.identifier().octet());
        if by_tag.is_ne() {
            return by_tag;
        }
        let by_length = counted_len(self).cmp(&counted_len(other));
        if by_length.is_ne() {
            return by_length;
        }
        self.value_cmp(other)
    }
}

impl<T: ValueOrd> DerOrd for T {}

/// How many content octets are encoded; one more than [`Length::MAX`](crate::Length::MAX) where the value
/// can't be encoded.
#[tactic(auto, using(crate::specs::Ordered::counted_written, crate::specs::Ordered::counted_refused, crate::specs::Ordered::counted_too_long))]
pub(crate) fn counted_len<T: Encode>(value: &T) -> u32
    ensures { result ≡ counted T.form (writes T.writing) value.now }
{
    match value.value_len() {
        Ok(len) => len.as_u32(),
        Err(_) => 268_435_456,
    }
}
