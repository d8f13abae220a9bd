//! Members one after the other, and what may be absent.

ghost use Rattle.std.specs.Prelude.{◌≡◌};
ghost use Rattle.std.specs.Option.{option_cmp};
ghost use Rattle.x509_der.specs.Writing.{writes};
ghost use Rattle.x509_der.specs.Order.{der_order};
ghost use Rattle.x509_der.specs.Ordered.{by_members};

use crate::order::DerOrd;
use std::cmp::Ordering;

/// The byte order of the elements of the members, one after the other: by the first members that differ, and members
/// that begin others stand before them.
pub fn cmp_members<T: DerOrd>(a: &[T], b: &[T]) -> Ordering
    ensures { result ≡ by_members (der_order T.form (writes T.writing) T.order) a.now b.now }
{
    let mut i = 0;
    while i < a.len() && i < b.len() {
        let order = a[i].der_cmp(&b[i]);
        if !order.is_eq() {
            return order;
        }
        i += 1;
    }
    a.len().cmp(&b.len())
}

/// The byte order of what may be absent: an absent one stands before an element, and two elements in their order.
pub fn cmp_optional<T: DerOrd>(a: &Option<T>, b: &Option<T>) -> Ordering
    ensures { result ≡ option_cmp (der_order T.form (writes T.writing) T.order) a.now b.now }
{
    match (a, b) {
        (None, None) => Ordering::Equal,
        (None, Some(_)) => Ordering::Less,
        (Some(_), None) => Ordering::Greater,
        (Some(a), Some(b)) => a.der_cmp(b),
    }
}
