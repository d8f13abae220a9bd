//! Places of members.

ghost use Rattle.std.specs.Prelude.{◌≡◌, length};
ghost use Rattle.std.specs.List.Sorted.{IsBinarySearchResult, IsSearchInRange};
ghost use Rattle.x509_der.specs.Writing.{writes};
ghost use Rattle.x509_der.specs.Order.{der_order};
ghost use Rattle.x509_der.specs.Set.{is_rising};

use crate::DerOrd;

/// The index of the item among the members.
///
/// # Errors
///
/// Where no member is equal to it, the index at which it would stand.
pub fn place<T: DerOrd>(members: &[T], item: &T) -> Result<usize, usize>
    ensures bound { IsSearchInRange result (length members.now) }
    ensures found { IsBinarySearchResult (λ x. der_order T.form (writes T.writing) T.order x item.now) members.now result }
{
    members.binary_search_by(|member| member.der_cmp(item))
}

/// Whether each member is below the next.
pub fn is_rising<T: DerOrd>(members: &[T]) -> bool
    ensures { result ≡ is_rising (der_order T.form (writes T.writing) T.order) members.now }
{
    let mut i = 1;
    while i < members.len() {
        if !members[i - 1].der_cmp(&members[i]).is_lt() {
            return false;
        }
        i += 1;
    }
    true
}
