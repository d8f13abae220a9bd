//! Numbers of any size, compared.

ghost use Rattle.std.specs.Cmp.Lexicographic.{slice_cmp};
ghost use Rattle.std.specs.Ordering.{nat_cmp};
ghost use Rattle.std.specs.Prelude.{◌≡◌, ◌<◌, ◌↔◌, IsTrue};
ghost use Rattle.std.specs.declared.cmp.Ordering.TheVariants as orders;
ghost use Rattle.x509_prim.specs.Integer.{number};

use std::cmp::Ordering;

/// Whether the number of the octets is 0.
fn is_zero(octets: &[u8]) -> bool
    ensures { IsTrue result ↔ (number octets.now ≡ 0) }
{
    let mut rest = octets;
    while let [octet, behind @ ..] = rest {
        if *octet != 0 {
            return false;
        }
        rest = behind;
    }
    true
}

/// Whether the first octets are before the second, from the first octet on.
fn are_before(a: &[u8], b: &[u8]) -> bool
    ensures { IsTrue result ↔ (slice_cmp nat_cmp a.now b.now ≡ orders.Less) }
{
    matches!(a.cmp(b), Ordering::Less)
}

/// Whether the number of the first octets is less than that of the second, each as digits in base 256, the most significant
/// first.
pub(crate) fn is_less(a: &[u8], b: &[u8]) -> bool
    ensures { IsTrue result ↔ (number a.now < number b.now) }
{
    if a.len() >= b.len() {
        let (front, behind) = a.split_at(a.len() - b.len());
        return is_zero(front) && are_before(behind, b);
    }
    let (front, behind) = b.split_at(b.len() - a.len());
    !is_zero(front) || are_before(a, behind)
}
