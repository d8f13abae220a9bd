//! BOOLEAN, and INTEGER as the number types.

ghost use Rattle.std.specs.Prelude.{◌≡◌};
ghost use Rattle.x509_der.specs.Natural.{natural_octets};
ghost use Rattle.x509_der.specs.Order.{bytes_cmp};
ghost use Rattle.x509_der.specs.NumberOrder.{further, front};

use crate::order::ValueOrd;
use std::cmp::Ordering;

/// How many octets the content of the number has behind the first.
fn further_octets(number: u128) -> u32
    ensures { result ≡ further 16 number }
{
    let mut count = 0;
    let mut rest = number;
    while rest >= 128 {
        rest /= 256;
        count += 1;
    }
    count
}

/// The number without its last octets.
fn without_last(number: u128, count: u32) -> u128
    ensures { result ≡ front count number }
{
    let mut left = count;
    let mut rest = number;
    while left > 0 {
        rest /= 256;
        left -= 1;
    }
    rest
}

/// The byte order of the INTEGER contents of the numbers (X.690 8.3): 128 stands before 1, since its content is 00 80.
#[tactic(auto, using(crate::specs::NumberOrder::naturals_cmp))]
pub fn cmp_naturals(a: u128, b: u128) -> Ordering
    ensures { result ≡ bytes_cmp (natural_octets a) (natural_octets b) }
{
    let further_a = further_octets(a);
    let further_b = further_octets(b);
    let front_a = without_last(a, further_a.saturating_sub(further_b));
    let front_b = without_last(b, further_b.saturating_sub(further_a));
    front_a.cmp(&front_b).then(further_a.cmp(&further_b))
}

#[tactic(auto, unfolding(crate::specs::Boolean::boolean_octets))]
impl ValueOrd for bool {
    ghost use Rattle.x509_der.specs.Boolean.{boolean};
    ghost use Rattle.x509_der.specs.Writing.{plain, writes};
    ghost use Rattle.x509_der.specs.NumberOrder.{boolean_ordered};
    ghost use Rattle.x509_der.specs.Ordered.{by_bytes};

    ghost order = { by_bytes boolean };

    fn value_cmp(&self, other: &bool) -> Ordering {
        self.cmp(other)
    }

    ghost ordered = { boolean_ordered (writes plain) };
}

impl ValueOrd for u8 {
    ghost use Rattle.std.specs.Prelude.{◌^◌};
    ghost use Rattle.x509_der.specs.Natural.{natural};
    ghost use Rattle.x509_der.specs.Writing.{plain, writes};
    ghost use Rattle.x509_der.specs.NumberOrder.{natural_ordered};
    ghost use Rattle.x509_der.specs.Ordered.{by_bytes};

    ghost order = { by_bytes (natural (2 ^ 8)) };

    fn value_cmp(&self, other: &u8) -> Ordering {
        cmp_naturals(u128::from(*self), u128::from(*other))
    }

    ghost ordered = { natural_ordered (2 ^ 8) (writes plain) };
}

impl ValueOrd for u16 {
    ghost use Rattle.std.specs.Prelude.{◌^◌};
    ghost use Rattle.x509_der.specs.Natural.{natural};
    ghost use Rattle.x509_der.specs.Writing.{plain, writes};
    ghost use Rattle.x509_der.specs.NumberOrder.{natural_ordered};
    ghost use Rattle.x509_der.specs.Ordered.{by_bytes};

    ghost order = { by_bytes (natural (2 ^ 16)) };

    fn value_cmp(&self, other: &u16) -> Ordering {
        cmp_naturals(u128::from(*self), u128::from(*other))
    }

    ghost ordered = { natural_ordered (2 ^ 16) (writes plain) };
}

impl ValueOrd for u32 {
    ghost use Rattle.std.specs.Prelude.{◌^◌};
    ghost use Rattle.x509_der.specs.Natural.{natural};
    ghost use Rattle.x509_der.specs.Writing.{plain, writes};
    ghost use Rattle.x509_der.specs.NumberOrder.{natural_ordered};
    ghost use Rattle.x509_der.specs.Ordered.{by_bytes};

    ghost order = { by_bytes (natural (2 ^ 32)) };

    fn value_cmp(&self, other: &u32) -> Ordering {
        cmp_naturals(u128::from(*self), u128::from(*other))
    }

    ghost ordered = { natural_ordered (2 ^ 32) (writes plain) };
}

impl ValueOrd for u64 {
    ghost use Rattle.std.specs.Prelude.{◌^◌};
    ghost use Rattle.x509_der.specs.Natural.{natural};
    ghost use Rattle.x509_der.specs.Writing.{plain, writes};
    ghost use Rattle.x509_der.specs.NumberOrder.{natural_ordered};
    ghost use Rattle.x509_der.specs.Ordered.{by_bytes};

    ghost order = { by_bytes (natural (2 ^ 64)) };

    fn value_cmp(&self, other: &u64) -> Ordering {
        cmp_naturals(u128::from(*self), u128::from(*other))
    }

    ghost ordered = { natural_ordered (2 ^ 64) (writes plain) };
}

impl ValueOrd for u128 {
    ghost use Rattle.std.specs.Prelude.{◌^◌};
    ghost use Rattle.x509_der.specs.Natural.{natural};
    ghost use Rattle.x509_der.specs.Writing.{plain, writes};
    ghost use Rattle.x509_der.specs.NumberOrder.{natural_ordered};
    ghost use Rattle.x509_der.specs.Ordered.{by_bytes};

    ghost order = { by_bytes (natural (2 ^ 128)) };

    fn value_cmp(&self, other: &u128) -> Ordering {
        cmp_naturals(*self, *other)
    }

    ghost ordered = { natural_ordered (2 ^ 128) (writes plain) };
}
