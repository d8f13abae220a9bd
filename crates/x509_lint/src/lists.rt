//! Whether one or all values of a list pass a test: what `any` and `all` of an iterator answer, without a closure.

ghost use Rattle.std.specs.List.{list_all, list_any};
ghost use Rattle.std.specs.Prelude.{◌≡◌};

use x509_name::attr::AttributeTypeAndValue;
use x509_name::name::{Name, RdnSequence};

/// A test that values may pass.
pub trait Test<T> {
    ghost use Rattle.std.specs.Prelude.{◌≡◌, Bool};

    /// Whether the value passes.
    ghost holds_of: { Self → T → Bool };

    /// Whether the value passes.
    fn holds_of(&self, value: &T) -> bool
        ensures { result ≡ holds_of self.now value.now };
}

/// Whether a value passes; as `any` with a closure, which takes three times as long to prove.
pub fn any_of<T, P: Test<T>>(test: &P, mut values: &[T]) -> bool
    ensures { result ≡ list_any (P.holds_of test.now) values.entry.now }
{
    while let [first, rest @ ..] = values {
        if test.holds_of(first) {
            return true;
        }
        values = rest;
    }
    false
}

/// Whether all values pass.
pub fn all_of<T, P: Test<T>>(test: &P, mut values: &[T]) -> bool
    ensures { result ≡ list_all (P.holds_of test.now) values.entry.now }
{
    while let [first, rest @ ..] = values {
        if !test.holds_of(first) {
            return false;
        }
        values = rest;
    }
    true
}

/// Whether an attribute of the name passes.
pub fn any_attribute<P: Test<AttributeTypeAndValue>>(test: &P, name: &Name) -> bool
    ensures { result ≡ list_any (λ rdn. list_any (P.holds_of test.now) rdn) name.now }
{
    let rdns: &RdnSequence = name.as_ref();
    let mut rdns = rdns.as_slice();
    while let [first, rest @ ..] = rdns {
        if any_of(test, first.as_slice()) {
            return true;
        }
        rdns = rest;
    }
    false
}
