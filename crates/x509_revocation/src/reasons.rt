//! Sets of reasons, among them the masks of RFC 5280 6.3.3.

ghost use Rattle.std.specs.Int.RustNames.{bit_or};
ghost use Rattle.std.specs.Prelude.{◌≡◌, ◌↔◌, IsTrue};
ghost use Rattle.x509_revocation.specs.Points as points;
ghost use Rattle.x509_revocation.specs.Status as status;

use bitflags::Flags;
use x509_ext::pkix::crl::dp::ReasonFlags;

/// No reasons.
pub(crate) fn no_reasons() -> ReasonFlags
    ensures { result ≡ record { 0 = 0 } }
{
    ReasonFlags::from_bits_retain(0)
}

/// Whether there are none.
pub(crate) fn are_none(reasons: ReasonFlags) -> bool
    ensures { IsTrue result ↔ (reasons.0 ≡ 0) }
{
    reasons.bits() == 0
}

/// All reasons: the bits 1 to 8.
pub(crate) fn all_reasons() -> ReasonFlags
    ensures { result ≡ points.all_reasons }
{
    ReasonFlags::from_bits_retain(0x1FE)
}

/// (d): the reasons of a point and those for which alone a CRL is, together.
pub(crate) fn interim_reasons(point: Option<ReasonFlags>, some: Option<ReasonFlags>) -> ReasonFlags
    ensures { result ≡ points.interim_reasons point some }
{
    match some {
        Some(some) => match point {
            Some(point) => ReasonFlags::from_bits_retain(point.bits() & some.bits()),
            None => some,
        },
        None => match point {
            Some(point) => point,
            None => all_reasons(),
        },
    }
}

/// (l): the reasons of both.
pub(crate) fn joined(a: ReasonFlags, b: ReasonFlags) -> ReasonFlags
    ensures { result ≡ record { 0 = bit_or a.0 b.0 } }
{
    let mut both = a;
    both.insert(b);
    both
}

/// The reasons without the others.
pub(crate) fn minus(left: ReasonFlags, reasons: ReasonFlags) -> ReasonFlags
    ensures { result ≡ status.minus left reasons }
{
    let mut rest = left;
    rest.remove(reasons);
    rest
}
