//! Which of two CRLs is older (RFC 5280 5.2.3).

ghost use Rattle.std.specs.Prelude.{◌<◌, ◌↔◌, ℕ, IfOk, IsTrue, Option, option_map};
ghost use Rattle.x509_prim.specs.Integer.{number};
ghost use Rattle.x509_revocation.specs.Ages.{numbers};
ghost use Rattle.x509_revocation.specs.Crls.{Crl, IsBelow, IsNumbered, IsOlder, this_second};
ghost use Rattle.x509_revocation.specs.Lent.{LendsCrl};

use crate::extensions::value_of;
use crate::numbers::is_less;
use std::alloc::{AllocError, Global};
use x509_check::CrlRef;
use x509_ext::pkix::CrlNumber;

/// Whether the first number is the lower one; where they don't differ, it is as the dates have it.
fn is_below(a: &Option<CrlNumber>, b: &Option<CrlNumber>, is_earlier: bool) -> bool
    ensures { IsTrue result ↔ IsBelow (numbers a.now) (numbers b.now) (IsTrue is_earlier) }
{
    match a {
        Some(first) => match b {
            Some(second) => {
                let (low, high) = (first.0.as_bytes(), second.0.as_bytes());
                is_less(low, high) || (is_earlier && !is_less(high, low))
            }
            None => false,
        },
        None => b.is_some() || is_earlier,
    }
}

/// Whether the update of the first CRL is before that of the second.
fn is_earlier(a: &CrlRef<'_>, b: &CrlRef<'_>) -> bool
    ensures { (x y : Crl) → LendsCrl a.now.bytes.now x → LendsCrl b.now.bytes.now y → IsTrue result ↔ (this_second x < this_second y) }
{
    a.this_update().to_unix_duration() < b.this_update().to_unix_duration()
}

/// Whether the first CRL is the older one, by their numbers, and where these don't differ by their dates.
pub(crate) fn is_older(alloc: Global, a: &CrlRef<'_>, b: &CrlRef<'_>) -> Result<bool, AllocError>
    ensures { IfOk result (λ older. (x y : Crl) → LendsCrl a.now.bytes.now x → LendsCrl b.now.bytes.now y → IsTrue older ↔ IsOlder x y) }
{
    let first = value_of::<CrlNumber>(alloc, a)?;
    let second = value_of::<CrlNumber>(alloc, b)?;
    Ok(is_below(&first, &second, is_earlier(a, b)))
}
