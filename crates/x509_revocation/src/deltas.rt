//! What delta CRLs are known by.

ghost use Rattle.std.specs.Prelude.{◌↔◌, IfOk, IsTrue};
ghost use Rattle.x509_ext.specs.Identifiers.{id_ce};
ghost use Rattle.x509_revocation.specs.Crls.{AreInOrder, Crl, HaveSame, crl_extensions};
ghost use Rattle.x509_revocation.specs.Lent.{LendsCrl};

use crate::extensions::{have_same, value_of};
use crate::numbers::is_less;
use std::alloc::{AllocError, Global};
use x509_check::CrlRef;
use x509_der::AssociatedOid;
use x509_ext::pkix::{AuthorityKeyIdentifier, BaseCrlNumber, CrlNumber, IssuingDistributionPoint};

/// Whether the complete CRL is the base of the delta CRL or came behind it, and before the delta CRL, by their numbers.
pub(crate) fn are_in_order(
    alloc: Global,
    complete: &CrlRef<'_>,
    delta: &CrlRef<'_>,
) -> Result<bool, AllocError>
    ensures { IfOk result (λ b. (whole part : Crl) → LendsCrl complete.now.bytes.now whole → LendsCrl delta.now.bytes.now part
        → IsTrue b ↔ AreInOrder whole part) }
{
    let found_base = value_of::<BaseCrlNumber>(alloc, delta)?;
    let Some(base) = found_base else {
        return Ok(false);
    };
    let found_own = value_of::<CrlNumber>(alloc, complete)?;
    let Some(own) = found_own else {
        return Ok(false);
    };
    let found_next = value_of::<CrlNumber>(alloc, delta)?;
    let Some(next) = found_next else {
        return Ok(false);
    };
    if is_less(own.0.as_bytes(), base.0.as_bytes()) {
        return Ok(false);
    }
    Ok(is_less(own.0.as_bytes(), next.0.as_bytes()))
}

/// Whether both have the same IssuingDistributionPoint, or neither has one.
pub(crate) fn have_same_point(a: &CrlRef<'_>, b: &CrlRef<'_>) -> bool
    ensures { (x y : Crl) → LendsCrl a.now.bytes.now x → LendsCrl b.now.bytes.now y
        → IsTrue result ↔ HaveSame (id_ce 28) (crl_extensions x) (crl_extensions y) }
{
    have_same(
        &a.extensions(),
        &b.extensions(),
        IssuingDistributionPoint::OID,
    )
}

/// Whether both have the same AuthorityKeyIdentifier, or neither has one.
pub(crate) fn have_same_key_identifier(a: &CrlRef<'_>, b: &CrlRef<'_>) -> bool
    ensures { (x y : Crl) → LendsCrl a.now.bytes.now x → LendsCrl b.now.bytes.now y
        → IsTrue result ↔ HaveSame (id_ce 35) (crl_extensions x) (crl_extensions y) }
{
    have_same(
        &a.extensions(),
        &b.extensions(),
        AuthorityKeyIdentifier::OID,
    )
}
