//! What extensions say of CRLs: where they are found, of what they speak, their numbers, and why a certificate was revoked.

ghost use Rattle.std.specs.Prelude.{◌≡◌, []};
ghost use Rattle.x509_c_calls.specs.Cursor.{Steps};
ghost use Rattle.x509_c_calls.specs.Points.{IsIssuingPoint, IsPoint};
ghost use Rattle.x509_c_calls.specs.Place.{IsAt};
ghost use Rattle.x509_c_calls.specs.Calls.{Reads};
ghost use Rattle.x509_c_calls.specs.Status.{Tells};
ghost use Rattle.x509_c_calls.specs.declared.status.status.Status.TheVariants.{Refused};
ghost use Rattle.x509_der.specs.declared.error.ErrorKind.TheVariants.{Memory};
ghost use Rattle.x509_ext.specs.CrlReason.{crl_reason_number};

use std::alloc::Global;
use x509_c_calls::{
    DistributionPointView, IssuingDistributionPointView, Span, content, member_next, payload,
    read_number,
};
use x509_der::{Decode, Grammar, Tag};
use x509_ext::pkix::crl::dp::DistributionPoint;
use x509_ext::pkix::{BaseCrlNumber, CrlNumber, CrlReason, IssuingDistributionPoint};

/// Fills in the next place where CRLs are found.
#[unsafe(no_mangle)]
pub extern "C" fn x509_distribution_points_next(
    alloc: Global,
    input: &[u8],
    at: &mut usize,
    found: &mut DistributionPointView,
) -> i32
    ensures { Tells (λ status. Steps ⟦<DistributionPoint as Grammar>⟧.form ⟦<DistributionPoint as Grammar>⟧.refuses
        ⟦<DistributionPoint as Decode>⟧.wants_memory 48 input.now at.old at.new
        (λ point behind span. IsPoint input.now point behind found.new) (found.new ≡ found.old) status) result }
{
    member_next::<DistributionPointView>(alloc, Tag::Sequence, input, at, found).code()
}

/// Reads an IssuingDistributionPoint, and fills in what it says.
#[unsafe(no_mangle)]
pub extern "C" fn x509_issuing_distribution_point(
    alloc: Global,
    input: &[u8],
    view: &mut IssuingDistributionPointView,
) -> i32
    ensures { Tells (λ status. Reads ⟦<IssuingDistributionPoint as Grammar>⟧.form ⟦<IssuingDistributionPoint as Grammar>⟧.refuses input.now
        (λ point. IsIssuingPoint input.now point [] view.new) (view.new ≡ view.old) status) result }
{
    payload::<IssuingDistributionPointView>(alloc, input, view).code()
}

/// Reads the number of a CRL, and fills in where its content octets stand.
#[unsafe(no_mangle)]
pub extern "C" fn x509_crl_number(alloc: Global, input: &[u8], found: &mut Span) -> i32
    ensures { Tells (λ status. Reads ⟦<CrlNumber as Grammar>⟧.form ⟦<CrlNumber as Grammar>⟧.refuses input.now
        (λ crl. IsAt crl.0 [] input.now found.new) (found.new ≡ found.old) status) result }
{
    content::<CrlNumber>(alloc, input, found).code()
}

/// Reads the number of the CRL that another changes, and fills in where its content octets stand.
#[unsafe(no_mangle)]
pub extern "C" fn x509_base_crl_number(alloc: Global, input: &[u8], found: &mut Span) -> i32
    ensures { Tells (λ status. Reads ⟦<BaseCrlNumber as Grammar>⟧.form ⟦<BaseCrlNumber as Grammar>⟧.refuses input.now
        (λ crl. IsAt crl.0 [] input.now found.new) (found.new ≡ found.old) status) result }
{
    content::<BaseCrlNumber>(alloc, input, found).code()
}

/// Reads a reason code, and fills in its number.
#[unsafe(no_mangle)]
pub extern "C" fn x509_crl_reason(alloc: Global, input: &[u8], reason: &mut u32) -> i32
    ensures { Tells (λ status. Reads ⟦<CrlReason as Grammar>⟧.form ⟦<CrlReason as Grammar>⟧.refuses input.now
        (λ code. reason.new ≡ crl_reason_number code) (reason.new ≡ reason.old) status × (status ≡ Refused Memory → ⊥)) result }
{
    read_number::<CrlReason>(alloc, input, reason).code()
}
