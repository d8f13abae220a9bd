//! Which rules objects break, as lines of JSON, and the texts of these.

ghost use Rattle.x509_c_lint.specs.FindingLines.{FindsTold, StepsFinding};
ghost use Rattle.x509_c_lint.specs.Findings.{Lints};
ghost use Rattle.x509_c_calls.specs.Status.{Tells};
ghost use Rattle.x509_lint.specs.declared.report.Kind.TheVariants.{Anchor, Certificate, Crl, Csr};

use std::alloc::Global;
use x509_c_lint::{FindingView, finding_next, lint_object};
use x509_lint::Kind;

/// Decodes a certificate, and puts a line for each rule that it breaks at the front of the buffer.
#[unsafe(no_mangle)]
pub extern "C" fn x509_certificate_lint(
    alloc: Global,
    input: &[u8],
    room: &mut [u8],
    written: &mut usize,
) -> i32
    ensures { Tells (λ status. Lints Certificate input.now room.old room.new written.old written.new status) result }
{
    lint_object(alloc, Kind::Certificate, input, room, written).code()
}

/// Decodes a CRL, and puts a line for each rule that it breaks at the front of the buffer.
#[unsafe(no_mangle)]
pub extern "C" fn x509_crl_lint(
    alloc: Global,
    input: &[u8],
    room: &mut [u8],
    written: &mut usize,
) -> i32
    ensures { Tells (λ status. Lints Crl input.now room.old room.new written.old written.new status) result }
{
    lint_object(alloc, Kind::Crl, input, room, written).code()
}

/// Decodes a CSR, and puts a line for each rule that it breaks at the front of the buffer.
#[unsafe(no_mangle)]
pub extern "C" fn x509_request_lint(
    alloc: Global,
    input: &[u8],
    room: &mut [u8],
    written: &mut usize,
) -> i32
    ensures { Tells (λ status. Lints Csr input.now room.old room.new written.old written.new status) result }
{
    lint_object(alloc, Kind::Csr, input, room, written).code()
}

/// Decodes a trust anchor, and puts a line for each rule that it breaks at the front of the buffer.
#[unsafe(no_mangle)]
pub extern "C" fn x509_anchor_lint(
    alloc: Global,
    input: &[u8],
    room: &mut [u8],
    written: &mut usize,
) -> i32
    ensures { Tells (λ status. Lints Anchor input.now room.old room.new written.old written.new status) result }
{
    lint_object(alloc, Kind::Anchor, input, room, written).code()
}

/// Fills in where the texts of the next of such lines stand.
#[unsafe(no_mangle)]
pub extern "C" fn x509_finding_next(lines: &[u8], at: &mut usize, found: &mut FindingView) -> i32
    ensures { Tells (λ status. StepsFinding lines.now at.old at.new found.old found.new status
        × FindsTold lines.now at.old at.new found.new status) result }
{
    finding_next(lines, at, found).code()
}
