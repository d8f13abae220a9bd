//! Documents of objects: lines that a person reads, or JSON.

ghost use Rattle.x509_c_calls.specs.Documents.{Shows};
ghost use Rattle.x509_c_calls.specs.Status.{Tells};
ghost use Rattle.x509_text.specs.declared.line.Style.TheVariants.{Text, Json};
ghost use Rattle.x509_text.specs.declared.objects.Kind.TheVariants.{Certificate, Crl, Csr, Anchor};

use std::alloc::Global;
use x509_c_calls::show_object;
use x509_text::{Kind, Style};

/// Decodes a certificate, and puts its document, as lines for people, at the front of the buffer.
#[unsafe(no_mangle)]
pub extern "C" fn x509_certificate_text(
    alloc: Global,
    input: &[u8],
    room: &mut [u8],
    written: &mut usize,
) -> i32
    ensures { Tells (λ status. Shows Certificate Text input.now room.old room.new written.old written.new status) result }
{
    show_object(alloc, Style::Text, Kind::Certificate, input, room, written).code()
}

/// Decodes a certificate, and puts its document, as JSON, at the front of the buffer.
#[unsafe(no_mangle)]
pub extern "C" fn x509_certificate_json(
    alloc: Global,
    input: &[u8],
    room: &mut [u8],
    written: &mut usize,
) -> i32
    ensures { Tells (λ status. Shows Certificate Json input.now room.old room.new written.old written.new status) result }
{
    show_object(alloc, Style::Json, Kind::Certificate, input, room, written).code()
}

/// Decodes a CRL, and puts its document, as lines for people, at the front of the buffer.
#[unsafe(no_mangle)]
pub extern "C" fn x509_crl_text(
    alloc: Global,
    input: &[u8],
    room: &mut [u8],
    written: &mut usize,
) -> i32
    ensures { Tells (λ status. Shows Crl Text input.now room.old room.new written.old written.new status) result }
{
    show_object(alloc, Style::Text, Kind::Crl, input, room, written).code()
}

/// Decodes a CRL, and puts its document, as JSON, at the front of the buffer.
#[unsafe(no_mangle)]
pub extern "C" fn x509_crl_json(
    alloc: Global,
    input: &[u8],
    room: &mut [u8],
    written: &mut usize,
) -> i32
    ensures { Tells (λ status. Shows Crl Json input.now room.old room.new written.old written.new status) result }
{
    show_object(alloc, Style::Json, Kind::Crl, input, room, written).code()
}

/// Decodes a CSR, and puts its document, as lines for people, at the front of the buffer.
#[unsafe(no_mangle)]
pub extern "C" fn x509_request_text(
    alloc: Global,
    input: &[u8],
    room: &mut [u8],
    written: &mut usize,
) -> i32
    ensures { Tells (λ status. Shows Csr Text input.now room.old room.new written.old written.new status) result }
{
    show_object(alloc, Style::Text, Kind::Csr, input, room, written).code()
}

/// Decodes a CSR, and puts its document, as JSON, at the front of the buffer.
#[unsafe(no_mangle)]
pub extern "C" fn x509_request_json(
    alloc: Global,
    input: &[u8],
    room: &mut [u8],
    written: &mut usize,
) -> i32
    ensures { Tells (λ status. Shows Csr Json input.now room.old room.new written.old written.new status) result }
{
    show_object(alloc, Style::Json, Kind::Csr, input, room, written).code()
}

/// Decodes a trust anchor, and puts its document, as lines for people, at the front of the buffer.
#[unsafe(no_mangle)]
pub extern "C" fn x509_anchor_text(
    alloc: Global,
    input: &[u8],
    room: &mut [u8],
    written: &mut usize,
) -> i32
    ensures { Tells (λ status. Shows Anchor Text input.now room.old room.new written.old written.new status) result }
{
    show_object(alloc, Style::Text, Kind::Anchor, input, room, written).code()
}

/// Decodes a trust anchor, and puts its document, as JSON, at the front of the buffer.
#[unsafe(no_mangle)]
pub extern "C" fn x509_anchor_json(
    alloc: Global,
    input: &[u8],
    room: &mut [u8],
    written: &mut usize,
) -> i32
    ensures { Tells (λ status. Shows Anchor Json input.now room.old room.new written.old written.new status) result }
{
    show_object(alloc, Style::Json, Kind::Anchor, input, room, written).code()
}
