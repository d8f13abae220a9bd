//! Building in two steps: the bytes to be signed, which the caller signs, and then the whole.

ghost use Rattle.std.specs.Prelude.{◌≡◌, None, Some, if◌then◌else◌, nat_eq, not};
ghost use Rattle.x509_c_calls.specs.Assembly.{Assembles};
ghost use Rattle.x509_c_calls.specs.BuildMembers.{EncodesEntry, EncodesExtension};
ghost use Rattle.x509_c_calls.specs.Built.{FillsUnrepeated};
ghost use Rattle.x509_c_calls.specs.Certificates.{BuildsCertificate};
ghost use Rattle.x509_c_calls.specs.Crls.{BuildsCrl};
ghost use Rattle.x509_c_calls.specs.Requests.{BuildsRequest};
ghost use Rattle.x509_c_calls.specs.Status.{Fills, Tells};
ghost use Rattle.x509_ext.specs.Identifiers.{id_ce};
ghost use Rattle.x509_ext.specs.LookUp.{Finds, members, with_oid};

use std::alloc::Global;
use x509_c_calls::{
    assemble, build_certificate, build_crl, build_request, entry_encode, extension_encode,
};
use x509_cert::certificate::TbsCertificate;
use x509_der::{Decode, Encode, Grammar};
use x509_ext::pkix::SubjectKeyIdentifier;

/// Puts the certificate, the CRL or the CSR with this signed part, this algorithm and this signature at the front of the
/// room.
#[unsafe(no_mangle)]
pub extern "C" fn x509_assemble(
    alloc: Global,
    part: &[u8],
    algorithm: &[u8],
    signature: &[u8],
    room: &mut [u8],
    written: &mut usize,
) -> i32
    ensures { Tells (λ status. Fills (Assembles part.now algorithm.now signature.now) room.old room.new written.old written.new status) result }
{
    assemble(alloc, part, algorithm, signature, room, written).code()
}

/// Puts the bytes to be signed of a certificate at the front of the room.
#[unsafe(no_mangle)]
pub extern "C" fn x509_build_certificate(
    alloc: Global,
    serial_number: &[u8],
    algorithm: &[u8],
    issuer: &[u8],
    not_before: u64,
    not_after: u64,
    subject: &[u8],
    key: &[u8],
    extensions: &[u8],
    room: &mut [u8],
    written: &mut usize,
) -> i32
    ensures { Tells
        (λ status. FillsUnrepeated (BuildsCertificate ⟦<TbsCertificate as Encode>⟧.writing serial_number.now algorithm.now issuer.now not_before not_after
        subject.now key.now extensions.now) room.old room.new written.old written.new status) result }
{
    build_certificate(
        alloc,
        serial_number,
        algorithm,
        issuer,
        not_before,
        not_after,
        subject,
        key,
        extensions,
        room,
        written,
    )
    .code()
}

/// The time, where `is_told` isn't 0.
fn where_told(is_told: u32, time: u64) -> Option<u64>
    ensures { result ≡ (if nat_eq is_told 0 then None else Some time) }
{
    if is_told == 0 { None } else { Some(time) }
}

/// Puts the bytes to be signed of a CRL at the front of the room. It has a next update where `has_next_update` isn't 0.
#[unsafe(no_mangle)]
pub extern "C" fn x509_build_crl(
    alloc: Global,
    issuer: &[u8],
    algorithm: &[u8],
    number: &[u8],
    this_update: u64,
    has_next_update: u32,
    next_update: u64,
    entries: &[u8],
    extensions: &[u8],
    room: &mut [u8],
    written: &mut usize,
) -> i32
    ensures { Tells (λ status. FillsUnrepeated (BuildsCrl (λ part. Finds ⟦<SubjectKeyIdentifier as Grammar>⟧.form ⟦<SubjectKeyIdentifier as Decode>⟧.refuses
        ⟦<SubjectKeyIdentifier as Decode>⟧.wants_memory (with_oid (id_ce 14) (members part.extensions))) issuer.now algorithm.now number.now this_update
        (if nat_eq has_next_update 0 then None else Some next_update) entries.now extensions.now) room.old room.new written.old written.new status) result }
{
    let next_update = where_told(has_next_update, next_update);
    build_crl(
        alloc,
        issuer,
        algorithm,
        number,
        this_update,
        next_update,
        entries,
        extensions,
        room,
        written,
    )
    .code()
}

/// Puts the bytes to be signed of a CSR at the front of the room.
#[unsafe(no_mangle)]
pub extern "C" fn x509_build_request(
    alloc: Global,
    subject: &[u8],
    key: &[u8],
    attributes: &[u8],
    extensions: &[u8],
    room: &mut [u8],
    written: &mut usize,
) -> i32
    ensures { Tells
        (λ status. FillsUnrepeated (BuildsRequest subject.now key.now attributes.now extensions.now) room.old room.new written.old written.new status)
        result }
{
    build_request(alloc, subject, key, attributes, extensions, room, written).code()
}

/// Puts the encoding of an extension at the front of the room. It is critical where `critical` isn't 0.
#[unsafe(no_mangle)]
pub extern "C" fn x509_extension_encode(
    alloc: Global,
    oid: &[u8],
    critical: u32,
    value: &[u8],
    room: &mut [u8],
    written: &mut usize,
) -> i32
    ensures { Tells (λ status. Fills (EncodesExtension oid.now (not (nat_eq critical 0)) value.now) room.old room.new written.old written.new status) result }
{
    extension_encode(alloc, oid, critical != 0, value, room, written).code()
}

/// Puts the encoding of an entry of a CRL at the front of the room.
#[unsafe(no_mangle)]
pub extern "C" fn x509_crl_entry_encode(
    alloc: Global,
    serial_number: &[u8],
    date: u64,
    extensions: &[u8],
    room: &mut [u8],
    written: &mut usize,
) -> i32
    ensures { Tells (λ status. FillsUnrepeated (EncodesEntry serial_number.now date extensions.now) room.old room.new written.old written.new status) result }
{
    entry_encode(alloc, serial_number, date, extensions, room, written).code()
}
