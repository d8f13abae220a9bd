//! Writing the octets that the SCTs of a certificate are signatures of.

ghost use Rattle.std.specs.List.{flat_map};
ghost use Rattle.std.specs.Prelude.{◌≡◌, ◌++◌, codes};
ghost use Rattle.x509_tool_run.specs.Answer.{as_line};
ghost use Rattle.x509_show.specs.Timestamps.{AreWritten, IsCertificateWritten, IsLineWritten, IsTextWritten, is_memory, signed_line, undecodable_line};

use crate::reason::{Reason, reason_of};
use std::alloc::Global;
use x509_base::Raw;
use x509_check::CertificateRef;
use x509_log::EmbeddedTimestamps;
use x509_object_run::{Fault, looks_of};
use x509_sct::{
    Error as SctError, SerializedSct, SignedCertificateTimestamp, SignedEntry, TlsError,
};
use x509_tool_run::{Sink, WriteError, write_texts};

/// Writes texts one behind the other.
fn write_all<W: Sink>(texts: &[&[u8]], writer: &mut W) -> Result<(), Reason>
    ensures { IsTextWritten (flat_map (λ text. text.now) texts.now) W.takes writer.old writer.new result }
{
    match write_texts(writer, texts) {
        Ok(()) => Ok(()),
        Err(WriteError) => Err(Reason::Fault(Fault::Unwritten)),
    }
}

/// Writes three words as a line.
fn write_words<'a, W: Sink>(
    first: &'a str,
    second: &'a str,
    third: &'a str,
    writer: &mut W,
) -> Result<(), Reason>
    ensures { IsTextWritten (first.now ++ (codes " " ++ (second.now ++ (codes " " ++ as_line third.now)))) W.takes writer.old writer.new result }
{
    write_all(
        &[
            first.as_bytes(),
            b" ",
            second.as_bytes(),
            b" ",
            third.as_bytes(),
            b"\n",
        ],
        writer,
    )
}

/// Writes the line of an SCT whose signature is over these octets.
fn write_signed<W: Sink>(
    alloc: Global,
    timestamp: &SignedCertificateTimestamp,
    octets: &[u8],
    writer: &mut W,
) -> Result<(), Reason>
    ensures { IsTextWritten (signed_line timestamp.now octets.now) W.takes writer.old writer.new result }
{
    let log = hex::encode(alloc, timestamp.log_id.key_id.as_slice())?;
    let input = hex::encode(alloc, octets)?;
    let signature = hex::encode(alloc, timestamp.signature.signature.as_slice())?;
    write_words(log.as_str(), input.as_str(), signature.as_str(), writer)
}

/// Writes the line of bytes that are no SCT of a known version and algorithm.
fn write_undecodable<W: Sink>(writer: &mut W) -> Result<(), Reason>
    ensures { IsTextWritten undecodable_line W.takes writer.old writer.new result }
{
    write_all(&[b"undecodable\n"], writer)
}

/// Whether an error says that memory is refused.
fn is_memory(e: SctError) -> bool
    ensures { result ≡ is_memory e }
{
    match e {
        SctError::Tls(TlsError::Memory) => true,
        SctError::Tls(_) => false,
        SctError::Der(_) => false,
    }
}

/// Writes the line of an SCT of the entry.
fn write_line<W: Sink>(
    alloc: Global,
    sct: &SerializedSct,
    entry: &SignedEntry<'_>,
    writer: &mut W,
) -> Result<(), Reason>
    ensures { IsLineWritten entry.now sct.now W.takes writer.old writer.new result }
{
    match sct.parse_timestamp(alloc) {
        Ok(timestamp) => match timestamp.signed_input(alloc, entry) {
            Ok(octets) => write_signed(alloc, &timestamp, octets.as_slice(), writer),
            Err(TlsError::InvalidVectorLength) => Err(Reason::TooLong),
            Err(_) => Err(Reason::Fault(Fault::Memory)),
        },
        Err(e) => {
            if is_memory(e) {
                return Err(Reason::Fault(Fault::Memory));
            }
            write_undecodable(writer)
        }
    }
}

/// Writes the lines of SCTs of the entry.
fn write_lines<W: Sink>(
    alloc: Global,
    scts: &[SerializedSct],
    entry: &SignedEntry<'_>,
    writer: &mut W,
) -> Result<(), Reason>
    ensures { AreWritten entry.now scts.now W.takes writer.old writer.new result }
{
    for sct in scts {
        match write_line(alloc, sct, entry, writer) {
            Ok(()) => {}
            Err(reason) => return Err(reason),
        }
    }
    Ok(())
}

/// Writes the lines of the SCTs within the certificate that the bytes are the encoding of, which the issuer issued.
pub(crate) fn write_certificate<W: Sink>(
    alloc: Global,
    bytes: &[u8],
    issuer: &CertificateRef<'_, Raw>,
    writer: &mut W,
) -> Result<(), Reason>
    ensures { IsCertificateWritten bytes.now issuer.now.bytes.now W.takes writer.old writer.new result }
{
    let Ok(certificate) = CertificateRef::<Raw>::from_der(bytes) else {
        return Err(Reason::Fault(Fault::NoObject(looks_of(bytes))));
    };
    match EmbeddedTimestamps::from_certificate(alloc, &certificate, issuer) {
        Ok(embedded) => write_lines(alloc, embedded.timestamps(), &embedded.entry(), writer),
        Err(e) => Err(reason_of(e)),
    }
}
