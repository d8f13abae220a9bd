//! Signed certificate timestamps, SCTs (RFC 6962 3.1, 3.2, 3.3).

ghost use Rattle.std.specs.Option.{option_map};
ghost use Rattle.std.specs.Prelude.{◌≡◌, ◌<◌, ◌++◌, OnOk, IfOk, string_bytes};
ghost use Rattle.x509_text.specs.Timestamps as timestamps;

use crate::digits::write_two;
use crate::line::{Place, write_line};
use crate::show::{Show, show_each, write_octets};
use crate::values::second_text;
use std::alloc::{AllocError, Global};
use x509_base::DateTime;
use x509_sct::tls::{read_list, read_whole};
use x509_sct::{
    CtPrecertificatePoison, DigitallySigned, HashAlgorithm, SignatureAlgorithm,
    SignedCertificateTimestamp, SignedCertificateTimestampList, TlsByteVecU16, TlsError, Version,
};

/// Writes milliseconds of a second, as a full stop and three digits; nothing of 0.
fn write_fraction(millis: u64, out: &mut String) -> Result<(), AllocError>
    requires { millis < 1000 }
    ensures { OnOk result (string_bytes out.new ≡ string_bytes out.old ++ timestamps.fraction_text millis) }
{
    if millis == 0 {
        return Ok(());
    }
    let hundreds = (millis / 100) as u8;
    out.push('.')?;
    out.push(char::from(b'0' + hundreds))?;
    write_two((millis % 100) as u8, out)
}

/// The text of a moment and its milliseconds.
fn precise_text(alloc: Global, moment: &DateTime, millis: u64) -> Result<String, AllocError>
    requires { millis < 1000 }
    ensures { IfOk result (λ text. string_bytes text ≡ timestamps.precise_text moment.now millis) }
{
    let mut text = second_text(alloc, moment)?;
    write_fraction(millis, &mut text)?;
    text.push_str(" UTC")?;
    Ok(text)
}

/// The text of a moment after the year 9999, by its milliseconds since 1970.
fn late_text(alloc: Global, millis: u64) -> Result<String, AllocError>
    ensures { IfOk result (λ text. string_bytes text ≡ timestamps.late_text millis) }
{
    format!(in alloc; "{millis} milliseconds since 1970")
}

/// The text of the time of a timestamp.
#[tactic(auto, unfolding(crate::specs::Timestamps::time_text))]
fn time_text(alloc: Global, timestamp: &SignedCertificateTimestamp) -> Result<String, AllocError>
    ensures { IfOk result (λ text. string_bytes text ≡ timestamps.time_text timestamp.now.timestamp) }
{
    let millis = timestamp.timestamp;
    match timestamp.timestamp() {
        Ok(moment) => precise_text(alloc, &moment, millis % 1000),
        Err(_) => late_text(alloc, millis),
    }
}

/// The name of a version (RFC 6962 3.2).
fn version_text(version: Version) -> &'static str
    ensures { result.now ≡ timestamps.version_text version }
{
    match version {
        Version::V1 => "v1",
    }
}

/// The name of a hash algorithm (RFC 5246 7.4.1.4.1, RFC 8422 5.1.3).
fn hash_text(hash: HashAlgorithm) -> &'static str
    ensures { result.now ≡ timestamps.hash_text hash }
{
    match hash {
        HashAlgorithm::None => "none",
        HashAlgorithm::Md5 => "md5",
        HashAlgorithm::Sha1 => "sha1",
        HashAlgorithm::Sha224 => "sha224",
        HashAlgorithm::Sha256 => "sha256",
        HashAlgorithm::Sha384 => "sha384",
        HashAlgorithm::Sha512 => "sha512",
        HashAlgorithm::Intrinsic => "intrinsic",
    }
}

/// The name of a signature algorithm (RFC 5246 7.4.1.4.1, RFC 8422 5.1.3).
fn signature_text(signature: SignatureAlgorithm) -> &'static str
    ensures { result.now ≡ timestamps.signature_text signature }
{
    match signature {
        SignatureAlgorithm::Anonymous => "anonymous",
        SignatureAlgorithm::Rsa => "rsa",
        SignatureAlgorithm::Dsa => "dsa",
        SignatureAlgorithm::Ecdsa => "ecdsa",
        SignatureAlgorithm::Ed25519 => "ed25519",
        SignatureAlgorithm::Ed448 => "ed448",
    }
}

/// Writes the signature of a timestamp, and with which algorithms it was made.
#[tactic(auto, unfolding(crate::specs::Timestamps::signed_lines))]
fn write_signed(
    alloc: Global,
    at: Place,
    signed: &DigitallySigned,
    out: &mut String,
) -> Result<(), AllocError>
    ensures { OnOk result (string_bytes out.new ≡ string_bytes out.old ++ timestamps.signed_lines at signed.now) }
{
    let hash = hash_text(signed.algorithm.hash);
    let signature = signature_text(signed.algorithm.signature);
    write_line(alloc, at, "hash algorithm", hash, out)?;
    write_line(alloc, at, "signature algorithm", signature, out)?;
    write_octets(alloc, at, "signature", signed.signature.as_slice(), out)
}

/// Writes the extensions of a timestamp, where it has any.
fn write_extensions(
    alloc: Global,
    at: Place,
    octets: &[u8],
    out: &mut String,
) -> Result<(), AllocError>
    ensures { OnOk result (string_bytes out.new ≡ string_bytes out.old ++ timestamps.extensions_line at octets.now) }
{
    if octets.is_empty() {
        Ok(())
    } else {
        write_octets(alloc, at, "extensions", octets, out)
    }
}

/// Writes what belongs to a timestamp.
#[tactic(auto, unfolding(crate::specs::Timestamps::timestamp_parts))]
fn write_parts(
    alloc: Global,
    at: Place,
    timestamp: &SignedCertificateTimestamp,
    out: &mut String,
) -> Result<(), AllocError>
    ensures { OnOk result (string_bytes out.new ≡ string_bytes out.old ++ timestamps.timestamp_parts at timestamp.now) }
{
    let version = version_text(timestamp.version);
    write_line(alloc, at, "version", version, out)?;
    write_octets(alloc, at, "log ID", &timestamp.log_id.key_id, out)?;
    write_extensions(alloc, at, timestamp.extensions.as_slice(), out)?;
    write_signed(alloc, at, &timestamp.signature, out)
}

#[tactic(auto, unfolding(crate::specs::Timestamps::timestamp_lines))]
impl Show for SignedCertificateTimestamp {
    ghost use Rattle.x509_text.specs.Timestamps.{timestamp_lines};

    ghost lines = { timestamp_lines };

    fn show(&self, alloc: Global, at: Place, out: &mut String) -> Result<(), AllocError> {
        let text = time_text(alloc, self)?;
        write_line(alloc, at, "timestamp", text.as_str(), out)?;
        write_parts(alloc, at.below(), self, out)
    }
}

/// The timestamp of which the octets are the encoding, where they are that of one.
#[tactic(auto, unfolding(crate::specs::Timestamps::timestamp_of))]
fn timestamp_of(
    alloc: Global,
    octets: &[u8],
) -> Result<Option<SignedCertificateTimestamp>, AllocError>
    ensures { IfOk result (λ timestamp. timestamp ≡ timestamps.timestamp_of octets.now) }
{
    match read_whole::<SignedCertificateTimestamp>(alloc, octets) {
        Ok(timestamp) => Ok(Some(timestamp)),
        Err(e) => match e {
            TlsError::Memory => Err(AllocError),
            _ => Ok(None),
        },
    }
}

#[tactic(auto, unfolding(crate::specs::Timestamps::serialized_lines))]
impl Show for TlsByteVecU16 {
    ghost use Rattle.x509_text.specs.Timestamps.{serialized_lines};

    ghost lines = { serialized_lines };

    /// A timestamp of a list.
    fn show(&self, alloc: Global, at: Place, out: &mut String) -> Result<(), AllocError> {
        match timestamp_of(alloc, self.as_slice())? {
            Some(timestamp) => timestamp.show(alloc, at, out),
            None => write_octets(alloc, at, "undecodable", self.as_slice(), out),
        }
    }
}

/// The octets of each timestamp of a list, where the octets are the encoding of a list.
#[tactic(auto, unfolding(crate::specs::Timestamps::serialized_in))]
fn serialized_in(alloc: Global, octets: &[u8]) -> Result<Option<Vec<TlsByteVecU16>>, AllocError>
    ensures { IfOk result (λ list. option_map (λ v. v.items) list ≡ timestamps.serialized_in octets.now) }
{
    match read_list::<TlsByteVecU16>(alloc, octets) {
        Ok(list) => Ok(Some(list)),
        Err(e) => match e {
            TlsError::Memory => Err(AllocError),
            _ => Ok(None),
        },
    }
}

#[tactic(auto, unfolding(crate::specs::Timestamps::timestamps_lines))]
impl Show for SignedCertificateTimestampList {
    ghost use Rattle.x509_text.specs.Timestamps.{timestamps_lines};

    ghost lines = { timestamps_lines };

    fn show(&self, alloc: Global, at: Place, out: &mut String) -> Result<(), AllocError> {
        let octets = self.as_ref().as_bytes();
        match serialized_in(alloc, octets)? {
            Some(list) => show_each(alloc, at, list.as_slice(), out),
            None => write_octets(alloc, at, "undecodable", octets, out),
        }
    }
}

impl Show for CtPrecertificatePoison {
    ghost use Rattle.x509_text.specs.Timestamps.{poison_line};

    ghost lines = { poison_line };

    fn show(&self, alloc: Global, at: Place, out: &mut String) -> Result<(), AllocError> {
        write_line(alloc, at, "value", "NULL", out)
    }
}
