//! Lines of simple values: numbers, OIDs, names, dates, elements of any type.

ghost use Rattle.std.specs.Prelude.{◌≡◌, ◌++◌, ◌<◌, OnOk, IfOk, string_bytes, length};
ghost use Rattle.x509_text.specs.Names.{oid_text};
ghost use Rattle.x509_text.specs.Values as values;

use crate::digits::{colon_text, hex_text, write_behind, write_four};
use crate::line::{Place, write_line};
use crate::names::name_of;
use crate::show::{write_element, write_octets};
use std::alloc::{AllocError, Global};
use std::net::{Ipv4Addr, Ipv6Addr};
use x509_base::{DateTime, Profile, SerialNumber};
use x509_der::{Any, ErrorKind, ObjectIdentifier, Tag};
use x509_name::name::Name;
use x509_prim::{BitString, Uint};

/// The name of an OID, or its dotted text where it has none here.
#[tactic(auto, unfolding(crate::specs::Names::oid_text))]
pub(crate) fn oid_text(alloc: Global, oid: &ObjectIdentifier) -> Result<String, AllocError>
    ensures { IfOk result (λ text. string_bytes text ≡ oid_text oid.now) }
{
    match name_of(oid.as_bytes()) {
        Some(name) => name.to_string(alloc),
        None => oid.to_string(alloc),
    }
}

/// Writes an OID.
#[tactic(auto, unfolding(crate::specs::Values::oid_line, crate::specs::Names::oid_text))]
pub(crate) fn write_oid(
    alloc: Global,
    at: Place,
    label: &str,
    oid: &ObjectIdentifier,
    out: &mut String,
) -> Result<(), AllocError>
    ensures { OnOk result (string_bytes out.new ≡ string_bytes out.old ++ values.oid_line at label.now oid.now) }
{
    match name_of(oid.as_bytes()) {
        Some(name) => write_line(alloc, at, label, name, out),
        None => {
            let text = oid.to_string(alloc)?;
            write_line(alloc, at, label, text.as_str(), out)
        }
    }
}

/// Writes a number in decimal digits.
#[tactic(auto, unfolding(crate::specs::Values::number_line))]
pub(crate) fn write_number(
    alloc: Global,
    at: Place,
    label: &str,
    number: u64,
    out: &mut String,
) -> Result<(), AllocError>
    ensures { OnOk result (string_bytes out.new ≡ string_bytes out.old ++ values.number_line at label.now number) }
{
    let text = number.to_string(alloc)?;
    write_line(alloc, at, label, text.as_str(), out)
}

/// Writes a number that may be left out.
pub(crate) fn write_optional_number(
    alloc: Global,
    at: Place,
    label: &str,
    number: Option<u32>,
    out: &mut String,
) -> Result<(), AllocError>
    ensures { OnOk result (string_bytes out.new ≡ string_bytes out.old ++ values.optional_number at label.now number) }
{
    match number {
        Some(number) => write_number(alloc, at, label, u64::from(number), out),
        None => Ok(()),
    }
}

/// Writes a name (RFC 4514).
#[tactic(auto, unfolding(crate::specs::Values::name_line))]
pub(crate) fn write_name(
    alloc: Global,
    at: Place,
    label: &str,
    name: &Name,
    out: &mut String,
) -> Result<(), AllocError>
    ensures { OnOk result (string_bytes out.new ≡ string_bytes out.old ++ values.name_line at label.now name.now) }
{
    let text = name.to_string(alloc)?;
    write_line(alloc, at, label, text.as_str(), out)
}

/// Writes a serial number, its content octets in hex with colons between.
#[tactic(auto, unfolding(crate::specs::Values::serial_line))]
pub(crate) fn write_serial<P: Profile>(
    alloc: Global,
    at: Place,
    label: &str,
    serial: &SerialNumber<P>,
    out: &mut String,
) -> Result<(), AllocError>
    ensures { OnOk result (string_bytes out.new ≡ string_bytes out.old ++ values.serial_line at label.now serial.now) }
{
    let text = colon_text(alloc, serial.as_bytes())?;
    write_line(alloc, at, label, text.as_str(), out)
}

/// The length of `2025-01-31 08:30:00.500 UTC`.
const LONGEST_MOMENT: usize = 27;

/// The text of a date and a time of day, as `2025-01-31 08:30:00`.
#[tactic(auto, unfolding(crate::specs::Values::second_text))]
pub(crate) fn second_text(alloc: Global, moment: &DateTime) -> Result<String, AllocError>
    ensures { IfOk result (λ text. string_bytes text ≡ values.second_text moment.now) }
{
    let (month, day) = (moment.month(), moment.day());
    let mut text = String::with_capacity(alloc, LONGEST_MOMENT)?;
    write_four(moment.year(), &mut text)?;
    write_behind('-', month, &mut text)?;
    write_behind('-', day, &mut text)?;
    write_behind(' ', moment.hour(), &mut text)?;
    write_behind(':', moment.minutes(), &mut text)?;
    write_behind(':', moment.seconds(), &mut text)?;
    Ok(text)
}

/// The text of a moment, as `2025-01-31 08:30:00 UTC`.
fn moment_text(alloc: Global, moment: &DateTime) -> Result<String, AllocError>
    ensures { IfOk result (λ text. string_bytes text ≡ values.moment_text moment.now) }
{
    let mut text = second_text(alloc, moment)?;
    text.push_str(" UTC")?;
    Ok(text)
}

/// Writes a moment.
#[tactic(auto, unfolding(crate::specs::Values::moment_line))]
pub(crate) fn write_moment(
    alloc: Global,
    at: Place,
    label: &str,
    moment: &DateTime,
    out: &mut String,
) -> Result<(), AllocError>
    ensures { OnOk result (string_bytes out.new ≡ string_bytes out.old ++ values.moment_line at label.now moment.now) }
{
    let text = moment_text(alloc, moment)?;
    write_line(alloc, at, label, text.as_str(), out)
}

/// Writes a number of any size: in decimal digits where it is below 2^64, else in hex.
#[tactic(auto, unfolding(crate::specs::Values::uint_line, crate::specs::Values::number_line))]
pub(crate) fn write_uint(
    alloc: Global,
    at: Place,
    label: &str,
    number: &Uint,
    out: &mut String,
) -> Result<(), AllocError>
    ensures { OnOk result (string_bytes out.new ≡ string_bytes out.old ++ values.uint_line at label.now number.now) }
{
    match number.to_u64() {
        Some(number) => write_number(alloc, at, label, number, out),
        None => {
            let digits = hex_text(alloc, number.as_bytes())?;
            let mut text = "0x".to_string(alloc)?;
            text.push_str(digits.as_str())?;
            write_line(alloc, at, label, text.as_str(), out)
        }
    }
}

/// Writes how many bits of the last octet are unused, where any are.
fn write_unused(alloc: Global, at: Place, unused: u8, out: &mut String) -> Result<(), AllocError>
    ensures { OnOk result (string_bytes out.new ≡ string_bytes out.old ++ values.unused_line at unused) }
{
    if unused == 0 {
        Ok(())
    } else {
        write_number(alloc, at, "unused bits", u64::from(unused), out)
    }
}

/// Writes a BIT STRING: its octets in hex, and how many bits of the last of them are unused, where any are.
#[tactic(auto, unfolding(crate::specs::Values::bits_lines))]
pub(crate) fn write_bits(
    alloc: Global,
    at: Place,
    label: &str,
    bits: &BitString,
    out: &mut String,
) -> Result<(), AllocError>
    ensures { OnOk result (string_bytes out.new ≡ string_bytes out.old ++ values.bits_lines at label.now bits.now) }
{
    write_octets(alloc, at, label, bits.raw_bytes(), out)?;
    write_unused(alloc, at.below(), bits.unused_bits(), out)
}

/// Writes a BIT STRING that may be left out.
pub(crate) fn write_optional_bits(
    alloc: Global,
    at: Place,
    label: &str,
    bits: &Option<BitString>,
    out: &mut String,
) -> Result<(), AllocError>
    ensures { OnOk result (string_bytes out.new ≡ string_bytes out.old ++ values.optional_bits at label.now bits.now) }
{
    match bits {
        Some(bits) => write_bits(alloc, at, label, bits, out),
        None => Ok(()),
    }
}

/// Whether an element is NULL.
fn is_null(any: &Any) -> bool
    ensures { result ≡ values.is_null any.now }
{
    match any.tag() {
        Tag::Null => any.value().is_empty(),
        _ => false,
    }
}

/// Writes an element of any type: NULL and OIDs as such, any other as its encoding in hex.
#[tactic(auto, unfolding(crate::specs::Values::any_line))]
pub(crate) fn write_any(
    alloc: Global,
    at: Place,
    label: &str,
    any: &Any,
    out: &mut String,
) -> Result<(), AllocError>
    ensures { OnOk result (string_bytes out.new ≡ string_bytes out.old ++ values.any_line at label.now any.now) }
{
    if is_null(any) {
        return write_line(alloc, at, label, "NULL", out);
    }
    match any.decode_as::<ObjectIdentifier>(alloc) {
        Ok(oid) => write_oid(alloc, at, label, &oid, out),
        Err(e) => match e.kind() {
            ErrorKind::Memory => Err(AllocError),
            _ => write_element(alloc, at, label, any, out),
        },
    }
}

/// The text of an IPv4 address (RFC 1123 2.1).
fn ipv4_text(alloc: Global, octets: &[u8]) -> Result<String, AllocError>
    requires { length octets.now ≡ 4 }
    ensures { IfOk result (λ text. string_bytes text ≡ values.ipv4_text octets.now) }
{
    let address = Ipv4Addr::new(octets[0], octets[1], octets[2], octets[3]);
    address.to_string(alloc)
}

/// The text of an IPv6 address (RFC 5952).
fn ipv6_text(alloc: Global, octets: &[u8; 16]) -> Result<String, AllocError>
    ensures { IfOk result (λ text. string_bytes text ≡ values.ipv6_text octets.now) }
{
    let address = Ipv6Addr::from_octets(*octets);
    address.to_string(alloc)
}

/// The text of an address that isn't followed by a mask; in hex where it is neither IPv4 nor IPv6.
fn plain_address(alloc: Global, octets: &[u8]) -> Result<String, AllocError>
    ensures { IfOk result (λ text. string_bytes text ≡ values.plain_address octets.now) }
{
    if octets.len() == 4 {
        return ipv4_text(alloc, octets);
    }
    match octets.as_array::<16>() {
        Some(octets) => ipv6_text(alloc, octets),
        None => hex_text(alloc, octets),
    }
}

/// The text of an address, or of an address and its mask with a slash between (RFC 5280 4.2.1.10).
#[tactic(auto, unfolding(crate::specs::Values::address_text))]
pub(crate) fn address_text(alloc: Global, octets: &[u8]) -> Result<String, AllocError>
    ensures { IfOk result (λ text. string_bytes text ≡ values.address_text octets.now) }
{
    if octets.len() != 8 && octets.len() != 32 {
        return plain_address(alloc, octets);
    }
    let (address, mask) = octets.split_at(octets.len() / 2);
    let mut text = plain_address(alloc, address)?;
    text.push_str("/")?;
    let mask = plain_address(alloc, mask)?;
    text.push_str(mask.as_str())?;
    Ok(text)
}
