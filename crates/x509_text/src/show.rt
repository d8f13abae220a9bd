//! What is printed as lines, and lists, optional values and payloads of it.

ghost use Rattle.std.specs.Prelude.{◌≡◌, ◌++◌, OnOk, IfOk, string_bytes};
ghost use Rattle.std.specs.List.{flat_map};
ghost use Rattle.x509_text.specs.Payloads as payloads;

use crate::digits::hex_text;
use crate::line::{Place, write_line};
use std::alloc::{AllocError, Global};
use x509_der::{Any, Decode, Encode, ErrorKind};

/// A value that is printed as lines.
pub(crate) trait Show {
    ghost use Rattle.std.specs.Prelude.{◌≡◌, ◌++◌, OnOk, List, ℕ, string_bytes};
    ghost use Rattle.x509_text.specs.declared.line.Place.{Place};

    /// The lines of a value at a place.
    ghost lines: { Place → Self → List ℕ };

    /// Writes the lines.
    ///
    /// # Errors
    ///
    /// `AllocError` when out of memory; then some of them may be written.
    fn show(&self, alloc: Global, at: Place, out: &mut String) -> Result<(), AllocError>
        ensures { OnOk result (string_bytes out.new ≡ string_bytes out.old ++ lines at self.now) };
}

/// Writes the lines of each value.
pub(crate) fn show_each<T: Show>(
    alloc: Global,
    at: Place,
    values: &[T],
    out: &mut String,
) -> Result<(), AllocError>
    ensures { OnOk result (string_bytes out.new ≡ string_bytes out.old ++ flat_map (T.lines at) values.now) }
{
    for value in values {
        value.show(alloc, at, out)?;
    }
    Ok(())
}

/// Writes the lines of a value that may be left out.
pub(crate) fn show_option<T: Show>(
    alloc: Global,
    at: Place,
    value: &Option<T>,
    out: &mut String,
) -> Result<(), AllocError>
    ensures { OnOk result (string_bytes out.new ≡ string_bytes out.old ++ payloads.optional (T.lines at) value.now) }
{
    match value {
        Some(value) => value.show(alloc, at, out),
        None => Ok(()),
    }
}

/// Writes octets in hex.
#[tactic(auto, unfolding(crate::specs::Payloads::octets_line))]
pub(crate) fn write_octets(
    alloc: Global,
    at: Place,
    label: &str,
    octets: &[u8],
    out: &mut String,
) -> Result<(), AllocError>
    ensures { OnOk result (string_bytes out.new ≡ string_bytes out.old ++ payloads.octets_line at label.now octets.now) }
{
    let text = hex_text(alloc, octets)?;
    write_line(alloc, at, label, text.as_str(), out)
}

/// The value of which the octets are the encoding, where they are that of one.
#[tactic(auto, unfolding(crate::specs::Payloads::value_of))]
pub(crate) fn value_of<T: Decode>(alloc: Global, octets: &[u8]) -> Result<Option<T>, AllocError>
    ensures { IfOk result (λ value. value ≡ payloads.value_of T.form octets.now) }
{
    match T::from_der(alloc, octets) {
        Ok(value) => Ok(Some(value)),
        Err(e) => match e.kind() {
            ErrorKind::Memory => Err(AllocError),
            _ => Ok(None),
        },
    }
}

/// Writes the lines of the value that the octets are the encoding of; where they are that of none, the octets in hex, with a
/// word that says so.
#[tactic(auto, unfolding(crate::specs::Payloads::value_of))]
pub(crate) fn show_payload<T: Decode + Show + Drop>(
    alloc: Global,
    at: Place,
    octets: &[u8],
    out: &mut String,
) -> Result<(), AllocError>
    ensures { OnOk result (string_bytes out.new ≡ string_bytes out.old ++ payloads.payload_lines T.form T.lines at octets.now) }
{
    match T::from_der(alloc, octets) {
        Ok(value) => value.show(alloc, at, out),
        Err(e) => match e.kind() {
            ErrorKind::Memory => Err(AllocError),
            _ => write_octets(alloc, at, "undecodable", octets, out),
        },
    }
}

/// Writes the encoding of an element in hex.
#[tactic(auto, unfolding(crate::specs::Payloads::element_line))]
pub(crate) fn write_element(
    alloc: Global,
    at: Place,
    label: &str,
    any: &Any,
    out: &mut String,
) -> Result<(), AllocError>
    ensures { OnOk result (string_bytes out.new ≡ string_bytes out.old ++ payloads.element_line at label.now any.now) }
{
    match any.to_der(alloc) {
        Ok(octets) => write_octets(alloc, at, label, octets.as_slice(), out),
        // An element is never longer than the limit, so there is no memory.
        Err(_) => Err(AllocError),
    }
}

/// Writes the lines of the value that the element is the encoding of; where it is that of none, the element in hex, with a word
/// that says so.
pub(crate) fn show_any<T: Decode + Show + Drop>(
    alloc: Global,
    at: Place,
    any: &Any,
    out: &mut String,
) -> Result<(), AllocError>
    ensures { OnOk result (string_bytes out.new ≡ string_bytes out.old ++ payloads.any_lines T.form T.lines at any.now) }
{
    match any.decode_as::<T>(alloc) {
        Ok(value) => value.show(alloc, at, out),
        Err(e) => match e.kind() {
            ErrorKind::Memory => Err(AllocError),
            _ => write_element(alloc, at, "undecodable", any, out),
        },
    }
}

/// Writes the lines of each element so.
pub(crate) fn show_each_any<T: Decode + Show + Drop>(
    alloc: Global,
    at: Place,
    elements: &[Any],
    out: &mut String,
) -> Result<(), AllocError>
    ensures { OnOk result (string_bytes out.new ≡ string_bytes out.old ++ flat_map (payloads.any_lines T.form T.lines at) elements.now) }
{
    for any in elements {
        show_any::<T>(alloc, at, any, out)?;
    }
    Ok(())
}
