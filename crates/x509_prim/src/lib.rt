//! The primitive types of strict DER: integers, bit and octet strings, texts, named bits and named numbers. Words of
//! our own, such as law, are explained in `docs/MAP.md`.
//!
//! A flag type is a struct with one field, a `u16`, with the constants and the `Flags` of `bitflags`, of which bit n
//! stands for the named bit n. Its `Content` has the contents and the writing of its names, and calls
//! [`read_named_bits`] and [`put_named_bits`].
//!
//! A type of numbers with names, ENUMERATED or INTEGER, is an enum with [`NamedNumber`]. Its `Content` has the contents
//! of its names, and calls [`read_named_number`] and [`put_named_number`].
#![tactic(auto)]

mod alphabet;
mod bit_string;
mod bmp;
mod content;
mod int;
pub mod laws;
mod named_bits;
mod named_number;
mod octet_string;
mod restricted;
mod restricted_ref;
mod text;
mod uint;
mod utf8;

pub use alphabet::{Alphabet, Ia5, Printable, Teletex, Visible};
pub use bit_string::BitString;
pub use bmp::BmpString;
pub use content::strip_zeros;
pub use int::Int;
pub use named_bits::{cmp_named_bits, put_named_bits, read_named_bits};
pub use named_number::{NamedNumber, cmp_named_numbers, put_named_number, read_named_number};
pub use octet_string::OctetString;
pub use restricted::RestrictedString;
pub use restricted_ref::{RestrictedStringRef, text_of};
pub use uint::Uint;
pub use utf8::{Utf8String, Utf8StringRef, utf8_text};

/// PrintableString (X.680 41.4): letters, digits, space and `' ( ) + , - . / : = ?`.
pub type PrintableString = RestrictedString<Printable>;

/// IA5String (X.680 41.1): the characters up to 7F.
pub type Ia5String = RestrictedString<Ia5>;

/// TeletexString (X.680 41.1), of which only the characters up to 7F are accepted.
pub type TeletexString = RestrictedString<Teletex>;

/// VisibleString (X.680 41.1): the graphic characters of ISO 646 and the space, 20 to 7E.
pub type VisibleString = RestrictedString<Visible>;

/// A borrowed PrintableString.
pub type PrintableStringRef<'a> = RestrictedStringRef<'a, Printable>;

/// A borrowed IA5String.
pub type Ia5StringRef<'a> = RestrictedStringRef<'a, Ia5>;

/// A borrowed TeletexString.
pub type TeletexStringRef<'a> = RestrictedStringRef<'a, Teletex>;

/// A borrowed VisibleString.
pub type VisibleStringRef<'a> = RestrictedStringRef<'a, Visible>;
