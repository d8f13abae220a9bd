//! Strict DER (X.690): values that are decoded from the one encoding that they have, and encoded as it.
//!
//! - Elements: errors, tags, lengths, [`AnyRef`] and [`Any`].
//! - What a type implements, [`Content`] or [`Newtype`], and what comes from it: [`Decode`], [`Encode`], [`FixedTag`]. The
//!   form of a type is its grammar as one record; a value is good where it has an encoding, its spelling; a room is where
//!   bytes are put, from the end.
//! - The byte orders of contents and of encodings, without encoding (X.690 11.6).
//! - Frames: how a field stands in its sequence, required, optional, with a default or under a tag. In these docs x is a
//!   field, `{n}x` the same under an explicit tag of the number n, `[n]x` under an implicit one, `x?` may be absent, and
//!   `x=d` has the default d. A part is one or more fields, as they are encoded.
//! - OIDs, lists and sets.
//!
//! `docs/MAP.md` explains these and other words of our own.
#![tactic(auto)]

mod any;
mod boolean;
mod bytes;
mod clone;
mod content;
mod decode;
mod element;
mod encode;
mod error;
mod frames;
mod grammar;
mod header;
mod integer;
pub mod laws;
mod length;
mod list;
mod natural;
mod newtype;
mod oid;
mod order;
mod room;
mod set;
mod spelled;
mod tag;

pub use any::{Any, FromAny};
pub use bytes::Bytes;
pub use clone::TryClone;
pub use content::Content;
pub use decode::{Decode, expect_tag, read_whole};
pub use element::{AnyRef, Piece, check_content, split_element, split_usual, take_element};
pub use encode::{Encode, put_header, to_counted_der};
pub use error::{Error, ErrorKind};
pub use frames::default_value::DefaultValue;
pub use frames::identifiers::{explicit_identifier, implicit_identifier};
pub use frames::part::{
    PutPart, Retagged, Wrapped, defaulted, defaulted_explicit, defaulted_implicit, explicit,
    implicit, optional, optional_explicit, optional_implicit,
};
pub use frames::reading::{
    end, implicit_octet, read_defaulted, read_defaulted_explicit, read_defaulted_implicit,
    read_explicit, read_field, read_implicit, read_optional, read_optional_explicit,
    read_optional_implicit,
};
pub use frames::spelled::{members_have_spellings, option_has_spelling};
pub use grammar::{FixedTag, Grammar, Tagged};
pub use header::Header;
pub use length::Length;
pub use list::{SequenceOf, clone_members, put_members, read_further, read_members};
pub use natural::{put_natural, read_natural};
pub use newtype::Newtype;
pub use oid::associated::AssociatedOid;
pub use oid::identifier::ObjectIdentifier;
pub use order::fields::{
    CmpElement, CmpPart, OptionalFields, RequiredFields, RetaggedValue, WrappedValue, both,
    both_defaulted, both_defaulted_explicit, both_defaulted_implicit, both_explicit, both_implicit,
    both_optional, both_optional_explicit, both_optional_implicit,
};
pub use order::member::{EncodingOrd, SetMember, SetOrd};
pub use order::members::{cmp_members, cmp_optional};
pub use order::newtype::NewtypeOrd;
pub use order::number::cmp_naturals;
pub use order::{DerOrd, ValueOrd};
pub use room::{Counting, Fixed, Growing, Room};
pub use set::SetOfVec;
pub use spelled::Spelled;
pub use tag::{Tag, TagNumber, check_identifier};
