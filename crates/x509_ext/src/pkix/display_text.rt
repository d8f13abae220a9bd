//! Texts for people to read.

use std::alloc::Global;
use x509_der::{Decode, Encode, Error, Grammar, Room, Spelled, Tag, TryClone};
use x509_prim::{BmpString, Ia5String, Utf8String, VisibleString};

/// The URI of a certification practice statement, CPS (RFC 5280 4.2.1.4).
///
/// ```text
/// CPSuri ::= IA5String
/// ```
pub type CpsUri = Ia5String;

/// A text for people to read (RFC 5280 4.2.1.4). The bound of 200 characters isn't checked.
///
/// ```text
/// DisplayText ::= CHOICE {
///     ia5String      IA5String,
///     visibleString  VisibleString,
///     bmpString      BMPString,
///     utf8String     UTF8String }
/// ```
#[derive(Debug, PartialEq, Eq)]
pub enum DisplayText {
    /// Characters up to U+007F.
    Ia5String(Ia5String),

    /// The graphic characters of ISO 646 and the space.
    VisibleString(VisibleString),

    /// Characters of the basic multilingual plane.
    BmpString(BmpString),

    /// Any characters.
    Utf8String(Utf8String),
}

impl Drop for DisplayText {
    fn drop(self) {
        match self {
            DisplayText::Ia5String(_) => {}
            DisplayText::VisibleString(_) => {}
            DisplayText::BmpString(_) => {}
            DisplayText::Utf8String(_) => {}
        }
    }
}

impl TryClone for DisplayText {
    fn try_clone(&self, alloc: Global) -> Result<DisplayText, Error> {
        match self {
            DisplayText::Ia5String(string) => Ok(DisplayText::Ia5String(string.try_clone(alloc)?)),
            DisplayText::VisibleString(string) => Ok(DisplayText::VisibleString(string.try_clone(
                alloc,
            )?)),
            DisplayText::BmpString(string) => Ok(DisplayText::BmpString(string.try_clone(alloc)?)),
            DisplayText::Utf8String(string) => Ok(DisplayText::Utf8String(string.try_clone(
                alloc,
            )?)),
        }
    }
}

#[tactic(auto, unfolding(x509_der::specs::Cases::choice_tag))]
impl Grammar for DisplayText {
    ghost use Rattle.x509_ext.specs.DisplayText as grammar;

    ghost form = { grammar.display_text };

    fn identifier(&self) -> Tag {
        match self {
            DisplayText::Ia5String(string) => string.identifier(),
            DisplayText::VisibleString(string) => string.identifier(),
            DisplayText::BmpString(string) => string.identifier(),
            DisplayText::Utf8String(string) => string.identifier(),
        }
    }

    fn is_start(octet: u8) -> bool {
        Ia5String::is_start(octet)
            || VisibleString::is_start(octet)
            || BmpString::is_start(octet)
            || Utf8String::is_start(octet)
    }

    fn usual() -> Tag {
        Tag::Utf8String
    }

    ghost lawful = { grammar.display_text_lawful };
}

#[tactic(auto, unfolding(x509_der::specs::Cases::choice_reading))]
impl Decode for DisplayText {
    fn read(alloc: Global, tag: u8, content: &[u8]) -> Result<DisplayText, Error> {
        if Ia5String::is_start(tag) {
            Ok(DisplayText::Ia5String(Ia5String::read(alloc, tag, content)?))
        } else if VisibleString::is_start(tag) {
            Ok(DisplayText::VisibleString(VisibleString::read(alloc, tag, content)?))
        } else if BmpString::is_start(tag) {
            Ok(DisplayText::BmpString(BmpString::read(alloc, tag, content)?))
        } else {
            Ok(DisplayText::Utf8String(Utf8String::read(alloc, tag, content)?))
        }
    }
}

#[tactic(auto, unfolding(x509_der::specs::Cases::choice_content))]
impl Encode for DisplayText {
    ghost use Rattle.std.specs.Prelude.{refl};

    fn put_content<R: Room>(&self, room: &mut R) -> Result<(), Error> {
        match self {
            DisplayText::Ia5String(string) => string.put_content(room),
            DisplayText::VisibleString(string) => string.put_content(room),
            DisplayText::BmpString(string) => string.put_content(room),
            DisplayText::Utf8String(string) => string.put_content(room),
        }
    }

    ghost same_tag = { λ value. refl };
}

#[tactic(auto, unfolding(x509_der::specs::Cases::choice_good))]
impl Spelled for DisplayText {
    fn has_spelling(&self) {
        match self {
            DisplayText::Ia5String(string) => string.has_spelling(),
            DisplayText::VisibleString(string) => string.has_spelling(),
            DisplayText::BmpString(string) => string.has_spelling(),
            DisplayText::Utf8String(string) => string.has_spelling(),
        }
    }
}
