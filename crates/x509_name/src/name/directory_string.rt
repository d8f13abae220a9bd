//! DirectoryString.

ghost use Rattle.std.specs.Prelude.{◌≡◌, ◌≤◌, length, true, string_bytes, IfOk, IfErr};
ghost use Rattle.x509_der.specs.declared.error.ErrorKind.TheVariants.{Memory};
ghost use Rattle.x509_name.specs.DirectoryString.{ReadsDirectoryString, is_bmp_string, text_in_place, text_of};
ghost use Rattle.x509_name.specs.TextRef.{is_owned, octets_of};
ghost use Rattle.x509_name.specs.declared.name.directory_string.DirectoryString.TheVariants as strings;

use crate::name::text_ref::TextRef;
use std::alloc::Global;
use x509_der::{Any, Decode, Encode, Error, FromAny, Grammar, Room, Spelled, Tag, TryClone};
use x509_prim::{BmpString, PrintableString, TeletexString, Utf8String};

/// DirectoryString, a text of a name (RFC 5280 4.1.2.4). Lengths have no bounds, and there is no UniversalString.
///
/// ```text
/// DirectoryString ::= CHOICE {
///     printableString  PrintableString,
///     teletexString    TeletexString,
///     utf8String       UTF8String,
///     bmpString        BMPString }
/// ```
#[derive(Debug, PartialEq, Eq)]
pub enum DirectoryString {
    /// Letters, digits, space and eleven marks.
    PrintableString(PrintableString),

    /// Characters up to U+007F.
    TeletexString(TeletexString),

    /// Any characters.
    Utf8String(Utf8String),

    /// Characters of the basic multilingual plane, in two octets each.
    BmpString(BmpString),
}

impl Drop for DirectoryString {
    fn drop(self) {
        match self {
            DirectoryString::PrintableString(_) => {}
            DirectoryString::TeletexString(_) => {}
            DirectoryString::Utf8String(_) => {}
            DirectoryString::BmpString(_) => {}
        }
    }
}

impl DirectoryString {
    /// The text: owned for a BMPString, else borrowed.
    ///
    /// # Errors
    ///
    /// `Memory` when out of memory, only for a BMPString.
    pub fn value(&self, alloc: Global) -> Result<TextRef<'_>, Error>
        ensures ok { IfOk result (λ text. (octets_of text ≡ text_of self.now) × (is_owned text ≡ is_bmp_string self.now)) }
        ensures err { IfErr result (λ e. (e.kind ≡ Memory) × (is_bmp_string self.now ≡ true)) }
    {
        match self {
            DirectoryString::PrintableString(string) => Ok(TextRef::Borrowed(string.as_str())),
            DirectoryString::TeletexString(string) => Ok(TextRef::Borrowed(string.as_str())),
            DirectoryString::Utf8String(string) => Ok(TextRef::Borrowed(string.as_str())),
            DirectoryString::BmpString(string) => Ok(TextRef::Owned(string.to_text(alloc)?)),
        }
    }

    /// The text where it is held as UTF-8; empty for a BMPString, whose text [`value`](DirectoryString::value) has.
    pub fn as_ref(&self) -> &str
        ensures { result.now ≡ text_in_place self.now }
    {
        match self {
            DirectoryString::PrintableString(string) => string.as_str(),
            DirectoryString::TeletexString(string) => string.as_str(),
            DirectoryString::Utf8String(string) => string.as_str(),
            DirectoryString::BmpString(_) => "",
        }
    }

    /// The text as a string. It is copied where it is a BMPString's, and where it has at most 24 octets, which may lie
    /// inside the value.
    ///
    /// # Errors
    ///
    /// `Memory` when out of memory, only where the text is copied so.
    pub fn into_string(self, alloc: Global) -> Result<String, Error>
        ensures ok { IfOk result (λ text. string_bytes text ≡ text_of self) }
        ensures err { IfErr result (λ e. (e.kind ≡ Memory) × (length (text_in_place self) ≤ 24)) }
    {
        match self {
            DirectoryString::PrintableString(string) => string.into_string(),
            DirectoryString::TeletexString(string) => string.into_string(),
            DirectoryString::Utf8String(string) => string.into_string(),
            DirectoryString::BmpString(string) => string.to_text(alloc),
        }
    }

    /// The string whose element it is.
    ///
    /// # Errors
    ///
    /// `Malformed` exactly where it is the element of no DirectoryString. `Memory` when out of memory.
    pub fn from_any(alloc: Global, any: &Any) -> Result<DirectoryString, Error>
        ensures { ReadsDirectoryString any.now result }
    {
        any.decode_as(alloc)
    }
}

impl FromAny<'_> for DirectoryString {
    ghost from_any_gives = { ReadsDirectoryString };

    fn from_any(alloc: Global, any: &Any) -> Result<DirectoryString, Error> {
        any.decode_as(alloc)
    }
}

impl From<PrintableString> for DirectoryString {
    ghost from_gives = { λ text string. string ≡ strings.PrintableString text };

    fn from(string: PrintableString) -> DirectoryString {
        DirectoryString::PrintableString(string)
    }
}

impl From<TeletexString> for DirectoryString {
    ghost from_gives = { λ text string. string ≡ strings.TeletexString text };

    fn from(string: TeletexString) -> DirectoryString {
        DirectoryString::TeletexString(string)
    }
}

impl From<Utf8String> for DirectoryString {
    ghost from_gives = { λ text string. string ≡ strings.Utf8String text };

    fn from(string: Utf8String) -> DirectoryString {
        DirectoryString::Utf8String(string)
    }
}

impl From<BmpString> for DirectoryString {
    ghost from_gives = { λ octets string. string ≡ strings.BmpString octets };

    fn from(string: BmpString) -> DirectoryString {
        DirectoryString::BmpString(string)
    }
}

impl TryClone for DirectoryString {
    fn try_clone(&self, alloc: Global) -> Result<DirectoryString, Error> {
        match self {
            DirectoryString::PrintableString(string) => Ok(string.try_clone(alloc)?.into()),
            DirectoryString::TeletexString(string) => Ok(string.try_clone(alloc)?.into()),
            DirectoryString::Utf8String(string) => Ok(string.try_clone(alloc)?.into()),
            DirectoryString::BmpString(string) => Ok(string.try_clone(alloc)?.into()),
        }
    }
}

#[tactic(auto, unfolding(x509_der::specs::Cases::choice_tag))]
impl Grammar for DirectoryString {
    ghost use Rattle.x509_name.specs.DirectoryString as grammar;

    ghost form = { grammar.directory_string };

    fn identifier(&self) -> Tag {
        match self {
            DirectoryString::PrintableString(string) => string.identifier(),
            DirectoryString::TeletexString(string) => string.identifier(),
            DirectoryString::Utf8String(string) => string.identifier(),
            DirectoryString::BmpString(string) => string.identifier(),
        }
    }

    fn is_start(octet: u8) -> bool {
        PrintableString::is_start(octet)
            || TeletexString::is_start(octet)
            || Utf8String::is_start(octet)
            || BmpString::is_start(octet)
    }

    fn usual() -> Tag {
        Tag::Utf8String
    }

    ghost lawful = { grammar.directory_string_lawful };
}

#[tactic(auto, unfolding(x509_der::specs::Cases::choice_reading))]
impl Decode for DirectoryString {
    fn read(alloc: Global, tag: u8, content: &[u8]) -> Result<DirectoryString, Error> {
        if PrintableString::is_start(tag) {
            Ok(PrintableString::read(alloc, tag, content)?.into())
        } else if TeletexString::is_start(tag) {
            Ok(TeletexString::read(alloc, tag, content)?.into())
        } else if Utf8String::is_start(tag) {
            Ok(Utf8String::read(alloc, tag, content)?.into())
        } else {
            Ok(BmpString::read(alloc, tag, content)?.into())
        }
    }
}

#[tactic(auto, unfolding(x509_der::specs::Cases::choice_content))]
impl Encode for DirectoryString {
    ghost use Rattle.std.specs.Prelude.{refl};

    fn put_content<R: Room>(&self, room: &mut R) -> Result<(), Error> {
        match self {
            DirectoryString::PrintableString(string) => string.put_content(room),
            DirectoryString::TeletexString(string) => string.put_content(room),
            DirectoryString::Utf8String(string) => string.put_content(room),
            DirectoryString::BmpString(string) => string.put_content(room),
        }
    }

    ghost same_tag = { λ value. refl };
}

#[tactic(auto, unfolding(x509_der::specs::Cases::choice_good))]
impl Spelled for DirectoryString {
    fn has_spelling(&self) {
        match self {
            DirectoryString::PrintableString(string) => string.has_spelling(),
            DirectoryString::TeletexString(string) => string.has_spelling(),
            DirectoryString::Utf8String(string) => string.has_spelling(),
            DirectoryString::BmpString(string) => string.has_spelling(),
        }
    }
}
