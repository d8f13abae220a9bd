//! UTF8String.

ghost use Rattle.std.specs.Prelude.{◌≡◌, ◌<◌, ◌≤◌, ◌≢◌, ◌⊎◌, true, false, length, bytes_eq, string_bytes, IfOk, IfErr, IfSome, IfNone, IsOk, IsOkAnd};
ghost use Rattle.std.proofs.Common.{rules};
ghost use Rattle.std.specs.Hash as fed;
ghost use Rattle.std.specs.Cmp.{on_equiv, on_per, partial_equiv_from_equiv};
ghost use Rattle.std.specs.Cmp.Lexicographic.{nat_list_eq_equiv};
ghost use Rattle.std.specs.Cmp.Rules.{hashing};
ghost use Rattle.std.specs.Str.{is_utf8};
ghost use Rattle.x509_der.specs.declared.error.ErrorKind.TheVariants as errors;
ghost use Rattle.x509_der.specs.declared.tag.Tag.TheVariants as tags;
ghost use Rattle.x509_prim.specs.Borrowed.{BorrowsText, BorrowsTextFrom};

use crate::text::Text;
use std::alloc::Global;
use std::cmp::Ordering;
use std::fmt;
use std::hash::{Hash, Hasher};
use std::marker::Model;
use x509_der::{
    Any, AnyRef, Content, EncodingOrd, Error, ErrorKind, FromAny, Room, SetMember, SetOrd, Spelled,
    Tag, TryClone, ValueOrd,
};

/// A UTF8String (X.680 41.16, X.690 8.23.10). Contracts see the UTF-8 octets of its characters.
#[derive(Drop)]
pub struct Utf8String {
    text: Text,
}

impl Model for Utf8String {
    ghost use Rattle.std.specs.Prelude.{List, ℕ};

    ghost Value = { List ℕ };

    ghost view = { λ string. string.text };
}

impl Utf8String {
    /// A copy of the text.
    ///
    /// # Errors
    ///
    /// `Memory` when out of memory, only for more than 24 octets.
    pub fn new(alloc: Global, text: &str) -> Result<Utf8String, Error>
        ensures ok { IfOk result (λ string. string ≡ text.now) }
        ensures err { IfErr result (λ e. (e.kind ≡ errors.Memory) × (24 < length text.now)) }
    {
        Ok(Utf8String {
            text: Text::new(alloc, text)?,
        })
    }

    /// The text.
    pub fn as_str(&self) -> &str
        ensures text { result.now ≡ self.now }
        ensures utf8 { is_utf8 self.now ≡ true }
    {
        self.text.as_str()
    }

    /// The text as a string. Up to 24 octets may lie inside the value; those are copied.
    ///
    /// # Errors
    ///
    /// `Memory` when out of memory, only for up to 24 octets.
    pub fn into_string(self) -> Result<String, Error>
        ensures ok { IfOk result (λ text. string_bytes text ≡ self) }
        ensures err { IfErr result (λ e. (e.kind ≡ errors.Memory) × (length self ≤ 24)) }
    {
        let Utf8String { text } = self;
        text.into_string()
    }
}

impl From<String> for Utf8String {
    ghost from_gives = { λ text string. string ≡ string_bytes text };

    fn from(text: String) -> Utf8String {
        Utf8String {
            text: Text::from(text),
        }
    }
}

/// The octets as a text, where they are UTF-8.
pub fn utf8_text(octets: &[u8]) -> Option<&str>
    ensures some { IfSome result (λ text. (text.now ≡ octets.now) × (is_utf8 octets.now ≡ true)) }
    ensures none { IfNone result (is_utf8 octets.now ≡ false) }
{
    match std::str::from_utf8(octets) {
        Ok(text) => Some(text),
        Err(_) => None,
    }
}

#[tactic(auto, unfolding(x509_der::specs::Tested::tested_reading))]
impl Content for Utf8String {
    ghost use Rattle.std.specs.Str.{is_utf8};
    ghost use Rattle.x509_der.specs.Tested.{tested_contents, tested_contents_lawful};

    ghost contents = { tested_contents is_utf8 };

    ghost IDENTIFIER = { tags.Utf8String };

    const IDENTIFIER: Tag = Tag::Utf8String;

    fn read_content(alloc: Global, octets: &[u8]) -> Result<Utf8String, Error> {
        let Some(text) = utf8_text(octets) else {
            return Err(ErrorKind::Malformed.into());
        };
        Utf8String::new(alloc, text)
    }

    fn write_content<R: Room>(&self, room: &mut R) -> Result<(), Error> {
        room.put(self.text.as_str().as_bytes())
    }

    ghost contents_lawful = { tested_contents_lawful is_utf8 };
}

impl Spelled for Utf8String {
    fn has_spelling(&self) {
        let _text = self.as_str();
    }
}

impl ValueOrd for Utf8String {
    ghost use Rattle.x509_der.specs.Ordered.{by_bytes, by_bytes_lawful};
    ghost use Rattle.x509_der.specs.Writing.{plain, writes};
    ghost use Rattle.x509_prim.specs.Texts.{utf8_string};

    ghost order = { by_bytes utf8_string };

    fn value_cmp(&self, other: &Utf8String) -> Ordering {
        self.text
            .as_str()
            .as_bytes()
            .cmp(other.text.as_str().as_bytes())
    }

    ghost ordered = { by_bytes_lawful utf8_string (writes plain) (λ x y p q. q) };
}

impl SetOrd for Utf8String {
    ghost set_order = { ⟦<Utf8String as EncodingOrd>⟧.encoding_order };
}

impl SetMember for Utf8String {
    ghost use Rattle.std.specs.Prelude.{refl};

    ghost in_der_order = { refl };
}

/// The text of an element; `Malformed` exactly where it has another identifier, or a content that is not UTF-8.
/// `Memory` when out of memory, only for more than 24 octets.
impl FromAny<'_> for Utf8String {
    ghost use Rattle.x509_prim.specs.Borrowed.{CopiesTextFrom};

    ghost from_any_gives = { CopiesTextFrom tags.Utf8String is_utf8 };

    fn from_any(alloc: Global, any: &Any) -> Result<Utf8String, Error> {
        let borrowed = utf8_text_in(any.tag(), any.value())?;
        Utf8String::new(alloc, borrowed.as_str())
    }
}

impl TryClone for Utf8String {
    fn try_clone(&self, alloc: Global) -> Result<Utf8String, Error> {
        Utf8String::new(alloc, self.as_str())
    }
}

impl PartialEq for Utf8String {
    ghost eq = { bytes_eq };

    ghost laws = { partial_equiv_from_equiv nat_list_eq_equiv };

    fn eq(&self, other: &Utf8String) -> bool {
        self.text.as_str().as_bytes() == other.text.as_str().as_bytes()
    }
}

impl Eq for Utf8String {
    ghost laws = { nat_list_eq_equiv };
}

impl Hash for Utf8String {
    ghost hash_input = { fed.slice fed.u8 };

    ghost respects_eq = { Prim.search (hashing, rules) };

    fn hash<H: Hasher>(&self, state: &mut H) {
        self.text.as_str().as_bytes().hash(state);
    }
}

impl fmt::Display for Utf8String {
    ghost use Rattle.std.specs.Prelude.{Some};

    ghost output = { λ string. Some string };

    fn fmt<W: fmt::Write>(&self, f: &mut fmt::Formatter<W>) -> fmt::Result {
        fmt::Display::fmt(&self.text.as_str(), f)
    }
}

impl fmt::Debug for Utf8String {
    ghost use Rattle.std.specs.Fmt.{debug_str};

    ghost debug_output = { debug_str };

    fn fmt<W: fmt::Write>(&self, f: &mut fmt::Formatter<W>) -> fmt::Result {
        fmt::Debug::fmt(&self.text.as_str(), f)
    }
}

/// A borrowed UTF8String.
#[derive(Clone, Copy, Debug)]
pub struct Utf8StringRef<'a> {
    text: &'a str,
}

impl<'a> Utf8StringRef<'a> {
    /// The borrowed text. Any text is one of this type.
    ///
    /// # Errors
    ///
    /// None: it is never refused.
    pub fn new(text: &'a str) -> Result<Utf8StringRef<'a>, Error>
        ensures { IsOkAnd result (λ string. string.text.now ≡ text.now) }
    {
        Ok(Utf8StringRef { text })
    }

    /// The text of an element, borrowed.
    ///
    /// # Errors
    ///
    /// `Malformed` exactly where the element has another identifier, or a content that is not UTF-8.
    pub fn from_any(any: AnyRef<'a>) -> Result<Utf8StringRef<'a>, Error>
        ensures ok { IfOk result (λ string. (string.text.now ≡ any.entry.value.now) × (any.entry.tag ≡ tags.Utf8String)
            × (is_utf8 any.entry.value.now ≡ true)) }
        ensures err { IfErr result (λ e. (e.kind ≡ errors.Malformed) × ((any.entry.tag ≢ tags.Utf8String) ⊎ (is_utf8 any.entry.value.now ≡ false))) }
    {
        utf8_text_in(any.tag(), any.value())
    }

    /// The text.
    pub fn as_str(self) -> &'a str
        ensures { result.now ≡ self.entry.text.now }
    {
        self.text
    }
}

/// The text in an element with this identifier and this content.
fn utf8_text_in<'a>(tag: Tag, octets: &'a [u8]) -> Result<Utf8StringRef<'a>, Error>
    ensures { BorrowsText (λ string. string.text.now) tags.Utf8String is_utf8 tag octets.now result }
{
    if tag != Tag::Utf8String {
        return Err(ErrorKind::Malformed.into());
    }
    let Some(text) = utf8_text(octets) else {
        return Err(ErrorKind::Malformed.into());
    };
    Ok(Utf8StringRef { text })
}

/// The text of an element; `Malformed` exactly where it has another identifier, or a content that is not UTF-8. It takes
/// no memory.
impl<'a> FromAny<'a> for Utf8StringRef<'a> {
    ghost from_any_gives = { BorrowsTextFrom (λ string. string.text.now) tags.Utf8String is_utf8 };

    fn from_any(_alloc: Global, any: &'a Any) -> Result<Utf8StringRef<'a>, Error> {
        utf8_text_in(any.tag(), any.value())
    }
}

impl TryClone for Utf8StringRef<'_> {
    fn try_clone(&self, _alloc: Global) -> Result<Self, Error>
        ensures ok { IfOk result (λ copy. copy ≡ self.now) }
        ensures err { IfErr result (λ e. e.kind ≡ errors.Memory) }
        ensures always { IsOk result }
    {
        Ok(*self)
    }
}

impl PartialEq for Utf8StringRef<'_> {
    ghost eq = { λ a b. bytes_eq a.text.now b.text.now };

    ghost laws = { on_per (λ string. string.text.now) (partial_equiv_from_equiv nat_list_eq_equiv) };

    fn eq(&self, other: &Self) -> bool {
        self.text.as_bytes() == other.text.as_bytes()
    }
}

impl Eq for Utf8StringRef<'_> {
    ghost laws = { on_equiv (λ string. string.text.now) nat_list_eq_equiv };
}
