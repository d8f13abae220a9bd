//! BMPString.

ghost use Rattle.std.specs.Prelude.{◌≡◌, ◌<◌, true, false, length, bytes_eq, string_bytes, encode_utf8_all, IfOk, IfErr, IsErrAnd};
ghost use Rattle.std.proofs.Common.{rules};
ghost use Rattle.std.specs.Hash as fed;
ghost use Rattle.std.specs.Cmp.{partial_equiv_from_equiv};
ghost use Rattle.std.specs.Cmp.Lexicographic.{nat_list_eq_equiv};
ghost use Rattle.std.specs.Cmp.Rules.{hashing};
ghost use Rattle.std.specs.List.{list_all};
ghost use Rattle.std.specs.Str.{chars};
ghost use Rattle.x509_der.specs.declared.error.ErrorKind.TheVariants as errors;
ghost use Rattle.x509_prim.specs.Bmp as plane;

use std::alloc::Global;
use std::cmp::Ordering;
use std::fmt;
use std::hash::{Hash, Hasher};
use std::marker::Model;
use x509_der::{
    Any, Bytes, Content, EncodingOrd, Error, ErrorKind, FromAny, Room, SetMember, SetOrd, Spelled,
    Tag, TryClone, ValueOrd,
};

/// A BMPString (X.680 41.15, X.690 8.23.8): characters of the basic multilingual plane. Contracts see their octets,
/// two for each character.
#[derive(Drop)]
pub struct BmpString {
    octets: Bytes,
}

impl Model for BmpString {
    ghost use Rattle.std.specs.Prelude.{List, ℕ, ◌≡◌, true};
    ghost use Rattle.x509_prim.specs.Bmp.{is_bmp};

    ghost Value = { List ℕ };

    ghost view = { λ string. string.octets };

    ghost invariant = { λ string. is_bmp string.octets ≡ true };
}

/// Whether the code is a character of the plane.
#[tactic(auto, unfolding(crate::specs::Bmp::is_bmp_char))]
fn check_char(code: u32) -> bool
    ensures { result ≡ plane.is_bmp_char code }
{
    matches!(code, 0..=0xD7FF | 0xE000..=0xFFFF)
}

/// Whether each character is one of the plane.
fn check_text(text: &str) -> bool
    ensures { result ≡ list_all plane.is_bmp_char (chars text.now) }
{
    text.chars().all(|c| check_char(c as u32))
}

/// The octets of the characters.
#[tactic(auto, unfolding(crate::specs::Bmp::is_bmp_char))]
fn octets_of(alloc: Global, text: &str) -> Result<Vec<u8>, Error>
    requires { list_all plane.is_bmp_char (chars text.now) ≡ true }
    ensures ok { IfOk result (λ octets. octets.items ≡ plane.bmp_octets (chars text.now)) }
    ensures err { IfErr result (λ e. e.kind ≡ errors.Memory) }
{
    let mut octets = Vec::new(alloc);
    for c in text.chars() {
        let code = c as u32;
        octets.push((code / 256) as u8)?;
        octets.push((code % 256) as u8)?;
    }
    Ok(octets)
}

/// Whether the octets are those of characters of the plane.
fn check_octets(octets: &[u8]) -> bool
    ensures { result ≡ plane.is_bmp octets.now }
{
    let mut rest = octets;
    while let [high, low, after @ ..] = rest {
        if !check_char(256 * *high as u32 + *low as u32) {
            return false;
        }
        rest = after;
    }
    rest.is_empty()
}

/// The text of the characters.
fn text_of(alloc: Global, octets: &[u8]) -> Result<String, Error>
    requires { plane.is_bmp octets.now ≡ true }
    ensures ok { IfOk result (λ text. string_bytes text ≡ encode_utf8_all (plane.bmp_chars octets.now)) }
    ensures err { IfErr result (λ e. e.kind ≡ errors.Memory) }
{
    let mut text = String::new(alloc);
    let mut rest = octets;
    while let [high, low, after @ ..] = rest {
        let Some(c) = char::from_u32(256 * *high as u32 + *low as u32) else {
            unreachable!()
        };
        text.push(c)?;
        rest = after;
    }
    Ok(text)
}

impl BmpString {
    /// The text, two octets for each character.
    ///
    /// # Errors
    ///
    /// `Value` exactly where a character is above U+FFFF. Else `Memory` when out of memory.
    pub fn from_str(alloc: Global, text: &str) -> Result<BmpString, Error>
        ensures ok { IfOk result (λ string. string ≡ plane.bmp_octets (chars text.now)) }
        ensures value { list_all plane.is_bmp_char (chars text.now) ≡ false → IsErrAnd result (λ e. e.kind ≡ errors.Value) }
        ensures err { list_all plane.is_bmp_char (chars text.now) ≡ true → IfErr result (λ e. e.kind ≡ errors.Memory) }
    {
        if !check_text(text) {
            return Err(ErrorKind::Value.into());
        }
        let octets = octets_of(alloc, text)?;
        Ok(BmpString {
            octets: Bytes::from(octets),
        })
    }

    /// The text.
    ///
    /// # Errors
    ///
    /// `Memory` when out of memory, and nothing else.
    pub fn to_text(&self, alloc: Global) -> Result<String, Error>
        ensures ok { IfOk result (λ text. string_bytes text ≡ encode_utf8_all (plane.bmp_chars self.now)) }
        ensures err { IfErr result (λ e. e.kind ≡ errors.Memory) }
    {
        text_of(alloc, self.octets.as_slice())
    }

    /// The octets of the characters.
    pub fn as_bytes(&self) -> &[u8]
        ensures octets { result.now ≡ self.now }
        ensures plane { plane.is_bmp self.now ≡ true }
    {
        self.octets.as_slice()
    }
}

/// The string with a copy of the octets, which are those of characters of the plane.
fn copied(alloc: Global, octets: &[u8]) -> Result<BmpString, Error>
    requires { plane.is_bmp octets.now ≡ true }
    ensures ok { IfOk result (λ string. string ≡ octets.now) }
    ensures err { IfErr result (λ e. (e.kind ≡ errors.Memory) × (24 < length octets.now)) }
{
    Ok(BmpString {
        octets: Bytes::from_slice(alloc, octets)?,
    })
}

#[tactic(auto, unfolding(x509_der::specs::Tested::tested_reading))]
impl Content for BmpString {
    ghost use Rattle.x509_der.specs.declared.tag.Tag.TheVariants as tags;
    ghost use Rattle.x509_der.specs.Tested.{tested_contents, tested_contents_lawful};
    ghost use Rattle.x509_prim.specs.Bmp.{is_bmp};

    ghost contents = { tested_contents is_bmp };

    ghost IDENTIFIER = { tags.BmpString };

    const IDENTIFIER: Tag = Tag::BmpString;

    fn read_content(alloc: Global, octets: &[u8]) -> Result<BmpString, Error> {
        if !check_octets(octets) {
            return Err(ErrorKind::Malformed.into());
        }
        copied(alloc, octets)
    }

    fn write_content<R: Room>(&self, room: &mut R) -> Result<(), Error> {
        room.put(self.octets.as_slice())
    }

    ghost contents_lawful = { tested_contents_lawful is_bmp };
}

impl Spelled for BmpString {
    fn has_spelling(&self) {
        let _octets = self.as_bytes();
    }
}

impl ValueOrd for BmpString {
    ghost use Rattle.x509_der.specs.Ordered.{by_bytes, by_bytes_lawful};
    ghost use Rattle.x509_der.specs.Writing.{plain, writes};
    ghost use Rattle.x509_prim.specs.Texts.{bmp_string};

    ghost order = { by_bytes bmp_string };

    fn value_cmp(&self, other: &BmpString) -> Ordering {
        self.octets.as_slice().cmp(other.octets.as_slice())
    }

    ghost ordered = { by_bytes_lawful bmp_string (writes plain) (λ x y p q. q) };
}

impl SetOrd for BmpString {
    ghost set_order = { ⟦<BmpString as EncodingOrd>⟧.encoding_order };
}

impl SetMember for BmpString {
    ghost use Rattle.std.specs.Prelude.{refl};

    ghost in_der_order = { refl };
}

/// The text of an element; `Malformed` exactly where it has another identifier, or a content that isn't that of
/// characters of the plane. `Memory` when out of memory, only for more than 24 octets.
impl FromAny<'_> for BmpString {
    ghost use Rattle.x509_der.specs.declared.tag.Tag.TheVariants.{BmpString};
    ghost use Rattle.x509_prim.specs.Bmp.{is_bmp};
    ghost use Rattle.x509_prim.specs.Borrowed.{CopiesTextFrom};

    ghost from_any_gives = { CopiesTextFrom BmpString is_bmp };

    fn from_any(alloc: Global, any: &Any) -> Result<BmpString, Error> {
        if any.tag() != Tag::BmpString {
            return Err(ErrorKind::Malformed.into());
        }
        if !check_octets(any.value()) {
            return Err(ErrorKind::Malformed.into());
        }
        copied(alloc, any.value())
    }
}

impl TryClone for BmpString {
    fn try_clone(&self, alloc: Global) -> Result<BmpString, Error> {
        Ok(BmpString {
            octets: self.octets.try_clone(alloc)?,
        })
    }
}

impl PartialEq for BmpString {
    ghost eq = { bytes_eq };

    ghost laws = { partial_equiv_from_equiv nat_list_eq_equiv };

    fn eq(&self, other: &BmpString) -> bool {
        self.octets.as_slice() == other.octets.as_slice()
    }
}

impl Eq for BmpString {
    ghost laws = { nat_list_eq_equiv };
}

impl Hash for BmpString {
    ghost hash_input = { fed.slice fed.u8 };

    ghost respects_eq = { Prim.search (hashing, rules) };

    fn hash<H: Hasher>(&self, state: &mut H) {
        self.octets.as_slice().hash(state);
    }
}

impl fmt::Debug for BmpString {
    ghost use Rattle.std.specs.Prelude.{Some};
    ghost use Rattle.std.specs.Fmt.{debug_list, decimal};

    ghost debug_output = { debug_list (λ octet. Some (decimal octet)) };

    fn fmt<W: fmt::Write>(&self, f: &mut fmt::Formatter<W>) -> fmt::Result {
        fmt::Debug::fmt(&self.octets.as_slice(), f)
    }
}
