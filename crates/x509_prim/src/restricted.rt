//! Restricted character strings.

ghost use Rattle.std.specs.Prelude.{◌≡◌, ◌<◌, ◌≤◌, ◌⊎◌, true, false, length, bytes_eq, string_bytes, IfOk, IfErr};
ghost use Rattle.std.proofs.Common.{rules};
ghost use Rattle.std.specs.Hash as fed;
ghost use Rattle.std.specs.Cmp.{partial_equiv_from_equiv};
ghost use Rattle.std.specs.Cmp.Lexicographic.{nat_list_eq_equiv};
ghost use Rattle.std.specs.Cmp.Rules.{hashing};
ghost use Rattle.std.specs.List.{list_all};
ghost use Rattle.x509_der.specs.declared.error.ErrorKind.TheVariants as errors;

use crate::alphabet::Alphabet;
use crate::restricted_ref::{check_text, text_in, text_of};
use crate::text::Text;
use std::alloc::Global;
use std::cmp::Ordering;
use std::fmt;
use std::hash::{Hash, Hasher};
use std::marker::{Model, PhantomData};
use x509_der::{
    Any, Content, EncodingOrd, Error, ErrorKind, FromAny, Room, SetMember, SetOrd, Spelled, Tag,
    TryClone, ValueOrd,
};

/// A text of a restricted character string type (X.680 41). Contracts see its octets, one for each character.
#[derive(Drop)]
pub struct RestrictedString<A: Alphabet> {
    text: Text,
    alphabet: PhantomData<A>,
}

impl<A: Alphabet> Model for RestrictedString<A> {
    ghost use Rattle.std.specs.Prelude.{List, ℕ, ◌≡◌, true};
    ghost use Rattle.std.specs.List.{list_all};

    ghost Value = { List ℕ };

    ghost view = { λ string. string.text };

    ghost invariant = { λ string. list_all A.has_char string.text ≡ true };
}

impl<A: Alphabet> RestrictedString<A> {
    /// A copy of the text.
    ///
    /// # Errors
    ///
    /// `Value` exactly where a character is not one of the type's. Else `Memory` when out of memory, only for more than
    /// 24 octets.
    pub fn new(alloc: Global, text: &str) -> Result<RestrictedString<A>, Error>
        ensures ok { IfOk result (λ string. (string ≡ text.now) × (list_all A.has_char text.now ≡ true)) }
        ensures err { IfErr result (λ e. ((e.kind ≡ errors.Memory) × (24 < length text.now) × (list_all A.has_char text.now ≡ true))
            ⊎ ((e.kind ≡ errors.Value) × (list_all A.has_char text.now ≡ false))) }
    {
        if !check_text::<A>(text.as_bytes()) {
            return Err(ErrorKind::Value.into());
        }
        Ok(RestrictedString {
            text: Text::new(alloc, text)?,
            alphabet: PhantomData,
        })
    }

    /// The text.
    pub fn as_str(&self) -> &str
        ensures text { result.now ≡ self.now }
        ensures chars { list_all A.has_char self.now ≡ true }
    {
        self.text.as_str()
    }

    /// The text as a string. Up to 24 octets may lie inside the value; those are copied.
    ///
    /// # Errors
    ///
    /// `Memory` when out of memory, only for up to 24 octets.
    pub fn into_string(self) -> Result<String, Error>
        ensures ok { IfOk result (λ text. string_bytes text ≡ self) }
        ensures err { IfErr result (λ e. (e.kind ≡ errors.Memory) × (length self ≤ 24)) }
    {
        let RestrictedString { text, alphabet: _ } = self;
        text.into_string()
    }
}

#[tactic(auto, unfolding(x509_der::specs::Tested::tested_reading))]
impl<A: Alphabet> Content for RestrictedString<A> {
    ghost use Rattle.std.specs.List.{list_all};
    ghost use Rattle.x509_der.specs.Tested.{tested_contents, tested_contents_lawful};

    ghost contents = { tested_contents (list_all A.has_char) };

    ghost IDENTIFIER = { A.TAG };

    const IDENTIFIER: Tag = A::TAG;

    fn read_content(alloc: Global, octets: &[u8]) -> Result<RestrictedString<A>, Error> {
        let Some(text) = text_of::<A>(octets) else {
            return Err(ErrorKind::Malformed.into());
        };
        Ok(RestrictedString {
            text: Text::new(alloc, text)?,
            alphabet: PhantomData,
        })
    }

    fn write_content<R: Room>(&self, room: &mut R) -> Result<(), Error> {
        room.put(self.text.as_str().as_bytes())
    }

    ghost contents_lawful = { tested_contents_lawful (list_all A.has_char) };
}

impl<A: Alphabet> Spelled for RestrictedString<A> {
    fn has_spelling(&self) {
        let _text = self.as_str();
    }
}

impl<A: Alphabet> ValueOrd for RestrictedString<A> {
    ghost use Rattle.std.specs.List.{list_all};
    ghost use Rattle.x509_der.specs.Tested.{tested};
    ghost use Rattle.x509_der.specs.Ordered.{by_bytes, by_bytes_lawful};
    ghost use Rattle.x509_der.specs.Writing.{plain, writes};

    ghost order = { by_bytes (tested A.TAG (list_all A.has_char)) };

    fn value_cmp(&self, other: &RestrictedString<A>) -> Ordering {
        self.text
            .as_str()
            .as_bytes()
            .cmp(other.text.as_str().as_bytes())
    }

    ghost ordered = { by_bytes_lawful (tested A.TAG (list_all A.has_char)) (writes plain) (λ x y p q. q) };
}

impl<A: Alphabet> SetOrd for RestrictedString<A> {
    ghost set_order = { ⟦<RestrictedString<A> as EncodingOrd>⟧.encoding_order };
}

impl<A: Alphabet> SetMember for RestrictedString<A> {
    ghost use Rattle.std.specs.Prelude.{refl};

    ghost in_der_order = { refl };
}

/// The text of an element; `Malformed` exactly where it has another identifier, or a character that is not one of the
/// type's. `Memory` when out of memory, only for more than 24 octets.
impl<A: Alphabet> FromAny<'_> for RestrictedString<A> {
    ghost use Rattle.std.specs.List.{list_all};
    ghost use Rattle.x509_prim.specs.Borrowed.{CopiesTextFrom};

    ghost from_any_gives = { CopiesTextFrom A.TAG (list_all A.has_char) };

    fn from_any(alloc: Global, any: &Any) -> Result<RestrictedString<A>, Error> {
        let borrowed = text_in::<A>(any.tag(), any.value())?;
        Ok(RestrictedString {
            text: Text::new(alloc, borrowed.as_str())?,
            alphabet: PhantomData,
        })
    }
}

impl<A: Alphabet> TryClone for RestrictedString<A> {
    fn try_clone(&self, alloc: Global) -> Result<RestrictedString<A>, Error> {
        Ok(RestrictedString {
            text: Text::new(alloc, self.text.as_str())?,
            alphabet: PhantomData,
        })
    }
}

impl<A: Alphabet> PartialEq for RestrictedString<A> {
    ghost eq = { bytes_eq };

    ghost laws = { partial_equiv_from_equiv nat_list_eq_equiv };

    fn eq(&self, other: &RestrictedString<A>) -> bool {
        self.text.as_str().as_bytes() == other.text.as_str().as_bytes()
    }
}

impl<A: Alphabet> Eq for RestrictedString<A> {
    ghost laws = { nat_list_eq_equiv };
}

impl<A: Alphabet> Hash for RestrictedString<A> {
    ghost hash_input = { fed.slice fed.u8 };

    ghost respects_eq = { Prim.search (hashing, rules) };

    fn hash<H: Hasher>(&self, state: &mut H) {
        self.text.as_str().as_bytes().hash(state);
    }
}

impl<A: Alphabet> fmt::Display for RestrictedString<A> {
    ghost use Rattle.std.specs.Prelude.{Some};

    ghost output = { λ string. Some string };

    fn fmt<W: fmt::Write>(&self, f: &mut fmt::Formatter<W>) -> fmt::Result {
        fmt::Display::fmt(&self.text.as_str(), f)
    }
}

impl<A: Alphabet> fmt::Debug for RestrictedString<A> {
    ghost use Rattle.std.specs.Fmt.{debug_str};

    ghost debug_output = { debug_str };

    fn fmt<W: fmt::Write>(&self, f: &mut fmt::Formatter<W>) -> fmt::Result {
        fmt::Debug::fmt(&self.text.as_str(), f)
    }
}
