//! Texts that a value owns.

ghost use Rattle.std.specs.Prelude.{◌≡◌, ◌<◌, ◌≤◌, length, string_bytes, IfOk, IfErr};
ghost use Rattle.x509_der.specs.declared.error.ErrorKind.TheVariants.{Memory};

use std::alloc::Global;
use std::marker::Model;
use x509_der::{Bytes, Error};

/// A text, which contracts see as its octets. Up to 24 octets lie inside the value and take no memory.
#[derive(Drop)]
pub(crate) struct Text {
    octets: Bytes,
}

impl Model for Text {
    ghost use Rattle.std.specs.Prelude.{IsUtf8, List, ℕ};

    ghost Value = { List ℕ };

    ghost view = { λ text. text.octets };

    ghost invariant = { λ text. IsUtf8 text.octets };
}

impl Text {
    /// A copy of the text. More than 24 octets take memory.
    pub(crate) fn new(alloc: Global, text: &str) -> Result<Text, Error>
        ensures ok { IfOk result (λ copy. copy ≡ text.now) }
        ensures err { IfErr result (λ e. (e.kind ≡ Memory) × (24 < length text.now)) }
    {
        Ok(Text {
            octets: Bytes::from_slice(alloc, text.as_bytes())?,
        })
    }

    /// The text.
    pub(crate) fn as_str(&self) -> &str
        ensures { result.now ≡ self.now }
    {
        // The octets are those of a text, so nothing is checked again.
        unsafe { str::from_utf8_unchecked(self.octets.as_slice()) }
    }

    /// The text as a string. Up to 24 octets may lie inside the value; those are copied.
    pub(crate) fn into_string(self) -> Result<String, Error>
        ensures ok { IfOk result (λ text. string_bytes text ≡ self) }
        ensures err { IfErr result (λ e. (e.kind ≡ Memory) × (length self ≤ 24)) }
    {
        let Text { octets } = self;
        let octets = octets.into_vec()?;
        Ok(unsafe { String::from_utf8_unchecked(octets) })
    }
}

impl From<String> for Text {
    ghost from_gives = { λ text kept. kept ≡ string_bytes text };

    fn from(text: String) -> Text {
        Text {
            octets: Bytes::from(text.into_bytes()),
        }
    }
}
