//! Texts that are borrowed or owned.

ghost use Rattle.std.specs.Prelude.{◌≡◌, true, bytes_eq, IfOk, IfErr};
ghost use Rattle.std.specs.Cmp.{on_equiv, on_per, partial_equiv_from_equiv};
ghost use Rattle.std.specs.Cmp.Lexicographic.{nat_list_eq_equiv};
ghost use Rattle.x509_der.specs.declared.error.ErrorKind.TheVariants.{Memory};
ghost use Rattle.x509_name.specs.TextRef.{is_owned, octets_of};

use std::alloc::Global;
use x509_der::Error;

/// A text that is borrowed where it is held as UTF-8, and else owned.
#[derive(Debug, Drop)]
pub enum TextRef<'a> {
    /// The text where it stands.
    Borrowed(&'a str),

    /// The text in memory of its own.
    Owned(String),
}

impl TextRef<'_> {
    /// The text.
    pub fn as_str(&self) -> &str
        ensures { result.now ≡ octets_of self.now }
    {
        match self {
            TextRef::Borrowed(text) => text,
            TextRef::Owned(text) => text.as_str(),
        }
    }

    /// A copy of the text: owned where this one is, else borrowed from where it stands.
    ///
    /// # Errors
    ///
    /// `Memory` when out of memory, only where this text is owned.
    pub fn try_clone(&self, alloc: Global) -> Result<Self, Error>
        ensures ok { IfOk result (λ copy. (octets_of copy ≡ octets_of self.now) × (is_owned copy ≡ is_owned self.now)) }
        ensures err { IfErr result (λ e. (e.kind ≡ Memory) × (is_owned self.now ≡ true)) }
    {
        match self {
            TextRef::Borrowed(text) => Ok(TextRef::Borrowed(*text)),
            TextRef::Owned(text) => Ok(TextRef::Owned(String::from_str(alloc, text.as_str())?)),
        }
    }
}

/// Texts are equal where their octets are, whoever owns them.
impl PartialEq for TextRef<'_> {
    ghost eq = { λ a b. bytes_eq (octets_of a) (octets_of b) };

    ghost laws = { on_per octets_of (partial_equiv_from_equiv nat_list_eq_equiv) };

    fn eq(&self, other: &Self) -> bool {
        self.as_str().as_bytes() == other.as_str().as_bytes()
    }
}

impl Eq for TextRef<'_> {
    ghost laws = { on_equiv octets_of nat_list_eq_equiv };
}
