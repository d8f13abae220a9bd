//! The name of a profile.

ghost use Rattle.std.specs.Prelude.{◌≡◌};
ghost use Rattle.x509_codec.specs.ProfileNames.{profile_of};

/// The profile under which bytes are decoded and encoded.
#[derive(Clone, Copy, Debug, PartialEq, Eq)]
pub enum ProfileName {
    /// The rules of RFC 5280.
    Rfc5280,

    /// No rules beyond the grammar.
    Raw,
}

impl ProfileName {
    /// The profile that a word names: `rfc5280` or `raw`.
    pub fn from_word(word: &str) -> Option<ProfileName>
        ensures { result ≡ profile_of word.now }
    {
        match word {
            "rfc5280" => Some(ProfileName::Rfc5280),
            "raw" => Some(ProfileName::Raw),
            _ => None,
        }
    }
}
