//! The characters of the restricted character string types (X.680 41).

ghost use Rattle.std.specs.List.{list_all};
ghost use Rattle.std.specs.Prelude.{◌≡◌};
ghost use Rattle.x509_prim.specs.Alphabet.{is_ia5, is_printable};

use x509_der::Tag;

/// Whether each of the octets is below 80, many at a time.
fn are_ascii(octets: &[u8]) -> bool
    ensures { result ≡ list_all is_ia5 octets.now }
{
    octets.is_ascii()
}

/// The characters of a restricted character string type, each of which is one octet below 80.
pub trait Alphabet {
    ghost use Rattle.std.specs.List.{list_all};
    ghost use Rattle.std.specs.Prelude.{◌≡◌, ◌<◌, ℕ, Bool, true};
    ghost use Rattle.x509_der.specs.declared.tag.Tag.{Tag};

    ghost TAG: { Tag };

    /// The identifier of the type.
    const TAG: Tag;

    ghost has_char: { ℕ → Bool };

    /// Whether the character is one of the type's.
    fn has_char(octet: u8) -> bool
        ensures { result ≡ has_char octet };

    /// Whether each of the octets is.
    fn has_chars(octets: &[u8]) -> bool
        ensures { result ≡ list_all has_char octets.now }
    {
        octets.iter().all(|octet| Self::has_char(*octet))
    }

    ghost ascii: { (octet : ℕ) → has_char octet ≡ true → octet < 0x80 };
}

// A bit for each octet, 64 in a number, the lowest bit first: 1 for the characters of PrintableString.
static PRINTABLE: [u64; 4] = [0xA7FF_FB81_0000_0000, 0x07FF_FFFE_07FF_FFFE, 0, 0];

/// Whether the octet is a character of PrintableString, by the table.
#[inline(always)]
fn is_printable(octet: u8) -> bool
    ensures { result ≡ is_printable octet }
{
    (PRINTABLE[(octet / 64) as usize] >> (octet % 64)) & 1 == 1
}

/// The characters of PrintableString.
#[derive(Clone, Copy, Debug, PartialEq, Eq, Hash)]
pub struct Printable;

#[tactic(auto, unfolding(crate::specs::Alphabet::is_printable))]
impl Alphabet for Printable {
    ghost use Rattle.x509_der.specs.declared.tag.Tag.TheVariants as tags;
    ghost use Rattle.x509_prim.specs.Alphabet.{is_printable, printable_ascii};

    ghost TAG = { tags.PrintableString };

    const TAG: Tag = Tag::PrintableString;

    ghost has_char = { is_printable };

    fn has_char(octet: u8) -> bool {
        matches!(
            octet,
            b'A'..=b'Z'
                | b'a'..=b'z'
                | b'0'..=b'9'
                | b' '
                | b'\''
                | b'('
                | b')'
                | b'+'
                | b','
                | b'-'
                | b'.'
                | b'/'
                | b':'
                | b'='
                | b'?'
        )
    }

    fn has_chars(octets: &[u8]) -> bool {
        octets.iter().all(|octet| is_printable(*octet))
    }

    ghost ascii = { printable_ascii };
}

/// The characters of IA5String.
#[derive(Clone, Copy, Debug, PartialEq, Eq, Hash)]
pub struct Ia5;

#[tactic(auto, unfolding(crate::specs::Alphabet::is_ia5))]
impl Alphabet for Ia5 {
    ghost use Rattle.x509_der.specs.declared.tag.Tag.TheVariants as tags;
    ghost use Rattle.x509_prim.specs.Alphabet.{is_ia5, ia5_ascii};

    ghost TAG = { tags.Ia5String };

    const TAG: Tag = Tag::Ia5String;

    ghost has_char = { is_ia5 };

    fn has_char(octet: u8) -> bool {
        octet < 0x80
    }

    fn has_chars(octets: &[u8]) -> bool {
        are_ascii(octets)
    }

    ghost ascii = { ia5_ascii };
}

/// The characters of TeletexString that are accepted: those up to 7F.
#[derive(Clone, Copy, Debug, PartialEq, Eq, Hash)]
pub struct Teletex;

#[tactic(auto, unfolding(crate::specs::Alphabet::is_ia5))]
impl Alphabet for Teletex {
    ghost use Rattle.x509_der.specs.declared.tag.Tag.TheVariants as tags;
    ghost use Rattle.x509_prim.specs.Alphabet.{is_ia5, ia5_ascii};

    ghost TAG = { tags.TeletexString };

    const TAG: Tag = Tag::TeletexString;

    ghost has_char = { is_ia5 };

    fn has_char(octet: u8) -> bool {
        octet < 0x80
    }

    fn has_chars(octets: &[u8]) -> bool {
        are_ascii(octets)
    }

    ghost ascii = { ia5_ascii };
}

/// The characters of VisibleString: the graphic characters of ISO 646 and the space.
#[derive(Clone, Copy, Debug, PartialEq, Eq, Hash)]
pub struct Visible;

#[tactic(auto, unfolding(crate::specs::Alphabet::is_visible))]
impl Alphabet for Visible {
    ghost use Rattle.x509_der.specs.declared.tag.Tag.TheVariants as tags;
    ghost use Rattle.x509_prim.specs.Alphabet.{is_visible, visible_ascii};

    ghost TAG = { tags.VisibleString };

    const TAG: Tag = Tag::VisibleString;

    ghost has_char = { is_visible };

    fn has_char(octet: u8) -> bool {
        matches!(octet, 0x20..=0x7E)
    }

    ghost ascii = { visible_ascii };
}
