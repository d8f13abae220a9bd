//! Texts split at separators (RFC 4514 sections 2.1, 2.2 and 3).

ghost use Rattle.std.specs.Prelude.{◌≡◌, ◌∷◌, length, false, List, ℕ};
ghost use Rattle.std.specs.Iterator.{YieldsFirstRef, item_count};
ghost use Rattle.x509_name.specs.Cutting.{cut, cut_if_some, parts_left};
ghost use Rattle.x509_name.specs.Parts.{Joined};

/// An iterator over the pieces of a text, from the left. The text is split at each separator that no backslash escapes,
/// so there is at least one piece, and a piece may be empty.
#[derive(Clone, Copy, Debug)]
pub struct Parts<'a> {
    // None once the last part was given
    rest: Option<&'a [u8]>,
    separator: u8,
}

impl<'a> Parts<'a> {
    /// The pieces of the text between the separators.
    pub fn new(text: &'a [u8], separator: u8) -> Parts<'a>
        ensures joined { Joined separator (parts_left result) text.now }
        ensures left { parts_left result ≡ cut separator text.now false }
    {
        Parts {
            rest: Some(text),
            separator,
        }
    }
}

impl<'a> Iterator for Parts<'a> {
    type Item = &'a [u8];

    ghost next_gives = { YieldsFirstRef parts_left };

    ghost remaining = { item_count parts_left };

    fn next(&mut self) -> Option<&'a [u8]> {
        let (part, rest) = first_part(self.rest?, self.separator);
        self.rest = rest;
        Some(part)
    }
}

// The first part of a text, and what is behind its separator, where there is one.
fn first_part(text: &[u8], separator: u8) -> (&[u8], Option<&[u8]>)
    ensures { cut separator text.now false ≡ result.0.now ∷ cut_if_some separator result.1 }
{
    let mut escaped = false;
    for (i, byte) in text.iter().enumerate() {
        if escaped {
            escaped = false;
        } else if *byte == separator {
            return (&text[..i], Some(&text[i + 1..]));
        } else {
            escaped = *byte == b'\\';
        }
    }
    (text, None)
}

/// How many pieces a text has.
pub fn count_parts(text: &[u8], separator: u8) -> usize
    ensures count { result ≡ length (cut separator text.now false) }
    ensures joined { (parts : List (List ℕ)) → Joined separator parts text.now → result ≡ length parts }
{
    let mut count = 1;
    let mut escaped = false;
    for byte in text {
        if escaped {
            escaped = false;
        } else if *byte == separator {
            count += 1;
        } else {
            escaped = *byte == b'\\';
        }
    }
    count
}
