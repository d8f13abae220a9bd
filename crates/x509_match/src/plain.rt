//! ASCII texts, compared without memory.

ghost use Rattle.std.specs.Char.{to_ascii_lowercase};
ghost use Rattle.std.specs.List.{list_all};
ghost use Rattle.std.specs.Prelude.{◌≡◌, ◌↔◌, ◌<◌, ◌&&◌, ◌||◌, [], ◌∷◌, IsTrue, false, length, MatchOption, OnSome, true};
ghost use Rattle.x509_match.specs.Plain as plain;
ghost use Rattle.x509_prim.specs.Alphabet.{is_ia5};

/// Whether it is a character that is neither white space nor left out.
fn is_letter(c: u8) -> bool
    ensures { result ≡ plain.is_letter c }
{
    matches!(c, 0x21..=0x7E)
}

/// Whether it is white space.
fn is_white(c: u8) -> bool
    ensures { result ≡ plain.is_white c }
{
    matches!(c, 0x20 | 0x09..=0x0D)
}

/// Whether there is a gap behind the octet.
fn gap_behind(gap: bool, c: u8) -> bool
    ensures { result ≡ (gap || plain.is_white c) }
{
    gap || is_white(c)
}

/// Whether a space is due before the next character.
fn is_due(begun: bool, gap: bool) -> bool
    ensures { result ≡ (begun && gap) }
{
    begun && gap
}

/// The next octet of a prepared text, where begun says whether one came before, and what is left behind it.
fn next_octet(text: &[u8], begun: bool) -> (Option<u8>, &[u8])
    ensures next { list_all is_ia5 text.now ≡ true → plain.IsNext begun text.now result.0 result.1.now }
    ensures shorter { OnSome result.0 (length result.1.now < length text.now) }
{
    let mut gap = false;
    let mut rest = text;
    while let [c, behind @ ..] = rest {
        if is_letter(*c) {
            if is_due(begun, gap) {
                return (Some(b' '), rest);
            }
            return (Some(c.to_ascii_lowercase()), behind);
        }
        gap = gap_behind(gap, *c);
        rest = behind;
    }
    (None, rest)
}

/// Whether two ASCII texts are prepared alike.
pub(crate) fn prepared_alike(a: &[u8], b: &[u8]) -> bool
    ensures { list_all is_ia5 a.now ≡ true → list_all is_ia5 b.now ≡ true
        → (IsTrue result ↔ (plain.plain_behind false false a.now ≡ plain.plain_behind false false b.now)) }
{
    let mut begun = false;
    let mut left = a;
    let mut right = b;
    loop {
        let (x, left_behind) = next_octet(left, begun);
        let (y, right_behind) = next_octet(right, begun);
        let Some(x) = x else {
            return y.is_none();
        };
        let Some(y) = y else {
            return false;
        };
        if x != y {
            return false;
        }
        begun = true;
        left = left_behind;
        right = right_behind;
    }
}
