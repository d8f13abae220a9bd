//! What holds of all values of the primitive types. Each law is a function with an empty body, whose contract is the law.

ghost use Rattle.std.specs.List.{list_all, All};
ghost use Rattle.std.specs.Prelude.{◌≡◌, ◌↔◌, ℕ, List, true, ◌<◌, ℤ, ◌∷◌, Bool};
ghost use Rattle.x509_der.specs.Form.{Spells};
ghost use Rattle.x509_prim.specs.Alphabet.{is_printable, is_ia5, is_visible};
ghost use Rattle.x509_prim.specs.BitString.{BitParts, HasBits, is_padded};
ghost use Rattle.x509_prim.specs.Bmp.{is_bmp, is_bmp_char, bmp_chars, bmp_octets};
ghost use Rattle.x509_prim.specs.Integer.{is_integer, integer_value};
ghost use Rattle.x509_prim.specs.NamedBits.{set_octets};
ghost use Rattle.x509_prim.specs.SetBits.{AreSetBits};
ghost use Rattle.x509_prim.specs.Text.{text};
ghost use Rattle.x509_prim.specs.declared.restricted_ref.RestrictedStringRef.{RestrictedStringRef};
ghost use Rattle.x509_prim.specs.declared.utf8.Utf8StringRef.{Utf8StringRef};

use crate::{
    Alphabet, BitString, BmpString, Ia5String, Int, OctetString, PrintableString, RestrictedString,
    RestrictedStringRef, TeletexString, Uint, Utf8String, Utf8StringRef, VisibleString,
};
use x509_der::Grammar;

/// Characters of the basic multilingual plane and content octets of BMPString are one to one.
pub fn bmp_contents_are_texts()
    ensures chars { (chars : List ℕ) → list_all is_bmp_char chars ≡ true → (is_bmp (bmp_octets chars) ≡ true) × (bmp_chars (bmp_octets chars) ≡ chars) }
    ensures octets { (octets : List ℕ) → is_bmp octets ≡ true → (list_all is_bmp_char (bmp_chars octets) ≡ true) × (bmp_octets (bmp_chars octets) ≡ octets) }
{}

/// The identifiers and the characters of the restricted character string types (X.680 8.4, 41).
pub fn restricted_strings_are_theirs()
    ensures printable { (string bytes : List ℕ) → Spells ⟦<PrintableString as Grammar>⟧.form string bytes
        ↔ Spells (text 0x13 (list_all is_printable)) string bytes }
    ensures ia5 { (string bytes : List ℕ) → Spells ⟦<Ia5String as Grammar>⟧.form string bytes ↔ Spells (text 0x16 (list_all is_ia5)) string bytes }
    ensures visible { (string bytes : List ℕ) → Spells ⟦<VisibleString as Grammar>⟧.form string bytes ↔ Spells (text 0x1A (list_all is_visible)) string bytes }
    ensures teletex { (string bytes : List ℕ) → Spells ⟦<TeletexString as Grammar>⟧.form string bytes ↔ Spells (text 0x14 (list_all is_ia5)) string bytes }
{}

/// `==` holds exactly of equal texts, owned or borrowed.
pub fn equality_of_texts_is_exact<'a, A: Alphabet>()
    ensures restricted { (a b : List ℕ) → (⟦<RestrictedString<A> as PartialEq>⟧.eq a b ≡ true) ↔ (a ≡ b) }
    ensures utf8 { (a b : List ℕ) → (⟦<Utf8String as PartialEq>⟧.eq a b ≡ true) ↔ (a ≡ b) }
    ensures bmp { (a b : List ℕ) → (⟦<BmpString as PartialEq>⟧.eq a b ≡ true) ↔ (a ≡ b) }
    ensures restricted_refs { (a b : RestrictedStringRef A) → (⟦<RestrictedStringRef<'a, A> as PartialEq>⟧.eq a b ≡ true) ↔ (a.text.now ≡ b.text.now) }
    ensures utf8_refs { (a b : Utf8StringRef) → (⟦<Utf8StringRef<'a> as PartialEq>⟧.eq a b ≡ true) ↔ (a.text.now ≡ b.text.now) }
{}

/// No content is that of two lists of bits.
pub fn bit_strings_have_one_value()
    ensures { (bits others : List Bool) (parts : BitParts) → HasBits bits parts → HasBits others parts → bits ≡ others }
{}

/// No list of bits has two contents.
pub fn bits_have_one_content()
    ensures { (bits : List Bool) (parts others : BitParts) → All (λ octet. octet < 256) parts.octets → All (λ octet. octet < 256) others.octets
        → HasBits bits parts → HasBits bits others → parts ≡ others }
{}

/// Each list of bits has a content.
pub fn bits_have_a_content()
    ensures { (bits : List Bool) → (parts : BitParts) × (All (λ octet. octet < 256) parts.octets × HasBits bits parts) }
{}

/// The contents that are read are those of lists of bits.
pub fn padded_contents_are_bits()
    ensures bits { (parts : BitParts) → is_padded parts ≡ true → (bits : List Bool) × HasBits bits parts }
    ensures padded { (bits : List Bool) (parts : BitParts) → HasBits bits parts → is_padded parts ≡ true }
{}

/// `==` holds exactly of equal strings.
#[tactic(auto, using(crate::specs::Equality::exact_bit_string, x509_der::specs::Exact::exact_octets))]
pub fn equality_of_strings_is_exact()
    ensures bits { (a b : BitParts) → (⟦<BitString as PartialEq>⟧.eq a b ≡ true) ↔ (a ≡ b) }
    ensures octets { (a b : List ℕ) → (⟦<OctetString as PartialEq>⟧.eq a b ≡ true) ↔ (a ≡ b) }
{}

/// `==` of whole numbers holds exactly of equal contents.
#[tactic(auto, using(x509_der::specs::Exact::exact_octets))]
pub fn equality_of_integers_is_exact()
    ensures signed { (a b : List ℕ) → (⟦<Int as PartialEq>⟧.eq a b ≡ true) ↔ (a ≡ b) }
    ensures unsigned { (a b : List ℕ) → (⟦<Uint as PartialEq>⟧.eq a b ≡ true) ↔ (a ≡ b) }
{}

/// No whole number has two contents.
pub fn integers_have_one_content()
    ensures { (xs ys : List ℕ) → All (λ octet. octet < 256) xs → All (λ octet. octet < 256) ys → is_integer xs ≡ true → is_integer ys ≡ true
        → integer_value xs ≡ integer_value ys → xs ≡ ys }
{}

/// Each whole number has a content.
pub fn integers_have_a_content()
    ensures { (z : ℤ) → (octets : List ℕ) × (All (λ octet. octet < 256) octets × ((is_integer octets ≡ true) × (integer_value octets ≡ z))) }
{}

/// The content of a set is that of the bit string of its named bits, which no zero bit ends.
pub fn sets_are_bit_strings()
    ensures { (set : ℕ) → set < 65536 → (bits : List Bool) × ((parts : BitParts)
        × (AreSetBits set bits × (HasBits bits parts × (set_octets set ≡ parts.unused ∷ parts.octets)))) }
{}
