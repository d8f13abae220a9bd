//! What holds of all attributes, names and their texts. Each law is a function whose contract is the law.

ghost use Rattle.std.specs.List.Sorted.{IsStrictlySortedBy, IsPermutation};
ghost use Rattle.std.specs.Prelude.{◌≡◌, ◌↔◌, List, ℕ, true, ◌≢◌, ◌∷◌};
ghost use Rattle.x509_der.specs.Form.{Spells};
ghost use Rattle.x509_der.specs.Order.{bytes_cmp};
ghost use Rattle.x509_der.specs.declared.any.Any.{Any};
ghost use Rattle.x509_der.specs.declared.error.ErrorKind.{ErrorKind};
ghost use Rattle.x509_name.specs.Attributes.{AttributeReads, AttributeRefused, ReadsBack, attribute_text};
ghost use Rattle.x509_name.specs.DirectoryString.{directory_string};
ghost use Rattle.x509_name.specs.Escapes.{Unescapes, escaped};
ghost use Rattle.x509_name.specs.NameText as texts;
ghost use Rattle.x509_name.specs.Names.{name, rdn_sequence, relative_distinguished_name};
ghost use Rattle.x509_name.specs.Parts.{Joined};
ghost use Rattle.x509_name.specs.TextRef.{octets_of};
ghost use Rattle.x509_name.specs.TypeAndValue.{type_and_value_cmp};
ghost use Rattle.x509_name.specs.declared.attr.type_and_value.AttributeTypeAndValue.{AttributeTypeAndValue};
ghost use Rattle.x509_name.specs.declared.name.directory_string.DirectoryString.{DirectoryString};
ghost use Rattle.x509_name.specs.declared.name.text_ref.TextRef.{TextRef};

use crate::attr::AttributeTypeAndValue;
use crate::attr::attribute::Attribute;
use crate::name::directory_string::DirectoryString;
use crate::name::text_ref::TextRef;
use crate::name::{Name, RdnSequence, RelativeDistinguishedName};
use x509_der::laws::{encodings_in_order, members_make_the_set, one_value};

/// `==` holds exactly of equal values.
#[tactic(auto, using(crate::specs::TypeAndValue::type_and_value_decides, crate::specs::Attribute::attribute_decides))]
pub fn equality_is_exact()
    ensures pairs { (a b : AttributeTypeAndValue) → (⟦<AttributeTypeAndValue as PartialEq>⟧.eq a b ≡ true) ↔ (a ≡ b) }
    ensures attributes { (a b : Attribute) → (⟦<Attribute as PartialEq>⟧.eq a b ≡ true) ↔ (a ≡ b) }
{}

/// A text stands for at most one list of bytes.
pub fn one_reading()
    ensures { (text bytes others : List ℕ) → Unescapes text bytes → Unescapes text others → bytes ≡ others }
{}

/// What is printed of bytes stands for them, and doesn't begin with a number sign.
pub fn read_again()
    ensures unescapes { (bytes : List ℕ) → Unescapes (escaped bytes) bytes }
    ensures front { (bytes rest : List ℕ) → escaped bytes ≢ 35 ∷ rest }
{}

/// A text is split in at most one way.
pub fn one_cut()
    ensures { (separator : ℕ) (text : List ℕ) (parts others : List (List ℕ))
        → Joined separator parts text → Joined separator others text → parts ≡ others }
{}

/// A text reads as at most one attribute.
pub fn one_attribute()
    ensures { (text octets others : List ℕ) (value other : Any) → AttributeReads text octets value
        → AttributeReads text others other → (octets ≡ others) × (value ≡ other) }
{}

/// What is printed of an attribute that reads back reads as that attribute.
pub fn attribute_again()
    ensures { (octets : List ℕ) (value : Any) → ReadsBack octets value
        → AttributeReads (attribute_text octets value) octets value }
{}

/// Two attributes that read back never print alike.
pub fn one_attribute_text()
    ensures { (octets others : List ℕ) (value other : Any) → ReadsBack octets value → ReadsBack others other
        → attribute_text octets value ≡ attribute_text others other → (octets ≡ others) × (value ≡ other) }
{}

/// A text that reads as an attribute has no error, and a text has at most one error.
pub fn one_attribute_refusal()
    ensures apart { (text octets : List ℕ) (value : Any) (kind : ErrorKind) → AttributeReads text octets value
        → AttributeRefused text kind → ⊥ }
    ensures once { (text : List ℕ) (kind other : ErrorKind) → AttributeRefused text kind
        → AttributeRefused text other → kind ≡ other }
{}

/// The encoding of a DirectoryString determines it, with its case of the choice.
pub fn bytes_determine_the_directory_string()
    ensures { (v w : DirectoryString) (b : List ℕ) → Spells directory_string v b → Spells directory_string w b → v ≡ w }
{
    one_value::<DirectoryString>();
}

/// `==` holds exactly of equal texts of one case of the choice, and of a borrowed or owned text exactly where the
/// octets are equal.
pub fn equal_directory_strings_are_one_value<'a>()
    ensures strings { (a b : DirectoryString) → (⟦<DirectoryString as PartialEq>⟧.eq a b ≡ true) ↔ (a ≡ b) }
    ensures texts { (a b : TextRef) → (⟦<TextRef<'a> as PartialEq>⟧.eq a b ≡ true) ↔ (octets_of a ≡ octets_of b) }
{}

/// The bytes of a name determine it.
pub fn bytes_determine_the_name()
    ensures { (v w : List (List AttributeTypeAndValue)) (b : List ℕ) → Spells name v b → Spells name w b → v ≡ w }
{
    one_value::<Name>();
}

/// RDNs of the same attributes are equal, in whatever order these were inserted.
pub fn attributes_make_the_rdn()
    ensures { (a b : List AttributeTypeAndValue) → IsStrictlySortedBy type_and_value_cmp a → IsStrictlySortedBy type_and_value_cmp b → IsPermutation a b
        → a ≡ b }
{
    members_make_the_set::<AttributeTypeAndValue>();
}

/// `==` of RDNs, of sequences of them and of names holds exactly of equal values.
#[tactic(auto, using(crate::specs::Names::rdn_decides, crate::specs::Names::rdn_sequence_decides))]
pub fn equal_names_are_one_value()
    ensures rdns { (a b : List AttributeTypeAndValue) → (⟦<RelativeDistinguishedName as PartialEq>⟧.eq a b ≡ true) ↔ (a ≡ b) }
    ensures sequences { (a b : List (List AttributeTypeAndValue)) → (⟦<RdnSequence as PartialEq>⟧.eq a b ≡ true) ↔ (a ≡ b) }
    ensures names { (a b : List (List AttributeTypeAndValue)) → (⟦<Name as PartialEq>⟧.eq a b ≡ true) ↔ (a ≡ b) }
{}

/// Names that have an encoding, RDNs and sequences of them are ordered, as keys, by the bytes of their encodings.
pub fn names_stand_in_the_order_of_encodings()
    ensures rdns { (v w : List AttributeTypeAndValue) (a b : List ℕ) → Spells relative_distinguished_name v a → Spells relative_distinguished_name w b
        → ⟦<RelativeDistinguishedName as Ord>⟧.cmp v w ≡ bytes_cmp a b }
    ensures sequences { (v w : List (List AttributeTypeAndValue)) (a b : List ℕ) → Spells rdn_sequence v a → Spells rdn_sequence w b
        → ⟦<RdnSequence as Ord>⟧.cmp v w ≡ bytes_cmp a b }
    ensures names { (v w : List (List AttributeTypeAndValue)) (a b : List ℕ) → Spells name v a → Spells name w b → ⟦<Name as Ord>⟧.cmp v w ≡ bytes_cmp a b }
{
    encodings_in_order::<RelativeDistinguishedName>();
    encodings_in_order::<RdnSequence>();
    encodings_in_order::<Name>();
}

/// What is printed of a name reads as that name: of each name without an empty RDN, whose attributes that are printed
/// by name have the tag of their type. So does what is printed of one RDN.
#[tactic(auto, using(crate::proofs::NameTexts::rdn_again, crate::proofs::NameTexts::name_again))]
pub fn printed_names_read_back()
    ensures rdns { (rdn : List AttributeTypeAndValue) → texts.RdnReadsBack rdn → texts.RdnReads (texts.rdn_text rdn) rdn }
    ensures names { (name : List (List AttributeTypeAndValue)) → texts.NameReadsBack name → texts.NameReads (texts.name_text name) name }
{}

/// A text reads as at most one name, and as at most one RDN.
pub fn a_text_reads_as_one_name()
    ensures rdns { (text : List ℕ) (rdn other : List AttributeTypeAndValue) → texts.RdnReads text rdn → texts.RdnReads text other → rdn ≡ other }
    ensures names { (text : List ℕ) (name other : List (List AttributeTypeAndValue)) → texts.NameReads text name → texts.NameReads text other → name ≡ other }
{}

/// No two names that read back print alike, and no two RDNs.
#[tactic(auto, using(crate::proofs::NameTexts::rdns_apart, crate::proofs::NameTexts::names_apart))]
pub fn no_two_names_print_alike()
    ensures rdns { (rdn other : List AttributeTypeAndValue) → texts.RdnReadsBack rdn → texts.RdnReadsBack other → texts.rdn_text rdn ≡ texts.rdn_text other
        → rdn ≡ other }
    ensures names { (name other : List (List AttributeTypeAndValue)) → texts.NameReadsBack name → texts.NameReadsBack other
        → texts.name_text name ≡ texts.name_text other → name ≡ other }
{}

/// A text that reads has no error, and a text has at most one error.
pub fn a_text_is_refused_in_one_way()
    ensures rdns { (text : List ℕ) (rdn : List AttributeTypeAndValue) (kind : ErrorKind) → texts.RdnReads text rdn → texts.RdnRefused text kind → ⊥ }
    ensures rdns_once { (text : List ℕ) (kind other : ErrorKind) → texts.RdnRefused text kind → texts.RdnRefused text other → kind ≡ other }
    ensures names { (text : List ℕ) (name : List (List AttributeTypeAndValue)) (kind : ErrorKind) → texts.NameReads text name → texts.NameRefused text kind
        → ⊥ }
    ensures names_once { (text : List ℕ) (kind other : ErrorKind) → texts.NameRefused text kind → texts.NameRefused text other → kind ≡ other }
{}
