//! What holds of all elements, spellings, tags, fields, byte orders, OIDs, lists and sets. A spelling is the encoding of a
//! value, and a value is respelled where its encoding is that of another value, as a profile wants it for dates
//! (`docs/MAP.md` has these words). Each law is a function without work, whose contract is the law.

ghost use Rattle.std.specs.Cmp.{IsTotalOrder};
ghost use Rattle.std.specs.List.{All};
ghost use Rattle.std.specs.List.Sorted.{IsStrictlySortedBy, IsPermutation};
ghost use Rattle.std.specs.Prelude.{◌≡◌, ◌↔◌, ◌++◌, List, ℕ, true, None, Option, IfSome, map};
ghost use Rattle.std.specs.declared.cmp.Ordering.TheVariants.{Equal};
ghost use Rattle.x509_der.specs.Arcs.{AreArcs, content_of, dotted};
ghost use Rattle.x509_der.specs.Element.{element, limit};
ghost use Rattle.x509_der.specs.Exact.{IsExact};
ghost use Rattle.x509_der.specs.Form.{spelling, Spells};
ghost use Rattle.x509_der.specs.Frames.{optional_octets, IsClearOf};
ghost use Rattle.x509_der.specs.ObjectIdentifier.{arcs_of, is_object_identifier};
ghost use Rattle.x509_der.specs.Order.{bytes_cmp, der_order, HasEncoding};
ghost use Rattle.x509_der.specs.Tag.{octet_of};
ghost use Rattle.x509_der.specs.Writing.{IsStable, IsWritable, RespellsAlike, plain, writes, written_spelling};
ghost use Rattle.x509_der.specs.declared.any.Any.{Any};
ghost use Rattle.x509_der.specs.declared.element.AnyRef.{AnyRef};
ghost use Rattle.x509_der.specs.declared.error.Error.{Error};
ghost use Rattle.x509_der.specs.declared.error.ErrorKind.{ErrorKind};
ghost use Rattle.x509_der.specs.declared.header.Header.{Header};
ghost use Rattle.x509_der.specs.declared.length.Length.{Length};
ghost use Rattle.x509_der.specs.declared.tag.Tag.{Tag};
ghost use Rattle.x509_der.specs.declared.tag.number.TagNumber.{TagNumber};

use crate::any::Any;
use crate::element::AnyRef;
use crate::error::{Error, ErrorKind};
use crate::header::Header;
use crate::length::Length;
use crate::list::SequenceOf;
use crate::oid::identifier::ObjectIdentifier;
use crate::order::ValueOrd;
use crate::set::SetOfVec;
use crate::spelled::Spelled;
use crate::tag::{Tag, TagNumber};
use crate::{Decode, DerOrd, Encode, Grammar, SetMember};

/// No two tags share an identifier octet.
pub fn one_tag()
    ensures { (s t : Tag) → octet_of s ≡ octet_of t → s ≡ t }
{}

/// No element begins another: bytes that begin with two elements begin with one, and the same follows it.
pub fn no_element_begins_another()
    ensures { (s t : ℕ) (c d x y : List ℕ) → element s c ++ x ≡ element t d ++ y → (s ≡ t) × (c ≡ d) × (x ≡ y) }
{}

/// `==` holds exactly of equal values, and of borrowed elements exactly where identifier and content octets are equal.
#[tactic(auto, using(crate::specs::TagEquality::exact_tag, crate::specs::TagEquality::exact_tag_number, crate::specs::TagEquality::exact_length, crate::specs::TagEquality::exact_header, crate::specs::TagEquality::any_refs_decide, crate::specs::TagEquality::exact_error_kind, crate::specs::TagEquality::exact_error))]
pub fn equality_of_elements_is_exact<'a>()
    ensures numbers { (a b : TagNumber) → (⟦<TagNumber as PartialEq>⟧.eq a b ≡ true) ↔ (a ≡ b) }
    ensures tags { (a b : Tag) → (⟦<Tag as PartialEq>⟧.eq a b ≡ true) ↔ (a ≡ b) }
    ensures lengths { (a b : Length) → (⟦<Length as PartialEq>⟧.eq a b ≡ true) ↔ (a ≡ b) }
    ensures headers { (a b : Header) → (⟦<Header as PartialEq>⟧.eq a b ≡ true) ↔ (a ≡ b) }
    ensures elements { (a b : AnyRef) → (⟦<AnyRef<'a> as PartialEq>⟧.eq a b ≡ true) ↔ ((a.tag ≡ b.tag) × (a.value.now ≡ b.value.now)) }
    ensures kinds { (a b : ErrorKind) → (⟦<ErrorKind as PartialEq>⟧.eq a b ≡ true) ↔ (a ≡ b) }
    ensures errors { (a b : Error) → (⟦<Error as PartialEq>⟧.eq a b ≡ true) ↔ (a ≡ b) }
{}

/// No spelling begins another, whatever their types.
pub fn no_spelling_begins_another<T: Grammar, U: Grammar>()
    ensures { (v : T) (w : U) (x y : List ℕ) → spelling T.form v ++ x ≡ spelling U.form w ++ y → (spelling T.form v ≡ spelling U.form w) × (x ≡ y) }
{}

/// A value has no two spellings.
pub fn one_spelling<T: Grammar>()
    ensures { (v : T) (b c : List ℕ) → Spells T.form v b → Spells T.form v c → b ≡ c }
{}

/// No two values share a spelling.
pub fn one_value<T: Grammar>()
    ensures { (v w : T) (b : List ℕ) → Spells T.form v b → Spells T.form w b → v ≡ w }
{}

/// Decoding what was encoded and encoding it again gives the same bytes, where what is encoded is encoded again as it
/// is.
pub fn writing_again_gives_the_same<T: Encode>()
    ensures { IsStable T.form.good T.writing → (v w : T) → T.form.good v → (writes T.writing v).refusal ≡ None
        → Spells T.form w (written_spelling T.form (writes T.writing v)) → ((writes T.writing w).refusal ≡ None)
        × (written_spelling T.form (writes T.writing w) ≡ written_spelling T.form (writes T.writing v)) }
{}

/// Where what is encoded of a type's values is encoded again as it is, of two values with the same encoding the same
/// value is spelled.
pub fn what_is_written_alike_is_respelled_alike<T: Encode>()
    ensures { IsStable T.form.good T.writing → RespellsAlike T.form T.form.good T.writing }
{}

/// Where what is encoded of a type's values is encoded again as it is, the encoding of a value decodes to the value
/// that is spelled.
pub fn what_was_written_reads_as_respelled<T: Encode>()
    ensures { IsStable T.form.good T.writing → (v : T) → T.form.good v → IsWritable T.form (writes T.writing v) limit
        → Spells T.form (writes T.writing v).value (written_spelling T.form (writes T.writing v)) }
{}

/// What is encoded of a type whose values are encoded as they are is encoded again as it is: the premise of the laws
/// above.
pub fn plain_writing_is_stable<T: Encode>()
    ensures { T.writing ≡ plain → IsStable T.form.good T.writing }
{}

/// The encoding of a value that a program made decodes to the value that is spelled, where what is encoded of the
/// type's values is encoded again as it is: an authority that issues what it made issues what it meant.
pub fn what_is_written_of_a_value_is_read_as_meant<T: Encode + Spelled>(value: &T)
    ensures { IsStable T.form.good T.writing → T.premise value.now → IsWritable T.form (writes T.writing value.now) limit
        → Spells T.form (writes T.writing value.now).value (written_spelling T.form (writes T.writing value.now)) }
{
    value.has_spelling();
}

/// For values with an encoding `der_cmp` is the byte order of the encodings.
pub fn encodings_in_order<T: ValueOrd>()
    ensures { (v w : T) (a b : List ℕ) → Spells T.form v a → Spells T.form w b → writes T.writing v ≡ writes plain v → writes T.writing w ≡ writes plain w
        → der_order T.form (writes T.writing) T.order v w ≡ bytes_cmp a b }
{}

/// For values with an encoding `value_cmp` is the byte order of the contents.
pub fn contents_in_order<T: ValueOrd>()
    ensures { (v w : T) (a b : List ℕ) → Spells T.form v a → Spells T.form w b → writes T.writing v ≡ writes plain v → writes T.writing w ≡ writes plain w
        → T.order v w ≡ bytes_cmp (T.form.content v) (T.form.content w) }
{}

/// `der_cmp` and `value_cmp` are total orders, also of values that can't be encoded.
pub fn orders_are_total<T: ValueOrd>()
    ensures encodings { IsTotalOrder (der_order T.form (writes T.writing) T.order) }
    ensures contents { IsTotalOrder T.order }
{}

/// `der_cmp` answers `Equal` only for equal values, and so does `value_cmp` for values of one identifier.
pub fn equal_values_alone_are_equal<T: ValueOrd>()
    ensures encodings { (v w : T) → der_order T.form (writes T.writing) T.order v w ≡ Equal → v ≡ w }
    ensures contents { (v w : T) → T.form.tag v ≡ T.form.tag w → T.order v w ≡ Equal → v ≡ w }
{}

/// The next identifier octet decides whether an optional field is there (X.690 8.9.3): where what follows doesn't begin
/// as the field may, bytes are those of one value of the field, or of none, and of one rest.
pub fn the_next_octet_decides_an_optional_field<T: Grammar>()
    ensures { (v w : Option T) (x y : List ℕ) → IfSome v T.form.good → IfSome w T.form.good → IsClearOf T.form.starts x → IsClearOf T.form.starts y
        → optional_octets (spelling T.form) v ++ x ≡ optional_octets (spelling T.form) w ++ y → (v ≡ w) × (x ≡ y) }
{}

/// `==` of elements that aren't decoded further holds exactly of equal values.
#[tactic(auto, using(crate::specs::Equality::exact_any))]
pub fn equality_of_any_is_exact()
    ensures { (a b : Any) → (⟦<Any as PartialEq>⟧.eq a b ≡ true) ↔ (a ≡ b) }
{}

/// `==` of lists holds exactly of equal values where that of the members does.
pub fn equality_of_lists_is_exact<T: PartialEq>()
    ensures { IsExact T.eq → (a b : List T) → (⟦<SequenceOf<T> as PartialEq>⟧.eq a b ≡ true) ↔ (a ≡ b) }
{}

/// Where what is encoded of the members is encoded again as it is, so is what is encoded of a list of them.
pub fn lists_are_written_once<T: Decode + Encode + Drop>()
    ensures { IsStable T.form.good T.writing → IsStable ⟦<SequenceOf<T> as Grammar>⟧.form.good ⟦<SequenceOf<T> as Encode>⟧.writing }
{}

/// Content octets of an OID are those of one list of arcs.
pub fn one_content()
    ensures { (xs ys : List ℕ) → AreArcs xs → AreArcs ys → content_of xs ≡ content_of ys → xs ≡ ys }
{}

/// A dotted text is that of one list of arcs.
pub fn one_text()
    ensures { (xs ys : List ℕ) → AreArcs xs → AreArcs ys → dotted xs ≡ dotted ys → xs ≡ ys }
{}

/// The test of content octets passes exactly those of arcs.
pub fn tested_contents()
    ensures { (content : List ℕ) → (is_object_identifier content ≡ true)
        ↔ ((arcs : List ℕ) × AreArcs arcs × (content ≡ content_of arcs)) }
{}

/// The arcs of content octets are the arcs that have them.
pub fn arcs_of_contents()
    ensures content { (content : List ℕ) → is_object_identifier content ≡ true
        → AreArcs (arcs_of content) × (content_of (arcs_of content) ≡ content) }
    ensures arcs { (arcs : List ℕ) → AreArcs arcs → arcs_of (content_of arcs) ≡ arcs }
{}

/// Sets of the same members are equal, in whatever order the members were inserted.
pub fn members_make_the_set<T: DerOrd>()
    ensures { (a b : List T) → IsStrictlySortedBy (der_order T.form (writes T.writing) T.order) a
        → IsStrictlySortedBy (der_order T.form (writes T.writing) T.order) b → IsPermutation a b → a ≡ b }
{}

/// A set of members with encodings is a DER SET OF: each of its members' encodings is below the next (X.690 11.6).
pub fn encodings_rise<T: DerOrd>()
    ensures { (members : List T) → IsStrictlySortedBy (der_order T.form (writes T.writing) T.order) members
        → All (HasEncoding T.form (writes T.writing)) members → IsStrictlySortedBy bytes_cmp (map (spelling T.form) members) }
{}

/// `==` of OIDs holds exactly of equal content octets.
#[tactic(auto, using(crate::specs::Exact::exact_octets))]
pub fn equality_of_identifiers_is_exact()
    ensures { (a b : List ℕ) → (⟦<ObjectIdentifier as PartialEq>⟧.eq a b ≡ true) ↔ (a ≡ b) }
{}

/// `==` of sets holds exactly of equal values where that of the members does.
pub fn equality_of_sets_is_exact<T: SetMember + PartialEq>()
    ensures { IsExact T.PartialEq.eq → (a b : List T) → (⟦<SetOfVec<T> as PartialEq>⟧.eq a b ≡ true) ↔ (a ≡ b) }
{}
