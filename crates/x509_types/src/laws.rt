//! The names of types stand in the table.

ghost use Rattle.std.specs.Prelude.{codes, ℕ, List, Result};
ghost use Rattle.x509_codec.specs.declared.profile_name.ProfileName.TheVariants as profiles;
ghost use Rattle.x509_der.specs.Writing.{plain};
ghost use Rattle.x509_der.specs.declared.error.ErrorKind.{ErrorKind};
ghost use Rattle.x509_name.specs.Names.{relative_distinguished_name};
ghost use Rattle.x509_types.specs.Reencoding.{Reencodes};

use crate::reencode::Reencode;
use crate::types::NameTypes;
use x509_base::{Raw, Rfc5280, SerialNumber, Time, Validity};
use x509_codec::Codec;
use x509_der::{Any, ObjectIdentifier};
use x509_name::name::Name;
use x509_prim::Int;

/// What is re-encoded under the name of a type of names and below, and of a profile, is of that type, under that profile.
#[tactic(auto, unfolding(crate::specs::NameAnswers::rdn_answers))]
pub fn name_types_of_names()
    ensures any { (bytes : List ℕ) (answer : Result (List ℕ) ErrorKind) → ⟦<NameTypes as Codec>⟧.reencodes (codes "Any") profiles.Rfc5280 bytes answer
        → ⟦<Any as Reencode>⟧.reencodes bytes answer }
    ensures integer { (bytes : List ℕ) (answer : Result (List ℕ) ErrorKind) → ⟦<NameTypes as Codec>⟧.reencodes (codes "Int") profiles.Rfc5280 bytes answer
        → ⟦<Int as Reencode>⟧.reencodes bytes answer }
    ensures name { (bytes : List ℕ) (answer : Result (List ℕ) ErrorKind) → ⟦<NameTypes as Codec>⟧.reencodes (codes "Name") profiles.Rfc5280 bytes answer
        → ⟦<Name as Reencode>⟧.reencodes bytes answer }
    ensures oid { (bytes : List ℕ) (answer : Result (List ℕ) ErrorKind)
        → ⟦<NameTypes as Codec>⟧.reencodes (codes "ObjectIdentifier") profiles.Rfc5280 bytes answer → ⟦<ObjectIdentifier as Reencode>⟧.reencodes bytes answer }
    ensures rdn { (bytes : List ℕ) (answer : Result (List ℕ) ErrorKind)
        → ⟦<NameTypes as Codec>⟧.reencodes (codes "RelativeDistinguishedName") profiles.Rfc5280 bytes answer
        → Reencodes relative_distinguished_name plain (λ _. ⊥) bytes answer }
    ensures serial { (bytes : List ℕ) (answer : Result (List ℕ) ErrorKind)
        → ⟦<NameTypes as Codec>⟧.reencodes (codes "SerialNumber") profiles.Rfc5280 bytes answer → ⟦<SerialNumber<Rfc5280> as Reencode>⟧.reencodes bytes answer }
    ensures time { (bytes : List ℕ) (answer : Result (List ℕ) ErrorKind) → ⟦<NameTypes as Codec>⟧.reencodes (codes "Time") profiles.Rfc5280 bytes answer
        → ⟦<Time as Reencode>⟧.reencodes bytes answer }
    ensures validity { (bytes : List ℕ) (answer : Result (List ℕ) ErrorKind) → ⟦<NameTypes as Codec>⟧.reencodes (codes "Validity") profiles.Rfc5280 bytes answer
        → ⟦<Validity<Rfc5280> as Reencode>⟧.reencodes bytes answer }
    ensures raw_serial { (bytes : List ℕ) (answer : Result (List ℕ) ErrorKind)
        → ⟦<NameTypes as Codec>⟧.reencodes (codes "SerialNumber") profiles.Raw bytes answer → ⟦<SerialNumber<Raw> as Reencode>⟧.reencodes bytes answer }
    ensures raw_validity { (bytes : List ℕ) (answer : Result (List ℕ) ErrorKind) → ⟦<NameTypes as Codec>⟧.reencodes (codes "Validity") profiles.Raw bytes answer
        → ⟦<Validity<Raw> as Reencode>⟧.reencodes bytes answer }
{}
