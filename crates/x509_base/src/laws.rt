//! What holds of times, what is encoded of dates, and which serial numbers, algorithms and keys are equal. Each law is
//! a function with an empty body, whose contract is the law.

ghost use Rattle.std.specs.Ordering.{nat_cmp};
ghost use Rattle.std.specs.Prelude.{◌≡◌, ◌↔◌, Ok, None, true, List, ℕ};
ghost use Rattle.std.specs.declared.cmp.Ordering.TheVariants.{Equal};
ghost use Rattle.x509_base.specs.CivilTime.{CivilTime, IsDateTime, unix_seconds};
ghost use Rattle.x509_base.specs.Profiles.{rfc5280_time};
ghost use Rattle.x509_base.specs.Serial.{serial_number};
ghost use Rattle.x509_base.specs.Time.{time};
ghost use Rattle.x509_base.specs.Validity.{validity};
ghost use Rattle.x509_base.specs.declared.algorithm_identifier.AlgorithmIdentifier.{AlgorithmIdentifier};
ghost use Rattle.x509_base.specs.declared.profile.Raw as raw;
ghost use Rattle.x509_base.specs.declared.profile.Rfc5280 as rfc5280;
ghost use Rattle.x509_base.specs.declared.subject_public_key_info.SubjectPublicKeyInfo.{SubjectPublicKeyInfo};
ghost use Rattle.x509_base.specs.declared.subject_public_key_info_ref.SubjectPublicKeyInfoRef.{SubjectPublicKeyInfoRef};
ghost use Rattle.x509_base.specs.declared.time.Time.{Time};
ghost use Rattle.x509_base.specs.declared.validity.Validity.{Validity};
ghost use Rattle.x509_der.specs.Form.{Spells};
ghost use Rattle.x509_der.specs.Order.{bytes_cmp};
ghost use Rattle.x509_der.specs.Writing.{IsStable, writes};

use crate::Profile;
use crate::algorithm_identifier::AlgorithmIdentifier;
use crate::date_time::DateTime;
use crate::generalized_time::GeneralizedTime;
use crate::profile::{Raw, Rfc5280};
use crate::serial_number::SerialNumber;
use crate::subject_public_key_info::SubjectPublicKeyInfo;
use crate::subject_public_key_info_ref::SubjectPublicKeyInfoRef;
use crate::time::Time;
use crate::utc_time::UtcTime;
use crate::validity::Validity;
use std::hash::Hash;
use x509_der::Encode;
use x509_der::laws::encodings_in_order;

/// [`Ord`] of date-times and of times is the order of time.
pub fn date_times_are_in_order_of_time()
    ensures date_times { (c d : CivilTime) → IsDateTime c → IsDateTime d
        → ⟦<DateTime as Ord>⟧.cmp c d ≡ nat_cmp (unix_seconds c) (unix_seconds d) }
    ensures utc_times { (c d : CivilTime) → IsDateTime c → IsDateTime d
        → ⟦<UtcTime as Ord>⟧.cmp c d ≡ nat_cmp (unix_seconds c) (unix_seconds d) }
    ensures generalized_times { (c d : CivilTime) → IsDateTime c → IsDateTime d
        → ⟦<GeneralizedTime as Ord>⟧.cmp c d ≡ nat_cmp (unix_seconds c) (unix_seconds d) }
{}

/// Under [`Raw`] a validity is encoded as it is.
pub fn raw_dates_stay()
    ensures { (v : Validity raw.Raw) → writes ⟦<Validity<Raw> as Encode>⟧.writing v ≡ record { value = v; refusal = None } }
{}

/// Under [`Rfc5280`] each of the two dates is encoded as UTCTime through 2049 and else as it is; none is refused.
pub fn rfc5280_dates()
    ensures { (v : Validity rfc5280.Rfc5280) → writes ⟦<Validity<Rfc5280> as Encode>⟧.writing v
        ≡ record { value = record { not_before = rfc5280_time v.not_before; not_after = rfc5280_time v.not_after; profile = v.profile }; refusal = None } }
{}

/// Where a profile spells a date that it has spelled as it is, what is encoded of a validity is encoded again as it is.
pub fn dates_are_written_once<P: Profile>()
    ensures { ((t u : Time) → time.good t → P.time_of t ≡ Ok u → time.good u × (P.time_of u ≡ Ok u))
        → IsStable validity.good ⟦<Validity<P> as Encode>⟧.writing }
{}

/// Under [`Rfc5280`] what is encoded of a validity is encoded again as it is: decoding and encoding twice gives the
/// bytes of once.
pub fn rfc5280_dates_are_written_once()
    ensures { IsStable validity.good ⟦<Validity<Rfc5280> as Encode>⟧.writing }
{}

/// So it is under [`Raw`], which spells each date as it is.
pub fn raw_dates_are_written_once()
    ensures { IsStable validity.good ⟦<Validity<Raw> as Encode>⟧.writing }
{}

/// `==` holds exactly of equal values: a time in the one spelling is not the same in the other.
#[tactic(auto, using(crate::specs::TimeEquality::exact_date_time, crate::specs::TimeEquality::exact_time, crate::specs::TimeEquality::exact_validity))]
pub fn equality_is_exact<P: Profile>()
    ensures date_times { (a b : CivilTime) → (⟦<DateTime as PartialEq>⟧.eq a b ≡ true) ↔ (a ≡ b) }
    ensures utc_times { (a b : CivilTime) → (⟦<UtcTime as PartialEq>⟧.eq a b ≡ true) ↔ (a ≡ b) }
    ensures generalized_times { (a b : CivilTime) → (⟦<GeneralizedTime as PartialEq>⟧.eq a b ≡ true) ↔ (a ≡ b) }
    ensures times { (a b : Time) → (⟦<Time as PartialEq>⟧.eq a b ≡ true) ↔ (a ≡ b) }
    ensures validities { (a b : Validity P) → (⟦<Validity<P> as PartialEq>⟧.eq a b ≡ true) ↔ (a ≡ b) }
{}

/// `==` of serial numbers holds exactly of equal contents.
#[tactic(auto, using(x509_der::specs::Exact::exact_octets))]
pub fn equality_of_serial_numbers_is_exact<P: Profile>()
    ensures { (a b : List ℕ) → (⟦<SerialNumber<P> as PartialEq>⟧.eq a b ≡ true) ↔ (a ≡ b) }
{}

/// Serial numbers that have an encoding are ordered, as keys, by the bytes of their encodings.
pub fn serial_numbers_stand_in_the_order_of_encodings<P: Profile>()
    ensures { (v w a b : List ℕ) → Spells (serial_number P.serial_check) v a → Spells (serial_number P.serial_check) w b
        → ⟦<SerialNumber<P> as Ord>⟧.cmp v w ≡ bytes_cmp a b }
{
    encodings_in_order::<SerialNumber<P>>();
}

/// Serial numbers that are `==` have one hash, and neither is before the other.
pub fn equal_serial_numbers_are_one_key<P: Profile>()
    ensures order { (a b : List ℕ) → (⟦<SerialNumber<P> as PartialEq>⟧.eq a b ≡ true) ↔ (⟦<SerialNumber<P> as Ord>⟧.cmp a b ≡ Equal) }
    ensures hash { (a b : List ℕ) → ⟦<SerialNumber<P> as PartialEq>⟧.eq a b ≡ true
        → ⟦<SerialNumber<P> as Hash>⟧.hash_input a ≡ ⟦<SerialNumber<P> as Hash>⟧.hash_input b }
{}

/// `==` of algorithms and of public keys holds exactly of equal values, and of borrowed keys exactly where algorithm and
/// bits are equal.
#[tactic(auto, using(crate::specs::Equality::exact_algorithm_identifier, crate::specs::Equality::exact_subject_public_key_info, crate::specs::Equality::key_refs_decide))]
pub fn equality_of_keys_is_exact<'a>()
    ensures algorithms { (a b : AlgorithmIdentifier) → (⟦<AlgorithmIdentifier as PartialEq>⟧.eq a b ≡ true) ↔ (a ≡ b) }
    ensures keys { (a b : SubjectPublicKeyInfo) → (⟦<SubjectPublicKeyInfo as PartialEq>⟧.eq a b ≡ true) ↔ (a ≡ b) }
    ensures key_refs { (a b : SubjectPublicKeyInfoRef) → (⟦<SubjectPublicKeyInfoRef<'a> as PartialEq>⟧.eq a b ≡ true)
        ↔ ((a.algorithm.now ≡ b.algorithm.now) × (a.subject_public_key.now ≡ b.subject_public_key.now)) }
{}
