//! What holds of signed certificate timestamps. Each law is a function with an empty body, whose contract is the law.

ghost use Rattle.std.specs.Prelude.{◌≡◌, ◌↔◌, List, [], ◌∷◌, ℕ, true};
ghost use Rattle.x509_der.specs.Arcs.{content_of};
ghost use Rattle.x509_der.specs.Form.{Spells as IsDer, spelling};
ghost use Rattle.x509_sct.specs.Identifier.{embedded_timestamps, precertificate_poison};
ghost use Rattle.x509_sct.specs.SignedInput.{entry_of, signed_input, signed_of};
ghost use Rattle.x509_sct.specs.Timestamp.{timestamp};
ghost use Rattle.x509_sct.specs.TimestampList.{IsTimestampList};
ghost use Rattle.x509_sct.specs.declared.entry.SignatureType.{SignatureType};
ghost use Rattle.x509_sct.specs.declared.entry.SignedEntry.{SignedEntry};
ghost use Rattle.x509_sct.specs.declared.error.Error.{Error};
ghost use Rattle.x509_sct.specs.declared.list.SignedCertificateTimestampList.{SignedCertificateTimestampList};
ghost use Rattle.x509_sct.specs.declared.serialized.SerializedSct.{SerializedSct};
ghost use Rattle.x509_sct.specs.declared.signed.DigitallySigned.{DigitallySigned};
ghost use Rattle.x509_sct.specs.declared.signed.HashAlgorithm.{HashAlgorithm};
ghost use Rattle.x509_sct.specs.declared.signed.SignatureAlgorithm.{SignatureAlgorithm};
ghost use Rattle.x509_sct.specs.declared.signed.SignatureAndHashAlgorithm.{SignatureAndHashAlgorithm};
ghost use Rattle.x509_sct.specs.declared.timestamp.LogId.{LogId};
ghost use Rattle.x509_sct.specs.declared.timestamp.SignedCertificateTimestamp.{SignedCertificateTimestamp};
ghost use Rattle.x509_sct.specs.declared.timestamp.Version.{Version};
ghost use Rattle.x509_sct.specs.Form.{Spells};

use crate::entry::SignatureType;
use crate::error::Error;
use crate::list::SignedCertificateTimestampList;
use crate::serialized::SerializedSct;
use crate::signed::{
    DigitallySigned, HashAlgorithm, SignatureAlgorithm, SignatureAndHashAlgorithm,
};
use crate::timestamp::{LogId, SignedCertificateTimestamp, Version};
pub use crate::tls::laws as tls;
use x509_der::Grammar;

/// The OID of the list is 1.3.6.1.4.1.11129.2.4.2 (RFC 6962 section 3.3).
#[tactic(auto, unfolding(x509_der::specs::Arcs::subidentifier))]
pub fn identifier_of_embedded_timestamps()
    ensures { embedded_timestamps ≡ content_of (1 ∷ 3 ∷ 6 ∷ 1 ∷ 4 ∷ 1 ∷ 11129 ∷ 2 ∷ 4 ∷ 2 ∷ []) }
{}

/// The OID of the poison extension is 1.3.6.1.4.1.11129.2.4.3 (RFC 6962 section 3.1).
#[tactic(auto, unfolding(x509_der::specs::Arcs::subidentifier))]
pub fn identifier_of_the_poison()
    ensures { precertificate_poison ≡ content_of (1 ∷ 3 ∷ 6 ∷ 1 ∷ 4 ∷ 1 ∷ 11129 ∷ 2 ∷ 4 ∷ 3 ∷ []) }
{}

/// What is made of timestamps is read as them. A list of timestamps is written, as it is never too long, and its octets are
/// those of no other list, so [`parse_timestamps`](SignedCertificateTimestampList::parse_timestamps) finds the very ones of
/// which [`new`](SignedCertificateTimestampList::new) made it. No two timestamps have the same bytes.
pub fn timestamps_are_read_as_meant()
    ensures written { (list : SignedCertificateTimestampList) (made : List SerializedSct) → IsTimestampList made list.0
        → IsDer ⟦<SignedCertificateTimestampList as Grammar>⟧.form list (spelling ⟦<SignedCertificateTimestampList as Grammar>⟧.form list) }
    ensures parsed { (list : SignedCertificateTimestampList) (made found : List SerializedSct) → IsTimestampList made list.0 → IsTimestampList found list.0
        → found ≡ made }
    ensures timestamp { (made found : SignedCertificateTimestamp) (bytes : List ℕ) → Spells timestamp made bytes → Spells timestamp found bytes → found ≡ made }
{
    crate::tls::laws::one_list::<SerializedSct>();
}

/// The bytes that a log's signature is over tell the version, the time, the entry and the extensions.
pub fn signed_input_tells_what_is_signed()
    ensures { (made found : SignedCertificateTimestamp) (entry other : SignedEntry) (bytes : List ℕ) → Spells signed_input (signed_of made entry) bytes
        → Spells signed_input (signed_of found other) bytes → (found.version ≡ made.version) × (found.timestamp ≡ made.timestamp)
        × (entry_of other ≡ entry_of entry) × (found.extensions ≡ made.extensions) }
{}

/// `==` of timestamps and of what stands in them holds exactly of equal values: of lists and of serialized timestamps, where
/// they have the same octets.
#[tactic(auto, using(crate::specs::Equality::exact_hash_algorithm, crate::specs::Equality::exact_signature_algorithm, crate::specs::Equality::exact_signature_and_hash_algorithm, crate::specs::Equality::exact_digitally_signed, crate::specs::Equality::exact_version, crate::specs::Equality::exact_signature_type, crate::specs::Equality::exact_log_id, crate::specs::Equality::exact_signed_certificate_timestamp, crate::specs::Equality::exact_serialized_sct, crate::specs::Equality::exact_signed_certificate_timestamp_list, crate::specs::Equality::exact_timestamp_error))]
pub fn equality_of_timestamps_is_exact()
    ensures hashes { (a b : HashAlgorithm) → (⟦<HashAlgorithm as PartialEq>⟧.eq a b ≡ true) ↔ (a ≡ b) }
    ensures signature_algorithms { (a b : SignatureAlgorithm) → (⟦<SignatureAlgorithm as PartialEq>⟧.eq a b ≡ true) ↔ (a ≡ b) }
    ensures algorithms { (a b : SignatureAndHashAlgorithm) → (⟦<SignatureAndHashAlgorithm as PartialEq>⟧.eq a b ≡ true) ↔ (a ≡ b) }
    ensures signatures { (a b : DigitallySigned) → (⟦<DigitallySigned as PartialEq>⟧.eq a b ≡ true) ↔ (a ≡ b) }
    ensures versions { (a b : Version) → (⟦<Version as PartialEq>⟧.eq a b ≡ true) ↔ (a ≡ b) }
    ensures signature_types { (a b : SignatureType) → (⟦<SignatureType as PartialEq>⟧.eq a b ≡ true) ↔ (a ≡ b) }
    ensures logs { (a b : LogId) → (⟦<LogId as PartialEq>⟧.eq a b ≡ true) ↔ (a ≡ b) }
    ensures timestamps { (a b : SignedCertificateTimestamp) → (⟦<SignedCertificateTimestamp as PartialEq>⟧.eq a b ≡ true) ↔ (a ≡ b) }
    ensures serialized { (a b : SerializedSct) → (⟦<SerializedSct as PartialEq>⟧.eq a b ≡ true) ↔ (a ≡ b) }
    ensures lists { (a b : SignedCertificateTimestampList) → (⟦<SignedCertificateTimestampList as PartialEq>⟧.eq a b ≡ true) ↔ (a ≡ b) }
    ensures errors { (a b : Error) → (⟦<Error as PartialEq>⟧.eq a b ≡ true) ↔ (a ≡ b) }
{}
