//! Public keys with their algorithms.

ghost use Rattle.std.specs.Prelude.{◌≡◌};

use crate::algorithm_identifier::AlgorithmIdentifier;
use crate::subject_public_key_info_ref::SubjectPublicKeyInfoRef;
use std::alloc::Global;
use std::cmp::Ordering;
use x509_der::{
    Content, DerOrd, EncodingOrd, Error, PutPart, Room, SetMember, SetOrd, Spelled, Tag, TryClone,
    ValueOrd, end, read_field,
};
use x509_prim::BitString;

/// A public key, and the algorithm with which it is used (RFC 5280 4.1.2.7).
///
/// ```text
/// SubjectPublicKeyInfo ::= SEQUENCE {
///     algorithm         AlgorithmIdentifier,
///     subjectPublicKey  BIT STRING }
/// ```
#[derive(Debug, PartialEq, Eq)]
pub struct SubjectPublicKeyInfo {
    /// The algorithm of the key.
    pub algorithm: AlgorithmIdentifier,

    /// The bits of the key, in the format of its algorithm; they aren't decoded here.
    pub subject_public_key: BitString,
}

impl SubjectPublicKeyInfo {
    /// The algorithm and the key, borrowed.
    pub fn owned_to_ref(&self) -> SubjectPublicKeyInfoRef<'_>
        ensures algorithm { result.algorithm.now ≡ self.now.algorithm }
        ensures key { result.subject_public_key.now ≡ self.now.subject_public_key }
    {
        SubjectPublicKeyInfoRef {
            algorithm: &self.algorithm,
            subject_public_key: &self.subject_public_key,
        }
    }
}

impl Drop for SubjectPublicKeyInfo {
    fn drop(self) {
        let SubjectPublicKeyInfo {
            algorithm: _,
            subject_public_key: _,
        } = self;
    }
}

#[tactic(auto, unfolding(crate::specs::SubjectPublicKeyInfo::subject_public_key_info_fields, x509_der::specs::Frames::fields_reading, x509_der::specs::Frames::fields_octets))]
impl Content for SubjectPublicKeyInfo {
    ghost use Rattle.x509_der.specs.declared.tag.Tag.TheVariants.{Sequence};
    ghost use Rattle.x509_base.specs.SubjectPublicKeyInfo as grammar;

    ghost contents = { grammar.subject_public_key_info_contents };

    ghost IDENTIFIER = { Sequence };

    const IDENTIFIER: Tag = Tag::Sequence;

    fn read_content(alloc: Global, octets: &[u8]) -> Result<SubjectPublicKeyInfo, Error> {
        let mut rest = octets;
        let algorithm = read_field::<AlgorithmIdentifier>(alloc, &mut rest)?;
        let subject_public_key = read_field::<BitString>(alloc, &mut rest)?;
        end(rest)?;
        Ok(SubjectPublicKeyInfo {
            algorithm,
            subject_public_key,
        })
    }

    fn write_content<R: Room>(&self, room: &mut R) -> Result<(), Error> {
        let parts = (&self.algorithm, &self.subject_public_key);
        parts.put_part(room)
    }

    ghost contents_lawful = { grammar.subject_public_key_info_contents_lawful };
}

impl ValueOrd for SubjectPublicKeyInfo {
    ghost use Rattle.x509_base.specs.SubjectPublicKeyInfo as grammar;

    ghost order = { grammar.subject_public_key_info_order };

    fn value_cmp(&self, other: &SubjectPublicKeyInfo) -> Ordering {
        self.algorithm
            .der_cmp(&other.algorithm)
            .then(self.subject_public_key.der_cmp(&other.subject_public_key))
    }

    ghost ordered = { grammar.subject_public_key_info_ordered };
}

impl SetOrd for SubjectPublicKeyInfo {
    ghost set_order = { ⟦<SubjectPublicKeyInfo as EncodingOrd>⟧.encoding_order };
}

impl SetMember for SubjectPublicKeyInfo {
    ghost use Rattle.std.specs.Prelude.{refl};

    ghost in_der_order = { refl };
}

#[tactic(auto, unfolding(crate::specs::SubjectPublicKeyInfo::subject_public_key_info_fields, x509_der::specs::Frames::fields_good))]
impl Spelled for SubjectPublicKeyInfo {
    fn has_spelling(&self) {
        self.algorithm.has_spelling();
        self.subject_public_key.has_spelling();
    }
}

impl TryClone for SubjectPublicKeyInfo {
    fn try_clone(&self, alloc: Global) -> Result<SubjectPublicKeyInfo, Error> {
        Ok(SubjectPublicKeyInfo {
            algorithm: self.algorithm.try_clone(alloc)?,
            subject_public_key: self.subject_public_key.try_clone(alloc)?,
        })
    }
}
