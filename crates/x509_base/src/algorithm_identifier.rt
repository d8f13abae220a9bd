//! Algorithms with their parameters.

use std::alloc::Global;
use std::cmp::Ordering;
use x509_der::{
    Any, Content, DerOrd, EncodingOrd, Error, ObjectIdentifier, PutPart, Room, SetMember, SetOrd,
    Spelled, Tag, TryClone, ValueOrd, cmp_optional, end, option_has_spelling, optional, read_field,
    read_optional,
};

/// An algorithm, by its OID, and the parameters with which it is used (RFC 5280 4.1.1.2).
///
/// ```text
/// AlgorithmIdentifier ::= SEQUENCE {
///     algorithm   OBJECT IDENTIFIER,
///     parameters  ANY DEFINED BY algorithm OPTIONAL }
/// ```
#[derive(Debug, PartialEq, Eq)]
pub struct AlgorithmIdentifier {
    /// The OID of the algorithm.
    pub oid: ObjectIdentifier,

    /// The parameters: one element of any type. What it has to be, or whether it is absent, is for the algorithm to
    /// say; that isn't checked here. RSA keys and signatures have a NULL (RFC 3279 2.3.1, 2.2.1), which [`Any::null`]
    /// makes; elliptic curve keys have the name of the curve, Ed25519 has none.
    pub parameters: Option<Any>,
}

impl Drop for AlgorithmIdentifier {
    fn drop(self) {
        let AlgorithmIdentifier {
            oid: _,
            parameters: _,
        } = self;
    }
}

#[tactic(auto, unfolding(crate::specs::AlgorithmIdentifier::algorithm_identifier_fields, x509_der::specs::Frames::fields_reading, x509_der::specs::Frames::fields_octets))]
impl Content for AlgorithmIdentifier {
    ghost use Rattle.x509_der.specs.declared.tag.Tag.TheVariants.{Sequence};
    ghost use Rattle.x509_base.specs.AlgorithmIdentifier as grammar;

    ghost contents = { grammar.algorithm_identifier_contents };

    ghost IDENTIFIER = { Sequence };

    const IDENTIFIER: Tag = Tag::Sequence;

    #[inline(always)]
    fn read_content(alloc: Global, octets: &[u8]) -> Result<AlgorithmIdentifier, Error> {
        let mut rest = octets;
        let oid = read_field::<ObjectIdentifier>(alloc, &mut rest)?;
        let parameters = read_optional::<Any>(alloc, &mut rest)?;
        end(rest)?;
        Ok(AlgorithmIdentifier { oid, parameters })
    }

    fn write_content<R: Room>(&self, room: &mut R) -> Result<(), Error> {
        let parts = (&self.oid, optional(&self.parameters));
        parts.put_part(room)
    }

    ghost contents_lawful = { grammar.algorithm_identifier_contents_lawful };
}

impl ValueOrd for AlgorithmIdentifier {
    ghost use Rattle.x509_base.specs.AlgorithmIdentifier as grammar;

    ghost order = { grammar.algorithm_identifier_order };

    fn value_cmp(&self, other: &AlgorithmIdentifier) -> Ordering {
        self.oid
            .der_cmp(&other.oid)
            .then(cmp_optional(&self.parameters, &other.parameters))
    }

    ghost ordered = { grammar.algorithm_identifier_ordered };
}

impl SetOrd for AlgorithmIdentifier {
    ghost set_order = { ⟦<AlgorithmIdentifier as EncodingOrd>⟧.encoding_order };
}

impl SetMember for AlgorithmIdentifier {
    ghost use Rattle.std.specs.Prelude.{refl};

    ghost in_der_order = { refl };
}

#[tactic(auto, unfolding(crate::specs::AlgorithmIdentifier::algorithm_identifier_fields, x509_der::specs::Frames::fields_good))]
impl Spelled for AlgorithmIdentifier {
    fn has_spelling(&self) {
        self.oid.has_spelling();
        option_has_spelling(&self.parameters);
    }
}

impl TryClone for AlgorithmIdentifier {
    fn try_clone(&self, alloc: Global) -> Result<AlgorithmIdentifier, Error> {
        Ok(AlgorithmIdentifier {
            oid: self.oid,
            parameters: self.parameters.try_clone(alloc)?,
        })
    }
}
