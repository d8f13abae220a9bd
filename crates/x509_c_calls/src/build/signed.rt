//! What is signed, with its signature.

use std::alloc::Global;
use x509_base::AlgorithmIdentifier;
use x509_der::{Any, Content, Error, PutPart, Room, Tag, end, read_field};
use x509_prim::BitString;

/// A signed part, whatever it is, with an algorithm and a signature: what a certificate, a CRL and a CSR are (RFC 5280
/// 4.1, 5.1, RFC 2986 4.2).
///
/// ```text
/// Signed ::= SEQUENCE {
///     part       ANY,
///     algorithm  AlgorithmIdentifier,
///     signature  BIT STRING }
/// ```
pub(crate) struct Signed {
    pub(crate) part: Any,
    pub(crate) algorithm: AlgorithmIdentifier,
    pub(crate) signature: BitString,
}

impl Drop for Signed {
    fn drop(self) {
        let Signed {
            part: _,
            algorithm: _,
            signature: _,
        } = self;
    }
}

#[tactic(auto, unfolding(crate::specs::BuildSigned::signed_fields, x509_der::specs::Frames::fields_reading, x509_der::specs::Frames::fields_octets))]
impl Content for Signed {
    ghost use Rattle.x509_c_calls.specs.BuildSigned as grammar;
    ghost use Rattle.x509_der.specs.declared.tag.Tag.TheVariants.{Sequence};

    ghost contents = { grammar.signed_contents };

    ghost IDENTIFIER = { Sequence };

    const IDENTIFIER: Tag = Tag::Sequence;

    fn read_content(alloc: Global, octets: &[u8]) -> Result<Signed, Error> {
        let mut rest = octets;
        let part = read_field::<Any>(alloc, &mut rest)?;
        let algorithm = read_field::<AlgorithmIdentifier>(alloc, &mut rest)?;
        let signature = read_field::<BitString>(alloc, &mut rest)?;
        end(rest)?;
        Ok(Signed {
            part,
            algorithm,
            signature,
        })
    }

    fn write_content<R: Room>(&self, room: &mut R) -> Result<(), Error> {
        let parts = (&self.part, (&self.algorithm, &self.signature));
        parts.put_part(room)
    }

    ghost contents_lawful = { grammar.signed_contents_lawful };
}
