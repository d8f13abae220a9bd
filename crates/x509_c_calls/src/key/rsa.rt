//! The parts of RSA keys.

ghost use Rattle.std.specs.Prelude.{◌≡◌, ◌≤◌, length};
ghost use Rattle.x509_c_calls.specs.Calls.{Reads};
ghost use Rattle.x509_c_calls.specs.RsaKeys.{IsRsaKey};
ghost use Rattle.x509_der.specs.Element.{limit};
ghost use Rattle.x509_text.specs.Algorithms.{bit_count};

use crate::payloads::step_content;
use crate::{Span, Status, enter};
use std::alloc::Global;
use x509_der::{
    Content, Decode, Error, Grammar, PutPart, Room, Spelled, Tag, TryClone, end, read_field,
};
use x509_prim::Uint;
use x509_text::bits_of_octet;

/// An RSA public key (RFC 8017 A.1.1).
///
/// ```text
/// RSAPublicKey ::= SEQUENCE {
///     modulus         INTEGER,
///     publicExponent  INTEGER }
/// ```
#[derive(Debug, Drop, PartialEq, Eq)]
pub struct RsaPublicKey {
    /// The modulus.
    pub modulus: Uint,

    /// The exponent.
    pub public_exponent: Uint,
}

impl TryClone for RsaPublicKey {
    fn try_clone(&self, alloc: Global) -> Result<RsaPublicKey, Error> {
        Ok(RsaPublicKey {
            modulus: self.modulus.try_clone(alloc)?,
            public_exponent: self.public_exponent.try_clone(alloc)?,
        })
    }
}

#[tactic(auto, unfolding(crate::specs::RsaKeys::rsa_public_key_fields, x509_der::specs::Frames::fields_reading, x509_der::specs::Frames::fields_octets))]
impl Content for RsaPublicKey {
    ghost use Rattle.x509_der.specs.declared.tag.Tag.TheVariants.{Sequence};
    ghost use Rattle.x509_c_calls.specs.RsaKeys as grammar;

    ghost contents = { grammar.rsa_public_key_contents };

    ghost IDENTIFIER = { Sequence };

    const IDENTIFIER: Tag = Tag::Sequence;

    fn read_content(alloc: Global, octets: &[u8]) -> Result<RsaPublicKey, Error> {
        let mut rest = octets;
        let modulus = read_field::<Uint>(alloc, &mut rest)?;
        let public_exponent = read_field::<Uint>(alloc, &mut rest)?;
        end(rest)?;
        Ok(RsaPublicKey {
            modulus,
            public_exponent,
        })
    }

    fn write_content<R: Room>(&self, room: &mut R) -> Result<(), Error> {
        let parts = (&self.modulus, &self.public_exponent);
        parts.put_part(room)
    }

    ghost contents_lawful = { grammar.rsa_public_key_contents_lawful };
}

#[tactic(auto, unfolding(crate::specs::RsaKeys::rsa_public_key_fields, x509_der::specs::Frames::fields_good))]
impl Spelled for RsaPublicKey {
    fn has_spelling(&self) {
        self.modulus.has_spelling();
        self.public_exponent.has_spelling();
    }
}

/// The parts of an RSA public key, by their places, and its size.
#[derive(Clone, Copy)]
#[repr(C)]
pub struct RsaKeyView {
    /// Where the content octets of the modulus stand.
    pub modulus: Span,

    /// Where the content octets of the exponent stand.
    pub public_exponent: Span,

    /// How many bits the modulus has.
    pub modulus_bits: u32,
}

/// How many bits a number has, by its octets without leading zeros; the number 0 has none.
fn number_bits(octets: &[u8]) -> u32
    requires { length octets.now ≤ limit }
    ensures { result ≡ bit_count octets.now }
{
    match octets {
        [first, rest @ ..] => u32::from(bits_of_octet(*first)) + 8 * rest.len() as u32,
        [] => 0,
    }
}

/// Reads an RSA public key, and fills in where its parts stand, and how many bits its modulus has.
///
/// # Errors
///
/// As [`Decode::from_der`]: `Overlength` where the bytes are more than 268,435,455, within that length `Malformed` where
/// they are the encoding of no RSA public key. `Memory` when out of memory. The view is unchanged then.
#[tactic(auto, unfolding(crate::specs::Calls::Reads))]
pub fn rsa_key(alloc: Global, input: &[u8], view: &mut RsaKeyView) -> Status
    ensures { Reads ⟦<RsaPublicKey as Grammar>⟧.form ⟦<RsaPublicKey as Grammar>⟧.refuses input.now (λ key. IsRsaKey input.now key view.new)
        (view.new ≡ view.old) result }
{
    match RsaPublicKey::from_der(alloc, input) {
        Ok(key) => {
            let mut at = 0;
            enter(input, &mut at);
            let modulus = step_content(input, &mut at);
            let public_exponent = step_content(input, &mut at);
            *view = RsaKeyView {
                modulus,
                public_exponent,
                modulus_bits: number_bits(key.modulus.as_bytes()),
            };
            Status::Done
        }
        Err(e) => e.into(),
    }
}
