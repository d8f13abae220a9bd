//! What is to be verified of a signed value.

ghost use Rattle.std.specs.Prelude.{◌≡◌, ◌≤◌, ◌++◌, drop, length, List, ℕ};
ghost use Rattle.x509_base.specs.AlgorithmIdentifier.{algorithm_identifier};
ghost use Rattle.x509_base.specs.declared.algorithm_identifier.AlgorithmIdentifier.{AlgorithmIdentifier};
ghost use Rattle.x509_c_calls.specs.KeySigned.{IsSigned};
ghost use Rattle.x509_der.specs.Element.{element};
ghost use Rattle.x509_der.specs.Form.{spelling};
ghost use Rattle.x509_prim.specs.BitString.{BitParts, bit_string};

use crate::{SignatureView, bits_at, step, unused_at};

/// What is to be verified of a value whose fields stand from the place on: its signed part, an algorithm, and a signature, as those of a
/// CRL (RFC 5280 5.1.1) and of a CSR (RFC 2986 4.2).
pub fn signature_at(input: &[u8], place: usize) -> SignatureView
    requires { place ≤ length input.now }
    ensures { (part : List ℕ) (algorithm : AlgorithmIdentifier) (signature : BitParts) (behind : List ℕ)
        → drop place input.now ≡ element 48 part ++ (spelling algorithm_identifier algorithm ++ (spelling bit_string signature ++ behind))
        → IsSigned input.now (element 48 part) algorithm signature behind result }
{
    let mut at = place;
    let signed_part = step(input, &mut at, true);
    let algorithm = step(input, &mut at, true);
    SignatureView {
        signed_part,
        algorithm,
        bits: bits_at(input, at),
        unused_bits: unused_at(input, at),
    }
}
