//! Bytes that have names.

use crate::tls::error::TlsError;
use crate::tls::octets::take_octet;
use crate::tls::tls::Tls;
use std::alloc::{AllocError, Global};

/// A type of which each value is one byte (RFC 5246 section 4.5). From it comes [`Tls`].
pub trait NamedByte: Sized {
    ghost use Rattle.std.specs.Prelude.{◌≡◌, ℕ, List};
    ghost use Rattle.x509_sct.specs.FieldReading.{name_of};
    ghost use Rattle.x509_sct.specs.FormLaws.{AreNamed};

    /// The byte of each value.
    ghost byte_of: { Self → ℕ };

    /// All values.
    ghost values: { List Self };

    /// The value with that byte, if there is one.
    fn from_byte(byte: u8) -> Option<Self>
        ensures { result ≡ name_of byte_of values byte };

    /// The byte.
    fn byte(&self) -> u8
        ensures { result ≡ byte_of self.now };

    ghost are_named: { AreNamed byte_of values };
}

#[tactic(auto, unfolding(crate::specs::FieldReading::name_at))]
impl<T: NamedByte> Tls for T {
    ghost use Rattle.x509_sct.specs.Form.{named};
    ghost use Rattle.x509_sct.specs.FormLaws.{named_lawful};

    ghost form = { named T.byte_of T.values };

    ghost wants_memory = { ⊥ };

    fn take(_alloc: Global, bytes: &[u8]) -> Result<(T, &[u8]), TlsError> {
        let (octet, rest) = take_octet(bytes)?;
        match T::from_byte(octet) {
            Some(value) => Ok((value, rest)),
            None => Err(TlsError::UnknownValue(octet.into())),
        }
    }

    fn tls_len(&self) -> usize {
        1
    }

    fn put(&self, out: &mut Vec<u8>) -> Result<(), AllocError> {
        out.extend_from_slice(&[self.byte()])
    }

    ghost lawful = { named_lawful T.byte_of T.values T.are_named };
}
