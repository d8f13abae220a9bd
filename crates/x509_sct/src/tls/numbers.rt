//! Numbers, the most significant byte first.

use crate::tls::error::TlsError;
use crate::tls::tls::Tls;
use std::alloc::{AllocError, Global};

#[tactic(auto, unfolding(crate::specs::FieldReading::octets_at, crate::specs::FieldReading::number_at))]
impl Tls for u16 {
    ghost use Rattle.x509_sct.specs.Numbers.{uint16, uint16_lawful};

    ghost form = { uint16 };

    ghost wants_memory = { ⊥ };

    fn take(_alloc: Global, bytes: &[u8]) -> Result<(u16, &[u8]), TlsError> {
        let [a, b, rest @ ..] = bytes else {
            return Err(TlsError::EndOfStream);
        };
        Ok((u16::from_be_bytes([*a, *b]), rest))
    }

    fn tls_len(&self) -> usize {
        2
    }

    fn put(&self, out: &mut Vec<u8>) -> Result<(), AllocError> {
        out.extend_from_slice(&self.to_be_bytes())
    }

    ghost lawful = { uint16_lawful };
}

#[tactic(auto, unfolding(crate::specs::FieldReading::octets_at, crate::specs::FieldReading::number_at))]
impl Tls for u64 {
    ghost use Rattle.x509_sct.specs.Numbers.{uint64, uint64_lawful};

    ghost form = { uint64 };

    ghost wants_memory = { ⊥ };

    fn take(_alloc: Global, bytes: &[u8]) -> Result<(u64, &[u8]), TlsError> {
        let [a, b, c, d, e, f, g, h, rest @ ..] = bytes else {
            return Err(TlsError::EndOfStream);
        };
        let number = u64::from_be_bytes([*a, *b, *c, *d, *e, *f, *g, *h]);
        Ok((number, rest))
    }

    fn tls_len(&self) -> usize {
        8
    }

    fn put(&self, out: &mut Vec<u8>) -> Result<(), AllocError> {
        out.extend_from_slice(&self.to_be_bytes())
    }

    ghost lawful = { uint64_lawful };
}
