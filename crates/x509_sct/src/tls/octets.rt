//! Octets of a fixed number.

ghost use Rattle.std.specs.Prelude.{◌≡◌, length, IfOk, IfErr};
ghost use Rattle.x509_sct.specs.declared.tls.error.TlsError.TheVariants.{EndOfStream};
ghost use Rattle.x509_sct.specs.FieldReading.{octets_at, octet_at};
ghost use Rattle.x509_sct.specs.Outcome.{GivesBy};

use crate::tls::error::TlsError;
use crate::tls::tls::Tls;
use std::alloc::{AllocError, Global};

/// So many octets at the front of the bytes, and what follows them.
#[tactic(auto, unfolding(crate::specs::FieldReading::octets_at))]
pub(crate) fn take_octets(len: usize, bytes: &[u8]) -> Result<(&[u8], &[u8]), TlsError>
    ensures exact { GivesBy (λ x. (x.0.now, x.1.now)) result (octets_at len bytes.now) }
    ensures len { IfOk result (λ x. length x.0.now ≡ len) }
    ensures err { IfErr result (λ e. e ≡ EndOfStream) }
{
    if bytes.len() < len {
        return Err(TlsError::EndOfStream);
    }
    Ok(bytes.split_at(len))
}

/// The octet at the front of the bytes, and what follows it.
pub(crate) fn take_octet(bytes: &[u8]) -> Result<(u8, &[u8]), TlsError>
    ensures exact { GivesBy (λ x. (x.0, x.1.now)) result (octet_at bytes.now) }
    ensures err { IfErr result (λ e. e ≡ EndOfStream) }
{
    let [octet, rest @ ..] = bytes else {
        return Err(TlsError::EndOfStream);
    };
    Ok((*octet, rest))
}

impl<const N: usize> Tls for [u8; N] {
    ghost use Rattle.x509_sct.specs.Form.{fixed};
    ghost use Rattle.x509_sct.specs.FormLaws.{fixed_lawful};

    ghost form = { fixed N };

    ghost wants_memory = { ⊥ };

    fn take(_alloc: Global, bytes: &[u8]) -> Result<([u8; N], &[u8]), TlsError> {
        let (octets, rest) = take_octets(N, bytes)?;
        let mut array = [0; N];
        array.copy_from_slice(octets);
        Ok((array, rest))
    }

    fn tls_len(&self) -> usize {
        N
    }

    fn put(&self, out: &mut Vec<u8>) -> Result<(), AllocError> {
        out.extend_from_slice(self)
    }

    ghost lawful = { fixed_lawful N };
}
