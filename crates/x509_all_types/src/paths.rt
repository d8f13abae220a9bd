//! Paths of certificates for the program, which has no algorithms: a signature is an echo, or any is accepted. That is no security, and serves to try the
//! rest of a path.

ghost use Rattle.std.specs.Prelude.{◌≡◌, ◌⊎◌, map, string_bytes, Ok, Err, MatchResult};
ghost use Rattle.std.specs.Option.{option_map};
ghost use Rattle.x509_cert.specs.Certificate.{rfc5280_certificate};
ghost use Rattle.x509_der.specs.declared.error.ErrorKind.TheVariants.{Memory};
ghost use Rattle.x509_der.specs.Form.{Spells};
ghost use Rattle.x509_path.specs.Path.{Answers, subject_of};
ghost use Rattle.x509_types.specs.Reencoding.{IsRefused};
ghost use Rattle.x509_all_types.specs.Paths.{ChecksUnder, Tells, accepting, is_echo};

use crate::types::Types;
use std::alloc::Global;
use std::str::FromStr;
use x509_base::{AlgorithmIdentifier, DateTime, SubjectPublicKeyInfo};
use x509_cert::Certificate;
use x509_codec::{PathCodec, Signatures};
use x509_der::{Decode, Error, ErrorKind, Grammar};
use x509_path::{Anchor, PathFault, Verifier, check_path};
use x509_prim::BitString;

/// Whether a signature is the message itself.
fn is_echo(message: &[u8], signature: &BitString) -> bool
    ensures { result ≡ is_echo signature.now message.now }
{
    signature.unused_bits() == 0 && signature.raw_bytes() == message
}

/// A verifier that accepts these signatures, whatever the algorithm and the key.
#[derive(Clone, Copy)]
struct Accepting {
    signatures: Signatures,
}

impl Verifier for Accepting {
    ghost accepts = { λ it. accepting it.signatures };

    fn verify(
        &self,
        _algorithm: &AlgorithmIdentifier,
        _key: &SubjectPublicKeyInfo,
        message: &[u8],
        signature: &BitString,
    ) -> bool {
        match self.signatures {
            Signatures::Echoes => is_echo(message, signature),
            Signatures::Any => true,
        }
    }
}

/// The text of the first fault of the path, where it has one.
fn first_fault(
    alloc: Global,
    anchor: &Anchor,
    path: &[Vec<u8>],
    moment: DateTime,
    accepted: Signatures,
) -> Result<Option<String>, Error>
    ensures { MatchResult result
        (λ fault. Tells (Answers (accepting accepted) moment anchor.now (map (λ input. input.items) path.now)) (Ok (option_map string_bytes fault)))
        (λ e. e.kind ≡ Memory) }
{
    match check_path(
        alloc,
        anchor,
        path,
        moment,
        &Accepting {
            signatures: accepted,
        },
    ) {
        Ok(()) => Ok(None),
        Err(PathFault::Memory) => Err(ErrorKind::Memory.into()),
        Err(fault) => Ok(Some(fault.to_string(alloc)?)),
    }
}

/// The first fault of the path under the subject and the key of a certificate.
fn first_fault_under(
    alloc: Global,
    certificate: &Certificate,
    path: &[Vec<u8>],
    moment: DateTime,
    accepted: Signatures,
) -> Result<Option<String>, Error>
    ensures { MatchResult result
        (λ fault. Tells (Answers (accepting accepted) moment (subject_of certificate.now) (map (λ input. input.items) path.now))
        (Ok (option_map string_bytes fault)))
        (λ e. e.kind ≡ Memory) }
{
    let anchor = Anchor::from_certificate(alloc, certificate)?;
    first_fault(alloc, &anchor, path, moment, accepted)
}

/// The certificate of these bytes.
fn read_certificate(alloc: Global, bytes: &[u8]) -> Result<Certificate, Error>
    ensures { MatchResult result
        (λ certificate. Spells rfc5280_certificate certificate bytes.now)
        (λ e. (e.kind ≡ Memory) ⊎ IsRefused rfc5280_certificate ⟦<Certificate as Grammar>⟧.refuses bytes.now e.kind) }
{
    match Certificate::from_der(alloc, bytes) {
        Ok(certificate) => Ok(certificate),
        Err(e) => Err(e),
    }
}

/// Checks the path under the subject and the key of the certificate that the bytes are.
fn check_under(
    alloc: Global,
    accepted: Signatures,
    moment: DateTime,
    anchor: &[u8],
    path: &[Vec<u8>],
) -> Result<Option<String>, Error>
    ensures { MatchResult result
        (λ fault. ChecksUnder ⟦<Certificate as Grammar>⟧.refuses (accepting accepted) moment anchor.now (map (λ input. input.items) path.now)
        (Ok (option_map string_bytes fault)))
        (λ e. (e.kind ≡ Memory)
        ⊎ ChecksUnder ⟦<Certificate as Grammar>⟧.refuses (accepting accepted) moment anchor.now (map (λ input. input.items) path.now) (Err e.kind)) }
{
    let certificate = read_certificate(alloc, anchor)?;
    first_fault_under(alloc, &certificate, path, moment, accepted)
}

#[tactic(auto, unfolding(crate::specs::Paths::ChecksAccepted))]
impl PathCodec for Types {
    ghost use Rattle.x509_all_types.specs.Paths.{ChecksAccepted};

    ghost checks_path = { ChecksAccepted ⟦<Certificate as Grammar>⟧.refuses };

    fn check_path(
        alloc: Global,
        accepted: Signatures,
        moment: &str,
        anchor: &[u8],
        path: &[Vec<u8>],
    ) -> Result<Option<String>, Error> {
        let moment = DateTime::from_str(moment)?;
        check_under(alloc, accepted, moment, anchor, path)
    }
}
