//! Names of certificates that match.

ghost use Rattle.std.specs.Prelude.{◌↔◌, List, IfOk, IsTrue};
ghost use Rattle.x509_der.specs.Form.{Spells};
ghost use Rattle.x509_match.specs.Matching.{NamesMatch};
ghost use Rattle.x509_name.specs.Names.{name};
ghost use Rattle.x509_name.specs.declared.attr.type_and_value.AttributeTypeAndValue.{AttributeTypeAndValue};
ghost use Rattle.x509_path.specs.Certificates as certificates;
ghost use Rattle.x509_path.specs.Lent.{Lends};
ghost use Rattle.x509_path_steps.specs.Validation.{IsAsked};

use std::alloc::{AllocError, Global};
use x509_check::CertificateRef;
use x509_match::checked_names_match;

/// Whether the names match of which these are the encodings.
///
/// # Errors
///
/// Out of memory.
pub fn names_match(alloc: Global, a: &[u8], b: &[u8]) -> Result<bool, AllocError>
    ensures { IfOk result (λ same. (x y : List (List AttributeTypeAndValue)) → Spells name x a.now → Spells name y b.now → IsTrue same ↔ NamesMatch x y) }
{
    match checked_names_match(alloc, a, b) {
        Ok(same) => Ok(same),
        Err(_) => Err(AllocError),
    }
}

/// Whether the subject matches the issuer.
///
/// # Errors
///
/// Out of memory.
pub fn is_self_issued(alloc: Global, certificate: &CertificateRef<'_>) -> Result<bool, AllocError>
    ensures { IfOk result (λ b. (c : certificates.Certificate) → Lends certificate.now.bytes.now c → IsTrue b ↔ certificates.IsSelfIssued NamesMatch c) }
{
    let is_own = names_match(alloc, certificate.subject(), certificate.issuer())?;
    Ok(is_own)
}

/// Whether the certificate is asked for its names: it is the last one, or isn't self-issued.
pub fn is_asked(is_last: bool, is_self_issued: bool) -> bool
    ensures { (c : certificates.Certificate) → IsTrue is_self_issued ↔ certificates.IsSelfIssued NamesMatch c → IsTrue result ↔ IsAsked is_last c }
{
    is_last || !is_self_issued
}
