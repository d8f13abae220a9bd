//! The signed bytes of certificates, of CRLs and of CSRs.

ghost use Rattle.std.specs.Prelude.{◌≡◌, ◌<◌, ◌≤◌, ◌++◌, length, List, ℕ, IfSome, IfNone};
ghost use Rattle.x509_cert.specs.Signed.{IsSignedPart};
ghost use Rattle.x509_der.specs.Element.{element, header, limit};

use x509_der::{Tag, take_element};

/// The content of the SEQUENCE at the front, and what follows it; `None` where the bytes begin with no SEQUENCE of at
/// most [`Length::MAX`](x509_der::Length::MAX) octets.
fn take_sequence(bytes: &[u8]) -> Option<(&[u8], &[u8])>
    ensures some { IfSome result (λ found. (bytes.now ≡ element 0x30 found.0.now ++ found.1.now) × (length (element 0x30 found.0.now) ≤ limit)) }
    ensures none { IfNone result ((content rest : List ℕ) → bytes.now ≡ element 0x30 content ++ rest → limit < length (element 0x30 content)) }
{
    let Ok((element, rest)) = take_element(bytes) else {
        return None;
    };
    let Tag::Sequence = element.tag() else {
        return None;
    };
    Some((element.value(), rest))
}

/// The bytes that the signature of a certificate, of a CRL or of a CSR is over (RFC 5280 4.1.1.3, 5.1.1.3, RFC 2986
/// 4.2), as they stand in the input and not encoded again. They are lent and not copied.
///
/// `Some` exactly where the bytes are one SEQUENCE of at most [`Length::MAX`](x509_der::Length::MAX) octets
/// whose content begins with a SEQUENCE, which is the answer. Neither is looked into any further.
///
/// ```text
/// SEQUENCE {
///     signed  SEQUENCE { .. },
///     .. }
/// ```
///
/// ```rust
/// assert!(rt; signed_slice(LONG) == Some(&LONG[2..64]));
/// assert!(rt; signed_slice(&[0x30, 0x02, 0x30, 0x00, 0x30]).is_none());
/// ```
pub fn signed_slice(bytes: &[u8]) -> Option<&[u8]>
    ensures some { IfSome result (λ signed. IsSignedPart bytes.now signed.now) }
    ensures none { IfNone result ((signed : List ℕ) → ¬ (IsSignedPart bytes.now signed)) }
    ensures one { (signed : List ℕ) → IsSignedPart bytes.now signed → IfSome result (λ found. found.now ≡ signed) }
    ensures place { IfSome result (λ signed. (behind : List ℕ) × (bytes.now ≡ header 0x30 (length (signed.now ++ behind)) ++ (signed.now ++ behind))) }
{
    let Some((content, after)) = take_sequence(bytes) else {
        return None;
    };
    if !after.is_empty() {
        return None;
    }
    let Some((_, behind)) = take_sequence(content) else {
        return None;
    };
    Some(&content[..content.len() - behind.len()])
}
