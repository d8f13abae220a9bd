//! What holds of signed bytes and of lent elements. Each law is a function with an empty body, whose contract is the law.

ghost use Rattle.std.specs.Prelude.{◌≡◌, ◌↔◌, ◌++◌, List, ℕ, None};
ghost use Rattle.x509_cert.specs.Elements.{CertificateElements, HasCertificateElements, HasTbsElements, TbsElements};
ghost use Rattle.x509_cert.specs.Signed.{IsSignedPart};
ghost use Rattle.x509_der.specs.Form.{Spells, spelling};
ghost use Rattle.x509_der.specs.Writing.{IsStable, writes, written_spelling};

use x509_der::{Encode, Grammar};

/// Bytes have at most one signed part.
pub fn one_signed_part()
    ensures { (bytes s t : List ℕ) → IsSignedPart bytes s → IsSignedPart bytes t → s ≡ t }
{}

/// Bytes have the elements of one certificate at most, and those of one signed part.
pub fn one_set_of_elements()
    ensures signed { (bytes : List ℕ) (d e : TbsElements) → HasTbsElements bytes d → HasTbsElements bytes e → d ≡ e }
    ensures whole { (bytes : List ℕ) (d e : CertificateElements) → HasCertificateElements bytes d → HasCertificateElements bytes e → d ≡ e }
{}

/// The signed part of a certificate that [`CertificateSlices`](crate::signed::CertificateSlices) lends is the one that
/// [`signed_slice`](crate::signed_slice) lends.
pub fn the_signed_part_is_lent()
    ensures { (bytes : List ℕ) (e : CertificateElements) → HasCertificateElements bytes e → IsSignedPart bytes e.tbs_certificate }
{}

/// Where the content of a SEQUENCE begins with the bytes of one, these are the signed part, and spell its value.
pub fn what_stands_in_front_is_signed<T: Grammar, S: Grammar>()
    ensures { (value : T) (first : S) (behind bytes : List ℕ) → T.form.tag value ≡ 0x30 → S.form.tag first ≡ 0x30
        → T.form.content value ≡ spelling S.form first ++ behind → S.form.good first → Spells T.form value bytes
        → IsSignedPart bytes (spelling S.form first) × Spells S.form first (spelling S.form first) }
{}

/// Encoding a value gives the bytes that spell it exactly where the value is encoded as it is: so of a signed part, the
/// bytes that were signed.
pub fn signed_bytes_are_written_again<S: Encode>()
    ensures { IsStable S.form.good S.writing → (first : S) (signed : List ℕ) → Spells S.form first signed → (writes S.writing first).refusal ≡ None
        → (written_spelling S.form (writes S.writing first) ≡ signed) ↔ ((writes S.writing first).value ≡ first) }
{}
