//! OIDs, lent from the lists that they stand in.

ghost use Rattle.std.specs.Prelude.{◌≡◌, ◌++◌, ◌∷◌, [], ℕ, List, IfOk, true, map};
ghost use Rattle.x509_der.specs.Element.{element, is_identifier};
ghost use Rattle.x509_der.specs.List.{joined};
ghost use Rattle.x509_path_steps.specs.Oids.{item, pair};
ghost use Rattle.x509_policy.specs.Views.{mapping_of, octets_of};

use std::alloc::{AllocError, Global};
use x509_der::split_element;
use x509_policy::MappingView;

/// The content of the element that the bytes begin with, and what follows it; nothing where they begin with none.
pub(crate) fn first_content(bytes: &[u8]) -> (&[u8], &[u8])
    ensures { (tag : ℕ) (content rest : List ℕ) → is_identifier tag ≡ true → bytes.now ≡ element tag content ++ rest
        → (result.0.now ≡ content) × (result.1.now ≡ rest) }
{
    match split_element(bytes) {
        Ok(piece) => (piece.content, piece.rest),
        Err(_) => (&[], &[]),
    }
}

/// The content of the element that the bytes begin with; nothing where they begin with none.
pub(crate) fn content_of(bytes: &[u8]) -> &[u8]
    ensures { (tag : ℕ) (content rest : List ℕ) → is_identifier tag ≡ true → bytes.now ≡ element tag content ++ rest → result.now ≡ content }
{
    first_content(bytes).0
}

/// The OIDs that stand first in the sequences which the bytes are, one after the other.
pub(crate) fn first_oids<'a>(alloc: Global, bytes: &'a [u8]) -> Result<Vec<&'a [u8]>, AllocError>
    ensures { IfOk result (λ found. (items : List (List ℕ × List ℕ)) → bytes.now ≡ joined item items → octets_of found.items ≡ map (λ i. i.0) items) }
{
    let mut found = Vec::new(alloc);
    let mut rest = bytes;
    while let Ok(piece) = split_element(rest) {
        found.push(content_of(piece.content))?;
        rest = piece.rest;
    }
    Ok(found)
}

/// The two OIDs of a pair.
fn pair_of(bytes: &[u8]) -> MappingView<'_>
    ensures { (i s : List ℕ) → bytes.now ≡ element 6 i ++ element 6 s → mapping_of result ≡ record { issuer_domain_policy = i; subject_domain_policy = s } }
{
    let (issuer_domain_policy, rest) = first_content(bytes);
    MappingView {
        issuer_domain_policy,
        subject_domain_policy: content_of(rest),
    }
}

/// The pairs of OIDs in the sequences which the bytes are, one after the other.
pub(crate) fn oid_pairs<'a>(
    alloc: Global,
    bytes: &'a [u8],
) -> Result<Vec<MappingView<'a>>, AllocError>
    ensures { IfOk result (λ found. (pairs : List (List ℕ × List ℕ)) → bytes.now ≡ joined pair pairs
        → map mapping_of found.items ≡ map (λ p. record { issuer_domain_policy = p.0; subject_domain_policy = p.1 }) pairs) }
{
    let mut found = Vec::new(alloc);
    let mut rest = bytes;
    while let Ok(piece) = split_element(rest) {
        found.push(pair_of(piece.content))?;
        rest = piece.rest;
    }
    Ok(found)
}
