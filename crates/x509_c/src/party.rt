//! What extensions say of the keys of the subject and of the issuer, and where more is found out about them.

ghost use Rattle.std.specs.Prelude.{◌≡◌, []};
ghost use Rattle.x509_c_calls.specs.Access.{IsAccess};
ghost use Rattle.x509_c_calls.specs.Cursor.{Steps};
ghost use Rattle.x509_c_calls.specs.KeyIdentifiers.{IsAuthorityKeyIdentifier};
ghost use Rattle.x509_c_calls.specs.Place.{IsAt};
ghost use Rattle.x509_c_calls.specs.Calls.{Reads};
ghost use Rattle.x509_c_calls.specs.Status.{Tells};

use std::alloc::Global;
use x509_c_calls::{AccessView, AuthorityKeyIdentifierView, Span, content, member_next, payload};
use x509_der::{Decode, Grammar, Tag};
use x509_ext::pkix::{AccessDescription, AuthorityKeyIdentifier, SubjectKeyIdentifier};

/// Reads a SubjectKeyIdentifier, and fills in where its octets stand.
#[unsafe(no_mangle)]
pub extern "C" fn x509_subject_key_identifier(alloc: Global, input: &[u8], found: &mut Span) -> i32
    ensures { Tells (λ status. Reads ⟦<SubjectKeyIdentifier as Grammar>⟧.form ⟦<SubjectKeyIdentifier as Grammar>⟧.refuses input.now
        (λ identifier. IsAt identifier.0 [] input.now found.new) (found.new ≡ found.old) status) result }
{
    content::<SubjectKeyIdentifier>(alloc, input, found).code()
}

/// Reads an AuthorityKeyIdentifier, and fills in where its parts stand.
#[unsafe(no_mangle)]
pub extern "C" fn x509_authority_key_identifier(
    alloc: Global,
    input: &[u8],
    view: &mut AuthorityKeyIdentifierView,
) -> i32
    ensures { Tells (λ status. Reads ⟦<AuthorityKeyIdentifier as Grammar>⟧.form ⟦<AuthorityKeyIdentifier as Grammar>⟧.refuses input.now
        (λ identifier. IsAuthorityKeyIdentifier input.now identifier [] view.new) (view.new ≡ view.old) status) result }
{
    payload::<AuthorityKeyIdentifierView>(alloc, input, view).code()
}

/// Fills in the next description of where more is found out about the issuer or the subject.
#[unsafe(no_mangle)]
pub extern "C" fn x509_access_next(
    alloc: Global,
    input: &[u8],
    at: &mut usize,
    found: &mut AccessView,
) -> i32
    ensures { Tells (λ status. Steps ⟦<AccessDescription as Grammar>⟧.form ⟦<AccessDescription as Grammar>⟧.refuses
        ⟦<AccessDescription as Decode>⟧.wants_memory 48 input.now at.old at.new
        (λ access behind span. IsAccess input.now access behind found.new) (found.new ≡ found.old) status) result }
{
    member_next::<AccessView>(alloc, Tag::Sequence, input, at, found).code()
}
