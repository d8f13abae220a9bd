//! What extensions say of policies.

ghost use Rattle.std.specs.Prelude.{◌≡◌, ◌≤◌, ◌<◌, ◌+◌, []};
ghost use Rattle.x509_c_calls.specs.Cursor.{Steps};
ghost use Rattle.x509_c_calls.specs.Notices.{IsUserNotice};
ghost use Rattle.x509_c_calls.specs.Place.{IsAt};
ghost use Rattle.x509_c_calls.specs.Policies.{IsMapping, IsPolicy, IsPolicyConstraints, IsQualifier};
ghost use Rattle.x509_c_calls.specs.Calls.{Reads};
ghost use Rattle.x509_c_calls.specs.Status.{Tells};
ghost use Rattle.x509_c_calls.specs.declared.status.status.Status.TheVariants.{Refused};
ghost use Rattle.x509_der.specs.declared.error.ErrorKind.TheVariants.{Malformed, Memory};

use std::alloc::Global;
use x509_c_calls::{
    MappingView, PolicyConstraintsView, PolicyView, QualifierView, Span, UserNoticeView,
    content_next, member_next, member_under_next, payload, read_number,
};
use x509_der::{Decode, Grammar, Tag};
use x509_ext::pkix::certpolicy::{PolicyInformation, PolicyQualifierInfo, UserNotice};
use x509_ext::pkix::{InhibitAnyPolicy, PolicyConstraints, PolicyMapping};
use x509_prim::Uint;

/// Fills in the next policy of a CertificatePolicies.
#[unsafe(no_mangle)]
pub extern "C" fn x509_certificate_policies_next(
    alloc: Global,
    input: &[u8],
    at: &mut usize,
    found: &mut PolicyView,
) -> i32
    ensures { Tells (λ status. Steps ⟦<PolicyInformation as Grammar>⟧.form ⟦<PolicyInformation as Grammar>⟧.refuses
        ⟦<PolicyInformation as Decode>⟧.wants_memory 48 input.now at.old at.new
        (λ policy behind span. IsPolicy input.now policy behind found.new) (found.new ≡ found.old) status) result }
{
    member_next::<PolicyView>(alloc, Tag::Sequence, input, at, found).code()
}

/// Fills in the next policy of a CertificatePolicies under an implicit tag.
#[unsafe(no_mangle)]
pub extern "C" fn x509_certificate_policies_under_next(
    alloc: Global,
    number: u32,
    input: &[u8],
    at: &mut usize,
    found: &mut PolicyView,
) -> i32
    ensures { Tells (λ status. (number ≤ 30 → Steps ⟦<PolicyInformation as Grammar>⟧.form ⟦<PolicyInformation as Grammar>⟧.refuses
        ⟦<PolicyInformation as Decode>⟧.wants_memory (160 + number) input.now at.old at.new
        (λ policy behind span. IsPolicy input.now policy behind found.new) (found.new ≡ found.old) status)
        × (30 < number → (status ≡ Refused Malformed) × (at.new ≡ at.old) × (found.new ≡ found.old))) result }
{
    member_under_next::<PolicyView>(alloc, number, input, at, found).code()
}

/// Fills in what qualifies a policy next.
#[unsafe(no_mangle)]
pub extern "C" fn x509_policy_qualifiers_next(
    alloc: Global,
    input: &[u8],
    at: &mut usize,
    found: &mut QualifierView,
) -> i32
    ensures { Tells (λ status. Steps ⟦<PolicyQualifierInfo as Grammar>⟧.form ⟦<PolicyQualifierInfo as Grammar>⟧.refuses
        ⟦<PolicyQualifierInfo as Decode>⟧.wants_memory 48 input.now at.old at.new
        (λ info behind span. IsQualifier input.now info behind found.new) (found.new ≡ found.old) status) result }
{
    member_next::<QualifierView>(alloc, Tag::Sequence, input, at, found).code()
}

/// Reads a UserNotice, and fills in where its parts stand.
#[unsafe(no_mangle)]
pub extern "C" fn x509_user_notice(alloc: Global, input: &[u8], view: &mut UserNoticeView) -> i32
    ensures { Tells (λ status. Reads ⟦<UserNotice as Grammar>⟧.form ⟦<UserNotice as Grammar>⟧.refuses input.now
        (λ notice. IsUserNotice input.now notice [] view.new) (view.new ≡ view.old) status) result }
{
    payload::<UserNoticeView>(alloc, input, view).code()
}

/// Fills in where the content octets of the next number of a list of numbers stand.
#[unsafe(no_mangle)]
pub extern "C" fn x509_numbers_next(
    alloc: Global,
    input: &[u8],
    at: &mut usize,
    found: &mut Span,
) -> i32
    ensures { Tells (λ status. Steps ⟦<Uint as Grammar>⟧.form ⟦<Uint as Grammar>⟧.refuses ⟦<Uint as Decode>⟧.wants_memory 48 input.now at.old at.new
        (λ number behind span. IsAt number behind input.now found.new) (found.new ≡ found.old) status) result }
{
    content_next::<Uint>(alloc, Tag::Sequence, input, at, found).code()
}

/// Fills in how a policy maps next.
#[unsafe(no_mangle)]
pub extern "C" fn x509_policy_mappings_next(
    alloc: Global,
    input: &[u8],
    at: &mut usize,
    found: &mut MappingView,
) -> i32
    ensures { Tells (λ status. Steps ⟦<PolicyMapping as Grammar>⟧.form ⟦<PolicyMapping as Grammar>⟧.refuses ⟦<PolicyMapping as Decode>⟧.wants_memory 48
        input.now at.old at.new (λ mapping behind span. IsMapping input.now mapping behind found.new) (found.new ≡ found.old) status) result }
{
    member_next::<MappingView>(alloc, Tag::Sequence, input, at, found).code()
}

/// Reads a PolicyConstraints, and fills in what it asks for.
#[unsafe(no_mangle)]
pub extern "C" fn x509_policy_constraints(
    alloc: Global,
    input: &[u8],
    view: &mut PolicyConstraintsView,
) -> i32
    ensures { Tells (λ status. Reads ⟦<PolicyConstraints as Grammar>⟧.form ⟦<PolicyConstraints as Grammar>⟧.refuses input.now
        (λ constraints. IsPolicyConstraints constraints view.new) (view.new ≡ view.old) status × (status ≡ Refused Memory → ⊥)) result }
{
    payload::<PolicyConstraintsView>(alloc, input, view).code()
}

/// Reads an InhibitAnyPolicy, and fills in its number.
#[unsafe(no_mangle)]
pub extern "C" fn x509_inhibit_any_policy(
    alloc: Global,
    input: &[u8],
    certificates: &mut u32,
) -> i32
    ensures { Tells (λ status. Reads ⟦<InhibitAnyPolicy as Grammar>⟧.form ⟦<InhibitAnyPolicy as Grammar>⟧.refuses input.now
        (λ inhibit. certificates.new ≡ inhibit.0) (certificates.new ≡ certificates.old) status × (status ≡ Refused Memory → ⊥)) result }
{
    read_number::<InhibitAnyPolicy>(alloc, input, certificates).code()
}
