//! What an extension asks of names.

ghost use Rattle.std.specs.Prelude.{◌≡◌, ◌≤◌, ◌<◌, ◌+◌, []};
ghost use Rattle.x509_c_calls.specs.Cursor.{Steps};
ghost use Rattle.x509_c_calls.specs.Subtrees.{AreNameConstraints, IsSubtree};
ghost use Rattle.x509_c_calls.specs.Calls.{Reads};
ghost use Rattle.x509_c_calls.specs.Status.{Tells};
ghost use Rattle.x509_c_calls.specs.declared.status.status.Status.TheVariants.{Refused};
ghost use Rattle.x509_der.specs.declared.error.ErrorKind.TheVariants.{Malformed};

use std::alloc::Global;
use x509_c_calls::{NameConstraintsView, SubtreeView, member_under_next, payload};
use x509_der::{Decode, Grammar};
use x509_ext::pkix::NameConstraints;
use x509_ext::pkix::constraints::name::GeneralSubtree;

/// Reads a NameConstraints, and fills in where its subtrees stand.
#[unsafe(no_mangle)]
pub extern "C" fn x509_name_constraints(
    alloc: Global,
    input: &[u8],
    view: &mut NameConstraintsView,
) -> i32
    ensures { Tells (λ status. Reads ⟦<NameConstraints as Grammar>⟧.form ⟦<NameConstraints as Grammar>⟧.refuses input.now
        (λ constraints. AreNameConstraints input.now constraints [] view.new) (view.new ≡ view.old) status) result }
{
    payload::<NameConstraintsView>(alloc, input, view).code()
}

/// Fills in the next subtree of a list of them under an implicit tag.
#[unsafe(no_mangle)]
pub extern "C" fn x509_subtrees_under_next(
    alloc: Global,
    number: u32,
    input: &[u8],
    at: &mut usize,
    found: &mut SubtreeView,
) -> i32
    ensures { Tells (λ status. (number ≤ 30 → Steps ⟦<GeneralSubtree as Grammar>⟧.form ⟦<GeneralSubtree as Grammar>⟧.refuses
        ⟦<GeneralSubtree as Decode>⟧.wants_memory (160 + number) input.now at.old at.new
        (λ subtree behind span. IsSubtree input.now subtree behind found.new) (found.new ≡ found.old) status)
        × (30 < number → (status ≡ Refused Malformed) × (at.new ≡ at.old) × (found.new ≡ found.old))) result }
{
    member_under_next::<SubtreeView>(alloc, number, input, at, found).code()
}
