//! What the values of extensions hold.

ghost use Rattle.std.specs.Prelude.{◌≡◌, ◌≤◌, ◌<◌, ◌+◌, List, ℕ};
ghost use Rattle.x509_c_calls.specs.BasicConstraints.{IsBasicConstraints};
ghost use Rattle.x509_c_calls.specs.Cursor.{Steps};
ghost use Rattle.x509_c_calls.specs.PayloadExtensions.{IsExtensionEntry};
ghost use Rattle.x509_c_calls.specs.GeneralNames.{IsGeneralName};
ghost use Rattle.x509_c_calls.specs.Identifiers.{IsDotted, IsIdentified};
ghost use Rattle.x509_c_calls.specs.Periods.{IsPeriod};
ghost use Rattle.x509_c_calls.specs.Place.{IsAt};
ghost use Rattle.x509_c_calls.specs.Calls.{Reads};
ghost use Rattle.x509_c_calls.specs.Status.{Fills, Tells};
ghost use Rattle.x509_c_calls.specs.declared.status.status.Status.TheVariants.{Refused};
ghost use Rattle.x509_der.specs.Arcs.{AreArcs, content_of};
ghost use Rattle.x509_der.specs.declared.error.ErrorKind.TheVariants.{Malformed, Memory};

use std::alloc::Global;
use x509_c_calls::{
    BasicConstraintsView, ExtensionEntry, GeneralNameView, PrivateKeyUsagePeriodView, Span,
    identifiers_next, member_next, member_under_next, oid_from_text, oid_text, payload,
    read_number,
};
use x509_der::{Decode, Grammar, ObjectIdentifier, Tag};
use x509_ext::Extension;
use x509_ext::pkix::name::GeneralName;
use x509_ext::pkix::{BasicConstraints, KeyUsage, PrivateKeyUsagePeriod};

/// Fills in the next extension of a list of extensions.
#[unsafe(no_mangle)]
pub extern "C" fn x509_extensions_next(
    alloc: Global,
    input: &[u8],
    at: &mut usize,
    found: &mut ExtensionEntry,
) -> i32
    ensures { Tells (λ status. Steps ⟦<Extension as Grammar>⟧.form ⟦<Extension as Grammar>⟧.refuses ⟦<Extension as Decode>⟧.wants_memory 48 input.now at.old
        at.new (λ extension behind span. IsExtensionEntry input.now extension behind found.new) (found.new ≡ found.old) status) result }
{
    member_next::<ExtensionEntry>(alloc, Tag::Sequence, input, at, found).code()
}

/// Decodes a KeyUsage, and fills in its bits.
#[unsafe(no_mangle)]
pub extern "C" fn x509_key_usage(alloc: Global, input: &[u8], uses: &mut u32) -> i32
    ensures { Tells (λ status. Reads ⟦<KeyUsage as Grammar>⟧.form ⟦<KeyUsage as Grammar>⟧.refuses input.now
        (λ usage. uses.new ≡ usage.0.0) (uses.new ≡ uses.old) status × (status ≡ Refused Memory → ⊥)) result }
{
    read_number::<KeyUsage>(alloc, input, uses).code()
}

/// Decodes a BasicConstraints, and fills in what it says.
#[unsafe(no_mangle)]
pub extern "C" fn x509_basic_constraints(
    alloc: Global,
    input: &[u8],
    view: &mut BasicConstraintsView,
) -> i32
    ensures { Tells (λ status. Reads ⟦<BasicConstraints as Grammar>⟧.form ⟦<BasicConstraints as Grammar>⟧.refuses input.now
        (λ constraints. IsBasicConstraints constraints view.new) (view.new ≡ view.old) status × (status ≡ Refused Memory → ⊥)) result }
{
    payload::<BasicConstraintsView>(alloc, input, view).code()
}

/// Reads a PrivateKeyUsagePeriod, and fills in its moments.
#[unsafe(no_mangle)]
pub extern "C" fn x509_private_key_usage_period(
    alloc: Global,
    input: &[u8],
    view: &mut PrivateKeyUsagePeriodView,
) -> i32
    ensures { Tells (λ status. Reads ⟦<PrivateKeyUsagePeriod as Grammar>⟧.form ⟦<PrivateKeyUsagePeriod as Grammar>⟧.refuses input.now
        (λ period. IsPeriod period view.new) (view.new ≡ view.old) status × (status ≡ Refused Memory → ⊥)) result }
{
    payload::<PrivateKeyUsagePeriodView>(alloc, input, view).code()
}

/// Fills in the next name of a list of general names.
#[unsafe(no_mangle)]
pub extern "C" fn x509_general_names_next(
    alloc: Global,
    input: &[u8],
    at: &mut usize,
    found: &mut GeneralNameView,
) -> i32
    ensures { Tells (λ status. Steps ⟦<GeneralName as Grammar>⟧.form ⟦<GeneralName as Grammar>⟧.refuses ⟦<GeneralName as Decode>⟧.wants_memory 48 input.now
        at.old at.new (λ name behind span. IsGeneralName input.now name behind found.new) (found.new ≡ found.old) status) result }
{
    member_next::<GeneralNameView>(alloc, Tag::Sequence, input, at, found).code()
}

/// Fills in the next name of a list of general names under an implicit tag.
#[unsafe(no_mangle)]
pub extern "C" fn x509_general_names_under_next(
    alloc: Global,
    number: u32,
    input: &[u8],
    at: &mut usize,
    found: &mut GeneralNameView,
) -> i32
    ensures { Tells (λ status. (number ≤ 30 → Steps ⟦<GeneralName as Grammar>⟧.form ⟦<GeneralName as Grammar>⟧.refuses
        ⟦<GeneralName as Decode>⟧.wants_memory (160 + number) input.now at.old at.new
        (λ name behind span. IsGeneralName input.now name behind found.new) (found.new ≡ found.old) status)
        × (30 < number → (status ≡ Refused Malformed) × (at.new ≡ at.old) × (found.new ≡ found.old))) result }
{
    member_under_next::<GeneralNameView>(alloc, number, input, at, found).code()
}

/// Fills in where the content octets of the next OID of a list of OIDs stand.
#[unsafe(no_mangle)]
pub extern "C" fn x509_extended_key_usage_next(
    alloc: Global,
    input: &[u8],
    at: &mut usize,
    found: &mut Span,
) -> i32
    ensures { Tells (λ status. Steps ⟦<ObjectIdentifier as Grammar>⟧.form ⟦<ObjectIdentifier as Grammar>⟧.refuses
        ⟦<ObjectIdentifier as Decode>⟧.wants_memory 48 input.now at.old at.new
        (λ oid behind span. IsAt oid behind input.now found.new) (found.new ≡ found.old) status) result }
{
    identifiers_next(alloc, input, at, found).code()
}

/// Puts the dotted text of the OID with these content octets at the front of the buffer.
#[unsafe(no_mangle)]
pub extern "C" fn x509_oid_text(
    alloc: Global,
    content: &[u8],
    room: &mut [u8],
    written: &mut usize,
) -> i32
    ensures { Tells (λ status. Fills (λ answer. IsDotted content.now answer) room.old room.new written.old written.new status
        × (status ≡ Refused Memory → (arcs : List ℕ) × AreArcs arcs × (content.now ≡ content_of arcs))) result }
{
    oid_text(alloc, content, room, written).code()
}

/// Puts the content octets of the OID with this dotted text at the front of the buffer.
#[unsafe(no_mangle)]
pub extern "C" fn x509_oid_from_text(text: &[u8], room: &mut [u8], written: &mut usize) -> i32
    ensures { Tells (λ status. Fills (λ answer. IsIdentified text.now answer) room.old room.new written.old written.new status
        × (status ≡ Refused Memory → ⊥)) result }
{
    oid_from_text(text, room, written).code()
}
