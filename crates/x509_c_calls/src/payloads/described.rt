//! Values that are encoded of what a caller says of them.

ghost use Rattle.std.specs.Prelude.{◌≡◌, Bool, MatchOption, Option, ℕ};
ghost use Rattle.x509_c_calls.specs.Described.{DescribesNone, EncodesDescribed};
ghost use Rattle.x509_c_calls.specs.Optional.{IsNumber};
ghost use Rattle.x509_c_calls.specs.PayloadExtensions.{flag};
ghost use Rattle.x509_c_calls.specs.Status.{Fills};
ghost use Rattle.x509_c_calls.specs.declared.status.status.Status.TheVariants.{Refused};
ghost use Rattle.x509_der.specs.declared.error.ErrorKind.TheVariants.{Memory};

use crate::payloads::constraints::BasicConstraintsView;
use crate::payloads::policy::PolicyConstraintsView;
use crate::{Status, write};
use bitflags::Flags;
use x509_der::{Encode, ErrorKind, Spelled};
use x509_ext::pkix::{BasicConstraints, InhibitAnyPolicy, KeyUsage, KeyUsages, PolicyConstraints};

/// A type whose values a caller describes.
pub trait Described: Encode + Drop + Sized {
    ghost use Rattle.std.specs.Prelude.{◌≡◌, IfSome, MatchOption, None};
    ghost use Rattle.x509_der.specs.Writing.{writes};

    /// What the caller says of a value.
    type Description: Copy;

    /// The values of which it is said.
    ghost describes: { Self.Description → Self → Type 0 };

    /// The value that is described; `None` exactly where none is that has an encoding.
    fn described(description: Self::Description) -> Option<Self>
        ensures found { MatchOption result ((value : Self) → describes description value → Self.form.good value → ⊥) (λ value. describes description value) }
        ensures good { IfSome result (λ value. Self.form.good value × (writes Self.writing value ≡ record { value = value; refusal = None })) };
}

/// Puts the encoding of the value that is described at the front of the buffer `room`. It takes no memory.
///
/// # Errors
///
/// [`Status::NoRoom`] where the buffer is too small; then `written` is the needed length. `Value` exactly where no value
/// is described that has an encoding; `Overlength` where the encoding is too long.
#[tactic(auto, unfolding(crate::specs::Calls::Encodes, crate::specs::Status::Fills))]
pub fn encode<T: Described>(
    description: T::Description,
    room: &mut [u8],
    written: &mut usize,
) -> Status
    ensures filled { Fills (EncodesDescribed T.form (T.describes description) (DescribesNone T.form (T.describes description))) room.old room.new written.old written.new result }
    ensures memory { result ≡ Refused Memory → ⊥ }
{
    match T::described(description) {
        Some(value) => write(&value, room, written),
        None => Status::Refused(ErrorKind::Value),
    }
}

/// Whether what is said by 1 or 0 is so; `None` for another number.
pub(crate) fn flag_of(said: u32) -> Option<bool>
    ensures { MatchOption result ((is_so : Bool) → said ≡ flag is_so → ⊥) (λ is_so. said ≡ flag is_so) }
{
    match said {
        0 => Some(false),
        1 => Some(true),
        _ => None,
    }
}

/// The number behind a 1, or none behind a 0; `None` where neither is said.
fn number_of(is_there: u32, number: u32) -> Option<Option<u32>>
    ensures { MatchOption result ((said : Option ℕ) → IsNumber said is_there number → ⊥) (λ said. IsNumber said is_there number) }
{
    match is_there {
        0 if number == 0 => Some(None),
        1 => Some(Some(number)),
        _ => None,
    }
}

#[tactic(auto, unfolding(x509_ext::specs::BasicConstraints::basic_constraints_fields, x509_der::specs::Frames::fields_good))]
impl Described for BasicConstraints {
    ghost use Rattle.x509_c_calls.specs.Described.{AreBasicConstraints};

    type Description = BasicConstraintsView;

    ghost describes = { AreBasicConstraints };

    fn described(description: BasicConstraintsView) -> Option<BasicConstraints> {
        let ca = flag_of(description.ca)?;
        let path_len = number_of(description.has_path_len, description.path_len)?;
        let path_len_constraint = match path_len {
            None => None,
            Some(path_len) if path_len > 255 || !ca => return None,
            Some(path_len) => Some(path_len as u8),
        };
        let constraints = BasicConstraints {
            ca,
            path_len_constraint,
        };
        constraints.has_spelling();
        Some(constraints)
    }
}

impl Described for KeyUsage {
    ghost use Rattle.x509_c_calls.specs.Described.{IsKeyUsage};

    type Description = u32;

    ghost describes = { IsKeyUsage };

    fn described(description: u32) -> Option<KeyUsage> {
        if description == 0 || description > 65_535 {
            return None;
        }
        let usage = KeyUsage(KeyUsages::from_bits_retain(description as u16));
        let is_one_way = usage.encipher_only() || usage.decipher_only();
        if usage.0.contains_unknown_bits() || is_one_way && !usage.key_agreement() {
            return None;
        }
        usage.has_spelling();
        Some(usage)
    }
}

impl Described for PolicyConstraints {
    ghost use Rattle.x509_c_calls.specs.Described.{ArePolicyConstraints};

    type Description = PolicyConstraintsView;

    ghost describes = { ArePolicyConstraints };

    fn described(description: PolicyConstraintsView) -> Option<PolicyConstraints> {
        let require_explicit_policy = number_of(
            description.has_require_explicit_policy,
            description.require_explicit_policy,
        )?;
        let inhibit_policy_mapping = number_of(
            description.has_inhibit_policy_mapping,
            description.inhibit_policy_mapping,
        )?;
        if require_explicit_policy.is_none() && inhibit_policy_mapping.is_none() {
            return None;
        }
        let constraints = PolicyConstraints {
            require_explicit_policy,
            inhibit_policy_mapping,
        };
        constraints.has_spelling();
        Some(constraints)
    }
}

impl Described for InhibitAnyPolicy {
    ghost use Rattle.x509_c_calls.specs.Described.{IsInhibitAnyPolicy};

    type Description = u32;

    ghost describes = { IsInhibitAnyPolicy };

    fn described(description: u32) -> Option<InhibitAnyPolicy> {
        let inhibit = InhibitAnyPolicy(description);
        inhibit.has_spelling();
        Some(inhibit)
    }
}
