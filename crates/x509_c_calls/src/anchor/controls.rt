//! Where the constraints on paths from an anchor stand.

ghost use Rattle.std.specs.Prelude.{◌≡◌, ◌≤◌, ◌++◌, drop, length, List, ℕ};
ghost use Rattle.x509_c_calls.specs.Controls.{IsConstrained, bits_of, names_text};
ghost use Rattle.x509_c_calls.specs.Optional.{IsNumber};

use crate::{NOWHERE, Span, View, enter, optional_number, step, step_optional};
use bitflags::Flags;
use x509_base::Rfc5280;
use x509_cert::anchor::{CertPathControls, CertPolicyFlags};
use x509_ext::pkix::NameConstraints;

/// Constraints on the paths from a trust anchor (RFC 5914 2.5), by their places. An absent part has offset 0 and length 0.
#[derive(Clone, Copy)]
#[repr(C)]
pub struct PathControlsView {
    /// The name of the anchor.
    pub name: Span,

    /// A certificate of the anchor, a whole element under the tag \[0\].
    pub certificate: Span,

    /// The policies for which a path may be valid, a whole element under the tag \[1\].
    pub policies: Span,

    /// 1 where there are flags about policies, else 0.
    pub has_policy_flags: u32,

    /// The flags, as a number whose bit n stands for the named bit n; 0 where there are none.
    pub policy_flags: u32,

    /// The permitted subtrees of names, a whole element under the tag \[0\].
    pub permitted: Span,

    /// The excluded subtrees of names, a whole element under the tag \[1\].
    pub excluded: Span,

    /// 1 where it is said how many intermediate certificates may follow, else 0.
    pub has_path_len: u32,

    /// How many; 0 where it isn't said.
    pub path_len: u32,
}

/// 1 and the flags as a number, or 0 and 0 where they are left out.
fn flag_bits(flags: Option<CertPolicyFlags>) -> (u32, u32)
    ensures { IsNumber (bits_of flags) result.0 result.1 }
{
    match flags {
        None => (0, 0),
        Some(flags) => (1, u32::from(flags.bits())),
    }
}

/// Steps over constraints on names, and answers where the permitted and the excluded subtrees stand.
fn step_names(input: &[u8], at: &mut usize, names: &Option<NameConstraints>) -> (Span, Span)
    requires { at.old ≤ length input.now }
    ensures { (more : List ℕ) → drop at.old input.now ≡ names_text names.now ++ more → IsConstrained names.now more input.now result.0 result.1 }
{
    match names {
        None => (NOWHERE, NOWHERE),
        Some(names) => {
            enter(input, at);
            let permitted = step_optional(input, at, names.permitted_subtrees.is_some());
            let excluded = step_optional(input, at, names.excluded_subtrees.is_some());
            (permitted, excluded)
        }
    }
}

impl View for PathControlsView {
    ghost use Rattle.x509_c_calls.specs.Controls.{IsControls};

    type Value = CertPathControls<Rfc5280>;

    ghost shows = { IsControls };

    fn view(input: &[u8], place: usize, value: &CertPathControls<Rfc5280>) -> PathControlsView {
        let mut at = place;
        enter(input, &mut at);
        let name = step(input, &mut at, true);
        let certificate = step_optional(input, &mut at, value.certificate.is_some());
        let policies = step_optional(input, &mut at, value.policy_set.is_some());
        step(input, &mut at, value.policy_flags.is_some());
        let (has_policy_flags, policy_flags) = flag_bits(value.policy_flags);
        let (permitted, excluded) = step_names(input, &mut at, &value.name_constr);
        let (has_path_len, path_len) = optional_number(value.path_len_constraint);
        PathControlsView {
            name,
            certificate,
            policies,
            has_policy_flags,
            policy_flags,
            permitted,
            excluded,
            has_path_len,
            path_len,
        }
    }
}
