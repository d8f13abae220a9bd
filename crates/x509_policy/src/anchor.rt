//! Policies of trust anchors (RFC 5914 2.4, RFC 5937 3.2).

ghost use Rattle.std.specs.Prelude.{◌≡◌, ◌↔◌, IfOk, Some};
ghost use Rattle.std.specs.Option.{option_map};
ghost use Rattle.x509_policy.specs.Anchors.{IsMerged, with_flags};
ghost use Rattle.x509_policy.specs.Levels.{In};
ghost use Rattle.x509_policy.specs.Values.{Policy};
ghost use Rattle.x509_policy.specs.Views.{octets_of, settings_of};

use crate::set::PolicySet;
use crate::values::PolicySettings;
use crate::way_back::asked;
use std::alloc::{AllocError, Global};

/// The policy flags of a trust anchor (RFC 5914 2.4), or what a certificate that stands for one says in their place.
#[derive(Clone, Copy, Debug, PartialEq, Eq)]
pub struct AnchorFlags {
    /// inhibitPolicyMapping.
    pub inhibit_policy_mapping: bool,

    /// requireExplicitPolicy.
    pub require_explicit_policy: bool,

    /// inhibitAnyPolicy.
    pub inhibit_any_policy: bool,
}

/// The policies that a caller accepts below a trust anchor with a policy set, or without one: those that both have, where
/// any-policy stands for each (RFC 5937 3.2).
///
/// # Errors
///
/// When out of memory.
pub fn merged_policies<'a>(
    alloc: Global,
    user: &[&'a [u8]],
    anchor: Option<&[&'a [u8]]>,
) -> Result<Vec<&'a [u8]>, AllocError>
    ensures { IfOk result (λ found. (p : Policy) → In p (octets_of found.items)
        ↔ IsMerged (octets_of user.now) (option_map (λ s. octets_of s.now) anchor.entry) p) }
{
    match anchor {
        Some(anchor) => common(alloc, user, anchor),
        None => Vec::from_slice(alloc, user),
    }
}

/// The policies that both have.
fn common<'a>(
    alloc: Global,
    user: &[&'a [u8]],
    anchor: &[&'a [u8]],
) -> Result<Vec<&'a [u8]>, AllocError>
    ensures { IfOk result (λ found. (p : Policy) → In p (octets_of found.items) ↔ IsMerged (octets_of user.now) (Some (octets_of anchor.now)) p) }
{
    let of_anchor = PolicySet::new(Vec::from_slice(alloc, anchor)?);
    let of_user = PolicySet::new(Vec::from_slice(alloc, user)?);
    let mut found = asked(alloc, user, &of_anchor)?;
    let mut others = asked(alloc, anchor, &of_user)?;
    found.append(&mut others)?;
    Ok(PolicySet::new(found).into_vec())
}

impl<'s, 'a> PolicySettings<'s, 'a> {
    /// These settings with the policies that are accepted below a trust anchor and with its flags (RFC 5937 3.2).
    pub fn with_anchor(
        &self,
        policies: &'s [&'a [u8]],
        flags: &AnchorFlags,
    ) -> PolicySettings<'s, 'a>
        ensures { settings_of result ≡ with_flags (settings_of self.now) (octets_of policies.now) flags.now }
    {
        PolicySettings {
            user_initial_policy_set: policies,
            initial_policy_mapping_inhibit: self.initial_policy_mapping_inhibit
                || flags.inhibit_policy_mapping,
            initial_explicit_policy: self.initial_explicit_policy || flags.require_explicit_policy,
            initial_any_policy_inhibit: self.initial_any_policy_inhibit || flags.inhibit_any_policy,
        }
    }
}
