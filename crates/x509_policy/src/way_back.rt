//! The way back through the levels of a path, to the policies that its last certificate is valid under (RFC 5280 6.1.5 (g)).

ghost use Rattle.std.specs.Prelude.{◌≡◌, ◌↔◌, ◌∷◌, ◌++◌, IfOk, OnOk};
ghost use Rattle.x509_policy.specs.Edges as edges;
ghost use Rattle.x509_policy.specs.Edges.{leads_of};
ghost use Rattle.x509_policy.specs.Follows.{last_of, levels_of};
ghost use Rattle.x509_policy.specs.Levels.{GoesBack, In, IsConstrained};
ghost use Rattle.x509_policy.specs.Stands.{AllHang};
ghost use Rattle.x509_policy.specs.Values.{Policy, has};
ghost use Rattle.x509_policy.specs.Views.{octets_of};

use crate::checks::{ANY_POLICY, has_policy, is_any_policy};
use crate::level::{Lead, Level, NextLevel};
use crate::set::PolicySet;
use std::alloc::{AllocError, Global};

/// The policies above that lead to one that is reached.
fn parents<'a>(
    alloc: Global,
    leads: &[Lead<'a>],
    reached: &PolicySet<'_>,
) -> Result<Vec<&'a [u8]>, AllocError>
    ensures { IfOk result (λ found. octets_of found.items ≡ edges.parents (has reached.now) (leads_of leads.now)) }
{
    let mut found = Vec::new(alloc);
    for lead in leads {
        if reached.contains(lead.valid) {
            found.push(lead.parent)?;
        }
    }
    Ok(found)
}

/// Pushes the policies right below any-policy that are reached.
fn push_firsts<'a>(
    found: &mut Vec<&'a [u8]>,
    leads: &[Lead<'a>],
    reached: &PolicySet<'_>,
) -> Result<(), AllocError>
    ensures { OnOk result (octets_of found.new.items ≡ octets_of found.old.items ++ edges.firsts (has reached.now) (leads_of leads.now)) }
{
    for lead in leads {
        let valid = lead.valid;
        if is_any_policy(lead.parent) && !is_any_policy(valid) && reached.contains(valid) {
            found.push(valid)?;
        }
    }
    Ok(())
}

/// One step of the way back: pushes the policies right below any-policy that are reached, and gives those above that lead to
/// one that is.
fn step<'a>(
    alloc: Global,
    found: &mut Vec<&'a [u8]>,
    leads: &[Lead<'a>],
    reached: &PolicySet<'_>,
) -> Result<PolicySet<'a>, AllocError>
    ensures found { OnOk result (octets_of found.new.items ≡ octets_of found.old.items ++ edges.firsts (has reached.now) (leads_of leads.now)) }
    ensures above { IfOk result (λ above. has above ≡ has (edges.parents (has reached.now) (leads_of leads.now))) }
{
    push_firsts(found, leads, reached)?;
    Ok(PolicySet::new(parents(alloc, leads, reached)?))
}

/// The policies right below any-policy from which a way leads to the last level, which is `next`.
fn firsts<'a>(
    alloc: Global,
    levels: &[Level<'a>],
    next: &NextLevel<'a>,
) -> Result<Vec<&'a [u8]>, AllocError>
    ensures { IfOk result (λ found. GoesBack (last_of next.now ∷ levels_of levels.now) next.now.policies (octets_of found.items)) }
{
    let mut found = Vec::new(alloc);
    let mut reached = step(alloc, &mut found, &next.leads, &next.policies)?;
    let mut left = levels.len();
    while left > 0 {
        left -= 1;
        reached = step(alloc, &mut found, &levels[left].leads, &reached)?;
    }
    Ok(found)
}

/// Pushes any-policy, where it is in the set.
fn push_any<'a>(found: &mut Vec<&'a [u8]>, policies: &PolicySet<'_>) -> Result<(), AllocError>
    ensures { OnOk result (octets_of found.new.items ≡ octets_of found.old.items ++ edges.with_any policies.now) }
{
    if policies.contains(ANY_POLICY.as_slice()) {
        found.push(ANY_POLICY.as_slice())?;
    }
    Ok(())
}

/// The policies of the user's that lead to the last level, where any-policy stands for all.
pub(crate) fn asked<'a>(
    alloc: Global,
    user: &[&'a [u8]],
    leading: &PolicySet<'_>,
) -> Result<Vec<&'a [u8]>, AllocError>
    ensures { IfOk result (λ found. octets_of found.items ≡ edges.asked (octets_of user.now) (has leading.now)) }
{
    let all = leading.contains(ANY_POLICY.as_slice());
    let mut found = Vec::new(alloc);
    for policy in user {
        if leading.contains(policy) || all {
            found.push(*policy)?;
        }
    }
    Ok(found)
}

/// Those that lead, where the user asks for any, else the user's.
fn chosen<'a>(
    alloc: Global,
    user: &[&'a [u8]],
    leading: PolicySet<'a>,
) -> Result<PolicySet<'a>, AllocError>
    ensures { IfOk result (λ found. has found ≡ has (edges.constrained (octets_of user.now) leading.entry)) }
{
    if has_policy(user, ANY_POLICY.as_slice()) {
        return Ok(leading);
    }
    // The user may ask for a policy twice.
    Ok(PolicySet::new(asked(alloc, user, &leading)?))
}

/// The user-constrained policy set of a path with these levels, of which `next` is the last, where the user asks for these.
pub(crate) fn constrained<'a>(
    alloc: Global,
    user: &[&'a [u8]],
    levels: &[Level<'a>],
    next: &NextLevel<'a>,
) -> Result<PolicySet<'a>, AllocError>
    ensures { edges.ListsEnds next.now → AllHang (last_of next.now ∷ levels_of levels.now)
        → IfOk result (λ found. (p : Policy) → In p found ↔ IsConstrained (octets_of user.now) (last_of next.now ∷ levels_of levels.now) p) }
{
    let mut found = firsts(alloc, levels, next)?;
    push_any(&mut found, &next.policies)?;
    chosen(alloc, user, PolicySet::new(found))
}
