//! Which subtrees can be used, and which constraints a certificate may have (RFC 5280 4.2.1.10).

ghost use Rattle.std.specs.Prelude.{◌≡◌, ◌↔◌, ◌==◌, ◌&&◌, not, [], IsTrue, Some};
ghost use Rattle.std.specs.Option.{option_copied};
ghost use Rattle.x509_constraints.specs.Constraints as constraints;
ghost use Rattle.x509_constraints.specs.Constraints.{IsUsable};

use crate::address::is_address_subtree;
use crate::email::{is_mailbox, split_mailbox};
use crate::form::form_of;
use crate::uri::is_named;
use x509_ext::pkix::NameConstraints;
use x509_ext::pkix::constraints::name::{GeneralSubtree, GeneralSubtrees};
use x509_ext::pkix::name::GeneralName;
use x509_host::is_host;

/// What stands behind a dot in front, and else the whole.
fn without_dot(base: &[u8]) -> &[u8]
    ensures { result.now ≡ constraints.without_dot base.now }
{
    match base {
        [b'.', behind @ ..] => behind,
        _ => base,
    }
}

/// Whether the base is empty or a host, with or without a dot in front.
fn is_hosts(base: &[u8]) -> bool
    ensures { result ≡ constraints.is_hosts base.now }
{
    match base {
        [] => true,
        [_, ..] => is_host(without_dot(base)),
    }
}

/// Whether the base is such, and no address.
fn is_named_hosts(base: &[u8]) -> bool
    ensures { result ≡ constraints.is_named_hosts base.now }
{
    match base {
        [] => true,
        [_, ..] => is_named(without_dot(base)),
    }
}

/// Whether the base is a mailbox, or the hosts of some.
fn is_mailboxes(base: &[u8]) -> bool
    ensures { result ≡ constraints.is_mailboxes base.now }
{
    match split_mailbox(base) {
        Some(_) => is_mailbox(base),
        None => is_hosts(base),
    }
}

/// Whether the base has the syntax that names of its form are compared by, or that form isn't compared.
fn is_usable_base(base: &GeneralName) -> bool
    ensures { result ≡ constraints.is_usable_base base.now }
{
    match base {
        GeneralName::DnsName(text) => is_hosts(text.as_str().as_bytes()),
        GeneralName::Rfc822Name(text) => is_mailboxes(text.as_str().as_bytes()),
        GeneralName::UniformResourceIdentifier(text) => is_named_hosts(text.as_str().as_bytes()),
        GeneralName::IpAddress(octets) => is_address_subtree(octets.as_bytes()),
        _ => true,
    }
}

/// Whether names can be asked whether they are within the subtree.
fn is_usable_subtree(subtree: &GeneralSubtree) -> bool
    ensures { result ≡ constraints.is_usable_subtree subtree.now }
{
    subtree.minimum == 0 && subtree.maximum.is_none() && is_usable_base(&subtree.base)
}

/// Whether the subtree has the form and can't be used.
fn is_unusable(form: u16, subtree: &GeneralSubtree) -> bool
    ensures { result ≡ ((constraints.form_of subtree.now.base == form) && not (constraints.is_usable_subtree subtree.now)) }
{
    form_of(&subtree.base) == form && !is_usable_subtree(subtree)
}

/// Whether some subtree of the form can't be used.
pub(crate) fn has_unusable(form: u16, subtrees: &[GeneralSubtree]) -> bool
    ensures { result ≡ constraints.has_unusable form subtrees.now }
{
    subtrees.iter().any(|subtree| is_unusable(form, subtree))
}

/// Whether a list that is there has a subtree.
fn has_one(subtrees: &Option<GeneralSubtrees>) -> bool
    ensures { IsTrue result ↔ (subtrees.now ≡ Some [] → ⊥) }
{
    match subtrees {
        None => true,
        Some(list) => !list.as_slice().is_empty(),
    }
}

/// Whether a certificate may have the constraints (RFC 5280 4.2.1.10): a list of subtrees that is there has one. It takes
/// no memory. A minimum, a maximum and an odd base are judged where a name of their form is asked
/// ([`ConstraintSets`](crate::ConstraintSets)).
pub fn is_usable(constraints: &NameConstraints) -> bool
    ensures { IsTrue result ↔ IsUsable constraints.now }
{
    has_one(&constraints.permitted_subtrees) && has_one(&constraints.excluded_subtrees)
}
