//! What is asked of authorities that are constrained, and of the bases of name constraints.

ghost use Rattle.std.specs.List.{list_all, list_any};
ghost use Rattle.std.specs.Prelude.{◌≡◌, ◌==◌};
ghost use Rattle.x509_lint_web.specs.Constrained as grammar;

use crate::precertificates::is_signer;
use crate::scope::{SERVER_AUTH, has_purpose, is_authority};
use crate::values::WebValues;
use x509_ext::pkix::NameConstraints;
use x509_ext::pkix::constraints::name::{GeneralSubtree, GeneralSubtrees};
use x509_ext::pkix::name::GeneralName;
use x509_lint::passes;

/// A kind of base of a subtree (RFC 5280 4.2.1.10).
#[derive(Clone, Copy)]
pub(crate) enum Base {
    /// A dNSName.
    DnsName,

    /// A directoryName.
    DirectoryName,

    /// An iPAddress.
    Address,

    /// All addresses of IPv4.
    AllIpv4,

    /// All addresses of IPv6.
    AllIpv6,
}

/// Whether cA is set, and an EKU has neither serverAuth nor the purpose of those who sign precertificates.
pub(crate) fn is_apart(values: &WebValues) -> bool
    ensures { result ≡ grammar.is_apart values.now }
{
    is_authority(values)
        && (!has_purpose(SERVER_AUTH, &values.extended_key_usage) && !is_signer(values))
}

fn are_all_zero(mut octets: &[u8]) -> bool
    ensures { result ≡ list_all (λ octet. octet == 0) octets.entry.now }
{
    while let [first, rest @ ..] = octets {
        if *first != 0 {
            return false;
        }
        octets = rest;
    }
    true
}

fn are_zeros(count: usize, octets: &[u8]) -> bool
    ensures { result ≡ grammar.are_zeros count octets.now }
{
    octets.len() == count && are_all_zero(octets)
}

fn is_dns(base: Base) -> bool
    ensures { result ≡ grammar.is_dns base }
{
    match base {
        Base::DnsName => true,
        _ => false,
    }
}

fn is_directory(base: Base) -> bool
    ensures { result ≡ grammar.is_directory base }
{
    match base {
        Base::DirectoryName => true,
        _ => false,
    }
}

fn is_address(base: Base, octets: &[u8]) -> bool
    ensures { result ≡ grammar.is_address base octets.now }
{
    match base {
        Base::Address => true,
        Base::AllIpv4 => are_zeros(8, octets),
        Base::AllIpv6 => are_zeros(32, octets),
        _ => false,
    }
}

fn is_base(base: Base, name: &GeneralName) -> bool
    ensures { result ≡ grammar.is_base base name.now }
{
    match name {
        GeneralName::DnsName(_) => is_dns(base),
        GeneralName::DirectoryName(_) => is_directory(base),
        GeneralName::IpAddress(octets) => is_address(base, octets.as_bytes()),
        _ => false,
    }
}

fn is_base_among(base: Base, mut subtrees: &[GeneralSubtree]) -> bool
    ensures { result ≡ list_any (λ subtree. grammar.is_base base subtree.base) subtrees.entry.now }
{
    while let [first, rest @ ..] = subtrees {
        if is_base(base, &first.base) {
            return true;
        }
        subtrees = rest;
    }
    false
}

/// Whether the list is there, and a subtree has such a base.
fn has_base(base: Base, subtrees: &Option<GeneralSubtrees>) -> bool
    ensures { result ≡ grammar.has_base base subtrees.now }
{
    passes!(subtrees, subtrees => is_base_among(base, subtrees.as_slice()))
}

/// Whether some addresses are permitted, or all are excluded.
fn constrains_addresses(constraints: &NameConstraints) -> bool
    ensures { result ≡ grammar.constrains_addresses constraints.now }
{
    has_base(Base::Address, &constraints.permitted_subtrees)
        || (has_base(Base::AllIpv4, &constraints.excluded_subtrees)
            && has_base(Base::AllIpv6, &constraints.excluded_subtrees))
}

/// Whether a dNSName is permitted, and addresses are neither permitted nor all excluded.
pub(crate) fn lacks_addresses(constraints: &NameConstraints) -> bool
    ensures { result ≡ grammar.lacks_addresses constraints.now }
{
    has_base(Base::DnsName, &constraints.permitted_subtrees) && !constrains_addresses(constraints)
}

/// Whether a dNSName is permitted, and no directoryName.
pub(crate) fn lacks_directory_names(constraints: &NameConstraints) -> bool
    ensures { result ≡ grammar.lacks_directory_names constraints.now }
{
    has_base(Base::DnsName, &constraints.permitted_subtrees)
        && !has_base(Base::DirectoryName, &constraints.permitted_subtrees)
}
