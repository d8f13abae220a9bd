//! Names that can be compared with subtrees, and their keys.

ghost use Rattle.std.specs.Prelude.{◌≡◌, ◌++◌, IfOk, OnOk};
ghost use Rattle.x509_ext.specs.declared.pkix.name.general_name.GeneralName.TheVariants.{DirectoryName, Rfc822Name};
ghost use Rattle.x509_constraints.specs.Constraints as constraints;
ghost use Rattle.x509_constraints.specs.SubtreeKeys as keys;
ghost use Rattle.x509_constraints.specs.SubtreeKeys.{name_key, own_key};
ghost use Rattle.x509_constraints.specs.Uri.{host_of};

use crate::address::{is_address, push_ip};
use crate::distinguished::push_name;
use crate::email::{is_mailbox, push_email};
use crate::form::{DIRECTORY_NAME, RFC822_NAME, form_of};
use crate::host_keys::{push_dns_name, push_host};
use crate::key::Key;
use crate::uri::host_of_uri;
use std::alloc::{AllocError, Global};
use x509_ext::pkix::name::GeneralName;
use x509_host::is_host_or_wildcard;
use x509_name::name::Name;

/// Whether the name can be compared with subtrees of its form.
pub(crate) fn is_comparable(name: &GeneralName) -> bool
    ensures { result ≡ constraints.is_comparable name.now }
{
    match name {
        GeneralName::DirectoryName(_) => true,
        GeneralName::DnsName(text) => is_host_or_wildcard(text.as_str().as_bytes()),
        GeneralName::Rfc822Name(text) => is_mailbox(text.as_str().as_bytes()),
        GeneralName::UniformResourceIdentifier(text) => {
            host_of_uri(text.as_str().as_bytes()).is_some()
        }
        GeneralName::IpAddress(octets) => is_address(octets.as_bytes()),
        _ => false,
    }
}

/// Adds the key of the host of a URI.
fn push_uri(key: &mut Key, uri: &[u8]) -> Result<(), AllocError>
    ensures { OnOk result (key.new ≡ key.old ++ keys.key_of_host (host_of uri.now)) }
{
    match host_of_uri(uri) {
        Some(host) => push_host(key, host),
        None => Ok(()),
    }
}

/// Adds the key of a name, without its form.
fn push_own_key(alloc: Global, key: &mut Key, name: &GeneralName) -> Result<(), AllocError>
    ensures { OnOk result (key.new ≡ key.old ++ own_key name.now) }
{
    match name {
        GeneralName::DirectoryName(name) => push_name(alloc, key, name),
        GeneralName::DnsName(text) => push_dns_name(key, text.as_str().as_bytes()),
        GeneralName::Rfc822Name(text) => push_email(key, text.as_str().as_bytes()),
        GeneralName::UniformResourceIdentifier(text) => push_uri(key, text.as_str().as_bytes()),
        GeneralName::IpAddress(octets) => push_ip(key, octets.as_bytes()),
        _ => Ok(()),
    }
}

/// The key of a directory name.
pub(crate) fn key_of_directory_name(alloc: Global, name: &Name) -> Result<Key, AllocError>
    ensures { IfOk result (λ key. key ≡ name_key (DirectoryName name.now)) }
{
    let mut key = Key::of_form(alloc, DIRECTORY_NAME)?;
    push_name(alloc, &mut key, name)?;
    Ok(key)
}

/// The key of an address of e-mail.
pub(crate) fn key_of_email(alloc: Global, address: &[u8]) -> Result<Key, AllocError>
    ensures { IfOk result (λ key. key ≡ name_key (Rfc822Name address.now)) }
{
    let mut key = Key::of_form(alloc, RFC822_NAME)?;
    push_email(&mut key, address)?;
    Ok(key)
}

/// The key of a name.
pub(crate) fn key_of(alloc: Global, name: &GeneralName) -> Result<Key, AllocError>
    ensures { IfOk result (λ key. key ≡ name_key name.now) }
{
    let mut key = Key::of_form(alloc, form_of(name))?;
    push_own_key(alloc, &mut key, name)?;
    Ok(key)
}
