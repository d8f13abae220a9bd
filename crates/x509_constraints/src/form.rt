//! The forms of general names (RFC 5280 4.2.1.6), each by the number of its tag.

ghost use Rattle.std.specs.Prelude.{◌≡◌, ◌<◌, ◌==◌};
ghost use Rattle.x509_constraints.specs.Constraints as constraints;
ghost use Rattle.x509_constraints.specs.SubtreeKeys as keys;

use x509_ext::pkix::constraints::name::GeneralSubtree;
use x509_ext::pkix::name::GeneralName;

pub(crate) const OTHER_NAME: u16 = 0;

pub(crate) const RFC822_NAME: u16 = 1;

pub(crate) const DNS_NAME: u16 = 2;

/// No type has it here.
pub(crate) const X400_ADDRESS: u16 = 3;

pub(crate) const DIRECTORY_NAME: u16 = 4;

pub(crate) const EDI_PARTY_NAME: u16 = 5;

pub(crate) const URI: u16 = 6;

pub(crate) const IP_ADDRESS: u16 = 7;

pub(crate) const REGISTERED_ID: u16 = 8;

/// How many forms there are.
pub(crate) const FORMS: usize = 9;

/// The form of a name.
pub(crate) fn form_of(name: &GeneralName) -> u16
    ensures value { result ≡ constraints.form_of name.now }
    ensures few { result < 9 }
{
    match name {
        GeneralName::OtherName(_) => OTHER_NAME,
        GeneralName::Rfc822Name(_) => RFC822_NAME,
        GeneralName::DnsName(_) => DNS_NAME,
        GeneralName::DirectoryName(_) => DIRECTORY_NAME,
        GeneralName::EdiPartyName(_) => EDI_PARTY_NAME,
        GeneralName::UniformResourceIdentifier(_) => URI,
        GeneralName::IpAddress(_) => IP_ADDRESS,
        GeneralName::RegisteredId(_) => REGISTERED_ID,
    }
}

/// Whether the name has the form.
fn is_of_form(form: u16, name: &GeneralName) -> bool
    ensures { result ≡ (constraints.form_of name.now == form) }
{
    form_of(name) == form
}

/// Whether some subtree has the form.
pub(crate) fn has_form(form: u16, subtrees: &[GeneralSubtree]) -> bool
    ensures { result ≡ keys.has_form form subtrees.now }
{
    subtrees
        .iter()
        .any(|subtree| is_of_form(form, &subtree.base))
}
