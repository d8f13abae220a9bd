//! General names, one after the other.

ghost use Rattle.std.specs.Prelude.{◌≡◌, ◌≤◌, ◌++◌, drop, length, List, ℕ};
ghost use Rattle.x509_c_calls.specs.GeneralNames.{IsOther, IsParty, held, kind_of};

use crate::payloads::calls::View;
use crate::payloads::walk::{NOWHERE, content_at, step_content, step_optional_content};
use crate::{Span, enter, step};
use x509_ext::pkix::name::GeneralName;

/// A general name (RFC 5280 4.2.1.6), by its place in the bytes of a list of general names.
#[derive(Clone, Copy)]
#[repr(C)]
pub struct GeneralNameView {
    /// The tag number, which says what kind of name it is.
    pub kind: u32,

    /// Where the whole element stands.
    pub element: Span,

    /// Where what it holds stands: the octets of a text or an address, a whole Name, the content octets of an OID, or
    /// the fields of another sequence.
    pub content: Span,

    /// Of an otherName where the content octets of its type stand; of other names both numbers are 0.
    pub type_id: Span,

    /// Of an otherName where its value stands, a whole element; of other names both numbers are 0.
    pub value: Span,

    /// Of an ediPartyName where the name of its assigner stands, the whole element of a text; both numbers are 0 where it
    /// is left out, and of other names.
    pub name_assigner: Span,

    /// Of an ediPartyName where the name of the party stands, the whole element of a text; of other names both numbers
    /// are 0.
    pub party_name: Span,
}

/// The tag number of a name.
fn kind_of(name: &GeneralName) -> u32
    ensures { result ≡ kind_of name.now }
{
    match name {
        GeneralName::OtherName(_) => 0,
        GeneralName::Rfc822Name(_) => 1,
        GeneralName::DnsName(_) => 2,
        GeneralName::DirectoryName(_) => 4,
        GeneralName::EdiPartyName(_) => 5,
        GeneralName::UniformResourceIdentifier(_) => 6,
        GeneralName::IpAddress(_) => 7,
        GeneralName::RegisteredId(_) => 8,
    }
}

/// Where the type and the value of an otherName stand whose content begins at the place.
fn other_at(input: &[u8], place: usize, name: &GeneralName) -> (Span, Span)
    requires { place ≤ length input.now }
    ensures { (behind : List ℕ) → drop place input.now ≡ held name.now ++ behind → IsOther name.now behind input.now result.0 result.1 }
{
    match name {
        GeneralName::OtherName(_) => {
            let mut at = place;
            let type_id = step_content(input, &mut at);
            (type_id, enter(input, &mut at))
        }
        GeneralName::Rfc822Name(_) => (NOWHERE, NOWHERE),
        GeneralName::DnsName(_) => (NOWHERE, NOWHERE),
        GeneralName::DirectoryName(_) => (NOWHERE, NOWHERE),
        GeneralName::EdiPartyName(_) => (NOWHERE, NOWHERE),
        GeneralName::UniformResourceIdentifier(_) => (NOWHERE, NOWHERE),
        GeneralName::IpAddress(_) => (NOWHERE, NOWHERE),
        GeneralName::RegisteredId(_) => (NOWHERE, NOWHERE),
    }
}

/// Where the names of an ediPartyName stand whose content begins at the place.
fn party_at(input: &[u8], place: usize, name: &GeneralName) -> (Span, Span)
    requires { place ≤ length input.now }
    ensures { (behind : List ℕ) → drop place input.now ≡ held name.now ++ behind → IsParty name.now behind input.now result.0 result.1 }
{
    match name {
        GeneralName::EdiPartyName(party) => {
            let mut at = place;
            let assigner = step_optional_content(input, &mut at, party.name_assigner.is_some());
            (assigner, step_content(input, &mut at))
        }
        GeneralName::OtherName(_) => (NOWHERE, NOWHERE),
        GeneralName::Rfc822Name(_) => (NOWHERE, NOWHERE),
        GeneralName::DnsName(_) => (NOWHERE, NOWHERE),
        GeneralName::DirectoryName(_) => (NOWHERE, NOWHERE),
        GeneralName::UniformResourceIdentifier(_) => (NOWHERE, NOWHERE),
        GeneralName::IpAddress(_) => (NOWHERE, NOWHERE),
        GeneralName::RegisteredId(_) => (NOWHERE, NOWHERE),
    }
}

impl View for GeneralNameView {
    ghost use Rattle.x509_c_calls.specs.GeneralNames.{IsGeneralName};

    type Value = GeneralName;

    ghost shows = { IsGeneralName };

    fn view(input: &[u8], place: usize, value: &GeneralName) -> GeneralNameView {
        let mut at = place;
        let element = step(input, &mut at, true);
        let content = content_at(input, place);
        let (type_id, other) = other_at(input, content.place, value);
        let (name_assigner, party_name) = party_at(input, content.place, value);
        GeneralNameView {
            kind: kind_of(value),
            element,
            content,
            type_id,
            value: other,
            name_assigner,
            party_name,
        }
    }
}
