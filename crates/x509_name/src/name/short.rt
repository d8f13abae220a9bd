//! RDNs of one attribute, with a type of three octets and lengths of one octet each, as nearly all are: read and written
//! in one go.

ghost use Rattle.std.specs.Prelude.{◌≡◌, ◌<◌, ◌++◌, [], ◌∷◌, length, None, Ok, IfSome};
ghost use Rattle.x509_der.specs.Element.{element};
ghost use Rattle.x509_der.specs.Form.{spelling};
ghost use Rattle.x509_der.specs.List.{members_refusal, members_text};
ghost use Rattle.x509_der.specs.Writing.{Puts, plain, writes};
ghost use Rattle.x509_name.specs.Names.{attribute_set, relative_distinguished_name};

use crate::attr::AttributeTypeAndValue;
use crate::name::rdn::RelativeDistinguishedName;
use std::alloc::Global;
use x509_der::{Any, Decode, Encode, Error, ObjectIdentifier, Room};

/// The RDN with these content octets. `None` where its lengths aren't so short, or where it isn't read at all.
#[inline(always)]
pub(crate) fn read_short(alloc: Global, octets: &[u8]) -> Option<RelativeDistinguishedName>
    ensures { IfSome result (λ rdn. attribute_set.reading octets.now ≡ Ok rdn) }
{
    let [
        sequence,
        len,
        oid_tag,
        oid_len,
        a,
        b,
        c,
        tag,
        value_len,
        content @ ..,
    ] = octets
    else {
        return None;
    };
    if *sequence != 0x30
        || *oid_tag != 0x06
        || *oid_len != 3
        || *len >= 128
        || *len as usize != content.len() + 7
        || *value_len as usize != content.len()
    {
        return None;
    }
    let Ok(oid) = ObjectIdentifier::from_bytes(&[*a, *b, *c]) else {
        return None;
    };
    let Ok(value) = Any::read(alloc, *tag, content) else {
        return None;
    };
    Some(RelativeDistinguishedName::from_one(alloc, AttributeTypeAndValue { oid, value }))
}

/// The first length of a value's content with which a length of the RDN has two octets.
const LONG: usize = 119;

/// Puts the RDN of the attribute with the type of these octets, and the value of the identifier octet and content.
#[inline(always)]
fn put_short<R: Room>(
    a: u8,
    b: u8,
    c: u8,
    tag: u8,
    content: &[u8],
    room: &mut R,
) -> Result<(), Error>
    requires { length content.now < 119 }
    ensures { Puts R.kind (element 49 (element 48 (element 6 (a ∷ b ∷ c ∷ []) ++ element tag content.now))) None result room.old room.new }
{
    room.put(content)?;
    let len = content.len() as u8;
    room.put(&[0x31, len + 9, 0x30, len + 7, 0x06, 3, a, b, c, tag, len])
}

/// Puts the RDN in front of the bytes that stand in the room.
///
/// # Errors
///
/// Those of `put_element`.
#[inline(always)]
fn put_rdn<R: Room>(rdn: &RelativeDistinguishedName, room: &mut R) -> Result<(), Error>
    ensures { Puts R.kind (spelling relative_distinguished_name rdn.now) None result room.old room.new }
{
    if let [attribute] = rdn.as_slice() {
        if let [a, b, c] = attribute.oid.as_bytes() {
            let content = attribute.value.value();
            if content.len() < LONG {
                return put_short(*a, *b, *c, attribute.value.tag().octet(), content, room);
            }
        }
    }
    rdn.put_element(room)
}

/// Puts the RDNs in front of the bytes that stand in the room, the last first.
///
/// # Errors
///
/// Those of `put_rdn`.
pub(crate) fn put_rdns<R: Room>(
    rdns: &[RelativeDistinguishedName],
    room: &mut R,
) -> Result<(), Error>
    ensures { Puts R.kind (members_text relative_distinguished_name (writes plain) rdns.now) (members_refusal (writes plain) rdns.now) result room.old room.new }
{
    let mut i = rdns.len();
    while i > 0 {
        i -= 1;
        let rdn = &rdns[i];
        put_rdn(rdn, room)?;
    }
    Ok(())
}
