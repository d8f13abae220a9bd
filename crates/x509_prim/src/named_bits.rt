//! Sets of named bits (X.680 22.7).

ghost use Rattle.std.specs.Prelude.{◌≡◌, Some, None, IfErr};
ghost use Rattle.x509_der.specs.declared.error.ErrorKind.TheVariants.{Malformed};
ghost use Rattle.x509_der.specs.Outcome.{GivesBy};
ghost use Rattle.x509_der.specs.Writing.{Puts};
ghost use Rattle.x509_der.specs.Order.{bytes_cmp};
ghost use Rattle.x509_prim.specs.NamedBits as grammar;
ghost use Rattle.x509_prim.specs.SetOrder.{set_order, unused_of};

use bitflags::Flags;
use std::cmp::Ordering;
use x509_der::{Error, ErrorKind, Room};

/// The octet of eight named bits, of which the first is the highest bit; or these bits of such an octet.
#[tactic(auto, unfolding(crate::specs::NamedBits::turned))]
fn turn(bits: u8) -> u8
    ensures { result ≡ grammar.turned bits }
{
    128 * (bits % 2)
        + 64 * (bits / 2 % 2)
        + 32 * (bits / 4 % 2)
        + 16 * (bits / 8 % 2)
        + 8 * (bits / 16 % 2)
        + 4 * (bits / 32 % 2)
        + 2 * (bits / 64 % 2)
        + bits / 128 % 2
}

/// How many bits of the octet of these named bits come after the last of them.
#[tactic(auto, unfolding(crate::specs::NamedBits::unused_after))]
fn unused_after(bits: u8) -> u8
    ensures { result ≡ grammar.unused_after bits }
{
    match bits {
        0..=1 => 7,
        2..=3 => 6,
        4..=7 => 5,
        8..=15 => 4,
        16..=31 => 3,
        32..=63 => 2,
        64..=127 => 1,
        _ => 0,
    }
}

/// Whether the last octet ends with the last of its named bits.
fn check_end(unused: u8, octet: u8) -> bool
    ensures { result ≡ grammar.ends unused octet }
{
    let bits = turn(octet);
    bits != 0 && unused == unused_after(bits)
}

/// The set that has these content octets; `None` where the string ends in a zero bit or an unused bit is one.
#[tactic(auto, unfolding(crate::specs::NamedBits::set_at))]
fn set_of_content(content: &[u8]) -> Option<u16>
    ensures { result ≡ grammar.set_at content.now }
{
    match content {
        [0] => Some(0),
        [unused, octet] if check_end(*unused, *octet) => Some(turn(*octet) as u16),
        [unused, first, last] if check_end(*unused, *last) => {
            Some(turn(*first) as u16 + 256 * turn(*last) as u16)
        }
        _ => None,
    }
}

/// Puts the content octets of a set.
#[tactic(auto, unfolding(crate::specs::NamedBits::set_octets))]
fn put_set<R: Room>(set: u16, room: &mut R) -> Result<(), Error>
    ensures { Puts R.kind (grammar.set_octets set) None result room.old room.new }
{
    let low = (set % 256) as u8;
    let high = (set / 256) as u8;
    if set == 0 {
        room.put(&[0])
    } else if set < 256 {
        room.put(&[unused_after(low), turn(low)])
    } else {
        room.put(&[unused_after(high), turn(low), turn(high)])
    }
}

/// The value with these content octets.
///
/// # Errors
///
/// `Malformed` where no value has them: a zero bit ends the string, an unused bit is one, or a bit has no name.
#[tactic(auto, unfolding(crate::specs::NamedBits::named_reading))]
pub fn read_named_bits<T: Flags<Bits = u16>>(octets: &[u8]) -> Result<T, Error>
    ensures exact { T.exact → GivesBy T.set_of result (grammar.named_reading T.table octets.now) }
    ensures err { IfErr result (λ e. e.kind ≡ Malformed) }
{
    let Some(set) = set_of_content(octets) else {
        return Err(ErrorKind::Malformed.into());
    };
    let value = T::from_bits_retain(set);
    if value.contains_unknown_bits() {
        return Err(ErrorKind::Malformed.into());
    }
    Ok(value)
}

/// Puts the content octets of the value into the room.
///
/// # Errors
///
/// `Value` where a bit of it has no name; `Overlength` where there is no place in the room for the octets; `Memory`
/// when out of memory, only for a room that takes memory.
pub fn put_named_bits<T: Flags<Bits = u16>, R: Room>(value: &T, room: &mut R) -> Result<(), Error>
    ensures { T.exact → let written = grammar.named_written T.table (T.set_of value.now) in Puts R.kind
        (grammar.set_octets written.value) written.refusal result room.old room.new }
{
    if value.contains_unknown_bits() {
        return Err(ErrorKind::Value.into());
    }
    put_set(value.bits(), room)
}

/// How many bits the content octets of the set say to be unused.
#[tactic(auto, unfolding(crate::specs::SetOrder::unused_of))]
fn unused_bits(set: u16) -> u8
    ensures { result ≡ unused_of set }
{
    match set {
        0 => 0,
        1..=255 => unused_after(set as u8),
        _ => unused_after((set / 256) as u8),
    }
}

/// The byte order of the contents of two sets. An octet that one of them lacks is zero here: the last octet of a
/// content never is.
#[tactic(auto, using(crate::specs::SetOrder::sets_cmp))]
fn cmp_sets(a: u16, b: u16) -> Ordering
    ensures { result ≡ bytes_cmp (grammar.set_octets a) (grammar.set_octets b) }
{
    let low = turn((a % 256) as u8).cmp(&turn((b % 256) as u8));
    let high = turn((a / 256) as u8).cmp(&turn((b / 256) as u8));
    unused_bits(a).cmp(&unused_bits(b)).then(low).then(high)
}

/// The byte order of the contents of the values. It takes no memory. Values with bits that have no name are ordered as
/// if these bits had one.
pub fn cmp_named_bits<T: Flags<Bits = u16>>(a: &T, b: &T) -> Ordering
    ensures { T.exact → result ≡ set_order (T.set_of a.now) (T.set_of b.now) }
{
    cmp_sets(a.bits(), b.bits()).then(a.bits().cmp(&b.bits()))
}
