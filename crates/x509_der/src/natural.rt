//! INTEGER from 0 on (X.690 8.3), as `u8`, `u16`, `u32`, `u64` and `u128`.

ghost use Rattle.std.specs.Prelude.{◌≡◌, ◌^◌, None, IfErr};
ghost use Rattle.x509_der.specs.declared.error.ErrorKind.TheVariants.{Malformed};
ghost use Rattle.x509_der.specs.Natural.{is_natural, natural_octets, natural_reading};
ghost use Rattle.x509_der.specs.Outcome.{Gives};
ghost use Rattle.x509_der.specs.Writing.{Puts};

use crate::room::Room;
use crate::{Error, ErrorKind};

/// Whether the octets are an INTEGER content of a number from 0 on in at most 17 octets.
#[tactic(auto, using(crate::proofs::Naturals::octets_are_octets))]
fn check_natural(content: &[u8]) -> bool
    ensures { result ≡ is_natural content.now }
{
    let shortest = match content {
        [] => false,
        [a] => *a < 128,
        [a, b, ..] => *a < 128 && !(*a == 0 && *b < 128),
    };
    shortest && content.len() <= 17
}

/// The number of the content octets of an INTEGER.
///
/// # Errors
///
/// `Malformed` exactly where it is below 0, not in as few octets as possible, or 2<sup>128</sup> and more (X.690 8.3).
#[tactic(auto, unfolding(crate::specs::Natural::natural_reading))]
pub fn read_natural(content: &[u8]) -> Result<u128, Error>
    ensures exact { Gives result (natural_reading (2 ^ 128) content.now) }
    ensures err { IfErr result (λ e. e.kind ≡ Malformed) }
{
    if !check_natural(content) {
        return Err(ErrorKind::Malformed.into());
    }
    let mut number: u128 = 0;
    for octet in content {
        if number >= 1 << 120 {
            return Err(ErrorKind::Malformed.into());
        }
        number = 256 * number + u128::from(*octet);
    }
    Ok(number)
}

/// Puts the content octets of the number as an INTEGER in front of the bytes that stand in the room.
///
/// # Errors
///
/// `Overlength` where there is no place in the room; `Memory` when out of memory, only for a room that takes memory.
pub fn put_natural<R: Room>(number: u128, room: &mut R) -> Result<(), Error>
    ensures { Puts R.kind (natural_octets number) None result room.old room.new }
{
    let mut rest = number;
    while rest >= 128 {
        room.put(&[(rest % 256) as u8])?;
        rest /= 256;
    }
    room.put(&[rest as u8])
}
