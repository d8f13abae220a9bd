//! Numbers with names (X.680 19.5, 20.5).

ghost use Rattle.std.specs.Prelude.{◌≡◌, ◌^◌, None, IfErr};
ghost use Rattle.x509_der.specs.declared.error.ErrorKind.TheVariants.{Malformed};
ghost use Rattle.x509_der.specs.Outcome.{Gives};
ghost use Rattle.x509_der.specs.Natural.{natural_octets, natural_reading};
ghost use Rattle.x509_der.specs.Writing.{Puts};
ghost use Rattle.x509_der.specs.Order.{bytes_cmp};
ghost use Rattle.x509_prim.specs.Names.{named_reading};

use std::cmp::Ordering;
use x509_der::{Error, ErrorKind, Room, cmp_naturals, put_natural, read_natural};

/// A type of which each value is a number with a name.
pub trait NamedNumber: Sized {
    ghost use Rattle.std.specs.Prelude.{◌≡◌};
    ghost use Rattle.x509_prim.specs.Names.{Names, named};

    /// The values and their numbers.
    ghost names: { Names Self };

    /// The number of the value.
    fn number(&self) -> u8
        ensures { result ≡ names.number self.now };

    /// The value with that number, where there is one.
    fn from_number(number: u8) -> Option<Self>
        ensures { result ≡ named names number };
}

/// The number of the content octets of an INTEGER; `Malformed` where it isn't from 0 to 255 (X.690 8.3).
#[tactic(auto, unfolding(x509_der::specs::Natural::natural_reading))]
fn read_number(octets: &[u8]) -> Result<u8, Error>
    ensures exact { Gives result (natural_reading (2 ^ 8) octets.now) }
    ensures err { IfErr result (λ e. e.kind ≡ Malformed) }
{
    match u8::try_from(read_natural(octets)?) {
        Ok(number) => Ok(number),
        Err(_) => Err(ErrorKind::Malformed.into()),
    }
}

/// The value with these content octets, which are those of an INTEGER (X.690 8.3, 8.4).
///
/// # Errors
///
/// `Malformed` exactly where no value has their number.
#[tactic(auto, unfolding(crate::specs::Names::named_reading))]
pub fn read_named_number<T: NamedNumber>(octets: &[u8]) -> Result<T, Error>
    ensures exact { Gives result (named_reading T.names octets.now) }
    ensures err { IfErr result (λ e. e.kind ≡ Malformed) }
{
    match T::from_number(read_number(octets)?) {
        Some(value) => Ok(value),
        None => Err(ErrorKind::Malformed.into()),
    }
}

/// Puts the content octets of the value, those of its number as an INTEGER, into the room (X.690 8.3, 8.4).
///
/// # Errors
///
/// `Overlength` where there is no place in the room for the octets; `Memory` when out of memory, only for a room that
/// takes memory.
pub fn put_named_number<T: NamedNumber, R: Room>(value: &T, room: &mut R) -> Result<(), Error>
    ensures { Puts R.kind (natural_octets (T.names.number value.now)) None result room.old room.new }
{
    put_natural(u128::from(value.number()), room)
}

/// The byte order of the contents of the values. It takes no memory.
pub fn cmp_named_numbers<T: NamedNumber>(a: &T, b: &T) -> Ordering
    ensures { result ≡ bytes_cmp (natural_octets (T.names.number a.now)) (natural_octets (T.names.number b.now)) }
{
    cmp_naturals(u128::from(a.number()), u128::from(b.number()))
}
