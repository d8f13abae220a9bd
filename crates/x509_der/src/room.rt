//! Rooms: where bytes are put, from the end.

use crate::Error;

mod counting;
mod fixed;
mod growing;
mod shared;

pub use counting::Counting;
pub use fixed::Fixed;
pub use growing::Growing;
pub(crate) use shared::{bytes_after, share};

/// A room: bytes are put into it in front of those that stand already.
pub trait Room {
    ghost use Rattle.std.specs.Prelude.{◌≡◌, ◌≤◌, None, OnErr};
    ghost use Rattle.x509_der.specs.Writing.{Kind, IsKind, Puts};

    ghost kind: { Kind Self };

    /// How many bytes stand.
    fn len(&self) -> usize
        ensures count { result ≡ kind.count self.now }
        ensures within { result ≤ kind.most self.now };

    /// Puts the bytes in front of those that stand.
    ///
    /// # Errors
    ///
    /// `Overlength` where there is no place in the room for them; `Memory` when out of memory, only for a room that
    /// takes memory. On an error the room is unchanged.
    fn put(&mut self, bytes: &[u8]) -> Result<(), Error>
        ensures put { Puts kind bytes.now None result self.old self.new }
        ensures unchanged { OnErr result (self.new ≡ self.old) };

    ghost lawful: { IsKind kind };
}
