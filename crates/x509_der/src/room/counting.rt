//! A room that counts and keeps nothing.

ghost use Rattle.std.specs.Prelude.{◌≡◌};

use crate::room::Room;
use crate::{Error, Length};

/// Counts the bytes that are put, up to [`Length::MAX`].
#[derive(Drop)]
pub struct Counting {
    count: Length,
}

impl Counting {
    /// No bytes yet.
    pub fn new() -> Counting
        ensures { result.count.octets ≡ 0 }
    {
        Counting {
            count: Length::ZERO,
        }
    }

    /// How many bytes were put.
    pub fn count(&self) -> Length
        ensures { result ≡ self.now.count }
    {
        self.count
    }
}

impl Room for Counting {
    ghost use Rattle.x509_der.specs.CountingRoom.{counting, counting_lawful};

    ghost kind = { counting };

    fn len(&self) -> usize {
        self.count.as_u32() as usize
    }

    fn put(&mut self, bytes: &[u8]) -> Result<(), Error> {
        self.count = self.count.plus(bytes.len())?;
        Ok(())
    }

    ghost lawful = { counting_lawful };
}
