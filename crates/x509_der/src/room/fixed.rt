//! A room in a buffer of the caller.

ghost use Rattle.std.specs.Prelude.{◌≡◌, ◌≤◌, ◌+◌, length};
ghost use Rattle.x509_der.specs.Element.{limit};

use crate::room::Room;
use crate::{Error, ErrorKind, Length};

/// A buffer of the caller that is filled from its end.
#[derive(Drop)]
pub struct Fixed<'a> {
    room: &'a mut [u8],
    start: usize,
    ghost within: { start ≤ length room.now },
    ghost limited: { length room.now ≤ limit + start },
}

impl<'a> Fixed<'a> {
    /// The whole buffer, with no bytes put.
    pub fn new(room: &'a mut [u8]) -> Fixed<'a>
        ensures same_reference { result.room.ghost_name ≡ room.entry.ghost_name }
        ensures same { result.room.now ≡ room.old }
        ensures start { result.start ≡ length room.old }
    {
        let start = room.len();
        Fixed { room, start }
    }

    /// How many bytes of the buffer come before those that were put.
    pub fn start(&self) -> usize
        ensures { result ≡ self.now.start }
    {
        self.start
    }
}

impl Room for Fixed<'_> {
    ghost use Rattle.x509_der.specs.FixedRoom.{fixed, fixed_lawful};

    ghost kind = { fixed };

    fn len(&self) -> usize {
        self.room.len() - self.start
    }

    fn put(&mut self, bytes: &[u8]) -> Result<(), Error> {
        let len = self.room.len() - self.start;
        if bytes.len() > self.start || bytes.len() > Length::MAX.as_u32() as usize - len {
            return Err(ErrorKind::Overlength.into());
        }
        let start = self.start - bytes.len();
        self.room[start..self.start].copy_from_slice(bytes);
        self.start = start;
        Ok(())
    }

    ghost lawful = { fixed_lawful };
}
