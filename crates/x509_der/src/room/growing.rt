//! A room in a vector that grows at its front.

ghost use Rattle.std.specs.Prelude.{◌≡◌, ◌+◌, ◌<◌, ◌≤◌, ◌⊎◌, [], length, drop, IfOk, IfErr, OnOk, OnErr};
ghost use Rattle.x509_der.specs.Element.{limit};
ghost use Rattle.x509_der.specs.declared.error.ErrorKind.TheVariants.{Memory, Overlength};

use crate::room::Room;
use crate::{Error, ErrorKind, Length};
use std::alloc::Global;
use std::marker::Model;

/// Room for the headers that mostly follow.
const SPARE: usize = 512;

/// A vector that is filled from its end, and grows at its front. Contracts see the bytes that stand.
#[derive(Drop)]
pub struct Growing {
    items: Vec<u8>,
    start: usize,
}

impl Model for Growing {
    ghost use Rattle.std.specs.Prelude.{List, ℕ, ◌≤◌, length, drop};
    ghost use Rattle.x509_der.specs.Element.{limit};

    ghost Value = { List ℕ };

    ghost view = { λ room. drop room.start room.items.items };

    ghost invariant = { λ room. (room.start ≤ length room.items.items) × (length room.items.items ≤ limit) };
}

/// Moves what stands from `start` on to the end of a room in which so many bytes more have their place. Answers where it
/// stands there.
#[inline(never)]
fn make_room(items: &mut Vec<u8>, start: usize, more: usize) -> Result<usize, Error>
    requires start { start ≤ length items.old.items }
    requires within { length items.old.items ≤ limit }
    ensures moved { IfOk result (λ place. drop place items.new.items ≡ drop start items.old.items) }
    ensures room { IfOk result (λ place. (more ≤ place) × (place ≤ length items.new.items)) }
    ensures len { OnOk result (length items.new.items ≤ limit) }
    ensures err { IfErr result (λ e. (e.kind ≡ Memory) ⊎ ((e.kind ≡ Overlength) × (limit < more + length (drop start items.old.items)))) }
    ensures unchanged { OnErr result (items.new.items ≡ items.old.items) }
{
    let len = items.len() - start;
    if more > Length::MAX.as_u32() as usize - len {
        return Err(ErrorKind::Overlength.into());
    }
    // Twice what is needed and some headers, so that what stands is moved seldom.
    let total = (2 * (len + more) + SPARE).min(Length::MAX.as_u32() as usize);
    let place = total - len;
    let mut wider = Vec::with_capacity(*items.allocator(), total)?;
    wider.resize(place, 0)?;
    wider.extend_from_slice(&items.as_slice()[start..])?;
    *items = wider;
    Ok(place)
}

impl Growing {
    /// A room with no bytes put. It takes memory as bytes are put.
    pub fn new(alloc: Global) -> Growing
        ensures { result ≡ [] }
    {
        Growing {
            items: Vec::new(alloc),
            start: 0,
        }
    }

    /// Just the bytes that stand.
    pub fn into_vec(self) -> Vec<u8>
        ensures { result.items ≡ self }
    {
        let Growing { mut items, start } = self;
        let len = items.len() - start;
        items.as_mut_slice().copy_within(start.., 0);
        items.truncate(len);
        items
    }
}

impl Room for Growing {
    ghost use Rattle.x509_der.specs.GrowingRoom.{growing, growing_lawful};

    ghost kind = { growing };

    fn len(&self) -> usize {
        self.items.len() - self.start
    }

    #[inline(always)]
    fn put(&mut self, bytes: &[u8]) -> Result<(), Error> {
        if bytes.len() > self.start {
            self.start = make_room(&mut self.items, self.start, bytes.len())?;
        }
        let start = self.start - bytes.len();
        self.items.as_mut_slice()[start..self.start].copy_from_slice(bytes);
        self.start = start;
        Ok(())
    }

    ghost lawful = { growing_lawful };
}
