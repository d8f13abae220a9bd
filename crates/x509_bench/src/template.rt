//! Objects of which some parts vary: each input is a copy of one, with those parts filled anew.

use crate::random::Random;
use std::alloc::Global;
use x509_der::Error;

/// What a part that varies holds.
#[derive(Clone, Copy)]
pub(crate) enum Kind {
    /// Any octets, as of a key.
    Octets,

    /// The octets of a positive serial number, of which the first 8 vary.
    Serial,

    /// Lower-case letters.
    Letters,

    /// Digits below 8.
    Digits,

    /// Day, hour, minute and second, two digits each.
    Moment,
}

/// A part that varies.
#[derive(Clone, Copy)]
pub(crate) struct Hole {
    /// Where it begins. While the object is written, which goes from its end, where it begins as seen from the end.
    pub(crate) start: usize,

    /// How many octets it has.
    pub(crate) len: usize,

    /// What it holds.
    pub(crate) kind: Kind,

    /// Parts of one slot, other than 0, are filled alike in all objects of a path.
    pub(crate) slot: u64,
}

/// A run of copies of one block, each with the same parts that vary.
#[derive(Drop)]
pub(crate) struct Run {
    /// Where it begins.
    pub(crate) start: usize,

    /// Where it ends.
    pub(crate) end: usize,

    /// How long a block is.
    pub(crate) step: usize,

    /// The parts of a block that vary.
    pub(crate) holes: Vec<Hole>,
}

/// An object of which some parts vary.
#[derive(Drop)]
pub(crate) struct Template {
    pub(crate) bytes: Vec<u8>,
    pub(crate) holes: Vec<Hole>,
    pub(crate) run: Option<Run>,
}

/// What fills the parts.
#[derive(Drop)]
pub(crate) struct Filler {
    /// Fills the parts of slot 0.
    pub(crate) random: Random,

    /// The seed of the slots below 8.
    pub(crate) root: u64,

    /// The seed of the other slots.
    pub(crate) path: u64,
}

impl Filler {
    /// The filler of a seed.
    pub(crate) fn new(seed: u64) -> Filler {
        Filler {
            random: Random::new(seed),
            root: seed,
            path: seed,
        }
    }

    /// The source for a slot other than 0.
    fn shared(&self, slot: u64) -> Random {
        let seed = if slot < 8 { self.root } else { self.path };
        Random::new(seed ^ slot.wrapping_mul(0xD6E8_FEB8_6659_FD93))
    }
}

/// Fills a part with octets of which only the bits of the mask vary, above a base.
fn fill_masked(part: &mut [u8], random: &mut Random, mask: u64, base: u64) {
    let (words, rest) = part.as_chunks_mut::<8>();
    for word in words {
        *word = (random.next() & mask).wrapping_add(base).to_le_bytes();
    }
    if rest.is_empty() {
        return;
    }
    let last = (random.next() & mask).wrapping_add(base).to_le_bytes();
    for (octet, filled) in rest.iter_mut().zip(last.iter()) {
        *octet = *filled;
    }
}

/// Fills a part as its kind wants.
fn fill_part(part: &mut [u8], kind: Kind, random: &mut Random) {
    match kind {
        Kind::Octets => fill_masked(part, random, u64::MAX, 0),
        Kind::Serial => {
            let front = part.len().min(8);
            if let Some(front) = part.get_mut(..front) {
                fill_masked(front, random, 0xFFFF_FFFF_FFFF_FF3F, 0x40);
            }
        }
        Kind::Letters => fill_masked(part, random, 0x0F0F_0F0F_0F0F_0F0F, 0x6161_6161_6161_6161),
        Kind::Digits => fill_masked(part, random, 0x0707_0707_0707_0707, 0x3030_3030_3030_3030),
        Kind::Moment => fill_masked(part, random, 0x0703_0703_0701_0701, 0x3030_3030_3030_3130),
    }
}

/// Fills the parts of an object, or of a block of one.
fn fill_holes(bytes: &mut [u8], holes: &[Hole], filler: &mut Filler) {
    for hole in holes {
        let end = hole.start.saturating_add(hole.len);
        if let Some(part) = bytes.get_mut(hole.start..end) {
            if hole.slot == 0 {
                fill_part(part, hole.kind, &mut filler.random);
            } else {
                fill_part(part, hole.kind, &mut filler.shared(hole.slot));
            }
        }
    }
}

/// Fills the parts of each block.
fn fill_run(bytes: &mut [u8], run: &Run, filler: &mut Filler) {
    if run.step == 0 {
        return;
    }
    if let Some(blocks) = bytes.get_mut(run.start..run.end) {
        for block in blocks.chunks_mut(run.step) {
            fill_holes(block, run.holes.as_slice(), filler);
        }
    }
}

impl Template {
    /// Makes the buffer's bytes the next object.
    pub(crate) fn fill(&self, filler: &mut Filler, buffer: &mut Vec<u8>) -> Result<(), Error> {
        buffer.clear();
        buffer.extend_from_slice(self.bytes.as_slice())?;
        fill_holes(buffer.as_mut_slice(), self.holes.as_slice(), filler);
        if let Some(run) = &self.run {
            fill_run(buffer.as_mut_slice(), run, filler);
        }
        Ok(())
    }

    /// The next object, in a buffer of its own.
    pub(crate) fn object(&self, alloc: Global, filler: &mut Filler) -> Result<Vec<u8>, Error> {
        let mut buffer = Vec::with_capacity(alloc, self.bytes.len())?;
        self.fill(filler, &mut buffer)?;
        Ok(buffer)
    }
}
