//! Writing DER from its end.

use crate::template::{Hole, Kind, Run, Template};
use std::alloc::Global;
use x509_der::Error;

/// The octets that were written, the last first, and the parts of them that vary.
#[derive(Drop)]
pub(crate) struct Writer {
    bytes: Vec<u8>,
    holes: Vec<Hole>,
    run: Option<Run>,
}

impl Writer {
    /// Nothing yet.
    pub(crate) fn new(alloc: Global) -> Writer {
        Writer {
            bytes: Vec::new(alloc),
            holes: Vec::new(alloc),
            run: None,
        }
    }

    /// How much was written.
    pub(crate) fn mark(&self) -> usize {
        self.bytes.len()
    }

    /// Puts octets in front.
    pub(crate) fn put(&mut self, octets: &[u8]) -> Result<(), Error> {
        for octet in octets.iter().rev() {
            self.bytes.push(*octet)?;
        }
        Ok(())
    }

    /// Puts a text in front.
    pub(crate) fn text(&mut self, text: &str) -> Result<(), Error> {
        self.put(text.as_bytes())
    }

    /// Puts a part in front that varies.
    pub(crate) fn hole(&mut self, kind: Kind, len: usize) -> Result<(), Error> {
        self.shared_hole(kind, len, 0)
    }

    /// Puts a part of a slot in front.
    pub(crate) fn shared_hole(&mut self, kind: Kind, len: usize, slot: u64) -> Result<(), Error> {
        for _ in 0..len {
            self.bytes.push(b'1')?;
        }
        let start = self.bytes.len();
        self.holes.push(Hole {
            start,
            len,
            kind,
            slot,
        })?;
        Ok(())
    }

    /// Makes what was put since the mark the content of an element.
    pub(crate) fn close(&mut self, tag: u8, since: usize) -> Result<(), Error> {
        let len = self.bytes.len().saturating_sub(since);
        let octets = (len as u64).to_le_bytes();
        if len < 128 {
            self.bytes.push(octets[0])?;
        } else {
            let count = count_octets(len);
            for octet in octets.iter().take(usize::from(count)) {
                self.bytes.push(*octet)?;
            }
            self.bytes.push(0x80 | count)?;
        }
        self.bytes.push(tag)?;
        Ok(())
    }

    /// Puts an element in front.
    pub(crate) fn element(&mut self, tag: u8, content: &[u8]) -> Result<(), Error> {
        let since = self.mark();
        self.put(content)?;
        self.close(tag, since)
    }

    /// Puts copies of the blocks in front. Nothing else may have varied copies.
    pub(crate) fn copies(&mut self, block: Template, count: usize) -> Result<(), Error> {
        let Template {
            bytes,
            holes,
            run: _,
        } = block;
        let step = bytes.len();
        let mut reversed = bytes;
        reversed.reverse();
        let end = self.bytes.len();
        for _ in 0..count {
            self.bytes.extend_from_slice(reversed.as_slice())?;
        }
        let start = self.bytes.len();
        self.run = Some(Run {
            start,
            end,
            step,
            holes,
        });
        Ok(())
    }

    /// The object that was written.
    pub(crate) fn finish(self) -> Template {
        let Writer {
            bytes: written,
            holes: parts,
            run: blocks,
        } = self;
        let len = written.len();
        let mut bytes = written;
        bytes.reverse();
        let mut holes = parts;
        for hole in holes.iter_mut() {
            hole.start = len.saturating_sub(hole.start);
        }
        Template {
            bytes,
            holes,
            run: turned(blocks, len),
        }
    }
}

/// How many octets the length takes, which is below 2^32.
fn count_octets(len: usize) -> u8 {
    if len < 0x100 {
        1
    } else if len < 0x1_0000 {
        2
    } else if len < 0x100_0000 {
        3
    } else {
        4
    }
}

/// The run, with its places from the front of an object so long.
fn turned(run: Option<Run>, len: usize) -> Option<Run> {
    match run {
        Some(run) => {
            let Run {
                start,
                end,
                step,
                holes,
            } = run;
            Some(Run {
                start: len.saturating_sub(start),
                end: len.saturating_sub(end),
                step,
                holes,
            })
        }
        None => None,
    }
}
