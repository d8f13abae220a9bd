//! A reader, a writer and an environment that do what a test says.

use std::env::{Env, FillError};
use std::io;

/// What goes wrong in a run. Reads and writes are counted from 1.
#[derive(Clone, Copy)]
pub(crate) enum Lapse {
    /// Nothing.
    Never,

    /// The read with that number is interrupted.
    Read(usize),

    /// The write with that number is interrupted.
    Write(usize),

    /// The write with that number takes nothing.
    Full(usize),
}

/// A reader that gives a byte at a time.
#[derive(Drop)]
pub(crate) struct FakeReader<'a> {
    pub(crate) bytes: &'a [u8],
    pub(crate) reads: usize,
    pub(crate) lapse: Lapse,
}

impl io::Read for FakeReader<'_> {
    fn read(&mut self, room: &mut [u8]) -> io::Result<usize> {
        self.reads = self.reads.saturating_add(1);
        match self.lapse {
            Lapse::Read(at) if at == self.reads => {
                return Err(io::Error::from(io::ErrorKind::Interrupted));
            }
            _ => {}
        }
        let count = room.len().min(self.bytes.len()).min(1);
        room[..count].copy_from_slice(&self.bytes[..count]);
        self.bytes = &self.bytes[count..];
        Ok(count)
    }
}

/// A writer that takes a byte at a time.
#[derive(Drop)]
pub(crate) struct FakeWriter {
    pub(crate) taken: Vec<u8>,
    pub(crate) writes: usize,
    pub(crate) lapse: Lapse,
}

impl io::Write for FakeWriter {
    fn write(&mut self, bytes: &[u8]) -> io::Result<usize> {
        self.writes = self.writes.saturating_add(1);
        match self.lapse {
            Lapse::Write(at) if at == self.writes => {
                return Err(io::Error::from(io::ErrorKind::Interrupted));
            }
            Lapse::Full(at) if at == self.writes => return Ok(0),
            _ => {}
        }
        let count = bytes.len().min(1);
        self.taken.extend_from_slice(&bytes[..count])?;
        Ok(count)
    }

    fn flush(&mut self) -> io::Result<()> {
        Ok(())
    }
}

/// An environment with arguments and nothing else.
#[derive(Drop)]
pub(crate) struct FakeEnv<'a> {
    pub(crate) arguments: &'a [&'a [u8]],
}

impl Env for FakeEnv<'_> {
    fn arg(&self, i: usize, buf: &mut [u8]) -> Result<usize, FillError> {
        let Some(argument) = self.arguments.get(i) else {
            return Err(FillError::NotPresent);
        };
        if argument.len() > buf.len() {
            return Err(FillError::TooLong);
        }
        buf[..argument.len()].copy_from_slice(argument);
        Ok(argument.len())
    }

    fn var(&self, _name: &str, _buf: &mut [u8]) -> Result<usize, FillError> {
        Err(FillError::NotPresent)
    }

    fn var_at(&self, _i: usize, _buf: &mut [u8]) -> Result<usize, FillError> {
        Err(FillError::NotPresent)
    }
}
