//! Standard error, where it is told now and then how far a run is.

ghost use Rattle.std.specs.Prelude.{◌≡◌, ℕ, Option};

use std::time::{Clock, Duration, Instant};
use x509_tool_run::{Sink, WriteError};

/// Standard error, and a count of objects.
pub trait Console: Sink {
    /// That counting an object leads from one state to another, and so many are to be told of, or none.
    ghost counts: { Self → Option ℕ → Self → Type 0 };

    /// Counts an object, and answers how many there are where that is to be told.
    fn count(&mut self) -> Option<u64>
        ensures { counts self.old result self.new };
}

/// Standard error, a count of objects, and a clock, by which it is told every two seconds how many there are.
#[derive(Drop)]
pub struct Counter<'a, E, C> {
    errors: E,
    clock: &'a C,
    is_told: bool,
    count: u64,
    last: Option<Instant>,
}

/// How many seconds lie between two such messages.
const SECONDS: u64 = 2;

impl<'a, E, C: Clock> Counter<'a, E, C> {
    /// Counts from now on, and tells it where this is wanted: where `errors` is a terminal.
    pub fn new(errors: E, clock: &'a C, is_told: bool) -> Counter<'a, E, C> {
        let last = match Instant::now(clock) {
            Ok(now) => Some(now),
            Err(_) => None,
        };
        Counter {
            errors,
            clock,
            is_told,
            count: 0,
            last,
        }
    }
}

/// The moment, where it is two seconds or more behind the last one. Where the clock can't be read, there is none.
fn due_since<C: Clock>(clock: &C, last: Option<Instant>) -> Option<Instant> {
    let Some(last) = last else {
        return None;
    };
    match Instant::now(clock) {
        Ok(now) if now.duration_since(last) >= Duration::from_secs(SECONDS) => Some(now),
        _ => None,
    }
}

/// Messages go to standard error.
impl<E: Sink, C: Clock> Sink for Counter<'_, E, C> {
    ghost takes = { λ old bytes new. E.takes old.errors bytes new.errors };

    fn put_some(&mut self, bytes: &[u8]) -> Result<usize, WriteError> {
        self.errors.put_some(bytes)
    }
}

/// Counting writes nothing.
impl<E: Sink, C: Clock> Console for Counter<'_, E, C> {
    ghost counts = { λ old due new. new.errors ≡ old.errors };

    fn count(&mut self) -> Option<u64> {
        self.count = self.count.saturating_add(1);
        if !self.is_told {
            return None;
        }
        match due_since(self.clock, self.last) {
            Some(now) => {
                self.last = Some(now);
                Some(self.count)
            }
            None => None,
        }
    }
}
