//! How far a long run has come.
use std::io::Write;
use std::time::{Clock, Instant};

// Tells a person who waits, at most once a second.
#[derive(Drop)]
pub(crate) struct Progress<'a, R, E> {
    clock: &'a R,
    err: &'a mut E,
    // Where nobody waits, or the clock can't be read, nothing is told.
    start: Option<Instant>,
    total: usize,
    done: usize,
    told_at: u64,
}

impl<'a, R: Clock, E: Write> Progress<'a, R, E> {
    pub(crate) fn new(clock: &'a R, err: &'a mut E, is_shown: bool, total: usize) -> Self {
        Progress {
            clock,
            err,
            start: if is_shown {
                Instant::now(clock).ok()
            } else {
                None
            },
            total,
            done: 0,
            told_at: 0,
        }
    }

    // Where it is told.
    pub(crate) fn err(&mut self) -> &mut E {
        self.err
    }

    // So many commands more are done.
    pub(crate) fn step(&mut self, count: usize) {
        self.done = self.done.saturating_add(count);
        let Some(seconds) = self.seconds() else {
            return;
        };
        if seconds > self.told_at {
            self.told_at = seconds;
            let done = self.done.min(self.total);
            let _ = writeln!(
                self.err,
                "msidb: {done} of {} commands, {seconds} s",
                self.total
            );
        }
    }

    // Since the start.
    fn seconds(&self) -> Option<u64> {
        Some(self.start?.elapsed(self.clock).ok()?.as_secs())
    }
}
