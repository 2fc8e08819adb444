//! A device in memory that counts the calls that reach it.
ghost use Rattle.std.specs.Prelude.{◌≡◌, ◌≤◌, ⊤, [], false, refl};
ghost use Rattle.std.proofs.Common.{arith, inl};
ghost use Rattle.staged.specs.Counts.{counted_failures, counted_syncs, counted_writes};
ghost use Rattle.staged.specs.declared.device.Which.{Which};

use cfb_medium::Error;
use serde_json::Value;
use staged::{Counts, Device, MemoryDevice, Which};
use std::alloc::Global;

/// The calls that were made: writes and syncs of each file, and all.
#[derive(Clone, Copy, PartialEq, Eq)]
pub struct Made {
    log_writes: u64,
    log_syncs: u64,
    home_writes: u64,
    home_syncs: u64,
    calls: u64,
}

impl Made {
    /// None yet.
    pub fn none() -> Made {
        Made {
            log_writes: 0,
            log_syncs: 0,
            home_writes: 0,
            home_syncs: 0,
            calls: 0,
        }
    }

    /// How many calls there were in all, those that read among them.
    pub fn calls(&self) -> u64 {
        self.calls
    }

    /// The writes and syncs as a text.
    pub fn told(&self, alloc: Global) -> Result<String, Error> {
        Ok(format!(in alloc;
            "log {} writes {} syncs, home {} writes {} syncs",
            self.log_writes, self.log_syncs, self.home_writes, self.home_syncs
        )?)
    }

    /// Whether the log's writes and syncs and those of the home file are as many as four cells say: a number below zero is so many fewer
    /// than in the whole, and what is no number is half of the whole.
    pub fn are(&self, cells: &[Value], whole: &Made) -> bool {
        is_count(cells.get(0), self.log_writes, whole.log_writes)
            && is_count(cells.get(1), self.log_syncs, whole.log_syncs)
            && is_count(cells.get(2), self.home_writes, whole.home_writes)
            && is_count(cells.get(3), self.home_syncs, whole.home_syncs)
    }
}

// Whether a number is what a cell says.
fn is_count(cell: Option<&Value>, made: u64, whole: u64) -> bool {
    match cell.and_then(Value::as_i64) {
        Some(number) if number < 0 => made == whole.saturating_sub(number.unsigned_abs()),
        Some(number) => made == number.unsigned_abs(),
        None => made == whole / 2,
    }
}

/// A device in memory that counts the calls that reach it.
#[derive(Drop)]
pub struct CountedDevice {
    inner: MemoryDevice,
    made: Made,
    counts: Counts,
}

impl CountedDevice {
    /// The device, and no call yet.
    pub fn new(inner: MemoryDevice) -> CountedDevice {
        CountedDevice {
            inner,
            made: Made::none(),
            counts: Counts::new(),
        }
    }

    /// The calls so far.
    pub fn made(&self) -> Made {
        self.made
    }

    /// The device, which knows what a crash may leave of it.
    pub fn into_inner(self) -> MemoryDevice {
        self.inner
    }
}

impl Device for CountedDevice {
    ghost content = { λ _. record { home = []; log = [] } };

    // A test sees what is served: no proof rests on it.
    ghost honest = { λ _. false };

    ghost writes = { λ d which. counted_writes d.counts which };

    ghost syncs = { λ d which. counted_syncs d.counts which };

    ghost failures = { λ d. counted_failures d.counts };

    ghost rests = { λ a b. ((which : Which) → counted_writes b.counts which ≡ counted_writes a.counts which) × (counted_failures a.counts ≤ counted_failures b.counts) };

    ghost moment = { λ _. 0 };

    ghost crash_may_leave = { λ _ _. ⊤ };

    ghost crash_left_since = { λ _ _ _. ⊤ };

    fn len(&mut self, which: Which) -> Result<u64, Error> {
        self.made.calls = self.made.calls.saturating_add(1);
        match self.inner.len(which) {
            Ok(len) => Ok(len),
            Err(_) => Err(self.counts.fault()),
        }
    }

    fn read_at(&mut self, which: Which, at: u64, buffer: &mut [u8]) -> Result<usize, Error> {
        self.made.calls = self.made.calls.saturating_add(1);
        match self.inner.read_at(which, at, buffer) {
            Ok(count) => Ok(count),
            Err(_) => Err(self.counts.fault()),
        }
    }

    /// A write that leaves a gap is a fault.
    fn write_at(&mut self, which: Which, at: u64, bytes: &[u8]) -> Result<(), Error> {
        self.counts.write(which);
        self.made.calls = self.made.calls.saturating_add(1);
        match which {
            Which::Home => self.made.home_writes = self.made.home_writes.saturating_add(1),
            Which::Log => self.made.log_writes = self.made.log_writes.saturating_add(1),
        }
        if at > self.inner.bytes(which).len() as u64 {
            return Err(self.counts.fault());
        }
        match self.inner.write_at(which, at, bytes) {
            Ok(()) => Ok(()),
            Err(_) => Err(self.counts.fault()),
        }
    }

    fn sync(&mut self, which: Which) -> Result<(), Error> {
        self.counts.sync(which);
        self.made.calls = self.made.calls.saturating_add(1);
        match which {
            Which::Home => self.made.home_syncs = self.made.home_syncs.saturating_add(1),
            Which::Log => self.made.log_syncs = self.made.log_syncs.saturating_add(1),
        }
        match self.inner.sync(which) {
            Ok(()) => Ok(()),
            Err(_) => Err(self.counts.fault()),
        }
    }

    ghost rests_refl = { λ d. (λ _. refl, Prim.omega arith) };

    ghost rests_keeps = { λ a b rests. record { as_honest = refl; same = λ _. refl; unwritten = rests.0; counted = rests.1 } };

    ghost counts_now = { λ _ _ _ _ _. tt };

    ghost only_now = { λ _ _ _. tt };

    ghost rests_leaves = { λ a b rests. record { later = Prim.omega arith; each = λ _ _. tt; before = λ _ _ _ _. inl tt } };

    ghost rests_remember = { λ _ _ _ _ _ _ _. tt };

    ghost shows_now = { λ _ _. tt };
}
