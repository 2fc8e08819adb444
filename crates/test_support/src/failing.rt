//! A medium in memory that counts its calls, and fails one of them.
ghost use Rattle.std.specs.Prelude.{◌≤◌, ⊤, [], false, refl};
ghost use Rattle.std.proofs.Common.{arith, inl};
ghost use Rattle.staged.specs.Counts.{counted_failures};

use cfb_medium::{Error, Medium, MemoryMedium, ReadMedium};
use staged::Counts;
use std::alloc::Global;

// Counts calls, and tells the one that is to fail.
#[derive(Drop)]
struct Fuse {
    calls: u64,
    failing: u64,
}

impl Fuse {
    fn blows(&mut self) -> bool {
        let now = self.calls == self.failing;
        self.calls = self.calls.saturating_add(1);
        now
    }
}

/// A medium in memory. One of its calls fails, and changes nothing. It goes back to what was committed last, if anything was.
#[derive(Drop)]
pub struct FailingMedium {
    alloc: Global,
    inner: MemoryMedium,
    committed: Option<Vec<u8>>,
    fuse: Fuse,
    counts: Counts,
    written: u64,
}

impl FailingMedium {
    /// One of these bytes, whose call after so many fails.
    pub fn new(alloc: Global, bytes: Vec<u8>, failing: u64) -> Self {
        FailingMedium {
            alloc,
            inner: MemoryMedium::from_bytes(alloc, bytes),
            committed: None,
            fuse: Fuse { calls: 0, failing },
            counts: Counts::new(),
            written: 0,
        }
    }

    /// The bytes.
    pub fn bytes(&self) -> &[u8] {
        self.inner.bytes()
    }

    /// The bytes, without the medium.
    pub fn into_bytes(self) -> Vec<u8> {
        self.inner.into_bytes()
    }

    /// How many calls were made.
    pub fn calls(&self) -> u64 {
        self.fuse.calls
    }

    /// How many of them have failed.
    pub fn failures(&self) -> u64 {
        self.counts.failures()
    }

    /// How many bytes were written by calls that didn't fail.
    pub fn written(&self) -> u64 {
        self.written
    }
}

impl ReadMedium for FailingMedium {
    ghost bytes = { λ _. [] };

    // A test sees what is served: no proof rests on it.
    ghost honest = { λ _. false };

    ghost failures = { λ m. counted_failures m.counts };

    ghost failed = { λ _. false };

    ghost continues = { λ a b. counted_failures a.counts ≤ counted_failures b.counts };

    ghost moment = { λ _. 0 };

    ghost crash_may_leave = { λ _ _. ⊤ };

    ghost crash_left_since = { λ _ _ _. ⊤ };

    fn len(&mut self) -> Result<u64, Error> {
        if self.fuse.blows() {
            return Err(self.counts.fault());
        }
        self.inner.len()
    }

    fn read_at(&mut self, at: u64, buffer: &mut [u8]) -> Result<usize, Error> {
        if self.fuse.blows() {
            return Err(self.counts.fault());
        }
        self.inner.read_at(at, buffer)
    }

    ghost continues_refl = { λ _. Prim.omega arith };

    ghost continues_keeps = { λ a b more. record { as_honest = refl; as_failed = refl; counted = more } };

    ghost counts_now = { λ _ _ _ _ _. tt };

    ghost only_now = { λ _ _ _. tt };

    ghost continues_leaves = { λ _ _ _. record { later = Prim.omega arith; each = λ _ _. tt; before = λ _ _ _ _. inl tt } };
}

impl Medium for FailingMedium {
    ghost survives = { false };

    ghost has_published = { λ _ _. ⊤ };

    fn write_at(&mut self, at: u64, bytes: &[u8]) -> Result<(), Error> {
        if self.fuse.blows() {
            return Err(self.counts.fault());
        }
        self.written = self.written.saturating_add(bytes.len() as u64);
        self.inner.write_at(at, bytes)
    }

    fn flush(&mut self) -> Result<(), Error> {
        if self.fuse.blows() {
            return Err(self.counts.fault());
        }
        Ok(())
    }

    fn commit(&mut self) -> Result<(), Error> {
        if self.fuse.blows() {
            return Err(self.counts.fault());
        }
        self.committed = Some(Vec::from_slice(self.alloc, self.inner.bytes())?);
        Ok(())
    }

    fn roll_back(&mut self) -> Result<(), Error> {
        if self.fuse.blows() {
            return Err(self.counts.fault());
        }
        match &self.committed {
            Some(bytes) => {
                let copy = Vec::from_slice(self.alloc, bytes)?;
                self.inner = MemoryMedium::from_bytes(self.alloc, copy);
                Ok(())
            }
            None => Err(Error::InvalidInput),
        }
    }

    fn has_failed(&self) -> bool {
        false
    }

    ghost continues_published = { λ _ _ _ _ _ _. tt };

    ghost published_left = { λ _ _ _ survives. Prim.absurd (Prim.cc survives) };

    ghost something_left = { λ _ survives. Prim.absurd (Prim.cc survives) };
}
