//! A medium in memory that survives stops.
ghost use Rattle.std.specs.Prelude.{◌≡◌, ◌<◌, ◌++◌, [], ◌∷◌, true, false, refl, length, Some, slice_index_or, OnErr, OnOk, IfErr, IfOk};
ghost use Rattle.std.proofs.Common.{arith, inl};
ghost use Rattle.std.proofs.lemmas.List.{length-map};
ghost use Rattle.cfb_medium.specs.declared.error.Error.TheVariants.{Memory};
ghost use Rattle.cfb_medium.specs.Memory.{memory_bytes};

use cfb_medium::{Error, Medium, MemoryMedium, ReadMedium};
use std::alloc::Global;

/// Bytes in memory, and each list of bytes that a crash might have left so far: those from `first` on may still be left.
#[derive(Drop)]
pub struct Survivor {
    alloc: Global,
    shown: MemoryMedium,
    kept: Vec<Vec<u8>>,
    first: usize,
    ghost within: { first < length kept.items },
}

impl Survivor {
    ghost use Rattle.test_support.specs.Survivor.{lists_kept, IsKeptAlone};

    /// An empty medium, of which a crash leaves no bytes.
    pub fn new(alloc: Global) -> Result<Self, Error>
        ensures bytes { IfOk result (λ m. ⟦<Survivor as ReadMedium>⟧.bytes m ≡ []) }
        ensures left { IfOk result (λ m. IsKeptAlone m []) }
        ensures errors { IfErr result (λ e. e ≡ Memory) }
    {
        let mut kept = Vec::new(alloc);
        kept.push(Vec::new(alloc))?;
        Ok(Survivor {
            alloc,
            shown: MemoryMedium::new(alloc),
            kept,
            first: 0,
        })
    }

    // Adds the bytes to what a crash may leave.
    fn keep(&mut self) -> Result<(), Error>
        ensures ok { OnOk result (lists_kept self.new
            ≡ lists_kept self.old ++ memory_bytes self.old.shown ∷ []) }
        ensures after_error { OnErr result (self.new.kept.items ≡ self.old.kept.items) }
        ensures errors { IfErr result (λ e. e ≡ Memory) }
        ensures first { self.new.first ≡ self.old.first }
        ensures shown { memory_bytes self.new.shown ≡ memory_bytes self.old.shown }
    {
        let copy = Vec::from_slice(self.alloc, self.shown.bytes())?;
        self.kept.push(copy)?;
        Ok(())
    }
}

impl ReadMedium for Survivor {
    ghost use Rattle.test_support.specs.Survivor.{AreLeftFrom, AddsNothing};

    ghost bytes = { λ m. memory_bytes m.shown };

    ghost honest = { λ _. true };

    ghost failures = { λ _. 0 };

    ghost failed = { λ _. false };

    ghost continues = { λ a b. AddsNothing a b };

    ghost moment = { λ m. m.first };

    ghost crash_may_leave = { λ m. AreLeftFrom m m.first };

    ghost crash_left_since = { λ m t. AreLeftFrom m t };

    fn len(&mut self) -> Result<u64, Error> {
        self.shown.len()
    }

    fn read_at(&mut self, at: u64, buffer: &mut [u8]) -> Result<usize, Error> {
        self.shown.read_at(at, buffer)
    }

    ghost continues_refl = { λ _. record { later = Prim.omega arith; left = λ _ _ from. from } };

    ghost continues_keeps = { λ _ _ _. record { as_honest = refl; as_failed = refl; counted = Prim.omega arith } };

    ghost counts_now = { λ m t left earlier from. (from.0, Prim.omega (arith, earlier, from.1), from.2, from.3) };

    ghost only_now = { λ _ _ from. from };

    ghost continues_leaves = { λ a _ adds. record { later = adds.later; each = adds.left a.first; before = λ t x _ from. inl (adds.left t x from) } };
}

impl Medium for Survivor {
    ghost use Rattle.test_support.specs.Survivor.{lists_kept, IsKeptAlone};

    ghost survives = { true };

    ghost has_published = { λ m bytes. IsKeptAlone m bytes };

    fn write_at(&mut self, at: u64, bytes: &[u8]) -> Result<(), Error> {
        self.shown.write_at(at, bytes)
    }

    fn flush(&mut self) -> Result<(), Error> {
        // Nothing is kept back.
        Ok(())
    }

    /// A growth that is refused is `Memory`, and leaves all as it was.
    fn commit(&mut self) -> Result<(), Error> {
        self.keep()?;
        self.first = self.kept.len() - 1;
        Ok(())
    }

    /// A growth that is refused is `Memory`, and leaves all as it was.
    fn roll_back(&mut self) -> Result<(), Error> {
        let copy = Vec::from_slice(self.alloc, self.kept[self.first].as_slice())?;
        self.shown = MemoryMedium::from_bytes(self.alloc, copy);
        Ok(())
    }

    fn has_failed(&self) -> bool {
        false
    }

    ghost continues_published = { λ a _ _ adds _ alone given from. alone given (adds.left a.first given (from.0, Prim.omega (arith, adds.later, from.1), from.2, from.3)) };

    ghost published_left = { λ _ _ left _ _ alone from. alone left from };

    ghost something_left = { λ m _ _. (Some (slice_index_or (lists_kept m) m.first []), (m.first, Prim.omega arith, Prim.omega (arith, m.within, length-map m.kept.items (λ bytes. bytes.items)), refl)) };
}
