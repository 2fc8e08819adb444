//! A device of a package that is only read.
ghost use Rattle.std.specs.Prelude.{◌≡◌, ◌≤◌, ⊤, [], false, refl};
ghost use Rattle.std.proofs.Common.{arith, inl};
ghost use Rattle.staged.specs.Counts.{counted_failures, counted_syncs, counted_writes};
ghost use Rattle.staged.specs.declared.device.Which.{Which};

use cfb_medium::{Error, ReadMedium};
use file_device::FileDevice;
use staged::{Counts, Device, Which};
use staged_view::View;

/// The file of a package as a recovery would leave it, and a log that is always closed. Nothing is written: what a medium over it changes
/// stays in the medium's memory, and each write is refused as a fault.
#[derive(Drop)]
pub struct UnwrittenDevice {
    view: View<FileDevice>,
    counts: Counts,
}

impl UnwrittenDevice {
    /// The device that shows this view.
    pub fn new(view: View<FileDevice>) -> UnwrittenDevice {
        UnwrittenDevice {
            view,
            counts: Counts::new(),
        }
    }
}

impl Device for UnwrittenDevice {
    ghost content = { λ _. record { home = []; log = [] } };

    // No clause says which bytes come from a disk.
    ghost honest = { λ _. false };

    ghost writes = { λ d which. counted_writes d.counts which };

    ghost syncs = { λ d which. counted_syncs d.counts which };

    ghost failures = { λ d. counted_failures d.counts };

    ghost rests = { λ a b. ((which : Which) → counted_writes b.counts which ≡ counted_writes a.counts which) × (counted_failures a.counts ≤ counted_failures b.counts) };

    ghost moment = { λ _. 0 };

    ghost crash_may_leave = { λ _ _. ⊤ };

    ghost crash_left_since = { λ _ _ _. ⊤ };

    fn len(&mut self, which: Which) -> Result<u64, Error> {
        match which {
            Which::Home => match self.view.len() {
                Ok(len) => Ok(len),
                Err(_) => Err(self.counts.fault()),
            },
            Which::Log => Ok(0),
        }
    }

    fn read_at(&mut self, which: Which, at: u64, buffer: &mut [u8]) -> Result<usize, Error> {
        match which {
            Which::Home => match self.view.read_at(at, buffer) {
                Ok(count) => Ok(count),
                Err(_) => Err(self.counts.fault()),
            },
            Which::Log => Ok(0),
        }
    }

    fn write_at(&mut self, which: Which, _at: u64, _bytes: &[u8]) -> Result<(), Error> {
        self.counts.write(which);
        Err(self.counts.fault())
    }

    fn sync(&mut self, which: Which) -> Result<(), Error> {
        self.counts.sync(which);
        Err(self.counts.fault())
    }

    ghost rests_refl = { λ d. (λ _. refl, Prim.omega arith) };

    ghost rests_keeps = { λ a b rests. record { as_honest = refl; same = λ _. refl; unwritten = rests.0; counted = rests.1 } };

    ghost counts_now = { λ _ _ _ _ _. tt };

    ghost only_now = { λ _ _ _. tt };

    ghost rests_leaves = { λ a b rests. record { later = Prim.omega arith; each = λ _ _. tt; before = λ _ _ _ _. inl tt } };

    ghost rests_remember = { λ _ _ _ _ _ _ _. tt };

    ghost shows_now = { λ _ _. tt };
}
