//! A device of two files of a system.
ghost use Rattle.std.specs.Prelude.{◌≡◌, ◌≢◌, ◌≤◌, ◌<◌, ◌+◌, ◌-◌, ◌^◌, ◌&&◌, ℕ, true, false, is_err, List, IsTrue, length, IfOk, IfErr, OnOk, OnErr, refl};
ghost use Rattle.std.proofs.Common.{arith, inl, subst};
ghost use Rattle.std.proofs.lemmas.Bool.{and_parts};
ghost use Rattle.cfb_medium.specs.Bytes.{overwritten, Serves};
ghost use Rattle.cfb_medium.specs.Calls.{Reaches};
ghost use Rattle.cfb_medium.specs.Crashes.{CrashLeavesOnly};
ghost use Rattle.staged.specs.Files.{Files, file_of, with_file};
ghost use Rattle.staged.specs.Device.{IsDeviceFault, TornFile, counted_up};
ghost use Rattle.staged.specs.Crashes.{IsTornWriteOf, CrashKeepsFile, KeepsCrashHistory};
ghost use Rattle.staged.specs.declared.device.Which.{Which};

use crate::raw::RawFile;
use cfb_medium::Error;
use staged::{Counts, Device, Which};
use std::io;

/// Two files of a system. Once a sync has failed each call fails, since what is shown may be missing on the disk.
#[derive(Drop)]
pub struct RawDevice<F: RawFile> {
    home: F,
    log: F,
    ticks: u64,
    is_lost: bool,
    counts: Counts,
    ghost home_time: { F.changed home ≤ ticks },
    ghost log_time: { F.changed log ≤ ticks },
    ghost home_sound: { is_lost ≡ false → F.failed home ≡ false },
    ghost log_sound: { is_lost ≡ false → F.failed log ≡ false },
}

impl<F: RawFile> RawDevice<F> {
    ghost use Rattle.file_device.specs.Pair.{raw_content, raw_honest, raw_failures, raw_writes, raw_syncs, raw_may_leave};

    /// A device of these two files, to which no call was made.
    pub fn new(home: F, log: F) -> Self
        requires home { F.changed home ≡ 0 }
        requires log { F.changed log ≡ 0 }
        requires home_sound { F.failed home ≡ false }
        requires log_sound { F.failed log ≡ false }
        ensures content { raw_content result
            ≡ record { home = F.shown home; log = F.shown log } }
        ensures honest { raw_honest result ≡ (F.honest home && F.honest log) }
        ensures failures { raw_failures result ≡ 0 }
        ensures writes { (which : Which) → raw_writes result which ≡ 0 }
        ensures syncs { (which : Which) → raw_syncs result which ≡ 0 }
        ensures left { (left : Files) → raw_may_leave result left
            → F.left_at home 0 left.home × F.left_at log 0 left.log }
    {
        RawDevice {
            home,
            log,
            ticks: 0,
            is_lost: false,
            counts: Counts::new(),
        }
    }
}

impl<F: RawFile> Device for RawDevice<F> {
    ghost use Rattle.file_device.specs.Pair.{raw_content, raw_honest, raw_failures, raw_writes, raw_syncs, raw_moment, raw_may_leave, raw_left_since, RawRests};

    ghost content = { λ d. raw_content d };

    ghost honest = { λ d. raw_honest d };

    ghost writes = { λ d which. raw_writes d which };

    ghost syncs = { λ d which. raw_syncs d which };

    ghost failures = { λ d. raw_failures d };

    ghost rests = { λ a b. RawRests a b };

    ghost moment = { λ d. raw_moment d };

    ghost crash_may_leave = { λ d left. raw_may_leave d left };

    ghost crash_left_since = { λ d moment left. raw_left_since d moment left };

    fn len(&mut self, which: Which) -> Result<u64, Error> {
        if self.is_lost {
            return Err(self.counts.fault());
        }
        let len = match which {
            Which::Home => self.home.len(),
            Which::Log => self.log.len(),
        };
        match len {
            Ok(len) => Ok(len),
            Err(_) => Err(self.counts.fault()),
        }
    }

    fn read_at(&mut self, which: Which, at: u64, buffer: &mut [u8]) -> Result<usize, Error> {
        if self.is_lost {
            return Err(self.counts.fault());
        }
        let read = match which {
            Which::Home => self.home.read_at(at, buffer),
            Which::Log => self.log.read_at(at, buffer),
        };
        match read {
            Ok(count) => Ok(count),
            Err(_) => Err(self.counts.fault()),
        }
    }

    fn write_at(&mut self, which: Which, at: u64, bytes: &[u8]) -> Result<(), Error> {
        self.counts.write(which);
        if self.is_lost || self.ticks == u64::MAX {
            return Err(self.counts.fault());
        }
        self.ticks += 1;
        let written = match which {
            Which::Home => self.home.write_at(at, bytes, self.ticks),
            Which::Log => self.log.write_at(at, bytes, self.ticks),
        };
        match written {
            Ok(()) => Ok(()),
            Err(_) => Err(self.counts.fault()),
        }
    }

    fn sync(&mut self, which: Which) -> Result<(), Error> {
        self.counts.sync(which);
        if self.is_lost || self.ticks == u64::MAX {
            return Err(self.counts.fault());
        }
        self.ticks += 1;
        let synced = match which {
            Which::Home => self.home.sync(self.ticks),
            Which::Log => self.log.sync(self.ticks),
        };
        self.is_lost = synced.is_err();
        match synced {
            Ok(()) => Ok(()),
            Err(_) => Err(self.counts.fault()),
        }
    }

    ghost rests_refl = { λ d. record { keeps = record { as_honest = refl; same = λ _. refl; unwritten = λ _. refl; counted = Prim.omega arith }; leaves = record { later = Prim.omega arith; each = λ left since. subst (λ tick. F.left_at d.home tick left.home × F.left_at d.log tick left.log) (Prim.omega (arith, since.1, since.2)) since.3; before = λ t left _ since. inl since }; remembers = λ _ _ _ since. since } };

    ghost rests_keeps = { λ _ _ rests. rests.keeps };

    ghost counts_now = { λ d t left earlier now. (d.ticks, earlier, Prim.omega arith, now) };

    ghost only_now = { λ d left since. subst (λ tick. F.left_at d.home tick left.home × F.left_at d.log tick left.log) (Prim.omega (arith, since.1, since.2)) since.3 };

    ghost rests_leaves = { λ _ _ rests. rests.leaves };

    ghost rests_remember = { λ _ _ rests. rests.remembers };

    ghost shows_now = { λ d honest. (F.stays d.home (F.changed d.home) d.ticks (F.shown d.home) (Prim.omega arith) d.home_time (F.shows d.home (and_parts (F.honest d.home) (F.honest d.log) honest).0), F.stays d.log (F.changed d.log) d.ticks (F.shown d.log) (Prim.omega arith) d.log_time (F.shows d.log (and_parts (F.honest d.home) (F.honest d.log) honest).1)) };
}
