//! What a device counts by itself.
ghost use Rattle.std.specs.Prelude.{◌≡◌, ◌≢◌, ◌≤◌};
ghost use Rattle.staged.specs.Device.{counted_up};
ghost use Rattle.staged.specs.declared.device.Which.{Which};

use crate::Which;
use cfb_medium::Error;

/// How often something was done to each file, up to 2^64 - 1.
#[derive(Clone, Copy)]
pub struct Tally {
    home: u64,
    log: u64,
}

impl Tally {
    ghost use Rattle.staged.specs.Counts.{tallied};

    /// Nothing was done yet.
    pub fn new() -> Tally
        ensures { (which : Which) → tallied result which ≡ 0 }
    {
        Tally { home: 0, log: 0 }
    }

    /// Once more.
    pub fn add(&mut self, which: Which)
        ensures count { tallied self.new which ≡ counted_up (tallied self.old which) }
        ensures others { (other : Which) → other ≢ which
            → tallied self.new other ≡ tallied self.old other }
    {
        match which {
            Which::Home => self.home = self.home.saturating_add(1),
            Which::Log => self.log = self.log.saturating_add(1),
        }
    }

    /// How often.
    pub fn count(&self, which: Which) -> u64
        ensures { result ≡ tallied self.now which }
    {
        match which {
            Which::Home => self.home,
            Which::Log => self.log,
        }
    }
}

/// How many calls of a device have failed, and how often each file was written and synced, up to 2^64 - 1.
#[derive(Clone, Copy)]
pub struct Counts {
    failures: u64,
    writes: Tally,
    syncs: Tally,
}

impl Counts {
    ghost use Rattle.staged.specs.Counts.{counted_failures, counted_writes, counted_syncs};

    /// Nothing is counted yet.
    pub fn new() -> Counts
        ensures failures { counted_failures result ≡ 0 }
        ensures writes { (which : Which) → counted_writes result which ≡ 0 }
        ensures syncs { (which : Which) → counted_syncs result which ≡ 0 }
    {
        Counts {
            failures: 0,
            writes: Tally::new(),
            syncs: Tally::new(),
        }
    }

    /// Counts a failure, and gives the error that tells of it.
    pub fn fault(&mut self) -> Error
        ensures errors { result ≡ Error.Device }
        ensures counted { counted_failures self.new ≡ counted_up (counted_failures self.old) }
        ensures risen { counted_failures self.old ≤ counted_failures self.new }
        ensures writes { (which : Which)
            → counted_writes self.new which ≡ counted_writes self.old which }
        ensures syncs { (which : Which)
            → counted_syncs self.new which ≡ counted_syncs self.old which }
    {
        self.failures = self.failures.saturating_add(1);
        Error::Device
    }

    /// Counts a write.
    pub fn write(&mut self, which: Which)
        ensures count { counted_writes self.new which ≡ counted_up (counted_writes self.old which) }
        ensures others { (other : Which) → other ≢ which
            → counted_writes self.new other ≡ counted_writes self.old other }
        ensures syncs { (file : Which)
            → counted_syncs self.new file ≡ counted_syncs self.old file }
        ensures failures { counted_failures self.new ≡ counted_failures self.old }
    {
        self.writes.add(which);
    }

    /// Counts a sync.
    pub fn sync(&mut self, which: Which)
        ensures count { counted_syncs self.new which ≡ counted_up (counted_syncs self.old which) }
        ensures others { (other : Which) → other ≢ which
            → counted_syncs self.new other ≡ counted_syncs self.old other }
        ensures writes { (file : Which)
            → counted_writes self.new file ≡ counted_writes self.old file }
        ensures failures { counted_failures self.new ≡ counted_failures self.old }
    {
        self.syncs.add(which);
    }

    /// How many calls have failed.
    pub fn failures(&self) -> u64
        ensures { result ≡ counted_failures self.now }
    {
        self.failures
    }

    /// How often a file was written.
    pub fn writes(&self, which: Which) -> u64
        ensures { result ≡ counted_writes self.now which }
    {
        self.writes.count(which)
    }
}
