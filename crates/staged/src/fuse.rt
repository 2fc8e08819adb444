//! A device of tests, some of whose calls fail.
ghost use Rattle.std.specs.Prelude.{Err, ◌≡◌, ◌≢◌, ◌≤◌, ◌<◌, ◌+◌, ◌^◌, ◌↔◌, ℕ, Bool, true, IsTrue, is_err, length, IfOk, IfErr, OnOk, OnErr, refl};
ghost use Rattle.std.proofs.Common.{arith, sym, ◌∙◌};
ghost use Rattle.cfb_medium.specs.Bytes.{overwritten, Serves};
ghost use Rattle.cfb_medium.specs.Calls.{Reaches};
ghost use Rattle.cfb_medium.specs.Crashes.{CrashLeavesOnly};
ghost use Rattle.staged.specs.Files.{file_of, with_file};
ghost use Rattle.staged.specs.Device.{DeviceRests, IsDeviceFault, TornFile, counted_up};
ghost use Rattle.staged.specs.Crashes.{IsTornWriteOf, CrashKeepsFile, KeepsCrashHistory};
ghost use Rattle.staged.specs.declared.device.Which.{Which};

use crate::counts::Counts;
use crate::{Device, Which};
use cfb_medium::Error;

// How many calls are passed on, and how many fail after these.
#[derive(Clone, Copy)]
pub struct Fuse {
    pass: u64,
    fail: u64,
}

impl Fuse {
    ghost use Rattle.staged.specs.Fuse.{IsBlown, Burns};

    // Whether the next call fails.
    fn blows(&mut self) -> bool
        ensures blown { IsTrue result ↔ IsBlown self.old }
        ensures burns { Burns self.old self.new }
    {
        if self.pass > 0 {
            self.pass -= 1;
            return false;
        }
        if self.fail > 0 {
            self.fail -= 1;
            return true;
        }
        false
    }
}

/// A device that passes calls on to another, but for some that fail and don't reach it. It counts failures, writes and
/// syncs itself; one that fails is counted too.
#[derive(Drop)]
pub struct FuseDevice<D: Device> {
    inner: D,
    fuse: Fuse,
    counts: Counts,
}

impl<D: Device> FuseDevice<D> {
    ghost use Rattle.staged.specs.Fuse.{inner_of, fuse_of, fuse_failures, fuse_writes, fuse_syncs};

    /// Passes so many calls on, fails so many, and passes the rest on.
    pub fn new(device: D, pass: u64, fail: u64) -> Self
        ensures inner { inner_of result ≡ device }
        ensures fuse { fuse_of result ≡ record { pass = pass; fail = fail } }
        ensures writes { (which : Which) → fuse_writes result which ≡ 0 }
        ensures syncs { (which : Which) → fuse_syncs result which ≡ 0 }
        ensures failures { fuse_failures result ≡ 0 }
    {
        FuseDevice {
            inner: device,
            fuse: Fuse { pass, fail },
            counts: Counts::new(),
        }
    }

    /// The other device.
    pub fn into_inner(self) -> D
        ensures { result ≡ inner_of self }
    {
        self.inner
    }
}

impl<D: Device> Device for FuseDevice<D> {
    ghost use Rattle.staged.specs.Fuse.{inner_of, fuse_failures, fuse_writes, fuse_syncs, OnlyReadsFuse, GoesByFuse, DeviceIsRead, IsOneMore, IsOneWrite, IsOneSync};

    ghost content = { λ d. D.content d.inner };

    ghost honest = { λ d. D.honest d.inner };

    ghost writes = { λ d which. fuse_writes d which };

    ghost syncs = { λ d which. fuse_syncs d which };

    ghost failures = { λ d. fuse_failures d };

    ghost rests = { λ a b. OnlyReadsFuse D.rests a b };

    ghost moment = { λ d. D.moment d.inner };

    ghost crash_may_leave = { λ d left. D.crash_may_leave d.inner left };

    ghost crash_left_since = { λ d moment left. D.crash_left_since d.inner moment left };

    fn len(&mut self, which: Which) -> Result<u64, Error>
        ensures length { IsTrue (D.honest (inner_of self.old))
            → IfOk result (λ count. count
            ≡ length (file_of (D.content (inner_of self.old)) which)) }
        ensures same { IsTrue (D.honest (inner_of self.old))
            → D.content (inner_of self.new) ≡ D.content (inner_of self.old) }
        ensures honest { D.honest (inner_of self.new) ≡ D.honest (inner_of self.old) }
        ensures failures { fuse_failures self.old ≤ fuse_failures self.new }
        ensures only_reads { Reaches (λ a b. OnlyReadsFuse D.rests a b) self.old self.new }
        ensures unsynced { (file : Which) → fuse_syncs self.new file ≡ fuse_syncs self.old file }
        ensures calm { OnOk result (fuse_failures self.new ≡ fuse_failures self.old) }
        ensures errors { IfErr result (IsDeviceFault (λ d. fuse_failures d) self.old self.new) }
        ensures fuse { GoesByFuse D.failures (DeviceIsRead D.writes D.syncs) self.old self.new
            (is_err result) }
    {
        if self.fuse.blows() {
            return Err(self.counts.fault());
        }
        match self.inner.len(which) {
            Ok(len) => Ok(len),
            Err(_) => Err(self.counts.fault()),
        }
    }

    fn read_at(&mut self, which: Which, at: u64, buffer: &mut [u8]) -> Result<usize, Error>
        ensures within { IfOk result (λ count. count ≤ length buffer.old) }
        ensures serves { IsTrue (D.honest (inner_of self.old))
            → IfOk result
            (Serves (file_of (D.content (inner_of self.old)) which) at buffer.old buffer.new) }
        ensures same { IsTrue (D.honest (inner_of self.old))
            → D.content (inner_of self.new) ≡ D.content (inner_of self.old) }
        ensures honest { D.honest (inner_of self.new) ≡ D.honest (inner_of self.old) }
        ensures failures { fuse_failures self.old ≤ fuse_failures self.new }
        ensures only_reads { Reaches (λ a b. OnlyReadsFuse D.rests a b) self.old self.new }
        ensures unsynced { (file : Which) → fuse_syncs self.new file ≡ fuse_syncs self.old file }
        ensures calm { OnOk result (fuse_failures self.new ≡ fuse_failures self.old) }
        ensures errors { IfErr result (IsDeviceFault (λ d. fuse_failures d) self.old self.new) }
        ensures fuse { GoesByFuse D.failures (DeviceIsRead D.writes D.syncs) self.old self.new
            (is_err result) }
    {
        if self.fuse.blows() {
            return Err(self.counts.fault());
        }
        match self.inner.read_at(which, at, buffer) {
            Ok(count) => Ok(count),
            Err(_) => Err(self.counts.fault()),
        }
    }

    fn write_at(&mut self, which: Which, at: u64, bytes: &[u8]) -> Result<(), Error>
        requires { IsTrue (D.honest (inner_of self.old))
            → at ≤ length (file_of (D.content (inner_of self.old)) which) }
        ensures written { IsTrue (D.honest (inner_of self.old))
            → OnOk result (D.content (inner_of self.new)
            ≡ with_file (D.content (inner_of self.old)) which
            (overwritten (file_of (D.content (inner_of self.old)) which) at bytes.now)) }
        ensures torn { IsTrue (D.honest (inner_of self.old))
            → OnErr result
            (TornFile which at (length bytes.now) (D.content (inner_of self.old))
            (D.content (inner_of self.new))) }
        ensures honest { D.honest (inner_of self.new) ≡ D.honest (inner_of self.old) }
        ensures count { IsOneMore which (fuse_writes self.old) (fuse_writes self.new) }
        ensures leaves { IsTrue (D.honest (inner_of self.old))
            → CrashLeavesOnly (λ d. D.moment (inner_of d))
            (λ d moment left. D.crash_left_since (inner_of d) moment left) self.old self.new
            (IsTornWriteOf which at (length bytes.now) (D.crash_may_leave (inner_of self.old))) }
        ensures remembers { KeepsCrashHistory (λ d. D.moment (inner_of d))
            (λ d moment left. D.crash_left_since (inner_of d) moment left) self.old self.new }
        ensures failures { fuse_failures self.old ≤ fuse_failures self.new }
        ensures unsynced { (file : Which) → fuse_syncs self.new file ≡ fuse_syncs self.old file }
        ensures calm { OnOk result (fuse_failures self.new ≡ fuse_failures self.old) }
        ensures errors { IfErr result (IsDeviceFault (λ d. fuse_failures d) self.old self.new) }
        ensures fuse { GoesByFuse D.failures (IsOneWrite D.writes D.syncs which) self.old self.new
            (is_err result) }
    {
        self.counts.write(which);
        if self.fuse.blows() {
            return Err(self.counts.fault());
        }
        match self.inner.write_at(which, at, bytes) {
            Ok(()) => Ok(()),
            Err(_) => Err(self.counts.fault()),
        }
    }

    fn sync(&mut self, which: Which) -> Result<(), Error>
        ensures same { IsTrue (D.honest (inner_of self.old))
            → D.content (inner_of self.new) ≡ D.content (inner_of self.old) }
        ensures durable { IsTrue (D.honest (inner_of self.old))
            → OnOk result
            (CrashKeepsFile which (D.content (inner_of self.new))
            (D.crash_may_leave (inner_of self.new))) }
        ensures honest { D.honest (inner_of self.new) ≡ D.honest (inner_of self.old) }
        ensures failures { fuse_failures self.old ≤ fuse_failures self.new }
        ensures only_reads { Reaches (λ a b. OnlyReadsFuse D.rests a b) self.old self.new }
        ensures synced { fuse_syncs self.new which ≡ counted_up (fuse_syncs self.old which) }
        ensures others { (other : Which) → other ≢ which
            → fuse_syncs self.new other ≡ fuse_syncs self.old other }
        ensures calm { OnOk result (fuse_failures self.new ≡ fuse_failures self.old) }
        ensures errors { IfErr result (IsDeviceFault (λ d. fuse_failures d) self.old self.new) }
        ensures fuse { GoesByFuse D.failures (IsOneSync D.writes D.syncs which) self.old self.new
            (is_err result) }
    {
        self.counts.sync(which);
        if self.fuse.blows() {
            return Err(self.counts.fault());
        }
        match self.inner.sync(which) {
            Ok(()) => Ok(()),
            Err(_) => Err(self.counts.fault()),
        }
    }

    ghost rests_refl = { λ d. record { inner = D.rests_refl d.inner; writes = λ _. refl; failures = Prim.omega arith } };

    ghost rests_keeps = { λ a b rests. let kept = D.rests_keeps a.inner b.inner rests.inner in record { as_honest = kept.as_honest; same = kept.same; unwritten = rests.writes; counted = rests.failures } };

    ghost counts_now = { λ d t left earlier now. D.counts_now d.inner t left earlier now };

    ghost only_now = { λ d left since. D.only_now d.inner left since };

    ghost rests_leaves = { λ a b rests. let leaves = D.rests_leaves a.inner b.inner rests.inner in record { later = leaves.later; each = leaves.each; before = leaves.before } };

    ghost rests_remember = { λ a b rests. D.rests_remember a.inner b.inner rests.inner };

    ghost shows_now = { λ d honest. D.shows_now d.inner honest };
}
