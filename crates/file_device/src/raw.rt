//! One file of a system.
ghost use Rattle.std.specs.Prelude.{◌≡◌, ◌≤◌, ◌<◌, ◌↔◌, ℕ, List, Bool, IsTrue, false, length, IfOk, OnOk, OnErr};
ghost use Rattle.cfb_medium.specs.Bytes.{overwritten, Serves};
ghost use Rattle.staged.specs.Device.{Torn};
ghost use Rattle.file_device.specs.Raw.{IsTornFrom};

use std::io;

/// A file, by the calls that a system has. Each write and each sync is told its tick, a number above those before.
pub trait RawFile {
    /// What reads show.
    ghost shown: { Self → List ℕ };

    /// What is said of bytes stands where this holds: a read shows what was written.
    ghost honest: { Self → Bool };

    /// What a crash at this tick may leave.
    ghost left_at: { Self → ℕ → List ℕ → Type 0 };

    /// The tick of its last write or sync.
    ghost changed: { Self → ℕ };

    /// Whether a sync has failed, so that a later one may confirm what isn't on the disk.
    ghost failed: { Self → Bool };

    /// The number of bytes.
    fn len(&self) -> io::Result<u64>
        ensures { IsTrue (honest self.now)
            → IfOk result (λ count. count ≡ length (shown self.now)) };

    /// Reads the smaller of the buffer and what there is from this place on.
    fn read_at(&self, at: u64, buffer: &mut [u8]) -> io::Result<usize>
        ensures within { IfOk result (λ count. count ≤ length buffer.old) }
        ensures serves { IsTrue (honest self.now)
            → IfOk result (Serves (shown self.now) at buffer.old buffer.new) };

    /// Writes all of it, over what is there and past the end. The place is at most the end.
    fn write_at(&mut self, at: u64, bytes: &[u8], tick: u64) -> io::Result<()>
        requires { changed self.old < tick }
        ensures written { IsTrue (honest self.old) → at ≤ length (shown self.old)
            → OnOk result (shown self.new ≡ overwritten (shown self.old) at bytes.now) }
        ensures torn { IsTrue (honest self.old) → at ≤ length (shown self.old)
            → OnErr result (Torn at (length bytes.now) (shown self.old) (shown self.new)) }
        ensures honest { honest self.new ≡ honest self.old }
        ensures when_failed { failed self.new ≡ failed self.old }
        ensures changed { changed self.new ≡ tick }
        ensures past { (k : ℕ) (left : List ℕ) → k < tick
            → left_at self.new k left ↔ left_at self.old k left }
        ensures left { IsTrue (honest self.old) → at ≤ length (shown self.old)
            → (left : List ℕ) → left_at self.new tick left
            → IsTornFrom at (length bytes.now) (left_at self.old tick) left };

    /// Makes what was written last.
    fn sync(&mut self, tick: u64) -> io::Result<()>
        requires { changed self.old < tick }
        ensures same { IsTrue (honest self.old) → shown self.new ≡ shown self.old }
        ensures durable { IsTrue (honest self.old) → failed self.old ≡ false
            → OnOk result ((left : List ℕ) → left_at self.new tick left → left ≡ shown self.new) }
        ensures fewer { (left : List ℕ) → left_at self.new tick left → left_at self.old tick left }
        ensures honest { honest self.new ≡ honest self.old }
        ensures when_failed { OnOk result (failed self.new ≡ failed self.old) }
        ensures changed { changed self.new ≡ tick }
        ensures past { (k : ℕ) (left : List ℕ) → k < tick
            → left_at self.new k left ↔ left_at self.old k left };

    /// From its last write or sync on a crash leaves the same.
    ghost stays: { (f : Self) (j k : ℕ) (left : List ℕ) → changed f ≤ j → changed f ≤ k → left_at f j left → left_at f k left };

    /// A stop may leave what reads show.
    ghost shows: { (f : Self) → IsTrue (honest f) → left_at f (changed f) (shown f) };
}
