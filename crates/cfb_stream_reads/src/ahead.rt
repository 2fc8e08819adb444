//! Bytes of a stream that are read ahead.
ghost use Rattle.cfb_medium.specs.declared.error.Error.TheVariants.{Memory};
ghost use Rattle.std.specs.Prelude.{[], drop, length, max, min, take, IfErr, List, OnErr, OnOk, ℕ, ◌-◌, ◌≡◌, ◌≤◌};

use cfb_medium::Error;
use std::alloc::Global;

// At least so many bytes are read at once.
const LEAST: usize = 1024;

/// Bytes of a stream that were read ahead, from a place on, and how many are read at once.
#[derive(Drop)]
pub struct ReadAhead {
    pub(crate) bytes: Vec<u8>,
    pub(crate) start: u64,
    limit: usize,
    ghost few: { length bytes.items ≤ max limit 1024 },
}

impl ReadAhead {
    ghost use Rattle.cfb_stream_reads.specs.Content.{ahead_of, count_from, most_of, IsAheadOf};

    /// None yet. So many are read at once, or 1024 where that is less.
    pub fn new(alloc: Global, limit: usize) -> ReadAhead
        ensures none { ahead_of result ≡ [] }
        ensures most { most_of result ≡ max limit 1024 }
    {
        ReadAhead {
            bytes: Vec::new(alloc),
            start: 0,
            limit,
        }
    }

    /// Forgets them: another stream is read.
    pub fn clear(&mut self)
        ensures none { ahead_of self.new ≡ [] }
        ensures most { most_of self.new ≡ most_of self.old }
    {
        self.bytes.clear();
    }

    /// Those from a place of the stream on: at most so many as are read at once.
    pub fn from(&self, at: u64) -> &[u8]
        ensures bytes { (content : List ℕ) → IsAheadOf content self.now → result.now
            ≡ take (length result.now) (drop at content) }
        ensures count { length result.now ≡ count_from self.now at }
        ensures most { length result.now ≤ most_of self.now }
    {
        if at < self.start {
            return &self.bytes[..0];
        }
        let skipped = at - self.start;
        if skipped >= self.bytes.len() as u64 {
            return &self.bytes[..0];
        }
        &self.bytes[skipped as usize..]
    }

    /// Those from a place on of a stream of so many bytes.
    pub fn within(&self, at: u64, len: u64) -> &[u8]
        requires { at ≤ len }
        ensures bytes { (content : List ℕ) → IsAheadOf content self.now → result.now
            ≡ take (length result.now) (drop at content) }
        ensures count { length result.now ≡ min (len - at) (count_from self.now at) }
        ensures most { length result.now ≤ most_of self.now }
    {
        let bytes = self.from(at);
        let count = (len - at).min(bytes.len() as u64) as usize;
        &bytes[..count]
    }

    // So many are read at once, at most.
    pub(crate) fn most(&self) -> usize
        ensures { result ≡ most_of self.now }
    {
        self.limit.max(LEAST)
    }

    // Zeros, where so many bytes will be read from a place on; or none. The one error is `Memory`.
    pub(crate) fn make_room(&mut self, at: u64, count: usize) -> Result<(), Error>
        requires { count ≤ most_of self.old }
        ensures room { OnOk result ((length (ahead_of self.new) ≡ count) × (self.new.start ≡ at)) }
        ensures none { OnErr result (ahead_of self.new ≡ []) }
        ensures most { most_of self.new ≡ most_of self.old }
        ensures errors { IfErr result (λ e. e ≡ Memory) }
    {
        self.bytes.clear();
        self.start = at;
        match self.bytes.resize(count, 0) {
            Ok(()) => Ok(()),
            Err(_) => Err(Error::Memory),
        }
    }
}
