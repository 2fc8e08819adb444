//! Streams of packages that are written piece by piece.
use crate::package::Package;
use cfb_medium::{Error, Medium, MemoryMedium, ReadMedium};
use cfb_sectors::place_found;
use std::io::SeekFrom;

/// A writer that has its bytes in memory.
pub type StreamWriter<'a, F> = StreamWriterOver<'a, F, MemoryMedium>;

/// A stream of a package that is written, from a position on. It borrows the package, and keeps the stream's bytes until `flush` or
/// `close` puts them into it, all or none. One that is dropped leaves the stream as its last `flush` did, or without bytes.
#[derive(Drop)]
pub struct StreamWriterOver<'a, F: ReadMedium, C> {
    package: &'a mut Package<F>,
    name: &'a str,
    content: C,
    position: u64,
}

impl<'a, F: Medium> StreamWriterOver<'a, F, MemoryMedium> {
    ghost use Rattle.std.specs.Prelude.{◌≡◌, ◌+◌, ◌⊎◌, ◌==◌, ◌^◌, ◌≤◌, [], length, IfErr, IfOk, OnErr, OnOk, ℕ};
    ghost use Rattle.cfb_medium.specs.Bytes.{overwritten};
    ghost use Rattle.cfb_medium.specs.declared.error.Error.TheVariants.{InvalidInput, Memory};
    ghost use Rattle.cfb_sectors.specs.Seeking.{Finds};
    ghost use Rattle.msi.specs.Writers.{content_in, lender_of, name_in, package_under, place_in, ReplacesStream, WriterKeeps, WriterRests};

    // The writer of a stream without bytes.
    pub(crate) fn new(over: &'a mut Package<F>, name: &'a str) -> StreamWriter<'a, F>
        ensures same_reference { lender_of result ≡ over.entry.ghost_name }
        ensures package_is { package_under result ≡ over.old }
        ensures name { name_in result ≡ name.entry.now }
        ensures nothing { content_in result ≡ [] }
        ensures at_start { place_in result ≡ 0 }
    {
        let content = MemoryMedium::new(over.alloc);
        StreamWriterOver {
            package: over,
            name,
            content,
            position: 0,
        }
    }

    /// How many bytes it has.
    pub fn len(&self) -> u64
        ensures { result ≡ length (content_in self.now) }
    {
        self.content.bytes().len() as u64
    }

    /// Whether it has no bytes.
    pub fn is_empty(&self) -> bool
        ensures { result ≡ (length (content_in self.now) == 0) }
    {
        self.content.bytes().is_empty()
    }

    /// Writes all the bytes over those from the position on, and behind the end where they become more; the position is behind them
    /// then, and their number is answered. `InvalidInput` for an end past 2^63 - 1, and `Memory`; then nothing is changed. The package
    /// stays as it is.
    pub fn write(&mut self, bytes: &[u8]) -> Result<usize, Error>
        ensures written { OnOk result (content_in self.new
            ≡ overwritten (content_in self.old) (place_in self.old) bytes.now) }
        ensures count { IfOk result (λ n. (n ≡ length bytes.now)
            × (place_in self.new ≡ place_in self.old + n)) }
        ensures refused_only_if { IfErr result (λ e. (e ≡ Memory) ⊎ ((e ≡ InvalidInput)
            × (2 ^ 63 ≤ place_in self.old + length bytes.now))) }
        ensures keeps { OnErr result (WriterKeeps self.old self.new) }
        ensures only_reads { WriterRests self.old self.new }
    {
        self.content.write_at(self.position, bytes)?;
        self.position += bytes.len() as u64;
        Ok(bytes.len())
    }

    /// Moves the position to a place of the stream or to its end, and gives it. `InvalidInput` where it is before the stream or behind
    /// its end; then the position stays. The package and the bytes stay as they are.
    pub fn seek(&mut self, from: SeekFrom) -> Result<u64, Error>
        ensures ok { IfOk result
            (λ n. Finds from (length (content_in self.old)) (place_in self.old) n
            × (place_in self.new ≡ n)) }
        ensures refused_only_if { IfErr result (λ e. (e ≡ InvalidInput) × ((n : ℕ)
            → Finds from (length (content_in self.old)) (place_in self.old) n → ⊥)) }
        ensures unmoved { OnErr result (place_in self.new ≡ place_in self.old) }
        ensures content { content_in self.new ≡ content_in self.old }
        ensures only_reads { WriterRests self.old self.new }
    {
        let Some(place) = place_found(from, self.len(), self.position) else {
            return Err(Error::InvalidInput);
        };
        self.position = place;
        Ok(place)
    }

    /// Puts the bytes into the package, as `put_stream` does; the writer has them still, and goes on. Errors are those of `put_stream`.
    pub fn flush(&mut self) -> Result<(), Error>
        ensures puts { ReplacesStream (name_in self.old) (content_in self.old) result
            (package_under self.old) (package_under self.new) }
        ensures keeps { WriterKeeps self.old self.new }
        ensures lender { lender_of self.new ≡ lender_of self.old }
        ensures name { name_in self.new ≡ name_in self.old }
    {
        self.package.put_stream(self.name, self.content.bytes())
    }

    /// Puts the bytes into the package, as `put_stream` does, and ends the writing.
    pub fn close(self) -> Result<(), Error>
        ensures puts { ReplacesStream (name_in self.entry) (content_in self.entry) result
            (package_under self.entry) self.exit.0.now }
    {
        let StreamWriterOver {
            package,
            name,
            content,
            position: _,
        } = self;
        package.put_stream(name, content.bytes())
    }
}
