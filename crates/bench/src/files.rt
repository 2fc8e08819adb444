//! Parts of the benchmarks of compound files in memory.
use crate::{fragments, print_time};
use anyhow::Result;
use cfb::{CompoundFile, Entries, Stream};
use cfb_medium::{Error, MemoryMedium, Timestamp};
use cfb_tree::CaseMapper;
use std::alloc::Global;
use std::io::SeekFrom;
use std::time::Instant;

// So many bytes of a stream are read or written at once.
pub(crate) const PIECE: usize = 4096;

// The stream of pieces that lie far apart has so many bytes for each.
const ROOM: usize = 10_000;

// Odd, so that no two numbers give one name; its multiples lie far apart, as those of the golden ratio do.
const STEP: u32 = 2_654_435_761;

/// In which order names are made and removed: far apart, rising or falling; rising behind those that rise.
#[derive(Clone, Copy)]
pub enum Order {
    Shuffled,
    Rising,
    Falling,
    Behind,
}

/// What is done so many times.
#[derive(Clone, Copy)]
pub enum Part {
    /// A stream of 100 bytes is made.
    Make(Order),
    /// A stream of 10,000 bytes is made.
    MakeLong(Order),
    /// A megabyte is written to one stream.
    Write,
    /// Each stream is read whole, by its path.
    Read,
    /// A stream is removed.
    Remove(Order),
    /// The file is copied once.
    Copy,
    /// A storage is made in the last one, by a call for each.
    Nest,
    /// All these storages are made by one call.
    NestAtOnce,
    /// All these storages are removed by one call.
    RemoveNested,
    /// Room for a piece is written to one stream.
    MakeRoom,
    /// A piece is read.
    ReadPiece,
    /// A piece is written.
    WritePiece,
    /// A stream of 4,096 bytes is made.
    MakePiece,
    /// Every second of these streams is removed.
    RemoveSecond,
    /// One of the others, far from the last, is removed and made again.
    MakeAgain,
    /// A stream is cut to 50 bytes.
    Cut,
    /// A piece is appended to one of two streams in turn, each by an opening.
    TakeTurns,
    /// A sector is written to one stream.
    MakeSector,
    /// A byte is appended to it, each by an opening.
    AppendByte,
}

impl Part {
    // Its name as it is printed.
    fn name(self) -> &'static str {
        match self {
            Part::Make(_) => "streams made",
            Part::MakeLong(_) => "streams of 10,000 bytes made",
            Part::Write => "megabytes written",
            Part::Read => "objects read",
            Part::Remove(_) => "streams removed",
            Part::Copy => "streams copied",
            Part::Nest => "storages made",
            Part::NestAtOnce => "storages made by one call",
            Part::RemoveNested => "storages removed",
            Part::MakeRoom => "room made",
            Part::ReadPiece => "pieces read",
            Part::WritePiece => "pieces written",
            Part::MakePiece => "streams of 4,096 bytes made",
            Part::RemoveSecond => "streams removed, every second",
            Part::MakeAgain => "streams removed and made again",
            Part::Cut => "streams cut to 50 bytes",
            Part::TakeTurns => "pieces appended in turn",
            Part::MakeSector => "sectors written",
            Part::AppendByte => "bytes appended",
        }
    }
}

/// Times parts on a new file, then its opening, and the other parts on the file that is opened.
pub fn run(rt: &HostRuntime, size: u32, made: &[Part], opened: &[Part]) -> Result<()> {
    let medium = make_file(rt, size, made)?;
    let begin = Instant::now(rt)?;
    let mut file = open(rt.alloc(), medium)?;
    print_time(rt, "files opened", begin)?;
    time_parts(rt, &mut file, size, opened)
}

// What the parts leave of a new file.
fn make_file(rt: &HostRuntime, size: u32, parts: &[Part]) -> Result<MemoryMedium> {
    let mut file = new_file(rt.alloc())?;
    time_parts(rt, &mut file, size, parts)?;
    Ok(file.into_inner())
}

fn new_file(alloc: Global) -> Result<CompoundFile<MemoryMedium>, Error> {
    let letters = CaseMapper::ascii(alloc)?;
    match CompoundFile::create(alloc, MemoryMedium::new(alloc), letters) {
        Ok(file) => Ok(file),
        Err((_, error)) => Err(error),
    }
}

fn open(alloc: Global, medium: MemoryMedium) -> Result<CompoundFile<MemoryMedium>, Error> {
    let letters = CaseMapper::ascii(alloc)?;
    match CompoundFile::open(alloc, medium, letters) {
        Ok(file) => Ok(file),
        Err((_, error)) => Err(error),
    }
}

fn time_parts(
    rt: &HostRuntime,
    file: &mut CompoundFile<MemoryMedium>,
    size: u32,
    parts: &[Part],
) -> Result<()> {
    for part in parts {
        let begin = Instant::now(rt)?;
        carry_out(rt.alloc(), file, *part, size)?;
        print_time(rt, part.name(), begin)?;
    }
    Ok(())
}

fn carry_out(
    alloc: Global,
    file: &mut CompoundFile<MemoryMedium>,
    part: Part,
    size: u32,
) -> Result<(), Error> {
    match part {
        Part::Make(order) => make_streams(alloc, file, size, order, 100),
        Part::MakeLong(order) => make_streams(alloc, file, size, order, 10_000),
        Part::Write => write_new(
            alloc,
            file,
            "/large",
            (size as usize).saturating_mul(1_000_000),
        ),
        Part::MakeRoom => write_new(alloc, file, "/large", (size as usize).saturating_mul(ROOM)),
        Part::Read => read_streams(alloc, file),
        Part::Remove(order) => remove_streams(alloc, file, size, order),
        Part::Copy => copy(alloc, file),
        Part::Nest => nest(alloc, file, size),
        Part::NestAtOnce => nest_at_once(alloc, file, size),
        Part::RemoveNested => file.remove_storage_all("/a"),
        Part::ReadPiece => visit(file, size, false),
        Part::WritePiece => visit(file, size, true),
        Part::MakePiece => make_streams(alloc, file, size, Order::Rising, PIECE),
        Part::RemoveSecond => fragments::remove_second(alloc, file, size),
        Part::MakeAgain => fragments::make_again(alloc, file, size),
        Part::Cut => fragments::cut_streams(alloc, file, size),
        Part::TakeTurns => fragments::take_turns(file, size),
        Part::MakeSector => {
            write_new(
                alloc,
                file,
                fragments::GROWN,
                (size as usize).saturating_mul(PIECE),
            )
        }
        Part::AppendByte => fragments::append_bytes(file, size),
    }
}

// The path of the stream that is made as the n-th.
pub(crate) fn path_of(alloc: Global, n: u32, order: Order) -> Result<String, Error> {
    let number = match order {
        Order::Shuffled => n.wrapping_mul(STEP),
        Order::Rising => n,
        Order::Falling => u32::MAX - n,
        Order::Behind => n.wrapping_add(1 << 31),
    };
    Ok(format!(in alloc; "/{number:08x}")?)
}

fn make_streams(
    alloc: Global,
    file: &mut CompoundFile<MemoryMedium>,
    count: u32,
    order: Order,
    len: usize,
) -> Result<(), Error> {
    for n in 0..count {
        let path = path_of(alloc, n, order)?;
        write_new(alloc, file, &path, len)?;
    }
    Ok(())
}

fn remove_streams(
    alloc: Global,
    file: &mut CompoundFile<MemoryMedium>,
    count: u32,
    order: Order,
) -> Result<(), Error> {
    for n in 0..count {
        let path = path_of(alloc, n, order)?;
        file.remove_stream(&path)?;
    }
    Ok(())
}

// Makes a stream of so many bytes.
pub(crate) fn write_new(
    alloc: Global,
    file: &mut CompoundFile<MemoryMedium>,
    path: &str,
    len: usize,
) -> Result<(), Error> {
    let piece = vec![in alloc; 7u8; PIECE.min(len)]?;
    file.create_new_stream(path)?;
    let mut stream = file.open_stream(path)?;
    let done = write_pieces(&mut stream, &piece, len);
    let closed = stream.close();
    done?;
    closed
}

fn write_pieces(
    stream: &mut Stream<'_, MemoryMedium>,
    piece: &[u8],
    len: usize,
) -> Result<(), Error> {
    let mut left = len;
    for _ in 0..len {
        if left == 0 {
            break;
        }
        let count = left.min(piece.len());
        write_piece(stream, &piece[..count])?;
        left -= count;
    }
    Ok(())
}

// A function for a call that many make: what is told of it costs time wherever it is seen.
pub(crate) fn write_piece(
    stream: &mut Stream<'_, MemoryMedium>,
    piece: &[u8],
) -> Result<(), Error> {
    stream.write(piece)?;
    Ok(())
}

fn read_piece(stream: &mut Stream<'_, MemoryMedium>, piece: &mut [u8]) -> Result<(), Error> {
    stream.read(piece)?;
    Ok(())
}

fn read_streams(alloc: Global, file: &mut CompoundFile<MemoryMedium>) -> Result<(), Error> {
    let entries = file.walk()?;
    read_each(alloc, file, entries)
}

// Reads each of these that is a stream, by its path.
fn read_each(
    alloc: Global,
    file: &mut CompoundFile<MemoryMedium>,
    entries: Entries,
) -> Result<(), Error> {
    let mut bytes = Vec::new(alloc);
    for entry in entries {
        if entry.is_stream() {
            bytes.clear();
            read(file, entry.path(), &mut bytes)?;
        }
    }
    Ok(())
}

fn read(
    file: &mut CompoundFile<MemoryMedium>,
    path: &str,
    bytes: &mut Vec<u8>,
) -> Result<usize, Error> {
    file.open_read_stream(path)?.read_to_end(bytes)
}

fn copy(alloc: Global, file: &mut CompoundFile<MemoryMedium>) -> Result<(), Error> {
    let mut target = MemoryMedium::new(alloc);
    file.copy_to(&mut target)
}

fn nest(alloc: Global, file: &mut CompoundFile<MemoryMedium>, count: u32) -> Result<(), Error> {
    let mut path = String::new(alloc);
    for _ in 0..count {
        path.push_str("/a")?;
        file.create_storage(&path, Timestamp::zero())?;
    }
    Ok(())
}

fn nest_at_once(
    alloc: Global,
    file: &mut CompoundFile<MemoryMedium>,
    count: u32,
) -> Result<(), Error> {
    let mut path = String::new(alloc);
    for _ in 0..count {
        path.push_str("/a")?;
    }
    file.create_storage_all(&path, Timestamp::zero())
}

// Reads or writes so many pieces of one stream, at places far apart.
fn visit(file: &mut CompoundFile<MemoryMedium>, count: u32, is_writing: bool) -> Result<(), Error> {
    let mut stream = file.open_stream("/large")?;
    let done = visit_pieces(&mut stream, count, is_writing);
    let closed = stream.close();
    done?;
    closed
}

fn visit_pieces(
    stream: &mut Stream<'_, MemoryMedium>,
    count: u32,
    is_writing: bool,
) -> Result<(), Error> {
    let mut piece = [9; PIECE];
    for n in 0..count {
        let place = n.wrapping_mul(7919) % count.max(1);
        stream.seek(SeekFrom::Start((place as u64).saturating_mul(ROOM as u64)))?;
        if is_writing {
            write_piece(stream, &piece)?;
        } else {
            read_piece(stream, &mut piece)?;
        }
    }
    Ok(())
}
