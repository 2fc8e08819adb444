//! What compound files hold: each object with its path, a stream with its length and the SHA-256 of its bytes.
use anyhow::{Result, bail};
use cfb::{CompoundFile, Entry, OpenOptions};
use cfb_medium::{Error, ReadMedium};
use file_device::FileMedium;
use sha2::{Digest, Sha256};
use std::alloc::Global;
use std::io::SeekFrom;

// How much of a stream is read at once.
const PIECE: usize = 100;

// Paths at which no file has an object, the last above the root.
const NOWHERE: [&str; 2] = ["/no such object", "/one/../../one"];

/// Prints the objects of a file, each storage before what it holds.
pub fn print(rt: &HostRuntime, path: &str) -> Result<()> {
    let mut medium = FileMedium::open(rt, path)?;
    let len = medium.len()?;
    let options = OpenOptions::new(rt.alloc())?;
    let mut file = match options.open_with(rt.alloc(), medium) {
        Ok(file) => file,
        Err((_, error)) => bail!("{path}: {error}"),
    };
    let state = if file.is_sound() {
        "sound"
    } else {
        "not sound"
    };
    println!(rt; "== {path} ({len} bytes, {state})")?;
    for entry in file.walk()? {
        print_entry(rt, &mut file, &entry)?;
    }
    for path in NOWHERE {
        println!(rt; "{path}\t{}", kind_at(&file, path))?;
    }
    Ok(())
}

// Prints an object: a storage with how many objects it holds at once and in all.
fn print_entry<F: ReadMedium>(
    rt: &HostRuntime,
    file: &mut CompoundFile<F>,
    listed: &Entry,
) -> Result<()> {
    let path = listed.path();
    let shown = ascii_path(rt.alloc(), path)?;
    let kind = kind_at(file, path);
    if kind == "stream" {
        let len = file.entry(path)?.len();
        let hex = hex::encode(rt.alloc(), digest_of(rt.alloc(), file, path)?)?;
        println!(rt; "{shown}\t{kind}\t{len}\t{hex}")?;
    } else {
        let children = file.read_storage(path)?.len();
        let all = file.walk_storage(path)?.len();
        println!(rt; "{shown}\t{kind}\t{children}\t{all}")?;
    }
    Ok(())
}

// What is at a path.
fn kind_at<F: ReadMedium>(file: &CompoundFile<F>, path: &str) -> &'static str {
    if file.is_stream(path) {
        return "stream";
    }
    if file.is_storage(path) {
        return "storage";
    }
    if file.exists(path) {
        return "neither";
    }
    "missing"
}

// The SHA-256 of a stream's bytes, which are read in pieces and whole.
fn digest_of<F: ReadMedium>(
    alloc: Global,
    file: &mut CompoundFile<F>,
    path: &str,
) -> Result<[u8; 32], Error> {
    let mut stream = file.open_read_stream(path)?;
    let mut pieces = Sha256::new();
    let mut buffer = [0; PIECE];
    for _ in 0..=stream.len() / PIECE as u64 {
        let count = stream.read(&mut buffer)?;
        pieces.update(&buffer[..count]);
    }
    stream.seek(SeekFrom::Start(0))?;
    let mut bytes = Vec::new(alloc);
    stream.read_to_end(&mut bytes)?;
    let mut whole = Sha256::new();
    whole.update(&bytes);
    let digest = whole.finalize();
    if pieces.finalize() != digest {
        return Err(Error::InvalidData);
    }
    Ok(digest)
}

// A path in ASCII: all else as its number.
fn ascii_path(alloc: Global, path: &str) -> Result<String> {
    let mut text = String::new(alloc);
    for ch in path.chars() {
        if ch.is_ascii_graphic() || ch == ' ' {
            text.push(ch)?;
        } else {
            text.push_str(format!(in alloc; "\\u{:04x}", ch as u32)?.as_str())?;
        }
    }
    Ok(text)
}
