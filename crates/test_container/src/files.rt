//! A compound file in memory.
use crate::answers::answer_of;
use crate::faults::{File, MANY, call_fails, open_fails, open_leniently};
use crate::streams::sum_of;
use cfb::{CompoundFile, OpenOptions};
use cfb_medium::{Error, Version};
use cfb_tree::CaseMapper;
use std::alloc::Global;
use test_support::{FailingMedium, Row, Subject, bytes_at, part_of, yes_or_no};

/// A compound file in memory, under the letters of ASCII.
#[derive(Drop)]
pub struct FileInMemory {
    file: Option<File>,
}

impl FileInMemory {
    /// Without a file.
    pub fn new() -> FileInMemory {
        FileInMemory { file: None }
    }

    // What holds the file's bytes, which it gives up.
    fn take_medium(&mut self) -> Result<FailingMedium, Error> {
        let file = self.file.take().ok_or(Error::NotFound)?;
        Ok(file.into_inner())
    }

    // Opens the file again: so that at most so many bytes of a stream are read at once, or strictly. A file that is refused stays, as a
    // lenient reader has it.
    fn reopen(&mut self, alloc: Global, row: &Row) -> Result<(), Error> {
        let medium = self.take_medium()?;
        let answer = match row.call() {
            "at most" => open_limited(alloc, medium, row.number(1)),
            _ => open_strictly(alloc, medium),
        };
        match answer {
            Ok(file) => {
                self.file = Some(file);
                Ok(())
            }
            Err((medium, error)) => {
                self.file = open_leniently(alloc, medium).ok();
                Err(error)
            }
        }
    }

    // Copies the file, which then is the copy, and tells how many bytes that has.
    fn copy(&mut self, alloc: Global) -> Result<String, Error> {
        let mut target = FailingMedium::new(alloc, Vec::new(alloc), MANY);
        match &mut self.file {
            Some(file) => file.copy_to(&mut target)?,
            None => return Err(Error::NotFound),
        }
        let len = target.bytes().len();
        self.file = Some(open_strictly(alloc, target).map_err(|refused| refused.1)?);
        Ok(format!(in alloc; "{len} bytes")?)
    }

    // Whether fewer bytes than so many were written since the file was made or read from a row.
    fn written_below(&mut self, alloc: Global, row: &Row) -> Result<String, Error> {
        let medium = self.take_medium()?;
        let limit = u64::try_from(row.number(1)).unwrap_or(0);
        let told = yes_or_no(alloc, medium.written() < limit);
        self.file = Some(open_leniently(alloc, medium).map_err(|refused| refused.1)?);
        told
    }

    // What is answered of the file's bytes.
    fn own_bytes(&mut self, alloc: Global, row: &Row) -> Result<String, Error> {
        let bytes = self.take_medium()?.into_bytes();
        let told = bytes_told(alloc, &bytes, row);
        self.file = Some(file_of(alloc, bytes)?);
        told
    }
}

impl Subject for FileInMemory {
    fn answer(&mut self, alloc: Global, row: &Row) -> Result<String, Error> {
        match row.call() {
            "file" => self.file = Some(file_of(alloc, bytes_at(alloc, row, 1)?)?),
            "create" | "create with" | "create version 3" | "create version 4" => {
                self.file = Some(created(alloc, row)?);
            }
            "again" | "at most" => self.reopen(alloc, row)?,
            "copy" => return self.copy(alloc),
            "written below" => return self.written_below(alloc, row),
            "part" | "whole" | "open fails" | "fails" => return self.own_bytes(alloc, row),
            _ => {}
        }
        match &mut self.file {
            Some(file) => answer_of(alloc, file, row),
            None => Err(Error::NotFound),
        }
    }
}

// The file of these bytes, opened leniently.
fn file_of(alloc: Global, bytes: Vec<u8>) -> Result<File, Error> {
    open_leniently(alloc, FailingMedium::new(alloc, bytes, MANY)).map_err(|refused| refused.1)
}

fn open_strictly(alloc: Global, medium: FailingMedium) -> Result<File, (FailingMedium, Error)> {
    match CaseMapper::ascii(alloc) {
        Ok(letters) => CompoundFile::open_strict(alloc, medium, letters),
        Err(error) => Err((medium, error)),
    }
}

fn open_limited(
    alloc: Global,
    medium: FailingMedium,
    limit: i64,
) -> Result<File, (FailingMedium, Error)> {
    let limit = usize::try_from(limit).unwrap_or(1);
    match OpenOptions::new(alloc) {
        Ok(options) => options.max_buffer_size(limit).open_with(alloc, medium),
        Err(error) => Err((medium, error)),
    }
}

// A new file, which is made over the bytes of a row.
fn created(alloc: Global, row: &Row) -> Result<File, Error> {
    let bytes = bytes_at(alloc, row, 1)?;
    let letters = CaseMapper::ascii(alloc)?;
    let options = OpenOptions::new(alloc)?;
    let medium = FailingMedium::new(alloc, bytes, MANY);
    let answer = match row.call() {
        "create" => CompoundFile::create(alloc, medium, letters),
        "create with" => options.create_with(alloc, medium),
        "create version 3" => {
            CompoundFile::create_with_version(alloc, Version::V3, medium, letters)
        }
        _ => CompoundFile::create_with_version(alloc, Version::V4, medium, letters),
    };
    answer.map_err(|refused| refused.1)
}

// Some of the bytes, what calls answer over media that fail, or how many bytes there are, with their sum.
fn bytes_told(alloc: Global, bytes: &Vec<u8>, row: &Row) -> Result<String, Error> {
    match row.call() {
        "part" => part_of(alloc, bytes, row),
        "open fails" => open_fails(alloc, bytes),
        "fails" => {
            let call = row.cell(1).ok_or(Error::InvalidInput)?;
            call_fails(alloc, bytes, &Row::of(alloc, call)?)
        }
        _ => Ok(format!(in alloc; "{} bytes, {}", bytes.len(), sum_of(bytes))?),
    }
}
