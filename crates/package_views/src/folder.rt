//! The folder that an export writes.
use crate::extract::write_stream_file;
use cfb_medium::Error;
use msi::Package;
use msi_export::{
    CopyError, Loss, codepage_text, file_name_of, has_bytes, heading_lines, loss_of_property,
    loss_of_row, row_text, sorted_rows, stream_of_row, summary_text,
};
use msi_spec::PackageType;
use msi_tables::Row;
use package_files::{Shown, Trouble, tell_part, tell_trouble, trouble_of_kind};
use package_reading::{
    Stored, columns_of, has_stream, kind_of, open_stream, properties_of, rows_of, streams_of,
    table_named, tables_of,
};
use std::alloc::{AllocError, Global};
use std::collections::BTreeSet;
use std::fs::{self, File};
use std::io::{self, Write};
use std::rt::Files;

/// How much was written.
#[derive(Clone, Copy, Debug, PartialEq, Eq)]
pub(crate) enum Written {
    /// All, and all of it is read back as it was.
    Whole,
    /// All. What isn't read back as it was, was told.
    Lossy,
    /// Some: what couldn't be read was told.
    Partly,
}

// The folder of the streams that no cell names.
const STREAMS: &str = "_Streams";

// The files of the code page and of the summary.
const CODEPAGE: &str = "_ForceCodepage";

const SUMMARY: &str = "_SummaryInformation";

// The line of a table's first row.
const FIRST_ROW: usize = 4;

// What of a file isn't read back as it was: the first row or property and what is lost of it, and how many such there are.
#[derive(Drop)]
struct Lost<P> {
    first: Option<(P, Loss)>,
    count: u64,
}

impl<P: Drop> Lost<P> {
    fn nothing() -> Lost<P> {
        Lost {
            first: None,
            count: 0,
        }
    }

    fn add(&mut self, place: P, loss: Loss) {
        if self.first.is_none() {
            self.first = Some((place, loss));
        }
        self.count = self.count.saturating_add(1);
    }
}

/// The folder that is written.
#[derive(Drop)]
pub(crate) struct Target<'a, R, E> {
    rt: &'a R,
    alloc: Global,
    // How the package was named.
    path: &'a str,
    folder: &'a str,
    // The streams that cells name.
    named: BTreeSet<String>,
    /// How much was written.
    pub(crate) written: Written,
    /// Where it is told what went wrong.
    pub(crate) err: &'a mut E,
}

impl<'a, R: Files<File = File>, E: Write> Target<'a, R, E> {
    /// A folder that is there, and has nothing yet.
    pub(crate) fn new(
        rt: &'a R,
        alloc: Global,
        path: &'a str,
        folder: &'a str,
        err: &'a mut E,
    ) -> Target<'a, R, E> {
        Target {
            rt,
            alloc,
            path,
            folder,
            named: BTreeSet::new(alloc),
            written: Written::Whole,
            err,
        }
    }

    /// Writes a package, and tells what isn't read back from the files as it was.
    pub(crate) fn write_all(
        &mut self,
        package: &mut Package<Shown>,
        stored: &Stored,
    ) -> Result<(), Error> {
        self.make_folder(STREAMS)?;
        let page = codepage_text(self.alloc, stored.page)?;
        self.write_table(CODEPAGE, &page)?;
        self.write_summary(package)?;
        self.write_tables(package)?;
        self.write_streams(package)?;
        if kind_of(package) != PackageType::Installer {
            self.tell_loss("it is no installer, and its kind is left out");
        }
        if stored.has_storages {
            self.tell_loss("it has storages, which are left out");
        }
        Ok(())
    }

    fn write_summary(&mut self, package: &Package<Shown>) -> Result<(), Error> {
        let properties = properties_of(package);
        let text = summary_text(self.alloc, properties)?;
        self.write_table(SUMMARY, &text)?;
        let mut lost = Lost::nothing();
        for (number, value) in properties {
            if let Some(loss) = loss_of_property(*number, value) {
                lost.add(*number, loss);
            }
        }
        self.tell_lost_property(&lost)
    }

    // Each table but the two that list the others.
    fn write_tables(&mut self, package: &mut Package<Shown>) -> Result<(), Error> {
        let mut number = 0u64;
        for name in tables_of(package)? {
            number = number.saturating_add(1);
            let file = file_name_of(self.alloc, &name, number)?;
            if is_taken(&name) {
                self.tell_loss_of(&name)?;
            } else if !lists_others(&name) {
                self.write_rows_of(package, &name, &file)?;
            }
        }
        Ok(())
    }

    // A table, whose file has this name, and the bytes of its rows.
    fn write_rows_of(
        &mut self,
        package: &mut Package<Shown>,
        name: &str,
        file: &str,
    ) -> Result<(), Error> {
        let rows = match rows_of(self.alloc, package, name) {
            Ok(rows) => rows,
            Err(error) => {
                self.tell_unread("table", name, error);
                return Ok(());
            }
        };
        let rows = sorted_rows(self.alloc, rows)?;
        let mut text = heading_of(self.alloc, package, name)?;
        let mut lost = Lost::nothing();
        for (at, row) in rows.iter().enumerate() {
            let bytes = self.write_bytes_of(package, name, file, row, at as u64)?;
            push_line(&mut text, &row_text(self.alloc, row, bytes.as_deref())?)?;
            if let Some((place, loss)) = loss_of_row(&rows, at) {
                lost.add((at, place), loss);
            }
        }
        self.write_table(file, &text)?;
        self.tell_lost_row(package, name, file, &lost)
    }

    // The bytes of a row, where it has such: the name of their file in the table's folder.
    fn write_bytes_of(
        &mut self,
        package: &mut Package<Shown>,
        table: &str,
        folder: &str,
        row: &Row,
        number: u64,
    ) -> Result<Option<String>, Error> {
        if !has_bytes(row) {
            return Ok(None);
        }
        let stream = stream_of_row(self.alloc, table, row)?;
        if !has_stream(package, &stream) {
            return Ok(None);
        }
        let file = file_name_of(self.alloc, &stream, number)?;
        self.make_folder(folder)?;
        self.write_stream(package, &stream, folder, &file)?;
        self.named.insert(stream)?;
        Ok(Some(file))
    }

    // Each stream that no cell names.
    fn write_streams(&mut self, package: &mut Package<Shown>) -> Result<(), Error> {
        let mut number = 0u64;
        for name in streams_of(package)? {
            number = number.saturating_add(1);
            if !self.named.contains(&name) {
                let file = file_name_of(self.alloc, &name, number)?;
                self.write_stream(package, &name, STREAMS, &file)?;
            }
        }
        Ok(())
    }

    // A stream as a file of a folder.
    fn write_stream(
        &mut self,
        package: &mut Package<Shown>,
        name: &str,
        folder: &str,
        file: &str,
    ) -> Result<(), Error> {
        let mut stream = match open_stream(package, name) {
            Ok(stream) => stream,
            Err(error) => {
                self.tell_unread("stream", name, error);
                return Ok(());
            }
        };
        let path = format!(in self.alloc; "{}/{folder}/{file}", self.folder)?;
        match write_stream_file(self.rt, &path, &mut stream) {
            Ok(()) => Ok(()),
            Err(CopyError::Read(error)) => {
                // (no file has a part of it)
                let _ = fs::remove_file(self.rt, path.as_str());
                self.tell_unread("stream", name, error);
                Ok(())
            }
            Err(CopyError::Write(kind)) => {
                tell_trouble(&path, trouble_of_kind(kind).of_new(), self.err);
                Err(Error::Device)
            }
        }
    }

    fn write_table(&mut self, file: &str, text: &str) -> Result<(), Error> {
        let path = format!(in self.alloc; "{}/{file}.idt", self.folder)?;
        self.write_file(&path, text.as_bytes())
    }

    // Makes a folder in it, where that isn't there.
    fn make_folder(&mut self, name: &str) -> Result<(), Error> {
        let path = format!(in self.alloc; "{}/{name}", self.folder)?;
        match fs::create_dir(self.rt, path.as_str()) {
            Ok(()) => Ok(()),
            Err(error) if error.kind() == io::ErrorKind::AlreadyExists => Ok(()),
            Err(error) => {
                tell_trouble(&path, trouble_of_folder(error.kind()), self.err);
                Err(Error::Device)
            }
        }
    }

    fn write_file(&mut self, path: &str, bytes: &[u8]) -> Result<(), Error> {
        match fs::write(self.rt, path, bytes) {
            Ok(()) => Ok(()),
            Err(error) => {
                tell_trouble(path, trouble_of_kind(error.kind()).of_new(), self.err);
                Err(Error::Device)
            }
        }
    }

    // Tells the first property that isn't read back as it was.
    fn tell_lost_property(&mut self, lost: &Lost<u32>) -> Result<(), Error> {
        let Some((number, loss)) = lost.first else {
            return Ok(());
        };
        let others = others_text(self.alloc, lost.count)?;
        let what = format!(in self.alloc;
            "_SummaryInformation.idt, property {number}: {loss}{others}"
        )?;
        self.tell_loss(&what);
        Ok(())
    }

    // Tells the first row of a table that isn't read back as it was, by its line.
    fn tell_lost_row(
        &mut self,
        package: &Package<Shown>,
        table: &str,
        file: &str,
        lost: &Lost<(usize, usize)>,
    ) -> Result<(), Error> {
        let Some(((row, place), loss)) = lost.first else {
            return Ok(());
        };
        let line = row.saturating_add(FIRST_ROW);
        let column = column_name(package, table, place);
        let others = others_text(self.alloc, lost.count)?;
        let what = format!(in self.alloc; "{file}.idt, line {line}, {column}: {loss}{others}")?;
        self.tell_loss(&what);
        Ok(())
    }

    // Tells that a table is left out, since its file is that of the code page or the summary.
    fn tell_loss_of(&mut self, table: &str) -> Result<(), Error> {
        let what = format!(in self.alloc;
            "table {table}, which is left out, since its file has another meaning"
        )?;
        self.tell_loss(&what);
        Ok(())
    }

    // Tells what isn't read back as it was.
    fn tell_loss(&mut self, what: &str) {
        let _ = writeln!(self.err, "msidb: {}: {what}", self.path);
        if self.written == Written::Whole {
            self.written = Written::Lossy;
        }
    }

    // Tells that a part of the package couldn't be read.
    fn tell_unread(&mut self, kind: &str, name: &str, error: Error) {
        tell_part(self.path, kind, name, error, self.err);
        self.written = Written::Partly;
    }
}

/// Why a folder can't be made.
pub(crate) fn trouble_of_folder(kind: io::ErrorKind) -> Trouble {
    match kind {
        io::ErrorKind::NotFound | io::ErrorKind::NotADirectory => Trouble::NoFolder,
        io::ErrorKind::StorageFull | io::ErrorKind::QuotaExceeded => Trouble::NoSpaceForNew,
        _ => Trouble::Unmakable,
    }
}

// Whether the file of a table of this name has another meaning.
fn is_taken(name: &str) -> bool {
    name == CODEPAGE || name == SUMMARY
}

// Whether it is one of the two tables that list the others, which aren't exported.
fn lists_others(name: &str) -> bool {
    name == "_Tables" || name == "_Columns"
}

// The name of the column at a place.
fn column_name<'a>(package: &'a Package<Shown>, table: &str, place: usize) -> &'a str {
    match columns_of(package, table).get(place) {
        Some(column) => column.name(),
        None => "",
    }
}

// How many others are told of.
fn others_text(alloc: Global, count: u64) -> Result<String, AllocError> {
    match count.saturating_sub(1) {
        0 => Ok(String::new(alloc)),
        1 => String::from_str(alloc, "; and so is 1 more"),
        more => format!(in alloc; "; and so are {more} more"),
    }
}

// What stands above the rows of a table.
fn heading_of(alloc: Global, package: &Package<Shown>, name: &str) -> Result<String, Error> {
    let mut text = String::new(alloc);
    if let Some(table) = table_named(package, name) {
        for line in &heading_lines(alloc, table)? {
            push_line(&mut text, line)?;
        }
    }
    Ok(text)
}

fn push_line(text: &mut String, line: &str) -> Result<(), Error> {
    text.push_str(line)?;
    text.push_str("\r\n")?;
    Ok(())
}
