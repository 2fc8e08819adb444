//! Commands on packages over any medium, and where the sectors of one belong.
use cfb::{CaseMapper, CompoundFile, Entries};
use cfb_medium::{Error, Medium, MemoryMedium, ReadMedium};
use cfb_sectors::u32_at;
use command_file::{Command, read_commands};
use msi::{Package, Select};
use msi_spec::PackageType;
use staged::{MemoryDevice, Staged};
use std::alloc::Global;
use test_support::{Row, Survivor};

/// What a package answers to the commands of a row, which make tables, insert, delete, select and commit.
pub fn run_commands<F: Medium>(
    alloc: Global,
    package: &mut Package<F>,
    row: &Row,
) -> Result<String, Error> {
    let commands = match row.cell(1) {
        Some(cell) => read_commands(alloc, cell.to_string(alloc)?.as_str())?,
        None => return Err(Error::InvalidInput),
    };
    let mut text = String::new(alloc);
    for command in commands {
        match answer_to(alloc, package, command) {
            Ok(answer) => text.push_str(answer.as_str())?,
            Err(error) => text.push_str(format!(in alloc; "{error:?}, ")?.as_str())?,
        }
    }
    text.push_str("at the end")?;
    Ok(text)
}

fn answer_to<F: Medium>(
    alloc: Global,
    package: &mut Package<F>,
    command: Command,
) -> Result<String, Error> {
    match command {
        Command::CreateTable(name, columns) => package.create_table(name.as_str(), columns)?,
        Command::Insert(insert) => package.insert_rows(&insert)?,
        Command::Delete(delete) => package.delete_rows(&delete)?,
        Command::Select(select) => return rows_of(alloc, package, &select),
        Command::Commit => package.commit()?,
        _ => return Err(Error::InvalidInput),
    }
    Ok(String::from_str(alloc, "done, ")?)
}

// The first value of each row that is selected.
fn rows_of<F: Medium>(
    alloc: Global,
    package: &mut Package<F>,
    select: &Select,
) -> Result<String, Error> {
    let mut text = String::new(alloc);
    for row in package.select_rows(select)? {
        if let Some(value) = row.value(0) {
            text.push_str(format!(in alloc; "{value} ")?.as_str())?;
        }
    }
    Ok(text)
}

/// What new packages answer to the commands of a row, over a medium in memory and over a store, if it is the same.
pub fn answers_alike(alloc: Global, row: &Row) -> Result<String, Error> {
    let device = MemoryDevice::new(Vec::new(alloc), Vec::new(alloc));
    let store = Staged::new(alloc, device).map_err(|refused| refused.1)?;
    let stored = answers_over(alloc, store, row)?;
    let text = answers_over(alloc, MemoryMedium::new(alloc), row)?;
    if text.as_str() == stored.as_str() {
        return Ok(text);
    }
    Ok(format!(in alloc; "{text}, and in a store {stored}")?)
}

fn answers_over<F: Medium + Drop>(alloc: Global, medium: F, row: &Row) -> Result<String, Error> {
    let letters = CaseMapper::ascii(alloc)?;
    match Package::create(alloc, PackageType::Installer, medium, letters) {
        Ok(package) => {
            let mut package = package;
            run_commands(alloc, &mut package, row)
        }
        Err((_, error)) => Err(error),
    }
}

/// How many sectors behind the header of a medium with a file of version 4 are none of the directory's, the tables' and the streams'.
pub fn spare_sectors(alloc: Global, medium: Survivor) -> Result<u64, Error> {
    let mut medium = medium;
    let mut header = [0u8; 512];
    medium.read_at(0, &mut header)?;
    let sectors = medium.len()?.div_ceil(4096).saturating_sub(1);
    // (the header counts the sectors of directory, FAT, mini FAT and DIFAT)
    let mut used = 0u64;
    for place in [40, 44, 64, 72] {
        used = used.saturating_add(u64::from(u32_at(&header, place)));
    }
    let file = CompoundFile::open(alloc, medium, CaseMapper::ascii(alloc)?).map_err(
        |refused| refused.1,
    )?;
    Ok(
        sectors
            .saturating_sub(used)
            .saturating_sub(stream_sectors(file.walk()?)),
    )
}

// How many sectors the streams have, and the mini stream.
fn stream_sectors(entries: Entries) -> u64 {
    let mut sectors = 0u64;
    let mut minis = 0u64;
    for entry in entries {
        if entry.len() >= 4096 {
            sectors = sectors.saturating_add(entry.len().div_ceil(4096));
        } else if entry.is_stream() {
            minis = minis.saturating_add(entry.len().div_ceil(64));
        }
    }
    sectors.saturating_add(minis.div_ceil(64))
}
