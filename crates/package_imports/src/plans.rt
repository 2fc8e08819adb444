//! The commands that give a package the rows of files.
use crate::sources::{Bytes, Source};
use cfb_medium::Error;
use command_file::Command;
use idt_imports::{
    IdtTable, Imported, Refusal, SummaryRows, check_page, create_table, delete_rows, has_columns,
    insert_rows, set_summary,
};
use msi::Package;
use msi_texts::CodePage;
use package_files::{Names, Shown, tell};
use package_reading::{codepage_of, package_at, streams_of_rows, table_columns, tell_why_refused};
use std::alloc::{AllocError, Global};
use std::collections::BTreeSet;
use std::fs::File;
use std::io::Write;
use std::rt::Files;

/// Commands, and for each the file that wants it.
#[derive(Drop)]
pub struct Plan {
    /// The commands, and a commit at their end.
    pub commands: Vec<Command>,
    /// The path of a file for each, but for the commit.
    pub origins: Vec<String>,
}

impl Plan {
    fn new(alloc: Global) -> Plan {
        Plan {
            commands: Vec::new(alloc),
            origins: Vec::new(alloc),
        }
    }

    // Adds a command that a file wants.
    fn add(&mut self, alloc: Global, path: &str, command: Command) -> Result<(), Error> {
        self.origins.push(String::from_str(alloc, path)?)?;
        self.commands.push(command)?;
        Ok(())
    }
}

/// The commands that give the tables of a package the rows of these files. A table that the package lacks is made; one that it has loses its
/// rows first, with the streams of their bytes. What can't be imported is told with its file, and the status is given: 1, or 3 where the
/// package can't be read.
pub fn plan_import<R: Files<File = File> + AllocGlobal, E: Write>(
    rt: &R,
    names: &Names,
    sources: Vec<Source>,
    err: &mut E,
) -> Result<Plan, u8> {
    let mut package = match package_at(rt, names) {
        Ok(package) => package,
        Err(error) => {
            tell_why_refused(rt, names, error, err);
            return Err(3);
        }
    };
    check_pages(page_of(&package, &sources), &sources, err)?;
    let mut plan = Plan::new(rt.alloc());
    let are_several = sources.len() > 1;
    for source in sources {
        if are_several && is_passed_over(&source, err) {
            continue;
        }
        if let Err(why) = plan_source(rt.alloc(), &mut package, &mut plan, source, err) {
            return Err(status_of(names, why, err));
        }
    }
    match plan.commands.push(Command::Commit) {
        Ok(()) => Ok(plan),
        Err(_) => Err(status_of(names, Some(Error::Memory), err)),
    }
}

// The code page of the tables when all is imported.
fn page_of(package: &Package<Shown>, sources: &[Source]) -> CodePage {
    for source in sources {
        if let Imported::Page(page) = &source.said {
            return *page;
        }
    }
    codepage_of(package)
}

// Refuses texts that the code page lacks.
fn check_pages<E: Write>(page: CodePage, sources: &[Source], err: &mut E) -> Result<(), u8> {
    for source in sources {
        let Imported::Table(table) = &source.said else {
            continue;
        };
        if let Err(Refusal::At(fault)) = check_page(table, page) {
            let path = &source.path;
            let _ = writeln!(err, "msidb: {path}: {fault}");
            return Err(1);
        }
    }
    Ok(())
}

// The status of a refusal that was told, or of an error.
fn status_of<E: Write>(names: &Names, why: Option<Error>, err: &mut E) -> u8 {
    match why {
        None => 1,
        Some(Error::Memory) => {
            tell("out of memory", err);
            3
        }
        Some(error) => {
            let named = names.named();
            let _ = writeln!(err, "msidb: {named}: {error}");
            3
        }
    }
}

// Adds the commands of a file. None where it can't be imported, which is told.
fn plan_source<E: Write>(
    alloc: Global,
    package: &mut Package<Shown>,
    plan: &mut Plan,
    source: Source,
    err: &mut E,
) -> Result<(), Option<Error>> {
    let Source { path, said, bytes } = source;
    let planned = match said {
        Imported::Page(page) => plan.add(alloc, &path, Command::SetCodepage(page)),
        Imported::Summary(rows) => plan_summary(alloc, plan, &path, rows),
        Imported::Table(table) => {
            if let Some(why) = why_not(package, &table) {
                let _ = writeln!(err, "msidb: {path}: {why}");
                return Err(None);
            }
            plan_table(alloc, package, plan, &path, &table, bytes)
        }
    };
    match planned {
        Ok(()) => Ok(()),
        Err(error) => Err(Some(error)),
    }
}

// Adds the commands of a summary.
fn plan_summary(
    alloc: Global,
    plan: &mut Plan,
    path: &str,
    rows: SummaryRows,
) -> Result<(), Error> {
    let mut commands = Vec::new(alloc);
    set_summary(alloc, &rows, &mut commands)?;
    for command in commands {
        plan.add(alloc, path, command)?;
    }
    Ok(())
}

// Whether a file is passed over among others: that of a table whose rows come with the tables that are made. It is told.
fn is_passed_over<E: Write>(source: &Source, err: &mut E) -> bool {
    match &source.said {
        Imported::Table(table) if is_system(&table.name) => {
            let path = &source.path;
            let _ = writeln!(
                err,
                "msidb: {path}: it is passed over: the rows of a system table come with the tables that are made"
            );
            true
        }
        _ => false,
    }
}

fn is_system(name: &str) -> bool {
    matches!(name, "_Tables" | "_Columns" | "_Validation")
}

// Why a table isn't imported.
fn why_not(package: &Package<Shown>, table: &IdtTable) -> Option<&'static str> {
    if is_system(&table.name) {
        return Some("a system table isn't imported: its rows come with the tables that are made");
    }
    match table_columns(package, &table.name) {
        Some(columns) if !has_columns(&table.columns, columns) => Some(why_other(package)),
        _ => None,
    }
}

// How a table with other columns gives way: it is dropped, where tables are.
fn why_other(package: &Package<Shown>) -> &'static str {
    if table_columns(package, "_Validation").is_some() {
        "the package has this table with other columns; drop it first, by a run of `drop_table`"
    } else {
        "the package has this table with other columns, and no _Validation, without which none is dropped; in a copy made by `msidb adopt --validation` drop it first, by a run of `drop_table`"
    }
}

// Adds the commands of a table.
fn plan_table(
    alloc: Global,
    package: &mut Package<Shown>,
    plan: &mut Plan,
    path: &str,
    table: &IdtTable,
    bytes: Vec<Bytes>,
) -> Result<(), Error> {
    if table_columns(package, &table.name).is_some() {
        plan_removal(alloc, package, plan, path, table, &bytes)?;
    } else {
        plan.add(alloc, path, create_table(alloc, table)?)?;
    }
    if !table.rows.is_empty() {
        plan.add(alloc, path, insert_rows(alloc, table)?)?;
    }
    for it in bytes {
        let Bytes {
            stream,
            place: _,
            content,
        } = it;
        if let Some(content) = content {
            plan.add(alloc, path, Command::WriteStream(stream, content))?;
        }
    }
    Ok(())
}

// Adds the commands that take the rows of a table away, and the streams that no new row wants.
fn plan_removal(
    alloc: Global,
    package: &mut Package<Shown>,
    plan: &mut Plan,
    path: &str,
    table: &IdtTable,
    bytes: &[Bytes],
) -> Result<(), Error> {
    plan.add(alloc, path, delete_rows(alloc, &table.name)?)?;
    let wanted = wanted_of(alloc, bytes)?;
    for stream in streams_of_rows(alloc, package, &table.name)? {
        if !wanted.contains(&stream) {
            plan.add(alloc, path, Command::RemoveStream(stream))?;
        }
    }
    Ok(())
}

// The streams that are written.
fn wanted_of(alloc: Global, bytes: &[Bytes]) -> Result<BTreeSet<String>, AllocError> {
    let mut wanted = BTreeSet::new(alloc);
    for it in bytes {
        if it.content.is_some() {
            wanted.insert(String::from_str(alloc, &it.stream)?)?;
        }
    }
    Ok(wanted)
}
