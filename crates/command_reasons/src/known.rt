//! Which tables a package has at each moment of a run, by the commands that were done.
use cfb_medium::Error;
use command_file::Command;
use command_places::are_near;
use msi_columns::Column;
use std::alloc::Global;
use std::collections::BTreeMap;

/// The tables of a package, with their columns: those that it had at first, and what the commands that were done have made of them.
#[derive(Drop)]
pub struct KnownTables {
    alloc: Global,
    tables: BTreeMap<String, Vec<Column>>,
    // What takes the changes since the last commit back, the last first.
    back: Vec<Back>,
}

// What takes a change back.
#[derive(Drop)]
enum Back {
    // A table was made.
    Remove(String),
    // A table was dropped.
    Add(String, Vec<Column>),
}

impl KnownTables {
    /// No table.
    pub fn new(alloc: Global) -> KnownTables {
        KnownTables {
            alloc,
            tables: BTreeMap::new(alloc),
            back: Vec::new(alloc),
        }
    }

    /// Adds a table that the package had at first. `Memory` where there is no room.
    pub fn add(&mut self, name: &str, columns: &[Column]) -> Result<(), Error> {
        let columns = copies_of(self.alloc, columns)?;
        put(
            &mut self.tables,
            String::from_str(self.alloc, name)?,
            columns,
        )
    }

    /// The columns of a table; none where there is no such table.
    pub fn columns(&self, name: &str) -> Option<&[Column]> {
        match self.tables.get(name) {
            Some(columns) => Some(columns),
            None => None,
        }
    }

    /// The name of a table that is spelled as this one but for its case, or for one letter.
    pub fn name_near(&self, name: &str) -> Option<&str> {
        for known in self.tables.keys() {
            if are_near(known, name) {
                return Some(known);
            }
        }
        None
    }

    /// Whether tables are made and dropped: there is a table `_Validation`.
    pub fn has_validation(&self) -> bool {
        self.columns("_Validation").is_some()
    }

    /// Takes in that a command was done. `Memory` where there is no room; then the tables aren't known any more.
    pub fn follow(&mut self, command: &Command) -> Result<(), Error> {
        match command {
            Command::CreateTable(name, columns) => self.make(name, columns),
            Command::DropTable(name) => self.remove(name),
            Command::Commit => {
                self.back.clear();
                Ok(())
            }
            Command::RollBack => self.go_back(),
            _ => Ok(()),
        }
    }

    fn make(&mut self, name: &str, columns: &[Column]) -> Result<(), Error> {
        self.back
            .push(Back::Remove(String::from_str(self.alloc, name)?))?;
        self.add(name, columns)
    }

    fn remove(&mut self, name: &str) -> Result<(), Error> {
        match self.tables.remove_entry(name) {
            Some((name, columns)) => Ok(self.back.push(Back::Add(name, columns))?),
            None => Ok(()),
        }
    }

    // Takes the changes since the last commit back.
    fn go_back(&mut self) -> Result<(), Error> {
        while let Some(back) = self.back.pop() {
            match back {
                Back::Remove(name) => {
                    let _ = self.tables.remove(name.as_str());
                }
                Back::Add(name, columns) => put(&mut self.tables, name, columns)?,
            }
        }
        Ok(())
    }
}

fn put(
    tables: &mut BTreeMap<String, Vec<Column>>,
    name: String,
    columns: Vec<Column>,
) -> Result<(), Error> {
    match tables.insert(name, columns) {
        Ok(_before) => Ok(()),
        Err(_) => Err(Error::Memory),
    }
}

fn copies_of(alloc: Global, columns: &[Column]) -> Result<Vec<Column>, Error> {
    let mut copies = Vec::new(alloc);
    for column in columns {
        copies.push(column.clone(alloc)?)?;
    }
    Ok(copies)
}
