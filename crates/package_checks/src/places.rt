//! Where a package breaks a rule on its container, on texts, tables or objects, a line each.
use crate::answers::Answers;
use crate::columns::{name_at, shape_at};
use crate::containers::{
    Container, broken_in, container_at, name_in, shared_in, shared_minis_in, uncovered_in,
    unmarked_in,
};
use crate::packages::{
    Looked, columns_wanted, decode_name, looked_at, miscounts_of, misnamed_of, misplaced_of,
    misshapen_of, property_text, quote, text_at, unkept_properties_of, unkept_texts_of, unread_of,
    unused_of, validation_of,
};
use cfb_medium::Error;
use msi::Defect;
use msi_export::property_name;
use msi_findings::Miscount;
use msi_tables::Table;
use package_files::Names;
use package_reading::Pages;
use std::alloc::Global;
use std::fs::File;
use std::io::Write;
use std::rc::Rc;
use std::rt::Files;

/// How a package is judged, how its texts are told, and how many places.
#[derive(Clone, Copy)]
pub(crate) struct Reading {
    /// It is judged as it is, or with its texts in UTF-8, of these pages.
    pub(crate) judged: Option<Pages>,
    /// Its texts are told as they are judged, or as these pages read them.
    pub(crate) told: Option<Pages>,
    /// Which words tell the places that aren't told here; where there are none, all places are.
    pub(crate) rest: Option<&'static str>,
}

/// How many places of a rule are told where there are words that tell the rest.
pub(crate) const MOST: usize = 3;

/// Writes the places at which a package breaks a rule, but that on the summary's sections and that on the rows of `_Tables`: all, or the
/// first three and how many there are besides. Whether right counts would be all that the rule asks for. `Device` where nothing can be
/// written.
pub(crate) fn write_places<R: Files<File = File> + AllocGlobal, O: Write>(
    rt: &R,
    names: &Names,
    reading: Reading,
    defect: Defect,
    out: &mut Answers<'_, O>,
) -> Result<bool, Error> {
    match defect {
        Defect::PoolTexts
        | Defect::SummaryTexts
        | Defect::FreePlaces
        | Defect::TableNames
        | Defect::Validation
        | Defect::Objects
        | Defect::Counts => {
            let mut looked = looked_at(rt, names, reading.judged)?;
            let told = told_at(rt, names, reading.told)?;
            let mut lines = Lines::new(rt.alloc(), reading.rest, out);
            lines.places(defect, &mut looked, told.as_ref())?;
            lines.end()
        }
        Defect::Container => {
            let container = container_at(rt, names)?;
            let mut lines = Lines::new(rt.alloc(), reading.rest, out);
            lines.container(&container)?;
            lines.end()
        }
        Defect::SummarySections | Defect::ListedSystemTables => Ok(false),
    }
}

// A package with its texts as these pages read them.
fn told_at<R: Files<File = File> + AllocGlobal>(
    rt: &R,
    names: &Names,
    pages: Option<Pages>,
) -> Result<Option<Looked>, Error> {
    match pages {
        Some(_) => Ok(Some(looked_at(rt, names, pages)?)),
        None => Ok(None),
    }
}

// Where the places are written.
#[derive(Drop)]
struct Lines<'a, 'b, O> {
    alloc: Global,
    out: &'a mut Answers<'b, O>,
    rest: Option<&'static str>,
    // How many places there are so far, also of those that aren't told.
    count: usize,
    // The rule is that on counts, and each text's uses can be counted.
    is_recountable: bool,
}

impl<'a, 'b, O: Write> Lines<'a, 'b, O> {
    fn new(alloc: Global, rest: Option<&'static str>, out: &'a mut Answers<'b, O>) -> Self {
        Lines {
            alloc,
            out,
            rest,
            count: 0,
            is_recountable: false,
        }
    }

    // Tells how many places there are that weren't told, and whether right counts would be all that the rule asks for.
    fn end(&mut self) -> Result<bool, Error> {
        let left = self.count.saturating_sub(MOST);
        if let Some(words) = self.rest {
            if 0 < left {
                let noun = if left == 1 { "place" } else { "places" };
                self.out.line(&format!(in self.alloc;
                    "  .. {left} more {noun} ({words} tells all)"
                )?)?;
            }
        }
        Ok(self.is_recountable)
    }

    // The places at which one of the seven rules is broken; texts are told as they stand in the second package, if there is one.
    fn places(
        &mut self,
        defect: Defect,
        looked: &mut Looked,
        told: Option<&Looked>,
    ) -> Result<(), Error> {
        match defect {
            Defect::PoolTexts => self.unkept_texts(looked, told),
            Defect::SummaryTexts => self.unkept_properties(looked, told),
            Defect::FreePlaces => self.unused_texts(looked, told),
            Defect::TableNames => self.misnamed_tables(looked),
            Defect::Validation => self.misshapen_validation(looked),
            Defect::Objects => self.misplaced_objects(looked),
            _ => self.counts(looked, told),
        }
    }

    // Sectors that the FAT lacks or doesn't have in use, sectors that serve two uses, and streams whose bytes aren't all there.
    fn container(&mut self, container: &Container) -> Result<(), Error> {
        if let Some(first) = uncovered_in(container)? {
            self.line(&format!(in self.alloc; "sectors from {first} on: the FAT lacks them")?)?;
        }
        let unmarked = unmarked_in(self.alloc, container)?;
        self.sectors(
            "sector",
            &unmarked,
            "a table of the file, and free by the FAT, or not in it",
        )?;
        let shared = shared_in(self.alloc, container)?;
        self.sectors("sector", &shared, "it serves two uses")?;
        let minis = shared_minis_in(self.alloc, container)?;
        self.sectors("mini sector", &minis, "it serves two uses")?;
        self.broken_streams(container)
    }

    // Sectors, and what is said of each.
    fn sectors(&mut self, kind: &str, found: &[u32], what: &str) -> Result<(), Error> {
        for sector_id in found {
            self.line(&format!(in self.alloc; "{kind} {sector_id}: {what}")?)?;
        }
        Ok(())
    }

    // Streams whose bytes aren't all there.
    fn broken_streams(&mut self, container: &Container) -> Result<(), Error> {
        for id in &broken_in(self.alloc, container)? {
            let name = decode_name(self.alloc, &name_in(self.alloc, container, *id)?)?;
            let name = quote(self.alloc, &name)?;
            self.line(&format!(in self.alloc; "stream {name}: its bytes aren't all there")?)?;
        }
        Ok(())
    }

    // Texts that the code page of the database doesn't give back.
    fn unkept_texts(&mut self, looked: &mut Looked, told: Option<&Looked>) -> Result<(), Error> {
        for place in unkept_texts_of(self.alloc, looked)? {
            let text = quote(self.alloc, text_at(told.unwrap_or(looked), place))?;
            self.line(&format!(in self.alloc; "place {place}, {text}")?)?;
        }
        Ok(())
    }

    // So of properties of the summary.
    fn unkept_properties(
        &mut self,
        looked: &mut Looked,
        told: Option<&Looked>,
    ) -> Result<(), Error> {
        for number in unkept_properties_of(self.alloc, looked)? {
            let text = quote(self.alloc, property_text(told.unwrap_or(looked), number))?;
            let name = property_name(number).unwrap_or("unknown");
            self.line(&format!(in self.alloc; "property {number}, {name}: {text}")?)?;
        }
        Ok(())
    }

    // Columns of _Validation that aren't as they must be.
    fn misshapen_validation(&mut self, looked: &Looked) -> Result<(), Error> {
        let columns = match validation_of(looked) {
            Some(table) => table.columns(),
            None => return Ok(()),
        };
        let wanted = columns_wanted(self.alloc)?;
        for position in misshapen_of(self.alloc, looked)? {
            let name = name_at(&wanted, columns, position);
            let must_be = shape_at(self.alloc, &wanted, position)?;
            let is = shape_at(self.alloc, columns, position)?;
            self.line(&format!(in self.alloc;
                "column {position}, {name}: {is} in place of {must_be}"
            )?)?;
        }
        Ok(())
    }

    // Texts that no cell uses.
    fn unused_texts(&mut self, looked: &Looked, told: Option<&Looked>) -> Result<(), Error> {
        for place in unused_of(self.alloc, looked)? {
            let text = quote(self.alloc, text_at(told.unwrap_or(looked), place))?;
            self.line(&format!(in self.alloc; "place {place}, {text}")?)?;
        }
        Ok(())
    }

    // Tables with a name that they can't have.
    fn misnamed_tables(&mut self, looked: &Looked) -> Result<(), Error> {
        let tables = misnamed_of(self.alloc, looked)?;
        self.tables(&tables, "")
    }

    // Objects under the root that stand where they may not.
    fn misplaced_objects(&mut self, looked: &Looked) -> Result<(), Error> {
        for name in &misplaced_of(self.alloc, looked)? {
            let name = quote(self.alloc, &decode_name(self.alloc, name)?)?;
            self.line(&format!(in self.alloc; "object {name}")?)?;
        }
        Ok(())
    }

    // Tables whose rows can't be read, and texts that aren't counted right.
    fn counts(&mut self, looked: &mut Looked, told: Option<&Looked>) -> Result<(), Error> {
        let tables = unread_of(self.alloc, looked)?;
        self.tables(&tables, ": its rows can't be read")?;
        match miscounts_of(self.alloc, looked) {
            Ok(found) => {
                self.is_recountable = tables.is_empty();
                self.miscounts(told.unwrap_or(looked), &found)
            }
            Err(Error::InvalidData) if tables.is_empty() => self.line(UNCOUNTED),
            Err(Error::InvalidData) => Ok(()),
            Err(error) => Err(error),
        }
    }

    fn miscounts(&mut self, looked: &Looked, found: &[Miscount]) -> Result<(), Error> {
        for it in found {
            let text = quote(self.alloc, text_at(looked, it.place))?;
            let (place, used, counted) = (it.place, it.used, it.counted);
            self.line(&format!(in self.alloc;
                "place {place}, {text}: used {used}, counted {counted}"
            )?)?;
        }
        Ok(())
    }

    // Tables, and what is said of each.
    fn tables(&mut self, tables: &[Rc<Table>], what: &str) -> Result<(), Error> {
        for table in tables {
            let name = quote(self.alloc, table.name())?;
            self.line(&format!(in self.alloc; "table {name}{what}")?)?;
        }
        Ok(())
    }

    // Writes a line, unless so many are there that it isn't told. `Device` where it can't be written.
    fn line(&mut self, text: &str) -> Result<(), Error> {
        self.count = self.count.saturating_add(1);
        if self.rest.is_some() && MOST < self.count {
            return Ok(());
        }
        self.out.line(&format!(in self.alloc; "  {text}")?)
    }
}

// Said where no table is at fault, and the uses of texts can't be counted.
const UNCOUNTED: &str = "a cell names no place of the string pool, or more than 65535 cells one";
