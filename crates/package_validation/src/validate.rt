//! What is wrong with a package's contents, a line each.
ghost use Rattle.std.specs.Prelude.{◌≤◌, IfErr};

use crate::findings::{
    Found, codes_again, files_beyond, found_at, loose_streams, missing_numbers, missing_properties,
    names_at, places_of, said_of_columns, silent_columns, wrong_numbers,
};
use crate::lines::{
    Said, cell_value, cell_words, column_value, column_words, line_of, said_of, said_of_code,
    whole_value, whole_words,
};
use crate::rules::{Ignored, RULES, Rule};
use cfb_medium::Error;
use msi::{Package, PackageType};
use msi_export::property_name;
use msi_listing::{Listing, Row};
use package_files::{Names, Output, Shown, check_shown, status_of_error, tell_failure, tell_part};
use package_listing::{Unlisted, listing_of};
use package_reading::{Pages, package_by_pages, tell_why_refused};
use package_rules::{ColumnName, Place, row_of};
use std::alloc::{AllocError, Global};
use std::collections::BTreeMap;
use std::fs::File;
use std::io::Write;
use std::rt::Files;

/// How a package is validated.
#[derive(Clone, Copy, Debug, PartialEq, Eq)]
pub struct Validation {
    /// The pages by which its texts are read.
    pub pages: Pages,
    /// The rules that are left out.
    pub ignored: Ignored,
    /// Whether each finding names the file.
    pub names_file: bool,
    /// Whether a person reads the findings.
    pub is_terminal: bool,
}

/// Tells which rules the contents of a package break, and where, a line each; nothing where they break none. The package is only read, as
/// a recovery would leave it. The status is 0 where nothing was found, 1 where something was, 3 where the file is no package or can't be
/// read, or its log is malformed, which is told with the file's name, and where nothing can be written; where nobody reads the findings
/// any more it is 1 all the same.
pub fn validate_package<'a, R: Files<File = File> + AllocGlobal, O: Write, E: Write>(
    rt: &R,
    names: &'a Names,
    validation: Validation,
    out: &'a mut O,
    err: &'a mut E,
) -> u8
    ensures { result ≤ 3 }
{
    if let Err(failure) = check_shown(rt, names, err) {
        tell_failure(names, failure, err);
        return 3;
    }
    let judged = match judged_at(rt, names, validation.pages, err) {
        Ok(judged) => judged,
        Err(status) => return status,
    };
    let mut page = Page {
        alloc: rt.alloc(),
        file: if validation.names_file {
            Some(names.named())
        } else {
            None
        },
        is_terminal: validation.is_terminal,
        has_found: false,
        out: Output::new(out),
    };
    match page.tell_all(&judged, validation.ignored) {
        Ok(()) if page.has_found => 1,
        Ok(()) => 0,
        Err(error) => status_of_error(names.named(), error, page.out.broken(), 1, err),
    }
}

// What a package holds, and whether it is a product: no patch, no transform and no merge module.
#[derive(Drop)]
struct Judged {
    listing: Listing,
    is_product: bool,
}

// What a package holds. Where it can't be read the status is given, and why is told.
fn judged_at<R: Files<File = File> + AllocGlobal, E: Write>(
    rt: &R,
    names: &Names,
    pages: Pages,
    err: &mut E,
) -> Result<Judged, u8>
    ensures { IfErr result (λ status. status ≤ 3) }
{
    let mut package = match package_by_pages(rt, names, pages, err) {
        Ok(package) => package,
        Err(error) => {
            tell_why_refused(rt, names, error, err);
            return Err(3);
        }
    };
    match listed(rt.alloc(), &mut package) {
        Ok(listing) => {
            let is_product = is_installer(&package) && !is_module(&listing);
            Ok(Judged {
                listing,
                is_product,
            })
        }
        Err(why) => {
            tell_unlisted(rt, names, why, err);
            Err(3)
        }
    }
}

fn listed(alloc: Global, package: &mut Package<Shown>) -> Result<Listing, Unlisted> {
    listing_of(alloc, package)
}

fn is_installer(package: &Package<Shown>) -> bool {
    matches!(package.package_type(), PackageType::Installer)
}

fn is_module(listing: &Listing) -> bool {
    listing
        .tables()
        .iter()
        .any(|table| table.name() == "ModuleSignature")
}

// Tells why a package can't be listed.
fn tell_unlisted<R: Files<File = File> + AllocGlobal, E: Write>(
    rt: &R,
    names: &Names,
    why: Unlisted,
    err: &mut E,
) {
    let Unlisted { table, error } = why;
    match table {
        Some(table) => tell_part(names.named(), "table", &table, error, err),
        None => tell_why_refused(rt, names, error, err),
    }
}

// What `_Validation` says of the columns of cells that were found, looked up once for each column.
#[derive(Drop)]
struct Wanted<'a> {
    said: BTreeMap<ColumnName<'a>, &'a Row>,
    at: Option<(usize, usize)>,
    row: Option<&'a Row>,
}

impl<'a> Wanted<'a> {
    fn of(alloc: Global, listing: &'a Listing) -> Result<Wanted<'a>, AllocError> {
        Ok(Wanted {
            said: said_of_columns(alloc, listing)?,
            at: None,
            row: None,
        })
    }

    fn go_to(&mut self, place: Place, found: &Found<'a>) {
        let at = Some((place.table, place.column));
        if self.at != at {
            self.at = at;
            self.row = row_of(&self.said, found.table, found.column);
        }
    }
}

// Where findings are told.
#[derive(Drop)]
struct Page<'a, O> {
    alloc: Global,
    file: Option<&'a str>,
    is_terminal: bool,
    has_found: bool,
    out: Output<'a, O>,
}

impl<'a, O: Write> Page<'a, O> {
    // All that is found, rule by rule.
    fn tell_all(&mut self, judged: &Judged, ignored: Ignored) -> Result<(), Error> {
        for rule in RULES {
            if !ignored.has(rule) {
                self.tell_rule(judged, rule)?;
            }
        }
        Ok(())
    }

    fn tell_rule(&mut self, judged: &Judged, rule: Rule) -> Result<(), Error> {
        let listing = &judged.listing;
        match rule {
            Rule::Described => self.tell_described(listing),
            Rule::Cabinet if judged.is_product => self.tell_media(listing),
            Rule::Unused if judged.is_product => self.tell_unused(listing),
            Rule::Required if judged.is_product => self.tell_required(listing),
            Rule::Product if judged.is_product => self.tell_product(listing),
            Rule::Cabinet | Rule::Unused | Rule::Required | Rule::Product => Ok(()),
            Rule::Guid => self.tell_codes(listing),
            _ => self.tell_cells(listing, rule),
        }
    }

    // The cells that fail a rule.
    fn tell_cells(&mut self, listing: &Listing, rule: Rule) -> Result<(), Error> {
        let places = places_of(self.alloc, listing, rule)?;
        self.tell_places(listing, rule, &places)
    }

    fn tell_places(
        &mut self,
        listing: &Listing,
        rule: Rule,
        places: &[Place],
    ) -> Result<(), Error> {
        if places.is_empty() {
            return Ok(());
        }
        let mut wanted = Wanted::of(self.alloc, listing)?;
        for place in places {
            self.tell_place(listing, rule, *place, &mut wanted)?;
        }
        Ok(())
    }

    fn tell_place<'b>(
        &mut self,
        listing: &'b Listing,
        rule: Rule,
        place: Place,
        wanted: &mut Wanted<'b>,
    ) -> Result<(), Error> {
        match found_at(listing, place) {
            Some(found) => {
                wanted.go_to(place, &found);
                self.tell_cell(rule, &found, wanted.row)
            }
            None => Ok(()),
        }
    }

    fn tell_cell(&mut self, rule: Rule, found: &Found<'_>, row: Option<&Row>) -> Result<(), Error> {
        let said = said_of(self.alloc, rule, found, row)?;
        self.tell_said(rule, found, &said)
    }

    fn tell_said(&mut self, rule: Rule, found: &Found<'_>, said: &Said) -> Result<(), Error> {
        let line = if self.is_terminal {
            cell_words(self.alloc, self.file, rule, found, said)?
        } else {
            let value = cell_value(self.alloc, self.file, rule, found, said)?;
            line_of(self.alloc, &value)?
        };
        self.line(&line)
    }

    // Columns of which `_Validation` says nothing.
    fn tell_described(&mut self, listing: &Listing) -> Result<(), Error> {
        let places = silent_columns(self.alloc, listing)?;
        for place in &places {
            if let Some(names) = names_at(listing, *place) {
                self.tell_column(names)?;
            }
        }
        Ok(())
    }

    fn tell_column(&mut self, names: (&str, &str)) -> Result<(), Error> {
        let says = String::from_str(self.alloc, "no row of _Validation speaks of it")?;
        let wants = String::from_str(self.alloc, "a row of _Validation")?;
        let said = Said { says, wants };
        let line = if self.is_terminal {
            column_words(self.alloc, self.file, Rule::Described, names, &said)?
        } else {
            let value = column_value(self.alloc, self.file, Rule::Described, names, &said)?;
            line_of(self.alloc, &value)?
        };
        self.line(&line)
    }

    // Cabinets without their streams, and files that no medium has.
    fn tell_media(&mut self, listing: &Listing) -> Result<(), Error> {
        self.tell_cells(listing, Rule::Cabinet)?;
        let places = files_beyond(self.alloc, listing)?;
        self.tell_places(listing, Rule::Cabinet, &places)
    }

    // Codes of components that are no GUIDs, and those that a component before has.
    fn tell_codes(&mut self, listing: &Listing) -> Result<(), Error> {
        self.tell_cells(listing, Rule::Guid)?;
        let places = codes_again(self.alloc, listing)?;
        for place in &places {
            if let Some(found) = found_at(listing, *place) {
                let said = said_of_code(self.alloc)?;
                self.tell_said(Rule::Guid, &found, &said)?;
            }
        }
        Ok(())
    }

    // Streams that nothing names.
    fn tell_unused(&mut self, listing: &Listing) -> Result<(), Error> {
        let numbers = loose_streams(self.alloc, listing)?;
        for number in &numbers {
            if let Some(name) = listing.streams().get(*number) {
                self.tell_stream(name)?;
            }
        }
        Ok(())
    }

    fn tell_stream(&mut self, name: &str) -> Result<(), Error> {
        let says = format!(in self.alloc; "nothing names the stream {name}")?;
        let wants = String::from_str(self.alloc, "a cell of bytes, or a cabinet of Media")?;
        self.tell_whole(Rule::Unused, &Said { says, wants })
    }

    // What of a product isn't what it must be.
    fn tell_product(&mut self, listing: &Listing) -> Result<(), Error> {
        self.tell_cells(listing, Rule::Product)?;
        let numbers = wrong_numbers(self.alloc, listing)?;
        for number in &numbers {
            self.tell_number(*number)?;
        }
        Ok(())
    }

    fn tell_number(&mut self, number: u32) -> Result<(), Error> {
        let name = property_name(number).unwrap_or("");
        let form = if number == 7 {
            "platform, a semicolon and numbers of languages"
        } else {
            "GUID in braces, in capital letters"
        };
        let says = format!(in self.alloc;
            "property {number} of the summary ({name}) is no {form}"
        )?;
        let wants = String::from_str(self.alloc, form)?;
        self.tell_whole(Rule::Product, &Said { says, wants })
    }

    // What a product lacks.
    fn tell_required(&mut self, listing: &Listing) -> Result<(), Error> {
        let names = missing_properties(self.alloc, listing)?;
        for needed in &names {
            let name = needed.name();
            let says = format!(in self.alloc; "no property {name}")?;
            let wants = format!(in self.alloc; "a row {name} of the table Property")?;
            self.tell_whole(Rule::Required, &Said { says, wants })?;
        }
        let numbers = missing_numbers(self.alloc, listing)?;
        for number in &numbers {
            let name = property_name(*number).unwrap_or("");
            let says = format!(in self.alloc; "no property {number} of the summary ({name})")?;
            let wants = format!(in self.alloc; "property {number} of the summary ({name})")?;
            self.tell_whole(Rule::Required, &Said { says, wants })?;
        }
        Ok(())
    }

    fn tell_whole(&mut self, rule: Rule, said: &Said) -> Result<(), Error> {
        let line = if self.is_terminal {
            whole_words(self.alloc, self.file, rule, said)?
        } else {
            let value = whole_value(self.alloc, self.file, rule, said)?;
            line_of(self.alloc, &value)?
        };
        self.line(&line)
    }

    fn line(&mut self, text: &str) -> Result<(), Error> {
        self.has_found = true;
        self.out.line(text)
    }
}
