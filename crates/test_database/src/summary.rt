//! Property sets, and what summaries tell.
use cfb_medium::{Error, Timestamp};
use msi_props::{OperatingSystem, PropertySet, PropertyValue};
use msi_summary::SummaryInfo;
use msi_texts::CodePage;
use std::alloc::Global;
use test_support::{Row, Subject, bytes_at, copy_of, hex_of, shown, with_parts, yes_or_no};

/// Answers calls on one property set and one summary.
#[derive(Drop)]
pub struct Properties {
    set: PropertySet,
    summary: SummaryInfo,
}

impl Properties {
    /// An empty set, and the summary of a new package.
    pub fn new(alloc: Global) -> Result<Properties, Error> {
        Ok(Properties {
            set: new_set(alloc),
            summary: SummaryInfo::new(alloc)?,
        })
    }

    fn renew_set(&mut self, alloc: Global) -> Result<String, Error> {
        self.set = new_set(alloc);
        copy_of(alloc, "done")
    }

    fn read_set(&mut self, alloc: Global, row: &Row) -> Result<String, Error> {
        let bytes = bytes_at(alloc, row, 1)?;
        self.set = PropertySet::read(alloc, &bytes)?;
        set_told(alloc, &self.set)
    }

    fn read_summary(&mut self, alloc: Global, row: &Row) -> Result<String, Error> {
        let bytes = bytes_at(alloc, row, 1)?;
        self.summary = SummaryInfo::read(alloc, &bytes)?;
        copy_of(alloc, "done")
    }
}

impl Subject for Properties {
    fn answer(&mut self, alloc: Global, row: &Row) -> Result<String, Error> {
        match row.call() {
            "new set" => self.renew_set(alloc),
            "read set" => self.read_set(alloc, row),
            "put" | "set page" | "remove" => changed_set(alloc, &mut self.set, row),
            "get" | "write set" | "page" => of_set(alloc, &self.set, row),
            "read summary" => self.read_summary(alloc, row),
            _ => of_summary(alloc, &self.summary, row),
        }
    }
}

// A set without values, of no format.
fn new_set(alloc: Global) -> PropertySet {
    PropertySet::new(alloc, OperatingSystem::Win32, 10, [0; 16])
}

// How much a set has, and whether its texts give back their bytes.
fn set_told(alloc: Global, set: &PropertySet) -> Result<String, Error> {
    let (count, sections) = (set.properties().len(), set.num_sections());
    let gives = set.texts_give_back();
    Ok(format!(in alloc; "{count} properties, {sections} sections, texts give back {gives}")?)
}

// The value of a property, of the type that the row names before it.
fn value_of(alloc: Global, row: &Row) -> Result<PropertyValue, Error> {
    let number = row.number(3);
    Ok(match row.text(2) {
        "I1" => PropertyValue::I1(i8::try_from(number).unwrap_or(0)),
        "I2" => PropertyValue::I2(i16::try_from(number).unwrap_or(0)),
        "I4" => PropertyValue::I4(i32::try_from(number).unwrap_or(0)),
        _ => PropertyValue::LpStr(copy_of(alloc, row.text(3))?),
    })
}

fn changed_set(alloc: Global, set: &mut PropertySet, row: &Row) -> Result<String, Error> {
    match row.call() {
        "put" => put(set, number_of(row), value_of(alloc, row)?)?,
        "set page" => set_page(set, page_of(row)?)?,
        _ => set.remove(number_of(row)),
    }
    copy_of(alloc, "done")
}

// The number of a property.
fn number_of(row: &Row) -> u32 {
    u32::try_from(row.number(1)).unwrap_or(0)
}

fn put(set: &mut PropertySet, number: u32, value: PropertyValue) -> Result<(), Error> {
    set.set(number, value)
}

fn set_page(set: &mut PropertySet, page: CodePage) -> Result<(), Error> {
    set.set_codepage(page)
}

fn page_of(row: &Row) -> Result<CodePage, Error> {
    let id = i32::try_from(row.number(1)).unwrap_or(0);
    CodePage::from_id(id).ok_or(Error::InvalidInput)
}

fn of_set(alloc: Global, set: &PropertySet, row: &Row) -> Result<String, Error> {
    match row.call() {
        "get" => with_parts(alloc, &set.get(number_of(row))),
        "page" => shown(alloc, &set.codepage().id()),
        _ => set_written(alloc, set),
    }
}

fn set_written(alloc: Global, set: &PropertySet) -> Result<String, Error> {
    let mut bytes = Vec::new(alloc);
    set.write(&mut bytes)?;
    hex_of(alloc, &bytes)
}

fn summary_written(alloc: Global, summary: &SummaryInfo) -> Result<String, Error> {
    let mut bytes = Vec::new(alloc);
    summary.write(&mut bytes)?;
    hex_of(alloc, &bytes)
}

fn of_summary(alloc: Global, summary: &SummaryInfo, row: &Row) -> Result<String, Error> {
    match row.call() {
        "write summary" => summary_written(alloc, summary),
        "texts give back" => yes_or_no(alloc, summary.texts_give_back()),
        "tell" => field(alloc, summary, row.text(1)),
        _ => Err(Error::NotFound),
    }
}

// What a field says.
fn field(alloc: Global, summary: &SummaryInfo, name: &str) -> Result<String, Error> {
    match name {
        "creation time" | "last printed" | "last saved time" => {
            moment_text(alloc, time_field(summary, name))
        }
        "codepage" => shown(alloc, &summary.codepage().id()),
        "languages" => languages_told(alloc, summary),
        "keywords" => keywords_told(alloc, summary),
        "uuid" => uuid_told(alloc, summary),
        "title"
        | "subject"
        | "author"
        | "comments"
        | "last saved by"
        | "creating application"
        | "arch" => with_parts(alloc, &text_field(summary, name)),
        _ => with_parts(alloc, &number_field(summary, name)),
    }
}

fn text_field<'a>(summary: &'a SummaryInfo, name: &str) -> Option<&'a str> {
    match name {
        "title" => summary.title(),
        "subject" => summary.subject(),
        "author" => summary.author(),
        "comments" => summary.comments(),
        "last saved by" => summary.last_saved_by(),
        "creating application" => summary.creating_application(),
        _ => summary.arch(),
    }
}

fn time_field(summary: &SummaryInfo, name: &str) -> Option<Timestamp> {
    match name {
        "creation time" => summary.creation_time(),
        "last printed" => summary.last_printed(),
        _ => summary.last_saved_time(),
    }
}

fn moment_text(alloc: Global, moment: Option<Timestamp>) -> Result<String, Error> {
    match moment {
        Some(moment) => with_parts(alloc, &moment.to_unix()),
        None => copy_of(alloc, "None"),
    }
}

fn number_field(summary: &SummaryInfo, name: &str) -> Option<i32> {
    match name {
        "page count" => summary.page_count(),
        "word count" => summary.word_count(),
        "character count" => summary.character_count(),
        _ => summary.doc_security(),
    }
}

fn keywords_told(alloc: Global, summary: &SummaryInfo) -> Result<String, Error> {
    with_parts(alloc, &summary.keywords()?)
}

fn uuid_told(alloc: Global, summary: &SummaryInfo) -> Result<String, Error> {
    match summary.uuid() {
        Some(uuid) => shown(alloc, &uuid),
        None => copy_of(alloc, "None"),
    }
}

fn languages_told(alloc: Global, summary: &SummaryInfo) -> Result<String, Error> {
    let mut text = String::new(alloc);
    for language in summary.languages()? {
        text.push_str(shown(alloc, &language)?.as_str())?;
        text.push(' ')?;
    }
    Ok(text)
}
