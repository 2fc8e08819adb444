//! Words that change properties of a package, or fields of its summary. What they do is a run of commands, committed at its end.
ghost use Rattle.command_file.specs.RequestsOf.{request_of};
ghost use Rattle.command_line.specs.Runs.{HasRun};
ghost use Rattle.command_line.specs.declared.commands.Ending.TheVariants.{Done};
ghost use Rattle.std.specs.Prelude.{◌≡◌, ◌≤◌, IfErr, map};

use crate::commands::{Ending, Manner, quoted, run};
use crate::progress::Progress;
use crate::texts::commands_of;
use cfb_medium::Error;
use installer::Command;
use installer_runs::Until;
use msi_export::moment_in;
use package_files::{Failure, Names, tell, tell_failure};
use package_views::{NameFault, lacks_property, name_fault, tell_no_field};
use std::alloc::{AllocError, Global};
use std::collections::BTreeSet;
use std::fs::File;
use std::io::{self, Write};
use std::rt::Files;
use std::time::Clock;

/// Which property is meant: a row of the table `Property`, or a field of the summary.
#[derive(Clone, Copy, Debug)]
pub(crate) struct Property<'a> {
    /// Its name.
    pub name: &'a str,
    /// Whether it is a field of the summary.
    pub is_field: bool,
}

/// Properties, each with its value: rows of the table `Property`, or fields of the summary.
#[derive(Clone, Copy, Debug)]
pub(crate) struct Properties<'a> {
    /// Their names and values, each name once.
    pub pairs: &'a [(&'a str, &'a str)],
    /// Whether they are fields of the summary.
    pub are_fields: bool,
}

/// Names with their values: the first, and those behind it in turn. Where a name has no value or stands twice, that is told, and the status is
/// given: 2, or 3 for want of memory.
pub(crate) fn pairs_of<'a, E: Write>(
    alloc: Global,
    first: (&'a str, &'a str),
    more: &[&'a str],
    err: &mut E,
) -> Result<Vec<(&'a str, &'a str)>, u8>
    ensures { IfErr result (λ status. status ≤ 3) }
{
    match paired(alloc, first, more) {
        Ok(pairs) => match second_of(alloc, &pairs) {
            Ok(None) => Ok(pairs),
            Ok(Some(name)) => Err(tell_name(name, "it is named twice", err)),
            Err(_) => Err(out_of_memory(err)),
        },
        Err(Some(name)) => Err(tell_name(
            name,
            "it has no value; each NAME is followed by its VALUE",
            err,
        )),
        Err(None) => Err(out_of_memory(err)),
    }
}

// Names and values by pairs; or the name that has no value, or none for want of memory.
fn paired<'a>(
    alloc: Global,
    first: (&'a str, &'a str),
    more: &[&'a str],
) -> Result<Vec<(&'a str, &'a str)>, Option<&'a str>> {
    let mut pairs = Vec::new(alloc);
    if pairs.push(first).is_err() {
        return Err(None);
    }
    let mut rest = more.iter();
    while let Some(name) = rest.next() {
        let Some(value) = rest.next() else {
            return Err(Some(*name));
        };
        if pairs.push((*name, *value)).is_err() {
            return Err(None);
        }
    }
    Ok(pairs)
}

// The first name that stood before.
fn second_of<'a>(
    alloc: Global,
    pairs: &[(&'a str, &'a str)],
) -> Result<Option<&'a str>, AllocError> {
    let mut seen = BTreeSet::new(alloc);
    for (name, _) in pairs {
        if !seen.insert(String::from_str(alloc, name)?)? {
            return Ok(Some(*name));
        }
    }
    Ok(None)
}

// Tells what is wrong with a name among the words.
fn tell_name<E: Write>(name: &str, what: &str, err: &mut E) -> u8
    ensures { result ≤ 3 }
{
    let _ = writeln!(err, "msidb: {name}: {what}");
    2
}

/// Gives properties their values, and commits; or nothing is changed. The status is 0 where it was done, 1 where a rule refused one, 3 for a
/// fault or files that were refused; what went wrong is told.
pub(crate) fn set_properties<R: Files<File = File> + AllocGlobal + Clock, E: Write>(
    rt: &R,
    names: &Names,
    properties: Properties<'_>,
    err: &mut E,
) -> u8
    ensures { result ≤ 3 }
{
    for (name, value) in properties.pairs {
        if value.is_empty() || name.is_empty() {
            tell_empty(names.named(), name, err);
            return 1;
        }
    }
    match commands_of_pairs(rt.alloc(), names.named(), properties, err) {
        Ok(commands) => run_own(rt, names, &commands, Change::Properties(properties), err),
        Err(status) => status,
    }
}

// Tells that a name or a value is empty.
fn tell_empty<E: Write>(named: &str, name: &str, err: &mut E) {
    let _ = if name.is_empty() {
        writeln!(
            err,
            "msidb: {named}: an empty name is null to other programs; name the property"
        )
    } else {
        writeln!(
            err,
            "msidb: {named}: an empty value is null to other programs; `msidb unset` takes a property away"
        )
    };
}

// The commands that give properties their values, and a commit. Where a field or its value is wrong that is told, and the status is given.
fn commands_of_pairs<E: Write>(
    alloc: Global,
    named: &str,
    properties: Properties<'_>,
    err: &mut E,
) -> Result<Vec<Command>, u8>
    ensures { IfErr result (λ status. status ≤ 3) }
{
    let mut commands = Vec::new(alloc);
    for (name, value) in properties.pairs {
        match add_pair(alloc, &mut commands, name, value, properties.are_fields) {
            Ok(()) => {}
            Err(error) => return Err(tell_unmade(named, name, Some(value), error, err)),
        }
    }
    match commands.push(Command::Commit) {
        Ok(()) => Ok(commands),
        Err(_) => Err(out_of_memory(err)),
    }
}

// Adds the commands that give a property its value.
fn add_pair(
    alloc: Global,
    commands: &mut Vec<Command>,
    name: &str,
    value: &str,
    is_field: bool,
) -> Result<(), Error> {
    let text = if is_field {
        text_of_field(alloc, name, value)?
    } else {
        text_of_property(alloc, name, value)?
    };
    add_commands(alloc, commands, &text)
}

// Adds the commands of a text that this program wrote.
fn add_commands(alloc: Global, commands: &mut Vec<Command>, text: &str) -> Result<(), Error> {
    for command in commands_of(alloc, text)? {
        commands.push(command)?;
    }
    Ok(())
}

// Tells why no commands were made of a name and its value, or of a name that is to be taken away, and gives the status.
fn tell_unmade<E: Write>(
    named: &str,
    name: &str,
    value: Option<&str>,
    error: Error,
    err: &mut E,
) -> u8
    ensures { result ≤ 3 }
{
    if error == Error::Memory {
        return out_of_memory(err);
    }
    tell_wrong_field(named, name, value, err);
    1
}

/// Takes a property away, and commits; or nothing is changed. The status is 0 where it was done, 1 where there is none, or a rule refused
/// it, 3 for a fault or files that were refused; what went wrong is told.
pub(crate) fn unset_property<R: Files<File = File> + AllocGlobal + Clock, E: Write>(
    rt: &R,
    names: &Names,
    property: Property<'_>,
    err: &mut E,
) -> u8
    ensures { result ≤ 3 }
{
    // (what is wrong with the file is told where it is opened)
    if lacks_property(rt, names, property.name, property.is_field, err) {
        return 1;
    }
    match commands_of_removal(rt.alloc(), property) {
        Ok(commands) => run_own(rt, names, &commands, Change::Removal(property), err),
        Err(error) => tell_unmade(names.named(), property.name, None, error, err),
    }
}

// The commands that take a property away, and a commit.
fn commands_of_removal(alloc: Global, property: Property<'_>) -> Result<Vec<Command>, Error> {
    let text = if property.is_field {
        text_of_cleared(alloc, property.name)?
    } else {
        text_of_removal(alloc, property.name)?
    };
    let mut commands = commands_of(alloc, &text)?;
    commands.push(Command::Commit)?;
    Ok(commands)
}

// What a word changes.
#[derive(Clone, Copy, Debug)]
enum Change<'a> {
    Properties(Properties<'a>),
    Removal(Property<'a>),
}

// Tells that no summary has a field, or what the field takes in place of a value.
fn tell_wrong_field<E: Write>(named: &str, name: &str, value: Option<&str>, err: &mut E) {
    let _ = match (wanted_of(name), value) {
        (Some(wanted), Some(value)) => {
            writeln!(err, "msidb: {named}: {name} takes {wanted}, not {value}")
        }
        (Some(_), None) => writeln!(err, "msidb: {named}: {name} can't be taken away"),
        (None, _) => {
            tell_no_field(named, name, err);
            Ok(())
        }
    };
}

// What a field of the summary takes.
fn wanted_of(field: &str) -> Option<&'static str> {
    Some(match field {
        "page_count" | "word_count" | "character_count" | "doc_security" => "a number",
        "codepage" => "the number of a code page, as 1252 or 65001",
        "last_printed" | "creation_time" | "last_saved_time" =>
            "a time from 1601 on, as 2024-09-05T08:53:20Z",
        "languages" => "numbers with commas between them, as 1033,1031",
        "uuid" => "an identifier, as {DDCF7CCD-8AF1-4F16-9181-134A919F1CD6}",
        "title" | "subject" | "author" | "keywords" | "comments" | "arch" => "a text",
        "last_saved_by" | "creating_application" => "a text",
        _ => return None,
    })
}

fn out_of_memory<E: Write>(err: &mut E) -> u8
    ensures most { result ≤ 3 }
    ensures fault { result ≡ 3 }
{
    tell("out of memory", err);
    3
}

// Runs commands of this program's own, up to the first that is refused, and tells of what. The status is 0 only where a session ran them all.
fn run_own<R: Files<File = File> + AllocGlobal + Clock, E: Write>(
    rt: &R,
    names: &Names,
    commands: &[Command],
    change: Change<'_>,
    err: &mut E,
) -> u8
    ensures most { result ≤ 3 }
    ensures done { result ≡ 0 → HasRun (map request_of commands.now) Done }
{
    let manner = Manner {
        until: Until::Refusal,
        is_quiet: false,
        is_own: true,
        commits_at_end: false,
    };
    let mut progress = Progress::new(rt, err, false, commands.len());
    let ended = run(rt, names, commands, manner, &mut io::sink(), &mut progress);
    match ended {
        Ok(Ending::Done) => 0,
        Ok(Ending::Refused(error, place)) => {
            tell_refused(rt, names, change, error, place, err);
            1
        }
        Err(failure) => {
            tell_over(names, failure, err);
            3
        }
    }
}

fn tell_over<E: Write>(names: &Names, failure: Failure, err: &mut E) {
    tell_failure(names, failure, err);
}

// Tells which rule refused a change, by a command behind so many.
fn tell_refused<R: Files<File = File> + AllocGlobal, E: Write>(
    rt: &R,
    names: &Names,
    change: Change<'_>,
    error: Error,
    place: usize,
    err: &mut E,
) {
    let named = names.named();
    match (error, change) {
        // (told with what makes it so)
        (Error::InvalidData, _) => {}
        (Error::NotFound, _) => tell_no_table(named, err),
        (_, Change::Removal(property)) => tell_refused_property(rt, names, property, err),
        (_, Change::Properties(properties)) => match property_at(properties, place) {
            Some(property) => tell_refused_property(rt, names, property, err),
            None => tell_none_set(named, err),
        },
    }
}

// The property that the command behind so many is for; of several none is that of the commit.
fn property_at(properties: Properties<'_>, place: usize) -> Option<Property<'_>> {
    let each = if properties.are_fields {
        1
    } else {
        COMMANDS_OF_PROPERTY
    };
    let at = if properties.pairs.len() == 1 {
        0
    } else {
        place / each
    };
    let (name, _) = properties.pairs.get(at)?;
    Some(Property {
        name: *name,
        is_field: properties.are_fields,
    })
}

fn tell_none_set<E: Write>(named: &str, err: &mut E) {
    let _ = writeln!(
        err,
        "msidb: {named}: no property is set: a value is refused"
    );
}

fn tell_no_table<E: Write>(named: &str, err: &mut E) {
    let _ = writeln!(
        err,
        "msidb: {named}: no table Property; make one by a `run`, or set a field of the summary with --summary"
    );
}

// Tells that a property isn't set, and what is wrong with its name, if it is that.
fn tell_refused_property<R: Files<File = File> + AllocGlobal, E: Write>(
    rt: &R,
    names: &Names,
    property: Property<'_>,
    err: &mut E,
) {
    let (named, name) = (names.named(), property.name);
    let fault = if property.is_field {
        None
    } else {
        name_fault(rt, names, name)
    };
    let _ = match fault {
        Some(NameFault::TooLong(most)) => writeln!(
            err,
            "msidb: {named}: {name} isn't set: its name has more than {most} characters"
        ),
        Some(NameFault::NotOf(category)) => writeln!(
            err,
            "msidb: {named}: {name} isn't set: its name must be of the category {category}"
        ),
        None => writeln!(
            err,
            "msidb: {named}: {name} isn't set: its value is refused"
        ),
    };
}

// How many commands a row of a property takes.
const COMMANDS_OF_PROPERTY: usize = 2;

// A row in place of one that may be there.
fn text_of_property(alloc: Global, name: &str, value: &str) -> Result<String, AllocError> {
    let (name, value) = (quoted(alloc, name)?, quoted(alloc, value)?);
    format!(in alloc;
        r#"[{{"op":"delete","table":"Property","where":{{"op":"eq","args":[{{"col":"Property"}},{name}]}}}},{{"op":"insert","table":"Property","rows":[[{name},{value}]]}}]"#
    )
}

fn text_of_removal(alloc: Global, name: &str) -> Result<String, AllocError> {
    let name = quoted(alloc, name)?;
    format!(in alloc;
        r#"[{{"op":"delete","table":"Property","where":{{"op":"eq","args":[{{"col":"Property"}},{name}]}}}}]"#
    )
}

fn text_of_field(alloc: Global, name: &str, value: &str) -> Result<String, AllocError> {
    let (field, value) = (quoted(alloc, name)?, json_of_field(alloc, name, value)?);
    format!(in alloc; r#"[{{"op":"set_summary","field":{field},"value":{value}}}]"#)
}

fn text_of_cleared(alloc: Global, name: &str) -> Result<String, AllocError> {
    let field = quoted(alloc, name)?;
    format!(in alloc; r#"[{{"op":"set_summary","field":{field},"value":null}}]"#)
}

// The value of a field in JSON: numbers as they stand, a moment by its tenths of a microsecond, several texts or numbers as a list.
fn json_of_field(alloc: Global, name: &str, value: &str) -> Result<String, AllocError> {
    match name {
        "codepage" | "page_count" | "word_count" | "character_count" | "doc_security" => {
            number_of(alloc, value)
        }
        "last_printed" | "creation_time" | "last_saved_time" => match moment_in(value) {
            Some(units) => format!(in alloc; "{units}"),
            None => number_of(alloc, value),
        },
        "languages" => list_of(alloc, value, true),
        "keywords" => list_of(alloc, value, false),
        _ => quoted(alloc, value),
    }
}

// A number as it stands; what is none is a text, which no field of a number takes.
fn number_of(alloc: Global, value: &str) -> Result<String, AllocError> {
    let digits = value.strip_prefix('-').unwrap_or(value);
    if !digits.is_empty() && digits.bytes().all(|byte| byte.is_ascii_digit()) {
        String::from_str(alloc, value)
    } else {
        quoted(alloc, value)
    }
}

// The words between commas.
fn list_of(alloc: Global, value: &str, are_numbers: bool) -> Result<String, AllocError> {
    let mut list = String::from_str(alloc, "[")?;
    for word in value.split(',') {
        if list.len() > 1 {
            list.push(',')?;
        }
        let word = word.trim();
        let item = if are_numbers {
            number_of(alloc, word)?
        } else {
            quoted(alloc, word)?
        };
        list.push_str(&item)?;
    }
    list.push(']')?;
    Ok(list)
}
