//! What the program does with its words.
ghost use Rattle.command_file.specs.Request.{Request};
ghost use Rattle.command_file.specs.RequestsOf.{request_of};
ghost use Rattle.command_line.specs.Runs.{HasRun, status_in};
ghost use Rattle.command_line.specs.declared.commands.Ending.TheVariants.{Done};
ghost use Rattle.std.specs.Prelude.{◌≡◌, ◌≤◌, IfErr, List, map};

use crate::adoption::adopt_there;
use crate::builds::{built_of, tell_missing_cabinets};
use crate::commands::{Ending, Manner, run};
use crate::edits::{Properties, Property, pairs_of, set_properties, unset_property};
use crate::failures::failure_of;
use crate::files;
use crate::imports::import;
use crate::lists::list;
use crate::new_files::NewFiles;
use crate::progress::Progress;
use crate::putting::put_stream;
use crate::sessions::{commit_moved, create_package};
use crate::terminals::Terminals;
use crate::texts::{commands_in, name_of};
use cfb::MemoryMedium;
use cfb_medium::Error;
use clap::error::ErrorKind;
use command_file::{Command, slip_in};
use command_lines::{Line, read_words};
use command_options::{Adoption, Log, Pages, Parts, RunOptions};
use installer_runs::Until;
use msi::Package;
use package_checks::{Checking, adopted_package, check_package, tell_twice};
use package_files::{
    Failure, Faults, Found, Names, Trouble, cut_log, names_of, tell, tell_failure, tell_failure_of,
    trouble_at,
};
use package_reading::pages_of;
use package_validation::{Ignored, Validation, ignored_in, validate_package};
use package_views::{Form, export_package, extract_stream, get_property, show_package};
use staged::Recovered;
use std::alloc::Global;
use std::fs::File;
use std::io::Write;
use std::rt::Files;
use std::time::Clock;

/// Does what the words after the program's name ask for. Answers go to `out`, what went wrong goes to `err`, a line that names the
/// file. The status is 0 where all was done, or help or the version was asked for; 1 where a command was refused by a rule, or a table
/// that is to be shown isn't there; 2 where the words or the command file can't be read, two logs are named, or one with several files,
/// and then no package was opened; 3 for a fault, where home file or log were refused, or a file that is to be shown, and where nothing
/// more can be written. A fault comes before a refusal. Of several files that are judged the status is the greatest. A file that is named as the log and is none is refused before anything is written.
/// Commands are run to the end of their list, also where their answers can't be written. Where answers go to a terminal, tables are shown
/// in aligned columns; where what went wrong does, a long run says how far it has come. What is shown, listed, checked or exported is only
/// read, as a recovery would leave it; and nothing is made by what is refused.
pub fn msidb<R: Files<File = File> + AllocGlobal + Clock + Clone + Drop, O: Write, E: Write>(
    rt: &R,
    words: &[String],
    out: &mut O,
    err: &mut E,
    terminals: Terminals,
) -> u8
    ensures { result ≤ 3 }
{
    match line_of(rt.alloc(), words) {
        Ok(line) => carry_out(rt, line, out, err, terminals),
        Err(refusal) => tell_refusal(&refusal, out, err),
    }
}

// A function of its own, since what is told of the call costs time wherever it is seen.
fn line_of<'a>(alloc: Global, words: &'a [String]) -> Result<Line<'a>, clap::Error> {
    read_words(alloc, words)
}

// Tells why the words were refused, or the help.
fn tell_refusal<O: Write, E: Write>(refusal: &clap::Error, out: &mut O, err: &mut E) -> u8
    ensures { result ≤ 3 }
{
    if !refusal.use_stderr() {
        return match write!(out, "{refusal}") {
            Ok(()) => 0,
            Err(_) => 3,
        };
    }
    let _ = write!(err, "{refusal}");
    if refusal.kind() == ErrorKind::OutOfMemory {
        3
    } else {
        2
    }
}

// Does what a line asks for.
fn carry_out<R: Files<File = File> + AllocGlobal + Clock + Clone + Drop, O: Write, E: Write>(
    rt: &R,
    line: Line<'_>,
    out: &mut O,
    err: &mut E,
    terminals: Terminals,
) -> u8
    ensures { result ≤ 3 }
{
    match line {
        Line::Create(package, log) => on_files(rt, Word::Create, package, log, out, err),
        Line::Adopt(package, log, source, beside, adoption) => {
            match adoption_of(source, beside, adoption) {
                Ok(word) => on_files(rt, word, package, log, out, err),
                Err(why) => tell_words(why, err),
            }
        }
        Line::Recover(package, log) => on_files(rt, Word::Recover, package, log, out, err),
        Line::List(package, log) => on_files(rt, Word::List, package, log, out, err),
        Line::Run(package, log, commands, options) => {
            let word = Word::Run(commands, terminals.err, options);
            on_files(rt, word, package, log, out, err)
        }
        Line::Get(path, log, name, is_field, pages) => {
            let look = Look::Get(name, is_field);
            look_at(rt, look, path, log, pages, out, err)
        }
        Line::Set(package, log, name, value, more, are_fields) => {
            match pairs_of(rt.alloc(), (name, value), &more, err) {
                Ok(pairs) => {
                    let properties = Properties {
                        pairs: &pairs,
                        are_fields,
                    };
                    on_files(rt, Word::Set(properties), package, log, out, err)
                }
                Err(status) => status,
            }
        }
        Line::Unset(package, log, name, is_field) => {
            let word = Word::Unset(Property { name, is_field });
            on_files(rt, word, package, log, out, err)
        }
        Line::Extract(path, log, stream, to) => match named(rt, path, log, err) {
            Ok(names) => extract_stream(rt, &names, stream, to, out, err),
            Err(status) => status,
        },
        Line::Put(package, log, stream, from) => {
            let word = Word::Put(stream, from);
            on_files(rt, word, package, log, out, err)
        }
        Line::Import(package, log, from) => {
            on_files(rt, Word::Import(&from), package, log, out, err)
        }
        Line::Build(package, log, folder) => {
            on_files(rt, Word::Build(folder), package, log, out, err)
        }
        Line::Show(path, log, parts, is_csv, pages) => match form_of(parts, is_csv, terminals) {
            Ok(form) => look_at(rt, Look::Show(parts, form), path, log, pages, out, err),
            Err(why) => tell_words(why, err),
        },
        Line::Check(files, log, places, pages) => {
            let look = Look::Check(places, 1 < files.len());
            look_at_each(rt, look, &files, log, pages, out, err)
        }
        Line::Validate(files, log, ignored, pages) => match rules_left(ignored, err) {
            Ok(ignored) => {
                let look = Look::Validate(ignored, 1 < files.len(), terminals.out);
                look_at_each(rt, look, &files, log, pages, out, err)
            }
            Err(status) => status,
        },
        Line::Export(path, log, folder, pages) => {
            look_at(rt, Look::Export(folder), path, log, pages, out, err)
        }
    }
}

// What is done with a package that is only read, by the code pages of its texts.
#[derive(Clone, Copy, Debug)]
enum Look<'a> {
    // With its parts, and how rows stand.
    Show(Parts<'a>, Form),
    // With whether all places are told, and whether the file is named.
    Check(bool, bool),
    // With the rules that are left out, whether the file is named, and whether a person reads what is found.
    Validate(Ignored, bool, bool),
    // With the folder.
    Export(&'a str),
    // With the name, and whether it is a field of the summary.
    Get(&'a str, bool),
}

// Does what is asked for with each of these packages, in order. The status is the greatest; a log is that of one package alone.
fn look_at_each<R: Files<File = File> + AllocGlobal, O: Write, E: Write>(
    rt: &R,
    look: Look<'_>,
    files: &[&str],
    log: Option<&str>,
    pages: Pages<'_>,
    out: &mut O,
    err: &mut E,
) -> u8
    ensures { result ≤ 3 }
{
    if log.is_some() && 1 < files.len() {
        return tell_words("--log goes with one file", err);
    }
    let pages = match asked(pages, err) {
        Ok(pages) => pages,
        Err(status) => return status,
    };
    let mut greatest = 0;
    for path in files {
        let status = look_by(rt, look, path, log, pages, out, err);
        greatest = status.max(greatest);
    }
    greatest
}

// Does what is asked for with a package that is only read.
fn look_at<R: Files<File = File> + AllocGlobal, O: Write, E: Write>(
    rt: &R,
    look: Look<'_>,
    path: &str,
    log: Option<&str>,
    pages: Pages<'_>,
    out: &mut O,
    err: &mut E,
) -> u8
    ensures { result ≤ 3 }
{
    match asked(pages, err) {
        Ok(pages) => look_by(rt, look, path, log, pages, out, err),
        Err(status) => status,
    }
}

// The same, by these pages.
fn look_by<R: Files<File = File> + AllocGlobal, O: Write, E: Write>(
    rt: &R,
    look: Look<'_>,
    path: &str,
    log: Option<&str>,
    pages: package_reading::Pages,
    out: &mut O,
    err: &mut E,
) -> u8
    ensures { result ≤ 3 }
{
    let names = match named(rt, path, log, err) {
        Ok(names) => names,
        Err(status) => return status,
    };
    match look {
        Look::Show(parts, form) => show_package(rt, &names, parts, pages, form, out, err),
        Look::Check(is_whole, names_file) => {
            let checking = Checking {
                pages,
                is_whole,
                names_file,
            };
            check_package(rt, &names, checking, out, err)
        }
        Look::Validate(ignored, names_file, is_terminal) => {
            let validation = Validation {
                pages,
                ignored,
                names_file,
                is_terminal,
            };
            validate(rt, &names, validation, out, err)
        }
        Look::Export(folder) => export_package(rt, &names, pages, folder, err),
        Look::Get(name, is_field) => get_property(rt, &names, name, is_field, pages, out, err),
    }
}

// How rows are shown, or why these words say nothing.
fn form_of(parts: Parts<'_>, is_csv: bool, terminals: Terminals) -> Result<Form, &'static str> {
    if is_csv {
        return if parts.table.is_none() || parts.summary || parts.streams || parts.tree {
            Err(
                "--csv shows one table alone; name a TABLE, and leave --summary, --streams and --tree out",
            )
        } else {
            Ok(Form::Commas)
        };
    }
    Ok(if terminals.out {
        Form::Columns
    } else {
        Form::Json
    })
}

// Tells what is wrong with a package's contents, and which of its texts other programs take for several.
fn validate<R: Files<File = File> + AllocGlobal, O: Write, E: Write>(
    rt: &R,
    names: &Names,
    validation: Validation,
    out: &mut O,
    err: &mut E,
) -> u8
    ensures { result ≤ 3 }
{
    let status = validate_package(rt, names, validation, out, err);
    if status < 2 {
        tell_twice(rt, names, err);
    }
    status
}

// The rules that words leave out. Where one is none, the status is given, and why is told.
fn rules_left<E: Write>(names: Option<&str>, err: &mut E) -> Result<Ignored, u8>
    ensures { IfErr result (λ status. status ≤ 3) }
{
    let Some(names) = names else {
        return Ok(Ignored::nothing());
    };
    match ignored_in(names) {
        Ok(ignored) => Ok(ignored),
        Err(name) => {
            let _ = writeln!(
                err,
                "msidb: {name} is no rule; `msidb validate --help` lists them"
            );
            Err(2)
        }
    }
}

// The code pages that words ask for. Where one is none, the status is given, and why is told.
fn asked<E: Write>(pages: Pages<'_>, err: &mut E) -> Result<package_reading::Pages, u8>
    ensures { IfErr result (λ status. status ≤ 3) }
{
    match pages_of(pages) {
        Ok(pages) => Ok(pages),
        Err(word) => {
            let _ = writeln!(
                err,
                "msidb: {word} is no code page that is known; 1252, 1251, 932 and 65001 are some"
            );
            Err(2)
        }
    }
}

// The files of the package at a path. Where they can't be told, the status is given, and why is told.
fn named<R: Files<File = File> + AllocGlobal, E: Write>(
    rt: &R,
    package: &str,
    log: Option<&str>,
    err: &mut E,
) -> Result<Names, u8>
    ensures { IfErr result (λ status. status ≤ 3) }
{
    match names_of(rt, package, log) {
        Ok(names) => Ok(names),
        Err(failure) => {
            tell_failure_of(package, log, failure, err);
            Err(3)
        }
    }
}

// How a package is adopted, or why these words say nothing.
fn adoption_of<'a>(
    source: Option<&'a str>,
    beside: Option<&'a str>,
    adoption: Adoption<'a>,
) -> Result<Word<'a>, &'static str> {
    let makes_more = adoption.validation || adoption.utf8;
    match (source, adoption.in_place) {
        (Some(source), false) => Ok(Word::Adopt(source, beside, adoption)),
        (None, true) if makes_more || beside.is_some() => {
            Err(
                "--in-place changes counts alone; leave --validation, --to-utf8 and --source-log out",
            )
        }
        (None, true) => Ok(Word::AdoptInPlace),
        (Some(_), true) => {
            Err("--in-place puts PACKAGE itself right; leave SOURCE or --in-place out")
        }
        (None, false) => Err("SOURCE is missing; or --in-place puts PACKAGE itself right"),
    }
}

// Tells why words that the program takes say nothing together.
fn tell_words<E: Write>(why: &str, err: &mut E) -> u8
    ensures { result ≤ 3 }
{
    tell(why, err);
    2
}

// What is done with a package and its log.
#[derive(Clone, Copy, Debug)]
enum Word<'a> {
    Create,
    // With the path of the package that is read, and that of its log where it is named.
    Adopt(&'a str, Option<&'a str>, Adoption<'a>),
    AdoptInPlace,
    Recover,
    List,
    // With the path of the command file, whether progress is shown, and how it is run.
    Run(&'a str, bool, RunOptions),
    Set(Properties<'a>),
    Unset(Property<'a>),
    // With the name of the stream, and the path of the file.
    Put(&'a str, &'a str),
    // With the paths of files and folders.
    Import(&'a [&'a str]),
    // With the path of the folder.
    Build(&'a str),
}

// Does what a word asks for, with the log that is named or the one beside the package.
fn on_files<R: Files<File = File> + AllocGlobal + Clock + Clone + Drop, O: Write, E: Write>(
    rt: &R,
    word: Word<'_>,
    package: &str,
    log: Log<'_>,
    out: &mut O,
    err: &mut E,
) -> u8
    ensures { result ≤ 3 }
{
    let log = match log {
        Log::Beside => None,
        Log::At(path) => Some(path),
        Log::Twice(first, second) => {
            let _ = writeln!(err, "msidb: two logs are named, {first} and {second}");
            return 2;
        }
    };
    match named(rt, package, log, err) {
        Ok(names) => do_word(rt, word, &names, out, err),
        Err(status) => status,
    }
}

// Does what a word asks for.
fn do_word<R: Files<File = File> + AllocGlobal + Clock + Clone + Drop, O: Write, E: Write>(
    rt: &R,
    word: Word<'_>,
    names: &Names,
    out: &mut O,
    err: &mut E,
) -> u8
    ensures { result ≤ 3 }
{
    let ended = match word {
        Word::Create => create(rt, names, out, err),
        Word::Adopt(source, log, adoption) => {
            let source = match named(rt, source, log, err) {
                Ok(source) => source,
                Err(status) => return status,
            };
            return adopt_file(rt, names, &source, adoption, out, err);
        }
        Word::AdoptInPlace => return adopt_there(rt, names, out, err),
        Word::Recover => finish(rt, names, out, err),
        Word::List => list(rt, names, out, err),
        Word::Run(commands, shows_progress, options) => {
            return run_file(rt, names, commands, out, err, shows_progress, options);
        }
        Word::Set(properties) => return set_properties(rt, names, properties, err),
        Word::Unset(property) => return unset_property(rt, names, property, err),
        Word::Put(stream, from) => return put_stream(rt, names, stream, from, err),
        Word::Import(from) => return import(rt, names, from, err),
        Word::Build(folder) => return build_file(rt, names, folder, out, err),
    };
    status_of(ended, names, err)
}

// Runs the commands of a file, which is read before a package is opened. The status is 0 only where a session ran them all, and refused none.
fn run_file<R: Files<File = File> + AllocGlobal + Clock, O: Write, E: Write>(
    rt: &R,
    names: &Names,
    path: &str,
    out: &mut O,
    err: &mut E,
    shows_progress: bool,
    options: RunOptions,
) -> u8
    ensures most { result ≤ 3 }
    ensures done { result ≡ 0 → (requests : List Request) × HasRun requests Done }
{
    let mut commands = match commands_in(rt, path, options.quiet, err) {
        Ok(commands) => commands,
        Err(error) => return if error == Error::Memory { 3 } else { 2 },
    };
    let path = name_of(path);
    if let Some(place) = slip_at(&commands) {
        tell_slip(path, place.saturating_add(1), err);
        return 2;
    }
    if options.all_or_nothing {
        if let Some(place) = commands.iter().position(is_own_commit) {
            tell_own_commit(path, place.saturating_add(1), err);
            return 2;
        }
        if commands.push(Command::Commit).is_err() {
            tell("out of memory", err);
            return 3;
        }
    }
    run_told(rt, names, &commands, out, err, shows_progress, options)
}

// Runs commands, and tells what went wrong. The status is 0 only where a session ran them all, and refused none.
fn run_told<R: Files<File = File> + AllocGlobal + Clock, O: Write, E: Write>(
    rt: &R,
    names: &Names,
    commands: &[Command],
    out: &mut O,
    err: &mut E,
    shows_progress: bool,
    options: RunOptions,
) -> u8
    ensures most { result ≤ 3 }
    ensures done { result ≡ 0 → HasRun (map request_of commands.now) Done }
{
    let manner = manner_of(options);
    let total = manner.count_of(commands);
    let mut progress = Progress::new(rt, err, shows_progress, total);
    let ended = run(rt, names, commands, manner, out, &mut progress);
    status_of(ended, names, err)
}

// How commands are run under these options.
fn manner_of(options: RunOptions) -> Manner {
    let until = if options.stop || options.all_or_nothing {
        Until::Refusal
    } else {
        Until::End
    };
    Manner {
        until,
        is_quiet: options.quiet,
        is_own: false,
        commits_at_end: options.all_or_nothing,
    }
}

// Whether a command writes or gives up what --all-or-nothing keeps together.
fn is_own_commit(command: &Command) -> bool {
    matches!(
        command,
        Command::Commit | Command::Flush | Command::RollBack
    )
}

// Tells of such a command.
fn tell_own_commit<E: Write>(path: &str, number: usize, err: &mut E) {
    let _ = writeln!(
        err,
        "msidb: {path}: command {number}: --all-or-nothing commits at the end by itself; leave `commit`, `flush` and `roll_back` out"
    );
}

// A function of its own, since what is told of the call costs time wherever it is seen.
fn slip_at(commands: &[Command]) -> Option<usize> {
    slip_in(commands)
}

// Tells that an update or a delete would hold of all rows, where some were meant.
fn tell_slip<E: Write>(path: &str, number: usize, err: &mut E) {
    let _ = writeln!(
        err,
        "msidb: {path}: command {number}: its `where` is a value and names no column; write `{{\"op\":\"eq\",\"args\":[{{\"col\":\"Id\"}},1]}}` or the like, or leave `where` out for all rows"
    );
}

// The status of a word, and what went wrong is told.
pub(crate) fn status_of<E: Write>(ended: Result<Ending, Failure>, names: &Names, err: &mut E) -> u8
    ensures { result ≡ status_in ended }
{
    match ended {
        Ok(Ending::Done) => 0,
        Ok(Ending::Refused(_, _)) => 1,
        Err(failure) => {
            tell_failure(names, failure, err);
            3
        }
    }
}

// Makes a package and commits it.
fn create<R: Files<File = File> + AllocGlobal, O: Write, E: Write>(
    rt: &R,
    names: &Names,
    out: &mut O,
    err: &mut E,
) -> Result<Ending, Failure> {
    let new = NewFiles::of(rt, names, err)?;
    let faults = Faults::new();
    let device = new.open(rt, names, &faults)?;
    match create_package(rt.alloc(), device) {
        Ok(()) => {
            new.keep(rt, names)?;
            answer("created", out)
        }
        Err(error) => Err(new.undo(rt, names, &faults, why_not_made(error))),
    }
}

// Why no package was made.
fn why_not_made(error: Error) -> Failure {
    match error {
        Error::InvalidData => Failure::Log(Trouble::UnfitCommit),
        error => failure_of(error),
    }
}

// Makes a package of one of any maker, which is read first.
fn adopt_file<R: Files<File = File> + AllocGlobal, O: Write, E: Write>(
    rt: &R,
    names: &Names,
    source: &Names,
    adoption: Adoption<'_>,
    out: &mut O,
    err: &mut E,
) -> u8
    ensures { result ≤ 3 }
{
    let pages = match asked_of(adoption, err) {
        Ok(pages) => pages,
        Err(status) => return status,
    };
    let package = match adopted_package(rt, source, pages, adoption.validation, out, err) {
        Ok(package) => package,
        Err(status) => {
            if is_turned_round(rt, names, source) {
                tell_order(names.named(), err);
            }
            return status;
        }
    };
    match keep_package(rt, names, package, "adopted", out, err) {
        Err(Failure::Package(Trouble::Present)) => {
            tell_order(names.named(), err);
            3
        }
        ended => status_of(ended, names, err),
    }
}

// Makes a package of a folder, and commits it; or makes nothing.
fn build_file<R: Files<File = File> + AllocGlobal + Clone + Drop, O: Write, E: Write>(
    rt: &R,
    names: &Names,
    folder: &str,
    out: &mut O,
    err: &mut E,
) -> u8
    ensures { result ≤ 3 }
{
    let package = match built_of(rt, folder, err) {
        Ok(package) => package,
        Err(status) => return status.min(3),
    };
    let ended = keep_package(rt, names, package, "built", out, err);
    if ended.is_ok() {
        tell_missing_cabinets(rt, names, err);
    }
    status_of(ended, names, err)
}

// Whether the package that is to be made is there, and the one that is to be read isn't.
fn is_turned_round<R: Files<File = File>>(rt: &R, names: &Names, source: &Names) -> bool {
    trouble_at(rt, source.package()) == Some(Trouble::Missing)
        && trouble_at(rt, names.package()).is_none()
}

// Tells which of two packages is named first.
fn tell_order<E: Write>(named: &str, err: &mut E) {
    let _ = writeln!(
        err,
        "msidb: {named}: it is there already; the new package comes first, under another name: `msidb adopt NEW SOURCE`"
    );
}

// The code pages by which the texts of a package are put in UTF-8, if they are to be. Where pages are named for nothing, or one is none,
// the status is given, and why is told.
fn asked_of<E: Write>(
    adoption: Adoption<'_>,
    err: &mut E,
) -> Result<Option<package_reading::Pages>, u8>
    ensures { IfErr result (λ status. status ≤ 3) }
{
    let words = adoption.pages;
    if !adoption.utf8 {
        if words.texts.is_none() && words.summary.is_none() {
            return Ok(None);
        }
        tell(
            "--from-codepage and --from-summary-codepage go with --to-utf8",
            err,
        );
        return Err(2);
    }
    match asked(words, err) {
        Ok(pages) => Ok(Some(pages.in_utf8())),
        Err(status) => Err(status),
    }
}

// Makes the files of a package, and commits this one there. It is let go on the way, since a commit takes twice its bytes.
fn keep_package<R: Files<File = File> + AllocGlobal, O: Write, E: Write>(
    rt: &R,
    names: &Names,
    package: Package<MemoryMedium>,
    word: &str,
    out: &mut O,
    err: &mut E,
) -> Result<Ending, Failure> {
    let new = NewFiles::of(rt, names, err)?;
    let faults = Faults::new();
    let device = new.open(rt, names, &faults)?;
    match commit_moved(rt.alloc(), package, device) {
        Ok(()) => {
            new.keep(rt, names)?;
            answer(word, out)
        }
        Err(error) => Err(new.undo(rt, names, &faults, why_not_made(error))),
    }
}

// Finishes a commit that was cut short. A log that is named must be there.
fn finish<R: Files<File = File>, O: Write, E: Write>(
    rt: &R,
    names: &Names,
    out: &mut O,
    err: &mut E,
) -> Result<Ending, Failure> {
    let recovered = match files::look_at(rt, names)? {
        Found::Missing if names.is_log_named() => return Err(Failure::Log(Trouble::Missing)),
        Found::Missing => {
            tell_no_log(names, err);
            Recovered::Closed
        }
        Found::Doubtful => Recovered::Closed,
        Found::Closed | Found::Open => {
            let recovered = files::finish(rt, names)?;
            if recovered != Recovered::Closed {
                cut_log(rt, names);
            }
            recovered
        }
    };
    match recovered {
        Recovered::Closed => answer("closed", out),
        Recovered::Applied(pages) => match writeln!(out, "applied {pages}") {
            Ok(()) => Ok(Ending::Done),
            Err(error) => Err(Failure::Output(error.kind())),
        },
    }
}

// Tells that a package has no log. Where one lies elsewhere, nothing in the two files says so.
fn tell_no_log<E: Write>(names: &Names, err: &mut E) {
    let named = names.named();
    let _ = writeln!(err, "msidb: {named}: no log beside it");
}

// Prints what was done.
pub(crate) fn answer<O: Write>(what: &str, out: &mut O) -> Result<Ending, Failure> {
    match writeln!(out, "{what}") {
        Ok(()) => Ok(Ending::Done),
        Err(error) => Err(Failure::Output(error.kind())),
    }
}
