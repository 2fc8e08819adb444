//! A line of words.
ghost use Rattle.std.specs.Prelude.{◌≡◌, IfOk, IfErr, IfSome, codes, option_map, map, string_bytes, true};
ghost use Rattle.clap.specs.Words.{first_of, found_of, kind_of, rows_of, subcommand_rows_of, takes};
ghost use Rattle.command_words.specs.Words.{msidb};
ghost use Rattle.command_lines.specs.Lines.{words_of_line, is_set, named, named_by, AreIn, AreAsked, AreFiles, AreMore, AreOptions, ArePages, ArePaths, AreReadPages, AsksFor, IsAdoption, IsNamedIn, SaidIn, HasSaid};

use clap::error::ErrorKind;
use clap::{ArgMatches, Error};
use command_options::{Adoption, Log, Pages, Parts, RunOptions};
use command_words::matches;
use std::alloc::{AllocError, Global};

/// What the program is asked for: the path of a package with its log, and of a command file; or the path of a file, and what is shown
/// of it.
#[derive(Debug, PartialEq, Eq, Drop)]
pub enum Line<'a> {
    /// Make a new package.
    Create(&'a str, Log<'a>),
    /// Make a package of one of any maker, whose texts are counted otherwise, with the log of that one, where it is named; or put one right
    /// where it lies, which names no other.
    Adopt(&'a str, Log<'a>, Option<&'a str>, Option<&'a str>, Adoption<'a>),
    /// Finish a commit.
    Recover(&'a str, Log<'a>),
    /// Run the commands of a file.
    Run(&'a str, Log<'a>, &'a str, RunOptions),
    /// List the tables and the streams.
    List(&'a str, Log<'a>),
    /// Show parts of a package of any maker, with its log, where it is named, and whether a table is shown as comma-separated values.
    Show(&'a str, Option<&'a str>, Parts<'a>, bool, Pages<'a>),
    /// Tell which rules packages of any maker break, and whether all places at which they do.
    Check(Vec<&'a str>, Option<&'a str>, bool, Pages<'a>),
    /// Tell which rules the contents of packages of any maker break, but those of these names.
    Validate(Vec<&'a str>, Option<&'a str>, Option<&'a str>, Pages<'a>),
    /// Write a package of any maker to a new folder.
    Export(&'a str, Option<&'a str>, &'a str, Pages<'a>),
    /// Tell the property of a name, or whether it is a field of the summary.
    Get(&'a str, Option<&'a str>, &'a str, bool, Pages<'a>),
    /// Give the property of a name a value, and further ones theirs, each with its value behind it; or whether they are fields of the summary.
    Set(&'a str, Log<'a>, &'a str, &'a str, Vec<&'a str>, bool),
    /// Take the property of a name away, or whether it is a field of the summary.
    Unset(&'a str, Log<'a>, &'a str, bool),
    /// Write a stream to a new file.
    Extract(&'a str, Option<&'a str>, &'a str, &'a str),
    /// Put the bytes of a file into a stream.
    Put(&'a str, Log<'a>, &'a str, &'a str),
    /// Give tables the rows of exported files: of those at these paths, or in the folders there.
    Import(&'a str, Log<'a>, Vec<&'a str>),
    /// Make a package of an exported folder.
    Build(&'a str, Log<'a>, &'a str),
}

/// Reads the words after the program's name. Words that ask for nothing are refused, with a text that says why; so is a wish for help
/// or for the version, whose text is that. A log that is named twice is no refusal here: the line says so.
pub fn read_words<'a>(alloc: Global, words: &'a [String]) -> Result<Line<'a>, Error>
    ensures ok { IfOk result (λ line. HasSaid line (map string_bytes words.entry.now)) }
    ensures after_error { IfErr result (λ e. takes msidb (map string_bytes words.entry.now) ≡ true
        → kind_of e ≡ ErrorKind.OutOfMemory) }
{
    let found = matches(alloc, words)?;
    match line_in(alloc, &found) {
        Some(line) => Ok(line),
        None => Err(Error::from(AllocError)),
    }
}

fn line_in<'a>(alloc: Global, found: &ArgMatches<'a>) -> Option<Line<'a>>
    ensures { IfSome result (λ line. SaidIn line (subcommand_rows_of found.now)) }
{
    let (name, paths) = found.subcommand()?;
    line_of(alloc, name, paths)
}

fn line_of<'a>(alloc: Global, name: &str, paths: &ArgMatches<'a>) -> Option<Line<'a>>
    ensures { IfSome result (λ line. ((words_of_line line).0 ≡ name.now)
        × AreIn (words_of_line line).1 (rows_of (found_of paths.now))
        × AsksFor line (rows_of (found_of paths.now))) }
{
    match name {
        "show" => {
            let file = path(paths, "FILE")?;
            let parts = parts_in(paths);
            let csv = has_flag(paths, "csv");
            let log = path(paths, "log");
            let pages = read_pages_in(paths);
            Some(Line::Show(file, log, parts, csv, pages))
        }
        "check" => line_of_check(alloc, paths),
        "export" => {
            let file = path(paths, "FILE")?;
            let folder = path(paths, "FOLDER")?;
            let log = path(paths, "log");
            let pages = read_pages_in(paths);
            Some(Line::Export(file, log, folder, pages))
        }
        "validate" => line_of_validation(alloc, paths),
        "run" => line_of_run(paths),
        "adopt" => line_of_adoption(paths),
        "get" => line_of_get(paths),
        "set" => line_of_set(alloc, paths),
        "unset" => line_of_unset(paths),
        "extract" => line_of_extract(paths),
        "put" => line_of_put(paths),
        "import" => line_of_import(alloc, paths),
        "build" => line_of_build(paths),
        _ => line_on_package(name, paths),
    }
}

// The line of a word that has a package and its log.
fn line_on_package<'a>(name: &str, paths: &ArgMatches<'a>) -> Option<Line<'a>>
    ensures { IfSome result (λ line. ((words_of_line line).0 ≡ name.now)
        × AreIn (words_of_line line).1 (rows_of (found_of paths.now))
        × AsksFor line (rows_of (found_of paths.now))) }
{
    let package = path(paths, "PACKAGE")?;
    let log = log_in(path(paths, "LOG"), paths);
    match name {
        "create" => Some(Line::Create(package, log)),
        "recover" => Some(Line::Recover(package, log)),
        "list" => Some(Line::List(package, log)),
        _ => None,
    }
}

// The line of the word that runs commands.
fn line_of_run<'a>(paths: &ArgMatches<'a>) -> Option<Line<'a>>
    ensures { IfSome result (λ line. ((words_of_line line).0 ≡ codes "run")
        × AreIn (words_of_line line).1 (rows_of (found_of paths.now))
        × AsksFor line (rows_of (found_of paths.now))) }
{
    let package = path(paths, "PACKAGE")?;
    let first = path(paths, "COMMANDS")?;
    let options = options_in(paths);
    match path(paths, "LAST") {
        Some(last) => {
            let log = log_in(Some(first), paths);
            Some(Line::Run(package, log, last, options))
        }
        None => {
            let log = log_in(None, paths);
            Some(Line::Run(package, log, first, options))
        }
    }
}

fn options_in(paths: &ArgMatches<'_>) -> RunOptions
    ensures { AreOptions result (rows_of (found_of paths.now)) }
{
    RunOptions {
        quiet: has_flag(paths, "quiet"),
        stop: has_flag(paths, "stop"),
        all_or_nothing: has_flag(paths, "all-or-nothing"),
    }
}

// The line of the word that judges packages.
fn line_of_check<'a>(alloc: Global, paths: &ArgMatches<'a>) -> Option<Line<'a>>
    ensures { IfSome result (λ line. ((words_of_line line).0 ≡ codes "check")
        × AreIn (words_of_line line).1 (rows_of (found_of paths.now))
        × AsksFor line (rows_of (found_of paths.now))) }
{
    let files = files_in(alloc, paths)?;
    let log = path(paths, "log");
    let places = has_flag(paths, "places");
    let pages = read_pages_in(paths);
    Some(Line::Check(files, log, places, pages))
}

// The line of the word that tells a property.
fn line_of_get<'a>(paths: &ArgMatches<'a>) -> Option<Line<'a>>
    ensures { IfSome result (λ line. ((words_of_line line).0 ≡ codes "get")
        × AreIn (words_of_line line).1 (rows_of (found_of paths.now))
        × AsksFor line (rows_of (found_of paths.now))) }
{
    let file = path(paths, "FILE")?;
    let name = path(paths, "NAME")?;
    let log = path(paths, "log");
    let summary = has_flag(paths, "summary");
    let pages = read_pages_in(paths);
    Some(Line::Get(file, log, name, summary, pages))
}

// The line of the word that sets properties.
fn line_of_set<'a>(alloc: Global, paths: &ArgMatches<'a>) -> Option<Line<'a>>
    ensures { IfSome result (λ line. ((words_of_line line).0 ≡ codes "set")
        × AreIn (words_of_line line).1 (rows_of (found_of paths.now))
        × AsksFor line (rows_of (found_of paths.now))) }
{
    let package = path(paths, "PACKAGE")?;
    let name = path(paths, "NAME")?;
    let value = path(paths, "VALUE")?;
    let more = more_in(alloc, paths)?;
    let log = log_in(None, paths);
    let summary = has_flag(paths, "summary");
    Some(Line::Set(package, log, name, value, more, summary))
}

// The line of the word that takes a property away.
fn line_of_unset<'a>(paths: &ArgMatches<'a>) -> Option<Line<'a>>
    ensures { IfSome result (λ line. ((words_of_line line).0 ≡ codes "unset")
        × AreIn (words_of_line line).1 (rows_of (found_of paths.now))
        × AsksFor line (rows_of (found_of paths.now))) }
{
    let package = path(paths, "PACKAGE")?;
    let name = path(paths, "NAME")?;
    let log = log_in(None, paths);
    let summary = has_flag(paths, "summary");
    Some(Line::Unset(package, log, name, summary))
}

// The line of the word that writes a stream to a file.
fn line_of_extract<'a>(paths: &ArgMatches<'a>) -> Option<Line<'a>>
    ensures { IfSome result (λ line. ((words_of_line line).0 ≡ codes "extract")
        × AreIn (words_of_line line).1 (rows_of (found_of paths.now))
        × AsksFor line (rows_of (found_of paths.now))) }
{
    let file = path(paths, "FILE")?;
    let stream = path(paths, "STREAM")?;
    let to = path(paths, "PATH")?;
    let log = path(paths, "log");
    Some(Line::Extract(file, log, stream, to))
}

// The line of the word that puts a file into a stream.
fn line_of_put<'a>(paths: &ArgMatches<'a>) -> Option<Line<'a>>
    ensures { IfSome result (λ line. ((words_of_line line).0 ≡ codes "put")
        × AreIn (words_of_line line).1 (rows_of (found_of paths.now))
        × AsksFor line (rows_of (found_of paths.now))) }
{
    let package = path(paths, "PACKAGE")?;
    let stream = path(paths, "STREAM")?;
    let from = path(paths, "PATH")?;
    let log = log_in(None, paths);
    Some(Line::Put(package, log, stream, from))
}

// The line of the word that gives tables the rows of files.
fn line_of_import<'a>(alloc: Global, paths: &ArgMatches<'a>) -> Option<Line<'a>>
    ensures { IfSome result (λ line. ((words_of_line line).0 ≡ codes "import")
        × AreIn (words_of_line line).1 (rows_of (found_of paths.now))
        × AsksFor line (rows_of (found_of paths.now))) }
{
    let package = path(paths, "PACKAGE")?;
    let from = several_in(alloc, paths, "PATH")?;
    let log = log_in(None, paths);
    Some(Line::Import(package, log, from))
}

// The line of the word that judges what packages hold.
fn line_of_validation<'a>(alloc: Global, paths: &ArgMatches<'a>) -> Option<Line<'a>>
    ensures { IfSome result (λ line. ((words_of_line line).0 ≡ codes "validate")
        × AreIn (words_of_line line).1 (rows_of (found_of paths.now))
        × AsksFor line (rows_of (found_of paths.now))) }
{
    let files = files_in(alloc, paths)?;
    let log = path(paths, "log");
    let ignored = path(paths, "ignore");
    let pages = read_pages_in(paths);
    Some(Line::Validate(files, log, ignored, pages))
}

// The line of the word that makes a package of a folder.
fn line_of_build<'a>(paths: &ArgMatches<'a>) -> Option<Line<'a>>
    ensures { IfSome result (λ line. ((words_of_line line).0 ≡ codes "build")
        × AreIn (words_of_line line).1 (rows_of (found_of paths.now))
        × AsksFor line (rows_of (found_of paths.now))) }
{
    let package = path(paths, "PACKAGE")?;
    let folder = path(paths, "FOLDER")?;
    let log = log_in(None, paths);
    Some(Line::Build(package, log, folder))
}

// The line of the word that adopts a package.
fn line_of_adoption<'a>(paths: &ArgMatches<'a>) -> Option<Line<'a>>
    ensures { IfSome result (λ line. ((words_of_line line).0 ≡ codes "adopt")
        × AreIn (words_of_line line).1 (rows_of (found_of paths.now))
        × AsksFor line (rows_of (found_of paths.now))) }
{
    let package = path(paths, "PACKAGE")?;
    let source = path(paths, "SOURCE");
    let log = log_in(None, paths);
    let beside = path(paths, "source-log");
    let adoption = adoption_in(paths);
    Some(Line::Adopt(package, log, source, beside, adoption))
}

fn adoption_in<'a>(paths: &ArgMatches<'a>) -> Adoption<'a>
    ensures { IsAdoption result (rows_of (found_of paths.now)) }
{
    Adoption {
        validation: has_flag(paths, "validation"),
        in_place: has_flag(paths, "in-place"),
        utf8: has_flag(paths, "to-utf8"),
        pages: pages_in(paths, "from-codepage", "from-summary-codepage"),
    }
}

// The code pages by which a package that is only read is shown.
fn read_pages_in<'a>(paths: &ArgMatches<'a>) -> Pages<'a>
    ensures { AreReadPages result (rows_of (found_of paths.now)) }
{
    pages_in(paths, "codepage", "summary-codepage")
}

// Those that options of these names give.
fn pages_in<'a>(paths: &ArgMatches<'a>, texts: &str, summary: &str) -> Pages<'a>
    ensures { ArePages result texts.now summary.now (rows_of (found_of paths.now)) }
{
    Pages {
        texts: path(paths, texts),
        summary: path(paths, summary),
    }
}

// The log that is named among the paths, or behind `--log`.
fn log_in<'a>(among: Option<&'a str>, paths: &ArgMatches<'a>) -> Log<'a>
    ensures { IsNamedIn result (option_map (λ s. s.now) among.entry)
        (rows_of (found_of paths.now)) }
{
    log_of(among, path(paths, "log"))
}

fn log_of<'a>(among: Option<&'a str>, behind: Option<&'a str>) -> Log<'a>
    ensures { named_by result
        ≡ named (option_map (λ s. s.now) among.entry) (option_map (λ s. s.now) behind.entry) }
{
    match (among, behind) {
        (None, None) => Log::Beside,
        (Some(among), None) => Log::At(among),
        (None, Some(behind)) => Log::At(behind),
        (Some(among), Some(behind)) => Log::Twice(among, behind),
    }
}

fn parts_in<'a>(paths: &ArgMatches<'a>) -> Parts<'a>
    ensures { AreAsked result (rows_of (found_of paths.now)) }
{
    Parts {
        table: path(paths, "TABLE"),
        summary: has_flag(paths, "summary"),
        streams: has_flag(paths, "streams"),
        tree: has_flag(paths, "tree"),
    }
}

fn has_flag(paths: &ArgMatches<'_>, id: &str) -> bool
    ensures { result ≡ is_set (first_of id.now (rows_of (found_of paths.now))) }
{
    match path(paths, id) {
        Some(text) => text == "true",
        None => false,
    }
}

// The files of a word that takes several. None where memory runs out.
fn files_in<'a>(alloc: Global, paths: &ArgMatches<'a>) -> Option<Vec<&'a str>>
    ensures { IfSome result (λ files. AreFiles files.items (rows_of (found_of paths.now))) }
{
    several_in(alloc, paths, "FILE")
}

// The paths of a word that takes several under a name. None where memory runs out.
#[tactic(auto, using(crate::proofs::Firsts::all_is))]
fn several_in<'a>(alloc: Global, paths: &ArgMatches<'a>, id: &str) -> Option<Vec<&'a str>>
    ensures { IfSome result (λ several. ArePaths id.now several.items
        (rows_of (found_of paths.now))) }
{
    let several = paths.get_strs(id)?;
    if several.is_empty() {
        return None;
    }
    Vec::from_slice(alloc, several).ok()
}

// Further names with their values. None where memory runs out.
#[tactic(auto, using(crate::proofs::Firsts::all_is))]
fn more_in<'a>(alloc: Global, paths: &ArgMatches<'a>) -> Option<Vec<&'a str>>
    ensures { IfSome result (λ more. AreMore more.items (rows_of (found_of paths.now))) }
{
    match paths.get_strs("MORE") {
        Some(more) => Vec::from_slice(alloc, more).ok(),
        None => Some(Vec::new(alloc)),
    }
}

#[tactic(auto, using(crate::proofs::Firsts::first_is))]
fn path<'a>(paths: &ArgMatches<'a>, id: &str) -> Option<&'a str>
    ensures { option_map (λ s. s.now) result ≡ first_of id.now (rows_of (found_of paths.now)) }
{
    paths.get_str(id)
}
