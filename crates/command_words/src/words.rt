//! The words that the program takes.
ghost use Rattle.std.specs.Prelude.{◌≡◌, codes, true, false, IfOk, IfErr, map, string_bytes};
ghost use Rattle.clap.specs.Words.{app_of, kind_of, new_app, new_rule, rule_of, takes, with_rule, with_subcommand, HasMatchesOf};
ghost use Rattle.command_words.specs.Words.{adopted, bare, built, by_pages, checked, contents_judged, contents_read, csv_shown, exported, files, flag, ignore_option, imported, log_option, more, msidb, on_package, or_summary, page_option, path, property_got, property_set, property_unset, run, run_logged, run_quiet, several, shown, source_log_option, source_logged, sourced, stream_moved, streams_shown, summary_shown, table_shown, tree_shown, two_paths, validated, value_set, with_adopt, with_contents, with_files, with_get, with_imports, with_log, with_looks, with_put, with_two, with_unset, without_run};

use clap::error::ErrorKind;
use clap::{Arg, ArgAction, ArgMatches, Command, Error};
use std::alloc::{AllocError, Global};

// The number of this program's version.
const VERSION: &str = "0.1.0";

// What stands behind each help.
const STATUSES: &str =
    "Status: 0 done, 1 a command was refused by a rule, 2 words or a command file that can't be read, 3 a fault, or files that were refused.";

// Adds an argument.
fn add<'a>(command: Command<'a>, argument: Arg<'a>) -> Result<Command<'a>, AllocError>
    requires { argument.global ≡ false }
    ensures { IfOk result (λ c. app_of c
        ≡ with_rule (app_of command.entry) (rule_of argument.entry)) }
{
    command.arg(argument)
}

// A word, with no arguments yet.
fn word<'a>(alloc: Global, name: &'a str, about: &'a str, example: &'a str) -> Command<'a>
    ensures { app_of result ≡ new_app name.entry.now }
{
    Command::new(alloc, name).about(about).after_help(example)
}

// A path that may be missing.
fn optional_path<'a>(alloc: Global, id: &'a str, help: &'a str) -> Arg<'a>
    ensures rule { rule_of result ≡ new_rule id.entry.now }
    ensures local { result.global ≡ false }
{
    Arg::new(alloc, id).help(help)
}

// A word behind two hyphens, which nothing follows.
fn flag_of<'a>(alloc: Global, id: &'a str, help: &'a str) -> Arg<'a>
    ensures rule { rule_of result ≡ flag id.entry.now }
    ensures local { result.global ≡ false }
{
    Arg::new(alloc, id)
        .long(id)
        .action(ArgAction::SetTrue)
        .help(help)
}

// A path that must be there.
fn needed_path<'a>(alloc: Global, id: &'a str, help: &'a str) -> Arg<'a>
    ensures rule { rule_of result ≡ path id.entry.now }
    ensures local { result.global ≡ false }
{
    Arg::new(alloc, id).required(true).help(help)
}

// One path or more.
fn needed_paths<'a>(alloc: Global, id: &'a str, help: &'a str) -> Arg<'a>
    ensures rule { rule_of result ≡ several id.entry.now }
    ensures local { result.global ≡ false }
{
    needed_path(alloc, id, help).num_args(1..)
}

// The paths of one package or more.
fn needed_files<'a>(alloc: Global) -> Arg<'a>
    ensures rule { rule_of result ≡ files }
    ensures local { result.global ≡ false }
{
    needed_paths(alloc, "FILE", "The package, or several")
}

// The option that names the log.
fn log_behind<'a>(alloc: Global) -> Arg<'a>
    ensures rule { rule_of result ≡ log_option }
    ensures local { result.global ≡ false }
{
    Arg::new(alloc, "log").long("log").value_name("LOG").help(
        "The log, if it isn't the package's path with `.log` behind it",
    )
}

// The option that names the log of the package that is read.
fn source_log_behind<'a>(alloc: Global) -> Arg<'a>
    ensures rule { rule_of result ≡ source_log_option }
    ensures local { result.global ≡ false }
{
    Arg::new(alloc, "source-log")
        .long("source-log")
        .value_name("LOG")
        .help("The log of the other package, if it isn't its path with `.log` behind it")
}

// An option that gives the number of a code page.
fn page_behind<'a>(alloc: Global, id: &'a str, help: &'a str) -> Arg<'a>
    ensures rule { rule_of result ≡ page_option id.entry.now }
    ensures local { result.global ≡ false }
{
    Arg::new(alloc, id).long(id).value_name("N").help(help)
}

// A word with the code pages by which texts are read.
fn by_pages<'a>(alloc: Global, command: Command<'a>) -> Result<Command<'a>, AllocError>
    ensures { IfOk result (λ c. app_of c ≡ by_pages (app_of command.entry)) }
{
    let texts = page_behind(
        alloc,
        "codepage",
        "The code page by which texts of tables are read, if it isn't the one that the package names: 1252, 932, 65001 ..",
    );
    let summary = page_behind(alloc, "summary-codepage", "The same of the summary's texts");
    with_two(command, texts, summary)
}

// A word with the paths of a package and of its log.
fn with_paths<'a>(
    alloc: Global,
    name: &'a str,
    about: &'a str,
    example: &'a str,
) -> Result<Command<'a>, AllocError>
    ensures { IfOk result (λ c. app_of c ≡ on_package name.entry.now) }
{
    let command = word(alloc, name, about, example);
    let first = add(command, needed_path(alloc, "PACKAGE", "The package"))?;
    let log = optional_path(
        alloc,
        "LOG",
        "Its log, by which a commit survives a crash; the same as behind `--log`",
    );
    let second = add(first, log)?;
    add(second, log_behind(alloc))
}

// What stands behind the help of the word that runs commands: an example of each op.
fn help_on_commands<'a>() -> &'a str {
    r#"Example: msidb run setup.msi commands.json
Prints an answer for each command, a line of JSON each. The first commit makes the log, beside the file to which the path leads.
A command file has a command of these, or several:
[{"op":"create_table","table":"T","columns":[{"name":"Id","type":"int16","key":true}]},
 {"op":"insert","table":"T","rows":[[1],[2]]},
 {"op":"update","table":"T","set":[["Id",3]],"where":{"op":"eq","args":[{"col":"Id"},1]}},
 {"op":"delete","table":"T","where":{"op":"eq","args":[{"col":"Id"},2]}},
 {"op":"select","from":"T","columns":["Id"]},
 {"op":"columns","table":"T"},
 {"op":"tables"},
 {"op":"drop_table","table":"T"},
 {"op":"write_stream","name":"S","hex":"00ff"},
 {"op":"read_stream","name":"S"},
 {"op":"streams"},
 {"op":"remove_stream","name":"S"},
 {"op":"set_summary","field":"title","value":"Foo"},
 {"op":"summary"},
 {"op":"set_codepage","id":1252},
 {"op":"codepage"},
 {"op":"has_signature"},
 {"op":"remove_signature"},
 {"op":"flush"},
 {"op":"commit"},
 {"op":"roll_back"}]
Status: 0 done, 1 a command was refused by a rule, 2 the command file was refused and nothing was opened, 3 a fault, or files that were refused."#
}

// The word that runs commands, with the paths of a package and of a command file.
fn with_commands<'a>(alloc: Global) -> Result<Command<'a>, AllocError>
    ensures { IfOk result (λ c. app_of c ≡ two_paths) }
{
    let command = word(
        alloc,
        "run",
        "Runs the commands of a file",
        help_on_commands(),
    )
    .override_usage(
        "msidb run [OPTIONS] [--log <LOG>] <PACKAGE> <COMMANDS>\n       msidb run [OPTIONS] <PACKAGE> <LOG> <COMMANDS>",
    );
    let first = add(command, needed_path(alloc, "PACKAGE", "The package"))?;
    let commands = needed_path(
        alloc,
        "COMMANDS",
        "The command file: a JSON array of objects, each with its `op`; - is standard input",
    );
    add(first, commands)
}

// The same with the log: in front of the command file, which is then the last path, or behind its option.
fn with_run_log<'a>(alloc: Global) -> Result<Command<'a>, AllocError>
    ensures { IfOk result (λ c. app_of c ≡ run_logged) }
{
    let command = with_commands(alloc)?;
    let last = Arg::new(alloc, "LAST").hide(true);
    let first = add(command, last)?;
    add(first, log_behind(alloc))
}

// The same with a flag for no notes.
fn with_quiet_run<'a>(alloc: Global) -> Result<Command<'a>, AllocError>
    ensures { IfOk result (λ c. app_of c ≡ run_quiet) }
{
    let command = with_run_log(alloc)?;
    let quiet = flag_of(
        alloc,
        "quiet",
        "No notes on stderr; what goes wrong is told all the same",
    );
    add(command, quiet)
}

// The same with flags for an earlier end.
fn with_run<'a>(alloc: Global) -> Result<Command<'a>, AllocError>
    ensures { IfOk result (λ c. app_of c ≡ run) }
{
    let command = with_quiet_run(alloc)?;
    let stop = flag_of(
        alloc,
        "stop",
        "Run no command behind the first that is refused; what was committed before stays",
    );
    let first = add(command, stop)?;
    let whole = flag_of(
        alloc,
        "all-or-nothing",
        "Commit at the end if no command is refused, and else nothing; the file has no commit of its own",
    );
    add(first, whole)
}

// What stands behind the help of the word that shows a package.
fn help_on_show<'a>() -> &'a str {
    "Examples: msidb show setup.msi Property\n          msidb show setup.msi File --csv\nPrints a line of JSON for each part that is asked for, or for all but the tree; a table's rows stand behind its columns. A property that is a\ntime has it as a date in UTC, too. With --csv null is nothing, as an empty text is. Where a commit was cut short, what recover will make of it is shown; nothing is written.\nStatus: 0 done, 1 no table has the name, 2 --csv without a table, or with other parts, 3 the file is no package, or a part of it can't be read."
}

// The word that shows a package, with the path of a file and the name of a table.
fn with_table<'a>(alloc: Global) -> Result<Command<'a>, AllocError>
    ensures { IfOk result (λ c. app_of c ≡ table_shown) }
{
    let command = word(
        alloc,
        "show",
        "Shows what a package of any maker holds",
        help_on_show(),
    );
    let first = add(command, needed_path(alloc, "FILE", "The package"))?;
    let table = optional_path(
        alloc,
        "TABLE",
        "The table of this name, its columns and rows",
    );
    add(first, table)
}

// The same with a flag for the summary.
fn with_summary<'a>(alloc: Global) -> Result<Command<'a>, AllocError>
    ensures { IfOk result (λ c. app_of c ≡ summary_shown) }
{
    let command = with_table(alloc)?;
    let summary = flag_of(alloc, "summary", "The properties of the summary");
    add(command, summary)
}

// The same with one for the streams.
fn with_streams<'a>(alloc: Global) -> Result<Command<'a>, AllocError>
    ensures { IfOk result (λ c. app_of c ≡ streams_shown) }
{
    let command = with_summary(alloc)?;
    let streams = flag_of(
        alloc,
        "streams",
        "The streams that hold no tables, with lengths and SHA-256",
    );
    add(command, streams)
}

// The same with one for the tree.
fn with_tree<'a>(alloc: Global) -> Result<Command<'a>, AllocError>
    ensures { IfOk result (λ c. app_of c ≡ tree_shown) }
{
    let command = with_streams(alloc)?;
    let tree = flag_of(
        alloc,
        "tree",
        "The tree of the compound file, which need be no package: storages and streams",
    );
    add(command, tree)
}

// The same with one for comma-separated values.
fn with_csv<'a>(alloc: Global) -> Result<Command<'a>, AllocError>
    ensures { IfOk result (λ c. app_of c ≡ csv_shown) }
{
    let command = with_tree(alloc)?;
    let csv = flag_of(
        alloc,
        "csv",
        "The table as comma-separated values, behind the names of its columns",
    );
    add(command, csv)
}

// The same with the log.
fn with_file<'a>(alloc: Global) -> Result<Command<'a>, AllocError>
    ensures { IfOk result (λ c. app_of c ≡ shown) }
{
    let command = with_csv(alloc)?;
    let logged = add(command, log_behind(alloc))?;
    by_pages(alloc, logged)
}

// What stands behind the help of the word that judges a package.
fn help_on_check<'a>() -> &'a str {
    "Examples: msidb check setup.msi\n          msidb check one.msi other.msi\nPrints a line for each rule of a sound package that this one breaks, and behind it one for each of the first three texts, tables, objects, streams or sectors at fault, where these are known, or with --places for all; for a sound one, nothing. Nothing is written. What streams contain isn't checked.\nOf several files each line has its file in front, and the status is the greatest; a file that can't be read keeps no other from being checked.\nTexts at several places of the string pool are told on stderr: libmsi and Wine's msi.dll miss rows by them.\nStatus: 0 sound, 1 not, 3 the file is no package, or can't be read."
}

// The word that judges packages, with the paths of files.
fn with_judged<'a>(alloc: Global) -> Result<Command<'a>, AllocError>
    ensures { IfOk result (λ c. app_of c ≡ checked) }
{
    let command = word(
        alloc,
        "check",
        "Tells which rules a package of any maker breaks",
        help_on_check(),
    );
    let first = add(command, needed_files(alloc))?;
    let places = flag_of(
        alloc,
        "places",
        "All places at which a rule is broken, and not the first three alone",
    );
    let second = add(first, places)?;
    let logged = add(second, log_behind(alloc))?;
    by_pages(alloc, logged)
}

// What stands behind the help of the word that exports a package.
fn help_on_export<'a>() -> &'a str {
    "Example: msidb export setup.msi setup\nWrites each table as TABLE.idt, as Windows Installer exports it, the bytes of its rows to TABLE, and each other stream to _Streams.\nThe files are made in setup.part, which gets the name at the end. In names of files each byte but letters, digits, `_`, `-` and a dot that isn't the first stands as % and two digits.\nStatus: 0 done, 1 done, and what isn't read back from the files as it was is told, 3 the file is no package, or not all could be read and written."
}

// The word that exports a package, with the paths of a file and of a folder.
fn with_folder<'a>(alloc: Global) -> Result<Command<'a>, AllocError>
    ensures { IfOk result (λ c. app_of c ≡ exported) }
{
    let command = word(
        alloc,
        "export",
        "Writes what a package of any maker holds to files of a new folder",
        help_on_export(),
    );
    let first = add(command, needed_path(alloc, "FILE", "The package"))?;
    let folder = needed_path(
        alloc,
        "FOLDER",
        "The folder, which is made and must not be there",
    );
    let second = add(first, folder)?;
    let logged = add(second, log_behind(alloc))?;
    by_pages(alloc, logged)
}

// What stands behind the help of the word that adopts a package.
fn help_on_adopt<'a>() -> &'a str {
    "Example: msidb adopt new.msi other.msi\nMakes the package new.msi, and by its commit the log new.msi.log. It holds what the other one does, and counts each text as often as cells use it, at one place of the string pool. A package\nthat breaks further rules isn't adopted: they are told as `check` tells them, and nothing is made. The other package is only read.\nTables can be made and dropped only where there is a table _Validation: with --validation a package without one gets an empty one.\nWith --in-place the package is put right where it lies, in one commit: only its string pool is written anew, with right counts, and code page 0 is named 65001 there. Of a sound one nothing is written. Texts at several places stay there, which is told.\nStatus: 0 done, 1 rules are broken, 2 SOURCE and --in-place, or neither, 3 the file is no package, or there is a package already."
}

// The word that adopts a package, with the paths of both.
fn with_source<'a>(alloc: Global) -> Result<Command<'a>, AllocError>
    ensures { IfOk result (λ c. app_of c ≡ sourced) }
{
    let command = word(
        alloc,
        "adopt",
        "Makes a copy of another maker's package that can be changed",
        help_on_adopt(),
    );
    let first = add(
        command,
        needed_path(
            alloc,
            "PACKAGE",
            "The package that is made, or with --in-place put right",
        ),
    )?;
    let source = optional_path(
        alloc,
        "SOURCE",
        "The package of any maker, which is only read",
    );
    let second = add(first, source)?;
    add(second, log_behind(alloc))
}

// The same with the log of the package that is read.
fn with_source_log<'a>(alloc: Global) -> Result<Command<'a>, AllocError>
    ensures { IfOk result (λ c. app_of c ≡ source_logged) }
{
    let command = with_source(alloc)?;
    add(command, source_log_behind(alloc))
}

// The same with a flag for an empty _Validation, and one for a package that is put right where it lies.
fn with_validation<'a>(alloc: Global) -> Result<Command<'a>, AllocError>
    ensures { IfOk result (λ c. app_of c ≡ validated) }
{
    let command = with_source_log(alloc)?;
    let validation = flag_of(
        alloc,
        "validation",
        "An empty table _Validation, where there is none",
    );
    let in_place = flag_of(
        alloc,
        "in-place",
        "PACKAGE itself is put right where it lies, and there is no SOURCE",
    );
    let copied = add(command, validation)?;
    add(copied, in_place)
}

// The same with texts in UTF-8.
fn with_adoption<'a>(alloc: Global) -> Result<Command<'a>, AllocError>
    ensures { IfOk result (λ c. app_of c ≡ adopted) }
{
    let command = with_validation(alloc)?;
    let utf8 = flag_of(
        alloc,
        "to-utf8",
        "Texts in UTF-8, of whatever code page they are in; so they can be changed",
    );
    let first = add(command, utf8)?;
    let texts = page_behind(
        alloc,
        "from-codepage",
        "With --to-utf8 the code page by which texts of tables are read, if it isn't the one that the other package names",
    );
    let summary = page_behind(
        alloc,
        "from-summary-codepage",
        "The same of the summary's texts",
    );
    with_two(first, texts, summary)
}

// A word with two paths or names.
fn with_two<'a>(
    command: Command<'a>,
    one: Arg<'a>,
    other: Arg<'a>,
) -> Result<Command<'a>, AllocError>
    requires first { one.global ≡ false }
    requires second { other.global ≡ false }
    ensures { IfOk result (λ c. app_of c ≡ with_rule
        (with_rule (app_of command.entry) (rule_of one.entry)) (rule_of other.entry)) }
{
    let first = add(command, one)?;
    add(first, other)
}

// The same for a field of the summary, with the log.
fn or_summary<'a>(alloc: Global, command: Command<'a>) -> Result<Command<'a>, AllocError>
    ensures { IfOk result (λ c. app_of c ≡ or_summary (app_of command.entry)) }
{
    let summary = flag_of(alloc, "summary", "NAME is a field of the summary");
    with_two(command, summary, log_behind(alloc))
}

// What stands behind the help of the words on one property.
fn help_on_properties<'a>() -> &'a str {
    "Examples: msidb get setup.msi ProductVersion\n          msidb set setup.msi ProductVersion 1.2.3\n          msidb set setup.msi ProductVersion 1.2.3 ProductCode {DDCF7CCD-8AF1-4F16-9181-134A919F1CD6}\n          msidb unset setup.msi ALLUSERS\n          msidb get --summary setup.msi title\nA property is a row of the table Property. set and unset commit once, or change nothing; set takes several names, each with its value.\nFields of the summary: title subject author keywords comments arch languages last_saved_by uuid last_printed creation_time last_saved_time\npage_count word_count character_count creating_application doc_security codepage. Several keywords or languages stand with commas between\nthem; a time is as 2024-09-05T08:53:20Z, in UTC.\nStatus: 0 done, 1 there is none, or a rule refused it, 3 a fault, or files that were refused."
}

// The word that tells a property.
fn with_property_got<'a>(alloc: Global) -> Result<Command<'a>, AllocError>
    ensures { IfOk result (λ c. app_of c ≡ property_got) }
{
    let command = word(
        alloc,
        "get",
        "Prints a property, or a field of the summary",
        help_on_properties(),
    );
    let file = needed_path(alloc, "FILE", "The package of any maker");
    let name = needed_path(alloc, "NAME", "The name of the property");
    let named = with_two(command, file, name)?;
    let found = or_summary(alloc, named)?;
    by_pages(alloc, found)
}

// The word that sets one, but for further ones, its flag and log.
fn with_value<'a>(alloc: Global) -> Result<Command<'a>, AllocError>
    ensures { IfOk result (λ c. app_of c ≡ value_set) }
{
    let command = word(
        alloc,
        "set",
        "Sets properties, or fields of the summary, and commits",
        help_on_properties(),
    );
    let package = needed_path(alloc, "PACKAGE", "The package");
    let name = needed_path(alloc, "NAME", "The name of the property");
    let named = with_two(command, package, name)?;
    let value = needed_path(
        alloc,
        "VALUE",
        "Its value; behind -- it may begin with a hyphen",
    );
    add(named, value)
}

// Further names with their values.
fn more_pairs<'a>(alloc: Global) -> Arg<'a>
    ensures rule { rule_of result ≡ more }
    ensures local { result.global ≡ false }
{
    optional_path(
        alloc,
        "MORE",
        "Further names, each with its value behind it; all are one commit",
    )
    .num_args(1..)
}

// The word that sets properties.
fn with_property_set<'a>(alloc: Global) -> Result<Command<'a>, AllocError>
    ensures { IfOk result (λ c. app_of c ≡ property_set) }
{
    let first = with_value(alloc)?;
    let command = add(first, more_pairs(alloc))?;
    or_summary(alloc, command)
}

// The word that takes one away.
fn with_property_unset<'a>(alloc: Global) -> Result<Command<'a>, AllocError>
    ensures { IfOk result (λ c. app_of c ≡ property_unset) }
{
    let command = word(
        alloc,
        "unset",
        "Takes a property away, or a field of the summary, and commits",
        help_on_properties(),
    );
    let package = needed_path(alloc, "PACKAGE", "The package");
    let name = needed_path(alloc, "NAME", "The name of the property");
    let named = with_two(command, package, name)?;
    or_summary(alloc, named)
}

// What stands behind the help of the words on one stream.
fn help_on_streams<'a>() -> &'a str {
    "Examples: msidb extract setup.msi Binary.dialog dialog.dll\n          msidb put setup.msi Binary.dialog dialog.dll\nBytes of a table's cell stand in the stream TABLE.KEY. `msidb list` tells the names.\nPATH of extract must not be there; the bytes are written to PATH.part, which gets the name at the end. put commits once, or changes nothing.\nStatus: 0 done, 1 there is no such stream, or a rule refused it, 3 a fault, or files that were refused."
}

// A word that moves a stream.
fn with_moved<'a>(
    alloc: Global,
    command: Command<'a>,
    file: Arg<'a>,
    to: Arg<'a>,
) -> Result<Command<'a>, AllocError>
    requires first { file.global ≡ false }
    requires second { to.global ≡ false }
    ensures { IfOk result (λ c. app_of c ≡ with_rule (with_rule (with_rule (with_rule
        (app_of command.entry) (rule_of file.entry)) (path (codes "STREAM")))
        (rule_of to.entry)) log_option) }
{
    let stream = needed_path(alloc, "STREAM", "The name of the stream");
    let named = with_two(command, file, stream)?;
    with_two(named, to, log_behind(alloc))
}

// The word that writes one to a file.
fn with_extract<'a>(alloc: Global) -> Result<Command<'a>, AllocError>
    ensures { IfOk result (λ c. app_of c ≡ stream_moved (codes "extract") (codes "FILE")) }
{
    let command = word(
        alloc,
        "extract",
        "Writes the bytes of a stream to a new file",
        help_on_streams(),
    );
    let file = needed_path(alloc, "FILE", "The package of any maker");
    let to = needed_path(alloc, "PATH", "The file, which must not be there");
    with_moved(alloc, command, file, to)
}

// The word that puts a file into one.
fn with_stored<'a>(alloc: Global) -> Result<Command<'a>, AllocError>
    ensures { IfOk result (λ c. app_of c ≡ stream_moved (codes "put") (codes "PACKAGE")) }
{
    let command = word(
        alloc,
        "put",
        "Puts the bytes of a file into a stream, and commits",
        help_on_streams(),
    );
    let package = needed_path(alloc, "PACKAGE", "The package");
    let from = needed_path(alloc, "PATH", "The file; - is standard input");
    with_moved(alloc, command, package, from)
}

// The word that gives tables the rows of files.
fn with_import<'a>(alloc: Global) -> Result<Command<'a>, AllocError>
    ensures { IfOk result (λ c. app_of c ≡ imported) }
{
    let command = word(
        alloc,
        "import",
        "Gives tables the rows of exported files, and commits",
        "Examples: msidb import setup.msi Property.idt\n          msidb import setup.msi Property.idt File.idt\nPATH is a file of an exported table (.idt), or a folder of such. A table that the package has loses its rows first; one that it lacks is made.\nThe files of bytes lie in a folder beside the file that has the table's name, or in _Streams. All files are read first, and all is one commit.\nStatus: 0 done, 1 a rule refused it, 2 a file is wrong, told with its line and column, 3 a fault, or files that were refused.",
    );
    let package = needed_path(alloc, "PACKAGE", "The package");
    let first = add(command, package)?;
    let from = needed_paths(alloc, "PATH", "The file or the folder, or several");
    with_two(first, from, log_behind(alloc))
}

// What stands behind the help of the word that judges what a package holds.
fn help_on_validate<'a>() -> &'a str {
    "Examples: msidb validate setup.msi --ignore length,empty\n          msidb validate one.msi other.msi\nPrints a line of JSON for each finding: the rule, the table, the key of the row, the column, what stands there and what is wanted. Nothing is written.\nOf several files each finding names its file, and the status is the greatest; a file that can't be read keeps no other from being judged.\nRules: described nullable set range category foreign length key empty stream cabinet unused required product guid refers tree action. What each asks for stands in crates/package_rules/README.md, crates/column_rules/README.md and crates/product_rules/README.md.\nStatus: 0 nothing was found, 1 something was, 2 a rule that isn't one, 3 the file is no package, or can't be read."
}

// The option that names rules.
fn ignore_behind<'a>(alloc: Global) -> Arg<'a>
    ensures rule { rule_of result ≡ ignore_option }
    ensures local { result.global ≡ false }
{
    Arg::new(alloc, "ignore")
        .long("ignore")
        .value_name("RULES")
        .help("Rules that are left out, with commas between them")
}

// The word that judges what a package holds, but for the pages.
fn with_contents_read<'a>(alloc: Global) -> Result<Command<'a>, AllocError>
    ensures { IfOk result (λ c. app_of c ≡ contents_read) }
{
    let command = word(
        alloc,
        "validate",
        "Tells which rules the contents of a package of any maker break",
        help_on_validate(),
    );
    let first = add(command, needed_files(alloc))?;
    with_two(first, log_behind(alloc), ignore_behind(alloc))
}

// The word that judges what a package holds.
fn with_judged_contents<'a>(alloc: Global) -> Result<Command<'a>, AllocError>
    ensures { IfOk result (λ c. app_of c ≡ contents_judged) }
{
    let command = with_contents_read(alloc)?;
    by_pages(alloc, command)
}

// The word that makes a package of a folder.
fn with_build<'a>(alloc: Global) -> Result<Command<'a>, AllocError>
    ensures { IfOk result (λ c. app_of c ≡ built) }
{
    let command = word(
        alloc,
        "build",
        "Makes a new package of an exported folder, and commits it",
        "Example: msidb build setup.msi setup\nFOLDER is one that `msidb export` or `msidump -s -t` wrote: a file for each table (.idt), and _Streams. Code page and summary are those of\n_ForceCodepage.idt and _SummaryInformation.idt. All files are read first. What was made is opened and compared with the files before it is committed.\nStatus: 0 done, 1 no sound package says what the folder does, 2 a file is wrong, told with its line and column, 3 a fault, or there is a package already.",
    );
    let package = needed_path(
        alloc,
        "PACKAGE",
        "The package, which is made and must not be there",
    );
    let folder = needed_path(alloc, "FOLDER", "The folder");
    let both = with_two(command, package, folder)?;
    add(both, log_behind(alloc))
}

// The program's name, without a word, and what stands around its help.
fn program<'a>(alloc: Global) -> Command<'a>
    ensures { app_of result ≡ new_app (codes "msidb") }
{
    word(
        alloc,
        "msidb",
        "Windows Installer databases that survive a crash at any moment",
        STATUSES,
    )
}

fn root<'a>(alloc: Global) -> Result<Command<'a>, AllocError>
    ensures { IfOk result (λ c. app_of c ≡ bare) }
{
    program(alloc)
        .version(VERSION)
        .no_binary_name(true)
        .subcommand_required(true)
        .bin_name("msidb")
}

// Adds a word.
fn with<'a>(command: Command<'a>, part: Command<'a>) -> Result<Command<'a>, AllocError>
    ensures { (app_of part.entry).top.is_plain ≡ true → IfOk result (λ c. app_of c
        ≡ with_subcommand (app_of command.entry) (app_of part.entry).top) }
{
    command.subcommand(part)
}

// The words that make a package and that finish its commits.
fn on_files<'a>(alloc: Global) -> Result<Command<'a>, AllocError>
    ensures { IfOk result (λ c. app_of c ≡ without_run) }
{
    let bare = root(alloc)?;
    let create = with_paths(
        alloc,
        "create",
        "Makes a new package and commits it",
        "Example: msidb create setup.msi\nMakes the package, and by its commit the log setup.msi.log. Where the package is there already it is left, with status 3; so is a file that is named as the log and is none.",
    )?;
    let first = with(bare, create)?;
    let recover = with_paths(
        alloc,
        "recover",
        "Finishes a commit that a crash cut short",
        "Example: msidb recover setup.msi\nPrints `closed` where there was nothing to do, else `applied` and how many pages were written.",
    )?;
    with(first, recover)
}

// And those that run commands and list names.
fn on_packages<'a>(alloc: Global) -> Result<Command<'a>, AllocError>
    ensures { IfOk result (λ c. app_of c ≡ with_log) }
{
    let bare = on_files(alloc)?;
    let run = with_run(alloc)?;
    let first = with(bare, run)?;
    let list = with_paths(
        alloc,
        "list",
        "Lists the tables and the streams",
        "Example: msidb list setup.msi\nPrints the names of the tables, and those of the streams that hold no tables, a JSON list on a line each. Nothing is written.",
    )?;
    with(first, list)
}

// And those on a package that is only read.
fn on_looks<'a>(alloc: Global) -> Result<Command<'a>, AllocError>
    ensures { IfOk result (λ c. app_of c ≡ with_looks) }
{
    let bare = on_packages(alloc)?;
    let show = with_file(alloc)?;
    let first = with(bare, show)?;
    let check = with_judged(alloc)?;
    with(first, check)
}

// And the one that writes a package to files.
fn on_exports<'a>(alloc: Global) -> Result<Command<'a>, AllocError>
    ensures { IfOk result (λ c. app_of c ≡ with_files) }
{
    let export = with_folder(alloc)?;
    let bare = on_looks(alloc)?;
    with(bare, export)
}

// And the one that adopts.
fn on_adoptions<'a>(alloc: Global) -> Result<Command<'a>, AllocError>
    ensures { IfOk result (λ c. app_of c ≡ with_adopt) }
{
    let adopt = with_adoption(alloc)?;
    let bare = on_exports(alloc)?;
    with(bare, adopt)
}

// And those on a property that is told or set.
fn on_properties<'a>(alloc: Global) -> Result<Command<'a>, AllocError>
    ensures { IfOk result (λ c. app_of c ≡ with_get) }
{
    let bare = on_adoptions(alloc)?;
    let get = with_property_got(alloc)?;
    let first = with(bare, get)?;
    let set = with_property_set(alloc)?;
    with(first, set)
}

// And those that take one away, and that extract a stream.
fn on_streams<'a>(alloc: Global) -> Result<Command<'a>, AllocError>
    ensures { IfOk result (λ c. app_of c ≡ with_unset) }
{
    let bare = on_properties(alloc)?;
    let unset = with_property_unset(alloc)?;
    let first = with(bare, unset)?;
    let extract = with_extract(alloc)?;
    with(first, extract)
}

// And the one that puts a file into a stream.
fn on_puts<'a>(alloc: Global) -> Result<Command<'a>, AllocError>
    ensures { IfOk result (λ c. app_of c ≡ with_put) }
{
    let put = with_stored(alloc)?;
    let bare = on_streams(alloc)?;
    with(bare, put)
}

// And the one that gives tables the rows of files.
fn on_imports<'a>(alloc: Global) -> Result<Command<'a>, AllocError>
    ensures { IfOk result (λ c. app_of c ≡ with_imports) }
{
    let import = with_import(alloc)?;
    let bare = on_puts(alloc)?;
    with(bare, import)
}

// And the one that judges what a package holds.
fn on_contents<'a>(alloc: Global) -> Result<Command<'a>, AllocError>
    ensures { IfOk result (λ c. app_of c ≡ with_contents) }
{
    let validate = with_judged_contents(alloc)?;
    let bare = on_imports(alloc)?;
    with(bare, validate)
}

// The program's words.
fn definition<'a>(alloc: Global) -> Result<Command<'a>, AllocError>
    ensures { IfOk result (λ c. app_of c ≡ msidb) }
{
    let build = with_build(alloc)?;
    let bare = on_contents(alloc)?;
    with(bare, build)
}

// What was found among the words.
pub fn matches<'a>(alloc: Global, words: &'a [String]) -> Result<ArgMatches<'a>, Error>
    ensures ok { IfOk result (HasMatchesOf msidb (map string_bytes words.entry.now)) }
    ensures after_error { IfErr result (λ e. takes msidb (map string_bytes words.entry.now) ≡ true
        → kind_of e ≡ ErrorKind.OutOfMemory) }
{
    definition(alloc)?.try_get_matches_from(words)
}
