//! The run of commands on a package, and what is answered.
ghost use Rattle.command_file.specs.RequestsOf.{request_of};
ghost use Rattle.command_line.specs.Runs.{EndsAs, HasRun};
ghost use Rattle.installer.specs.Reply.{Reply};
ghost use Rattle.installer.specs.RepliesOf.{reply_of};
ghost use Rattle.installer_runs.specs.Tallies.{HasHeard};
ghost use Rattle.installer_runs.specs.declared.running.Ending.TheVariants as session;
ghost use Rattle.std.specs.Prelude.{◌≡◌, ◌⊎◌, ◌++◌, [], IfOk, List, map};

use crate::failures::failure_of;
use crate::files;
use crate::progress::Progress;
use crate::reasons::{Before, known_before, tell_reason};
use crate::sessions::run_commands;
use crate::unfit::{Kept, KnownPages};
use cfb_medium::Error;
use command_reasons::KnownTables;
use installer::{Answer, Command, answer_text};
use installer_runs::{Ending as Ended, Listener, Tally, Until, is_fault};
use package_checks::{tell_twice, tell_unsound};
use package_files::{Failure, Faults, Found, Names, Trouble, cut_log, look_at_log};
use package_reading::{is_signed_at, is_sound_at, why_refused};
use serde_json::Value as Json;
use std::alloc::{AllocError, Global};
use std::fs::File;
use std::io::Write;
use std::rt::Files;
use std::time::Clock;

/// How a run ended that met no fault.
#[derive(Clone, Copy, Debug)]
pub(crate) enum Ending {
    /// All was done.
    Done,
    /// A command was refused by a rule: the first so, and how many stand before it.
    Refused(Error, usize),
}

/// How commands are run.
#[derive(Clone, Copy, Debug)]
pub(crate) struct Manner {
    /// Where the run ends.
    pub until: Until,
    /// Whether no notes are told.
    pub is_quiet: bool,
    /// Whether the commands are the program's own, made of one word: then none of them is spoken of.
    pub is_own: bool,
    /// Whether the last command is a commit of the program's own, behind those of a file.
    pub commits_at_end: bool,
}

impl Manner {
    /// How many of the commands are spoken of.
    pub(crate) fn count_of(self, commands: &[Command]) -> usize {
        if self.commits_at_end {
            commands.len().saturating_sub(1)
        } else {
            commands.len()
        }
    }
}

/// Runs commands on the package of two files, prints their answers, and shows how far it has come. The log is made by the first commit.
/// One into which this run wrote is cut to a byte at its end. That all is done is told only where a session answered each command, and
/// refused none.
pub(crate) fn run<R: Files<File = File> + AllocGlobal + Clock, O: Write, E: Write>(
    rt: &R,
    names: &Names,
    commands: &[Command],
    manner: Manner,
    out: &mut O,
    progress: &mut Progress<'_, R, E>,
) -> Result<Ending, Failure>
    ensures { IfOk result (HasRun (map request_of commands.now)) }
{
    let found = files::look_to_commit(rt, names)?;
    let mut before = before_run(rt, names, manner);
    let faults = Faults::new();
    let device = files::open(rt, names, &faults)?;
    let mut answers = Answers::new(
        rt.alloc(),
        names.named(),
        commands,
        manner,
        &mut before,
        out,
        progress,
    );
    let ended = match run_commands(rt.alloc(), device, commands, manner.until, &mut answers) {
        Ok(Ended::Unopened(error)) => return Err(why_no_session(rt, names, error)),
        Ok(ended) => ended,
        Err(_) => return Err(Failure::Memory),
    };
    if found == Found::Open || has_commit(commands) {
        cut_log(rt, names);
    }
    let (ending, heard, done) = (answers.ending(ended), answers.heard, answers.done);
    if ended == Ended::Stopped && !manner.is_own {
        tell_stopped(names, done, manner.count_of(commands), progress.err());
    }
    if !manner.is_quiet {
        tell_notes(rt, names, heard, manner, progress.err());
    }
    match ending {
        Ok(ending) => Ok(ending),
        Err(failure) => Err(files::why_fault(rt, names, &faults, failure)),
    }
}

// What reasons are found from; nothing where none is told.
fn before_run<R: Files<File = File> + AllocGlobal>(
    rt: &R,
    names: &Names,
    manner: Manner,
) -> Before {
    if manner.is_quiet {
        return Before::nothing();
    }
    known_before(rt, names, !manner.is_own)
}

// Tells that no command was run behind one that was refused.
fn tell_stopped<E: Write>(names: &Names, done: usize, total: usize, err: &mut E) {
    let named = names.named();
    if done > total {
        let _ = writeln!(
            err,
            "msidb: {named}: nothing is committed: the commit at the end was refused"
        );
        return;
    }
    let _ = writeln!(
        err,
        "msidb: {named}: stopped behind command {done} of {total}, which was refused"
    );
}

// Whether one of the commands commits.
fn has_commit(commands: &[Command]) -> bool {
    commands
        .iter()
        .any(|command| matches!(command, Command::Commit))
}

/// Why no session was opened on two files: a refusal by rule is one of the log, whose commit then stays open, or of the package.
pub(crate) fn why_no_session<R: Files<File = File> + AllocGlobal>(
    rt: &R,
    names: &Names,
    error: Error,
) -> Failure {
    match error {
        Error::Memory | Error::Device | Error::Failed | Error::Full => failure_of(error),
        _ => match look_at_log(rt, names) {
            Ok(Found::Open) => Failure::Log(Trouble::UnfitCommit),
            _ => Failure::Package(why_refused(rt, names)),
        },
    }
}

// What was heard of a run that a person may want to know.
#[derive(Clone, Copy, Debug, Default)]
struct Heard {
    // How many changes were made behind the last commit, or the last way back.
    changes: usize,
    // A change was committed.
    has_committed: bool,
    // A change was refused as `InvalidData`, as each of a package that isn't sound.
    has_invalid: bool,
    // A table wasn't made or dropped since there is no `_Validation`.
    lacks_validation: bool,
    // The changes weren't committed, since the commit was refused.
    is_commit_refused: bool,
}

impl Heard {
    // Notes the answer of a command.
    fn note(&mut self, command: &Command, answer: &Answer) {
        match (command, answer) {
            (Command::Commit, Answer::Done) => {
                self.has_committed = self.has_committed || self.changes > 0;
                self.go_on();
            }
            (Command::Commit, Answer::Refused(_)) => self.is_commit_refused = true,
            (Command::RollBack, Answer::Done) => self.go_on(),
            (Command::CreateTable(_, _), Answer::Refused(Error::NotFound)) => {
                self.lacks_validation = true;
            }
            (command, Answer::Done) if is_change(command) => {
                self.changes = self.changes.saturating_add(1);
            }
            (command, Answer::Refused(Error::InvalidData)) if is_change(command) => {
                self.has_invalid = true;
            }
            _ => {}
        }
    }

    // No change stands behind the last commit.
    fn go_on(&mut self) {
        self.changes = 0;
        self.is_commit_refused = false;
    }
}

// Whether a command changes a package.
fn is_change(command: &Command) -> bool {
    matches!(
        command,
        Command::CreateTable(_, _)
            | Command::DropTable(_)
            | Command::Insert(_)
            | Command::Update(_)
            | Command::Delete(_)
            | Command::WriteStream(_, _)
            | Command::RemoveStream(_)
            | Command::RemoveSignature
            | Command::SetSummary(_)
            | Command::SetCodepage(_)
    )
}

// Tells what the answers don't.
fn tell_notes<R: Files<File = File> + AllocGlobal, E: Write>(
    rt: &R,
    names: &Names,
    heard: Heard,
    manner: Manner,
    err: &mut E,
) {
    let named = names.named();
    if heard.has_invalid && matches!(is_sound_at(rt, names), Ok(false)) {
        tell_unsound(rt, names, err);
    }
    if heard.lacks_validation {
        let _ = writeln!(
            err,
            "msidb: {named}: tables are made and dropped only where there is a table _Validation; `msidb adopt --validation` makes a copy that has one"
        );
    }
    if heard.changes > 0 && !manner.is_own {
        tell_gone(named, heard, manner, err);
    }
    if heard.has_committed {
        tell_signature(rt, names, err);
        tell_twice(rt, names, err);
    }
}

// Tells that changes weren't committed.
fn tell_gone<E: Write>(named: &str, heard: Heard, manner: Manner, err: &mut E) {
    let count = heard.changes;
    let noun = if count == 1 { "change" } else { "changes" };
    let verb = if count == 1 { "is" } else { "are" };
    let _ = if manner.commits_at_end {
        writeln!(
            err,
            "msidb: {named}: {count} {noun} {verb} gone: with --all-or-nothing none is kept where a command is refused"
        )
    } else if heard.is_commit_refused {
        writeln!(
            err,
            "msidb: {named}: {count} {noun} behind the last commit that was done {verb} gone"
        )
    } else {
        writeln!(
            err,
            "msidb: {named}: {count} {noun} behind the last commit {verb} gone; the command `{{\"op\":\"commit\"}}` keeps what was done before it"
        )
    };
}

/// Tells of a package that was changed that it has a signature.
pub(crate) fn tell_signature<R: Files<File = File> + AllocGlobal, E: Write>(
    rt: &R,
    names: &Names,
    err: &mut E,
) {
    if is_signed_at(rt, names) {
        let named = names.named();
        let _ = writeln!(
            err,
            "msidb: {named}: its digital signature no longer fits; `{{\"op\":\"remove_signature\"}}` takes it away"
        );
    }
}

// Where answers are printed, and what was met among them.
#[derive(Drop)]
struct Answers<'a, 'b, O, R, E> {
    alloc: Global,
    named: &'a str,
    commands: &'a [Command],
    manner: Manner,
    // The tables that are there, and their code pages; none where no reason is told.
    known: &'a mut Option<KnownTables>,
    pages: Option<KnownPages>,
    done: usize,
    heard: Heard,
    out: &'a mut O,
    progress: &'a mut Progress<'b, R, E>,
    // The first refusal, and the first fault.
    tally: Tally,
    // How many answers stand before the first refusal by a rule.
    before_refusal: Option<usize>,
    // Why an answer couldn't be printed: then none is printed any more.
    unprinted: Option<Failure>,
}

impl<'a, 'b, O: Write, R: Clock, E: Write> Listener for Answers<'a, 'b, O, R, E> {
    // What was heard is known. No clause says what is printed.
    ghost hears = { λ old replies new. (before : List Reply) → HasHeard old.tally before → HasHeard new.tally (before ++ replies) };

    // Prints the answers of a slice.
    fn hear(&mut self, answers: &[Answer]) {
        self.tally.hear(answers);
        for answer in answers {
            self.tell(answer);
        }
        self.progress.step(answers.len());
    }

    // Tells which texts keep a commit back.
    fn keep_back(&mut self, texts: &[String]) {
        let kept = Kept {
            named: self.named,
            pages: self.pages,
            before: self.commands_before(),
            number: self.number_of_commit(),
            is_own: self.manner.is_own,
        };
        kept.tell(texts, self.progress.err());
    }
}

// A text as JSON has it.
pub(crate) fn quoted(alloc: Global, text: &str) -> Result<String, AllocError> {
    Json::String(String::from_str(alloc, text)?).to_string(alloc)
}

impl<'a, 'b, O: Write, R: Clock, E: Write> Answers<'a, 'b, O, R, E> {
    fn new(
        alloc: Global,
        named: &'a str,
        commands: &'a [Command],
        manner: Manner,
        before: &'a mut Before,
        out: &'a mut O,
        progress: &'a mut Progress<'b, R, E>,
    ) -> Self
        ensures { HasHeard result.tally [] }
    {
        Answers {
            alloc,
            named,
            commands,
            manner,
            pages: before.pages,
            known: &mut before.tables,
            done: 0,
            heard: Heard::default(),
            out,
            progress,
            tally: Tally::new(),
            before_refusal: None,
            unprinted: None,
        }
    }

    // Tells an answer, and why a rule refused its command.
    fn tell(&mut self, answer: &Answer)
        ensures { self.new.tally ≡ self.old.tally }
    {
        if let Some(command) = self.commands.get(self.done) {
            self.heard.note(command, answer);
            self.note_pages(command, answer);
            self.note_undropped(command, answer);
            self.explain(command, answer);
        }
        if self.before_refusal.is_none() && is_by_rule(answer) {
            self.before_refusal = Some(self.done);
        }
        self.done = self.done.saturating_add(1);
        self.print(answer);
    }

    // The commands that were answered.
    fn commands_before(&self) -> &'a [Command] {
        match self.commands.get(..self.done) {
            Some(commands) => commands,
            None => &[],
        }
    }

    // The number of the next command, where a file has it.
    fn number_of_commit(&self) -> Option<usize> {
        let number = self.done.saturating_add(1);
        if self.manner.is_own || number > self.manner.count_of(self.commands) {
            return None;
        }
        Some(number)
    }

    // Takes in what a command has made of the code pages.
    fn note_pages(&mut self, command: &Command, answer: &Answer)
        ensures { self.new.tally ≡ self.old.tally }
    {
        if !matches!(answer, Answer::Done) {
            return;
        }
        if let Some(pages) = &mut self.pages {
            pages.follow(command);
        }
    }

    // Takes in that a table wasn't dropped since there is no `_Validation`.
    fn note_undropped(&mut self, command: &Command, answer: &Answer)
        ensures { self.new.tally ≡ self.old.tally }
    {
        let Some(known) = &*self.known else {
            return;
        };
        match (command, answer) {
            (Command::DropTable(name), Answer::Refused(Error::NotFound))
                if known.columns(name).is_some() && !known.has_validation() => {
                self.heard.lacks_validation = true;
            }
            _ => {}
        }
    }

    // Tells why a rule refused a command, or takes in what it has made of the tables.
    fn explain(&mut self, command: &Command, answer: &Answer)
        ensures { self.new.tally ≡ self.old.tally }
    {
        let Some(known) = &mut *self.known else {
            return;
        };
        match answer {
            Answer::Refused(error) if !is_fault(*error) => {
                let number = self.done.saturating_add(1);
                let err = self.progress.err();
                tell_reason(self.alloc, self.named, number, known, command, *error, err);
            }
            Answer::Done => {
                if known.follow(command).is_err() {
                    *self.known = None;
                }
            }
            _ => {}
        }
    }

    // Prints an answer, unless an earlier one couldn't be printed.
    fn print(&mut self, answer: &Answer)
        ensures { self.new.tally ≡ self.old.tally }
    {
        if self.unprinted.is_none() {
            self.unprinted = print_line(self.alloc, self.out, answer).err();
        }
    }

    // How a run ended: a fault comes before answers that couldn't be printed, and these before a refusal.
    fn ending(&self, ended: Ended) -> Result<Ending, Failure>
        ensures heard { (replies : List Reply) → HasHeard self.now.tally replies
            → IfOk result (λ ending. EndsAs ending replies) }
        ensures whole { IfOk result (λ ending.
            (ended ≡ session.Whole) ⊎ (ended ≡ session.Stopped)) }
    {
        if let Some(error) = self.tally.fault() {
            return Err(failure_of(error));
        }
        match ended {
            Ended::Whole | Ended::Stopped => {}
            Ended::Unopened(_) | Ended::Cut => return Err(Failure::Memory),
        }
        if let Some(failure) = self.unprinted {
            return Err(failure);
        }
        match self.tally.refusal() {
            Some(error) => Ok(Ending::Refused(error, self.before_refusal.unwrap_or(0))),
            None => Ok(Ending::Done),
        }
    }
}

// Whether a rule refused a command.
fn is_by_rule(answer: &Answer) -> bool {
    matches!(answer, Answer::Refused(error) if !is_fault(*error))
}

/// Prints an answer on a line of its own.
pub(crate) fn print_line<O: Write>(
    alloc: Global,
    out: &mut O,
    answer: &Answer,
) -> Result<(), Failure> {
    let text = text_of(alloc, answer)?;
    match writeln!(out, "{text}") {
        Ok(()) => Ok(()),
        Err(error) => Err(Failure::Output(error.kind())),
    }
}

// A function of its own, since what is told of the call costs time wherever it is seen.
fn text_of(alloc: Global, answer: &Answer) -> Result<String, Failure> {
    match answer_text(alloc, answer) {
        Ok(text) => Ok(text),
        Err(_) => Err(Failure::Memory),
    }
}
