//! Commands in order, of which inserts into one table that follow one another are carried out as one.
ghost use Rattle.command_file.specs.Request as asked;
ghost use Rattle.command_file.specs.RequestsOf.{request_of};
ghost use Rattle.installer.specs.CommandRuns.{AreAnswered, FollowAll, ResumesFrom};
ghost use Rattle.installer.specs.Groups.{all_done, inserts_of};
ghost use Rattle.installer.specs.Reply as told;
ghost use Rattle.installer.specs.RepliesOf.{reply_of};
ghost use Rattle.installer.specs.FirstRefusal.{AnswersToRefusal};
ghost use Rattle.msi_changes.specs.Said.{insert_name, insert_rows};
ghost use Rattle.msi_joined.specs.Joined.{joined_rows};
ghost use Rattle.msi_values.specs.Datum.{Datum};
ghost use Rattle.std.specs.Prelude.{◌≡◌, ◌<◌, ◌≤◌, ◌+◌, ◌++◌, ◌∷◌, [], false, length, map, take, vec_capacity, vec_len, List, IfErr, IfOk, IfSome, MatchBool};

use crate::Answer;
use crate::session::SessionOver;
use cfb_medium::Error;
use command_file::Command;
use msi_changes::Insert;
use msi_joined::joined_with;
use staged::{Device, Staged};
use std::alloc::Global;

// The insert of the command's rows behind those of this one. None where the command is no insert into the same table, or where there is
// no memory.
fn with_rows_of(alloc: Global, insert: Insert, command: &Command) -> Option<Insert>
    ensures { IfSome result (λ all. (rows : List (List Datum))
        × (request_of command.now ≡ asked.insert (insert_name insert) rows)
        × (insert_name all ≡ insert_name insert)
        × (insert_rows all ≡ insert_rows insert ++ rows)) }
{
    match command {
        Command::Insert(other) => {
            if other.table_name() != insert.table_name() {
                return None;
            }
            match joined_with(alloc, insert, other) {
                Ok(all) => Some(all),
                Err(_) => None,
            }
        }
        _ => None,
    }
}

// The commands as one insert into the table of this name. None where one is no insert into it, or where there is no memory.
fn joined_insert(alloc: Global, name: &str, commands: &[Command]) -> Option<Insert>
    ensures { IfSome result (λ insert. (groups : List (List (List Datum)))
        × (map request_of commands.now ≡ inserts_of (insert_name insert) groups)
        × (insert_rows insert ≡ joined_rows groups)) }
{
    let mut all = match Insert::into(alloc, name) {
        Ok(insert) => insert,
        Err(_) => return None,
    };
    for command in commands {
        all = match with_rows_of(alloc, all, command) {
            Some(more) => more,
            None => return None,
        };
    }
    Some(all)
}

// Whether both are inserts into one table.
fn are_alike(one: &Command, other: &Command) -> bool {
    match one {
        Command::Insert(one) => match other {
            Command::Insert(other) => one.table_name() == other.table_name(),
            _ => false,
        },
        _ => false,
    }
}

// Where the inserts into one table end that follow one another from before this place on; the place itself where there are none.
fn end_of_run(commands: &[Command], from: usize) -> usize
    requires some { 0 < from }
    requires inside { from ≤ length commands.now }
    ensures behind { from ≤ result }
    ensures inside { result ≤ length commands.now }
{
    let mut end = from;
    while end < commands.len() && are_alike(&commands[end - 1], &commands[end]) {
        end += 1;
    }
    end
}

// Where those begin that go on at this place.
fn start_of_run(commands: &[Command], from: usize) -> usize
    requires inside { from < length commands.now }
    ensures before { result ≤ from }
{
    let mut start = from;
    while start > 0 && are_alike(&commands[start - 1], &commands[start]) {
        start -= 1;
    }
    start
}

// Where two commands or more are cut in two: in the middle; but inserts into one table that follow one another there are left together,
// unless there are no others.
fn cut_of(commands: &[Command]) -> usize
    requires some { 1 < length commands.now }
    ensures some { 0 < result }
    ensures inside { result < length commands.now }
{
    let half = commands.len() / 2;
    let end = end_of_run(commands, half);
    if end < commands.len() {
        return end;
    }
    let start = start_of_run(commands, half);
    if start > 0 { start } else { half }
}

// Adds the answer that it was done for each of the commands.
fn push_done(commands: &[Command], answers: &mut Vec<Answer>)
    requires room { vec_len answers.old + length commands.now ≤ vec_capacity answers.old }
    ensures capacity { vec_capacity answers.new ≡ vec_capacity answers.old }
    ensures len { vec_len answers.new ≡ vec_len answers.old + length commands.now }
    ensures done { map reply_of answers.new.items
        ≡ map reply_of answers.old.items ++ all_done (map request_of commands.now) }
{
    for _ in commands {
        answers.push_reserved(Answer::Done);
    }
}

impl<D: Device> SessionOver<Staged<D>> {
    ghost use Rattle.installer.specs.Sessions.{is_failed, is_sound};

    // Runs commands in order, with an answer for each behind those that are there.
    pub(crate) fn answer_all(&mut self, commands: &[Command], answers: &mut Vec<Answer>)
        requires room { vec_len answers.old + length commands.now ≤ vec_capacity answers.old }
        ensures capacity { vec_capacity answers.new ≡ vec_capacity answers.old }
        ensures len { vec_len answers.new ≡ vec_len answers.old + length commands.now }
        ensures ran { AreAnswered (map request_of commands.now) (map reply_of answers.old.items)
            (map reply_of answers.new.items) self.old self.new }
    {
        if commands.is_empty() {
            return;
        }
        if commands.len() == 1 {
            answers.push_reserved(self.answer(&commands[0]));
            return;
        }
        match self.insert_all(commands) {
            Ok(true) => push_done(commands, answers),
            Ok(false) => {
                let (first, second) = commands.split_at(cut_of(commands));
                self.answer_all(first, answers);
                self.answer_all(second, answers);
            }
            Err(error) => {
                answers.push_reserved(Answer::Refused(error));
                self.answer_all(&commands[1..], answers);
            }
        }
    }

    // Runs commands in order up to the first that is refused, with an answer for each that was run behind those that are there: whether
    // none was refused.
    pub(crate) fn answer_to_refusal(
        &mut self,
        commands: &[Command],
        answers: &mut Vec<Answer>,
    ) -> bool
        requires room { vec_len answers.old + length commands.now ≤ vec_capacity answers.old }
        ensures capacity { vec_capacity answers.new ≡ vec_capacity answers.old }
        ensures len { vec_len answers.new ≤ vec_len answers.old + length commands.now }
        ensures ran { AnswersToRefusal result (map request_of commands.now)
            (map reply_of answers.old.items) (map reply_of answers.new.items) self.old self.new }
    {
        if commands.is_empty() {
            return true;
        }
        if commands.len() == 1 {
            let answer = self.answer(&commands[0]);
            let is_refusal = answer.is_refusal();
            answers.push_reserved(answer);
            return !is_refusal;
        }
        match self.insert_all(commands) {
            Ok(true) => {
                push_done(commands, answers);
                true
            }
            Ok(false) => {
                let (first, second) = commands.split_at(cut_of(commands));
                if !self.answer_to_refusal(first, answers) {
                    return false;
                }
                self.answer_to_refusal(second, answers)
            }
            Err(error) => {
                answers.push_reserved(Answer::Refused(error));
                false
            }
        }
    }

    // Carries the commands out as one insert: whether it was done. Where it wasn't, nothing was changed, and they are as those of which
    // none was tried; so it is where they are no inserts into one table, where the package isn't sound, and where the session has failed
    // before. An error is that by which the session failed, which answers the first of them.
    fn insert_all(&mut self, commands: &[Command]) -> Result<bool, Error>
        requires some { 0 < length commands.now }
        ensures done { IfOk result (λ done. MatchBool done
            (FollowAll (map request_of commands.now)
            (all_done (map request_of commands.now)) self.old self.new)
            (ResumesFrom self.old self.new)) }
        ensures when_failed { IfErr result (λ e. FollowAll (map request_of (take 1 commands.now))
            (told.refused e ∷ []) self.old self.new) }
    {
        if self.has_failed() {
            return Ok(false);
        }
        if !self.is_sound() {
            return Ok(false);
        }
        let name = match commands.first() {
            Some(Command::Insert(first)) => first.table_name(),
            _ => return Ok(false),
        };
        let insert = match joined_insert(self.alloc, name, commands) {
            Some(insert) => insert,
            None => return Ok(false),
        };
        match self.insert_joined(&insert) {
            Ok(()) => Ok(true),
            Err(error) => {
                if self.has_failed() {
                    Err(error)
                } else {
                    Ok(false)
                }
            }
        }
    }
}
