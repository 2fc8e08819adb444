//! Commands that change the package, or write what was changed.
ghost use Rattle.command_file.specs.Request as asked;
ghost use Rattle.command_file.specs.RequestsOf.{edit_said};
ghost use Rattle.installer.specs.RepliesOf.{reply_of};
ghost use Rattle.installer.specs.Step.{told_of};
ghost use Rattle.msi_changes.specs.Said.{delete_condition, delete_name, insert_name, insert_rows, update_condition, update_name, update_sets};
ghost use Rattle.msi_columns.specs.Held.{columns_of};
ghost use Rattle.std.specs.Prelude.{◌≡◌, false, OnOk};

use crate::Answer;
use crate::edits::apply_edit;
use crate::session::SessionOver;
use cfb_medium::{Error, Medium};
use command_file::SummaryEdit;
use msi_changes::{Delete, Insert, Update};
use msi_columns::Column;
use msi_copies::copies_of;
use msi_texts::CodePage;

// The answer of a command that gives nothing but that it was done.
pub(crate) fn answer_of(outcome: Result<(), Error>) -> Answer
    ensures { reply_of result ≡ told_of outcome }
{
    match outcome {
        Ok(()) => Answer::Done,
        Err(error) => Answer::Refused(error),
    }
}

impl<F: Medium> SessionOver<F> {
    ghost use Rattle.installer.specs.CommandRuns.{RunsWithoutPublishing};
    ghost use Rattle.installer.specs.Sessions.{is_failed};

    pub(crate) fn create_table(&mut self, name: &str, columns: &[Column]) -> Answer
        requires { is_failed self.old ≡ false }
        ensures { RunsWithoutPublishing (asked.create_table name.now (columns_of columns.now))
            (reply_of result) self.old self.new }
    {
        if !self.is_sound() {
            return Answer::Refused(Error::InvalidData);
        }
        match copies_of(self.alloc, columns) {
            Ok(columns) => answer_of(self.package.create_table(name, columns)),
            Err(error) => Answer::Refused(error),
        }
    }

    pub(crate) fn drop_table(&mut self, name: &str) -> Answer
        requires { is_failed self.old ≡ false }
        ensures { RunsWithoutPublishing (asked.drop_table name.now)
            (reply_of result) self.old self.new }
    {
        answer_of(self.package.drop_table(name))
    }

    pub(crate) fn insert(&mut self, insert: &Insert) -> Answer
        requires { is_failed self.old ≡ false }
        ensures { RunsWithoutPublishing
            (asked.insert (insert_name insert.now) (insert_rows insert.now))
            (reply_of result) self.old self.new }
    {
        answer_of(self.package.insert_rows(insert))
    }

    // The same as its outcome.
    pub(crate) fn insert_joined(&mut self, insert: &Insert) -> Result<(), Error>
        requires { is_failed self.old ≡ false }
        ensures { RunsWithoutPublishing
            (asked.insert (insert_name insert.now) (insert_rows insert.now))
            (told_of result) self.old self.new }
    {
        self.package.insert_rows(insert)
    }

    pub(crate) fn update(&mut self, update: &Update) -> Answer
        requires { is_failed self.old ≡ false }
        ensures { RunsWithoutPublishing
            (asked.update (update_name update.now) (update_sets update.now)
            (update_condition update.now)) (reply_of result) self.old self.new }
    {
        answer_of(self.package.update_rows(update))
    }

    pub(crate) fn delete(&mut self, delete: &Delete) -> Answer
        requires { is_failed self.old ≡ false }
        ensures { RunsWithoutPublishing (asked.delete (delete_name delete.now)
            (delete_condition delete.now)) (reply_of result) self.old self.new }
    {
        answer_of(self.package.delete_rows(delete))
    }

    pub(crate) fn write_stream(&mut self, name: &str, bytes: &[u8]) -> Answer
        requires { is_failed self.old ≡ false }
        ensures { RunsWithoutPublishing (asked.write_stream name.now bytes.now)
            (reply_of result) self.old
            self.new }
    {
        answer_of(self.package.put_stream(name, bytes))
    }

    pub(crate) fn remove_stream(&mut self, name: &str) -> Answer
        requires { is_failed self.old ≡ false }
        ensures { RunsWithoutPublishing (asked.remove_stream name.now)
            (reply_of result) self.old self.new }
    {
        answer_of(self.package.remove_stream(name))
    }

    pub(crate) fn remove_signature(&mut self) -> Answer
        requires { is_failed self.old ≡ false }
        ensures { RunsWithoutPublishing asked.remove_signature (reply_of result) self.old self.new }
    {
        answer_of(self.package.remove_digital_signature())
    }

    pub(crate) fn set_codepage(&mut self, page: CodePage) -> Answer
        requires { is_failed self.old ≡ false }
        ensures { RunsWithoutPublishing (asked.set_codepage page)
            (reply_of result) self.old self.new }
    {
        answer_of(self.package.set_database_codepage(page))
    }

    pub(crate) fn set_summary(&mut self, change: &SummaryEdit) -> Answer
        requires { is_failed self.old ≡ false }
        ensures { RunsWithoutPublishing (asked.set_summary (edit_said change.now)) (reply_of result)
            self.old self.new }
    {
        match self.package.summary_info_mut() {
            Ok(summary) => answer_of(apply_edit(summary, change)),
            Err(error) => Answer::Refused(error),
        }
    }

    pub(crate) fn flush(&mut self) -> Answer
        requires { is_failed self.old ≡ false }
        ensures { RunsWithoutPublishing asked.flush (reply_of result) self.old self.new }
    {
        answer_of(self.write_out())
    }

    // The same as its outcome.
    pub(crate) fn write_out(&mut self) -> Result<(), Error>
        requires { is_failed self.old ≡ false }
        ensures quiet { RunsWithoutPublishing asked.flush (told_of result) self.old self.new }
        ensures not_failed { OnOk result (is_failed self.new ≡ false) }
    {
        self.package.flush()
    }
}
