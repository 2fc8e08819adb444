//! Commands that only read.
ghost use Rattle.command_file.specs.Request as asked;
ghost use Rattle.installer.specs.RepliesOf.{reply_of};
ghost use Rattle.msi_query.specs.Said.{query_of};
ghost use Rattle.std.specs.Prelude.{◌≡◌, false};

use crate::Answer;
use crate::session::SessionOver;
use cfb_medium::{Error, Medium};
use msi_copies::{
    copies_of, copies_of_properties, names_of_streams, names_of_tables, values_of_rows,
};
use msi_query::Select;

impl<F: Medium> SessionOver<F> {
    ghost use Rattle.installer.specs.CommandRuns.{RunsWithoutPublishing};
    ghost use Rattle.installer.specs.Sessions.{is_failed};

    pub(crate) fn select(&mut self, select: &Select) -> Answer
        requires { is_failed self.old ≡ false }
        ensures { RunsWithoutPublishing (asked.select (query_of select.now))
            (reply_of result) self.old
            self.new }
    {
        let rows = match self.package.select_rows(select) {
            Ok(rows) => rows,
            Err(error) => return Answer::Refused(error),
        };
        match values_of_rows(self.alloc, rows) {
            Ok((names, rows)) => Answer::Rows(names, rows),
            Err(error) => Answer::Refused(error),
        }
    }

    pub(crate) fn tables(&mut self) -> Answer
        requires { is_failed self.old ≡ false }
        ensures { RunsWithoutPublishing asked.tables (reply_of result) self.old self.new }
    {
        let tables = match self.package.tables() {
            Ok(tables) => tables,
            Err(error) => return Answer::Refused(error),
        };
        match names_of_tables(self.alloc, tables) {
            Ok(names) => Answer::Names(names),
            Err(error) => Answer::Refused(error),
        }
    }

    pub(crate) fn columns(&mut self, name: &str) -> Answer
        requires { is_failed self.old ≡ false }
        ensures { RunsWithoutPublishing (asked.columns name.now)
            (reply_of result) self.old self.new }
    {
        let copies = match self.package.get_table(name) {
            Some(table) => copies_of(self.alloc, table.columns()),
            None => return Answer::Refused(Error::NotFound),
        };
        match copies {
            Ok(columns) => Answer::Columns(columns),
            Err(error) => Answer::Refused(error),
        }
    }

    pub(crate) fn streams(&mut self) -> Answer
        requires { is_failed self.old ≡ false }
        ensures { RunsWithoutPublishing asked.streams (reply_of result) self.old self.new }
    {
        let streams = match self.package.streams() {
            Ok(streams) => streams,
            Err(error) => return Answer::Refused(error),
        };
        match names_of_streams(self.alloc, streams) {
            Ok(names) => Answer::Names(names),
            Err(error) => Answer::Refused(error),
        }
    }

    pub(crate) fn read_stream(&mut self, name: &str) -> Answer
        requires { is_failed self.old ≡ false }
        ensures { RunsWithoutPublishing (asked.read_stream name.now)
            (reply_of result) self.old self.new }
    {
        match self.package.read_stream(name) {
            Ok(stream) => Answer::Bytes(stream.into_bytes()),
            Err(error) => Answer::Refused(error),
        }
    }

    pub(crate) fn has_signature(&mut self) -> Answer
        requires { is_failed self.old ≡ false }
        ensures { RunsWithoutPublishing asked.has_signature (reply_of result) self.old self.new }
    {
        Answer::Yes(self.package.has_digital_signature())
    }

    pub(crate) fn summary(&mut self) -> Answer
        requires { is_failed self.old ≡ false }
        ensures { RunsWithoutPublishing asked.summary (reply_of result) self.old self.new }
    {
        match copies_of_properties(self.alloc, self.package.summary_info().properties()) {
            Ok(properties) => Answer::Summary(properties),
            Err(error) => Answer::Refused(error),
        }
    }

    pub(crate) fn codepage(&mut self) -> Answer
        requires { is_failed self.old ≡ false }
        ensures { RunsWithoutPublishing asked.codepage (reply_of result) self.old self.new }
    {
        Answer::Codepage(self.package.database_codepage())
    }
}
