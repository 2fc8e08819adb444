//! What a command is called when it is spoken of.
use command_file::Command;
use std::fmt;

/// A command, as it is told: what it does, and to which table or stream.
#[derive(Clone, Copy, Drop)]
pub struct Spoken<'a> {
    /// The command.
    pub command: &'a Command,
}

impl<'a> fmt::Display for Spoken<'a> {
    fn fmt<W: fmt::Write>(&self, f: &mut fmt::Formatter<W>) -> fmt::Result {
        if let Some((words, name)) = stream_of(self.command) {
            return write!(f, "{words}{name:?}");
        }
        let (words, name) = words_of(self.command);
        f.write_str(words)?;
        f.write_str(name)
    }
}

// The same of a command on a stream.
fn stream_of(command: &Command) -> Option<(&'static str, &str)> {
    match command {
        Command::ReadStream(name) => Some(("read_stream ", name.as_str())),
        Command::WriteStream(name, _) => Some(("write_stream ", name.as_str())),
        Command::RemoveStream(name) => Some(("remove_stream ", name.as_str())),
        _ => None,
    }
}

// What it does, and the name behind that.
fn words_of(command: &Command) -> (&'static str, &str) {
    match command {
        Command::CreateTable(name, _) => ("create_table ", name.as_str()),
        Command::DropTable(name) => ("drop_table ", name.as_str()),
        Command::Insert(insert) => ("insert into ", insert.table_name()),
        Command::Update(update) => ("update ", update.table_name()),
        Command::Delete(delete) => ("delete from ", delete.table_name()),
        Command::Select(select) => match select.table_name() {
            Some(name) => ("select from ", name),
            None => ("select", ""),
        },
        Command::Columns(name) => ("columns of ", name.as_str()),
        _ => (op_of(command), ""),
    }
}

// The op of a command that names nothing.
fn op_of(command: &Command) -> &'static str {
    match command {
        Command::Tables => "tables",
        Command::Streams => "streams",
        Command::HasSignature => "has_signature",
        Command::RemoveSignature => "remove_signature",
        Command::Summary => "summary",
        Command::SetSummary(_) => "set_summary",
        Command::Codepage => "codepage",
        Command::SetCodepage(_) => "set_codepage",
        Command::Flush => "flush",
        Command::Commit => "commit",
        Command::RollBack => "roll_back",
        _ => "command",
    }
}
