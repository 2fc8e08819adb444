//! Commands on rows as they are printed, and which columns an expression names.
use cfb_medium::Error;
use command_file::{Command, read_commands};
use msi_expr::Expr;
use std::alloc::Global;
use test_support::{Row, Subject, shown, with_parts};

/// Prints a row that is a command file of one command, and answers a call on an expression.
#[derive(Drop)]
pub struct Commands;

impl Subject for Commands {
    fn answer(&mut self, alloc: Global, row: &Row) -> Result<String, Error> {
        match row.call() {
            "" => commands_read(alloc, row.json(alloc)?.as_str()),
            "column names" => column_names(alloc),
            _ => Err(Error::NotFound),
        }
    }
}

fn commands_read(alloc: Global, text: &str) -> Result<String, Error> {
    let commands = read_commands(alloc, text)?;
    match commands.as_slice() {
        [command] => command_text(alloc, command),
        _ => Err(Error::InvalidInput),
    }
}

fn command_text(alloc: Global, command: &Command) -> Result<String, Error> {
    match command {
        Command::Insert(insert) => shown(alloc, insert),
        Command::Update(update) => shown(alloc, update),
        Command::Delete(delete) => shown(alloc, delete),
        Command::Select(select) => shown(alloc, select),
        _ => Err(Error::NotFound),
    }
}

// The columns that an expression names: the tenth part of Foo is at most Bar, or Baz is at least Foo.
fn column_names(alloc: Global) -> Result<String, Error> {
    let first = tenth_is_at_most(alloc)?;
    let second = Expr::col(alloc, "Baz")?.ge(alloc, Expr::col(alloc, "Foo")?)?;
    let either = first.or(alloc, second)?;
    with_parts(alloc, &either.column_names(alloc)?)
}

fn tenth_is_at_most(alloc: Global) -> Result<Expr, Error> {
    let tenth = Expr::col(alloc, "Foo")?.div(alloc, Expr::integer(10))?;
    tenth.le(alloc, Expr::col(alloc, "Bar")?)
}
