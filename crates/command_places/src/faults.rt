//! What is wrong at a place of a command, and how it reads.
use crate::names::{Names, write_names};
use crate::near::near_among;
use std::fmt;

/// A step from the value of a key to the part that is wrong.
#[derive(Clone, Copy, Debug, PartialEq, Eq)]
pub enum Step {
    /// No step.
    Here,
    /// To an item, which is called so, and is counted from 0.
    Item(&'static str, usize),
    /// To what stands at a key.
    Key(&'static str),
}

/// What is wanted in place of a part.
#[derive(Clone, Copy, Drop)]
pub enum Wanted<'a> {
    /// This.
    This(&'static str),
    /// Something, as a sentence tells.
    Told(&'static str),
    /// One of these names, and not this one.
    Name(Names, &'a str),
    /// So many operands of this operator, where another number stands.
    Operands(&'a str, usize, usize),
    /// A number of digits that is even, where this number stands.
    Digits(usize),
}

/// What is wrong with the value of a key of a command.
#[derive(Clone, Copy, Drop)]
pub struct Fault<'a> {
    /// The key.
    pub key: &'static str,
    /// The way from its value to the part that is wrong.
    pub steps: [Step; 2],
    /// What is wanted there.
    pub wanted: Wanted<'a>,
}

impl<'a> Fault<'a> {
    // At a key itself.
    pub(crate) fn of_key(key: &'static str, wanted: Wanted<'a>) -> Fault<'a> {
        Fault {
            key,
            steps: [Step::Here, Step::Here],
            wanted,
        }
    }

    // A step behind a key.
    pub(crate) fn at(key: &'static str, step: Step, wanted: Wanted<'a>) -> Fault<'a> {
        Fault {
            key,
            steps: [step, Step::Here],
            wanted,
        }
    }

    // Two steps behind a key.
    pub(crate) fn behind(
        key: &'static str,
        first: Step,
        second: Step,
        wanted: Wanted<'a>,
    ) -> Fault<'a> {
        Fault {
            key,
            steps: [first, second],
            wanted,
        }
    }
}

impl<'a> fmt::Display for Fault<'a> {
    fn fmt<W: fmt::Write>(&self, f: &mut fmt::Formatter<W>) -> fmt::Result {
        write!(f, "\"{}\"", self.key)?;
        for step in &self.steps {
            write_step(*step, f)?;
        }
        f.write_str(": ")?;
        write_wanted(self.wanted, f)
    }
}

fn write_step<W: fmt::Write>(step: Step, f: &mut fmt::Formatter<W>) -> fmt::Result {
    match step {
        Step::Here => Ok(()),
        Step::Item(name, at) => write!(f, ", {name} {}", at.saturating_add(1)),
        Step::Key(key) => write!(f, ", \"{key}\""),
    }
}

fn write_wanted<W: fmt::Write>(wanted: Wanted<'_>, f: &mut fmt::Formatter<W>) -> fmt::Result {
    match wanted {
        Wanted::This(what) => write!(f, "{what} is wanted"),
        Wanted::Told(sentence) => f.write_str(sentence),
        Wanted::Name(names, name) => write_no_name(names, name, f),
        Wanted::Operands(op, count, there) => write_operands(op, count, there, f),
        Wanted::Digits(count) => write_digits(count, f),
    }
}

// Tells of a name that is none, and of the nearest one, or of all.
fn write_no_name<W: fmt::Write>(
    names: Names,
    name: &str,
    f: &mut fmt::Formatter<W>,
) -> fmt::Result {
    f.write_str(names.none())?;
    write_short(name, f)?;
    match near_among(names.all(), name) {
        Some(near) => write!(f, "; perhaps \"{near}\" is meant"),
        None => {
            f.write_str("; there are ")?;
            write_names(names.all(), f)
        }
    }
}

// Of a name so many characters are told at most.
const MOST_CHARACTERS: usize = 40;

fn write_short<W: fmt::Write>(name: &str, f: &mut fmt::Formatter<W>) -> fmt::Result {
    let count = name.chars().count();
    if count <= MOST_CHARACTERS {
        return write!(f, "{name:?}");
    }
    write!(f, "like a text of {count} characters")
}

fn write_operands<W: fmt::Write>(
    op: &str,
    count: usize,
    there: usize,
    f: &mut fmt::Formatter<W>,
) -> fmt::Result {
    let noun = if count == 1 { "operand" } else { "operands" };
    let verb = if there == 1 { "stands" } else { "stand" };
    write!(f, "\"{op}\" takes {count} {noun}, and {there} {verb} there")
}

fn write_digits<W: fmt::Write>(count: usize, f: &mut fmt::Formatter<W>) -> fmt::Result {
    write!(
        f,
        "two hexadecimal digits are wanted for each byte, and the number of digits is {count}"
    )
}
