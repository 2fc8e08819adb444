//! Selects.
ghost use Rattle.msi_tables.specs.Held.{heading_of};
ghost use Rattle.std.specs.Prelude.{◌≡◌, [], IfOk, Ok, Some, None, codes, map, option_map};
ghost use Rattle.std.specs.Fmt.{DisplaysOnOk, ◌++?◌};
ghost use Rattle.msi_texts.specs.Results.{ReturnsOrOutOfMemory};
ghost use Rattle.msi_expr.specs.Formula.{formula_of};
ghost use Rattle.msi_query.specs.Answered.{answered};
ghost use Rattle.msi_query.specs.Printed.{is_bare, select_text, side_text, source_text};
ghost use Rattle.msi_query.specs.Query.{inner_join, left_join, query, selected, source_rows, table};
ghost use Rattle.msi_query.specs.Said.{condition_in, names_in, query_of, source_in, source_of, table_in};
ghost use Rattle.msi_expr.specs.Conditions.{narrowed};
ghost use Rattle.msi_query.specs.Sources.{AnswersOf};

use crate::cutting::cut;
use crate::joining::{inner_joined, left_joined};
use crate::printing::fmt_names;
use crate::source::TableSource;
use crate::stored::stored_table;
use cfb_medium::Error;
use msi_expr::{Expr, fmt_condition, narrowed_condition};
use msi_pool::{StringPool, ValueRef};
use msi_tables::Table;
use std::alloc::Global;
use std::fmt;

/// Asks for rows of a table, or of joined tables.
#[cycle(selects)]
#[derive(Drop)]
pub struct Select {
    from: Join,
    column_names: Vec<String>,
    condition: Option<Expr>,
}

/// Where rows are taken from.
#[cycle(selects)]
#[derive(Drop)]
pub enum Join {
    Table(String),
    Inner(Box<Select>, Box<Select>, Expr),
    Left(Box<Select>, Box<Select>, Expr),
}

impl Select {
    /// A select of all columns and rows of the table of this name. `Memory` where there is no room for the name.
    pub fn table(alloc: Global, table_name: &str) -> Result<Select, Error>
        ensures { ReturnsOrOutOfMemory query_of result (Ok (query (table table_name.now) [] None)) }
    {
        Ok(Select {
            from: Join::Table(String::from_str(alloc, table_name)?),
            column_names: Vec::new(alloc),
            condition: None,
        })
    }

    /// A select of all columns of both, and of the pairs of rows for which the condition counts as true. `Memory` spends both.
    pub fn inner_join(self, alloc: Global, rhs: Select, on: Expr) -> Result<Select, Error>
        ensures { ReturnsOrOutOfMemory query_of result (Ok
            (query (inner_join (query_of self) (query_of rhs) (formula_of on)) [] None)) }
    {
        let left = Box::new(alloc, self)?;
        let right = Box::new(alloc, rhs)?;
        Ok(Select {
            from: Join::Inner(left, right, on),
            column_names: Vec::new(alloc),
            condition: None,
        })
    }

    /// The same, and of each row of this side without a partner that row once, with nulls. `Memory` spends both.
    pub fn left_join(self, alloc: Global, rhs: Select, on: Expr) -> Result<Select, Error>
        ensures { ReturnsOrOutOfMemory query_of result (Ok
            (query (left_join (query_of self) (query_of rhs) (formula_of on)) [] None)) }
    {
        let left = Box::new(alloc, self)?;
        let right = Box::new(alloc, rhs)?;
        Ok(Select {
            from: Join::Left(left, right, on),
            column_names: Vec::new(alloc),
            condition: None,
        })
    }

    /// The same, and of its columns those of these names, in this order; none stands for all. `Memory` spends it.
    pub fn columns(self, alloc: Global, column_names: &[&str]) -> Result<Select, Error>
        ensures { ReturnsOrOutOfMemory query_of result (Ok
            (query (source_in (query_of self)) (map (λ name. name.now) column_names.now)
            (condition_in (query_of self)))) }
    {
        let mut names = Vec::new(alloc);
        for name in column_names {
            names.push(String::from_str(alloc, name)?)?;
        }
        Ok(Select {
            from: self.from,
            column_names: names,
            condition: self.condition,
        })
    }

    /// The same, and of its rows those alone for which this condition counts as true too. `Memory` spends it.
    pub fn with(self, alloc: Global, condition: Expr) -> Result<Select, Error>
        ensures { ReturnsOrOutOfMemory query_of result (Ok
            (query (source_in (query_of self)) (names_in (query_of self))
            (narrowed (condition_in (query_of self)) (formula_of condition)))) }
    {
        let condition = narrowed_condition(alloc, self.condition, condition)?;
        Ok(Select {
            from: self.from,
            column_names: self.column_names,
            condition,
        })
    }

    /// The table and the rows that it asks for: those of its source that the condition lets through, cut to its columns. Its
    /// references are as wide as the pool's. Of a join the left side is judged first, then the right one. `NotFound` where a
    /// table isn't there; `InvalidInput` where a column isn't there that is asked for or that a condition names. Other errors
    /// are faults of the source, or `Memory`; the source is only read.
    #[cycle(applied)]
    pub fn apply<S: TableSource>(
        &self,
        alloc: Global,
        source: &mut S,
        pool: &StringPool,
    ) -> Result<(Table, Vec<Vec<ValueRef>>), Error>
        ensures answer { AnswersOf (S.has_tables source.old) (S.has_cause source.old source.new)
            answered result (λ tables. selected tables pool.now.pool (query_of self.now)) }
        ensures width { IfOk result (λ found. (heading_of found.0).long ≡ pool.now.pool.long) }
        ensures only_reads { S.rests source.old source.new }
    {
        let found = self.from.found_rows(alloc, source, pool)?;
        cut(alloc, pool, &self.column_names, &self.condition, found)
    }

    /// The name of the table, where it takes rows of one table and not of a join.
    pub fn table_name(&self) -> Option<&str>
        ensures { option_map (λ name. name.now) result ≡ table_in (query_of self.now) }
    {
        match &self.from {
            Join::Table(name) => Some(name.as_str()),
            _ => None,
        }
    }

    /// Whether it asks for a table and nothing else: for all columns and rows.
    pub fn is_bare(&self) -> bool
        ensures { result
            ≡ is_bare (source_in (query_of self.now)) (names_in (query_of self.now))
            (condition_in (query_of self.now)) }
    {
        match self.from {
            Join::Table(_) => self.column_names.is_empty() && self.condition.is_none(),
            _ => false,
        }
    }

    // Writes the select.
    #[cycle(printed)]
    #[tactic(auto, unfolding(crate::specs::Printed::select_of))]
    fn fmt_select<W: fmt::Write>(&self, f: &mut fmt::Formatter<W>) -> fmt::Result
        ensures { DisplaysOnOk W.write_str_gives f.old result (select_text (query_of self.now))
            f.new }
    {
        f.write_str("SELECT ")?;
        fmt_names(f, &self.column_names)?;
        f.write_str(" FROM ")?;
        self.from.fmt_source(f)?;
        fmt_condition(&self.condition, f)
    }

    // Writes it as a side of a join.
    #[cycle(printed)]
    fn fmt_side<W: fmt::Write>(&self, f: &mut fmt::Formatter<W>) -> fmt::Result
        ensures { DisplaysOnOk W.write_str_gives f.old result (side_text (query_of self.now))
            f.new }
    {
        if self.is_bare() {
            self.from.fmt_source(f)
        } else {
            self.fmt_in_parentheses(f)
        }
    }

    // Writes the select in parentheses.
    #[cycle(printed)]
    fn fmt_in_parentheses<W: fmt::Write>(&self, f: &mut fmt::Formatter<W>) -> fmt::Result
        ensures { DisplaysOnOk W.write_str_gives f.old result
            (Some (codes "(") ++? select_text (query_of self.now) ++? Some (codes ")")) f.new }
    {
        f.write_str("(")?;
        self.fmt_select(f)?;
        f.write_str(")")
    }
}

impl Join {
    // The table, or the tables joined, with the rows.
    #[cycle(applied)]
    fn found_rows<S: TableSource>(
        &self,
        alloc: Global,
        source: &mut S,
        pool: &StringPool,
    ) -> Result<(Table, Vec<Vec<ValueRef>>), Error>
        ensures answer { AnswersOf (S.has_tables source.old) (S.has_cause source.old source.new)
            answered result (λ tables. source_rows tables pool.now.pool (source_of self.now)) }
        ensures width { IfOk result (λ found. (heading_of found.0).long ≡ pool.now.pool.long) }
        ensures only_reads { S.rests source.old source.new }
    {
        match self {
            Join::Table(name) => stored_table(alloc, source, pool, name),
            Join::Inner(left, right, on) => {
                let first = left.apply(alloc, source, pool)?;
                let second = right.apply(alloc, source, pool)?;
                inner_joined(alloc, pool, on, first, second)
            }
            Join::Left(left, right, on) => {
                let first = left.apply(alloc, source, pool)?;
                let second = right.apply(alloc, source, pool)?;
                left_joined(alloc, pool, on, first, second)
            }
        }
    }

    // Writes where the rows are taken from.
    #[cycle(printed)]
    fn fmt_source<W: fmt::Write>(&self, f: &mut fmt::Formatter<W>) -> fmt::Result
        ensures { DisplaysOnOk W.write_str_gives f.old result (source_text (source_of self.now))
            f.new }
    {
        let (left, word, right, on) = match self {
            Join::Table(name) => return f.write_str(name),
            Join::Inner(left, right, on) => (left, " INNER JOIN ", right, on),
            Join::Left(left, right, on) => (left, " LEFT JOIN ", right, on),
        };
        left.fmt_side(f)?;
        f.write_str(word)?;
        right.fmt_side(f)?;
        f.write_str(" ON ")?;
        fmt::Display::fmt(on, f)
    }
}

impl fmt::Display for Select {
    ghost use Rattle.msi_query.specs.Printed.{is_bare, select_text};
    ghost use Rattle.msi_query.specs.Said.{query_of};

    ghost output = { λ s. select_text (query_of s) };

    fn fmt<W: fmt::Write>(&self, f: &mut fmt::Formatter<W>) -> fmt::Result {
        self.fmt_select(f)
    }
}
