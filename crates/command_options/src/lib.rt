//! What stands behind a word of the command line besides its paths.
#![tactic(auto)]

/// Which file is the log of a package.
#[derive(Clone, Copy, Debug, PartialEq, Eq)]
pub enum Log<'a> {
    /// The one beside it, whose path is that of the package with `.log` behind it.
    Beside,
    /// The one of this path.
    At(&'a str),
    /// Two are named, one among the paths and one behind `--log`, so nothing can be done.
    Twice(&'a str, &'a str),
}

/// The parts of a package that are asked for; none is all of them but the tree.
#[derive(Clone, Copy, Debug, PartialEq, Eq)]
pub struct Parts<'a> {
    /// The table of this name.
    pub table: Option<&'a str>,
    /// The summary.
    pub summary: bool,
    /// The streams that belong to no table.
    pub streams: bool,
    /// The tree of the compound file.
    pub tree: bool,
}

/// The code pages by which texts are read, as they are given: of tables, and of the summary.
#[derive(Clone, Copy, Debug, PartialEq, Eq)]
pub struct Pages<'a> {
    /// That of the texts of tables.
    pub texts: Option<&'a str>,
    /// That of the texts of the summary.
    pub summary: Option<&'a str>,
}

/// How a package is adopted.
#[derive(Clone, Copy, Debug, PartialEq, Eq)]
pub struct Adoption<'a> {
    /// It gets an empty `_Validation`, where it has none.
    pub validation: bool,
    /// It is put right where it lies.
    pub in_place: bool,
    /// Its texts are put in UTF-8.
    pub utf8: bool,
    /// The pages by which they are read then.
    pub pages: Pages<'a>,
}

/// How commands are run.
#[derive(Clone, Copy, Debug, PartialEq, Eq)]
pub struct RunOptions {
    /// No notes are told.
    pub quiet: bool,
    /// None is run behind the first that is refused.
    pub stop: bool,
    /// They are committed together, if none is refused; else nothing is.
    pub all_or_nothing: bool,
}
