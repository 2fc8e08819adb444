//! What is wrong with a file, and how it is told: a line with the file's name and what to do about it.
use cfb_medium::Error;
use std::fmt;
use std::io::Write;

/// What is wrong with a file.
#[derive(Clone, Copy, PartialEq, Eq)]
pub enum Trouble {
    /// There is none.
    Missing,
    /// The folder in which it is to be made isn't there.
    NoFolder,
    /// The system doesn't let it be made.
    Unmakable,
    /// It is a link that leads to no file.
    Dangling,
    /// Several names lead to it, and its log stands beside one of them.
    OtherNames,
    /// No space is left where it lies.
    NoSpace,
    /// No space is left where it is to be made, and it isn't there.
    NoSpaceForNew,
    /// It is a folder.
    Folder,
    /// It is a pipe, a device node, or the like.
    NotRegular,
    /// The system doesn't tell what it is.
    Hidden,
    /// Another program writes it.
    InUse,
    /// The system doesn't give its bytes.
    Unreadable,
    /// The system doesn't let it be written.
    Unwritable,
    /// It is no text.
    NoText,
    /// It is no command file.
    NoCommands,
    /// A new package would take its place.
    Present,
    /// It is named as the log, and is none.
    NoLog,
    /// It is named as the log, begins as a closed one, and may be any file.
    DoubtfulLog,
    /// It is named as package and as log.
    Itself,
    /// It is a log with a commit, and there is no package.
    OtherCommit,
    /// It is a log with a commit that leads from another file, or a damaged one.
    UnfitCommit,
    /// It has no bytes.
    Empty,
    /// It is no compound file.
    NoContainer,
    /// It begins as a compound file.
    DamagedContainer,
    /// It is a compound file of another kind.
    OtherRoot,
    /// It is a compound file that has no summary.
    NoSummary,
    /// It is a compound file that has no texts.
    NoPool,
    /// Summary or texts end too early.
    CutParts,
    /// Summary, texts or tables break a rule.
    WrongParts,
    /// It would become too large.
    Full,
    /// A read or a write has failed.
    Fault,
    /// A write has failed of a file that was to be made, and isn't there.
    FaultOfNew,
}

impl Trouble {
    // What is said of it.
    fn text(self) -> &'static str {
        match self {
            Trouble::Missing => "no such file",
            Trouble::NoFolder => "it can't be made: there is no such folder",
            Trouble::Unmakable => "it can't be made: its folder can't be written",
            Trouble::Dangling => "a link that leads to no file",
            Trouble::OtherNames =>
                "several names lead to this file, and its log would lie beside one of them; name a log by `--log`, or copy the file and change the copy",
            Trouble::NoSpace => "no space is left; `msidb recover` finishes what was begun",
            Trouble::NoSpaceForNew => "it can't be made: no space is left",
            Trouble::Folder => "a folder, where a file is wanted",
            Trouble::NotRegular => "no regular file",
            Trouble::Hidden => "it can't be looked at",
            Trouble::InUse => "another program has it; try again when that has ended",
            Trouble::Unreadable => "it can't be read",
            Trouble::Unwritable => "it can't be written",
            Trouble::NoText => "no text in UTF-8",
            Trouble::NoCommands => "no list of commands",
            Trouble::Present => "it is there already; take another name",
            Trouble::NoLog =>
                "no log of a package, so it is left as it is; name another by `--log`",
            Trouble::DoubtfulLog =>
                "it may be any file, so it is left as it is; name another log by `--log`, or remove it if nobody needs it",
            Trouble::Itself => "it can't be the log too; name another by `--log`",
            Trouble::OtherCommit => "it holds a commit of another package; name another by `--log`",
            Trouble::UnfitCommit =>
                "its commit doesn't fit the package, so both are left as they are",
            Trouble::Empty => "the file is empty, and no package",
            Trouble::NoContainer => "not a Windows Installer package (no compound file)",
            Trouble::DamagedContainer => "a damaged compound file; get it anew from where it came",
            Trouble::OtherRoot =>
                "a compound file, and no package: its root has another identifier",
            Trouble::NoSummary => "a compound file, and no package: it has no summary",
            Trouble::NoPool => "a compound file, and no package: it has no string pool",
            Trouble::CutParts => "a damaged package: its summary or string pool ends too early",
            Trouble::WrongParts =>
                "a damaged package: its summary, string pool or list of tables is wrong",
            Trouble::Full => "it can grow no further",
            Trouble::Fault => "a read or a write failed; `msidb recover` finishes what was begun",
            Trouble::FaultOfNew => "it can't be made: a read or a write failed",
        }
    }
}

impl Trouble {
    /// The same of a file that was to be made, of which nothing was left.
    pub fn of_new(self) -> Trouble {
        match self {
            Trouble::NoSpace => Trouble::NoSpaceForNew,
            Trouble::Fault => Trouble::FaultOfNew,
            trouble => trouble,
        }
    }
}

impl fmt::Display for Trouble {
    fn fmt<W: fmt::Write>(&self, f: &mut fmt::Formatter<W>) -> fmt::Result {
        f.write_str(self.text())
    }
}

/// Tells what is wrong with a file.
pub fn tell_trouble<E: Write>(path: &str, trouble: Trouble, err: &mut E) {
    let _ = writeln!(err, "msidb: {path}: {trouble}");
}

/// Tells why a part of a package, of this kind and name, couldn't be read.
pub fn tell_part<E: Write>(path: &str, kind: &str, name: &str, error: Error, err: &mut E) {
    let _ = writeln!(err, "msidb: {path}: {kind} {name}: {error}");
}

/// Tells of an error that a call on a file had.
pub fn tell_error<E: Write>(path: &str, error: Error, err: &mut E) {
    let _ = writeln!(err, "msidb: {path}: {error}");
}

/// Tells what went wrong.
pub fn tell<E: Write>(what: &str, err: &mut E) {
    let _ = writeln!(err, "msidb: {what}");
}
