//! Where a person reads.

/// Which of the two outputs are terminals.
#[derive(Clone, Copy, Debug)]
pub struct Terminals {
    /// Answers go to one.
    pub out: bool,
    /// What went wrong goes to one.
    pub err: bool,
}
