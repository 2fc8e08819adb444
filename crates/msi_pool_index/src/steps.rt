//! A count of steps that only proofs read. It takes no memory, and its calls do nothing when the program runs.
ghost use Rattle.std.specs.Prelude.{◌≡◌, ◌+◌, ℕ};
ghost use base.Fml.{ftrue};

use std::marker::Model;

/// A count of steps, a whole number without a last one.
#[derive(Drop)]
pub struct Steps {
    pub ghost count: { ℕ },
}

// What is counted lies in no memory.
impl Model for Steps {
    ghost also_owns = { λ _. ftrue };
}

impl Steps {
    /// No steps.
    pub(crate) fn none() -> Steps
        ensures { result.count ≡ 0 }
    {
        Steps {}
    }

    /// So many more.
    #[inline(always)]
    pub(crate) fn and(&self, _more: &u32) -> Steps
        ensures { result.count ≡ self.now.count + _more.now }
    {
        Steps {}
    }
}
