//! Marks of the parts of a file: which of them serve a use.
ghost use Rattle.cfb_medium.specs.declared.error.Error.TheVariants.{Memory};
ghost use Rattle.cfb_soundness.specs.Marks.{mark, CanTake, MarksEachOnce};
ghost use Rattle.std.specs.Prelude.{[], false, length, replicate, true, IfErr, IfOk, IsTrue, ◌<◌, ◌∷◌, ◌≡◌, ◌↔◌};

use cfb_medium::Error;
use std::alloc::Global;

// A mark for each part of a table: for each sector, or for each mini sector.
#[derive(Drop)]
pub(crate) struct Marks {
    pub(crate) items: Vec<bool>,
}

impl Marks {
    ghost use Rattle.cfb_soundness.specs.Views.{marks_of};

    // No part of so many is marked.
    pub(crate) fn new(alloc: Global, count: usize) -> Result<Marks, Error>
        ensures none { IfOk result (λ it. marks_of it ≡ replicate count false) }
        ensures errors { IfErr result (λ e. e ≡ Memory) }
    {
        let items = vec![in alloc; false; count]?;
        Ok(Marks { items })
    }

    // Whether the table has the part.
    fn is_there(&self, part: u32) -> bool
        ensures { IsTrue result ↔ part < length (marks_of self.now) }
    {
        (part as usize) < self.items.len()
    }

    // Whether no use of the part is marked.
    fn is_unused(&self, part: u32) -> bool
        requires { part < length (marks_of self.now) }
        ensures { IsTrue result ↔ mark (marks_of self.now) part ≡ 0 }
    {
        !self.items[part as usize]
    }

    // Marks a part; `false` where there is none, or it is marked.
    fn take(&mut self, part: u32) -> bool
        ensures took { IsTrue result
            → MarksEachOnce (part ∷ []) (marks_of self.old) (marks_of self.new) }
        ensures refused_only_if { result ≡ false → CanTake (part ∷ []) (marks_of self.old) → ⊥ }
    {
        if !self.is_there(part) {
            return false;
        }
        if !self.is_unused(part) {
            return false;
        }
        self.items[part as usize] = true;
        true
    }

    // Marks these parts; `false` where there is no mark for one, or one is marked, or stands twice among them.
    pub(crate) fn take_all(&mut self, parts: &[u32]) -> bool
        ensures took { IsTrue result
            → MarksEachOnce parts.now (marks_of self.old) (marks_of self.new) }
        ensures refused_only_if { result ≡ false → CanTake parts.now (marks_of self.old) → ⊥ }
    {
        for part in parts {
            if !self.take(*part) {
                return false;
            }
        }
        true
    }
}
