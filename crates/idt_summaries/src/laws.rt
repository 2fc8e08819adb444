//! What was written is read back.
ghost use Rattle.std.specs.Prelude.{◌≡◌, List, ℕ, Some, true};
ghost use Rattle.std.specs.List.{list_all};
ghost use Rattle.msi_props.specs.Props.{Property};
ghost use Rattle.idt_summaries.specs.Kept.{comes_back};
ghost use Rattle.idt_summaries.specs.Reading.{summary_in};
ghost use Rattle.idt_summaries.specs.Writing.{IsSummaryFile};

/// Properties that come back are read back from the file in which they stand.
pub fn summaries_come_back()
    ensures { (properties : List (ℕ × Property)) (text : List ℕ) → IsSummaryFile properties text
        → list_all comes_back properties ≡ true → summary_in text ≡ Some properties }
{}
