//! Laws of property sets.
ghost use Rattle.msi_props.specs.Kept.{WrittenSetsAreRead};

/// A set whose numbers rise and whose texts fit its page is read as it was written, as one section.
pub fn written_sets_are_read()
    ensures { WrittenSetsAreRead }
{}
