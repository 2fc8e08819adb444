//! The two ways of reading.
ghost use Rattle.std.specs.Prelude.{IsTrue, ◌≡◌, ◌↔◌};
ghost use Rattle.cfb_sectors.specs.declared.validation.Validation.TheVariants.{Strict};

/// Which departures from the format a reader takes.
#[derive(Clone, Copy, Debug, PartialEq, Eq)]
pub enum Validation {
    /// Those that leave no doubt of what a file means.
    Permissive,
    /// None.
    Strict,
}

impl Validation {
    /// Whether a reader refuses each departure.
    pub fn is_strict(self) -> bool
        ensures { IsTrue result ↔ (self ≡ Strict) }
    {
        match self {
            Validation::Permissive => false,
            Validation::Strict => true,
        }
    }
}
