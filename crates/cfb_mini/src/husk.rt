//! Mini sectors over a medium that goes back to what was published last.
ghost use Rattle.cfb_fat.specs.Tables.{has_failed_here, medium_of};
ghost use Rattle.cfb_medium.specs.Calls.{IsJustifiedSince, IsFaultOrInvalidInputIf};
ghost use Rattle.cfb_sectors.specs.RollingBack.{MediumRollsBack};
ghost use Rattle.std.specs.Prelude.{false, true, IfErr, IfOk, ◌≡◌};

use crate::MiniAllocator;
use crate::mini_fat::MiniFat;
use cfb_directory::DirectoryHusk;
use cfb_medium::{Error, Medium, ReadMedium};
use std::alloc::Global;

/// What is left of a `MiniAllocator` whose medium was taken out.
#[derive(Drop)]
pub struct MiniHusk {
    alloc: Global,
    directory: DirectoryHusk,
    mini_fat: MiniFat,
}

impl MiniHusk {
    ghost use Rattle.cfb_mini.specs.Views.{allocator_of};

    /// A `MiniAllocator` over a medium of which nothing is known: every call is refused. It takes no memory.
    pub fn over<F: ReadMedium>(self, medium: F) -> MiniAllocator<F>
        ensures medium { medium_of (allocator_of result) ≡ medium }
        ensures when_failed { has_failed_here (allocator_of result) ≡ true }
    {
        let MiniHusk {
            alloc,
            directory,
            mini_fat,
        } = self;
        MiniAllocator {
            alloc,
            directory: directory.over(alloc, medium),
            mini_fat,
        }
    }
}

impl<F: Medium> MiniAllocator<F> {
    ghost use Rattle.cfb_mini.specs.Views.{allocator_of, OnlyReadsMini};

    /// The medium, taken back to the bytes that were published last, and the husk of the rest, also where it has failed. A
    /// refusal gives all as it was: `InvalidInput` of a medium that doesn't survive a crash, `Failed` of one that has failed,
    /// `Memory` and `Device`.
    pub fn roll_back(self) -> Result<(F, MiniHusk), (MiniAllocator<F>, Error)>
        ensures rolled { IfOk result
            (λ it. MediumRollsBack F.honest F.bytes F.continues F.has_published
            (medium_of (allocator_of self)) it.0) }
        ensures only_reads { IfErr result (λ e. OnlyReadsMini self e.0) }
        ensures cause { IfErr result (λ e. IsJustifiedSince F.continues F.failures F.failed
            (medium_of (allocator_of self)) (medium_of (allocator_of e.0)) e.1) }
        ensures errors { IfErr result (λ e. IsFaultOrInvalidInputIf (F.survives ≡ false) e.1) }
    {
        let MiniAllocator {
            alloc,
            directory,
            mini_fat,
        } = self;
        match directory.roll_back() {
            Ok((medium, directory)) => {
                let husk = MiniHusk {
                    alloc,
                    directory,
                    mini_fat,
                };
                Ok((medium, husk))
            }
            Err((directory, error)) => {
                let same = MiniAllocator {
                    alloc,
                    directory,
                    mini_fat,
                };
                Err((same, error))
            }
        }
    }
}
