//! Directories whose medium goes back to what was published last.
ghost use Rattle.cfb_fat.specs.Tables.{has_failed_here, medium_of};
ghost use Rattle.cfb_medium.specs.Calls.{IsJustifiedSince, IsFaultOrInvalidInputIf};
ghost use Rattle.cfb_sectors.specs.RollingBack.{MediumRollsBack};
ghost use Rattle.std.specs.Prelude.{false, true, IfErr, IfOk, ◌≡◌};

use crate::Directory;
use crate::directory::Entries;
use cfb_chains::Links;
use cfb_fat::Allocator;
use cfb_medium::{Error, Medium, ReadMedium};
use std::alloc::Global;

/// What is left of a directory whose medium was taken out.
#[derive(Drop)]
pub struct DirectoryHusk {
    links: Links,
    entries: Entries,
}

impl DirectoryHusk {
    ghost use Rattle.cfb_directory.specs.Views.{allocator_of};

    /// A directory over a medium of which nothing is known: every call is refused. It takes no memory.
    pub fn over<F: ReadMedium>(self, alloc: Global, medium: F) -> Directory<F>
        ensures medium { medium_of (allocator_of result) ≡ medium }
        ensures when_failed { has_failed_here (allocator_of result) ≡ true }
    {
        let DirectoryHusk { links, entries } = self;
        Directory {
            allocator: Allocator::husk(alloc, links.version(), medium),
            links,
            entries,
        }
    }
}

impl<F: Medium> Directory<F> {
    ghost use Rattle.cfb_directory.specs.Views.{allocator_of, OnlyReadsDirectory};

    /// The medium, taken back to the bytes that were published last, and the husk of the directory, also where it has failed.
    /// A refusal gives the directory as it was: `InvalidInput` of a medium that doesn't survive a crash, `Failed` of one that
    /// has failed, `Memory` and `Device`.
    pub fn roll_back(self) -> Result<(F, DirectoryHusk), (Directory<F>, Error)>
        ensures rolled { IfOk result
            (λ it. MediumRollsBack F.honest F.bytes F.continues F.has_published
            (medium_of (allocator_of self)) it.0) }
        ensures only_reads { IfErr result (λ e. OnlyReadsDirectory self e.0) }
        ensures cause { IfErr result (λ e. IsJustifiedSince F.continues F.failures F.failed
            (medium_of (allocator_of self)) (medium_of (allocator_of e.0)) e.1) }
        ensures errors { IfErr result (λ e. IsFaultOrInvalidInputIf (F.survives ≡ false) e.1) }
    {
        let Directory {
            allocator,
            links,
            entries,
        } = self;
        match allocator.roll_back() {
            Ok(medium) => Ok((medium, DirectoryHusk { links, entries })),
            Err((allocator, error)) => {
                let same = Directory {
                    allocator,
                    links,
                    entries,
                };
                Err((same, error))
            }
        }
    }
}
