//! Files that go back to what was published last.
ghost use Rattle.cfb.specs.Readers.{IsReadAlike, IsReadAs, IsReadBy};
ghost use Rattle.cfb.specs.RollingBack.{CannotOpen, HasLostAll, FileRollsBack};
ghost use Rattle.cfb.specs.Views.{mini_of, validation_of, OnlyReadsFile};
ghost use Rattle.cfb_fat.specs.Tables.{has_failed_here, medium_of};
ghost use Rattle.cfb_medium.specs.Calls.{Reaches, IsJustifiedSince, IsFaultOrInvalidInputIf};
ghost use Rattle.cfb_medium.specs.declared.error.Error.TheVariants.{InvalidData, InvalidInput};
ghost use Rattle.cfb_mini.specs.Views.{allocator_of};
ghost use Rattle.std.specs.Prelude.{false, true, IfErr, IsErrOf, OnErr, OnOk, ◌≡◌, ◌⊎◌};

use crate::CompoundFile;
use crate::opening::{Reader, open_by};
use cfb_medium::{Error, Medium};
use cfb_mini::{MiniHusk, MiniLinks};
use cfb_sectors::Validation;
use cfb_stream_reads::StreamLinks;
use core::mem::replace_with;
use std::alloc::Global;

// A file that has failed, over a medium of which nothing is known.
fn husk_of<F: Medium>(alloc: Global, medium: F, mini: MiniHusk, reader: Reader) -> CompoundFile<F>
    ensures medium { medium_of (allocator_of (mini_of result)) ≡ medium }
    ensures when_failed { has_failed_here (allocator_of (mini_of result)) ≡ true }
    ensures reader { IsReadBy reader result }
{
    let Reader {
        letters,
        validation,
        ahead,
    } = reader;
    CompoundFile {
        alloc,
        mini: mini.over(medium),
        letters,
        validation,
        is_sound: false,
        links: StreamLinks::Short(MiniLinks::new(alloc)),
        stream_id: None,
        ahead,
    }
}

impl<F: Medium> CompoundFile<F> {
    // The file of the medium that was rolled back, opened as a reader of this kind does; this one where the medium refuses, and one that
    // has failed where the medium can't be read again.
    fn rolled_back(self, validation: Validation) -> (CompoundFile<F>, Result<(), Error>)
        ensures rolled { OnOk result.1 (FileRollsBack F.has_published validation self result.0) }
        ensures left { OnErr result.1 (OnlyReadsFile self result.0
            ⊎ HasLostAll F.has_published self result.0) }
        ensures unable { IsErrOf result.1 InvalidInput → OnlyReadsFile self result.0 }
        ensures refused_only_if { IsErrOf result.1 InvalidData
            → CannotOpen F.has_published validation self }
        ensures reader { IsReadAs validation self result.0 }
        ensures honest { F.honest (medium_of (allocator_of (mini_of result.0)))
            ≡ F.honest (medium_of (allocator_of (mini_of self))) }
        ensures continues { Reaches F.continues (medium_of (allocator_of (mini_of self)))
            (medium_of (allocator_of (mini_of result.0))) }
        ensures cause { IfErr result.1 (IsJustifiedSince F.continues F.failures F.failed
            (medium_of (allocator_of (mini_of self)))
            (medium_of (allocator_of (mini_of result.0)))) }
        ensures errors { IfErr result.1 (λ e. IsFaultOrInvalidInputIf (F.survives ≡ false) e
            ⊎ (e ≡ InvalidData)) }
    {
        let CompoundFile {
            alloc,
            mini,
            letters,
            validation: own,
            is_sound,
            links,
            stream_id: _,
            mut ahead,
        } = self;
        let (medium, husk) = match mini.roll_back() {
            Ok(parts) => parts,
            Err((mini, error)) => {
                let same = CompoundFile {
                    alloc,
                    mini,
                    letters,
                    validation: own,
                    is_sound,
                    links,
                    stream_id: None,
                    ahead,
                };
                return (same, Err(error));
            }
        };
        ahead.clear();
        let reader = Reader {
            letters,
            validation,
            ahead,
        };
        match open_by(alloc, medium, reader) {
            Ok(file) => (file, Ok(())),
            Err((medium, reader, error)) => { (husk_of(alloc, medium, husk, reader), Err(error)) }
        }
    }

    /// Goes back to the bytes that were published last, also after a fault: what was changed since is gone, and all is read again,
    /// by the reader who opened the file. `InvalidInput` where the medium doesn't survive a crash, `Failed` where the medium has
    /// failed, `Memory` and `Device`: then all is as it was, or the file has failed, and may be rolled back again. `InvalidData`
    /// where the reader can't open the published bytes: then, too. Nothing is written, and nothing is published.
    pub fn roll_back(&mut self) -> Result<(), Error>
        ensures rolled { OnOk result
            (FileRollsBack F.has_published (validation_of self.old) self.old
            self.new) }
        ensures left { OnErr result (OnlyReadsFile self.old self.new
            ⊎ HasLostAll F.has_published self.old self.new) }
        ensures unable { IsErrOf result InvalidInput → OnlyReadsFile self.old self.new }
        ensures refused_only_if { IsErrOf result InvalidData
            → CannotOpen F.has_published (validation_of self.old) self.old }
        ensures reader { IsReadAlike self.old self.new }
        ensures honest { F.honest (medium_of (allocator_of (mini_of self.new)))
            ≡ F.honest (medium_of (allocator_of (mini_of self.old))) }
        ensures continues { Reaches F.continues (medium_of (allocator_of (mini_of self.old)))
            (medium_of (allocator_of (mini_of self.new))) }
        ensures cause { IfErr result (IsJustifiedSince F.continues F.failures F.failed
            (medium_of (allocator_of (mini_of self.old)))
            (medium_of (allocator_of (mini_of self.new)))) }
        ensures errors { IfErr result (λ e. IsFaultOrInvalidInputIf (F.survives ≡ false) e
            ⊎ (e ≡ InvalidData)) }
    {
        let validation = self.validation;
        self.roll_back_as(validation)
    }

    /// As `roll_back`, but all is read again by a reader of this kind, who reads the file from then on.
    pub fn roll_back_as(&mut self, validation: Validation) -> Result<(), Error>
        ensures rolled { OnOk result (FileRollsBack F.has_published validation self.old self.new) }
        ensures left { OnErr result (OnlyReadsFile self.old self.new
            ⊎ HasLostAll F.has_published self.old self.new) }
        ensures unable { IsErrOf result InvalidInput → OnlyReadsFile self.old self.new }
        ensures refused_only_if { IsErrOf result InvalidData
            → CannotOpen F.has_published validation self.old }
        ensures reader { IsReadAs validation self.old self.new }
        ensures honest { F.honest (medium_of (allocator_of (mini_of self.new)))
            ≡ F.honest (medium_of (allocator_of (mini_of self.old))) }
        ensures continues { Reaches F.continues (medium_of (allocator_of (mini_of self.old)))
            (medium_of (allocator_of (mini_of self.new))) }
        ensures cause { IfErr result (IsJustifiedSince F.continues F.failures F.failed
            (medium_of (allocator_of (mini_of self.old)))
            (medium_of (allocator_of (mini_of self.new)))) }
        ensures errors { IfErr result (λ e. IsFaultOrInvalidInputIf (F.survives ≡ false) e
            ⊎ (e ≡ InvalidData)) }
    {
        replace_with(
            self,
            validation,
            |file: CompoundFile<F>, validation: Validation| { file.rolled_back(validation) },
        )
    }
}
