//! The header's numbers that layers above may change ([MS-CFB] 2.2).
ghost use Rattle.cfb_chains.specs.Owned.{ChangesAtMost};
ghost use Rattle.cfb_fat.specs.Changing.{WritesBeside};
ghost use Rattle.cfb_fat.specs.HeaderWords.{word_place};
ghost use Rattle.cfb_fat.specs.Seeing.{seen_of};
ghost use Rattle.cfb_medium.specs.Calls.{IsFaultOrInvalidInputIf};
ghost use Rattle.cfb_medium.specs.declared.error.Error.TheVariants.{Failed};
ghost use Rattle.cfb_sectors.specs.Sectors.{sector};
ghost use Rattle.std.specs.Int.{to_le_bytes, w32};
ghost use Rattle.std.specs.Prelude.{false, true, IfErr, IsErrOf, IsTrue, OnErr, OnOk, [], ◌∷◌, ◌≡◌, ◌⊎◌};

use crate::Allocator;
use cfb_medium::{Error, Medium};

/// A number of the header, of four bytes.
#[derive(Clone, Copy, Debug)]
pub enum HeaderWord {
    /// How many sectors the directory has, in version 4: at byte 40.
    DirectorySectors,
    /// The directory's first sector: at byte 48.
    FirstDirectorySector,
    /// The mini FAT's first sector: at byte 60.
    FirstMiniFatSector,
    /// How many sectors the mini FAT has: at byte 64.
    MiniFatSectors,
}

impl HeaderWord {
    // Where it stands.
    fn place(self) -> u64
        ensures { result ≡ word_place self }
    {
        match self {
            HeaderWord::DirectorySectors => 40,
            HeaderWord::FirstDirectorySector => 48,
            HeaderWord::FirstMiniFatSector => 60,
            HeaderWord::MiniFatSectors => 64,
        }
    }
}

impl<F: Medium> Allocator<F> {
    ghost use Rattle.cfb_fat.specs.Tables.{has_failed_here, is_honest, version_of, OnlyReadsAllocator, IsJustifiedBySectors};

    /// Writes a number of the header; all else of the file stays. After a fault it has failed.
    pub fn write_header_word(&mut self, word: HeaderWord, number: u32) -> Result<(), Error>
        ensures writes { OnOk result (WritesBeside (word_place word)
            (to_le_bytes w32 number) self.old self.new) }
        ensures either { WritesBeside (word_place word) (to_le_bytes w32 number) self.old self.new
            ⊎ OnlyReadsAllocator self.old self.new }
        ensures leaves { OnOk result (IsTrue (is_honest self.old)
            → ChangesAtMost (sector (version_of self.old)) (word_place word ∷ []) []
            (seen_of self.old)
            (seen_of self.new)) }
        ensures not_failed { OnOk result ((has_failed_here self.old ≡ false)
            × (has_failed_here self.new ≡ false)) }
        ensures after { OnErr result ((has_failed_here self.new ≡ true)
            ⊎ OnlyReadsAllocator self.old self.new) }
        ensures when_failed { has_failed_here self.old ≡ true
            → IsErrOf result Failed × OnlyReadsAllocator self.old self.new }
        ensures cause { IfErr result (IsJustifiedBySectors self.old self.new) }
        ensures errors { IfErr result (IsFaultOrInvalidInputIf ⊥) }
    {
        if self.sectors.is_failed() {
            return Err(Error::Failed);
        }
        let bytes = number.to_le_bytes();
        self.write_beside(word.place(), &bytes)
    }
}
