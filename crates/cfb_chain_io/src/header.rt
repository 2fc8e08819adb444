//! The header's numbers that layers above may change ([MS-CFB] 2.2).
ghost use Rattle.cfb_chains.specs.Owned.{ChangesAtMost};
ghost use Rattle.cfb_fat.specs.Calls.{FatErrorContract};
ghost use Rattle.cfb_fat.specs.HeaderWords.{word_place};
ghost use Rattle.cfb_fat.specs.Seeing.{seen_of};
ghost use Rattle.cfb_fat.specs.Tables.{bytes_of, is_honest, version_of};
ghost use Rattle.cfb_medium.specs.Bytes.{overwritten};
ghost use Rattle.cfb_chain_io.specs.ChainEffects.{KeepsFileInvariants};
ghost use Rattle.cfb_sectors.specs.Sectors.{sector};
ghost use Rattle.std.specs.Int.{to_le_bytes, w32};
ghost use Rattle.std.specs.Prelude.{IsTrue, OnOk, [], ◌∷◌, ◌≡◌};

use cfb_fat::{Allocator, HeaderWord};
use cfb_medium::{Error, Medium};

/// Writes a number of the header; all else of the file stays, and so does what each owner has. After an error nothing is
/// changed, or it has failed ([MS-CFB] 2.2).
pub fn write_word<F: Medium>(
    allocator: &mut Allocator<F>,
    word: HeaderWord,
    number: u32,
) -> Result<(), Error>
    ensures written { OnOk result (IsTrue (is_honest allocator.old) → bytes_of allocator.new
        ≡ overwritten (bytes_of allocator.old) (word_place word) (to_le_bytes w32 number)) }
    ensures leaves { OnOk result (IsTrue (is_honest allocator.old)
        → ChangesAtMost (sector (version_of allocator.old)) (word_place word ∷ []) []
        (seen_of allocator.old) (seen_of allocator.new)) }
    ensures invariants { KeepsFileInvariants allocator.old allocator.new }
    ensures error_contract { FatErrorContract (λ _. ⊥) result allocator.old allocator.new }
{
    allocator.write_header_word(word, number)
}
