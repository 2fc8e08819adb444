//! Opening a compound file ([MS-CFB] 2).
ghost use Rattle.cfb_spec.specs.Means.{Layout};
ghost use Rattle.cfb_medium.specs.Calls.{IsJustifiedSince, IsFaultOrInvalidInputIf};
ghost use Rattle.cfb_medium.specs.declared.error.Error.TheVariants.{InvalidData};
ghost use Rattle.cfb_opening.specs.Opened.{CanOpen, IsOpened, OpensAt};
ghost use Rattle.cfb_opening.specs.Tables.{OnlyReadsMedium};
ghost use Rattle.cfb_tree.specs.CaseTableViews.{case_table_of};
ghost use Rattle.cfb_tree.specs.Tree.{Tree};
ghost use Rattle.std.specs.Prelude.{IfErr, IfOk, IsTrue, ◌≡◌, ◌⊎◌};

use crate::strict::is_taken;
use crate::tables::{Tables, open_tables};
use cfb_directory::Directory;
use cfb_medium::{Error, ReadMedium};
use cfb_mini::MiniAllocator;
use cfb_sectors::Validation;
use cfb_tree::CaseMapper;
use std::alloc::Global;

/// Opens the compound file on a medium: header, DIFAT, FAT, directory, mini FAT and mini stream ([MS-CFB] 2). `InvalidData`
/// exactly where the bytes mean no tree under the case table, whatever bytes its streams have, or a strict reader doesn't take
/// them: it asks for the header's counts, the DIFAT's end, whole sectors, the root's name, and colours. A stream's chain is
/// looked at by no reader here. It takes time and memory by the length of the tables and the directory. A refusal gives the
/// medium back.
pub fn open_file<F: ReadMedium>(
    alloc: Global,
    medium: F,
    letters: &CaseMapper,
    validation: Validation,
) -> Result<MiniAllocator<F>, (F, Error)>
    ensures opens { IfOk result (OpensAt medium) }
    ensures opened { IfOk result (λ it. IsTrue (F.honest medium) → (l : Layout) × (tree : Tree)
        × IsOpened validation (case_table_of letters.now) (F.bytes medium) it l tree) }
    ensures refused_only_if { IfErr result (λ e. e.1 ≡ InvalidData → IsTrue (F.honest medium)
        → CanOpen validation (case_table_of letters.now) (F.bytes medium) → ⊥) }
    ensures errors { IfErr result (λ e. IsFaultOrInvalidInputIf ⊥ e.1 ⊎ (e.1 ≡ InvalidData)) }
    ensures cause { IfErr result (λ e. IsJustifiedSince F.continues F.failures F.failed medium
        e.0 e.1) }
    ensures left { IfErr result (λ e. OnlyReadsMedium F.honest F.bytes F.continues medium e.0) }
{
    let Tables {
        header,
        len,
        difat_stop,
        allocator,
    } = match open_tables(alloc, medium) {
        Ok(tables) => tables,
        Err(refused) => return Err(refused),
    };
    let start = header.first_dir_sector;
    let directory = match Directory::new(alloc, allocator, letters, validation, start) {
        Ok(directory) => directory,
        Err(refused) => return Err(refused),
    };
    let file = match MiniAllocator::new(alloc, directory, header.first_minifat_sector) {
        Ok(file) => file,
        Err(refused) => return Err(refused),
    };
    if !is_taken(validation, &header, difat_stop, len, &file) {
        return Err((file.into_inner(), Error::InvalidData));
    }
    Ok(file)
}
