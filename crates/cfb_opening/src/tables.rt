//! Header, DIFAT and FAT of a compound file, as they are opened ([MS-CFB] 2.2 to 2.5).
ghost use Rattle.cfb_fat.specs.Tables.{bytes_of, difat_sectors_of, fat_of, fat_sectors_of, has_failed_here, is_honest, medium_of, version_of};
ghost use Rattle.cfb_medium.specs.Calls.{Reaches, IsJustifiedSince, IsFaultOrInvalidInputIf};
ghost use Rattle.cfb_medium.specs.declared.error.Error.TheVariants.{InvalidData};
ghost use Rattle.cfb_medium.specs.declared.version.Version.{Version};
ghost use Rattle.cfb_spec.specs.Means.{IsLaidOut, Layout};
ghost use Rattle.cfb_opening.specs.Tables.{AreSectorTables, OnlyReadsMedium};
ghost use Rattle.cfb_sectors.specs.Header.{HasFields, IsHeader};
ghost use Rattle.cfb_sectors.specs.HeaderViews.{fields_of};
ghost use Rattle.std.specs.Prelude.{false, length, IfErr, IfOk, IsErrOf, IsTrue, ◌≡◌, ◌⊎◌};

use cfb_fat::{Allocator, read_difat};
use cfb_medium::{Error, ReadMedium};
use cfb_sectors::{HEADER_LEN, Header, Sectors, Validation};
use std::alloc::Global;

// What the header says, how many bytes the file has, where the DIFAT's chain stops, and the FAT over the file's sectors.
#[derive(Drop)]
pub(crate) struct Tables<F: ReadMedium> {
    pub(crate) header: Header,
    pub(crate) len: u64,
    pub(crate) difat_stop: u32,
    pub(crate) allocator: Allocator<F>,
}

// The header at a medium's front. `InvalidData` where it begins with none.
fn read_header<F: ReadMedium>(medium: &mut F) -> Result<Header, Error>
    ensures read { IfOk result (λ header. IsTrue (F.honest medium.old)
        → HasFields (fields_of header) (F.bytes medium.old)) }
    ensures none { IsErrOf result InvalidData → IsTrue (F.honest medium.old)
        → (version : Version) → IsHeader version (F.bytes medium.old) → ⊥ }
    ensures only_reads { OnlyReadsMedium F.honest F.bytes F.continues medium.old medium.new }
    ensures cause { IfErr result (IsJustifiedSince F.continues F.failures F.failed medium.old
        medium.new) }
    ensures errors { IfErr result (λ e. IsFaultOrInvalidInputIf ⊥ e ⊎ (e ≡ InvalidData)) }
{
    let mut bytes = [0; HEADER_LEN];
    let count = medium.read_at(0, &mut bytes)?;
    let mut front = &bytes[..count];
    // The count of directory sectors is judged beside the others.
    match Header::read_from(&mut front, Validation::Permissive) {
        Ok(header) => Ok(header),
        Err(_) => Err(Error::InvalidData),
    }
}

// The header, and how many bytes the medium has. `InvalidData` where it begins with no header.
fn read_front<F: ReadMedium>(medium: &mut F) -> Result<(Header, u64), Error>
    ensures read { IfOk result (λ it. IsTrue (F.honest medium.old)
        → HasFields (fields_of it.0) (F.bytes medium.old)) }
    ensures len { IfOk result (λ it. IsTrue (F.honest medium.old)
        → it.1 ≡ length (F.bytes medium.old)) }
    ensures none { IsErrOf result InvalidData → IsTrue (F.honest medium.old)
        → (version : Version) → IsHeader version (F.bytes medium.old) → ⊥ }
    ensures only_reads { OnlyReadsMedium F.honest F.bytes F.continues medium.old medium.new }
    ensures cause { IfErr result (IsJustifiedSince F.continues F.failures F.failed medium.old
        medium.new) }
    ensures errors { IfErr result (λ e. IsFaultOrInvalidInputIf ⊥ e ⊎ (e ≡ InvalidData)) }
{
    let len = medium.len()?;
    let header = read_header(medium)?;
    Ok((header, len))
}

// Header and tables of a medium. `InvalidData` where it begins with no header, or the DIFAT or one of the FAT's sectors isn't
// there. A refusal gives the medium back.
pub(crate) fn open_tables<F: ReadMedium>(
    alloc: Global,
    mut medium: F,
) -> Result<Tables<F>, (F, Error)>
    ensures only_reads { IfOk result (λ it. OnlyReadsMedium F.honest F.bytes F.continues medium
        (medium_of it.allocator)) }
    ensures not_failed { IfOk result (λ it. has_failed_here it.allocator ≡ false) }
    ensures header { IfOk result (λ it. IsTrue (F.honest medium)
        → HasFields (fields_of it.header) (F.bytes medium)) }
    ensures version { IfOk result (λ it. version_of it.allocator ≡ it.header.version) }
    ensures len { IfOk result (λ it. IsTrue (F.honest medium)
        → it.len ≡ length (F.bytes medium)) }
    ensures tables { IfOk result (λ it. IsTrue (F.honest medium)
        → AreSectorTables it.header.version (F.bytes medium) (difat_sectors_of it.allocator)
        it.difat_stop (fat_sectors_of it.allocator) (fat_of it.allocator)) }
    ensures refused_only_if { IfErr result (λ e. e.1 ≡ InvalidData → IsTrue (F.honest medium)
        → (l : Layout) → IsLaidOut (F.bytes medium) l → ⊥) }
    ensures errors { IfErr result (λ e. IsFaultOrInvalidInputIf ⊥ e.1 ⊎ (e.1 ≡ InvalidData)) }
    ensures cause { IfErr result (λ e. IsJustifiedSince F.continues F.failures F.failed medium
        e.0 e.1) }
    ensures left { IfErr result (λ e. OnlyReadsMedium F.honest F.bytes F.continues medium e.0) }
{
    let (header, len) = match read_front(&mut medium) {
        Ok(front) => front,
        Err(error) => return Err((medium, error)),
    };
    let mut sectors = Sectors::new(header.version, len, medium);
    let difat = match read_difat(alloc, &mut sectors) {
        Ok(difat) => difat,
        Err(error) => return Err((sectors.into_inner(), error)),
    };
    let tables = Allocator::new(alloc, sectors, difat.sectors, difat.fat_sectors);
    let allocator = match tables {
        Ok(allocator) => allocator,
        Err(refused) => return Err(refused),
    };
    Ok(Tables {
        header,
        len,
        difat_stop: difat.stop,
        allocator,
    })
}
