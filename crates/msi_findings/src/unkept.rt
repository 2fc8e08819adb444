//! Texts of the string pool that its page doesn't give back.
ghost use Rattle.std.specs.Prelude.{◌≡◌, ◌↔◌, ◌<◌, ◌^◌, [], length, true, IfErr, IfOk};
ghost use Rattle.cfb.specs.Streams.{FileHoldsTree};
ghost use Rattle.cfb.specs.Views.{file_case_table, mini_of, OnlyReadsFile};
ghost use Rattle.cfb_fat.specs.Tables.{IsJustifiedBySectors};
ghost use Rattle.cfb_mini.specs.Views.{allocator_of};
ghost use Rattle.cfb_tree.specs.Tree.{Tree};
ghost use Rattle.msi_parts.specs.Held.{ArePartsOfTree};
ghost use Rattle.msi_parts.specs.declared.parts.PackageParts.{PackageParts};
ghost use Rattle.msi_stored.specs.Reading.{IsOpeningError, ReturnsOrFault};
ghost use Rattle.msi_texts.specs.Results.{ReturnsOrOutOfMemory};
ghost use Rattle.msi_findings.specs.Unkept.{pool_heads, unkept_at, unkept_behind, unkept_texts};

use crate::giving::gives_back;
use crate::heads::read_pool;
use cfb::CompoundFile;
use cfb_medium::{Error, ReadMedium};
use msi_store::table_bytes;
use msi_texts::CodePage;
use std::alloc::Global;

/// The places of the pool whose texts the code page of the database doesn't give back, in order: decoded and encoded again they have other
/// bytes. `NotFound` where a stream of the pool is missing, `InvalidData` or `UnexpectedEof` where they aren't read as a pool; the other
/// errors are faults. The file is only read, one of the two streams after the other.
pub fn unkept_texts<F: ReadMedium>(
    alloc: Global,
    file: &mut CompoundFile<F>,
) -> Result<Vec<u32>, Error>
    ensures answer { (tree : Tree) → FileHoldsTree file.old tree
        → ReturnsOrFault (λ found. found.items)
        (unkept_texts (file_case_table file.old) tree) result }
    ensures none { (tree : Tree) (parts : PackageParts) → FileHoldsTree file.old tree
        → ArePartsOfTree (file_case_table file.old) tree parts
        → IfOk result (λ found. (found.items ≡ []) ↔ (parts.gives_back ≡ true)) }
    ensures only_reads { OnlyReadsFile file.old file.new }
    ensures cause { IfErr result (IsJustifiedBySectors (allocator_of (mini_of file.old))
        (allocator_of (mini_of file.new))) }
    ensures errors { IfErr result IsOpeningError }
{
    match heads_of_pool(alloc, file) {
        Ok((codepage, heads)) => unkept_behind(alloc, file, codepage, &heads),
        Err(error) => Err(error),
    }
}

// What the first of the pool's streams tells of the second.
fn heads_of_pool<F: ReadMedium>(
    alloc: Global,
    file: &mut CompoundFile<F>,
) -> Result<(CodePage, Vec<(u32, u16)>), Error>
    ensures answer { (tree : Tree) → FileHoldsTree file.old tree
        → ReturnsOrFault (λ pool. (pool.0, pool.1.items))
        (pool_heads (file_case_table file.old) tree) result }
    ensures few { IfOk result (λ pool. length pool.1.items < 2 ^ 32) }
    ensures only_reads { OnlyReadsFile file.old file.new }
    ensures cause { IfErr result (IsJustifiedBySectors (allocator_of (mini_of file.old))
        (allocator_of (mini_of file.new))) }
    ensures errors { IfErr result IsOpeningError }
{
    match table_bytes(alloc, file, "_StringPool") {
        Ok(Some(bytes)) => read_pool(alloc, &bytes),
        Ok(None) => Err(Error::NotFound),
        Err(error) => Err(error),
    }
}

// The places of the texts of the second that the page doesn't give back, by what the first tells.
fn unkept_behind<F: ReadMedium>(
    alloc: Global,
    file: &mut CompoundFile<F>,
    codepage: CodePage,
    heads: &[(u32, u16)],
) -> Result<Vec<u32>, Error>
    requires { length heads.now < 2 ^ 32 }
    ensures answer { (tree : Tree) → FileHoldsTree file.old tree
        → ReturnsOrFault (λ found. found.items)
        (unkept_behind (file_case_table file.old) tree codepage heads.now) result }
    ensures only_reads { OnlyReadsFile file.old file.new }
    ensures cause { IfErr result (IsJustifiedBySectors (allocator_of (mini_of file.old))
        (allocator_of (mini_of file.new))) }
    ensures errors { IfErr result IsOpeningError }
{
    match table_bytes(alloc, file, "_StringData") {
        Ok(Some(bytes)) => unkept_places(alloc, codepage, heads, &bytes),
        Ok(None) => Err(Error::NotFound),
        Err(error) => Err(error),
    }
}

// The places of the texts of the data stream that the page doesn't give back, in order. `UnexpectedEof` where bytes are missing.
fn unkept_places(
    alloc: Global,
    codepage: CodePage,
    heads: &[(u32, u16)],
    bytes: &[u8],
) -> Result<Vec<u32>, Error>
    requires { length heads.now < 2 ^ 32 }
    ensures { ReturnsOrOutOfMemory (λ found. found.items) result
        (unkept_at codepage heads.now bytes.now) }
{
    let mut rest = bytes;
    let mut found = Vec::new(alloc);
    let mut place = 0;
    for (len, _) in heads {
        let (text, behind) = rest
            .split_at_checked(*len as usize)
            .ok_or(Error::UnexpectedEof)?;
        place += 1;
        if !gives_back(alloc, codepage, text)? {
            found.push(place)?;
        }
        rest = behind;
    }
    Ok(found)
}
