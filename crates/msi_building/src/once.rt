//! A copy of a package in which each text stands at as few places of the pool as its uses need. Nothing is claimed of what writes it: what was
//! made is opened, judged and compared before it is answered.
ghost use Rattle.cfb.specs.Views.{file_case_table};
ghost use Rattle.msi.specs.Opened.{file_in, sound_in, PackageHasContent};
ghost use Rattle.msi_building.specs.Agreeing.{Agree};
ghost use Rattle.msi_spec.specs.Package.{PackageContent};
ghost use Rattle.std.specs.Prelude.{◌≡◌, IfOk, IsTrue};

use crate::agreeing::agree;
use crate::assembling::{bytes_of_rows, put_stream_of_table};
use crate::building::opened;
use crate::joining::{Move, joined_pool, moved_rows};
use crate::objects::{are_same_objects, objects_of};
use crate::twice::texts_twice;
use cfb::{CaseMapper, CompoundFile};
use cfb_medium::{Error, MemoryMedium};
use msi::Package;
use msi_parts::PackageParts;
use msi_pool::{StringPool, ValueRef};
use msi_store::{read_parts, rows_of_table};
use msi_tables::Table;
use std::alloc::Global;

/// Whether a text stands at more places of a package's pool than its uses need; and the package's bytes.
pub fn has_texts_twice(alloc: Global, medium: MemoryMedium) -> Result<(MemoryMedium, bool), Error> {
    let mut file = container_in(alloc, medium)?;
    let is_twice = is_twice_in(alloc, &mut file)?;
    Ok((medium_of(file), is_twice))
}

/// A copy of a sound package in memory in which each text stands at as few places of the pool as its uses need, the least first. It is sound, and
/// says what the package does: code page, tables with their columns and rows, summary, streams. Texts stand there in the order in which they
/// first stood in the package; rows are stored in order. What was written is opened as any package, judged and compared: `InvalidData` where
/// it isn't sound, says anything else, another object differs, or such a text is left. The package is flushed.
pub fn with_texts_once(
    alloc: Global,
    it: &mut Package<MemoryMedium>,
) -> Result<Package<MemoryMedium>, Error>
    ensures { (P : PackageContent) → PackageHasContent it.old P
        → IsTrue (sound_in it.old)
        → IfOk result (λ made. IsTrue (sound_in made) × (Q : PackageContent) × PackageHasContent made Q
        × Agree (file_case_table (file_in it.old)) P (file_case_table (file_in made)) Q) }
{
    let written = rewritten(alloc, copy_of(alloc, it)?)?;
    let mut made = opened(alloc, written)?;
    if !made.is_sound() {
        return Err(Error::InvalidData);
    }
    if !agree(alloc, it, &mut made)? {
        return Err(Error::InvalidData);
    }
    Ok(made)
}

// The bytes of a package.
fn copy_of(alloc: Global, it: &mut Package<MemoryMedium>) -> Result<MemoryMedium, Error>
    ensures held { (P : PackageContent) → PackageHasContent it.old P
        → IsTrue (sound_in it.old) → IfOk result (λ _. PackageHasContent it.new P) }
    ensures letters { file_case_table (file_in it.new)
        ≡ file_case_table (file_in it.old) }
{
    let mut copy = MemoryMedium::new(alloc);
    it.copy_to(&mut copy)?;
    Ok(copy)
}

// The bytes of a package in which pool and tables were written anew. `InvalidData` where another object isn't as it was, or a text stands at more
// places than its uses need.
fn rewritten(alloc: Global, medium: MemoryMedium) -> Result<MemoryMedium, Error> {
    let mut file = container_in(alloc, medium)?;
    rewrite_all(alloc, &mut file)?;
    Ok(medium_of(file))
}

fn rewrite_all(alloc: Global, file: &mut CompoundFile<MemoryMedium>) -> Result<(), Error> {
    let before = objects_of(alloc, file)?;
    rewrite(alloc, file)?;
    if is_twice_in(alloc, file)? || !are_same_objects(&before, &objects_of(alloc, file)?) {
        return Err(Error::InvalidData);
    }
    Ok(())
}

fn container_in(alloc: Global, medium: MemoryMedium) -> Result<CompoundFile<MemoryMedium>, Error> {
    let letters = CaseMapper::ascii(alloc)?;
    match CompoundFile::open(alloc, medium, letters) {
        Ok(file) => Ok(file),
        Err((_medium, error)) => Err(error),
    }
}

fn is_twice_in(alloc: Global, file: &mut CompoundFile<MemoryMedium>) -> Result<bool, Error> {
    let parts = parts_in(alloc, file)?;
    Ok(!texts_twice(alloc, &parts.pool)?.is_empty())
}

// Functions of their own, since what is told of these calls costs time wherever it is seen.
fn medium_of(file: CompoundFile<MemoryMedium>) -> MemoryMedium {
    file.into_inner()
}

fn parts_in(alloc: Global, file: &mut CompoundFile<MemoryMedium>) -> Result<PackageParts, Error> {
    read_parts(alloc, file)
}

fn rows_in(
    alloc: Global,
    file: &mut CompoundFile<MemoryMedium>,
    table: &Table,
) -> Result<Vec<Vec<ValueRef>>, Error> {
    rows_of_table(alloc, file, table)
}

// Writes pool and tables of a package anew.
fn rewrite(alloc: Global, file: &mut CompoundFile<MemoryMedium>) -> Result<(), Error> {
    let parts = parts_in(alloc, file)?;
    let (pool, mut moves) = joined_pool(alloc, &parts.pool)?;
    for table in &parts.tables {
        rewrite_table(alloc, file, table, &mut moves)?;
    }
    rewrite_pool(alloc, file, &pool)?;
    file.flush()
}

// Writes the rows of a table anew. One without rows is left as it is.
fn rewrite_table(
    alloc: Global,
    file: &mut CompoundFile<MemoryMedium>,
    table: &Table,
    moves: &mut [Option<Move>],
) -> Result<(), Error> {
    let rows = moved_rows(alloc, &rows_in(alloc, file, table)?, moves)?;
    if rows.is_empty() {
        return Ok(());
    }
    let bytes = bytes_of_rows(alloc, table, rows)?;
    put_stream_of_table(alloc, file, table.name(), &bytes)
}

// Writes the two streams of the pool.
fn rewrite_pool(
    alloc: Global,
    file: &mut CompoundFile<MemoryMedium>,
    pool: &StringPool,
) -> Result<(), Error> {
    let mut heads = Vec::new(alloc);
    pool.write_pool(&mut heads)?;
    let mut texts = Vec::new(alloc);
    pool.write_data(&mut texts)?;
    put_stream_of_table(alloc, file, "_StringPool", &heads)?;
    put_stream_of_table(alloc, file, "_StringData", &texts)
}
