//! What a page makes of the streams of a package's file that have its texts.
ghost use Rattle.std.specs.Prelude.{IfErr};
ghost use Rattle.cfb.specs.Streams.{FileHoldsTree};
ghost use Rattle.cfb.specs.Views.{file_case_table, mini_of, OnlyReadsFile};
ghost use Rattle.cfb_fat.specs.Tables.{IsJustifiedBySectors};
ghost use Rattle.cfb_mini.specs.Views.{allocator_of};
ghost use Rattle.cfb_tree.specs.Tree.{Tree};
ghost use Rattle.msi_reread.specs.Reread.{summary_by, texts_after, texts_by, IsReadAs};
ghost use Rattle.msi_texts.specs.Results.{ReturnsOrOutOfMemory};
ghost use Rattle.reread_texts.specs.Sets.{set_reread};
ghost use Rattle.reread_texts.specs.Told.{told_in_utf8};

use cfb::CompoundFile;
use cfb_medium::{Error, ReadMedium};
use msi_store::{stream_bytes, table_bytes};
use msi_texts::SUMMARY_INFO_STREAM_NAME;
use reread_texts::{RereadPool, RereadSummary, TextPage, reread_pool, reread_summary, tell_utf8};
use std::alloc::Global;

// Both streams of the pool, with texts in UTF-8.
pub(crate) fn texts_in<F: ReadMedium>(
    alloc: Global,
    file: &mut CompoundFile<F>,
    page: TextPage,
) -> Result<RereadPool, Error>
    ensures answer { (tree : Tree) → FileHoldsTree file.old tree → IsReadAs
        (λ it. (it.pool.items, it.data.items, it.lacking.items)) result
        (texts_by (file_case_table file.old) page tree) }
    ensures only_reads { OnlyReadsFile file.old file.new }
    ensures cause { IfErr result (IsJustifiedBySectors (allocator_of (mini_of file.old))
        (allocator_of (mini_of file.new))) }
{
    match table_bytes(alloc, file, "_StringPool") {
        Ok(Some(pool)) => texts_of_pool(alloc, file, page, &pool),
        Ok(None) => Err(Error::NotFound),
        Err(error) => Err(error),
    }
}

// The same, where the first stream has these bytes.
fn texts_of_pool<F: ReadMedium>(
    alloc: Global,
    file: &mut CompoundFile<F>,
    page: TextPage,
    pool: &[u8],
) -> Result<RereadPool, Error>
    ensures answer { (tree : Tree) → FileHoldsTree file.old tree → IsReadAs
        (λ it. (it.pool.items, it.data.items, it.lacking.items)) result
        (texts_after (file_case_table file.old) page tree pool.now) }
    ensures only_reads { OnlyReadsFile file.old file.new }
    ensures cause { IfErr result (IsJustifiedBySectors (allocator_of (mini_of file.old))
        (allocator_of (mini_of file.new))) }
{
    match table_bytes(alloc, file, "_StringData") {
        Ok(Some(data)) => reread_pool(alloc, page, pool, &data),
        Ok(None) => Err(Error::NotFound),
        Err(error) => Err(error),
    }
}

// The summary, with texts in UTF-8.
pub(crate) fn summary_in<F: ReadMedium>(
    alloc: Global,
    file: &mut CompoundFile<F>,
    page: TextPage,
) -> Result<RereadSummary, Error>
    ensures answer { (tree : Tree) → FileHoldsTree file.old tree → IsReadAs
        (λ it. (it.bytes.items, it.lacking.items, it.sections)) result
        (summary_by (file_case_table file.old) page tree) }
    ensures only_reads { OnlyReadsFile file.old file.new }
    ensures cause { IfErr result (IsJustifiedBySectors (allocator_of (mini_of file.old))
        (allocator_of (mini_of file.new))) }
{
    match stream_bytes(file, SUMMARY_INFO_STREAM_NAME) {
        Ok(Some(bytes)) => summary_of(alloc, page, &bytes),
        Ok(None) => Err(Error::NotFound),
        Err(error) => Err(error),
    }
}

// The same of its bytes.
fn summary_of(alloc: Global, page: TextPage, bytes: &[u8]) -> Result<RereadSummary, Error>
    ensures { ReturnsOrOutOfMemory
        (λ it. (it.bytes.items, it.lacking.items, it.sections)) result
        (set_reread page (told_in_utf8 bytes.now)) }
{
    let told = tell_utf8(alloc, bytes)?;
    reread_summary(alloc, page, &told)
}
