//! A package's file whose texts are put in UTF-8, as code pages of one's choice read them.
ghost use Rattle.std.specs.Prelude.{◌≡◌, ◌⊎◌, false, true, Err, IfErr, IfOk, OnErr, OnOk};
ghost use Rattle.cfb.specs.FollowedRules.{FileMeansTree};
ghost use Rattle.cfb.specs.Putting.{KeepsMeant};
ghost use Rattle.cfb.specs.Views.{file_case_table, mini_of};
ghost use Rattle.cfb_chain_io.specs.ChainEffects.{KeepsFileInvariants};
ghost use Rattle.cfb_fat.specs.Tables.{has_failed_here, IsJustifiedBySectors};
ghost use Rattle.cfb_mini.specs.Views.{allocator_of};
ghost use Rattle.cfb_tree.specs.Tree.{Tree};
ghost use Rattle.cfb_tree_edits.specs.LiveTreeRules.{IsFaultOrFull};
ghost use Rattle.msi_spec.specs.Opening.{keeps_encoded_names};
ghost use Rattle.msi_reread.specs.Reread.{summary_by, texts_by, with_stream, with_texts, AreTextsReread, HasPoolStreams, HasSummaryStream, IsReread, IsSummaryReread, SummaryStep, TextsStep};
ghost use Rattle.msi_spec.specs.Package.{summary_name};

use crate::putting::{put_pool, put_summary, table_path};
use crate::reading::{summary_in, texts_in};
use cfb::CompoundFile;
use cfb_medium::{Error, Medium};
use reread_texts::{RereadPool, RereadSummary, TextPage};
use std::alloc::Global;

/// By which code pages the texts of a package are read. A part without one stays as it is.
#[derive(Clone, Copy, Debug)]
pub struct Pages {
    /// That of the texts of its tables.
    pub texts: Option<TextPage>,
    /// That of its summary.
    pub summary: Option<TextPage>,
}

/// Which texts have bytes without a character in their page: U+FFFD stands there.
#[derive(Debug, Drop)]
pub struct Lacking {
    /// The places of texts of tables in the string pool, rising.
    pub texts: Vec<u32>,
    /// The numbers of properties of the summary, rising.
    pub summary: Vec<u32>,
}

/// Puts the texts of a package in UTF-8, as these pages read them, whatever pages it names: both streams of its string pool, and its summary.
/// All else stays. `Failed` after an earlier fault, `InvalidData` where the file isn't sound; then `NotFound` where such a stream is missing,
/// and what `reread_pool` and `reread_summary` refuse. `Full` where a stream would be longer than one can be, or numbers of sectors are missing.
/// The other errors are `Memory` and `Device`. After an error one part may stand in UTF-8, and the other not. Nothing is published.
pub fn reread<F: Medium>(
    alloc: Global,
    file: &mut CompoundFile<F>,
    pages: Pages,
) -> Result<Lacking, Error>
    ensures reread { (tree : Tree) → FileMeansTree file.old tree
        → IfOk result (λ it. (after : Tree) × FileMeansTree file.new after
        × IsReread (file_case_table file.old) pages.texts pages.summary tree after
        it.texts.items it.summary.items) }
    ensures letters { file_case_table file.new ≡ file_case_table file.old }
    ensures invariants { KeepsFileInvariants (allocator_of (mini_of file.old))
        (allocator_of (mini_of file.new)) }
    ensures cause { has_failed_here (allocator_of (mini_of file.old)) ≡ false
        → IfErr result (IsJustifiedBySectors (allocator_of (mini_of file.old))
        (allocator_of (mini_of file.new))) }
{
    let texts = match texts_step(alloc, file, pages.texts) {
        Ok(texts) => texts,
        Err(error) => return Err(error),
    };
    match summary_step(alloc, file, pages.summary) {
        Ok(summary) => Ok(Lacking { texts, summary }),
        Err(error) => Err(error),
    }
}

// The texts of tables, where they have a page.
fn texts_step<F: Medium>(
    alloc: Global,
    file: &mut CompoundFile<F>,
    page: Option<TextPage>,
) -> Result<Vec<u32>, Error>
    ensures reread { (tree : Tree) → FileMeansTree file.old tree → IfOk result
        (λ lacking. (after : Tree) × FileMeansTree file.new after
        × TextsStep (file_case_table file.old) page tree after lacking.items) }
    ensures live { OnOk result (has_failed_here (allocator_of (mini_of file.old)) ≡ false
        → has_failed_here (allocator_of (mini_of file.new)) ≡ false) }
    ensures letters { file_case_table file.new ≡ file_case_table file.old }
    ensures invariants { KeepsFileInvariants (allocator_of (mini_of file.old))
        (allocator_of (mini_of file.new)) }
    ensures cause { IfErr result (IsJustifiedBySectors (allocator_of (mini_of file.old))
        (allocator_of (mini_of file.new))) }
{
    match page {
        Some(page) => reread_texts(alloc, file, page),
        None => Ok(Vec::new(alloc)),
    }
}

// The summary, where it has a page.
fn summary_step<F: Medium>(
    alloc: Global,
    file: &mut CompoundFile<F>,
    page: Option<TextPage>,
) -> Result<Vec<u32>, Error>
    ensures reread { (tree : Tree) → FileMeansTree file.old tree → IfOk result
        (λ lacking. (after : Tree) × FileMeansTree file.new after
        × SummaryStep (file_case_table file.old) page tree after lacking.items) }
    ensures letters { file_case_table file.new ≡ file_case_table file.old }
    ensures invariants { KeepsFileInvariants (allocator_of (mini_of file.old))
        (allocator_of (mini_of file.new)) }
    ensures cause { IfErr result (IsJustifiedBySectors (allocator_of (mini_of file.old))
        (allocator_of (mini_of file.new))) }
{
    match page {
        Some(page) => reread_properties(alloc, file, page),
        None => Ok(Vec::new(alloc)),
    }
}

/// Puts the texts of a package's tables in UTF-8, as this page reads them: both streams of its string pool get other bytes, and all else stays.
/// The places of the texts of which bytes have no character, rising. `Failed` after an earlier fault, `InvalidData` where the file isn't sound;
/// then `NotFound` where a stream of the pool is missing, and what `reread_pool` refuses. `Full` where a stream would be longer than one can
/// be, or numbers of sectors are missing. The other errors are `Memory` and `Device`. After an error nothing is changed, or the file has
/// failed. Nothing is published.
pub fn reread_texts<F: Medium>(
    alloc: Global,
    file: &mut CompoundFile<F>,
    page: TextPage,
) -> Result<Vec<u32>, Error>
    ensures reread { (tree : Tree) → FileMeansTree file.old tree → IfOk result
        (λ lacking. (after : Tree) × FileMeansTree file.new after
        × AreTextsReread (file_case_table file.old) page tree after lacking.items) }
    ensures refused_only_if { IfErr result (λ e. (tree : Tree) → FileMeansTree file.old tree
        → keeps_encoded_names (file_case_table file.old) ≡ true → IsFaultOrFull e
        ⊎ (texts_by (file_case_table file.old) page tree ≡ Err e)) }
    ensures rests { OnErr result
        ((has_failed_here (allocator_of (mini_of file.new)) ≡ true) ⊎ KeepsMeant file.old file.new) }
    ensures live { OnOk result (has_failed_here (allocator_of (mini_of file.new)) ≡ false) }
    ensures letters { file_case_table file.new ≡ file_case_table file.old }
    ensures invariants { KeepsFileInvariants (allocator_of (mini_of file.old))
        (allocator_of (mini_of file.new)) }
    ensures cause { IfErr result (IsJustifiedBySectors (allocator_of (mini_of file.old))
        (allocator_of (mini_of file.new))) }
{
    match texts_in(alloc, file, page) {
        Ok(streams) => put_texts(alloc, file, streams),
        Err(error) => Err(error),
    }
}

// Gives the pool these streams in the place of its own. `Full` where one is longer than a stream can be.
fn put_texts<F: Medium>(
    alloc: Global,
    file: &mut CompoundFile<F>,
    streams: RereadPool,
) -> Result<Vec<u32>, Error>
    ensures done { (tree : Tree) → FileMeansTree file.old tree → IfOk result (λ lacking.
        FileMeansTree file.new
        (with_texts (file_case_table file.old) streams.pool.items streams.data.items tree)
        × (lacking.items ≡ streams.lacking.items)) }
    ensures refused_only_if { IfErr result (λ e. (tree : Tree) → FileMeansTree file.old tree
        → keeps_encoded_names (file_case_table file.old) ≡ true
        → HasPoolStreams (file_case_table file.old) tree → IsFaultOrFull e) }
    ensures rests { OnErr result
        ((has_failed_here (allocator_of (mini_of file.new)) ≡ true) ⊎ KeepsMeant file.old file.new) }
    ensures live { OnOk result (has_failed_here (allocator_of (mini_of file.new)) ≡ false) }
    ensures letters { file_case_table file.new ≡ file_case_table file.old }
    ensures invariants { KeepsFileInvariants (allocator_of (mini_of file.old))
        (allocator_of (mini_of file.new)) }
    ensures cause { IfErr result (IsJustifiedBySectors (allocator_of (mini_of file.old))
        (allocator_of (mini_of file.new))) }
{
    let pool_path = match table_path(alloc, "_StringPool") {
        Ok(path) => path,
        Err(error) => return Err(error),
    };
    let data_path = match table_path(alloc, "_StringData") {
        Ok(path) => path,
        Err(error) => return Err(error),
    };
    let most = file.version().stream_len_mask();
    if most < streams.pool.len() as u64 || most < streams.data.len() as u64 {
        return Err(Error::Full);
    }
    match put_pool(file, &pool_path, &data_path, &streams.pool, &streams.data) {
        Ok(()) => Ok(streams.lacking),
        Err(error) => Err(error),
    }
}

/// Puts the texts of a package's summary in UTF-8, as this page reads them, whatever page it tells: its stream gets other bytes, and all else
/// stays. The numbers of the properties of which bytes have no character, rising. Errors are those of `reread_texts`, with `NotFound` for the
/// summary's stream, and what `reread_summary` refuses. After an error nothing is changed, or the file has failed. Nothing is published.
pub fn reread_properties<F: Medium>(
    alloc: Global,
    file: &mut CompoundFile<F>,
    page: TextPage,
) -> Result<Vec<u32>, Error>
    ensures reread { (tree : Tree) → FileMeansTree file.old tree → IfOk result
        (λ lacking. (after : Tree) × FileMeansTree file.new after
        × IsSummaryReread (file_case_table file.old) page tree after lacking.items) }
    ensures refused_only_if { IfErr result (λ e. (tree : Tree) → FileMeansTree file.old tree
        → IsFaultOrFull e
        ⊎ (summary_by (file_case_table file.old) page tree ≡ Err e)) }
    ensures rests { OnErr result
        ((has_failed_here (allocator_of (mini_of file.new)) ≡ true) ⊎ KeepsMeant file.old file.new) }
    ensures letters { file_case_table file.new ≡ file_case_table file.old }
    ensures invariants { KeepsFileInvariants (allocator_of (mini_of file.old))
        (allocator_of (mini_of file.new)) }
    ensures cause { IfErr result (IsJustifiedBySectors (allocator_of (mini_of file.old))
        (allocator_of (mini_of file.new))) }
{
    match summary_in(alloc, file, page) {
        Ok(summary) => put_properties(file, summary),
        Err(error) => Err(error),
    }
}

// Gives the summary's stream these bytes in the place of its own. `Full` where they are more than a stream can have.
fn put_properties<F: Medium>(
    file: &mut CompoundFile<F>,
    summary: RereadSummary,
) -> Result<Vec<u32>, Error>
    ensures done { (tree : Tree) → FileMeansTree file.old tree → IfOk result (λ lacking.
        FileMeansTree file.new
        (with_stream (file_case_table file.old) summary_name summary.bytes.items tree)
        × (lacking.items ≡ summary.lacking.items)) }
    ensures refused_only_if { IfErr result (λ e. (tree : Tree) → FileMeansTree file.old tree
        → HasSummaryStream (file_case_table file.old) tree → IsFaultOrFull e) }
    ensures rests { OnErr result
        ((has_failed_here (allocator_of (mini_of file.new)) ≡ true) ⊎ KeepsMeant file.old file.new) }
    ensures letters { file_case_table file.new ≡ file_case_table file.old }
    ensures invariants { KeepsFileInvariants (allocator_of (mini_of file.old))
        (allocator_of (mini_of file.new)) }
    ensures cause { IfErr result (IsJustifiedBySectors (allocator_of (mini_of file.old))
        (allocator_of (mini_of file.new))) }
{
    if file.version().stream_len_mask() < summary.bytes.len() as u64 {
        return Err(Error::Full);
    }
    match put_summary(file, &summary.bytes) {
        Ok(()) => Ok(summary.lacking),
        Err(error) => Err(error),
    }
}
