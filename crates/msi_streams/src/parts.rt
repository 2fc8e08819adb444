//! The pool and the summary of a package, written to their streams.
ghost use Rattle.std.specs.Prelude.{◌≡◌, ◌<◌, ◌⊎◌, ◌∷◌, ◌≤◌, [], false, true, length, string_bytes, IfErr, IfOk, Some};
ghost use Rattle.cfb.specs.Putting.{IsPutStreamError, KeepsMeant};
ghost use Rattle.cfb.specs.Views.{mini_of};
ghost use Rattle.cfb_entries.specs.Rules.{names_in};
ghost use Rattle.cfb_fat.specs.Calls.{FatErrorContract};
ghost use Rattle.cfb_tree_edits.specs.LiveTreeRules.{IsFaultOrFull};
ghost use Rattle.cfb_medium.specs.declared.error.Error.TheVariants.{InvalidInput, Memory};
ghost use Rattle.cfb_mini.specs.Views.{allocator_of};
ghost use Rattle.cfb_chain_io.specs.ChainEffects.{KeepsFileInvariants};
ghost use Rattle.cfb_tree.specs.Names.{CaseTable};
ghost use Rattle.cfb_tree.specs.Tree.{Tree};
ghost use Rattle.msi_spec.specs.Package.{data_name, has_slash, objects, pool_name, stream_at, stream_name, summary_name, table_stream};
ghost use Rattle.msi_spec.specs.Split.{HasPool, HasSummary};
ghost use Rattle.msi_pool.specs.Pool.{data_stream, pool_stream, Pool};
ghost use Rattle.msi_pool.specs.PoolKept.{IsWritable};
ghost use Rattle.msi_pool.specs.PoolState.{is_in_size};
ghost use Rattle.msi_props.specs.Kept.{SetIsWritable};
ghost use Rattle.msi_props.specs.Props.{is_in_size as set_is_in_size, props_bytes, Props};
ghost use Rattle.msi_summary.specs.Summary.{summary_format};
ghost use Rattle.msi_streams.specs.Parts.{bytes_of_parts, FillsParts, IsTooLong, OfPackage, WritesPackageParts};
ghost use Rattle.msi_streams.specs.Writing.{most_bytes};

use crate::checking::check_changeable;
use cfb::CompoundFile;
use cfb_medium::{Error, Medium};
use msi_pool::StringPool;
use msi_summary::SummaryInfo;
use msi_texts::{SUMMARY_INFO_STREAM_NAME, encode};
use std::alloc::Global;

// The path of a table's stream. The one error is want of memory.
fn table_path(alloc: Global, name: &str) -> Result<String, Error>
    requires { has_slash name.now ≡ false }
    ensures path { IfOk result (λ text. names_in (string_bytes text)
        ≡ Some (stream_name name.now ∷ [])) }
    ensures errors { IfErr result (λ e. e ≡ Memory) }
{
    encode(alloc, name, true)
}

// Puts the three streams: the summary's, and the two of the pool, whose paths are given. Each has at most as many bytes as a stream of
// the file can have. After an error nothing is changed, or the file has failed.
fn put_parts<F: Medium>(
    file: &mut CompoundFile<F>,
    pool_path: &str,
    data_path: &str,
    summary: &[u8],
    pool: &[u8],
    pool_data: &[u8],
) -> Result<(), Error>
    requires pool_at { names_in pool_path.now ≡ Some (stream_name pool_name ∷ []) }
    requires data_at { names_in data_path.now ≡ Some (stream_name data_name ∷ []) }
    requires short { (length summary.now ≤ most_bytes file.old)
        × (length pool.now ≤ most_bytes file.old) × (length pool_data.now ≤ most_bytes file.old) }
    ensures changes { WritesPackageParts
        (record { summary = summary.now; pool = pool.now; pool_data = pool_data.now })
        result file.old file.new }
    ensures refused_only_if { IfErr result (λ e. OfPackage file.old (IsFaultOrFull e)) }
    ensures full_only_if { FillsParts (length summary.now) result file.old file.new }
    ensures invariants { KeepsFileInvariants (allocator_of (mini_of file.old))
        (allocator_of (mini_of file.new)) }
    ensures error_contract { FatErrorContract IsPutStreamError result
        (allocator_of (mini_of file.old))
        (allocator_of (mini_of file.new)) }
{
    if let Err(error) = file.put_stream(SUMMARY_INFO_STREAM_NAME, summary) {
        return Err(error);
    }
    if let Err(error) = file.put_stream(pool_path, pool) {
        file.fail();
        return Err(error);
    }
    if let Err(error) = file.put_stream(data_path, pool_data) {
        file.fail();
        return Err(error);
    }
    Ok(())
}

// The bytes of the three streams: the summary's, and the two of the pool. `InvalidInput` where one or a text of the pool would reach
// 2^32 - 1 bytes. The other error is want of memory.
fn part_bytes(
    alloc: Global,
    pool: &StringPool,
    summary: &SummaryInfo,
) -> Result<(Vec<u8>, Vec<u8>, Vec<u8>), Error>
    ensures made { IfOk result (λ b. (b.0.items ≡ props_bytes summary.now.props)
        × (b.1.items ≡ pool_stream pool.now.pool) × (b.2.items ≡ data_stream pool.now.pool)) }
    ensures errors { IfErr result (λ e. (e ≡ Memory) ⊎ ((e ≡ InvalidInput)
        × ((set_is_in_size summary.now.props ≡ false) ⊎ (is_in_size pool.now.pool ≡ false)))) }
{
    let mut summary_bytes = Vec::new(alloc);
    if let Err(error) = summary.write(&mut summary_bytes) {
        return Err(error);
    }
    let mut pool_bytes = Vec::new(alloc);
    if let Err(error) = pool.write_pool(&mut pool_bytes) {
        return Err(error);
    }
    let mut data_bytes = Vec::new(alloc);
    if let Err(error) = pool.write_data(&mut data_bytes) {
        return Err(error);
    }
    Ok((summary_bytes, pool_bytes, data_bytes))
}

// Whether each of the three has at most so many bytes.
fn are_short(most: u64, summary: &[u8], pool: &[u8], pool_data: &[u8]) -> bool
    ensures short { result ≡ true → (length summary.now ≤ most) × (length pool.now ≤ most)
        × (length pool_data.now ≤ most) }
    ensures long { result ≡ false → (most < length summary.now) ⊎ (most < length pool.now)
        ⊎ (most < length pool_data.now) }
{
    if summary.len() as u64 > most {
        return false;
    }
    if pool.len() as u64 > most {
        return false;
    }
    pool_data.len() as u64 <= most
}

/// Writes a pool and a summary to the streams that a package's file has for them; all bytes are made before the first is written.
/// `Failed` after an earlier fault, `InvalidData` where the file isn't sound; then `InvalidInput` where a stream has more bytes than it
/// can, or a text of the pool would reach 2^32 - 1 bytes. `AlreadyExists` where a storage stands in the place of one of the streams;
/// `Full` where numbers of entries or sectors are missing for the summary, or, in a file that has failed by that, for another stream.
/// The other errors are `Memory` and `Device`. After an error nothing is changed, or the file has failed: so it has where the first of
/// the streams was written, and another wasn't.
pub fn write_parts<F: Medium>(
    alloc: Global,
    file: &mut CompoundFile<F>,
    pool: &StringPool,
    summary: &SummaryInfo,
) -> Result<(), Error>
    ensures changes { WritesPackageParts
        (bytes_of_parts pool.now.pool summary.now.props) result file.old
        file.new }
    ensures refused_only_if { IfErr result
        (λ e. OfPackage file.old (IsFaultOrFull e ⊎ ((e ≡ InvalidInput)
        × IsTooLong (most_bytes file.old) pool.now.pool summary.now.props
        × KeepsMeant file.old file.new))) }
    ensures full_only_if { FillsParts
        (length (props_bytes summary.now.props)) result file.old file.new }
    ensures invariants { KeepsFileInvariants (allocator_of (mini_of file.old))
        (allocator_of (mini_of file.new)) }
    ensures error_contract { FatErrorContract IsPutStreamError result
        (allocator_of (mini_of file.old))
        (allocator_of (mini_of file.new)) }
{
    if let Err(error) = check_changeable(file) {
        return Err(error);
    }
    let (summary_bytes, pool_bytes, data_bytes) = match part_bytes(alloc, pool, summary) {
        Ok(bytes) => bytes,
        Err(error) => return Err(error),
    };
    let pool_path = match table_path(alloc, "_StringPool") {
        Ok(path) => path,
        Err(error) => return Err(error),
    };
    let data_path = match table_path(alloc, "_StringData") {
        Ok(path) => path,
        Err(error) => return Err(error),
    };
    let most = file.version().stream_len_mask();
    if !are_short(most, &summary_bytes, &pool_bytes, &data_bytes) {
        return Err(Error::InvalidInput);
    }
    put_parts(
        file,
        &pool_path,
        &data_path,
        &summary_bytes,
        &pool_bytes,
        &data_bytes,
    )
}

/// Streams that were written so hold the pool and the summary, where these can be written and the summary is of one section.
pub fn written_parts_are_held()
    ensures pool { (letters : CaseTable) (tree : Tree) (pool : Pool) → IsWritable pool
        → table_stream letters (objects tree.content) pool_name ≡ Some (pool_stream pool)
        → table_stream letters (objects tree.content) data_name ≡ Some (data_stream pool)
        → HasPool letters tree pool }
    ensures summary { (letters : CaseTable) (tree : Tree) (summary : Props) → SetIsWritable summary
        → summary.sections ≡ 1 → summary.format ≡ summary_format
        → stream_at letters (objects tree.content) summary_name ≡ Some (props_bytes summary)
        → HasSummary letters tree summary }
{}
