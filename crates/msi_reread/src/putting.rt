//! Streams that get the bytes of texts in UTF-8, in the place of their own.
ghost use Rattle.std.specs.Prelude.{◌≡◌, ◌⊎◌, ◌∷◌, ◌≤◌, [], false, length, string_bytes, true, IfErr, IfOk, OnErr, OnOk, Some};
ghost use Rattle.cfb.specs.FollowedRules.{FileMeansTree};
ghost use Rattle.cfb.specs.Putting.{IsRefusedRewriting, KeepsMeant};
ghost use Rattle.cfb.specs.Views.{file_case_table, mini_of};
ghost use Rattle.cfb_chain_io.specs.ChainEffects.{KeepsFileInvariants};
ghost use Rattle.cfb_entries.specs.Rules.{names_in};
ghost use Rattle.cfb_fat.specs.Calls.{FatErrorContract};
ghost use Rattle.cfb_fat.specs.Tables.{has_failed_here};
ghost use Rattle.cfb_medium.specs.declared.error.Error.TheVariants.{Memory};
ghost use Rattle.cfb_mini.specs.Views.{allocator_of};
ghost use Rattle.cfb_tree.specs.Tree.{Tree};
ghost use Rattle.cfb_tree_edits.specs.LiveTreeRules.{IsFaultOrFull};
ghost use Rattle.msi_reread.specs.Reread.{with_stream, HasPoolStreams, HasSummaryStream};
ghost use Rattle.msi_spec.specs.Opening.{keeps_encoded_names};
ghost use Rattle.msi_spec.specs.Package.{data_name, has_slash, pool_name, stream_name, summary_name};
ghost use Rattle.msi_streams.specs.Writing.{most_bytes};

use cfb::CompoundFile;
use cfb_medium::{Error, Medium};
use msi_texts::{SUMMARY_INFO_STREAM_NAME, encode};
use std::alloc::Global;

// The path of a table's stream. The one error is want of memory.
pub(crate) fn table_path(alloc: Global, name: &str) -> Result<String, Error>
    requires { has_slash name.now ≡ false }
    ensures path { IfOk result (λ text. names_in (string_bytes text)
        ≡ Some (stream_name name.now ∷ [])) }
    ensures errors { IfErr result (λ e. e ≡ Memory) }
{
    encode(alloc, name, true)
}

// Gives both streams of the pool these bytes in the place of their own. After an error nothing is changed, or the file has failed.
pub(crate) fn put_pool<F: Medium>(
    file: &mut CompoundFile<F>,
    pool_path: &str,
    data_path: &str,
    pool: &[u8],
    data: &[u8],
) -> Result<(), Error>
    requires pool_at { names_in pool_path.now ≡ Some (stream_name pool_name ∷ []) }
    requires data_at { names_in data_path.now ≡ Some (stream_name data_name ∷ []) }
    requires short { (length pool.now ≤ most_bytes file.old)
        × (length data.now ≤ most_bytes file.old) }
    ensures done { OnOk result ((tree : Tree) → FileMeansTree file.old tree
        → FileMeansTree file.new (with_stream (file_case_table file.old) (stream_name data_name)
        data.now (with_stream (file_case_table file.old) (stream_name pool_name) pool.now tree))) }
    ensures refused_only_if { IfErr result (λ e. (tree : Tree) → FileMeansTree file.old tree
        → keeps_encoded_names (file_case_table file.old) ≡ true
        → HasPoolStreams (file_case_table file.old) tree → IsFaultOrFull e) }
    ensures rests { OnErr result
        ((has_failed_here (allocator_of (mini_of file.new)) ≡ true) ⊎ KeepsMeant file.old file.new) }
    ensures letters { file_case_table file.new ≡ file_case_table file.old }
    ensures invariants { KeepsFileInvariants (allocator_of (mini_of file.old))
        (allocator_of (mini_of file.new)) }
    ensures error_contract { FatErrorContract IsRefusedRewriting result
        (allocator_of (mini_of file.old))
        (allocator_of (mini_of file.new)) }
{
    if let Err(error) = file.rewrite_stream(pool_path, pool) {
        return Err(error);
    }
    if let Err(error) = file.rewrite_stream(data_path, data) {
        file.fail();
        return Err(error);
    }
    Ok(())
}

// Gives the summary's stream these bytes in the place of its own. After an error nothing is changed, or the file has failed.
pub(crate) fn put_summary<F: Medium>(file: &mut CompoundFile<F>, bytes: &[u8]) -> Result<(), Error>
    requires { length bytes.now ≤ most_bytes file.old }
    ensures done { OnOk result ((tree : Tree) → FileMeansTree file.old tree
        → FileMeansTree file.new
        (with_stream (file_case_table file.old) summary_name bytes.now tree)) }
    ensures refused_only_if { IfErr result (λ e. (tree : Tree) → FileMeansTree file.old tree
        → HasSummaryStream (file_case_table file.old) tree → IsFaultOrFull e) }
    ensures rests { OnErr result
        ((has_failed_here (allocator_of (mini_of file.new)) ≡ true) ⊎ KeepsMeant file.old file.new) }
    ensures letters { file_case_table file.new ≡ file_case_table file.old }
    ensures invariants { KeepsFileInvariants (allocator_of (mini_of file.old))
        (allocator_of (mini_of file.new)) }
    ensures error_contract { FatErrorContract IsRefusedRewriting result
        (allocator_of (mini_of file.old))
        (allocator_of (mini_of file.new)) }
{
    file.rewrite_stream(SUMMARY_INFO_STREAM_NAME, bytes)
}
