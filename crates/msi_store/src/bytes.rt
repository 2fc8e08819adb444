//! The bytes of streams under the root, by their names.
ghost use Rattle.std.specs.Prelude.{◌≡◌, ◌⊎◌, ◌∷◌, [], chars, option_map, unwrap_or, IfErr, MatchResult, Some};
ghost use Rattle.cfb.specs.Streams.{FileHoldsTree};
ghost use Rattle.cfb.specs.Views.{file_case_table, mini_of, OnlyReadsFile};
ghost use Rattle.cfb_entries.specs.Rules.{names_in};
ghost use Rattle.cfb_fat.specs.Tables.{IsJustifiedBySectors};
ghost use Rattle.cfb_medium.specs.Calls.{IsFaultOrInvalidInputIf};
ghost use Rattle.cfb_medium.specs.declared.error.Error.TheVariants.{InvalidData};
ghost use Rattle.cfb_mini.specs.Views.{allocator_of};
ghost use Rattle.cfb_tree.specs.Tree.{Tree};
ghost use Rattle.msi_spec.specs.Package.{has_slash, objects, stream_at, stream_name, table_stream};
ghost use Rattle.msi_store.specs.Broken.{IsAsBroken};
ghost use Rattle.msi_stored.specs.Shown.{bytes_in, StoreShowsTree, IsLostAt};

use cfb::CompoundFile;
use cfb_medium::{Error, ReadMedium};
use msi_texts::encode;
use std::alloc::Global;

/// All bytes of the stream under the root that has this name in the container; none where no stream is there. `InvalidData`
/// where its chain breaks; the other errors are faults. The file is only read.
pub fn stream_bytes<F: ReadMedium>(
    file: &mut CompoundFile<F>,
    name: &str,
) -> Result<Option<Vec<u8>>, Error>
    requires { names_in name.now ≡ Some (chars name.now ∷ []) }
    ensures answer { (tree : Tree) → FileHoldsTree file.old tree → MatchResult result (λ found.
        stream_at (file_case_table file.old) (objects tree.content) (chars name.now)
        ≡ option_map (λ bytes. bytes.items) found) (IsFaultOrInvalidInputIf ⊥) }
    ensures shown { (tree : Tree) → StoreShowsTree file.old tree → MatchResult result (λ found.
        stream_at (file_case_table file.old) (objects tree.content) (chars name.now)
        ≡ option_map (λ bytes. bytes.items) found)
        (IsLostAt (file_case_table file.old) (bytes_in file.old) (chars name.now)) }
    ensures only_reads { OnlyReadsFile file.old file.new }
    ensures cause { IfErr result (IsJustifiedBySectors (allocator_of (mini_of file.old))
        (allocator_of (mini_of file.new))) }
    ensures errors { IfErr result (λ e. IsFaultOrInvalidInputIf ⊥ e ⊎ (e ≡ InvalidData)) }
{
    if !file.is_stream(name) {
        return Ok(None);
    }
    match file.read_stream(name) {
        Ok(bytes) => Ok(Some(bytes)),
        Err(error) => Err(as_broken(error)),
    }
}

// What isn't a fault, as the refusal of a stream whose chain breaks.
fn as_broken(error: Error) -> Error
    ensures { IsAsBroken error result }
{
    match error {
        Error::Memory | Error::Device | Error::Failed => error,
        Error::InvalidData
        | Error::InvalidInput
        | Error::NotFound
        | Error::AlreadyExists
        | Error::UnexpectedEof
        | Error::Full => Error::InvalidData,
    }
}

/// All bytes of a table's stream; none where it has no stream, as a name with a slash never has. Errors are those of
/// `stream_bytes`. The file is only read.
pub fn table_bytes<F: ReadMedium>(
    alloc: Global,
    file: &mut CompoundFile<F>,
    name: &str,
) -> Result<Option<Vec<u8>>, Error>
    ensures answer { (tree : Tree) → FileHoldsTree file.old tree → MatchResult result (λ found.
        table_stream (file_case_table file.old) (objects tree.content) name.now
        ≡ option_map (λ bytes. bytes.items) found) (IsFaultOrInvalidInputIf ⊥) }
    ensures shown { (tree : Tree) → StoreShowsTree file.old tree → MatchResult result (λ found.
        table_stream (file_case_table file.old) (objects tree.content) name.now
        ≡ option_map (λ bytes. bytes.items) found)
        (IsLostAt (file_case_table file.old) (bytes_in file.old) (stream_name name.now)) }
    ensures only_reads { OnlyReadsFile file.old file.new }
    ensures cause { IfErr result (IsJustifiedBySectors (allocator_of (mini_of file.old))
        (allocator_of (mini_of file.new))) }
    ensures errors { IfErr result (λ e. IsFaultOrInvalidInputIf ⊥ e ⊎ (e ≡ InvalidData)) }
{
    if has_slash(name) {
        return Ok(None);
    }
    let path = encode(alloc, name, true)?;
    stream_bytes(file, &path)
}

// Whether a slash stands in the name.
fn has_slash(name: &str) -> bool
    ensures { result ≡ has_slash name.now }
{
    name.as_bytes().contains(&b'/')
}
