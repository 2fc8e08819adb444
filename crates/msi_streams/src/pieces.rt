//! A package's streams that get the bytes of a source, piece by piece.
ghost use Rattle.cfb.specs.Pieces.{OnlyReadsSource, SourceErrorContract};
ghost use Rattle.cfb.specs.Putting.{IsPutStreamError};
ghost use Rattle.cfb.specs.Views.{mini_of};
ghost use Rattle.cfb_chain_io.specs.ChainEffects.{KeepsFileInvariants};
ghost use Rattle.cfb_mini.specs.Views.{allocator_of};
ghost use Rattle.msi_streams.specs.Pieces.{WritesFrom};
ghost use Rattle.std.specs.Prelude.{length};

use crate::checking::check_changeable;
use crate::names::encoded_stream_name;
use cfb::CompoundFile;
use cfb_medium::{Error, Medium, ReadMedium};

/// Gives the package's stream of this name all bytes of a source in place of its own, or makes it with them. They are read in pieces, and
/// no memory is taken for them. Errors are those of `write_stream`, and those of the source, which tells its number of bytes before
/// anything is changed; `Device` where it gives fewer then. After an error nothing is changed, or the file has failed: so it has where the
/// source fails once its bytes were asked for.
pub fn write_stream_from<F: Medium, S: ReadMedium>(
    file: &mut CompoundFile<F>,
    name: &str,
    source: &mut S,
) -> Result<(), Error>
    ensures changes { WritesFrom S.ReadMedium source.old name.now result file.old file.new }
    ensures only_reads { OnlyReadsSource S.ReadMedium source.old source.new }
    ensures invariants { KeepsFileInvariants (allocator_of (mini_of file.old))
        (allocator_of (mini_of file.new)) }
    ensures error_contract { SourceErrorContract S.ReadMedium IsPutStreamError
        (length (S.bytes source.old)) result (allocator_of (mini_of file.old))
        (allocator_of (mini_of file.new)) source.old source.new }
{
    if let Err(error) = check_changeable(file) {
        return Err(error);
    }
    let path = match encoded_stream_name(file.letters(), name) {
        Ok(path) => path,
        Err(error) => return Err(error),
    };
    if file.is_storage(path.as_str()) {
        return Err(Error::AlreadyExists);
    }
    let len = match source.len() {
        Ok(len) => len,
        Err(error) => return Err(error),
    };
    if len > file.version().stream_len_mask() {
        return Err(Error::InvalidInput);
    }
    file.put_stream_from(path.as_str(), source, len)
}
