//! Where the bytes of a stream stand in a file ([MS-CFB] 2.1).
ghost use Rattle.cfb_soundness.specs.Places.{HoldBytes, StandInFile};
ghost use Rattle.std.specs.Prelude.{length, IsTrue, ◌*◌, ◌↔◌, ◌≤◌};

// Whether so many pieces have room for a stream of so many bytes.
fn have_room(piece: u64, pieces: usize, size: u64) -> bool
    ensures { IsTrue result ↔ size ≤ pieces * piece }
{
    size <= (pieces as u64).saturating_mul(piece)
}

// Whether the bytes of a stream of so many, in pieces that begin at these places, stand in a file of so many, as far as the pieces
// have room for them.
fn stand_in_file(piece: u64, starts: &[u64], size: u64, file_len: u64) -> bool
    ensures { IsTrue result ↔ StandInFile piece starts.now size file_len }
{
    let mut left = size;
    for start in starts {
        let used = left.min(piece);
        if used > file_len.saturating_sub(*start) {
            return false;
        }
        left -= used;
    }
    true
}

// Whether pieces of so many bytes, which begin at these places, hold a stream of so many bytes that stand in the file.
pub(crate) fn hold_bytes(piece: u64, starts: &[u64], size: u64, file_len: u64) -> bool
    ensures { IsTrue result ↔ HoldBytes piece starts.now size file_len }
{
    if !have_room(piece, starts.len(), size) {
        return false;
    }
    stand_in_file(piece, starts, size, file_len)
}
