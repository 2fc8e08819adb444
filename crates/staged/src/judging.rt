//! Telling a log from another file.
ghost use Rattle.std.specs.Prelude.{◌≡◌, false, List, ℕ, IsTrue, IfOk, IfErr};
ghost use Rattle.cfb_medium.specs.Calls.{Reaches, IsJustifiedSince, IsFaultOrInvalidInputIf};
ghost use Rattle.staged.specs.Log.{is_log, IsNotOpen};

use crate::layout::{FIRST_MAGIC, HEAD, MAGIC};
use cfb_medium::{Error, ReadMedium};

/// Whether a file may be a log: it has at most one byte, begins with 00, or has the magic of one of the two forms behind its first
/// byte. No open log that a recovery applies is told to be none. It only reads.
pub fn is_log<F: ReadMedium>(file: &mut F) -> Result<bool, Error>
    ensures answer { IsTrue (F.honest file.old)
        → IfOk result (λ is. is ≡ is_log (F.bytes file.old)) }
    ensures not_open { IsTrue (F.honest file.old)
        → IfOk result (λ is. is ≡ false → (home : List ℕ) → IsNotOpen home (F.bytes file.old)) }
    ensures bytes { IsTrue (F.honest file.old) → F.bytes file.new ≡ F.bytes file.old }
    ensures honest { F.honest file.new ≡ F.honest file.old }
    ensures continues { Reaches F.continues file.old file.new }
    ensures cause { IfErr result
        (IsJustifiedSince F.continues F.failures F.failed file.old file.new) }
    ensures errors { IfErr result (IsFaultOrInvalidInputIf ⊥) }
{
    if file.len()? <= 1 {
        return Ok(true);
    }
    let mut gate = [1u8; 1];
    file.read_at(0, &mut gate)?;
    if gate[0] == 0 {
        return Ok(true);
    }
    let mut magic = [0u8; 8];
    file.read_at(HEAD, &mut magic)?;
    if magic == *FIRST_MAGIC {
        return Ok(true);
    }
    Ok(magic == *MAGIC)
}
