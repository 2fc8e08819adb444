//! The pieces of an open log, found by its runs.
ghost use Rattle.std.specs.Prelude.{◌≡◌, ◌≤◌, None, IsTrue, IsErrOf, IfOk, IfErr};
ghost use Rattle.staged.specs.Log.{pages_in, recovered};
ghost use Rattle.staged.specs.Reads.{OnlyReadsDevice};
ghost use Rattle.staged.specs.Walk.{IsOpen};
ghost use Rattle.staged_view.specs.Pieces.{AreOf, AreWithin, IsViewOf, PiecesRise};
ghost use Rattle.staged_view.specs.View.{IsViewRefusal};

use crate::pieces::Piece;
use cfb_medium::Error;
use staged::{Device, Head, Which, read_log, read_run};
use std::alloc::Global;

const PAGE: u64 = 512;

const RUNS: u64 = 25;

/// The length that a recovery would give the home file, and the pieces of the log that it would write home.
pub fn find_pieces<D: Device>(alloc: Global, device: &mut D) -> Result<(u64, Vec<Piece>), Error>
    ensures reads { OnlyReadsDevice D.Device device.old device.new }
    ensures rising { IfOk result (λ found. PiecesRise found.1.items) }
    ensures within { IfOk result (λ found. AreWithin found.1.items) }
    ensures view { IsTrue (D.honest device.old)
        → IfOk result (λ found. IsViewOf (D.content device.old) found.0 found.1.items) }
    ensures malformed { IsTrue (D.honest device.old) → IsErrOf result Error.InvalidData
        → recovered (D.content device.old) ≡ None }
    ensures errors { IfErr result (IsViewRefusal D.failures device.old device.new) }
{
    match read_log(device)? {
        Some(opened) => {
            let pieces = pieces_of(alloc, device, &opened.head)?;
            Ok((opened.head.len, pieces))
        }
        None => {
            let len = device.len(Which::Home)?;
            Ok((len, Vec::new(alloc)))
        }
    }
}

// The pieces of an open log.
fn pieces_of<D: Device>(alloc: Global, device: &mut D, head: &Head) -> Result<Vec<Piece>, Error>
    requires least { 25 ≤ head.now.log_len }
    requires opened { IsTrue (D.honest device.old) → IsOpen (D.content device.old) head.now }
    ensures reads { OnlyReadsDevice D.Device device.old device.new }
    ensures rising { IfOk result (λ pieces. PiecesRise pieces.items) }
    ensures within { IfOk result (λ pieces. AreWithin pieces.items) }
    ensures found { IsTrue (D.honest device.old)
        → IfOk result (λ pieces. AreOf (pages_in (D.content device.old).log)
        (D.content device.old).log pieces.items) }
    ensures whole { IsTrue (D.honest device.old) → IsErrOf result Error.InvalidData → ⊥ }
    ensures errors { IfErr result (IsViewRefusal D.failures device.old device.new) }
{
    let _len = head.len;
    let mut pieces = Vec::new(alloc);
    let mut place = RUNS;
    let mut least = 0;
    for index in 0..head.count {
        // (Only a dishonest device has none by now, or one below the end of the one before.)
        let Some(here) = read_run(device, head, place)? else {
            return Err(Error::InvalidData);
        };
        if here.first < least {
            return Err(Error::InvalidData);
        }
        least = here.first + here.count;
        pieces.push(Piece {
            first: here.first,
            end: least,
            place: here.place,
        })?;
        place = here.place + PAGE * here.count;
    }
    Ok(pieces)
}
