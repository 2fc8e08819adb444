//! Bytes of a home file with pieces of a log over it.
ghost use Rattle.std.specs.Prelude.{◌≡◌, ◌⊎◌, ◌≤◌, ◌<◌, ◌+◌, ◌^◌, List, IsTrue, length, OnOk, IfErr};
ghost use Rattle.staged.specs.Device.{IsDeviceFault};
ghost use Rattle.staged.specs.Pages.{Shows};
ghost use Rattle.staged.specs.Reads.{OnlyReadsDevice};
ghost use Rattle.staged.specs.declared.pages.Page.{Page};
ghost use Rattle.staged_view.specs.Pieces.{AreOf, AreWithin, IsPartOf, PiecesRise};

use crate::pieces::{Part, Piece, part_at};
use cfb_medium::Error;
use staged::{Device, Which};

/// Reads bytes of the home file with the pieces over it. What isn't served is 0.
pub fn read_over<D: Device>(
    device: &mut D,
    pieces: &[Piece],
    at: u64,
    buffer: &mut [u8],
) -> Result<(), Error>
    requires fits { length buffer.old ≡ 0 ⊎ at + length buffer.old < 2 ^ 64 }
    requires rising { PiecesRise pieces.now }
    requires bounds { AreWithin pieces.now }
    ensures reads { OnlyReadsDevice D.Device device.old device.new }
    ensures errors { IfErr result (IsDeviceFault D.failures device.old device.new) }
    ensures read { IsTrue (D.honest device.old) → (pages : List Page)
        → AreOf pages (D.content device.old).log pieces.now
        → OnOk result (Shows (D.content device.old).home pages at (length buffer.old) buffer.new) }
{
    let mut done = 0;
    while done < buffer.len() {
        let place = at + done as u64;
        let part = part_at(pieces, place, buffer.len() - done);
        read_part(
            device,
            pieces,
            place,
            part,
            &mut buffer[done..done + part.count],
        )?;
        done += part.count;
    }
    Ok(())
}

// Reads a part of the log or of the home file.
fn read_part<D: Device>(
    device: &mut D,
    pieces: &[Piece],
    place: u64,
    part: Part,
    bytes: &mut [u8],
) -> Result<(), Error>
    requires long { length bytes.old ≡ part.count }
    requires told { IsPartOf pieces.now place part }
    ensures reads { OnlyReadsDevice D.Device device.old device.new }
    ensures errors { IfErr result (IsDeviceFault D.failures device.old device.new) }
    ensures read { IsTrue (D.honest device.old) → (pages : List Page)
        → AreOf pages (D.content device.old).log pieces.now
        → OnOk result
        (Shows (D.content device.old).home pages place (length bytes.old) bytes.new) }
{
    if part.logged {
        device.read_at(Which::Log, part.at, bytes)?;
        return Ok(());
    }
    bytes.fill(0);
    device.read_at(Which::Home, place, bytes)?;
    Ok(())
}
