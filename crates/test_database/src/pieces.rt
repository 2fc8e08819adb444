//! Streams that are written piece by piece.
use crate::calls::Stored;
use cfb_medium::Error;
use msi::StreamWriter;
use std::alloc::Global;
use std::io::SeekFrom;
use test_support::{Row, Survivor, bytes_at};

/// Writes a stream as a row says: its name, bytes, a place from its beginning or from its end, and bytes that are written there. What is
/// written first is put into the package before the place is sought.
pub fn write_pieces(alloc: Global, package: &mut Stored, row: &Row) -> Result<(), Error> {
    let first = bytes_at(alloc, row, 2)?;
    let second = bytes_at(alloc, row, 4)?;
    let mut writer = package.write_stream(row.text(1))?;
    write_first(&mut writer, &first)?;
    write_at(&mut writer, row.number(3), &second)?;
    close(writer)
}

fn write_first(writer: &mut StreamWriter<'_, Survivor>, bytes: &[u8]) -> Result<(), Error> {
    writer.write(bytes)?;
    writer.flush()
}

fn write_at(
    writer: &mut StreamWriter<'_, Survivor>,
    place: i64,
    bytes: &[u8],
) -> Result<(), Error> {
    let from = match u64::try_from(place) {
        Ok(place) => SeekFrom::Start(place),
        Err(_) => SeekFrom::End(place),
    };
    writer.seek(from)?;
    writer.write(bytes)?;
    Ok(())
}

fn close(writer: StreamWriter<'_, Survivor>) -> Result<(), Error> {
    writer.close()
}
