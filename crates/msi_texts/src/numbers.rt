//! Numbers in bytes, the lowest byte first.
ghost use Rattle.std.specs.Prelude.{◌≡◌, ◌<◌, ◌+◌, ◌^◌, ℕ, IfOk, IfErr, OnErr, OnOk, Ok, Err, ◌++◌};
ghost use Rattle.msi_texts.specs.Numbers.{le_bytes};
ghost use Rattle.msi_texts.specs.Reading.{number_at, bytes_at};
ghost use Rattle.cfb_medium.specs.declared.error.Error.TheVariants.{UnexpectedEof};

use cfb_medium::Error;
use std::alloc::AllocError;

/// Takes the next two bytes. Fewer are left as they are.
pub fn read_u16(reader: &mut &[u8]) -> Result<u16, Error>
    ensures ok { IfOk result (λ n. number_at 2 reader.old.now ≡ Ok (n, reader.new.now)) }
    ensures errors { IfErr result (λ e. number_at 2 reader.old.now ≡ Err e) }
    ensures after_error { OnErr result (reader.new.now ≡ reader.old.now) }
{
    let bytes = *reader;
    if bytes.len() < 2 {
        return Err(Error::UnexpectedEof);
    }
    *reader = &bytes[2..];
    Ok(u16::from_le_bytes([bytes[0], bytes[1]]))
}

/// Takes the next three bytes. Fewer are left as they are.
pub fn read_u24(reader: &mut &[u8]) -> Result<u32, Error>
    ensures ok { IfOk result (λ n. number_at 3 reader.old.now ≡ Ok (n, reader.new.now)) }
    ensures below { IfOk result (λ n. n < 2 ^ 24) }
    ensures errors { IfErr result (λ e. number_at 3 reader.old.now ≡ Err e) }
    ensures after_error { OnErr result (reader.new.now ≡ reader.old.now) }
{
    let bytes = *reader;
    if bytes.len() < 3 {
        return Err(Error::UnexpectedEof);
    }
    *reader = &bytes[3..];
    Ok(u32::from_le_bytes([bytes[0], bytes[1], bytes[2], 0]))
}

/// Takes the next four bytes. Fewer are left as they are.
pub fn read_u32(reader: &mut &[u8]) -> Result<u32, Error>
    ensures ok { IfOk result (λ n. number_at 4 reader.old.now ≡ Ok (n, reader.new.now)) }
    ensures errors { IfErr result (λ e. number_at 4 reader.old.now ≡ Err e) }
    ensures after_error { OnErr result (reader.new.now ≡ reader.old.now) }
{
    let bytes = *reader;
    if bytes.len() < 4 {
        return Err(Error::UnexpectedEof);
    }
    *reader = &bytes[4..];
    Ok(u32::from_le_bytes([bytes[0], bytes[1], bytes[2], bytes[3]]))
}

/// Appends the two bytes of a number.
pub fn write_u16(writer: &mut Vec<u8>, number: u16) -> Result<(), AllocError>
    ensures ok { OnOk result (writer.new.items ≡ writer.old.items ++ le_bytes 2 number) }
    ensures after_error { OnErr result (writer.new.items ≡ writer.old.items) }
{
    writer.extend_from_slice(&number.to_le_bytes())
}

/// Appends the three bytes of a number.
pub fn write_u24(writer: &mut Vec<u8>, number: u32) -> Result<(), AllocError>
    requires { number < 2 ^ 24 }
    ensures ok { OnOk result (writer.new.items ≡ writer.old.items ++ le_bytes 3 number) }
    ensures after_error { OnErr result (writer.new.items ≡ writer.old.items) }
{
    writer.extend_from_slice(&number.to_le_bytes()[..3])
}

/// Appends the four bytes of a number.
pub fn write_u32(writer: &mut Vec<u8>, number: u32) -> Result<(), AllocError>
    ensures ok { OnOk result (writer.new.items ≡ writer.old.items ++ le_bytes 4 number) }
    ensures after_error { OnErr result (writer.new.items ≡ writer.old.items) }
{
    writer.extend_from_slice(&number.to_le_bytes())
}
