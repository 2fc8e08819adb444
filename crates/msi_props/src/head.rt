//! What stands in a property set before its section.
ghost use Rattle.std.specs.Prelude.{◌≡◌, IfErr, IfOk, MatchResult, Ok, Err};
ghost use Rattle.msi_texts.specs.Reading.{bytes_at};
ghost use Rattle.msi_props.specs.Held.{head_in};
ghost use Rattle.msi_props.specs.Props.{head_at};

use crate::stored::take_bytes;
use crate::system::OperatingSystem;
use cfb_medium::Error;
use msi_texts::{read_u16, read_u32};

// What a property set begins with.
pub(crate) const BYTE_ORDER_MARK: u16 = 0xFFFE;

// The head of a property set.
#[derive(Clone, Copy)]
pub(crate) struct Head {
    pub version: u16,
    pub system_version: u16,
    pub system: OperatingSystem,
    pub class: [u8; 16],
    pub sections: u32,
    pub format: [u8; 16],
    pub offset: u32,
}

// Takes an identifier of 16 bytes.
fn take_identifier(reader: &mut &[u8]) -> Result<[u8; 16], Error>
    ensures ok { IfOk result (λ bytes. bytes_at 16 reader.old.now ≡ Ok (bytes, reader.new.now)) }
    ensures errors { IfErr result (λ e. bytes_at 16 reader.old.now ≡ Err e) }
{
    let bytes = take_bytes(reader, 16)?;
    let mut identifier = [0; 16];
    identifier.copy_from_slice(bytes);
    Ok(identifier)
}

// Reads the head that the bytes begin with.
pub(crate) fn read_head(bytes: &[u8]) -> Result<Head, Error>
    ensures { MatchResult result (λ head. head_at bytes.now ≡ Ok (head_in head))
        (λ e. head_at bytes.now ≡ Err e) }
{
    let mut rest = bytes;
    if read_u16(&mut rest)? != BYTE_ORDER_MARK {
        return Err(Error::InvalidData);
    }
    let version = read_u16(&mut rest)?;
    if 2 <= version {
        return Err(Error::InvalidData);
    }
    let system_version = read_u16(&mut rest)?;
    let system = OperatingSystem::from_number(read_u16(&mut rest)?)?;
    let class = take_identifier(&mut rest)?;
    let sections = read_u32(&mut rest)?;
    if sections == 0 {
        return Err(Error::InvalidData);
    }
    let format = take_identifier(&mut rest)?;
    let offset = read_u32(&mut rest)?;
    Ok(Head {
        version,
        system_version,
        system,
        class,
        sections,
        format,
        offset,
    })
}
