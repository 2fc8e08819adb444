//! Names of files.
ghost use Rattle.std.specs.Prelude.{◌≡◌, ◌≤◌, ◌++◌, ◌∷◌, [], ◌==◌, length, take, true, string_bytes, IfErr, IfOk, Ok, OnOk};
ghost use Rattle.cfb_medium.specs.declared.error.Error.TheVariants.{Memory};
ghost use Rattle.std.specs.List.{AllPass};
ghost use Rattle.msi_texts.specs.Results.{ReturnsOrOutOfMemory};
ghost use Rattle.msi_export.specs.FileNames.{file_name, is_plain, is_safe, numbered_name, written};

use cfb_medium::Error;
use hex::encode_upper;
use std::alloc::Global;

// The most bytes of a name that stands as it is. Systems take 255, and `.idt` or a number stand behind.
const LONGEST: usize = 200;

/// A name for a file: each byte of these but letters, digits, `_`, `-` and a dot that isn't the first stands as `%` and two digits. So
/// different names have different files, and none leads out of a folder (`different_names_have_different_files`,
/// `files_stay_in_their_folder`). The one error is `Memory`.
pub fn safe_name(alloc: Global, name: &str) -> Result<String, Error>
    ensures { ReturnsOrOutOfMemory string_bytes result (Ok (file_name true name.now)) }
{
    let mut safe = String::new(alloc);
    for byte in name.as_bytes() {
        push_byte(alloc, &mut safe, *byte)?;
    }
    Ok(safe)
}

/// A name for a file that no folder refuses for its length: that of `safe_name`, or where it has more than 200 bytes the first 200, `~`, and
/// the number that is given. So names of different numbers have different files (`numbered_names_have_different_files`). The one error is
/// `Memory`.
pub fn file_name_of(alloc: Global, name: &str, number: u64) -> Result<String, Error>
    ensures { ReturnsOrOutOfMemory string_bytes result (Ok (numbered_name number name.now)) }
{
    let safe = safe_name(alloc, name)?;
    if safe.len() <= LONGEST {
        return Ok(safe);
    }
    let start = start_of(alloc, &safe)?;
    Ok(format!(in alloc; "{start}~{number}")?)
}

// The first bytes of a name that is safe and long.
fn start_of(alloc: Global, safe: &str) -> Result<String, Error>
    requires long { 200 ≤ length safe.now }
    requires safe { AllPass is_safe safe.now }
    ensures ok { IfOk result (λ start. string_bytes start ≡ take 200 safe.now) }
    ensures errors { IfErr result (λ e. e ≡ Memory) }
{
    let mut start = String::new(alloc);
    for byte in &safe.as_bytes()[..LONGEST] {
        push_safe(&mut start, *byte)?;
    }
    Ok(start)
}

// Adds a byte that stands for itself.
fn push_safe(start: &mut String, byte: u8) -> Result<(), Error>
    requires { is_safe byte ≡ true }
    ensures ok { OnOk result (string_bytes start.new ≡ string_bytes start.old ++ byte ∷ []) }
    ensures errors { IfErr result (λ e. e ≡ Memory) }
{
    start.push(char::from(byte))?;
    Ok(())
}

// Adds what stands for a byte.
fn push_byte(alloc: Global, safe: &mut String, byte: u8) -> Result<(), Error>
    ensures ok { OnOk result (string_bytes safe.new ≡ string_bytes safe.old
        ++ written (length (string_bytes safe.old) == 0) byte) }
    ensures errors { IfErr result (λ e. e ≡ Memory) }
{
    if is_plain(byte) || byte == b'.' && !safe.is_empty() {
        safe.push(char::from(byte))?;
        return Ok(());
    }
    safe.push('%')?;
    safe.push_str(&encode_upper(alloc, [byte])?)?;
    Ok(())
}

fn is_plain(byte: u8) -> bool
    ensures { result ≡ is_plain byte }
{
    byte.is_ascii_alphanumeric() || byte == b'_' || byte == b'-'
}
