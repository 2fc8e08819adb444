//! The code page of a package, as exports have it.
use cfb_medium::Error;
use std::alloc::Global;

/// The number of a code page as a table. The one error is `Memory`.
pub fn codepage_text(alloc: Global, page: u32) -> Result<String, Error> {
    Ok(format!(in alloc; "\r\n\r\n{page}\t_ForceCodepage\r\n")?)
}
