//! Files on disk: a device over two of them, and a medium over one.
#![tactic(auto)]

mod device;
mod file;
mod medium;
mod pair;
mod raw;

pub use device::{FileDevice, SystemFile};
pub use file::{DiskFile, check_regular, sync_folder};
pub use medium::FileMedium;
pub use pair::RawDevice;
pub use raw::RawFile;
