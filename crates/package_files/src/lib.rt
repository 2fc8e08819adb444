//! The files of a package: where they lie, how they are opened, what a recovery would make of them, and what is told of one that
//! is in the way.
#![tactic(auto)]

mod device;
mod failures;
mod laws;
mod logs;
mod looks;
mod names;
mod output;
mod parts;
mod shown;
mod troubles;
mod unwritten;

pub use device::{
    Faults, Fresh, PackageDevice, PackageFile, create_files, cut_log, open_files, remove_fresh,
};
pub use failures::{Failure, tell_failure, tell_failure_of};
pub use laws::beginnings_of_closed_logs_are_closed;
pub use logs::{Found, look_at_log};
pub use looks::{has_folder, trouble_at, trouble_of_kind, writers_trouble_at};
pub use names::{Names, check_one_name, names_of};
pub use output::{Output, status_of_error, tell_unwritten};
pub use parts::{give_name, remove_part};
pub use shown::{Shown, check_shown, shown_at};
pub use troubles::{Trouble, tell, tell_error, tell_part, tell_trouble};
pub use unwritten::UnwrittenDevice;
