//! Failures of calls on a package.
use cfb_medium::Error;
use package_files::{Failure, Trouble};

/// A failure of a call on a package.
pub(crate) fn failure_of(error: Error) -> Failure {
    match error {
        Error::Memory => Failure::Memory,
        Error::Full => Failure::Package(Trouble::Full),
        Error::AlreadyExists => Failure::Package(Trouble::Present),
        _ => Failure::Package(Trouble::Fault),
    }
}
