//! Errors of parts that can't be read.
ghost use Rattle.msi_soundness.specs.Faults.{IsNoUnlessFault};

use cfb_medium::Error;

// A fault is passed; any other error is a no, since what can't be read is in no sound package.
pub(crate) fn no_unless_fault(error: Error) -> Result<bool, Error>
    ensures { IsNoUnlessFault error result }
{
    match error {
        Error::Memory | Error::Device | Error::Failed => Err(error),
        Error::InvalidData
        | Error::InvalidInput
        | Error::NotFound
        | Error::AlreadyExists
        | Error::UnexpectedEof
        | Error::Full => Ok(false),
    }
}
