//! The sectors of a medium, as what any layer above has.
ghost use Rattle.cfb_sectors.specs.Keeping as Keeping;
ghost use Rattle.cfb_sectors.specs.OnlyReads as Resting;

use crate::{ChangesSectors, HasSectors, Sectors};
use cfb_medium::{Error, Medium, ReadMedium};

impl<F: ReadMedium> HasSectors for Sectors<F> {
    ghost use Rattle.cfb_sectors.specs.Held.{bytes_of, has_failed_here, is_honest, IsJustifiedByMedium, OnlyReadsSectors};

    ghost bytes = { bytes_of };

    ghost honest = { is_honest };

    ghost failed = { has_failed_here };

    ghost rests = { OnlyReadsSectors };

    ghost has_cause = { IsJustifiedByMedium };

    fn is_failed(&self) -> bool {
        Sectors::is_failed(self)
    }

    fn read_part(&mut self, place: u64, buffer: &mut [u8]) -> Result<(), Error> {
        if self.is_failed() {
            return Err(Error::Failed);
        }
        self.read_filled(place, buffer)?;
        Ok(())
    }

    ghost rests_refl = { Resting.rests_refl };

    ghost rests_then = { Resting.rests_then };

    ghost rests_keep = { Keeping.rests_keep };

    ghost rests_cause = { Keeping.rests_cause };

    ghost own_cause = { Keeping.own_cause };
}

impl<F: Medium> ChangesSectors for Sectors<F> {
    ghost use Rattle.cfb_sectors.specs.Held.{EndsIn, Fails, WritesBytesAt};

    ghost may_write = { EndsIn };

    ghost writes = { WritesBytesAt };

    ghost fails = { Fails };

    fn fail(&mut self) {
        Sectors::fail(self)
    }

    fn write_part(&mut self, place: u64, bytes: &[u8]) -> Result<(), Error> {
        if self.is_failed() {
            return Err(Error::Failed);
        }
        if !self.ends_in(place, bytes.len()) {
            return Err(Error::InvalidData);
        }
        self.write_at(place, bytes)?;
        Ok(())
    }

    ghost fails_keep = { Keeping.fails_keep };

    ghost fails_cause = { Keeping.fails_cause };

    ghost may_part = { Keeping.may_part };

    ghost writes_keep = { Keeping.writes_keep };

    ghost writes_cause = { Keeping.writes_cause };
}
