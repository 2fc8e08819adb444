//! The layer below, lent to calls that change sectors of others.
ghost use Rattle.cfb_directory.specs.Lent.{IsKeptOver};
ghost use Rattle.cfb_directory.specs.Views.{allocator_of, with_allocator};
ghost use Rattle.cfb_directory.specs.contracts.directory.Directory.{the_row};
ghost use Rattle.cfb_fat.specs.contracts.allocator.Allocator as layer;
ghost use Rattle.std.specs.Borrow.{sem, Lends};
ghost use Rattle.std.specs.Prelude.{◌≡◌};

use crate::Directory;
use cfb_fat::Allocator;
use cfb_medium::ReadMedium;

impl<F: ReadMedium> Directory<F> {
    /// The layer below, for changes of sectors that others own: the directory has then what was left of it, with the sectors and
    /// entries that it had. Memory is still that of the bytes where the chain of the directory's sectors stays, with its bytes.
    pub fn allocator_mut(&mut self) -> &mut Allocator<F>
        ensures* lends { sem 𝓛 (Lends (the_row F.row F.ReadMedium)
            (layer.the_row F.row F.ReadMedium) self.entry result (with_allocator self.old)) }
        ensures value { result.now ≡ allocator_of self.old }
        ensures kept { IsKeptOver self.old }
    {
        &mut self.allocator
    }
}
