//! The layer below, lent to calls that change sectors of others.
ghost use Rattle.cfb_fat.specs.contracts.allocator.Allocator as layer;
ghost use Rattle.cfb_mini.specs.Changing.{with_allocator, IsKeptOver};
ghost use Rattle.cfb_mini.specs.Views.{allocator_of};
ghost use Rattle.cfb_mini.specs.contracts.mini_allocator.MiniAllocator.{the_row};
ghost use Rattle.std.specs.Borrow.{sem, Lends};
ghost use Rattle.std.specs.Prelude.{◌≡◌};

use crate::MiniAllocator;
use cfb_fat::Allocator;
use cfb_medium::ReadMedium;

impl<F: ReadMedium> MiniAllocator<F> {
    /// The layer below, for chains of sectors that others own: the mini FAT and the directory have then what was left of it.
    /// Memory is still that of the bytes where the chains of directory, mini FAT and mini stream stay, with their bytes.
    pub fn allocator_mut(&mut self) -> &mut Allocator<F>
        ensures* lends { sem 𝓛 (Lends (the_row F.row F.ReadMedium)
            (layer.the_row F.row F.ReadMedium) self.entry result (with_allocator self.old)) }
        ensures value { result.now ≡ allocator_of self.old }
        ensures kept { IsKeptOver self.old }
    {
        self.directory.allocator_mut()
    }
}
