//! A package that is built, judged and compared.
ghost use Rattle.cfb.specs.Views.{file_case_table};
ghost use Rattle.msi.specs.Opened.{file_in, sound_in, PackageHasContent};
ghost use Rattle.msi_building.specs.Saying.{SaysPackage};
ghost use Rattle.msi_spec.specs.Package.{PackageContent};
ghost use Rattle.std.specs.Prelude.{IfOk, IsTrue};

use crate::assembling::assembled;
use crate::comparing::says;
use crate::said::Said;
use cfb::CaseMapper;
use cfb_medium::{Error, MemoryMedium};
use msi::Package;
use std::alloc::Global;

/// A sound package in memory that says this: `said_package` of what is put together here. `InvalidInput` or `Full` where there is too much of
/// something.
pub fn built_package(alloc: Global, said: &Said) -> Result<Package<MemoryMedium>, Error>
    ensures { IfOk result (λ it. IsTrue (sound_in it) × (P : PackageContent)
        × PackageHasContent it P × SaysPackage (file_case_table (file_in it)) P said.now) }
{
    said_package(alloc, assembled(alloc, said)?, said)
}

/// The package of these bytes, whoever wrote them, where it is sound and says this. It is opened as any package, judged and compared:
/// `InvalidData` where it isn't sound, or says anything else.
pub fn said_package(
    alloc: Global,
    medium: MemoryMedium,
    said: &Said,
) -> Result<Package<MemoryMedium>, Error>
    ensures { IfOk result (λ it. IsTrue (sound_in it) × (P : PackageContent)
        × PackageHasContent it P × SaysPackage (file_case_table (file_in it)) P said.now) }
{
    let mut package = opened(alloc, medium)?;
    if !package.is_sound() {
        return Err(Error::InvalidData);
    }
    if !says(alloc, &mut package, said)? {
        return Err(Error::InvalidData);
    }
    Ok(package)
}

// A package of these bytes.
pub(crate) fn opened(alloc: Global, medium: MemoryMedium) -> Result<Package<MemoryMedium>, Error>
    ensures { IfOk result (λ it. IsTrue (sound_in it)
        → (P : PackageContent) × PackageHasContent it P) }
{
    let letters = CaseMapper::ascii(alloc)?;
    match Package::open(alloc, medium, letters) {
        Ok(package) => Ok(package),
        Err((_medium, error)) => Err(error),
    }
}
