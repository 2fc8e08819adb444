//! What a package is for, by its root's identifier.
ghost use Rattle.std.specs.Prelude.{◌≡◌};
ghost use Rattle.msi_spec.specs.Opening.{kind_of};

use cfb_medium::Error;
use msi_spec::PackageType;
use uuid::Uuid;

// The identifiers of the three kinds: 000C10xx-0000-0000-C000-000000000046.
const INSTALLER: [u8; 16] = [
    0x00, 0x0C, 0x10, 0x84, 0, 0, 0, 0, 0xC0, 0, 0, 0, 0, 0, 0, 0x46,
];

const PATCH: [u8; 16] = [
    0x00, 0x0C, 0x10, 0x86, 0, 0, 0, 0, 0xC0, 0, 0, 0, 0, 0, 0, 0x46,
];

const TRANSFORM: [u8; 16] = [
    0x00, 0x0C, 0x10, 0x82, 0, 0, 0, 0, 0xC0, 0, 0, 0, 0, 0, 0, 0x46,
];

/// What a package is for whose root has this identifier; `InvalidData` for any other.
pub fn kind_of(clsid: Uuid) -> Result<PackageType, Error>
    ensures { result ≡ kind_of clsid }
{
    let bytes = clsid.as_bytes().as_slice();
    if bytes == INSTALLER.as_slice() {
        return Ok(PackageType::Installer);
    }
    if bytes == PATCH.as_slice() {
        return Ok(PackageType::Patch);
    }
    if bytes == TRANSFORM.as_slice() {
        return Ok(PackageType::Transform);
    }
    Err(Error::InvalidData)
}
