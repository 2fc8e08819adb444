//! Packages that are made.
ghost use Rattle.std.specs.Prelude.{◌≡◌, ◌≤◌, false, length, true, Err, IfErr, IfOk, IsTrue};
ghost use Rattle.cfb_medium.specs.Calls.{Reaches, IsJustifiedSince};
ghost use Rattle.cfb_medium.specs.declared.error.Error.TheVariants.{InvalidInput};
ghost use Rattle.cfb_tree.specs.CaseTableViews.{case_table_of};
ghost use Rattle.msi.specs.Changing.{IsChangeError};
ghost use Rattle.msi.specs.Creating.{new_file_len, IsCreatedPackage, IsNewRefusal};
ghost use Rattle.msi.specs.Opened.{kind_in, pool_in, sound_in, store_in, summary_in, written_in};
ghost use Rattle.msi_spec.specs.Opening.{keeps_encoded_names};

use crate::opening::{FIRST_ENCODED, LAST_ENCODED};
use crate::package::Package;
use cfb::{CaseMapper, CompoundFile};
use cfb_medium::{Error, Medium, ReadMedium};
use msi_new_package::{NewPackage, create_package};
use msi_spec::PackageType;
use msi_streams::write_parts;
use std::alloc::Global;

impl<F: Medium> Package<F> {
    /// Makes a new package over what a medium holds, in a container of version 4: it has the three tables that describe others, and a
    /// title that says what it is; names are compared under the case table. Pool and summary are written too, and nothing is
    /// published before a commit. `InvalidInput` where the case table has a pair with a character from U+3800 to U+4840, which
    /// encoded names have. The other errors are `Memory`, `Device`, `Failed` and `Full`; where the medium held more bytes than a new
    /// container has, or doesn't give back what was written, `InvalidData` too, and what `CompoundFile::put_stream` refuses. An error
    /// gives the medium back, which may then hold a part of the new package.
    pub fn create(
        alloc: Global,
        kind: PackageType,
        medium: F,
        letters: CaseMapper,
    ) -> Result<Package<F>, (F, Error)>
        ensures created { IfOk result (IsCreatedPackage (case_table_of letters) kind medium) }
        ensures letters { keeps_encoded_names (case_table_of letters) ≡ false
            → result ≡ Err (medium, InvalidInput) }
        ensures refused_only_if { IsTrue (F.honest medium) → length (F.bytes medium) ≤ new_file_len
            → IfErr result (λ e. IsNewRefusal (case_table_of letters) e.1) }
        ensures errors { IfErr result (λ e. IsChangeError e.1) }
        ensures left { IfErr result (λ e. (F.honest e.0 ≡ F.honest medium)
            × Reaches F.continues medium e.0) }
        ensures cause { IfErr result (λ e. IsJustifiedSince F.continues F.failures F.failed medium
            e.0 e.1) }
    {
        if letters.touches(FIRST_ENCODED, LAST_ENCODED) {
            return Err((medium, Error::InvalidInput));
        }
        let file = match CompoundFile::create(alloc, medium, letters) {
            Ok(file) => file,
            Err(refusal) => return Err(refusal),
        };
        let mut it = match create_package(alloc, file, kind) {
            Ok(made) => from_new(alloc, kind, made),
            Err((file, error)) => return Err((file.into_inner(), error)),
        };
        if let Err(error) = write_parts(alloc, &mut it.store.file, &it.pool, &it.summary) {
            return Err((it.into_medium(), error));
        }
        Ok(it)
    }
}

// The package of a new one's parts.
fn from_new<F: ReadMedium>(alloc: Global, kind: PackageType, made: NewPackage<F>) -> Package<F>
    ensures store { store_in result ≡ made.store }
    ensures parts { (kind_in result ≡ kind) × (pool_in result ≡ made.pool)
        × (summary_in result ≡ made.summary) }
    ensures flags { (sound_in result ≡ true) × (written_in result ≡ false) }
{
    let NewPackage {
        store,
        pool,
        summary,
    } = made;
    Package {
        alloc,
        store,
        kind,
        pool,
        summary,
        is_summary_written: false,
        is_sound: true,
    }
}
