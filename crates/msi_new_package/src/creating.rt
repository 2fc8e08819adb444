//! New packages in new compound files.
ghost use Rattle.std.specs.Prelude.{◌≡◌, [], false, true, IfErr, IfOk, OnErr, OnOk};
ghost use Rattle.cfb.specs.FollowedRules.{FileMeansTree};
ghost use Rattle.cfb.specs.Views.{file_case_table, mini_of, sound_of};
ghost use Rattle.cfb_fat.specs.Tables.{has_failed_here, IsJustifiedBySectors};
ghost use Rattle.cfb_tree_edits.specs.LiveTreeRules.{IsFaultOrFull};
ghost use Rattle.cfb_mini.specs.Views.{allocator_of};
ghost use Rattle.cfb_chain_io.specs.ChainEffects.{KeepsFileInvariants};
ghost use Rattle.cfb_tree.specs.Tree.{Tree};
ghost use Rattle.msi_new_package.specs.New.{IsNewPackage, LaysDown};
ghost use Rattle.msi_row_edits.specs.Edited.{IsEditError};
ghost use Rattle.msi_spec.specs.Opening.{keeps_encoded_names};
ghost use Rattle.msi_spec.specs.Package.{class_of, objects};

use crate::preparing::{NewParts, new_parts};
use cfb::CompoundFile;
use cfb_medium::{Error, Medium, ReadMedium};
use msi_pool::StringPool;
use msi_row_edits::put_table_bytes;
use msi_spec::PackageType;
use msi_store::Store;
use msi_summary::SummaryInfo;
use std::alloc::Global;
use uuid::Uuid;

/// A new package: its tables over their file, and its pool and summary, which aren't written yet.
#[derive(Drop)]
pub struct NewPackage<F: ReadMedium> {
    pub store: Store<F>,
    pub pool: StringPool,
    pub summary: SummaryInfo,
}

/// Makes a new package of a file whose root holds nothing: the root gets the identifier of the kind, and the streams of the three
/// system tables are written, which describe _Validation. `InvalidData` where the file isn't sound; the other errors are faults. An
/// error gives the file back.
pub fn create_package<F: Medium>(
    alloc: Global,
    mut file: CompoundFile<F>,
    kind: PackageType,
) -> Result<NewPackage<F>, (CompoundFile<F>, Error)>
    ensures made { IfOk result (λ it. (tree : Tree) → FileMeansTree file tree
        → objects tree.content ≡ [] → keeps_encoded_names (file_case_table file) ≡ true
        → IsNewPackage kind it.store it.pool it.summary.props) }
    ensures seen { IfOk result (λ it. (file_case_table it.store.file ≡ file_case_table file)
        × (sound_of it.store.file ≡ true)) }
    ensures not_failed { IfOk result (λ it.
        has_failed_here (allocator_of (mini_of it.store.file)) ≡ false) }
    ensures errors { IfErr result (λ e. (tree : Tree) → FileMeansTree file tree
        → objects tree.content ≡ [] → IsFaultOrFull e.1) }
    ensures kinds { IfErr result (λ e. IsEditError e.1) }
    ensures invariants { IfOk result (λ it. KeepsFileInvariants (allocator_of (mini_of file))
        (allocator_of (mini_of it.store.file))) }
    ensures left { IfErr result (λ e. KeepsFileInvariants (allocator_of (mini_of file))
        (allocator_of (mini_of e.0))) }
    ensures cause { IfErr result (λ e. IsJustifiedBySectors (allocator_of (mini_of file))
        (allocator_of (mini_of e.0)) e.1) }
{
    let parts = match new_parts(alloc, kind) {
        Ok(parts) => parts,
        Err(error) => return Err((file, error)),
    };
    match lay_down(alloc, &mut file, kind, &parts) {
        Ok(()) => Ok(from_parts(file, parts)),
        Err(error) => Err((file, error)),
    }
}

// The package of these parts over its file.
fn from_parts<F: ReadMedium>(file: CompoundFile<F>, parts: NewParts) -> NewPackage<F>
    ensures file { result.store.file ≡ file }
    ensures tables { result.store.tables ≡ parts.tables }
    ensures pool { result.pool ≡ parts.pool }
    ensures summary { result.summary ≡ parts.summary }
{
    let NewParts {
        tables,
        pool,
        summary,
        columns_bytes: _,
        tables_bytes: _,
        validation_bytes: _,
    } = parts;
    NewPackage {
        store: Store { file, tables },
        pool,
        summary,
    }
}

// Writes the root's identifier and the three tables' streams.
fn lay_down<F: Medium>(
    alloc: Global,
    file: &mut CompoundFile<F>,
    kind: PackageType,
    parts: &NewParts,
) -> Result<(), Error>
    ensures laid { OnOk result ((tree : Tree) → FileMeansTree file.old tree
        → objects tree.content ≡ [] → LaysDown kind parts.now.columns_bytes.items
        parts.now.tables_bytes.items parts.now.validation_bytes.items file.old file.new) }
    ensures seen { OnOk result ((file_case_table file.new ≡ file_case_table file.old)
        × (sound_of file.new ≡ true)) }
    ensures not_failed { OnOk result (has_failed_here (allocator_of (mini_of file.new)) ≡ false) }
    ensures errors { IfErr result (λ e. (tree : Tree) → FileMeansTree file.old tree
        → objects tree.content ≡ [] → IsFaultOrFull e) }
    ensures kinds { IfErr result IsEditError }
    ensures invariants { KeepsFileInvariants (allocator_of (mini_of file.old))
        (allocator_of (mini_of file.new)) }
    ensures cause { IfErr result (IsJustifiedBySectors (allocator_of (mini_of file.old))
        (allocator_of (mini_of file.new))) }
{
    match file.set_storage_clsid("/", class_of(kind)) {
        Err(error) => return Err(error),
        Ok(()) => {}
    }
    match put_table_bytes(alloc, file, "_Columns", &parts.columns_bytes) {
        Err(error) => return Err(error),
        Ok(()) => {}
    }
    match put_table_bytes(alloc, file, "_Tables", &parts.tables_bytes) {
        Err(error) => return Err(error),
        Ok(()) => {}
    }
    match put_table_bytes(alloc, file, "_Validation", &parts.validation_bytes) {
        Err(error) => return Err(error),
        Ok(()) => {}
    }
    Ok(())
}

// The identifier of the root of such a package: 000C10xx-0000-0000-C000-000000000046.
fn class_of(kind: PackageType) -> Uuid
    ensures { result ≡ class_of kind }
{
    Uuid::from_u128(match kind {
        PackageType::Installer => 0x000C_1084_0000_0000_C000_0000_0000_0046,
        PackageType::Patch => 0x000C_1086_0000_0000_C000_0000_0000_0046,
        PackageType::Transform => 0x000C_1082_0000_0000_C000_0000_0000_0046,
    })
}
