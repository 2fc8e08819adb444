//! The parts of a package that are held in memory.
use msi_pool::StringPool;
use msi_spec::PackageType;
use msi_summary::SummaryInfo;
use msi_tables::Table;
use std::rc::Rc;

/// The parts of a package that are held in memory: its kind, summary and pool, and its tables by rising names, without their rows.
#[derive(Drop)]
pub struct PackageParts {
    pub kind: PackageType,
    pub summary: SummaryInfo,
    pub pool: StringPool,
    /// Whether each text of the pool gives back its bytes.
    pub gives_back: bool,
    pub tables: Vec<Rc<Table>>,
}
