//! Where queries find tables.
ghost use Rattle.cfb_medium.specs.declared.error.Error.{Error};
ghost use Rattle.msi_query.specs.Sources.{TablesByName};
ghost use Rattle.msi_tables.specs.Held.{heading_of, rows_held};
ghost use Rattle.msi_tables.specs.Table.{Table};
ghost use Rattle.std.specs.Prelude.{◌≡◌, option_map, IfErr, IfOk, IfSome};

use cfb_medium::Error;
use msi_pool::ValueRef;
use msi_tables::Table;
use std::alloc::Global;

/// Tables by their names, with their rows.
pub trait TableSource {
    /// It has these tables.
    ghost has_tables: { Self → TablesByName → Type 0 };

    /// The second state comes from the first by reads alone.
    ghost rests: { Self → Self → Type 0 };

    /// The error is a fault of the source, with its cause between the two states, or before them.
    ghost has_cause: { Self → Self → Error → Type 0 };

    /// The table of a name, without its rows.
    fn table(&self, name: &str) -> Option<&Table>
        ensures names { (tables : TablesByName) → has_tables self.now tables
            → option_map (λ t. (heading_of t.now).name) result
            ≡ option_map (λ t. t.name) (tables name.now) }
        ensures columns { (tables : TablesByName) → has_tables self.now tables
            → option_map (λ t. (heading_of t.now).columns) result
            ≡ option_map (λ t. t.columns) (tables name.now) };

    /// The rows of the table of a name.
    fn rows(&mut self, alloc: Global, name: &str) -> Result<Vec<Vec<ValueRef>>, Error>
        ensures rows { IfOk result (λ rows. (tables : TablesByName) → has_tables self.old tables
            → IfSome (tables name.now) (λ t. t.rows ≡ rows_held rows.items)) }
        ensures only_reads { rests self.old self.new }
        ensures cause { IfErr result (has_cause self.old self.new) };

    ghost rests_refl: { (it : Self) → rests it it };

    ghost rests_then: { (a b c : Self) → rests a b → rests b c → rests a c };

    ghost rests_keeps: { (a b : Self) (tables : TablesByName) → rests a b → has_tables a tables
        → has_tables b tables };

    ghost rests_cause: { (a b c : Self) (e : Error) → rests a b → has_cause b c e
        → has_cause a c e };
}
