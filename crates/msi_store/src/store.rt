//! The tables of a package as queries find them: their rows lie in the file.
use crate::rows::rows_of_table;
use cfb::CompoundFile;
use cfb_medium::{Error, ReadMedium};
use msi_parts::table_named;
use msi_pool::ValueRef;
use msi_query::TableSource;
use msi_tables::Table;
use std::alloc::Global;
use std::rc::Rc;

/// The file of a package, and its tables by rising names, without their rows. The rows of one table are in memory at a time, but for
/// what a query holds by itself.
#[derive(Drop)]
pub struct Store<F: ReadMedium> {
    pub file: CompoundFile<F>,
    pub tables: Vec<Rc<Table>>,
}

impl<F: ReadMedium> TableSource for Store<F> {
    ghost use Rattle.msi_store.specs.Stores.{stored_in};
    ghost use Rattle.msi_stored.proofs.StoredLaws.{rests_cause, rests_keeps, rests_refl, rests_then};
    ghost use Rattle.msi_stored.specs.StoredPackages.{HasCause, HasTables, OnlyReadsStore};

    ghost has_tables = { λ it tables. HasTables (stored_in it) tables };

    ghost rests = { λ old new. OnlyReadsStore (stored_in old) (stored_in new) };

    ghost has_cause = { λ old new e. HasCause (stored_in old) (stored_in new) e };

    fn table(&self, name: &str) -> Option<&Table> {
        table_named(&self.tables, name)
    }

    fn rows(&mut self, alloc: Global, name: &str) -> Result<Vec<Vec<ValueRef>>, Error> {
        match table_named(&self.tables, name) {
            Some(table) => rows_of_table(alloc, &mut self.file, table),
            None => Ok(Vec::new(alloc)),
        }
    }

    ghost rests_refl = { λ it. rests_refl (stored_in it) };

    ghost rests_then = { λ a b c one other. rests_then (stored_in a) (stored_in b) (stored_in c) one other };

    ghost rests_keeps = { λ a b tables rests has. rests_keeps (stored_in a) (stored_in b) tables rests has };

    ghost rests_cause = { λ a b c e rests cause. rests_cause (stored_in a) (stored_in b) (stored_in c) e rests cause };
}
