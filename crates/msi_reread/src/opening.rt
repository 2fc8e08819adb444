//! Packages that are opened, or adopted, with their texts as code pages of one's choice read them.
ghost use Rattle.std.specs.Prelude.{◌≡◌, [], false, true, IfErr, IfOk, IsTrue, MatchResult};
ghost use Rattle.cfb.specs.FollowedRules.{FileMeansTree};
ghost use Rattle.cfb.specs.Views.{file_case_table, mini_of, sound_of};
ghost use Rattle.cfb_chain_io.specs.ChainEffects.{KeepsFileInvariants};
ghost use Rattle.cfb_fat.specs.Tables.{medium_of};
ghost use Rattle.cfb_mini.specs.Views.{allocator_of};
ghost use Rattle.cfb_tree.specs.CaseTableViews.{case_table_of};
ghost use Rattle.cfb_tree.specs.Tree.{Tree};
ghost use Rattle.msi.specs.Opened.{file_in};
ghost use Rattle.msi_adopting.specs.Adopted.{PublishesNothing};
ghost use Rattle.msi_reread.specs.Opened.{AdoptsReread, OpensReread, OpensTree};
ghost use Rattle.msi_spec.specs.Opening.{keeps_encoded_names};

use crate::rereading::{Lacking, Pages, reread};
use cfb::{CaseMapper, CompoundFile};
use cfb_medium::{Error, Medium};
use msi::Package;
use msi_adopting::adopt;
use std::alloc::Global;

/// Opens the package in a sound file, with its texts as these pages read them: in the file's medium they stand in UTF-8 then, and nothing is
/// published. With it the texts of which bytes have no character. Names are compared under the case table, which is that of the file. Errors
/// are those of `reread` and of `Package::open`; each gives the medium back, in which one part may stand in UTF-8, and the other not.
pub fn open_by<F: Medium>(
    alloc: Global,
    file: CompoundFile<F>,
    letters: CaseMapper,
    pages: Pages,
) -> Result<(Package<F>, Lacking), (F, Error)>
    ensures opened { (tree : Tree) → FileMeansTree file tree
        → file_case_table file ≡ case_table_of letters → IfOk result
        (λ it. OpensReread (case_table_of letters) pages.texts pages.summary tree it.0
        it.1.texts.items it.1.summary.items) }
    ensures left { MatchResult result (λ it. PublishesNothing F.honest F.continues
        (medium_of (allocator_of (mini_of file)))
        (medium_of (allocator_of (mini_of (file_in it.0)))))
        (λ e. PublishesNothing F.honest F.continues (medium_of (allocator_of (mini_of file))) e.0) }
{
    let mut file = file;
    match reread(alloc, &mut file, pages) {
        Ok(lacking) => open_reread(alloc, file, letters, lacking),
        Err(error) => Err((file.into_inner(), error)),
    }
}

// Opens the package of a file, whose texts were put in UTF-8.
fn open_reread<F: Medium>(
    alloc: Global,
    file: CompoundFile<F>,
    letters: CaseMapper,
    lacking: Lacking,
) -> Result<(Package<F>, Lacking), (F, Error)>
    ensures opened { (tree : Tree) → FileMeansTree file tree
        → file_case_table file ≡ case_table_of letters
        → IfOk result (λ it. OpensTree (case_table_of letters) tree it.0 × (it.1 ≡ lacking)) }
    ensures left { MatchResult result (λ it. PublishesNothing F.honest F.continues
        (medium_of (allocator_of (mini_of file)))
        (medium_of (allocator_of (mini_of (file_in it.0)))))
        (λ e. PublishesNothing F.honest F.continues (medium_of (allocator_of (mini_of file))) e.0) }
{
    match Package::open(alloc, file.into_inner(), letters) {
        Ok(package) => Ok((package, lacking)),
        Err(refusal) => Err(refusal),
    }
}

/// Makes a copy of a package in an empty medium, as `adopt` does, with its texts as these pages read them, in UTF-8. With it the texts of which
/// bytes have no character. In the source's medium they stand so, too, and nothing is published there. Names are compared under the case table,
/// which is that of the source. Errors are those of `reread` and of `adopt`; each gives the empty medium back, to which nothing is published.
pub fn adopt_by<S: Medium, T: Medium>(
    alloc: Global,
    source: &mut CompoundFile<S>,
    target: T,
    letters: CaseMapper,
    pages: Pages,
) -> Result<(T, Lacking), (T, Error)>
    requires { IsTrue (T.honest target) → T.bytes target ≡ [] }
    ensures adopted { (tree : Tree) → IsTrue (T.honest target) → FileMeansTree source.old tree
        → file_case_table source.old ≡ case_table_of letters
        → keeps_encoded_names (case_table_of letters) ≡ true → IfOk result
        (λ it. AdoptsReread (case_table_of letters) pages.texts pages.summary tree (T.bytes it.0)
        it.1.texts.items it.1.summary.items) }
    ensures left { MatchResult result (λ it. PublishesNothing T.honest T.continues target it.0)
        (λ e. PublishesNothing T.honest T.continues target e.0) }
    ensures invariants { KeepsFileInvariants (allocator_of (mini_of source.old))
        (allocator_of (mini_of source.new)) }
{
    match reread(alloc, source, pages) {
        Ok(lacking) => match adopt(alloc, source, target, letters) {
            Ok(target) => Ok((target, lacking)),
            Err(refusal) => Err(refusal),
        },
        Err(error) => Err((target, error)),
    }
}
