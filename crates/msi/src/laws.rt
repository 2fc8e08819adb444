//! Laws of packages, each the contract of a function that does nothing.
ghost use Rattle.std.specs.Prelude.{◌≡◌, ℕ, IsTrue, List};
ghost use Rattle.cfb_medium.specs.declared.error.Error.{Error};
ghost use Rattle.cfb_medium.specs.declared.version.Version.{Version};
ghost use Rattle.cfb_tree.specs.Names.{CaseTable};
ghost use Rattle.msi.specs.Alike.{AnswerAlike, ChangeTheSame, HoldTheSame, letters_in};
ghost use Rattle.msi.specs.Committing.{BytesHoldPackage};
ghost use Rattle.msi.specs.Copying.{HoldsPackageCopy};
ghost use Rattle.msi.specs.Lending.{summed_up, with_summary};
ghost use Rattle.msi.specs.Opened.{sound_in, summary_in, IsOpenedPackage, AreBytesRejected, IsSoundFile, PackageHasContent};
ghost use Rattle.msi_spec.specs.Package.{MeansPackage, PackageContent};
ghost use Rattle.msi_props.specs.Held.{SetState};

use crate::package::Package;
use cfb_medium::ReadMedium;

/// Bytes that a commit published of a package mean this package and no other, and are a sound file. Opening them is refused by no rule;
/// and what is opened over them, under the same case table, holds this very package, and is sound: it may be changed again.
pub fn committed_packages_open_again<F: ReadMedium>()
    ensures meant { (letters : CaseTable) (bytes : List ℕ) (P : PackageContent)
        → BytesHoldPackage letters bytes P
        → MeansPackage letters bytes P × IsSoundFile letters bytes }
    ensures one { (letters : CaseTable) (bytes : List ℕ) (P Q : PackageContent)
        → BytesHoldPackage letters bytes P
        → BytesHoldPackage letters bytes Q → P ≡ Q }
    ensures accepted { (letters : CaseTable) (bytes : List ℕ) (P : PackageContent) (e : Error)
        → BytesHoldPackage letters bytes P → AreBytesRejected letters bytes e → ⊥ }
    ensures opened { (letters : CaseTable) (bytes : List ℕ) (P : PackageContent)
        (it : Package F F.ReadMedium) → BytesHoldPackage letters bytes P
        → IsOpenedPackage letters bytes it → PackageHasContent it P × IsTrue (sound_in it) }
{}

/// A package whose summary was lent holds what it held, with the summary that was made of it, where that has one section; a sound one
/// had such a summary, and no setter changes how many it has.
pub fn changed_summaries_are_held<F: ReadMedium>()
    ensures held { (it : Package F F.ReadMedium) (P : PackageContent) (s : SetState)
        → PackageHasContent it P
        → s.props.sections ≡ 1 → PackageHasContent (with_summary it s) (summed_up s.props P) }
    ensures one { (it : Package F F.ReadMedium) (P : PackageContent) → PackageHasContent it P
        → IsTrue (sound_in it) → (summary_in it).props.sections ≡ 1 }
{}

/// Two packages that hold the same content, under the same case table, answer each call alike unless a fault comes: over whichever media,
/// and with whichever buffers. A change gives both the same answer, and leaves both with the same content. So the rows are the same and
/// each stream has the same bytes; and what is opened of a copy answers as the package that was copied.
pub fn answers_are_alike<F: ReadMedium, G: ReadMedium>()
    ensures answers { (a : Package F F.ReadMedium) (b : Package G G.ReadMedium) (P : PackageContent)
        → HoldTheSame a b P → AnswerAlike a b }
    ensures changes { (a c : Package F F.ReadMedium) (b d : Package G G.ReadMedium)
        (P : PackageContent) → HoldTheSame a b P → ChangeTheSame a b c d }
    ensures copied { (a : Package F F.ReadMedium) (b : Package G G.ReadMedium) (version : Version)
        (bytes : List ℕ) (P : PackageContent)
        → PackageHasContent a P → IsTrue (sound_in a)
        → HoldsPackageCopy version (letters_in a) bytes P
        → IsOpenedPackage (letters_in a) bytes b → HoldTheSame a b P }
{}
