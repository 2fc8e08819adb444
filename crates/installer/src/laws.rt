//! Laws of commands and of runs.
ghost use Rattle.cfb_tree.specs.Names.{CaseTable};
ghost use Rattle.command_file.specs.Request.{Request};
ghost use Rattle.installer.specs.SessionStates.{SessionState, BegunCommit, SessionRuns};
ghost use Rattle.installer.specs.Reply.{Reply};
ghost use Rattle.installer.specs.Step.{PackageStep};
ghost use Rattle.installer.specs.Undisturbed.{AreByRule, GoOn, IsBasedOn};
ghost use Rattle.msi_spec.specs.Package.{PackageContent};
ghost use Rattle.std.specs.Prelude.{◌≡◌, List};

/// A command on a package has one answer, and leads to one package. Two runs of the same commands, from courses with the same package,
/// in which each reply was given by a rule, have the same replies and end with the same package: over whichever devices, and with
/// whichever buffers.
pub fn runs_are_one()
    ensures once { (letters : CaseTable) (P Q R : PackageContent) (request : Request) (r s : Reply)
        → PackageStep letters P request r Q → PackageStep letters P request s R → (Q ≡ R)
        × (r ≡ s) }
    ensures runs { (letters : CaseTable) (a b c d : SessionState) (requests : List Request)
        (rs ss : List Reply) (ms ns : List BegunCommit) → a.held ≡ b.held → a.sound ≡ b.sound
        → SessionRuns letters a requests rs ms c → SessionRuns letters b requests ss ns d
        → AreByRule requests rs → AreByRule requests ss → (rs ≡ ss) × (c.held ≡ d.held) }
{}

/// No command changes the storages of a package, with all that lies in them, whatever its texts: after a run they are what they were, also
/// where it was rolled back, if those of the package to which a roll back led at first were so.
pub fn storages_stay()
    ensures on { (letters : CaseTable) (start end : SessionState) (requests : List Request)
        (replies : List Reply) (marks : List BegunCommit)
        → GoOn requests → SessionRuns letters start requests replies marks end
        → end.held.storages ≡ start.held.storages }
    ensures back { (letters : CaseTable) (start end : SessionState) (requests : List Request)
        (replies : List Reply) (marks : List BegunCommit)
        → IsBasedOn start.held.storages start
        → SessionRuns letters start requests replies marks end
        → end.held.storages ≡ start.held.storages }
{}
