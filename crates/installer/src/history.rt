//! The law over all that can happen to a device.
ghost use Rattle.std.specs.Prelude.{◌≡◌, ◌≤◌, List, [], IsTrue};
ghost use Rattle.cfb_medium.specs.Crashes.{CrashLeavesOnly};
ghost use Rattle.cfb_tree.specs.Names.{CaseTable};
ghost use Rattle.installer.specs.SessionStates.{BegunCommit};
ghost use Rattle.installer.specs.CrashSurvival.{MayBeRecovered, SurvivesCrash, AllGive, AnyList, gives, listed};
ghost use Rattle.staged.specs.Committed.{IsLogClosed};
ghost use Rattle.staged.specs.Steps.{RecoversAlike};
ghost use Rattle.installer.specs.History.{Event, Happen};

use staged::Device;

/// Committed packages survive. A device on which a recovery gives a list of whatever a crash may leave goes through calls of sessions and
/// recoveries, which return or crash at any moment, also in a recovery of a recovery. Whatever a crash may then leave, a recovery
/// gives bytes that hold the package of the last commit that was answered `Ok`, or of one that was begun since, sound, where it can be
/// written as it is, and in a sound container all of it but its texts whatever these are; or, where none was answered `Ok`, a list that it might have given at first. After a recovery that succeeded the home
/// file is such a list.
pub fn committed_packages_survive<D: Device>()
    ensures survive { (letters : CaseTable) (first : D) (events : List (Event letters D.Device))
        (marks : List BegunCommit) (last : D)
        → IsTrue (D.honest first) → AllGive AnyList (gives D.Device first)
        → Happen letters D.Device first events marks last
        → AllGive (MayBeRecovered letters (listed D.Device first) marks) (gives D.Device last) }
    ensures home { (letters : CaseTable) (first : D) (events : List (Event letters D.Device))
        (marks : List BegunCommit) (last : D)
        → IsTrue (D.honest first) → AllGive AnyList (gives D.Device first)
        → Happen letters D.Device first events marks last → IsLogClosed D.Device last
        → MayBeRecovered letters (listed D.Device first) marks (D.content last).home }
{}

/// A recovery is an event of that law, whatever it answers: what its contract says of honesty, failures and crashes is all that it takes.
pub fn recoveries_survive<D: Device>()
    ensures { (letters : CaseTable) (old new : D) → D.honest new ≡ D.honest old
        → D.failures old ≤ D.failures new → (IsTrue (D.honest old)
        → CrashLeavesOnly D.moment D.crash_left_since old new
        (RecoversAlike (D.crash_may_leave old)))
        → SurvivesCrash letters D.Device old new [] }
{}
