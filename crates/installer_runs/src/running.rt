//! Commands run on the package of a device.
ghost use Rattle.cfb_tree.specs.CaseTableViews.{case_table_of};
ghost use Rattle.command_file.specs.RequestsOf.{request_of};
ghost use Rattle.installer.specs.Reply as told;
ghost use Rattle.installer.specs.RepliesOf.{reply_of};
ghost use Rattle.installer.specs.FirstRefusal.{any_refusal};
ghost use Rattle.installer_runs.specs.Runs.{GoesAlong, GoesUntil, IsSlice, KeepsBack, Leads, LetsPass, Heard, RunsAnyhow, RunsOn, ends_behind};
ghost use Rattle.installer.specs.CrashSurvival.{SurvivesCrash};
ghost use Rattle.msi.specs.Committing.{BytesHoldPackage};
ghost use Rattle.msi.specs.Opened.{IsSoundFile};
ghost use Rattle.msi_spec.specs.Package.{PackageContent};
ghost use Rattle.staged.specs.Log.{recovered};
ghost use Rattle.std.specs.Prelude.{◌≡◌, ◌∷◌, ℕ, List, [], Some, false, map, true, IfErr, IfOk, IsTrue};

use crate::listener::Listener;
use crate::slices::{is_commit_alone, next_slice};
use cfb::CaseMapper;
use cfb_medium::Error;
use installer::{Answer, Command, Session, SessionOver};
use staged::{Device, Staged};
use std::alloc::Global;

/// Where a run ends.
#[derive(Clone, Copy, Debug, PartialEq, Eq)]
pub enum Until {
    /// Behind the last command.
    End,
    /// Behind the first command that is refused, by a rule or for a fault; else behind the last.
    Refusal,
}

/// How a run ended.
#[derive(Clone, Copy, Debug, PartialEq, Eq)]
pub enum Ending {
    /// Each command was run, and its answer was heard.
    Whole,
    /// A command was refused behind which the run was to end: its answer was the last that was heard.
    Stopped,
    /// No session was opened, so no command was run.
    Unopened(Error),
    /// There was no memory for more answers: the commands whose answers were heard were run, and no others.
    Cut,
}

/// Recovers, opens the package of the home file, whose names are compared under the case table, runs the commands in order, to the last
/// or to the first that is refused, and gives the device back. The answers are heard in slices, as they come. Where the home file, once recovered, holds a sound package, the
/// commands go by its rules from there on, and each commit that they begin is one that a crash may leave: at any moment, and however the
/// run ended. A commit of a sound package of which a text doesn't fit its page isn't begun: it is answered `InvalidInput`, and the listener
/// is told the texts. Of a file that holds none nothing that a recovery gives is changed. `Unopened` as `Session::open` is refused: of a sound
/// package only by a fault.
pub fn run_on<D: Device, L: Listener>(
    alloc: Global,
    device: D,
    letters: CaseMapper,
    commands: &[Command],
    until: Until,
    listener: &mut L,
) -> (D, Ending)
    ensures ran { IsTrue (D.honest device) → (bytes : List ℕ) (P : PackageContent)
        → recovered (D.content device) ≡ Some bytes
        → BytesHoldPackage (case_table_of letters) bytes P
        → RunsOn (case_table_of letters) D.Device L.Listener P until
        (map request_of commands.now) result.1 device result.0 listener.old listener.new }
    ensures anyhow { RunsAnyhow D.Device L.Listener until
        (map request_of commands.now) result.1 device result.0 listener.old listener.new }
    ensures unsound { IsTrue (D.honest device) → (bytes : List ℕ)
        → recovered (D.content device) ≡ Some bytes
        → (IsSoundFile (case_table_of letters) bytes → ⊥)
        → SurvivesCrash (case_table_of letters) D.Device device result.0 [] }
{
    match Session::open(alloc, device, letters) {
        Ok(session) => run_session(alloc, session, commands, until, listener),
        Err((device, error)) => (device, Ending::Unopened(error)),
    }
}

// Runs the commands in a session, and gives its device back.
fn run_session<D: Device, L: Listener>(
    alloc: Global,
    session: SessionOver<Staged<D>>,
    commands: &[Command],
    until: Until,
    listener: &mut L,
) -> (D, Ending)
    ensures { Leads L.Listener until (map request_of commands.now) result.1 session result.0
        listener.old listener.new }
{
    let mut session = session;
    let ending = run_all(alloc, &mut session, commands, until, listener);
    (session.into_device(), ending)
}

// Runs the commands in slices, to where the run ends, or until there is no memory for their answers.
fn run_all<D: Device, L: Listener>(
    alloc: Global,
    session: &mut SessionOver<Staged<D>>,
    commands: &[Command],
    until: Until,
    listener: &mut L,
) -> Ending
    ensures { GoesAlong L.Listener until (map request_of commands.now) result
        session.old session.new listener.old listener.new }
{
    let mut done = 0;
    while done < commands.len() {
        let end = next_slice(commands, done);
        match run_slice(alloc, session, &commands[done..end], until, listener) {
            Ok(answers) => {
                listener.hear(&answers);
                if ends_behind(until, &answers) {
                    return Ending::Stopped;
                }
            }
            Err(_) => return Ending::Cut,
        }
        done = end;
    }
    Ending::Whole
}

// Whether a run ends behind these answers.
fn ends_behind(until: Until, answers: &[Answer]) -> bool
    ensures { result ≡ ends_behind until (map reply_of answers.now) }
{
    match until {
        Until::End => false,
        Until::Refusal => has_refusal(answers),
    }
}

// Whether one of them is a refusal.
fn has_refusal(answers: &[Answer]) -> bool
    ensures { result ≡ any_refusal (map reply_of answers.now) }
{
    for answer in answers {
        if answer.is_refusal() {
            return true;
        }
    }
    false
}

// How many texts a listener is told at most.
const MOST: usize = 10;

// Runs a slice. A commit of a package with a text that doesn't fit its page isn't passed on.
fn run_slice<D: Device, L: Listener>(
    alloc: Global,
    session: &mut SessionOver<Staged<D>>,
    slice: &[Command],
    until: Until,
    listener: &mut L,
) -> Result<Vec<Answer>, Error>
    requires { IsSlice (map request_of slice.now) }
    ensures goes { IfOk result (λ answers. GoesUntil until (map request_of slice.now)
        (map reply_of answers.items) session.old session.new) }
    ensures none_ran { IfErr result (λ e. session.new ≡ session.old) }
    ensures heard { Heard L.hears [] listener.old listener.new }
{
    if is_commit_alone(slice) && is_unfit(session) {
        tell_unfit(session, listener);
        return refusal(alloc);
    }
    match until {
        Until::End => session.run(slice),
        Until::Refusal => session.run_to_refusal(slice),
    }
}

// Tells the first of the texts that keep a commit back, if there is memory for them.
fn tell_unfit<D: Device, L: Listener>(session: &SessionOver<Staged<D>>, listener: &mut L)
    ensures { Heard L.hears [] listener.old listener.new }
{
    match session.unfit_texts(MOST) {
        Ok(texts) => listener.keep_back(&texts),
        Err(_) => {}
    }
}

// Whether a session runs whose package is sound, and a text of it doesn't fit its page.
fn is_unfit<D: Device>(session: &SessionOver<Staged<D>>) -> bool
    ensures keeps { result ≡ true → KeepsBack session.now }
    ensures passes { result ≡ false → LetsPass session.now }
{
    if session.has_failed() || !session.is_sound() {
        return false;
    }
    !session.texts_fit()
}

// The answer of a commit that isn't passed on.
fn refusal(alloc: Global) -> Result<Vec<Answer>, Error>
    ensures { IfOk result (λ answers. map reply_of answers.items
        ≡ told.refused Error.InvalidInput ∷ []) }
{
    let mut answers = Vec::new(alloc);
    answers.push(Answer::Refused(Error::InvalidInput))?;
    Ok(answers)
}
