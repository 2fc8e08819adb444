//! A session on a package over the two files of a device.
ghost use Rattle.cfb_medium.specs.declared.error.Error.TheVariants as error;
ghost use Rattle.cfb_tree.specs.CaseTableViews.{case_table_of};
ghost use Rattle.command_file.specs.Request as asked;
ghost use Rattle.command_file.specs.RequestsOf.{request_of};
ghost use Rattle.installer.specs.CommandRuns.{FollowAll, RunsCommand};
ghost use Rattle.installer.specs.Refusals.{IsSessionCreateError, IsSessionOpenError};
ghost use Rattle.installer.specs.RepliesOf.{reply_of};
ghost use Rattle.installer.specs.Step.{told_of};
ghost use Rattle.installer.specs.FirstRefusal.{RunsToRefusal};
ghost use Rattle.installer.specs.CrashSurvival.{IsRecovered, SurvivesCrash};
ghost use Rattle.msi.specs.Changing.{PackageCanBeWritten};
ghost use Rattle.msi.specs.Committing.{BytesHoldPackage};
ghost use Rattle.msi.specs.Fitting.{unfit_texts};
ghost use Rattle.msi.specs.Opened.{IsOpenedPackage, PackageHasContent, pool_in, summary_in};
ghost use Rattle.msi_spec.specs.Calls.{IsNew};
ghost use Rattle.msi_spec.specs.Package.{PackageContent};
ghost use Rattle.msi_spec.specs.declared.kind.PackageType.TheVariants.{Installer};
ghost use Rattle.staged.specs.Log.{logged, recovered, MalformedLog};
ghost use Rattle.staged.specs.Committed.{HasPublished, IsLogClosed};
ghost use Rattle.std.specs.Prelude.{◌≡◌, ◌↔◌, ◌&&◌, ◌||◌, ℕ, List, [], None, Some, false, map, not, string_bytes, take, true, IfErr, IfOk, IsTrue, MatchResult, OnOk};
ghost use Rattle.cfb_medium.specs.Calls.{Reaches, IsFaultOrInvalidInputIf};

use crate::Answer;
use crate::beginning::recovered_medium;
use crate::changes::answer_of;
use cfb::CaseMapper;
use cfb_medium::{Error, Medium, ReadMedium};
use command_file::Command;
use msi::Package;
use msi_spec::PackageType;
use staged::{Device, Staged};
use std::alloc::Global;

/// A package that commands read and change.
#[derive(Drop)]
pub struct SessionOver<F: Medium> {
    pub(crate) alloc: Global,
    pub(crate) package: Package<F>,
    // whether a package was opened or committed, to which a roll back leads
    pub(crate) has_base: bool,
}

/// A session over the two files of a device, which survives a crash at any moment.
pub type Session<D> = SessionOver<Staged<D>>;

impl<F: Medium> SessionOver<F> {
    ghost use Rattle.installer.specs.Sessions.{is_failed, is_sound, package_in};

    /// Whether a fault has left the session in a state in which every command is refused.
    pub fn has_failed(&self) -> bool
        ensures { result ≡ is_failed self.now }
    {
        self.package.has_failed()
    }

    /// Whether the package is sound, as it was judged when the session began. One that isn't is read alone.
    pub fn is_sound(&self) -> bool
        ensures { result ≡ is_sound self.now }
    {
        self.package.is_sound()
    }

    /// Whether each text of the package fits its page, and none is too long: then a commit publishes bytes that hold the package. Else
    /// it writes `?` for a character that its page lacks. It takes no memory, and time for each character.
    pub fn texts_fit(&self) -> bool
        ensures { (P : PackageContent) → PackageHasContent (package_in self.now) P
            → IsTrue result ↔ PackageCanBeWritten P }
    {
        self.package.texts_fit()
    }

    /// The first texts, so many at most, that don't fit their pages, as `Package::unfit_texts` gives them. The one error is `Memory`.
    pub fn unfit_texts(&self, most: usize) -> Result<Vec<String>, Error>
        ensures texts { IfOk result (λ texts. map string_bytes texts.items
            ≡ take most (unfit_texts (pool_in (package_in self.now)).pool
            (summary_in (package_in self.now)).props)) }
        ensures errors { IfErr result (λ e. e ≡ error.Memory) }
    {
        self.package.unfit_texts(self.alloc, most)
    }
}

impl<D: Device> SessionOver<Staged<D>> {
    ghost use Rattle.installer.specs.Sessions.{beginning, device_below, has_base, has_medium_failed, is_failed, is_sound, session_case_table, package_in, SessionIsAt};

    /// Recovers, and begins a new installer package on an empty home file, whose names are compared under the case table; nothing
    /// is committed. `InvalidData` for a malformed log, which leaves both files; `AlreadyExists` where the home file isn't empty;
    /// `InvalidInput` where the case table has a pair with a character from U+3800 to U+4840; then as `Package::create` is refused.
    /// An error hands the device back.
    pub fn create(
        alloc: Global,
        device: D,
        letters: CaseMapper,
    ) -> Result<SessionOver<Staged<D>>, (D, Error)>
        ensures began { IsTrue (D.honest device) → IfOk result (λ s.
            (recovered (D.content device) ≡ Some []) × (P : PackageContent) × IsNew Installer P
            × PackageCanBeWritten P × SessionIsAt s (beginning s None P)) }
        ensures letters { IfOk result (λ s. session_case_table s ≡ case_table_of letters) }
        ensures sound { IfOk result (λ s. (is_failed s ≡ false) × (is_sound s ≡ true)) }
        ensures survives { MatchResult result
            (λ s. SurvivesCrash (case_table_of letters) D.Device device (device_below s) [])
            (λ refusal. SurvivesCrash (case_table_of letters) D.Device device refusal.0 []) }
        ensures refused_only_if { IfErr result
            (λ refusal. IsSessionCreateError (case_table_of letters) D.Device
            device refusal.0 refusal.1) }
        ensures left { IsTrue (D.honest device) → logged (D.content device) ≡ MalformedLog
            → IfErr result (λ refusal. refusal.1 ≡ error.InvalidData
            → Reaches D.rests device refusal.0) }
    {
        let mut medium = match recovered_medium(alloc, device) {
            Ok(medium) => medium,
            Err((device, error)) => return Err((device, error)),
        };
        match medium.len() {
            Ok(0) => {}
            Ok(_) => return Err((medium.into_device(), Error::AlreadyExists)),
            Err(error) => return Err((medium.into_device(), error)),
        }
        match Package::create(alloc, PackageType::Installer, medium, letters) {
            Ok(package) => Ok(SessionOver {
                alloc,
                package,
                has_base: false,
            }),
            Err((medium, error)) => Err((medium.into_device(), error)),
        }
    }

    /// Recovers, and goes on with the package of the home file, whose names are compared under the case table. `InvalidData` for a
    /// malformed log, which leaves both files; then as `Package::open` is refused. An error hands the device back. A package that isn't
    /// sound is read alone. A package that a session committed under this case table, where it can be written as it is, is opened as
    /// the same one, sound, unless there is a fault.
    pub fn open(
        alloc: Global,
        device: D,
        letters: CaseMapper,
    ) -> Result<SessionOver<Staged<D>>, (D, Error)>
        ensures opened { IsTrue (D.honest device) → IfOk result (λ s. (bytes : List ℕ)
            × (recovered (D.content device) ≡ Some bytes)
            × IsOpenedPackage (case_table_of letters) bytes (package_in s)) }
        ensures began { IfOk result (λ s. (P : PackageContent) → PackageHasContent (package_in s) P
            → SessionIsAt s (beginning s (Some P) P)) }
        ensures reopens { IsTrue (D.honest device) → (bytes : List ℕ) (P : PackageContent)
            → recovered (D.content device) ≡ Some bytes
            → BytesHoldPackage (case_table_of letters) bytes P → MatchResult result
            (λ s. PackageHasContent (package_in s) P × (is_sound s ≡ true))
            (λ refusal. IsFaultOrInvalidInputIf ⊥ refusal.1) }
        ensures letters { IfOk result (λ s. session_case_table s ≡ case_table_of letters) }
        ensures not_failed { IfOk result (λ s. is_failed s ≡ false) }
        ensures survives { MatchResult result
            (λ s. SurvivesCrash (case_table_of letters) D.Device device (device_below s) [])
            (λ refusal. SurvivesCrash (case_table_of letters) D.Device device refusal.0 []) }
        ensures refused_only_if { IfErr result
            (λ refusal. IsSessionOpenError (case_table_of letters) D.Device
            device refusal.0 refusal.1) }
        ensures left { IsTrue (D.honest device) → logged (D.content device) ≡ MalformedLog
            → IfErr result (λ refusal. refusal.1 ≡ error.InvalidData
            → Reaches D.rests device refusal.0) }
    {
        let medium = match recovered_medium(alloc, device) {
            Ok(medium) => medium,
            Err(refusal) => return Err(refusal),
        };
        match Package::open(alloc, medium, letters) {
            Ok(package) => Ok(SessionOver {
                alloc,
                package,
                has_base: true,
            }),
            Err((medium, error)) => Err((medium.into_device(), error)),
        }
    }

    /// Runs commands in order, with an answer for each. Inserts into one table that follow one another are carried out as one, if all of
    /// them are done by that; what is answered, and what is held then, is the same. `Memory` where there is no room for the answers: then
    /// none was run. On every device, also one that lies, and whatever the file holds, `Device` and `Failed` are answered only where there
    /// was such a fault. No command of a package that isn't sound changes what a recovery gives. Case table and soundness stay.
    pub fn run(&mut self, commands: &[Command]) -> Result<Vec<Answer>, Error>
        ensures followed { IfOk result (λ answers. FollowAll (map request_of commands.now)
            (map reply_of answers.items) self.old self.new) }
        ensures none_ran { IfErr result (λ e. (e ≡ error.Memory) × (self.new ≡ self.old)) }
    {
        let mut answers = Vec::with_capacity(self.alloc, commands.len())?;
        self.answer_all(commands, &mut answers);
        Ok(answers)
    }

    /// Runs commands in order up to the first that is refused, which is run, too, with an answer for each that was run. Else as `run`.
    pub fn run_to_refusal(&mut self, commands: &[Command]) -> Result<Vec<Answer>, Error>
        ensures ran { IfOk result (λ answers. RunsToRefusal (map request_of commands.now)
            (map reply_of answers.items) self.old self.new) }
        ensures none_ran { IfErr result (λ e. (e ≡ error.Memory) × (self.new ≡ self.old)) }
    {
        let mut answers = Vec::with_capacity(self.alloc, commands.len())?;
        self.answer_to_refusal(commands, &mut answers);
        Ok(answers)
    }

    // Runs one command.
    pub(crate) fn answer(&mut self, command: &Command) -> Answer
        ensures { RunsCommand (request_of command.now) (reply_of result) self.old self.new }
    {
        if self.has_failed() {
            return self.answer_failed(command);
        }
        match command {
            Command::CreateTable(name, columns) => self.create_table(name, columns),
            Command::DropTable(name) => self.drop_table(name),
            Command::Insert(insert) => self.insert(insert),
            Command::Update(update) => self.update(update),
            Command::Delete(delete) => self.delete(delete),
            Command::Select(select) => self.select(select),
            Command::Tables => self.tables(),
            Command::Columns(name) => self.columns(name),
            Command::Streams => self.streams(),
            Command::ReadStream(name) => self.read_stream(name),
            Command::WriteStream(name, bytes) => self.write_stream(name, bytes),
            Command::RemoveStream(name) => self.remove_stream(name),
            Command::HasSignature => self.has_signature(),
            Command::RemoveSignature => self.remove_signature(),
            Command::Summary => self.summary(),
            Command::SetSummary(change) => self.set_summary(change),
            Command::Codepage => self.codepage(),
            Command::SetCodepage(page) => self.set_codepage(*page),
            Command::Flush => self.flush(),
            Command::Commit => answer_of(self.commit()),
            Command::RollBack => answer_of(self.roll_back()),
        }
    }

    // Answers a command where a fault has ended the session: a roll back alone may lead out of that.
    fn answer_failed(&mut self, command: &Command) -> Answer
        requires { is_failed self.old ≡ true }
        ensures { RunsCommand (request_of command.now) (reply_of result) self.old self.new }
    {
        match command {
            Command::RollBack => answer_of(self.roll_back()),
            _ => Answer::Refused(Error::Failed),
        }
    }

    /// Publishes the package: after `Ok` the log is closed, and whatever a crash leaves, a recovery gives bytes that hold it, where it can
    /// be written as it is, and else all of it but its texts; of a package that isn't sound nothing is written. `Failed` where the session has failed before; else as
    /// `Package::commit` is refused: then either all is as it was and nothing was published, or the session has failed.
    pub fn commit(&mut self) -> Result<(), Error>
        ensures follows { RunsCommand asked.commit (told_of result) self.old self.new }
        ensures published { OnOk result
            ((P : PackageContent) → PackageHasContent (package_in self.old) P
            → IsTrue (is_sound self.old) → (bytes : List ℕ)
            × HasPublished D.Device (device_below self.new) bytes
            × IsRecovered (session_case_table self.old) bytes P) }
    {
        if self.has_failed() {
            return Err(Error::Failed);
        }
        self.publish()
    }

    // Flushes and publishes. Where a fault of the medium has cut that off in its midst, nothing is known to which to go back.
    fn publish(&mut self) -> Result<(), Error>
        requires { is_failed self.old ≡ false }
        ensures follows { RunsCommand asked.commit (told_of result) self.old self.new }
        ensures published { OnOk result
            ((P : PackageContent) → PackageHasContent (package_in self.old) P
            → IsTrue (is_sound self.old) → (bytes : List ℕ)
            × HasPublished D.Device (device_below self.new) bytes
            × IsRecovered (session_case_table self.old) bytes P) }
    {
        let published = self.package.commit();
        let is_done = published.is_ok();
        let has_base = self.has_base_after(is_done);
        self.has_base = has_base;
        published
    }

    // Whether there is a package to which to go back, after a commit that was done or not.
    fn has_base_after(&self, is_done: bool) -> bool
        ensures { result ≡ (not (has_medium_failed self.now) && (has_base self.now || is_done)) }
    {
        !self.package.has_medium_failed() && (self.has_base || is_done)
    }

    /// Goes back to the package that was committed last, or else to the one that was opened, also after a fault: what was changed since is
    /// gone, and all is read again. `NotFound` in a new session before its first commit, or `Failed` where that has failed; `Failed`, too,
    /// where a fault of the device has cut a commit off in its midst: then nothing is changed. `Memory` and `Device`: then all is as it was, or the
    /// session has failed, and may be rolled back again. Of a package that isn't sound nothing was changed, so nothing is read. Nothing is
    /// written, and nothing is published.
    pub fn roll_back(&mut self) -> Result<(), Error>
        ensures { RunsCommand asked.roll_back (told_of result) self.old self.new }
    {
        if !self.is_sound() {
            if self.has_failed() {
                return Err(Error::Failed);
            }
            return Ok(());
        }
        if !self.has_base {
            if self.has_failed() {
                return Err(Error::Failed);
            }
            return Err(Error::NotFound);
        }
        self.package.roll_back()
    }

    /// The device, with what was committed.
    pub fn into_device(self) -> D
        ensures device { result ≡ device_below self }
        ensures settled { IsTrue (D.honest result) → is_failed self ≡ false
            → IsLogClosed D.Device result }
    {
        self.package.into_medium().into_device()
    }
}
