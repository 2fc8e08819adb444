//! Slices of a list of commands, which are run at once.
ghost use Rattle.command_file.specs.Request.{is_commit};
ghost use Rattle.command_file.specs.RequestsOf.{request_of};
ghost use Rattle.installer_runs.specs.Runs.{has_commit, is_alone, IsSlice};
ghost use Rattle.std.specs.Prelude.{◌≡◌, ◌-◌, ◌<◌, ◌≤◌, drop, false, length, map, take};

use installer::Command;

// How many commands are run before their answers are heard, if they aren't inserts.
const SLICE: usize = 64;

// Whether a command inserts rows: its answer takes no room, and a session carries out many of them at once.
fn is_insert(command: &Command) -> bool {
    matches!(command, Command::Insert(_))
}

// Where the commands end that are run at once from this place on: inserts that follow one another, or some commands of which none is one.
pub(crate) fn end_of_slice(commands: &[Command], from: usize) -> usize
    requires { from < length commands.now }
    ensures behind { from < result }
    ensures inside { result ≤ length commands.now }
{
    let inserts = is_insert(&commands[from]);
    let mut end = from + 1;
    while end < commands.len()
        && is_insert(&commands[end]) == inserts
        && (inserts || end - from < SLICE)
    {
        end += 1;
    }
    end
}

// The end of the next slice from this place on: of one in which a commit stands alone, or none is.
pub(crate) fn next_slice(commands: &[Command], from: usize) -> usize
    requires { from < length commands.now }
    ensures behind { from < result }
    ensures inside { result ≤ length commands.now }
    ensures slice { IsSlice (map request_of (take (result - from) (drop from commands.now))) }
{
    let end = end_of_slice(commands, from);
    from + part_of(&commands[from..end])
}

// How many of these commands, of which there are some, are run at once: those before the first commit, or the commit alone.
fn part_of(commands: &[Command]) -> usize
    requires { 0 < length commands.now }
    ensures some { 0 < result }
    ensures inside { result ≤ length commands.now }
    ensures slice { IsSlice (map request_of (take result commands.now)) }
{
    let count = before_commit(commands);
    if count == 0 {
        return 1;
    }
    count
}

// How many of them stand before the first commit.
fn before_commit(commands: &[Command]) -> usize
    ensures inside { result ≤ length commands.now }
    ensures free { has_commit (map request_of (take result commands.now)) ≡ false }
    ensures first { result ≡ 0 → 0 < length commands.now
        → IsSlice (map request_of (take 1 commands.now)) }
{
    for (count, command) in commands.iter().enumerate() {
        if is_commit(command) {
            return count;
        }
    }
    commands.len()
}

// Whether a command commits.
fn is_commit(command: &Command) -> bool
    ensures { result ≡ is_commit (request_of command.now) }
{
    matches!(command, Command::Commit)
}

/// Whether these commands are a commit alone.
pub(crate) fn is_commit_alone(commands: &[Command]) -> bool
    ensures { result ≡ is_alone (map request_of commands.now) }
{
    match commands {
        [command] => is_commit(command),
        _ => false,
    }
}
