//! The program: its words are those of the command line, and its status says how it went.
#![tactic(auto)]

use command_line::{Terminals, msidb};
use std::io::{IsTerminal, Write};
use std::process::ExitCode;
use std::{env, io};

fn main(rt: HostRuntime) -> ExitCode {
    let mut err = rt.stderr();
    let words = match words_of(rt) {
        Ok(words) => words,
        Err(error) => return ExitCode::from(tell_unread(error.kind(), &mut err)),
    };
    let terminals = Terminals {
        out: rt.stdout().is_terminal(),
        err: err.is_terminal(),
    };
    let status = msidb(&rt, &words, &mut io::writer(&rt), &mut err, terminals);
    ExitCode::from(status)
}

// The words behind the program's name.
fn words_of(rt: HostRuntime) -> io::Result<Vec<String>> {
    let mut words = Vec::new(rt.alloc());
    for word in env::args(&rt)?.skip(1) {
        words.push(word)?;
    }
    Ok(words)
}

// Tells why the words can't be read, and gives the status.
fn tell_unread<E: Write>(kind: io::ErrorKind, err: &mut E) -> u8 {
    if kind == io::ErrorKind::OutOfMemory {
        let _ = writeln!(err, "msidb: out of memory");
        3
    } else {
        let _ = writeln!(
            err,
            "msidb: a word isn't UTF-8; give the file another name, or a link to it"
        );
        2
    }
}
