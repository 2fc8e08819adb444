//! Each call of a device failing once while commands are run.
use crate::calls::{Fails, NEVER, OnDevice, end, told};
use crate::stops::begin_on;
use cfb_medium::Error;
use installer::Command;
use staged::MemoryDevice;
use std::alloc::Global;
use test_support::copy_of;

const FAULT: &str = "{\"refused\":\"Device\"}";

const FAILED: &str = "{\"refused\":\"Failed\"}";

/// What commands are answered, and what a look is before the first and behind each.
#[derive(Drop)]
pub struct Course {
    answers: Vec<String>,
    looks: Vec<String>,
}

/// Runs commands while each call of the device fails once, and tells whether the fault is told, and all else is as it is without one, or
/// the session has failed.
pub fn each_fault(
    alloc: Global,
    device: &MemoryDevice,
    commands: &[Command],
    look: &[Command],
) -> Result<String, Error> {
    let mut session = begin_on(alloc, device, NEVER).map_err(|refused| refused.1)?;
    let wanted = course_of(alloc, &mut session, commands, look);
    let calls = end(session).made().calls();
    let wanted = wanted?;
    for behind in 0..calls {
        let fails = Fails { behind, count: 1 };
        if !is_kept(alloc, device, fails, commands, look, &wanted)? {
            return Ok(format!(in alloc; "another answer where call {behind} fails")?);
        }
    }
    copy_of(alloc, "each fault told")
}

fn course_of(
    alloc: Global,
    session: &mut OnDevice,
    commands: &[Command],
    look: &[Command],
) -> Result<Course, Error> {
    let mut course = Course {
        answers: Vec::new(alloc),
        looks: Vec::new(alloc),
    };
    course.looks.push(told(alloc, session, look)?)?;
    for one in commands.chunks(1) {
        course.answers.push(told(alloc, session, one)?)?;
        course.looks.push(told(alloc, session, look)?)?;
    }
    Ok(course)
}

// Whether all is well where a call fails: where no session begins for that, one does the next time.
fn is_kept(
    alloc: Global,
    device: &MemoryDevice,
    fails: Fails,
    commands: &[Command],
    look: &[Command],
    wanted: &Course,
) -> Result<bool, Error> {
    let mut session = match begin_on(alloc, device, fails) {
        Ok(session) => session,
        Err((device, Error::Device)) => {
            begin_on(alloc, &device, NEVER).map_err(|refused| refused.1)?
        }
        Err(_) => return Ok(false),
    };
    goes_on(alloc, &mut session, commands, look, wanted)
}

// Whether each command is answered as it should, or refused for the fault: then it is done the second time, or each later answer is `Failed`.
fn goes_on(
    alloc: Global,
    session: &mut OnDevice,
    commands: &[Command],
    look: &[Command],
    wanted: &Course,
) -> Result<bool, Error> {
    let mut is_well = sees(alloc, session, look, wanted.looks.get(0))?;
    for (place, one) in commands.chunks(1).enumerate() {
        let mut answer = told(alloc, session, one)?;
        if answer.as_str() == FAULT && !session.has_failed() {
            is_well = is_well && sees(alloc, session, look, wanted.looks.get(place))?;
            answer = told(alloc, session, one)?;
        }
        is_well = is_well && is_answer(session, wanted.answers.get(place), answer.as_str());
        is_well = is_well && sees(alloc, session, look, wanted.looks.get(place + 1))?;
    }
    Ok(is_well)
}

// Whether a look shows what it should, if not at once behind a fault.
fn sees(
    alloc: Global,
    session: &mut OnDevice,
    look: &[Command],
    wanted: Option<&String>,
) -> Result<bool, Error> {
    let mut seen = told(alloc, session, look)?;
    if seen.as_str() == FAULT {
        seen = told(alloc, session, look)?;
    }
    Ok(session.is_sound() && seen.as_str() != FAULT && is_answer(session, wanted, seen.as_str()))
}

// Whether an answer is the one that is wanted, or tells of the fault by which the session has failed.
fn is_answer(session: &OnDevice, wanted: Option<&String>, answer: &str) -> bool {
    if session.has_failed() {
        return answer == FAILED || answer == FAULT;
    }
    match wanted {
        Some(wanted) => wanted.as_str() == answer,
        None => false,
    }
}
