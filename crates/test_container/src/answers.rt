//! What the calls of rows answer on a compound file, whatever medium holds it.
use crate::calls;
use crate::many_names::names_sum;
use crate::streams::{change_stream, pieces_of, sums_of};
use crate::told::{bytes_of, count_of, tree_of};
use cfb::CompoundFile;
use cfb_medium::{Error, Medium, Timestamp};
use std::alloc::Global;
use test_support::{Row, copy_of, yes_or_no};
use uuid::Uuid;

/// What a row's call answers; one that changes the file answers "done", and one that opens or makes it whether it is sound.
pub fn answer_of<F: Medium>(
    alloc: Global,
    file: &mut CompoundFile<F>,
    row: &Row,
) -> Result<String, Error> {
    match row.call() {
        "file"
        | "again"
        | "at most"
        | "create"
        | "create with"
        | "create version 3"
        | "create version 4" => yes_or_no(alloc, file.is_sound()),
        "failed" => yes_or_no(alloc, file.has_failed()),
        "tree" => tree_of(alloc, file),
        "count" => count_of(alloc, file),
        "bytes" => bytes_of(alloc, file, row.text(1)),
        "pieces" => pieces_of(alloc, file, row),
        "sums" => sums_of(alloc, file),
        "names" => names_sum(alloc, file, row),
        "each" => each(alloc, file, row),
        _ => {
            // (memory for the answer comes first, so that a call is refused or told to be done)
            let done = copy_of(alloc, "done")?;
            change(alloc, file, row)?;
            Ok(done)
        }
    }
}

// The answers to calls in a row, a word each.
fn each<F: Medium>(alloc: Global, file: &mut CompoundFile<F>, row: &Row) -> Result<String, Error> {
    let mut words = String::new(alloc);
    for call in row.list(1) {
        let call = Row::of(alloc, call)?;
        match change(alloc, file, &call) {
            Ok(()) => words.push_str("done ")?,
            Err(error) => words.push_str(format!(in alloc; "{error:?} ")?.as_str())?,
        }
    }
    Ok(words)
}

/// Changes a file, publishes it, or goes back.
pub fn change<F: Medium>(
    alloc: Global,
    file: &mut CompoundFile<F>,
    row: &Row,
) -> Result<(), Error> {
    let path = row.text(1);
    let moment = Timestamp::from_unix(row.number(2), 0);
    match row.call() {
        "storage" => calls::create_storage(file, path, moment),
        "storages" => calls::create_storage_all(file, path, moment),
        "nested" | "beside" => make_many(alloc, file, row),
        "stream" => calls::create_new_stream(file, path),
        "stream anew" => calls::create_stream(file, path),
        "write" | "append" | "set len" => change_stream(alloc, file, row),
        "remove" => calls::remove_stream(file, path),
        "remove storage" => calls::remove_storage(file, path),
        "remove all" => calls::remove_storage_all(file, path),
        "touch" => calls::touch(file, path, moment),
        "created" => calls::set_created_time(file, path, moment),
        "modified" => calls::set_modified_time(file, path, moment),
        "bits" => calls::set_state_bits(file, path, u32::try_from(row.number(2)).unwrap_or(0)),
        "class" => {
            let clsid = Uuid::parse_str(row.text(2)).map_err(|_| Error::InvalidData)?;
            calls::set_storage_clsid(file, path, clsid)
        }
        "flush" => calls::flush(file),
        "commit" => calls::commit(file),
        "roll back" => calls::roll_back(file),
        _ => Err(Error::InvalidInput),
    }
}

// Makes so many storages of a name, each in the one before, or so many streams beside each other, whose names are one with a number.
fn make_many<F: Medium>(alloc: Global, file: &mut CompoundFile<F>, row: &Row) -> Result<(), Error> {
    let name = row.text(1);
    let mut path = String::new(alloc);
    for number in 0..row.number(2) {
        if row.call() == "beside" {
            calls::create_new_stream(file, format!(in alloc; "{name}{number}")?.as_str())?;
        } else {
            path.push_str(name)?;
            calls::create_storage(file, &path, Timestamp::zero())?;
        }
    }
    Ok(())
}
