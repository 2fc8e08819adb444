//! Calls on a compound file, a function for each: what is told of a call costs the prover time wherever it is seen.
use cfb::CompoundFile;
use cfb_medium::{Error, Medium, Timestamp};
use uuid::Uuid;

pub fn create_storage<F: Medium>(
    file: &mut CompoundFile<F>,
    path: &str,
    moment: Timestamp,
) -> Result<(), Error> {
    file.create_storage(path, moment)
}

pub fn create_storage_all<F: Medium>(
    file: &mut CompoundFile<F>,
    path: &str,
    moment: Timestamp,
) -> Result<(), Error> {
    file.create_storage_all(path, moment)
}

pub fn create_new_stream<F: Medium>(file: &mut CompoundFile<F>, path: &str) -> Result<(), Error> {
    file.create_new_stream(path)
}

pub fn create_stream<F: Medium>(file: &mut CompoundFile<F>, path: &str) -> Result<(), Error> {
    file.create_stream(path)
}

pub fn remove_stream<F: Medium>(file: &mut CompoundFile<F>, path: &str) -> Result<(), Error> {
    file.remove_stream(path)
}

pub fn remove_storage<F: Medium>(file: &mut CompoundFile<F>, path: &str) -> Result<(), Error> {
    file.remove_storage(path)
}

pub fn remove_storage_all<F: Medium>(file: &mut CompoundFile<F>, path: &str) -> Result<(), Error> {
    file.remove_storage_all(path)
}

pub fn touch<F: Medium>(
    file: &mut CompoundFile<F>,
    path: &str,
    moment: Timestamp,
) -> Result<(), Error> {
    file.touch(path, moment)
}

pub fn set_created_time<F: Medium>(
    file: &mut CompoundFile<F>,
    path: &str,
    moment: Timestamp,
) -> Result<(), Error> {
    file.set_created_time(path, moment)
}

pub fn set_modified_time<F: Medium>(
    file: &mut CompoundFile<F>,
    path: &str,
    moment: Timestamp,
) -> Result<(), Error> {
    file.set_modified_time(path, moment)
}

pub fn set_state_bits<F: Medium>(
    file: &mut CompoundFile<F>,
    path: &str,
    bits: u32,
) -> Result<(), Error> {
    file.set_state_bits(path, bits)
}

pub fn set_storage_clsid<F: Medium>(
    file: &mut CompoundFile<F>,
    path: &str,
    clsid: Uuid,
) -> Result<(), Error> {
    file.set_storage_clsid(path, clsid)
}

pub fn flush<F: Medium>(file: &mut CompoundFile<F>) -> Result<(), Error> {
    file.flush()
}

pub fn commit<F: Medium>(file: &mut CompoundFile<F>) -> Result<(), Error> {
    file.commit()
}

pub fn roll_back<F: Medium>(file: &mut CompoundFile<F>) -> Result<(), Error> {
    file.roll_back()
}
