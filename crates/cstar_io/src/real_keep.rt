//! Files of a system that are kept whole.

use crate::errors::ShelfErr;
use crate::pieces::write_out;
use std::alloc::Global;
use std::fs;
use std::fs::{File, OpenFile};
use std::io::{ErrorKind, Write};
use std::rt::Files;

/// How many names beside a file are tried.
const MOST_NAMES: u32 = 1000;

/// Writes these bytes under this name, whole or not at all: they go to a new file beside it, which then
/// takes its name. `Failed` where that cannot be done, and then what stood there stays. What stands
/// there and is no file, as a device or a pipe, is written to in place.
pub fn keep_whole<R: Files>(
    rt: &R,
    alloc: Global,
    name: &str,
    bytes: &[u8],
) -> Result<(), ShelfErr> {
    if !can_be_replaced(rt, name) {
        return write_in_place(rt, name, bytes);
    }
    let (beside, mut file) = match new_beside(rt, alloc, name) {
        Ok(new) => new,
        Err(error) => return Err(error),
    };
    if write_whole(&mut file, bytes) && fs::rename(rt, beside.as_str(), name).is_ok() {
        return Ok(());
    }
    let _ = fs::remove_file(rt, beside.as_str());
    Err(ShelfErr::Failed)
}

/// Whether nothing but a file, or nothing at all, stands under this name.
fn can_be_replaced<R: Files>(rt: &R, name: &str) -> bool {
    match fs::metadata(rt, name) {
        Ok(found) => found.is_file(),
        Err(error) => error.kind() == ErrorKind::NotFound,
    }
}

fn write_in_place<R: Files>(rt: &R, name: &str, bytes: &[u8]) -> Result<(), ShelfErr> {
    let Ok(mut file) = File::create(rt, name) else {
        return Err(ShelfErr::Failed);
    };
    write_out(&mut file, bytes).map_err(|_| ShelfErr::Failed)
}

/// A new file beside the one of this name, under a name that nothing had.
fn new_beside<R: Files>(rt: &R, alloc: Global, name: &str) -> Result<(String, R::File), ShelfErr> {
    for number in 0..MOST_NAMES {
        let Ok(beside) = format!(in alloc; "{name}.{number}") else {
            return Err(ShelfErr::Memory);
        };
        match File::create_new(rt, beside.as_str()) {
            Ok(file) => return Ok((beside, file)),
            Err(error) if error.kind() == ErrorKind::AlreadyExists => {}
            Err(_) => return Err(ShelfErr::Failed),
        }
    }
    Err(ShelfErr::Failed)
}

/// Writes all of these bytes to a file and its device. Whether that was done.
fn write_whole<F: Write + OpenFile>(file: &mut F, bytes: &[u8]) -> bool {
    write_out(file, bytes).is_ok() && file.sync_all().is_ok()
}
