// The wiring as a file: written under a name beside it, synced, and then renamed, so that at any moment the old file or the new one
// is there.
ghost use Rattle.multiportgraph.specs.WellFormed.{MultiWf};

use crate::orders::Order;
use crate::replies::{Reason, show_refusal_number};
use files::save::{BufferShort, LONGEST_FILE, save};
use lines::show::{show_number, write_bytes};
use lines::text::{next_word, part};
use multiportgraph::multiportgraph::MultiPortGraph;
use std::fs::{Files, OpenFile, OpenOptions, Permissions};
use std::io::{ErrorKind, Write};
use std::os::unix::fs::{OpenOptionsExt, PermissionsExt};
use std::{fs, io, str};

// The longest path of the system, with its end.
const PATH_MAX: usize = 4096;

// The name under which a file is made, and how many such names there are: it ends in six digits.
const MADE_NAME: &'static [u8] = b".wiring-XXXXXX";

const DIGITS: usize = 6;

const MADE_NAMES: u32 = 1000000;

// The system's number for a disk that does not answer, which has no kind.
const EIO: i32 = 5;

// The system's reason, in plain words. Stays a function: a `Display` could only stand in the crate of `io::Error`.
fn show_system(rt: &impl Print, error: io::Error) {
    if let Some(EIO) = error.raw_os_error() {
        write_bytes(rt, b"the disk does not answer as it should");
        return;
    }
    let reason: &[u8] = match error.kind() {
        ErrorKind::PermissionDenied => b"this is not allowed",
        ErrorKind::NotFound => b"there is no such file or folder",
        ErrorKind::WriteZero => b"the disk does not answer as it should",
        ErrorKind::NotADirectory => b"a part of the name is no folder",
        ErrorKind::IsADirectory => b"this is a folder",
        ErrorKind::InvalidInput => b"this is no name of a file",
        ErrorKind::FileTooLarge => b"a file has at most 65536 bytes",
        ErrorKind::StorageFull => b"the disk is full",
        ErrorKind::ReadOnlyFilesystem => b"the disk can only be read",
        ErrorKind::InvalidFilename => b"the name is too long",
        _ => b"the system refused it",
    };
    write_bytes(rt, reason);
}

// What cannot be done to a file, with the reason.
pub(crate) fn show_failure(rt: &impl Print, what: &[u8], name: &[u8], error: io::Error) {
    write_bytes(rt, what);
    write_bytes(rt, name);
    write_bytes(rt, b"  # ");
    show_system(rt, error);
    write_bytes(rt, b"\n");
}

// A name as a path, which is text: no other file can be asked for.
pub(crate) fn path_of(name: &[u8]) -> io::Result<&str> {
    str::from_utf8(name).map_err(|_| io::Error::from(ErrorKind::InvalidInput))
}

// A path's folder, with the slash after it; empty for none.
fn folder_of(path: &[u8]) -> &[u8] {
    path.iter()
        .rposition(|byte| *byte == b'/')
        .map_or(&[], |at| &path[..=at])
}

// Writes a file that was made, and has it on the disk.
fn fill_file<F: Write + OpenFile>(file: &mut F, bytes: &[u8]) -> io::Result<()> {
    file.write_all(bytes)?;
    file.sync_all()
}

// Has the new name of a file on the disk too, where the folder can be synced.
fn sync_folder(rt: &impl Files, folder: &[u8]) {
    let here: &[u8] = if folder.is_empty() { b"." } else { folder };
    if let Ok(file) = path_of(here).and_then(|path| fs::open(rt, path)) {
        let _ = file.sync_all();
    }
}

// Puts the last digits of a number at the end of a path. Stays by hand: the digits are the last bytes of a path, not text of their own.
fn put_digits(path: &mut [u8], number: u32) {
    let mut left = number;
    for place in path.iter_mut().rev().take(DIGITS) {
        *place = b'0' + (left % 10) as u8;
        left /= 10;
    }
}

// Makes a file that only this user may read, unless there is one of that name.
fn open_new<R: Files>(rt: &R, path: &[u8]) -> io::Result<R::File> {
    let mut options = OpenOptions::new();
    options.write(true).create_new(true).mode(0o600);
    options.open(rt, path_of(path)?)
}

// Makes a file under a new name: the first number in the last places of a path that no file has.
fn make_file<R: Files>(rt: &R, path: &mut [u8]) -> io::Result<R::File> {
    for number in 0..MADE_NAMES {
        put_digits(path, number);
        match open_new(rt, path) {
            Err(error) if error.kind() == ErrorKind::AlreadyExists => {}
            made => return made,
        }
    }
    Err(io::Error::from(ErrorKind::AlreadyExists))
}

// Gives a file its name.
fn name_file(rt: &impl Files, made: &[u8], name: &[u8]) -> io::Result<()> {
    fs::rename(rt, path_of(made)?, path_of(name)?)
}

// Takes a file away.
fn remove(rt: &impl Files, made: &[u8]) -> io::Result<()> {
    fs::remove_file(rt, path_of(made)?)
}

// Gives a file that was made its name; one that could not be written goes.
fn settle(rt: &impl Files, filled: io::Result<()>, made: &[u8], name: &[u8]) -> io::Result<()> {
    let settled = filled.and_then(|()| name_file(rt, made, name));
    if settled.is_err() {
        let _ = remove(rt, made);
    }
    settled
}

// Writes a file; where that fails, the file of that name is as it was.
fn write_file(rt: &impl Files, name: &[u8], bytes: &[u8]) -> io::Result<()> {
    let folder = folder_of(name);
    let end = folder.len();
    if PATH_MAX - MADE_NAME.len() < end {
        return Err(io::Error::from(ErrorKind::InvalidFilename));
    }
    let mut room = [0u8; PATH_MAX];
    let path = &mut room[..end + MADE_NAME.len()];
    path[..end].copy_from_slice(folder);
    path[end..].copy_from_slice(MADE_NAME);
    let mut file = make_file(rt, path)?;
    // A disk that knows no such rights refuses this, which does no harm.
    let _ = file.set_permissions(Permissions::from_mode(0o644));
    let filled = fill_file(&mut file, bytes);
    drop(file);
    settle(rt, filled, path, name)?;
    sync_folder(rt, folder);
    Ok(())
}

// Writes the file of a wiring under a name, and says its length.
pub(crate) fn write_wiring(rt: &(impl Files + Print), name: &[u8], bytes: &[u8]) {
    match write_file(rt, name, bytes) {
        Ok(()) => show_number(rt, bytes.len() as u64),
        Err(error) => show_failure(rt, b"cannot write ", name, error),
    }
}

// Saves the wiring under the name that stands in the line.
pub fn save_as(rt: &(impl Files + Print), graph: &MultiPortGraph, order: Order, text: &[u8])
    requires { MultiWf graph.now }
{
    let name = part(text, next_word(text, order.from));
    let mut buffer = [0u8; LONGEST_FILE];
    match save(graph, &mut buffer) {
        Ok(len) => {
            write_wiring(rt, name, buffer.get(..len).unwrap_or(&[]));
        }
        Err(BufferShort) => show_refusal_number(rt, Reason::BufferShort),
    }
}
