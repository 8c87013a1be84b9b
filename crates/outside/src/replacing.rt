// Replacing a file of the system so that a fault leaves the old one whole.
use crate::FileFault;
use std::alloc::Global;
use std::fs::{self, Metadata, OpenFile, OpenOptions, Permissions};
use std::io::{ErrorKind, Write};
use std::os::unix::fs::{OpenOptionsExt, PermissionsExt};
use std::{io, rt};
use word_kit::NoMemory;

// How many names are tried for the new file.
const NAMES: u32 = 100;
// The permissions that a fresh file asks for; the system takes those away that the umask names.
const READ_WRITE: u32 = 0o666;

const ALL: u32 = 0o777;

const RUN: u32 = 0o111;

/// Leaves the bytes under the name. A regular file, or none, is replaced by a new one that is written
/// beside it, synced and renamed, so that a fault leaves the old one whole; behind a link, that is the
/// file that the link names. Where no file can be made beside it, and where the name is that of a
/// device, a pipe or a link to nothing, the bytes are written in place. The new file has the old
/// one's permissions; one that begins as ELF files do may be run besides, as far as the umask lets a
/// fresh file be run.
pub fn replace_file<R: rt::Files>(
    alloc: Global,
    rt: &R,
    name: &str,
    bytes: &[u8],
) -> Result<(), FileFault> {
    let Ok(path) = fs::canonicalize(&(rt, alloc), name) else {
        return match fs::symlink_metadata(rt, name) {
            Ok(_) => write_in_place(rt, name, bytes),
            Err(_) => replace_beside(alloc, rt, name, None, bytes),
        };
    };
    let old = fs::metadata(rt, &path).map_err(fault_of)?;
    if !old.is_file() {
        return write_in_place(rt, name, bytes);
    }
    // A file that may not be written stays, also where its folder would let it be replaced.
    OpenOptions::new()
        .write(true)
        .open(rt, &path)
        .map_err(fault_of)?;
    replace_beside(alloc, rt, path.as_str(), Some(old), bytes)
}

/// Want of memory is no fault of the file.
pub fn fault_of(error: io::Error) -> FileFault {
    match error.kind() {
        ErrorKind::OutOfMemory => FileFault::Memory(NoMemory),
        _ => FileFault::Failed,
    }
}

fn replace_beside<R: rt::Files>(
    alloc: Global,
    rt: &R,
    path: &str,
    old: Option<Metadata>,
    bytes: &[u8],
) -> Result<(), FileFault> {
    let Some((beside, file)) = make_beside(alloc, rt, path, mode_of(bytes))? else {
        return write_in_place(rt, path, bytes);
    };
    match fill(file, old, bytes).and_then(|()| fs::rename(rt, beside.as_str(), path)) {
        Ok(()) => Ok(()),
        Err(error) => {
            let _ = fs::remove_file(rt, beside.as_str());
            Err(fault_of(error))
        }
    }
}

// A new file beside the path, with its name; None where none can be made there.
fn make_beside<R: rt::Files>(
    alloc: Global,
    rt: &R,
    path: &str,
    mode: u32,
) -> Result<Option<(String, R::File)>, FileFault> {
    for number in 0..NAMES {
        let Ok(name) = format!(in alloc; "{path}.new{number}") else {
            return Err(FileFault::Memory(NoMemory));
        };
        match OpenOptions::new()
            .write(true)
            .create_new(true)
            .mode(mode)
            .open(rt, name.as_str())
        {
            Ok(file) => return Ok(Some((name, file))),
            Err(error) if error.kind() == ErrorKind::AlreadyExists => {}
            Err(error) if error.kind() == ErrorKind::OutOfMemory => return Err(fault_of(error)),
            Err(_) => return Ok(None),
        }
    }
    Ok(None)
}

// Writes the bytes to the new file, and gives it the permissions of the old one.
fn fill<F: Write + OpenFile + Drop>(
    mut file: F,
    old: Option<Metadata>,
    bytes: &[u8],
) -> io::Result<()> {
    file.write_all(bytes)?;
    if let Some(old) = old {
        let fresh = file.metadata()?.permissions().mode();
        let mode = old.permissions().mode() & ALL | fresh & mode_of(bytes) & RUN;
        file.set_permissions(Permissions::from_mode(mode))?;
    }
    file.sync_all()
}

fn write_in_place<R: rt::Files>(rt: &R, path: &str, bytes: &[u8]) -> Result<(), FileFault> {
    let mut file = OpenOptions::new()
        .write(true)
        .create(true)
        .truncate(true)
        .mode(mode_of(bytes))
        .open(rt, path)
        .map_err(fault_of)?;
    file.write_all(bytes).map_err(fault_of)
}

// The permissions that a fresh file of these bytes asks for.
fn mode_of(bytes: &[u8]) -> u32 {
    if bytes.starts_with(b"\x7fELF") {
        ALL
    } else {
        READ_WRITE
    }
}
