//! A file that is a store.

ghost use Rattle.std.specs.Prelude.{None};

use crate::keeper::Store;
use crate::place::{Place, Use, folder_of, name_of};
use std::fs::{self, File, Metadata, OpenFile, OpenOptions, TryLockError};
use std::io::{self, Error, ErrorKind, Write};
use std::os::unix::fs::{MetadataExt, OpenOptionsExt};
use std::rt::Files;

/// The rights of a file that is made: its owner reads and writes it.
const MODE: u32 = 0o600;

/// The bits of a file's mode that are its rights.
const RIGHTS: u32 = 0o7777;

/// Who puts a file in the place of another, for any thread.
pub trait KeepFiles {
    /// Whether there is a file at a path. The error is the system's, or that it is no regular file,
    /// which would be lost once another takes its place, or which of these uses it has, by whatever
    /// name. A path at which nothing is has a use where what has that will be made there.
    fn find_file(&self, path: &str, uses: &[Use<'_>]) -> io::Result<bool>;

    /// The same of a path at which a server makes a file of its own. The error is also that what is
    /// there isn't what a server left.
    fn find_own(&self, path: &str, uses: &[Use<'_>]) -> io::Result<bool>;

    /// The file at a path, which is made where there is none, and which nobody else is given as
    /// long as it is open. The error is the system's, or that another server has it.
    fn lock_file(&self, path: &str) -> io::Result<File>;

    /// Puts a file with these bytes at a path, which its owner alone may read. It is first made at
    /// the path of its draft: what is there goes. At each moment, and after a crash, what was at the
    /// path before is there, or all of this. It is on the disk once this is done. The error is the
    /// system's.
    fn replace_file(&self, path: &str, draft: &str, bytes: &[u8]) -> io::Result<()>;

    /// Removes the file at a path, if there is one, from the disk too. The error is the system's.
    fn unlink_file(&self, path: &str) -> io::Result<()>;
}

impl KeepFiles for HostRuntime {
    fn find_file(&self, path: &str, uses: &[Use<'_>]) -> io::Result<bool> {
        Ok(find_file(self, path, uses)?.is_some())
    }

    fn find_own(&self, path: &str, uses: &[Use<'_>]) -> io::Result<bool> {
        find_own(self, path, uses)
    }

    fn lock_file(&self, path: &str) -> io::Result<File> {
        let file = OpenOptions::new()
            .read(true)
            .write(true)
            .create(true)
            .mode(MODE)
            .open(self, path)?;
        match file.try_lock() {
            Ok(()) => Ok(file),
            Err(TryLockError::WouldBlock) => Err(in_use()),
            Err(TryLockError::Error(error)) => Err(error),
        }
    }

    fn replace_file(&self, path: &str, draft: &str, bytes: &[u8]) -> io::Result<()> {
        replace_file(self, path, draft, bytes)
    }

    fn unlink_file(&self, path: &str) -> io::Result<()> {
        remove_file(self, path)
    }
}

fn in_use() -> Error {
    Error::new(ErrorKind::ResourceBusy, "another server holds this lock")
}

// Whether both are one file.
fn is_same(one: &Metadata, other: &Metadata) -> bool {
    one.ino() == other.ino() && one.dev() == other.dev()
}

// Whether a path leads to this file.
fn is_at<R: Files>(rt: &R, path: &str, file: &Metadata) -> bool {
    match fs::metadata(rt, path) {
        Ok(other) => is_same(file, &other),
        Err(_) => false,
    }
}

// Whether two paths have one name in one folder, so that both are of the file that is made there.
fn is_one_place<R: Files>(rt: &R, one: &str, other: &str) -> bool {
    name_of(one) == name_of(other)
        && match fs::metadata(rt, folder_of(one)) {
            Ok(folder) => is_at(rt, folder_of(other), &folder),
            Err(_) => false,
        }
}

// Whether a path, and the file that is there, if one is, are those of another path.
fn is_of<R: Files>(rt: &R, path: &str, file: &Option<Metadata>, other: &str) -> bool {
    match file {
        Some(file) if is_at(rt, other, file) => true,
        _ => is_one_place(rt, path, other),
    }
}

// What a path is told as that has one of these uses.
fn use_of<R: Files>(
    rt: &R,
    path: &str,
    file: &Option<Metadata>,
    uses: &[Use<'_>],
) -> Option<&'static str> {
    for other in uses {
        if let Some(its_path) = other.path {
            if is_of(rt, path, file, its_path) {
                return Some(other.told);
            }
        }
    }
    None
}

// What is at a path, if anything is. A link isn't followed.
fn look<R: Files>(rt: &R, path: &str) -> io::Result<Option<Metadata>> {
    match fs::symlink_metadata(rt, path) {
        Ok(file) => Ok(Some(file)),
        Err(error) if error.kind() == ErrorKind::NotFound => Ok(None),
        Err(error) => Err(error),
    }
}

fn find_file<R: Files>(rt: &R, path: &str, uses: &[Use<'_>]) -> io::Result<Option<Metadata>> {
    let file = look(rt, path)?;
    if let Some(told) = use_of(rt, path, &file, uses) {
        return Err(Error::new(ErrorKind::InvalidInput, told));
    }
    match file {
        Some(file) if !file.is_file() => {
            Err(Error::new(ErrorKind::InvalidInput, "it is no regular file"))
        }
        file => Ok(file),
    }
}

// Whether this is what a server makes: its owner's alone, by one name.
fn is_own(file: &Metadata) -> bool {
    file.mode() & RIGHTS == MODE && file.nlink() == 1
}

fn find_own<R: Files>(rt: &R, path: &str, uses: &[Use<'_>]) -> io::Result<bool> {
    match find_file(rt, path, uses)? {
        Some(file) if !is_own(&file) => {
            Err(Error::new(ErrorKind::InvalidInput, "no server left this here"))
        }
        file => Ok(file.is_some()),
    }
}

// Sends to the disk which files a folder has.
fn sync_folder<R: Files>(rt: &R, path: &str) -> io::Result<()> {
    fs::open(rt, folder_of(path))?.sync_all()
}

// Makes a file with these bytes, which are on the disk then. What is there is no file of another:
// a server left it that was killed.
fn make_file<R: Files>(rt: &R, path: &str, bytes: &[u8]) -> io::Result<()> {
    let _ = fs::remove_file(rt, path);
    let mut file = OpenOptions::new()
        .write(true)
        .create_new(true)
        .mode(MODE)
        .open(rt, path)?;
    file.write_all(bytes)?;
    file.sync_all()
}

fn replace_file<R: Files>(rt: &R, path: &str, draft: &str, bytes: &[u8]) -> io::Result<()> {
    let placed = match make_file(rt, draft, bytes) {
        Ok(()) => fs::rename(rt, draft, path),
        Err(error) => Err(error),
    };
    if let Err(error) = placed {
        // it has the policy's secrets, and takes the room that a full disk lacks
        let _ = fs::remove_file(rt, draft);
        return Err(error);
    }
    sync_folder(rt, path)
}

// Nothing where there was nothing.
fn unless_missing(done: io::Result<()>) -> io::Result<()> {
    match done {
        Err(error) if error.kind() == ErrorKind::NotFound => Ok(()),
        done => done,
    }
}

// The folder is sent to the disk also where the file is gone: that may have failed before.
fn remove_file<R: Files>(rt: &R, path: &str) -> io::Result<()> {
    unless_missing(fs::remove_file(rt, path))?;
    unless_missing(sync_folder(rt, path))
}

/// The file at a place. What has got another use since the server began isn't touched.
#[derive(Drop)]
pub struct KeptFile<'a, H> {
    host: &'a H,
    place: &'a Place<'a>,
    uses: &'a [Use<'a>],
}

impl<'a, H: KeepFiles> KeptFile<'a, H> {
    /// The file of the host's at a place, which has none of these uses.
    pub fn new(host: &'a H, place: &'a Place<'a>, uses: &'a [Use<'a>]) -> KeptFile<'a, H> {
        KeptFile { host, place, uses }
    }
}

impl<H: KeepFiles> Store for KeptFile<'_, H> {
    // a file is in no contract
    ghost held = { λ _. None };

    // nor is why it isn't written
    ghost refuses = { λ _ _ _. Unit {0} };

    fn replace(&mut self, text: &[u8]) -> io::Result<()> {
        let Place { path, draft, .. } = self.place;
        self.host.find_file(path, self.uses)?;
        self.host.find_own(draft.as_str(), self.uses)?;
        self.host.replace_file(path, draft.as_str(), text)
    }

    fn remove(&mut self) -> io::Result<()> {
        let path = self.place.path;
        self.host.find_file(path, self.uses)?;
        self.host.unlink_file(path)
    }
}
