//! The text of a file, from its path.

ghost use Rattle.std.specs.Prelude.{◌≡◌, ◌≤◌, IfOk, vec_len};
ghost use Rattle.tac_run.specs.Ending.{fault_of_input};

use std::alloc::Global;
use std::fs::{self, Metadata, OpenFile};
use std::os::unix::fs::PermissionsExt;
use std::rt::Files;
use std::{fmt, io};
use tac_io::{InputFault, read_whole};

/// The right by which any user of a machine reads a file.
const OTHERS_READ: u32 = 0o004;

/// Why the text of a file isn't had.
#[derive(Drop)]
pub enum TextFault {
    /// A folder is there.
    Folder,
    /// There is no file that can be opened.
    Unopened(io::Error),
    /// It could not be read to its end.
    Failed,
    /// It has more bytes than so many.
    TooLong(usize),
    /// Memory ran out.
    Memory,
}

impl fmt::Display for TextFault {
    fn fmt<W: fmt::Write>(&self, f: &mut fmt::Formatter<W>) -> fmt::Result {
        match self {
            TextFault::Folder => write!(f, "it is a folder"),
            TextFault::Unopened(error) => write!(f, "{error}"),
            TextFault::Failed => write!(f, "it could not be read"),
            TextFault::TooLong(most) => write!(f, "it is over {most} bytes long"),
            TextFault::Memory => write!(f, "memory ran out"),
        }
    }
}

impl TextFault {
    /// Why a file isn't read to its end that is open and may have so many bytes.
    pub(crate) fn of_input(fault: InputFault, most: usize) -> TextFault
        ensures { result ≡ fault_of_input fault most }
    {
        match fault {
            InputFault::Failed => TextFault::Failed,
            InputFault::TooLong => TextFault::TooLong(most),
            InputFault::Memory => TextFault::Memory,
        }
    }
}

// Whether the path is a folder's: that could be opened, but its first read would fail.
fn is_folder<R: Files>(files: &R, path: &str) -> bool {
    match fs::metadata(files, path) {
        Ok(metadata) => metadata.is_dir(),
        Err(_) => false,
    }
}

// Says so of what has secrets, if it is a file that any user of the machine may read. It doesn't
// matter whether this could be written.
fn warn_of<E: Eprint>(host: &E, name: &str, found: io::Result<Metadata>) {
    let is_read_by_others = match found {
        Ok(metadata) => metadata.is_file() && metadata.permissions().mode() & OTHERS_READ != 0,
        Err(_) => false,
    };
    if is_read_by_others {
        let _ = eprintln!(host;
            "tacd: {name}: it has secrets, and any user of this machine can read it"
        );
    }
}

/// Says so of an open file that has secrets where others can read them.
pub fn warn_of_readers<E: Eprint, F: OpenFile>(host: &E, path: &str, file: &F) {
    warn_of(host, path, file.metadata());
}

/// Says so of what is at a path and is called by this name.
pub fn warn_of_readers_at<R: Files + Eprint>(rt: &R, name: &str, path: &str) {
    warn_of(rt, name, fs::metadata(rt, path));
}

/// A file that has a text.
#[derive(Clone, Copy)]
pub struct TextFile<'a> {
    /// Where it is.
    pub path: &'a str,
    /// The most bytes that it may have.
    pub most: usize,
    // whether it has secrets
    is_secret: bool,
}

impl<'a> TextFile<'a> {
    /// One that anyone may read.
    pub fn new(path: &'a str, most: usize) -> TextFile<'a>
        ensures path { result.path.now ≡ path.now }
        ensures most { result.most ≡ most }
    {
        TextFile {
            path,
            most,
            is_secret: false,
        }
    }

    /// One that has secrets. Standard error says so where others can read them.
    pub fn secret(path: &'a str, most: usize) -> TextFile<'a>
        ensures path { result.path.now ≡ path.now }
        ensures most { result.most ≡ most }
    {
        TextFile {
            path,
            most,
            is_secret: true,
        }
    }

    /// The file, open to be read. What is said of it is said by this host.
    pub fn open<R: Files, E: Eprint>(self, files: &R, host: &E) -> Result<R::File, TextFault> {
        if is_folder(files, self.path) {
            return Err(TextFault::Folder);
        }
        match fs::open(files, self.path) {
            Ok(file) => {
                if self.is_secret {
                    warn_of_readers(host, self.path, &file);
                }
                Ok(file)
            }
            Err(error) => Err(TextFault::Unopened(error)),
        }
    }

    /// Its text.
    pub fn text<R: Files, E: Eprint>(
        self,
        files: &R,
        host: &E,
        alloc: Global,
    ) -> Result<Vec<u8>, TextFault>
        ensures { IfOk result (λ text. vec_len text ≤ self.entry.most) }
    {
        let mut file = self.open(files, host)?;
        match read_whole(alloc, &mut file, self.most) {
            Ok(text) => Ok(text),
            Err(fault) => Err(TextFault::of_input(fault, self.most)),
        }
    }
}
