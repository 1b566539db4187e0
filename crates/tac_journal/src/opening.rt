//! Opening what lines are appended to.

use crate::tail::Tail;
use std::fs::{self, File, OpenOptions};
use std::io::{self, Error, ErrorKind, IsTerminal, Read, Seek, SeekFrom};
use std::os::fd::{AsFd, OwnedFd};
use std::os::unix::fs::{FileTypeExt, OpenOptionsExt};

/// The rights of a file that is made: its owner reads and writes it.
const MODE: u32 = 0o600;

/// The path of what a process has as its standard output.
pub const STANDARD_OUTPUT: &str = "/proc/self/fd/1";

/// What is said of what takes no lines of a log.
pub const NO_REGULAR_FILE: &str = "it is no regular file";

/// What is said of a pipe where lines are to count only once they are on the disk.
pub const UNSYNCED: &str = "it is a pipe, which --sync can't put on the disk";

/// Who opens the file of a log, and sends it to the disk, for any thread.
pub trait LogFiles {
    /// Opens the file at a path to read it and to append to it, and makes it where there is none,
    /// for its owner alone. The error is the system's.
    fn open_log(&self, path: &str) -> io::Result<File>;

    /// Sends what such a file took to the disk. The error is the system's.
    fn sync_log(&self, file: &File) -> io::Result<()>;

    /// Opens the pipe at a path to append to it alone, which waits until somebody has it open for
    /// reading. The error is the system's.
    fn open_pipe(&self, _path: &str) -> io::Result<File> {
        Err(Error::from(ErrorKind::Unsupported))
    }

    /// Standard output itself, if it is a pipe or a socket. The error is the system's.
    fn share_output(&self) -> io::Result<OwnedFd> {
        Err(Error::from(ErrorKind::Unsupported))
    }
}

impl LogFiles for HostRuntime {
    fn open_log(&self, path: &str) -> io::Result<File> {
        OpenOptions::new()
            .read(true)
            .append(true)
            .create(true)
            .mode(MODE)
            .open(self, path)
    }

    fn sync_log(&self, file: &File) -> io::Result<()> {
        file.sync_data()
    }

    fn open_pipe(&self, path: &str) -> io::Result<File> {
        OpenOptions::new().append(true).open(self, path)
    }

    fn share_output(&self) -> io::Result<OwnedFd> {
        let file_type = fs::metadata(self, STANDARD_OUTPUT)?.file_type();
        if !file_type.is_fifo() && !file_type.is_socket() {
            return Err(no_regular_file());
        }
        let output = self.stdout();
        output.as_fd().try_clone_to_owned()
    }
}

/// The error of what takes no lines of a log.
pub(crate) fn no_regular_file() -> Error {
    Error::new(ErrorKind::InvalidInput, NO_REGULAR_FILE)
}

/// Whether this is a pipe: what takes lines, and can't be read again. A terminal is taken for one.
pub(crate) fn is_pipe(file: &File) -> bool {
    match file.metadata() {
        Ok(metadata) => metadata.file_type().is_fifo() || file.is_terminal(),
        Err(_) => false,
    }
}

// Whether the last byte of a file, which has some, is no LF.
fn is_cut_off<F: Read + Seek>(file: &mut F) -> io::Result<bool> {
    file.seek(SeekFrom::End(-1))?;
    let mut last = [b'\n'];
    file.read(&mut last)?;
    Ok(last[0] != b'\n')
}

/// The end of a file that was opened to append lines. Its last line may have no end, as after a
/// crash. The error is the system's, or that it is no regular file.
pub(crate) fn tail_of(mut file: File) -> io::Result<Tail<File>> {
    let metadata = file.metadata()?;
    if !metadata.is_file() {
        return Err(no_regular_file());
    }
    let is_cut = metadata.len() > 0 && is_cut_off(&mut file)?;
    Ok(Tail { file, is_cut })
}
