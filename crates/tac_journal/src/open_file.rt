//! A file as it is open now, and what takes lines into it.

use crate::complaint::{say_that_it_fails, say_that_it_takes_lines};
use crate::disk::{Disk, Fate};
use crate::opening::{LogFiles, tail_of};
use crate::tail::{Tail, Untaken};
use brief_lock::take;
use std::fs::File;
use std::io;
use std::sync::atomic::{AtomicBool, Ordering};
use std::sync::{Mutex, Wait};
use std::time::{Clock, Duration, Instant};
use tac_audit::Refused;

/// After how many milliseconds a file is opened again by its path.
const FRESH: u64 = 500;

/// A file as it is open now.
#[derive(Drop)]
pub(crate) struct OpenFile {
    tail: Tail<File>,
    // when it was opened; nothing where no clock said so
    opened: Option<Instant>,
    // how many appends it had taken when it last took none, which was said; nothing where it takes
    // lines
    complained: Option<u64>,
    // how many appends it took, under all its names
    appends: u64,
}

/// Where a file is, and what of it is on the disk, where its lines count only then.
#[derive(Drop)]
pub(crate) struct LogPath<'a> {
    pub(crate) path: &'a str,
    /// What it is called where something is said of it.
    pub(crate) name: &'a str,
    pub(crate) disk: Option<Disk>,
    /// Whether it was last said that the file takes no lines. Who reads that waits for nobody.
    pub(crate) is_failing: AtomicBool,
}

// Whether the file is to be opened again: its path may be another's by now.
fn is_stale<C: Clock>(clock: &C, opened: Option<Instant>) -> bool {
    let Some(opened) = opened else {
        return true;
    };
    match opened.elapsed(clock) {
        Ok(passed) => passed >= Duration::from_millis(FRESH),
        Err(_) => true,
    }
}

impl OpenFile {
    /// This one, which was opened just now.
    pub(crate) fn new<H: Clock>(host: &H, file: File) -> io::Result<OpenFile> {
        Ok(OpenFile {
            tail: tail_of(file)?,
            opened: Instant::now(host).ok(),
            complained: None,
            appends: 0,
        })
    }
}

impl LogPath<'_> {
    // Sends what a file took to the disk before another takes its place.
    fn leave<H: Wait + LogFiles>(&self, host: &H, open_file: &OpenFile) -> io::Result<()> {
        let Some(disk) = &self.disk else {
            return Ok(());
        };
        let sent = host.sync_log(&open_file.tail.file);
        disk.settle(host, open_file.appends, sent.is_ok());
        sent
    }

    // Opens the file again.
    fn reopen<H>(&self, host: &H, open_file: &mut OpenFile) -> io::Result<()>
    where
        H: Wait + Clock + LogFiles,
    {
        let tail = tail_of(host.open_log(self.path)?)?;
        self.leave(host, open_file)?;
        open_file.tail = tail;
        open_file.opened = Instant::now(host).ok();
        Ok(())
    }

    // Appends lines, to the file that is at the path now.
    fn write<H>(&self, host: &H, open_file: &mut OpenFile, lines: &[u8]) -> Result<(), Untaken>
    where
        H: Wait + Clock + LogFiles,
    {
        if is_stale(host, open_file.opened) {
            self.reopen(host, open_file).map_err(Untaken::Failed)?;
        }
        open_file.tail.append(host, lines, 0)
    }

    // Says that the file takes no lines, once until it takes some again.
    fn complain<H: Eprint>(&self, host: &H, open_file: &mut OpenFile, why: &Untaken) {
        if open_file.complained.is_none() {
            say_that_it_fails(host, self.name, why);
        }
        open_file.complained = Some(open_file.appends);
        self.is_failing.store(true, Ordering::SeqCst);
    }

    // Says that the file takes lines again, where the lines of an append count that came after it
    // last took none.
    fn relent<H: Eprint>(&self, host: &H, open_file: &mut OpenFile, number: u64) {
        let Some(before) = open_file.complained else {
            return;
        };
        if number > before {
            say_that_it_takes_lines(host, self.name);
            open_file.complained = None;
            self.is_failing.store(false, Ordering::SeqCst);
        }
    }

    /// Appends lines, and answers the number of the append. The lines count at once, or where the
    /// file is sent to the disk once that is [done](LogPath::send).
    pub(crate) fn append<H>(
        &self,
        host: &H,
        open_file: &mut OpenFile,
        lines: &[u8],
    ) -> Result<u64, Refused>
    where
        H: Wait + Clock + Eprint + LogFiles,
    {
        match self.write(host, open_file, lines) {
            Ok(()) => {
                let number = open_file.appends.saturating_add(1);
                open_file.appends = number;
                if self.disk.is_none() {
                    self.relent(host, open_file, number);
                }
                Ok(number)
            }
            Err(why) => {
                self.complain(host, open_file, &why);
                Err(Refused)
            }
        }
    }

    // Sends the file as it is now to the disk. Others append to it meanwhile, and the system tells
    // a fault once: so it may be of their lines too, and none counts that was appended by then.
    fn send_all<H>(&self, host: &H, disk: &Disk, open_file: &Mutex<OpenFile>)
    where
        H: Wait + Eprint + LogFiles,
    {
        let (file, appends) = {
            let open_file = take(host, open_file);
            (open_file.tail.file.try_clone(), open_file.appends)
        };
        let sent = match file {
            Ok(file) => host.sync_log(&file),
            Err(error) => Err(error),
        };
        let mut open_file = take(host, open_file);
        match sent {
            Ok(()) => {
                disk.settle(host, appends, true);
                self.relent(host, &mut open_file, appends);
            }
            Err(error) => {
                disk.settle(host, open_file.appends, false);
                self.complain(host, &mut open_file, &Untaken::Failed(error));
            }
        }
    }

    /// Waits until the lines of an append are on the disk. One of those who wait sends the file,
    /// with the lines of all who came before: many appends take one turn of the disk.
    pub(crate) fn send<H>(
        &self,
        host: &H,
        disk: &Disk,
        open_file: &Mutex<OpenFile>,
        number: u64,
    ) -> Result<(), Refused>
    where
        H: Wait + Eprint + LogFiles,
    {
        let _sending = disk.sending.lock(host);
        if disk.fate(host, number) == Fate::Open {
            self.send_all(host, disk, open_file);
        }
        disk.fate(host, number).counts()
    }
}
