//! The files that the console has read again: the policy's, and the devices'.

ghost use Rattle.std.specs.Prelude.{IfOk};
ghost use Rattle.tac_hall_console.specs.DevicesAnswer.{IsDevicesAnswer};

use basics::Bytes;
use std::alloc::{AllocError, Global};
use std::cell::RefCell;
use std::rt::Files;
use std::sync::Wait;
use tac_audit::Typist;
use tac_devices::renew_devices;
use tac_hall_console::{Source, Unread, no_devices, unread_devices};
use tac_journal::Typists;
use tac_net::Directory;
use tac_start::{SecretFile, say_lint};

/// The devices' file of a server, and the directory whose devices it says.
#[derive(Drop)]
pub(crate) struct DevicesFile<'a, R, H> {
    pub(crate) file: SecretFile<'a, R, H>,
    pub(crate) locks: &'a H,
    pub(crate) directory: &'a Directory,
    // the text that was taken last
    pub(crate) taken: RefCell<Option<Vec<u8>>>,
}

impl<R: Files, H: Wait + Eprint> DevicesFile<'_, R, H> {
    // Whether it is the text whose devices count already.
    fn is_taken(&self, text: &[u8]) -> bool {
        match self.taken.try_borrow() {
            Ok(taken) => match &*taken {
                Some(taken) => taken.as_slice() == text,
                None => false,
            },
            Err(_) => false,
        }
    }

    // Has the devices of a text count, if it may stand, and answers what is told of it.
    fn take(&self, alloc: Global, text: Vec<u8>) -> Result<Bytes, AllocError>
        ensures { IfOk result IsDevicesAnswer }
    {
        let (line, devices) = renew_devices(alloc, text.as_slice())?;
        let Some(devices) = devices else {
            say_lint(self.file.host, alloc, self.file.file.path, text.as_slice());
            return Ok(Bytes::from(line));
        };
        // a directory keeps all that it was given, so it isn't given the same again
        if !self.is_taken(text.as_slice()) {
            self.directory.replace(self.locks, devices)?;
            if let Ok(mut taken) = self.taken.try_borrow_mut() {
                *taken = Some(text);
            }
        }
        Ok(Bytes::from(line))
    }

    fn reload(&self, alloc: Global) -> Result<Bytes, AllocError>
        ensures { IfOk result IsDevicesAnswer }
    {
        match self.file.text(alloc) {
            Ok(text) => self.take(alloc, text),
            Err(Unread::Why(why)) => unread_devices(alloc, why.as_slice()),
            Err(Unread::Memory) => Err(AllocError),
        }
    }
}

/// What a console has beside its input and output: the files that are read again, and who types
/// there.
#[derive(Drop)]
pub(crate) struct ConsoleSide<'a, R, H, T> {
    pub(crate) policy: SecretFile<'a, R, H>,
    pub(crate) devices: Option<DevicesFile<'a, R, H>>,
    pub(crate) typists: T,
}

impl<R: Files, H: Wait + Eprint, T> Source for ConsoleSide<'_, R, H, T> {
    fn text(&self, alloc: Global) -> Result<Vec<u8>, Unread> {
        self.policy.text(alloc)
    }

    fn reload_devices(&self, alloc: Global) -> Result<Bytes, AllocError> {
        match &self.devices {
            Some(devices) => devices.reload(alloc),
            None => no_devices(alloc),
        }
    }

    fn warn(&self, line: &[u8]) {
        // The answer tells it too, so it doesn't matter whether this could be written.
        let path = self.policy.file.path;
        let line = str::from_utf8(line).unwrap_or("").trim_end();
        let _ = eprintln!(self.policy.host; "tacd: {path}: {line}");
    }
}

impl<R, H, T: Typists> Typists for ConsoleSide<'_, R, H, T> {
    ghost names = { λ side typist. T.names side.typists typist };

    fn typist(&self, alloc: Global) -> Result<Typist, AllocError> {
        self.typists.typist(alloc)
    }
}
