//! Where edits are kept.

use std::alloc::Global;
use std::io;

/// Another use that a server has for a file or a socket.
#[derive(Clone, Copy)]
pub struct Use<'a> {
    // where that is, if it has one
    pub(crate) path: Option<&'a str>,
    // what is told of a path that has this use
    pub(crate) told: &'static str,
}

impl<'a> Use<'a> {
    /// The use of the file or the socket at a path, if there is one, and what is told of it.
    pub fn of(path: Option<&'a str>, told: &'static str) -> Use<'a> {
        Use { path, told }
    }
}

/// Where edits are kept: a file, and two beside it that servers make, whose names nobody types.
#[derive(Drop)]
pub struct Place<'a> {
    /// The file.
    pub path: &'a str,
    /// What has the edits before it takes the place of the file.
    pub draft: String,
    /// What is locked for as long as a server keeps its edits here.
    pub lock: String,
}

// The folder that a path is in, and the name that it has there.
fn parts_of(path: &str) -> (&str, &str) {
    match path.rsplit_once('/') {
        Some(("", name)) => ("/", name),
        Some((folder, name)) => (folder, name),
        None => (".", path),
    }
}

/// The folder that a path is in.
pub(crate) fn folder_of(path: &str) -> &str {
    parts_of(path).0
}

/// The name that a path has in its folder.
pub(crate) fn name_of(path: &str) -> &str {
    parts_of(path).1
}

impl<'a> Place<'a> {
    /// That of the file at a path. The error means that memory ran out.
    pub fn of(alloc: Global, path: &'a str) -> io::Result<Place<'a>> {
        let (folder, name) = parts_of(path);
        Ok(Place {
            path,
            draft: format!(in alloc; "{folder}/.{name}.tacd-draft")?,
            lock: format!(in alloc; "{folder}/.{name}.tacd-lock")?,
        })
    }
}
