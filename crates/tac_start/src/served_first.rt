//! The policy's file that a server begins with: its own, or the one of the edits that were kept.

use dry_run::see_file as see_place_of_file;
use std::fs::File;
use std::io;
use std::rt::Files;
use tac_keep::{KeepFiles, Place, Use};
use tac_run::Status;

/// What a server serves at first.
#[derive(Drop)]
pub struct First<'a> {
    /// The file that has the policy.
    pub path: &'a str,
    // what keeps other servers from the file of its edits, if they are kept, as long as it is open
    lock: Option<File>,
}

// Says why edits can't be kept at a path. The result is the status to end with.
fn refuse<R: Eprint>(rt: &R, path: &str, error: &io::Error) -> Status {
    let _ = eprintln!(rt; "tacd: {path}: {error}");
    Status::of_unopened(error.kind())
}

// Whether there is a file at a path, which has none of these uses.
fn see_file<R: Eprint, H: KeepFiles>(
    rt: &R,
    host: &H,
    path: &str,
    uses: &[Use<'_>],
) -> Result<bool, Status> {
    match host.find_file(path, uses) {
        Ok(is_there) => Ok(is_there),
        Err(error) => Err(refuse(rt, path, &error)),
    }
}

// The same of a file that a server makes for itself.
fn see_own<R: Eprint, H: KeepFiles>(
    rt: &R,
    host: &H,
    path: &str,
    uses: &[Use<'_>],
) -> Result<bool, Status> {
    match host.find_own(path, uses) {
        Ok(is_there) => Ok(is_there),
        Err(error) => Err(refuse(rt, path, &error)),
    }
}

// Whether a place has edits, if some may be kept there.
fn see_place<R: Eprint, H: KeepFiles>(
    rt: &R,
    host: &H,
    place: &Place<'_>,
    uses: &[Use<'_>],
) -> Result<bool, Status> {
    let has_edits = see_file(rt, host, place.path, uses)?;
    see_own(rt, host, place.draft.as_str(), uses)?;
    see_own(rt, host, place.lock.as_str(), uses)?;
    Ok(has_edits)
}

// Locks a place for this server, if edits may be kept there.
fn lock_place<R: Eprint, H: KeepFiles>(
    rt: &R,
    host: &H,
    place: &Place<'_>,
    uses: &[Use<'_>],
) -> Result<File, Status> {
    let lock = place.lock.as_str();
    see_place(rt, host, place, uses)?;
    match host.lock_file(lock) {
        Ok(file) => Ok(file),
        Err(error) => Err(refuse(rt, lock, &error)),
    }
}

// What is served at first where edits are kept at a place. Whether it has some is asked once no
// other server makes any there.
fn first_at<'a, R: Eprint, H: KeepFiles>(
    rt: &R,
    host: &H,
    place: &Place<'a>,
    path: &'a str,
    uses: &[Use<'_>],
) -> Result<First<'a>, Status> {
    let lock = lock_place(rt, host, place, uses)?;
    match see_file(rt, host, place.path, uses) {
        Ok(has_edits) => Ok(First {
            path: if has_edits { place.path } else { path },
            lock: Some(lock),
        }),
        Err(status) => Err(status),
    }
}

/// Which file's policy is served at first: that of the edits that are kept at a path, where there
/// are some, and else that of the policy's own. No file of edits has one of these uses. The error is
/// the status to end with, and the reason was said.
pub fn first_file<'a, R: Eprint, H: KeepFiles + AllocGlobal>(
    rt: &R,
    host: &H,
    path: &'a str,
    kept: Option<&'a str>,
    uses: &[Use<'_>],
) -> Result<First<'a>, Status> {
    let Some(kept) = kept else {
        return Ok(First { path, lock: None });
    };
    match Place::of(host.alloc(), kept) {
        Ok(place) => first_at(rt, host, &place, path, uses),
        Err(error) => Err(refuse(rt, kept, &error)),
    }
}

// What would be served at first where edits are kept at a place. Nothing is locked there.
fn find_first_at<'a, R: Files + Eprint, H: KeepFiles>(
    rt: &R,
    host: &H,
    place: &Place<'a>,
    path: &'a str,
    uses: &[Use<'_>],
) -> Result<&'a str, Status> {
    let has_edits = see_place(rt, host, place, uses)?;
    let lock = place.lock.as_str();
    match see_place_of_file(rt, lock) {
        Ok(()) if has_edits => Ok(place.path),
        Ok(()) => Ok(path),
        Err(error) => Err(refuse(rt, lock, &error)),
    }
}

/// Which file's policy a start would serve at first ([`first_file`]), whoever has the lock of the
/// edits: it may be the server that is to be replaced.
pub fn find_first_file<'a, R: Files + Eprint, H: KeepFiles + AllocGlobal>(
    rt: &R,
    host: &H,
    path: &'a str,
    kept: Option<&'a str>,
    uses: &[Use<'_>],
) -> Result<&'a str, Status> {
    let Some(kept) = kept else {
        return Ok(path);
    };
    match Place::of(host.alloc(), kept) {
        Ok(place) => find_first_at(rt, host, &place, path, uses),
        Err(error) => Err(refuse(rt, kept, &error)),
    }
}

/// Says that the policy of a kept file is served in place of FILE. It doesn't matter whether this
/// could be written.
pub fn tell_of_edits<R: Eprint>(rt: &R, file: &str, kept: &str) {
    let _ = eprintln!(rt;
        "tacd: {kept}: served in place of {file}, since it has edits of the console; \
         'reload' takes that again"
    );
}
