//! A look at all that a start needs. Nothing is bound, made or changed.

use crate::options::Options;
use std::net::Net;
use std::rt::Files;
use tac_journal::LogFiles;
use tac_keep::KeepFiles;
use tac_run::Status;
use tac_start::{
    find_first_file, see_address, see_log, see_place, tell_of_edits, warn_of_few,
    warn_of_ipv6_alone,
};

// Where the server would be called.
fn see_places<R: Files + Eprint + AllocGlobal, H: Net>(
    rt: &R,
    host: &H,
    options: &Options<'_>,
) -> Result<(), Status> {
    if let Some(address) = options.address {
        see_address(rt, host, address)?;
    }
    see_place(rt, options.proxy, false)
}

// Says that all is so.
fn approve<R: Print + Eprint>(rt: &R) -> Result<(), Status> {
    match println!(rt; "ok") {
        Ok(()) => Ok(()),
        Err(_) => {
            let _ = eprintln!(rt; "tacd: the output could not be written");
            Err(Status::Failed)
        }
    }
}

/// Looks at all that a start by these options needs, in a start's order, and says what a start says:
/// the error is the status that it would end with. Where nothing is wrong, `ok` is printed.
///
/// Another server may serve by these options meanwhile, since it is done before that is ended: so
/// whether the port is in use, the edits are locked and somebody listens at a socket isn't looked at.
/// Nor is what only shows where something is made, as that a disk is full.
pub(crate) fn check_start<R, H>(rt: &R, host: &H, options: &Options<'_>) -> Result<(), Status>
where
    R: Files + Print + Eprint + AllocGlobal,
    H: AllocGlobal + LogFiles + KeepFiles + Net,
{
    let first = find_first_file(rt, host, options.path, options.kept, &options.uses())?;
    options.desk_of(rt, first)?;
    if first != options.path {
        tell_of_edits(rt, options.path, first);
    }
    see_log(rt, host, options.log, options.syncs)?;
    see_places(rt, host, options)?;
    warn_of_few(
        rt,
        options.settings.connections_at_once,
        options.settings.workers,
    );
    warn_of_ipv6_alone(rt, options.address);
    see_place(rt, options.console, true)?;
    approve(rt)
}
