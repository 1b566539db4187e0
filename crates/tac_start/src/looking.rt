//! A look at places that a start binds or makes, without doing it.

ghost use Rattle.std.specs.Prelude.{◌≡◌, ◌⊎◌, IfErr};

use dry_run::see_port;
use std::io;
use std::net::{Net, SocketAddr};
use std::rt::Files;
use tac_operators::see_socket;
use tac_run::Status;

/// Says what was found at a place, if that keeps a server from its start. The error is the status to
/// end with.
pub(crate) fn seen<R: Eprint>(rt: &R, place: &str, found: io::Result<()>) -> Result<(), Status>
    ensures { IfErr result (λ status. (status ≡ Status.OutOfMemory) ⊎ (status ≡ Status.Failed)) }
{
    match found {
        Ok(()) => Ok(()),
        Err(error) => {
            let _ = eprintln!(rt; "tacd: {place}: {error}");
            Err(Status::of_unopened(error.kind()))
        }
    }
}

/// Looks at the port at an address. The error is the status to end with.
pub fn see_address<R: Eprint, H: Net>(rt: &R, host: &H, address: SocketAddr) -> Result<(), Status>
    ensures { IfErr result (λ status. (status ≡ Status.OutOfMemory) ⊎ (status ≡ Status.Failed)) }
{
    match see_port(host, address) {
        Ok(()) => Ok(()),
        Err(error) => {
            let _ = eprintln!(rt; "tacd: {address}: {error}");
            Err(Status::of_unopened(error.kind()))
        }
    }
}

/// Looks at the place of a socket, if there is to be one: a console's, or a proxy's. The error is the
/// status to end with.
pub fn see_place<R: Files + Eprint + AllocGlobal>(
    rt: &R,
    path: Option<&str>,
    is_console: bool,
) -> Result<(), Status>
    ensures { IfErr result (λ status. (status ≡ Status.OutOfMemory) ⊎ (status ≡ Status.Failed)) }
{
    match path {
        Some(path) => seen(rt, path, see_socket(rt, path, is_console)),
        None => Ok(()),
    }
}
