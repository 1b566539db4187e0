//! The ending of a server: its desk is closed.

ghost use Rattle.std.specs.Prelude.{◌≡◌, [], ◌∷◌, ◌++◌, OnOk};
ghost use Rattle.tac_net.specs.Ending as ending;

use crate::fault::ServeFault;
use basics::send;
use std::alloc::AllocError;
use std::io::Write;
use tac_desk::Desk;
use tac_hall::{Hall, Run, Seat};

const REFUSED: &[u8] = b"close refused\n";

/// Prints that the desk can't be closed.
pub(crate) fn refuse<W: Write>(output: &mut W) -> ServeFault
    ensures { ending.Refuses result (W.contents output.old) (W.contents output.new) }
{
    let (_, sent) = send(output, REFUSED);
    match sent {
        Ok(()) => ServeFault::CloseRefused,
        Err(_) => ServeFault::WriteFault,
    }
}

// Adds the seats of those who served.
fn add_seats<J: Run>(seats: &mut Vec<Seat<J>>, served: Vec<Seat<J>>) -> Result<(), AllocError>
    ensures { OnOk result (seats.new.items ≡ seats.old.items ++ served.items) }
{
    'workers: for seat in served {
        seats.push(seat)?;
    }
    Ok(())
}

/// Closes a desk with the console's seat and those of its workers. The list has room for them.
pub(crate) fn close<J: Run, D: Desk, W: Write>(
    desk: Hall<J, D>,
    console: Seat<J>,
    served: Vec<Seat<J>>,
    room: Vec<Seat<J>>,
    output: &mut W,
) -> Result<(), ServeFault>
    requires { room.items ≡ [] }
    ensures { ending.Closes result J.opening (console ∷ served.items)
        (W.contents output.old) (W.contents output.new) }
{
    let mut seats = room;
    seats.push(console)?;
    add_seats(&mut seats, served)?;
    match desk.close(seats) {
        Ok(_) => Ok(()),
        Err(_) => Err(refuse(output)),
    }
}
