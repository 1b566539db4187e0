//! What is kept of the open sessions.

ghost use Rattle.std.specs.Prelude.{◌≡◌, ◌==◌, Option, OnOk, OnErr, IsSome};
ghost use Rattle.std.specs.List.{find};
ghost use Rattle.std.specs.Option.{option_copied};
ghost use Rattle.tac_conn.specs.Sessions as table;

use crate::reading::Asker;
use basics::Sequence;
use std::alloc::AllocError;

/// An open session: one of authentication that has asked its client for more.
#[derive(Drop)]
pub(crate) struct Session {
    pub(crate) id: u32,
    /// The seq_no of the last reply. The session's next packet has the one after it.
    pub(crate) last_seq: u8,
    /// Who logs in: his password is asked for. Without a name that is asked for.
    pub(crate) asker: Asker,
}

/// The session of this id.
pub(crate) fn find_session(sessions: &[Session], id: u32) -> Option<&Session>
    ensures { option_copied result ≡ table.session_in sessions.now id }
{
    sessions.iter().find(|session| session.id == id)
}

// The place of the session of this id.
fn place_of(sessions: &[Session], id: u32) -> Option<usize>
    ensures { result ≡ table.place_in sessions.now id }
{
    sessions.iter().position(|session| session.id == id)
}

// Forgets the session of this id, if there is one.
fn remove_session(sessions: &mut Sequence<Session>, id: u32)
    ensures { sessions.new ≡ table.without id sessions.old }
{
    if let Some(place) = place_of(sessions.as_slice(), id) {
        sessions.remove(place);
    }
}

// Keeps a session, in place of the one of its id.
fn keep_session(sessions: &mut Sequence<Session>, session: Session) -> Result<(), AllocError>
    ensures ok { OnOk result (sessions.new ≡ table.with_session session sessions.old) }
    ensures err { OnErr result (sessions.new ≡ sessions.old) }
{
    let place = place_of(sessions.as_slice(), session.id);
    sessions.push(session)?;
    if let Some(place) = place {
        sessions.remove(place);
    }
    Ok(())
}

/// Keeps the session of this id as it is after a packet, or forgets it where it isn't open.
pub(crate) fn settle(
    sessions: &mut Sequence<Session>,
    id: u32,
    session: Option<Session>,
) -> Result<(), AllocError>
    ensures ok { OnOk result (sessions.new ≡ table.settled id session sessions.old) }
    ensures err { OnErr result (sessions.new ≡ sessions.old) }
    // Only a session that is kept takes memory.
    ensures memory { OnErr result (IsSome session) }
{
    match session {
        Some(session) => keep_session(sessions, session),
        None => {
            remove_session(sessions, id);
            Ok(())
        }
    }
}
