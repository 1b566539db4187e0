//! The files of a server.

use tac_status::Counts;

/// What a server writes and reads beside its connections and its console.
#[derive(Clone, Copy)]
pub struct ServerFiles<'a, L, S> {
    /// The log, which is told of what devices are answered and of each line of the console.
    pub log: &'a L,
    /// Where the console's `reload` finds a policy. It knows too who types there.
    pub source: &'a S,
    /// What counts its connections and their requests.
    pub counts: &'a Counts,
}
