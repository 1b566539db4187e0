//! What a witness of a server is told.

use tac_audit::Notice;

/// What a witness of a server's connections is told.
#[derive(Drop)]
pub enum Noticed {
    /// A connection of this number was opened. What was told of the number before is of another
    /// connection.
    Opened(u32),
    /// What is told of the connection of this number.
    On(u32, Notice),
}
