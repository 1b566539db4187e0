//! What is due next on a connection.

/// What is to be done next with a connection that is served in turns.
#[derive(Clone, Copy, Debug, PartialEq, Eq)]
pub enum Due {
    /// A turn, which serves the next packet if it has come whole.
    Turn,
    /// To send what waits. Until that is done the next packet is neither read nor judged.
    Send,
    /// A read, as no whole packet has come.
    Hear,
    /// Nothing but to close it: it has ended, and all that was put on it is sent.
    Close,
}
