//! What the connections of a worker share.

use std::alloc::Global;
use tac_wire::Door;

/// What all connections of a worker share: where it takes its memory, and the door by which packets
/// come and go.
#[derive(Drop)]
pub struct Terms<'a> {
    pub alloc: Global,
    pub door: &'a Door,
}
