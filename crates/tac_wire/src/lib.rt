//! The wire format that all kinds of packet share (RFC 8907, section 4): the stream of packets,
//! their header, key and pad, the door that bodies come by, the CHAP response, and what bodies have
//! in common.
#![tactic(auto)]

mod body;
mod chap;
mod door;
mod frame;
mod framer;
mod header;
mod key;
mod pad;

pub use body::{
    BodyFault, MESSAGE_MAX, Message, REPLY_MAX, cut, cut_laws, message_of, well_formed,
};
pub use chap::chap_response;
pub use door::{Door, KeyDoor};
pub use frame::{Frame, FrameFault, RefusedHeader};
pub use framer::{Framer, Next};
pub use header::{HEADER_SIZE, Header, PacketType};
pub use key::Key;
pub use pad::pad_in_place;
