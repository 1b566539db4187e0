//! A client of TACACS+ (RFC 8907): the packets by which it asks any server, what it takes as the
//! reply to them, and how an answer is told.
#![tactic(auto)]

mod answer;
mod arguments;
mod body;
mod client;
mod fault;
mod judging;
mod login;
mod packet;
mod reply;
mod status;
mod timed;
mod turn;

pub use answer::answer_line;
pub use arguments::{command_arguments, record_arguments, service_arguments};
pub use client::{Asked, Client};
pub use fault::AskFault;
pub use login::{LEVEL_ROOT, LEVEL_USER, Login, Method, UserAt, login_start, request_about};
pub use reply::ReplyFields;
pub use status::{is_granted, status_name};
pub use timed::{Timed, time_left};
