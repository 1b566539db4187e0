//! Bodies of authorisation and accounting packets (RFC 8907, sections 6 and 7), the command line
//! that the arguments of a request make, and the record that is kept of an accounting request.
#![tactic(auto)]

mod acct_reply;
mod acct_request;
mod argument;
mod arguments;
mod author_reply;
mod author_request;
mod line;
mod record;

pub use acct_reply::{AcctReply, AcctStatus, read_acct_reply, write_acct_reply};
pub use acct_request::{AcctRequest, read_acct_request};
pub use argument::{Arg, split_arg};
pub use arguments::{Arguments, ReplyArguments, level_argument};
pub use author_reply::{
    AUTHOR_REPLY_MAX, AuthorReply, AuthorStatus, read_author_reply, write_author_reply,
};
pub use author_request::{AuthorRequest, read_author_request};
pub use line::{LineOf, Requested, asked_for, request_line};
pub use record::{AcctKind, Record, acct_kind, task_id};
