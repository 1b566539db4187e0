//! What devices ask for, by what their packets were read as and what they are answered.

ghost use Rattle.std.specs.Prelude.{◌≡◌};
ghost use Rattle.std.specs.Option.{option_copied};
ghost use Rattle.tac_status.specs.Counting as counting;

use crate::counts::Count;
use tac_audit::Notice;
use tac_authen::{AuthenReply, AuthenStatus};
use tac_conn::{Reading, Reply, ReplyBody};
use tac_request::{AcctReply, AcctStatus, AuthorReply, AuthorStatus};

/// A request, by its type and its status, or a packet that is refused, by why it is
/// (docs/AUDIT.md).
#[derive(Clone, Copy, Debug, PartialEq, Eq)]
pub enum Request {
    LoginPass,
    LoginFail,
    LoginError,
    CommandPassAdd,
    CommandFail,
    AccountSuccess,
    AccountError,
    BadBody,
    BadHeader,
    UnservedType,
    /// Without a reply: out of turn, or aborted.
    Unanswered,
}

impl Request {
    /// Those that are answered, in the order in which they are told.
    pub const ANSWERED: [Request; 7] = [
        Request::LoginPass,
        Request::LoginFail,
        Request::LoginError,
        Request::CommandPassAdd,
        Request::CommandFail,
        Request::AccountSuccess,
        Request::AccountError,
    ];

    /// Those that are refused, in the order in which they are told.
    pub const REFUSED: [Request; 4] = [
        Request::BadBody,
        Request::BadHeader,
        Request::UnservedType,
        Request::Unanswered,
    ];

    /// How it is told.
    pub fn labels(self) -> &'static str {
        match self {
            Request::LoginPass => "type=\"login\",status=\"PASS\"",
            Request::LoginFail => "type=\"login\",status=\"FAIL\"",
            Request::LoginError => "type=\"login\",status=\"ERROR\"",
            Request::CommandPassAdd => "type=\"command\",status=\"PASS_ADD\"",
            Request::CommandFail => "type=\"command\",status=\"FAIL\"",
            Request::AccountSuccess => "type=\"account\",status=\"SUCCESS\"",
            Request::AccountError => "type=\"account\",status=\"ERROR\"",
            Request::BadBody => "why=\"bad_body\"",
            Request::BadHeader => "why=\"bad_header\"",
            Request::UnservedType => "why=\"unserved_type\"",
            Request::Unanswered => "why=\"unanswered\"",
        }
    }
}

// A login at its last reply.
fn login_of(reply: &AuthenReply) -> Option<Request>
    ensures { result ≡ counting.login_as reply.now }
{
    match reply.status {
        AuthenStatus::PASS => Some(Request::LoginPass),
        AuthenStatus::FAIL => Some(Request::LoginFail),
        AuthenStatus::ERROR => Some(Request::LoginError),
        _ => None,
    }
}

fn command_of(reply: &AuthorReply) -> Request
    ensures { result ≡ counting.command_as reply.now }
{
    match reply.status {
        AuthorStatus::PASS_ADD => Request::CommandPassAdd,
        _ => Request::CommandFail,
    }
}

fn account_of(reply: &AcctReply) -> Request
    ensures { result ≡ counting.account_as reply.now }
{
    match reply.status {
        AcctStatus::SUCCESS => Request::AccountSuccess,
        _ => Request::AccountError,
    }
}

// A request by its reply.
fn answered_by(reply: &Reply) -> Option<Request>
    ensures { result ≡ counting.answered_as reply.now.body }
{
    match &reply.body {
        ReplyBody::Authentication(reply) => login_of(reply),
        ReplyBody::Authorisation(reply) => Some(command_of(reply)),
        ReplyBody::Accounting(reply) => Some(account_of(reply)),
        ReplyBody::Empty => None,
    }
}

// A request that has this reply, or none.
fn replied(reply: Option<&Reply>) -> Option<Request>
    ensures { result ≡ counting.replied_as (option_copied reply.entry) }
{
    match reply {
        Some(reply) => answered_by(reply),
        None => None,
    }
}

// A packet that was read so, and has this reply, or none.
fn packet_of(reading: &Reading, reply: Option<&Reply>) -> Option<Request>
    ensures { result ≡ counting.packet_as reading.now (option_copied reply.entry) }
{
    match reading {
        Reading::GoesOn => None,
        Reading::Login(_) | Reading::Command { .. } | Reading::Account { .. } => replied(reply),
        Reading::BadBody => Some(Request::BadBody),
        Reading::Unserved => Some(Request::UnservedType),
        Reading::OutOfTurn | Reading::Aborted => Some(Request::Unanswered),
    }
}

impl Request {
    /// What a witness of a connection is told of; none of a login that goes on.
    pub fn of(notice: &Notice) -> Option<Request>
        ensures { result ≡ counting.counted_as notice.now }
    {
        match notice {
            Notice::Packet(received, reply) => packet_of(&received.reading, reply.as_ref()),
            Notice::BadHeader(_) => Some(Request::BadHeader),
        }
    }
}

/// The requests since a server began.
#[derive(Drop)]
pub struct RequestCounts {
    login_pass: Count,
    login_fail: Count,
    login_error: Count,
    command_pass_add: Count,
    command_fail: Count,
    account_success: Count,
    account_error: Count,
    bad_body: Count,
    bad_header: Count,
    unserved_type: Count,
    unanswered: Count,
    misfits: Count,
}

impl RequestCounts {
    pub(crate) fn new() -> RequestCounts {
        RequestCounts {
            login_pass: Count::new(),
            login_fail: Count::new(),
            login_error: Count::new(),
            command_pass_add: Count::new(),
            command_fail: Count::new(),
            account_success: Count::new(),
            account_error: Count::new(),
            bad_body: Count::new(),
            bad_header: Count::new(),
            unserved_type: Count::new(),
            unanswered: Count::new(),
            misfits: Count::new(),
        }
    }

    fn count(&self, request: Request) -> &Count {
        match request {
            Request::LoginPass => &self.login_pass,
            Request::LoginFail => &self.login_fail,
            Request::LoginError => &self.login_error,
            Request::CommandPassAdd => &self.command_pass_add,
            Request::CommandFail => &self.command_fail,
            Request::AccountSuccess => &self.account_success,
            Request::AccountError => &self.account_error,
            Request::BadBody => &self.bad_body,
            Request::BadHeader => &self.bad_header,
            Request::UnservedType => &self.unserved_type,
            Request::Unanswered => &self.unanswered,
        }
    }

    /// A witness of a connection was told what counts so, and its log, if there is one, took it.
    pub fn note(&self, request: Option<Request>) {
        if let Some(request) = request {
            self.count(request).add(1);
        }
    }

    /// The first packet of a connection had a body that is none of its type, as under another key.
    pub fn note_misfit(&self) {
        self.misfits.add(1);
    }

    /// How many connections began so.
    pub fn misfits(&self) -> u64 {
        self.misfits.get()
    }

    /// How many there were of these.
    pub fn of(&self, request: Request) -> u64 {
        self.count(request).get()
    }
}
