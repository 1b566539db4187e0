//! The replies of the server: fixed texts, denials and arguments.

ghost use Rattle.std.specs.Prelude.{◌≡◌, ◌+◌, ◌≤◌, ◌++◌, length, vec_len, vec_capacity};
ghost use Rattle.std.specs.Fmt.{decimal};
ghost use Rattle.arrayvec.specs.ArrayVec.{array_vec_len};
ghost use Rattle.pol_names.specs.SubjectId.{kind_word};
ghost use Rattle.tac_conn.specs.Reply as replies;

use crate::ask::{Answer, AskKind};
use arrayvec::ArrayVec;
use itoa::Buffer;
use pol_names::{By, SubjectId};
use tac_authen::{AuthenReply, AuthenStatus, write_reply};
use tac_request::{
    AUTHOR_REPLY_MAX, AcctReply, AcctStatus, AuthorReply, AuthorStatus, ReplyArguments,
    write_acct_reply, write_author_reply,
};
use tac_wire::{Header, MESSAGE_MAX, Message, message_of};

// Adds a body without arguments to bytes that have room for it.
fn put_body(out: &mut Vec<u8>, body: &ArrayVec<u8, 96>)
    requires { vec_len out.old + array_vec_len body.now ≤ vec_capacity out.old }
    ensures { out.new.items ≡ out.old.items ++ body.now.items }
{
    out.extend_from_slice(body.as_slice()).unwrap();
}

/// What a reply says.
#[derive(Drop)]
pub enum ReplyBody {
    Authentication(AuthenReply),
    Authorisation(AuthorReply),
    Accounting(AcctReply),
    /// Nothing, to a packet of a type that isn't served.
    Empty,
}

impl ReplyBody {
    /// Adds the spelling of the body to bytes that have room for it. Takes no memory.
    pub(crate) fn write(&self, out: &mut Vec<u8>)
        requires room { vec_len out.old + AUTHOR_REPLY_MAX ≤ vec_capacity out.old }
        ensures value { out.new.items ≡ out.old.items ++ replies.body_bytes self.now }
        ensures fits { length (replies.body_bytes self.now) ≤ AUTHOR_REPLY_MAX }
    {
        match self {
            ReplyBody::Authentication(reply) => put_body(out, &write_reply(reply)),
            ReplyBody::Authorisation(reply) => write_author_reply(reply, out),
            ReplyBody::Accounting(reply) => put_body(out, &write_acct_reply(reply)),
            ReplyBody::Empty => {}
        }
    }
}

/// A reply in clear, before it is spelled. The length in its header is set then.
#[derive(Drop)]
pub struct Reply {
    pub header: Header,
    pub body: ReplyBody,
}

// An authentication reply that shows what is typed.
fn authentication(status: AuthenStatus, text: &[u8]) -> ReplyBody
    requires { length text.now ≤ MESSAGE_MAX }
    ensures { result ≡ replies.authen status text.now }
{
    ReplyBody::Authentication(AuthenReply {
        status,
        noecho: false,
        msg: message_of(text),
    })
}

/// PASS.
pub(crate) fn pass() -> ReplyBody
    ensures { result ≡ replies.pass }
{
    authentication(AuthenStatus::PASS, b"")
}

/// FAIL, which says no more.
pub(crate) fn fail() -> ReplyBody
    ensures { result ≡ replies.fail }
{
    authentication(AuthenStatus::FAIL, b"Authentication failed")
}

/// ERROR with this text.
pub(crate) fn authen_error(text: &[u8]) -> ReplyBody
    requires { length text.now ≤ MESSAGE_MAX }
    ensures { result ≡ replies.authen_error text.now }
{
    authentication(AuthenStatus::ERROR, text)
}

/// GETPASS: a password is asked for, which is not to be shown.
pub(crate) fn secret_question() -> ReplyBody
    ensures { result ≡ replies.secret_question }
{
    ReplyBody::Authentication(AuthenReply {
        status: AuthenStatus::GETPASS,
        noecho: true,
        msg: message_of(b"Password: "),
    })
}

/// What a user of this name is asked for: the password, or the name where it is empty.
pub(crate) fn question_to(user: &[u8]) -> ReplyBody
    ensures { result ≡ replies.question_to user.now }
{
    match user {
        [] => authentication(AuthenStatus::GETUSER, b"Username: "),
        _ => secret_question(),
    }
}

// An authorisation reply with this text, without arguments.
fn authorisation(status: AuthorStatus, text: &[u8]) -> ReplyBody
    requires { length text.now ≤ MESSAGE_MAX }
    ensures { result ≡ replies.author status text.now }
{
    ReplyBody::Authorisation(AuthorReply {
        status,
        msg: message_of(text),
        args: ReplyArguments::of_level(None),
    })
}

/// FAIL with this text.
pub(crate) fn refusal(text: &[u8]) -> ReplyBody
    requires { length text.now ≤ MESSAGE_MAX }
    ensures { result ≡ replies.refusal text.now }
{
    authorisation(AuthorStatus::FAIL, text)
}

// PASS_ADD without text, with these arguments.
fn permission(args: ReplyArguments) -> ReplyBody
    ensures { result ≡ replies.permission args }
{
    ReplyBody::Authorisation(AuthorReply {
        status: AuthorStatus::PASS_ADD,
        msg: ArrayVec::new(),
        args,
    })
}

// SUCCESS without text.
fn success() -> ReplyBody
    ensures { result ≡ replies.success }
{
    ReplyBody::Accounting(AcctReply {
        status: AcctStatus::SUCCESS,
        msg: ArrayVec::new(),
    })
}

/// An accounting ERROR with this text.
pub(crate) fn acct_error(text: &[u8]) -> ReplyBody
    requires { length text.now ≤ MESSAGE_MAX }
    ensures { result ≡ replies.acct_error text.now }
{
    ReplyBody::Accounting(AcctReply {
        status: AcctStatus::ERROR,
        msg: message_of(text),
    })
}

/// The ERROR that says that a body is invalid.
pub(crate) fn bad_body(kind: AskKind) -> ReplyBody
    ensures { result ≡ replies.bad_body kind }
{
    match kind {
        AskKind::Authentication => authen_error(b"bad body"),
        AskKind::Authorisation => authorisation(AuthorStatus::ERROR, b"bad body"),
        AskKind::Accounting => acct_error(b"bad body"),
    }
}

// Adds a piece for which there is room.
fn put(text: &mut Message, piece: &[u8])
    requires { array_vec_len text.old + length piece.now ≤ MESSAGE_MAX }
    ensures { text.new.items ≡ text.old.items ++ piece.now }
{
    text.try_extend_from_slice(piece).unwrap();
}

const DENIED_BY: &[u8] = b"denied by ";

const RULE: &[u8] = b" rule ";

// `denied by OWNER rule N`.
fn denied_by(owner: &SubjectId, number: u16) -> Message
    ensures { result.items ≡ DENIED_BY.now ++ kind_word owner.now.kind ++ owner.now.name
        ++ RULE.now ++ decimal number }
{
    let mut text = ArrayVec::new();
    put(&mut text, DENIED_BY);
    put(&mut text, owner.kind.keyword().as_bytes());
    put(&mut text, owner.name.as_slice());
    put(&mut text, RULE);
    put(&mut text, Buffer::new().format(number).as_bytes());
    text
}

// Whom a denial names.
fn denial(by: By) -> Message
    ensures { result.items ≡ replies.denial by }
{
    match by {
        By::Rule(owner, number) => denied_by(&owner, number),
        By::Default => message_of(b"denied by default"),
    }
}

const REFUSED_BY: &[u8] = b"refused by ";

// `refused by OWNER`.
fn refused_by(owner: &SubjectId) -> Message
    ensures { result.items ≡ replies.refused_by owner.now }
{
    let mut text = ArrayVec::new();
    put(&mut text, REFUSED_BY);
    put(&mut text, owner.kind.keyword().as_bytes());
    put(&mut text, owner.name.as_slice());
    text
}

/// What carries an answer of the desk.
pub(crate) fn answer_body(answer: Answer) -> ReplyBody
    ensures { result ≡ replies.answer_body answer }
{
    match answer {
        Answer::Pass => pass(),
        Answer::Fail => fail(),
        Answer::UnknownUser => refusal(b"unknown user"),
        Answer::Unprintable => refusal(b"unprintable command"),
        Answer::Denied(by) => refusal(denial(by).as_slice()),
        Answer::Permitted(level) => permission(ReplyArguments::of_level(level)),
        Answer::Unserved => refusal(b"unsupported service"),
        Answer::Refused(owner) => refusal(refused_by(&owner).as_slice()),
        Answer::Granted(arguments) => permission(ReplyArguments::of_list(arguments)),
        Answer::Stored => success(),
        Answer::BookFull => acct_error(b"records full"),
    }
}
