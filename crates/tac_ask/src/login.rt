//! The packets that begin a session.

ghost use Rattle.std.specs.Prelude.{◌≡◌, IfOk};
ghost use Rattle.tac_ask.specs.Login as logins;

use basics::{Bytes, Sequence};
use std::alloc::{AllocError, Global};
use tac_authen::{Action, AuthenType, Service, Start};
use tac_request::AuthorRequest;
use tac_wire::chap_response;

/// The level of a user who has just logged in (RFC 8907, section 9).
pub const LEVEL_USER: u8 = 1;

/// The highest level (RFC 8907, section 9).
pub const LEVEL_ROOT: u8 = 15;

/// That the user was authenticated by a TACACS+ server (RFC 8907, section 6.1).
const BY_TACACS_PLUS: u8 = 6;

/// Of whom something is asked, and where that user is: fields that each packet has which begins a
/// session (RFC 8907, sections 5.1, 6.1 and 7.1).
#[derive(Drop)]
pub struct UserAt {
    pub user: Bytes,
    pub port: Bytes,
    pub rem_addr: Bytes,
}

/// How a password is shown to a server (RFC 8907, sections 5.4.2.1 to 5.4.2.3).
#[derive(Clone, Copy)]
pub enum Method {
    /// The server asks for it.
    Ascii,
    /// It stands in the first packet.
    Pap,
    /// The response to a challenge stands there, which is this client's own.
    Chap { id: u8, challenge: [u8; 16] },
}

/// What a user logs in with.
#[derive(Drop)]
pub struct Login {
    pub method: Method,
    /// Whether a level is asked for, and not a shell (RFC 8907, section 5.4.2.6).
    pub is_enable: bool,
    pub password: Bytes,
}

impl Method {
    /// The type by which the user is authenticated.
    pub(crate) fn authen_type(self) -> AuthenType
        ensures { result.0 ≡ logins.authen_type_of self }
    {
        match self {
            Method::Ascii => AuthenType::ASCII,
            Method::Pap => AuthenType::PAP,
            Method::Chap { .. } => AuthenType::CHAP,
        }
    }

    /// The version byte of the packets.
    pub(crate) fn version(self) -> u8
        ensures { result ≡ logins.version_of self }
    {
        match self {
            Method::Ascii => 0xc0,
            Method::Pap => 0xc1,
            Method::Chap { .. } => 0xc1,
        }
    }

    // The field data of a START.
    fn data_for(self, alloc: Global, password: &[u8]) -> Result<Bytes, AllocError>
        ensures { IfOk result (λ extra. extra ≡ logins.data_of self password.now) }
    {
        match self {
            Method::Ascii => Ok(Bytes::new(alloc)),
            Method::Pap => Bytes::from_slice(alloc, password),
            Method::Chap { id, challenge } => chap_data(alloc, id, &challenge, password),
        }
    }
}

// The id, the challenge, and the response to them.
fn chap_data(
    alloc: Global,
    id: u8,
    challenge: &[u8; 16],
    password: &[u8],
) -> Result<Bytes, AllocError>
    ensures { IfOk result
        (λ extra. extra ≡ logins.chap_data id challenge.now password.now) }
{
    let response = chap_response(id, password, challenge);
    let mut extra = Bytes::from_slice(alloc, &[id])?;
    extra.extend_from_slice(challenge)?;
    extra.extend_from_slice(&response)?;
    Ok(extra)
}

fn level_of(is_enable: bool) -> u8
    ensures { result ≡ logins.level_of is_enable }
{
    if is_enable { LEVEL_ROOT } else { LEVEL_USER }
}

fn service_of(is_enable: bool) -> Service
    ensures { result.0 ≡ logins.service_of is_enable }
{
    if is_enable {
        Service::ENABLE
    } else {
        Service::LOGIN
    }
}

/// The START by which a user logs in. The error means that memory ran out.
pub fn login_start(alloc: Global, at: UserAt, login: &Login) -> Result<Start, AllocError>
    ensures { IfOk result (λ start. start ≡ logins.login_start at login.now) }
{
    let extra = login.method.data_for(alloc, login.password.as_slice())?;
    let UserAt {
        user,
        port,
        rem_addr,
    } = at;
    Ok(Start {
        action: Action::LOGIN,
        priv_lvl: level_of(login.is_enable),
        authen_type: login.method.authen_type(),
        service: service_of(login.is_enable),
        user,
        port,
        rem_addr,
        extra,
    })
}

/// The REQUEST by these arguments, of a user who is at this level.
pub fn request_about(at: UserAt, level: u8, args: Sequence<Bytes>) -> AuthorRequest
    ensures { result ≡ logins.request_about at level args }
{
    let UserAt {
        user,
        port,
        rem_addr,
    } = at;
    AuthorRequest {
        authen_method: BY_TACACS_PLUS,
        priv_lvl: level,
        authen_type: AuthenType::ASCII.0,
        authen_service: Service::LOGIN.0,
        user,
        port,
        rem_addr,
        args,
    }
}
