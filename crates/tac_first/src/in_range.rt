//! Values that RFC 8907 gives the fixed fields of bodies.

ghost use Rattle.std.specs.Prelude.{◌≡◌};
ghost use Rattle.tac_first.specs.InRange as values;

use tac_authen::Start;
use tac_request::{AcctRequest, AuthorRequest};

/// The highest privilege level.
const PRIV_LVL_MAX: u8 = 15;

// Login, a change of the password, or a secret that is sent.
fn is_action(action: u8) -> bool
    ensures { result ≡ values.is_action action }
{
    matches!(action, 1 | 2 | 4)
}

// ASCII to MSCHAPv2.
fn is_authen_type(kind: u8) -> bool
    ensures { result ≡ values.is_authen_type kind }
{
    matches!(kind, 1..=6)
}

// ASCII to MSCHAPv2, or not set.
fn is_request_type(kind: u8) -> bool
    ensures { result ≡ values.is_request_type kind }
{
    kind == 0 || is_authen_type(kind)
}

// NONE to FWPROXY.
fn is_authen_service(service: u8) -> bool
    ensures { result ≡ values.is_authen_service service }
{
    service <= 9
}

// NOT_SET to TACACSPLUS, GUEST, RADIUS, KRB4 or RCMD.
fn is_authen_method(method: u8) -> bool
    ensures { result ≡ values.is_authen_method method }
{
    matches!(method, 0..=6 | 8 | 0x10 | 0x11 | 0x20)
}

// Start, stop, watchdog, or watchdog with start.
fn is_acct_flags(flags: u8) -> bool
    ensures { result ≡ values.is_acct_flags flags }
{
    matches!(flags, 2 | 4 | 8 | 10)
}

pub(crate) fn is_start_in_range(start: &Start) -> bool
    ensures { result ≡ values.is_start_in_range start.now }
{
    is_action(start.action.0)
        && start.priv_lvl <= PRIV_LVL_MAX
        && is_authen_type(start.authen_type.0)
        && is_authen_service(start.service.0)
}

pub(crate) fn is_author_request_in_range(request: &AuthorRequest) -> bool
    ensures { result ≡ values.is_author_request_in_range request.now }
{
    is_authen_method(request.authen_method)
        && request.priv_lvl <= PRIV_LVL_MAX
        && is_request_type(request.authen_type)
        && is_authen_service(request.authen_service)
}

pub(crate) fn is_acct_request_in_range(request: &AcctRequest) -> bool
    ensures { result ≡ values.is_acct_request_in_range request.now }
{
    is_acct_flags(request.flags)
        && is_authen_method(request.authen_method)
        && request.priv_lvl <= PRIV_LVL_MAX
        && is_request_type(request.authen_type)
        && is_authen_service(request.authen_service)
}
