//! Passwords that are worked out before they are asked.

use basics::Bytes;
use pol_text::Policy;
use std::alloc::{AllocError, Global};
use std::test::Fail;
use tac_conn::{Answer, Ask, HashRoom, Proof, Service, Typed};
use tac_desk::Desk;
use tac_desks::{LiveDesk, PlainDesk};

// Bob, by a hash of `blue-lake`, as crypt(3) makes it, that takes many rounds.
const POLICY: &[u8] = b"policy 3\nuser bob\nlogin-hash $6$rounds=20000$one$\
    Nlid9SCwZJP126hAesmHmxNhuvmYIBhPQeYmLgriRvsPQkVpJx61XBkiqhQ5Gk9qcKPHSxhpkzSt16IByyyxV/\n";

fn login(alloc: Global, password: Typed) -> Result<Ask, AllocError> {
    Ok(Ask::Authenticate {
        user: Bytes::from_slice(alloc, b"bob")?,
        service: Service::LOGIN,
        proof: Proof::Plain(password),
    })
}

// Bob logs in again and again, with a password that was worked out under the hash that the desk compares
// it with. It would take minutes, if each login took the rounds.
fn logs_in<D: Desk>(alloc: Global, desk: &mut D) -> Result<(), Fail> {
    let mut password = Typed::new(Bytes::from_slice(alloc, b"blue-lake")?);
    let hash = desk
        .hash(&login(alloc, password.copy(alloc)?)?)
        .ok_or("no hash")?;
    password.work_out(HashRoom::new(alloc, &hash)?);
    let ask = login(alloc, password)?;
    for _ in 0..30_000 {
        if !matches!(desk.ask(&ask), Ok(Answer::Pass)) {
            return Err(Fail::from("the login fails"));
        }
    }
    Ok(())
}

#[test]
fn logins_that_are_worked_out_take_no_rounds(rt: HostRuntime) -> Result<(), Fail> {
    let policy = Policy::read(rt.alloc(), POLICY)?;
    logs_in(rt.alloc(), &mut PlainDesk::new(rt.alloc(), policy, 9)?)?;
    let policy = Policy::read(rt.alloc(), POLICY)?;
    logs_in(rt.alloc(), &mut LiveDesk::new(rt.alloc(), policy, 9)?)
}
