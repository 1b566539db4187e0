//! Passwords, with and without what is worked out of them, against hashes that crypt(3) made.

use basics::Bytes;
use std::alloc::Global;
use std::process::Abort;
use std::test::Fail;
use tac_conn::{Hash, HashRoom, Typed};

// Hashes of `blue-lake`, under two salts, other rounds, and a salt that begins as the first; and
// under the first rounds and salt those of `red-lake`, of `x` 128 and 129 times, and of no bytes.
const HASHES: &str = "\
a $6$rounds=1000$one$\
hqJyrpV8VNbVbEd9aL68I4mDrkiBvwdUGcUaMWUg.1qTkxX7AgAHehNkiN6RvZvZLeNETdb0oU5uXWjjTQ62b1
b $6$rounds=1000$two$\
ZtbdxlLAqGgl71gDTO4.XzRMstqK6AWdzCKgbyL.sj0NKjHWs1jIwKIvGHe4NcijnbXtbICPtATFFneSPFSs6/
c $6$rounds=1001$one$\
rDCJJhukmK8s3biiutxOPZjMPZVDjqqVTsAv.6qOunDvCUfyMX.yJemCNHSEGPXJFTSn8VMn3vH.4t0JDQDFd.
d $6$rounds=1000$one2$\
68CmO3zykCmH2RmkC.KxyNVVnBo4L0Z3VpvVh6Yn50WyG2vH.RCbBURxF/5jNt0r0wfRxkP/FW.31kzw/Dqju1
e $6$rounds=1000$one$\
lRsstABQxEokK52AGYNCL5Jh6UNlnkrF4TBN2x.2MLbU2YusJl5l3zFJ06edCHK.VcN25IRJ3nNhSFMZymbz7/
f $6$rounds=1000$one$\
FfdUYt2FpwuGLCZWqj308ulbn056y8BUD7YRMVYQSQOK4cJzurTkUyDSKLmvaPXWhbTWcdlVz.5kd8Sx1A0/./
g $6$rounds=1000$one$\
qwP3aUqrJ3Kpnsa1gXBm.pnxAQ733EVk0NwRCjO4CGwtZf00I5JJBwXuXn/Vxp4CjL6KeBzWSQCQOPFryYiar.
h $6$rounds=1000$one$\
Jv.da9WSjAx7agKwvPr.5nnsHI.wPXUIEBdWsVNkPkUdd/JbaPL0NX9gWihABW5vzc9ZAkrNC7pQRtJ3VO1Tx0";

// Hashes of `blue-lake` again: of 5,000 rounds, unnamed and named, and of 20,000.
const UNNAMED: &str = "$6$one$\
.lhnLVXbNkHVsjJLo5olHPuYGk6uq/Pxno/IT0PVJZaCzxi0GeKUM2nyEK9O9c1A35FCgNPaWeIVos2aVaQeA.";

const NAMED: &str = "$6$rounds=5000$one$\
.lhnLVXbNkHVsjJLo5olHPuYGk6uq/Pxno/IT0PVJZaCzxi0GeKUM2nyEK9O9c1A35FCgNPaWeIVos2aVaQeA.";

const SLOW: &str = "$6$rounds=20000$one$\
Nlid9SCwZJP126hAesmHmxNhuvmYIBhPQeYmLgriRvsPQkVpJx61XBkiqhQ5Gk9qcKPHSxhpkzSt16IByyyxV/";

fn hash_of(text: &str) -> Result<Hash, Fail> {
    match Hash::read(text.as_bytes()) {
        Some(hash) => Ok(hash),
        None => Err(Fail::from("no hash")),
    }
}

// The hash of this letter.
fn hash(letter: &str) -> Result<Hash, Fail> {
    for line in HASHES.lines() {
        if let Some(text) = line.strip_prefix(letter) {
            return hash_of(text.trim_start());
        }
    }
    Err(Fail::from("no such letter"))
}

// A password that is typed so; `#N` stands for `x` so many times.
fn password(alloc: Global, text: &str) -> Result<Typed, Fail> {
    let Some(digits) = text.strip_prefix('#') else {
        return Ok(Typed::new(Bytes::from_slice(alloc, text.as_bytes())?));
    };
    let mut bytes = Bytes::new(alloc);
    for _ in 0..digits.parse::<usize>()? {
        bytes.extend_from_slice(b"x")?;
    }
    Ok(Typed::new(bytes))
}

// The first word of a text, and what follows the space.
fn word(text: &str) -> (&str, &str) {
    text.split_once(' ').unwrap_or((text, ""))
}

// The password after a step: `type PASSWORD`, `work LETTER`, `copy`, or `adopt PASSWORD LETTER`,
// of another one of which that is worked out; without a letter, nothing is.
fn next(alloc: Global, typed: Typed, step: &str) -> Result<Typed, Fail> {
    let mut typed = typed;
    let (verb, rest) = word(step);
    match verb {
        "type" => return password(alloc, rest),
        "work" => typed.work_out(HashRoom::new(alloc, &hash(rest)?)?),
        "copy" => return Ok(typed.copy(alloc)?),
        _ => {
            let (text, letter) = word(rest);
            let mut other = password(alloc, text)?;
            if !letter.is_empty() {
                other.work_out(HashRoom::new(alloc, &hash(letter)?)?);
            }
            typed.adopt(other);
        }
    }
    Ok(typed)
}

// The letters of the hashes whose rounds are taken, and of those for which it passes.
fn told(alloc: Global, typed: &Typed) -> Result<String, Fail> {
    let mut takes = String::new(alloc);
    let mut passes = String::new(alloc);
    for line in HASHES.lines() {
        let (letter, text) = word(line);
        let hash = hash_of(text)?;
        if typed.takes_rounds(&hash) {
            takes.push_str(letter)?;
        }
        if typed.passes(&hash) {
            passes.push_str(letter)?;
        }
    }
    Ok(format!(in alloc; "[{takes}] [{passes}]")?)
}

// Each line is a step, and what is told after it.
fn goes<R: Abort + AllocGlobal>(rt: &R, steps: &str) -> Result<(), Fail> {
    let mut typed = password(rt.alloc(), "")?;
    for line in steps.lines() {
        if let Some((step, wanted)) = line.trim_start().split_once(" = ") {
            typed = next(rt.alloc(), typed, step)?;
            let told = told(rt.alloc(), &typed)?;
            assert!(rt; told.as_str() == wanted, "{step} = {told}");
        }
    }
    Ok(())
}

#[test]
fn what_is_worked_out_serves_its_rounds_and_salt_alone(rt: HostRuntime) -> Result<(), Fail> {
    goes(
        &rt,
        "
        type blue-lake = [abcdefgh] [abcd]
        work a = [bcd] [abcd]
        work e = [bcd] [abcd]
        copy = [abcdefgh] [abcd]
        work b = [acdefgh] [abcd]
        work d = [abcefgh] [abcd]
        work c = [abdefgh] [abcd]
        copy = [abcdefgh] [abcd]
        type red-lake = [abcdefgh] [e]
        work a = [bcd] [e]
        copy = [abcdefgh] [e]
        ",
    )
}

#[test]
fn only_the_same_password_is_adopted(rt: HostRuntime) -> Result<(), Fail> {
    goes(
        &rt,
        "
        type blue-lake = [abcdefgh] [abcd]
        adopt red-lake a = [abcdefgh] [abcd]
        adopt blue-lak a = [abcdefgh] [abcd]
        adopt blue-lake = [abcdefgh] [abcd]
        adopt blue-lake a = [bcd] [abcd]
        adopt red-lake b = [bcd] [abcd]
        adopt blue-lake = [bcd] [abcd]
        adopt blue-lake b = [acdefgh] [abcd]
        type red-lake = [abcdefgh] [e]
        adopt blue-lake e = [abcdefgh] [e]
        adopt red-lake e = [bcd] [e]
        ",
    )
}

#[test]
fn nothing_is_worked_out_of_what_cannot_pass(rt: HostRuntime) -> Result<(), Fail> {
    goes(
        &rt,
        "
        type #128 = [abcdefgh] [f]
        work f = [bcd] [f]
        type #129 = [] []
        work g = [] []
        copy = [] []
        type #65535 = [] []
        work a = [] []
        type #0 = [] []
        work h = [] []
        adopt #0 h = [] []
        type #1 = [abcdefgh] []
        ",
    )
}

#[test]
fn rounds_are_compared_by_their_number(rt: HostRuntime) -> Result<(), Fail> {
    let unnamed = hash_of(UNNAMED)?;
    let named = hash_of(NAMED)?;
    let mut typed = password(rt.alloc(), "blue-lake")?;
    typed.work_out(HashRoom::new(rt.alloc(), &unnamed)?);
    assert!(rt; !typed.takes_rounds(&named));
    assert!(rt; typed.passes(&named));
    Ok(())
}

#[test]
fn what_is_worked_out_is_not_worked_out_again(rt: HostRuntime) -> Result<(), Fail> {
    let hash = hash_of(SLOW)?;
    let mut typed = password(rt.alloc(), "blue-lake")?;
    typed.work_out(HashRoom::new(rt.alloc(), &hash)?);
    // It would take minutes, if each took the rounds.
    for _ in 0..30_000 {
        typed.work_out(HashRoom::new(rt.alloc(), &hash)?);
        assert!(rt; typed.passes(&hash));
    }
    Ok(())
}

#[test]
fn passwords_are_the_same_whatever_is_worked_out(rt: HostRuntime) -> Result<(), Fail> {
    let mut typed = password(rt.alloc(), "blue-lake")?;
    let same = password(rt.alloc(), "blue-lake")?;
    let other = password(rt.alloc(), "red-lake")?;
    typed.work_out(HashRoom::new(rt.alloc(), &hash("a")?)?);
    assert!(rt; typed == same);
    assert!(rt; typed != other);
    assert!(rt; typed.as_slice() == b"blue-lake".as_slice());
    Ok(())
}
