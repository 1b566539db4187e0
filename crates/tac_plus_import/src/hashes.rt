//! Why a hash isn't taken.

use crate::remark::What;
use basics::{read_number, split_once};
use sha_crypt::{Hash, SALT_MAX};

fn is_hash_symbol(byte: u8) -> bool {
    matches!(byte, b'.'..=b'9' | b'A'..=b'Z' | b'a'..=b'z')
}

// Whether it is a number in its fewest digits.
fn is_number(text: &[u8]) -> bool {
    !text.is_empty() && text[0] != b'0' && text.iter().all(|byte| byte.is_ascii_digit())
}

// What is wrong with the rounds that a hash names. Those of over nine digits are too many.
fn rounds_finding(number: &[u8]) -> Option<What> {
    if !is_number(number) {
        return Some(What::ROUNDS);
    }
    match read_number(number, 9) {
        Some(rounds) if rounds < Hash::ROUNDS_MIN => Some(What::FEWER_ROUNDS),
        Some(rounds) if rounds <= Hash::ROUNDS_MAX => None,
        _ => Some(What::MORE_ROUNDS),
    }
}

// What is wrong with a hash from its salt on.
fn salt_finding(text: &[u8]) -> What {
    let Some((salt, _)) = split_once(text, b'$') else {
        return What::DIGEST;
    };
    if salt.is_empty() {
        What::EMPTY_SALT
    } else if salt.len() > SALT_MAX || !salt.iter().all(|byte| is_hash_symbol(*byte)) {
        What::SALT
    } else {
        What::DIGEST
    }
}

/// What is told of what crypt(3) made of a password, where that is no hash here.
pub(crate) fn hash_finding(text: &[u8]) -> What {
    let [b'$', b'6', b'$', rest @ ..] = text else {
        return What::METHOD;
    };
    if !rest.starts_with(b"rounds=") {
        return salt_finding(rest);
    }
    let (front, salt) = split_once(rest, b'$').unwrap_or((rest, &[]));
    match rounds_finding(front.get(7..).unwrap_or(&[])) {
        Some(what) => what,
        None => salt_finding(salt),
    }
}
