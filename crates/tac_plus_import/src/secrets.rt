//! What users log in and enable with.

use crate::chain::nearest_password;
use crate::draft::{Draft, add_line};
use crate::hashes::hash_finding;
use crate::remark::{What, purpose_word};
use basics::is_text;
use pol_names::{ClearSecret, Credential, Kind};
use sha_crypt::Hash;
use tac_plus_file::{Method, Password, Purpose, Subject};

/// Which passwords a user logs in with: the first of these that there is.
const LOGINS: [Purpose; 4] = [Purpose::Login, Purpose::Global, Purpose::Pap, Purpose::Chap];

const ENABLES: [Purpose; 1] = [Purpose::Enable];

/// Whether the text may be a secret: 1 to 128 symbols.
pub(crate) fn is_secret(text: &[u8]) -> bool {
    !text.is_empty() && text.len() <= ClearSecret::MAX_LEN && is_text(text)
}

// Whether a policy says the password.
fn is_said(password: &Password) -> bool {
    let text = password.text.as_slice();
    match password.method {
        Method::Cleartext => is_secret(text),
        Method::Des => Hash::read(text).is_some(),
        _ => false,
    }
}

// Whether both are the same secret.
fn are_same(one: &Password, other: &Password) -> bool {
    one.method == other.method && one.text == other.text
}

// What is told of a password beside the one that the subject logs in with.
fn other_finding(password: &Password, login: &Password) -> Option<What> {
    let is_there = login.line == password.line && login.purpose == password.purpose;
    if is_there && are_same(login, password) {
        return match password.purpose {
            Purpose::Login | Purpose::Global => None,
            _ => Some(What::IS_LOGIN),
        };
    }
    match password.purpose {
        Purpose::Arap | Purpose::MsChap | Purpose::OutboundPap => Some(What::OTHER_PASSWORD),
        _ if are_same(login, password) => None,
        _ => Some(What::OTHER_PASSWORD),
    }
}

// What is told of a password, beside the one that the subject logs in with, and the one that it
// enables with.
fn finding(
    password: &Password,
    login: Option<&Password>,
    enable: Option<&Password>,
) -> Option<What> {
    if !is_said(password) {
        return match password.method {
            Method::Cleartext => Some(What::SECRET),
            Method::Des => Some(hash_finding(password.text.as_slice())),
            _ => Some(What::METHOD),
        };
    }
    if password.purpose != Purpose::Enable {
        return match login {
            Some(login) => other_finding(password, login),
            None => Some(What::OTHER_PASSWORD),
        };
    }
    match enable {
        Some(first) if !are_same(first, password) => Some(What::SECOND_ENABLE),
        _ => None,
    }
}

// The line of a secret.
fn write_secret(draft: &mut Draft, credential: Credential, password: &Password) {
    if !is_said(password) {
        return;
    }
    let text = password.text.as_slice();
    if password.method == Method::Des {
        draft.is_third = true;
        draft.policy.add(credential.hash_keyword().as_bytes());
    } else {
        draft.policy.add(credential.keyword().as_bytes());
    }
    add_line(&mut draft.policy, &[text]);
}

/// Writes the secrets of a user, also those of its groups, and tells of each password of a subject
/// that isn't said.
pub(crate) fn write_secrets(draft: &mut Draft, chain: &[&Subject], subject: &Subject) {
    let login = nearest_password(chain, &LOGINS);
    let enable = nearest_password(chain, &ENABLES);
    'passwords: for password in &subject.passwords {
        if let Some(what) = finding(password, login, enable) {
            draft.tell(password.line, what, purpose_word(password.purpose));
        }
    }
    if subject.kind == Kind::Group {
        return;
    }
    if let Some(login) = login {
        write_secret(draft, Credential::Login, login);
    }
    if let Some(enable) = enable {
        write_secret(draft, Credential::Enable, enable);
    }
}
