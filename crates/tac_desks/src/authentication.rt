//! Who a user is: whether a proof is one of the user's secret, and which hash it is compared with.

ghost use Rattle.std.specs.Prelude.{◌≡◌, Some};
ghost use Rattle.std.specs.Option.{option_copied};
ghost use Rattle.pol_names.specs.declared.secret.Secret.TheVariants.{Clear, Hashed};
ghost use Rattle.tac_desk.specs.Asking as asking;

use pol_names::{Name, Secret, SubjectId};
use pol_text::{Policy, Subject};
use sha_crypt::same_bytes;
use tac_conn::{Answer, Ask, Hash, Proof, Service};
use tac_wire::chap_response;

// What the user proves to know: ENABLE asks for another secret than all other services.
fn secret_for(service: Service, user: &Subject) -> Option<&Secret>
    ensures { option_copied result ≡ asking.secret_for service user.now }
{
    if service == Service::ENABLE {
        user.enable.as_ref()
    } else {
        user.login.as_ref()
    }
}

// Whether the proof is one of a secret in the clear.
fn is_proof_of_text(secret: &[u8], proof: &Proof) -> bool
    ensures { result ≡ asking.is_proof_of (Clear secret.now) proof.now }
{
    match proof {
        Proof::Plain(password) => same_bytes(password.as_slice(), secret),
        Proof::Chap {
            id,
            challenge,
            response,
        } => *response == chap_response(*id, secret, challenge.as_slice()),
    }
}

// Whether the proof is one of a secret that is kept as a hash.
fn is_proof_of_hash(hash: &Hash, proof: &Proof) -> bool
    ensures { result ≡ asking.is_proof_of (Hashed hash.now) proof.now }
{
    match proof {
        Proof::Plain(password) => password.passes(hash),
        Proof::Chap { .. } => false,
    }
}

// Whether the proof is one of this secret.
fn is_proof_of(secret: &Secret, proof: &Proof) -> bool
    ensures { result ≡ asking.is_proof_of secret.now proof.now }
{
    match secret {
        Secret::Clear(secret) => is_proof_of_text(secret.as_slice(), proof),
        Secret::Hashed(hash) => is_proof_of_hash(hash, proof),
    }
}

// The user of this name; a text that is no name names nobody.
fn user_of<'a>(policy: &'a Policy, name: &[u8]) -> Option<&'a Subject>
    ensures { option_copied result ≡ asking.user_named policy.now name.now }
{
    let name = Name::read(name)?;
    policy.find(&SubjectId::user(name))
}

/// Whether the proof is this user's, for this service. Takes no memory.
pub(crate) fn authentication(
    policy: &Policy,
    name: &[u8],
    service: Service,
    proof: &Proof,
) -> Answer
    ensures { result ≡ asking.authentication policy.now name.now service proof.now }
{
    let Some(user) = user_of(policy, name) else {
        return Answer::Fail;
    };
    match secret_for(service, user) {
        Some(secret) if is_proof_of(secret, proof) => Answer::Pass,
        _ => Answer::Fail,
    }
}

// The hash that a proof of this secret is compared with, if it is one.
fn compared_with(secret: &Secret, proof: &Proof) -> Option<Hash>
    ensures { result ≡ asking.compared_with (Some secret.now) proof.now }
{
    match (secret, proof) {
        (Secret::Hashed(hash), Proof::Plain(_)) => Some(*hash),
        _ => None,
    }
}

/// The hash that the password of this ask is compared with, if it is one. Takes no memory.
pub(crate) fn hash_for(policy: &Policy, ask: &Ask) -> Option<Hash>
    ensures { result ≡ asking.hash_in policy.now ask.now }
{
    let Ask::Authenticate {
        user,
        service,
        proof,
    } = ask
    else {
        return None;
    };
    let user = user_of(policy, user.as_slice())?;
    let secret = secret_for(*service, user)?;
    compared_with(secret, proof)
}
