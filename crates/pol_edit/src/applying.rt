//! Applying an edit to a policy: the refusals in their order, and then the one change.

ghost use Rattle.std.specs.Prelude.{◌≡◌, ◌⊎◌, ◌&&◌, Ok, Err, false, nat_le, is_some, IsTrue};
ghost use Rattle.std.specs.Prelude.{IfOk, IfErr, OnErr};
ghost use Rattle.std.specs.Option.{option_map};
ghost use Rattle.std.specs.Result.{is_ok};
ghost use Rattle.basics.specs.Memory.{GivesUnlessMemory};
ghost use Rattle.pol_pattern.specs.Reading.{pattern_of};
ghost use Rattle.sha_crypt.specs.HashText.{hash_of};
ghost use Rattle.pol_names.specs.Secret.{is_secret};
ghost use Rattle.pol_names.specs.Service.{is_right_line, allowing};
ghost use Rattle.pol_names.specs.declared.secret.Secret.TheVariants.{Clear, Hashed};
ghost use Rattle.pol_names.specs.SubjectId.{user_id};
ghost use Rattle.pol_text.specs.Policy.{WellFormed, all_of, find_subject};
ghost use Rattle.pol_text.specs.Change.{has_room_below, with_secret, with_priv, without_service};
ghost use Rattle.pol_edit.specs.declared.fault.EditFault.TheVariants.{BadValue, Memory};
ghost use Rattle.pol_edit.specs.Applying as applying;
ghost use Rattle.pol_edit.specs.Applying.{Applies};

use crate::edit::Edit;
use crate::fault::EditFault;
use basics::Bytes;
use pol_names::{
    ClearSecret, Credential, Hash, Kind, Name, Secret, ServiceId, ServiceLine, SubjectId, Verdict,
};
use pol_pattern::{Pattern, PatternFault};
use pol_text::{ChainFault, Policy, Rule};
use std::alloc::Global;

// ---- fields

fn has_subject(policy: &Policy, id: &SubjectId) -> bool
    ensures found { result ≡ is_some (find_subject id.now policy.now) }
    ensures well_formed { WellFormed policy.now }
{
    policy.find(id).is_some()
}

// Whether the group is there, if one is named.
fn has_group(policy: &Policy, parent: &Option<Name>) -> bool
    ensures found { result ≡ applying.has_group parent.now policy.now }
    ensures well_formed { result ≡ false → WellFormed policy.now }
{
    match parent {
        Some(name) => policy.find(&SubjectId::group(*name)).is_some(),
        None => true,
    }
}

// Whether one more subject may stand below the group, if one is named.
fn has_room(policy: &Policy, parent: &Option<Name>) -> bool
    ensures { result ≡ all_of (λ name. has_room_below name policy.now) parent.now }
{
    match parent {
        Some(name) => policy.has_room_below(name),
        None => true,
    }
}

// Whether it is the number of one of so many rules.
fn is_number(at: u16, count: usize) -> bool
    ensures { result ≡ applying.is_number at count }
{
    at >= 1 && usize::from(at) <= count
}

/// Whether the edit is of a subject that isn't there, or names such a group. Takes no memory.
pub(crate) fn is_missing(policy: &Policy, edit: &Edit) -> bool
    ensures missing { result ≡ applying.is_missing policy.now edit.now }
    ensures well_formed { IsTrue result → WellFormed policy.now }
{
    match edit {
        Edit::AddGroup { parent, .. } | Edit::AddUser { parent, .. } => !has_group(policy, parent),
        Edit::SetParent { subject, parent } => {
            !has_subject(policy, subject) || !has_group(policy, parent)
        }
        Edit::SetLogin { user, .. } | Edit::SetEnable { user, .. } | Edit::SetHash { user, .. } =>
            !has_subject(policy, &SubjectId::user(*user)),
        Edit::Remove { subject }
        | Edit::SetPriv { subject, .. }
        | Edit::AddService { subject, .. }
        | Edit::ClearService { subject, .. }
        | Edit::InsertRule { subject, .. }
        | Edit::RemoveRule { subject, .. }
        | Edit::MoveRule { subject, .. } => !has_subject(policy, subject),
    }
}

fn read_pattern(alloc: Global, text: &[u8]) -> Result<Pattern, EditFault>
    ensures { GivesUnlessMemory applying.is_memory (λ pattern. pattern) result
        (applying.pattern_read (pattern_of text.now)) }
{
    match Pattern::read(alloc, text) {
        Ok(pattern) => Ok(pattern),
        Err(PatternFault::Memory) => Err(EditFault::Memory),
        Err(fault) => Err(EditFault::BadPattern(fault)),
    }
}

fn read_secret(alloc: Global, text: &Option<Bytes>) -> Result<Option<Secret>, EditFault>
    ensures ok { IfOk result
        (λ secret. (secret ≡ option_map Clear text.now) × IsTrue (all_of is_secret text.now)) }
    ensures err { IfErr result (λ fault.
        ((fault ≡ Memory) × IsTrue (is_some text.now) × IsTrue (all_of is_secret text.now))
        ⊎ ((fault ≡ BadValue) × (all_of is_secret text.now ≡ false))) }
{
    let Some(text) = text else {
        return Ok(None);
    };
    match ClearSecret::read(alloc, text.as_slice())? {
        Some(secret) => Ok(Some(Secret::Clear(secret))),
        None => Err(EditFault::BadValue),
    }
}

fn small_level(level: Option<u16>) -> Result<Option<u8>, EditFault>
    ensures ok { IfOk result
        (λ small. (small ≡ level) × IsTrue (all_of (λ n. nat_le n 15) level)) }
    ensures err { IfErr result
        (λ fault. (fault ≡ BadValue) × (all_of (λ n. nat_le n 15) level ≡ false)) }
{
    match level {
        None => Ok(None),
        Some(level) => {
            if level > 15 {
                return Err(EditFault::BadValue);
            }
            Ok(Some(level as u8))
        }
    }
}

// ---- edits

#[tactic(auto, unfolding(crate::specs::Applying::added_to))]
fn add(
    alloc: Global,
    policy: &mut Policy,
    kind: Kind,
    name: Name,
    parent: &Option<Name>,
) -> Result<(), EditFault>
    ensures exact { let wanted = applying.added_to policy.old kind name parent.now in
        Applies (is_ok wanted) policy.old policy.new result wanted }
    ensures well_formed { WellFormed policy.new }
{
    let is_taken = policy.find(&SubjectId { kind, name }).is_some();
    if !has_group(policy, parent) {
        return Err(EditFault::NoSuch);
    }
    if is_taken {
        return Err(EditFault::Exists);
    }
    if !has_room(policy, parent) {
        return Err(EditFault::TooDeep);
    }
    if policy.len() >= Policy::MAX_SUBJECTS {
        return Err(EditFault::Limit);
    }
    policy.add(alloc, kind, name, *parent)?;
    Ok(())
}

#[tactic(auto, unfolding(crate::specs::Applying::removed_from))]
fn remove(policy: &mut Policy, id: &SubjectId) -> Result<(), EditFault>
    ensures exact { Applies false policy.old policy.new result
        (applying.removed_from policy.old id.now) }
    ensures well_formed { WellFormed policy.new }
{
    if policy.find(id).is_none() {
        return Err(EditFault::NoSuch);
    }
    if id.kind == Kind::Group && policy.is_parent(&id.name) {
        return Err(EditFault::InUse);
    }
    policy.remove(id);
    Ok(())
}

#[tactic(auto, unfolding(crate::specs::Applying::moved_in))]
fn set_parent(policy: &mut Policy, id: &SubjectId, parent: &Option<Name>) -> Result<(), EditFault>
    ensures exact { Applies false policy.old policy.new result
        (applying.moved_in policy.old id.now parent.now) }
    ensures well_formed { WellFormed policy.new }
{
    if policy.find(id).is_none() || !has_group(policy, parent) {
        return Err(EditFault::NoSuch);
    }
    match policy.set_parent(id, *parent) {
        Ok(()) => Ok(()),
        Err(ChainFault::Cycle) => Err(EditFault::Cycle),
        Err(ChainFault::TooDeep) => Err(EditFault::TooDeep),
    }
}

#[tactic(auto, unfolding(crate::specs::Applying::set_in))]
fn set_secret(
    alloc: Global,
    policy: &mut Policy,
    user: Name,
    credential: Credential,
    secret: &Option<Bytes>,
) -> Result<(), EditFault>
    ensures exact { let right = all_of is_secret secret.now in
        let change = with_secret credential (option_map Clear secret.now) in
        let wanted = applying.set_in policy.old (user_id user) right change in
        Applies (is_some secret.now && is_ok wanted) policy.old policy.new result wanted }
    ensures well_formed { WellFormed policy.new }
{
    let id = SubjectId::user(user);
    if policy.find(&id).is_none() {
        return Err(EditFault::NoSuch);
    }
    let secret = read_secret(alloc, secret)?;
    policy.set_secret(&id, credential, secret);
    Ok(())
}

#[tactic(auto, unfolding(crate::specs::Applying::set_in))]
fn set_hash(
    policy: &mut Policy,
    user: Name,
    credential: Credential,
    text: &[u8],
) -> Result<(), EditFault>
    ensures exact { let hash = hash_of text.now in
        let change = with_secret credential (option_map Hashed hash) in
        Applies false policy.old policy.new result
        (applying.set_in policy.old (user_id user) (is_some hash) change) }
    ensures well_formed { WellFormed policy.new }
{
    let id = SubjectId::user(user);
    if policy.find(&id).is_none() {
        return Err(EditFault::NoSuch);
    }
    let Some(hash) = Hash::read(text) else {
        return Err(EditFault::BadValue);
    };
    policy.set_secret(&id, credential, Some(Secret::Hashed(hash)));
    Ok(())
}

#[tactic(auto, unfolding(crate::specs::Applying::set_in))]
fn set_priv(policy: &mut Policy, id: &SubjectId, level: Option<u16>) -> Result<(), EditFault>
    ensures exact { Applies false policy.old policy.new result
        (applying.set_in policy.old id.now (all_of (λ n. nat_le n 15) level) (with_priv level)) }
    ensures well_formed { WellFormed policy.new }
{
    if policy.find(id).is_none() {
        return Err(EditFault::NoSuch);
    }
    let level = small_level(level)?;
    policy.set_priv(id, level);
    Ok(())
}

#[tactic(auto, unfolding(crate::specs::Applying::said_in))]
fn add_service(
    alloc: Global,
    policy: &mut Policy,
    id: &SubjectId,
    line: &ServiceLine,
) -> Result<(), EditFault>
    ensures exact { let wanted = applying.said_in policy.old id.now line.now in
        Applies (is_ok wanted) policy.old policy.new result wanted }
    ensures well_formed { WellFormed policy.new }
{
    let Some(subject) = policy.find(id) else {
        return Err(EditFault::NoSuch);
    };
    if subject.has_clash(line) {
        return Err(EditFault::Exists);
    }
    if !line.is_right() {
        return Err(EditFault::BadValue);
    }
    if subject.services.len() >= Policy::MAX_SERVICES {
        return Err(EditFault::Limit);
    }
    let line = line.copy(alloc)?;
    policy.add_service(id, line)?;
    Ok(())
}

#[tactic(auto, unfolding(crate::specs::Applying::set_in))]
fn clear_service(
    alloc: Global,
    policy: &mut Policy,
    id: &SubjectId,
    service: &ServiceId,
    attribute: &Option<Bytes>,
) -> Result<(), EditFault>
    ensures exact { let right = is_right_line (allowing service.now attribute.now) in
        let change = without_service service.now attribute.now in
        Applies false policy.old policy.new result
        (applying.set_in policy.old id.now right change) }
    ensures well_formed { WellFormed policy.new }
{
    if policy.find(id).is_none() {
        return Err(EditFault::NoSuch);
    }
    if !service.may_give(attribute) {
        return Err(EditFault::BadValue);
    }
    policy.clear_service(alloc, id, service, attribute);
    Ok(())
}

#[tactic(auto, unfolding(crate::specs::Applying::inserted_in))]
fn insert_rule(
    alloc: Global,
    policy: &mut Policy,
    id: &SubjectId,
    at: u16,
    verdict: Verdict,
    text: &[u8],
) -> Result<(), EditFault>
    ensures exact { Applies (applying.has_place policy.old id.now at) policy.old policy.new result
        (applying.inserted_in policy.old id.now at verdict text.now) }
    ensures well_formed { WellFormed policy.new }
{
    let Some(subject) = policy.find(id) else {
        return Err(EditFault::NoSuch);
    };
    let count = subject.rules.len();
    if at == 0 || usize::from(at - 1) > count {
        return Err(EditFault::BadIndex);
    }
    let pattern = read_pattern(alloc, text)?;
    if count >= Policy::MAX_RULES {
        return Err(EditFault::Limit);
    }
    policy.insert_rule(id, usize::from(at - 1), Rule { verdict, pattern })?;
    Ok(())
}

#[tactic(auto, unfolding(crate::specs::Applying::dropped_in))]
fn remove_rule(policy: &mut Policy, id: &SubjectId, at: u16) -> Result<(), EditFault>
    ensures exact { Applies false policy.old policy.new result
        (applying.dropped_in policy.old id.now at) }
    ensures well_formed { WellFormed policy.new }
{
    let Some(subject) = policy.find(id) else {
        return Err(EditFault::NoSuch);
    };
    if !is_number(at, subject.rules.len()) {
        return Err(EditFault::BadIndex);
    }
    policy.remove_rule(id, usize::from(at - 1));
    Ok(())
}

#[tactic(auto, unfolding(crate::specs::Applying::shifted_in))]
fn move_rule(policy: &mut Policy, id: &SubjectId, from: u16, to: u16) -> Result<(), EditFault>
    ensures exact { Applies false policy.old policy.new result
        (applying.shifted_in policy.old id.now from to) }
    ensures well_formed { WellFormed policy.new }
{
    let Some(subject) = policy.find(id) else {
        return Err(EditFault::NoSuch);
    };
    let count = subject.rules.len();
    if !is_number(from, count) || !is_number(to, count) {
        return Err(EditFault::BadIndex);
    }
    policy.move_rule(id, usize::from(from - 1), usize::from(to - 1));
    Ok(())
}

// The edit of each kind.
#[tactic(auto, unfolding(crate::specs::Applying::applied))]
fn make(alloc: Global, policy: &mut Policy, edit: &Edit) -> Result<(), EditFault>
    ensures exact { Applies (applying.takes_memory policy.old edit.now) policy.old policy.new result
        (applying.applied policy.old edit.now) }
    ensures well_formed { WellFormed policy.new }
{
    match edit {
        Edit::AddGroup { name, parent } => add(alloc, policy, Kind::Group, *name, parent),
        Edit::AddUser { name, parent } => add(alloc, policy, Kind::User, *name, parent),
        Edit::Remove { subject } => remove(policy, subject),
        Edit::SetParent { subject, parent } => set_parent(policy, subject, parent),
        Edit::SetLogin { user, secret } => set_secret(
            alloc,
            policy,
            *user,
            Credential::Login,
            secret,
        ),
        Edit::SetEnable { user, secret } => set_secret(
            alloc,
            policy,
            *user,
            Credential::Enable,
            secret,
        ),
        Edit::SetHash {
            user,
            credential,
            hash,
        } => set_hash(policy, *user, *credential, hash.as_slice()),
        Edit::SetPriv { subject, level } => set_priv(policy, subject, *level),
        Edit::AddService { subject, line } => add_service(alloc, policy, subject, line),
        Edit::ClearService {
            subject,
            service,
            attribute,
        } => clear_service(alloc, policy, subject, service, attribute),
        Edit::InsertRule {
            subject,
            at,
            verdict,
            pattern,
        } => insert_rule(alloc, policy, subject, *at, *verdict, pattern.as_slice()),
        Edit::RemoveRule { subject, at } => remove_rule(policy, subject, *at),
        Edit::MoveRule { subject, from, to } => move_rule(policy, subject, *from, *to),
    }
}

/// Applies an edit. A refused edit leaves the policy as it was, also where memory ran out. Only a
/// subject that is added, a secret that is set in the clear, a line about a service that is added
/// and a rule that is inserted take memory.
pub fn apply(alloc: Global, policy: &mut Policy, edit: &Edit) -> Result<(), EditFault>
    // Which policy it becomes, or which refusal comes first. Memory runs out only where it is
    // taken.
    ensures exact { let grows = applying.takes_memory policy.old edit.now in
        GivesUnlessMemory (λ fault. applying.is_memory fault && grows) (λ _. policy.new) result
        (applying.applied policy.old edit.now) }

    // A refusal changes nothing.
    ensures kept { OnErr result (policy.new ≡ policy.old) }

    // No edit makes a policy that isn't well formed.
    ensures well_formed { WellFormed policy.new }
{
    make(alloc, policy, edit)
}
