//! What a line says of the present subject.

ghost use Rattle.std.specs.Prelude.{◌≡◌, Ok, Err, OnErr, ok_or, if◌then◌else◌};
ghost use Rattle.basics.specs.Memory.{GivesUnlessMemory};
ghost use Rattle.pol_pattern.specs.Memory.{is_memory};
ghost use Rattle.pol_text.specs.declared.fault.PolicyRefusal.TheVariants.{BadLine, BadValue};
ghost use Rattle.pol_names.specs.declared.subject_id.Kind.TheVariants.{Group};
ghost use Rattle.pol_text.specs.Draft.{LineGives, LineMakes};
ghost use Rattle.pol_names.specs.SubjectId.{same_kind};
ghost use Rattle.pol_names.specs.Secret.{secret_of};
ghost use Rattle.sha_crypt.specs.HashText.{hash_of};
ghost use Rattle.std.specs.Option.{option_map};
ghost use Rattle.pol_names.specs.declared.secret.Secret.TheVariants.{Clear, Hashed};
ghost use Rattle.pol_text.specs.Setting.{changed_by, secret_given, hash_given};
ghost use Rattle.pol_text.specs.Text.{level_of, pattern_read, with_service};
ghost use Rattle.pol_text.specs.Text.{with_priv as priv_set};
ghost use Rattle.pol_text.specs.Text.{with_rule as rule_added, pattern_in as pattern_wanted};

use crate::fault::{LineFault, PolicyRefusal};
use crate::policy::Policy;
use crate::subject::{Rule, Subject};
use crate::version::TextVersion;
use basics::read_number;
use pol_names::{ClearSecret, Credential, Hash, Kind, Secret, ServiceLine, Verdict};
use pol_pattern::{Pattern, PatternFault};
use std::alloc::Global;

/// A line of a subject, after its first word.
#[derive(Clone, Copy)]
pub(crate) enum Setting<'a> {
    Secret(Credential, &'a [u8]),
    Hash(Credential, &'a [u8]),
    Priv(&'a [u8]),
    Rule(TextVersion, Verdict, &'a [u8]),
}

impl<'a> Setting<'a> {
    /// Makes the setting. A subject stays as it is where that is refused.
    pub(crate) fn make(self, alloc: Global, subject: &mut Subject) -> Result<(), LineFault>
        ensures made { LineMakes result subject.new (changed_by self.entry subject.old) }
        ensures err { OnErr result (subject.new ≡ subject.old) }
    {
        match self {
            Setting::Secret(credential, text) => add_secret(alloc, subject, credential, text),
            Setting::Hash(credential, text) => add_hash(alloc, subject, credential, text),
            Setting::Priv(text) => add_priv(subject, text),
            Setting::Rule(version, verdict, text) => {
                add_rule(alloc, subject, version, verdict, text)
            }
        }
    }
}

fn secret(alloc: Global, text: &[u8]) -> Result<Secret, LineFault>
    ensures { LineGives result (ok_or (option_map Clear (secret_of text.now)) BadValue) }
{
    match ClearSecret::read(alloc, text)? {
        Some(secret) => Ok(Secret::Clear(secret)),
        None => Err(LineFault::Refused(PolicyRefusal::BadValue)),
    }
}

// A group has no secrets.
fn refuse_group(kind: Kind) -> Result<(), PolicyRefusal>
    ensures { result ≡ (if same_kind kind Group then Err BadLine else Ok tt) }
{
    match kind {
        Kind::Group => Err(PolicyRefusal::BadLine),
        Kind::User => Ok(()),
    }
}

fn add_secret(
    alloc: Global,
    subject: &mut Subject,
    credential: Credential,
    text: &[u8],
) -> Result<(), LineFault>
    ensures made { LineMakes result subject.new (secret_given credential text.now subject.old) }
    ensures err { OnErr result (subject.new ≡ subject.old) }
{
    refuse_group(subject.kind)?;
    if subject.has_secret(credential) {
        return Err(LineFault::Refused(PolicyRefusal::Repeated));
    }
    let secret = secret(alloc, text)?;
    subject.set_secret(credential, Some(secret));
    Ok(())
}

fn add_hash(
    alloc: Global,
    subject: &mut Subject,
    credential: Credential,
    text: &[u8],
) -> Result<(), LineFault>
    ensures made { LineMakes result subject.new (hash_given credential text.now subject.old) }
    ensures err { OnErr result (subject.new ≡ subject.old) }
{
    refuse_group(subject.kind)?;
    if subject.has_secret(credential) {
        return Err(LineFault::Refused(PolicyRefusal::Repeated));
    }
    let Some(hash) = Hash::read(text) else {
        return Err(LineFault::Refused(PolicyRefusal::BadValue));
    };
    subject.set_secret(credential, Some(Secret::Hashed(hash)));
    Ok(())
}

// A level of 1 to 4 digits, up to 15.
fn level(text: &[u8]) -> Option<u8>
    ensures { result ≡ level_of text.now }
{
    let level = read_number(text, 4)?;
    if level > 15 {
        return None;
    }
    Some(level as u8)
}

fn add_priv(subject: &mut Subject, text: &[u8]) -> Result<(), LineFault>
    ensures made { LineMakes result subject.new (priv_set text.now subject.old) }
    ensures err { OnErr result (subject.new ≡ subject.old) }
{
    if subject.priv_lvl.is_some() {
        return Err(LineFault::Refused(PolicyRefusal::Repeated));
    }
    let Some(level) = level(text) else {
        return Err(LineFault::Refused(PolicyRefusal::BadValue));
    };
    subject.priv_lvl = Some(level);
    Ok(())
}

/// Adds a line about a service, last. A subject stays as it is where that is refused.
#[tactic(auto, unfolding(crate::specs::Text::with_service))]
pub(crate) fn add_line(subject: &mut Subject, line: ServiceLine) -> Result<(), LineFault>
    ensures made { LineMakes result subject.new (with_service line subject.old) }
    ensures err { OnErr result (subject.new ≡ subject.old) }
{
    if subject.has_clash(&line) {
        return Err(LineFault::Refused(PolicyRefusal::Repeated));
    }
    if !line.is_right() {
        return Err(LineFault::Refused(PolicyRefusal::BadValue));
    }
    if subject.services.len() >= Policy::MAX_SERVICES {
        return Err(LineFault::Refused(PolicyRefusal::Limit));
    }
    subject.push_service(line)?;
    Ok(())
}

// The pattern that a text of this version spells.
fn pattern_in(alloc: Global, version: TextVersion, text: &[u8]) -> Result<Pattern, PatternFault>
    ensures { GivesUnlessMemory is_memory (λ p. p) result (pattern_wanted version text.now) }
{
    match version {
        TextVersion::One => Pattern::read_v1(alloc, text),
        TextVersion::Two | TextVersion::Three => Pattern::read(alloc, text),
    }
}

// A rule's pattern.
fn pattern(alloc: Global, version: TextVersion, text: &[u8]) -> Result<Pattern, LineFault>
    ensures { LineGives result (pattern_read version text.now) }
{
    match pattern_in(alloc, version, text) {
        Ok(pattern) => Ok(pattern),
        Err(PatternFault::Memory) => Err(LineFault::Memory),
        Err(fault) => Err(LineFault::Refused(PolicyRefusal::BadPattern(fault))),
    }
}

#[tactic(auto, unfolding(crate::specs::Text::with_rule))]
fn add_rule(
    alloc: Global,
    subject: &mut Subject,
    version: TextVersion,
    verdict: Verdict,
    text: &[u8],
) -> Result<(), LineFault>
    ensures made { LineMakes result subject.new (rule_added version verdict text.now subject.old) }
    ensures err { OnErr result (subject.new ≡ subject.old) }
{
    let pattern = pattern(alloc, version, text)?;
    if subject.rules.len() >= Policy::MAX_RULES {
        return Err(LineFault::Refused(PolicyRefusal::Limit));
    }
    subject.rules.push(Rule { verdict, pattern })?;
    Ok(())
}
