//! Reading a policy's text: its lines, and then whether its chains are right.

ghost use Rattle.std.specs.Prelude.{◌≡◌, ◌≤◌, ℕ, List, length, false, ok_or, Ok, Err, IfOk, codes};
ghost use Rattle.std.specs.Prelude.{◌&&◌, bytes_eq};
ghost use Rattle.basics.specs.Lines.{split_at_first, lines_of};
ghost use Rattle.pol_text.specs.Draft.{LineGives, LineMakes, at_place};
ghost use Rattle.pol_text.specs.Setting.{with_heading, with_setting};
ghost use Rattle.pol_text.specs.Text.{Draft as DraftValue};
ghost use Rattle.pol_text.specs.Policy.{WellFormed, TellsEndless};
ghost use Rattle.pol_text.specs.Spelling.{Spells};
ghost use Rattle.pol_text.specs.Text.{IsUnlessMemory, named as name_wanted, is_field as field_test};
ghost use Rattle.pol_text.specs.Text.{with_parent, heading as heading_wanted};
ghost use Rattle.pol_text.specs.Text.{with_words, with_trimmed, with_line, with_body, policy_of};
ghost use Rattle.pol_text.specs.Text.{body_of as body_wanted, allowed_by, refused_by};
ghost use Rattle.pol_text.specs.Versions.{has_services};
ghost use Rattle.pol_names.specs.Service.{service_of};
ghost use Rattle.pol_text.specs.declared.fault.PolicyRefusal.TheVariants.{BadName};
ghost use Rattle.pol_text.specs.declared.fault.PolicyFault.TheVariants.{Refused};
ghost use Rattle.pol_text.specs.declared.fault.PolicyRefusal.{PolicyRefusal as RefusalValue};
ghost use Rattle.pol_text.specs.declared.subject.Subject.{Subject as SubjectValue};

use crate::draft::Draft;
use crate::fault::{LineFault, PolicyFault, PolicyRefusal};
use crate::policy::Policy;
use crate::setting::Setting;
use crate::version::TextVersion;
use basics::{Bytes, Lines, is_text, split_once, without_leading_spaces};
use pol_names::{Credential, Kind, Name, Says, ServiceId, ServiceLine, Verdict};
use std::alloc::Global;

fn named(text: &[u8]) -> Result<Name, PolicyRefusal>
    ensures { result ≡ name_wanted text.now }
{
    match Name::read(text) {
        Some(name) => Ok(name),
        None => Err(PolicyRefusal::BadName),
    }
}

fn is_field(text: &[u8]) -> bool
    ensures { result ≡ field_test text.now }
{
    split_once(text, b' ').is_none()
}

// `NAME in PARENT`: the name, and what follows it and a space.
#[tactic(auto, unfolding(crate::specs::Text::with_parent))]
fn heading_below(name: &[u8], rest: &[u8]) -> Result<(Name, Option<Name>), PolicyRefusal>
    ensures { result ≡ with_parent name.now rest.now }
{
    let Some((word, parent)) = split_once(rest, b' ') else {
        return Err(PolicyRefusal::BadLine);
    };
    if word != b"in".as_slice() || !is_field(parent) {
        return Err(PolicyRefusal::BadLine);
    }
    let name = named(name)?;
    let parent = named(parent)?;
    Ok((name, Some(parent)))
}

// `NAME` or `NAME in PARENT`, after the first word.
#[tactic(auto, unfolding(crate::specs::Text::heading))]
fn heading(rest: &[u8]) -> Result<(Name, Option<Name>), PolicyRefusal>
    ensures { result ≡ heading_wanted rest.now (split_at_first 32 rest.now) }
{
    match split_once(rest, b' ') {
        Some((name, rest)) => heading_below(name, rest),
        None => {
            let name = named(rest)?;
            Ok((name, None))
        }
    }
}

// A line that begins a subject, after its first word.
fn add_subject(
    alloc: Global,
    draft: &mut Draft,
    number: usize,
    kind: Kind,
    rest: &[u8],
) -> Result<(), LineFault>
    ensures { LineMakes result draft.new (with_heading number kind rest.now draft.old) }
{
    let (name, parent) = heading(rest)?;
    draft.add_subject(alloc, number, kind, name, parent)
}

fn service(text: &[u8]) -> Result<ServiceId, PolicyRefusal>
    ensures { result ≡ ok_or (service_of text.now) BadName }
{
    match ServiceId::read(text) {
        Some(service) => Ok(service),
        None => Err(PolicyRefusal::BadName),
    }
}

// The line that has this after `service `.
fn allowed(alloc: Global, rest: &[u8]) -> Result<ServiceLine, LineFault>
    ensures { LineGives result (allowed_by rest.now) }
{
    match split_once(rest, b' ') {
        Some((name, text)) => {
            let service = service(name)?;
            let attribute = Bytes::from_slice(alloc, text)?;
            let says = Says::Allows(Some(attribute));
            Ok(ServiceLine { service, says })
        }
        None => {
            let service = service(rest)?;
            let says = Says::Allows(None);
            Ok(ServiceLine { service, says })
        }
    }
}

// The line that has this after `refuse `.
fn refused(rest: &[u8]) -> Result<ServiceLine, PolicyRefusal>
    ensures { result ≡ refused_by rest.now }
{
    if !is_field(rest) {
        return Err(PolicyRefusal::BadLine);
    }
    let service = service(rest)?;
    let says = Says::Refuses;
    Ok(ServiceLine { service, says })
}

// What a line of this first word sets; nothing for a word that begins no such line.
#[tactic(auto, unfolding(crate::specs::Text::with_words))]
fn setting_of<'a>(version: TextVersion, word: &[u8], rest: &'a [u8]) -> Option<Setting<'a>>
    requires group { bytes_eq word.now (codes "group") ≡ false }
    requires user { bytes_eq word.now (codes "user") ≡ false }
    requires service { bytes_eq word.now (codes "service") && has_services version ≡ false }
    requires refuse { bytes_eq word.now (codes "refuse") && has_services version ≡ false }
    ensures { (number : ℕ) (draft : DraftValue) →
        with_words version number word.now rest.now draft ≡ with_setting result draft }
{
    if word == b"login".as_slice() {
        return Some(Setting::Secret(Credential::Login, rest));
    }
    if word == b"enable".as_slice() {
        return Some(Setting::Secret(Credential::Enable, rest));
    }
    if word == b"login-hash".as_slice() && version.has_hashes() {
        return Some(Setting::Hash(Credential::Login, rest));
    }
    if word == b"enable-hash".as_slice() && version.has_hashes() {
        return Some(Setting::Hash(Credential::Enable, rest));
    }
    if word == b"priv".as_slice() {
        return if is_field(rest) {
            Some(Setting::Priv(rest))
        } else {
            None
        };
    }
    if word == b"permit".as_slice() {
        return Some(Setting::Rule(version, Verdict::Permit, rest));
    }
    if word == b"deny".as_slice() {
        return Some(Setting::Rule(version, Verdict::Deny, rest));
    }
    None
}

// A line of this first word, which a space follows.
#[tactic(auto, unfolding(crate::specs::Text::with_words))]
fn add_words(
    alloc: Global,
    draft: &mut Draft,
    version: TextVersion,
    number: usize,
    word: &[u8],
    rest: &[u8],
) -> Result<(), LineFault>
    ensures { LineMakes result draft.new (with_words version number word.now rest.now draft.old) }
{
    if word == b"group".as_slice() {
        return add_subject(alloc, draft, number, Kind::Group, rest);
    }
    if word == b"user".as_slice() {
        return add_subject(alloc, draft, number, Kind::User, rest);
    }
    if word == b"service".as_slice() && version.has_services() {
        let line = allowed(alloc, rest)?;
        return draft.say(line);
    }
    if word == b"refuse".as_slice() && version.has_services() {
        let line = refused(rest)?;
        return draft.say(line);
    }
    match setting_of(version, word, rest) {
        Some(setting) => draft.change_present(alloc, setting),
        None => Err(LineFault::Refused(PolicyRefusal::BadLine)),
    }
}

#[tactic(auto, unfolding(crate::specs::Text::with_trimmed))]
fn add_trimmed(
    alloc: Global,
    draft: &mut Draft,
    version: TextVersion,
    number: usize,
    line: &[u8],
) -> Result<(), LineFault>
    ensures { LineMakes result draft.new (with_trimmed version number line.now draft.old) }
{
    if let [] | [b'#', ..] = line {
        return Ok(());
    }
    let Some((word, rest)) = split_once(line, b' ') else {
        return Err(LineFault::Refused(PolicyRefusal::BadLine));
    };
    add_words(alloc, draft, version, number, word, rest)
}

// Adds to the draft what one more line says.
#[tactic(auto, unfolding(crate::specs::Text::with_line))]
fn add_line(
    alloc: Global,
    draft: &mut Draft,
    version: TextVersion,
    number: usize,
    line: &[u8],
) -> Result<(), LineFault>
    ensures { LineMakes result draft.new (with_line version number line.now draft.old) }
{
    if !is_text(line) {
        return Err(LineFault::Refused(PolicyRefusal::BadLine));
    }
    add_trimmed(alloc, draft, version, number, without_leading_spaces(line))
}

fn at_line(line: usize, fault: LineFault) -> PolicyFault
    ensures { result ≡ at_place line fault }
{
    match fault {
        LineFault::Refused(refusal) => PolicyFault::Refused { line, refusal },
        LineFault::Memory => PolicyFault::Memory,
    }
}

/// The version of a policy's text, and its lines but for the one that says the version: a text is
/// of version 2 if its first line is exactly `policy 2`, and of version 3 if it is `policy 3`.
pub fn body_of(text: &[u8]) -> (TextVersion, Lines<'_>)
    ensures { let body = body_wanted (lines_of text.now) in (result.0 ≡ body.version)
        × (result.1.number ≡ body.number) × (result.1.lines ≡ body.lines) }
{
    let mut lines = Lines::new(text);
    match lines.take_line() {
        Some((_, line)) if line == b"policy 2".as_slice() => (TextVersion::Two, lines),
        Some((_, line)) if line == b"policy 3".as_slice() => (TextVersion::Three, lines),
        _ => (TextVersion::One, Lines::new(text)),
    }
}

// The subjects of all lines. Expected time linear in the text.
fn read_lines(alloc: Global, text: &[u8]) -> Result<Draft, PolicyFault>
    ensures { IsUnlessMemory (λ draft. draft) result (with_body (body_wanted (lines_of text.now))) }
{
    let (version, mut lines) = body_of(text);
    let mut draft = Draft::new(alloc);
    'lines: while let Some((number, line)) = lines.take_line() {
        if let Err(fault) = add_line(alloc, &mut draft, version, number, line) {
            return Err(at_line(number, fault));
        }
    }
    Ok(draft)
}

// The policy that a text says.
#[tactic(auto, unfolding(crate::specs::Text::policy_of))]
fn read_policy(alloc: Global, text: &[u8]) -> Result<Policy, PolicyFault>
    ensures exact { IsUnlessMemory (λ policy. policy) result (policy_of text.now) }
    ensures well_formed { IfOk result WellFormed }
{
    let draft = read_lines(alloc, text)?;
    draft.finish()
}

impl Policy {
    /// Reads a policy's text (docs/POLICY.md): the policy that it says, or the first fault with its
    /// line.
    ///
    /// A line of a subject takes no look-up, a line that begins one takes two hash look-ups, and
    /// the chains of what is accepted have at most 8 subjects. So an accepted text takes expected
    /// time linear in its length, up to a logarithm. A refused one takes at most 1,024 look-ups
    /// more for each of its subjects.
    pub fn read(alloc: Global, text: &[u8]) -> Result<Policy, PolicyFault>
        ensures exact { IsUnlessMemory (λ policy. policy) result (policy_of text.now) }
        ensures well_formed { IfOk result WellFormed }

        // What is read is spelled so.
        ensures found { IfOk result (λ policy. Spells text.now policy) }

        // What is spelled so is read, unless memory runs out.
        ensures only { (policy : List SubjectValue) → Spells text.now policy →
            IsUnlessMemory (λ policy. policy) result (Ok policy) }

        // The line of a refusal is one of the text's.
        ensures place { (line : ℕ) (refusal : RefusalValue) →
            result ≡ Err (Refused line refusal) → line ≤ length text.now }

        // What is refused as a cycle is exactly a chain that doesn't end.
        ensures endless { (policy : List SubjectValue) → TellsEndless policy }
    {
        read_policy(alloc, text)
    }
}
