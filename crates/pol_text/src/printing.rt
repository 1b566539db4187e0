//! Printing a policy's text.

ghost use Rattle.std.specs.Prelude.{◌≡◌, Ok, ◌++◌, ◌∷◌, [], codes, map, IfOk, OnOk};
ghost use Rattle.std.specs.Fmt.{decimal};
ghost use Rattle.std.specs.List.{list_any};
ghost use Rattle.pol_names.specs.Kept.{secret_line};
ghost use Rattle.pol_names.specs.Service.{line_text, service_text};
ghost use Rattle.pol_text.specs.Text.{heading_line, line_for, rule_line, subject_lines};
ghost use Rattle.pol_text.specs.Text.{text_of_lines, text_of, policy_of};
ghost use Rattle.pol_text.specs.Text.{is_hashed as hashed_test, needs_third as third_test};
ghost use Rattle.pol_text.specs.Text.{first_line as first_wanted};

use crate::policy::Policy;
use crate::subject::{Rule, Subject};
use basics::Bytes;
use pol_names::{Credential, Says, Secret, ServiceId, ServiceLine};
use std::alloc::{AllocError, Global};

// Two parts of a line, and LF.
fn print_line(text: &mut Bytes, front: &[u8], back: &[u8]) -> Result<(), AllocError>
    ensures { OnOk result
        (text.new ≡ text.old ++ text_of_lines ((front.now ++ back.now) ∷ [])) }
{
    text.extend_from_slice(front)?;
    text.extend_from_slice(back)?;
    text.push(b'\n')?;
    Ok(())
}

// The line that begins a subject.
fn print_heading(text: &mut Bytes, subject: &Subject) -> Result<(), AllocError>
    ensures { OnOk result
        (text.new ≡ text.old ++ text_of_lines (heading_line subject.now ∷ [])) }
{
    text.extend_from_slice(subject.kind.keyword().as_bytes())?;
    let name = subject.name.as_slice();
    match &subject.parent {
        Some(parent) => {
            text.extend_from_slice(name)?;
            print_line(text, b" in ", parent.as_slice())
        }
        None => print_line(text, name, b""),
    }
}

// A secret's line.
fn print_one(text: &mut Bytes, credential: Credential, secret: &Secret) -> Result<(), AllocError>
    ensures { OnOk result (text.new
        ≡ text.old ++ text_of_lines (secret_line credential secret.now ∷ [])) }
{
    match secret {
        Secret::Clear(secret) => {
            print_line(text, credential.keyword().as_bytes(), secret.as_slice())
        }
        Secret::Hashed(hash) => {
            let spelled = hash.text();
            print_line(
                text,
                credential.hash_keyword().as_bytes(),
                spelled.as_slice(),
            )
        }
    }
}

// A secret's line, if it is set.
fn print_secret(
    text: &mut Bytes,
    credential: Credential,
    secret: &Option<Secret>,
) -> Result<(), AllocError>
    ensures { OnOk result (text.new
        ≡ text.old ++ text_of_lines (line_for (secret_line credential) secret.now)) }
{
    match secret {
        Some(secret) => print_one(text, credential, secret),
        None => Ok(()),
    }
}

// The level's line, if it is set.
fn print_level(alloc: Global, text: &mut Bytes, level: Option<u8>) -> Result<(), AllocError>
    ensures { OnOk result (text.new
        ≡ text.old ++ text_of_lines (line_for (λ level. codes "priv " ++ decimal level) level)) }
{
    match level {
        Some(level) => {
            let digits = format!(in alloc; "{level}")?;
            print_line(text, b"priv ", digits.as_bytes())
        }
        None => Ok(()),
    }
}

// A line about a service.
fn print_service(text: &mut Bytes, line: &ServiceLine) -> Result<(), AllocError>
    ensures { OnOk result (text.new ≡ text.old ++ text_of_lines (line_text line.now ∷ [])) }
{
    text.extend_from_slice(line.keyword().as_bytes())?;
    print_name(text, &line.service)?;
    match &line.says {
        Says::Allows(Some(attribute)) => print_line(text, b" ", attribute.as_slice()),
        Says::Allows(None) | Says::Refuses => print_line(text, b"", b""),
    }
}

// A service, without an end of line.
fn print_name(text: &mut Bytes, service: &ServiceId) -> Result<(), AllocError>
    ensures { OnOk result (text.new ≡ text.old ++ service_text service.now) }
{
    text.extend_from_slice(service.name.as_slice())?;
    match &service.protocol {
        Some(protocol) => {
            text.extend_from_slice(b"/")?;
            text.extend_from_slice(protocol.as_slice())
        }
        None => Ok(()),
    }
}

fn print_services(text: &mut Bytes, lines: &[ServiceLine]) -> Result<(), AllocError>
    ensures { OnOk result (text.new ≡ text.old ++ text_of_lines (map line_text lines.now)) }
{
    'lines: for line in lines {
        print_service(text, line)?;
    }
    Ok(())
}

fn print_rules(text: &mut Bytes, rules: &[Rule]) -> Result<(), AllocError>
    ensures { OnOk result (text.new ≡ text.old ++ text_of_lines (map rule_line rules.now)) }
{
    'rules: for rule in rules {
        print_line(
            text,
            rule.verdict.keyword().as_bytes(),
            rule.pattern.source(),
        )?;
    }
    Ok(())
}

// A subject with its settings, services and rules.
fn print_subject(alloc: Global, text: &mut Bytes, subject: &Subject) -> Result<(), AllocError>
    ensures { OnOk result (text.new ≡ text.old ++ text_of_lines (subject_lines subject.now)) }
{
    print_heading(text, subject)?;
    print_secret(text, Credential::Login, &subject.login)?;
    print_secret(text, Credential::Enable, &subject.enable)?;
    print_level(alloc, text, subject.priv_lvl)?;
    print_services(text, subject.services.as_slice())?;
    print_rules(text, subject.rules.as_slice())
}

// Whether it is a hash.
fn is_hashed(secret: &Option<Secret>) -> bool
    ensures { result ≡ hashed_test secret.now }
{
    matches!(secret, Some(Secret::Hashed(_)))
}

// Whether the subject has what only version 3 can say.
fn needs_third(subject: &Subject) -> bool
    ensures { result ≡ third_test subject.now }
{
    is_hashed(&subject.login) || is_hashed(&subject.enable) || !subject.services.is_empty()
}

fn any_needs_third(subjects: &[Subject]) -> bool
    ensures { result ≡ list_any third_test subjects.now }
{
    subjects.iter().any(|subject| needs_third(subject))
}

// The first line of the least version that can say these subjects.
fn first_line(subjects: &[Subject]) -> &'static [u8]
    ensures { result.now ≡ first_wanted subjects.now }
{
    if any_needs_third(subjects) {
        return b"policy 3";
    }
    b"policy 2"
}

impl Policy {
    /// The policy's text in its printed form: the line that says its version, and then every
    /// subject in order, with its settings and its rules, one line each. It is of version 3 if
    /// some secret is a hash, else of version 2. The error means that memory ran out.
    #[tactic(auto, unfolding(crate::specs::Text::text_of))]
    pub fn print(&self, alloc: Global) -> Result<Bytes, AllocError>
        ensures text { IfOk result (λ text. text ≡ text_of self.now) }

        // Reading it again gives the same policy.
        ensures again { policy_of (text_of self.now) ≡ Ok self.now }
    {
        let all = self.subjects();
        let mut text = Bytes::new(alloc);
        print_line(&mut text, first_line(all), b"")?;
        'subjects: for subject in all {
            print_subject(alloc, &mut text, subject)?;
        }
        Ok(text)
    }
}
