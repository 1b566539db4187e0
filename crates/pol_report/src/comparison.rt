//! Two policies that are compared.

ghost use Rattle.std.specs.Prelude.{◌≡◌, [], IfOk, IsTrue};
ghost use Rattle.std.specs.Option.{option_copied};
ghost use Rattle.pol_pattern.specs.Matching.{MatchLaw};
ghost use Rattle.pol_automaton.specs.Automaton.{IsDecider};
ghost use Rattle.pol_meaning.specs.Along.{entries_of, patterns_of};
ghost use Rattle.pol_text.specs.Policy.{find_subject};
ghost use Rattle.pol_meaning.specs.LineChanges.{permits};
ghost use Rattle.pol_live.specs.Live.{IsDeciderFor};
ghost use Rattle.pol_given.specs.Given.{service_arguments, shell_arguments};
ghost use Rattle.pol_names.specs.declared.service.ServiceId.{ServiceId as ServiceValue};
ghost use Rattle.pol_report.specs.Sharing.{along};
ghost use Rattle.pol_report.specs.Comparing.{later_policy, IsLaterOf};

use crate::saying::all_alike;
use pol_automaton::{Decider, DeciderFault, Meter};
use pol_given::says_the_same;
use pol_live::{Live, Prepared};
use pol_names::{Name, SubjectId, Verdict};
use pol_text::Policy;
use std::alloc::{AllocError, Global};
use std::marker::Model;

/// The later of two policies.
#[derive(Clone, Copy)]
pub(crate) enum Later<'a> {
    /// Whichever policy.
    Other(&'a Live),
    /// What edits make of the earlier policy.
    Edited(&'a Prepared),
}

impl<'a> Later<'a> {
    /// The policy.
    pub(crate) fn policy(self) -> &'a Policy
        ensures { result.now ≡ later_policy self.entry }
    {
        match self {
            Later::Other(live) => live.policy(),
            Later::Edited(prepared) => prepared.policy(),
        }
    }

    /// Whether the user is permitted the empty line, which asks for a shell. Read off the automaton
    /// of the user's rules.
    pub(crate) fn permits_shell(self, user: &Name) -> bool
        ensures { result ≡ permits (later_policy self.entry) user.now [] }
    {
        let decision = match self {
            Later::Other(live) => live.decide(user, b""),
            Later::Edited(prepared) => prepared.decide(user, b""),
        };
        match decision {
            Some(decision) => decision.verdict == Verdict::Permit,
            None => false,
        }
    }

    // The automaton of the rules along a subject's chain. Nothing where there is no such subject.
    fn decider(self, id: &SubjectId) -> Option<&'a Decider>
        ensures decider { IsDeciderFor (later_policy self.entry)
            (find_subject id.now (later_policy self.entry)) (option_copied result) }
        ensures law { MatchLaw }
    {
        match self {
            Later::Other(live) => live.decider(id),
            Later::Edited(prepared) => prepared.decider(id),
        }
    }
}

/// Two policies that are compared. Contracts see both.
pub(crate) struct Comparison<'a> {
    old: &'a Live,
    new: Later<'a>,
    // of no rules: by it who isn't in a policy is denied every line
    nobody: Decider,
    // whether all subjects are the same but for their secrets and rules
    alike: bool,
}

// By hand, so that a proof of an owner has one call at each exit, not a drop of each field.
impl<'a> Drop for Comparison<'a> {
    fn drop(self) {
        let Comparison {
            old: _,
            new: _,
            nobody: _,
            alike: _,
        } = self;
    }
}

impl<'a> Model for Comparison<'a> {
    ghost use Rattle.std.specs.Prelude.{◌≡◌, [], IsTrue};
    ghost use Rattle.pol_automaton.specs.Automaton.{IsDecider};
    ghost use Rattle.pol_live.specs.Live.{Step};
    ghost use Rattle.pol_report.specs.Comparing.{later_policy, IsLaterOf};
    ghost use Rattle.pol_report.specs.Saying.{stands};

    ghost Value = { Step };

    ghost view = { λ policies. record {
      before = policies.old.now;
      after = later_policy policies.new;
    } };

    ghost invariant = { λ policies. IsLaterOf policies.new policies.old.now
        × (IsDecider policies.nobody []) × (IsTrue policies.alike
        → stands policies.old.now ≡ stands (later_policy policies.new)) };
}

fn no_rules(alloc: Global) -> Result<Decider, AllocError>
    ensures { IfOk result (λ nobody. IsDecider nobody []) }
{
    let mut meter = Meter::new();
    match Decider::own(alloc, &[], 1, &mut meter) {
        Ok(nobody) => Ok(nobody),
        Err(DeciderFault::Memory) => Err(AllocError),
        // after each line, what is left of no rules is the same
        Err(DeciderFault::TooManyStates) => unreachable!(),
    }
}

impl<'a> Comparison<'a> {
    /// What a policy is compared with may be any other, or what edits make of it.
    pub(crate) fn new(
        alloc: Global,
        old: &'a Live,
        new: Later<'a>,
    ) -> Result<Comparison<'a>, AllocError>
        requires { IsLaterOf new old.now }
        ensures { IfOk result (λ policies.
            policies ≡ record { before = old.now; after = later_policy new.entry }) }
    {
        let nobody = no_rules(alloc)?;
        let alike = all_alike(old.policy().subjects(), new.policy().subjects());
        Ok(Comparison {
            old,
            new,
            nobody,
            alike,
        })
    }

    /// The old policy.
    pub(crate) fn old_policy(&self) -> &Policy
        ensures { result.now ≡ self.now.before }
    {
        self.old.policy()
    }

    /// The new policy.
    pub(crate) fn new_policy(&self) -> &Policy
        ensures { result.now ≡ self.now.after }
    {
        self.new.policy()
    }

    /// The old policy, with its automata.
    pub(crate) fn before(&self) -> Later<'a>
        ensures { later_policy result ≡ self.now.before }
    {
        Later::Other(self.old)
    }

    /// The new policy, with its automata.
    pub(crate) fn after(&self) -> Later<'a>
        ensures { later_policy result ≡ self.now.after }
    {
        self.new
    }

    /// Whether a subject is to be skipped, since the edits leave the rules along its chain. Of two
    /// policies that no edit ties together nothing is known before it is searched for.
    pub(crate) fn skips(&self, id: &SubjectId) -> bool
        ensures { IsTrue result → along self.now.before id.now ≡ along self.now.after id.now }
    {
        match self.new {
            Later::Other(_) => false,
            Later::Edited(prepared) => prepared.leaves(id),
        }
    }

    /// Whether it is plain that both policies give the user the same for each service, where they
    /// grant it: all along the chain the same is said of levels and of services. Where that is so
    /// for all subjects, it takes no look-up.
    pub(crate) fn gives_the_same(&self, user: &Name) -> bool
        ensures services { IsTrue result → (service : ServiceValue)
            → service_arguments self.now.before user.now service
            ≡ service_arguments self.now.after user.now service }
        ensures shell { IsTrue result → shell_arguments self.now.before user.now
            ≡ shell_arguments self.now.after user.now }
    {
        self.alike || says_the_same(self.old_policy(), self.new_policy(), user)
    }

    /// The automaton of the rules that a subject has along its chain in the old policy.
    pub(crate) fn decider_before(&self, id: &SubjectId) -> &Decider
        ensures decider { IsDecider result.now (patterns_of (entries_of self.now.before id.now)) }
        ensures law { MatchLaw }
    {
        match self.old.decider(id) {
            Some(decider) => decider,
            None => &self.nobody,
        }
    }

    /// The automaton of the rules that a subject has along its chain in the new policy.
    pub(crate) fn decider_after(&self, id: &SubjectId) -> &Decider
        ensures decider { IsDecider result.now (patterns_of (entries_of self.now.after id.now)) }
        ensures law { MatchLaw }
    {
        match self.new.decider(id) {
            Some(decider) => decider,
            None => &self.nobody,
        }
    }
}
