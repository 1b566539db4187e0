//! The rules that a command's block becomes.

ghost use Rattle.std.specs.Prelude.{◌≡◌, false, true, List, IfOk, IfErr, OnOk, IsOk, IsErr};
ghost use Rattle.basics.specs.Memory.{Except};
ghost use Rattle.posix_expression.specs.Gathered.{lacks};
ghost use Rattle.posix_expression.specs.Memory.{is_memory};
ghost use Rattle.posix_expression.specs.Syntax.{blank};
ghost use Rattle.posix_expression.specs.Writing.{pattern_for};
ghost use Rattle.tac_plus_import.specs.declared.block.PolicyRule.{PolicyRule as PolicyRuleValue};
ghost use Rattle.tac_plus_import.specs.Blocks.{CautiousLaw, IsSure};
ghost use Rattle.tac_plus_import.specs.Drafts.{Adds, Ends, Keeps, Tells, told, KeptLaw};
ghost use Rattle.tac_plus_import.specs.Joining.{AreAdded, AreSoFar, is_over};
ghost use Rattle.tac_plus_import.specs.Rules.{Says};

use crate::block::{Block, PolicyRule, ran_out};
use crate::draft::Draft;
use crate::remark::What;
use pol_names::Verdict;
use posix_expression::{Older, Unsaid};
use tac_plus_file::{Command, Rule};

impl Draft {
    // Tells of a rule.
    fn tell_rule(&mut self, rule: &Rule, why: &str, after: &str)
        ensures keeps { Keeps self.old self.new }
        ensures tells { Tells self.old self.new }
    {
        let before = match rule.verdict {
            Verdict::Permit => "permit ",
            Verdict::Deny => "deny ",
        };
        let word = rule.expression.as_slice();
        self.remark(rule.line, before, word, &[": ", why, after], true);
    }

    // That a rule can't be said.
    fn tell_unsaid(&mut self, rule: &Rule, why: Unsaid)
        ensures keeps { Keeps self.old self.new }
        ensures tells { Tells self.old self.new }
    {
        let after = match rule.verdict {
            Verdict::Permit => ": left out",
            Verdict::Deny => ": the command is denied from here on",
        };
        self.tell_rule(rule, why.text(), after);
    }

    // That older expressions read a rule otherwise, if they do. It is said as the C library reads it.
    fn tell_older(&mut self, rule: &Rule)
        ensures { Keeps self.old self.new }
    {
        if let Some(older) = Older::find(rule.expression.as_slice()) {
            self.tell_rule(rule, older.text(), ": that reading is left out");
        }
    }

    // Adds the rules of a block to those of a policy, and answers whether these decide all lines of
    // the command. A rule that permits and can't be said is left out. One that denies has to keep
    // what follows it from permitting, so the command is denied from there on. Where the subject
    // may have no more rules, the rest isn't looked at.
    fn add_rules(&mut self, block: &mut Block, rules: &[Rule]) -> Result<bool, Unsaid>
        ensures added { IfOk result
            (λ all. AreAdded self.old self.new block.old block.new rules.now all) }
        ensures memory { IfErr result (λ why. is_memory why ≡ true) }
    {
        let room = self.room_for_rules();
        'rules: for rule in rules {
            if block.has_more_than(room) {
                return Ok(false);
            }
            self.tell_older(rule);
            match block.add(rule) {
                Ok(true) => return Ok(true),
                Ok(false) => {}
                Err(why) => {
                    if ran_out(why) {
                        return Err(why);
                    }
                    self.tell_unsaid(rule, why);
                    if rule.verdict == Verdict::Deny {
                        block.deny_rest()?;
                        return Ok(true);
                    }
                }
            }
        }
        Ok(false)
    }

    // The rules that say what a block does, or why no policy has rules about all its lines.
    fn rules_of(
        &mut self,
        command: &Command,
        is_decided_below: bool,
    ) -> Result<Vec<PolicyRule>, Unsaid>
        ensures said { IfOk result (λ it. (rules : List PolicyRuleValue)
            × Says command.now.name command.now.rules.items is_decided_below rules
            × AreSoFar self.old it.items rules) }
        ensures sure { IfOk result (λ it. is_over self.old it.items ≡ false
            → self.old.is_quiet ≡ false → lacks self.new.policy ≡ false
            → told self.new ≡ told self.old
            → IsSure command.now.name command.now.rules.items) }
        ensures keeps { OnOk result (Keeps self.old self.new) }
        ensures able { OnOk result (IsOk (pattern_for command.now.name blank)) }
        ensures unsaid { IfErr result (λ why. Except (is_memory why)
            ((pattern_for command.now.name blank ≡ Err why) × (self.new ≡ self.old))) }
    {
        let mut block = Block::new(self.alloc, command.name.as_slice())?;
        let decides_all = self.add_rules(&mut block, &command.rules)?;
        let rules = block.into_rules(is_decided_below && !decides_all)?;
        Ok(rules)
    }

    // Writes rules, as far as the subject may have them.
    fn push_rules(&mut self, rules: &[PolicyRule])
        ensures tells { told self.new ≡ told self.old }
        ensures adds { lacks self.new.policy ≡ false → Adds self.old rules.now self.new }
    {
        'rules: for rule in rules {
            self.push_rule(rule.verdict, rule.pattern.source());
        }
    }

    /// Adds the rules of a command. Where others may decide on it below, its last rule denies what
    /// none of them decides. Where a pattern that denies the command would be longer than any, all
    /// else is denied.
    pub(crate) fn push_command(&mut self, command: &Command, is_decided_below: bool)
        // Rules are added that say what the block does, as many as the subject may have.
        ensures said { IsOk (pattern_for command.now.name blank) → lacks self.new.policy ≡ false
            → (rules : List PolicyRuleValue)
            × Says command.now.name command.now.rules.items is_decided_below rules
            × Adds self.old rules self.new }

        // Where no pattern denies the command, all else is denied.
        ensures denied { IsErr (pattern_for command.now.name blank)
            → lacks self.new.policy ≡ false → Ends self.old self.new }

        // Unless something is told, what the block answers doesn't depend on what can't be said.
        ensures sure { self.old.is_quiet ≡ false → lacks self.new.policy ≡ false
            → self.new.is_full ≡ false → told self.new ≡ told self.old
            → IsSure command.now.name command.now.rules.items }

        // What these rules permit the block permits, also where not all are written, and whatever
        // an expression finds that can't be said.
        ensures kept { KeptLaw }
        ensures law { CautiousLaw }
    {
        if self.is_full {
            return;
        }
        match self.rules_of(command, is_decided_below) {
            Ok(rules) => self.push_rules(&rules),
            Err(why) => {
                if ran_out(why) {
                    self.policy.cut();
                } else {
                    self.deny_rest(What::LONG_COMMAND);
                }
            }
        }
    }
}
