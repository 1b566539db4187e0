//! The rules of a policy that say what a block about a command does.

ghost use Rattle.std.specs.Prelude.{◌≡◌, ℕ, Bool, true, nat_lt, List, [], ◌∷◌, ◌++◌, Some, None};
ghost use Rattle.std.specs.Prelude.{IfOk, IfErr, IfSome, IsSome, OnOk, length};
ghost use Rattle.std.specs.Option.{ForSome};
ghost use Rattle.basics.specs.Memory.{Except, GivesUnlessMemory};
ghost use Rattle.posix_expression.specs.Finding.{Finds};
ghost use Rattle.posix_expression.specs.Memory.{is_memory};
ghost use Rattle.posix_expression.specs.Searched.{searched};
ghost use Rattle.posix_expression.specs.Syntax.{blank};
ghost use Rattle.posix_expression.specs.Writing.{pattern_for};
ghost use Rattle.tac_plus_import.specs.Lines.{IsWritten};

use basics::Bytes;
use pol_names::Verdict;
use pol_pattern::Pattern;
use posix_expression::{Search, Unsaid};
use std::alloc::{AllocError, Global};
use tac_plus_file::Rule;

/// Whether memory ran out.
pub(crate) fn ran_out(why: Unsaid) -> bool
    ensures { result ≡ is_memory why }
{
    matches!(why, Unsaid::Memory)
}

/// A rule of a policy.
#[derive(Drop)]
pub(crate) struct PolicyRule {
    pub(crate) verdict: Verdict,
    pub(crate) pattern: Pattern,
}

// A rule, and what its pattern searches for.
#[derive(Drop)]
struct Sought {
    search: Search,
    rule: PolicyRule,
}

impl Sought {
    ghost use Rattle.tac_plus_import.specs.Joining.{DecideAlike};

    // The rule that decides what either decides, if both have one verdict and one pattern may say
    // both.
    fn joined(&self, alloc: Global, name: &[u8], next: &Sought) -> Result<Option<Sought>, Unsaid>
        requires here { IsWritten name.now (searched self.now.search) self.now.rule.pattern }
        requires there { IsWritten name.now (searched next.now.search) next.now.rule.pattern }
        ensures pattern { IfOk result (λ both. IfSome both
            (λ it. IsWritten name.now (searched it.search) it.rule.pattern)) }
        ensures alike { IfOk result (λ both. IfSome both
            (λ it. DecideAlike (it.rule ∷ []) (self.now.rule ∷ next.now.rule ∷ []))) }
        ensures memory { IfErr result (λ why. is_memory why ≡ true) }
    {
        if self.rule.verdict != next.rule.verdict {
            return Ok(None);
        }
        let verdict = next.rule.verdict;
        let Some(search) = self.search.or(alloc, &next.search)? else {
            return Ok(None);
        };
        match search.pattern(alloc, name) {
            Ok(pattern) => Ok(Some(Sought {
                search,
                rule: PolicyRule { verdict, pattern },
            })),
            Err(Unsaid::Memory) => Err(Unsaid::Memory),
            Err(_) => Ok(None),
        }
    }
}

/// What rules of a policy say of a command, one after another. Neighbours of one verdict are joined
/// where one pattern may say both.
pub(crate) struct Block {
    alloc: Global,
    name: Bytes,
    // holds each line of the command
    any_line: Pattern,
    rules: Vec<PolicyRule>,
    // the last rule, with which one more may be joined
    last: Option<Sought>,

    ghost any_line_is: { IsWritten name blank any_line },
    ghost last_is: { ForSome last (λ it. IsWritten name (searched it.search) it.rule.pattern) },
}

// By hand, so that a proof of an owner has one call at each exit, not a drop of each field.
impl Drop for Block {
    fn drop(self) {
        let Block {
            alloc: _,
            name: _,
            any_line: _,
            rules: _,
            last: _,
        } = self;
    }
}

impl Block {
    ghost use Rattle.pol_names.specs.declared.decision.Verdict.TheVariants.{Deny};
    ghost use Rattle.tac_plus_import.specs.Blocks.{said};
    ghost use Rattle.tac_plus_import.specs.Joining.{DecideAlike, IsAbout, of_verdict, listed};
    ghost use Rattle.tac_plus_import.specs.Joining.{denial};

    /// No rules about a command, or why a policy can have none that deny all its lines.
    pub(crate) fn new(alloc: Global, name: &[u8]) -> Result<Block, Unsaid>
        ensures exact { GivesUnlessMemory is_memory (λ block. block.any_line) result
            (pattern_for name.now blank) }
        ensures none { IfOk result (λ block. (block.name ≡ name.now) × (listed block ≡ [])) }
    {
        let any = Search::everything();
        let any_line = any.pattern(alloc, name)?;
        let name = Bytes::from_slice(alloc, name)?;
        Ok(Block {
            alloc,
            name,
            any_line,
            rules: Vec::new(alloc),
            last: None,
        })
    }

    /// Whether there are more rules than so many, without the last.
    pub(crate) fn has_more_than(&self, most: usize) -> bool
        ensures { result ≡ nat_lt most (length self.now.rules.items) }
    {
        self.rules.len() > most
    }

    // Nothing is joined with the last rule any more.
    fn settle(&mut self) -> Result<(), AllocError>
        ensures rules { OnOk result (self.new.rules.items ≡ listed self.old) }
        ensures none { OnOk result (self.new.last ≡ None) }
        ensures about { IsAbout self.old self.new }
    {
        if let Some(last) = self.last.take() {
            self.rules.push(last.rule)?;
        }
        Ok(())
    }

    // One more rule.
    fn push(&mut self, next: Sought) -> Result<(), Unsaid>
        requires { IsWritten self.old.name (searched next.search) next.rule.pattern }
        ensures alike { OnOk result
            (DecideAlike (listed self.new) (listed self.old ++ next.rule ∷ [])) }
        ensures about { IsAbout self.old self.new }
        ensures memory { IfErr result (λ why. is_memory why ≡ true) }
    {
        if let Some(last) = &self.last {
            if let Some(both) = last.joined(self.alloc, self.name.as_slice(), &next)? {
                self.last = Some(both);
                return Ok(());
            }
        }
        self.settle()?;
        self.last = Some(next);
        Ok(())
    }

    /// One more rule, which decides what those before it don't, and whether it decides all lines of
    /// the command; or why a policy can't say it.
    pub(crate) fn add(&mut self, rule: &Rule) -> Result<bool, Unsaid>
        ensures alike { IfOk result (λ decides_all. IfSome (said self.old.name rule.now.expression)
            (λ found. DecideAlike (listed self.new)
            (listed self.old ++ of_verdict rule.now.verdict found.1 ∷ []))) }
        ensures all { IfOk result (λ decides_all. decides_all ≡ true
            → IfSome (said self.old.name rule.now.expression)
            (λ found. (arguments : List ℕ) → Finds found.0 arguments)) }
        ensures is_said { IfOk result (λ _. IsSome (said self.old.name rule.now.expression)) }
        ensures unsaid { IfErr result (λ why. Except (is_memory why)
            ((said self.old.name rule.now.expression ≡ None) × (self.new ≡ self.old))) }
        ensures about { IsAbout self.old self.new }
    {
        let search = Search::read(self.alloc, rule.expression.as_slice())?;
        let pattern = search.pattern(self.alloc, self.name.as_slice())?;
        let decides_all = search.is_everything();
        let rule = PolicyRule {
            verdict: rule.verdict,
            pattern,
        };
        self.push(Sought { search, rule })?;
        Ok(decides_all)
    }

    /// Denies each line of the command that the rules so far don't decide.
    pub(crate) fn deny_rest(&mut self) -> Result<(), AllocError>
        ensures rules { OnOk result
            (listed self.new ≡ listed self.old ++ of_verdict Deny self.old.any_line ∷ []) }
        ensures about { IsAbout self.old self.new }
    {
        self.settle()?;
        let pattern = self.any_line.copy(self.alloc)?;
        self.rules.push(PolicyRule {
            verdict: Verdict::Deny,
            pattern,
        })?;
        Ok(())
    }

    /// The rules, and behind them one that denies each line of the command, if that is wanted.
    pub(crate) fn into_rules(self, denies_rest: bool) -> Result<Vec<PolicyRule>, AllocError>
        ensures { IfOk result
            (λ rules. rules.items ≡ listed self ++ denial denies_rest self.any_line) }
    {
        let Block {
            alloc: _,
            name: _,
            any_line,
            rules,
            last,
        } = self;
        let mut rules = rules;
        if let Some(last) = last {
            rules.push(last.rule)?;
        }
        if !denies_rest {
            return Ok(rules);
        }
        rules.push(PolicyRule {
            verdict: Verdict::Deny,
            pattern: any_line,
        })?;
        Ok(rules)
    }
}
