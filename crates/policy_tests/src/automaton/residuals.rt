//! Residuals that were worked out by hand, and that stepping succeeds where there is memory.

ghost use Rattle.std.specs.Prelude.{IfOk};
ghost use Rattle.pol_deriv.specs.Table.{AreNumbers};

use crate::automaton::support::{Judge, judges};
use pol_deriv::{TermSet, Terms};
use pol_pattern::Pattern;
use std::alloc::{AllocError, Global};
use std::test::Fail;

/// The residual of a pattern by a text.
fn residual(terms: &mut Terms, pattern: &Pattern, text: &[u8]) -> Result<TermSet, AllocError>
    ensures { IfOk result (λ set. AreNumbers terms.new set) }
{
    let mut set = terms.start(pattern)?;
    for symbol in text {
        set = terms.step(&set, *symbol)?;
    }
    Ok(set)
}

/// How many terms a residual has, and whether it accepts.
fn outcome(alloc: Global, pattern: &[u8], text: &[u8]) -> Result<(usize, bool), Fail> {
    let pattern = Pattern::read(alloc, pattern)?;
    let mut terms = Terms::new(alloc);
    let set = residual(&mut terms, &pattern, text)?;
    Ok((set.numbers().len(), terms.accepts(&set)))
}

/// `COUNT yes PATTERN/TEXT`: the pattern's residual by the text has so many terms, and accepts;
/// with `no` it doesn't.
#[derive(Drop)]
struct ResidualCases;

impl Judge for ResidualCases {
    fn is_so(&mut self, alloc: Global, line: &str) -> Result<bool, Fail> {
        let (count, case) = line.split_once(' ').ok_or("no count")?;
        let (accepts, case) = case.split_once(' ').ok_or("no answer")?;
        let (pattern, text) = case.split_once('/').ok_or("no text")?;
        let found = outcome(alloc, pattern.as_bytes(), text.as_bytes())?;
        Ok(found == (count.parse::<usize>()?, accepts == "yes"))
    }
}

#[test]
fn residuals(rt: HostRuntime) -> Result<(), Fail> {
    judges(
        &rt,
        &mut ResidualCases,
        "
        1 yes /
        0 no /a
        1 no abc/
        1 no abc/a
        1 yes abc/abc
        0 no abc/b
        1 yes [^a]/b
        0 no [^a]/a
        0 no .*/\u{7f}

        # Equal terms are one.
        1 no a|a/
        2 no a|b/

        # (c|bcd), b(c|bcd); then d and the term of no factors
        2 no (a|ab)(c|bcd)/a
        2 yes (a|ab)(c|bcd)/abc

        # A star after itself.
        1 yes a*/aa
        1 no (ab)*/a
        1 yes (ab)*/ab
        1 no .*b.*/a
        2 yes .*b.*/abb

        # Stars and groups that hold the empty text.
        1 yes (a*b*)*/a
        1 yes (a*b*)*/ab
        1 yes (a|)+b/b
        1 no (a|)+b/a
        1 no (|a)(|b)c/
        1 yes (|a)(|b)c/bc
        ",
    )
}

/// Whether one of the terms is `.*`.
fn has_any_text(terms: &Terms, set: &TermSet) -> bool
    requires { AreNumbers terms.now set.now }
{
    for number in set.numbers() {
        if terms.is_any_text(*number) {
            return true;
        }
    }
    false
}

/// `yes PATTERN/TEXT`: the pattern's residual by the text has the term `.*`; with `no` it doesn't.
#[derive(Drop)]
struct AnyTextCases;

impl Judge for AnyTextCases {
    fn is_so(&mut self, alloc: Global, line: &str) -> Result<bool, Fail> {
        let (answer, case) = line.split_once(' ').ok_or("no answer")?;
        let (pattern, text) = case.split_once('/').ok_or("no text")?;
        let pattern = Pattern::read(alloc, pattern.as_bytes())?;
        let mut terms = Terms::new(alloc);
        let set = residual(&mut terms, &pattern, text.as_bytes())?;
        Ok(has_any_text(&terms, &set) == (answer == "yes"))
    }
}

#[test]
fn any_text(rt: HostRuntime) -> Result<(), Fail> {
    judges(
        &rt,
        &mut AnyTextCases,
        "
        yes .*/
        yes .*/ a~
        no .*/\u{7f}

        # A star of a group has the group's terms, and a class is the set of its symbols.
        yes (.)*/
        yes [ -~]*/
        yes [ -Zb-~a[-`]*/
        yes [^a]*|[a-z]|.*/
        no [^x]*/
        no [!-~]*/
        no [ -}]*/
        no a*/

        # Nothing is simplified: these hold every text, and are other terms.
        no .*.*/
        yes .*.*/a
        no (.*)*/
        no (.|.)*/
        no (|.)*/
        no (.*)/
        yes (.*)/a

        # What stands before or after it.
        no x.*/
        yes x.*/x
        yes x.*/xyz
        no x.*/y
        no .*x/
        no .*x/x
        no .+/
        yes .+/a
        no .*x.*/a
        yes .*x.*/ax
        yes .*x.*/axa

        # Other terms, and stars of them.
        no /
        no ./
        no .?/
        no ()*/
        no (..)*/
        no (a|.)*/
        no (.|a)*/
        ",
    )
}

#[test]
fn residual_by_the_end_of_a_line(rt: HostRuntime) -> Result<(), Fail> {
    let found = outcome(rt.alloc(), b".*", b"\n")?;
    assert!(rt; found == (0, false));
    Ok(())
}

#[test]
fn plain_patterns_by_themselves(rt: HostRuntime) -> Result<(), Fail> {
    for size in [0usize, 1, 2, 31, 100, 199] {
        let mut text = Vec::new(rt.alloc());
        text.resize(size, b'a')?;
        let plain = outcome(rt.alloc(), &text, &text)?;
        assert!(rt; plain == (1, true));
    }
    Ok(())
}
