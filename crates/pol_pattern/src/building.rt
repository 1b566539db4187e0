//! Building the flat form of a pattern out of its tokens.

ghost use Rattle.std.specs.Prelude.{◌≡◌, ◌≤◌, ◌+◌, [], ◌∷◌, IfOk, min};
ghost use Rattle.pol_pattern.specs.Flat.{Factor as FactorValue, empty, put, group as group_of};
ghost use Rattle.pol_pattern.specs.Flat.{star, factor_value};
ghost use Rattle.pol_pattern.specs.Flat.{term_value, terms_value, factor_size, term_size};
ghost use Rattle.pol_pattern.specs.Flat.{terms_size};
ghost use Rattle.pol_pattern.specs.Spelling.{repeat_factors, alternatives_of};
ghost use Rattle.pol_pattern.specs.Spelling.{copies as term_copies, optional as optional_term};
ghost use Rattle.pol_pattern.specs.Reading.{fresh as fresh_level, with_atom as level_with_atom};
ghost use Rattle.pol_pattern.specs.Reading.{with_repeat as level_with_repeat};
ghost use Rattle.pol_pattern.specs.Reading.{with_bar as level_with_bar, finished as level_finished};
ghost use Rattle.pol_pattern.specs.Reading.{Level as LevelOf, build as build_terms};
ghost use Rattle.pol_pattern.specs.Sizes.{is_one_group};
ghost use Rattle.pol_pattern.specs.Levels.{Represents};

use crate::copying::copy_term;
use crate::flat::{Factor, Term};
use crate::sizes::{FACTORS, Sizes, capped_sum};
use crate::token::{Repeat, Token};
use std::alloc::{AllocError, Global};

/// A list of the one value.
fn single<T: Drop>(alloc: Global, value: T) -> Result<Vec<T>, AllocError>
    ensures { IfOk result (λ values. values.items ≡ value ∷ []) }
{
    let mut values = Vec::new(alloc);
    values.push(value)?;
    Ok(values)
}

/// The factors as alternatives: those of the group where they are exactly one group.
fn alternatives(alloc: Global, mut factors: Term) -> Result<Vec<Term>, AllocError>
    ensures { IfOk result
        (λ terms. terms_value terms.items ≡ alternatives_of (term_value factors.items)) }
{
    let Some(last) = factors.pop() else {
        return single(alloc, factors);
    };
    match last {
        Factor::Group(terms) => {
            if factors.is_empty() {
                return Ok(terms);
            }
            factors.push(Factor::Group(terms))?;
            single(alloc, factors)
        }
        other => {
            factors.push(other)?;
            single(alloc, factors)
        }
    }
}

/// Any number of texts of the factors, one after another.
fn starred(alloc: Global, factors: Term) -> Result<Factor, AllocError>
    ensures { IfOk result
        (λ factor. factor_value factor ≡ star (alternatives_of (term_value factors.items))) }
{
    Ok(Factor::Star(alternatives(alloc, factors)?))
}

/// The factors so many times, one after another.
fn copies(alloc: Global, factors: &[Factor], count: u32) -> Result<Term, AllocError>
    requires { term_size (term_copies count (term_value factors.now)) ≤ FACTORS }
    ensures { IfOk result
        (λ term. term_value term.items ≡ term_copies count (term_value factors.now)) }
{
    let mut term = Vec::new(alloc);
    'copies: for _made in 0..count {
        let mut copy = copy_term(alloc, factors)?;
        term.append(&mut copy)?;
    }
    Ok(term)
}

/// A group of the factors and of nothing.
fn optional(alloc: Global, factors: Term) -> Result<Term, AllocError>
    ensures { IfOk result
        (λ term. term_value term.items ≡ optional_term (term_value factors.items)) }
{
    let mut terms = single(alloc, factors)?;
    terms.push(Vec::new(alloc))?;
    single(alloc, Factor::Group(terms))
}

/// The factors from `low` to `high` times.
fn counted(alloc: Global, factors: Term, low: u32, high: u32) -> Result<Term, AllocError>
    requires { term_size (repeat_factors (Repeat.Counted low high) (term_value factors.items))
        ≤ FACTORS }
    ensures { IfOk result (λ term. term_value term.items
        ≡ repeat_factors (Repeat.Counted low high) (term_value factors.items)) }
{
    let mut term = copies(alloc, &factors, low)?;
    let option = optional(alloc, factors)?;
    let mut options = copies(alloc, &option, high.saturating_sub(low))?;
    term.append(&mut options)?;
    Ok(term)
}

/// The factors of a unit, repeated. It is asked only for what a pattern has room for, so a size is
/// judged before any of it is written out.
fn repeated(alloc: Global, mut factors: Term, repeat: Repeat) -> Result<Term, AllocError>
    requires { term_size (repeat_factors repeat (term_value factors.items)) ≤ FACTORS }
    ensures { IfOk result
        (λ term. term_value term.items ≡ repeat_factors repeat (term_value factors.items)) }
{
    match repeat {
        Repeat::Star => {
            let star = starred(alloc, factors)?;
            single(alloc, star)
        }
        Repeat::Plus => {
            let copy = copy_term(alloc, &factors)?;
            let star = starred(alloc, copy)?;
            factors.push(star)?;
            Ok(factors)
        }
        Repeat::Question => optional(alloc, factors),
        Repeat::Counted(low, high) => counted(alloc, factors, low, high),
    }
}

/// What was read of some alternatives: those that are done, and of the present one the factors
/// before its last repetition and the factors of that repetition. A part of more factors than a
/// pattern may have is not written out: only a `{0}` after it lets the pattern be small enough, and
/// that drops it. So each token writes at most as many factors as a pattern may have.
#[derive(Drop)]
struct Level {
    sizes: Sizes,
    done: Vec<Term>,
    before: Term,
    last: Term,
}

impl Level {
    fn fresh(alloc: Global) -> Level
        ensures { Represents result fresh_level }
    {
        Level {
            sizes: Sizes::fresh(),
            done: Vec::new(alloc),
            before: Vec::new(alloc),
            last: Vec::new(alloc),
        }
    }

    /// After one more factor of this size.
    fn with_factor(self, factor: Factor, size: usize, is_group: bool) -> Result<Level, AllocError>
        ensures { (level : LevelOf) (read : FactorValue) → Represents self level
            → size ≡ min (FACTORS + 1) (factor_size read)
            → is_group ≡ is_one_group (put read empty)
            → (factor_size read ≤ FACTORS → factor_value factor ≡ read)
            → IfOk result (λ next. Represents next (level_with_atom level (put read empty))) }
    {
        let Level {
            sizes,
            done,
            mut before,
            mut last,
        } = self;
        before.append(&mut last)?;
        let sizes = sizes.with_factor(size, is_group);
        if size > FACTORS {
            return Ok(Level {
                sizes,
                done,
                before,
                last,
            });
        }
        last.push(factor)?;
        Ok(Level {
            sizes,
            done,
            before,
            last,
        })
    }

    fn with_repeat(self, alloc: Global, repeat: Repeat) -> Result<Level, AllocError>
        requires { (level : LevelOf) × Represents self level }
        ensures { (level : LevelOf) → Represents self level
            → IfOk result (λ next. Represents next (level_with_repeat level repeat)) }
    {
        let Level {
            sizes,
            done,
            before,
            last,
        } = self;
        let sizes = sizes.with_repeat(repeat);
        if sizes.last() > FACTORS {
            let last = Vec::new(alloc);
            return Ok(Level {
                sizes,
                done,
                before,
                last,
            });
        }
        let last = repeated(alloc, last, repeat)?;
        Ok(Level {
            sizes,
            done,
            before,
            last,
        })
    }

    /// The alternatives, with the present one.
    fn finished(self) -> Result<Vec<Term>, AllocError>
        ensures { (level : LevelOf) → Represents self level → IfOk result
            (λ terms. terms_size (level_finished level) ≤ FACTORS
            → terms_value terms.items ≡ level_finished level) }
    {
        let Level {
            sizes: _,
            mut done,
            mut before,
            mut last,
        } = self;
        before.append(&mut last)?;
        done.push(before)?;
        Ok(done)
    }

    /// After a group of the inner level's alternatives.
    fn with_group(self, inner: Level) -> Result<Level, AllocError>
        ensures { (level group : LevelOf) → Represents self level → Represents inner group
            → IfOk result (λ next. Represents next
            (level_with_atom level (put (group_of (level_finished group)) empty))) }
    {
        let size = capped_sum(inner.sizes.finished(), 1);
        let terms = inner.finished()?;
        self.with_factor(Factor::Group(terms), size, true)
    }

    fn with_bar(self, alloc: Global) -> Result<Level, AllocError>
        ensures { (level : LevelOf) → Represents self level
            → IfOk result (λ next. Represents next (level_with_bar level)) }
    {
        let sizes = self.sizes.with_bar();
        let done = self.finished()?;
        Ok(Level {
            sizes,
            done,
            before: Vec::new(alloc),
            last: Vec::new(alloc),
        })
    }
}

/// The flat form of tokens, which has at most as many factors as a pattern may have.
pub(crate) fn build(alloc: Global, tokens: &[Token]) -> Result<Vec<Term>, AllocError>
    requires { terms_size (build_terms fresh_level [] tokens.now) ≤ FACTORS }
    ensures { IfOk result
        (λ terms. terms_value terms.items ≡ build_terms fresh_level [] tokens.now) }
{
    let mut outer = Vec::new(alloc);
    let mut level = Level::fresh(alloc);
    'tokens: for token in tokens {
        let next = match token {
            Token::Atom(class) => level.with_factor(Factor::Class(*class), 1, false),
            Token::Repeat(repeat) => level.with_repeat(alloc, *repeat),
            Token::Bar => level.with_bar(alloc),
            Token::Open => {
                outer.push(level)?;
                Ok(Level::fresh(alloc))
            }
            Token::Close => {
                let Some(around) = outer.pop() else {
                    return level.finished();
                };
                around.with_group(level)
            }
        };
        level = next?;
    }
    level.finished()
}
