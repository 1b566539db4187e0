//! How large the flat form of a pattern is, before it is built: a row of `+` doubles it with each.

ghost use Rattle.std.specs.Prelude.{◌≡◌, ◌+◌, ◌*◌, [], IfOk, min};
ghost use Rattle.pol_pattern.specs.Flat.{Term as TermValue, terms_size, term_size};
ghost use Rattle.pol_pattern.specs.Spelling.{repeat_factors};
ghost use Rattle.pol_pattern.specs.Reading.{Level, fresh as fresh_level};
ghost use Rattle.pol_pattern.specs.Reading.{with_atom as level_with_atom};
ghost use Rattle.pol_pattern.specs.Reading.{with_repeat as level_with_repeat};
ghost use Rattle.pol_pattern.specs.Reading.{with_bar as level_with_bar, finished as level_finished};
ghost use Rattle.pol_pattern.specs.Reading.{build};
ghost use Rattle.pol_pattern.specs.Sizes.{size_of, is_one_group};

use crate::token::{Repeat, Token};
use std::alloc::{AllocError, Global};

/// How many factors a pattern may have.
pub(crate) const FACTORS: usize = 400;

/// Sizes are counted up to here.
const CAP: usize = FACTORS + 1;

pub(crate) fn capped_sum(a: usize, b: usize) -> usize
    ensures { result ≡ min CAP (a + b) }
{
    a.saturating_add(b).min(CAP)
}

fn capped_product(count: u32, size: usize) -> usize
    ensures { result ≡ min CAP (count * size) }
{
    (count as usize).saturating_mul(size).min(CAP)
}

/// The sizes of what was read of some alternatives: of those that are done, and of the present
/// one's factors before its last repetition and within it.
#[derive(Clone, Copy)]
pub(crate) struct Sizes {
    done: usize,
    before: usize,
    last: usize,
    last_is_group: bool,
}

impl Sizes {
    pub(crate) fn fresh() -> Sizes
        ensures { result ≡ size_of fresh_level }
    {
        Sizes {
            done: 0,
            before: 0,
            last: 0,
            last_is_group: false,
        }
    }

    /// After one more factor.
    pub(crate) fn with_factor(self, size: usize, is_group: bool) -> Sizes
        ensures { (level : Level) (factors : TermValue) → self ≡ size_of level
            → size ≡ min CAP (term_size factors) → is_group ≡ is_one_group factors
            → result ≡ size_of (level_with_atom level factors) }
    {
        Sizes {
            done: self.done,
            before: capped_sum(self.before, self.last),
            last: size,
            last_is_group: is_group,
        }
    }

    /// The size of the last repetition, repeated from `low` to `high` times.
    fn counted(self, low: u32, high: u32) -> usize
        ensures { (level : Level) → self ≡ size_of level
            → result ≡ min CAP (term_size (repeat_factors (Repeat.Counted low high) level.last)) }
    {
        let options = capped_product(high.saturating_sub(low), capped_sum(self.last, 1));
        capped_sum(capped_product(low, self.last), options)
    }

    /// Whether it is exactly one group then.
    fn counted_is_group(self, low: u32, high: u32) -> bool
        ensures { (level : Level) → self ≡ size_of level
            → result ≡ is_one_group (repeat_factors (Repeat.Counted low high) level.last) }
    {
        let options = high.saturating_sub(low);
        // without factors of the unit only the groups are left that `?` makes
        if low == 0 || self.last == 0 {
            return options == 1;
        }
        if low > 1 || options > 0 {
            return false;
        }
        self.last_is_group
    }

    pub(crate) fn with_repeat(self, repeat: Repeat) -> Sizes
        ensures { (level : Level) → self ≡ size_of level
            → result ≡ size_of (level_with_repeat level repeat) }
    {
        // a star takes a group's alternatives without the group
        let star = capped_sum(self.last, usize::from(!self.last_is_group));
        let (last, last_is_group) = match repeat {
            Repeat::Star => (star, false),
            Repeat::Plus => (capped_sum(self.last, star), false),
            Repeat::Question => (capped_sum(self.last, 1), true),
            Repeat::Counted(low, high) => {
                (self.counted(low, high), self.counted_is_group(low, high))
            }
        };
        Sizes {
            done: self.done,
            before: self.before,
            last,
            last_is_group,
        }
    }

    /// The size of the last repetition.
    pub(crate) fn last(self) -> usize
        ensures { result ≡ self.last }
    {
        self.last
    }

    pub(crate) fn finished(self) -> usize
        ensures { (level : Level) → self ≡ size_of level
            → result ≡ min CAP (terms_size (level_finished level)) }
    {
        capped_sum(self.done, capped_sum(self.before, self.last))
    }

    pub(crate) fn with_bar(self) -> Sizes
        ensures { (level : Level) → self ≡ size_of level
            → result ≡ size_of (level_with_bar level) }
    {
        Sizes {
            done: self.finished(),
            before: 0,
            last: 0,
            last_is_group: false,
        }
    }
}

/// The size of the flat form of tokens, counted up to the cap.
pub(crate) fn size(alloc: Global, tokens: &[Token]) -> Result<usize, AllocError>
    ensures { IfOk result (λ n. n ≡ min CAP (terms_size (build fresh_level [] tokens.now))) }
{
    let mut outer = Vec::new(alloc);
    let mut level = Sizes::fresh();
    'tokens: for token in tokens {
        match token {
            Token::Atom(_) => level = level.with_factor(1, false),
            Token::Repeat(repeat) => level = level.with_repeat(*repeat),
            Token::Bar => level = level.with_bar(),
            Token::Open => {
                outer.push(level)?;
                level = Sizes::fresh();
            }
            Token::Close => {
                let inner = level.finished();
                let Some(around) = outer.pop() else {
                    return Ok(inner);
                };
                level = around.with_factor(capped_sum(inner, 1), true);
            }
        }
    }
    Ok(level.finished())
}
