//! Reading the bytes of a pattern.

ghost use Rattle.std.specs.Prelude.{◌≡◌, ◌<◌, ◌≤◌, [], length, position, nat_lt, Ok, Err, IfSome};
ghost use Rattle.std.specs.Prelude.{if◌then◌else◌};
ghost use Rattle.std.specs.Option.{option_map_or};
ghost use Rattle.basics.specs.Memory.{GivesUnlessMemory};
ghost use Rattle.pol_pattern.specs.Flat.{terms_value};
ghost use Rattle.pol_pattern.specs.Memory.{is_memory};
ghost use Rattle.pol_pattern.specs.Reading.{is_unprintable, reading_by, sized as sized_wanted};
ghost use Rattle.pol_pattern.specs.Reading.{fresh as fresh_level, build as build_terms};
ghost use Rattle.pol_pattern.specs.Spelling.{most_bytes as most_by};

use crate::building::build;
use crate::fault::PatternFault;
use crate::flat::Term;
use crate::lexing::tokens;
use crate::sizes::{FACTORS, size};
use crate::token::Token;
use crate::version::Version;
use basics::is_symbol;
use std::alloc::Global;

/// How many bytes a pattern may have.
fn most_bytes(version: Version) -> usize
    ensures { result ≡ most_by version }
{
    match version {
        Version::One => 200,
        Version::Two => 400,
    }
}

/// The place of the first byte that is no symbol.
fn unprintable_at(bytes: &[u8]) -> Option<usize>
    ensures { result ≡ position is_unprintable bytes.now }
{
    bytes.iter().position(|byte| !is_symbol(*byte))
}

// Refuses too many bytes, and then the first that is no symbol.
fn check_bytes(version: Version, bytes: &[u8]) -> Result<(), PatternFault>
    ensures { result ≡ (if nat_lt (most_by version) (length bytes.now) then Err PatternFault.TooLong
        else option_map_or (λ place. Err (PatternFault.Unprintable place))
        (position is_unprintable bytes.now) (Ok tt)) }
{
    if bytes.len() > most_bytes(version) {
        return Err(PatternFault::TooLong);
    }
    match unprintable_at(bytes) {
        Some(place) => Err(PatternFault::Unprintable(place)),
        None => Ok(()),
    }
}

// The flat form of tokens, whose size is judged before anything is built.
fn sized(alloc: Global, tokens: &[Token]) -> Result<Vec<Term>, PatternFault>
    ensures { GivesUnlessMemory is_memory (λ terms. terms_value terms.items) result
        (sized_wanted (build_terms fresh_level [] tokens.now)) }
{
    let size = size(alloc, tokens)?;
    if size > FACTORS {
        return Err(PatternFault::TooLarge);
    }
    let terms = build(alloc, tokens)?;
    Ok(terms)
}

/// The flat form of a pattern, or the first fault.
#[tactic(auto, unfolding(crate::specs::Reading::reading_by))]
pub(crate) fn flat(alloc: Global, version: Version, bytes: &[u8]) -> Result<Vec<Term>, PatternFault>
    ensures exact { GivesUnlessMemory is_memory (λ terms. terms_value terms.items) result
        (reading_by version bytes.now) }
    ensures too_long { most_by version < length bytes.now → result ≡ Err PatternFault.TooLong }
    ensures unprintable { length bytes.now ≤ most_by version →
        IfSome (position is_unprintable bytes.now)
        (λ place. result ≡ Err (PatternFault.Unprintable place)) }
{
    check_bytes(version, bytes)?;
    let tokens = tokens(alloc, version, bytes)?;
    sized(alloc, &tokens)
}
