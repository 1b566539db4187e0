//! A pattern: a set of texts, by the bytes that spell it.

ghost use Rattle.std.specs.Prelude.{◌≡◌, ◌↔◌, ◌<◌, ◌≤◌, ℕ, List, length, position, nat_eq, IfOk};
ghost use Rattle.std.specs.Prelude.{IfSome, IfErr, Ok, Err, IsTrue};
ghost use Rattle.std.specs.Cmp.Lexicographic.{pointwise};
ghost use Rattle.std.specs.Cmp.Rules.{comparing};
ghost use Rattle.std.proofs.Common.{rules};
ghost use Rattle.basics.specs.Memory.{GivesUnlessMemory};
ghost use Rattle.basics.specs.Symbol.{is_text};
ghost use Rattle.pol_pattern.specs.Memory.{is_memory};
ghost use Rattle.pol_pattern.specs.Flat.{Terms, terms_value};
ghost use Rattle.pol_pattern.specs.Spelling.{SpellsBy, Spells, Holds};
ghost use Rattle.pol_pattern.specs.Upgrading.{upgraded as upgraded_bytes, UpgradeLaw};
ghost use Rattle.pol_pattern.specs.Languages.{LanguageLaws};
ghost use Rattle.pol_pattern.specs.declared.version.Version.TheVariants.{One as VersionOne};
ghost use Rattle.pol_pattern.specs.declared.version.Version.TheVariants.{Two as VersionTwo};
ghost use Rattle.pol_pattern.specs.Matching.{matches, MatchLaw};
ghost use Rattle.pol_pattern.specs.Reading.{reading as reading_of, pattern_of, pattern_of_old};
ghost use Rattle.pol_pattern.specs.Reading.{is_unprintable};
ghost use Rattle.pol_pattern.specs.Places.{FaultOf};

use crate::fault::PatternFault;
use crate::flat::Term;
use crate::upgrading::upgraded;
use crate::version::Version;
use crate::{matching, reading};
use basics::Bytes;
use std::alloc::{AllocError, Global};
use std::marker::Model;
use std::sync::Arc;

/// What was read, and the flat form that it spells.
#[derive(Drop)]
struct Whole {
    source: Bytes,
    terms: Vec<Term>,
}

/// A pattern as it was read, which its copies share. A contract sees its source.
#[derive(Drop)]
pub struct Pattern {
    whole: Arc<Whole>,
}

impl Model for Pattern {
    ghost use Rattle.std.specs.Prelude.{◌≡◌, ℕ, List, Ok};
    ghost use Rattle.std.specs.Arc.{arc_value};
    ghost use Rattle.pol_pattern.specs.Flat.{terms_value};
    ghost use Rattle.pol_pattern.specs.Reading.{reading};

    ghost Value = { List ℕ };

    ghost view = { λ p. (arc_value p.whole).source };

    ghost invariant = { λ p. let whole = arc_value p.whole in
        reading whole.source ≡ Ok (terms_value whole.terms.items) };
}

// Patterns are equal if their sources are.
impl PartialEq for Pattern {
    ghost eq = { pointwise nat_eq };

    ghost laws = { Prim.search (comparing, rules) };

    fn eq(&self, other: &Pattern) -> bool {
        self.source() == other.source()
    }
}

impl Eq for Pattern {
    ghost laws = { Prim.search (comparing, rules) };
}

impl Pattern {
    /// Reads a pattern (docs/POLICY.md, "Patterns"). Its size is judged before anything is built.
    pub fn read(alloc: Global, bytes: &[u8]) -> Result<Pattern, PatternFault>
        // Which bytes are read, and which fault it is.
        ensures exact { GivesUnlessMemory is_memory (λ p. p) result (pattern_of bytes.now) }

        // What is read is spelled so.
        ensures found { IfOk result (λ p. (flat : Terms) × Spells p flat) }

        // What is spelled so is read, unless memory runs out.
        ensures only { (flat : Terms) → Spells bytes.now flat
            → GivesUnlessMemory is_memory (λ p. p) result (Ok bytes.now) }

        // What is refused before anything is built is refused even without memory.
        ensures too_long { 400 < length bytes.now → result ≡ Err PatternFault.TooLong }
        ensures unprintable { length bytes.now ≤ 400 → IfSome (position is_unprintable bytes.now)
            (λ place. result ≡ Err (PatternFault.Unprintable place)) }

        // What a refusal says of these bytes is so: what stands at its place, and why no pattern
        // has it there.
        ensures place { IfErr result (λ fault. FaultOf VersionTwo bytes.now fault) }
    {
        let terms = reading::flat(alloc, Version::Two, bytes)?;
        let source = Bytes::from_slice(alloc, bytes)?;
        let whole = Arc::new(alloc, Whole { source, terms })?;
        Ok(Pattern { whole })
    }

    /// Reads a pattern by the grammar of version 1. What it gives is a pattern of version 2, whose
    /// source has a `\` before each brace that version 2 would count by.
    pub fn read_v1(alloc: Global, bytes: &[u8]) -> Result<Pattern, PatternFault>
        // Which bytes are read, and which fault it is, at its place in these bytes.
        ensures exact { GivesUnlessMemory is_memory (λ p. p) result (pattern_of_old bytes.now) }

        // What is read is spelled so by version 1, and the same pattern by the new source.
        ensures found { IfOk result
            (λ p. (flat : Terms) × SpellsBy VersionOne bytes.now flat × Spells p flat) }

        // What version 1 spells is read, unless memory runs out, and never refused for its size.
        ensures only { (flat : Terms) → SpellsBy VersionOne bytes.now flat
            → GivesUnlessMemory is_memory (λ p. p) result (Ok (upgraded_bytes bytes.now)) }

        // What is refused before anything is built is refused even without memory.
        ensures too_long { 200 < length bytes.now → result ≡ Err PatternFault.TooLong }
        ensures unprintable { length bytes.now ≤ 200 → IfSome (position is_unprintable bytes.now)
            (λ place. result ≡ Err (PatternFault.Unprintable place)) }

        // What a refusal says of these bytes is so by version 1.
        ensures place { IfErr result (λ fault. FaultOf VersionOne bytes.now fault) }

        // A pattern of version 1 and its new source hold the same texts.
        ensures law { UpgradeLaw }
    {
        let terms = reading::flat(alloc, Version::One, bytes)?;
        let source = upgraded(alloc, bytes)?;
        let whole = Arc::new(alloc, Whole { source, terms })?;
        Ok(Pattern { whole })
    }

    /// The bytes that spell the pattern.
    pub fn source(&self) -> &[u8]
        ensures bytes { result.now ≡ self.now }

        // They are read again as what they are.
        ensures again { pattern_of self.now ≡ Ok self.now }
    {
        self.whole.source.as_slice()
    }

    /// The flat form: the alternatives, each its factors in order.
    pub fn terms(&self) -> &[Term]
        ensures flat { reading_of self.now ≡ Ok (terms_value result.now) }
        ensures spelled { Spells self.now (terms_value result.now) }

        // The source spells no other flat form.
        ensures only { (flat : Terms) → Spells self.now flat → flat ≡ terms_value result.now }

        // The test that definitions use is the set's, and a set holds texts alone.
        ensures law { MatchLaw }
    {
        &self.whole.terms
    }

    /// A copy of the pattern, which shares what was read: no memory is taken. It is refused only
    /// where the pattern has 2^63 copies.
    pub fn copy(&self, alloc: Global) -> Result<Pattern, AllocError>
        ensures { IfOk result (λ p. p ≡ self.now) }
    {
        let whole = self.whole.clone()?;
        Ok(Pattern { whole })
    }

    /// Whether the pattern holds the text. Takes no memory, and time by the text's length, the
    /// number of factors, and how deep these stand in stars and groups.
    pub fn contains(&self, text: &[u8]) -> bool
        // The set.
        ensures set { IsTrue result ↔ Holds self.now text.now }

        // The same as a test, which agrees with the set for every source.
        ensures test { result ≡ matches self.now text.now }
        ensures law { (source bytes : List ℕ) → IsTrue (matches source bytes) ↔ Holds source bytes }

        // A set holds texts alone.
        ensures texts { (source bytes : List ℕ) → Holds source bytes → IsTrue (is_text bytes) }

        // The sets in the words of formal languages: union, concatenation, star.
        ensures languages { LanguageLaws }
    {
        matching::holds(&self.whole.terms, text)
    }
}
