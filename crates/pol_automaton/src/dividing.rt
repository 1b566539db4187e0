//! Columns for the classes of alike symbols.

ghost use Rattle.std.specs.Prelude.{◌≡◌, ◌↔◌, ℕ, IsTrue};
ghost use Rattle.basics.specs.Symbol.{is_symbol};
ghost use Rattle.pol_pattern.specs.Flat.{holds_symbol, factor_value, term_value, terms_value};
ghost use Rattle.pol_scan.specs.Alphabet.{IsAlphabet, SameColumn, HasClasses, label_of};
ghost use Rattle.pol_automaton.specs.Alike.{AllInFactor, AllInTerm, AllInTerms, HoldsAlike};

use pol_pattern::{Class, Factor, Term};
use pol_scan::{Alphabet, SYMBOLS};

// Of each symbol, from the space on, whether the class holds it.
fn labels_of(class: &Class) -> [u8; SYMBOLS]
    ensures { (a b : ℕ) → IsTrue (is_symbol a) → IsTrue (is_symbol b)
        → (label_of result a ≡ label_of result b)
        ↔ (holds_symbol class.now a ≡ holds_symbol class.now b) }
{
    let mut labels = [0; SYMBOLS];
    for place in 0..SYMBOLS {
        labels[place] = u8::from(class.holds(b' ' + place as u8));
    }
    labels
}

// Divides the columns by the classes of a factor.
#[cycle(dividing)]
fn divide_by_factor(alphabet: Alphabet, factor: &Factor) -> Alphabet
    requires { IsAlphabet alphabet }
    ensures classes { HasClasses result (λ a b. SameColumn alphabet a b
        × AllInFactor (HoldsAlike a b) (factor_value factor.now)) }
    ensures alphabet { IsAlphabet result }
{
    match factor {
        Factor::Class(class) => alphabet.divide(&labels_of(class)),
        Factor::Group(terms) => divide_by_terms(alphabet, terms),
        Factor::Star(terms) => divide_by_terms(alphabet, terms),
    }
}

// Divides the columns by the classes of factors.
#[cycle(dividing)]
fn divide_by_term(alphabet: Alphabet, factors: &[Factor]) -> Alphabet
    requires { IsAlphabet alphabet }
    ensures classes { HasClasses result (λ a b. SameColumn alphabet a b
        × AllInTerm (HoldsAlike a b) (term_value factors.now)) }
    ensures alphabet { IsAlphabet result }
{
    let mut divided = alphabet;
    for factor in factors {
        divided = divide_by_factor(divided, factor);
    }
    divided
}

/// Divides the columns by the classes of terms: two symbols then have one column exactly if they
/// had one before and each class holds both or neither. One look at each symbol for each class that
/// the columns tell already. Takes no memory.
#[cycle(dividing)]
pub(crate) fn divide_by_terms(alphabet: Alphabet, terms: &[Term]) -> Alphabet
    requires { IsAlphabet alphabet }
    ensures classes { HasClasses result (λ a b. SameColumn alphabet a b
        × AllInTerms (HoldsAlike a b) (terms_value terms.now)) }
    ensures alphabet { IsAlphabet result }
{
    let mut divided = alphabet;
    for term in terms {
        divided = divide_by_term(divided, term);
    }
    divided
}
