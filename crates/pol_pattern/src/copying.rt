//! Copies of factors.

ghost use Rattle.std.specs.Prelude.{◌≡◌, IfOk};
ghost use Rattle.pol_pattern.specs.Flat.{factor_value, term_value, terms_value};

use crate::flat::{Factor, Term};
use std::alloc::{AllocError, Global};

impl Factor {
    #[cycle(copy)]
    pub(crate) fn copy(&self, alloc: Global) -> Result<Factor, AllocError>
        ensures { IfOk result (λ copy. factor_value copy ≡ factor_value self.now) }
    {
        match self {
            Factor::Class(class) => Ok(Factor::Class(*class)),
            Factor::Group(terms) => Ok(Factor::Group(copy_terms(alloc, terms)?)),
            Factor::Star(terms) => Ok(Factor::Star(copy_terms(alloc, terms)?)),
        }
    }
}

/// A copy of alternatives.
#[cycle(copy)]
fn copy_terms(alloc: Global, terms: &[Term]) -> Result<Vec<Term>, AllocError>
    ensures { IfOk result (λ copies. terms_value copies.items ≡ terms_value terms.now) }
{
    let mut copies = Vec::new(alloc);
    for term in terms {
        copies.push(copy_term(alloc, term)?)?;
    }
    Ok(copies)
}

/// A copy of the factors of one alternative.
#[cycle(copy)]
pub(crate) fn copy_term(alloc: Global, term: &[Factor]) -> Result<Term, AllocError>
    ensures { IfOk result (λ copy. term_value copy.items ≡ term_value term.now) }
{
    let mut copy = Vec::new(alloc);
    for factor in term {
        copy.push(factor.copy(alloc)?)?;
    }
    Ok(copy)
}
