//! Linear forms of expressions: the coefficients of their unknowns.

ghost use Rattle.std.specs.Prelude.{◌≡◌, ◌++◌, [], ◌∷◌, map, pos, neg_ℤ, All, IfOk, OnOk, IsTrue, ◌↔◌, ◌&&◌};
ghost use Rattle.std.specs.List.{list_all};
ghost use Rattle.rx_types.specs.Coefficients.{IsLow};
ghost use Rattle.rx_judge.specs.Low.{is_low};
ghost use Rattle.rx_types.specs.Value.{IsSmall};
ghost use Rattle.rx_judge.specs.Form.{is_same, coefficient_in, sum_term, scaled_term, scaled_number, IsLowForm};

use crate::fault::NoMemory;
use rx_types::FieldId;
use std::alloc::Global;

/// A leaf that is no number.
#[derive(Clone, Copy, Debug, PartialEq, Eq)]
pub enum Unknown {
    NumberOf(FieldId),
    FirstOf(FieldId),
    LastOf(FieldId),
    SizeOf(FieldId),
    /// The length of the message in bits.
    Bits,
}

/// An unknown and its coefficient.
#[derive(Clone, Copy, Debug, PartialEq, Eq)]
pub struct Term {
    pub unknown: Unknown,
    pub coefficient: i128,
}

/// The coefficients of the leaves, where a leaf may stand more than once, each time with its whole coefficient,
/// and those of the quotients.
#[derive(Debug, Drop)]
pub struct LinearForm {
    pub terms: Vec<Term>,
    pub quotients: Vec<i128>,
}

fn is_same(left: Unknown, right: Unknown) -> bool
    ensures { result ≡ is_same left right }
{
    match (left, right) {
        (Unknown::NumberOf(a), Unknown::NumberOf(b)) => a == b,
        (Unknown::FirstOf(a), Unknown::FirstOf(b)) => a == b,
        (Unknown::LastOf(a), Unknown::LastOf(b)) => a == b,
        (Unknown::SizeOf(a), Unknown::SizeOf(b)) => a == b,
        (Unknown::Bits, Unknown::Bits) => true,
        _ => false,
    }
}

// The coefficient of the unknown, 0 where it stands nowhere.
fn coefficient_in(terms: &[Term], unknown: Unknown) -> i128
    requires { All (λ t. IsLow t.coefficient) terms.now }
    ensures value { result ≡ coefficient_in terms.now unknown }
    ensures low { IsLow result }
{
    for term in terms {
        if is_same(term.unknown, unknown) {
            return term.coefficient;
        }
    }
    0
}

// Adds the sums of the coefficients of these terms' unknowns.
fn add_sums(
    sums: &mut Vec<Term>,
    terms: &[Term],
    left: &[Term],
    right: &[Term],
) -> Result<(), NoMemory>
    requires left { All (λ t. IsLow t.coefficient) left.now }
    requires right { All (λ t. IsLow t.coefficient) right.now }
    ensures { OnOk result (sums.new.items ≡ sums.old.items ++ map (sum_term left.now right.now) terms.now) }
{
    for term in terms {
        let unknown = term.unknown;
        let one = coefficient_in(left, unknown);
        let other = coefficient_in(right, unknown);
        sums.push(Term {
            unknown,
            coefficient: one + other,
        })?;
    }
    Ok(())
}

fn scaled_terms(alloc: Global, terms: &[Term], factor: i128) -> Result<Vec<Term>, NoMemory>
    requires low { All (λ t. IsLow t.coefficient) terms.now }
    requires factor { IsSmall factor }
    ensures { IfOk result (λ ts. ts.items ≡ map (scaled_term factor) terms.now) }
{
    let mut scaled = Vec::new(alloc);
    for term in terms {
        scaled.push(Term {
            unknown: term.unknown,
            coefficient: factor * term.coefficient,
        })?;
    }
    Ok(scaled)
}

fn scaled_numbers(alloc: Global, numbers: &[i128], factor: i128) -> Result<Vec<i128>, NoMemory>
    requires low { All (λ z. IsLow z) numbers.now }
    requires factor { IsSmall factor }
    ensures { IfOk result (λ zs. zs.items ≡ map (scaled_number factor) numbers.now) }
{
    let mut scaled = Vec::new(alloc);
    for number in numbers {
        scaled.push(factor * *number)?;
    }
    Ok(scaled)
}

fn is_low_number(number: i128) -> bool
    ensures test { result ≡ is_low number }
    ensures facts { IsTrue result ↔ IsLow number }
{
    -(1 << 20) < number && number < 1 << 20
}

fn are_low_terms(terms: &[Term]) -> bool
    ensures test { result ≡ list_all (λ t. is_low t.coefficient) terms.now }
    ensures facts { IsTrue result → All (λ t. IsLow t.coefficient) terms.now }
{
    terms.iter().all(|term| is_low_number(term.coefficient))
}

fn are_low_numbers(numbers: &[i128]) -> bool
    ensures test { result ≡ list_all is_low numbers.now }
    ensures facts { IsTrue result → All (λ z. IsLow z) numbers.now }
{
    numbers.iter().all(|number| is_low_number(*number))
}

impl LinearForm {
    /// That of an expression without unknowns.
    pub fn of_none(alloc: Global) -> LinearForm
        ensures terms { result.terms.items ≡ [] }
        ensures quotients { result.quotients.items ≡ [] }
    {
        LinearForm {
            terms: Vec::new(alloc),
            quotients: Vec::new(alloc),
        }
    }

    /// That of a leaf.
    pub fn of_leaf(alloc: Global, unknown: Unknown) -> Result<LinearForm, NoMemory>
        ensures terms { IfOk result (λ f. f.terms.items ≡ record { unknown = unknown; coefficient = pos 1 } ∷ []) }
        ensures quotients { IfOk result (λ f. f.quotients.items ≡ []) }
    {
        let mut terms = Vec::new(alloc);
        terms.push(Term {
            unknown,
            coefficient: 1,
        })?;
        Ok(LinearForm {
            terms,
            quotients: Vec::new(alloc),
        })
    }

    /// That of a quotient.
    pub fn of_quotient(alloc: Global) -> Result<LinearForm, NoMemory>
        ensures terms { IfOk result (λ f. f.terms.items ≡ []) }
        ensures quotients { IfOk result (λ f. f.quotients.items ≡ pos 1 ∷ []) }
    {
        let mut quotients = Vec::new(alloc);
        quotients.push(1)?;
        Ok(LinearForm {
            terms: Vec::new(alloc),
            quotients,
        })
    }

    /// That of the expression times a number.
    pub fn scaled(&self, alloc: Global, factor: i128) -> Result<LinearForm, NoMemory>
        requires low { IsLowForm self.now }
        requires factor { IsSmall factor }
        ensures terms { IfOk result (λ f. f.terms.items ≡ map (scaled_term factor) self.now.terms.items) }
        ensures quotients { IfOk result (λ f. f.quotients.items ≡ map (scaled_number factor) self.now.quotients.items) }
    {
        let terms = scaled_terms(alloc, self.terms.as_slice(), factor)?;
        let quotients = scaled_numbers(alloc, self.quotients.as_slice(), factor)?;
        Ok(LinearForm { terms, quotients })
    }

    /// That of the sum of two expressions.
    pub fn sum(&self, alloc: Global, other: &LinearForm) -> Result<LinearForm, NoMemory>
        requires low { IsLowForm self.now }
        requires low_other { IsLowForm other.now }
        ensures terms { IfOk result (λ f. f.terms.items ≡ map (sum_term self.now.terms.items other.now.terms.items) (self.now.terms.items ++ other.now.terms.items)) }
        ensures quotients { IfOk result (λ f. f.quotients.items ≡ self.now.quotients.items ++ other.now.quotients.items) }
    {
        let left = self.terms.as_slice();
        let right = other.terms.as_slice();
        let mut terms = Vec::new(alloc);
        add_sums(&mut terms, left, left, right)?;
        add_sums(&mut terms, right, left, right)?;
        let mut quotients = Vec::from_slice(alloc, &self.quotients)?;
        quotients.extend_from_slice(&other.quotients)?;
        Ok(LinearForm { terms, quotients })
    }

    /// That of the remainder of the expression by a divisor: the expression, less the divisor times the quotient.
    pub fn remainder(&self, alloc: Global, divisor: i128) -> Result<LinearForm, NoMemory>
        requires { IsSmall divisor }
        ensures terms { IfOk result (λ f. f.terms.items ≡ self.now.terms.items) }
        ensures quotients { IfOk result (λ f. f.quotients.items ≡ self.now.quotients.items ++ neg_ℤ divisor ∷ []) }
    {
        let terms = Vec::from_slice(alloc, &self.terms)?;
        let mut quotients = Vec::from_slice(alloc, &self.quotients)?;
        quotients.push(-divisor)?;
        Ok(LinearForm { terms, quotients })
    }

    /// Whether all coefficients are below 2^20 in magnitude.
    pub fn is_low(&self) -> bool
        ensures test { result ≡ list_all (λ t. is_low t.coefficient) self.now.terms.items && list_all is_low self.now.quotients.items }
        ensures facts { IsTrue result → IsLowForm self.now }
    {
        are_low_terms(self.terms.as_slice()) && are_low_numbers(self.quotients.as_slice())
    }
}
