//! What the definition of a scalar type means.

ghost use Rattle.std.specs.Prelude.{◌≡◌, ◌^◌, IfOk, IfErr, IfSome, pos, slice_get, true};
ghost use Rattle.std.specs.List.{list_all};
ghost use Rattle.std.specs.Option.{option_map};
ghost use Rattle.rx_types.specs.Domain.{domain_of};
ghost use Rattle.rx_types.specs.Names.{is_name_byte};
ghost use Rattle.rx_judge.specs.Meaning.{Tells, each_from};
ghost use Rattle.rx_judge.specs.Scalar.{root_place, spelled, static_value, is_size, unsigned, is_range, range, number_of_literal, numbers_of, size_of_aspect, size_of_aspects, first_some, always_valid, are_numbers, is_distinct, number_at, literal_at, are_literals, enumeration, definition, IsMeasured};

use crate::about;
use crate::fault::{Fault, NoMemory, refused, refused_at};
use crate::judging::judge;
use crate::names::Names;
use indexmap::IndexSet;
use rx_syntax::{DefTree, EnumAspect, ExprTree, LiteralTree, Named, Place, Rule, Word};
use rx_types::{Literal, Name, ScalarType};
use std::alloc::Global;

/// The place of the outermost operator of an expression, or of its leaf.
pub fn root_place(tree: &ExprTree) -> Place
    ensures { result ≡ root_place tree.now }
{
    match tree {
        ExprTree::Number(_, place) => *place,
        ExprTree::Name(name) => name.name.place,
        ExprTree::Attribute(name, _) => name.name.place,
        ExprTree::Member(name, _) => name.name.place,
        ExprTree::Neg(place, _) => *place,
        ExprTree::Not(place, _) => *place,
        ExprTree::Binary(_, place, _, _) => *place,
    }
}

/// The name that is declared; UnknownName where the word is none.
pub fn spelled(alloc: Global, name: &Named) -> Result<Name, Fault>
    ensures meaning { IfOk result (λ n. spelled name.now ≡ Ok n) }
    ensures refusal { IfErr result (λ e. Tells e (spelled name.now)) }
{
    let bytes = name.word.as_str().as_bytes();
    if !rx_types::is_name(bytes) {
        return Err(Fault::Refused(refused_at(alloc, Rule::UnknownName, name)?));
    }
    Ok(Name::make(alloc, bytes)?)
}

/// The value of an expression that is made of numbers alone.
pub fn static_value(alloc: Global, owner: &Word, tree: &ExprTree) -> Result<i128, Fault>
    ensures meaning { IfOk result (λ z. static_value owner.now tree.now ≡ Ok z) }
    ensures refusal { IfErr result (λ e. Tells e (static_value owner.now tree.now)) }
{
    let judged = judge(alloc, &Names::Nothing, owner, tree)?;
    if about::is_number(judged.about.kind) {
        Ok(judged.about.interval.low)
    } else {
        Err(Fault::Refused(refused(alloc, Rule::WrongType, root_place(tree), owner)?))
    }
}

// Whether it is a size of a scalar type.
fn is_size(number: i128) -> bool
    ensures { result ≡ is_size number }
{
    1 <= number && number <= 63
}

fn unsigned(alloc: Global, name: &Named, size: &ExprTree) -> Result<ScalarType, Fault>
    ensures meaning { IfOk result (λ s. unsigned name.now size.now ≡ Ok (domain_of s)) }
    ensures refusal { IfErr result (λ e. Tells e (unsigned name.now size.now)) }
{
    let size = static_value(alloc, &name.word, size)?;
    if !is_size(size) {
        return Err(Fault::Refused(refused_at(alloc, Rule::BadRange, name)?));
    }
    Ok(ScalarType::Integer {
        first: 0,
        last: (1u64 << size as u32) - 1,
        size: size as u8,
    })
}

fn is_range(first: i128, last: i128, size: i128) -> bool
    ensures { result ≡ is_range first last size }
{
    is_size(size) && 0 <= first && first <= last && last < 1i128 << size as u32
}

fn range(
    alloc: Global,
    name: &Named,
    first: &ExprTree,
    last: &ExprTree,
    size: &ExprTree,
) -> Result<ScalarType, Fault>
    ensures meaning { IfOk result (λ s. range name.now first.now last.now size.now ≡ Ok (domain_of s)) }
    ensures refusal { IfErr result (λ e. Tells e (range name.now first.now last.now size.now)) }
{
    let first = static_value(alloc, &name.word, first)?;
    let last = static_value(alloc, &name.word, last)?;
    let size = static_value(alloc, &name.word, size)?;
    if !is_range(first, last, size) {
        return Err(Fault::Refused(refused_at(alloc, Rule::BadRange, name)?));
    }
    Ok(ScalarType::Integer {
        first: first as u64,
        last: last as u64,
        size: size as u8,
    })
}

fn number_of_literal(
    alloc: Global,
    owner: &Word,
    place: usize,
    literal: &LiteralTree,
) -> Result<i128, Fault>
    ensures meaning { IfOk result (λ z. number_of_literal owner.now place literal.now ≡ Ok z) }
    ensures refusal { IfErr result (λ e. Tells e (number_of_literal owner.now place literal.now)) }
{
    match &literal.number {
        None => Ok(place as i128),
        Some(tree) => {
            let value = static_value(alloc, owner, tree)?;
            Ok(value)
        }
    }
}

// The literals' numbers, in order.
fn numbers_of(alloc: Global, owner: &Word, literals: &[LiteralTree]) -> Result<Vec<i128>, Fault>
    ensures meaning { IfOk result (λ zs. numbers_of owner.now literals.now ≡ Ok zs.items) }
    ensures refusal { IfErr result (λ e. Tells e (numbers_of owner.now literals.now)) }
{
    let mut numbers = Vec::new(alloc);
    for literal in literals {
        let number = number_of_literal(alloc, owner, numbers.len(), literal)?;
        numbers.push(number)?;
    }
    Ok(numbers)
}

fn size_of_aspect(alloc: Global, owner: &Word, aspect: &EnumAspect) -> Result<Option<i128>, Fault>
    ensures meaning { IfOk result (λ z. size_of_aspect owner.now aspect.now ≡ Ok z) }
    ensures refusal { IfErr result (λ e. Tells e (size_of_aspect owner.now aspect.now)) }
{
    match aspect {
        EnumAspect::Size(_, tree) => {
            let value = static_value(alloc, owner, tree)?;
            Ok(Some(value))
        }
        EnumAspect::AlwaysValid(_, _) => Ok(None),
    }
}

// What each aspect says of the size.
fn size_of_aspects(
    alloc: Global,
    owner: &Word,
    aspects: &[EnumAspect],
) -> Result<Vec<Option<i128>>, Fault>
    ensures meaning { IfOk result (λ zs. size_of_aspects owner.now aspects.now ≡ Ok zs.items) }
    ensures refusal { IfErr result (λ e. Tells e (size_of_aspects owner.now aspects.now)) }
{
    let mut sizes = Vec::new(alloc);
    for aspect in aspects {
        let size = size_of_aspect(alloc, owner, aspect)?;
        sizes.push(size)?;
    }
    Ok(sizes)
}

fn first_some(sizes: &[Option<i128>]) -> Option<i128>
    ensures { result ≡ first_some sizes.now }
{
    match sizes.split_first() {
        None => None,
        Some((Some(size), _)) => Some(*size),
        Some((None, rest)) => first_some(rest),
    }
}

fn always_valid(aspects: &[EnumAspect]) -> bool
    ensures { result ≡ always_valid aspects.now }
{
    match aspects.split_first() {
        None => false,
        Some((EnumAspect::Size(_, _), rest)) => always_valid(rest),
        Some((EnumAspect::AlwaysValid(_, valid), _)) => *valid,
    }
}

fn are_numbers(size: i128, numbers: &[i128]) -> bool
    requires { is_size size ≡ true }
    ensures { result ≡ are_numbers size numbers.now }
{
    let limit = 1i128 << size as u32;
    numbers.iter().all(|number| 0 <= *number && *number < limit)
}

fn is_distinct(alloc: Global, numbers: &[i128]) -> Result<bool, NoMemory>
    ensures { IfOk result (λ b. b ≡ is_distinct numbers.now) }
{
    let mut seen = IndexSet::new(alloc);
    for number in numbers {
        if !seen.insert(*number)? {
            return Ok(false);
        }
    }
    Ok(true)
}

// Whether these are the numbers of an enumeration of that size.
fn are_literals(alloc: Global, size: i128, numbers: &[i128]) -> Result<bool, NoMemory>
    ensures { IfOk result (λ b. b ≡ are_literals size numbers.now) }
{
    if !is_size(size) || numbers.is_empty() || !are_numbers(size, numbers) {
        return Ok(false);
    }
    is_distinct(alloc, numbers)
}

fn number_at(numbers: &[i128], index: usize) -> u64
    requires { are_numbers (pos 63) numbers.now ≡ true }
    ensures { result ≡ number_at (slice_get numbers.now index) }
{
    match numbers.get(index) {
        None => 0,
        Some(number) => *number as u64,
    }
}

fn literal_at(
    alloc: Global,
    numbers: &[i128],
    index: usize,
    literal: &LiteralTree,
) -> Result<Literal, Fault>
    requires { are_numbers (pos 63) numbers.now ≡ true }
    ensures meaning { IfOk result (λ l. literal_at numbers.now index literal.now ≡ Ok l) }
    ensures refusal { IfErr result (λ e. Tells e (literal_at numbers.now index literal.now)) }
{
    let name = spelled(alloc, &literal.name)?;
    Ok(Literal {
        name,
        number: number_at(numbers, index),
    })
}

// The literals with their numbers.
fn literals_of(
    alloc: Global,
    numbers: &[i128],
    literals: &[LiteralTree],
) -> Result<Vec<Literal>, Fault>
    requires { are_numbers (pos 63) numbers.now ≡ true }
    ensures meaning { IfOk result (λ ls. each_from (literal_at numbers.now) 0 literals.now ≡ Ok ls.items) }
    ensures refusal { IfErr result (λ e. Tells e (each_from (literal_at numbers.now) 0 literals.now)) }
{
    let mut named = Vec::new(alloc);
    for literal in literals {
        let literal = literal_at(alloc, numbers, named.len(), literal)?;
        named.push(literal)?;
    }
    Ok(named)
}

fn enumeration(
    alloc: Global,
    name: &Named,
    literals: &[LiteralTree],
    aspects: &[EnumAspect],
) -> Result<ScalarType, Fault>
    ensures meaning { IfOk result (λ s. enumeration name.now literals.now aspects.now ≡ Ok (domain_of s)) }
    ensures refusal { IfErr result (λ e. Tells e (enumeration name.now literals.now aspects.now)) }
{
    let numbers = numbers_of(alloc, &name.word, literals)?;
    let sizes = size_of_aspects(alloc, &name.word, aspects)?;
    let Some(size) = first_some(&sizes) else {
        return Err(Fault::Refused(refused_at(alloc, Rule::MissingSize, name)?));
    };
    if !are_literals(alloc, size, &numbers)? {
        return Err(Fault::Refused(refused_at(alloc, Rule::BadRange, name)?));
    }
    let literals = literals_of(alloc, &numbers, literals)?;
    Ok(ScalarType::Enumeration {
        literals,
        size: size as u8,
        always_valid: always_valid(aspects),
    })
}

// The scalar type of a definition, if it is one: its expressions are of numbers alone, an enumeration has its Size
// (MissingSize), and the numbers are those of its size (BadRange).
fn defined(alloc: Global, name: &Named, def: &DefTree) -> Result<Option<ScalarType>, Fault>
    ensures meaning { IfOk result (λ s. definition name.now def.now ≡ Ok (option_map domain_of s)) }
    ensures refusal { IfErr result (λ e. Tells e (definition name.now def.now)) }
{
    match def {
        DefTree::Unsigned(size) => {
            let scalar = unsigned(alloc, name, size)?;
            Ok(Some(scalar))
        }
        DefTree::Range(first, last, size) => {
            let scalar = range(alloc, name, first, last, size)?;
            Ok(Some(scalar))
        }
        DefTree::Enumeration(literals, aspects) => {
            let scalar = enumeration(alloc, name, literals, aspects)?;
            Ok(Some(scalar))
        }
        _ => Ok(None),
    }
}

/// The scalar type of a definition, if it is one: its expressions are of numbers alone, an enumeration has its Size
/// (MissingSize), and the numbers are those of its size (BadRange).
pub fn definition(alloc: Global, name: &Named, def: &DefTree) -> Result<Option<ScalarType>, Fault>
    ensures meaning { IfOk result (λ s. definition name.now def.now ≡ Ok (option_map domain_of s)) }
    ensures refusal { IfErr result (λ e. Tells e (definition name.now def.now)) }
    ensures measured { IfOk result (λ s. IfSome s (λ t. IsMeasured (domain_of t))) }
{
    let scalar = defined(alloc, name, def)?;
    Ok(scalar)
}
