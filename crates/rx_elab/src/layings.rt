//! Where the links of a message lead, and over which fields they lay their targets.

ghost use Rattle.std.specs.Prelude.{◌≡◌, find, IfOk};
ghost use Rattle.std.specs.Option.{option_copied};
ghost use Rattle.rx_judge.specs.Names.{scope_of};
ghost use Rattle.rx_elab.specs.Firsts.{laid_if_any, unlaid_if_any, first_in, clause_first, field_first, target_first, way_first, laying_of, layings_of, is_at, is_over, lays_otherwise, is_mixed, is_written_so, writes_otherwise, is_mixed_name, unless_mixed, overlay_in};

use crate::firsts::{Written, is_written, laid, unlaid};
use rx_judge::{NoMemory, Scope};
use rx_links::{Stop, Way, clause_of, clauses_of};
use rx_syntax::{AspectTree, ExprTree, FieldTree, MessageTree, ThenTree};
use rx_types::FieldId;
use std::alloc::Global;

/// Where a link leads, and the field over which it lays its target, if it does; beside that the name of a First
/// `Y'First` that stands for no field.
#[derive(Debug, Drop)]
pub struct Laying {
    pub target: Stop,
    pub over: Option<FieldId>,
    pub beside: Option<Written>,
}

// ---- Firsts

fn first_in(aspects: &[AspectTree]) -> Option<&ExprTree>
    ensures { option_copied result ≡ first_in aspects.now }
{
    let mut first = None;
    for aspect in aspects {
        if let AspectTree::First(_, tree) = aspect {
            first = Some(tree);
        }
    }
    first
}

fn clause_first(clause: Option<&ThenTree>) -> Option<&ExprTree>
    ensures { option_copied result ≡ clause_first (option_copied clause.entry) }
{
    match clause {
        None => None,
        Some(then) => first_in(&then.aspects),
    }
}

fn field_first(field: Option<&FieldTree>) -> Option<&ExprTree>
    ensures { option_copied result ≡ field_first (option_copied field.entry) }
{
    match field {
        None => None,
        Some(field) => first_in(&field.aspects),
    }
}

fn target_first(fields: &[FieldTree], target: Stop) -> Option<&ExprTree>
    ensures { option_copied result ≡ target_first fields.now target }
{
    match target {
        Stop::Start => None,
        Stop::At(index) => field_first(fields.get(index)),
        Stop::Null => None,
    }
}

// The First of a link: that of its clause, or else that of its target.
fn way_first(message: &MessageTree, way: Way) -> Option<&ExprTree>
    ensures { option_copied result ≡ way_first message.now way }
{
    let clauses = clauses_of(&message.start, &message.fields, way.source);
    match clause_first(clause_of(clauses, way.clause)) {
        Some(first) => Some(first),
        None => target_first(&message.fields, way.target),
    }
}

// ---- layings

fn laid_if_any(
    alloc: Global,
    scope: &Scope<'_>,
    first: Option<&ExprTree>,
) -> Result<Option<FieldId>, NoMemory>
    ensures { IfOk result (λ x. x ≡ laid_if_any (scope_of scope.now) (option_copied first.entry)) }
{
    match first {
        None => Ok(None),
        Some(tree) => laid(alloc, scope, tree),
    }
}

// Y of the First, if there is one, where Y is no field.
fn unlaid_if_any(
    alloc: Global,
    scope: &Scope<'_>,
    first: Option<&ExprTree>,
) -> Result<Option<Written>, NoMemory>
    ensures { IfOk result (λ x. x ≡ unlaid_if_any (scope_of scope.now) (option_copied first.entry)) }
{
    match first {
        None => Ok(None),
        Some(tree) => unlaid(alloc, scope, tree),
    }
}

// Where a link leads, and over what it lays its target.
fn laying_of(
    alloc: Global,
    scope: &Scope<'_>,
    message: &MessageTree,
    way: Way,
) -> Result<Laying, NoMemory>
    ensures { IfOk result (λ l. l ≡ laying_of (scope_of scope.now) message.now way) }
{
    let over = laid_if_any(alloc, scope, way_first(message, way))?;
    let beside = unlaid_if_any(alloc, scope, way_first(message, way))?;
    Ok(Laying {
        target: way.target,
        over,
        beside,
    })
}

/// Where each link leads, and over which field it lays its target.
pub fn layings_of(
    alloc: Global,
    scope: &Scope<'_>,
    message: &MessageTree,
    ways: &[Way],
) -> Result<Vec<Laying>, NoMemory>
    ensures { IfOk result (λ ls. ls.items ≡ layings_of (scope_of scope.now) message.now ways.now) }
{
    let mut layings = Vec::new(alloc);
    for way in ways {
        layings.push(laying_of(alloc, scope, message, *way)?)?;
    }
    Ok(layings)
}

// ---- overlays

fn is_at(index: usize, target: Stop) -> bool
    ensures { result ≡ is_at index target }
{
    match target {
        Stop::Start => false,
        Stop::At(other) => index == other,
        Stop::Null => false,
    }
}

fn is_over(field: FieldId, over: Option<FieldId>) -> bool
    ensures { result ≡ is_over field over }
{
    match over {
        None => false,
        Some(other) => field == other,
    }
}

fn lays_otherwise(index: usize, field: FieldId, laying: &Laying) -> bool
    ensures { result ≡ lays_otherwise index field laying.now }
{
    is_at(index, laying.target) && !is_over(field, laying.over)
}

/// Whether some link to a field does not lay it over the other.
pub(crate) fn is_mixed(layings: &[Laying], index: usize, field: FieldId) -> bool
    ensures { result ≡ is_mixed layings.now index field }
{
    layings
        .iter()
        .any(|laying| lays_otherwise(index, field, laying))
}

// Whether there is a name, and it is this one.
fn is_written_so(name: &Written, beside: Option<&Written>) -> bool
    ensures { result ≡ is_written_so name.now (option_copied beside.entry) }
{
    match beside {
        None => false,
        Some(other) => is_written(name, other),
    }
}

// Whether the link leads to the field, and has no First over this name.
fn writes_otherwise(index: usize, name: &Written, laying: &Laying) -> bool
    ensures { result ≡ writes_otherwise index name.now laying.now }
{
    is_at(index, laying.target) && !is_written_so(name, laying.beside.as_ref())
}

/// Whether some link to a field has no First over this name.
pub(crate) fn is_mixed_name(layings: &[Laying], index: usize, name: &Written) -> bool
    ensures { result ≡ is_mixed_name layings.now index name.now }
{
    layings
        .iter()
        .any(|laying| writes_otherwise(index, name, laying))
}

fn unless_mixed(layings: &[Laying], index: usize, over: Option<FieldId>) -> Option<FieldId>
    ensures { result ≡ unless_mixed layings.now index over }
{
    match over {
        None => None,
        Some(field) => {
            if is_mixed(layings, index, field) {
                None
            } else {
                Some(field)
            }
        }
    }
}

// The first link to a field.
fn link_to(layings: &[Laying], index: usize) -> Option<&Laying>
    ensures { option_copied result ≡ find (λ l. is_at index l.target) layings.now }
{
    layings.iter().find(|laying| is_at(index, laying.target))
}

/// The field over which all links to a field lay it, if there is one.
pub fn overlay_in(layings: &[Laying], index: usize) -> Option<FieldId>
    ensures { result ≡ overlay_in layings.now index }
{
    match link_to(layings, index) {
        None => None,
        Some(laying) => unless_mixed(layings, index, laying.over),
    }
}
