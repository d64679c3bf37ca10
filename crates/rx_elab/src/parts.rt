//! What is written at the fields and links of a message: their conditions and aspects, in order of text.

ghost use Rattle.std.specs.Prelude.{◌≡◌, IfOk, IfErr, map};
ghost use Rattle.std.specs.Option.{option_copied};
ghost use Rattle.rx_types.specs.Tree.{tree_of};
ghost use Rattle.rx_judge.specs.Meaning.{Tells, each_from};
ghost use Rattle.rx_judge.specs.Names.{scope_of};
ghost use Rattle.rx_elab.specs.Through.{through};
ghost use Rattle.rx_elab.specs.Parts.{root_name, number_judged, truth_judged, is_scalar_field, target_in, is_mixed_target, is_mixed_beside, first_stands, first_judged, size_judged, with_aspect, with_condition, no_parts, parts_judged, then_parts, field_parts, message_parts, parts_of, field_parts_of, message_parts_of};

use crate::fault::refused_with;
use crate::firsts::{Written, has_first_form, laid, unlaid};
use crate::layings::{Laying, is_mixed, is_mixed_name};
use rx_judge::{
    Fault, FieldKind, KnownField, Names, NoMemory, Scope, is_number, is_truth, judge, refused,
    root_place,
};
use rx_syntax::{AspectTree, ExprTree, FieldTree, MessageTree, Place, Rule, ThenTree, Word};
use rx_types::{Expr, FieldId};
use std::alloc::Global;

/// A condition, a First and a Size, each if it is written.
#[derive(Debug, Drop)]
pub struct Parts {
    pub condition: Option<Expr>,
    pub first: Option<Expr>,
    pub size: Option<Expr>,
}

/// The parts of a field, and those of its links.
#[derive(Debug, Drop)]
pub struct FieldParts {
    pub own: Parts,
    pub thens: Vec<Parts>,
}

/// The parts of the links of the start, and those of the fields.
#[derive(Debug, Drop)]
pub struct MessageParts {
    pub start: Vec<Parts>,
    pub fields: Vec<FieldParts>,
}

// The name that is told of a whole expression.
fn root_name<'a>(owner: &'a Word, tree: &'a ExprTree) -> &'a Word
    ensures { result.now ≡ root_name owner.now tree.now }
{
    match tree {
        ExprTree::Name(name) => &name.name.word,
        ExprTree::Attribute(name, _) => &name.name.word,
        ExprTree::Member(name, _) => &name.name.word,
        _ => owner,
    }
}

fn number_judged(
    alloc: Global,
    scope: &Scope<'_>,
    owner: &Word,
    tree: &ExprTree,
) -> Result<Expr, Fault>
    ensures meaning { IfOk result (λ x. number_judged (scope_of scope.now) owner.now tree.now ≡ Ok (tree_of x)) }
    ensures refusal { IfErr result (λ e. Tells e (number_judged (scope_of scope.now) owner.now tree.now)) }
{
    let judged = judge(alloc, &Names::Within(*scope), owner, tree)?;
    if !is_number(judged.about.kind) {
        let name = root_name(owner, tree);
        return Err(Fault::Refused(refused(alloc, Rule::WrongType, root_place(tree), name)?));
    }
    Ok(judged.expr)
}

fn truth_judged(
    alloc: Global,
    scope: &Scope<'_>,
    owner: &Word,
    tree: &ExprTree,
) -> Result<Expr, Fault>
    ensures meaning { IfOk result (λ x. truth_judged (scope_of scope.now) owner.now tree.now ≡ Ok (tree_of x)) }
    ensures refusal { IfErr result (λ e. Tells e (truth_judged (scope_of scope.now) owner.now tree.now)) }
{
    let judged = judge(alloc, &Names::Within(*scope), owner, tree)?;
    if !is_truth(judged.about.kind) {
        let name = root_name(owner, tree);
        return Err(Fault::Refused(refused(alloc, Rule::WrongType, root_place(tree), name)?));
    }
    Ok(judged.expr)
}

// The target of a link, where it is a field; null is none.
fn target_in(
    alloc: Global,
    scope: &Scope<'_>,
    target: Option<&Word>,
) -> Result<Option<KnownField>, NoMemory>
    ensures { IfOk result (λ f. f ≡ target_in (scope_of scope.now) (option_copied target.entry)) }
{
    match target {
        None => Ok(None),
        Some(word) => scope.fields.find(alloc, b"", word.as_str().as_bytes()),
    }
}

fn is_scalar_field(field: Option<KnownField>) -> bool
    ensures { result ≡ is_scalar_field field }
{
    match field {
        None => false,
        Some(field) => matches!(field.kind, FieldKind::Scalar(_, _)),
    }
}

// ---- aspects

fn is_mixed_target(layings: &[Laying], target: Option<KnownField>, over: Option<FieldId>) -> bool
    ensures { result ≡ is_mixed_target layings.now target over }
{
    match (target, over) {
        (Some(field), Some(over)) => is_mixed(layings, usize::from(field.id), over),
        (Some(_), None) => false,
        (None, _) => false,
    }
}

// Whether the target has a First over this name at some links, and not at others.
fn is_mixed_beside(layings: &[Laying], target: Option<KnownField>, beside: Option<&Written>) -> bool
    ensures { result ≡ is_mixed_beside layings.now target (option_copied beside.entry) }
{
    match (target, beside) {
        (Some(field), Some(name)) => is_mixed_name(layings, usize::from(field.id), name),
        (Some(_), None) => false,
        (None, _) => false,
    }
}

// A First lays its target as the other links do, and has one of its forms.
fn first_stands(
    alloc: Global,
    scope: &Scope<'_>,
    layings: &[Laying],
    owner: &Word,
    target: Option<KnownField>,
    place: Place,
    tree: &ExprTree,
) -> Result<(), Fault>
    ensures meaning { IfOk result (λ x. first_stands (scope_of scope.now) layings.now owner.now target place tree.now ≡ Ok x) }
    ensures refusal { IfErr result (λ e. Tells e (first_stands (scope_of scope.now) layings.now owner.now target place tree.now)) }
{
    let over = laid(alloc, scope, tree)?;
    let beside = unlaid(alloc, scope, tree)?;
    if is_mixed_target(layings, target, over) || is_mixed_beside(layings, target, beside.as_ref()) {
        return Err(Fault::Refused(refused_with(alloc, Rule::OverlayMixed, place, "First")?));
    }
    if !has_first_form(alloc, scope, owner, tree)? {
        return Err(Fault::Refused(refused_with(alloc, Rule::FirstForm, place, "First")?));
    }
    Ok(())
}

fn first_judged(
    alloc: Global,
    scope: &Scope<'_>,
    layings: &[Laying],
    owner: &Word,
    target: Option<KnownField>,
    place: Place,
    tree: &ExprTree,
) -> Result<Expr, Fault>
    ensures meaning { IfOk result (λ x. first_judged (scope_of scope.now) layings.now owner.now target place tree.now ≡ Ok (tree_of x)) }
    ensures refusal { IfErr result (λ e. Tells e (first_judged (scope_of scope.now) layings.now owner.now target place tree.now)) }
{
    first_stands(alloc, scope, layings, owner, target, place, tree)?;
    number_judged(alloc, scope, owner, tree)
}

fn size_judged(
    alloc: Global,
    scope: &Scope<'_>,
    owner: &Word,
    target: Option<KnownField>,
    place: Place,
    tree: &ExprTree,
) -> Result<Expr, Fault>
    ensures meaning { IfOk result (λ x. size_judged (scope_of scope.now) owner.now target place tree.now ≡ Ok (tree_of x)) }
    ensures refusal { IfErr result (λ e. Tells e (size_judged (scope_of scope.now) owner.now target place tree.now)) }
{
    if is_scalar_field(target) {
        return Err(Fault::Refused(refused_with(alloc, Rule::WrongType, place, "Size")?));
    }
    number_judged(alloc, scope, owner, tree)
}

fn add_aspect(
    alloc: Global,
    scope: &Scope<'_>,
    layings: &[Laying],
    owner: &Word,
    target: Option<KnownField>,
    parts: &mut Parts,
    aspect: &AspectTree,
) -> Result<(), Fault>
    ensures meaning { IfOk result (λ x. with_aspect (scope_of scope.now) layings.now owner.now target (parts_of parts.old) aspect.now ≡ Ok (parts_of parts.new)) }
    ensures refusal { IfErr result (λ e. Tells e (with_aspect (scope_of scope.now) layings.now owner.now target (parts_of parts.old) aspect.now)) }
{
    match aspect {
        AspectTree::First(place, tree) => {
            let first = first_judged(alloc, scope, layings, owner, target, *place, tree)?;
            parts.first = Some(first);
            Ok(())
        }
        AspectTree::Size(place, tree) => {
            let size = size_judged(alloc, scope, owner, target, *place, tree)?;
            parts.size = Some(size);
            Ok(())
        }
    }
}

fn add_condition(
    alloc: Global,
    scope: &Scope<'_>,
    owner: &Word,
    parts: &mut Parts,
    condition: &Option<ExprTree>,
) -> Result<(), Fault>
    ensures meaning { IfOk result (λ x. with_condition (scope_of scope.now) owner.now (parts_of parts.old) condition.now ≡ Ok (parts_of parts.new)) }
    ensures refusal { IfErr result (λ e. Tells e (with_condition (scope_of scope.now) owner.now (parts_of parts.old) condition.now)) }
{
    match condition {
        None => Ok(()),
        Some(tree) => {
            let condition = truth_judged(alloc, scope, owner, tree)?;
            parts.condition = Some(condition);
            Ok(())
        }
    }
}

fn add_aspects(
    alloc: Global,
    scope: &Scope<'_>,
    layings: &[Laying],
    owner: &Word,
    target: Option<KnownField>,
    parts: &mut Parts,
    aspects: &[AspectTree],
) -> Result<(), Fault>
    ensures meaning { IfOk result (λ x. through (with_aspect (scope_of scope.now) layings.now owner.now target) (parts_of parts.old) aspects.now ≡ Ok (parts_of parts.new)) }
    ensures refusal { IfErr result (λ e. Tells e (through (with_aspect (scope_of scope.now) layings.now owner.now target) (parts_of parts.old) aspects.now)) }
{
    for aspect in aspects {
        add_aspect(alloc, scope, layings, owner, target, parts, aspect)?;
    }
    Ok(())
}

// The aspects and the condition that are written in what has the owner's name.
fn parts_judged(
    alloc: Global,
    scope: &Scope<'_>,
    layings: &[Laying],
    owner: &Word,
    target: Option<KnownField>,
    aspects: &[AspectTree],
    condition: &Option<ExprTree>,
) -> Result<Parts, Fault>
    ensures meaning { IfOk result (λ x. parts_judged (scope_of scope.now) layings.now owner.now target aspects.now condition.now ≡ Ok (parts_of x)) }
    ensures refusal { IfErr result (λ e. Tells e (parts_judged (scope_of scope.now) layings.now owner.now target aspects.now condition.now)) }
{
    let mut parts = Parts {
        condition: None,
        first: None,
        size: None,
    };
    add_aspects(alloc, scope, layings, owner, target, &mut parts, aspects)?;
    add_condition(alloc, scope, owner, &mut parts, condition)?;
    Ok(parts)
}

fn then_parts(
    alloc: Global,
    scope: &Scope<'_>,
    layings: &[Laying],
    owner: &Word,
    then: &ThenTree,
) -> Result<Parts, Fault>
    ensures meaning { IfOk result (λ x. then_parts (scope_of scope.now) layings.now owner.now 0 then.now ≡ Ok (parts_of x)) }
    ensures refusal { IfErr result (λ e. Tells e (then_parts (scope_of scope.now) layings.now owner.now 0 then.now)) }
{
    let target = target_in(alloc, scope, then.target.as_ref())?;
    let parts = parts_judged(
        alloc,
        scope,
        layings,
        owner,
        target,
        &then.aspects,
        &then.condition,
    )?;
    Ok(parts)
}

fn thens_parts(
    alloc: Global,
    scope: &Scope<'_>,
    layings: &[Laying],
    owner: &Word,
    thens: &[ThenTree],
) -> Result<Vec<Parts>, Fault>
    ensures meaning { IfOk result (λ xs. each_from (then_parts (scope_of scope.now) layings.now owner.now) 0 thens.now ≡ Ok (map parts_of xs.items)) }
    ensures refusal { IfErr result (λ e. Tells e (each_from (then_parts (scope_of scope.now) layings.now owner.now) 0 thens.now)) }
{
    let mut all = Vec::new(alloc);
    for then in thens {
        let parts = then_parts(alloc, scope, layings, owner, then)?;
        all.push(parts)?;
    }
    Ok(all)
}

fn field_parts(
    alloc: Global,
    scope: &Scope<'_>,
    layings: &[Laying],
    field: &FieldTree,
) -> Result<FieldParts, Fault>
    ensures meaning { IfOk result (λ x. field_parts (scope_of scope.now) layings.now 0 field.now ≡ Ok (field_parts_of x)) }
    ensures refusal { IfErr result (λ e. Tells e (field_parts (scope_of scope.now) layings.now 0 field.now)) }
{
    let word = &field.name.word;
    let target = target_in(alloc, scope, Some(word))?;
    let own = parts_judged(
        alloc,
        scope,
        layings,
        word,
        target,
        &field.aspects,
        &field.condition,
    )?;
    let thens = thens_parts(alloc, scope, layings, word, &field.thens)?;
    Ok(FieldParts { own, thens })
}

fn fields_parts(
    alloc: Global,
    scope: &Scope<'_>,
    layings: &[Laying],
    fields: &[FieldTree],
) -> Result<Vec<FieldParts>, Fault>
    ensures meaning { IfOk result (λ xs. each_from (field_parts (scope_of scope.now) layings.now) 0 fields.now ≡ Ok (map field_parts_of xs.items)) }
    ensures refusal { IfErr result (λ e. Tells e (each_from (field_parts (scope_of scope.now) layings.now) 0 fields.now)) }
{
    let mut all = Vec::new(alloc);
    for field in fields {
        let parts = field_parts(alloc, scope, layings, field)?;
        all.push(parts)?;
    }
    Ok(all)
}

/// The conditions and aspects of a message in order of text, where `owner` is the message's name and its links lay
/// their targets so: UnknownName, WrongType, NotLinear and TooWide by their expressions, WrongType at a Size of a
/// scalar field, FirstForm at a First that has neither form, and OverlayMixed at one that lays its target over a
/// field, where another link lays it otherwise.
pub fn message_parts(
    alloc: Global,
    scope: &Scope<'_>,
    layings: &[Laying],
    owner: &Word,
    message: &MessageTree,
) -> Result<MessageParts, Fault>
    ensures meaning { IfOk result (λ x. message_parts (scope_of scope.now) layings.now owner.now message.now ≡ Ok (message_parts_of x)) }
    ensures refusal { IfErr result (λ e. Tells e (message_parts (scope_of scope.now) layings.now owner.now message.now)) }
{
    let start = thens_parts(alloc, scope, layings, owner, &message.start)?;
    let fields = fields_parts(alloc, scope, layings, &message.fields)?;
    Ok(MessageParts { start, fields })
}
