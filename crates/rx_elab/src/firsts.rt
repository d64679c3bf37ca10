//! The two forms of a First: `X'First`, and `X'Last + K` for a static number K from 1 on.

ghost use Rattle.std.specs.Prelude.{◌≡◌, IfOk, IfErr};
ghost use Rattle.std.specs.Option.{option_copied};
ghost use Rattle.rx_judge.specs.Judged.{is_message, judged};
ghost use Rattle.rx_judge.specs.Meaning.{Tells};
ghost use Rattle.rx_judge.specs.Names.{scope_of, Within};
ghost use Rattle.rx_elab.specs.Firsts.{field_of_thing, field_of_name, is_of_numbers, is_step_by, is_step, is_form, name_of_last, is_behind, has_first_form, field_if_any, laid, package_written, name_written, written_unless, unlaid, same_package, is_written};

use rx_judge::{Fault, Names, NoMemory, Scope, Thing, judge, thing_of};
use rx_syntax::{Attr, ExprTree, NameTree, Named, Operator, Word};
use rx_types::FieldId;
use std::alloc::Global;

/// A name as it is written.
#[derive(Debug, Drop)]
pub struct Written {
    pub package: Option<Word>,
    pub name: Word,
}

// ---- names

fn is_message(name: &NameTree) -> bool
    ensures { result ≡ is_message name.now }
{
    match &name.package {
        None => name.name.word.is("Message"),
        Some(_) => false,
    }
}

fn field_of_thing(thing: Thing) -> Option<FieldId>
    ensures { result ≡ field_of_thing thing }
{
    match thing {
        Thing::Field(field) => Some(field.id),
        Thing::Literal(_) => None,
        Thing::Truth(_) => None,
    }
}

// The field that a name stands for, if it is one; UnknownName where the name stands for nothing.
fn field_of_name(
    alloc: Global,
    scope: &Scope<'_>,
    name: &NameTree,
) -> Result<Option<FieldId>, Fault>
    ensures meaning { IfOk result (λ x. field_of_name (scope_of scope.now) name.now ≡ Ok x) }
    ensures refusal { IfErr result (λ e. Tells e (field_of_name (scope_of scope.now) name.now)) }
{
    if is_message(name) {
        return Ok(None);
    }
    let thing = thing_of(alloc, scope, name)?;
    Ok(field_of_thing(thing))
}

// ---- forms

// Whether there are numbers and operators only.
fn is_of_numbers(tree: &ExprTree) -> bool
    ensures { result ≡ is_of_numbers tree.now }
{
    match tree {
        ExprTree::Number(_, _) => true,
        ExprTree::Name(_) => false,
        ExprTree::Attribute(_, _) => false,
        ExprTree::Member(_, _) => false,
        ExprTree::Neg(_, part) => is_of_numbers(part),
        ExprTree::Not(_, part) => is_of_numbers(part),
        ExprTree::Binary(_, _, left, right) => is_of_numbers(left) && is_of_numbers(right),
    }
}

// Whether it is a static number from 1 on, or is refused for itself.
fn is_step_by(
    alloc: Global,
    scope: &Scope<'_>,
    owner: &Word,
    tree: &ExprTree,
) -> Result<bool, NoMemory>
    ensures { IfOk result (λ b. b ≡ is_step_by (judged (Within (scope_of scope.now)) owner.now tree.now)) }
{
    match judge(alloc, &Names::Within(*scope), owner, tree) {
        Ok(judged) => Ok(judged.about.is_static && 1 <= judged.about.interval.low),
        Err(Fault::Refused(_)) => Ok(true),
        Err(Fault::NoMemory) => Err(NoMemory),
    }
}

fn is_step(
    alloc: Global,
    scope: &Scope<'_>,
    owner: &Word,
    tree: &ExprTree,
) -> Result<bool, NoMemory>
    ensures { IfOk result (λ b. b ≡ is_step (scope_of scope.now) owner.now tree.now) }
{
    if !is_of_numbers(tree) {
        return Ok(false);
    }
    is_step_by(alloc, scope, owner, tree)
}

// Whether the name stands for a field, behind which comes a step; of a name that stands for nothing no form is judged.
fn is_form(alloc: Global, scope: &Scope<'_>, name: &NameTree, step: bool) -> Result<bool, NoMemory>
    ensures { IfOk result (λ b. b ≡ is_form step (field_of_name (scope_of scope.now) name.now)) }
{
    match field_of_name(alloc, scope, name) {
        Ok(Some(_)) => Ok(step),
        Ok(None) => Ok(false),
        Err(Fault::Refused(_)) => Ok(true),
        Err(Fault::NoMemory) => Err(NoMemory),
    }
}

// X of `X'Last`.
fn name_of_last(tree: &ExprTree) -> Option<&NameTree>
    ensures { option_copied result ≡ name_of_last tree.now }
{
    match tree {
        ExprTree::Attribute(name, Attr::Last) => Some(name),
        _ => None,
    }
}

fn is_behind(
    alloc: Global,
    scope: &Scope<'_>,
    owner: &Word,
    last: Option<&NameTree>,
    step: &ExprTree,
) -> Result<bool, NoMemory>
    ensures { IfOk result (λ b. b ≡ is_behind (scope_of scope.now) owner.now (option_copied last.entry) step.now) }
{
    match last {
        None => Ok(false),
        Some(name) => {
            let step = is_step(alloc, scope, owner, step)?;
            is_form(alloc, scope, name, step)
        }
    }
}

/// Whether a First is `X'First`, or `X'Last + K` with a static number K from 1 on.
pub(crate) fn has_first_form(
    alloc: Global,
    scope: &Scope<'_>,
    owner: &Word,
    tree: &ExprTree,
) -> Result<bool, NoMemory>
    ensures { IfOk result (λ b. b ≡ has_first_form (scope_of scope.now) owner.now tree.now) }
{
    match tree {
        ExprTree::Attribute(name, Attr::First) => is_form(alloc, scope, name, true),
        ExprTree::Binary(Operator::Add, _, left, right) => {
            is_behind(alloc, scope, owner, name_of_last(left), right)
        }
        _ => Ok(false),
    }
}

// ---- overlays

fn field_if_any(
    alloc: Global,
    scope: &Scope<'_>,
    name: &NameTree,
) -> Result<Option<FieldId>, NoMemory>
    ensures { IfOk result (λ x. x ≡ field_if_any (field_of_name (scope_of scope.now) name.now)) }
{
    match field_of_name(alloc, scope, name) {
        Ok(field) => Ok(field),
        Err(Fault::Refused(_)) => Ok(None),
        Err(Fault::NoMemory) => Err(NoMemory),
    }
}

/// The field over which a First lays its target: X of `X'First`.
pub(crate) fn laid(
    alloc: Global,
    scope: &Scope<'_>,
    tree: &ExprTree,
) -> Result<Option<FieldId>, NoMemory>
    ensures { IfOk result (λ x. x ≡ laid (scope_of scope.now) tree.now) }
{
    match tree {
        ExprTree::Attribute(name, Attr::First) => field_if_any(alloc, scope, name),
        _ => Ok(None),
    }
}

// ---- names that stand for no field

// The package of a name, if it is written.
fn package_written(alloc: Global, package: Option<&Named>) -> Result<Option<Word>, NoMemory>
    ensures { IfOk result (λ w. w ≡ package_written (option_copied «package».entry)) }
{
    match package {
        None => Ok(None),
        Some(package) => {
            let word = package.word.copy(alloc)?;
            Ok(Some(word))
        }
    }
}

// The name as it is written.
fn name_written(alloc: Global, name: &NameTree) -> Result<Written, NoMemory>
    ensures { IfOk result (λ w. w ≡ name_written name.now) }
{
    let package = package_written(alloc, name.package.as_ref())?;
    let name = name.name.word.copy(alloc)?;
    Ok(Written { package, name })
}

// The name as it is written, unless it is a field's.
fn written_unless(
    alloc: Global,
    name: &NameTree,
    field: Option<FieldId>,
) -> Result<Option<Written>, NoMemory>
    ensures { IfOk result (λ w. w ≡ written_unless name.now field) }
{
    match field {
        None => {
            let name = name_written(alloc, name)?;
            Ok(Some(name))
        }
        Some(_) => Ok(None),
    }
}

/// Y of a First `Y'First` where Y is no field, as it is written.
pub(crate) fn unlaid(
    alloc: Global,
    scope: &Scope<'_>,
    tree: &ExprTree,
) -> Result<Option<Written>, NoMemory>
    ensures { IfOk result (λ w. w ≡ unlaid (scope_of scope.now) tree.now) }
{
    match tree {
        ExprTree::Attribute(name, Attr::First) => {
            let field = field_if_any(alloc, scope, name)?;
            written_unless(alloc, name, field)
        }
        _ => Ok(None),
    }
}

// Whether both are the same package, or none.
fn same_package(left: Option<&Word>, right: Option<&Word>) -> bool
    ensures { result ≡ same_package (option_copied left.entry) (option_copied right.entry) }
{
    match (left, right) {
        (None, None) => true,
        (Some(left), Some(right)) => left.same(right),
        _ => false,
    }
}

/// Whether both are the same name, but for ASCII case.
pub(crate) fn is_written(left: &Written, right: &Written) -> bool
    ensures { result ≡ is_written left.now right.now }
{
    same_package(left.package.as_ref(), right.package.as_ref()) && left.name.same(&right.name)
}
