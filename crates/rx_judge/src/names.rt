//! What names stand for in an expression.

ghost use Rattle.std.specs.Prelude.{◌≡◌, IfOk, IfErr};
ghost use Rattle.std.specs.List.{list_any};
ghost use Rattle.rx_judge.specs.Meaning.{Tells};
ghost use Rattle.rx_judge.specs.Names.{same, truth_named, own_thing, is_visible, thing_of, scope_of};

use crate::fault::{Fault, NoMemory, refused_at};
use crate::table::Table;
use rx_syntax::{NameTree, Named, Rule, Word};
use rx_types::{FieldId, Kind, TypeId};
use std::alloc::Global;

/// What a field holds: numbers of a kind, up to the greatest one, or bytes.
#[derive(Clone, Copy, Debug, PartialEq, Eq)]
pub enum FieldKind {
    Scalar(Kind, u64),
    Bytes,
}

/// A field of the message.
#[derive(Clone, Copy, Debug, PartialEq, Eq)]
pub struct KnownField {
    pub id: FieldId,
    pub kind: FieldKind,
}

/// A literal of an enumeration: the enumeration, and the literal's number.
#[derive(Clone, Copy, Debug, PartialEq, Eq)]
pub struct KnownLiteral {
    pub kind: TypeId,
    pub number: u64,
}

/// The names that an expression of a message may use.
#[derive(Clone, Copy)]
pub struct Scope<'a> {
    pub package: &'a Word,
    pub withs: &'a [Named],
    pub fields: &'a Table<KnownField>,
    pub literals: &'a Table<KnownLiteral>,
}

/// The names that an expression may use; without any, only numbers may stand.
#[derive(Clone, Copy)]
pub enum Names<'a> {
    Nothing,
    Within(Scope<'a>),
}

/// What a name stands for.
#[derive(Clone, Copy, Debug, PartialEq, Eq)]
pub enum Thing {
    Field(KnownField),
    Literal(KnownLiteral),
    Truth(bool),
}

fn truth(word: &Word) -> Option<Thing>
    ensures { result ≡ truth_named word.now }
{
    if word.is("True") {
        Some(Thing::Truth(true))
    } else if word.is("False") {
        Some(Thing::Truth(false))
    } else {
        None
    }
}

fn own_thing(alloc: Global, scope: &Scope<'_>, word: &Word) -> Result<Option<Thing>, NoMemory>
    ensures { IfOk result (λ x. x ≡ own_thing (scope_of scope.now) word.now) }
{
    let name = word.as_str().as_bytes();
    if let Some(field) = scope.fields.find(alloc, b"", name)? {
        return Ok(Some(Thing::Field(field)));
    }
    if let Some(literal) = scope
        .literals
        .find(alloc, scope.package.as_str().as_bytes(), name)?
    {
        return Ok(Some(Thing::Literal(literal)));
    }
    Ok(truth(word))
}

fn is_among(names: &[Named], word: &Word) -> bool
    ensures { result ≡ list_any (λ n. same n.word word.now) names.now }
{
    names.iter().any(|name| name.word.same(word))
}

fn is_visible(scope: &Scope<'_>, package: &Word) -> bool
    ensures { result ≡ is_visible (scope_of scope.now) «package».now }
{
    scope.package.same(package) || is_among(scope.withs, package)
}

/// What the name stands for; UnknownName where it stands for nothing.
pub fn thing_of(alloc: Global, scope: &Scope<'_>, name: &NameTree) -> Result<Thing, Fault>
    ensures thing { IfOk result (λ x. thing_of (scope_of scope.now) name.now ≡ Ok x) }
    ensures refusal { IfErr result (λ e. Tells e (thing_of (scope_of scope.now) name.now)) }
{
    match &name.package {
        None => match own_thing(alloc, scope, &name.name.word)? {
            Some(thing) => Ok(thing),
            None => Err(Fault::Refused(refused_at(alloc, Rule::UnknownName, &name.name)?)),
        },
        Some(package) => {
            if !is_visible(scope, &package.word) {
                return Err(Fault::Refused(refused_at(alloc, Rule::UnknownName, package)?));
            }
            let prefix = package.word.as_str().as_bytes();
            match scope
                .literals
                .find(alloc, prefix, name.name.word.as_str().as_bytes())?
            {
                Some(literal) => Ok(Thing::Literal(literal)),
                None => Err(Fault::Refused(refused_at(alloc, Rule::UnknownName, &name.name)?)),
            }
        }
    }
}
