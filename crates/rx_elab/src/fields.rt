//! The types of a message's fields.

ghost use Rattle.std.specs.Prelude.{◌≡◌, IfOk, IfErr};
ghost use Rattle.rx_judge.specs.Meaning.{Tells, each_from};
ghost use Rattle.rx_elab.specs.Fields.{held_as, field_held};

use crate::types::{KnownScalar, KnownType, type_named};
use rx_judge::{Fault, Table, refused_at};
use rx_syntax::{FieldTree, Named, Rule, Word};
use std::alloc::Global;

/// What a field holds: the numbers of a scalar type, or bytes.
#[derive(Clone, Copy, Debug, PartialEq, Eq)]
pub enum Held {
    Scalar(KnownScalar),
    Opaque,
}

fn held_as(alloc: Global, name: &Named, known: KnownType) -> Result<Held, Fault>
    ensures meaning { IfOk result (λ h. held_as name.now known ≡ Ok h) }
    ensures refusal { IfErr result (λ e. Tells e (held_as name.now known)) }
{
    match known {
        KnownType::Scalar(scalar) => Ok(Held::Scalar(scalar)),
        KnownType::Opaque => Ok(Held::Opaque),
        KnownType::Other => Err(Fault::Refused(refused_at(alloc, Rule::WrongType, name)?)),
    }
}

fn field_held(
    alloc: Global,
    types: &Table<KnownType>,
    package: &Word,
    withs: &[Named],
    field: &FieldTree,
) -> Result<Held, Fault>
    ensures meaning { IfOk result (λ h. field_held types.now «package».now withs.now 0 field.now ≡ Ok h) }
    ensures refusal { IfErr result (λ e. Tells e (field_held types.now «package».now withs.now 0 field.now)) }
{
    let known = type_named(alloc, types, package, withs, &field.kind)?;
    let held = held_as(alloc, &field.kind.name, known)?;
    Ok(held)
}

/// What each field of a message holds; UnknownName where the name of its type stands for nothing, and WrongType where
/// it is no type of a field.
pub fn fields_held(
    alloc: Global,
    types: &Table<KnownType>,
    package: &Word,
    withs: &[Named],
    fields: &[FieldTree],
) -> Result<Vec<Held>, Fault>
    ensures meaning { IfOk result (λ hs. each_from (field_held types.now «package».now withs.now) 0 fields.now ≡ Ok hs.items) }
    ensures refusal { IfErr result (λ e. Tells e (each_from (field_held types.now «package».now withs.now) 0 fields.now)) }
{
    let mut all = Vec::new(alloc);
    for field in fields {
        let held = field_held(alloc, types, package, withs, field)?;
        all.push(held)?;
    }
    Ok(all)
}
