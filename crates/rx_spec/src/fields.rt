//! The fields of a message: what their names stand for in its expressions, and what they are.

ghost use Rattle.std.specs.Prelude.{◌≡◌, ◌<◌, ◌≤◌, ◌^◌, [], length, slice_get, IfOk, IfErr};
ghost use Rattle.rx_judge.specs.Meaning.{Tells, each_from};
ghost use Rattle.rx_judge.specs.Table.{added};
ghost use Rattle.rx_spec.specs.Messages.{kind_held, known_fields, type_held, field_meant};

use rx_elab::{Held, Laying, overlay_in};
use rx_graph::Field;
use rx_judge::{Fault, FieldKind, KnownField, NoMemory, Table, spelled};
use rx_syntax::FieldTree;
use rx_types::{FieldId, FieldType};
use std::alloc::Global;

fn kind_held(held: Held) -> FieldKind
    ensures { result ≡ kind_held held }
{
    match held {
        Held::Scalar(scalar) => FieldKind::Scalar(scalar.kind, scalar.greatest),
        Held::Opaque => FieldKind::Bytes,
    }
}

fn add_known(
    alloc: Global,
    table: &mut Table<KnownField>,
    index: usize,
    held: Held,
    field: &FieldTree,
) -> Result<(), NoMemory>
    requires { index < 2 ^ 16 }
    ensures { IfOk result (λ x. table.new ≡ added table.old [] field.now.name.word (record { id = index; kind = kind_held held })) }
{
    let known = KnownField {
        id: index as FieldId,
        kind: kind_held(held),
    };
    table.add(alloc, b"", field.name.word.as_str().as_bytes(), known)?;
    Ok(())
}

/// The fields by their names, each with its place in the message.
pub(crate) fn known_fields(
    alloc: Global,
    held: &[Held],
    fields: &[FieldTree],
) -> Result<Table<KnownField>, NoMemory>
    requires { length fields.now ≤ 2 ^ 16 }
    ensures { IfOk result (λ table. table ≡ known_fields held.now fields.now) }
{
    let mut table = Table::new(alloc);
    let mut rest = held;
    for (index, field) in fields.iter().enumerate() {
        let Some((first, others)) = rest.split_first() else {
            return Ok(table);
        };
        add_known(alloc, &mut table, index, *first, field)?;
        rest = others;
    }
    Ok(table)
}

fn type_held(held: Option<Held>) -> FieldType
    ensures { result ≡ type_held held }
{
    match held {
        None => FieldType::Opaque,
        Some(Held::Scalar(scalar)) => FieldType::Scalar(scalar.id),
        Some(Held::Opaque) => FieldType::Opaque,
    }
}

pub(crate) fn held_at(held: &[Held], index: usize) -> Option<Held>
    ensures { result ≡ slice_get held.now index }
{
    held.get(index).copied()
}

fn field_meant(
    alloc: Global,
    held: &[Held],
    layings: &[Laying],
    index: usize,
    field: &FieldTree,
) -> Result<Field, Fault>
    ensures meaning { IfOk result (λ f. field_meant held.now layings.now index field.now ≡ Ok f) }
    ensures refusal { IfErr result (λ e. Tells e (field_meant held.now layings.now index field.now)) }
{
    let name = spelled(alloc, &field.name)?;
    Ok(Field {
        name,
        kind: type_held(held_at(held, index)),
        overlay: overlay_in(layings, index),
    })
}

/// The fields with their types and overlays; UnknownName at a name that is none.
pub(crate) fn fields_meant(
    alloc: Global,
    held: &[Held],
    layings: &[Laying],
    fields: &[FieldTree],
) -> Result<Vec<Field>, Fault>
    ensures meaning { IfOk result (λ fs. each_from (field_meant held.now layings.now) 0 fields.now ≡ Ok fs.items) }
    ensures refusal { IfErr result (λ e. Tells e (each_from (field_meant held.now layings.now) 0 fields.now)) }
{
    let mut all = Vec::new(alloc);
    for (index, field) in fields.iter().enumerate() {
        let meant = field_meant(alloc, held, layings, index, field)?;
        all.push(meant)?;
    }
    Ok(all)
}
