//! The shape of a message: what its fields hold, and which links it has.

ghost use Rattle.std.specs.Prelude.{◌≡◌, ◌≤◌, length, IfOk, IfErr};
ghost use Rattle.rx_judge.specs.Meaning.{Tells};
ghost use Rattle.rx_links.specs.Cycle.{AreWithin};
ghost use Rattle.rx_spec.specs.Shape.{shape_of, shape_of_code};

use crate::ways::ways_of;
use rx_elab::{Held, KnownType, fields_held};
use rx_judge::{Fault, Table};
use rx_links::Way;
use rx_syntax::{MessageTree, Named, Word};
use std::alloc::Global;

/// What each field holds, and the links in order of text.
#[derive(Drop)]
pub struct Shape {
    pub held: Vec<Held>,
    pub ways: Vec<Way>,
}

/// The shape of a message: UnknownName and WrongType at a type of a field, then what refuses its links.
pub(crate) fn shape_of(
    alloc: Global,
    types: &Table<KnownType>,
    package: &Word,
    withs: &[Named],
    name: &Named,
    message: &MessageTree,
) -> Result<Shape, Fault>
    ensures meaning { IfOk result (λ s. shape_of types.now «package».now withs.now name.now message.now ≡ Ok (shape_of_code s)) }
    ensures refusal { IfErr result (λ e. Tells e (shape_of types.now «package».now withs.now name.now message.now)) }
    ensures within { IfOk result (λ s. AreWithin (length message.now.fields.items) s.ways.items) }
    ensures few { IfOk result (λ s. length message.now.fields.items ≤ 128) }
{
    let held = fields_held(alloc, types, package, withs, &message.fields)?;
    let ways = ways_of(alloc, name, message)?;
    Ok(Shape { held, ways })
}
