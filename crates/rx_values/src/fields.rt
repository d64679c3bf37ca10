//! Fields and literals, found by their names and numbers.

ghost use Rattle.std.specs.Prelude.{◌≡◌, ◌≤◌, ◌^◌, ◌==◌, ◌<◌, IfSome, length, find, option_map, slice_get};
ghost use Rattle.rx_values.specs.Names.{field_named, is_same, literal_named, literal_numbered};

use rx_graph::Field;
use rx_types::{FieldId, Literal, Name};

// Whether the bytes are the name, whatever the case of their letters.
fn is_same(name: &Name, bytes: &[u8]) -> bool
    ensures { result ≡ is_same name.now bytes.now }
{
    name.is(bytes)
}

// The place of the first field of this name.
fn place_named(fields: &[Field], name: &[u8]) -> Option<usize>
    ensures place { result ≡ field_named fields.now name.now }
    ensures within { IfSome result (λ place. place < length fields.now) }
{
    fields.iter().position(|field| is_same(&field.name, name))
}

/// The first field of this name, whatever the case of its letters.
pub(crate) fn field_named(fields: &[Field], name: &[u8]) -> Option<FieldId>
    requires { length fields.now ≤ 2 ^ 16 }
    ensures { result ≡ field_named fields.now name.now }
{
    let place = place_named(fields, name)?;
    Some(place as FieldId)
}

/// The number of the first literal of this name, whatever the case of its letters.
pub(crate) fn literal_named(literals: &[Literal], name: &[u8]) -> Option<u64>
    ensures { result ≡ literal_named literals.now name.now }
{
    let literal = literals
        .iter()
        .find(|literal| is_same(&literal.name, name))?;
    Some(literal.number)
}

/// The first literal of this number.
pub(crate) fn literal_numbered<'a>(literals: &'a [Literal], number: u64) -> Option<&'a Literal>
    ensures { option_map (λ l. l.now) result ≡ literal_numbered literals.entry.now number }
{
    literals.iter().find(|literal| literal.number == number)
}
