//! How many scalars a path has.

ghost use Rattle.std.specs.Prelude.{◌≡◌, ◌≤◌, ◌∷◌, []};
ghost use Rattle.rx_graph.specs.Graph.{type_of, arrow_of};
ghost use Rattle.rx_forms.specs.Steps.{links_on, scalars_on, scalars_in, target_field};

use rx_graph::{Elaborated, Link};
use rx_types::FieldId;

/// 1 where the field is a scalar, else 0.
fn scalars_in(field: FieldId, message: &Elaborated<'_>) -> usize
    ensures value { result ≡ scalars_in (type_of message.now.domains message.now.graph field) }
    ensures one { result ≤ 1 }
{
    match message.scalar(field) {
        Some(_) => 1,
        None => 0,
    }
}

/// The field to which a link leads, 0 where it leads to none.
fn target_field(link: &Link) -> FieldId
    ensures { result ≡ target_field (arrow_of link.now).target }
{
    match link.target.field() {
        Some(field) => field,
        None => 0,
    }
}

/// 1 where the link at an index leads to a scalar, else 0.
fn scalars_under(index: u16, message: &Elaborated<'_>) -> usize
    ensures value { result ≡ scalars_on message.now.domains message.now.graph (links_on message.now.domains message.now.graph (index ∷ [])) }
    ensures one { result ≤ 1 }
{
    match message.link(index) {
        Some(link) => scalars_in(target_field(link), message),
        None => 0,
    }
}

/// How many scalars the links of a path lead to.
pub(crate) fn scalars_along(path: &[u16], message: &Elaborated<'_>) -> usize
    ensures { result ≡ scalars_on message.now.domains message.now.graph (links_on message.now.domains message.now.graph path.now) }
{
    let mut count = 0;
    for index in path {
        count += scalars_under(*index, message);
    }
    count
}
