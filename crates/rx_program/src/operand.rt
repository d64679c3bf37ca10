//! The message that is asked for.
ghost use Rattle.std.specs.Prelude.{◌≡◌, option_map};
ghost use Rattle.rx_graph.specs.Graph.{graph_of};
ghost use Rattle.rx_graph.specs.Typed.{typed};
ghost use Rattle.rx_closure.specs.Names.{is_same};
ghost use Rattle.rx_program.specs.Operand.{is_of, message_in};

use rx_forms::{Checkable, CheckableSpec};
use rx_graph::Message;
use rx_types::Name;

// Whether two names are the same, whatever the case of their letters.
fn is_same(one: &Name, other: &Name) -> bool
    ensures { result ≡ is_same one.now other.now }
{
    one.bytes().eq_ignore_ascii_case(other.bytes())
}

// Whether the message is the one of these names.
fn is_of(owner: &Name, name: &Name, message: &Message) -> bool
    ensures { result ≡ is_of owner.now name.now (graph_of message.now) }
{
    let of_package = is_same(&message.package, owner);
    let named = is_same(&message.name, name);
    of_package && named
}

/// The message of a package by its name.
pub fn find_message<'s>(spec: &'s CheckableSpec, owner: &Name, name: &Name) -> Option<Checkable<'s>>
    ensures { result ≡ option_map (typed spec.now.domains) (message_in owner.now name.now spec.now.graphs) }
{
    for place in 0..spec.count() {
        if let Some(message) = spec.message(place) {
            if is_of(owner, name, message.elaborated().message()) {
                return Some(message);
            }
        }
    }
    None
}
