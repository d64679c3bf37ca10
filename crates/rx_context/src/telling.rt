//! What a plan tells of its message.

ghost use Rattle.std.specs.Prelude.{◌≡◌, List, Some, IsSome, IsTrue, ◌↔◌, option_map, slice_get};
ghost use Rattle.rx_types.specs.Domain.{Domain, size_of, IsNumberOf};
ghost use Rattle.rx_graph.specs.Graph.{Graph, overlay_of, type_of};
ghost use Rattle.rx_context.specs.Plan.{StandsFor, IsKnown};
ghost use Rattle.rx_context.specs.Steps.{IsTaken};

use crate::advance::{Taken, advance};
use crate::plan::Plan;
use rx_graph::Node;
use rx_types::{Env, FieldId, contains};

impl Plan {
    /// Where the link of the node leads that is taken at the end of a path.
    pub fn next(&self, at: Node, env: &Env) -> Taken
        requires { IsKnown self.now env.now }
        ensures { (domains : List Domain) (m : Graph) → StandsFor domains m self.now → IsTaken domains m env.now at result }
    {
        advance(self.kept(), at, env)
    }

    /// Whether the field lies over another.
    pub fn is_overlay(&self, field: FieldId) -> bool
        ensures { (domains : List Domain) (m : Graph) → StandsFor domains m self.now → (IsTrue result ↔ IsSome (overlay_of (slice_get m.fields field))) }
    {
        match self.kept().message.fields.get(field as usize) {
            Some(field) => field.overlay.is_some(),
            None => false,
        }
    }

    /// The size of a scalar, in bits, or nothing where the field is no scalar.
    pub fn scalar_size(&self, field: FieldId) -> Option<u8>
        ensures { (domains : List Domain) (m : Graph) → StandsFor domains m self.now → result ≡ option_map size_of (type_of domains m field) }
    {
        self.kept().scalar(field).map(|scalar| scalar.size())
    }

    /// Whether the number is one of the scalar's type.
    pub fn allows(&self, field: FieldId, number: u64) -> bool
        ensures { (domains : List Domain) (m : Graph) (t : Domain) → StandsFor domains m self.now → type_of domains m field ≡ Some t → (IsTrue result ↔ IsNumberOf t number) }
    {
        match self.kept().scalar(field) {
            Some(scalar) => contains(scalar, number),
            None => false,
        }
    }

    /// Whether the bytes of its numbers stand in reverse.
    pub fn low_order(&self) -> bool
        ensures { (domains : List Domain) (m : Graph) → StandsFor domains m self.now → result ≡ m.low_order }
    {
        self.kept().message.low_order
    }
}
