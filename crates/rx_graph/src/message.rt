// Messages as graphs of fields.

ghost use Rattle.std.specs.Prelude.{◌≡◌, IfOk, IsTrue, ◌↔◌};
ghost use Rattle.rx_types.specs.Tree.{tree_if_any};
ghost use Rattle.rx_graph.specs.Checks.{is_node};
ghost use Rattle.rx_graph.specs.Graph.{arrow_of, arrows, field_at, graph_of};

use crate::fault::NoMemory;
use rx_syntax::Place;
use rx_types::{Expr, FieldId, FieldType, Name};
use std::alloc::Global;

/// A node of a message's graph.
#[derive(Clone, Copy, Debug, PartialEq, Eq)]
pub enum Node {
    Start,
    At(FieldId),
    Null,
}

/// A field, and the field that it lies over, if any.
#[derive(Debug, Drop)]
pub struct Field {
    pub name: Name,
    pub kind: FieldType,
    pub overlay: Option<FieldId>,
}

/// A link from one node to another: when it is taken, and where its target lies if its First or Size says so.
#[derive(Debug, Drop)]
pub struct Link {
    pub source: Node,
    pub target: Node,
    pub condition: Expr,
    pub first: Option<Expr>,
    pub size: Option<Expr>,
    /// The place of the target's name in the text.
    pub place: Place,
}

/// A message.
#[derive(Debug, Drop)]
pub struct Message {
    pub package: Name,
    pub name: Name,
    pub fields: Vec<Field>,
    pub links: Vec<Link>,
    /// Whether the bytes of its numbers stand in reverse.
    pub low_order: bool,
}

impl Node {
    /// Whether it is the other node.
    pub fn is(self, other: Node) -> bool
        ensures { result ≡ is_node self other }
    {
        match (self, other) {
            (Node::Start, Node::Start) => true,
            (Node::At(one), Node::At(other)) => one == other,
            (Node::Null, Node::Null) => true,
            _ => false,
        }
    }

    /// The field, if it is one.
    pub fn field(self) -> Option<FieldId>
        ensures { result ≡ field_at self }
    {
        match self {
            Node::Start => None,
            Node::At(field) => Some(field),
            Node::Null => None,
        }
    }
}

impl Field {
    /// The same field once more.
    pub fn copy(&self, alloc: Global) -> Result<Field, NoMemory>
        ensures { IfOk result (λ field. field ≡ self.now) }
    {
        let name = self.name.copy(alloc)?;
        Ok(Field {
            name,
            kind: self.kind,
            overlay: self.overlay,
        })
    }
}

impl Link {
    /// The same link once more.
    pub fn copy(&self, alloc: Global) -> Result<Link, NoMemory>
        ensures { IfOk result (λ link. arrow_of link ≡ arrow_of self.now) }
    {
        let condition = self.condition.copy(alloc)?;
        let first = copy_if_any(alloc, &self.first)?;
        let size = copy_if_any(alloc, &self.size)?;
        Ok(Link {
            source: self.source,
            target: self.target,
            condition,
            first,
            size,
            place: self.place,
        })
    }
}

impl Message {
    /// The same message once more.
    pub fn copy(&self, alloc: Global) -> Result<Message, NoMemory>
        ensures { IfOk result (λ message. graph_of message ≡ graph_of self.now) }
    {
        let package = self.package.copy(alloc)?;
        let name = self.name.copy(alloc)?;
        let fields = copy_fields(alloc, self.fields.as_slice())?;
        let links = copy_links(alloc, self.links.as_slice())?;
        Ok(Message {
            package,
            name,
            fields,
            links,
            low_order: self.low_order,
        })
    }
}

fn copy_if_any(alloc: Global, expr: &Option<Expr>) -> Result<Option<Expr>, NoMemory>
    ensures { IfOk result (λ e. tree_if_any e ≡ tree_if_any expr.now) }
{
    match expr {
        None => Ok(None),
        Some(expr) => {
            let copy = expr.copy(alloc)?;
            Ok(Some(copy))
        }
    }
}

fn copy_fields(alloc: Global, fields: &[Field]) -> Result<Vec<Field>, NoMemory>
    ensures { IfOk result (λ all. all.items ≡ fields.now) }
{
    let mut all = Vec::new(alloc);
    for field in fields {
        all.push(field.copy(alloc)?)?;
    }
    Ok(all)
}

fn copy_links(alloc: Global, links: &[Link]) -> Result<Vec<Link>, NoMemory>
    ensures { IfOk result (λ all. arrows all.items ≡ arrows links.now) }
{
    let mut all = Vec::new(alloc);
    for link in links {
        all.push(link.copy(alloc)?)?;
    }
    Ok(all)
}
