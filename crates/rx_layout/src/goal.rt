// What is checked of a message.
use rx_forms::Form;
use rx_graph::Node;
use rx_linear::Row;
use rx_proof::Query;
use rx_types::FieldId;

/// A check and its subject. The links of a node are numbered from 1 in their order.
#[derive(Clone, Copy, Debug, PartialEq, Eq)]
pub enum Goal {
    /// On no partial path to the node are both links taken.
    Exclusive(Node, u16, u16),
    /// The link is taken on some path.
    Taken(Node, u16),
    /// Some partial path ends in the field.
    Reached(FieldId),
    /// First and Size of the link's target are not below 0.
    Position(Node, u16),
    /// First and Size of the link's target, a field of bytes, are multiples of 8.
    Grid(Node, u16),
    /// The Size of the link's target is that of the field that it lies over.
    Overlay(Node, u16),
    /// The link's target begins at the greatest end of the fields before it; at null the last field has the greatest end.
    Cover(Node, u16),
    /// At null the last field ends on a byte.
    Whole(Node, u16),
}
