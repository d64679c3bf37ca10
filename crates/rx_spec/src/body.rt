//! What a message has without its names.

use rx_graph::{Field, Link};

/// Fields and links.
#[derive(Drop)]
pub struct Body {
    pub fields: Vec<Field>,
    pub links: Vec<Link>,
}
