//! The places of a message's fields, by their names.

ghost use Rattle.std.specs.Prelude.{◌≡◌, IfOk};
ghost use Rattle.rx_links.specs.Positions.{positions};

use rx_judge::{NoMemory, Table};
use rx_syntax::FieldTree;
use std::alloc::Global;

/// The places of the fields in their message, by their names.
pub fn positions(alloc: Global, fields: &[FieldTree]) -> Result<Table<usize>, NoMemory>
    ensures { IfOk result (λ table. table ≡ positions fields.now) }
{
    let mut table = Table::new(alloc);
    for (index, field) in fields.iter().enumerate() {
        table.add(alloc, b"", field.name.word.as_str().as_bytes(), index)?;
    }
    Ok(table)
}
