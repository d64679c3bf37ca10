// Paths.

ghost use Rattle.std.specs.Prelude.{◌≡◌, IfOk};

use crate::fault::NoMemory;
use std::alloc::Global;
use std::marker::Model;

/// A path, seen as the list of its links' places in the message's list of links.
#[derive(Debug, Drop)]
pub struct Path {
    links: Vec<u16>,
}

impl Model for Path {
    ghost use Rattle.std.specs.Prelude.{List, ℕ};

    ghost Value = { List ℕ };

    ghost view = { λ path. path.links.items };
}

impl Path {
    /// The path over these links.
    pub fn make(alloc: Global, links: &[u16]) -> Result<Path, NoMemory>
        ensures { IfOk result (λ path. path ≡ links.now) }
    {
        let links = Vec::from_slice(alloc, links)?;
        Ok(Path { links })
    }

    /// Its links, in order.
    pub fn links(&self) -> &[u16]
        ensures { result.now ≡ self.now }
    {
        self.links.as_slice()
    }

    /// The same path once more.
    pub fn copy(&self, alloc: Global) -> Result<Path, NoMemory>
        ensures { IfOk result (λ path. path ≡ self.now) }
    {
        Path::make(alloc, self.links())
    }
}
