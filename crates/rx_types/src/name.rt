// Names.

ghost use Rattle.std.specs.Prelude.{◌≡◌, IsTrue, ◌↔◌, IfOk, length};
ghost use Rattle.std.specs.List.{list_all};
ghost use Rattle.rx_types.specs.Names.{IsName, IsSameName, is_name_byte};

use crate::fault::NoMemory;
use std::alloc::Global;
use std::marker::Model;

/// A name as it is declared, seen as its bytes: ASCII letters, digits and `_`.
#[derive(Debug, Drop)]
pub struct Name {
    bytes: Vec<u8>,
}

impl Model for Name {
    ghost use Rattle.std.specs.Prelude.{List, ℕ};
    ghost use Rattle.rx_types.specs.Names.{IsName};

    ghost Value = { List ℕ };

    ghost view = { λ name. name.bytes.items };

    ghost invariant = { λ name. IsName name.bytes.items };
}

impl Name {
    /// The name of these bytes.
    pub fn make(alloc: Global, bytes: &[u8]) -> Result<Name, NoMemory>
        requires { IsName bytes.now }
        ensures { IfOk result (λ name. name ≡ bytes.now) }
    {
        let bytes = Vec::from_slice(alloc, bytes)?;
        Ok(Name { bytes })
    }

    /// The bytes, as they are printed.
    pub fn bytes(&self) -> &[u8]
        ensures bytes { result.now ≡ self.now }
        ensures name { IsName result.now }
    {
        self.bytes.as_slice()
    }

    /// The same name once more.
    pub fn copy(&self, alloc: Global) -> Result<Name, NoMemory>
        ensures { IfOk result (λ name. name ≡ self.now) }
    {
        Name::make(alloc, self.bytes())
    }

    /// Whether the two are one name, whatever the case of their letters.
    pub fn is_same(&self, other: &Name) -> bool
        ensures { IsTrue result ↔ IsSameName self.now other.now }
    {
        self.is(other.bytes())
    }

    /// Whether the bytes spell the name, whatever the case of its letters.
    pub fn is(&self, bytes: &[u8]) -> bool
        ensures { IsTrue result ↔ IsSameName self.now bytes.now }
    {
        self.bytes().eq_ignore_ascii_case(bytes)
    }
}

// Whether the byte may stand in a name.
fn is_name_byte(byte: u8) -> bool
    ensures { result ≡ is_name_byte byte }
{
    byte.is_ascii_alphanumeric() || byte == b'_'
}

/// Whether the bytes may be a name's: ASCII letters, digits and `_`.
pub fn is_name(bytes: &[u8]) -> bool
    ensures { result ≡ list_all is_name_byte bytes.now }
{
    bytes.iter().all(|byte| is_name_byte(*byte))
}
