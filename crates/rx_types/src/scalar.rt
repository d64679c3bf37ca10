// Scalar types, and what fields hold.

ghost use Rattle.std.specs.Prelude.{◌≡◌, IsTrue, ◌↔◌, ◌<◌, ◌^◌, IfOk};
ghost use Rattle.rx_types.specs.Domain.{domain_of, IsNumberOf, size_of};

use crate::fault::NoMemory;
use crate::name::Name;
use std::alloc::Global;

/// A scalar type's place in its specification.
pub type TypeId = u32;

/// A literal of an enumeration.
#[derive(Debug, Drop)]
pub struct Literal {
    pub name: Name,
    pub number: u64,
}

/// A type of numbers of a fixed size in bits.
#[derive(Debug, Drop)]
pub enum ScalarType {
    /// All numbers from `first` to `last`.
    Integer {
        first: u64,
        last: u64,
        size: u8,
    },
    /// The numbers of the literals, or all numbers of the size where it is always valid.
    Enumeration {
        literals: Vec<Literal>,
        size: u8,
        always_valid: bool,
    },
}

/// What a field holds.
#[derive(Clone, Copy, Debug, PartialEq, Eq)]
pub enum FieldType {
    Scalar(TypeId),
    /// Bytes.
    Opaque,
    /// Bytes whose elements are scalars of this type.
    Sequence(TypeId),
}

impl Literal {
    /// The same literal once more.
    pub fn copy(&self, alloc: Global) -> Result<Literal, NoMemory>
        ensures { IfOk result (λ literal. literal ≡ self.now) }
    {
        let name = self.name.copy(alloc)?;
        Ok(Literal {
            name,
            number: self.number,
        })
    }
}

fn copy_all(alloc: Global, literals: &[Literal]) -> Result<Vec<Literal>, NoMemory>
    ensures { IfOk result (λ all. all.items ≡ literals.now) }
{
    let mut all = Vec::new(alloc);
    for literal in literals {
        all.push(literal.copy(alloc)?)?;
    }
    Ok(all)
}

impl ScalarType {
    /// The same type once more.
    pub fn copy(&self, alloc: Global) -> Result<ScalarType, NoMemory>
        ensures { IfOk result (λ t. domain_of t ≡ domain_of self.now) }
    {
        match self {
            ScalarType::Integer { first, last, size } => Ok(ScalarType::Integer {
                first: *first,
                last: *last,
                size: *size,
            }),
            ScalarType::Enumeration {
                literals,
                size,
                always_valid,
            } => {
                let literals = copy_all(alloc, literals.as_slice())?;
                Ok(ScalarType::Enumeration {
                    literals,
                    size: *size,
                    always_valid: *always_valid,
                })
            }
        }
    }

    /// The size in bits.
    pub fn size(&self) -> u8
        ensures { result ≡ size_of (domain_of self.now) }
    {
        match self {
            ScalarType::Integer { size, .. } => *size,
            ScalarType::Enumeration { size, .. } => *size,
        }
    }
}

/// Whether the number is one of the type's.
pub fn contains(scalar: &ScalarType, number: u64) -> bool
    ensures { IsTrue result ↔ IsNumberOf (domain_of scalar.now) number }
{
    match scalar {
        ScalarType::Integer { first, last, .. } => *first <= number && number <= *last,
        ScalarType::Enumeration {
            literals,
            size,
            always_valid,
        } => {
            if *always_valid {
                fits(number, *size)
            } else {
                literals.iter().any(|literal| literal.number == number)
            }
        }
    }
}

// Whether the number has at most `size` bits.
fn fits(number: u64, size: u8) -> bool
    ensures { IsTrue result ↔ (number < 2 ^ size) }
{
    size >= 64 || number < 1 << size
}
