//! That the names of a message are names.

ghost use Rattle.std.specs.Prelude.{map};
ghost use Rattle.std.specs.List.{AllByRecursion};
ghost use Rattle.rx_types.specs.Domain.{domain_of};
ghost use Rattle.rx_types.specs.Names.{IsName};
ghost use Rattle.rx_values.specs.Laws.{AreNamed, HasNames};

use rx_graph::{Elaborated, Field, Scalar};
use rx_types::{Literal, ScalarType};

// The names of fields are names.
fn fields_are_named(fields: &[Field])
    ensures { AllByRecursion (λ f. IsName f.name) fields.now }
{
    for field in fields {
        field.name.bytes();
    }
}

// The names of literals are names.
fn literals_are_named(literals: &[Literal])
    ensures { AllByRecursion (λ l. IsName l.name) literals.now }
{
    for literal in literals {
        literal.name.bytes();
    }
}

// The names of a scalar type's literals are names.
fn type_is_named(scalar: &ScalarType)
    ensures { HasNames (domain_of scalar.now) }
{
    match scalar {
        ScalarType::Integer { .. } => {}
        ScalarType::Enumeration { literals, .. } => literals_are_named(literals.as_slice()),
    }
}

// The names of all scalar types' literals are names.
fn types_are_named(scalars: &[Scalar])
    ensures { AllByRecursion HasNames (map (λ x. domain_of x.kind) scalars.now) }
{
    for scalar in scalars {
        type_is_named(&scalar.kind);
    }
}

/// The names of fields and literals are names.
pub fn all_are_named(message: &Elaborated<'_>)
    ensures { AreNamed message.now.domains message.now.graph }
{
    fields_are_named(message.fields());
    types_are_named(message.scalars());
}
