//! The forms of texts that are not served yet.
ghost use Rattle.std.specs.Prelude.{◌≡◌, Some, IfOk, IfErr, OnOk};
ghost use Rattle.std.specs.Str.{IsAscii};
ghost use Rattle.rx_program.specs.Stage.{unsupported, of_definition, of_declaration, of_declarations, AreServed, IsUnserved};

use crate::fault::NoMemory;
use rx_spec::ElabFault;
use rx_syntax::{DeclKind, DeclTree, DefTree, PackageTree, Place, Refusal, Rule, Word};
use std::alloc::Global;

// The refusal of a form that is told by this word.
fn unsupported(alloc: Global, place: Place, word: &str) -> Result<Option<Refusal>, NoMemory>
    requires { IsAscii word.now }
    ensures { IfOk result (λ found. found ≡ Some (unsupported place word.now)) }
{
    let word = Word::make(alloc, word)?;
    Ok(Some(Refusal {
        rule: Rule::Unsupported,
        place,
        word: Some(word),
    }))
}

// The refusal of a definition, whose declaration begins at the place.
fn of_definition(
    alloc: Global,
    place: Place,
    definition: &DefTree,
) -> Result<Option<Refusal>, NoMemory>
    ensures { IfOk result (λ found. found ≡ of_definition place definition.now) }
{
    match definition {
        DefTree::Sequence(_) => unsupported(alloc, place, "sequence"),
        DefTree::Derived(_) => unsupported(alloc, place, "new"),
        _ => Ok(None),
    }
}

// The refusal of a declaration.
fn of_declaration(alloc: Global, declaration: &DeclTree) -> Result<Option<Refusal>, NoMemory>
    ensures { IfOk result (λ found. found ≡ of_declaration declaration.now) }
{
    match &declaration.kind {
        DeclKind::Refine(_) => unsupported(alloc, declaration.place, "for"),
        DeclKind::Defined(_, definition) => of_definition(alloc, declaration.place, definition),
    }
}

// The refusal of the first of these declarations that has one.
fn of_declarations(alloc: Global, declarations: &[DeclTree]) -> Result<Option<Refusal>, NoMemory>
    ensures { IfOk result (λ found. found ≡ of_declarations declarations.now) }
{
    for declaration in declarations {
        if let Some(found) = of_declaration(alloc, declaration)? {
            return Ok(Some(found));
        }
    }
    Ok(None)
}

/// Whether the packages have none of these forms; the first of them is the fault.
pub fn all_served(alloc: Global, packages: &[PackageTree]) -> Result<(), ElabFault>
    ensures served { OnOk result (AreServed packages.now) }
    ensures refused { IfErr result (IsUnserved packages.now) }
{
    for package in 0..packages.len() {
        match of_declarations(alloc, packages[package].decls.as_slice()) {
            Ok(None) => {}
            Ok(Some(refusal)) => return Err(ElabFault::Refused { package, refusal }),
            Err(NoMemory) => return Err(ElabFault::NoMemory),
        }
    }
    Ok(())
}
