//! The second pass: scalar types, with the names of all types and literals.

ghost use Rattle.std.specs.Prelude.{◌≡◌, ℕ, [], ◌∷◌, codes, ◌+◌, ◌≤◌, ◌<◌, ◌^◌, length, IfOk, IfErr};
ghost use Rattle.std.specs.List.{list_any};
ghost use Rattle.rx_types.specs.Domain.{domain_of, greatest, numbers_of, greatest_of, boolean};
ghost use Rattle.rx_graph.specs.Graph.{named_domain_of};
ghost use Rattle.rx_judge.specs.Meaning.{Tells};
ghost use Rattle.rx_judge.specs.Names.{same};
ghost use Rattle.rx_judge.specs.Scalar.{IsMeasured};
ghost use Rattle.rx_elab.specs.Through.{through};
ghost use Rattle.rx_elab.specs.Types.{kind_declared, known_scalar, with_literals, with_literals_of, with_scalar, with_other, defined, type_declared, package_types, built_in_types, own_type, is_visible_in, type_named, types_of};

use rx_graph::Scalar;
use rx_judge::{Fault, KnownLiteral, NoMemory, Table, definition, refused_at, spelled};
use rx_syntax::{DeclKind, DeclTree, DefTree, NameTree, Named, PackageTree, Rule, Word};
use rx_types::{Kind, Literal, Name, ScalarType, TypeId};
use std::alloc::Global;

/// A scalar type: its id, the kind and the greatest of its numbers, and its size in bits.
#[derive(Clone, Copy, Debug, PartialEq, Eq)]
pub struct KnownScalar {
    pub id: TypeId,
    pub kind: Kind,
    pub greatest: u64,
    pub size: u8,
}

/// What the name of a type stands for.
#[derive(Clone, Copy, Debug, PartialEq, Eq)]
pub enum KnownType {
    Scalar(KnownScalar),
    Opaque,
    /// No type of a field.
    Other,
}

/// The scalar types so far, what the names of types stand for, and the literals of enumerations.
#[derive(Drop)]
pub struct Types {
    pub scalars: Vec<Scalar>,
    pub types: Table<KnownType>,
    pub literals: Table<KnownLiteral>,
}

fn greatest_literal(literals: &[Literal]) -> u64
    ensures { result ≡ greatest (numbers_of literals.now) }
{
    let mut best = 0;
    for literal in literals {
        best = literal.number.max(best);
    }
    best
}

fn greatest(scalar: &ScalarType) -> u64
    requires { IsMeasured (domain_of scalar.now) }
    ensures { result ≡ greatest_of (domain_of scalar.now) }
{
    match scalar {
        ScalarType::Integer { last, .. } => *last,
        ScalarType::Enumeration {
            literals,
            size,
            always_valid,
        } => {
            if *always_valid {
                (1u64 << *size as u32) - 1
            } else {
                greatest_literal(literals)
            }
        }
    }
}

fn kind_declared(id: TypeId, scalar: &ScalarType) -> Kind
    ensures { result ≡ kind_declared id (domain_of scalar.now) }
{
    match scalar {
        ScalarType::Integer { .. } => Kind::Number,
        ScalarType::Enumeration { .. } => Kind::Of(id),
    }
}

fn known_scalar(id: TypeId, scalar: &ScalarType) -> KnownScalar
    requires { IsMeasured (domain_of scalar.now) }
    ensures { result ≡ known_scalar id (domain_of scalar.now) }
{
    KnownScalar {
        id,
        kind: kind_declared(id, scalar),
        greatest: greatest(scalar),
        size: scalar.size(),
    }
}

fn add_literals(
    alloc: Global,
    table: &mut Table<KnownLiteral>,
    prefix: &[u8],
    id: TypeId,
    literals: &[Literal],
) -> Result<(), NoMemory>
    ensures { IfOk result (λ x. table.new ≡ with_literals table.old prefix.now id literals.now) }
{
    for literal in literals {
        let known = KnownLiteral {
            kind: id,
            number: literal.number,
        };
        table.add(alloc, prefix, literal.name.bytes(), known)?;
    }
    Ok(())
}

fn add_literals_of(
    alloc: Global,
    table: &mut Table<KnownLiteral>,
    prefix: &[u8],
    id: TypeId,
    scalar: &ScalarType,
) -> Result<(), NoMemory>
    ensures { IfOk result (λ x. table.new ≡ with_literals_of table.old prefix.now id (domain_of scalar.now)) }
{
    match scalar {
        ScalarType::Integer { .. } => Ok(()),
        ScalarType::Enumeration { literals, .. } => {
            add_literals(alloc, table, prefix, id, literals)
        }
    }
}

fn add_scalar(
    alloc: Global,
    types: &mut Types,
    package: &Name,
    name: Name,
    kind: ScalarType,
) -> Result<(), NoMemory>
    requires measured { IsMeasured (domain_of kind) }
    requires few { length types.old.scalars.items < 2 ^ 32 }
    ensures types { IfOk result (λ x. with_scalar «package».now (types_of types.old) name (domain_of kind) ≡ types_of types.new) }
    ensures count { IfOk result (λ x. length types.new.scalars.items ≤ length types.old.scalars.items + 1) }
{
    let id = types.scalars.len() as TypeId;
    let known = KnownType::Scalar(known_scalar(id, &kind));
    types
        .types
        .add(alloc, package.bytes(), name.bytes(), known)?;
    add_literals_of(alloc, &mut types.literals, package.bytes(), id, &kind)?;
    let package = package.copy(alloc)?;
    types.scalars.push(Scalar {
        package,
        name,
        kind,
    })?;
    Ok(())
}

fn add_other(alloc: Global, types: &mut Types, package: &Name, name: &Name) -> Result<(), NoMemory>
    ensures types { IfOk result (λ x. with_other «package».now (types_of types.old) name.now ≡ types_of types.new) }
    ensures count { IfOk result (λ x. length types.new.scalars.items ≤ length types.old.scalars.items + 1) }
{
    types
        .types
        .add(alloc, package.bytes(), name.bytes(), KnownType::Other)?;
    Ok(())
}

fn defined(
    alloc: Global,
    types: &mut Types,
    package: &Name,
    name: &Named,
    def: &DefTree,
) -> Result<(), Fault>
    requires few { length types.old.scalars.items < 2 ^ 32 }
    ensures meaning { IfOk result (λ x. defined «package».now (types_of types.old) name.now def.now ≡ Ok (types_of types.new)) }
    ensures refusal { IfErr result (λ e. Tells e (defined «package».now (types_of types.old) name.now def.now)) }
    ensures count { IfOk result (λ x. length types.new.scalars.items ≤ length types.old.scalars.items + 1) }
{
    let scalar = definition(alloc, name, def)?;
    let name = spelled(alloc, name)?;
    match scalar {
        None => add_other(alloc, types, package, &name)?,
        Some(scalar) => add_scalar(alloc, types, package, name, scalar)?,
    }
    Ok(())
}

fn type_declared(
    alloc: Global,
    types: &mut Types,
    package: &Name,
    decl: &DeclTree,
) -> Result<(), Fault>
    requires few { length types.old.scalars.items < 2 ^ 32 }
    ensures meaning { IfOk result (λ x. type_declared «package».now (types_of types.old) decl.now ≡ Ok (types_of types.new)) }
    ensures refusal { IfErr result (λ e. Tells e (type_declared «package».now (types_of types.old) decl.now)) }
    ensures count { IfOk result (λ x. length types.new.scalars.items ≤ length types.old.scalars.items + 1) }
{
    match &decl.kind {
        DeclKind::Refine(_) => Ok(()),
        DeclKind::Defined(name, def) => defined(alloc, types, package, name, def),
    }
}

fn types_declared(
    alloc: Global,
    types: &mut Types,
    package: &Name,
    decls: &[DeclTree],
) -> Result<(), Fault>
    requires few { length types.old.scalars.items + length decls.now ≤ 2 ^ 32 }
    ensures meaning { IfOk result (λ x. through (type_declared «package».now) (types_of types.old) decls.now ≡ Ok (types_of types.new)) }
    ensures refusal { IfErr result (λ e. Tells e (through (type_declared «package».now) (types_of types.old) decls.now)) }
    ensures count { IfOk result (λ x. length types.new.scalars.items ≤ length types.old.scalars.items + length decls.now) }
{
    for decl in decls {
        type_declared(alloc, types, package, decl)?;
    }
    Ok(())
}

/// The second pass over a package: its scalar types, with the names of its types and literals.
pub fn package_types(alloc: Global, types: &mut Types, package: &PackageTree) -> Result<(), Fault>
    requires few { length types.old.scalars.items + length «package».now.decls.items ≤ 2 ^ 32 }
    ensures meaning { IfOk result (λ x. package_types (types_of types.old) «package».now ≡ Ok (types_of types.new)) }
    ensures refusal { IfErr result (λ e. Tells e (package_types (types_of types.old) «package».now)) }
    ensures count { IfOk result (λ x. length types.new.scalars.items ≤ length types.old.scalars.items + length «package».now.decls.items) }
{
    let name = spelled(alloc, &package.header.name)?;
    types_declared(alloc, types, &name, &package.decls)?;
    Ok(())
}

fn boolean_literals(alloc: Global) -> Result<Vec<Literal>, NoMemory>
    ensures { IfOk result (λ ls. ls.items ≡ record { name = codes "False"; number = 0 } ∷ record { name = codes "True"; number = 1 } ∷ []) }
{
    let mut literals = Vec::new(alloc);
    literals.push(Literal {
        name: Name::make(alloc, b"False")?,
        number: 0,
    })?;
    literals.push(Literal {
        name: Name::make(alloc, b"True")?,
        number: 1,
    })?;
    Ok(literals)
}

fn boolean(alloc: Global) -> Result<Scalar, NoMemory>
    ensures { IfOk result (λ s. named_domain_of s ≡ record { «package» = []; name = codes "Boolean"; domain = boolean }) }
{
    let package = Name::make(alloc, b"")?;
    let name = Name::make(alloc, b"Boolean")?;
    let literals = boolean_literals(alloc)?;
    Ok(Scalar {
        package,
        name,
        kind: ScalarType::Enumeration {
            literals,
            size: 1,
            always_valid: false,
        },
    })
}

fn built_in_names(alloc: Global) -> Result<Table<KnownType>, NoMemory>
    ensures { IfOk result (λ t. t ≡ built_in_types.types) }
{
    let mut types = Table::new(alloc);
    let truth = KnownScalar {
        id: 0,
        kind: Kind::Truth,
        greatest: 1,
        size: 1,
    };
    types.add(alloc, b"", b"Boolean", KnownType::Scalar(truth))?;
    types.add(alloc, b"", b"Opaque", KnownType::Opaque)?;
    Ok(types)
}

/// The types that each package has: Boolean, the first of the scalar types, and Opaque.
pub fn built_in_types(alloc: Global) -> Result<Types, NoMemory>
    ensures types { IfOk result (λ t. types_of t ≡ built_in_types) }
    ensures count { IfOk result (λ t. length t.scalars.items ≡ 1) }
{
    let mut scalars = Vec::new(alloc);
    scalars.push(boolean(alloc)?)?;
    let types = built_in_names(alloc)?;
    Ok(Types {
        scalars,
        types,
        literals: Table::new(alloc),
    })
}

// ---- names of types

fn own_type(
    alloc: Global,
    table: &Table<KnownType>,
    package: &Word,
    name: &Word,
) -> Result<Option<KnownType>, NoMemory>
    ensures { IfOk result (λ t. t ≡ own_type table.now «package».now name.now) }
{
    let name = name.as_str().as_bytes();
    let own = table.find(alloc, package.as_str().as_bytes(), name)?;
    if own.is_some() {
        return Ok(own);
    }
    table.find(alloc, b"", name)
}

fn is_among(names: &[Named], word: &Word) -> bool
    ensures { result ≡ list_any (λ n. same n.word word.now) names.now }
{
    names.iter().any(|name| name.word.same(word))
}

fn is_visible_in(package: &Word, withs: &[Named], prefix: &Word) -> bool
    ensures { result ≡ is_visible_in «package».now withs.now prefix.now }
{
    package.same(prefix) || is_among(withs, prefix)
}

/// What the name of a type stands for in a package; UnknownName where it stands for nothing.
pub fn type_named(
    alloc: Global,
    table: &Table<KnownType>,
    package: &Word,
    withs: &[Named],
    name: &NameTree,
) -> Result<KnownType, Fault>
    ensures meaning { IfOk result (λ t. type_named table.now «package».now withs.now name.now ≡ Ok t) }
    ensures refusal { IfErr result (λ e. Tells e (type_named table.now «package».now withs.now name.now)) }
{
    match &name.package {
        None => match own_type(alloc, table, package, &name.name.word)? {
            Some(known) => Ok(known),
            None => Err(Fault::Refused(refused_at(alloc, Rule::UnknownName, &name.name)?)),
        },
        Some(prefix) => {
            if !is_visible_in(package, withs, &prefix.word) {
                return Err(Fault::Refused(refused_at(alloc, Rule::UnknownName, prefix)?));
            }
            let prefix = prefix.word.as_str().as_bytes();
            match table.find(alloc, prefix, name.name.word.as_str().as_bytes())? {
                Some(known) => Ok(known),
                None => Err(Fault::Refused(refused_at(alloc, Rule::UnknownName, &name.name)?)),
            }
        }
    }
}
