//! The first pass: names that are declared twice, and names of packages that stand for nothing.

ghost use Rattle.std.specs.Prelude.{◌≡◌, [], ◌≤◌, length, IfOk, IfErr, Ok, slice_get, Some};
ghost use Rattle.std.specs.List.{list_any};
ghost use Rattle.std.specs.Option.{option_copied};
ghost use Rattle.std.specs.Str.{IsAscii};
ghost use Rattle.rx_judge.specs.Meaning.{Tells, all_stand_from};
ghost use Rattle.rx_judge.specs.Names.{same};
ghost use Rattle.rx_elab.specs.Through.{through};
ghost use Rattle.rx_elab.specs.Stand.{fresh, knowing, literal_fresh, enum_aspect_name, enum_aspect_place, same_enum_aspect, enum_aspect_stands, enumeration_stands, aspect_name, aspect_place, same_aspect, with_aspects, is_claimed, claimed, aspect_stands, aspects_stand, then_stands, field_stands, no_fields, message_stands, definition_stands, kind_stands, declaration_stands, built_in, with_stands, withs_stand, is_named, header_stands, body_stands, package_stands};

use crate::fault::refused_with;
use rx_judge::{Fault, NoMemory, Table, refused_at};
use rx_syntax::{
    AspectTree, DeclKind, DeclTree, DefTree, EnumAspect, FieldTree, HeaderTree, LiteralTree,
    MessageTree, Named, PackageTree, Place, Rule, ThenTree, Word,
};
use rx_types::Name;
use std::alloc::Global;

/// The names of a message's fields so far, the aspects that are written at them, and those at links to them.
#[derive(Drop)]
pub struct Seen {
    pub fields: Table<()>,
    pub owned: Table<()>,
    pub linked: Table<()>,
}

/// The names of a package's types and literals so far.
#[derive(Drop)]
pub struct Declared {
    pub types: Table<()>,
    pub literals: Table<()>,
}

// Adds a name; NameClash where it is known.
fn add_fresh(alloc: Global, known: &mut Table<()>, name: &Named) -> Result<(), Fault>
    ensures meaning { IfOk result (λ x. fresh known.old name.now ≡ Ok known.new) }
    ensures refusal { IfErr result (λ e. Tells e (fresh known.old name.now)) }
{
    if !known.add(alloc, b"", name.word.as_str().as_bytes(), ())? {
        return Err(Fault::Refused(refused_at(alloc, Rule::NameClash, name)?));
    }
    Ok(())
}

// Adds a built-in name.
fn add_known(alloc: Global, known: &mut Table<()>, name: &[u8]) -> Result<(), NoMemory>
    ensures { IfOk result (λ x. known.new ≡ knowing name.now known.old) }
{
    known.add(alloc, b"", name, ())?;
    Ok(())
}

// ---- enumerations

fn enum_aspect_name(aspect: &EnumAspect) -> &'static str
    ensures name { result.now ≡ enum_aspect_name aspect.now }
    ensures ascii { IsAscii result.now }
{
    match aspect {
        EnumAspect::Size(_, _) => "Size",
        EnumAspect::AlwaysValid(_, _) => "Always_Valid",
    }
}

fn enum_aspect_place(aspect: &EnumAspect) -> Place
    ensures { result ≡ enum_aspect_place aspect.now }
{
    match aspect {
        EnumAspect::Size(place, _) => *place,
        EnumAspect::AlwaysValid(place, _) => *place,
    }
}

fn same_enum_aspect(one: &EnumAspect, other: &EnumAspect) -> bool
    ensures { result ≡ same_enum_aspect one.now other.now }
{
    match (one, other) {
        (EnumAspect::Size(_, _), EnumAspect::Size(_, _)) => true,
        (EnumAspect::AlwaysValid(_, _), EnumAspect::AlwaysValid(_, _)) => true,
        _ => false,
    }
}

fn is_repeated_enum(aspects: &[EnumAspect], aspect: &EnumAspect) -> bool
    ensures { result ≡ list_any (λ b. same_enum_aspect aspect.now b) aspects.now }
{
    aspects.iter().any(|other| same_enum_aspect(aspect, other))
}

fn enum_aspect_stands(
    alloc: Global,
    aspects: &[EnumAspect],
    index: usize,
    aspect: &EnumAspect,
) -> Result<(), Fault>
    requires { index ≤ length aspects.now }
    ensures meaning { IfOk result (λ x. enum_aspect_stands aspects.now index aspect.now ≡ Ok x) }
    ensures refusal { IfErr result (λ e. Tells e (enum_aspect_stands aspects.now index aspect.now)) }
{
    if is_repeated_enum(&aspects[..index], aspect) {
        let place = enum_aspect_place(aspect);
        let name = enum_aspect_name(aspect);
        return Err(Fault::Refused(refused_with(alloc, Rule::NameClash, place, name)?));
    }
    Ok(())
}

fn enum_aspects_stand(alloc: Global, aspects: &[EnumAspect]) -> Result<(), Fault>
    ensures meaning { IfOk result (λ x. all_stand_from (enum_aspect_stands aspects.now) 0 aspects.now ≡ Ok x) }
    ensures refusal { IfErr result (λ e. Tells e (all_stand_from (enum_aspect_stands aspects.now) 0 aspects.now)) }
{
    for (index, aspect) in aspects.iter().enumerate() {
        enum_aspect_stands(alloc, aspects, index, aspect)?;
    }
    Ok(())
}

fn literals_stand(
    alloc: Global,
    known: &mut Table<()>,
    literals: &[LiteralTree],
) -> Result<(), Fault>
    ensures meaning { IfOk result (λ x. through literal_fresh known.old literals.now ≡ Ok known.new) }
    ensures refusal { IfErr result (λ e. Tells e (through literal_fresh known.old literals.now)) }
{
    for literal in literals {
        add_fresh(alloc, known, &literal.name)?;
    }
    Ok(())
}

fn enumeration_stands(
    alloc: Global,
    known: &mut Table<()>,
    literals: &[LiteralTree],
    aspects: &[EnumAspect],
) -> Result<(), Fault>
    ensures meaning { IfOk result (λ x. enumeration_stands known.old literals.now aspects.now ≡ Ok known.new) }
    ensures refusal { IfErr result (λ e. Tells e (enumeration_stands known.old literals.now aspects.now)) }
{
    literals_stand(alloc, known, literals)?;
    enum_aspects_stand(alloc, aspects)?;
    Ok(())
}

// ---- messages

/// The name of an aspect.
pub fn aspect_name(aspect: &AspectTree) -> &'static str
    ensures name { result.now ≡ aspect_name aspect.now }
    ensures ascii { IsAscii result.now }
{
    match aspect {
        AspectTree::First(_, _) => "First",
        AspectTree::Size(_, _) => "Size",
    }
}

/// The place of an aspect's name.
pub fn aspect_place(aspect: &AspectTree) -> Place
    ensures { result ≡ aspect_place aspect.now }
{
    match aspect {
        AspectTree::First(place, _) => *place,
        AspectTree::Size(place, _) => *place,
    }
}

fn same_aspect(one: &AspectTree, other: &AspectTree) -> bool
    ensures { result ≡ same_aspect one.now other.now }
{
    match (one, other) {
        (AspectTree::First(_, _), AspectTree::First(_, _)) => true,
        (AspectTree::Size(_, _), AspectTree::Size(_, _)) => true,
        _ => false,
    }
}

fn is_repeated(aspects: &[AspectTree], aspect: &AspectTree) -> bool
    ensures { result ≡ list_any (λ b. same_aspect aspect.now b) aspects.now }
{
    aspects.iter().any(|other| same_aspect(aspect, other))
}

fn is_claimed(
    alloc: Global,
    known: &Table<()>,
    field: Option<&Word>,
    aspect: &AspectTree,
) -> Result<bool, NoMemory>
    ensures { IfOk result (λ b. b ≡ is_claimed known.now (option_copied field.entry) aspect.now) }
{
    match field {
        None => Ok(false),
        Some(field) => known.has(
            alloc,
            aspect_name(aspect).as_bytes(),
            field.as_str().as_bytes(),
        ),
    }
}

fn aspect_stands(
    alloc: Global,
    known: &Table<()>,
    field: Option<&Word>,
    aspects: &[AspectTree],
    index: usize,
    aspect: &AspectTree,
) -> Result<(), Fault>
    requires { index ≤ length aspects.now }
    ensures meaning { IfOk result (λ x. aspect_stands known.now (option_copied field.entry) aspects.now index aspect.now ≡ Ok x) }
    ensures refusal { IfErr result (λ e. Tells e (aspect_stands known.now (option_copied field.entry) aspects.now index aspect.now)) }
{
    let repeated = is_repeated(&aspects[..index], aspect);
    let elsewhere = is_claimed(alloc, known, field, aspect)?;
    if repeated || elsewhere {
        let place = aspect_place(aspect);
        let name = aspect_name(aspect);
        return Err(Fault::Refused(refused_with(alloc, Rule::NameClash, place, name)?));
    }
    Ok(())
}

fn aspects_stand(
    alloc: Global,
    known: &Table<()>,
    field: Option<&Word>,
    aspects: &[AspectTree],
) -> Result<(), Fault>
    ensures meaning { IfOk result (λ x. aspects_stand known.now (option_copied field.entry) aspects.now ≡ Ok x) }
    ensures refusal { IfErr result (λ e. Tells e (aspects_stand known.now (option_copied field.entry) aspects.now)) }
{
    for (index, aspect) in aspects.iter().enumerate() {
        aspect_stands(alloc, known, field, aspects, index, aspect)?;
    }
    Ok(())
}

fn add_aspects(
    alloc: Global,
    known: &mut Table<()>,
    field: &Word,
    aspects: &[AspectTree],
) -> Result<(), NoMemory>
    ensures { IfOk result (λ x. known.new ≡ with_aspects known.old field.now aspects.now) }
{
    for aspect in aspects {
        known.add(
            alloc,
            aspect_name(aspect).as_bytes(),
            field.as_str().as_bytes(),
            (),
        )?;
    }
    Ok(())
}

fn claim(
    alloc: Global,
    known: &mut Table<()>,
    field: Option<&Word>,
    aspects: &[AspectTree],
) -> Result<(), NoMemory>
    ensures { IfOk result (λ x. known.new ≡ claimed known.old (option_copied field.entry) aspects.now) }
{
    if let Some(field) = field {
        add_aspects(alloc, known, field, aspects)?;
    }
    Ok(())
}

fn then_stands(alloc: Global, seen: &mut Seen, then: &ThenTree) -> Result<(), Fault>
    ensures meaning { IfOk result (λ x. then_stands seen.old then.now ≡ Ok seen.new) }
    ensures refusal { IfErr result (λ e. Tells e (then_stands seen.old then.now)) }
{
    let target = then.target.as_ref();
    aspects_stand(alloc, &seen.owned, target, &then.aspects)?;
    claim(alloc, &mut seen.linked, target, &then.aspects)?;
    Ok(())
}

fn thens_stand(alloc: Global, seen: &mut Seen, thens: &[ThenTree]) -> Result<(), Fault>
    ensures meaning { IfOk result (λ x. through then_stands seen.old thens.now ≡ Ok seen.new) }
    ensures refusal { IfErr result (λ e. Tells e (through then_stands seen.old thens.now)) }
{
    for then in thens {
        then_stands(alloc, seen, then)?;
    }
    Ok(())
}

fn field_stands(alloc: Global, seen: &mut Seen, field: &FieldTree) -> Result<(), Fault>
    ensures meaning { IfOk result (λ x. field_stands seen.old field.now ≡ Ok seen.new) }
    ensures refusal { IfErr result (λ e. Tells e (field_stands seen.old field.now)) }
{
    let word = &field.name.word;
    add_fresh(alloc, &mut seen.fields, &field.name)?;
    aspects_stand(alloc, &seen.linked, Some(word), &field.aspects)?;
    add_aspects(alloc, &mut seen.owned, word, &field.aspects)?;
    thens_stand(alloc, seen, &field.thens)?;
    Ok(())
}

fn fields_stand(alloc: Global, seen: &mut Seen, fields: &[FieldTree]) -> Result<(), Fault>
    ensures meaning { IfOk result (λ x. through field_stands seen.old fields.now ≡ Ok seen.new) }
    ensures refusal { IfErr result (λ e. Tells e (through field_stands seen.old fields.now)) }
{
    for field in fields {
        field_stands(alloc, seen, field)?;
    }
    Ok(())
}

fn no_fields(alloc: Global) -> Result<Seen, NoMemory>
    ensures { IfOk result (λ seen. seen ≡ no_fields) }
{
    let mut fields = Table::new(alloc);
    add_known(alloc, &mut fields, b"Message")?;
    Ok(Seen {
        fields,
        owned: Table::new(alloc),
        linked: Table::new(alloc),
    })
}

fn message_stands(alloc: Global, message: &MessageTree) -> Result<Seen, Fault>
    ensures meaning { IfOk result (λ s. message_stands message.now ≡ Ok s) }
    ensures refusal { IfErr result (λ e. Tells e (message_stands message.now)) }
{
    let mut seen = no_fields(alloc)?;
    thens_stand(alloc, &mut seen, &message.start)?;
    fields_stand(alloc, &mut seen, &message.fields)?;
    Ok(seen)
}

// ---- packages

fn definition_stands(alloc: Global, literals: &mut Table<()>, def: &DefTree) -> Result<(), Fault>
    ensures meaning { IfOk result (λ x. definition_stands literals.old def.now ≡ Ok literals.new) }
    ensures refusal { IfErr result (λ e. Tells e (definition_stands literals.old def.now)) }
{
    match def {
        DefTree::Enumeration(trees, aspects) => {
            enumeration_stands(alloc, literals, trees, aspects)
        }
        DefTree::Message(message) => {
            let _seen = message_stands(alloc, message)?;
            Ok(())
        }
        _ => Ok(()),
    }
}

fn declaration_stands(alloc: Global, declared: &mut Declared, decl: &DeclTree) -> Result<(), Fault>
    ensures meaning { IfOk result (λ x. declaration_stands declared.old decl.now ≡ Ok declared.new) }
    ensures refusal { IfErr result (λ e. Tells e (declaration_stands declared.old decl.now)) }
{
    match &decl.kind {
        DeclKind::Refine(_) => Ok(()),
        DeclKind::Defined(name, def) => {
            add_fresh(alloc, &mut declared.types, name)?;
            definition_stands(alloc, &mut declared.literals, def)?;
            Ok(())
        }
    }
}

fn declarations_stand(
    alloc: Global,
    declared: &mut Declared,
    decls: &[DeclTree],
) -> Result<(), Fault>
    ensures meaning { IfOk result (λ x. through declaration_stands declared.old decls.now ≡ Ok declared.new) }
    ensures refusal { IfErr result (λ e. Tells e (through declaration_stands declared.old decls.now)) }
{
    for decl in decls {
        declaration_stands(alloc, declared, decl)?;
    }
    Ok(())
}

fn built_in(alloc: Global) -> Result<Declared, NoMemory>
    ensures { IfOk result (λ declared. declared ≡ built_in) }
{
    let mut types = Table::new(alloc);
    add_known(alloc, &mut types, b"Boolean")?;
    add_known(alloc, &mut types, b"Opaque")?;
    let mut literals = Table::new(alloc);
    add_known(alloc, &mut literals, b"True")?;
    add_known(alloc, &mut literals, b"False")?;
    Ok(Declared { types, literals })
}

// Whether the word spells the name, but for ASCII case.
fn is_same(name: &Name, word: &Word) -> bool
    ensures { result ≡ same name.now word.now }
{
    name.bytes().eq_ignore_ascii_case(word.as_str().as_bytes())
}

fn is_asked(asked: &[Name], word: &Word) -> bool
    ensures { result ≡ list_any (λ a. same a word.now) asked.now }
{
    asked.iter().any(|name| is_same(name, word))
}

fn with_stands(alloc: Global, asked: &[Name], with: &Named) -> Result<(), Fault>
    ensures meaning { IfOk result (λ x. with_stands asked.now «with».now ≡ Ok x) }
    ensures refusal { IfErr result (λ e. Tells e (with_stands asked.now «with».now)) }
{
    if !is_asked(asked, &with.word) {
        return Err(Fault::Refused(refused_at(alloc, Rule::UnknownName, with)?));
    }
    Ok(())
}

fn withs_stand(alloc: Global, asked: &[Name], withs: &[Named]) -> Result<(), Fault>
    ensures meaning { IfOk result (λ x. withs_stand asked.now withs.now ≡ Ok x) }
    ensures refusal { IfErr result (λ e. Tells e (withs_stand asked.now withs.now)) }
{
    for with in withs {
        with_stands(alloc, asked, with)?;
    }
    Ok(())
}

fn is_fetched(alloc: Global, asked: &[Name], index: usize, name: &Named) -> Result<(), Fault>
    ensures meaning { IfOk result (λ x. is_named name.now (slice_get asked.now index) ≡ Ok x) }
    ensures refusal { IfErr result (λ e. Tells e (is_named name.now (slice_get asked.now index))) }
{
    match asked.get(index) {
        None => Err(Fault::Refused(refused_at(alloc, Rule::UnknownName, name)?)),
        Some(fetched) => {
            if !is_same(fetched, &name.word) {
                return Err(Fault::Refused(refused_at(alloc, Rule::UnknownName, name)?));
            }
            Ok(())
        }
    }
}

fn is_ended(alloc: Global, end: &Named, word: &Word) -> Result<(), Fault>
    ensures meaning { IfOk result (λ x. is_named end.now (Some word.now) ≡ Ok x) }
    ensures refusal { IfErr result (λ e. Tells e (is_named end.now (Some word.now))) }
{
    if !word.same(&end.word) {
        return Err(Fault::Refused(refused_at(alloc, Rule::UnknownName, end)?));
    }
    Ok(())
}

fn header_stands(
    alloc: Global,
    asked: &[Name],
    index: usize,
    header: &HeaderTree,
) -> Result<(), Fault>
    ensures meaning { IfOk result (λ x. header_stands asked.now index header.now ≡ Ok x) }
    ensures refusal { IfErr result (λ e. Tells e (header_stands asked.now index header.now)) }
{
    withs_stand(alloc, asked, &header.withs)?;
    is_fetched(alloc, asked, index, &header.name)?;
    Ok(())
}

fn all_declarations_stand(alloc: Global, decls: &[DeclTree]) -> Result<Declared, Fault>
    ensures meaning { IfOk result (λ k. through declaration_stands built_in decls.now ≡ Ok k) }
    ensures refusal { IfErr result (λ e. Tells e (through declaration_stands built_in decls.now)) }
{
    let mut declared = built_in(alloc)?;
    declarations_stand(alloc, &mut declared, decls)?;
    Ok(declared)
}

fn body_stands(alloc: Global, package: &PackageTree) -> Result<(), Fault>
    ensures meaning { IfOk result (λ x. body_stands «package».now ≡ Ok x) }
    ensures refusal { IfErr result (λ e. Tells e (body_stands «package».now)) }
{
    let _declared = all_declarations_stand(alloc, &package.decls)?;
    is_ended(alloc, &package.end_name, &package.header.name.word)?;
    Ok(())
}

/// The first pass over a package: UnknownName at a `with` clause whose package was not fetched, at a name of the
/// package that is not the one under which it was fetched, and at an end name that is not its own; NameClash at a
/// second declaration or aspect.
pub fn package_stands(
    alloc: Global,
    asked: &[Name],
    index: usize,
    package: &PackageTree,
) -> Result<(), Fault>
    ensures meaning { IfOk result (λ x. package_stands asked.now index «package».now ≡ Ok x) }
    ensures refusal { IfErr result (λ e. Tells e (package_stands asked.now index «package».now)) }
{
    header_stands(alloc, asked, index, &package.header)?;
    body_stands(alloc, package)?;
    Ok(())
}
