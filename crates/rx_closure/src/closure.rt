//! Walks through the packages that a command needs: the one that it asks for, and all that are named by `with`.
ghost use Rattle.std.specs.Prelude.{◌≡◌, ◌∷◌, [], ◌++◌, ◌+◌, ◌<◌, ◌≤◌, ℕ, List, length, map, take, slice_get, Some, IfOk, IfErr, IfSome, IfNone, OnOk, Err, All, string_bytes};
ghost use Rattle.std.specs.List.{list_any};
ghost use Rattle.std.specs.Str.{str_to_ascii_lowercase};
ghost use Rattle.rx_io.specs.Faults.{HasRisen};
ghost use Rattle.rx_io.specs.Shelf.{SameTexts};
ghost use Rattle.rx_syntax.specs.Text.{AreTokens};
ghost use Rattle.rx_grammar.specs.Limits.{Fits, no_limits};
ghost use Rattle.rx_grammar.specs.Sentence.{IsPackage};
ghost use Rattle.rx_types.specs.Names.{IsName};
ghost use Rattle.rx_closure.specs.Names.{is_same};
ghost use Rattle.rx_closure.specs.Closure.{package_limit, HasNone, HasText, HasTree, IsTree, IsRefused, withs_of, added, added_one, IsStep, Walked, AreFetched, IsClosure, ArePaired};
ghost use Rattle.rx_closure.specs.Stop.{RefusedFor, IsOfLexer, IsOfParser, IsUnread, IsTooMany, Stops, StopsAt};

use crate::fault::NoMemory;
use crate::refusal::{lexer_refusal, parser_refusal};
use rx_grammar::parse_package;
use rx_io::{Fetched, Shelf, ShelfFault};
use rx_syntax::{Named, PackageTree, Refusal, Tokens, Word, lex};
use rx_types::Name;
use std::alloc::Global;

/// How many packages a command may have.
const PACKAGE_LIMIT: usize = 64;

/// The packages of a closure that the shelf has, in order: the names under which they were fetched, and their trees.
#[derive(Debug, Drop)]
pub struct Packages {
    pub asked: Vec<Name>,
    pub trees: Vec<PackageTree>,
}

/// Why a walk ends before all packages are read.
#[derive(Debug, Drop)]
pub enum Stop {
    Fault,
    /// The shelf has no text of the first package.
    NoPackage,
    /// The text of this package is too long.
    TextLimit(Name),
    /// The text of this package is refused.
    Refused(Name, Refusal),
    /// A 65th package is named.
    PackageLimit,
    NoMemory,
}

impl From<NoMemory> for Stop {
    ghost use Rattle.std.specs.Prelude.{◌≡◌};
    ghost use Rattle.rx_closure.specs.declared.closure.Stop.TheVariants.{NoMemory};

    ghost from_gives = { λ _ e. e ≡ NoMemory };

    fn from(_: NoMemory) -> Stop {
        Stop::NoMemory
    }
}

impl From<rx_types::NoMemory> for Stop {
    ghost use Rattle.std.specs.Prelude.{◌≡◌};
    ghost use Rattle.rx_closure.specs.declared.closure.Stop.TheVariants.{NoMemory};

    ghost from_gives = { λ _ e. e ≡ NoMemory };

    fn from(_: rx_types::NoMemory) -> Stop {
        Stop::NoMemory
    }
}

// The stop at a package that is refused.
fn refused(alloc: Global, name: &Name, refusal: Refusal) -> Stop
    ensures { RefusedFor name.now (λ other. other ≡ refusal) result }
{
    match name.copy(alloc) {
        Ok(name) => Stop::Refused(name, refusal),
        Err(_) => Stop::NoMemory,
    }
}

// The tokens of the text of this package.
fn tokens_of(alloc: Global, name: &Name, text: &[u8]) -> Result<Tokens, Stop>
    requires { length text.now ≤ 1048576 }
    ensures tokens { IfOk result (λ tokens. AreTokens text.now tokens.items.items tokens.end) }
    ensures refused { IfErr result (RefusedFor name.now (IsOfLexer text.now)) }
{
    match lex(alloc, text) {
        Ok(tokens) => Ok(tokens),
        Err(fault) => Err(refused(alloc, name, lexer_refusal(fault)?)),
    }
}

// The tree of the tokens of this package.
fn tree_of(alloc: Global, name: &Name, tokens: &Tokens) -> Result<PackageTree, Stop>
    ensures tree { IfOk result (λ tree. IsPackage tokens.now.items.items tree) }
    ensures fits { OnOk result (Fits no_limits tokens.now.items.items) }
    ensures refused { IfErr result (RefusedFor name.now (IsOfParser tokens.now.items.items tokens.now.end)) }
{
    match parse_package(alloc, tokens) {
        Ok(tree) => Ok(tree),
        Err(fault) => Err(refused(alloc, name, parser_refusal(fault)?)),
    }
}

// The tree of the text of this package.
fn parse(alloc: Global, name: &Name, text: &[u8]) -> Result<PackageTree, Stop>
    requires { length text.now ≤ 1048576 }
    ensures tree { IfOk result (IsTree text.now) }
    ensures named { IfOk result (λ tree. All (λ n. IsName n.word) tree.header.withs.items) }
    ensures refused { IfErr result (RefusedFor name.now (IsRefused text.now)) }
{
    let tokens = tokens_of(alloc, name, text)?;
    let tree = tree_of(alloc, name, &tokens)?;
    Ok(tree)
}

// The name as a text.
fn text_of_name(name: &Name) -> &str
    ensures { result.now ≡ name.now }
{
    match str::from_utf8(name.bytes()) {
        Ok(text) => text,
        Err(_) => unreachable!(),
    }
}

// The name of the package in lower case.
fn lower(alloc: Global, name: &Name) -> Result<String, NoMemory>
    ensures { IfOk result (λ lower. string_bytes lower ≡ str_to_ascii_lowercase name.now) }
{
    Ok(text_of_name(name).to_ascii_lowercase(alloc)?)
}

// The stop at a package whose text is too long.
fn too_long(alloc: Global, name: &Name) -> Result<Stop, NoMemory>
    ensures { IfOk result (λ stop. stop ≡ Stop.TextLimit name.now) }
{
    Ok(Stop::TextLimit(name.copy(alloc)?))
}

// The text of the package of this name; none where the shelf has none.
fn text_of<H: Shelf>(alloc: Global, name: &Name, shelf: &mut H) -> Result<Option<Vec<u8>>, Stop>
    ensures some { IfOk result (λ read. IfSome read (λ text. IfSome (H.texts shelf.old) (λ texts. HasText texts name.now text.items))) }
    ensures none { IfOk result (λ read. IfNone read (IfSome (H.texts shelf.old) (λ texts. HasNone texts name.now))) }
    ensures within { IfOk result (λ read. IfSome read (λ text. length text.items ≤ 1048576)) }
    ensures stopped { IfErr result (λ stop. IfSome (H.texts shelf.old) (λ texts. IsUnread texts name.now stop)) }
    ensures same { SameTexts (H.texts shelf.old) (H.texts shelf.new) }
    ensures never_falls { H.faults shelf.old ≤ H.faults shelf.new }
    ensures cause { result ≡ Err Stop.Fault → HasRisen (H.faults shelf.old) (H.faults shelf.new) }
{
    let lower = lower(alloc, name)?;
    let mut text = Vec::new(alloc);
    match shelf.fetch(alloc, lower.as_str(), &mut text) {
        Ok(Fetched::Text) => Ok(Some(text)),
        Ok(Fetched::Absent) => Ok(None),
        Ok(Fetched::TooLong) => Err(too_long(alloc, name)?),
        Err(ShelfFault::Failed) => Err(Stop::Fault),
        Err(ShelfFault::NoMemory) => Err(Stop::NoMemory),
    }
}

// The tree of the package of this name; none where the shelf has no text of it.
fn read<H: Shelf>(alloc: Global, name: &Name, shelf: &mut H) -> Result<Option<PackageTree>, Stop>
    ensures some { IfOk result (λ read. IfSome read (λ tree. IfSome (H.texts shelf.old) (λ texts. HasTree texts name.now tree))) }
    ensures named { IfOk result (λ read. IfSome read (λ tree. All (λ n. IsName n.word) tree.header.withs.items)) }
    ensures none { IfOk result (λ read. IfNone read (IfSome (H.texts shelf.old) (λ texts. HasNone texts name.now))) }
    ensures stopped { IfErr result (λ stop. IfSome (H.texts shelf.old) (λ texts. IsUnread texts name.now stop)) }
    ensures same { SameTexts (H.texts shelf.old) (H.texts shelf.new) }
    ensures never_falls { H.faults shelf.old ≤ H.faults shelf.new }
    ensures cause { result ≡ Err Stop.Fault → HasRisen (H.faults shelf.old) (H.faults shelf.new) }
{
    let Some(text) = text_of(alloc, name, shelf)? else {
        return Ok(None);
    };
    let tree = parse(alloc, name, text.as_slice())?;
    Ok(Some(tree))
}

// Whether the name is this word, whatever the case of its letters.
fn is_same(name: &Name, word: &Word) -> bool
    ensures { result ≡ is_same name.now word.now }
{
    name.bytes().eq_ignore_ascii_case(word.as_str().as_bytes())
}

// Whether the list has the name, whatever its case.
fn is_among(names: &[Name], word: &Word) -> bool
    ensures { result ≡ list_any (λ other. is_same other word.now) names.now }
{
    names.iter().any(|other| is_same(other, word))
}

// Puts the name at the end of the list, if it is not there yet.
fn add_one(alloc: Global, names: &mut Vec<Name>, word: &Word) -> Result<(), Stop>
    requires few { length names.old.items ≤ package_limit }
    requires named { IsName word.now }
    ensures added { OnOk result (names.new.items ≡ added_one names.old.items word.now) }
    ensures few { OnOk result (length names.new.items ≤ package_limit) }
    ensures many { IfErr result (IsTooMany (length (added_one names.old.items word.now))) }
{
    if is_among(names.as_slice(), word) {
        return Ok(());
    }
    if names.len() == PACKAGE_LIMIT {
        return Err(Stop::PackageLimit);
    }
    push(alloc, names, word)?;
    Ok(())
}

// Puts the name at the end of the list.
fn push(alloc: Global, names: &mut Vec<Name>, word: &Word) -> Result<(), NoMemory>
    requires { IsName word.now }
    ensures { OnOk result (names.new.items ≡ names.old.items ++ word.now ∷ []) }
{
    names.push(Name::make(alloc, word.as_str().as_bytes())?)?;
    Ok(())
}

// Puts the names at the end of the list that are not there yet.
fn add(alloc: Global, names: &mut Vec<Name>, more: &[Named]) -> Result<(), Stop>
    requires few { length names.old.items ≤ package_limit }
    requires named { All (λ n. IsName n.word) more.now }
    ensures added { OnOk result (names.new.items ≡ added names.old.items (map (λ n. n.word) more.now)) }
    ensures few { OnOk result (length names.new.items ≤ package_limit) }
    ensures many { IfErr result (IsTooMany (length (added names.old.items (map (λ n. n.word) more.now)))) }
{
    for named in more {
        add_one(alloc, names, &named.word)?;
    }
    Ok(())
}

// Name `k` of the list.
fn name_at(names: &[Name], k: usize) -> &Name
    requires { k < length names.now }
    ensures { slice_get names.now k ≡ Some result.now }
{
    &names[k]
}

// A package that was fetched.
#[derive(Debug, Drop)]
struct Package {
    name: Name,
    tree: PackageTree,
}

// Reads package `k` of the list; none where the shelf has no text of it.
fn read_at<H: Shelf>(
    alloc: Global,
    names: &[Name],
    k: usize,
    shelf: &mut H,
) -> Result<Option<Package>, Stop>
    requires { k < length names.now }
    ensures some { IfOk result (λ read. IfSome read (λ p. IfSome (H.texts shelf.old) (λ texts. HasTree texts p.name p.tree))) }
    ensures there { IfOk result (λ read. IfSome read (λ p. slice_get names.now k ≡ Some p.name)) }
    ensures named { IfOk result (λ read. IfSome read (λ p. All (λ n. IsName n.word) p.tree.header.withs.items)) }
    ensures none { IfOk result (λ read. IfNone read (IfSome (H.texts shelf.old) (λ texts. (name : List ℕ) × (slice_get names.now k ≡ Some name) × HasNone texts name))) }
    ensures stopped { IfErr result (λ stop. IfSome (H.texts shelf.old) (λ texts. StopsAt texts k names.now stop)) }
    ensures same { SameTexts (H.texts shelf.old) (H.texts shelf.new) }
    ensures never_falls { H.faults shelf.old ≤ H.faults shelf.new }
    ensures cause { result ≡ Err Stop.Fault → HasRisen (H.faults shelf.old) (H.faults shelf.new) }
{
    let name = name_at(names, k).copy(alloc)?;
    match read(alloc, &name, shelf)? {
        Some(tree) => Ok(Some(Package { name, tree })),
        None => Ok(None),
    }
}

// Puts a package behind the others.
fn keep(packages: &mut Packages, next: Package) -> Result<(), NoMemory>
    ensures asked { OnOk result (packages.new.asked.items ≡ packages.old.asked.items ++ next.name ∷ []) }
    ensures trees { OnOk result (packages.new.trees.items ≡ packages.old.trees.items ++ next.tree ∷ []) }
{
    packages.asked.push(next.name)?;
    packages.trees.push(next.tree)?;
    Ok(())
}

// Puts a package behind the others, and the names that it gives at the end of the list.
fn take_in(
    alloc: Global,
    names: &mut Vec<Name>,
    packages: &mut Packages,
    next: Package,
) -> Result<(), Stop>
    requires few { length names.old.items ≤ package_limit }
    requires named { All (λ n. IsName n.word) next.tree.header.withs.items }
    ensures added { OnOk result (names.new.items ≡ added names.old.items (withs_of next.tree)) }
    ensures few { OnOk result (length names.new.items ≤ package_limit) }
    ensures asked { OnOk result (packages.new.asked.items ≡ packages.old.asked.items ++ next.name ∷ []) }
    ensures trees { OnOk result (packages.new.trees.items ≡ packages.old.trees.items ++ next.tree ∷ []) }
    ensures many { IfErr result (IsTooMany (length (added names.old.items (withs_of next.tree)))) }
{
    add(alloc, names, next.tree.header.withs.as_slice())?;
    keep(packages, next)?;
    Ok(())
}

// Reads package `k` of the list, and puts the names that it gives at the end.
fn step<H: Shelf>(
    alloc: Global,
    names: &mut Vec<Name>,
    packages: &mut Packages,
    k: usize,
    shelf: &mut H,
) -> Result<(), Stop>
    requires after { 0 < k }
    requires there { k < length names.old.items }
    requires few { length names.old.items ≤ package_limit }
    requires paired { ArePaired packages.old.asked.items packages.old.trees.items }
    ensures step { OnOk result (IfSome (H.texts shelf.old) (λ texts. IsStep texts k names.old.items names.new.items)) }
    ensures fetched { OnOk result (IfSome (H.texts shelf.old) (λ texts. AreFetched texts (take k names.old.items) packages.old.asked.items packages.old.trees.items
        → AreFetched texts (take (k + 1) names.new.items) packages.new.asked.items packages.new.trees.items)) }
    ensures paired { OnOk result (ArePaired packages.new.asked.items packages.new.trees.items) }
    ensures few { OnOk result (length names.new.items ≤ package_limit) }
    ensures longer { OnOk result (length names.old.items ≤ length names.new.items) }
    ensures stopped { IfErr result (λ stop. IfSome (H.texts shelf.old) (λ texts. StopsAt texts k names.old.items stop)) }
    ensures same { SameTexts (H.texts shelf.old) (H.texts shelf.new) }
    ensures never_falls { H.faults shelf.old ≤ H.faults shelf.new }
    ensures cause { result ≡ Err Stop.Fault → HasRisen (H.faults shelf.old) (H.faults shelf.new) }
{
    let Some(package) = read_at(alloc, names.as_slice(), k, shelf)? else {
        return Ok(());
    };
    take_in(alloc, names, packages, package)?;
    Ok(())
}

// Reads the packages of the list behind the first one.
fn walk<H: Shelf>(
    alloc: Global,
    names: &mut Vec<Name>,
    packages: &mut Packages,
    shelf: &mut H,
) -> Result<(), Stop>
    requires some { 0 < length names.old.items }
    requires few { length names.old.items ≤ package_limit }
    requires paired { ArePaired packages.old.asked.items packages.old.trees.items }
    ensures closed { OnOk result (IfSome (H.texts shelf.old) (λ texts. (first : List ℕ) → Walked texts first 1 names.old.items
        → AreFetched texts (take 1 names.old.items) packages.old.asked.items packages.old.trees.items → IsClosure texts first packages.new.asked.items packages.new.trees.items)) }
    ensures paired { OnOk result (ArePaired packages.new.asked.items packages.new.trees.items) }
    ensures stopped { IfErr result (λ stop. IfSome (H.texts shelf.old) (λ texts. StopsAt texts 1 names.old.items stop)) }
    ensures same { SameTexts (H.texts shelf.old) (H.texts shelf.new) }
    ensures never_falls { H.faults shelf.old ≤ H.faults shelf.new }
    ensures cause { result ≡ Err Stop.Fault → HasRisen (H.faults shelf.old) (H.faults shelf.new) }
{
    let mut k = 1;
    while k < names.len() {
        step(alloc, names, packages, k, shelf)?;
        k += 1;
    }
    Ok(())
}

// A list of one name.
fn one_name(alloc: Global, name: &Name) -> Result<Vec<Name>, NoMemory>
    ensures { IfOk result (λ names. names.items ≡ name.now ∷ []) }
{
    let mut names = Vec::new(alloc);
    names.push(name.copy(alloc)?)?;
    Ok(names)
}

// No packages.
fn no_packages(alloc: Global) -> Packages
    ensures asked { result.asked.items ≡ [] }
    ensures trees { result.trees.items ≡ [] }
{
    Packages {
        asked: Vec::new(alloc),
        trees: Vec::new(alloc),
    }
}

// What a walk has come to.
#[derive(Debug, Drop)]
struct Begun {
    names: Vec<Name>,
    packages: Packages,
}

// The first package, and the list of its name and of those that it gives.
fn begin_with(alloc: Global, next: Package) -> Result<Begun, Stop>
    requires { All (λ n. IsName n.word) next.tree.header.withs.items }
    ensures names { IfOk result (λ begun. begun.names.items ≡ added (next.name ∷ []) (withs_of next.tree)) }
    ensures few { IfOk result (λ begun. length begun.names.items ≤ package_limit) }
    ensures asked { IfOk result (λ begun. begun.packages.asked.items ≡ next.name ∷ []) }
    ensures trees { IfOk result (λ begun. begun.packages.trees.items ≡ next.tree ∷ []) }
    ensures many { IfErr result (IsTooMany (length (added (next.name ∷ []) (withs_of next.tree)))) }
{
    let mut names = one_name(alloc, &next.name)?;
    let mut packages = no_packages(alloc);
    take_in(alloc, &mut names, &mut packages, next)?;
    Ok(Begun { names, packages })
}

// The package of this name; none where the shelf has no text of it.
fn read_first<H: Shelf>(alloc: Global, name: &Name, shelf: &mut H) -> Result<Package, Stop>
    ensures some { IfOk result (λ p. IfSome (H.texts shelf.old) (λ texts. HasTree texts name.now p.tree)) }
    ensures name { IfOk result (λ p. p.name ≡ name.now) }
    ensures named { IfOk result (λ p. All (λ n. IsName n.word) p.tree.header.withs.items) }
    ensures stopped { IfErr result (λ stop. IfSome (H.texts shelf.old) (λ texts. Stops texts name.now stop)) }
    ensures same { SameTexts (H.texts shelf.old) (H.texts shelf.new) }
    ensures never_falls { H.faults shelf.old ≤ H.faults shelf.new }
    ensures cause { result ≡ Err Stop.Fault → HasRisen (H.faults shelf.old) (H.faults shelf.new) }
{
    let copy = name.copy(alloc)?;
    match read(alloc, name, shelf)? {
        Some(tree) => Ok(Package { name: copy, tree }),
        None => Err(Stop::NoPackage),
    }
}

// The first package, and the list of it and of the names that it gives.
fn begin<H: Shelf>(alloc: Global, name: &Name, shelf: &mut H) -> Result<Begun, Stop>
    ensures walked { IfOk result (λ begun. IfSome (H.texts shelf.old) (λ texts. Walked texts name.now 1 begun.names.items)) }
    ensures fetched { IfOk result (λ begun. IfSome (H.texts shelf.old) (λ texts. AreFetched texts (take 1 begun.names.items) begun.packages.asked.items begun.packages.trees.items)) }
    ensures paired { IfOk result (λ begun. ArePaired begun.packages.asked.items begun.packages.trees.items) }
    ensures some { IfOk result (λ begun. 0 < length begun.names.items) }
    ensures few { IfOk result (λ begun. length begun.names.items ≤ package_limit) }
    ensures stopped { IfErr result (λ stop. IfSome (H.texts shelf.old) (λ texts. Stops texts name.now stop)) }
    ensures same { SameTexts (H.texts shelf.old) (H.texts shelf.new) }
    ensures never_falls { H.faults shelf.old ≤ H.faults shelf.new }
    ensures cause { result ≡ Err Stop.Fault → HasRisen (H.faults shelf.old) (H.faults shelf.new) }
{
    let package = read_first(alloc, name, shelf)?;
    let begun = begin_with(alloc, package)?;
    Ok(begun)
}

/// Reads the package of this name and all others of its closure.
pub fn close<H: Shelf>(alloc: Global, name: &Name, shelf: &mut H) -> Result<Packages, Stop>
    ensures closed { IfOk result (λ packages. IfSome (H.texts shelf.old) (λ texts. IsClosure texts name.now packages.asked.items packages.trees.items)) }
    ensures paired { IfOk result (λ packages. ArePaired packages.asked.items packages.trees.items) }
    ensures stopped { IfErr result (λ stop. IfSome (H.texts shelf.old) (λ texts. Stops texts name.now stop)) }
    ensures same { SameTexts (H.texts shelf.old) (H.texts shelf.new) }
    ensures cause { result ≡ Err Stop.Fault → HasRisen (H.faults shelf.old) (H.faults shelf.new) }
{
    let mut begun = begin(alloc, name, shelf)?;
    walk(alloc, &mut begun.names, &mut begun.packages, shelf)?;
    Ok(begun.packages)
}
